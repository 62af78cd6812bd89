//! The parts of a plan.
ghost use Rattle.std.specs.Prelude.{◌≡◌, ◌==◌, IfOk, filter};
ghost use Rattle.std.specs.List.{find};
ghost use Rattle.csvw_part_plan.specs.Plans.{file_length, is_later, last_of, part_count};

use crate::piece::Piece;
use csvw_text::Seq;
use std::alloc::{AllocError, Global};

/// Returns the number of parts: the part of the last piece. It is 0 if there is no piece.
pub fn part_count(pieces: &[Piece]) -> u32
    ensures { result ≡ part_count pieces.now }
{
    match pieces.last() {
        Some(piece) => piece.part,
        None => 0,
    }
}

/// Returns the pieces of a part, in order, or `AllocError` if memory runs out.
pub fn pieces_of(alloc: Global, pieces: &[Piece], part: u32) -> Result<Seq<Piece>, AllocError>
    ensures { IfOk result (λ found. found ≡ filter (λ p. p.part == part) pieces.now) }
{
    let mut found = Seq::new(alloc);
    for piece in pieces {
        if piece.part == part {
            found.push(*piece)?;
        }
    }
    Ok(found)
}

/// Returns the number of bytes of a table's file: the place where its last piece ends. Returns `None` if the plan has no piece of the
/// table, or if the place is no `u64`.
pub fn file_length(pieces: &[Piece], table: u32) -> Option<u64>
    ensures { result ≡ file_length table pieces.now }
{
    let last = last_of(pieces, table)?;
    last.first_byte.checked_add(last.bytes)
}

/// Returns the last piece of a table.
fn last_of(pieces: &[Piece], table: u32) -> Option<Piece>
    ensures { result ≡ last_of table pieces.now }
{
    let mut last = None;
    for piece in pieces {
        if piece.table == table {
            last = Some(*piece);
        }
    }
    last
}

/// Returns whether a piece is of the same table in a later part.
fn is_later(before: &Piece, piece: &Piece) -> bool
    ensures { result ≡ is_later before.now piece.now }
{
    piece.table == before.table && before.part < piece.part
}

/// Returns the piece after a piece in its table: the first one of the table in a later part.
pub fn next_piece(pieces: &[Piece], before: &Piece) -> Option<Piece>
    ensures { result ≡ find (is_later before.now) pieces.now }
{
    for piece in pieces {
        if is_later(before, piece) {
            return Some(*piece);
        }
    }
    None
}
