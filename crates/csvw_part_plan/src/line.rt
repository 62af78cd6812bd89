//! The line of a piece, read.
ghost use Rattle.std.specs.Prelude.{◌≡◌, ◌<◌, ◌≤◌, ◌^◌, ◌++◌, List, ℕ, MatchOption};
ghost use Rattle.csvw_part_plan.specs.Plans.{Fits, line};
ghost use Rattle.csvw_part_plan.specs.declared.piece.Piece.{Piece};

use crate::digits::number;
use crate::piece::Piece;

/// Returns the number as a `u32`, if it is one.
fn narrow(number: u64) -> Option<u32>
    ensures { MatchOption result (2 ^ 32 ≤ number) (λ narrow. (narrow ≡ number) × (narrow < 2 ^ 32)) }
{
    u32::try_from(number).ok()
}

/// Reads a piece from its line at the front of the text. Returns the piece and what follows its line.
pub(crate) fn piece_at(text: &[u8]) -> Option<(Piece, &[u8])>
    ensures { MatchOption result ((p : Piece) (rest : List ℕ) → Fits p → (text.now ≡ line p ++ rest) → ⊥)
        (λ read. (text.now ≡ line read.0 ++ read.1.now) × Fits read.0) }
{
    let (part, text) = number(text, b',')?;
    let (table, text) = number(text, b',')?;
    let (first_byte, text) = number(text, b',')?;
    let (bytes, text) = number(text, b',')?;
    let (rows_before, text) = number(text, b',')?;
    let (data_rows_before, text) = number(text, b',')?;
    let (header_bytes, text) = number(text, b'\n')?;
    let piece = Piece {
        part: narrow(part)?,
        table: narrow(table)?,
        first_byte,
        bytes,
        rows_before,
        data_rows_before,
        header_bytes,
    };
    Some((piece, text))
}
