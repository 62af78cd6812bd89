//! Whether a piece follows those before it.
ghost use Rattle.std.specs.Prelude.{◌≡◌, ◌+◌, ◌==◌};
ghost use Rattle.csvw_part_plan.specs.Order.{first_fault, begin_fault, end_fault, fault_after, next_fault, table_fault, going_fault};

use crate::fault::LineFault;
use crate::piece::Piece;

/// Returns whether the second number is the next after the first.
fn is_next(first: u32, second: u32) -> bool
    ensures { result ≡ (second == first + 1) }
{
    0 < second && second - 1 == first
}

/// Returns whether the bytes of a piece end at this place.
fn ends_at(piece: &Piece, place: u64) -> bool
    ensures { result ≡ (place == piece.now.first_byte + piece.now.bytes) }
{
    piece.first_byte <= place && place - piece.first_byte == piece.bytes
}

/// Returns the rule that the end of a piece breaks.
fn end_fault(piece: &Piece) -> Option<LineFault>
    ensures { result ≡ end_fault piece.now }
{
    if piece.first_byte.checked_add(piece.bytes).is_none() {
        return Some(LineFault::LastByte);
    }
    None
}

/// Returns the rule that a piece breaks as the first of its table.
fn begin_fault(piece: &Piece) -> Option<LineFault>
    ensures { result ≡ begin_fault piece.now }
{
    if piece.first_byte != 0 {
        return Some(LineFault::FirstByte);
    }
    if piece.rows_before != 0 || piece.data_rows_before != 0 {
        return Some(LineFault::Rows);
    }
    end_fault(piece)
}

/// Returns the rule that a piece breaks as the first of a plan.
fn first_fault(piece: &Piece) -> Option<LineFault>
    ensures { result ≡ first_fault piece.now }
{
    if piece.part != 1 {
        return Some(LineFault::Part);
    }
    if piece.table != 1 {
        return Some(LineFault::Table);
    }
    begin_fault(piece)
}

/// Returns the rule that a piece breaks after another of its table.
fn going_fault(before: &Piece, piece: &Piece) -> Option<LineFault>
    ensures { result ≡ going_fault before.now piece.now }
{
    if !is_next(before.part, piece.part) {
        return Some(LineFault::Part);
    }
    if piece.first_byte == 0 || !ends_at(before, piece.first_byte) {
        return Some(LineFault::FirstByte);
    }
    if piece.rows_before < before.rows_before || piece.data_rows_before < before.data_rows_before {
        return Some(LineFault::Rows);
    }
    if piece.header_bytes != before.header_bytes {
        return Some(LineFault::HeaderBytes);
    }
    end_fault(piece)
}

/// Returns the rule that a piece breaks after the last piece of the table before.
fn table_fault(before: &Piece, piece: &Piece) -> Option<LineFault>
    ensures { result ≡ table_fault before.now piece.now }
{
    if !is_next(before.table, piece.table) {
        return Some(LineFault::Table);
    }
    if piece.part != before.part && !is_next(before.part, piece.part) {
        return Some(LineFault::Part);
    }
    begin_fault(piece)
}

/// Returns the rule that a piece breaks after another one.
fn next_fault(before: &Piece, piece: &Piece) -> Option<LineFault>
    ensures { result ≡ next_fault before.now piece.now }
{
    if piece.table == before.table {
        going_fault(before, piece)
    } else {
        table_fault(before, piece)
    }
}

/// Returns the first rule that a piece breaks after those before it in a plan. There may be none before it. If the pieces before it
/// tile fronts of files and it breaks no rule, all of them tile fronts of files: the law `tiling_goes_on`.
pub fn fault_after(before: &[Piece], piece: &Piece) -> Option<LineFault>
    ensures { result ≡ fault_after before.now piece.now }
{
    match before.last() {
        Some(last) => next_fault(last, piece),
        None => first_fault(piece),
    }
}
