//! The status of a check, and what it says of a group.

/// The status if no fault counts.
pub const VALID: u8 = 0;

/// The status if a fault counts.
pub const INVALID: u8 = 1;

/// The status if the document or a table can't be read.
pub const REFUSED: u8 = 3;

/// The status if memory, a file or a stream failed.
pub const DEVICE: u8 = 4;

/// Returns what a status says of a group.
pub(crate) fn verdict(status: u8) -> &'static str {
    match status {
        VALID => "valid",
        INVALID => "not valid",
        _ => "not read to its end",
    }
}
