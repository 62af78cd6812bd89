//! Prints what bytes in memory hold: the length and the checksum of each front that ends with a line.
use csvw_api::{Outcome, Stop};
use std::io;

/// The checksum of no bytes (FNV-1a, 32 bits).
const NOTHING: u32 = 0x811c_9dc5;

/// Returns the checksum of some bytes and one more.
fn with_byte(sum: u32, byte: u8) -> u32 {
    (sum ^ u32::from(byte)).wrapping_mul(16_777_619)
}

/// Returns the checksum of a text that follows bytes of this checksum.
pub(crate) fn with_text(sum: u32, text: &str) -> u32 {
    let mut sum = sum;
    for byte in text.as_bytes() {
        sum = with_byte(sum, *byte);
    }
    sum
}

/// Returns the checksum of no bytes.
pub(crate) fn of_nothing() -> u32 {
    NOTHING
}

/// Prints the length of each front that ends with a line, with its checksum, and the length of all.
pub(crate) fn print_marks(rt: &HostRuntime, bytes: &[u8]) -> io::Result<()> {
    let mut sum = NOTHING;
    let mut len = 0u64;
    for byte in bytes {
        sum = with_byte(sum, *byte);
        len = len.wrapping_add(1);
        if *byte == b'\n' {
            print!(rt; " {len}:{sum:08x}")?;
        }
    }
    print!(rt; " of {len}")
}

/// Prints what a run or a session returned.
pub(crate) fn print_result(rt: &HostRuntime, returned: &Result<Outcome, Stop>) -> io::Result<()> {
    match returned {
        Ok(outcome) => print!(rt; "Ok {}", outcome.faults.len()),
        Err(stop) => print!(rt; "{stop:?}"),
    }
}
