//! `write_out`: a write of many bytes that reports how many went out.
ghost use Rattle.std.specs.Prelude.{◌≡◌, ◌<◌, length, take, OnOk, IfErr};
ghost use Rattle.std.specs.Io.KnownBytes.{Appends};
ghost use Rattle.csvw_streams.specs.Count.{one_more};
ghost use Rattle.csvw_streams.specs.Counted.{inner_of, failures_of};

use crate::Counted;
use std::io::Write;

/// The error of a write that was cut off.
#[derive(Clone, Copy, Debug, PartialEq, Eq)]
pub struct Cut {
    /// The number of bytes that went out. They are a front of the bytes to write.
    pub sent: usize,
}

/// Writes all the bytes, by its own loop over `write`.
///
/// Returns a `Cut` if a `write` fails, or if it takes none of the bytes that are left.
pub fn write_out<W: Write>(w: &mut Counted<W>, bytes: &[u8]) -> Result<(), Cut>
    ensures ok { OnOk result (Appends (W.contents (inner_of w.old)) (W.contents (inner_of w.new)) bytes.now) }
    ensures ok_count { OnOk result (failures_of w.new ≡ failures_of w.old) }
    ensures cut { IfErr result (λ c. Appends (W.contents (inner_of w.old)) (W.contents (inner_of w.new)) (take c.sent bytes.now)) }
    ensures cut_before_end { IfErr result (λ c. c.sent < length bytes.now) }
    ensures cut_count { IfErr result (λ _. failures_of w.new ≡ one_more (failures_of w.old)) }
{
    let mut sent = 0;
    while sent < bytes.len() {
        match w.write(&bytes[sent..]) {
            Ok(n) if n > 0 => sent += n,
            _ => return Err(Cut { sent }),
        }
    }
    Ok(())
}
