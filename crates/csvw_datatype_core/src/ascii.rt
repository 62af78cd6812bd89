//! Bytes that are all ASCII, so they are text.
ghost use Rattle.std.specs.Prelude.{◌≡◌, ◌++◌, OnOk};
ghost use Rattle.std.specs.Str.{IsAscii};

use csvw_text::Text;
use std::alloc::AllocError;

/// Returns the bytes as a text.
pub(crate) fn as_text(bytes: &[u8]) -> &str
    requires { IsAscii bytes.now }
    ensures { result.now ≡ bytes.now }
{
    unsafe { str::from_utf8_unchecked(bytes) }
}

/// Adds bytes at the end of a text. Returns `AllocError` if memory runs out.
pub(crate) fn push_ascii(out: &mut Text, bytes: &[u8]) -> Result<(), AllocError>
    requires { IsAscii bytes.now }
    ensures { OnOk result (out.new ≡ out.old ++ bytes.now) }
{
    out.push_str(as_text(bytes))
}

/// Replaces the text by the bytes. Returns `AllocError` if memory runs out.
pub(crate) fn refill_ascii(out: &mut Text, bytes: &[u8]) -> Result<(), AllocError>
    requires { IsAscii bytes.now }
    ensures { OnOk result (out.new ≡ bytes.now) }
{
    out.refill(as_text(bytes))
}
