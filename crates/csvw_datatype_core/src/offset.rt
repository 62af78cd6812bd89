//! The one text of an offset.
ghost use Rattle.std.specs.Prelude.{◌≡◌, ◌≤◌, ◌<◌, ◌++◌, ◌∷◌, OnOk};
ghost use Rattle.csvw_datatype_core.specs.DateTimes.{IsOffset};
ghost use Rattle.csvw_datatype_core.specs.Offsets.{hours_and_minutes, offset_text, sign_of};

use crate::ascii::push_ascii;
use csvw_text::Text;
use std::alloc::AllocError;

fn sign_of(minutes: i32) -> u8
    ensures { result ≡ sign_of minutes }
{
    if minutes < 0 { b'-' } else { b'+' }
}

/// Appends a sign, hours and minutes. Returns `AllocError` if memory runs out.
fn push_hours(out: &mut Text, sign: u8, minutes: u32) -> Result<(), AllocError>
    requires sign { sign < 128 }
    requires minutes { minutes ≤ 840 }
    ensures { OnOk result (out.new ≡ out.old ++ (sign ∷ hours_and_minutes minutes)) }
{
    let hours = (minutes / 60) as u8;
    let rest = (minutes % 60) as u8;
    push_ascii(
        out,
        &[
            sign,
            48 + hours / 10,
            48 + hours % 10,
            b':',
            48 + rest / 10,
            48 + rest % 10,
        ],
    )
}

/// Appends the text of an offset of so many minutes: `Z` if it is 0, and else its sign, hours and minutes (XML Schema 1.1 part 2,
/// section 3.3.7.2). Returns `AllocError` if memory runs out.
pub(crate) fn push_offset(out: &mut Text, minutes: i32) -> Result<(), AllocError>
    requires { IsOffset minutes }
    ensures { OnOk result (out.new ≡ out.old ++ offset_text minutes) }
{
    if minutes == 0 {
        out.push_str("Z")
    } else {
        push_hours(out, sign_of(minutes), minutes.unsigned_abs())
    }
}
