//! How a text writes a boolean.
ghost use Rattle.std.specs.Prelude.{◌≡◌, MatchOption, Bool};
ghost use Rattle.csvw_datatype.specs.Reads.{SpellsTruth};

use crate::format::Format;

/// Returns the boolean that a text writes.
pub(crate) fn read_truth(format: &Option<Format>, text: &str) -> Option<bool>
    ensures { MatchOption result ((b : Bool) → ¬ SpellsTruth format.now text.now b) (SpellsTruth format.now text.now) }
{
    match format {
        Some(Format::Truth(texts)) => {
            if text == texts.if_true.as_str() {
                Some(true)
            } else if text == texts.if_false.as_str() {
                Some(false)
            } else {
                None
            }
        }
        _ => match text.as_bytes() {
            [b't', b'r', b'u', b'e'] | [b'1'] => Some(true),
            [b'f', b'a', b'l', b's', b'e'] | [b'0'] => Some(false),
            _ => None,
        },
    }
}
