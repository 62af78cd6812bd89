//! `push_percent_encoded`: a text with all but its unreserved characters percent-encoded.
ghost use Rattle.std.specs.Prelude.{◌≡◌, ◌++◌, OnOk, string_bytes};
ghost use Rattle.csvw_iri.specs.Encoded.{percent_encoded};

use percent_encoding::{AsciiSet, NON_ALPHANUMERIC, ascii_set, utf8_percent_encode};
use std::alloc::AllocError;

/// All of ASCII except the unreserved characters (RFC 3986, section 2.3).
const BUT_UNRESERVED: AsciiSet = ascii_set!(
    NON_ALPHANUMERIC
        .remove(b'-')
        .remove(b'.')
        .remove(b'_')
        .remove(b'~')
);

/// Adds a text with all but its unreserved characters percent-encoded (RFC 3986, section 2.1). Returns `AllocError`
/// if memory runs out.
#[tactic(auto, using(crate::proofs::EncodedLemmas::all_but_unreserved))]
pub fn push_percent_encoded(out: &mut String, text: &str) -> Result<(), AllocError>
    ensures { OnOk result (string_bytes out.new ≡ string_bytes out.old ++ percent_encoded text.now) }
{
    utf8_percent_encode(text, BUT_UNRESERVED).append_to(out)
}
