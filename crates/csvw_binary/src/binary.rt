//! How a text writes bytes.
ghost use Rattle.std.specs.Prelude.{◌≡◌, IfOk, IfSome, IsSomeAnd, List, ℕ, Some, length};
ghost use Rattle.hex.specs.Hex.{IsBytes};
ghost use Rattle.csvw_binary.specs.Binaries.{IsEncoded, binary_form, decoded, encoded, octet_count};

use crate::base64_binary::base64_text;
use crate::hex_binary::hex_text;
use crate::octets::{base64_octets, hex_octets};
use csvw_text::Text;
use std::alloc::{AllocError, Global};

/// How a text writes bytes: the two types of binary data (XML Schema 1.1 part 2, sections 3.3.15 and 3.3.16).
#[derive(Clone, Copy, Debug, PartialEq, Eq)]
pub enum BinaryForm {
    /// `hexBinary`: two hexadecimal digits for each byte.
    Hex,
    /// `base64Binary`: base64 with padding (RFC 4648, section 4). There may be spaces between the characters.
    Base64,
}

/// Returns the canonical text of the bytes that a text writes, or `None` if the text isn't of the type.
///
/// - `Hex`: pairs of hexadecimal digits of either case, also none. The canonical text has upper-case digits.
/// - `Base64`: the canonical text has no spaces. It must be exactly the encoding of bytes, also of none. `TQ` has no
///   padding and `TR==` has bits left over, so both are refused.
///
/// Returns `AllocError` if memory runs out.
pub fn binary_text(alloc: Global, form: BinaryForm, text: &str) -> Result<Option<Text>, AllocError>
    ensures form { IfOk result (λ found. found ≡ binary_form form text.now) }
    ensures encoded { IfOk result (λ found. IfSome found (λ canonical. IsEncoded form canonical)) }
{
    match form {
        BinaryForm::Hex => hex_text(alloc, text),
        BinaryForm::Base64 => base64_text(alloc, text),
    }
}

/// Returns the number of octets that a canonical text writes. It takes no memory.
pub fn octet_count(form: BinaryForm, text: &str) -> u64
    ensures { result ≡ octet_count form text.now }
{
    match form {
        BinaryForm::Hex => hex_octets(text),
        BinaryForm::Base64 => base64_octets(text),
    }
}

/// A law: the canonical text of a text is of the type, and is its own canonical text.
pub fn one_binary_text()
    ensures { (form : BinaryForm) (text canonical : List ℕ) → binary_form form text ≡ Some canonical
        → binary_form form canonical ≡ Some canonical }
{}

/// A law: the canonical text of bytes is of the type and its own canonical text, and `octet_count` is how many bytes they
/// are.
pub fn encoded_texts()
    ensures { (form : BinaryForm) (bytes : List ℕ) → IsBytes bytes
        → (binary_form form (encoded form bytes) ≡ Some (encoded form bytes))
        × (octet_count form (encoded form bytes) ≡ length bytes) }
{}

/// A law: a canonical text decodes to bytes, it is their encoding, and `octet_count` is how many they are.
pub fn decoded_octets()
    ensures { (form : BinaryForm) (text canonical : List ℕ) → IsBytes text → binary_form form text ≡ Some canonical
        → IsSomeAnd (decoded form canonical)
        (λ bytes. (canonical ≡ encoded form bytes) × (octet_count form canonical ≡ length bytes)) }
{}
