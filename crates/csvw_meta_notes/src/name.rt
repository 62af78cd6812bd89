//! Names of properties and of types (Metadata Vocabulary for Tabular Data, section 5.8).
ghost use Rattle.std.specs.Prelude.{◌≡◌, MatchOption, nat_lt, length, true, false};
ghost use Rattle.std.specs.List.{position_or_len, before_first, after_first, list_all};
ghost use Rattle.serde_json.specs.View.{view};
ghost use Rattle.csvw_iri.specs.Prefix.{is_colon};
ghost use Rattle.csvw_text.specs.Class.{is_letter_char};
ghost use Rattle.csvw_meta_core.specs.Pointer.{text_of};
ghost use Rattle.csvw_meta_core.specs.Reads.{Reads};
ghost use Rattle.csvw_meta_notes.specs.Names.{is_scheme_char, is_scheme, has_scheme, name_of, type_name, type_names};

use csvw_iri::{Iri, expand_prefix, made_safe};
use csvw_meta_core::{Part, Reader, Refusal, each};
use csvw_text::Seq;
use serde_json::Value;

fn is_letter(b: u8) -> bool
    ensures { result ≡ is_letter_char b }
{
    matches!(b, b'A'..=b'Z' | b'a'..=b'z')
}

fn is_scheme_byte(b: u8) -> bool
    ensures { result ≡ is_scheme_char b }
{
    is_letter(b) || matches!(b, b'0'..=b'9' | b'+' | b'-' | b'.')
}

fn are_scheme_bytes(bytes: &[u8]) -> bool
    ensures { result ≡ list_all is_scheme_char bytes.now }
{
    bytes.iter().all(|b| is_scheme_byte(*b))
}

fn is_scheme(text: &str) -> bool
    ensures { result ≡ is_scheme text.now }
{
    match text.as_bytes().split_first() {
        Some((first, rest)) => is_letter(*first) && are_scheme_bytes(rest),
        None => false,
    }
}

fn split_at_colon(text: &str) -> Option<(&str, &str)>
    ensures { MatchOption result (nat_lt (position_or_len is_colon text.now) (length text.now) ≡ false)
        (λ x. (nat_lt (position_or_len is_colon text.now) (length text.now) ≡ true)
        × (x.0.now ≡ before_first is_colon text.now) × (x.1.now ≡ after_first is_colon text.now)) }
{
    text.split_once(':')
}

#[tactic(auto, unfolding(crate::specs::Names::has_scheme))]
fn has_scheme(text: &str) -> bool
    ensures { result ≡ has_scheme text.now }
{
    match split_at_colon(text) {
        Some((scheme, _)) => is_scheme(scheme),
        None => false,
    }
}

/// Returns the IRI of a name of this part. If it is not an IRI, the fault is that of a value of a wrong kind:
/// `BadProperty`, or `NotSupported` if the value of the part is a number that is not whole.
pub fn read_name(part: &Part, name: &str) -> Result<Iri, Refusal>
    ensures { Reads result (name_of (text_of part.now.at) (view part.now.value.now) name.now) }
{
    let expanded = expand_prefix(part.alloc, name)?;
    if !has_scheme(expanded.as_str()) {
        return Err(part.wrong());
    }
    Ok(made_safe(part.alloc, expanded.as_str())?)
}

/// Reads one type, which is expanded as a name.
#[derive(Drop)]
pub struct TypeName;

impl Reader for TypeName {
    type Output = Iri;

    ghost reads = { λ _. type_name };

    fn read(&self, part: &Part) -> Result<Iri, Refusal> {
        match part.value.as_str() {
            Some(name) => read_name(part, name),
            None => Err(part.wrong()),
        }
    }
}

/// Reads one type, or an array of types.
#[derive(Drop)]
pub struct TypeNames;

impl Reader for TypeNames {
    type Output = Seq<Iri>;

    ghost reads = { λ _. type_names };

    fn read(&self, part: &Part) -> Result<Seq<Iri>, Refusal> {
        match part.value {
            Value::String(name) => {
                let mut one = Seq::new(part.alloc);
                one.push(read_name(part, name.as_str())?)?;
                Ok(one)
            }
            Value::Array(items) => each(part, &TypeName, items.as_slice()),
            _ => Err(part.wrong()),
        }
    }
}
