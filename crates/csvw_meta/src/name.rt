//! The declared names of columns (Metadata Vocabulary for Tabular Data, section 5.6, `name`).
ghost use Rattle.std.specs.Prelude.{◌≡◌, map, IfOk};
ghost use Rattle.std.specs.List.{slice_split, list_all};
ghost use Rattle.csvw_template.specs.Name.{is_hex, is_name_byte};
ghost use Rattle.csvw_meta.specs.DeclaredName.{is_dot, are_varchars, is_piece, is_variable, is_declared, name};

use csvw_description::Name;
use csvw_meta_core::{MetaCode, Part, Reader, Refusal};
use csvw_text::Text;
use std::alloc::{AllocError, Global};

fn is_hex(b: u8) -> bool
    ensures { result ≡ is_hex b }
{
    matches!(b, b'0'..=b'9' | b'A'..=b'F' | b'a'..=b'f')
}

fn is_name_byte(b: u8) -> bool
    ensures { result ≡ is_name_byte b }
{
    matches!(b, b'0'..=b'9' | b'A'..=b'Z' | b'a'..=b'z' | b'_')
}

fn are_varchars(bytes: &[u8]) -> bool
    ensures { result ≡ are_varchars 0 bytes.now }
{
    let mut digits: u8 = 0;
    for b in bytes {
        if digits > 0 {
            if !is_hex(*b) {
                return false;
            }
            digits -= 1;
        } else if *b == b'%' {
            digits = 2;
        } else if !is_name_byte(*b) {
            return false;
        }
    }
    digits == 0
}

fn is_piece(piece: &str) -> bool
    ensures { result ≡ is_piece piece.now }
{
    !piece.is_empty() && are_varchars(piece.as_bytes())
}

fn are_pieces(pieces: &[&str]) -> bool
    ensures { result ≡ list_all is_piece (map (λ x. x.now) pieces.now) }
{
    for piece in pieces {
        if !is_piece(piece) {
            return false;
        }
    }
    true
}

fn pieces<'a>(alloc: Global, text: &'a str) -> Result<Vec<&'a str>, AllocError>
    ensures { IfOk result (λ v. map (λ x. x.now) v.items ≡ slice_split is_dot text.now) }
{
    text.split('.').collect(alloc)
}

#[tactic(auto, unfolding(crate::specs::DeclaredName::is_variable))]
fn is_variable(alloc: Global, text: &str) -> Result<bool, AllocError>
    ensures { IfOk result (λ b. b ≡ is_variable text.now) }
{
    let pieces = pieces(alloc, text)?;
    Ok(are_pieces(pieces.as_slice()))
}

/// Reads a declared name: the name of a variable (RFC 6570, section 2.3) that doesn't begin with `_`. Another text is
/// `BadName`.
#[derive(Drop)]
pub struct NameReader;

impl Reader for NameReader {
    type Output = Name;

    ghost reads = { λ _. name };

    fn read(&self, part: &Part) -> Result<Name, Refusal> {
        let Some(text) = part.value.as_str() else {
            return Err(part.wrong());
        };
        if text.starts_with("_") || !is_variable(part.alloc, text)? {
            return Err(part.refused(MetaCode::BadName));
        }
        match Name::of(Text::copied(part.alloc, text)?) {
            Some(name) => Ok(name),
            None => Err(part.refused(MetaCode::BadName)),
        }
    }
}
