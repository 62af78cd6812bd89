//! Reads IRIs, strings and dots at the front of a text.
ghost use Rattle.std.specs.Prelude.{◌≡◌, ℕ, List, codes, MatchOption, ◌↔◌, IsTrue};
ghost use Rattle.csvw_ntriples.specs.Grammar.{Takes, IsMark, TakesIri, IsIdle};
ghost use Rattle.csvw_ntriples.specs.Terminal.{InBytes, IsString};
ghost use Rattle.csvw_ntriples.specs.Reading.{Finds};

use super::enclosed::{Enclosed, body};
use super::runs::{after_blanks, after_char};
use crate::NtFault;
use csvw_text::Text;
use std::alloc::Global;

/// Reads the IRI at the front. Returns it and the text after it.
pub(crate) fn iri(alloc: Global, text: &[char]) -> Result<(Text, &[char]), NtFault>
    ensures { Finds (λ v rest. TakesIri v text.now rest) result }
{
    match after_char(after_blanks(text), '<') {
        Some(after) => body(alloc, Enclosed::Iri, after),
        None => Err(NtFault::Syntax),
    }
}

/// Reads the string at the front. Returns it and the text after it.
pub(crate) fn string(alloc: Global, text: &[char]) -> Result<(Text, &[char]), NtFault>
    ensures { Finds (λ v rest. Takes (InBytes IsString) v text.now rest) result }
{
    match after_char(after_blanks(text), '"') {
        Some(after) => body(alloc, Enclosed::Literal, after),
        None => Err(NtFault::Syntax),
    }
}

/// Returns the text after the dot at its front, or `None` if there is no dot.
pub(crate) fn after_dot(text: &[char]) -> Option<&[char]>
    ensures { MatchOption result
        ((rest : List ℕ) → Takes (IsMark (codes ".")) tt text.now rest → ⊥)
        (λ r. Takes (IsMark (codes ".")) tt text.now r.now) }
{
    after_char(after_blanks(text), '.')
}

/// Returns whether the line has only spaces, tabs and perhaps a comment.
pub(crate) fn is_idle(text: &[char]) -> bool
    ensures { IsTrue result ↔ IsIdle text.now }
{
    match after_blanks(text).split_first() {
        None => true,
        Some((first, _)) => *first == '#',
    }
}
