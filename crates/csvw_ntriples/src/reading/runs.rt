//! Runs of characters of one class, and the first characters of a text.
ghost use Rattle.std.specs.Prelude.{◌≡◌, ℕ, List, ◌∷◌, MatchOption};
ghost use Rattle.csvw_ntriples.specs.Reading.{is_in, IsRun, dark, StartsSo};

use super::character::{is_blank, is_label_char, is_letter_or_digit};

/// The classes of characters that a run may have.
#[derive(Clone, Copy)]
pub(crate) enum Class {
    /// Spaces and tabs.
    Blank,
    /// The characters of labels, and dots.
    Label,
    /// Letters, digits and dashes.
    Tag,
}

/// The first characters of a text, after spaces and tabs.
#[derive(Clone, Copy)]
pub(crate) enum Start {
    Iri,
    Blank,
    Literal,
    Other,
}

fn is_in(class: Class, c: char) -> bool
    ensures { result ≡ is_in class c }
{
    match class {
        Class::Blank => is_blank(c),
        Class::Label => is_label_char(c) || c == '.',
        Class::Tag => is_letter_or_digit(c) || c == '-',
    }
}

/// Returns the longest front of characters of the class, and the text after it.
pub(crate) fn run(class: Class, text: &[char]) -> (&[char], &[char])
    ensures { IsRun (is_in class) text.now result.0.now result.1.now }
{
    for (i, c) in text.iter().enumerate() {
        if !is_in(class, *c) {
            return text.split_at(i);
        }
    }
    text.split_at(text.len())
}

/// Returns the text after the spaces and tabs at its front.
pub(crate) fn after_blanks(text: &[char]) -> &[char]
    ensures { (gap : List ℕ) × IsRun (is_in Class.Blank) text.now gap result.now }
{
    run(Class::Blank, text).1
}

/// Returns the text after this character at its front, or `None` if it does not begin with it.
pub(crate) fn after_char(text: &[char], c: char) -> Option<&[char]>
    ensures { MatchOption result ((rest : List ℕ) → text.now ≡ c ∷ rest → ⊥) (λ r. text.now ≡ c ∷ r.now) }
{
    match text.split_first() {
        Some((first, rest)) if *first == c => Some(rest),
        _ => None,
    }
}

/// Returns the text after these two characters at its front, or `None` if it does not begin with them.
pub(crate) fn after_two(text: &[char], first: char, second: char) -> Option<&[char]>
    ensures { MatchOption result ((rest : List ℕ) → text.now ≡ first ∷ second ∷ rest → ⊥) (λ r. text.now ≡ first ∷ second ∷ r.now) }
{
    after_char(after_char(text, first)?, second)
}

/// Returns which characters the text begins with, after spaces and tabs.
pub(crate) fn start_of(text: &[char]) -> Start
    ensures { StartsSo text.now result }
{
    let Some((first, _)) = after_blanks(text).split_first() else {
        return Start::Other;
    };
    if *first == '<' {
        Start::Iri
    } else if *first == '_' {
        Start::Blank
    } else if *first == '"' {
        Start::Literal
    } else {
        Start::Other
    }
}
