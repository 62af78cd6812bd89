//! Reads the labels of blank nodes.
ghost use Rattle.std.specs.Prelude.{◌≡◌, ◌++◌, ℕ, List, IfOk, encode_utf8_all, IsTrue, ◌↔◌};
ghost use Rattle.csvw_ntriples.specs.Grammar.{TakesBlank};
ghost use Rattle.csvw_ntriples.specs.Reading.{Finds, BeginsLabel, EndsWithoutDot, TakesLabel};

use super::character::is_label_start;
use super::runs::{Class, after_blanks, after_two, run};
use crate::NtFault;
use csvw_text::Text;
use std::alloc::{AllocError, Global};

/// Returns the length of the text without the dots at its end.
fn length_without_dots(text: &[char]) -> usize
    ensures { EndsWithoutDot text.now result }
{
    let mut end = text.len();
    while end > 0 && text[end - 1] == '.' {
        end -= 1;
    }
    end
}

/// Makes a text of some characters.
pub(crate) fn text_of(alloc: Global, characters: &[char]) -> Result<Text, AllocError>
    ensures { IfOk result (λ t. t ≡ encode_utf8_all characters.now) }
{
    let text: String = characters.iter().copied().collect(alloc)?;
    Ok(Text::of(text))
}

fn begins_label(text: &[char]) -> bool
    ensures { IsTrue result ↔ BeginsLabel text.now }
{
    match text.split_first() {
        Some((first, _)) => is_label_start(*first),
        None => false,
    }
}

/// Reads the label at the front. Returns it and the text after it.
fn label(alloc: Global, text: &[char]) -> Result<(Text, &[char]), NtFault>
    ensures { Finds (λ v rest. TakesLabel v text.now rest) result }
{
    let front = run(Class::Label, text).0;
    let (name, rest) = text.split_at(length_without_dots(front));
    if !begins_label(name) {
        return Err(NtFault::Syntax);
    }
    match text_of(alloc, name) {
        Ok(label) => Ok((label, rest)),
        Err(_) => Err(NtFault::Memory),
    }
}

/// Reads the blank node at the front. Returns its label and the text after it.
pub(crate) fn blank(alloc: Global, text: &[char]) -> Result<(Text, &[char]), NtFault>
    ensures { Finds (λ v rest. TakesBlank v text.now rest) result }
{
    match after_two(after_blanks(text), '_', ':') {
        Some(after) => label(alloc, after),
        None => Err(NtFault::Syntax),
    }
}
