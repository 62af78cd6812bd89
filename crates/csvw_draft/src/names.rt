//! The names of columns, made from their titles.
ghost use Rattle.std.specs.Prelude.{◌≡◌, true, OnOk, IfOk, string_bytes};
ghost use Rattle.std.specs.Char.{is_ascii_alphanumeric, IsAsciiAlphanumeric};
ghost use Rattle.csvw_draft.specs.Names.{IsMade};

use std::alloc::{AllocError, Global};
use std::collections::HashSet;
use unicode_normalization::UnicodeNormalization;

/// How many characters a name has at most, without the number that makes it unique.
const NAME_CHARACTERS: usize = 64;

/// Adds `_` to a name that isn't empty.
fn push_gap(name: &mut String) -> Result<(), AllocError>
    ensures { OnOk result (IsMade (string_bytes name.old) → IsMade (string_bytes name.new)) }
{
    if name.is_empty() {
        return Ok(());
    }
    name.push('_')
}

/// Adds a letter or a digit to a name.
fn push_letter(name: &mut String, c: char) -> Result<(), AllocError>
    requires letter { is_ascii_alphanumeric c ≡ true }
    requires ranges { IsAsciiAlphanumeric c }
    ensures { OnOk result (IsMade (string_bytes name.old) → IsMade (string_bytes name.new)) }
{
    name.push(c)
}

/// Adds a character of a title to a name: a letter or a digit as it is, and one `_` for all that is between two of them. Returns
/// whether the character is between them.
fn push_character(name: &mut String, gap: bool, c: char) -> Result<bool, AllocError>
    ensures { OnOk result (IsMade (string_bytes name.old) → IsMade (string_bytes name.new)) }
{
    if is_accent(c) {
        return Ok(gap);
    }
    if !c.is_ascii_alphanumeric() {
        return Ok(true);
    }
    if gap {
        push_gap(name)?;
    }
    push_letter(name, c)?;
    Ok(false)
}

/// Whether a character is a combining diacritical mark, as the accent of a letter is once it is decomposed.
fn is_accent(c: char) -> bool {
    matches!(c, '\u{300}'..='\u{36F}')
}

/// Returns a name made from a title: its letters without their accents, and its digits. One `_` stands for all that is between
/// two of them. It is empty if the title has no such letter and no digit.
pub(crate) fn name_of(alloc: Global, title: &str) -> Result<String, AllocError>
    ensures { IfOk result (λ name. IsMade (string_bytes name)) }
{
    let mut name = String::new(alloc);
    let mut gap = false;
    for c in title.nfd(alloc) {
        if name.len() >= NAME_CHARACTERS {
            break;
        }
        gap = push_character(&mut name, gap, c?)?;
    }
    Ok(name)
}

/// The names of a table's columns.
#[derive(Drop)]
pub(crate) struct Names {
    alloc: Global,
    taken: HashSet<String>,
}

impl Names {
    /// Starts with no names. It takes no memory.
    pub(crate) fn new(alloc: Global) -> Names {
        Names {
            alloc,
            taken: HashSet::new(alloc),
        }
    }

    /// Returns the name of the column of this number, from 1, made from its title. No column so far has it. A column without a
    /// title has none. Returns `AllocError` if memory runs out.
    pub(crate) fn next(
        &mut self,
        title: &str,
        number: usize,
    ) -> Result<Option<String>, AllocError> {
        if title.is_empty() {
            return Ok(None);
        }
        let name = self.unique(self.column_name(title, number)?)?;
        self.taken.insert(name.clone()?)?;
        Ok(Some(name))
    }

    /// Returns a name made from a title, or from the column's number if the title has no letter and no digit.
    fn column_name(&self, title: &str, number: usize) -> Result<String, AllocError> {
        let name = name_of(self.alloc, title)?;
        if name.is_empty() {
            format!(in self.alloc; "column_{number}")
        } else {
            Ok(name)
        }
    }

    /// Returns a name, with a number behind it if a column has the name.
    fn unique(&self, name: String) -> Result<String, AllocError> {
        if !self.taken.contains(name.as_str()) {
            return Ok(name);
        }
        for number in 2..u64::MAX {
            let other = format!(in self.alloc; "{name}_{number}")?;
            if !self.taken.contains(other.as_str()) {
                return Ok(other);
            }
        }
        Ok(name)
    }
}
