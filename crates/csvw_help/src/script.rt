//! A text that is made of templates.

use crate::arguments::possible_values;
use crate::roff::{push_capitals, push_roff, push_roff_char, push_roff_line, push_shape};
use crate::words::{
    push_fish_inner, push_fish_quoted, push_fish_twice, push_fish_word, push_function,
    push_inner_word, push_posix_text, push_specification, push_word,
};
use clap::Arg;
use std::alloc::AllocError;
use std::mem::replace;

/// Adds a part in the form that a letter of a template names.
fn push_part(text: &mut String, form: char, part: &str) -> Result<(), AllocError> {
    match form {
        'w' => push_word(text, part),
        'f' => push_function(text, part),
        't' => push_posix_text(text, part),
        'i' => push_inner_word(text, part),
        's' => push_specification(text, part),
        'W' => push_fish_word(text, part),
        'Q' => push_fish_quoted(text, part),
        'I' => push_fish_inner(text, part),
        'D' => push_fish_twice(text, part),
        'r' => push_roff(text, part),
        'c' => push_capitals(text, part),
        'l' => push_roff_line(text, part),
        _ => text.push_str(part),
    }
}

/// Adds what stands between two percent signs of a template: a letter, in whose form a part is written, and a text.
fn push_piece(text: &mut String, piece: &str, part: &str) -> Result<(), AllocError> {
    let mut rest = piece.chars();
    if let Some(form) = rest.next() {
        push_part(text, form, part)?;
    }
    text.push_str(rest.as_str())
}

/// Adds a template with a part.
fn push_template(text: &mut String, template: &str, part: &str) -> Result<(), AllocError> {
    let Some((first, rest)) = template.split_once('%') else {
        return text.push_str(template);
    };
    text.push_str(first)?;
    for piece in rest.split('%') {
        push_piece(text, piece, part)?;
    }
    Ok(())
}

/// Adds some parts of one form, with a text between them.
fn push_parts(
    text: &mut String,
    form: char,
    between: &str,
    parts: &[&str],
) -> Result<(), AllocError> {
    for (i, part) in parts.iter().enumerate() {
        text.push_str(if i == 0 { "" } else { between })?;
        push_part(text, form, part)?;
    }
    Ok(())
}

/// Adds a template with some parts, in the form that the letter after its percent sign names.
fn push_list(
    text: &mut String,
    template: &str,
    between: &str,
    parts: &[&str],
) -> Result<(), AllocError> {
    let Some((before, rest)) = template.split_once('%') else {
        return text.push_str(template);
    };
    text.push_str(before)?;
    let mut after = rest.chars();
    if let Some(form) = after.next() {
        push_parts(text, form, between, parts)?;
    }
    text.push_str(after.as_str())
}

/// Adds a letter, as roff if the form is `r`, and else as it is.
fn push_letter(text: &mut String, form: char, letter: char) -> Result<(), AllocError> {
    match form {
        'r' => push_roff_char(text, letter),
        _ => text.push(letter),
    }
}

/// A text to which texts and templates are added. Once memory runs out, no more is added.
///
/// Each method takes the script and returns it. A call that changes a borrowed script beside a borrowed command takes several times
/// as long to prove.
///
/// In a template a percent sign and a letter stand for a part, in one of these forms:
///
/// - `%p`: as it is,
/// - `%w`: as a word of bash and zsh,
/// - `%f`: as the name of the function that completes a program of this name,
/// - `%t`, `%i`, `%s`: within quotes of zsh, as a text, a word, or a text of a specification,
/// - `%W`, `%Q`: as a word of fish, or in quotes of fish,
/// - `%I`, `%D`: as a word that fish reads twice, within quotes or not,
/// - `%r`, `%c`: as roff, in capitals for `%c`,
/// - `%l`: as a line of roff.
pub(crate) struct Script {
    text: String,
    is_cut: bool,
}

impl Script {
    /// Takes a text, to add to it. `end` puts it back.
    pub(crate) fn of(text: &mut String) -> Script {
        let alloc = *text.allocator();
        Script {
            text: replace(text, String::new(alloc)),
            is_cut: false,
        }
    }

    /// Adds a text as it is.
    pub(crate) fn push(mut self, text: &str) -> Script {
        if !self.is_cut {
            self.is_cut = self.text.push_str(text).is_err();
        }
        self
    }

    /// Adds a template with a part.
    pub(crate) fn fill(mut self, template: &str, part: &str) -> Script {
        if !self.is_cut {
            self.is_cut = push_template(&mut self.text, template, part).is_err();
        }
        self
    }

    /// Adds a template with some parts in place of one, and a text between them.
    pub(crate) fn add_list(mut self, template: &str, between: &str, parts: &[&str]) -> Script {
        if !self.is_cut {
            self.is_cut = push_list(&mut self.text, template, between, parts).is_err();
        }
        self
    }

    /// Adds a template with the values that an argument can have, and a text between them, or another text if they are free.
    pub(crate) fn add_values(
        self,
        template: &str,
        between: &str,
        arg: &Arg<'_>,
        free: &str,
    ) -> Script {
        let (script, values) = self.values(arg);
        if values.is_empty() {
            script.push(free)
        } else {
            script.add_list(template, between, values.as_slice())
        }
    }

    /// Adds a letter, as roff if the form is `r`, and else as it is.
    pub(crate) fn add_letter(mut self, form: char, letter: char) -> Script {
        if !self.is_cut {
            self.is_cut = push_letter(&mut self.text, form, letter).is_err();
        }
        self
    }

    /// Adds an argument as the command line shows it, as roff.
    pub(crate) fn add_shape(mut self, arg: &Arg<'_>) -> Script {
        if !self.is_cut {
            self.is_cut = push_shape(&mut self.text, arg).is_err();
        }
        self
    }

    /// Returns the script, and the values that an argument can have: none if they are free or memory runs out.
    pub(crate) fn values<'v>(mut self, arg: &Arg<'v>) -> (Script, Vec<&'v str>) {
        let alloc = *self.text.allocator();
        let values = match possible_values(alloc, arg) {
            Ok(values) => values,
            Err(_) => {
                self.is_cut = true;
                Vec::new(alloc)
            }
        };
        (self, values)
    }

    /// Puts the text back. Fails with `AllocError` if memory ran out.
    pub(crate) fn end(self, text: &mut String) -> Result<(), AllocError> {
        let Script { text: made, is_cut } = self;
        *text = made;
        if is_cut { Err(AllocError) } else { Ok(()) }
    }
}
