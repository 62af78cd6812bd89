//! `RegularExpression`: a text that is a regular expression.
ghost use Rattle.std.specs.Prelude.{◌≡◌, true, false, MatchOption, IfOk};
ghost use Rattle.csvw_regex.specs.Expressions.{is_expression, fits_expression};

use crate::automaton::Automaton;
use csvw_text::{Copied, Text};
use regex_vm::Backtracker;
use std::alloc::{AllocError, Global};
use std::marker::Model;

/// A regular expression in the syntax of the Rust crate `regex`. Contracts see its bytes.
///
/// Groups, repetitions and classes are nested at most 250 deep.
#[derive(Debug, Drop, PartialEq, Eq)]
pub struct RegularExpression {
    text: Text,
}

impl Model for RegularExpression {
    ghost use Rattle.std.specs.Prelude.{◌≡◌, ℕ, List, true};
    ghost use Rattle.csvw_regex.specs.Expressions.{is_expression};

    ghost Value = { List ℕ };

    ghost view = { λ e. e.text };

    ghost invariant = { λ e. is_expression e.text ≡ true };

    ghost inverse = { λ text. record { text = text } };
}

impl RegularExpression {
    /// Returns the expression that a text is, or `None` if the text is none.
    ///
    /// Returns `AllocError` if memory runs out, or if the automaton of the expression takes more than 10 MiB.
    pub fn of(alloc: Global, text: Text) -> Result<Option<RegularExpression>, AllocError>
        ensures { IfOk result (λ o. MatchOption o (is_expression text ≡ false) (λ e. (e ≡ text) × (is_expression text ≡ true))) }
    {
        match Automaton::of(alloc, text.as_str())? {
            Some(_) => Ok(Some(RegularExpression { text })),
            None => Ok(None),
        }
    }

    /// Returns the text of the expression as a slice.
    pub fn as_str(&self) -> &str
        ensures value { result.now ≡ self.now }
        ensures expression { is_expression self.now ≡ true }
    {
        self.text.as_str()
    }

    /// Returns whether the expression describes the whole of a text. It makes the automaton anew, which `Expressions`
    /// doesn't. Returns `AllocError` if memory runs out.
    pub fn fits(&self, alloc: Global, text: &str) -> Result<bool, AllocError>
        ensures { IfOk result (λ b. b ≡ fits_expression self.now text.now) }
    {
        match Automaton::of(alloc, self.as_str())? {
            Some(mut automaton) => automaton.accepts(alloc, &mut Backtracker::new(alloc), text),
            None => Ok(false),
        }
    }

    /// Returns an equal expression, or `AllocError` if memory runs out.
    pub fn clone(&self, alloc: Global) -> Result<RegularExpression, AllocError>
        ensures { IfOk result (λ e. e ≡ self.now) }
    {
        Ok(RegularExpression {
            text: self.text.clone(alloc)?,
        })
    }
}

impl Copied for RegularExpression {
    fn copied(&self, alloc: Global) -> Result<RegularExpression, AllocError> {
        self.clone(alloc)
    }
}
