//! `Name`: the name of a column.
ghost use Rattle.std.specs.Prelude.{◌≡◌, true, false, IfOk, MatchOption};
ghost use Rattle.csvw_iri.specs.Encoded.{percent_encoded};
ghost use Rattle.csvw_iri.specs.Safe.{is_iri};
ghost use Rattle.csvw_description.specs.Name.{numbered};

use csvw_iri::{is_raw_text, push_percent_encoded};
use csvw_text::{Copied, Text};
use std::alloc::{AllocError, Global};
use std::marker::Model;

/// The name of a column. Its characters may all be raw in an IRIREF (N-Triples 1.1, section 7), so the name may be
/// the fragment of an IRI. Contracts see its bytes.
#[derive(Debug, Drop, PartialEq, Eq, PartialOrd, Ord)]
pub struct Name {
    text: Text,
}

impl Model for Name {
    ghost use Rattle.std.specs.Prelude.{◌≡◌, ℕ, List, true};
    ghost use Rattle.csvw_iri.specs.Safe.{is_iri};

    ghost Value = { List ℕ };

    ghost view = { λ name. name.text };

    ghost invariant = { λ name. is_iri name.text ≡ true };

    ghost inverse = { λ text. record { text = text } };
}

impl Name {
    /// Returns the name that a text is, or `None` if a character of it may not be raw in an IRIREF. It takes no
    /// memory.
    pub fn of(text: Text) -> Option<Name>
        ensures { MatchOption result (is_iri text ≡ false) (λ n. (n ≡ text) × (is_iri text ≡ true)) }
    {
        if is_raw_text(text.as_str()) {
            Some(Name { text })
        } else {
            None
        }
    }

    /// Returns a title as a name (Metadata Vocabulary for Tabular Data, section 5.6, `name`). All but unreserved
    /// characters are percent-encoded. Returns `AllocError` if memory runs out.
    pub fn of_title(alloc: Global, title: &str) -> Result<Name, AllocError>
        ensures { IfOk result (λ name. name ≡ percent_encoded title.now) }
    {
        let mut name = String::new(alloc);
        push_percent_encoded(&mut name, title)?;
        Ok(Name {
            text: Text::of(name),
        })
    }

    /// Returns the name of a column that has neither a name nor a title: `_col.` and its number, from 1 (Metadata
    /// Vocabulary for Tabular Data, section 5.6, `name`). Returns `AllocError` if memory runs out.
    pub fn numbered(alloc: Global, number: usize) -> Result<Name, AllocError>
        ensures { IfOk result (λ name. name ≡ numbered number) }
    {
        Ok(Name {
            text: Text::of(format!(in alloc; "_col.{number}")?),
        })
    }

    /// Returns the name as a slice.
    pub fn as_str(&self) -> &str
        ensures value { result.now ≡ self.now }
        ensures raw { is_iri self.now ≡ true }
    {
        self.text.as_str()
    }

    /// Returns an equal name, or `AllocError` if memory runs out.
    pub fn clone(&self, alloc: Global) -> Result<Name, AllocError>
        ensures { IfOk result (λ n. n ≡ self.now) }
    {
        Ok(Name {
            text: self.text.clone(alloc)?,
        })
    }
}

impl Copied for Name {
    fn copied(&self, alloc: Global) -> Result<Name, AllocError> {
        self.clone(alloc)
    }
}
