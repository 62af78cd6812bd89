//! The texts that are null.
ghost use Rattle.std.specs.Prelude.{◌≡◌, IfOk, bytes_eq};
ghost use Rattle.std.specs.List.{list_any};
ghost use Rattle.csvw_description.specs.Nulls.{IsSetOf};

use csvw_text::{Seq, Text};
use std::alloc::{AllocError, Global};
use std::collections::BTreeSet;
use std::marker::Model;

/// The largest number of texts that are compared one after another.
const FEW: usize = 8;

/// The texts that are null (Metadata Vocabulary for Tabular Data, section 5.7). Contracts see the list of the texts,
/// in the order of the document.
///
/// More than `FEW` texts are looked up in an ordered set, which is made once.
#[derive(Debug, Drop)]
pub struct Nulls {
    /// The texts, in the order of the document.
    texts: Seq<Text>,
    /// The set of the texts, if there are more than `FEW`.
    set: Option<BTreeSet<String>>,
}

impl Model for Nulls {
    ghost use Rattle.std.specs.Prelude.{ℕ, List, IfSome};
    ghost use Rattle.csvw_description.specs.Nulls.{IsSetOf};

    ghost Value = { List (List ℕ) };

    ghost view = { λ n. n.texts };

    ghost invariant = { λ n. IfSome n.set (IsSetOf n.texts) };
}

impl Nulls {
    /// Returns the texts of a list as those that are null. Returns `AllocError` if memory runs out.
    pub fn of(alloc: Global, texts: Seq<Text>) -> Result<Nulls, AllocError>
        ensures { IfOk result (λ n. n ≡ texts) }
    {
        let set = if texts.len() > FEW {
            Some(set_of(alloc, texts.as_slice())?)
        } else {
            None
        };
        Ok(Nulls { texts, set })
    }

    /// Returns the texts, in the order of the document.
    pub fn texts(&self) -> &[Text]
        ensures { result.now ≡ self.now }
    {
        self.texts.as_slice()
    }

    /// Returns whether a text is one of the texts.
    #[inline(always)]
    pub fn contains(&self, text: &str) -> bool
        ensures { result ≡ list_any (λ n. bytes_eq n text.now) self.now }
    {
        // Most columns have one text for null.
        match self.texts.as_slice() {
            [null] => is_same(null, text),
            _ => self.finds(text),
        }
    }

    /// Returns whether a text is one of the texts, however many there are.
    fn finds(&self, text: &str) -> bool
        ensures { result ≡ list_any (λ n. bytes_eq n text.now) self.now }
    {
        match &self.set {
            Some(set) => set.contains(text),
            None => self.texts.as_slice().iter().any(|null| is_same(null, text)),
        }
    }
}

/// Returns whether the texts are the same. Most are of two lengths.
#[inline(always)]
fn is_same(null: &Text, text: &str) -> bool
    ensures { result ≡ bytes_eq null.now text.now }
{
    null.len() == text.len() && null.as_str() == text
}

/// Returns the set of the texts, or `AllocError` if memory runs out.
fn set_of(alloc: Global, texts: &[Text]) -> Result<BTreeSet<String>, AllocError>
    ensures { IfOk result (IsSetOf texts.now) }
{
    let mut set = BTreeSet::new(alloc);
    for text in texts {
        let copy = String::from_str(alloc, text.as_str())?;
        set.insert(copy)?;
    }
    Ok(set)
}
