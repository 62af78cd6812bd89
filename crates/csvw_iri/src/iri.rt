//! `Iri`: a shared text whose characters may all be raw in an IRIREF.
//!
//! Clones of an `Iri` take no memory, so predicates and datatypes are made once for each column.
ghost use Rattle.std.specs.Prelude.{◌≡◌, ◌++◌, true, false, codes, string_bytes, IfOk, OnOk};
ghost use Rattle.csvw_iri.specs.Safe.{is_iri, has_hash};

use csvw_text::{Copied, Text};
use std::alloc::{AllocError, Global};
use std::marker::Model;
use std::rc::Rc;

/// An IRI: a text whose characters may all be raw in an IRIREF (N-Triples 1.1, section 7). So it has no backslash and
/// no escape. Clones share one text.
#[derive(Drop)]
pub struct Iri {
    shared: Rc<Text>,
}

impl Model for Iri {
    ghost use Rattle.std.specs.Prelude.{◌≡◌, ℕ, List, true};
    ghost use Rattle.csvw_iri.specs.Safe.{is_iri};

    ghost Value = { List ℕ };

    ghost view = { λ i. i.shared.value };

    ghost invariant = { λ i. is_iri i.shared.value ≡ true };
}

impl Iri {
    /// Returns the IRI of a text whose characters may all be raw, or `AllocError` if memory runs out.
    pub(crate) fn of(alloc: Global, text: String) -> Result<Iri, AllocError>
        requires { is_iri (string_bytes text) ≡ true }
        ensures { IfOk result (λ i. i ≡ string_bytes text) }
    {
        match Rc::new(alloc, Text::of(text)) {
            Ok(shared) => Ok(Iri { shared }),
            Err(_) => Err(AllocError),
        }
    }

    /// Returns the text. It takes no memory.
    pub fn as_str(&self) -> &str
        ensures value { result.now ≡ self.now }
        ensures raw { is_iri self.now ≡ true }
    {
        self.shared.as_ref().as_str()
    }

    /// Returns the IRI of two texts, one after the other, whose characters may all be raw. It is made in the memory
    /// of an IRI that is no longer needed, if no clone shares that memory. Returns `AllocError` if memory runs out.
    pub(crate) fn over(
        alloc: Global,
        front: &str,
        rest: &str,
        spare: Option<Iri>,
    ) -> Result<Iri, AllocError>
        requires front { is_iri front.now ≡ true }
        requires rest { is_iri rest.now ≡ true }
        ensures { IfOk result (λ i. i ≡ front.now ++ rest.now) }
    {
        if let Some(mut iri) = spare {
            if iri.refill(front, rest)? {
                return Ok(iri);
            }
        }
        let mut joined = String::with_capacity(alloc, front.len() + rest.len())?;
        joined.push_str(front)?;
        joined.push_str(rest)?;
        Iri::of(alloc, joined)
    }

    /// Becomes the IRI of two texts if no clone shares its memory. Returns whether it did.
    fn refill(&mut self, front: &str, rest: &str) -> Result<bool, AllocError>
        requires front { is_iri front.now ≡ true }
        requires rest { is_iri rest.now ≡ true }
        ensures { IfOk result (λ is_done. is_done ≡ true → self.new ≡ front.now ++ rest.now) }
    {
        if let Some(shared) = Rc::get_mut(&mut self.shared) {
            refill_two(shared, front, rest)?;
            return Ok(true);
        }
        Ok(false)
    }

    /// Becomes another IRI, `#` and the text, in its own memory if no clone shares it.
    ///
    /// The text is ready if `is_raw_text` returns true for it. `Base::iri` has no `#`. Returns `AllocError` if memory
    /// runs out. It may then be a part of the new IRI.
    pub fn refill_with_fragment(
        &mut self,
        alloc: Global,
        iri: &Iri,
        text: &str,
    ) -> Result<(), AllocError>
        requires no_hash { has_hash iri.now ≡ false }
        requires raw { is_iri text.now ≡ true }
        ensures { OnOk result (self.new ≡ iri.now ++ codes "#" ++ text.now) }
    {
        if let Some(shared) = Rc::get_mut(&mut self.shared) {
            return refill_joined(shared, iri.as_str(), text);
        }
        *self = with_fragment(alloc, iri, text)?;
        Ok(())
    }

    /// Returns an equal IRI, which shares the text. It takes no memory. It is an `AllocError` only if the count of
    /// the owners is at its greatest.
    pub fn clone(&self, _alloc: Global) -> Result<Iri, AllocError>
        ensures { IfOk result (λ i. i ≡ self.now) }
    {
        Ok(Iri {
            shared: self.shared.clone()?,
        })
    }
}

impl Copied for Iri {
    fn copied(&self, alloc: Global) -> Result<Iri, AllocError> {
        self.clone(alloc)
    }
}

/// Writes two texts over another text. After an error that text is a part of them.
fn refill_two(joined: &mut Text, front: &str, rest: &str) -> Result<(), AllocError>
    requires front { is_iri front.now ≡ true }
    requires rest { is_iri rest.now ≡ true }
    ensures value { OnOk result (joined.new ≡ front.now ++ rest.now) }
    ensures raw { is_iri joined.new ≡ true }
{
    joined.refill(front)?;
    joined.push_str(rest)
}

/// Writes an IRI, `#` and a text over another text. After an error that text is a part of them.
fn refill_joined(joined: &mut Text, iri: &str, text: &str) -> Result<(), AllocError>
    requires iri { is_iri iri.now ≡ true }
    requires raw { is_iri text.now ≡ true }
    ensures value { OnOk result (joined.new ≡ iri.now ++ codes "#" ++ text.now) }
    ensures raw { is_iri joined.new ≡ true }
{
    joined.refill(iri)?;
    joined.push_str("#")?;
    joined.push_str(text)
}

/// Returns the IRI, `#` and the text, or `AllocError` if memory runs out.
///
/// The text is ready if `is_raw_text` returns true for it. `Base::iri` has no `#`.
pub fn with_fragment(alloc: Global, iri: &Iri, text: &str) -> Result<Iri, AllocError>
    requires no_hash { has_hash iri.now ≡ false }
    requires raw { is_iri text.now ≡ true }
    ensures { IfOk result (λ i. i ≡ iri.now ++ codes "#" ++ text.now) }
{
    let mut joined = String::from_str(alloc, iri.as_str())?;
    joined.push('#')?;
    joined.push_str(text)?;
    Iri::of(alloc, joined)
}
