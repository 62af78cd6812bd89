//! The narrowest datatype of some texts, found one text after the other.
ghost use Rattle.std.specs.Prelude.{◌≡◌, ◌==◌, length, true, false, IfOk, OnOk};
ghost use Rattle.std.specs.List.{list_all};
ghost use Rattle.csvw_draft.specs.Kinds.{reads, readers, column_kind};

use crate::kind::{Kind, kinds_of};
use csvw_meta::Profile;
use std::alloc::{AllocError, Global};

/// Which datatypes each text so far is a value of.
#[derive(Drop)]
pub(crate) struct Narrowed {
    /// The datatypes besides `string` of which each text is a value, from the narrowest on.
    kinds: Vec<Kind>,
    /// Whether there was a text.
    has_text: bool,
}

/// Returns whether a text is a value of each of these datatypes. Returns `AllocError` if memory runs out.
fn is_read(alloc: Global, kinds: &[Kind], text: &str) -> Result<bool, AllocError>
    ensures { IfOk result (λ is_read. is_read ≡ list_all (λ kind. reads kind text.now) kinds.now) }
{
    for kind in kinds {
        if !kind.reads(alloc, text)? {
            return Ok(false);
        }
    }
    Ok(true)
}

/// Returns those of these datatypes of which a text is a value. Returns `AllocError` if memory runs out.
fn readers(alloc: Global, kinds: &[Kind], text: &str) -> Result<Vec<Kind>, AllocError>
    ensures { IfOk result (λ found. found.items ≡ readers kinds.now text.now) }
{
    let mut found = Vec::new(alloc);
    for kind in kinds {
        if kind.reads(alloc, text)? {
            found.push(*kind)?;
        }
    }
    Ok(found)
}

impl Narrowed {
    ghost use Rattle.csvw_draft.specs.Kinds.{kinds_of};

    /// Starts with no text, and the datatypes of a file with this delimiter. Returns `AllocError` if memory runs out.
    pub(crate) fn new(alloc: Global, delimiter: char) -> Result<Narrowed, AllocError>
        ensures { IfOk result (λ n. (n.kinds.items ≡ kinds_of delimiter) × (n.has_text ≡ false)) }
    {
        Ok(Narrowed {
            kinds: kinds_of(alloc, delimiter)?,
            has_text: false,
        })
    }

    /// Takes one more text, whose white space is collapsed. Returns `AllocError` if memory runs out.
    pub(crate) fn take(&mut self, alloc: Global, text: &str) -> Result<(), AllocError>
        ensures kinds { OnOk result (self.new.kinds.items ≡ readers self.old.kinds.items text.now) }
        ensures text { OnOk result (self.new.has_text ≡ true) }
    {
        self.has_text = true;
        if !is_read(alloc, self.kinds.as_slice(), text)? {
            self.kinds = readers(alloc, self.kinds.as_slice(), text)?;
        }
        Ok(())
    }

    /// Returns whether a text is a value of `string` alone.
    pub(crate) fn is_string(&self) -> bool
        ensures { result ≡ (length self.now.kinds.items == 0) }
    {
        self.kinds.is_empty()
    }

    /// Returns the narrowest datatype of which each text is a value. It is `string` if there was no text, or if a document of the
    /// profile can't use that datatype.
    pub(crate) fn kind(&self, profile: Profile) -> Kind
        ensures { result ≡ column_kind profile self.now.has_text self.now.kinds.items }
    {
        match self.kinds.first() {
            Some(kind) if self.has_text => kind.in_profile(profile),
            _ => Kind::Text,
        }
    }
}
