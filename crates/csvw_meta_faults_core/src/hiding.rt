//! Which values the faults of a part hide.
ghost use Rattle.std.specs.Prelude.{◌≡◌, IfOk, nat_eq};
ghost use Rattle.std.specs.List.{list_any, starts_with};
ghost use Rattle.csvw_meta_faults_core.specs.Pointers.{is_within_by};
ghost use Rattle.csvw_meta_core.specs.Rules.{could_read, hides_property, is_at, is_of_several, is_within};

use crate::pointers::below;
use csvw_meta_core::{MetaCode, MetaFault};
use csvw_text::Text;
use std::alloc::{AllocError, Global};

/// Returns whether a fault of that code is one of several values together, or of their number.
#[tactic(auto, unfolding(csvw_meta_core::specs::Rules::is_of_several))]
fn is_of_several(code: MetaCode) -> bool
    ensures { result ≡ is_of_several code }
{
    matches!(
        code,
        MetaCode::DuplicateName
            | MetaCode::VirtualOrder
            | MetaCode::DuplicateTable
            | MetaCode::TooMany
    )
}

#[tactic(auto, unfolding(csvw_meta_core::specs::Rules::is_at))]
fn is_at(at: &str, fault: &MetaFault) -> bool
    ensures { result ≡ is_at at.now fault.now }
{
    !is_of_several(fault.code) && fault.pointer.as_str() == at
}

fn begins_with(text: &str, front: &str) -> bool
    ensures { result ≡ starts_with nat_eq text.now front.now }
{
    text.starts_with(front)
}

fn is_within_by(at: &str, inside: &str, fault: &MetaFault) -> bool
    ensures { result ≡ is_within_by at.now inside.now fault.now }
{
    !is_of_several(fault.code)
        && (fault.pointer.as_str() == at || begins_with(fault.pointer.as_str(), inside))
}

/// The faults of a part, as those that hide values of it from rules over several values.
#[derive(Clone, Copy)]
pub struct Hiding<'a> {
    /// The faults.
    pub faults: &'a [MetaFault],
}

impl<'a> Hiding<'a> {
    /// Returns whether a fault is at the value of this pointer.
    pub fn is_at(&self, at: &str) -> bool
        ensures { result ≡ list_any (is_at at.now) self.now.faults.now }
    {
        self.faults.iter().any(|fault| is_at(at, fault))
    }

    fn is_within_by(&self, at: &str, inside: &str) -> bool
        ensures { result ≡ list_any (is_within_by at.now inside.now) self.now.faults.now }
    {
        self.faults
            .iter()
            .any(|fault| is_within_by(at, inside, fault))
    }

    /// Returns whether a fault is at the value of this pointer, or in it. It returns `AllocError` if there is no memory for
    /// a pointer.
    #[tactic(auto, unfolding(csvw_meta_core::specs::Rules::is_within))]
    pub fn is_within(&self, alloc: Global, at: &str) -> Result<bool, AllocError>
        ensures { IfOk result (λ b. b ≡ list_any (is_within at.now) self.now.faults.now) }
    {
        let mut inside = Text::copied(alloc, at)?;
        inside.push_str("/")?;
        Ok(self.is_within_by(at, inside.as_str()))
    }

    /// Returns whether the value of this pointer could be read. It returns `AllocError` if there is no memory for a
    /// pointer.
    pub fn could_read(&self, alloc: Global, at: &str) -> Result<bool, AllocError>
        ensures { IfOk result (λ b. b ≡ could_read self.now.faults.now at.now) }
    {
        Ok(!self.is_within(alloc, at)?)
    }

    /// Returns whether a fault hides the property of that name of the value of this pointer. It returns `AllocError` if
    /// there is no memory for a pointer.
    pub fn hides_property(&self, alloc: Global, at: &str, name: &str) -> Result<bool, AllocError>
        ensures { IfOk result (λ b. b ≡ list_any (hides_property at.now name.now) self.now.faults.now) }
    {
        if self.is_at(at) {
            return Ok(true);
        }
        let member = below(alloc, at, name)?;
        self.is_within(alloc, member.as_str())
    }
}
