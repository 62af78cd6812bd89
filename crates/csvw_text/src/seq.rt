//! `Seq`: a list that contracts see as the list of its elements. `Copied`: what can be copied.
ghost use Rattle.std.specs.Prelude.{◌≡◌, [], ◌∷◌, ◌++◌, length, IfOk, OnOk, OnErr};

use std::alloc::{AllocError, Global};
use std::marker::Model;

/// A type whose values can be copied to equal values.
pub trait Copied: Sized {
    /// Returns an equal value, or `AllocError` if memory runs out.
    fn copied(&self, alloc: Global) -> Result<Self, AllocError>
        ensures { IfOk result (λ x. x ≡ self.now) };
}

/// A list. Contracts see it as the list of its elements.
#[derive(Debug, Drop)]
pub struct Seq<T> {
    inner: Vec<T>,
}

impl<T> Model for Seq<T> {
    ghost use Rattle.std.specs.Prelude.{List};
    ghost use Rattle.std.specs.Coded.{coded_list};

    ghost Value = { List T };

    ghost coded = { coded_list T.code };

    ghost view = { λ s. s.inner.items };
}

impl<T> Seq<T> {
    /// Returns the empty list. It takes no memory.
    pub fn new(alloc: Global) -> Seq<T>
        ensures { result ≡ [] }
    {
        Seq {
            inner: Vec::new(alloc),
        }
    }

    /// Returns the list of a vector's elements. It takes no memory.
    pub fn of(items: Vec<T>) -> Seq<T>
        ensures { result ≡ items.items }
    {
        Seq { inner: items }
    }

    /// Returns the vector that the list holds. It takes no memory.
    pub fn into_vec(self) -> Vec<T>
        ensures { result.items ≡ self }
    {
        let Seq { inner } = self;
        inner
    }

    /// Returns the elements as a slice.
    pub fn as_slice(&self) -> &[T]
        ensures { result.now ≡ self.now }
    {
        self.inner.as_slice()
    }

    /// Returns the number of elements.
    pub fn len(&self) -> usize
        ensures { result ≡ length self.now }
    {
        self.inner.len()
    }

    /// Returns whether the list is empty.
    pub fn is_empty(&self) -> bool
        ensures { result ≡ Rattle.std.specs.Prelude.nat_eq (length self.now) 0 }
    {
        self.inner.is_empty()
    }

    /// Adds an element at the end. If memory runs out, it returns `AllocError` and the list is unchanged.
    pub fn push(&mut self, x: T) -> Result<(), AllocError>
    where
        T: Drop,
        ensures ok { OnOk result (self.new ≡ self.old ++ x ∷ []) }
        ensures err { OnErr result (self.new ≡ self.old) }
    {
        self.inner.push(x)?;
        Ok(())
    }
}

impl<T: Copy> Seq<T> {
    /// Adds copies of the elements at the end. If memory runs out, it returns `AllocError` and the list is unchanged.
    pub fn extend_from_slice(&mut self, more: &[T]) -> Result<(), AllocError>
        ensures ok { OnOk result (self.new ≡ self.old ++ more.now) }
        ensures err { OnErr result (self.new ≡ self.old) }
    {
        self.inner.extend_from_slice(more)?;
        Ok(())
    }
}

impl<T: Copied + Drop> Seq<T> {
    /// Returns an equal list, or `AllocError` if memory runs out.
    pub fn clone(&self, alloc: Global) -> Result<Seq<T>, AllocError>
        ensures { IfOk result (λ s. s ≡ self.now) }
    {
        Ok(Seq {
            inner: copies(alloc, self.as_slice())?,
        })
    }
}

impl<T: Copied + Drop> Copied for Seq<T> {
    fn copied(&self, alloc: Global) -> Result<Seq<T>, AllocError> {
        self.clone(alloc)
    }
}

fn copies<T: Copied + Drop>(alloc: Global, items: &[T]) -> Result<Vec<T>, AllocError>
    ensures { IfOk result (λ v. v.items ≡ items.now) }
{
    let mut copies = Vec::new(alloc);
    for x in items {
        let copy = x.copied(alloc)?;
        copies.push(copy)?;
    }
    Ok(copies)
}

/// Returns an equal list of elements that are `Copy`, or `AllocError` if memory runs out.
pub fn copied_items<T: Copy>(alloc: Global, items: &Seq<T>) -> Result<Seq<T>, AllocError>
    ensures { IfOk result (λ s. s ≡ items.now) }
{
    Ok(Seq::of(Vec::from_slice(alloc, items.as_slice())?))
}

/// Returns an equal option, or `AllocError` if memory runs out.
pub fn copied_option<T: Copied + Drop>(
    alloc: Global,
    value: &Option<T>,
) -> Result<Option<T>, AllocError>
    ensures { IfOk result (λ x. x ≡ value.now) }
{
    match value {
        None => Ok(None),
        Some(x) => Ok(Some(x.copied(alloc)?)),
    }
}

impl<T: Copied + Drop> Copied for Option<T> {
    fn copied(&self, alloc: Global) -> Result<Option<T>, AllocError> {
        copied_option(alloc, self)
    }
}
