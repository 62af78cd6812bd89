//! `Shared`: a value that its clones share.
ghost use Rattle.std.specs.Prelude.{◌≡◌, IfOk};

use crate::Copied;
use std::alloc::{AllocError, Global};
use std::marker::Model;
use std::rc::Rc;

/// A value that its clones share. Contracts see the value.
///
/// What many columns inherit is shared: a datatype, the texts that are null, a template. A clone takes no memory.
#[derive(Debug, Drop)]
pub struct Shared<T> {
    inner: Rc<T>,
}

impl<T> Model for Shared<T> {
    ghost Value = { T };

    ghost coded = { T.code };

    ghost view = { λ s. s.inner.value };
}

impl<T> Shared<T> {
    /// Returns the value as a shared one, or `AllocError` if memory runs out.
    pub fn new(alloc: Global, value: T) -> Result<Shared<T>, AllocError>
    where
        T: Drop,
        ensures { IfOk result (λ s. s ≡ value) }
    {
        match Rc::new(alloc, value) {
            Ok(inner) => Ok(Shared { inner }),
            Err(_) => Err(AllocError),
        }
    }

    /// Returns the value.
    pub fn get(&self) -> &T
        ensures { result.now ≡ self.now }
    {
        self.inner.as_ref()
    }

    /// Returns the same value, shared. It takes no memory. It is an `AllocError` only if the count of the owners is
    /// at its greatest.
    pub fn clone(&self, _alloc: Global) -> Result<Shared<T>, AllocError>
    where
        T: Drop,
        ensures { IfOk result (λ s. s ≡ self.now) }
    {
        Ok(Shared {
            inner: self.inner.clone()?,
        })
    }
}

impl<T: Drop> Copied for Shared<T> {
    fn copied(&self, alloc: Global) -> Result<Shared<T>, AllocError> {
        self.clone(alloc)
    }
}
