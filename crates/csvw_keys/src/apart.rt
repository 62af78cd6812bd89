//! Values that are kept behind a pointer in a key.
ghost use Rattle.std.specs.Prelude.{◌≡◌, IfOk, refl};
ghost use Rattle.std.specs.Cmp.{on_equiv, on_per, on_po, on_total};

use csvw_text::{Copied, Shared};
use std::alloc::{AllocError, Global};
use std::cmp::Ordering;

/// A value behind a pointer, so it takes the space of a pointer. Its copies share it. It is compared as the value.
#[derive(Drop)]
pub struct Apart<T> {
    /// The value.
    pub(crate) value: Shared<T>,
}

impl<T: Drop> Apart<T> {
    /// Makes such a value, or returns `AllocError` if there is no memory.
    pub(crate) fn new(alloc: Global, value: T) -> Result<Apart<T>, AllocError>
        ensures { IfOk result (λ a. a.value ≡ value) }
    {
        Ok(Apart {
            value: Shared::new(alloc, value)?,
        })
    }
}

impl<T: Drop> Copied for Apart<T> {
    fn copied(&self, alloc: Global) -> Result<Apart<T>, AllocError> {
        Ok(Apart {
            value: self.value.clone(alloc)?,
        })
    }
}

impl<T: PartialEq> PartialEq for Apart<T> {
    ghost eq = { λ x y. T.eq x.value y.value };

    ghost laws = { on_per (λ x. x.value) T.laws };

    fn eq(&self, other: &Apart<T>) -> bool {
        *self.value.get() == *other.value.get()
    }
}

impl<T: Eq> Eq for Apart<T> {
    ghost laws = { on_equiv (λ x. x.value) T.Eq.laws };
}

impl<T: PartialOrd> PartialOrd for Apart<T> {
    ghost partial_cmp = { λ x y. T.partial_cmp x.value y.value };

    ghost laws = { on_po (λ x. x.value) T.PartialOrd.laws };

    fn partial_cmp(&self, other: &Apart<T>) -> Option<Ordering> {
        self.value.get().partial_cmp(other.value.get())
    }
}

impl<T: Ord> Ord for Apart<T> {
    ghost cmp = { λ x y. T.cmp x.value y.value };

    ghost total = { on_total (λ x. x.value) T.total };

    ghost matches_partial_cmp = { λ x y. T.matches_partial_cmp x.value y.value };

    ghost matches_eq = { λ x y. T.matches_eq x.value y.value };

    fn cmp(&self, other: &Apart<T>) -> Ordering {
        self.value.get().cmp(other.value.get())
    }
}
