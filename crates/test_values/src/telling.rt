//! Whether a call returns the expected result.
use csvw_iri::{Base, Iri, IriFault};
use std::alloc::Global;

/// Returns whether a fault has this name. Returns false for `Memory`.
fn is_shown(alloc: Global, fault: IriFault, want: &str) -> bool {
    match format!(in alloc; "{fault:?}") {
        Ok(name) => name.as_str() == want,
        Err(_) => false,
    }
}

/// Returns whether a call returned the IRI, or the fault, with this text.
pub(crate) fn tells(alloc: Global, answer: Result<Iri, IriFault>, want: &str) -> bool {
    match answer {
        Ok(iri) => iri.as_str() == want,
        Err(fault) => is_shown(alloc, fault, want),
    }
}

/// Returns whether a call returned the base, or the fault, with this text.
pub(crate) fn base_tells(alloc: Global, answer: Result<Base, IriFault>, want: &str) -> bool {
    match answer {
        Ok(base) => base.iri().as_str() == want,
        Err(fault) => is_shown(alloc, fault, want),
    }
}
