//! `IriFault`: why a text has no IRI.
ghost use Rattle.std.specs.Prelude.{◌≡◌};

use std::alloc::{AllocError, AllocFailed};
use std::error::Error;
use std::fmt;

/// Why a text has no IRI, in the order in which the faults are tested. `Memory` may come before any of them.
#[derive(Clone, Copy, Debug, PartialEq, Eq)]
pub enum IriFault {
    /// Memory ran out.
    Memory,
    /// The text to resolve is longer than 65,536 bytes.
    UrlTooLong,
    /// The text is not a URL, or does not resolve to one, by the URL Standard.
    BadUrl,
}

impl IriFault {
    /// Returns what is wrong and what to do, as a sentence without its full stop.
    fn sentence(&self) -> &'static str {
        match self {
            IriFault::Memory => "there is no memory: free some, and try again",
            IriFault::UrlTooLong => "the text has more than 65,536 bytes: shorten it",
            IriFault::BadUrl => {
                "the text is no URL, nor part of one: write it as the URL Standard has it"
            }
        }
    }
}

impl fmt::Display for IriFault {
    fn fmt<W: fmt::Write>(&self, f: &mut fmt::Formatter<W>) -> fmt::Result {
        f.write_str(self.sentence())
    }
}

impl Error for IriFault {}

impl From<AllocError> for IriFault {
    ghost use Rattle.csvw_iri.specs.declared.fault.IriFault.TheVariants.{Memory};

    ghost from_gives = { λ _ e. e ≡ Memory };

    fn from(_: AllocError) -> IriFault {
        IriFault::Memory
    }
}

impl<T: Drop> From<AllocFailed<T>> for IriFault {
    ghost use Rattle.csvw_iri.specs.declared.fault.IriFault.TheVariants.{Memory};

    ghost from_gives = { λ _ e. e ≡ Memory };

    fn from(_: AllocFailed<T>) -> IriFault {
        IriFault::Memory
    }
}
