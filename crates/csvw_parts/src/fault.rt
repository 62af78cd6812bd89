//! Why the bytes of a piece of a table can't be read.
ghost use Rattle.std.specs.Prelude.{◌≡◌};

use csvw_engine_core::Stop;
use std::alloc::AllocError;

/// Why the bytes of a piece of a table can't be read.
#[derive(Debug, Drop, PartialEq, Eq)]
pub enum PartFault {
    /// There is no memory for a buffer. Nothing was read.
    Memory,
    /// The reader failed.
    Read,
    /// The reader ended before it gave so many bytes.
    ShortFile,
    /// The table stops, or memory or its sink failed.
    Stop(Stop),
}

impl From<Stop> for PartFault {
    ghost use Rattle.csvw_parts.specs.declared.fault.PartFault.TheVariants as fault;

    ghost from_gives = { λ stop e. e ≡ fault.Stop stop };

    fn from(stop: Stop) -> PartFault {
        PartFault::Stop(stop)
    }
}

impl From<AllocError> for PartFault {
    ghost use Rattle.csvw_parts.specs.declared.fault.PartFault.TheVariants as fault;

    ghost from_gives = { λ _ e. e ≡ fault.Memory };

    fn from(_: AllocError) -> PartFault {
        PartFault::Memory
    }
}
