//! The status of a check.

use crate::asked::Strict;
use csvw_engine_core::Stop;
use csvw_page::{DEVICE, INVALID, REFUSED, VALID};
use csvw_text::{Fault, Kind};

/// Returns the status by the faults.
pub fn status_of(faults: &[Fault], strict: Strict) -> u8 {
    let counts = match strict {
        Strict::Errors => faults.iter().any(|fault| fault.kind == Kind::Error),
        Strict::Warnings => !faults.is_empty(),
    };
    match counts {
        true => INVALID,
        false => VALID,
    }
}

/// Returns the status by the reason of a stop.
pub fn status_of_stop(stop: &Stop) -> u8 {
    match stop {
        Stop::Rows { .. } | Stop::Table { .. } | Stop::Meta(_) | Stop::TableCount => REFUSED,
        _ => DEVICE,
    }
}
