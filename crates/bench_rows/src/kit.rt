//! A file read by the crate `csv`.

use crate::counts::Counts;
use crate::stop::Stop;
use csv::{Error, ErrorKind, ReaderBuilder, StringRecord};
use std::alloc::Global;
use std::io::Read;

/// Returns the stop for an error of the crate.
fn stop_of(error: &Error) -> Stop {
    match error.kind() {
        ErrorKind::Io(_) => Stop::Read,
        ErrorKind::OutOfMemory => Stop::Memory,
        _ => Stop::Refused,
    }
}

/// Counts the records of a file. Returns `Refused` if the crate rejects a record, `Read` if standard input fails, and
/// `Memory` if memory runs out.
pub(crate) fn count_records<R: Read + Drop>(alloc: Global, input: R) -> Result<Counts, Stop> {
    let mut counts = Counts::new();
    let mut reader = ReaderBuilder::new()
        .has_headers(false)
        .from_reader(alloc, input);
    let mut record = StringRecord::new(alloc);
    for _records in 0..u64::MAX {
        match reader.read_record(&mut record) {
            Ok(true) => {}
            Ok(false) => break,
            Err(error) => return Err(stop_of(&error)),
        }
        counts.add_row();
        for field in record.iter() {
            counts.add_field(field);
        }
    }
    Ok(counts)
}
