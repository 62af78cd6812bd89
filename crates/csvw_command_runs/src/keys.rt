//! `csvw keys`: the faults of keys, by the sorted records of all parts.
ghost use Rattle.std.specs.Prelude.{◌≤◌};

use crate::plans::{DocumentFile, plan_of};
use crate::tell::{FAULTS, SUCCESS, tell_refused, tell_stop};
use csvw_command_core::JudgedKeys;
use csvw_engine::{Stop, write_report};
use csvw_files::{Opener, STANDARD_INPUT};
use csvw_key_records::{KeyStop, judge_keys};
use csvw_text::Counted;
use std::alloc::Global;
use std::io::{Read, Write};

/// Writes the heading of a report, and then a line for each fault of the records. Returns whether there is none.
fn write_faults<R: Read, W: Write>(
    alloc: Global,
    records: &mut Counted<R>,
    out: &mut Counted<W>,
) -> Result<bool, KeyStop> {
    if write_report(alloc, &[], out).is_err() {
        return Err(KeyStop::Write);
    }
    let is_valid = judge_keys(alloc, records, out)?;
    match out.flush() {
        Ok(()) => Ok(is_valid),
        Err(_) => Err(KeyStop::Write),
    }
}

/// Tells why the records were not judged. Returns the status.
fn tell_unjudged<V: Write>(alloc: Global, stop: &KeyStop, err: &mut Counted<V>) -> u8
    ensures { result ≤ 4 }
{
    match stop {
        KeyStop::Memory => tell_stop(&Stop::Memory, err),
        KeyStop::Read => tell_stop(&Stop::Read, err),
        KeyStop::Write => tell_stop(&Stop::Write, err),
        KeyStop::Line { .. } => match format!(in alloc; "csvw: keys {stop}\n") {
            Ok(line) => tell_refused(line.as_str(), err),
            Err(_) => tell_stop(&Stop::Memory, err),
        },
    }
}

/// Judges the keys of a group by the records on standard input. The faults are a report on `out`, in the order of the
/// records. Returns the status: 0 if there is none, else 1. Records that aren't sorted are told on `err`, with status 3.
pub fn run_keys<O: Opener, W: Write, V: Write>(
    alloc: Global,
    asked: &JudgedKeys<'_>,
    opener: &mut O,
    out: &mut Counted<W>,
    err: &mut Counted<V>,
) -> u8
    ensures { result ≤ 4 }
{
    let document = DocumentFile {
        path: asked.meta,
        base: asked.base,
        profile: asked.profile,
        resources: asked.resources.as_slice(),
    };
    if let Err(stop) = plan_of(alloc, document, opener) {
        return stop.tell(opener, err);
    }
    let Some(reader) = opener.open(STANDARD_INPUT) else {
        return tell_stop(&Stop::Read, err);
    };
    let mut records = Counted::new(reader);
    let judged = write_faults(alloc, &mut records, out);
    opener.close(records);
    match judged {
        Ok(true) => SUCCESS,
        Ok(false) => FAULTS,
        Err(stop) => tell_unjudged(alloc, &stop, err),
    }
}
