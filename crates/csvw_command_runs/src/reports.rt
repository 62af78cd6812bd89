//! `csvw report`: the one report of the reports of parts.
ghost use Rattle.std.specs.Prelude.{◌≤◌};

use crate::tell::{outcome_status, tell_refused, tell_stop, tell_unread};
use csvw_engine::{Outcome, Stop, write_report};
use csvw_files::Opener;
use csvw_reports::{JoinedReports, ReportFault};
use csvw_text::Counted;
use std::alloc::{AllocError, Global};
use std::io::{self, ErrorKind, Read, Write};

/// Why the reports aren't joined.
#[derive(Drop)]
enum NotJoined {
    /// A file can't be opened or read. The line says which.
    Unread(String),
    /// A file is no report. The line says why.
    Refused(String),
    /// There is no memory.
    Memory,
}

impl From<AllocError> for NotJoined {
    fn from(_: AllocError) -> NotJoined {
        NotJoined::Memory
    }
}

/// The longest line of a stop that is repeated, in bytes.
const LONGEST_STOP: usize = 200;

/// What the line of a stop begins with.
const STOP: &str = "csvw: ";

/// Returns the line at which a text stops being a report, if that is the line of a stop.
fn stop_in(text: &[u8], number: u64) -> Option<&str> {
    let place = usize::try_from(number).ok()?.checked_sub(1)?;
    let line = text.split(|byte| *byte == b'\n').nth(place)?;
    if line.len() > LONGEST_STOP || line.iter().any(|byte| byte.is_ascii_control()) {
        return None;
    }
    str::from_utf8(line.strip_prefix(STOP.as_bytes())?).ok()
}

/// Returns why a text in a file is no report, as a line.
fn refusal(
    alloc: Global,
    path: &str,
    text: &[u8],
    fault: ReportFault,
) -> Result<NotJoined, AllocError> {
    let ReportFault::Line(number) = fault else {
        return Ok(NotJoined::Memory);
    };
    let line = match stop_in(text, number) {
        Some(stop) => format!(in alloc; "csvw: report {path}: its run stopped: {stop}\n")?,
        None => format!(in alloc; "csvw: report {path}: {fault}\n")?,
    };
    Ok(NotJoined::Refused(line))
}

/// Returns the line that a report's file can't be opened or read, with the system's error if it is known.
fn unread_line(alloc: Global, path: &str, error: Option<io::Error>) -> Result<String, AllocError> {
    match error {
        Some(error) => {
            format!(in alloc; "csvw: report {path}: the file can't be opened or read: {error}\n")
        }
        None => format!(in alloc; "csvw: report {path}: the file can't be opened or read\n"),
    }
}

/// Returns that a file can't be opened or read, as a line.
fn unread<O: Opener>(alloc: Global, path: &str, opener: &O) -> NotJoined {
    match unread_line(alloc, path, opener.io_error(path)) {
        Ok(line) => NotJoined::Unread(line),
        Err(_) => NotJoined::Memory,
    }
}

/// Reads a file to its end.
fn read_whole<O: Opener>(alloc: Global, path: &str, opener: &mut O) -> Result<Vec<u8>, NotJoined> {
    let Some(reader) = opener.open(path) else {
        return Err(unread(alloc, path, opener));
    };
    let mut reader = Counted::new(reader);
    let mut bytes = Vec::new(alloc);
    let read = reader.read_to_end(&mut bytes);
    opener.close(reader);
    match read {
        Ok(_) => Ok(bytes),
        Err(fault) if fault.kind() == ErrorKind::OutOfMemory => Err(NotJoined::Memory),
        Err(_) => Err(unread(alloc, path, opener)),
    }
}

/// Adds the report in a file.
fn add_file<O: Opener>(
    alloc: Global,
    path: &str,
    opener: &mut O,
    reports: &mut JoinedReports,
) -> Result<(), NotJoined> {
    let text = read_whole(alloc, path, opener)?;
    match reports.add(text.as_slice()) {
        Ok(()) => Ok(()),
        Err(fault) => Err(refusal(alloc, path, text.as_slice(), fault)?),
    }
}

/// Returns the faults of the reports in all files.
fn join_files<O: Opener>(
    alloc: Global,
    files: &[&str],
    opener: &mut O,
) -> Result<Outcome, NotJoined> {
    let mut reports = JoinedReports::new(alloc);
    for file in files {
        add_file(alloc, file, opener, &mut reports)?;
    }
    Ok(reports.into_outcome())
}

/// Joins the reports in files to one, on `out`. Returns the status: 0 if no fault is an error, else 1. A file that is no
/// report is told on `err`, with status 3.
pub fn run_join<O: Opener, W: Write, V: Write>(
    alloc: Global,
    files: &[&str],
    opener: &mut O,
    out: &mut Counted<W>,
    err: &mut Counted<V>,
) -> u8
    ensures { result ≤ 4 }
{
    let outcome = match join_files(alloc, files, opener) {
        Ok(outcome) => outcome,
        Err(NotJoined::Unread(line)) => return tell_unread(line.as_str(), err),
        Err(NotJoined::Refused(line)) => return tell_refused(line.as_str(), err),
        Err(NotJoined::Memory) => return tell_stop(&Stop::Memory, err),
    };
    if let Err(stop) = write_report(alloc, outcome.faults.as_slice(), out) {
        return tell_stop(&Stop::from(stop), err);
    }
    if out.flush().is_err() {
        return tell_stop(&Stop::Write, err);
    }
    outcome_status(&outcome)
}
