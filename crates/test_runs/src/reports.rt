//! The texts of reports.

use crate::runs::AMPLE;
use csvw_engine::Stop;
use csvw_report::{Outcome, ReportStop, sorted, write_report};
use csvw_text::{Code, Counted, Fault, Kind, Place, Seq};
use std::alloc::{AllocError, Global};
use test_fakes::Full;

fn fault(kind: Kind, code: Code, table: u32, row: u64, column: u32) -> Fault {
    Fault {
        place: Place { table, row, column },
        code,
        kind,
    }
}

/// Returns one fault in each of `rows` rows.
fn faults_of_rows(alloc: Global, rows: u64) -> Result<Vec<Fault>, AllocError> {
    let mut faults = Vec::new(alloc);
    for row in 0..rows {
        faults.push(fault(Kind::Error, Code::Required, 1, row, 2))?;
    }
    Ok(faults)
}

/// The result of writing a report, and how many writes failed.
type End = (Result<(), ReportStop>, u64);

/// The end of a report that is written whole.
const WHOLE: End = (Ok(()), 0);

/// Returns what a writer with room for so many bytes has of a report, if its writing ends with `end`.
fn written(alloc: Global, faults: &[Fault], room: usize, end: End) -> Option<Vec<u8>> {
    let mut w = Counted::new(Full::new(alloc, room));
    let is_end = write_report(alloc, faults, &mut w) == end.0 && w.failures() == end.1;
    let taken = w.into_inner().taken;
    if is_end { Some(taken) } else { None }
}

/// Returns whether that is this text.
fn is_written(alloc: Global, faults: &[Fault], room: usize, end: End, text: &str) -> bool {
    match written(alloc, faults, room, end) {
        Some(bytes) => bytes.as_slice() == text.as_bytes(),
        None => false,
    }
}

#[test]
fn faults_are_lines(rt: HostRuntime) {
    let faults = [
        fault(Kind::Warning, Code::UnknownProperty, 1, 0, 0),
        fault(Kind::Error, Code::HeaderMissing, 1, 0, 0),
        fault(
            Kind::Error,
            Code::ManyReferencedRows,
            4294967295,
            18446744073709551615,
            1024,
        ),
    ];
    let text = "kind,code,table,row,column\n\
         warning,UnknownProperty,1,0,0\n\
         error,HeaderMissing,1,0,0\n\
         error,ManyReferencedRows,4294967295,18446744073709551615,1024\n";
    assert!(rt; is_written(rt.alloc(), &faults, AMPLE, WHOLE, text));
}

/// Returns whether the engine's call writes these bytes of a report, with this result.
fn engine_writes(
    alloc: Global,
    faults: &[Fault],
    room: usize,
    end: Result<(), Stop>,
    bytes: &[u8],
) -> bool {
    let mut w = Counted::new(Full::new(alloc, room));
    csvw_engine::write_report(alloc, faults, &mut w) == end
        && w.into_inner().taken.as_slice() == bytes
}

#[test]
fn the_engine_writes_the_same_report(rt: HostRuntime) {
    let alloc = rt.alloc();
    let faults = [fault(Kind::Error, Code::Required, 1, 2, 3)];
    let text = b"kind,code,table,row,column\nerror,Required,1,2,3\n";
    assert!(rt; engine_writes(alloc, &faults, AMPLE, Ok(()), text));
    assert!(rt; engine_writes(alloc, &faults, 9, Err(Stop::Write), b"kind,code"));
}

#[test]
fn no_fault_is_the_heading(rt: HostRuntime) {
    let text = "kind,code,table,row,column\n";
    assert!(rt; is_written(rt.alloc(), &[], AMPLE, WHOLE, text));
}

/// Returns whether the report of a fault in each of 3000 rows has that many lines, and the heading.
fn has_lines(alloc: Global, faults: &[Fault]) -> bool {
    match written(alloc, faults, AMPLE, WHOLE) {
        Some(text) => {
            text.iter().filter(|b| **b == b'\n').count() == 3001
                && text.as_slice().ends_with(b"error,Required,1,2999,2\n")
        }
        None => false,
    }
}

/// Returns whether a writer with room for 51 bytes has the front of the report.
fn is_cut(alloc: Global, faults: &[Fault]) -> bool {
    let front = "kind,code,table,row,column\nerror,Required,1,0,2\nerr";
    is_written(alloc, faults, 51, (Err(ReportStop::Write), 1), front)
}

/// Returns whether both are true.
fn are_written(alloc: Global, rows: u64) -> bool {
    match faults_of_rows(alloc, rows) {
        Ok(faults) => has_lines(alloc, faults.as_slice()) && is_cut(alloc, faults.as_slice()),
        Err(_) => false,
    }
}

#[test]
fn many_faults_are_as_many_lines_and_a_full_writer_has_a_front_of_them(rt: HostRuntime) {
    assert!(rt; are_written(rt.alloc(), 3000));
}

/// Returns the outcome with these faults.
fn outcome_of(alloc: Global, faults: &[Fault]) -> Result<Outcome, AllocError> {
    let faults = Seq::of(faults.to_vec(alloc)?);
    Ok(Outcome {
        faults: sorted(faults),
    })
}

/// Returns whether the faults are sorted like this, and make an outcome valid or not.
fn are_sorted(alloc: Global, faults: &[Fault], want: &[Fault], valid: bool) -> bool {
    match outcome_of(alloc, faults) {
        Ok(outcome) => outcome.faults.as_slice() == want && outcome.valid() == valid,
        Err(_) => false,
    }
}

#[test]
fn faults_are_sorted_by_place_and_code(rt: HostRuntime) {
    let first = fault(Kind::Warning, Code::UnknownProperty, 0, 0, 0);
    let second = fault(Kind::Error, Code::Required, 1, 9, 2);
    let third = fault(Kind::Error, Code::BadInteger, 1, 9, 2);
    let fourth = fault(Kind::Error, Code::Required, 1, 10, 1);
    let faults = [fourth, third, second, first, third];
    let want = [first, second, third, third, fourth];
    assert!(rt; are_sorted(rt.alloc(), &faults, &want, false));
    assert!(rt; are_sorted(rt.alloc(), &[first], &[first], true));
}
