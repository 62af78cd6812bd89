//! Texts that are no plans, with their faults.

use csvw_part_plan::{file_length, next_piece, part_count, pieces_of, read_plan};
use std::alloc::{AllocError, Global};
use std::process::Abort;

/// The heading of a plan.
const HEADING: &str = "part,table,first_byte,bytes,rows_before,data_rows_before,header_bytes\n";

/// Lines after the heading, and the line and the fault that are expected.
static FAULTS: [(&str, &str); 31] = [
    ("", "2 NoPiece"),
    ("1,1,0,4,0,0,2", "2 Numbers"),
    ("1,1,0,4,0,0\n", "2 Numbers"),
    ("1,1,0,4,0,0,2,7\n", "2 Numbers"),
    ("1,1,0,4,0,0,\n", "2 Numbers"),
    ("01,1,0,4,0,0,2\n", "2 Numbers"),
    ("+1,1,0,4,0,0,2\n", "2 Numbers"),
    ("1,1,0,-4,0,0,2\n", "2 Numbers"),
    ("1,1,0,x,0,0,2\n", "2 Numbers"),
    ("1,1,0,4,0,0,2\r\n", "2 Numbers"),
    ("1,1,0,18446744073709551616,0,0,2\n", "2 Numbers"),
    ("4294967296,1,0,4,0,0,2\n", "2 Numbers"),
    ("1,1,0,4,0,0,2\n\n", "3 Numbers"),
    ("2,1,0,4,0,0,2\n", "2 Part"),
    ("0,1,0,4,0,0,2\n", "2 Part"),
    ("1,2,0,4,0,0,2\n", "2 Table"),
    ("1,1,1,4,0,0,2\n", "2 FirstByte"),
    ("1,1,0,4,1,0,2\n", "2 Rows"),
    ("1,1,0,4,0,1,2\n", "2 Rows"),
    ("1,1,0,4,0,0,2\n1,1,4,4,2,1,2\n", "3 Part"),
    ("1,1,0,4,0,0,2\n3,1,4,4,2,1,2\n", "3 Part"),
    ("1,1,0,4,0,0,2\n2,3,0,4,0,0,2\n", "3 Table"),
    ("1,1,0,4,0,0,2\n2,1,5,4,2,1,2\n", "3 FirstByte"),
    ("1,1,0,4,0,0,2\n2,1,3,4,2,1,2\n", "3 FirstByte"),
    ("1,1,0,4,0,0,2\n2,2,4,4,0,0,2\n", "3 FirstByte"),
    ("1,1,0,0,0,0,2\n2,1,0,4,0,0,2\n", "3 FirstByte"),
    ("1,1,0,4,0,0,2\n2,1,4,4,2,1,2\n3,1,8,4,1,1,2\n", "4 Rows"),
    ("1,1,0,4,0,0,2\n2,1,4,4,2,1,2\n3,1,8,4,3,0,2\n", "4 Rows"),
    ("1,1,0,4,0,0,2\n2,2,0,4,2,0,2\n", "3 Rows"),
    ("1,1,0,4,0,0,2\n2,1,4,4,2,1,3\n", "3 HeaderBytes"),
    (
        "1,1,0,4,0,0,2\n2,1,4,18446744073709551612,2,1,2\n",
        "3 LastByte",
    ),
];

/// Returns the fault of a text, as its line and its name, or an empty text if it is a plan.
fn fault_of(alloc: Global, text: &str) -> Result<String, AllocError> {
    match read_plan(alloc, text.as_bytes()) {
        Ok(_) => Ok(String::new(alloc)),
        Err(csvw_part_plan::PlanFault::Line { line, fault }) => {
            format!(in alloc; "{line} {fault:?}")
        }
        Err(csvw_part_plan::PlanFault::Memory) => Err(AllocError),
    }
}

/// Returns whether the text after the heading has the expected fault.
fn has_fault(alloc: Global, lines: &str, want: &str) -> Result<bool, AllocError> {
    let text = format!(in alloc; "{HEADING}{lines}")?;
    let fault = fault_of(alloc, text.as_str())?;
    Ok(fault.as_str() == want)
}

#[test]
fn faults(rt: HostRuntime) {
    for (lines, want) in &FAULTS {
        assert!(rt; has_fault(rt.alloc(), lines, want) == Ok(true), "{lines}");
    }
}

#[test]
fn other_headings(rt: HostRuntime) {
    for text in &["", "part,table\n", "1,1,0,4,0,0,2\n"] {
        let fault = fault_of(rt.alloc(), text);
        assert!(rt;
            fault.is_ok_and(|fault| fault.as_str() == "1 Heading"),
            "{text}"
        );
    }
}

/// Returns whether the calls on a plan of three parts of two files return the expected results.
fn asks(alloc: Global) -> Result<bool, AllocError> {
    let lines = "1,1,0,4,0,0,2\n1,2,0,6,0,0,2\n2,2,6,3,2,1,2\n3,2,9,1,4,3,2\n";
    let text = format!(in alloc; "{HEADING}{lines}")?;
    let Ok(plan) = read_plan(alloc, text.as_bytes()) else {
        return Ok(false);
    };
    let pieces = plan.as_slice();
    let first = pieces_of(alloc, pieces, 1)?;
    let none = pieces_of(alloc, pieces, 4)?;
    let lengths = [
        file_length(pieces, 1),
        file_length(pieces, 2),
        file_length(pieces, 3),
    ];
    let next = match pieces.get(1) {
        Some(piece) => next_piece(pieces, piece),
        None => None,
    };
    Ok(
        part_count(pieces) == 3
            && first.as_slice() == &pieces[..2]
            && none.is_empty()
            && lengths == [Some(4), Some(10), None]
            && next == pieces.get(2).copied(),
    )
}

#[test]
fn questions(rt: HostRuntime) {
    assert!(rt; asks(rt.alloc()) == Ok(true));
}
