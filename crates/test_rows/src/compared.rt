//! The rows of generated texts, compared with those that the crate `csv` reads.

use crate::numbers::Numbers;
use crate::reading::{Way, gives, write_field};
use csv::{Reader, ReaderBuilder, StringRecord};
use csvw_rows::Dialect;
use std::alloc::{AllocError, Global};
use std::fmt::Write;
use std::process::Abort;

/// Texts that may be in a cell without quotes, also at its start.
const PLAIN: [&str; 9] = [
    "a",
    "7",
    " ",
    "\t",
    ".#",
    "\u{E9}",
    "\u{6F22}",
    "\u{1F600}",
    "'",
];

/// Texts that may be in quotes.
const QUOTED: [&str; 10] = [
    "a",
    " ",
    ",",
    "\"\"",
    "\n",
    "\r\n",
    "\r",
    "#",
    "\u{E9}",
    "\u{1F600}",
];

fn add_plain(text: &mut String, numbers: &mut Numbers, len: u64) -> Result<(), AllocError> {
    for _ in 0..len {
        text.push_str(numbers.pick(&PLAIN))?;
    }
    Ok(())
}

fn add_quoted(text: &mut String, numbers: &mut Numbers, len: u64) -> Result<(), AllocError> {
    text.push('"')?;
    for _ in 0..len {
        text.push_str(numbers.pick(&QUOTED))?;
    }
    text.push('"')
}

/// Adds a row of so many cells. A cell that is alone isn't empty, as the row would be blank.
fn add_row(text: &mut String, numbers: &mut Numbers, columns: u64) -> Result<(), AllocError> {
    for column in 0..columns {
        if 0 < column {
            text.push(',')?;
        }
        let len = numbers.below(4);
        if numbers.below(2) == 0 {
            add_quoted(text, numbers, len)?;
        } else {
            add_plain(text, numbers, len.max(u64::from(columns == 1)))?;
        }
    }
    Ok(())
}

/// Adds up to seven rows of equal length. The last may have no terminator.
fn add_rows(text: &mut String, numbers: &mut Numbers) -> Result<(), AllocError> {
    let columns = 1 + numbers.below(4);
    let rows = numbers.below(8);
    for row in 0..rows {
        add_row(text, numbers, columns)?;
        if row + 1 < rows || numbers.below(2) == 0 {
            text.push_str(numbers.pick(&["\n", "\r\n"]))?;
        }
    }
    Ok(())
}

/// Writes a record as `write_row` writes a row of this source number.
fn write_record(text: &mut String, record: &StringRecord, source: u64) -> Result<(), AllocError> {
    write!(text, "{source}/{}", source.saturating_sub(1))?;
    for field in record.iter() {
        write_field(text, field)?;
    }
    text.push_str("; ")
}

/// Returns whether there was a record.
fn read_record(reader: &mut Reader<&[u8]>, record: &mut StringRecord) -> Result<bool, AllocError> {
    match reader.read_record(record) {
        Ok(more) => Ok(more),
        Err(_) => Err(AllocError),
    }
}

/// Writes the records that a reader reads, each in the memory of the one before.
fn write_records(
    text: &mut String,
    reader: &mut Reader<&[u8]>,
    record: &mut StringRecord,
) -> Result<(), AllocError> {
    for source in 1..64 {
        if !read_record(reader, record)? {
            break;
        }
        write_record(text, record, source)?;
    }
    Ok(())
}

/// Writes what the crate `csv` reads.
fn write_read(text: &mut String, alloc: Global, bytes: &[u8]) -> Result<(), AllocError> {
    let mut record = StringRecord::new(alloc);
    let mut reader = ReaderBuilder::new()
        .has_headers(false)
        .from_reader(alloc, bytes);
    write_records(text, &mut reader, &mut record)
}

const TEXTS: u32 = 1000;

/// Compares the rows of a text, in pieces of each length, with the expected ones.
fn compare_pieces(rt: &impl Abort, alloc: Global, text: &str, want: &str) {
    for len in [1, 2, 3, 7, 1000] {
        assert!(rt;
            gives(
                alloc,
                Dialect::new(alloc),
                1000,
                Way::Pieces(text.as_bytes(), len),
                want
            ),
            "{text:?} by {len}, and not {want:?}"
        );
    }
}

fn compare(rt: &impl Abort, alloc: Global, text: &str) {
    let mut want = String::new(alloc);
    assert!(rt;
        write_read(&mut want, alloc, text.as_bytes()).is_ok(),
        "{text:?}"
    );
    compare_pieces(rt, alloc, text, want.as_str());
}

/// Compares the rows of a generated text.
fn compare_next(rt: &impl Abort, alloc: Global, numbers: &mut Numbers) {
    let mut text = String::new(alloc);
    assert!(rt; add_rows(&mut text, numbers).is_ok());
    compare(rt, alloc, text.as_str());
}

#[test]
fn as_the_crate_csv(rt: HostRuntime) {
    let mut numbers = Numbers(1);
    for _ in 0..TEXTS {
        compare_next(&rt, rt.alloc(), &mut numbers);
    }
}
