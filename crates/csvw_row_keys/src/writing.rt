//! The records of rows, sent to a writer.
ghost use Rattle.std.specs.Prelude.{◌≡◌, ℕ, List, All, true, IfErr, OnOk, flat_map};
ghost use Rattle.csvw_annotate.specs.declared.row.Row.{Row};
ghost use Rattle.csvw_key_records.specs.Records.{Fits, line_of};
ghost use Rattle.csvw_keys.specs.Books.{KeepsKeys};
ghost use Rattle.csvw_keys.specs.KeyRules.{KeyRule, is_recorded, recorded_rules, rules_of};
ghost use Rattle.csvw_report.specs.Stops.{StopsAt};
ghost use Rattle.csvw_row_keys.specs.Listings.{listed_records, listing_lines, listing_records, row_lines};
ghost use Rattle.csvw_row_keys.specs.RowRecords.{records_of};
ghost use Rattle.csvw_streams.specs.Streams.{stream_of, Sends};

use crate::listing::{Listing, listings_of};
use crate::row_lines::lines_of;
use csvw_columns::Plan;
use csvw_keys::{KeyBook, KeyedRow};
use csvw_report::ReportStop;
use csvw_text::{Counted, write_out};
use std::alloc::Global;
use std::io::Write;

/// The number of rows whose lines are sent at once: some 64 KiB of lines.
const ROWS_AT_ONCE: usize = 512;

fn send<V: Write>(w: &mut Counted<V>, text: &[u8]) -> Result<(), ReportStop>
    ensures ok { OnOk result (Sends (stream_of V.contents w.old w.new) text.now) }
    ensures stop { IfErr result (λ stop. StopsAt (stream_of V.contents w.old w.new) text.now stop) }
{
    match write_out(w, text) {
        Ok(()) => Ok(()),
        Err(_) => Err(ReportStop::Write),
    }
}

fn send_rows<V: Write>(
    alloc: Global,
    listing: &Listing,
    rows: &[KeyedRow],
    w: &mut Counted<V>,
) -> Result<(), ReportStop>
    ensures ok { OnOk result (Sends (stream_of V.contents w.old w.new) (flat_map (row_lines listing.now) rows.now)) }
    ensures stop { IfErr result (λ stop. StopsAt (stream_of V.contents w.old w.new) (flat_map (row_lines listing.now) rows.now) stop) }
    ensures fit { OnOk result (All Fits (flat_map (listed_records listing.now) rows.now)) }
{
    match lines_of(alloc, listing, rows) {
        Ok(text) => send(w, text.as_slice()),
        Err(_) => Err(ReportStop::Memory),
    }
}

/// Writes the lines of rows in a list. It keeps the lines of some rows in memory at a time.
fn write_rows<V: Write>(
    alloc: Global,
    listing: &Listing,
    rows: &[KeyedRow],
    w: &mut Counted<V>,
) -> Result<(), ReportStop>
    ensures ok { OnOk result (Sends (stream_of V.contents w.old w.new) (flat_map (row_lines listing.now) rows.now)) }
    ensures stop { IfErr result (λ stop. StopsAt (stream_of V.contents w.old w.new) (flat_map (row_lines listing.now) rows.now) stop) }
    ensures fit { OnOk result (All Fits (flat_map (listed_records listing.now) rows.now)) }
{
    let mut sent = 0;
    while sent < rows.len() {
        let end = rows.len().min(sent.saturating_add(ROWS_AT_ONCE));
        send_rows(alloc, listing, &rows[sent..end], w)?;
        sent = end;
    }
    Ok(())
}

/// Writes the lines of a list of rows that a book records.
fn write_listing<V: Write>(
    alloc: Global,
    keys: &KeyBook,
    listing: &Listing,
    w: &mut Counted<V>,
) -> Result<(), ReportStop>
    ensures ok { (rules : List KeyRule) (tables : ℕ → List Row) → KeepsKeys keys.now rules tables
        → is_recorded listing.now.table listing.now.columns rules ≡ true
        → OnOk result (Sends (stream_of V.contents w.old w.new) (listing_lines tables listing.now)) }
    ensures stop { (rules : List KeyRule) (tables : ℕ → List Row) → KeepsKeys keys.now rules tables
        → is_recorded listing.now.table listing.now.columns rules ≡ true
        → IfErr result (λ stop. StopsAt (stream_of V.contents w.old w.new) (listing_lines tables listing.now) stop) }
    ensures fit { (rules : List KeyRule) (tables : ℕ → List Row) → KeepsKeys keys.now rules tables
        → is_recorded listing.now.table listing.now.columns rules ≡ true → OnOk result (All Fits (listing_records tables listing.now)) }
{
    match keys.recorded(listing.table, listing.columns.as_slice()) {
        Some(rows) => write_rows(alloc, listing, rows, w),
        None => Ok(()),
    }
}

/// Writes the lines of lists of rows that a book records, one list after the other.
fn write_listings<V: Write>(
    alloc: Global,
    keys: &KeyBook,
    listings: &[Listing],
    w: &mut Counted<V>,
) -> Result<(), ReportStop>
    ensures ok { (rules : List KeyRule) (tables : ℕ → List Row) → KeepsKeys keys.now rules tables
        → All (λ l. is_recorded l.table l.columns rules ≡ true) listings.now
        → OnOk result (Sends (stream_of V.contents w.old w.new) (flat_map (listing_lines tables) listings.now)) }
    ensures stop { (rules : List KeyRule) (tables : ℕ → List Row) → KeepsKeys keys.now rules tables
        → All (λ l. is_recorded l.table l.columns rules ≡ true) listings.now
        → IfErr result (λ stop. StopsAt (stream_of V.contents w.old w.new) (flat_map (listing_lines tables) listings.now) stop) }
    ensures fit { (rules : List KeyRule) (tables : ℕ → List Row) → KeepsKeys keys.now rules tables
        → All (λ l. is_recorded l.table l.columns rules ≡ true) listings.now
        → OnOk result (All Fits (flat_map (listing_records tables) listings.now)) }
{
    for listing in listings {
        write_listing(alloc, keys, listing, w)?;
    }
    Ok(())
}

/// Writes the records of the rows that a book has recorded for the keys of a plan, a line each. The keys are in the
/// order of the plan, and the rows of a key in the order in which they were added. It keeps the lines of some rows in
/// memory at a time.
///
/// Returns `Write` if the writer fails, and `Memory` if memory runs out. What was written before a stop is a front of
/// the lines.
pub fn write_records<V: Write>(
    alloc: Global,
    plan: &Plan,
    keys: &KeyBook,
    w: &mut Counted<V>,
) -> Result<(), ReportStop>
    ensures ok { (tables : ℕ → List Row) → KeepsKeys keys.now (recorded_rules (rules_of plan.now)) tables
        → OnOk result (Sends (stream_of V.contents w.old w.new) (flat_map line_of (records_of (rules_of plan.now) tables))) }
    ensures stop { (tables : ℕ → List Row) → KeepsKeys keys.now (recorded_rules (rules_of plan.now)) tables
        → IfErr result (λ stop. StopsAt (stream_of V.contents w.old w.new) (flat_map line_of (records_of (rules_of plan.now) tables)) stop) }
    ensures fit { (tables : ℕ → List Row) → KeepsKeys keys.now (recorded_rules (rules_of plan.now)) tables
        → OnOk result (All Fits (records_of (rules_of plan.now) tables)) }
{
    match listings_of(alloc, plan) {
        Ok(listings) => write_listings(alloc, keys, listings.as_slice(), w),
        Err(_) => Err(ReportStop::Memory),
    }
}
