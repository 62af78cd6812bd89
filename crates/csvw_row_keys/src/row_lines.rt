//! The lines of the records of rows.
ghost use Rattle.std.specs.Prelude.{◌≡◌, ◌<◌, ◌^◌, ◌++◌, All, IfOk, OnOk, flat_map};
ghost use Rattle.csvw_key_records.specs.Records.{Fits, FitsPlace, IsKey};
ghost use Rattle.csvw_keys.specs.Key.{is_null, is_null_key};
ghost use Rattle.csvw_keys.specs.Places.{first_of};
ghost use Rattle.csvw_row_keys.specs.Listings.{is_listed, listed_record, listed_records, row_lines};

use crate::listing::Listing;
use crate::spelling::push_spelling;
use csvw_key_records::{KeyRecord, Role, push_line};
use csvw_keys::{Key, KeyCell, KeyedRow};
use csvw_text::{Place, Seq};
use std::alloc::{AllocError, Global};

fn is_null(cell: &KeyCell) -> bool
    ensures { result ≡ is_null cell.now }
{
    match cell {
        KeyCell::Null => true,
        KeyCell::One(_) | KeyCell::Many(_) => false,
    }
}

/// Whether each cell of a key is null.
fn is_null_key(key: &Key) -> bool
    ensures { result ≡ is_null_key key.now }
{
    key.as_slice().iter().all(|cell| is_null(cell))
}

/// Whether a row with this key is listed.
fn is_listed(role: Role, key: &Key) -> bool
    ensures { result ≡ is_listed role key.now }
{
    match role {
        Role::Unique | Role::Referenced => true,
        Role::Refers => !is_null_key(key),
    }
}

/// Returns the first number, or 0 if there is none.
fn first_of(columns: &[u32]) -> u32
    ensures is { result ≡ first_of columns.now }
    ensures fits { result < 2 ^ 32 }
{
    match columns.first() {
        Some(column) => *column,
        None => 0,
    }
}

/// Returns the place of a row, by the first of the columns.
fn place_of(table: u32, row: u64, columns: &[u32]) -> Place
    ensures is { result ≡ record { table = table; row = row; column = first_of columns.now } }
    ensures fits { FitsPlace result }
{
    Place {
        table,
        row,
        column: first_of(columns),
    }
}

fn new_record(rule: u32, key: Seq<u8>, role: Role, place: Place) -> KeyRecord
    requires key { IsKey key }
    requires place { FitsPlace place }
    ensures is { result ≡ record { rule = rule; key = key; role = role; place = place } }
    ensures fits { Fits result }
{
    KeyRecord {
        rule,
        key,
        role,
        place,
    }
}

/// Returns the record of a row in a list.
fn listed_record(alloc: Global, listing: &Listing, row: &KeyedRow) -> Result<KeyRecord, AllocError>
    ensures is { IfOk result (λ r. r ≡ listed_record listing.now row.now) }
    ensures fits { IfOk result Fits }
{
    let mut key = Vec::new(alloc);
    push_spelling(&row.key, &mut key)?;
    let place = place_of(listing.table, row.source, listing.columns.as_slice());
    Ok(new_record(listing.rule, Seq::of(key), listing.role, place))
}

/// Adds the line of a row in a list, if the row is listed.
fn push_row(
    alloc: Global,
    listing: &Listing,
    row: &KeyedRow,
    text: &mut Vec<u8>,
) -> Result<(), AllocError>
    ensures lines { OnOk result (text.new.items ≡ text.old.items ++ row_lines listing.now row.now) }
    ensures fit { OnOk result (All Fits (listed_records listing.now row.now)) }
{
    if !is_listed(listing.role, &row.key) {
        return Ok(());
    }
    let line = listed_record(alloc, listing, row)?;
    push_line(text, &line)?;
    Ok(())
}

/// Returns the lines of rows in a list.
pub(crate) fn lines_of(
    alloc: Global,
    listing: &Listing,
    rows: &[KeyedRow],
) -> Result<Vec<u8>, AllocError>
    ensures lines { IfOk result (λ v. v.items ≡ flat_map (row_lines listing.now) rows.now) }
    ensures fit { OnOk result (All Fits (flat_map (listed_records listing.now) rows.now)) }
{
    let mut text = Vec::new(alloc);
    for row in rows {
        push_row(alloc, listing, row, &mut text)?;
    }
    Ok(text)
}
