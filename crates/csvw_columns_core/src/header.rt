//! `header_faults`: how a header fits the columns of its table.
ghost use Rattle.std.specs.Prelude.{◌≡◌, ◌++◌, IfOk, OnOk, bytes_eq, [], ◌∷◌, if◌then◌else◌};
ghost use Rattle.std.specs.List.{list_any};
ghost use Rattle.csvw_columns_core.specs.HeaderFits.{cell_at, has_title, encoded_cells, has_name, fits, fits_alone};
ghost use Rattle.csvw_columns_core.specs.HeaderFits.{error_at, mismatches_from, mismatches, count_faults, last_source, header_faults};

use crate::column::Column;
use crate::columns::count_fields;
use csvw_description::Name;
use csvw_text::{Code, Fault, Kind, Place, Seq, Text};
use std::alloc::{AllocError, Global};

/// A header row.
#[derive(Debug, Drop)]
pub struct HeaderRow {
    /// The source number, from 1. Skipped rows, comments and blank rows count.
    pub source: u64,
    /// The cells, without those of skipped columns.
    pub cells: Seq<Text>,
}

/// Returns the cell at this place, from 0, or the empty text if there is none.
pub(crate) fn cell_at(row: &HeaderRow, i: usize) -> &str
    ensures { result.now ≡ cell_at row.now i }
{
    match row.cells.as_slice().get(i) {
        Some(cell) => cell.as_str(),
        None => "",
    }
}

fn is_one_of(titles: &[Text], cell: &str) -> bool
    ensures { result ≡ list_any (λ title. bytes_eq title cell.now) titles.now }
{
    titles.iter().any(|title| title.as_str() == cell)
}

fn has_title(titles: &[Text], rows: &[HeaderRow], i: usize) -> bool
    ensures { result ≡ has_title titles.now rows.now i }
{
    rows.iter().any(|row| is_one_of(titles, cell_at(row, i)))
}

/// Returns the header cells of the column at this place, each percent-encoded as a name is.
fn encoded_cells(alloc: Global, rows: &[HeaderRow], i: usize) -> Result<Vec<Name>, AllocError>
    ensures { IfOk result (λ v. v.items ≡ encoded_cells rows.now i) }
{
    let mut cells = Vec::new(alloc);
    for row in rows {
        cells.push(Name::of_title(alloc, cell_at(row, i))?)?;
    }
    Ok(cells)
}

fn is_among(names: &[Name], name: &str) -> bool
    ensures { result ≡ list_any (λ n. bytes_eq n name.now) names.now }
{
    names.iter().any(|n| n.as_str() == name)
}

fn has_name(alloc: Global, name: &str, rows: &[HeaderRow], i: usize) -> Result<bool, AllocError>
    ensures { IfOk result (λ b. b ≡ has_name name.now rows.now i) }
{
    let cells = encoded_cells(alloc, rows, i)?;
    Ok(is_among(cells.as_slice(), name))
}

/// Returns whether a column fits its header cells (Metadata Vocabulary for Tabular Data, section 6.4).
///
/// A column fits if it is virtual, or if it has neither a title nor a name of its own. A column with titles fits if
/// one of its header cells is one of them. A column with a name alone fits if one of its header cells,
/// percent-encoded, is that name.
fn fits(alloc: Global, column: &Column, rows: &[HeaderRow], i: usize) -> Result<bool, AllocError>
    ensures { IfOk result (λ b. b ≡ fits column.now rows.now i) }
{
    if column.is_virtual {
        return Ok(true);
    }
    if !column.titles.is_empty() {
        return Ok(has_title(column.titles.as_slice(), rows, i));
    }
    if column.is_named {
        return has_name(alloc, column.name.as_str(), rows, i);
    }
    Ok(true)
}

fn error_at(table: u32, row: u64, column: u32, code: Code) -> Fault
    ensures { result ≡ error_at table row column code }
{
    Fault {
        place: Place { table, row, column },
        code,
        kind: Kind::Error,
    }
}

fn last_source(rows: &[HeaderRow]) -> u64
    ensures { result ≡ last_source rows.now }
{
    let mut source = 0;
    for row in rows {
        source = row.source;
    }
    source
}

fn tell_unless(faults: &mut Seq<Fault>, is_fine: bool, fault: Fault) -> Result<(), AllocError>
    ensures { OnOk result (faults.new ≡ faults.old ++ (if is_fine then [] else fault ∷ [])) }
{
    if !is_fine {
        faults.push(fault)?;
    }
    Ok(())
}

fn mismatches_at(
    alloc: Global,
    table: u32,
    columns: &[Column],
    rows: &[HeaderRow],
) -> Result<Seq<Fault>, AllocError>
    ensures { IfOk result (λ s. s ≡ mismatches_from table (last_source rows.now) rows.now 0 columns.now) }
{
    let source = last_source(rows);
    let mut faults = Seq::new(alloc);
    for (i, column) in columns.iter().enumerate() {
        let mismatch = error_at(table, source, column.number, Code::HeaderMismatch);
        tell_unless(&mut faults, fits(alloc, column, rows, i)?, mismatch)?;
    }
    Ok(faults)
}

fn count_faults(
    alloc: Global,
    table: u32,
    count: usize,
    rows: &[HeaderRow],
) -> Result<Seq<Fault>, AllocError>
    ensures { IfOk result (λ s. s ≡ count_faults table count rows.now) }
{
    let mut faults = Seq::new(alloc);
    for row in rows {
        if row.cells.len() != count {
            faults.push(error_at(table, row.source, 0, Code::HeaderCount))?;
        }
    }
    Ok(faults)
}

/// Returns what is wrong with the header of a table, which has `count` header rows by its dialect:
///
/// - `HeaderMissing` if there are fewer header rows,
/// - else `HeaderCount` for each header row that does not have one cell for each column that isn't virtual,
/// - else `HeaderMismatch` for each column that doesn't fit, at the last header row.
///
/// Returns `AllocError` if memory runs out.
pub fn header_faults(
    alloc: Global,
    table: u32,
    wanted: u8,
    columns: &[Column],
    rows: &[HeaderRow],
) -> Result<Seq<Fault>, AllocError>
    ensures { IfOk result (λ s. s ≡ header_faults table wanted columns.now rows.now) }
{
    if wanted == 0 {
        return Ok(Seq::new(alloc));
    }
    if rows.len() < wanted as usize {
        let mut faults = Seq::new(alloc);
        faults.push(error_at(table, 0, 0, Code::HeaderMissing))?;
        return Ok(faults);
    }
    let counts = count_faults(alloc, table, count_fields(columns), rows)?;
    if counts.is_empty() {
        return mismatches_at(alloc, table, columns, rows);
    }
    Ok(counts)
}
