//! The columns that come from a header.
ghost use Rattle.std.specs.Prelude.{◌≡◌, IfOk};
ghost use Rattle.csvw_columns_core.specs.HeaderColumns.{titled_column, titles_at, titled_columns, column_count, from_header};

use crate::header::{HeaderRow, cell_at};
use csvw_description::{ColumnDescription, no_inherited};
use csvw_text::{Seq, Text};
use std::alloc::{AllocError, Global};

fn titles_at(alloc: Global, rows: &[HeaderRow], i: usize) -> Result<Seq<Text>, AllocError>
    ensures { IfOk result (λ s. s ≡ titles_at rows.now i) }
{
    let mut titles = Seq::new(alloc);
    for row in rows {
        let cell = cell_at(row, i);
        if !cell.is_empty() {
            titles.push(Text::copied(alloc, cell)?)?;
        }
    }
    Ok(titles)
}

fn titled_column(alloc: Global, titles: Seq<Text>) -> ColumnDescription
    ensures { result ≡ titled_column titles }
{
    ColumnDescription {
        name: None,
        titles,
        is_virtual: false,
        suppressed: false,
        is_row_title: false,
        inherited: no_inherited(),
        warnings: Seq::new(alloc),
    }
}

fn titled_columns(
    alloc: Global,
    rows: &[HeaderRow],
    count: usize,
) -> Result<Vec<ColumnDescription>, AllocError>
    ensures { IfOk result (λ v. v.items ≡ titled_columns rows.now count) }
{
    let mut columns = Vec::new(alloc);
    for i in 0..count {
        let titles = titles_at(alloc, rows, i)?;
        columns.push(titled_column(alloc, titles))?;
    }
    Ok(columns)
}

/// Returns how many columns come from a header: as many as its first row has cells. Without header rows it is as many
/// as the first data row has fields, if there is one.
pub fn column_count(rows: &[HeaderRow], width: Option<usize>) -> usize
    ensures { result ≡ column_count rows.now width }
{
    match rows.first() {
        Some(row) => row.cells.len(),
        None => width.unwrap_or(0),
    }
}

/// Returns the columns that come from a header (Model for Tabular Data, section 8; Metadata Vocabulary for Tabular
/// Data, section 5.6).
///
/// The titles of each column are its header cells that aren't empty. Without header rows there is a column for each
/// field of the first data row, which has `width` fields. Returns `AllocError` if memory runs out.
pub fn from_header(
    alloc: Global,
    rows: &[HeaderRow],
    width: Option<usize>,
) -> Result<Vec<ColumnDescription>, AllocError>
    ensures { IfOk result (λ v. v.items ≡ from_header rows.now width) }
{
    titled_columns(alloc, rows, column_count(rows, width))
}
