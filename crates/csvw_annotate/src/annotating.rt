//! `annotate` and `annotate_into`: the annotated row of a data row.
ghost use Rattle.std.specs.Prelude.{◌≡◌, ◌<◌, ◌≤◌, [], None, IfOk, OnOk, length};
ghost use Rattle.csvw_rows.specs.RowValue.{row_of};
ghost use Rattle.csvw_datatype.specs.Sound.{IsSound};
ghost use Rattle.csvw_annotate.specs.Annotated.{IsCell, AreCells, Annotates};
ghost use Rattle.csvw_columns_core.specs.Sound.{AreSound};
ghost use Rattle.csvw_annotate.specs.FieldAt.{field_at};

use crate::linked_columns::LinkedColumns;
use crate::linking::link_row;
use crate::numbers::RowNumbers;
use crate::row::{AnnCell, Row};
use crate::row_room::RowRoom;
use csvw_cell::parse_over;
use csvw_columns_core::{Column, Columns, TableStop};
use csvw_datatype::{Expressions, values_of_texts};
use csvw_iri::Iri;
use csvw_rows::RawRow;
use csvw_text::Seq;
use std::alloc::{AllocError, Global};

/// Removes a link. Most cells have none.
#[inline(always)]
fn clear(link: &mut Option<Iri>)
    ensures { link.new ≡ None }
{
    if link.is_some() {
        *link = None;
    }
}

/// Writes the cell of a text over a cell, in its memory.
fn fill_cell(
    expressions: &mut Expressions,
    column: &Column,
    text: &str,
    cell: &mut AnnCell,
) -> Result<(), AllocError>
    requires { IsSound column.now.properties.datatype }
    ensures { OnOk result (IsCell column.now text.now cell.new) }
{
    clear(&mut cell.about);
    clear(&mut cell.property);
    clear(&mut cell.link);
    parse_over(expressions, column, text, &mut cell.value, &mut cell.faults)
}

/// Returns the text of field `i`, from 0, or the empty text if there is no such field.
fn field_at<'a>(row: &RawRow<'a>, i: usize) -> &'a str
    ensures { result.now ≡ field_at (row_of row.now).fields i }
{
    if i < row.len() { row.field(i) } else { "" }
}

/// Returns so many cells: the first of these, and null cells after them.
fn resized(mut cells: Vec<AnnCell>, alloc: Global, count: usize) -> Result<Vec<AnnCell>, AllocError>
    ensures { IfOk result (λ v. length v.items ≡ count) }
{
    cells.truncate(count);
    while cells.len() < count {
        cells.push(AnnCell::new(alloc))?;
    }
    Ok(cells)
}

/// Writes the cells of the columns over these.
fn fill_cells(
    expressions: &mut Expressions,
    columns: &[Column],
    row: &RawRow,
    cells: &mut [AnnCell],
) -> Result<(), AllocError>
    requires sound { AreSound columns.now }
    requires places { length cells.old ≡ length columns.now }
    ensures { OnOk result (AreCells columns.now (row_of row.now).fields cells.new) }
{
    for i in 0..columns.len() {
        fill_cell(expressions, &columns[i], field_at(row, i), &mut cells[i])?;
    }
    Ok(())
}

/// Returns the cells of a row, in the memory of others.
fn refilled(
    expressions: &mut Expressions,
    columns: &[Column],
    row: &RawRow,
    cells: Vec<AnnCell>,
) -> Result<Vec<AnnCell>, AllocError>
    requires { AreSound columns.now }
    ensures cells { IfOk result (λ v. AreCells columns.now (row_of row.now).fields v.items) }
    ensures places { IfOk result (λ v. length v.items ≡ length columns.now) }
{
    let mut cells = resized(cells, expressions.alloc(), columns.len())?;
    fill_cells(expressions, columns, row, cells.as_mut_slice())?;
    Ok(cells)
}

/// Returns the same row as `annotate`, in the memory of a row that is no longer needed, with the links and the automata
/// that the room keeps.
///
/// The datatypes of the columns must have passed `Datatype::check`. Returns `RaggedRow` exactly if the row does not
/// have one field for each column that isn't virtual. Returns `Memory` if memory runs out.
pub fn annotate_into(
    alloc: Global,
    columns: &LinkedColumns,
    row: &RawRow,
    spare: Row,
    room: &mut RowRoom,
) -> Result<Row, TableStop>
    requires { AreSound columns.now.columns }
    ensures { Annotates columns.now (row_of row.now) result }
{
    let all = columns.columns();
    if row.len() != all.field_count() {
        return Err(TableStop::RaggedRow);
    }
    let mut cells = refilled(
        &mut room.expressions,
        all.columns.as_slice(),
        row,
        spare.cells.into_vec(),
    )?;
    let numbers = RowNumbers {
        number: row.number(),
        source: row.source(),
    };
    values_of_texts();
    link_row(
        alloc,
        columns,
        &mut room.links,
        numbers,
        cells.as_mut_slice(),
    )?;
    Ok(Row {
        number: numbers.number,
        source: numbers.source,
        cells: Seq::of(cells),
    })
}

/// Returns the annotated row of a data row of a table with these columns, with the links of its cells (Model for
/// Tabular Data, sections 4.4, 4.5 and 6.4).
///
/// The datatypes of the columns must have passed `Datatype::check`. Returns `RaggedRow` exactly if the row does not
/// have one field for each column that isn't virtual. Returns `Memory` if memory runs out. It binds the templates of
/// the columns anew. For many rows, make `LinkedColumns` once, and call `annotate_into`.
pub fn annotate(alloc: Global, columns: &Columns, row: &RawRow) -> Result<Row, TableStop>
    requires { AreSound columns.now.columns }
    ensures { Annotates columns.now (row_of row.now) result }
{
    let columns = LinkedColumns::new(alloc, columns.clone(alloc)?)?;
    let mut room = RowRoom::new(alloc);
    annotate_into(alloc, &columns, row, Row::new(alloc), &mut room)
}
