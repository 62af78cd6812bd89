//! `parse` and `parse_into`: the cell that a text is.
ghost use Rattle.std.specs.Prelude.{IfOk};
ghost use Rattle.csvw_datatype.specs.Sound.{IsSound};
ghost use Rattle.csvw_cell.specs.CellOf.{CellOf};

use crate::cell::Cell;
use crate::over::parse_over;
use csvw_columns_core::Column;
use csvw_datatype::Expressions;
use std::alloc::{AllocError, Global};

/// Returns the same cell as `parse`, in the memory of a cell that is no longer needed, with the automata that were made
/// before. The errors and the condition are those of `parse`.
pub fn parse_into(
    expressions: &mut Expressions,
    column: &Column,
    text: &str,
    spare: Cell,
) -> Result<Cell, AllocError>
    requires { IsSound column.now.properties.datatype }
    ensures { IfOk result (CellOf column.now text.now) }
{
    let mut cell = spare;
    parse_over(expressions, column, text, &mut cell.value, &mut cell.faults)?;
    Ok(cell)
}

/// Returns the cell that a text is in the column (Model for Tabular Data, section 6.4, "Parsing Cells").
///
/// The cell has a value, and each code of what is wrong with it, once and in the order of the codes. The column's
/// datatype must have passed `Datatype::check`. Returns `AllocError` if memory runs out.
pub fn parse(alloc: Global, column: &Column, text: &str) -> Result<Cell, AllocError>
    requires { IsSound column.now.properties.datatype }
    ensures { IfOk result (CellOf column.now text.now) }
{
    parse_into(&mut Expressions::new(alloc), column, text, Cell::new(alloc))
}
