//! `ColumnList`: a list of columns, with the place of each name.
ghost use Rattle.std.specs.Prelude.{◌≡◌, IfOk, OnOk, bytes_eq, find, length};
ghost use Rattle.std.specs.Option.{option_copied};
ghost use Rattle.csvw_columns_core.specs.ByName.{AddsPlace, ArePlaces};

use crate::column::Column;
use csvw_text::Seq;
use indexmap::IndexMap;
use std::alloc::{AllocError, Global};
use std::marker::Model;

/// A list of columns, with the place of each name. Contracts see it as the list.
#[derive(Debug, Drop)]
pub struct ColumnList {
    /// The columns.
    columns: Seq<Column>,
    /// The places of the names. If two columns have one name, its place is that of the first.
    places: IndexMap<String, usize>,
}

impl Model for ColumnList {
    ghost use Rattle.std.specs.Prelude.{List};
    ghost use Rattle.csvw_columns_core.specs.ByName.{ArePlaces};
    ghost use Rattle.csvw_columns_core.specs.declared.column.Column.{Column};

    ghost Value = { List Column };

    ghost view = { λ l. l.columns };

    ghost invariant = { λ l. ArePlaces l.columns l.places };
}

impl ColumnList {
    /// Returns the list of these columns, or `AllocError` if memory runs out.
    pub fn of(alloc: Global, columns: Seq<Column>) -> Result<ColumnList, AllocError>
        ensures { IfOk result (λ l. l ≡ columns) }
    {
        let places = places_of(alloc, columns.as_slice())?;
        Ok(ColumnList { columns, places })
    }

    /// Returns the columns as a slice.
    pub fn as_slice(&self) -> &[Column]
        ensures { result.now ≡ self.now }
    {
        self.columns.as_slice()
    }

    /// Returns the number of columns.
    pub fn len(&self) -> usize
        ensures { result ≡ length self.now }
    {
        self.columns.len()
    }

    /// Returns the first column of this name, or `None` if there is none. It takes no memory.
    pub fn by_name(&self, name: &str) -> Option<&Column>
        ensures { option_copied result ≡ find (λ c. bytes_eq c.name name.now) self.now }
    {
        let place = self.places.get(name)?;
        self.columns.as_slice().get(*place)
    }

    /// Returns an equal list, or `AllocError` if memory runs out.
    pub fn clone(&self, alloc: Global) -> Result<ColumnList, AllocError>
        ensures { IfOk result (λ l. l ≡ self.now) }
    {
        ColumnList::of(alloc, self.columns.clone(alloc)?)
    }
}

/// Adds the place of a column's name, unless an earlier column has the name.
fn add_place(
    alloc: Global,
    places: &mut IndexMap<String, usize>,
    column: &Column,
    place: usize,
) -> Result<(), AllocError>
    ensures { OnOk result (AddsPlace places.old places.new column.now place) }
{
    let name = column.name.as_str();
    if !places.contains_key(name) {
        places.insert(String::from_str(alloc, name)?, place)?;
    }
    Ok(())
}

/// Returns the place of each name. If two columns have one name, its place is that of the first. Returns `AllocError`
/// if memory runs out.
fn places_of(alloc: Global, columns: &[Column]) -> Result<IndexMap<String, usize>, AllocError>
    ensures { IfOk result (λ places. ArePlaces columns.now places) }
{
    let mut places = IndexMap::new(alloc);
    for (i, column) in columns.iter().enumerate() {
        add_place(alloc, &mut places, column, i)?;
    }
    Ok(places)
}
