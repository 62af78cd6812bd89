//! `Columns`: the columns of a table.
ghost use Rattle.std.specs.Prelude.{◌≡◌, ◌<◌, length, slice_get, Some, not, find, bytes_eq};
ghost use Rattle.std.specs.Option.{option_copied};
ghost use Rattle.csvw_columns_core.specs.Columns.{field_count};

use crate::column::Column;
use crate::column_list::ColumnList;
use csvw_iri::{Base, Iri};

/// The columns of a table, in order, and what the graph says of the table (Model for Tabular Data, section 4.2).
#[derive(Debug, Drop)]
pub struct Columns {
    /// The columns. Virtual ones come last.
    pub columns: ColumnList,
    /// The table's URL.
    pub url: Base,
    /// The table's `@id`.
    pub id: Option<Iri>,
    /// Whether the table is left out of the graph.
    pub suppressed: bool,
}

impl Columns {
    /// Returns the number of columns.
    pub fn len(&self) -> usize
        ensures { result ≡ length self.now.columns }
    {
        self.columns.len()
    }

    /// Returns column `i`, from 0.
    pub fn column(&self, i: usize) -> &Column
        requires { i < length self.now.columns }
        ensures { slice_get self.now.columns i ≡ Some result.now }
    {
        let columns = self.columns.as_slice();
        &columns[i]
    }

    /// Returns the first column of this name, or `None` if there is none. It takes no memory.
    pub fn by_name(&self, name: &str) -> Option<&Column>
        ensures { option_copied result ≡ find (λ c. bytes_eq c.name name.now) self.now.columns }
    {
        self.columns.by_name(name)
    }

    /// Returns how many fields a row of the table has: one for each column that isn't virtual.
    pub fn field_count(&self) -> usize
        ensures { result ≡ field_count self.now.columns }
    {
        count_fields(self.columns.as_slice())
    }
}

pub(crate) fn count_fields(columns: &[Column]) -> usize
    ensures { result ≡ field_count columns.now }
{
    let mut count = 0;
    for column in columns {
        if !column.is_virtual {
            count += 1;
        }
    }
    count
}
