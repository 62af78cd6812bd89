//! Columns, as a document describes them.
ghost use Rattle.std.specs.Prelude.{◌≡◌, IfOk};
ghost use Rattle.csvw_description.specs.Name.{name_of};

use crate::inherited::Inherited;
use crate::name::Name;
use csvw_text::{Fault, Seq, Text};
use std::alloc::{AllocError, Global};

/// A column description (Metadata Vocabulary for Tabular Data, section 5.6).
#[derive(Debug, Drop)]
pub struct ColumnDescription {
    /// The `name`.
    pub name: Option<Name>,
    /// The `titles` of all languages that aren't empty. Those of the context's language come first, then those of
    /// each other language in the byte order of the tags. So the first title names a column without a name.
    pub titles: Seq<Text>,
    /// Whether the column has no field in the source (`virtual`).
    pub is_virtual: bool,
    /// Whether the cells of the column are left out of the graph (`suppressOutput`).
    pub suppressed: bool,
    /// Whether the values of its cells are titles of their rows (`rowTitles` of the schema, section 5.5).
    pub is_row_title: bool,
    /// The inherited properties of the column.
    pub inherited: Inherited,
    /// A warning for each property that is ignored, in the column or in its datatype.
    pub warnings: Seq<Fault>,
}

impl ColumnDescription {
    /// Returns the name of the column (section 5.6). `number` is its number, from 1.
    ///
    /// The name is its own, else its first title percent-encoded, else `_col.` and the number. Returns `AllocError`
    /// if memory runs out.
    pub fn resolved_name(&self, alloc: Global, number: usize) -> Result<Name, AllocError>
        ensures { IfOk result (λ name. name ≡ name_of number self.now) }
    {
        if let Some(name) = &self.name {
            return name.clone(alloc);
        }
        match self.titles.as_slice().first() {
            Some(title) => Name::of_title(alloc, title.as_str()),
            None => Name::numbered(alloc, number),
        }
    }
}
