//! `RawRow`: a row that a reader lends.
ghost use Rattle.std.specs.Prelude.{◌≡◌, ◌<◌, true, length, Some, slice_get};
ghost use Rattle.csvw_fields.specs.Bounds.{are_bounds, fields_at};

use csvw_fields::{Bound, text_at};

/// A header row or a data row.
#[derive(Clone, Copy)]
pub struct RawRow<'a> {
    /// The bytes that were read.
    text: &'a [u8],
    /// The second buffer.
    spare: &'a [u8],
    /// The bounds of the texts of the fields.
    bounds: &'a [Bound],
    /// The number of the row in its source, from 1.
    source: u64,
    /// The number of the row among the data rows, from 1. It is 0 for a header row.
    number: u64,
    ghost bounded: { are_bounds text.now spare.now bounds.now ≡ true },
}

impl<'a> RawRow<'a> {
    ghost use Rattle.csvw_rows.specs.RowValue.{row_of};

    /// Returns a row of the fields with these bounds, and its two numbers.
    pub(crate) fn new(
        text: &'a [u8],
        spare: &'a [u8],
        bounds: &'a [Bound],
        source: u64,
        number: u64,
    ) -> RawRow<'a>
        requires { are_bounds text.now spare.now bounds.now ≡ true }
        ensures fields { (row_of result).fields ≡ fields_at text.now spare.now bounds.now }
        ensures source { (row_of result).source ≡ source }
        ensures number { (row_of result).number ≡ number }
    {
        RawRow {
            text,
            spare,
            bounds,
            source,
            number,
        }
    }

    /// Returns the number of fields, without the dialect's skipped columns.
    pub fn len(&self) -> usize
        ensures { result ≡ length (row_of self.now).fields }
    {
        self.bounds.len()
    }

    /// Returns the text of field `i`, from 0: its escapes are replaced, and it is trimmed by the dialect.
    pub fn field(&self, i: usize) -> &'a str
        requires { i < length (row_of self.now).fields }
        ensures { slice_get (row_of self.now).fields i ≡ Some result.now }
    {
        text_at(self.text, self.spare, self.bounds[i])
    }

    /// Returns the source number, from 1. Skipped rows, comments, blank rows and header rows count.
    pub fn source(&self) -> u64
        ensures { result ≡ (row_of self.now).source }
    {
        self.source
    }

    /// Returns the row number among the data rows, from 1. It is 0 for a header row.
    pub fn number(&self) -> u64
        ensures { result ≡ (row_of self.now).number }
    {
        self.number
    }
}
