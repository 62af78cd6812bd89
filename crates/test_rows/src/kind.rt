//! Dialects for the tests, as constants.

use csvw_rows::{Dialect, LineTerminators, Trim};
use csvw_text::Text;
use std::alloc::{AllocError, Global};

/// A dialect, with its comment prefix as a constant text.
#[derive(Clone, Copy)]
pub struct Kind {
    /// The character between two fields.
    pub delimiter: char,
    /// The character around a field.
    pub quote_char: Option<char>,
    /// Whether a quote in a field is doubled. If not, a backslash precedes it.
    pub double_quote: bool,
    /// The text before a comment.
    pub comment_prefix: Option<&'static str>,
    /// The number of header rows.
    pub header_row_count: u8,
    /// The number of rows that are skipped at the start.
    pub skip_rows: u64,
    /// The number of fields that are skipped at the start of a row.
    pub skip_columns: u32,
    /// Whether rows of empty fields are skipped.
    pub skip_blank_rows: bool,
    /// Whether spaces before a quote are skipped.
    pub skip_initial_space: bool,
    /// The white space that is stripped from a field.
    pub trim: Trim,
    /// The line terminators.
    pub line_terminators: LineTerminators,
}

/// The default dialect.
pub const DEFAULT: Kind = Kind {
    delimiter: ',',
    quote_char: Some('"'),
    double_quote: true,
    comment_prefix: Some("#"),
    header_row_count: 1,
    skip_rows: 0,
    skip_columns: 0,
    skip_blank_rows: false,
    skip_initial_space: false,
    trim: Trim::No,
    line_terminators: LineTerminators {
        crlf: true,
        lf: true,
    },
};

impl Kind {
    /// Returns the dialect, or `AllocError` if memory runs out.
    pub(crate) fn dialect(&self, alloc: Global) -> Result<Dialect, AllocError> {
        let comment_prefix = match self.comment_prefix {
            Some(prefix) => Some(Text::copied(alloc, prefix)?),
            None => None,
        };
        Ok(Dialect {
            delimiter: self.delimiter,
            quote_char: self.quote_char,
            double_quote: self.double_quote,
            comment_prefix,
            header_row_count: self.header_row_count,
            skip_rows: self.skip_rows,
            skip_columns: self.skip_columns,
            skip_blank_rows: self.skip_blank_rows,
            skip_initial_space: self.skip_initial_space,
            trim: self.trim,
            line_terminators: self.line_terminators,
        })
    }
}
