//! `Dialect`: how a text is divided into rows and fields.
ghost use Rattle.std.specs.Prelude.{◌≡◌, ◌||◌, ◌==◌, IfOk, OnOk, OnErr, chars};
ghost use Rattle.csvw_records.specs.Lawful.{IsLawful, default_dialect, has_break, prefix_of, prefix_breaks, delimiter_breaks, quote_breaks};

use csvw_text::{Copied, Text, copied_option};
use std::alloc::{AllocError, Global};

/// The white space (tab, line feed, carriage return, space) that is stripped from each field.
#[derive(Clone, Copy, Debug, PartialEq, Eq)]
pub enum Trim {
    /// No white space.
    No,
    /// The white space at the start.
    Start,
    /// The white space at the end.
    End,
    /// The white space at the start and at the end.
    Both,
}

/// The line terminators: what ends a row. If both end one, CR LF is tried before LF.
#[derive(Clone, Copy, Debug, PartialEq, Eq)]
pub struct LineTerminators {
    /// CR LF ends a row.
    pub crlf: bool,
    /// LF ends a row.
    pub lf: bool,
}

/// A dialect (Metadata Vocabulary for Tabular Data, section 5.9, "Dialect Descriptions").
#[derive(Debug, Drop)]
pub struct Dialect {
    /// The character between two fields.
    pub delimiter: char,
    /// The character that begins and ends a quoted field. `None`: no field is quoted.
    pub quote_char: Option<char>,
    /// Whether a quote in a quoted field is doubled. If not, a backslash precedes it. A backslash may precede any
    /// character.
    pub double_quote: bool,
    /// The text with which a comment begins. `None`: no row is a comment.
    pub comment_prefix: Option<Text>,
    /// The number of header rows among the rows that remain.
    pub header_row_count: u8,
    /// The number of rows that are skipped at the start.
    pub skip_rows: u64,
    /// The number of fields that are dropped at the start of each row.
    pub skip_columns: u32,
    /// Whether blank rows are skipped: rows whose fields are all empty.
    pub skip_blank_rows: bool,
    /// Whether spaces before an opening quote are skipped.
    pub skip_initial_space: bool,
    /// The white space that is stripped from each field, quoted or not.
    pub trim: Trim,
    /// The line terminators.
    pub line_terminators: LineTerminators,
}

/// The error of a dialect by which no text can be read. It has one of these:
///
/// - a delimiter, quote or comment prefix that contains CR or LF,
/// - a delimiter that is the quote,
/// - a backslash as delimiter or quote if quotes aren't doubled,
/// - no line terminator.
#[derive(Clone, Copy, Debug, PartialEq, Eq)]
pub struct BadDialect;

/// Returns whether the character is CR or LF.
fn is_break(c: char) -> bool
    ensures { result ≡ ((c == 13) || (c == 10)) }
{
    c == '\r' || c == '\n'
}

fn has_break(text: &str) -> bool
    ensures { result ≡ has_break (chars text.now) }
{
    text.chars().any(|c| is_break(c))
}

impl Dialect {
    /// Returns the default dialect, or `AllocError` if memory runs out.
    ///
    /// Fields are separated by `,` and quoted by `"`, which is doubled within a field. Comments begin with `#`. There
    /// is one header row. Nothing is skipped or stripped. Rows end with CR LF or LF.
    pub fn new(alloc: Global) -> Result<Dialect, AllocError>
        ensures { IfOk result (λ d. d ≡ default_dialect) }
    {
        Ok(Dialect {
            delimiter: ',',
            quote_char: Some('"'),
            double_quote: true,
            comment_prefix: Some(Text::copied(alloc, "#")?),
            header_row_count: 1,
            skip_rows: 0,
            skip_columns: 0,
            skip_blank_rows: false,
            skip_initial_space: false,
            trim: Trim::No,
            line_terminators: LineTerminators {
                crlf: true,
                lf: true,
            },
        })
    }

    /// Checks that texts can be read by the dialect. Returns `BadDialect` if they can't.
    pub fn check(&self) -> Result<(), BadDialect>
        ensures ok { OnOk result (IsLawful self.now) }
        ensures bad { OnErr result (IsLawful self.now → ⊥) }
    {
        if self.delimiter_is_bad() || self.quote_is_bad() || self.prefix_is_bad() {
            return Err(BadDialect);
        }
        if !self.line_terminators.crlf && !self.line_terminators.lf {
            return Err(BadDialect);
        }
        Ok(())
    }

    fn delimiter_is_bad(&self) -> bool
        ensures { result ≡ delimiter_breaks self.now }
    {
        is_break(self.delimiter) || !self.double_quote && self.delimiter == '\\'
    }

    fn quote_is_bad(&self) -> bool
        ensures { result ≡ quote_breaks self.now.delimiter self.now.double_quote self.now.quote_char }
    {
        match self.quote_char {
            Some(quote) => {
                is_break(quote) || quote == self.delimiter || !self.double_quote && quote == '\\'
            }
            None => false,
        }
    }

    fn prefix_is_bad(&self) -> bool
        ensures { result ≡ prefix_breaks (prefix_of self.now) }
    {
        match &self.comment_prefix {
            Some(prefix) => has_break(prefix.as_str()),
            None => false,
        }
    }

    /// Returns an equal dialect, or `AllocError` if memory runs out.
    pub fn clone(&self, alloc: Global) -> Result<Dialect, AllocError>
        ensures { IfOk result (λ d. d ≡ self.now) }
    {
        Ok(Dialect {
            delimiter: self.delimiter,
            quote_char: self.quote_char,
            double_quote: self.double_quote,
            comment_prefix: copied_option(alloc, &self.comment_prefix)?,
            header_row_count: self.header_row_count,
            skip_rows: self.skip_rows,
            skip_columns: self.skip_columns,
            skip_blank_rows: self.skip_blank_rows,
            skip_initial_space: self.skip_initial_space,
            trim: self.trim,
            line_terminators: self.line_terminators,
        })
    }
}

impl Copied for Dialect {
    fn copied(&self, alloc: Global) -> Result<Dialect, AllocError> {
        self.clone(alloc)
    }
}
