//! `RowStop`: why no more rows come.
ghost use Rattle.std.specs.Prelude.{◌≡◌};
ghost use Rattle.csvw_records.specs.StopNames.{name_of};

use std::alloc::{AllocError, AllocFailed};
use std::error::Error;
use std::fmt;

/// Why no more rows come. A stop is at a character of the text, or at its end. At one place the order is `NotUtf8`,
/// `RowTooLong`, the three on quotes, `TooManyRows`.
#[derive(Clone, Copy, Debug, PartialEq, Eq)]
pub enum RowStop {
    /// Memory ran out. It may come before any other stop.
    Memory,
    /// A byte can't continue the text in UTF-8, or the bytes end inside a character (RFC 3629).
    NotUtf8,
    /// A row has more than 1,048,576 bytes without its terminator.
    RowTooLong,
    /// A field that isn't quoted contains a quote (RFC 4180, section 2, rule 5).
    BadQuote,
    /// Neither a delimiter nor a terminator follows a closing quote (RFC 4180, section 2, rule 5).
    TextAfterQuote,
    /// A quoted field has no closing quote (RFC 4180, section 2, rule 5).
    UnclosedQuote,
    /// There are more rows, of all kinds, than the reader's limit.
    TooManyRows,
}

impl RowStop {
    /// Returns the name of the variant, as the program's lines spell it.
    pub fn name(&self) -> &'static str
        ensures { result.now ≡ name_of self.now }
    {
        match self {
            RowStop::Memory => "Memory",
            RowStop::NotUtf8 => "NotUtf8",
            RowStop::RowTooLong => "RowTooLong",
            RowStop::BadQuote => "BadQuote",
            RowStop::TextAfterQuote => "TextAfterQuote",
            RowStop::UnclosedQuote => "UnclosedQuote",
            RowStop::TooManyRows => "TooManyRows",
        }
    }

    /// Returns what is wrong and what to do, as a sentence without its full stop.
    fn sentence(&self) -> &'static str {
        match self {
            RowStop::Memory => "there is no memory: free some, and try again",
            RowStop::NotUtf8 => "the text is not UTF-8: save it in UTF-8",
            RowStop::RowTooLong => {
                "a row has more than 1,048,576 bytes: divide it, or look for a quote that is not closed"
            }
            RowStop::BadQuote => {
                "a quote stands in a field that does not begin with one: quote the whole field, and double the quotes in it"
            }
            RowStop::TextAfterQuote => {
                "text stands behind the quote that ends a field: double the quotes in a field"
            }
            RowStop::UnclosedQuote => {
                "a field that begins with a quote has no quote at its end: close it"
            }
            RowStop::TooManyRows => {
                "there are more rows than the reader may take: divide the table"
            }
        }
    }
}

impl fmt::Display for RowStop {
    fn fmt<W: fmt::Write>(&self, f: &mut fmt::Formatter<W>) -> fmt::Result {
        f.write_str(self.sentence())
    }
}

impl Error for RowStop {}

impl From<AllocError> for RowStop {
    ghost use Rattle.std.specs.Prelude.{◌≡◌};
    ghost use Rattle.csvw_records.specs.declared.stop.RowStop.TheVariants.{Memory};

    ghost from_gives = { λ _ e. e ≡ Memory };

    fn from(_: AllocError) -> RowStop {
        RowStop::Memory
    }
}

impl<T: Drop> From<AllocFailed<T>> for RowStop {
    ghost use Rattle.std.specs.Prelude.{◌≡◌};
    ghost use Rattle.csvw_records.specs.declared.stop.RowStop.TheVariants.{Memory};

    ghost from_gives = { λ _ e. e ≡ Memory };

    fn from(_: AllocFailed<T>) -> RowStop {
        RowStop::Memory
    }
}
