//! What is known of the front of the text that is in no row yet.
ghost use Rattle.std.specs.Prelude.{◌≡◌};
ghost use Rattle.csvw_rows.specs.NextRows.{is_last};

use csvw_records::RowStop;

/// What comes after the characters that there are.
#[derive(Clone, Copy, Debug, PartialEq, Eq)]
pub enum After {
    /// More characters may come.
    More,
    /// Nothing: the text has ended.
    Nothing,
    /// Bytes that are not UTF-8, or that end inside a character.
    NoText,
}

/// The result of reading one more row.
#[derive(Clone, Copy, Debug, PartialEq, Eq)]
pub enum Turn {
    /// A row with fields is there.
    Given,
    /// A row was read that is not given.
    Passed,
    /// No row is complete.
    Waits,
}

/// What the bytes at the front are known to be.
#[derive(Clone, Copy, Debug, PartialEq, Eq)]
pub enum Known {
    /// A row of so many bytes with its terminator, whose fields were found.
    Row(usize),
    /// A row of so many bytes with its terminator, which is skipped or a comment.
    Ignored(usize),
    /// No row is complete.
    Waits,
    /// A stop.
    Stop(RowStop),
}

/// Returns whether the text has ended and all of it is characters.
pub fn is_last(after: After) -> bool
    ensures { result ≡ is_last after }
{
    match after {
        After::Nothing => true,
        After::More | After::NoText => false,
    }
}
