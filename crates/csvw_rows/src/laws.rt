//! Laws of the rows that a reader gave. The calls do nothing.
ghost use Rattle.csvw_rows.specs.GivenLaws.{GivenBegin, GivenBeginLater, GivenFirst, GivenFirstLater, NothingGiven};
ghost use Rattle.csvw_rows.specs.Skips.{RowEnds};

use csvw_records::laws::record_laws;

/// A law: the rows that a reader gave begin the rows of its front.
pub fn given_begin()
    ensures { GivenBegin }
{
    record_laws();
}

/// A law: the rows that a reader gave of bytes that haven't ended begin the rows of the front of all bytes that begin
/// with those.
pub fn given_begin_later()
    ensures { GivenBeginLater }
{
    record_laws();
}

/// A law: the rows that a reader gave are the header rows and data rows of rows that come first in its text.
pub fn given_first()
    ensures { GivenFirst }
{}

/// A law: the rows that a reader gave of bytes that haven't ended come first in all bytes that begin with those.
pub fn given_first_later()
    ensures { GivenFirstLater }
{
    record_laws();
}

/// A law: if nothing was read, nothing was given.
pub fn nothing_given()
    ensures { NothingGiven }
{
    record_laws();
}

/// A law: if a row was read of a text that hasn't ended, a row ends before the bytes that are unread. All rows before
/// that place were returned.
pub fn row_ends()
    ensures { RowEnds }
{
    record_laws();
}
