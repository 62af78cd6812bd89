//! Laws of texts that are cut where a row ends. A call of a law does nothing.
ghost use Rattle.csvw_part_laws.specs.Parts.{NumbersGoOn, RowsOfParts};

use csvw_records::laws::record_laws;

/// A law: if the front is whole rows, the text is a file of them and some more rows exactly if the rest is these more
/// rows. A file that begins with the front begins with its rows.
pub fn rows_of_parts()
    ensures { RowsOfParts }
{
    record_laws();
}

/// A law: the header rows and data rows of all rows are those of the front, and then those of the rest, whose numbers
/// go on.
pub fn numbers_go_on()
    ensures { NumbersGoOn }
{}
