//! Rows without fields: skipped rows and comments.
ghost use Rattle.csvw_rows.specs.IgnoredRows.{IsLineEnd};

use csvw_fields::terminator_at;
use csvw_records::Dialect;

/// Returns the place of the first terminator that begins at `from` or after it.
pub fn line_end(d: &Dialect, text: &[u8], from: usize) -> Option<usize>
    ensures { IsLineEnd d.now text.now from result }
{
    for i in from..text.len() {
        let (_, behind) = text.split_at(i);
        if 0 < terminator_at(d, behind) {
            return Some(i);
        }
    }
    None
}
