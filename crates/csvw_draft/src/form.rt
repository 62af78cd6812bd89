//! The dialect of a file, found in its first bytes.
ghost use Rattle.std.specs.Prelude.{◌<◌, ◌^◌, ◌-◌};

use csvw_records::{Dialect, RowStop};
use csvw_rows::{RawRow, Rows};
use std::alloc::{AllocError, Global};

/// The delimiters that are tried.
const DELIMITERS: [char; 4] = [',', ';', '\t', '|'];

/// In how many rows at the start each row has to have the same number of fields.
const FIRST_ROWS: u64 = 50;

/// How many lines at the start may be a preamble, as a title above the header.
const MAX_PREAMBLE: u8 = 16;

/// How many fields the rows after a preamble have at least. With fewer, a row of one field may as well be a header that is wrong.
const PREAMBLE_FIELDS: usize = 3;

/// How many rows a front may have. It has fewer bytes.
const FRONT_ROWS: u64 = 4_000_000_000;

/// The bytes of U+FEFF.
const BOM: &[u8] = b"\xEF\xBB\xBF";

/// What a draft finds of a dialect. All else is as in the default dialect.
#[derive(Clone, Copy)]
pub(crate) struct Form {
    /// The character between two fields.
    pub(crate) delimiter: char,
    /// The quote.
    pub(crate) quote: char,
    /// Whether rows that begin with `#` are comments.
    pub(crate) comments: Comments,
    /// How many lines at the start are no rows of the table.
    pub(crate) skip_rows: u8,
}

/// What rows are that begin with `#`.
#[derive(Clone, Copy, PartialEq, Eq)]
pub(crate) enum Comments {
    /// Comments, as in the default dialect.
    Skipped,
    /// Rows as others.
    Read,
}

/// The first bytes of a file.
#[derive(Clone, Copy)]
pub(crate) struct Front<'a> {
    /// The bytes.
    pub(crate) bytes: &'a [u8],
    /// Whether they are the whole file.
    pub(crate) is_whole: bool,
}

impl Form {
    /// Returns the dialect by which the table is read. It skips no blank rows. Returns `AllocError` if memory runs out.
    pub(crate) fn dialect(&self, alloc: Global) -> Result<Dialect, AllocError> {
        let mut dialect = Dialect::new(alloc)?;
        dialect.delimiter = self.delimiter;
        dialect.quote_char = Some(self.quote);
        dialect.skip_rows = u64::from(self.skip_rows);
        if self.comments == Comments::Read {
            dialect.comment_prefix = None;
        }
        Ok(dialect)
    }

    /// Returns a reader of rows, or `None` if no text can be read by the form. Returns `AllocError` if memory runs out.
    pub(crate) fn rows(&self, alloc: Global, max_rows: u64) -> Result<Option<Box<Rows>>, AllocError>
        requires { max_rows < 2 ^ 64 - 1 }
    {
        let dialect = self.dialect(alloc)?;
        match dialect.check() {
            Ok(()) => Ok(Some(Box::new(alloc, Rows::new(alloc, dialect, max_rows)?)?)),
            Err(_) => Ok(None),
        }
    }
}

/// Returns whether each field of a row is empty.
pub(crate) fn is_blank(row: &RawRow<'_>) -> bool {
    for i in 0..row.len() {
        if !row.field(i).is_empty() {
            return false;
        }
    }
    true
}

/// How many fields the first rows have.
#[derive(Clone, Copy)]
struct Width {
    /// How many rows were seen, without blank ones.
    rows: u64,
    /// How many fields each has.
    fields: usize,
    /// Whether a row has another number of fields.
    is_ragged: bool,
}

impl Width {
    /// Takes a row. Those after the first ones and blank ones don't count.
    fn take(&mut self, row: &RawRow<'_>) {
        if self.rows >= FIRST_ROWS || is_blank(row) {
            return;
        }
        if self.rows == 0 {
            self.fields = row.len();
        }
        if row.len() != self.fields {
            self.is_ragged = true;
        }
        self.rows = self.rows.saturating_add(1);
    }

    /// Returns the number of fields that each row has, if there is a row and one number.
    fn fields(&self) -> Option<usize> {
        if self.rows == 0 || self.is_ragged {
            None
        } else {
            Some(self.fields)
        }
    }
}

/// Returns the number of fields of the first rows, or `None` if they differ or can't be read. With the quote `"` as many rows are
/// read as are compared, and with another all of the front.
fn fields_by(alloc: Global, front: Front<'_>, form: Form) -> Result<Option<usize>, AllocError> {
    let most = if form.quote == '"' {
        FIRST_ROWS
    } else {
        u64::MAX
    };
    match form.rows(alloc, FRONT_ROWS)? {
        Some(mut rows) => fields_in(&mut rows, front, most),
        None => Ok(None),
    }
}

/// Returns the number of fields of the first rows, of at most so many, or `None` if they differ or can't be read.
fn fields_in(rows: &mut Rows, front: Front<'_>, most: u64) -> Result<Option<usize>, AllocError> {
    let mut width = Width {
        rows: 0,
        fields: 0,
        is_ragged: false,
    };
    if feed_front(rows, front).is_err() {
        return Ok(None);
    }
    for _ in 0..most {
        match rows.next() {
            Ok(Some(row)) => width.take(&row),
            Ok(None) => break,
            Err(RowStop::Memory) => return Err(AllocError),
            Err(_) => return Ok(None),
        }
    }
    Ok(width.fields())
}

/// Gives the front to a reader.
fn feed_front(rows: &mut Rows, front: Front<'_>) -> Result<(), RowStop> {
    if rows.is_ended() {
        return Ok(());
    }
    rows.feed(front.bytes)?;
    if front.is_whole {
        rows.end()?;
    }
    Ok(())
}

/// Returns whether a field may begin with a byte: the byte is the first of the file, or follows the delimiter or a line break.
fn begins_field(bytes: &[u8], delimiter: char, byte: u8) -> bool {
    let mut last = b'\n';
    for b in bytes {
        if *b == byte && (last == b'\n' || char::from(last) == delimiter) {
            return true;
        }
        last = *b;
    }
    false
}

/// Returns whether a row begins with `#` and a space, another `#` or nothing: a comment for people.
fn has_comment(bytes: &[u8]) -> bool {
    let mut before = b'\n';
    let mut last = b'\n';
    for b in bytes {
        if before == b'\n' && last == b'#' && matches!(b, b' ' | b'#' | b'\r' | b'\n' | b'\t') {
            return true;
        }
        before = last;
        last = *b;
    }
    false
}

/// Returns how many lines at the start don't have the delimiter. At most `MAX_PREAMBLE` are counted.
fn preamble(bytes: &[u8], delimiter: char) -> u8 {
    let mut lines: u8 = 0;
    for b in bytes {
        if char::from(*b) == delimiter || lines >= MAX_PREAMBLE {
            return lines;
        }
        if *b == b'\n' {
            lines = lines.saturating_add(1);
        }
    }
    lines
}

/// Returns the form in which lines without the delimiter at the start are skipped, and the number of fields of the first rows
/// after them. Returns `None` if there are no such lines, or they aren't followed by rows of the same number of fields, and of at
/// least `PREAMBLE_FIELDS`.
fn after_preamble(
    alloc: Global,
    front: Front<'_>,
    form: Form,
) -> Result<Option<(Form, usize)>, AllocError> {
    let most = preamble(front.bytes, form.delimiter);
    for skip_rows in 1..MAX_PREAMBLE {
        if skip_rows > most {
            return Ok(None);
        }
        let later = Form { skip_rows, ..form };
        match fields_by(alloc, front, later)? {
            Some(fields) if fields >= PREAMBLE_FIELDS => return Ok(Some((later, fields))),
            _ => {}
        }
    }
    Ok(None)
}

/// Returns the form with a delimiter, and the number of fields of the first rows by it.
fn form_by(
    alloc: Global,
    front: Front<'_>,
    delimiter: char,
) -> Result<(Form, Option<usize>), AllocError> {
    let form = Form {
        delimiter,
        quote: '"',
        comments: Comments::Skipped,
        skip_rows: 0,
    };
    let fields = fields_by(alloc, front, form)?;
    if begins_field(front.bytes, delimiter, b'\'') {
        let single = Form {
            quote: '\'',
            ..form
        };
        let by_single = fields_by(alloc, front, single)?;
        let is_free = fields.is_none() || !begins_field(front.bytes, delimiter, b'"');
        if by_single.is_some() && is_free {
            return Ok((single, by_single));
        }
    }
    if fields.is_none() {
        if let Some((later, fields)) = after_preamble(alloc, front, form)? {
            return Ok((later, Some(fields)));
        }
    }
    Ok((form, fields))
}

/// Returns the form in which rows that begin with `#` are read, if the first rows have the same number of fields then too.
fn with_comments(
    alloc: Global,
    front: Front<'_>,
    form: Form,
    fields: usize,
) -> Result<Form, AllocError> {
    if !begins_field(front.bytes, form.delimiter, b'#') || has_comment(front.bytes) {
        return Ok(form);
    }
    let read = Form {
        comments: Comments::Read,
        ..form
    };
    match fields_by(alloc, front, read)? {
        Some(found) if found == fields => Ok(read),
        _ => Ok(form),
    }
}

/// Returns the form of a file. Its delimiter is the one by which each of the first rows has the same number of fields, and
/// more than one. Of several such delimiters it is the one that gives the most fields, and if there is none the comma. Lines at the
/// start without the delimiter are skipped if the rows after them have the same number of fields.
///
/// The quote is `'` if fields begin with it, the front can be read by it, and no field begins with `"` or the first rows can't be
/// read by that. Rows that begin with `#` are
/// read if they have as many fields as the others, and no space follows the `#`.
pub(crate) fn form_of(alloc: Global, front: Front<'_>) -> Result<Form, AllocError> {
    let front = Front {
        bytes: front.bytes.strip_prefix(BOM).unwrap_or(front.bytes),
        ..front
    };
    let (mut best, _) = form_by(alloc, front, ',')?;
    let mut most = 1;
    for delimiter in &DELIMITERS {
        let (form, fields) = form_by(alloc, front, *delimiter)?;
        match fields {
            Some(fields) if fields > most => {
                best = form;
                most = fields;
            }
            _ => {}
        }
    }
    if most > 1 {
        best = with_comments(alloc, front, best, most)?;
    }
    Ok(best)
}
