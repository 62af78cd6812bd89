//! The faults of a table, with the texts of its file, which is read a second time.

use crate::file_rows::{FileRows, LineCount, Piece};
use crate::first_rows::{FirstRows, Repeat};
use csvw_hints::{TableAt, field_of, name_of, push_no_order, push_other_format, push_rule};
use csvw_opener::{Opener, STANDARD_INPUT};
use csvw_page::{CellShown, Color, Counts, FaultShown, Form, Halt, Page, Spot, spot_of};
use csvw_rows::{RawRow, Rows};
use csvw_streams::Counted;
use csvw_text::{Code, Fault};
use std::alloc::{AllocError, Global};
use std::io::{Read, Write};

/// What is told once of the faults in standard input.
const UNSEEN: &str =
    "    standard input can't be read again: give a file, and the rows of its faults are shown\n";

/// How many faults of one code in one column are shown, if not all are.
pub(crate) const FIRST: u64 = 20;

/// How many faults are shown of those with one code in one column.
#[derive(Clone, Copy, Debug, PartialEq, Eq)]
pub enum Shown {
    /// The first 20. The others are counted.
    First,
    /// All.
    All,
}

/// What is known of a file so far.
#[derive(Drop)]
struct Cursor<'a> {
    /// The faults that are not shown yet.
    faults: &'a [Fault],
    /// The lines so far.
    lines: LineCount,
}

/// A row in which faults are, if it is known, and the line at which it begins, from 1.
#[derive(Clone, Copy)]
struct RowAt<'a> {
    row: Option<RawRow<'a>>,
    line: u64,
}

/// A page, and what is known of the table whose faults it shows.
#[derive(Drop)]
pub struct Walker {
    /// The page.
    pub page: Page,
    /// How many faults are shown of those with one code in one column.
    pub(crate) shown: Shown,
    /// How often each code occurs in each column so far, if not all faults are shown.
    so_far: Counts,
    /// The fields of the first header row of the table.
    header: Vec<String>,
    /// The rule that the faults of one code in one column break.
    rule: String,
    /// The column and the code of these faults, if the rule of a fault was made.
    spot: Option<Spot>,
    /// What is told below the last fault: its rule, and what is told of this fault or its text alone.
    below: String,
    /// The rows of the table that repeat its primary key, and the first rows with their keys.
    firsts: FirstRows,
    /// Whether it was told that standard input can't be read again.
    has_told: bool,
}

/// Returns the cell of a column in a row, if both are known.
fn cell_of<'a>(table: &TableAt<'_>, column: u32, at: &RowAt<'a>) -> Option<CellShown<'a>> {
    let row = at.row?;
    let place = field_of(table.plan, column)?;
    if place >= row.len() {
        return None;
    }
    Some(CellShown {
        row,
        place,
        text: row.field(place),
        delimiter: table.plan.dialect.delimiter,
    })
}

impl<'a> Cursor<'a> {
    /// Returns the faults up to a row, and goes on to those after it.
    fn faults_to(&mut self, source: u64) -> &'a [Fault] {
        let faults = self.faults;
        let count = faults
            .iter()
            .take_while(|fault| fault.place.row <= source)
            .count();
        let (here, rest) = faults.split_at(count.min(faults.len()));
        self.faults = rest;
        here
    }
}

impl Walker {
    /// Begins a page.
    pub fn new(alloc: Global, form: Form, color: Color, shown: Shown) -> Walker {
        Walker {
            page: Page::new(alloc, form, color),
            shown,
            so_far: Counts::new(alloc),
            header: Vec::new(alloc),
            rule: String::new(alloc),
            spot: None,
            below: String::new(alloc),
            firsts: FirstRows::new(alloc),
            has_told: false,
        }
    }

    /// Keeps the fields of the first header row.
    fn keep_header(&mut self, row: &RawRow<'_>) -> Result<(), AllocError> {
        if row.number() > 0 || !self.header.is_empty() {
            return Ok(());
        }
        for i in 0..row.len() {
            self.header
                .push(String::from_str(self.page.alloc, row.field(i))?)?;
        }
        Ok(())
    }

    /// Makes the rule that a fault in a table breaks. The rule of the same code in the same column is made once.
    fn make_rule(&mut self, table: &TableAt<'_>, fault: &Fault) -> Result<(), AllocError> {
        let spot = spot_of(fault);
        if self.spot == Some(spot) {
            return Ok(());
        }
        self.spot = None;
        self.rule.clear();
        push_rule(&mut self.rule, table, fault)?;
        self.spot = Some(spot);
        Ok(())
    }

    /// Makes what is told below a fault in a table: the rule that it breaks, with the first row of a key that is repeated.
    fn tell_rule(&mut self, table: &TableAt<'_>, fault: &Fault) -> Result<(), AllocError> {
        self.make_rule(table, fault)?;
        self.below.push_str(self.rule.as_str())?;
        match fault.code {
            Code::DuplicateKey => {
                self.firsts
                    .push_first(&mut self.below, table.path, fault.place.row)
            }
            _ => Ok(()),
        }
    }

    /// Makes what is told of a fault whose row isn't known, in place of a rule.
    fn tell_unseen(&mut self, table: &TableAt<'_>, fault: &Fault) -> Result<(), AllocError> {
        if self.has_told || fault.place.row == 0 || table.path != STANDARD_INPUT {
            return Ok(());
        }
        self.has_told = true;
        self.below.push_str(UNSEEN)
    }

    /// Adds a fault, with its row.
    fn tell_one(
        &mut self,
        table: &TableAt<'_>,
        fault: &Fault,
        at: &RowAt<'_>,
    ) -> Result<(), AllocError> {
        let column = fault.place.column;
        let cell = cell_of(table, column, at);
        self.below.clear();
        if let Some(cell) = &cell {
            self.tell_rule(table, fault)?;
            push_other_format(&mut self.below, table, fault, cell.text)?;
            push_no_order(&mut self.below, table, fault, cell.text)?;
        } else {
            self.tell_unseen(table, fault)?;
        }
        self.page.fault(&FaultShown {
            fault: *fault,
            path: table.path,
            line: at.line,
            number: match &at.row {
                Some(row) => row.number(),
                None => 0,
            },
            name: name_of(table.plan, self.header.as_slice(), column),
            cell,
            rule: self.below.as_str(),
        })
    }

    /// Returns whether a fault is shown. It is counted if not all are. Properties of the document that are ignored are shown
    /// elsewhere.
    fn is_shown(&mut self, fault: &Fault) -> Result<bool, AllocError> {
        if fault.code == Code::UnknownProperty {
            return Ok(false);
        }
        match self.shown {
            Shown::First => Ok(self.so_far.count(fault)? <= FIRST),
            Shown::All => Ok(true),
        }
    }

    /// Adds those of the faults at a row that are shown.
    fn tell_faults(
        &mut self,
        table: &TableAt<'_>,
        faults: &[Fault],
        at: &RowAt<'_>,
    ) -> Result<(), AllocError> {
        for fault in faults {
            if self.is_shown(fault)? {
                self.tell_one(table, fault, at)?;
            }
        }
        Ok(())
    }

    /// Adds the faults of a row.
    fn tell_row(
        &mut self,
        table: &TableAt<'_>,
        row: RawRow<'_>,
        cursor: &mut Cursor<'_>,
    ) -> Result<(), AllocError> {
        let line = cursor.lines.pass(&row);
        self.keep_header(&row)?;
        self.firsts.pass(row.source(), line, row.number());
        let faults = cursor.faults_to(row.source());
        let at = RowAt {
            row: Some(row),
            line,
        };
        self.tell_faults(table, faults, &at)
    }

    /// Adds the faults of all complete rows that there are, and sends them. Returns whether the text goes on.
    fn drain<W: Write>(
        &mut self,
        table: &TableAt<'_>,
        rows: &mut Rows,
        cursor: &mut Cursor<'_>,
        out: &mut Counted<W>,
    ) -> Result<bool, Halt> {
        for _ in 0..u64::MAX {
            match rows.next() {
                Ok(Some(row)) => self.tell_row(table, row, cursor)?,
                Ok(None) => return Ok(true),
                Err(_) => return Ok(false),
            }
            self.page.send(out)?;
        }
        Ok(false)
    }

    /// Reads a file, and adds the faults of its rows, as long as there are faults that aren't shown yet.
    fn read_through<R: Read, W: Write>(
        &mut self,
        table: &TableAt<'_>,
        reader: &mut R,
        cursor: &mut Cursor<'_>,
        out: &mut Counted<W>,
    ) -> Result<(), Halt> {
        let alloc = self.page.alloc;
        let Some(mut file) = FileRows::new(alloc, table.plan)? else {
            return Ok(());
        };
        for _ in 0..u64::MAX {
            let piece = file.read(reader);
            let goes_on = piece != Piece::Stopped
                && self.drain(table, &mut file.rows, cursor, out)?;
            if !goes_on || piece == Piece::Ended || cursor.faults.is_empty() {
                break;
            }
        }
        Ok(())
    }

    /// Begins a table, with those of the repeating rows of the group that are in it.
    pub(crate) fn begin_table(&mut self, repeats: &[Repeat], table: u32) -> Result<(), AllocError> {
        self.header.clear();
        self.firsts.begin(repeats, table)
    }

    /// Adds faults of the table that was begun, which are sorted by rows, and sends them.
    pub(crate) fn walk<O: Opener, W: Write>(
        &mut self,
        table: &TableAt<'_>,
        faults: &[Fault],
        opener: &mut O,
        out: &mut Counted<W>,
    ) -> Result<(), Halt> {
        let mut cursor = Cursor {
            faults,
            lines: LineCount::new(),
        };
        let nowhere = RowAt { row: None, line: 0 };
        let whole = cursor.faults_to(0);
        self.tell_faults(table, whole, &nowhere)?;
        if !cursor.faults.is_empty() {
            if let Some(reader) = opener.open(table.path) {
                let mut reader = Counted::new(reader);
                let read = self.read_through(table, &mut reader, &mut cursor, out);
                opener.close(reader);
                read?;
            }
        }
        self.tell_faults(table, cursor.faults, &nowhere)?;
        self.page.send(out)
    }
}
