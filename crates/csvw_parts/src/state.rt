//! What a part keeps beside its table: the keys of its rows, and its faults.
ghost use Rattle.std.specs.Prelude.{◌≡◌, [], IfOk, OnOk};
ghost use Rattle.std.specs.List.Sorted.{IsPermutation, IsSorted};
ghost use Rattle.csvw_keys.specs.KeyRules.{rules_of};
ghost use Rattle.csvw_report.specs.Order.{fault_cmp};
ghost use Rattle.csvw_parts.specs.Recording.{BothSome, ForgetsRows, IsFlushed, StartsBook, WritesBook};

use csvw_columns::Plan;
use csvw_engine_core::Stop;
use csvw_keys::KeyBook;
use csvw_report::{Outcome, ReportStop, sorted};
use csvw_row_keys::write_records;
use csvw_text::{Counted, Fault, Seq};
use std::alloc::{AllocError, Global};
use std::io::Write;

/// What a part of a run found, and the writer of its records.
#[derive(Drop)]
pub struct PartRun<W> {
    /// The faults, in the order of reports.
    pub outcome: Outcome,
    /// Where the records of keys went, if they were asked for. It was flushed.
    pub records: Option<Counted<W>>,
}

/// What a part keeps beside its table.
#[derive(Drop)]
pub(crate) struct PartState<W> {
    /// Where its memory comes from.
    alloc: Global,
    /// The rows whose records aren't written yet.
    pub(crate) book: KeyBook,
    /// Where the records of keys go, if they are asked for.
    pub(crate) records: Option<Counted<W>>,
    /// The faults so far.
    pub(crate) faults: Seq<Fault>,
}

/// Makes the book of a part without rows. It records the rows of keys if records are asked for.
fn book_of<W: Write>(
    alloc: Global,
    plan: &Plan,
    records: &Option<Counted<W>>,
) -> Result<KeyBook, AllocError>
    ensures { IfOk result (λ book. StartsBook (rules_of plan.now) records.now book) }
{
    match records {
        Some(_) => KeyBook::recording(alloc, plan),
        None => KeyBook::new(alloc, plan),
    }
}

/// Writes the records of the rows of a book, if records are asked for.
fn write_book<W: Write>(
    alloc: Global,
    plan: &Plan,
    book: &KeyBook,
    records: &mut Option<Counted<W>>,
) -> Result<(), Stop>
    ensures { OnOk result (BothSome (WritesBook W.contents (rules_of plan.now) book.now) records.old records.new) }
{
    let Some(writer) = records else {
        return Ok(());
    };
    match write_records(alloc, plan, book, writer) {
        Ok(()) => Ok(()),
        Err(ReportStop::Memory) => Err(Stop::Memory),
        Err(ReportStop::Write) => Err(Stop::Write),
    }
}

/// Flushes the records, if they are asked for.
fn flush_records<W: Write>(records: &mut Option<Counted<W>>) -> Result<(), Stop>
    ensures { OnOk result (BothSome (IsFlushed W.contents) records.old records.new) }
{
    let Some(writer) = records else {
        return Ok(());
    };
    match writer.flush() {
        Ok(()) => Ok(()),
        Err(_) => Err(Stop::Write),
    }
}

impl<W: Write + Drop> PartState<W> {
    /// Returns the state before any row. Fails with `AllocError` if memory runs out.
    pub(crate) fn new(
        alloc: Global,
        plan: &Plan,
        records: Option<Counted<W>>,
    ) -> Result<PartState<W>, AllocError>
        ensures book { IfOk result (λ state. StartsBook (rules_of plan.now) records state.book) }
        ensures records { IfOk result (λ state. state.records ≡ records) }
        ensures faults { IfOk result (λ state. state.faults ≡ []) }
    {
        let book = book_of(alloc, plan, &records)?;
        Ok(PartState {
            alloc,
            book,
            records,
            faults: Seq::new(alloc),
        })
    }

    /// Writes the records of the rows so far by the keys of the plan, and drops the rows.
    pub(crate) fn send(&mut self, plan: &Plan) -> Result<(), Stop>
        ensures faults { self.new.faults ≡ self.old.faults }
        ensures forgets { OnOk result (ForgetsRows self.old.book self.new.book) }
        ensures writes { OnOk result (BothSome (WritesBook W.contents (rules_of plan.now) self.old.book) self.old.records self.new.records) }
    {
        write_book(self.alloc, plan, &self.book, &mut self.records)?;
        self.book.forget_rows();
        Ok(())
    }

    /// Flushes the records. Returns the faults, in the order of reports.
    pub(crate) fn finish(mut self) -> Result<PartRun<W>, Stop>
        ensures same { IfOk result (λ run. IsPermutation self.faults run.outcome.faults) }
        ensures order { IfOk result (λ run. IsSorted fault_cmp run.outcome.faults) }
        ensures records { IfOk result (λ run. BothSome (IsFlushed W.contents) self.records run.records) }
    {
        flush_records(&mut self.records)?;
        Ok(PartRun {
            outcome: Outcome {
                faults: sorted(self.faults),
            },
            records: self.records,
        })
    }
}
