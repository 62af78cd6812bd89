//! A run over the pieces of one part.
ghost use Rattle.std.specs.Prelude.{◌≡◌, ◌++◌, ◌∷◌, [], IfOk, IfSome, OnOk, false, find, true};
ghost use Rattle.std.specs.List.{list_any};
ghost use Rattle.csvw_columns.specs.Ready.{AreReady, IsReady};
ghost use Rattle.csvw_engine_core.specs.Tables.{IsNewTable, faults_of, header_faults_of, is_ended};
ghost use Rattle.csvw_keys.specs.KeyRules.{rules_of};
ghost use Rattle.csvw_streams.specs.Counted.{inner_of};
ghost use Rattle.csvw_triples_core.specs.Taking.{IsAsReady};
ghost use Rattle.csvw_triples_core.specs.declared.mode.Mode.{Mode as TheMode};
ghost use Rattle.csvw_part_plan.specs.Plans.{is_later};
ghost use Rattle.csvw_parts.specs.Fronts.{GoesToPiece, ReadsFront, StartsPiece, opener_of};
ghost use Rattle.csvw_parts.specs.Outlets.{kept, outs};
ghost use Rattle.csvw_parts.specs.PartRows.{ReadsPiece, found_of};
ghost use Rattle.csvw_parts.specs.PartRuns.{RunsPart, begins_in, begins_with, opening_of, own_of, own_pieces, warnings_of};
ghost use Rattle.csvw_parts.specs.PartSteps.{AddsPiece, AddsPieces, IsTableOf, begun_faults, reached};
ghost use Rattle.csvw_parts.specs.Parts.{EndsAtRow, HasNoRow};
ghost use Rattle.csvw_parts.specs.Reading.{EndsReader, EndsReaderIf, TakesBody, TakesBytes, TakesEnd};

use crate::fault::PartFault;
use crate::part::{RowsBefore, TablePart};
use crate::state::{PartRun, PartState};
use crate::stop::{Differs, Mismatch, PartStop};
use csvw_columns::{Plan, TablePlan};
use csvw_engine_core::Stop;
use csvw_keys::KeyBook;
use csvw_opener::Opener;
use csvw_part_plan::{Piece, next_piece};
use csvw_row_keys::laws::parts_have_all_records;
use csvw_rows::laws::given_first;
use csvw_text::{Counted, Fault, Seq};
use csvw_triples::{VecSink, emit_opening};
use csvw_triples_rows::{Mode, TripleSink};
use std::alloc::{AllocError, Global};
use std::io::{Read, Write};

/// How many bytes of a table are read at most before the records of their keys are written.
const BETWEEN_RECORDS: u64 = 1_048_576;

/// A part of a run over a group.
#[derive(Clone, Copy)]
pub struct PartRequest<'a> {
    /// Where its memory comes from.
    pub alloc: Global,
    /// The plan of the group.
    pub plan: &'a Plan,
    /// Which triples are written.
    pub mode: Mode,
    /// The pieces of all parts, which tile the files.
    pub pieces: &'a [Piece],
    /// The number of the part, from 1.
    pub number: u32,
    /// The file of each table.
    pub files: &'a [&'a str],
}

/// A piece of a table.
#[derive(Clone, Copy)]
struct Asked<'a> {
    /// The part that it belongs to.
    request: PartRequest<'a>,
    /// The piece.
    piece: Piece,
    /// The plan of its table.
    table: &'a TablePlan,
    /// The file of its table.
    file: &'a str,
}

impl<'a> Asked<'a> {
    /// Returns why the plan isn't one of this file.
    fn differs(self, what: Mismatch) -> PartStop {
        PartStop::Plan(Differs {
            table: self.piece.table,
            part: self.piece.part,
            what,
        })
    }

    /// Returns that the file of the table can't be opened or read.
    fn unread(self) -> PartStop {
        PartStop::Unread {
            table: self.piece.table,
        }
    }

    /// Returns why bytes could not be read.
    fn stop_of(self, fault: PartFault) -> PartStop {
        match fault {
            PartFault::Memory => PartStop::Stop(Stop::Memory),
            PartFault::Read => self.unread(),
            PartFault::ShortFile => self.differs(Mismatch::ShortFile),
            PartFault::Stop(stop) => PartStop::Stop(stop),
        }
    }
}

/// Reads some bytes of the front of the file. Their triples and keys are dropped.
fn read_header<'a, R: Read>(
    asked: Asked<'a>,
    part: &mut TablePart<'a>,
    reader: &mut Counted<R>,
) -> Result<(), PartStop>
    requires ready { IsReady part.old.plan.now }
    requires not_ended { is_ended part.old.table ≡ false }
    ensures plan { part.new.plan ≡ part.old.plan }
    ensures not_ended { OnOk result (is_ended part.new.table ≡ false) }
    ensures reads { OnOk result (ReadsFront R.remaining part.old.plan.now part.old.table part.new.table reader.old reader.new
        asked.entry.piece.header_bytes) }
{
    let alloc = asked.request.alloc;
    let mut keys = KeyBook::new(alloc, asked.request.plan)?;
    let mut sink = VecSink::new(alloc);
    match part.read(reader, asked.piece.header_bytes, &mut sink, &mut keys) {
        Ok(()) => Ok(()),
        Err(fault) => Err(asked.stop_of(fault)),
    }
}

/// Reads the front of the file, with the header. The part is then as if it had read all rows before the piece.
fn read_front<'a, O: Opener>(
    asked: Asked<'a>,
    part: &mut TablePart<'a>,
    opener: &mut O,
) -> Result<(), PartStop>
    requires ready { IsReady part.old.plan.now }
    requires not_ended { is_ended part.old.table ≡ false }
    ensures plan { part.new.plan ≡ part.old.plan }
    ensures not_ended { OnOk result (is_ended part.new.table ≡ false) }
    ensures goes { OnOk result (GoesToPiece (opener_of O.opens O.opens_at O.closes O.Reader.remaining) asked.entry.file.now part.old.plan.now
        asked.entry.piece part.old.table part.new.table opener.old opener.new) }
{
    let Some(reader) = opener.open(asked.file) else {
        return Err(asked.unread());
    };
    let mut reader = Counted::new(reader);
    let read = read_header(asked, part, &mut reader);
    opener.close(reader);
    read?;
    let before = RowsBefore {
        rows: asked.piece.rows_before,
        data_rows: asked.piece.data_rows_before,
    };
    if part.skip_to(before) {
        Ok(())
    } else {
        Err(asked.differs(Mismatch::Rows))
    }
}

/// Reads the front of the file, unless the piece is the first of its table.
fn read_before<'a, O: Opener>(
    asked: Asked<'a>,
    part: &mut TablePart<'a>,
    opener: &mut O,
) -> Result<(), PartStop>
    requires ready { IsReady part.old.plan.now }
    requires not_ended { is_ended part.old.table ≡ false }
    ensures plan { part.new.plan ≡ part.old.plan }
    ensures not_ended { OnOk result (is_ended part.new.table ≡ false) }
    ensures starts { OnOk result (StartsPiece asked.entry.piece.first_byte (opener_of O.opens O.opens_at O.closes O.Reader.remaining)
        asked.entry.file.now part.old.plan.now asked.entry.piece part.old.table part.new.table opener.old opener.new) }
{
    if asked.piece.first_byte == 0 {
        return Ok(());
    }
    read_front(asked, part, opener)
}

/// Returns whether a reader is at its end.
fn is_at_end<R: Read>(reader: &mut Counted<R>) -> Result<bool, Stop>
    ensures { IfOk result (λ ended. EndsReaderIf ended (R.remaining (inner_of reader.old)) (R.remaining (inner_of reader.new))) }
{
    let mut byte = [0u8; 1];
    match reader.read(&mut byte) {
        Ok(0) => Ok(true),
        Ok(_) => Ok(false),
        Err(_) => Err(Stop::Read),
    }
}

/// Ends a table with its last piece, and checks that its file ends there.
fn end_table<'a, R: Read, S: TripleSink, W: Write + Drop>(
    asked: Asked<'a>,
    part: &mut TablePart<'a>,
    reader: &mut Counted<R>,
    sink: &mut S,
    state: &mut PartState<W>,
) -> Result<(), PartStop>
    requires ready { IsReady part.old.plan.now }
    requires not_ended { is_ended part.old.table ≡ false }
    ensures plan { part.new.plan ≡ part.old.plan }
    ensures faults { state.new.faults ≡ state.old.faults }
    ensures reader { OnOk result (EndsReader (R.remaining (inner_of reader.old)) (R.remaining (inner_of reader.new))) }
    ensures ends { OnOk result (TakesEnd (outs S.gains S.is_open S.failed W.contents) (rules_of asked.entry.request.plan.now) part.old.plan.now
        part.old.table part.new.table (kept sink.old state.old.book state.old.records) (kept sink.new state.new.book state.new.records)) }
{
    match is_at_end(reader) {
        Ok(true) => {
            parts_have_all_records();
            part.end(sink, &mut state.book)?;
            state.send(asked.request.plan)?;
            Ok(())
        }
        Ok(false) => Err(asked.differs(Mismatch::LongFile)),
        Err(stop) => Err(PartStop::Stop(stop)),
    }
}

/// Reads the bytes of the piece. The records of the keys are written after some bytes at a time.
fn read_bytes<'a, R: Read, S: TripleSink, W: Write + Drop>(
    asked: Asked<'a>,
    part: &mut TablePart<'a>,
    reader: &mut Counted<R>,
    sink: &mut S,
    state: &mut PartState<W>,
) -> Result<(), PartStop>
    requires ready { IsReady part.old.plan.now }
    requires not_ended { is_ended part.old.table ≡ false }
    ensures plan { part.new.plan ≡ part.old.plan }
    ensures not_ended { OnOk result (is_ended part.new.table ≡ false) }
    ensures faults { state.new.faults ≡ state.old.faults }
    ensures takes { OnOk result (TakesBytes R.remaining (outs S.gains S.is_open S.failed W.contents) (rules_of asked.entry.request.plan.now)
        part.old.plan.now part.old.table part.new.table reader.old reader.new asked.entry.piece.bytes
        (kept sink.old state.old.book state.old.records) (kept sink.new state.new.book state.new.records)) }
{
    parts_have_all_records();
    let mut left = asked.piece.bytes;
    while left > 0 {
        let count = left.min(BETWEEN_RECORDS);
        match part.read(reader, count, sink, &mut state.book) {
            Ok(()) => state.send(asked.request.plan)?,
            Err(fault) => return Err(asked.stop_of(fault)),
        }
        left -= count;
    }
    Ok(())
}

/// Returns whether a row ends where reading ended, after as many rows as the next piece of the table says.
fn ends_there(part: &TablePart<'_>, next: &Piece) -> bool
    ensures ends { result ≡ true → EndsAtRow part.now next.now.rows_before next.now.data_rows_before }
    ensures none { result ≡ true → HasNoRow part.now next.now.rows_before next.now.data_rows_before }
{
    match part.rows_here() {
        Some(here) => { here.rows == next.rows_before && here.data_rows == next.data_rows_before }
        None => false,
    }
}

/// Reads the bytes of the piece, and checks that a row ends there as the plan says.
fn read_body<'a, R: Read, S: TripleSink, W: Write + Drop>(
    asked: Asked<'a>,
    part: &mut TablePart<'a>,
    reader: &mut Counted<R>,
    sink: &mut S,
    state: &mut PartState<W>,
) -> Result<(), PartStop>
    requires ready { IsReady part.old.plan.now }
    requires not_ended { is_ended part.old.table ≡ false }
    ensures plan { part.new.plan ≡ part.old.plan }
    ensures faults { state.new.faults ≡ state.old.faults }
    ensures takes { OnOk result (TakesBody R.remaining (outs S.gains S.is_open S.failed W.contents) (rules_of asked.entry.request.plan.now)
        part.old.plan.now (find (is_later asked.entry.piece) asked.entry.request.pieces.now) part.old.table part.new.table reader.old reader.new
        asked.entry.piece.bytes (kept sink.old state.old.book state.old.records) (kept sink.new state.new.book state.new.records)) }
{
    given_first();
    parts_have_all_records();
    read_bytes(asked, part, reader, sink, state)?;
    match next_piece(asked.request.pieces, &asked.piece) {
        Some(next) if ends_there(part, &next) => Ok(()),
        Some(_) => Err(asked.differs(Mismatch::Rows)),
        None => end_table(asked, part, reader, sink, state),
    }
}

/// Reads the rows of a piece.
fn read_rows<'a, O: Opener, S: TripleSink, W: Write + Drop>(
    asked: Asked<'a>,
    part: &mut TablePart<'a>,
    opener: &mut O,
    sink: &mut S,
    state: &mut PartState<W>,
) -> Result<(), PartStop>
    requires ready { IsReady part.old.plan.now }
    requires not_ended { is_ended part.old.table ≡ false }
    ensures faults { state.new.faults ≡ state.old.faults }
    ensures reads { OnOk result ((mode : TheMode) → IsNewTable part.old.plan.now mode part.old.table
        → ReadsPiece (opener_of O.opens O.opens_at O.closes O.Reader.remaining) (outs S.gains S.is_open S.failed W.contents)
        (rules_of asked.entry.request.plan.now) part.old.plan.now mode asked.entry.file.now asked.entry.piece
        (find (is_later asked.entry.piece) asked.entry.request.pieces.now) (found_of part.new.table) opener.old opener.new
        (kept sink.old state.old.book state.old.records) (kept sink.new state.new.book state.new.records)) }
{
    given_first();
    read_before(asked, part, opener)?;
    match opener.open_at(asked.file, asked.piece.first_byte) {
        Some(reader) => {
            let mut reader = Counted::new(reader);
            let read = read_body(asked, part, &mut reader, sink, state);
            opener.close(reader);
            read
        }
        None => Err(asked.unread()),
    }
}

/// Adds the faults of the rows of a piece, and those of the header if the table begins with it.
fn list_faults(
    piece: &Piece,
    part: &TablePart<'_>,
    faults: &mut Seq<Fault>,
) -> Result<(), AllocError>
    ensures { OnOk result (faults.new ≡ (faults.old ++ begun_faults piece.now.first_byte (header_faults_of part.now.table)) ++ faults_of part.now.table) }
{
    if piece.first_byte == 0 {
        part.list_header_faults(faults)?;
    }
    part.list_cell_faults(faults)
}

/// Returns the piece with its table and its file, or `None` if there is no such table.
fn asked_of<'a>(request: PartRequest<'a>, piece: Piece) -> Option<Asked<'a>>
    ensures ready { AreReady request.entry.plan.now.tables → IfSome result (λ asked. IsReady asked.table.now) }
    ensures request { IfSome result (λ asked. asked.request ≡ request.entry) }
    ensures piece { IfSome result (λ asked. asked.piece ≡ piece) }
    ensures is_table { IfSome result (λ asked. IsTableOf request.entry piece asked.table.now asked.file.now) }
{
    let place = (piece.table as usize).checked_sub(1)?;
    let table = request.plan.tables().get(place)?;
    let file = request.files.get(place)?;
    Some(Asked {
        request,
        piece,
        table,
        file,
    })
}

/// Reads a piece, and adds its faults.
fn add_piece<'a, O: Opener, S: TripleSink, W: Write + Drop>(
    request: PartRequest<'a>,
    piece: Piece,
    opener: &mut O,
    sink: &mut S,
    state: &mut PartState<W>,
) -> Result<(), PartStop>
    requires { AreReady request.plan.now.tables }
    ensures { OnOk result (AddsPiece (opener_of O.opens O.opens_at O.closes O.Reader.remaining) (outs S.gains S.is_open S.failed W.contents)
        request.entry piece (reached opener.old sink.old state.old.book state.old.records state.old.faults)
        (reached opener.new sink.new state.new.book state.new.records state.new.faults)) }
{
    let Some(asked) = asked_of(request, piece) else {
        return Err(PartStop::Stop(Stop::TableCount));
    };
    let mut part = TablePart::new(request.alloc, asked.table, request.mode)?;
    match read_rows(asked, &mut part, opener, sink, state) {
        Ok(()) => match list_faults(&piece, &part, &mut state.faults) {
            Ok(()) => Ok(()),
            Err(_) => Err(PartStop::Stop(Stop::Memory)),
        },
        Err(stop) => Err(stop),
    }
}

/// Returns whether a table begins with a piece of the part.
fn begins_with(number: u32, table: u32, piece: &Piece) -> bool
    ensures { result ≡ begins_with number table piece.now }
{
    piece.part == number && piece.table == table && piece.first_byte == 0
}

/// Returns whether a table begins with one of the pieces of the part.
fn has_begin(number: u32, table: u32, pieces: &[Piece]) -> bool
    ensures { result ≡ list_any (begins_with number table) pieces.now }
{
    pieces.iter().any(|piece| begins_with(number, table, piece))
}

/// Returns whether a table begins in the part. A group, whose number is 0, begins in part 1.
fn begins_in(request: PartRequest<'_>, table: u32) -> bool
    ensures { result ≡ begins_in request.entry table }
{
    if table == 0 || request.plan.tables().len() < table as usize {
        request.number == 1
    } else {
        has_begin(request.number, table, request.pieces)
    }
}

/// Adds the warnings of the tables that begin in the part. Part 1 has those of the group, too.
fn add_warnings(request: PartRequest<'_>, faults: &mut Seq<Fault>) -> Result<(), AllocError>
    ensures { OnOk result (faults.new ≡ faults.old ++ warnings_of request.entry) }
{
    for warning in request.plan.warnings() {
        if begins_in(request, warning.place.table) {
            faults.push(*warning)?;
        }
    }
    Ok(())
}

/// Puts the triples of the group and its tables into the sink, if this is part 1.
fn open<S: TripleSink>(request: PartRequest<'_>, sink: &mut S) -> Result<(), PartStop>
    ensures takes { OnOk result (S.gains sink.old (opening_of request.entry) sink.new) }
    ensures ready { OnOk result (IsAsReady S.is_open S.failed sink.old sink.new) }
{
    if request.number != 1 {
        return Ok(());
    }
    match emit_opening(request.alloc, request.plan, request.mode, sink) {
        Ok(()) => Ok(()),
        Err(fault) => Err(PartStop::Stop(Stop::from(fault))),
    }
}

/// Reads a piece, and adds its faults, if the piece is one of the part.
fn add_own<'a, O: Opener, S: TripleSink, W: Write + Drop>(
    request: PartRequest<'a>,
    piece: Piece,
    opener: &mut O,
    sink: &mut S,
    state: &mut PartState<W>,
) -> Result<(), PartStop>
    requires { AreReady request.plan.now.tables }
    ensures { OnOk result (AddsPieces (opener_of O.opens O.opens_at O.closes O.Reader.remaining) (outs S.gains S.is_open S.failed W.contents)
        request.entry (own_of request.entry.number (piece ∷ [])) (reached opener.old sink.old state.old.book state.old.records state.old.faults)
        (reached opener.new sink.new state.new.book state.new.records state.new.faults)) }
{
    if piece.part != request.number {
        return Ok(());
    }
    add_piece(request, piece, opener, sink, state)
}

/// Reads the pieces of a part.
fn read_pieces<'a, O: Opener, S: TripleSink, W: Write + Drop>(
    request: PartRequest<'a>,
    opener: &mut O,
    sink: &mut S,
    state: &mut PartState<W>,
) -> Result<(), PartStop>
    requires { AreReady request.plan.now.tables }
    ensures { OnOk result (AddsPieces (opener_of O.opens O.opens_at O.closes O.Reader.remaining) (outs S.gains S.is_open S.failed W.contents)
        request.entry (own_pieces request.entry) (reached opener.old sink.old state.old.book state.old.records state.old.faults)
        (reached opener.new sink.new state.new.book state.new.records state.new.faults)) }
{
    for piece in request.pieces {
        add_own(request, *piece, opener, sink, state)?;
    }
    Ok(())
}

/// Gives the triples of a part to a sink. Returns its faults, in the order of reports, and the writer of records.
///
/// Part 1 has the triples of the group and its tables. After these come those of the rows of its pieces, in order. With
/// `records` a record of each row and key is written there. It stops as a run does, with the rows of the whole tables, or
/// if a file isn't the one that was split.
pub fn run_part<'a, O: Opener, S: TripleSink, W: Write + Drop>(
    request: PartRequest<'a>,
    opener: &mut O,
    sink: &mut S,
    records: Option<Counted<W>>,
) -> Result<PartRun<W>, PartStop>
    requires { AreReady request.plan.now.tables }
    ensures { IfOk result (λ run. RunsPart (opener_of O.opens O.opens_at O.closes O.Reader.remaining) (outs S.gains S.is_open S.failed W.contents)
        request.entry opener.old opener.new sink.old sink.new records run) }
{
    parts_have_all_records();
    open(request, sink)?;
    let mut state = PartState::new(request.alloc, request.plan, records)?;
    add_warnings(request, &mut state.faults)?;
    read_pieces(request, opener, sink, &mut state)?;
    Ok(state.finish()?)
}
