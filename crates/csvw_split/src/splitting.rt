//! `split`: the pieces of parts of about equally many bytes.
ghost use Rattle.std.specs.Prelude.{◌<◌, [], ℕ, List, length, IfOk, OnOk};
ghost use Rattle.csvw_columns.specs.declared.plan.TablePlan.{TablePlan as ThePlan};
ghost use Rattle.csvw_part_plan.specs.Plans.{TileFront};
ghost use Rattle.csvw_streams.specs.Counted.{inner_of};
ghost use Rattle.csvw_split.specs.Cuts.{Cuts, IsCutUp};
ghost use Rattle.csvw_split.specs.Adding.{AddsFile, AreCutsOf};
ghost use Rattle.csvw_split.specs.Split.{AreCuts, AreWholeFiles, HaveFronts, TilesAll};

use crate::cuts::{FileCuts, WholeCuts};
use crate::file::Halt;
use crate::pieces::Pieces;
use crate::shares::Shares;
use crate::stop::SplitStop;
use csvw_columns::TablePlan;
use csvw_part_plan::Piece;
use csvw_rows::RowStop;
use csvw_streams::Counted;
use csvw_text::Seq;
use std::alloc::Global;
use std::io::Read;

/// How many bytes one read takes at most.
const PIECE: usize = 65_536;

/// How many reads of a file are made at most: 2^40.
const MAX_READS: u64 = 1_099_511_627_776;

/// The file of a table.
#[derive(Drop)]
pub struct TableFile<R> {
    /// What reads it, from its first byte on.
    pub reader: Counted<R>,
    /// The number of its bytes.
    pub length: u64,
}

/// Returns the stop of a table whose rows stop.
fn of_halt(table: u32, halt: Halt) -> SplitStop {
    match halt.stop {
        RowStop::Memory => SplitStop::Memory,
        stop => {
            SplitStop::Rows {
                table,
                row: halt.row,
                stop,
            }
        }
    }
}

/// Ends a file. Returns its cuts.
fn finished(cuts: FileCuts, table: u32) -> Result<WholeCuts, SplitStop>
    ensures { IfOk result (λ whole. (t : ThePlan) (text : List ℕ) → Cuts cuts t text → IsCutUp t text whole) }
{
    if cuts.left() != 0 {
        return Err(SplitStop::Length { table });
    }
    match cuts.end() {
        Ok(whole) => Ok(whole),
        Err(halt) => Err(of_halt(table, halt)),
    }
}

/// Reads a file to its end. Returns its cuts.
fn read_cuts<R: Read>(
    begun: FileCuts,
    table: u32,
    reader: &mut Counted<R>,
    room: &mut [u8],
) -> Result<WholeCuts, SplitStop>
    requires { 0 < length room.old }
    ensures { IfOk result (λ whole. (t : ThePlan) → Cuts begun t [] → AreCutsOf t (R.remaining (inner_of reader.old)) whole) }
{
    let mut cuts = begun;
    for _ in 0..MAX_READS {
        let Ok(count) = reader.read(room) else {
            return Err(SplitStop::Read { table });
        };
        if count == 0 {
            return finished(cuts, table);
        }
        if cuts.left() < count as u64 {
            return Err(SplitStop::Length { table });
        }
        if let Err(halt) = cuts.take(&room[..count]) {
            return Err(of_halt(table, halt));
        }
    }
    Err(SplitStop::Read { table })
}

/// Returns the sum of the lengths, at most the greatest `u64`.
fn total_length<R>(files: &[TableFile<R>]) -> u64 {
    let mut total = 0u64;
    for file in files {
        total = total.saturating_add(file.length);
    }
    total
}

/// Reads the file of a table, and adds its pieces.
fn split_table<R: Read>(
    alloc: Global,
    table: &TablePlan,
    file: &mut TableFile<R>,
    pieces: &mut Pieces,
) -> Result<(), SplitStop>
    ensures adds { OnOk result (AddsFile table.now (R.remaining (inner_of file.old.reader)) pieces.old.pieces pieces.new.pieces) }
    ensures tiles { OnOk result (TileFront pieces.old.pieces → TileFront pieces.new.pieces) }
{
    let number = table.number;
    let Ok(begun) = FileCuts::new(alloc, table, file.length, pieces.shares) else {
        return Err(SplitStop::Memory);
    };
    let Some(cuts) = begun else {
        return Err(SplitStop::Dialect { table: number });
    };
    let Ok(mut room) = vec![in alloc; 0u8; PIECE] else {
        return Err(SplitStop::Memory);
    };
    let whole = read_cuts(cuts, number, &mut file.reader, room.as_mut_slice())?;
    pieces.add(number, &whole)
}

/// Returns the pieces of at most so many parts, with about equally many bytes each. A piece begins at the start of a file, or
/// where a data row of it ends. Tables with few bytes share a part, and no part is empty. 0 parts are read as 1.
///
/// Errors:
///
/// - `TableCount` if there isn't one file for each table.
/// - `Read` if a reader fails, or after 2^40 reads of a file.
/// - `Length` if a file has another length than was said.
/// - `Rows` with the first row of a table that can't be read.
/// - `Dialect` if the dialect of a table reads no text.
/// - `NoPlan` if the tables aren't numbered from 1, in order.
/// - `Memory` if memory runs out.
pub fn split<R: Read>(
    alloc: Global,
    tables: &[TablePlan],
    files: &mut [TableFile<R>],
    parts: u32,
) -> Result<Seq<Piece>, SplitStop>
    ensures cuts { IfOk result (AreCuts R.remaining tables.now files.old) }
    ensures fronts { IfOk result (HaveFronts R.remaining tables.now files.old) }
    ensures whole { IfOk result (AreWholeFiles R.remaining tables.now files.old) }
    ensures tiles { IfOk result (TilesAll tables.now) }
{
    if tables.len() != files.len() {
        return Err(SplitStop::TableCount);
    }
    let mut pieces = Pieces::new(alloc, Shares::new(total_length(files), parts));
    for i in 0..files.len() {
        let table = &tables[i];
        if u64::from(table.number) != i as u64 + 1 {
            return Err(SplitStop::NoPlan);
        }
        split_table(alloc, table, &mut files[i], &mut pieces)?;
    }
    Ok(pieces.pieces)
}
