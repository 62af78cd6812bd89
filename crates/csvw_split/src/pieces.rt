//! The pieces of files by their cuts.
ghost use Rattle.std.specs.Prelude.{◌≡◌, [], ℕ, List, Option, OnOk};
ghost use Rattle.csvw_columns.specs.declared.plan.TablePlan.{TablePlan as ThePlan};
ghost use Rattle.csvw_part_plan.specs.Plans.{TileFront};
ghost use Rattle.csvw_split.specs.Adding.{AddsFile, AreCutsOf, Pushes};

use crate::cuts::{Cut, START, WholeCuts};
use crate::shares::Shares;
use crate::stop::SplitStop;
use csvw_part_plan::laws::tiling_goes_on;
use csvw_part_plan::{Piece, fault_after};
use csvw_text::Seq;
use std::alloc::Global;

/// The pieces of the files so far.
#[derive(Drop)]
pub(crate) struct Pieces {
    /// The pieces, in order.
    pub(crate) pieces: Seq<Piece>,
    /// The part of the last piece.
    part: u32,
    /// The number of the share in which this part begins.
    share: u64,
    /// The shares of all files, at the next one.
    pub(crate) shares: Shares,
}

impl Pieces {
    /// Returns no pieces, before the first file.
    pub(crate) fn new(alloc: Global, shares: Shares) -> Pieces
        ensures { result.pieces ≡ [] }
    {
        Pieces {
            pieces: Seq::new(alloc),
            part: 1,
            share: 0,
            shares,
        }
    }

    /// Begins a part at this place of the file.
    fn begin_part(&mut self, place: u64)
        ensures { self.new.pieces ≡ self.old.pieces }
    {
        self.part = self.part.saturating_add(1);
        self.share = self.shares.share_at(place);
    }

    /// Begins a part at the start of the file, if another share begins there.
    fn begin_table(&mut self)
        ensures { self.new.pieces ≡ self.old.pieces }
    {
        if self.shares.share_at(0) > self.share {
            self.begin_part(0);
        }
    }

    /// Adds a piece that begins at a cut and ends at a place. Returns `NoPlan` if it breaks a rule of plans.
    fn push(&mut self, table: u32, cut: Cut, end: u64, header_bytes: u64) -> Result<(), SplitStop>
        ensures piece { OnOk result (Pushes table cut end header_bytes self.old.pieces self.new.pieces) }
        ensures tiles { OnOk result (TileFront self.old.pieces → TileFront self.new.pieces) }
    {
        let piece = Piece {
            part: self.part,
            table,
            first_byte: cut.first_byte,
            bytes: end.saturating_sub(cut.first_byte),
            rows_before: cut.rows_before,
            data_rows_before: cut.data_rows_before,
            header_bytes,
        };
        if fault_after(self.pieces.as_slice(), &piece).is_some() {
            return Err(SplitStop::NoPlan);
        }
        tiling_goes_on();
        match self.pieces.push(piece) {
            Ok(()) => Ok(()),
            Err(_) => Err(SplitStop::Memory),
        }
    }

    /// Adds the pieces of the next file. Its first piece begins a part if another share begins there.
    pub(crate) fn add(&mut self, table: u32, whole: &WholeCuts) -> Result<(), SplitStop>
        ensures adds { OnOk result ((t : ThePlan) (known : Option (List ℕ)) → t.number ≡ table → AreCutsOf t known whole.now → AddsFile t known self.old.pieces self.new.pieces) }
        ensures tiles { OnOk result (TileFront self.old.pieces → TileFront self.new.pieces) }
    {
        self.begin_table();
        let mut begin = START;
        for cut in whole.cuts.as_slice() {
            self.push(table, begin, cut.first_byte, whole.header_bytes)?;
            self.begin_part(cut.first_byte);
            begin = *cut;
        }
        self.push(table, begin, whole.length, whole.header_bytes)?;
        self.shares = self.shares.after(whole.length);
        Ok(())
    }
}
