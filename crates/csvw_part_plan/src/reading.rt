//! `read_plan`: the pieces of a plan, or the first line that is wrong.
ghost use Rattle.std.specs.Prelude.{◌≡◌, ◌+◌, ◌<◌, ◌^◌, ◌++◌, length, IfOk, IfErr, MatchOption, List, ℕ};
ghost use Rattle.csvw_part_plan.specs.Order.{fault_after};
ghost use Rattle.csvw_part_plan.specs.Plans.{IsPlan, heading};
ghost use Rattle.csvw_part_plan.specs.Refusals.{IsRefused, at_line};

use crate::fault::{LineFault, PlanFault};
use crate::line::piece_at;
use crate::order::fault_after;
use crate::piece::Piece;
use csvw_text::Seq;
use std::alloc::Global;

/// The first line of a plan.
pub(crate) const HEADING: &str =
    "part,table,first_byte,bytes,rows_before,data_rows_before,header_bytes\n";

/// Returns what follows the heading.
fn after_heading(text: &[u8]) -> Option<&[u8]>
    ensures { MatchOption result ((rest : List ℕ) → text.now ≡ heading ++ rest → ⊥) (λ rest. text.now ≡ heading ++ rest.now) }
{
    text.strip_prefix(HEADING.as_bytes())
}

/// Returns the fault of the line after the heading and the lines of some pieces.
fn at_line(pieces: &Seq<Piece>, fault: LineFault) -> PlanFault
    requires { length pieces.now + 2 < 2 ^ 64 }
    ensures { result ≡ at_line pieces.now fault }
{
    PlanFault::Line {
        line: pieces.len() as u64 + 2,
        fault,
    }
}

/// Returns the pieces of a plan, or the first line that is wrong. Returns `Memory` if memory runs out.
pub fn read_plan(alloc: Global, text: &[u8]) -> Result<Seq<Piece>, PlanFault>
    ensures plan { IfOk result (IsPlan text.now) }
    ensures refused { IfErr result (IsRefused text.now) }
{
    let Some(mut rest) = after_heading(text) else {
        return Err(PlanFault::Line {
            line: 1,
            fault: LineFault::Heading,
        });
    };
    let mut pieces = Seq::new(alloc);
    while !rest.is_empty() {
        let Some((piece, after)) = piece_at(rest) else {
            return Err(at_line(&pieces, LineFault::Numbers));
        };
        if let Some(fault) = fault_after(pieces.as_slice(), &piece) {
            return Err(at_line(&pieces, fault));
        }
        if pieces.push(piece).is_err() {
            return Err(PlanFault::Memory);
        }
        rest = after;
    }
    if pieces.is_empty() {
        return Err(at_line(&pieces, LineFault::NoPiece));
    }
    Ok(pieces)
}
