//! The line of a fault, read.
ghost use Rattle.std.specs.Prelude.{◌≡◌, ◌<◌, ◌≤◌, ◌^◌, ◌++◌, ◌∷◌, List, ℕ, MatchOption};
ghost use Rattle.csvw_fault.specs.Code.{name_of};
ghost use Rattle.csvw_fault.specs.declared.fault.Code.{Code as TheCode};
ghost use Rattle.csvw_fault.specs.declared.fault.Kind.{Kind as TheKind};
ghost use Rattle.csvw_fault.specs.declared.fault.Fault.{Fault as TheFault};
ghost use Rattle.csvw_fault.specs.declared.fault.Place.{Place as ThePlace};
ghost use Rattle.csvw_report.specs.Report.{kind_name, line};
ghost use Rattle.csvw_reports.specs.Reading.{Fits, FitsPlace, place_cells};

use crate::code::{code_named, kind_named};
use csvw_part_plan::{number, parted};
use csvw_text::{Code, Fault, Kind, Place};

/// Returns the number as a `u32`, if it is one.
fn narrow(number: u64) -> Option<u32>
    ensures { MatchOption result (2 ^ 32 ≤ number) (λ narrow. (narrow ≡ number) × (narrow < 2 ^ 32)) }
{
    u32::try_from(number).ok()
}

/// Reads the name of a kind and its comma.
fn kind_at(text: &[u8]) -> Option<(Kind, &[u8])>
    ensures { MatchOption result ((kind : TheKind) (rest : List ℕ) → text.now ≡ kind_name kind ++ 44 ∷ rest → ⊥)
        (λ read. text.now ≡ kind_name read.0 ++ 44 ∷ read.1.now) }
{
    let (name, rest) = parted(text, b',')?;
    Some((kind_named(name)?, rest))
}

/// Reads the name of a code and its comma.
fn code_at(text: &[u8]) -> Option<(Code, &[u8])>
    ensures { MatchOption result ((code : TheCode) (rest : List ℕ) → text.now ≡ name_of code ++ 44 ∷ rest → ⊥)
        (λ read. text.now ≡ name_of read.0 ++ 44 ∷ read.1.now) }
{
    let (name, rest) = parted(text, b',')?;
    Some((code_named(name)?, rest))
}

/// Reads the numbers of a place, to the end of the line.
fn place_at(text: &[u8]) -> Option<(Place, &[u8])>
    ensures { MatchOption result ((place : ThePlace) (rest : List ℕ) → FitsPlace place → text.now ≡ place_cells place rest → ⊥)
        (λ read. (text.now ≡ place_cells read.0 read.1.now) × FitsPlace read.0) }
{
    let (table, text) = number(text, b',')?;
    let (row, text) = number(text, b',')?;
    let (column, text) = number(text, b'\n')?;
    let place = Place {
        table: narrow(table)?,
        row,
        column: narrow(column)?,
    };
    Some((place, text))
}

/// Reads a fault from its line at the front of the text. Returns the fault and what follows its line.
pub(crate) fn fault_at(text: &[u8]) -> Option<(Fault, &[u8])>
    ensures { MatchOption result ((fault : TheFault) (rest : List ℕ) → Fits fault → text.now ≡ line fault ++ rest → ⊥)
        (λ read. (text.now ≡ line read.0 ++ read.1.now) × Fits read.0) }
{
    let (kind, text) = kind_at(text)?;
    let (code, text) = code_at(text)?;
    let (place, text) = place_at(text)?;
    Some((Fault { place, code, kind }, text))
}
