//! Keys as they are stored.
ghost use Rattle.std.specs.Prelude.{◌≡◌, IfOk};
ghost use Rattle.std.specs.Cmp.{on_total};
ghost use Rattle.std.specs.Ordering.{nat_cmp, ordering_then};
ghost use Rattle.csvw_keys.specs.contracts.held_value.HeldValueOrd.TheImpl as of_value;
ghost use Rattle.csvw_keys.specs.contracts.held_value.HeldValueOrd.TheImpl.Laws as law;
ghost use Rattle.csvw_keys.specs.Held.{held_cells, held_of, is_null_held};
ghost use Rattle.csvw_keys.specs.Key.{key_of};

use crate::apart::Apart;
use crate::held_value::{HeldValue, held_cell_at};
use crate::key::{is_null_key, key_of};
use csvw_annotate::Row;
use csvw_text::Copied;
use std::alloc::{AllocError, Global};
use std::cmp::Ordering;

/// A key as it is stored. It is compared as its value.
#[derive(Drop, PartialEq, Eq, PartialOrd)]
pub struct HeldKey {
    /// Its value.
    pub(crate) value: HeldValue,
}

impl Copied for HeldKey {
    fn copied(&self, alloc: Global) -> Result<HeldKey, AllocError> {
        Ok(HeldKey {
            value: self.value.copied(alloc)?,
        })
    }
}

/// Compares two numbers by their high and their low halves.
#[inline(always)]
fn by_halves(high: u64, low: u64, other_high: u64, other_low: u64) -> Ordering
    ensures { result ≡ ordering_then (nat_cmp high other_high) (nat_cmp low other_low) }
{
    if high < other_high {
        Ordering::Less
    } else if high > other_high {
        Ordering::Greater
    } else {
        low.cmp(&other_low)
    }
}

/// Compares two values of any kind.
#[inline(never)]
fn of_any_kind(value: &HeldValue, other: &HeldValue) -> Ordering
    ensures { result ≡ of_value.ghosts.cmp value.now other.now }
{
    value.cmp(other)
}

impl Ord for HeldKey {
    ghost cmp = { λ x y. of_value.ghosts.cmp x.value y.value };

    ghost total = { on_total (λ x. x.value) law.total-law };

    ghost matches_partial_cmp = { λ x y. law.matches_partial_cmp-law x.value y.value };

    ghost matches_eq = { λ x y. law.matches_eq-law x.value y.value };

    // Most keys are numbers from 0. They are compared here without a call.
    #[inline(always)]
    fn cmp(&self, other: &HeldKey) -> Ordering {
        if let HeldValue::Natural(high, low) = &self.value {
            if let HeldValue::Natural(other_high, other_low) = &other.value {
                return by_halves(*high, *low, *other_high, *other_low);
            }
        }
        of_any_kind(&self.value, &other.value)
    }
}

/// Returns what is stored of a row in the columns of these numbers, from 1.
fn held_cells(alloc: Global, columns: &[u32], row: &Row) -> Result<HeldValue, AllocError>
    ensures { IfOk result (λ held. held ≡ held_cells (key_of columns.now row.now)) }
{
    if columns.len() == 1 {
        return held_cell_at(alloc, row, columns[0]);
    }
    let cells = key_of(alloc, columns, row)?;
    Ok(HeldValue::Cells(Apart::new(alloc, cells)?))
}

/// Returns the key of a row in the columns of these numbers, from 1.
pub(crate) fn held_of(alloc: Global, columns: &[u32], row: &Row) -> Result<HeldKey, AllocError>
    ensures { IfOk result (λ key. key ≡ held_of columns.now row.now) }
{
    let value = held_cells(alloc, columns, row)?;
    Ok(HeldKey { value })
}

/// Whether each cell of a key is null.
pub(crate) fn is_null_held(key: &HeldKey) -> bool
    ensures { result ≡ is_null_held key.now }
{
    match &key.value {
        HeldValue::Null => true,
        HeldValue::Cells(cells) => is_null_key(cells.value.get()),
        HeldValue::Short(_, _) | HeldValue::Text(_) | HeldValue::Truth(_) => false,
        HeldValue::Natural(_, _) | HeldValue::Negative(_, _) => false,
        HeldValue::Day(_) | HeldValue::Moment(_) => false,
    }
}
