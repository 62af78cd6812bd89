//! The subject and the predicate of a cell's triples, and the place of its list.
ghost use Rattle.std.specs.Prelude.{◌≡◌, ◌≤◌, ◌==◌, ◌+◌, Some, None, if◌then◌else◌};
ghost use Rattle.csvw_triples_core.specs.Lent.{node_of};
ghost use Rattle.csvw_triples_rows.specs.RowTriples.{subject_of, predicate_of};
ghost use Rattle.csvw_triples_rows.specs.Stems.{entries_in};

use csvw_annotate::AnnCell;
use csvw_columns_core::Column;
use csvw_iri::Iri;
use csvw_triples_core::{NodeRef, Origin};

/// The place of a row: its table and its number.
#[derive(Clone, Copy, Debug)]
pub struct RowPlace {
    /// The number of the table, from 1.
    pub table: u32,
    /// The number of the row among the data rows, from 1.
    pub row: u64,
}

/// A subject and a predicate, both lent.
#[derive(Clone, Copy)]
pub struct Stem<'a> {
    /// The subject.
    pub s: NodeRef<'a>,
    /// The predicate.
    pub p: &'a Iri,
}

/// The place of a cell whose value is an ordered list.
#[derive(Clone, Copy, Debug)]
pub struct ListPlace {
    /// The number of the table, from 1.
    pub table: u32,
    /// The number of the row among the data rows, from 1.
    pub row: u64,
    /// The number of the column, from 1.
    pub column: u32,
}

/// Lends the subject of a cell.
#[inline(always)]
fn subject_of(place: RowPlace, cell: &AnnCell) -> NodeRef<'_>
    ensures { node_of result ≡ subject_of place.table place.row cell.now }
{
    match &cell.about {
        Some(iri) => NodeRef::Named(iri),
        None => NodeRef::Blank(Origin::Subject(place.table, place.row)),
    }
}

/// Lends the predicate of a cell.
#[inline(always)]
fn predicate_of<'a>(column: &'a Column, cell: &'a AnnCell) -> &'a Iri
    ensures { result.now ≡ predicate_of column.now cell.now }
{
    match &cell.property {
        Some(iri) => iri,
        None => &column.predicate,
    }
}

impl<'a> Stem<'a> {
    /// Lends the subject and the predicate of a cell.
    #[inline(always)]
    pub fn of(place: RowPlace, column: &'a Column, cell: &'a AnnCell) -> Stem<'a>
        ensures s { node_of result.s ≡ subject_of place.table place.row cell.now }
        ensures p { result.p.now ≡ predicate_of column.now cell.now }
    {
        Stem {
            s: subject_of(place, cell),
            p: predicate_of(column, cell),
        }
    }
}

impl ListPlace {
    /// Returns entry `k` of the list, from 1.
    pub fn entry(self, k: u64) -> Origin
        ensures { result ≡ entries_in self k }
    {
        Origin::Entry(self.table, self.row, self.column, k)
    }

    /// Returns the entry after entry `k`, or `None` if a list of `count` items has no more. Entry 0 is before the
    /// list.
    pub fn entry_after(self, k: u64, count: usize) -> Option<Origin>
        requires { k ≤ count }
        ensures { result ≡ (if k == count then None else Some (entries_in self (k + 1))) }
    {
        if k == count as u64 {
            None
        } else {
            Some(self.entry(k + 1))
        }
    }
}
