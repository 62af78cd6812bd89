//! What is known of the records of one key.
ghost use Rattle.std.specs.Prelude.{◌≡◌};
ghost use Rattle.csvw_key_records.specs.Groups.{after, certain, duplicate, empty_group, fault_by_tally, is_twin, least_after, more, repeats};
ghost use Rattle.csvw_key_records.specs.RecordFaults.{fault_at};

use crate::record::Role;
use csvw_text::{Code, Fault, Kind, Place};

/// The number of rows that a key refers to, as far as it matters.
#[derive(Clone, Copy)]
pub(crate) enum Tally {
    /// No row.
    Zero,
    /// One row.
    One,
    /// Two rows or more.
    Many,
}

impl Tally {
    /// Returns the number after one row more.
    fn more(self) -> Tally
        ensures { result ≡ more self }
    {
        match self {
            Tally::Zero => Tally::One,
            Tally::One => Tally::Many,
            Tally::Many => Tally::Many,
        }
    }
}

/// What is known of the records of one key.
#[derive(Clone, Copy)]
pub(crate) struct Group {
    /// The number of rows that the key refers to.
    pub(crate) referenced: Tally,
    /// The place of the first row that has the key as its primary key.
    pub(crate) least: Option<Place>,
}

/// Returns a fault that makes the group of tables invalid.
fn fault_at(code: Code, place: Place) -> Fault
    ensures { result ≡ fault_at code place }
{
    Fault {
        place,
        code,
        kind: Kind::Error,
    }
}

/// Returns the fault of a row that refers to so many rows.
fn fault_by_tally(tally: Tally, place: Place) -> Option<Fault>
    ensures { result ≡ fault_by_tally tally place }
{
    match tally {
        Tally::Zero => Some(fault_at(Code::NoReferencedRow, place)),
        Tally::One => None,
        Tally::Many => Some(fault_at(Code::ManyReferencedRows, place)),
    }
}

/// Returns the place of the first row so far, after a row at this place.
fn least_after(least: Option<Place>, place: Place) -> Place
    ensures { result ≡ least_after least place }
{
    match least {
        Some(least) if least.row <= place.row => least,
        _ => place,
    }
}

/// Returns the fault of the later one of the first row so far and a row at this place.
fn duplicate(least: Option<Place>, place: Place) -> Option<Fault>
    ensures { result ≡ duplicate least place }
{
    let least = least?;
    let later = if place.row < least.row { least } else { place };
    Some(fault_at(Code::DuplicateKey, later))
}

/// Returns whether a row at this place has the number of the first row so far.
fn is_twin(least: Option<Place>, place: Place) -> bool
    ensures { result ≡ is_twin least place }
{
    match least {
        Some(least) => place.row == least.row,
        None => false,
    }
}

impl Group {
    /// Returns what is known of no records.
    pub(crate) fn empty() -> Group
        ensures { result ≡ empty_group }
    {
        Group {
            referenced: Tally::Zero,
            least: None,
        }
    }

    /// Returns what is known after a further record.
    pub(crate) fn after(self, role: Role, place: Place) -> Group
        ensures { result ≡ after self role place }
    {
        match role {
            Role::Unique => Group {
                referenced: self.referenced,
                least: Some(least_after(self.least, place)),
            },
            Role::Referenced => Group {
                referenced: self.referenced.more(),
                least: self.least,
            },
            Role::Refers => self,
        }
    }

    /// Returns the fault that a further record makes certain.
    pub(crate) fn certain(self, role: Role, place: Place) -> Option<Fault>
        ensures { result ≡ certain self role place }
    {
        match role {
            Role::Unique => duplicate(self.least, place),
            Role::Referenced => None,
            Role::Refers => fault_by_tally(self.referenced, place),
        }
    }

    /// Returns whether a further record is of the first row so far, which has another record.
    pub(crate) fn repeats(self, role: Role, place: Place) -> bool
        ensures { result ≡ repeats self role place }
    {
        match role {
            Role::Unique => is_twin(self.least, place),
            Role::Referenced | Role::Refers => false,
        }
    }
}
