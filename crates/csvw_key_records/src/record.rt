//! `KeyRecord`: what a row says of a key.

use csvw_text::{Place, Seq};

/// The part that a row has in a key.
#[derive(Clone, Copy, Debug, PartialEq, Eq)]
pub enum Role {
    /// The row is of the table of a primary key.
    Unique,
    /// The row is of the table that a foreign key refers to.
    Referenced,
    /// The row refers to another by a foreign key: not all of its key cells are null.
    Refers,
}

/// What a row says of a key: a line of a file of records.
#[derive(Debug, Drop)]
pub struct KeyRecord {
    /// The number of the key among the keys of the group, from 1.
    pub rule: u32,
    /// The key cells of the row, in a spelling that is the same text exactly for equal keys. It has no comma and no line feed.
    pub key: Seq<u8>,
    /// The part that the row has in the key.
    pub role: Role,
    /// The place at which the row's key is reported.
    pub place: Place,
}
