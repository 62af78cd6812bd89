//! The origins of blank nodes.

/// What a blank node is for. Tables, rows, columns, entries and notes have numbers from 1.
#[derive(Clone, Copy, Debug, PartialEq, Eq)]
pub enum Origin {
    /// The group of tables.
    Group,
    /// A table, by its number.
    Table(u32),
    /// A row, by the number of its table and its own number among the data rows.
    Row(u32, u64),
    /// The default subject of a row, by the number of its table and its own number among the data rows.
    Subject(u32, u64),
    /// An entry of an ordered list, by the numbers of its table, row and column and its place in the list.
    Entry(u32, u64, u32, u64),
    /// An object of an annotation, by its number.
    Note(u64),
}
