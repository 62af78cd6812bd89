//! The keys of the tables of a draft.

use crate::column::Column;
use crate::kind::Kind;
use crate::names::Names;
use crate::table::Table;
use crate::words::has_words;
use csvw_datatype::Value;
use std::alloc::{AllocError, Global};

/// How many foreign keys a table may have.
const MAX_FOREIGN_KEYS: usize = 64;

/// The primary key of a table.
#[derive(Drop)]
pub(crate) struct Key {
    /// The place of its column, from 0.
    pub(crate) column: usize,
    /// Its datatype.
    pub(crate) kind: Kind,
    /// Its values, in order.
    pub(crate) values: Vec<Value>,
}

/// A foreign key of a table.
#[derive(Clone, Copy)]
pub(crate) struct ForeignKey<'a> {
    /// The name of its column.
    pub(crate) column: &'a str,
    /// The place of the table that it refers to, from 0.
    pub(crate) table: usize,
    /// The name of the column that it refers to.
    pub(crate) key: &'a str,
}

/// A table with the names of its columns.
#[derive(Drop)]
pub(crate) struct Named {
    /// The table.
    pub(crate) table: Table,
    /// Its name: the name of its file without what follows the last dot.
    pub(crate) name: String,
    /// The name of each column. A column without a title has none.
    pub(crate) names: Vec<Option<String>>,
    /// Its primary key, if one is found.
    pub(crate) key: Option<Key>,
}

impl Named {
    /// Begins without names and without a key. It takes no memory.
    pub(crate) fn new(alloc: Global, table: Table) -> Named {
        Named {
            table,
            name: String::new(alloc),
            names: Vec::new(alloc),
            key: None,
        }
    }

    /// Names the table and its columns, and looks for its primary key.
    pub(crate) fn find(&mut self, name: &str) -> Result<(), AllocError> {
        self.name.push_str(name)?;
        push_names(&mut self.names, &self.table)?;
        self.key = primary_key(&self.table, self.names.as_slice())?;
        Ok(())
    }
}

/// Adds the name of each column.
fn push_names(names: &mut Vec<Option<String>>, table: &Table) -> Result<(), AllocError> {
    let mut taken = Names::new(*names.allocator());
    for (i, column) in table.columns.iter().enumerate() {
        let name = taken.next(column.title.as_str(), i.saturating_add(1))?;
        names.push(name)?;
    }
    Ok(())
}

/// A column that may refer to a key.
#[derive(Clone, Copy)]
struct Referring<'a> {
    /// The place of its table, from 0.
    table: usize,
    /// Its name.
    name: &'a str,
    /// What is known of its cells.
    column: &'a Column,
    /// Whether it is the primary key of its own table.
    is_key: bool,
}

/// Returns the primary key of a table: its first column with a name in which each cell has a value and no two have the same.
fn primary_key(table: &Table, names: &[Option<String>]) -> Result<Option<Key>, AllocError> {
    if !table.has_row {
        return Ok(None);
    }
    for (i, (column, name)) in table.columns.iter().zip(names).enumerate() {
        if name.is_none() {
            continue;
        }
        if let Some(values) = column.key_values()? {
            return Ok(Some(Key {
                column: i,
                kind: column.kind(),
                values,
            }));
        }
    }
    Ok(None)
}

/// Returns the name of a table's primary key.
pub(crate) fn key_name(named: &Named) -> Option<&str> {
    let key = named.key.as_ref()?;
    name_at(named.names.as_slice(), key.column)
}

/// Returns the name of the column at a place.
pub(crate) fn name_at(names: &[Option<String>], column: usize) -> Option<&str> {
    match names.get(column) {
        Some(Some(name)) => Some(name.as_str()),
        _ => None,
    }
}

/// What the name of a column says of a reference to the key of a table.
#[derive(Clone, Copy, PartialEq, Eq)]
enum Hint {
    /// It has the table's name in it, or is the key's name.
    Strong,
    /// It has the key's name in it.
    Weak,
    /// Nothing.
    None,
}

/// Returns a name without an `s` at its end.
fn singular(name: &str) -> &str {
    name.strip_suffix('s').unwrap_or(name)
}

/// Returns what the name of a column says of a reference to the key of a table. Rows are often numbered: so a primary key of
/// integers refers to another only by the table's name.
fn hint_of(referring: Referring<'_>, other: &Named) -> Hint {
    if has_words(referring.name, singular(other.name.as_str())) {
        return Hint::Strong;
    }
    if referring.is_key && referring.column.kind() == Kind::Whole {
        return Hint::None;
    }
    match key_name(other) {
        Some(key) if referring.name == key => Hint::Strong,
        Some(key) if has_words(referring.name, key) => Hint::Weak,
        _ => Hint::None,
    }
}

/// Returns what is known of the column at a place of a table, or `None` if it has no name.
fn referring_at(tables: &[Named], table: usize, place: usize) -> Option<Referring<'_>> {
    let named = tables.get(table)?;
    Some(Referring {
        table,
        name: name_at(named.names.as_slice(), place)?,
        column: named.table.columns.get(place)?,
        is_key: named.key.as_ref().is_some_and(|own| own.column == place),
    })
}

/// Returns whether a column refers to the primary key of another table: its name gives this hint, it has the same datatype,
/// and each of its values is one of the key.
fn refers(referring: Referring<'_>, other: &Named, hint: Hint) -> Result<bool, AllocError> {
    let Some(key) = &other.key else {
        return Ok(false);
    };
    if referring.column.kind() != key.kind || hint_of(referring, other) != hint {
        return Ok(false);
    }
    referring.column.is_within(key.values.as_slice())
}

/// Adds the foreign keys of a column to the tables whose names or keys give this hint.
fn push_keys<'a>(
    found: &mut Vec<ForeignKey<'a>>,
    tables: &'a [Named],
    referring: Referring<'a>,
    hint: Hint,
) -> Result<(), AllocError> {
    for (table, other) in tables.iter().enumerate() {
        let has_room = table != referring.table && found.len() < MAX_FOREIGN_KEYS;
        if has_room && refers(referring, other, hint)? {
            found.push(ForeignKey {
                column: referring.name,
                table,
                key: key_name(other).unwrap_or(""),
            })?;
        }
    }
    Ok(())
}

/// Adds the foreign keys of a column. If its name has the name of one table and the keys' names of others in it, it refers to the
/// first alone.
fn push_strongest<'a>(
    found: &mut Vec<ForeignKey<'a>>,
    tables: &'a [Named],
    referring: Referring<'a>,
) -> Result<(), AllocError> {
    let before = found.len();
    push_keys(found, tables, referring, Hint::Strong)?;
    if found.len() > before {
        return Ok(());
    }
    push_keys(found, tables, referring, Hint::Weak)
}

/// Returns the foreign keys of the table at a place.
pub(crate) fn foreign_keys(
    alloc: Global,
    tables: &[Named],
    place: usize,
) -> Result<Vec<ForeignKey<'_>>, AllocError> {
    let mut found = Vec::new(alloc);
    let columns = match tables.get(place) {
        Some(named) => named.names.len(),
        None => 0,
    };
    for column in 0..columns {
        if let Some(referring) = referring_at(tables, place, column) {
            push_strongest(&mut found, tables, referring)?;
        }
    }
    Ok(found)
}
