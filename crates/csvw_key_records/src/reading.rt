//! The line of a record, read.
ghost use Rattle.std.specs.Prelude.{◌≡◌, ◌<◌, ◌^◌, ◌++◌, List, ℕ, MatchOption};
ghost use Rattle.csvw_fault.specs.declared.fault.Place.{Place as ThePlace};
ghost use Rattle.csvw_key_records.specs.Records.{Fits, FitsPlace, IsFront, IsKey, front, line_of, role_field, role_name, tail};
ghost use Rattle.csvw_key_records.specs.Judging.{IsLineOf};
ghost use Rattle.csvw_key_records.specs.declared.record.KeyRecord.{KeyRecord as TheRecord};
ghost use Rattle.csvw_key_records.specs.declared.record.Role.{Role as TheRole};

use crate::digits::{long_number, parted, short_number};
use crate::record::Role;
use csvw_text::Place;

/// The line of a record, read.
#[derive(Clone, Copy)]
pub(crate) struct KeyLine<'a> {
    /// The whole line.
    pub(crate) text: &'a [u8],
    /// Its front: the rule and the key.
    pub(crate) front: &'a [u8],
    /// Its role.
    pub(crate) role: Role,
    /// Its place.
    pub(crate) place: Place,
}

/// Reads the front of a line: the rule and the key. Returns them and what follows.
pub(crate) fn front_at(text: &[u8]) -> Option<(u32, &[u8], &[u8])>
    ensures { MatchOption result ((rule : ℕ) (key rest : List ℕ) → IsFront rule key → (text.now ≡ front rule key ++ rest) → ⊥)
        (λ read. (text.now ≡ front read.0 read.1.now ++ read.2.now) × IsFront read.0 read.1.now) }
{
    let (rule, text) = short_number(text, b',')?;
    let (key, rest) = parted(text, b',')?;
    match parted(key, b'\n') {
        Some(_) => None,
        None => Some((rule, key, rest)),
    }
}

/// Returns the role that has this name.
fn role_named(name: &[u8]) -> Option<Role>
    ensures { MatchOption result ((role : TheRole) → (name.now ≡ role_name role) → ⊥) (λ role. name.now ≡ role_name role) }
{
    if name == b"unique".as_slice() {
        return Some(Role::Unique);
    }
    if name == b"referenced".as_slice() {
        return Some(Role::Referenced);
    }
    if name == b"refers".as_slice() {
        return Some(Role::Refers);
    }
    None
}

/// Reads a role, and the comma that ends it. Returns the role and what follows.
fn role_at(text: &[u8]) -> Option<(Role, &[u8])>
    ensures { MatchOption result ((role : TheRole) (rest : List ℕ) → (text.now ≡ role_field role rest) → ⊥)
        (λ read. text.now ≡ role_field read.0 read.1.now) }
{
    let (name, rest) = parted(text, b',')?;
    let role = role_named(name)?;
    Some((role, rest))
}

/// Reads the rest of a line: the role and the place. Returns them and what follows.
pub(crate) fn tail_at(text: &[u8]) -> Option<(Role, Place, &[u8])>
    ensures { MatchOption result ((role : TheRole) (place : ThePlace) (rest : List ℕ) → FitsPlace place → (text.now ≡ tail role place ++ rest) → ⊥)
        (λ read. (text.now ≡ tail read.0 read.1 ++ read.2.now) × FitsPlace read.1) }
{
    let (role, text) = role_at(text)?;
    let (table, text) = short_number(text, b',')?;
    let (row, text) = long_number(text, b',')?;
    let (column, text) = short_number(text, b'\n')?;
    let place = Place { table, row, column };
    Some((role, place, text))
}

/// Reads the line of a record.
pub(crate) fn line_at(text: &[u8]) -> Option<KeyLine<'_>>
    ensures { MatchOption result ((r : TheRecord) → Fits r → (text.now ≡ line_of r) → ⊥)
        (λ line. (line.text.now ≡ text.now) × (r : TheRecord) × Fits r × IsLineOf line r) }
{
    let (_rule, _key, tail) = front_at(text)?;
    let (role, place, after) = tail_at(tail)?;
    if !after.is_empty() {
        return None;
    }
    let front = &text[..text.len() - tail.len()];
    Some(KeyLine {
        text,
        front,
        role,
        place,
    })
}
