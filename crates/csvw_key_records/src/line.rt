//! The line of a record, written.
ghost use Rattle.std.specs.Prelude.{◌≡◌, ◌++◌, OnErr, OnOk, flat_map};
ghost use Rattle.csvw_key_records.specs.Records.{front_of, line_of, role_name, tail};

use crate::record::{KeyRecord, Role};
use csvw_text::Place;
use itoa::Buffer;
use std::alloc::AllocError;

impl Role {
    /// Returns the name of the role, as records spell it.
    pub(crate) fn name(&self) -> &'static str
        ensures { result.now ≡ role_name self.now }
    {
        match self {
            Role::Unique => "unique",
            Role::Referenced => "referenced",
            Role::Refers => "refers",
        }
    }
}

/// Adds texts, one after the other. If memory runs out, it returns `AllocError` and `out` is unchanged.
fn push_parts(out: &mut Vec<u8>, parts: &[&[u8]]) -> Result<(), AllocError>
    ensures ok { OnOk result (out.new.items ≡ out.old.items ++ flat_map (λ part. part.now) parts.now) }
    ensures err { OnErr result (out.new.items ≡ out.old.items) }
{
    let len = out.len();
    for part in parts {
        if let Err(fault) = out.extend_from_slice(part) {
            out.truncate(len);
            return Err(fault);
        }
    }
    Ok(())
}

/// Adds the front of a record's line: the rule and the key. If memory runs out, `out` is unchanged.
fn push_front(out: &mut Vec<u8>, record: &KeyRecord) -> Result<(), AllocError>
    ensures ok { OnOk result (out.new.items ≡ out.old.items ++ front_of «record».now) }
    ensures err { OnErr result (out.new.items ≡ out.old.items) }
{
    let mut rule = Buffer::new();
    push_parts(
        out,
        &[
            rule.format(record.rule).as_bytes(),
            b",",
            record.key.as_slice(),
            b",",
        ],
    )
}

/// Adds the rest of a record's line: the role and the place. If memory runs out, `out` is unchanged.
fn push_tail(out: &mut Vec<u8>, role: Role, place: Place) -> Result<(), AllocError>
    ensures ok { OnOk result (out.new.items ≡ out.old.items ++ tail role place) }
    ensures err { OnErr result (out.new.items ≡ out.old.items) }
{
    let mut table = Buffer::new();
    let mut row = Buffer::new();
    let mut column = Buffer::new();
    push_parts(
        out,
        &[
            role.name().as_bytes(),
            b",",
            table.format(place.table).as_bytes(),
            b",",
            row.format(place.row).as_bytes(),
            b",",
            column.format(place.column).as_bytes(),
            b"\n",
        ],
    )
}

/// Adds the line of a record. If memory runs out, it returns `AllocError` and `out` is unchanged.
pub fn push_line(out: &mut Vec<u8>, record: &KeyRecord) -> Result<(), AllocError>
    ensures ok { OnOk result (out.new.items ≡ out.old.items ++ line_of «record».now) }
    ensures err { OnErr result (out.new.items ≡ out.old.items) }
{
    let len = out.len();
    push_front(out, record)?;
    if let Err(fault) = push_tail(out, record.role, record.place) {
        out.truncate(len);
        return Err(fault);
    }
    Ok(())
}
