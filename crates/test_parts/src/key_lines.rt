//! The lines of records.

use csvw_key_records::{KeyRecord, Role, push_line};
use csvw_text::{Place, Seq};
use std::alloc::{AllocError, Global};

/// Returns whether these records of a key have these lines.
fn has_lines(alloc: Global) -> Result<bool, AllocError> {
    let place = Place {
        table: 3,
        row: 18_446_744_073_709_551_615,
        column: 4_294_967_295,
    };
    let mut out = Vec::new(alloc);
    for role in [Role::Unique, Role::Referenced, Role::Refers] {
        let mut key = Seq::new(alloc);
        key.extend_from_slice(b"s1 n20")?;
        let record = KeyRecord {
            rule: 4_294_967_295,
            key,
            role,
            place,
        };
        push_line(&mut out, &record)?;
    }
    let want =
        "4294967295,s1 n20,unique,3,18446744073709551615,4294967295\n4294967295,s1 n20,referenced,3,18446744073709551615,4294967295\n4294967295,s1 n20,refers,3,18446744073709551615,4294967295\n";
    Ok(out.as_slice() == want.as_bytes())
}

#[test]
fn lines(rt: HostRuntime) {
    assert!(rt; has_lines(rt.alloc()) == Ok(true));
}
