//! Files of records, with their faults and their results.

use csvw_key_records::{KeyStop, judge_keys};
use csvw_text::Counted;
use std::alloc::{AllocError, Global};

/// Records, the lines of their faults and the result. A stop is the number of its line and its name.
static FILES: [(&str, &str, &str); 36] = [
    ("", "", "valid"),
    ("1,s1,unique,1,2,1\n", "", "valid"),
    ("1,,unique,1,2,1\n", "", "valid"),
    (
        "1,a,unique,1,2,1\n1,a,unique,1,3,1\n",
        "error,DuplicateKey,1,3,1\n",
        "invalid",
    ),
    // in byte order row 10 comes before row 2: the first row is still row 2
    (
        "1,a,unique,1,10,1\n1,a,unique,1,2,1\n1,a,unique,1,9,1\n",
        "error,DuplicateKey,1,10,1\nerror,DuplicateKey,1,9,1\n",
        "invalid",
    ),
    (
        "1,a,unique,1,2,1\n1,a,unique,1,3,1\n1,a,unique,1,4,1\n",
        "error,DuplicateKey,1,3,1\nerror,DuplicateKey,1,4,1\n",
        "invalid",
    ),
    ("1,a,unique,1,2,1\n1,b,unique,1,3,1\n", "", "valid"),
    ("1,a,unique,1,2,1\n2,a,unique,2,2,1\n", "", "valid"),
    ("10,a,unique,1,2,1\n2,a,unique,2,2,1\n", "", "valid"),
    ("1,a!,unique,1,3,1\n1,a,unique,1,2,1\n", "", "valid"),
    (
        "1,a,refers,2,2,3\n",
        "error,NoReferencedRow,2,2,3\n",
        "invalid",
    ),
    (
        "1,a,referenced,1,2,1\n1,a,refers,2,2,3\n1,a,refers,2,3,3\n",
        "",
        "valid",
    ),
    (
        "1,a,referenced,1,2,1\n1,a,referenced,1,3,1\n1,a,refers,2,2,3\n1,a,refers,2,3,3\n",
        "error,ManyReferencedRows,2,2,3\nerror,ManyReferencedRows,2,3,3\n",
        "invalid",
    ),
    (
        "1,a,referenced,1,2,1\n1,a,referenced,1,3,1\n1,a,referenced,1,4,1\n1,a,refers,2,2,3\n",
        "error,ManyReferencedRows,2,2,3\n",
        "invalid",
    ),
    ("1,a,referenced,1,2,1\n1,a,referenced,1,3,1\n", "", "valid"),
    (
        "1,a,referenced,1,2,1\n1,b,refers,2,2,3\n",
        "error,NoReferencedRow,2,2,3\n",
        "invalid",
    ),
    (
        "1,a,referenced,1,2,1\n2,a,refers,2,2,3\n",
        "error,NoReferencedRow,2,2,3\n",
        "invalid",
    ),
    (
        "1,a,unique,1,2,1\n1,a,unique,1,3,1\n2,a,refers,4294967295,18446744073709551615,4294967295\n",
        "error,DuplicateKey,1,3,1\nerror,NoReferencedRow,4294967295,18446744073709551615,4294967295\n",
        "invalid",
    ),
    ("1,a,unique,1,2\n", "", "1 NoRecord"),
    ("1,a,unique,1,2,1", "", "1 Cut"),
    ("1,a,unique,1,2,1\n1,b,unique,1,3,1", "", "2 Cut"),
    ("01,a,unique,1,2,1\n", "", "1 NoRecord"),
    ("1,a,Unique,1,2,1\n", "", "1 NoRecord"),
    ("1,a,uniq,1,2,1\n", "", "1 NoRecord"),
    ("1,a,unique,1,2,1,\n", "", "1 NoRecord"),
    ("1,a,unique,1,2,1\r\n", "", "1 NoRecord"),
    ("1,a,b,unique,1,2,1\n", "", "1 NoRecord"),
    ("\n", "", "1 NoRecord"),
    ("4294967296,a,unique,1,2,1\n", "", "1 NoRecord"),
    ("1,a,unique,1,18446744073709551616,1\n", "", "1 NoRecord"),
    ("1,a,unique,4294967296,2,1\n", "", "1 NoRecord"),
    ("1,b,unique,1,2,1\n1,a,unique,1,3,1\n", "", "2 Order"),
    (
        "1,a,refers,2,2,3\n1,a,referenced,1,2,1\n",
        "error,NoReferencedRow,2,2,3\n",
        "2 Order",
    ),
    ("1,a,unique,1,2,1\n1,a,unique,1,2,1\n", "", "2 Twice"),
    ("1,a,unique,1,2,1\n1,a,unique,1,2,2\n", "", "2 Row"),
    (
        "1,a,unique,1,2,1\n1,a,unique,1,3,1\nx\n",
        "error,DuplicateKey,1,3,1\n",
        "3 NoRecord",
    ),
];

/// Returns the name of a result.
pub(crate) fn name_of(alloc: Global, judged: Result<bool, KeyStop>) -> Result<String, AllocError> {
    match judged {
        Ok(true) => String::from_str(alloc, "valid"),
        Ok(false) => String::from_str(alloc, "invalid"),
        Err(KeyStop::Memory) => Err(AllocError),
        Err(KeyStop::Read) => String::from_str(alloc, "Read"),
        Err(KeyStop::Write) => String::from_str(alloc, "Write"),
        Err(KeyStop::Line { line, fault }) => format!(in alloc; "{line} {fault:?}"),
    }
}

/// Returns whether the records have these faults and this result.
fn has_faults(alloc: Global, records: &str, faults: &str, want: &str) -> Result<bool, AllocError> {
    let mut reader = Counted::new(records.as_bytes());
    let mut out = Counted::new(Vec::new(alloc));
    let result = judge_keys(alloc, &mut reader, &mut out);
    let name = name_of(alloc, result)?;
    let written = out.into_inner();
    Ok(name.as_str() == want && written.as_slice() == faults.as_bytes())
}

#[test]
fn files(rt: HostRuntime) {
    for (records, faults, want) in &FILES {
        assert!(rt;
            has_faults(rt.alloc(), records, faults, want) == Ok(true),
            "{records}"
        );
    }
}
