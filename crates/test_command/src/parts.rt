//! Runs over the rows of one part of a group: its lines, its report, and plans that don't fit.

use crate::runs::Sent::Just;
use crate::runs::{End, File, ends_so};
use std::alloc::Global;

/// A document whose first column has integers.
const META: &[u8] =
    br#"{"@context":"http://www.w3.org/ns/csvw","url":"p.csv","tableSchema":{"columns":[{"name":"id","datatype":"integer"},{"name":"x"}]},"unlisted":1}"#;

/// The same with a primary key.
const KEYED: &[u8] =
    br#"{"@context":"http://www.w3.org/ns/csvw","url":"p.csv","tableSchema":{"columns":[{"name":"id","datatype":"integer"},{"name":"x"}],"primaryKey":"id"}}"#;

/// A document whose table has no header row.
const HEADERLESS: &[u8] =
    br#"{"@context":"http://www.w3.org/ns/csvw","url":"p.csv","dialect":{"header":false},"tableSchema":{"columns":[{"name":"id"},{"name":"x"}]}}"#;

/// Its table. The second data row has a line break in quotes, and the third has no integer.
const TABLE: &[u8] = b"id,x\n1,a\n2,\"b\nc\"\nz,d\n";

/// A plan of two parts: the header with the first data row, and the other data rows.
const PLAN: &[u8] = b"part,table,first_byte,bytes,rows_before,data_rows_before,header_bytes
1,1,0,9,0,0,5
2,1,9,12,2,1,5
";

/// A plan of the same parts, if there is no header row.
const HEADERLESS_PLAN: &[u8] =
    b"part,table,first_byte,bytes,rows_before,data_rows_before,header_bytes
1,1,0,9,0,0,5
2,1,9,12,2,2,5
";

/// A plan whose first part ends in the quotes of the third row.
const IN_QUOTES: &[u8] = b"part,table,first_byte,bytes,rows_before,data_rows_before,header_bytes
1,1,0,14,0,0,5
2,1,14,7,3,2,5
";

/// A plan with one row too many before its second part.
const OTHER_ROWS: &[u8] = b"part,table,first_byte,bytes,rows_before,data_rows_before,header_bytes
1,1,0,9,0,0,5
2,1,9,12,3,2,5
";

/// A plan with another number of data rows before its second part.
const OTHER_DATA_ROWS: &[u8] =
    b"part,table,first_byte,bytes,rows_before,data_rows_before,header_bytes
1,1,0,9,0,0,5
2,1,9,12,2,2,5
";

/// A plan of a shorter file.
const SHORTER: &[u8] = b"part,table,first_byte,bytes,rows_before,data_rows_before,header_bytes
1,1,0,9,0,0,5
2,1,9,8,2,1,5
";

/// A plan of a longer file.
const LONGER: &[u8] = b"part,table,first_byte,bytes,rows_before,data_rows_before,header_bytes
1,1,0,9,0,0,5
2,1,9,13,2,1,5
";

/// A part, and how its run ends.
struct PartCase {
    /// The words of the command line before `--base`, without the program's name.
    words: &'static str,
    /// The document.
    meta: &'static [u8],
    /// The plan.
    plan: &'static [u8],
    /// The status.
    status: u8,
    /// What standard output gets.
    out: &'static [u8],
    /// What standard error gets.
    err: &'static [u8],
}

static PARTS: [PartCase; 21] = [
    PartCase {
        words: "convert --minimal --part 1 --plan plan.csv",
        meta: META,
        plan: PLAN,
        status: 0,
        out: b"_:t1r1s <http://example.org/p.csv#id> \"1\"^^<http://www.w3.org/2001/XMLSchema#integer> .
_:t1r1s <http://example.org/p.csv#x> \"a\" .
",
        err: b"kind,code,table,row,column\nwarning,UnknownProperty,1,0,0\n",
    },
    PartCase {
        words: "convert --minimal --part 2 --plan plan.csv",
        meta: META,
        plan: PLAN,
        status: 1,
        out: b"_:t1r2s <http://example.org/p.csv#id> \"2\"^^<http://www.w3.org/2001/XMLSchema#integer> .
_:t1r2s <http://example.org/p.csv#x> \"b\\nc\" .
_:t1r3s <http://example.org/p.csv#id> \"z\" .
_:t1r3s <http://example.org/p.csv#x> \"d\" .
",
        err: b"kind,code,table,row,column\nerror,BadInteger,1,4,1\n",
    },
    PartCase {
        words: "convert --minimal --part 2 --plan plan.csv",
        meta: HEADERLESS,
        plan: HEADERLESS_PLAN,
        status: 0,
        out: b"_:t1r3s <http://example.org/p.csv#id> \"2\" .
_:t1r3s <http://example.org/p.csv#x> \"b\\nc\" .
_:t1r4s <http://example.org/p.csv#id> \"z\" .
_:t1r4s <http://example.org/p.csv#x> \"d\" .
",
        err: b"kind,code,table,row,column\n",
    },
    PartCase {
        words: "validate --part 1 --plan plan.csv",
        meta: META,
        plan: PLAN,
        status: 0,
        out: b"kind,code,table,row,column\nwarning,UnknownProperty,1,0,0\n",
        err: b"",
    },
    PartCase {
        words: "validate --part 2 --plan plan.csv",
        meta: META,
        plan: PLAN,
        status: 1,
        out: b"kind,code,table,row,column\nerror,BadInteger,1,4,1\n",
        err: b"",
    },
    PartCase {
        words: "validate --part 1 --plan plan.csv",
        meta: META,
        plan: IN_QUOTES,
        status: 3,
        out: b"",
        err: b"csvw: plan table 1 part 1: the rows don't end where the plan says, or there are other numbers of them\n",
    },
    PartCase {
        words: "validate --part 1 --plan plan.csv",
        meta: META,
        plan: OTHER_ROWS,
        status: 3,
        out: b"",
        err: b"csvw: plan table 1 part 1: the rows don't end where the plan says, or there are other numbers of them\n",
    },
    PartCase {
        words: "validate --part 1 --plan plan.csv",
        meta: META,
        plan: OTHER_DATA_ROWS,
        status: 3,
        out: b"",
        err: b"csvw: plan table 1 part 1: the rows don't end where the plan says, or there are other numbers of them\n",
    },
    PartCase {
        words: "validate --part 2 --plan plan.csv",
        meta: META,
        plan: SHORTER,
        status: 3,
        out: b"",
        err: b"csvw: plan table 1 part 2: the file is longer than the plan says\n",
    },
    PartCase {
        words: "validate --part 2 --plan plan.csv",
        meta: META,
        plan: LONGER,
        status: 3,
        out: b"",
        err: b"csvw: plan table 1 part 2: the file is shorter than the plan says\n",
    },
    PartCase {
        words: "validate --part 1 --plan q.csv",
        meta: META,
        plan: PLAN,
        status: 4,
        out: b"",
        err: b"csvw: q.csv: the file can't be opened or read: No such file or directory (os error 2)\ncsvw: Read\n",
    },
    PartCase {
        words: "validate --part 1 --plan p.csv",
        meta: META,
        plan: PLAN,
        status: 3,
        out: b"",
        err: b"csvw: plan line 1: the heading must be part,table,first_byte,bytes,rows_before,data_rows_before,header_bytes\n",
    },
    PartCase {
        words: "validate --part 3 --plan plan.csv",
        meta: META,
        plan: PLAN,
        status: 2,
        out: b"",
        err: b"csvw: the plan has no part of this number; parts are numbered from 1\n",
    },
    PartCase {
        words: "validate --part two --plan plan.csv",
        meta: META,
        plan: PLAN,
        status: 2,
        out: b"",
        err: b"csvw: the plan has no part of this number; parts are numbered from 1\n",
    },
    PartCase {
        words: "validate --part 1",
        meta: META,
        plan: PLAN,
        status: 2,
        out: b"",
        err: b"csvw: --part and --plan go together, and --keys goes with them\n",
    },
    PartCase {
        words: "validate --report text --part 1 --plan plan.csv",
        meta: META,
        plan: PLAN,
        status: 2,
        out: b"",
        err: b"csvw: a part has a report in CSV; --report, --strict and --explain are for whole runs\n",
    },
    PartCase {
        words: "validate --part 1 --plan plan.csv --keys p.csv",
        meta: KEYED,
        plan: PLAN,
        status: 2,
        out: b"",
        err: b"csvw: --keys names a file that is read, or standard input\n",
    },
    PartCase {
        words: "validate --part 1 --plan plan.csv --keys -",
        meta: KEYED,
        plan: PLAN,
        status: 2,
        out: b"",
        err: b"csvw: --keys names a file that is read, or standard input\n",
    },
    PartCase {
        words: "validate --keys 1.keys",
        meta: KEYED,
        plan: PLAN,
        status: 2,
        out: b"",
        err: b"csvw: --part and --plan go together, and --keys goes with them\n",
    },
    PartCase {
        words: "validate --part 1 --plan plan.csv --keys 1.keys",
        meta: KEYED,
        plan: PLAN,
        status: 4,
        out: b"",
        err: b"csvw: Write\n",
    },
    PartCase {
        words: "validate --part 1 --plan plan.csv",
        meta: KEYED,
        plan: PLAN,
        status: 2,
        out: b"",
        err: b"csvw: the group has keys, which can't be judged by one part; write those of its rows with --keys KEYS, for `csvw keys`\n",
    },
];

/// Returns whether a part ends as its case says, and hands back every reader that it opened.
fn part_ends_so(alloc: Global, case: &PartCase) -> bool {
    let line = format!(in alloc;
        "csvw {} --base http://example.org/ m.json p.csv",
        case.words
    );
    let Ok(words) = line else {
        return false;
    };
    let files = [
        File {
            path: "m.json",
            bytes: case.meta,
        },
        File {
            path: "p.csv",
            bytes: TABLE,
        },
        File {
            path: "plan.csv",
            bytes: case.plan,
        },
    ];
    let end = End {
        status: case.status,
        out: Just(case.out),
        err: Just(case.err),
    };
    ends_so(alloc, words.as_str(), &files, end)
}

/// A document of two tables.
const TWO: &[u8] =
    br#"{"@context":"http://www.w3.org/ns/csvw","tables":[{"url":"p.csv"},{"url":"q.csv"}]}"#;

/// The words that read a part of its tables.
const OF_TWO: &str =
    "csvw validate --part 1 --plan plan.csv --base http://example.org/ m.json p.csv p.csv";

#[test]
fn plan_without_a_table_is_refused(rt: HostRuntime) {
    let alloc = rt.alloc();
    let files = [
        File {
            path: "m.json",
            bytes: TWO,
        },
        File {
            path: "p.csv",
            bytes: TABLE,
        },
        File {
            path: "plan.csv",
            bytes: PLAN,
        },
    ];
    let end = End {
        status: 3,
        out: Just(b""),
        err: Just(b"csvw: TableCount\n"),
    };
    assert!(rt; ends_so(alloc, OF_TWO, &files, end), "two tables");
}

#[test]
fn parts_have_the_rows_of_the_whole(rt: HostRuntime) {
    let alloc = rt.alloc();
    for (i, case) in PARTS.iter().enumerate() {
        assert!(rt; part_ends_so(alloc, case), "part {i}: {}", case.words);
    }
}
