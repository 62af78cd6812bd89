//! Runs that read their tables in turn.

use crate::runs::Sent::{Just, Lines};
use crate::runs::{Case, End, File, each_ends_so};

const META: &[u8] = br#"{"@context":"http://www.w3.org/ns/csvw","tables":[
{"url":"a.csv","tableSchema":{"columns":[{"name":"ref","datatype":"integer"}],
"foreignKeys":[{"columnReference":"ref","reference":{"resource":"b.csv","columnReference":"k"}}]}},
{"url":"b.csv","tableSchema":{"columns":[{"name":"k","datatype":"integer"}],"primaryKey":"k"}}]}"#;

const FILES: &[File<'static>] = &[
    File {
        path: "m.json",
        bytes: META,
    },
    File {
        path: "a.csv",
        bytes: b"ref\n9\n1\n2\n\n",
    },
    File {
        path: "b.csv",
        bytes: b"k\n1\n01\n2\n",
    },
];

const REPORT: &[u8] =
    b"kind,code,table,row,column\nerror,NoReferencedRow,1,2,1\nerror,ManyReferencedRows,1,3,1\nerror,DuplicateKey,2,3,1\n";

static CASES: [Case; 2] = [
    Case {
        what: "keys that don't match, validated",
        words: "csvw validate --turns --base http://example.org/ m.json a.csv b.csv",
        files: FILES,
        end: End {
            status: 1,
            out: Just(REPORT),
            err: Just(b""),
        },
    },
    Case {
        what: "keys that don't match, converted",
        words: "csvw convert --minimal --turns --base http://example.org/ m.json a.csv b.csv",
        files: FILES,
        end: End {
            status: 1,
            out: Lines(&[
                "_:t1r1s <http://example.org/a.csv#ref> \"9\"^^<http://www.w3.org/2001/XMLSchema#integer> .",
                "_:t1r2s <http://example.org/a.csv#ref> \"1\"^^<http://www.w3.org/2001/XMLSchema#integer> .",
                "_:t1r3s <http://example.org/a.csv#ref> \"2\"^^<http://www.w3.org/2001/XMLSchema#integer> .",
                "_:t2r1s <http://example.org/b.csv#k> \"1\"^^<http://www.w3.org/2001/XMLSchema#integer> .",
                "_:t2r2s <http://example.org/b.csv#k> \"1\"^^<http://www.w3.org/2001/XMLSchema#integer> .",
                "_:t2r3s <http://example.org/b.csv#k> \"2\"^^<http://www.w3.org/2001/XMLSchema#integer> .",
            ]),
            err: Just(REPORT),
        },
    },
];

#[test]
fn tables_are_read_in_turn(rt: HostRuntime) {
    each_ends_so(&rt, rt.alloc(), &CASES);
}
