//! Tests of documents with keys, and of the report on their tables.
use crate::running::{Order, is_report, run_in};
use csvw_triples_core::Mode;
use std::alloc::Global;

/// A document, the texts of its tables, and the report without its first line.
struct Case {
    /// What the case shows.
    about: &'static str,
    /// The document.
    meta: &'static str,
    /// The texts of its tables, in order.
    texts: &'static [&'static str],
    /// The lines of the report after its heading.
    faults: &'static str,
}

static CASES: [Case; 22] = [
    Case {
        about: "Numbers are compared as values, and a reference over whole tables.",
        meta: r#"{"@context":"http://www.w3.org/ns/csvw","tables":[{"url":"a.csv",
            "tableSchema":{"columns":[{"name":"ref","datatype":"integer"}],
            "foreignKeys":[{"columnReference":"ref","reference":{"resource":"b.csv","columnReference":"k"}}]}},
            {"url":"b.csv","tableSchema":{"columns":[{"name":"k","datatype":"integer"}],"primaryKey":"k"}}]}"#,
        texts: &["ref\n9\n1\n2\n\n", "k\n1\n01\n2\n"],
        faults: "error,NoReferencedRow,1,2,1\nerror,ManyReferencedRows,1,3,1\nerror,DuplicateKey,2,3,1\n",
    },
    Case {
        about: "The referenced table may come first.",
        meta: r#"{"@context":"http://www.w3.org/ns/csvw","tables":[{"url":"b.csv",
            "tableSchema":{"columns":[{"name":"k","datatype":"integer"}],"primaryKey":"k"}},
            {"url":"a.csv","tableSchema":{"columns":[{"name":"ref","datatype":"integer"}],
            "foreignKeys":[{"columnReference":"ref","reference":{"resource":"b.csv","columnReference":"k"}}]}}]}"#,
        texts: &["k\n1\n01\n2\n", "ref\n9\n1\n2\n\n"],
        faults: "error,DuplicateKey,1,3,1\nerror,NoReferencedRow,2,2,1\nerror,ManyReferencedRows,2,3,1\n",
    },
    Case {
        about: "Null equals null in a primary key.",
        meta: r#"{"@context":"http://www.w3.org/ns/csvw","url":"p.csv","tableSchema":{"columns":[{"name":"k","datatype":"integer"}],"primaryKey":"k"}}"#,
        texts: &["k\n\n\n"],
        faults: "error,DuplicateKey,1,3,1\n",
    },
    Case {
        about: "Texts are whole keys, with 15 bytes, with 16, and with U+0000 at the end.",
        meta: r#"{"@context":"http://www.w3.org/ns/csvw","url":"p.csv","tableSchema":{"columns":[{"name":"k"}],"primaryKey":"k"}}"#,
        texts: &[
            "k\nabcdefghijklmno\nabcdefghijklmnop\nabcdefghijklmn\na\na\0\nabcdefghijklmno\nabcdefghijklmnop\na\0\n",
        ],
        faults: "error,DuplicateKey,1,7,1\nerror,DuplicateKey,1,8,1\nerror,DuplicateKey,1,9,1\n",
    },
    Case {
        about: "A table may refer to itself.",
        meta: r#"{"@context":"http://www.w3.org/ns/csvw","url":"p.csv","tableSchema":{"columns":[{"name":"k","datatype":"integer"},
            {"name":"parent","datatype":"integer"}],"foreignKeys":[{"columnReference":"parent",
            "reference":{"resource":"p.csv","columnReference":"k"}}]}}"#,
        texts: &["k,parent\n1,1\n2,9\n"],
        faults: "error,NoReferencedRow,1,3,2\n",
    },
    Case {
        about: "Each foreign key is told, an equal one too.",
        meta: r#"{"@context":"http://www.w3.org/ns/csvw","url":"p.csv","tableSchema":{"columns":[{"name":"k","datatype":"integer"},
            {"name":"parent","datatype":"integer"}],"foreignKeys":[{"columnReference":"parent",
            "reference":{"resource":"p.csv","columnReference":"k"}},{"columnReference":"parent",
            "reference":{"resource":"p.csv","columnReference":"k"}}]}}"#,
        texts: &["k,parent\n1,1\n2,9\n"],
        faults: "error,NoReferencedRow,1,3,2\nerror,NoReferencedRow,1,3,2\n",
    },
    Case {
        about: "Foreign keys in the same columns, to two tables.",
        meta: r#"{"@context":"http://www.w3.org/ns/csvw","tables":[{"url":"a.csv",
            "tableSchema":{"columns":[{"name":"x"},{"name":"y"}],"foreignKeys":[{"columnReference":["x","y"],
            "reference":{"resource":"b.csv","columnReference":["u","v"]}},{"columnReference":["x","y"],
            "reference":{"resource":"c.csv","columnReference":["s","t"]}}]}},
            {"url":"b.csv","tableSchema":{"columns":[{"name":"u"},{"name":"v"}]}},
            {"url":"c.csv","tableSchema":{"columns":[{"name":"s"},{"name":"t"}]}}]}"#,
        texts: &[
            "x,y\n1,1\n2,2\n,\n3,3\n",
            "u,v\n1,1\n2,2\n2,2\n",
            "s,t\n2,2\n3,3\n3,3\n",
        ],
        faults: "error,NoReferencedRow,1,2,1\nerror,ManyReferencedRows,1,3,1\n\
            error,NoReferencedRow,1,5,1\nerror,ManyReferencedRows,1,5,1\n",
    },
    Case {
        about: "Two equal foreign keys of two columns, with both kinds of faults.",
        meta: r#"{"@context":"http://www.w3.org/ns/csvw","tables":[{"url":"a.csv",
            "tableSchema":{"columns":[{"name":"x"},{"name":"y"}],"foreignKeys":[{"columnReference":["x","y"],
            "reference":{"resource":"b.csv","columnReference":["u","v"]}},{"columnReference":["x","y"],
            "reference":{"resource":"b.csv","columnReference":["u","v"]}}]}},
            {"url":"b.csv","tableSchema":{"columns":[{"name":"u"},{"name":"v"}]}}]}"#,
        texts: &["x,y\n1,1\n2,2\n3,3\n", "u,v\n2,2\n3,3\n2,2\n"],
        faults: "error,NoReferencedRow,1,2,1\nerror,NoReferencedRow,1,2,1\n\
            error,ManyReferencedRows,1,3,1\nerror,ManyReferencedRows,1,3,1\n",
    },
    Case {
        about: "The same columns in another order are another key.",
        meta: r#"{"@context":"http://www.w3.org/ns/csvw","tables":[{"url":"a.csv",
            "tableSchema":{"columns":[{"name":"x"},{"name":"y"}],"foreignKeys":[{"columnReference":["x","y"],
            "reference":{"resource":"b.csv","columnReference":["u","v"]}},{"columnReference":["y","x"],
            "reference":{"resource":"b.csv","columnReference":["u","v"]}}]}},
            {"url":"b.csv","tableSchema":{"columns":[{"name":"u"},{"name":"v"}]}}]}"#,
        texts: &["x,y\n1,2\n4,3\n", "u,v\n1,2\n3,4\n"],
        faults: "error,NoReferencedRow,1,2,2\nerror,NoReferencedRow,1,3,1\n",
    },
    Case {
        about: "Two tables refer by columns of the same numbers.",
        meta: r#"{"@context":"http://www.w3.org/ns/csvw","tables":[{"url":"a.csv",
            "tableSchema":{"columns":[{"name":"x"}],
            "foreignKeys":[{"columnReference":"x","reference":{"resource":"c.csv","columnReference":"k"}}]}},
            {"url":"b.csv","tableSchema":{"columns":[{"name":"x"}],
            "foreignKeys":[{"columnReference":"x","reference":{"resource":"c.csv","columnReference":"k"}}]}},
            {"url":"c.csv","tableSchema":{"columns":[{"name":"k"}]}}]}"#,
        texts: &["x\n1\n2\n", "x\n3\n1\n", "k\n1\n"],
        faults: "error,NoReferencedRow,1,3,1\nerror,NoReferencedRow,2,2,1\n",
    },
    Case {
        about: "A key of two columns is broken where both are equal.",
        meta: r#"{"@context":"http://www.w3.org/ns/csvw","url":"p.csv","tableSchema":{"columns":[{"name":"a"},{"name":"b"}],"primaryKey":["a","b"]}}"#,
        texts: &["a,b\n1,2\n1,3\n1,2\n"],
        faults: "error,DuplicateKey,1,4,1\n",
    },
    Case {
        about: "A number equals no text.",
        meta: r#"{"@context":"http://www.w3.org/ns/csvw","tables":[{"url":"a.csv",
            "tableSchema":{"columns":[{"name":"r","datatype":"integer"}],
            "foreignKeys":[{"columnReference":"r","reference":{"resource":"b.csv","columnReference":"s"}}]}},
            {"url":"b.csv","tableSchema":{"columns":[{"name":"s"}]}}]}"#,
        texts: &["r\n1\n", "s\n1\n"],
        faults: "error,NoReferencedRow,1,2,1\n",
    },
    Case {
        about: "A row of which a part is null refers; one of nulls alone does not.",
        meta: r#"{"@context":"http://www.w3.org/ns/csvw","tables":[{"url":"a.csv",
            "tableSchema":{"columns":[{"name":"x"},{"name":"y"}],"foreignKeys":[{"columnReference":["x","y"],
            "reference":{"resource":"b.csv","columnReference":["u","v"]}}]}},
            {"url":"b.csv","tableSchema":{"columns":[{"name":"u"},{"name":"v"}]}}]}"#,
        texts: &["x,y\n1,\n,\n,2\n", "u,v\n1,\n"],
        faults: "error,NoReferencedRow,1,4,1\n",
    },
    Case {
        about: "Two references to one table, each by columns of its own.",
        meta: r#"{"@context":"http://www.w3.org/ns/csvw","tables":[{"url":"a.csv",
            "tableSchema":{"columns":[{"name":"x"},{"name":"y"}],"foreignKeys":[{"columnReference":"x",
            "reference":{"resource":"b.csv","columnReference":"u"}},{"columnReference":"y",
            "reference":{"resource":"b.csv","columnReference":"v"}}]}},
            {"url":"b.csv","tableSchema":{"columns":[{"name":"u"},{"name":"v"}]}}]}"#,
        texts: &["x,y\n1,1\n2,2\n", "u,v\n1,2\n"],
        faults: "error,NoReferencedRow,1,2,2\nerror,NoReferencedRow,1,3,1\n",
    },
    Case {
        about: "Lists are equal item by item.",
        meta: r#"{"@context":"http://www.w3.org/ns/csvw","url":"p.csv","tableSchema":{"columns":[{"name":"l","separator":";"}],"primaryKey":"l"}}"#,
        texts: &["l\na;b\nb;a\na;b\n"],
        faults: "error,DuplicateKey,1,4,1\n",
    },
    Case {
        about: "A suppressed column may be a key.",
        meta: r#"{"@context":"http://www.w3.org/ns/csvw","url":"p.csv","tableSchema":{"columns":[{"name":"k","suppressOutput":true}],"primaryKey":"k"}}"#,
        texts: &["k\nx\nx\nx\n"],
        faults: "error,DuplicateKey,1,3,1\nerror,DuplicateKey,1,4,1\n",
    },
    Case {
        about: "Languages do not count.",
        meta: r#"{"@context":"http://www.w3.org/ns/csvw","tables":[{"url":"a.csv",
            "tableSchema":{"columns":[{"name":"x","lang":"de"}],"foreignKeys":[{"columnReference":"x",
            "reference":{"resource":"b.csv","columnReference":"u"}}]}},
            {"url":"b.csv","tableSchema":{"columns":[{"name":"u","lang":"en"}]}}]}"#,
        texts: &["x\nRhein\n", "u\nRhein\n"],
        faults: "",
    },
    Case {
        about: "A derived integer equals the integer of its number.",
        meta: r#"{"@context":"http://www.w3.org/ns/csvw","tables":[{"url":"a.csv",
            "tableSchema":{"columns":[{"name":"x","datatype":"byte"}],
            "foreignKeys":[{"columnReference":"x","reference":{"resource":"b.csv","columnReference":"u"}}]}},
            {"url":"b.csv","tableSchema":{"columns":[{"name":"u","datatype":"integer"}]}}]}"#,
        texts: &["x\n01\n", "u\n1\n"],
        faults: "",
    },
    Case {
        about: "Days are equal whatever their format; a text that is no day equals none.",
        meta: r#"{"@context":"http://www.w3.org/ns/csvw","tables":[{"url":"a.csv",
            "tableSchema":{"columns":[{"name":"x","datatype":{"base":"date","format":"d.M.yyyy"}}],
            "foreignKeys":[{"columnReference":"x","reference":{"resource":"b.csv","columnReference":"u"}}]}},
            {"url":"b.csv","tableSchema":{"columns":[{"name":"u","datatype":"date"}]}}]}"#,
        texts: &["x\n3.5.2024\n4.5.2024\n", "u\n2024-05-03\n2024-5-4\n"],
        faults: "error,NoReferencedRow,1,3,1\nerror,BadDate,2,3,1\n",
    },
    Case {
        about: "A key of sixteen columns.",
        meta: r#"{"@context":"http://www.w3.org/ns/csvw","url":"p.csv","tableSchema":{"columns":[{"name":"c0"},{"name":"c1"},{"name":"c2"},
            {"name":"c3"},{"name":"c4"},{"name":"c5"},{"name":"c6"},{"name":"c7"},{"name":"c8"},{"name":"c9"},{"name":"c10"},{"name":"c11"},
            {"name":"c12"},{"name":"c13"},{"name":"c14"},{"name":"c15"}],
            "primaryKey":["c0","c1","c2","c3","c4","c5","c6","c7","c8","c9","c10","c11","c12","c13","c14","c15"]}}"#,
        texts: &[
            "c0,c1,c2,c3,c4,c5,c6,c7,c8,c9,c10,c11,c12,c13,c14,c15\n\
             0,1,2,3,4,5,6,7,8,9,10,11,12,13,14,15\n\
             0,1,2,3,4,5,6,7,8,9,10,11,12,13,14,x\n\
             0,1,2,3,4,5,6,7,8,9,10,11,12,13,14,15\n",
        ],
        faults: "error,DuplicateKey,1,4,1\n",
    },
    Case {
        about: "A name made from a title, and a virtual column, may be keys.",
        meta: r#"{"@context":"http://www.w3.org/ns/csvw","url":"p.csv","tableSchema":{"columns":[{"titles":"First Name"},
            {"name":"v","virtual":true,"default":"z"}],"primaryKey":["First%20Name","v"]}}"#,
        texts: &["First Name\na\na\n"],
        faults: "error,DuplicateKey,1,3,1\n",
    },
    Case {
        about: "The schema of a group has its keys in each of its tables.",
        meta: r#"{"@context":"http://www.w3.org/ns/csvw","tableSchema":{"columns":[{"name":"k"}],"primaryKey":"k"},
            "tables":[{"url":"a.csv"},{"url":"b.csv"}]}"#,
        texts: &["k\n1\n", "k\n1\n1\n"],
        faults: "error,DuplicateKey,2,3,1\n",
    },
];

/// Whether a run in this order reports exactly the faults of the case.
fn is_told(alloc: Global, case: &Case, order: Order) -> bool {
    match run_in(alloc, case.meta, case.texts, Mode::Validate, order) {
        Ok(ran) => ran.stop.is_none() && is_report(ran.report.as_slice(), case.faults),
        Err(_) => false,
    }
}

#[test]
fn broken_keys_are_told(rt: HostRuntime) {
    let alloc = rt.alloc();
    for case in &CASES {
        assert!(rt; is_told(alloc, case, Order::OneByOne), "{}", case.about);
        assert!(rt; is_told(alloc, case, Order::InTurn), "{}", case.about);
    }
}
