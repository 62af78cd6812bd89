//! Groups of tables: documents, texts, and their graphs and reports.

use crate::runs::{AMPLE, Case, End, each_leaves};
use csvw_engine::{MetaCode, TableStop};
use csvw_rows::RowStop;
use csvw_triples_core::Mode;

const PLAIN: &str = r#"{"@context":"http://www.w3.org/ns/csvw","url":"p.csv"}"#;

const TWO_TABLES: &str = r#"{"@context":"http://www.w3.org/ns/csvw","tables":[
{"url":"stations.csv","tableSchema":{"columns":[
{"name":"station","titles":"Station","required":true},
{"name":"river","titles":"River","lang":"de"},
{"name":"towns","titles":"Towns","separator":";"}]}},
{"url":"levels.csv","dialect":{"delimiter":";"},"null":"-","tableSchema":{"columns":[
{"titles":"station"},{"titles":"day"},{"titles":"level"}]}}]}"#;

static CASES: [Case; 8] = [
    Case {
        meta: PLAIN,
        texts: &[b"id,name\n1,Ann\n"],
        end: End::Report,
        graph: "_:t1r1s <http://example.org/p.csv#id> \"1\" .\n_:t1r1s <http://example.org/p.csv#name> \"Ann\" .\n",
        faults: "",
    },
    Case {
        meta: r#"{"@context":"http://www.w3.org/ns/csvw","url":"p.csv","tableSchema":{"columns":[{"name":"id"},{"name":"name"}]}}"#,
        texts: &[b""],
        end: End::Report,
        graph: "",
        faults: "error,HeaderMissing,1,0,0\n",
    },
    Case {
        meta: PLAIN,
        texts: &[b""],
        end: End::Report,
        graph: "",
        faults: "error,HeaderMissing,1,0,0\n",
    },
    Case {
        meta: r#"{"@context":"http://www.w3.org/ns/csvw","url":"p.csv","tableSchema":{"columns":[{"name":"v","separator":";","ordered":true,
            "required":true}]}}"#,
        texts: &[b"v\nb;a;b\n\n"],
        end: End::Report,
        graph: concat!(
            "_:t1r1s <http://example.org/p.csv#v> _:t1r1c1i1 .\n",
            "_:t1r1c1i1 <http://www.w3.org/1999/02/22-rdf-syntax-ns#first> \"b\" .\n",
            "_:t1r1c1i1 <http://www.w3.org/1999/02/22-rdf-syntax-ns#rest> _:t1r1c1i2 .\n",
            "_:t1r1c1i2 <http://www.w3.org/1999/02/22-rdf-syntax-ns#first> \"a\" .\n",
            "_:t1r1c1i2 <http://www.w3.org/1999/02/22-rdf-syntax-ns#rest> _:t1r1c1i3 .\n",
            "_:t1r1c1i3 <http://www.w3.org/1999/02/22-rdf-syntax-ns#first> \"b\" .\n",
            "_:t1r1c1i3 <http://www.w3.org/1999/02/22-rdf-syntax-ns#rest> <http://www.w3.org/1999/02/22-rdf-syntax-ns#nil> .\n",
            "_:t1r2s <http://example.org/p.csv#v> <http://www.w3.org/1999/02/22-rdf-syntax-ns#nil> .\n",
        ),
        faults: "error,Required,1,3,1\n",
    },
    Case {
        meta: r#"{"@context":"http://www.w3.org/ns/csvw","url":"p.csv","tableSchema":{"columns":[{"titles":"Id"},{"name":"n"}]}}"#,
        texts: &[b"ID,n\n"],
        end: End::Report,
        graph: "",
        faults: "error,HeaderMismatch,1,1,1\n",
    },
    Case {
        meta: r#"{"@context":"http://www.w3.org/ns/csvw","url":"p.csv","tableSchema":{"columns":[{"titles":"Id"},{"name":"n"}]}}"#,
        texts: &[b"Id,n,x\n1,2\n"],
        end: End::Report,
        graph: "_:t1r1s <http://example.org/p.csv#Id> \"1\" .\n_:t1r1s <http://example.org/p.csv#n> \"2\" .\n",
        faults: "error,HeaderCount,1,1,0\n",
    },
    Case {
        meta: r#"{"@context":"http://www.w3.org/ns/csvw","url":"p.csv","foo":1}"#,
        texts: &[b"id\n"],
        end: End::Report,
        graph: "",
        faults: "warning,UnknownProperty,1,0,0\n",
    },
    Case {
        meta: TWO_TABLES,
        texts: &[
            b"Station,River,Towns\nBS,Rhein,Basel;Birsfelden\n",
            b"station;day;level\nBS;2024-05-01;612\nBS;2024-05-02;-\n",
        ],
        end: End::Report,
        graph: concat!(
            "_:t1r1s <http://example.org/stations.csv#station> \"BS\" .\n",
            "_:t1r1s <http://example.org/stations.csv#river> \"Rhein\"@de .\n",
            "_:t1r1s <http://example.org/stations.csv#towns> \"Basel\" .\n",
            "_:t1r1s <http://example.org/stations.csv#towns> \"Birsfelden\" .\n",
            "_:t2r1s <http://example.org/levels.csv#station> \"BS\" .\n",
            "_:t2r1s <http://example.org/levels.csv#day> \"2024-05-01\" .\n",
            "_:t2r1s <http://example.org/levels.csv#level> \"612\" .\n",
            "_:t2r2s <http://example.org/levels.csv#station> \"BS\" .\n",
            "_:t2r2s <http://example.org/levels.csv#day> \"2024-05-02\" .\n",
        ),
        faults: "",
    },
];

/// Documents that are refused, and texts at which a run stops after the rows before.
static STOPS: [Case; 6] = [
    Case {
        meta: "{",
        texts: &[b""],
        end: End::Meta(MetaCode::NotJson, ""),
        graph: "",
        faults: "",
    },
    Case {
        meta: r#"{"@context":"http://www.w3.org/ns/csvw","url":"p.csv","@id":"_:x"}"#,
        texts: &[b""],
        end: End::Meta(MetaCode::BadId, "/@id"),
        graph: "",
        faults: "",
    },
    Case {
        meta: PLAIN,
        texts: &[b"id\n", b"id\n"],
        end: End::TableCount,
        graph: "",
        faults: "",
    },
    // a ragged row after another row
    Case {
        meta: PLAIN,
        texts: &[b"id\n1\n2,3\n"],
        end: End::Table(3, TableStop::RaggedRow),
        graph: "_:t1r1s <http://example.org/p.csv#id> \"1\" .\n",
        faults: "",
    },
    // a name that occurs twice
    Case {
        meta: PLAIN,
        texts: &[b"a,a\n"],
        end: End::Table(1, TableStop::DuplicateName),
        graph: "",
        faults: "",
    },
    // a quote that is not closed
    Case {
        meta: PLAIN,
        texts: &[b"x\n\"a"],
        end: End::Rows(2, RowStop::UnclosedQuote),
        graph: "",
        faults: "",
    },
];

#[test]
fn groups_give_graphs_and_reports(rt: HostRuntime) {
    each_leaves(&rt, rt.alloc(), &CASES, Mode::Minimal, AMPLE);
    each_leaves(&rt, rt.alloc(), &CASES, Mode::Validate, 0);
}

#[test]
fn stops_are_told_behind_the_rows_in_front(rt: HostRuntime) {
    each_leaves(&rt, rt.alloc(), &STOPS, Mode::Minimal, AMPLE);
}
