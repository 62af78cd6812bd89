//! Small groups of tables, one for each rule: escapes, stops, dialects, names and languages.

use crate::runs::{AMPLE, Case, End, each_leaves};
use csvw_engine::{MetaCode, TableStop, plain, run};
use csvw_rows::RowStop;
use csvw_text::Counted;
use csvw_triples_core::Mode;
use std::alloc::Global;
use std::io::Read;
use std::process::Abort;

/// The document of one table without metadata of its own.
const PLAIN: &str = r#"{"@context":"http://www.w3.org/ns/csvw","url":"p.csv"}"#;

static GRAPHS: [Case; 7] = [
    // quotes and a line break in quotes
    Case {
        meta: PLAIN,
        texts: &[b"a,b\n\"p\"\"q\",\"x\ny\"\n"],
        end: End::Report,
        graph: "_:t1r1s <http://example.org/p.csv#a> \"p\\\"q\" .\n_:t1r1s <http://example.org/p.csv#b> \"x\\ny\" .\n",
        faults: "",
    },
    // a character of the URL that is not allowed in an IRI
    Case {
        meta: r#"{"@context":"http://www.w3.org/ns/csvw","url":"p|q.csv"}"#,
        texts: &[b"id\n7\n"],
        end: End::Report,
        graph: "_:t1r1s <http://example.org/p%7Cq.csv#id> \"7\" .\n",
        faults: "",
    },
    // a quoted field after a space that is skipped
    Case {
        meta: r#"{"@context":"http://www.w3.org/ns/csvw","url":"p.csv","dialect":{"skipInitialSpace":true}}"#,
        texts: &[b"id, n\n1, \"x\"\n"],
        end: End::Report,
        graph: "_:t1r1s <http://example.org/p.csv#id> \"1\" .\n_:t1r1s <http://example.org/p.csv#n> \"x\" .\n",
        faults: "",
    },
    // a quote in a skipped row
    Case {
        meta: r#"{"@context":"http://www.w3.org/ns/csvw","url":"p.csv","dialect":{"skipRows":1}}"#,
        texts: &[b"\"x\nh\n1\n"],
        end: End::Report,
        graph: "_:t1r1s <http://example.org/p.csv#h> \"1\" .\n",
        faults: "",
    },
    // the language of the schema, in place of that of the table, and that of a column
    Case {
        meta: r#"{"@context":"http://www.w3.org/ns/csvw","url":"p.csv","lang":"de","tableSchema":{"lang":"fr","columns":[
{"name":"a"},{"name":"b","lang":"it"}]}}"#,
        texts: &[b"a,b\nx,y\n"],
        end: End::Report,
        graph: "_:t1r1s <http://example.org/p.csv#a> \"x\"@fr .\n_:t1r1s <http://example.org/p.csv#b> \"y\"@it .\n",
        faults: "",
    },
    // the language of the table
    Case {
        meta: r#"{"@context":"http://www.w3.org/ns/csvw","url":"p.csv","lang":"de","tableSchema":{"columns":[{"name":"a"}]}}"#,
        texts: &[b"a\nx\n"],
        end: End::Report,
        graph: "_:t1r1s <http://example.org/p.csv#a> \"x\"@de .\n",
        faults: "",
    },
    // a name that is made from a title
    Case {
        meta: r#"{"@context":"http://www.w3.org/ns/csvw","url":"p.csv","tableSchema":{"columns":[{"titles":"First Name"}]}}"#,
        texts: &[b"First Name\nAnn\n"],
        end: End::Report,
        graph: "_:t1r1s <http://example.org/p.csv#First%20Name> \"Ann\" .\n",
        faults: "",
    },
];

static STOPS: [Case; 10] = [
    // a quote in a field without quotes
    Case {
        meta: PLAIN,
        texts: &[b"a\"b,c\n"],
        end: End::Rows(1, RowStop::BadQuote),
        graph: "",
        faults: "",
    },
    // text after a closing quote
    Case {
        meta: PLAIN,
        texts: &[b"\"a\"b\n"],
        end: End::Rows(1, RowStop::TextAfterQuote),
        graph: "",
        faults: "",
    },
    // a quote that is not closed
    Case {
        meta: PLAIN,
        texts: &[b"x\n\"a"],
        end: End::Rows(2, RowStop::UnclosedQuote),
        graph: "",
        faults: "",
    },
    // bytes that are no text
    Case {
        meta: PLAIN,
        texts: &[b"x\n\xff"],
        end: End::Rows(2, RowStop::NotUtf8),
        graph: "",
        faults: "",
    },
    // a ragged row after another row
    Case {
        meta: PLAIN,
        texts: &[b"id\n1\n2,3\n"],
        end: End::Table(3, TableStop::RaggedRow),
        graph: "_:t1r1s <http://example.org/p.csv#id> \"1\" .\n",
        faults: "",
    },
    // a bound that is a number with a fraction, and not a text
    Case {
        meta: r#"{"@context":"http://www.w3.org/ns/csvw","url":"p.csv","tableSchema":{"columns":[
{"name":"id","datatype":{"base":"decimal","format":{"decimalChar":"."},"maximum":1.5}}]}}"#,
        texts: &[b"id\n"],
        end: End::Meta(
            MetaCode::NotSupported,
            "/tableSchema/columns/0/datatype/maximum",
        ),
        graph: "",
        faults: "",
    },
    // a blank node as the name of a table
    Case {
        meta: r#"{"@context":"http://www.w3.org/ns/csvw","url":"p.csv","@id":"_:x"}"#,
        texts: &[b"id\n"],
        end: End::Meta(MetaCode::BadId, "/@id"),
        graph: "",
        faults: "",
    },
    // a schema in a file of its own
    Case {
        meta: r#"{"@context":"http://www.w3.org/ns/csvw","url":"p.csv","tableSchema":"s.json"}"#,
        texts: &[b"id\n"],
        end: End::Meta(MetaCode::NotSupported, "/tableSchema"),
        graph: "",
        faults: "",
    },
    // two tables of one URL
    Case {
        meta: r#"{"@context":"http://www.w3.org/ns/csvw","tables":[{"url":"a.csv"},{"url":"a.csv"}]}"#,
        texts: &[b"id\n", b"id\n"],
        end: End::Meta(MetaCode::DuplicateTable, "/tables/1/url"),
        graph: "",
        faults: "",
    },
    // two columns of one name
    Case {
        meta: r#"{"@context":"http://www.w3.org/ns/csvw","url":"p.csv","tableSchema":{"columns":[{"name":"n"},{"name":"n"}]}}"#,
        texts: &[b"n,n\n"],
        end: End::Meta(MetaCode::DuplicateName, "/tableSchema/columns/1"),
        graph: "",
        faults: "",
    },
];

#[test]
fn small_groups_have_these_graphs(rt: HostRuntime) {
    each_leaves(&rt, rt.alloc(), &GRAPHS, Mode::Minimal, AMPLE);
    each_leaves(&rt, rt.alloc(), &GRAPHS, Mode::Validate, 0);
}

#[test]
fn small_groups_stop_so(rt: HostRuntime) {
    each_leaves(&rt, rt.alloc(), &STOPS, Mode::Minimal, AMPLE);
}

/// Texts of one table, and their graphs.
static CUT: [(&[u8], &str); 4] = [
    (
        b"id\r\n7\r\n",
        "_:t1r1s <http://example.org/p.csv#id> \"7\" .\n",
    ),
    // a carriage return that begins no terminator
    (
        b"id\n7\r",
        "_:t1r1s <http://example.org/p.csv#id> \"7\\r\" .\n",
    ),
    // a character of two bytes
    (
        b"id\n\xc3\xa9\n",
        "_:t1r1s <http://example.org/p.csv#id> \"é\" .\n",
    ),
    // a quote that is doubled
    (
        b"id\n\"a\"\"b\"\n",
        "_:t1r1s <http://example.org/p.csv#id> \"a\\\"b\" .\n",
    ),
];

/// Returns whether a run over a text that comes in two pieces leaves this graph, by a document and by a URL alone.
fn joins(alloc: Global, first: &'static [u8], rest: &'static [u8], graph: &str) -> bool {
    joins_by_document(alloc, first, rest, graph) && joins_by_url(alloc, first, rest, graph)
}

/// Returns whether a run with a document over a text that comes in two pieces leaves this graph.
fn joins_by_document(
    alloc: Global,
    first: &'static [u8],
    rest: &'static [u8],
    graph: &str,
) -> bool {
    let mut readers = [Counted::new(first.chain(rest))];
    let mut out = Counted::new(Vec::new(alloc));
    let mut report = Counted::new(Vec::new(alloc));
    let meta = PLAIN.as_bytes();
    let base = "http://example.org/";
    let mode = Mode::Minimal;
    let ran = run(alloc, meta, base, &mut readers, mode, &mut out, &mut report);
    ran.is_ok() && out.into_inner().as_slice() == graph.as_bytes()
}

/// Returns whether a run with a URL alone over a text that comes in two pieces leaves this graph.
fn joins_by_url(alloc: Global, first: &'static [u8], rest: &'static [u8], graph: &str) -> bool {
    let mut input = Counted::new(first.chain(rest));
    let mut out = Counted::new(Vec::new(alloc));
    let mut report = Counted::new(Vec::new(alloc));
    let url = "http://example.org/p.csv";
    let ran = plain(alloc, url, &mut input, &mut out, &mut report);
    ran.is_ok() && out.into_inner().as_slice() == graph.as_bytes()
}

/// Returns whether a text leaves this graph at each of its cuts.
fn joins_at_each(alloc: Global, text: &'static [u8], graph: &str) -> bool {
    for at in 0..text.len() {
        let (first, rest) = text.split_at(at);
        if !joins(alloc, first, rest, graph) {
            return false;
        }
    }
    true
}

#[test]
fn texts_in_two_pieces_have_the_same_graph(rt: HostRuntime) {
    let alloc = rt.alloc();
    for (text, graph) in CUT {
        assert!(rt; joins_at_each(alloc, text, graph), "{graph}");
    }
}
