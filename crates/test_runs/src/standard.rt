//! The triples of groups, tables and rows in standard mode, by whole runs.

use crate::runs::{AMPLE, Case, End, each_leaves, leaves};
use csvw_triples_core::Mode;

static CASES: [Case; 7] = [
    // a header alone
    Case {
        meta: r#"{"@context":"http://www.w3.org/ns/csvw","url":"p.csv"}"#,
        texts: &[b"id\n"],
        end: End::Report,
        graph: concat!(
            "_:g <http://www.w3.org/1999/02/22-rdf-syntax-ns#type> <http://www.w3.org/ns/csvw#TableGroup> .\n",
            "_:g <http://www.w3.org/ns/csvw#table> _:t1 .\n",
            "_:t1 <http://www.w3.org/1999/02/22-rdf-syntax-ns#type> <http://www.w3.org/ns/csvw#Table> .\n",
            "_:t1 <http://www.w3.org/ns/csvw#url> <http://example.org/p.csv> .\n",
        ),
        faults: "",
    },
    // comments and blank rows count in the row's address
    Case {
        meta: r#"{"@context":"http://www.w3.org/ns/csvw","url":"p.csv","dialect":{"skipBlankRows":true}}"#,
        texts: &[b"#note\nid\n\n7\n"],
        end: End::Report,
        graph: concat!(
            "_:g <http://www.w3.org/1999/02/22-rdf-syntax-ns#type> <http://www.w3.org/ns/csvw#TableGroup> .\n",
            "_:g <http://www.w3.org/ns/csvw#table> _:t1 .\n",
            "_:t1 <http://www.w3.org/1999/02/22-rdf-syntax-ns#type> <http://www.w3.org/ns/csvw#Table> .\n",
            "_:t1 <http://www.w3.org/ns/csvw#url> <http://example.org/p.csv> .\n",
            "_:t1 <http://www.w3.org/ns/csvw#row> _:t1r1 .\n",
            "_:t1r1 <http://www.w3.org/1999/02/22-rdf-syntax-ns#type> <http://www.w3.org/ns/csvw#Row> .\n",
            "_:t1r1 <http://www.w3.org/ns/csvw#rownum> \"1\"^^<http://www.w3.org/2001/XMLSchema#integer> .\n",
            "_:t1r1 <http://www.w3.org/ns/csvw#url> <http://example.org/p.csv#row=4> .\n",
            "_:t1r1 <http://www.w3.org/ns/csvw#describes> _:t1r1s .\n",
            "_:t1r1s <http://example.org/p.csv#id> \"7\" .\n",
        ),
        faults: "",
    },
    // a subject between two others is described each time
    Case {
        meta: r##"{"@context":"http://www.w3.org/ns/csvw","url":"p.csv","tableSchema":{"columns":[{"name":"a"},{"name":"b","aboutUrl":"#x"},{"name":"c"}]}}"##,
        texts: &[b"a,b,c\n1,2,3\n"],
        end: End::Report,
        graph: concat!(
            "_:g <http://www.w3.org/1999/02/22-rdf-syntax-ns#type> <http://www.w3.org/ns/csvw#TableGroup> .\n",
            "_:g <http://www.w3.org/ns/csvw#table> _:t1 .\n",
            "_:t1 <http://www.w3.org/1999/02/22-rdf-syntax-ns#type> <http://www.w3.org/ns/csvw#Table> .\n",
            "_:t1 <http://www.w3.org/ns/csvw#url> <http://example.org/p.csv> .\n",
            "_:t1 <http://www.w3.org/ns/csvw#row> _:t1r1 .\n",
            "_:t1r1 <http://www.w3.org/1999/02/22-rdf-syntax-ns#type> <http://www.w3.org/ns/csvw#Row> .\n",
            "_:t1r1 <http://www.w3.org/ns/csvw#rownum> \"1\"^^<http://www.w3.org/2001/XMLSchema#integer> .\n",
            "_:t1r1 <http://www.w3.org/ns/csvw#url> <http://example.org/p.csv#row=2> .\n",
            "_:t1r1 <http://www.w3.org/ns/csvw#describes> _:t1r1s .\n",
            "_:t1r1s <http://example.org/p.csv#a> \"1\" .\n",
            "_:t1r1 <http://www.w3.org/ns/csvw#describes> <http://example.org/p.csv#x> .\n",
            "<http://example.org/p.csv#x> <http://example.org/p.csv#b> \"2\" .\n",
            "_:t1r1 <http://www.w3.org/ns/csvw#describes> _:t1r1s .\n",
            "_:t1r1s <http://example.org/p.csv#c> \"3\" .\n",
        ),
        faults: "",
    },
    // a named group with a suppressed table
    Case {
        meta: r#"{"@context":"http://www.w3.org/ns/csvw","@id":"g1","tables":[{"url":"a.csv","suppressOutput":true},{"url":"b.csv"}]}"#,
        texts: &[b"k\n", b"k\n"],
        end: End::Report,
        graph: concat!(
            "<http://example.org/g1> <http://www.w3.org/1999/02/22-rdf-syntax-ns#type> <http://www.w3.org/ns/csvw#TableGroup> .\n",
            "<http://example.org/g1> <http://www.w3.org/ns/csvw#table> _:t2 .\n",
            "_:t2 <http://www.w3.org/1999/02/22-rdf-syntax-ns#type> <http://www.w3.org/ns/csvw#Table> .\n",
            "_:t2 <http://www.w3.org/ns/csvw#url> <http://example.org/b.csv> .\n",
        ),
        faults: "",
    },
    // named tables
    Case {
        meta: r#"{"@context":"http://www.w3.org/ns/csvw","tables":[{"url":"a.csv","@id":"a"},{"url":"b.csv","@id":"b"}]}"#,
        texts: &[b"k\n1\n", b"k\n2\n"],
        end: End::Report,
        graph: concat!(
            "_:g <http://www.w3.org/1999/02/22-rdf-syntax-ns#type> <http://www.w3.org/ns/csvw#TableGroup> .\n",
            "_:g <http://www.w3.org/ns/csvw#table> <http://example.org/a> .\n",
            "<http://example.org/a> <http://www.w3.org/1999/02/22-rdf-syntax-ns#type> <http://www.w3.org/ns/csvw#Table> .\n",
            "<http://example.org/a> <http://www.w3.org/ns/csvw#url> <http://example.org/a.csv> .\n",
            "_:g <http://www.w3.org/ns/csvw#table> <http://example.org/b> .\n",
            "<http://example.org/b> <http://www.w3.org/1999/02/22-rdf-syntax-ns#type> <http://www.w3.org/ns/csvw#Table> .\n",
            "<http://example.org/b> <http://www.w3.org/ns/csvw#url> <http://example.org/b.csv> .\n",
            "<http://example.org/a> <http://www.w3.org/ns/csvw#row> _:t1r1 .\n",
            "_:t1r1 <http://www.w3.org/1999/02/22-rdf-syntax-ns#type> <http://www.w3.org/ns/csvw#Row> .\n",
            "_:t1r1 <http://www.w3.org/ns/csvw#rownum> \"1\"^^<http://www.w3.org/2001/XMLSchema#integer> .\n",
            "_:t1r1 <http://www.w3.org/ns/csvw#url> <http://example.org/a.csv#row=2> .\n",
            "_:t1r1 <http://www.w3.org/ns/csvw#describes> _:t1r1s .\n",
            "_:t1r1s <http://example.org/a.csv#k> \"1\" .\n",
            "<http://example.org/b> <http://www.w3.org/ns/csvw#row> _:t2r1 .\n",
            "_:t2r1 <http://www.w3.org/1999/02/22-rdf-syntax-ns#type> <http://www.w3.org/ns/csvw#Row> .\n",
            "_:t2r1 <http://www.w3.org/ns/csvw#rownum> \"1\"^^<http://www.w3.org/2001/XMLSchema#integer> .\n",
            "_:t2r1 <http://www.w3.org/ns/csvw#url> <http://example.org/b.csv#row=2> .\n",
            "_:t2r1 <http://www.w3.org/ns/csvw#describes> _:t2r1s .\n",
            "_:t2r1s <http://example.org/b.csv#k> \"2\" .\n",
        ),
        faults: "",
    },
    // a null cell is described
    Case {
        meta: r#"{"@context":"http://www.w3.org/ns/csvw","url":"p.csv","tableSchema":{"columns":[{"name":"n","datatype":"integer",
            "null":["","NA"],"default":"0"}]}}"#,
        texts: &[b"n\n\nNA\n"],
        end: End::Report,
        graph: concat!(
            "_:g <http://www.w3.org/1999/02/22-rdf-syntax-ns#type> <http://www.w3.org/ns/csvw#TableGroup> .\n",
            "_:g <http://www.w3.org/ns/csvw#table> _:t1 .\n",
            "_:t1 <http://www.w3.org/1999/02/22-rdf-syntax-ns#type> <http://www.w3.org/ns/csvw#Table> .\n",
            "_:t1 <http://www.w3.org/ns/csvw#url> <http://example.org/p.csv> .\n",
            "_:t1 <http://www.w3.org/ns/csvw#row> _:t1r1 .\n",
            "_:t1r1 <http://www.w3.org/1999/02/22-rdf-syntax-ns#type> <http://www.w3.org/ns/csvw#Row> .\n",
            "_:t1r1 <http://www.w3.org/ns/csvw#rownum> \"1\"^^<http://www.w3.org/2001/XMLSchema#integer> .\n",
            "_:t1r1 <http://www.w3.org/ns/csvw#url> <http://example.org/p.csv#row=2> .\n",
            "_:t1r1 <http://www.w3.org/ns/csvw#describes> _:t1r1s .\n",
            "_:t1r1s <http://example.org/p.csv#n> \"0\"^^<http://www.w3.org/2001/XMLSchema#integer> .\n",
            "_:t1 <http://www.w3.org/ns/csvw#row> _:t1r2 .\n",
            "_:t1r2 <http://www.w3.org/1999/02/22-rdf-syntax-ns#type> <http://www.w3.org/ns/csvw#Row> .\n",
            "_:t1r2 <http://www.w3.org/ns/csvw#rownum> \"2\"^^<http://www.w3.org/2001/XMLSchema#integer> .\n",
            "_:t1r2 <http://www.w3.org/ns/csvw#url> <http://example.org/p.csv#row=3> .\n",
            "_:t1r2 <http://www.w3.org/ns/csvw#describes> _:t1r2s .\n",
        ),
        faults: "",
    },
    // an empty cell has the default as its value, and a null cell has none
    Case {
        meta: r#"{"@context":"http://www.w3.org/ns/csvw","url":"p.csv","tableSchema":{"columns":[{"name":"n","datatype":"integer","null":["","NA"],"default":"0"}]}}"#,
        texts: &[b"n\n\nNA\n"],
        end: End::Report,
        graph: concat!(
            "_:g <http://www.w3.org/1999/02/22-rdf-syntax-ns#type> <http://www.w3.org/ns/csvw#TableGroup> .\n",
            "_:g <http://www.w3.org/ns/csvw#table> _:t1 .\n",
            "_:t1 <http://www.w3.org/1999/02/22-rdf-syntax-ns#type> <http://www.w3.org/ns/csvw#Table> .\n",
            "_:t1 <http://www.w3.org/ns/csvw#url> <http://example.org/p.csv> .\n",
            "_:t1 <http://www.w3.org/ns/csvw#row> _:t1r1 .\n",
            "_:t1r1 <http://www.w3.org/1999/02/22-rdf-syntax-ns#type> <http://www.w3.org/ns/csvw#Row> .\n",
            "_:t1r1 <http://www.w3.org/ns/csvw#rownum> \"1\"^^<http://www.w3.org/2001/XMLSchema#integer> .\n",
            "_:t1r1 <http://www.w3.org/ns/csvw#url> <http://example.org/p.csv#row=2> .\n",
            "_:t1r1 <http://www.w3.org/ns/csvw#describes> _:t1r1s .\n",
            "_:t1r1s <http://example.org/p.csv#n> \"0\"^^<http://www.w3.org/2001/XMLSchema#integer> .\n",
            "_:t1 <http://www.w3.org/ns/csvw#row> _:t1r2 .\n",
            "_:t1r2 <http://www.w3.org/1999/02/22-rdf-syntax-ns#type> <http://www.w3.org/ns/csvw#Row> .\n",
            "_:t1r2 <http://www.w3.org/ns/csvw#rownum> \"2\"^^<http://www.w3.org/2001/XMLSchema#integer> .\n",
            "_:t1r2 <http://www.w3.org/ns/csvw#url> <http://example.org/p.csv#row=3> .\n",
            "_:t1r2 <http://www.w3.org/ns/csvw#describes> _:t1r2s .\n",
        ),
        faults: "",
    },
];

#[test]
fn groups_tables_and_rows_are_told_of(rt: HostRuntime) {
    each_leaves(&rt, rt.alloc(), &CASES, Mode::Standard, AMPLE);
}

#[test]
fn validation_writes_no_graph(rt: HostRuntime) {
    each_leaves(&rt, rt.alloc(), &CASES, Mode::Validate, 0);
}

#[test]
fn a_full_writer_has_a_front_of_the_graph(rt: HostRuntime) {
    let alloc = rt.alloc();
    // at once, within the opening, and within the row
    for room in [0, 150, 600] {
        assert!(rt;
            leaves(alloc, &CASES[1], Mode::Standard, room, End::Write),
            "{room}"
        );
    }
}
