//! Tests of documents with links: the graphs and reports of their tables.
use crate::running::{Ran, is_report, run_over};
use csvw_triples_core::Mode;
use std::alloc::{AllocError, Global};

/// A document, the text of its table, and the expected graph and report.
struct Case {
    /// The document.
    meta: &'static str,
    /// The text of its table.
    text: &'static str,
    /// The graph.
    graph: &'static str,
    /// The lines of the report after its heading.
    faults: &'static str,
}

static CASES: [Case; 14] = [
    // about, property and value links
    Case {
        meta: r##"{"@context":"http://www.w3.org/ns/csvw","url":"p.csv","tableSchema":{"aboutUrl":"#{id}",
            "columns":[{"name":"id"},{"name":"u","propertyUrl":"schema:name","valueUrl":"http://x.org/{+u}"}]}}"##,
        text: "id,u\n7,a b%20|\n",
        graph: concat!(
            "<http://example.org/p.csv#7> <http://example.org/p.csv#id> \"7\" .\n",
            "<http://example.org/p.csv#7> <http://schema.org/name> <http://x.org/a%20b%20%7C> .\n",
        ),
        faults: "",
    },
    // a virtual column after a suppressed one
    Case {
        meta: r##"{"@context":"http://www.w3.org/ns/csvw","url":"p.csv","tableSchema":{"columns":[{"name":"id","suppressOutput":true},
            {"virtual":true,"propertyUrl":"rdf:type","valueUrl":"schema:Person"}]}}"##,
        text: "id\n1\n",
        graph: "_:t1r1s <http://www.w3.org/1999/02/22-rdf-syntax-ns#type> <http://schema.org/Person> .\n",
        faults: "",
    },
    // a link that is not a URL
    Case {
        meta: r##"{"@context":"http://www.w3.org/ns/csvw","url":"p.csv","tableSchema":{"columns":[{"name":"id","valueUrl":"http://[{id}"}]}}"##,
        text: "id\n7\n",
        graph: "_:t1r1s <http://example.org/p.csv#id> \"7\" .\n",
        faults: "error,BadUrl,1,2,1\n",
    },
    // the numbers of a row
    Case {
        meta: r##"{"@context":"http://www.w3.org/ns/csvw","url":"p.csv","tableSchema":{"aboutUrl":"#{_row}-{_sourceRow}","columns":[{"name":"id"}]}}"##,
        text: "id\n7\n",
        graph: "<http://example.org/p.csv#1-2> <http://example.org/p.csv#id> \"7\" .\n",
        faults: "",
    },
    // the numbers of a column
    Case {
        meta: r##"{"@context":"http://www.w3.org/ns/csvw","url":"p.csv","tableSchema":{"columns":[{"name":"id","suppressOutput":true},
            {"virtual":true,"valueUrl":"x{_sourceColumn}{_column}"}]}}"##,
        text: "id\n1\n",
        graph: "_:t1r1s <http://example.org/p.csv#_col.2> <http://example.org/x2> .\n",
        faults: "",
    },
    // no value link for a null cell
    Case {
        meta: r##"{"@context":"http://www.w3.org/ns/csvw","url":"p.csv","tableSchema":{"columns":[{"name":"id"},
            {"name":"u","valueUrl":"http://x.org/{id}"}]}}"##,
        text: "id,u\n1,\n",
        graph: "_:t1r1s <http://example.org/p.csv#id> \"1\" .\n",
        faults: "",
    },
    // a named virtual column is not a mismatch
    Case {
        meta: r##"{"@context":"http://www.w3.org/ns/csvw","url":"p.csv","tableSchema":{"columns":[{"name":"id"},
            {"virtual":true,"name":"t","propertyUrl":"rdf:type","valueUrl":"schema:Person"}]}}"##,
        text: "id\n1\n",
        graph: concat!(
            "_:t1r1s <http://example.org/p.csv#id> \"1\" .\n",
            "_:t1r1s <http://www.w3.org/1999/02/22-rdf-syntax-ns#type> <http://schema.org/Person> .\n",
        ),
        faults: "",
    },
    // a column of a later place, and a list
    Case {
        meta: r##"{"@context":"http://www.w3.org/ns/csvw","url":"p.csv","tableSchema":{"aboutUrl":"#{tags}",
            "columns":[{"name":"id"},{"name":"tags","separator":";"}]}}"##,
        text: "id,tags\n1,a;b\n",
        graph: concat!(
            "<http://example.org/p.csv#a,b> <http://example.org/p.csv#id> \"1\" .\n",
            "<http://example.org/p.csv#a,b> <http://example.org/p.csv#tags> \"a\" .\n",
            "<http://example.org/p.csv#a,b> <http://example.org/p.csv#tags> \"b\" .\n",
        ),
        faults: "",
    },
    // several variables
    Case {
        meta: r##"{"@context":"http://www.w3.org/ns/csvw","url":"p.csv","tableSchema":{"aboutUrl":"#{x,y}","columns":[{"name":"x"},{"name":"y"}]}}"##,
        text: "x,y\n1,\n",
        graph: "<http://example.org/p.csv#1> <http://example.org/p.csv#x> \"1\" .\n",
        faults: "",
    },
    // columns do not override reserved variables
    Case {
        meta: r##"{"@context":"http://www.w3.org/ns/csvw","url":"p.csv","tableSchema":{"aboutUrl":"#{_row}","columns":[{"titles":"_row"}]}}"##,
        text: "_row\nx\n",
        graph: "<http://example.org/p.csv#1> <http://example.org/p.csv#_row> \"x\" .\n",
        faults: "",
    },
    // cells of a row about two things, alternately
    Case {
        meta: r##"{"@context":"http://www.w3.org/ns/csvw","url":"p.csv","tableSchema":{"aboutUrl":"#{id}",
            "columns":[{"name":"id"},{"name":"b","aboutUrl":"#{id}-{_name}"},{"name":"c"}]}}"##,
        text: "id,b,c\n1,x,y\n2,x,y\n",
        graph: concat!(
            "<http://example.org/p.csv#1> <http://example.org/p.csv#id> \"1\" .\n",
            "<http://example.org/p.csv#1-b> <http://example.org/p.csv#b> \"x\" .\n",
            "<http://example.org/p.csv#1> <http://example.org/p.csv#c> \"y\" .\n",
            "<http://example.org/p.csv#2> <http://example.org/p.csv#id> \"2\" .\n",
            "<http://example.org/p.csv#2-b> <http://example.org/p.csv#b> \"x\" .\n",
            "<http://example.org/p.csv#2> <http://example.org/p.csv#c> \"y\" .\n",
        ),
        faults: "",
    },
    // an about link that is not a URL is reported for each cell
    Case {
        meta: r##"{"@context":"http://www.w3.org/ns/csvw","url":"p.csv","tableSchema":{"aboutUrl":"http://[{id}","columns":[{"name":"id"},{"name":"u"}]}}"##,
        text: "id,u\n7,8\n",
        graph: concat!(
            "_:t1r1s <http://example.org/p.csv#id> \"7\" .\n",
            "_:t1r1s <http://example.org/p.csv#u> \"8\" .\n",
        ),
        faults: "error,BadUrl,1,2,1\nerror,BadUrl,1,2,2\n",
    },
    // a suppressed table
    Case {
        meta: r##"{"@context":"http://www.w3.org/ns/csvw","url":"p.csv","suppressOutput":true,
            "tableSchema":{"columns":[{"name":"id","valueUrl":"http://[{id}"}]}}"##,
        text: "id\n7\n",
        graph: "",
        faults: "error,BadUrl,1,2,1\n",
    },
    // the name of a column
    Case {
        meta: r##"{"@context":"http://www.w3.org/ns/csvw","url":"p.csv","dialect":{"header":false},
            "tableSchema":{"columns":[{"name":"First%20Name","valueUrl":"{#_name}"}]}}"##,
        text: "x\n",
        graph: "_:t1r1s <http://example.org/p.csv#First%20Name> <http://example.org/p.csv#First%20Name> .\n",
        faults: "",
    },
];

/// Whether a run in this mode succeeds, and writes this graph and a report of the case's faults.
fn leaves(alloc: Global, case: &Case, mode: Mode, graph: &str) -> bool {
    match run_over(alloc, case.meta, case.text, mode) {
        Ok(ran) => ran.stop.is_none()
            && ran.graph.as_slice() == graph.as_bytes()
            && is_report(ran.report.as_slice(), case.faults),
        Err(_) => false,
    }
}

#[test]
fn links_stand_in_the_graph(rt: HostRuntime) {
    let alloc = rt.alloc();
    for case in &CASES {
        assert!(rt;
            leaves(alloc, case, Mode::Minimal, case.graph),
            "{}",
            case.meta
        );
        assert!(rt; leaves(alloc, case, Mode::Validate, ""), "{}", case.meta);
    }
}

/// Returns this text, one letter repeated so often, and this text.
fn around(alloc: Global, front: &str, count: usize, back: &str) -> Result<String, AllocError> {
    let mut text = String::from_str(alloc, front)?;
    for _ in 0..count {
        text.push('a')?;
    }
    text.push_str(back)?;
    Ok(text)
}

/// Returns the graph and the faults of the table whose cell is one letter, repeated so often.
fn told(alloc: Global, count: usize) -> Result<Ran, AllocError> {
    let meta =
        r#"{"@context":"http://www.w3.org/ns/csvw","url":"p.csv","tableSchema":{"columns":[{"name":"id","valueUrl":"{id}"}]}}"#;
    let text = around(alloc, "id\n", count, "\n")?;
    run_over(alloc, meta, text.as_str(), Mode::Minimal)
}

/// Whether a run over that table leaves this object, whose letters are repeated so often, and these faults.
fn links_so(
    alloc: Global,
    count: usize,
    open: &str,
    close: &str,
    faults: &str,
) -> Result<bool, AllocError> {
    let expected = around(alloc, open, count, close)?;
    let ran = told(alloc, count)?;
    Ok(ran.graph.as_slice() == expected.as_bytes() && is_report(ran.report.as_slice(), faults))
}

#[test]
fn long_links_are_told(rt: HostRuntime) {
    let alloc = rt.alloc();
    let literal = "_:t1r1s <http://example.org/p.csv#id> \"";
    let too_long = links_so(alloc, 65537, literal, "\" .\n", "error,UrlTooLong,1,2,1\n");
    assert!(rt; too_long == Ok(true));
    let link = "_:t1r1s <http://example.org/p.csv#id> <http://example.org/";
    assert!(rt; links_so(alloc, 65536, link, "> .\n", "") == Ok(true));
}
