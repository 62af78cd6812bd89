//! The groups of tables over which readers and writers fail.

use crate::devices::{Case, Row, Table};
use csvw_triples_core::Mode;

/// The groups. The first one is one table.
pub(crate) static CASES: [Case; 6] = [
    Case {
        what: "a plain table of one row",
        meta: r#"{"@context":"http://www.w3.org/ns/csvw","url":"p.csv"}"#,
        mode: Mode::Minimal,
        opening: "",
        tables: &[Table {
            text: b"id,name\n1,Ann\n",
            rows: &[Row {
                at: 14,
                lines: "_:t1r1s <http://example.org/p.csv#id> \"1\" .\n_:t1r1s <http://example.org/p.csv#name> \"Ann\" .\n",
            }],
        }],
        faults: "",
    },
    Case {
        what: "two tables with keys",
        meta: KEYS,
        mode: Mode::Minimal,
        opening: "",
        tables: &[
            Table {
                text: b"ref\n9\n1\n2\n\n",
                rows: &[
                    Row {
                        at: 6,
                        lines: "_:t1r1s <http://example.org/a.csv#ref> \"9\"^^<http://www.w3.org/2001/XMLSchema#integer> .\n",
                    },
                    Row {
                        at: 8,
                        lines: "_:t1r2s <http://example.org/a.csv#ref> \"1\"^^<http://www.w3.org/2001/XMLSchema#integer> .\n",
                    },
                    Row {
                        at: 10,
                        lines: "_:t1r3s <http://example.org/a.csv#ref> \"2\"^^<http://www.w3.org/2001/XMLSchema#integer> .\n",
                    },
                ],
            },
            Table {
                text: b"k\n1\n01\n2\n",
                rows: &[
                    Row {
                        at: 4,
                        lines: "_:t2r1s <http://example.org/b.csv#k> \"1\"^^<http://www.w3.org/2001/XMLSchema#integer> .\n",
                    },
                    Row {
                        at: 7,
                        lines: "_:t2r2s <http://example.org/b.csv#k> \"1\"^^<http://www.w3.org/2001/XMLSchema#integer> .\n",
                    },
                    Row {
                        at: 9,
                        lines: "_:t2r3s <http://example.org/b.csv#k> \"2\"^^<http://www.w3.org/2001/XMLSchema#integer> .\n",
                    },
                ],
            },
        ],
        faults: "error,NoReferencedRow,1,2,1\nerror,ManyReferencedRows,1,3,1\nerror,DuplicateKey,2,3,1\n",
    },
    Case {
        what: "ordered lists",
        meta: r#"{"@context":"http://www.w3.org/ns/csvw","url":"p.csv","tableSchema":{"columns":[
{"name":"v","separator":";","ordered":true,"required":true}]}}"#,
        mode: Mode::Minimal,
        opening: "",
        tables: &[Table {
            text: b"v\nb;a;b\n\n",
            rows: &[
                Row {
                    at: 8,
                    lines: concat!(
                        "_:t1r1s <http://example.org/p.csv#v> _:t1r1c1i1 .\n",
                        "_:t1r1c1i1 <http://www.w3.org/1999/02/22-rdf-syntax-ns#first> \"b\" .\n",
                        "_:t1r1c1i1 <http://www.w3.org/1999/02/22-rdf-syntax-ns#rest> _:t1r1c1i2 .\n",
                        "_:t1r1c1i2 <http://www.w3.org/1999/02/22-rdf-syntax-ns#first> \"a\" .\n",
                        "_:t1r1c1i2 <http://www.w3.org/1999/02/22-rdf-syntax-ns#rest> _:t1r1c1i3 .\n",
                        "_:t1r1c1i3 <http://www.w3.org/1999/02/22-rdf-syntax-ns#first> \"b\" .\n",
                        "_:t1r1c1i3 <http://www.w3.org/1999/02/22-rdf-syntax-ns#rest> <http://www.w3.org/1999/02/22-rdf-syntax-ns#nil> .\n",
                    ),
                },
                Row {
                    at: 9,
                    lines: "_:t1r2s <http://example.org/p.csv#v> <http://www.w3.org/1999/02/22-rdf-syntax-ns#nil> .\n",
                },
            ],
        }],
        faults: "error,Required,1,3,1\n",
    },
    Case {
        what: "standard mode, with skipped rows",
        meta: r#"{"@context":"http://www.w3.org/ns/csvw","url":"p.csv","dialect":{"skipBlankRows":true}}"#,
        mode: Mode::Standard,
        opening: concat!(
            "_:g <http://www.w3.org/1999/02/22-rdf-syntax-ns#type> <http://www.w3.org/ns/csvw#TableGroup> .\n",
            "_:g <http://www.w3.org/ns/csvw#table> _:t1 .\n",
            "_:t1 <http://www.w3.org/1999/02/22-rdf-syntax-ns#type> <http://www.w3.org/ns/csvw#Table> .\n",
            "_:t1 <http://www.w3.org/ns/csvw#url> <http://example.org/p.csv> .\n",
        ),
        tables: &[Table {
            text: b"#note\nid\n\n7\n",
            rows: &[Row {
                at: 12,
                lines: concat!(
                    "_:t1 <http://www.w3.org/ns/csvw#row> _:t1r1 .\n",
                    "_:t1r1 <http://www.w3.org/1999/02/22-rdf-syntax-ns#type> <http://www.w3.org/ns/csvw#Row> .\n",
                    "_:t1r1 <http://www.w3.org/ns/csvw#rownum> \"1\"^^<http://www.w3.org/2001/XMLSchema#integer> .\n",
                    "_:t1r1 <http://www.w3.org/ns/csvw#url> <http://example.org/p.csv#row=4> .\n",
                    "_:t1r1 <http://www.w3.org/ns/csvw#describes> _:t1r1s .\n",
                    "_:t1r1s <http://example.org/p.csv#id> \"7\" .\n",
                ),
            }],
        }],
        faults: "",
    },
    Case {
        what: "templates",
        meta: r##"{"@context":"http://www.w3.org/ns/csvw","url":"p.csv","tableSchema":{"aboutUrl":"#{id}","columns":[
{"name":"id"},{"name":"u","propertyUrl":"schema:name","valueUrl":"http://x.org/{+u}"}]}}"##,
        mode: Mode::Minimal,
        opening: "",
        tables: &[Table {
            text: b"id,u\n7,a b%20|\n",
            rows: &[Row {
                at: 15,
                lines: "<http://example.org/p.csv#7> <http://example.org/p.csv#id> \"7\" .\n\
                    <http://example.org/p.csv#7> <http://schema.org/name> <http://x.org/a%20b%20%7C> .\n",
            }],
        }],
        faults: "",
    },
    Case {
        what: "standard mode, with annotations",
        meta: r#"{"@context":["http://www.w3.org/ns/csvw",{"@language":"en"}],"url":"p.csv","dc:title":"T","notes":[
{"@type":"oa:Annotation","oa:hasBody":{"@value":"ok"},"dc:creator":{"@id":"http://x.org/me","foaf:name":"Me"}}]}"#,
        mode: Mode::Standard,
        opening: concat!(
            "_:g <http://www.w3.org/1999/02/22-rdf-syntax-ns#type> <http://www.w3.org/ns/csvw#TableGroup> .\n",
            "_:g <http://www.w3.org/ns/csvw#table> _:t1 .\n",
            "_:t1 <http://www.w3.org/1999/02/22-rdf-syntax-ns#type> <http://www.w3.org/ns/csvw#Table> .\n",
            "_:t1 <http://www.w3.org/ns/csvw#url> <http://example.org/p.csv> .\n",
            "_:t1 <http://purl.org/dc/terms/title> \"T\"@en .\n",
            "_:t1 <http://www.w3.org/ns/csvw#note> _:a1 .\n",
            "_:a1 <http://www.w3.org/1999/02/22-rdf-syntax-ns#type> <http://www.w3.org/ns/oa#Annotation> .\n",
            "_:a1 <http://purl.org/dc/terms/creator> <http://x.org/me> .\n",
            "<http://x.org/me> <http://xmlns.com/foaf/0.1/name> \"Me\"@en .\n",
            "_:a1 <http://www.w3.org/ns/oa#hasBody> \"ok\" .\n",
        ),
        tables: &[Table {
            text: b"id\n",
            rows: &[],
        }],
        faults: "",
    },
];

/// The document of two tables with keys: `a.csv` refers to `b.csv`.
pub(crate) const KEYS: &str = r#"{"@context":"http://www.w3.org/ns/csvw","tables":[
{"url":"a.csv","tableSchema":{"columns":[{"name":"ref","datatype":"integer"}],
"foreignKeys":[{"columnReference":"ref","reference":{"resource":"b.csv","columnReference":"k"}}]}},
{"url":"b.csv","tableSchema":{"columns":[{"name":"k","datatype":"integer"}],"primaryKey":"k"}}]}"#;
