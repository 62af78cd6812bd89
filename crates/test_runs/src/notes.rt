//! The triples of the annotations of groups and tables, by whole runs.

use crate::runs::{AMPLE, Case, End, each_leaves};
use csvw_triples_core::Mode;

static CASES: [Case; 4] = [
    // a title in the language of the context, and a note with a type, a node and a literal
    Case {
        meta: r#"{"@context":["http://www.w3.org/ns/csvw",{"@language":"en"}],"url":"p.csv","dc:title":"T",
            "notes":[{"@type":"oa:Annotation","oa:hasBody":{"@value":"ok"},"dc:creator":{"@id":"http://x.org/me","foaf:name":"Me"}}]}"#,
        texts: &[b"id\n"],
        end: End::Report,
        graph: concat!(
            "_:g <http://www.w3.org/1999/02/22-rdf-syntax-ns#type> <http://www.w3.org/ns/csvw#TableGroup> .\n",
            "_:g <http://www.w3.org/ns/csvw#table> _:t1 .\n",
            "_:t1 <http://www.w3.org/1999/02/22-rdf-syntax-ns#type> <http://www.w3.org/ns/csvw#Table> .\n",
            "_:t1 <http://www.w3.org/ns/csvw#url> <http://example.org/p.csv> .\n",
            "_:t1 <http://purl.org/dc/terms/title> \"T\"@en .\n",
            "_:t1 <http://www.w3.org/ns/csvw#note> _:a1 .\n",
            "_:a1 <http://www.w3.org/1999/02/22-rdf-syntax-ns#type> <http://www.w3.org/ns/oa#Annotation> .\n",
            "_:a1 <http://purl.org/dc/terms/creator> <http://x.org/me> .\n",
            "<http://x.org/me> <http://xmlns.com/foaf/0.1/name> \"Me\"@en .\n",
            "_:a1 <http://www.w3.org/ns/oa#hasBody> \"ok\" .\n",
        ),
        faults: "",
    },
    // an array with a value of each kind
    Case {
        meta: r#"{"@context":"http://www.w3.org/ns/csvw","url":"p.csv","dc:subject":["a",3,true,null,{"@value":"x","@language":"de"},
            {"@value":"2024-01-01","@type":"xsd:date"}]}"#,
        texts: &[b"id\n"],
        end: End::Report,
        graph: concat!(
            "_:g <http://www.w3.org/1999/02/22-rdf-syntax-ns#type> <http://www.w3.org/ns/csvw#TableGroup> .\n",
            "_:g <http://www.w3.org/ns/csvw#table> _:t1 .\n",
            "_:t1 <http://www.w3.org/1999/02/22-rdf-syntax-ns#type> <http://www.w3.org/ns/csvw#Table> .\n",
            "_:t1 <http://www.w3.org/ns/csvw#url> <http://example.org/p.csv> .\n",
            "_:t1 <http://purl.org/dc/terms/subject> \"a\" .\n",
            "_:t1 <http://purl.org/dc/terms/subject> \"3\"^^<http://www.w3.org/2001/XMLSchema#integer> .\n",
            "_:t1 <http://purl.org/dc/terms/subject> \"true\"^^<http://www.w3.org/2001/XMLSchema#boolean> .\n",
            "_:t1 <http://purl.org/dc/terms/subject> \"x\"@de .\n",
            "_:t1 <http://purl.org/dc/terms/subject> \"2024-01-01\"^^<http://www.w3.org/2001/XMLSchema#date> .\n",
        ),
        faults: "",
    },
    // nodes are numbered over the group and the tables that are not suppressed; properties come in byte order
    Case {
        meta: r#"{"@context":"http://www.w3.org/ns/csvw","@id":"g","urn:b":{"urn:c":{}},"urn:B":{"@value":-1},
            "tables":[{"url":"p.csv","suppressOutput":true,"urn:d":{}},
            {"url":"q.csv","notes":[[{"@type":["urn:t","urn:s"]}],"n"],"urn:a":{"@id":"p.csv#x"},
            "tableSchema":{"urn:d":{},"columns":[{"name":"k","urn:e":{}}]},"dialect":{"urn:f":{}}}]}"#,
        texts: &[b"k\n", b"k\n"],
        end: End::Report,
        graph: concat!(
            "<http://example.org/g> <http://www.w3.org/1999/02/22-rdf-syntax-ns#type> <http://www.w3.org/ns/csvw#TableGroup> .\n",
            "<http://example.org/g> <urn:B> \"-1\"^^<http://www.w3.org/2001/XMLSchema#integer> .\n",
            "<http://example.org/g> <urn:b> _:a1 .\n",
            "_:a1 <urn:c> _:a2 .\n",
            "<http://example.org/g> <http://www.w3.org/ns/csvw#table> _:t2 .\n",
            "_:t2 <http://www.w3.org/1999/02/22-rdf-syntax-ns#type> <http://www.w3.org/ns/csvw#Table> .\n",
            "_:t2 <http://www.w3.org/ns/csvw#url> <http://example.org/q.csv> .\n",
            "_:t2 <urn:a> <http://example.org/p.csv#x> .\n",
            "_:t2 <http://www.w3.org/ns/csvw#note> _:a3 .\n",
            "_:a3 <http://www.w3.org/1999/02/22-rdf-syntax-ns#type> <urn:t> .\n",
            "_:a3 <http://www.w3.org/1999/02/22-rdf-syntax-ns#type> <urn:s> .\n",
            "_:t2 <http://www.w3.org/ns/csvw#note> \"n\" .\n",
        ),
        faults: "",
    },
    // a key that is not an IRI as it is is made safe; a datatype that annotates nothing
    Case {
        meta: r#"{"@context":"http://www.w3.org/ns/csvw","url":"p.csv","x:a b":"l\n","schema:name":{"@value":true,"@type":"x:y|z"},
            "tableSchema":{"columns":[{"name":"id","datatype":{"base":"string","dc:title":{}}}]}}"#,
        texts: &[b"id\n"],
        end: End::Report,
        graph: concat!(
            "_:g <http://www.w3.org/1999/02/22-rdf-syntax-ns#type> <http://www.w3.org/ns/csvw#TableGroup> .\n",
            "_:g <http://www.w3.org/ns/csvw#table> _:t1 .\n",
            "_:t1 <http://www.w3.org/1999/02/22-rdf-syntax-ns#type> <http://www.w3.org/ns/csvw#Table> .\n",
            "_:t1 <http://www.w3.org/ns/csvw#url> <http://example.org/p.csv> .\n",
            "_:t1 <http://schema.org/name> \"true\"^^<x:y%7Cz> .\n",
            "_:t1 <x:a%20b> \"l\\n\" .\n",
        ),
        faults: "",
    },
];

#[test]
fn annotations_are_told(rt: HostRuntime) {
    each_leaves(&rt, rt.alloc(), &CASES, Mode::Standard, AMPLE);
}

#[test]
fn minimal_mode_tells_no_annotation(rt: HostRuntime) {
    each_leaves(&rt, rt.alloc(), &CASES, Mode::Minimal, 0);
}
