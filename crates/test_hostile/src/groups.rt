//! The groups of tables that are run, with the texts of their tables.
use csvw_api::Mode;

/// The URL of each document.
pub(crate) const BASE: &str = "http://example.org/";

/// A group of tables.
pub(crate) struct Group {
    /// The name in the lines that are printed.
    pub(crate) name: &'static str,
    /// The document that describes it.
    pub(crate) meta: &'static str,
    /// The texts of its tables.
    pub(crate) texts: &'static [&'static [u8]],
    /// Which triples are written.
    pub(crate) mode: Mode,
}

/// A table that refers to another, which has a primary key.
pub(crate) const KEYS: &str = r#"{"@context":"http://www.w3.org/ns/csvw","tables":[
{"url":"a.csv","tableSchema":{"columns":[{"name":"ref","datatype":"integer"}],
"foreignKeys":[{"columnReference":"ref","reference":{"resource":"b.csv","columnReference":"k"}}]}},
{"url":"b.csv","tableSchema":{"columns":[{"name":"k","datatype":"integer"}],"primaryKey":"k"}}]}"#;

/// The text of the table that refers.
pub(crate) const REFERRING: &str = "ref\n9\n1\n2\n\n";

/// The text of the table that is referred to.
pub(crate) const REFERRED: &str = "k\n1\n01\n2\n";

/// A table of strings.
const PLAIN: &str = r#"{"@context":"http://www.w3.org/ns/csvw","url":"p.csv"}"#;

/// A table with templates, a virtual column and a list.
const LINKED: &str =
    r##"{"@context":"http://www.w3.org/ns/csvw","url":"p.csv","tableSchema":{"aboutUrl":"#{id}","columns":[
{"name":"id"},
{"name":"u","propertyUrl":"schema:name","valueUrl":"http://x.org/{+u}"},
{"name":"v","separator":";","ordered":true,"required":true},
{"name":"t","virtual":true,"propertyUrl":"rdf:type","valueUrl":"schema:Person"}]}}"##;

/// A table with notes.
const NOTED: &str =
    r#"{"@context":["http://www.w3.org/ns/csvw",{"@language":"en"}],"url":"p.csv","dc:title":"T",
"notes":[{"@type":"oa:Annotation","oa:hasBody":{"@value":"ok"},"dc:creator":{"@id":"http://x.org/me","foaf:name":"Me"}}]}"#;

/// The groups.
pub(crate) static GROUPS: [Group; 4] = [
    Group {
        name: "plain",
        meta: PLAIN,
        texts: &[b"id,name\n1,Ann\n2,\"B\"\"o\"\n"],
        mode: Mode::Minimal,
    },
    Group {
        name: "keys",
        meta: KEYS,
        texts: &[b"ref\n9\n1\n2\n\n", b"k\n1\n01\n2\n"],
        mode: Mode::Minimal,
    },
    Group {
        name: "links",
        meta: LINKED,
        texts: &[b"id,u,v\n7,a b%20|,b;a;b\n8,,\n"],
        mode: Mode::Minimal,
    },
    Group {
        name: "notes",
        meta: NOTED,
        texts: &[b"id\n1\n"],
        mode: Mode::Standard,
    },
];
