//! Groups of tables and the texts of their tables.

/// A group of tables.
pub(crate) struct Example {
    /// The document that describes it.
    pub(crate) meta: &'static str,
    /// The texts of its tables.
    pub(crate) texts: &'static [&'static [u8]],
}

/// A table that refers to another, which has a primary key.
pub(crate) const KEYS: &str = r#"{"@context":"http://www.w3.org/ns/csvw","tables":[
{"url":"a.csv","tableSchema":{"columns":[{"name":"ref","datatype":"integer"}],
"foreignKeys":[{"columnReference":"ref","reference":{"resource":"b.csv","columnReference":"k"}}]}},
{"url":"b.csv","tableSchema":{"columns":[{"name":"k","datatype":"integer"}],"primaryKey":"k"}}]}"#;

const RIVERS: &str = r#"{"@context":"http://www.w3.org/ns/csvw","tables":[
{"url":"stations.csv","tableSchema":{"columns":[
{"name":"station","titles":"Station","required":true},
{"name":"river","titles":"River","lang":"de"},
{"name":"towns","titles":"Towns","separator":";"}]}},
{"url":"levels.csv","dialect":{"delimiter":";"},"null":"-","tableSchema":{"columns":[
{"titles":"station"},{"titles":"day"},{"titles":"level"}]}}]}"#;

const LIBRARIES: &str =
    r#"{"@context":"http://www.w3.org/ns/csvw","url":"libraries.csv","source":"city archive","tableSchema":{"columns":[
{"name":"name","titles":"Name","required":true},
{"name":"street","titles":["Street","Address"]},
{"name":"open","titles":"Open","separator":" ","ordered":true}]}}"#;

/// The valid and the faulty group of the examples, and a group with broken keys.
pub(crate) static EXAMPLES: [Example; 3] = [
    Example {
        meta: RIVERS,
        texts: &[
            b"Station,River,Towns\nBS,Rhein,Basel;Birsfelden\nKO,Mosel,Koblenz\n",
            b"station;day;level\nBS;2024-05-01;612\nBS;2024-05-02;-\nKO;2024-05-01;198\n",
        ],
    },
    Example {
        meta: LIBRARIES,
        texts: &[b"Name,Road,Open\nCentral,Main Street 1,Mo Tu\n,Park Lane 7,Sa\n"],
    },
    Example {
        meta: KEYS,
        texts: &[b"ref\n9\n1\n2\n\n", b"k\n1\n01\n2\n"],
    },
];
