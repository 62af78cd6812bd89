//! What is shown of three documents. Each text was read against its document, line by line.
ghost use Rattle.std.specs.Prelude.{None};

use crate::inspected::{GROUP_TEXT, HEADER_TEXT, SMALL_JSON};
use csvw_engine_core::Stop;
use csvw_files::Opener;
use csvw_inspect::{Inspect, InspectForm, inspect};
use csvw_meta::{MetaCode, Profile};
use csvw_streams::Counted;
use std::alloc::Global;
use std::io::{self, Write};
use std::test::Fail;

/// Opens one document in memory.
#[derive(Drop)]
struct OneFile<'a> {
    /// The path of the document.
    path: &'a str,
    /// Its bytes.
    bytes: &'a [u8],
}

impl<'a> Opener for OneFile<'a> {
    ghost use Rattle.std.specs.Prelude.{◌≡◌};

    type Reader = &'a [u8];

    type Writer = Vec<u8>;

    ghost opens = { λ _ _ _ _. Unit {0} };

    ghost opens_at = { λ _ _ _ _ _. Unit {0} };

    ghost closes = { λ old _ new. new ≡ old };

    fn open(&mut self, path: &str) -> Option<&'a [u8]> {
        if path == self.path {
            Some(self.bytes)
        } else {
            None
        }
    }

    fn close(&mut self, _reader: Counted<&'a [u8]>)
        ensures { self.new ≡ self.old }
    {}
}

/// A writer that takes nothing.
#[derive(Drop)]
struct Full {}

impl Write for Full {
    ghost contents = { λ _. None };

    fn write(&mut self, _buf: &[u8]) -> io::Result<usize> {
        Ok(0)
    }

    fn flush(&mut self) -> io::Result<()> {
        Ok(())
    }
}

const BASE: &str = "http://example.org/t.json";

/// A group of two tables, with a key of each kind.
const GROUP: &str =
    r##"{"@context": "http://www.w3.org/ns/csvw", "@id": "http://example.org/g", "tables": [
  {"url": "a.csv", "@id": "http://example.org/a", "suppressOutput": true, "dc:title": "A",
   "dialect": {"delimiter": ";", "skipRows": 2, "trim": true, "commentPrefix": null},
   "tableSchema": {"aboutUrl": "#row-{id}", "primaryKey": "id", "foreignKeys": [
     {"columnReference": "kind", "reference": {"resource": "b.csv", "columnReference": "code"}}], "columns": [
       {"name": "id", "titles": ["Id", "Number"], "required": true, "datatype":
         {"base": "integer", "minimum": 1, "maximum": 99, "format": {"groupChar": ","}}},
       {"titles": "the day", "propertyUrl": "schema:date", "datatype":
         {"base": "date", "format": "d.M.yyyy", "minExclusive": "1999-12-31"}},
       {"name": "kind", "separator": "|", "ordered": true, "lang": "en", "null": ["-", "NA"], "default": "x",
        "valueUrl": "b.csv#{kind},{_row},{_sourceRow},{_column},{_sourceColumn},{_name}"},
       {"name": "link", "virtual": true, "suppressOutput": true, "propertyUrl": "rdf:type",
        "valueUrl": "schema:{+_name}"}]}},
  {"url": "b.csv", "tableSchema": {"columns": [
     {"name": "code", "datatype": {"base": "string", "maxLength": 2}},
     {"name": "ok", "misspelt": 1, "datatype": {"base": "boolean", "format": "Y|N"}}]}}]}"##;

/// A table whose columns come from its header.
const HEADER: &str =
    r##"{"@context": "http://www.w3.org/ns/csvw", "url": "t.csv", "tabelSchema": {},
  "dialect": {"header": false, "lineTerminators": "\n", "quoteChar": null}}"##;

/// A table of one column.
const SMALL: &str =
    r##"{"@context": "http://www.w3.org/ns/csvw", "url": "t.csv", "tableSchema": {"columns": [
  {"name": "n", "aboutUrl": "{#n}", "datatype": {"@id": "http://example.org/short", "base": "string", "length": 3}}]}}"##;

/// A table whose numbers have patterns, and whose texts have a regular expression.
const PATTERNED: &str =
    r####"{"@context": "http://www.w3.org/ns/csvw", "url": "t.csv", "tableSchema": {"columns": [
  {"name": "a", "datatype": {"base": "decimal", "format": "###,##0.0#"}},
  {"name": "b", "datatype": {"base": "integer", "format": {"pattern": "+000", "groupChar": "'"}}},
  {"name": "c", "datatype": {"base": "decimal", "format": {"pattern": "#.##.##0,0%", "decimalChar": ",", "groupChar": "."}}},
  {"name": "d", "datatype": {"base": "token", "format": "[A-Z]\\d{2}"}}]}}"####;

/// The formats that are shown of them.
const PATTERNS: [&str; 4] = [
    "format  {\"decimalChar\":\".\",\"groupChar\":\",\",\"pattern\":\"#,##0.0#\"}\n",
    "format  {\"decimalChar\":\".\",\"groupChar\":\"'\",\"pattern\":\"+000\"}\n",
    "format  {\"decimalChar\":\",\",\"groupChar\":\".\",\"pattern\":\"#.##.##0,0%\"}\n",
    "format  \"[A-Z]\\\\d{2}\"\n",
];

/// A table of moments: with zones, with a bound and so without zones, and stamps.
const ZONED: &str =
    r#"{"@context": "http://www.w3.org/ns/csvw", "url": "t.csv", "tableSchema": {"columns": [
  {"name": "a", "datatype": "dateTime"},
  {"name": "b", "datatype": {"base": "dateTime", "minimum": "2020-01-01T00:00:00"}},
  {"name": "c", "datatype": "dateTimeStamp"}]}}"#;

/// The types that are shown of them.
const TYPES: [&str; 3] = [
    "      base  \"dateTime\"\n",
    "      base     \"dateTime\"\n      minimum  \"2020-01-01T00:00:00\"\n",
    "      base  \"dateTimeStamp\"\n",
];

/// Returns what is shown of a document of a profile, and the stop.
fn shown(
    alloc: Global,
    profile: Profile,
    document: &str,
    form: InspectForm,
) -> (Vec<u8>, Result<(), Stop>) {
    let mut opener = OneFile {
        path: "t.json",
        bytes: document.as_bytes(),
    };
    let asked = Inspect {
        base: BASE,
        meta: "t.json",
        resources: &[],
        profile,
        form,
    };
    let mut out = Counted::new(Vec::new(alloc));
    let ran = inspect(alloc, &asked, &mut opener, &mut out);
    (out.into_inner(), ran)
}

/// Returns the bytes as text.
fn text_of(bytes: &[u8]) -> &str {
    str::from_utf8(bytes).unwrap_or("no text")
}

#[test]
fn shows_patterns_and_expressions(rt: HostRuntime) {
    let (bytes, ran) = shown(rt.alloc(), Profile::W3c, PATTERNED, InspectForm::Text);
    for format in &PATTERNS {
        assert!(rt; text_of(bytes.as_slice()).contains(*format), "{format}");
    }
    assert_eq!(rt; ran, Ok(()));
}

#[test]
fn shows_moments(rt: HostRuntime) {
    let (bytes, ran) = shown(rt.alloc(), Profile::W3c, ZONED, InspectForm::Text);
    for line in &TYPES {
        assert!(rt; text_of(bytes.as_slice()).contains(*line), "{line}");
    }
    assert_eq!(rt; ran, Ok(()));
}

#[test]
fn shows_documents(rt: HostRuntime) -> Result<(), Fail> {
    let alloc = rt.alloc();
    for (document, form, expected) in [
        (GROUP, InspectForm::Text, GROUP_TEXT),
        (HEADER, InspectForm::Text, HEADER_TEXT),
        (SMALL, InspectForm::Json, SMALL_JSON),
    ] {
        let (bytes, ran) = shown(alloc, Profile::Core, document, form);
        assert_eq!(rt; text_of(bytes.as_slice()), expected);
        assert_eq!(rt; ran, Ok(()));
    }
    Ok(())
}

#[test]
fn writes_nothing_of_a_document_with_a_fault(rt: HostRuntime) -> Result<(), Fail> {
    let alloc = rt.alloc();
    let (bytes, ran) = shown(alloc, Profile::Core, "{}", InspectForm::Text);
    assert!(rt; bytes.is_empty());
    match ran {
        Err(Stop::Meta(fault)) => {
            assert_eq!(rt; fault.code, MetaCode::BadContext);
            assert!(rt; fault.pointer.is_empty());
        }
        _ => panic!(rt; "no fault of the document"),
    }
    Ok(())
}

#[test]
fn reports_a_file_and_a_writer_that_fail(rt: HostRuntime) -> Result<(), Fail> {
    let alloc = rt.alloc();
    let mut opener = OneFile {
        path: "u.json",
        bytes: SMALL.as_bytes(),
    };
    let mut asked = Inspect {
        base: BASE,
        meta: "t.json",
        resources: &[],
        profile: Profile::Core,
        form: InspectForm::Text,
    };
    let mut full = Counted::new(Full {});
    let ran = inspect(alloc, &asked, &mut opener, &mut full);
    assert_eq!(rt; ran, Err(Stop::Read));
    assert_eq!(rt; full.failures(), 0);
    asked.meta = "u.json";
    let ran = inspect(alloc, &asked, &mut opener, &mut full);
    assert_eq!(rt; ran, Err(Stop::Write));
    assert_eq!(rt; full.failures(), 1);
    Ok(())
}
