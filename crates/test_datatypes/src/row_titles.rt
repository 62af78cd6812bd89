//! Tests of the titles of rows, by whole runs in the profile w3c (Metadata Vocabulary for Tabular Data, section 5.5,
//! `rowTitles`; csv2rdf, section 4.6).
use crate::examples::writes;
use csvw_triples_core::Mode;
use std::test::Fail;

/// A table with titles in a suppressed column with a language, in a column of numbers and in a column of lists.
static META: &str =
    r##"{"@context":"http://www.w3.org/ns/csvw","url":"p.csv","tableSchema":{"rowTitles":["l","t","n"],"columns":[
    {"name":"id","aboutUrl":"#{id}"},
    {"name":"t","lang":"en","suppressOutput":true},
    {"name":"n","lang":"fr","datatype":"integer","valueUrl":"n{id}"},
    {"name":"l","lang":"de-CH","separator":"|","ordered":true}]}}"##;

static TEXTS: [&str; 1] = ["id,t,n,l\n7,Seven,007,sieben|VII\n8,,,\n"];

static STANDARD: &str =
    r#"_:g <http://www.w3.org/1999/02/22-rdf-syntax-ns#type> <http://www.w3.org/ns/csvw#TableGroup> .
_:g <http://www.w3.org/ns/csvw#table> _:t1 .
_:t1 <http://www.w3.org/1999/02/22-rdf-syntax-ns#type> <http://www.w3.org/ns/csvw#Table> .
_:t1 <http://www.w3.org/ns/csvw#url> <http://example.org/p.csv> .
_:t1 <http://www.w3.org/ns/csvw#row> _:t1r1 .
_:t1r1 <http://www.w3.org/1999/02/22-rdf-syntax-ns#type> <http://www.w3.org/ns/csvw#Row> .
_:t1r1 <http://www.w3.org/ns/csvw#rownum> "1"^^<http://www.w3.org/2001/XMLSchema#integer> .
_:t1r1 <http://www.w3.org/ns/csvw#url> <http://example.org/p.csv#row=2> .
_:t1r1 <http://www.w3.org/ns/csvw#title> "Seven"@en .
_:t1r1 <http://www.w3.org/ns/csvw#title> "7" .
_:t1r1 <http://www.w3.org/ns/csvw#title> "sieben"@de-CH .
_:t1r1 <http://www.w3.org/ns/csvw#title> "VII"@de-CH .
_:t1r1 <http://www.w3.org/ns/csvw#describes> <http://example.org/p.csv#7> .
<http://example.org/p.csv#7> <http://example.org/p.csv#id> "7" .
_:t1r1 <http://www.w3.org/ns/csvw#describes> _:t1r1s .
_:t1r1s <http://example.org/p.csv#n> <http://example.org/n7> .
_:t1r1s <http://example.org/p.csv#l> _:t1r1c4i1 .
_:t1r1c4i1 <http://www.w3.org/1999/02/22-rdf-syntax-ns#first> "sieben"@de-CH .
_:t1r1c4i1 <http://www.w3.org/1999/02/22-rdf-syntax-ns#rest> _:t1r1c4i2 .
_:t1r1c4i2 <http://www.w3.org/1999/02/22-rdf-syntax-ns#first> "VII"@de-CH .
_:t1r1c4i2 <http://www.w3.org/1999/02/22-rdf-syntax-ns#rest> <http://www.w3.org/1999/02/22-rdf-syntax-ns#nil> .
_:t1 <http://www.w3.org/ns/csvw#row> _:t1r2 .
_:t1r2 <http://www.w3.org/1999/02/22-rdf-syntax-ns#type> <http://www.w3.org/ns/csvw#Row> .
_:t1r2 <http://www.w3.org/ns/csvw#rownum> "2"^^<http://www.w3.org/2001/XMLSchema#integer> .
_:t1r2 <http://www.w3.org/ns/csvw#url> <http://example.org/p.csv#row=3> .
_:t1r2 <http://www.w3.org/ns/csvw#describes> <http://example.org/p.csv#8> .
<http://example.org/p.csv#8> <http://example.org/p.csv#id> "8" .
_:t1r2 <http://www.w3.org/ns/csvw#describes> _:t1r2s .
_:t1r2s <http://example.org/p.csv#l> <http://www.w3.org/1999/02/22-rdf-syntax-ns#nil> .
"#;

/// A table that is suppressed, whose rows have no titles then.
static SUPPRESSED: &str =
    r#"{"@context":"http://www.w3.org/ns/csvw","url":"p.csv","suppressOutput":true,"tableSchema":{"rowTitles":"id",
    "columns":[{"name":"id"}]}}"#;

static NO_TABLE: &str =
    r#"_:g <http://www.w3.org/1999/02/22-rdf-syntax-ns#type> <http://www.w3.org/ns/csvw#TableGroup> .
"#;

/// A table with titles alone.
static ALONE: &str =
    r#"{"@context":"http://www.w3.org/ns/csvw","url":"p.csv","tableSchema":{"rowTitles":"id",
    "columns":[{"name":"id"}]}}"#;

static MINIMAL: &str = r#"_:t1r1s <http://example.org/p.csv#id> "7" .
"#;

#[test]
fn rows_have_titles(rt: HostRuntime) -> Result<(), Fail> {
    assert!(rt; writes(rt.alloc(), META, &TEXTS, Mode::Standard, STANDARD)?);
    Ok(())
}

#[test]
fn suppressed_tables_have_no_titles(rt: HostRuntime) -> Result<(), Fail> {
    assert!(rt;
        writes(
            rt.alloc(),
            SUPPRESSED,
            &["id\n7\n"],
            Mode::Standard,
            NO_TABLE
        )?
    );
    Ok(())
}

#[test]
fn minimal_mode_has_no_titles(rt: HostRuntime) -> Result<(), Fail> {
    assert!(rt; writes(rt.alloc(), ALONE, &["id\n7\n"], Mode::Minimal, MINIMAL)?);
    Ok(())
}
