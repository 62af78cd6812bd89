//! The simple example of csv2rdf (section 7.1): a file of countries without metadata of its own.
use crate::examples::writes;
use csvw_triples_core::Mode;
use std::test::Fail;

static META: &str = r#"{"@context": "http://www.w3.org/ns/csvw", "url": "countries.csv"}"#;

static TEXT: &str = r#"countryCode,latitude,longitude,name
AD,42.5,1.6,Andorra
AE,23.4,53.8,"United Arab Emirates"
AF,33.9,67.7,Afghanistan
"#;

static MINIMAL: &str = r#"_:t1r1s <http://example.org/countries.csv#countryCode> "AD" .
_:t1r1s <http://example.org/countries.csv#latitude> "42.5" .
_:t1r1s <http://example.org/countries.csv#longitude> "1.6" .
_:t1r1s <http://example.org/countries.csv#name> "Andorra" .
_:t1r2s <http://example.org/countries.csv#countryCode> "AE" .
_:t1r2s <http://example.org/countries.csv#latitude> "23.4" .
_:t1r2s <http://example.org/countries.csv#longitude> "53.8" .
_:t1r2s <http://example.org/countries.csv#name> "United Arab Emirates" .
_:t1r3s <http://example.org/countries.csv#countryCode> "AF" .
_:t1r3s <http://example.org/countries.csv#latitude> "33.9" .
_:t1r3s <http://example.org/countries.csv#longitude> "67.7" .
_:t1r3s <http://example.org/countries.csv#name> "Afghanistan" .
"#;

static STANDARD: &str =
    r#"_:g <http://www.w3.org/1999/02/22-rdf-syntax-ns#type> <http://www.w3.org/ns/csvw#TableGroup> .
_:g <http://www.w3.org/ns/csvw#table> _:t1 .
_:t1 <http://www.w3.org/1999/02/22-rdf-syntax-ns#type> <http://www.w3.org/ns/csvw#Table> .
_:t1 <http://www.w3.org/ns/csvw#url> <http://example.org/countries.csv> .
_:t1 <http://www.w3.org/ns/csvw#row> _:t1r1 .
_:t1r1 <http://www.w3.org/1999/02/22-rdf-syntax-ns#type> <http://www.w3.org/ns/csvw#Row> .
_:t1r1 <http://www.w3.org/ns/csvw#rownum> "1"^^<http://www.w3.org/2001/XMLSchema#integer> .
_:t1r1 <http://www.w3.org/ns/csvw#url> <http://example.org/countries.csv#row=2> .
_:t1r1 <http://www.w3.org/ns/csvw#describes> _:t1r1s .
_:t1r1s <http://example.org/countries.csv#countryCode> "AD" .
_:t1r1s <http://example.org/countries.csv#latitude> "42.5" .
_:t1r1s <http://example.org/countries.csv#longitude> "1.6" .
_:t1r1s <http://example.org/countries.csv#name> "Andorra" .
_:t1 <http://www.w3.org/ns/csvw#row> _:t1r2 .
_:t1r2 <http://www.w3.org/1999/02/22-rdf-syntax-ns#type> <http://www.w3.org/ns/csvw#Row> .
_:t1r2 <http://www.w3.org/ns/csvw#rownum> "2"^^<http://www.w3.org/2001/XMLSchema#integer> .
_:t1r2 <http://www.w3.org/ns/csvw#url> <http://example.org/countries.csv#row=3> .
_:t1r2 <http://www.w3.org/ns/csvw#describes> _:t1r2s .
_:t1r2s <http://example.org/countries.csv#countryCode> "AE" .
_:t1r2s <http://example.org/countries.csv#latitude> "23.4" .
_:t1r2s <http://example.org/countries.csv#longitude> "53.8" .
_:t1r2s <http://example.org/countries.csv#name> "United Arab Emirates" .
_:t1 <http://www.w3.org/ns/csvw#row> _:t1r3 .
_:t1r3 <http://www.w3.org/1999/02/22-rdf-syntax-ns#type> <http://www.w3.org/ns/csvw#Row> .
_:t1r3 <http://www.w3.org/ns/csvw#rownum> "3"^^<http://www.w3.org/2001/XMLSchema#integer> .
_:t1r3 <http://www.w3.org/ns/csvw#url> <http://example.org/countries.csv#row=4> .
_:t1r3 <http://www.w3.org/ns/csvw#describes> _:t1r3s .
_:t1r3s <http://example.org/countries.csv#countryCode> "AF" .
_:t1r3s <http://example.org/countries.csv#latitude> "33.9" .
_:t1r3s <http://example.org/countries.csv#longitude> "67.7" .
_:t1r3s <http://example.org/countries.csv#name> "Afghanistan" .
"#;

#[test]
fn countries_have_their_minimal_graph(rt: HostRuntime) -> Result<(), Fail> {
    assert!(rt; writes(rt.alloc(), META, &[TEXT], Mode::Minimal, MINIMAL)?);
    Ok(())
}

#[test]
fn countries_have_their_standard_graph(rt: HostRuntime) -> Result<(), Fail> {
    assert!(rt; writes(rt.alloc(), META, &[TEXT], Mode::Standard, STANDARD)?);
    Ok(())
}
