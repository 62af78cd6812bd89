//! The example of a foreign key between tables of the Metadata Vocabulary (section 5.5): countries, and the population
//! of a country by year. The graphs follow the rules of csv2rdf (sections 4.2 to 4.6).
use crate::examples::writes;
use csvw_triples_core::Mode;
use std::test::Fail;

static META: &str = r#"{
  "@context": "http://www.w3.org/ns/csvw",
  "tables": [{
    "url": "http://example.org/countries.csv",
    "tableSchema": {
      "columns": [
        {"name": "countryCode", "datatype": "string", "propertyUrl": "http://www.geonames.org/ontology{#_name}"},
        {"name": "latitude", "datatype": "number"},
        {"name": "longitude", "datatype": "number"},
        {"name": "name", "datatype": "string"}
      ],
      "aboutUrl": "http://example.org/countries.csv{#countryCode}",
      "propertyUrl": "http://schema.org/{_name}",
      "primaryKey": "countryCode"
    }
  }, {
    "url": "http://example.org/country_slice.csv",
    "tableSchema": {
      "columns": [
        {"name": "countryRef", "valueUrl": "http://example.org/countries.csv{#countryRef}"},
        {"name": "year", "datatype": "gYear"},
        {"name": "population", "datatype": "integer"}
      ],
      "foreignKeys": [{
        "columnReference": "countryRef",
        "reference": {"resource": "http://example.org/countries.csv", "columnReference": "countryCode"}
      }]
    }
  }]
}"#;

static COUNTRIES: &str = r#"countryCode,latitude,longitude,name
AD,42.546245,1.601554,Andorra
AE,23.424076,53.847818,"United Arab Emirates"
AF,33.93911,67.709953,Afghanistan
"#;

static SLICE: &str = r#"countryRef,year,population
AF,1960,9616353
AF,1961,9799379
AF,1962,9989846
"#;

static MINIMAL: &str =
    r#"<http://example.org/countries.csv#AD> <http://www.geonames.org/ontology#countryCode> "AD" .
<http://example.org/countries.csv#AD> <http://schema.org/latitude> "42.546245"^^<http://www.w3.org/2001/XMLSchema#double> .
<http://example.org/countries.csv#AD> <http://schema.org/longitude> "1.601554"^^<http://www.w3.org/2001/XMLSchema#double> .
<http://example.org/countries.csv#AD> <http://schema.org/name> "Andorra" .
<http://example.org/countries.csv#AE> <http://www.geonames.org/ontology#countryCode> "AE" .
<http://example.org/countries.csv#AE> <http://schema.org/latitude> "23.424076"^^<http://www.w3.org/2001/XMLSchema#double> .
<http://example.org/countries.csv#AE> <http://schema.org/longitude> "53.847818"^^<http://www.w3.org/2001/XMLSchema#double> .
<http://example.org/countries.csv#AE> <http://schema.org/name> "United Arab Emirates" .
<http://example.org/countries.csv#AF> <http://www.geonames.org/ontology#countryCode> "AF" .
<http://example.org/countries.csv#AF> <http://schema.org/latitude> "33.93911"^^<http://www.w3.org/2001/XMLSchema#double> .
<http://example.org/countries.csv#AF> <http://schema.org/longitude> "67.709953"^^<http://www.w3.org/2001/XMLSchema#double> .
<http://example.org/countries.csv#AF> <http://schema.org/name> "Afghanistan" .
_:t2r1s <http://example.org/country_slice.csv#countryRef> <http://example.org/countries.csv#AF> .
_:t2r1s <http://example.org/country_slice.csv#year> "1960"^^<http://www.w3.org/2001/XMLSchema#gYear> .
_:t2r1s <http://example.org/country_slice.csv#population> "9616353"^^<http://www.w3.org/2001/XMLSchema#integer> .
_:t2r2s <http://example.org/country_slice.csv#countryRef> <http://example.org/countries.csv#AF> .
_:t2r2s <http://example.org/country_slice.csv#year> "1961"^^<http://www.w3.org/2001/XMLSchema#gYear> .
_:t2r2s <http://example.org/country_slice.csv#population> "9799379"^^<http://www.w3.org/2001/XMLSchema#integer> .
_:t2r3s <http://example.org/country_slice.csv#countryRef> <http://example.org/countries.csv#AF> .
_:t2r3s <http://example.org/country_slice.csv#year> "1962"^^<http://www.w3.org/2001/XMLSchema#gYear> .
_:t2r3s <http://example.org/country_slice.csv#population> "9989846"^^<http://www.w3.org/2001/XMLSchema#integer> .
"#;

static STANDARD: &str =
    r#"_:g <http://www.w3.org/1999/02/22-rdf-syntax-ns#type> <http://www.w3.org/ns/csvw#TableGroup> .
_:g <http://www.w3.org/ns/csvw#table> _:t1 .
_:t1 <http://www.w3.org/1999/02/22-rdf-syntax-ns#type> <http://www.w3.org/ns/csvw#Table> .
_:t1 <http://www.w3.org/ns/csvw#url> <http://example.org/countries.csv> .
_:g <http://www.w3.org/ns/csvw#table> _:t2 .
_:t2 <http://www.w3.org/1999/02/22-rdf-syntax-ns#type> <http://www.w3.org/ns/csvw#Table> .
_:t2 <http://www.w3.org/ns/csvw#url> <http://example.org/country_slice.csv> .
_:t1 <http://www.w3.org/ns/csvw#row> _:t1r1 .
_:t1r1 <http://www.w3.org/1999/02/22-rdf-syntax-ns#type> <http://www.w3.org/ns/csvw#Row> .
_:t1r1 <http://www.w3.org/ns/csvw#rownum> "1"^^<http://www.w3.org/2001/XMLSchema#integer> .
_:t1r1 <http://www.w3.org/ns/csvw#url> <http://example.org/countries.csv#row=2> .
_:t1r1 <http://www.w3.org/ns/csvw#describes> <http://example.org/countries.csv#AD> .
<http://example.org/countries.csv#AD> <http://www.geonames.org/ontology#countryCode> "AD" .
<http://example.org/countries.csv#AD> <http://schema.org/latitude> "42.546245"^^<http://www.w3.org/2001/XMLSchema#double> .
<http://example.org/countries.csv#AD> <http://schema.org/longitude> "1.601554"^^<http://www.w3.org/2001/XMLSchema#double> .
<http://example.org/countries.csv#AD> <http://schema.org/name> "Andorra" .
_:t1 <http://www.w3.org/ns/csvw#row> _:t1r2 .
_:t1r2 <http://www.w3.org/1999/02/22-rdf-syntax-ns#type> <http://www.w3.org/ns/csvw#Row> .
_:t1r2 <http://www.w3.org/ns/csvw#rownum> "2"^^<http://www.w3.org/2001/XMLSchema#integer> .
_:t1r2 <http://www.w3.org/ns/csvw#url> <http://example.org/countries.csv#row=3> .
_:t1r2 <http://www.w3.org/ns/csvw#describes> <http://example.org/countries.csv#AE> .
<http://example.org/countries.csv#AE> <http://www.geonames.org/ontology#countryCode> "AE" .
<http://example.org/countries.csv#AE> <http://schema.org/latitude> "23.424076"^^<http://www.w3.org/2001/XMLSchema#double> .
<http://example.org/countries.csv#AE> <http://schema.org/longitude> "53.847818"^^<http://www.w3.org/2001/XMLSchema#double> .
<http://example.org/countries.csv#AE> <http://schema.org/name> "United Arab Emirates" .
_:t1 <http://www.w3.org/ns/csvw#row> _:t1r3 .
_:t1r3 <http://www.w3.org/1999/02/22-rdf-syntax-ns#type> <http://www.w3.org/ns/csvw#Row> .
_:t1r3 <http://www.w3.org/ns/csvw#rownum> "3"^^<http://www.w3.org/2001/XMLSchema#integer> .
_:t1r3 <http://www.w3.org/ns/csvw#url> <http://example.org/countries.csv#row=4> .
_:t1r3 <http://www.w3.org/ns/csvw#describes> <http://example.org/countries.csv#AF> .
<http://example.org/countries.csv#AF> <http://www.geonames.org/ontology#countryCode> "AF" .
<http://example.org/countries.csv#AF> <http://schema.org/latitude> "33.93911"^^<http://www.w3.org/2001/XMLSchema#double> .
<http://example.org/countries.csv#AF> <http://schema.org/longitude> "67.709953"^^<http://www.w3.org/2001/XMLSchema#double> .
<http://example.org/countries.csv#AF> <http://schema.org/name> "Afghanistan" .
_:t2 <http://www.w3.org/ns/csvw#row> _:t2r1 .
_:t2r1 <http://www.w3.org/1999/02/22-rdf-syntax-ns#type> <http://www.w3.org/ns/csvw#Row> .
_:t2r1 <http://www.w3.org/ns/csvw#rownum> "1"^^<http://www.w3.org/2001/XMLSchema#integer> .
_:t2r1 <http://www.w3.org/ns/csvw#url> <http://example.org/country_slice.csv#row=2> .
_:t2r1 <http://www.w3.org/ns/csvw#describes> _:t2r1s .
_:t2r1s <http://example.org/country_slice.csv#countryRef> <http://example.org/countries.csv#AF> .
_:t2r1s <http://example.org/country_slice.csv#year> "1960"^^<http://www.w3.org/2001/XMLSchema#gYear> .
_:t2r1s <http://example.org/country_slice.csv#population> "9616353"^^<http://www.w3.org/2001/XMLSchema#integer> .
_:t2 <http://www.w3.org/ns/csvw#row> _:t2r2 .
_:t2r2 <http://www.w3.org/1999/02/22-rdf-syntax-ns#type> <http://www.w3.org/ns/csvw#Row> .
_:t2r2 <http://www.w3.org/ns/csvw#rownum> "2"^^<http://www.w3.org/2001/XMLSchema#integer> .
_:t2r2 <http://www.w3.org/ns/csvw#url> <http://example.org/country_slice.csv#row=3> .
_:t2r2 <http://www.w3.org/ns/csvw#describes> _:t2r2s .
_:t2r2s <http://example.org/country_slice.csv#countryRef> <http://example.org/countries.csv#AF> .
_:t2r2s <http://example.org/country_slice.csv#year> "1961"^^<http://www.w3.org/2001/XMLSchema#gYear> .
_:t2r2s <http://example.org/country_slice.csv#population> "9799379"^^<http://www.w3.org/2001/XMLSchema#integer> .
_:t2 <http://www.w3.org/ns/csvw#row> _:t2r3 .
_:t2r3 <http://www.w3.org/1999/02/22-rdf-syntax-ns#type> <http://www.w3.org/ns/csvw#Row> .
_:t2r3 <http://www.w3.org/ns/csvw#rownum> "3"^^<http://www.w3.org/2001/XMLSchema#integer> .
_:t2r3 <http://www.w3.org/ns/csvw#url> <http://example.org/country_slice.csv#row=4> .
_:t2r3 <http://www.w3.org/ns/csvw#describes> _:t2r3s .
_:t2r3s <http://example.org/country_slice.csv#countryRef> <http://example.org/countries.csv#AF> .
_:t2r3s <http://example.org/country_slice.csv#year> "1962"^^<http://www.w3.org/2001/XMLSchema#gYear> .
_:t2r3s <http://example.org/country_slice.csv#population> "9989846"^^<http://www.w3.org/2001/XMLSchema#integer> .
"#;

#[test]
fn slices_have_their_minimal_graph(rt: HostRuntime) -> Result<(), Fail> {
    assert!(rt;
        writes(
            rt.alloc(),
            META,
            &[COUNTRIES, SLICE],
            Mode::Minimal,
            MINIMAL
        )?
    );
    Ok(())
}

#[test]
fn slices_have_their_standard_graph(rt: HostRuntime) -> Result<(), Fail> {
    assert!(rt;
        writes(
            rt.alloc(),
            META,
            &[COUNTRIES, SLICE],
            Mode::Standard,
            STANDARD
        )?
    );
    Ok(())
}
