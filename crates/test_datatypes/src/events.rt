//! The example of csv2rdf with virtual columns and several subjects for each row (section 7.3): a list of concerts.
//!
//! In standard mode a triple with csvw:describes comes before each cell whose subject is not that of the cell before it.
//! So some of these triples are there more than once. As a set of triples it is the graph of the Recommendation.
use crate::examples::writes;
use csvw_triples_core::Mode;
use std::test::Fail;

static META: &str = r##"{
  "@context": ["http://www.w3.org/ns/csvw", {"@language": "en"}],
  "url": "events-listing.csv",
  "dialect": {"trim": true},
  "tableSchema": {
    "columns": [{
      "name": "name",
      "titles": "Name",
      "aboutUrl": "#event-{_row}",
      "propertyUrl": "schema:name"
    }, {
      "name": "start_date",
      "titles": "Start Date",
      "datatype": {"base": "datetime", "format": "yyyy-MM-ddTHH:mm"},
      "aboutUrl": "#event-{_row}",
      "propertyUrl": "schema:startDate"
    }, {
      "name": "location_name",
      "titles": "Location Name",
      "aboutUrl": "#place-{_row}",
      "propertyUrl": "schema:name"
    }, {
      "name": "location_address",
      "titles": "Location Address",
      "aboutUrl": "#place-{_row}",
      "propertyUrl": "schema:address"
    }, {
      "name": "ticket_url",
      "titles": "Ticket Url",
      "datatype": "anyURI",
      "aboutUrl": "#offer-{_row}",
      "propertyUrl": "schema:url"
    }, {
      "name": "type_event",
      "virtual": true,
      "aboutUrl": "#event-{_row}",
      "propertyUrl": "rdf:type",
      "valueUrl": "schema:MusicEvent"
    }, {
      "name": "type_place",
      "virtual": true,
      "aboutUrl": "#place-{_row}",
      "propertyUrl": "rdf:type",
      "valueUrl": "schema:Place"
    }, {
      "name": "type_offer",
      "virtual": true,
      "aboutUrl": "#offer-{_row}",
      "propertyUrl": "rdf:type",
      "valueUrl": "schema:Offer"
    }, {
      "name": "location",
      "virtual": true,
      "aboutUrl": "#event-{_row}",
      "propertyUrl": "schema:location",
      "valueUrl": "#place-{_row}"
    }, {
      "name": "offers",
      "virtual": true,
      "aboutUrl": "#event-{_row}",
      "propertyUrl": "schema:offers",
      "valueUrl": "#offer-{_row}"
    }]
  }
}"##;

static TEXT: &str = r#"Name,Start Date,Location Name,Location Address,Ticket Url
B.B. King,2014-04-12T19:30,"Lupo’s Heartbreak Hotel","79 Washington St., Providence, RI",https://www.etix.com/ticket/1771656
B.B. King,2014-04-13T20:00,"Lynn Auditorium","Lynn, MA, 01901",http://frontgatetickets.com/venue.php?id=11766
"#;

static MINIMAL: &str =
    r#"<http://example.org/events-listing.csv#event-1> <http://schema.org/name> "B.B. King" .
<http://example.org/events-listing.csv#event-1> <http://schema.org/startDate> "2014-04-12T19:30:00"^^<http://www.w3.org/2001/XMLSchema#dateTime> .
<http://example.org/events-listing.csv#place-1> <http://schema.org/name> "Lupo’s Heartbreak Hotel" .
<http://example.org/events-listing.csv#place-1> <http://schema.org/address> "79 Washington St., Providence, RI" .
<http://example.org/events-listing.csv#offer-1> <http://schema.org/url> "https://www.etix.com/ticket/1771656"^^<http://www.w3.org/2001/XMLSchema#anyURI> .
<http://example.org/events-listing.csv#event-1> <http://www.w3.org/1999/02/22-rdf-syntax-ns#type> <http://schema.org/MusicEvent> .
<http://example.org/events-listing.csv#place-1> <http://www.w3.org/1999/02/22-rdf-syntax-ns#type> <http://schema.org/Place> .
<http://example.org/events-listing.csv#offer-1> <http://www.w3.org/1999/02/22-rdf-syntax-ns#type> <http://schema.org/Offer> .
<http://example.org/events-listing.csv#event-1> <http://schema.org/location> <http://example.org/events-listing.csv#place-1> .
<http://example.org/events-listing.csv#event-1> <http://schema.org/offers> <http://example.org/events-listing.csv#offer-1> .
<http://example.org/events-listing.csv#event-2> <http://schema.org/name> "B.B. King" .
<http://example.org/events-listing.csv#event-2> <http://schema.org/startDate> "2014-04-13T20:00:00"^^<http://www.w3.org/2001/XMLSchema#dateTime> .
<http://example.org/events-listing.csv#place-2> <http://schema.org/name> "Lynn Auditorium" .
<http://example.org/events-listing.csv#place-2> <http://schema.org/address> "Lynn, MA, 01901" .
<http://example.org/events-listing.csv#offer-2> <http://schema.org/url> "http://frontgatetickets.com/venue.php?id=11766"^^<http://www.w3.org/2001/XMLSchema#anyURI> .
<http://example.org/events-listing.csv#event-2> <http://www.w3.org/1999/02/22-rdf-syntax-ns#type> <http://schema.org/MusicEvent> .
<http://example.org/events-listing.csv#place-2> <http://www.w3.org/1999/02/22-rdf-syntax-ns#type> <http://schema.org/Place> .
<http://example.org/events-listing.csv#offer-2> <http://www.w3.org/1999/02/22-rdf-syntax-ns#type> <http://schema.org/Offer> .
<http://example.org/events-listing.csv#event-2> <http://schema.org/location> <http://example.org/events-listing.csv#place-2> .
<http://example.org/events-listing.csv#event-2> <http://schema.org/offers> <http://example.org/events-listing.csv#offer-2> .
"#;

static STANDARD: &str =
    r#"_:g <http://www.w3.org/1999/02/22-rdf-syntax-ns#type> <http://www.w3.org/ns/csvw#TableGroup> .
_:g <http://www.w3.org/ns/csvw#table> _:t1 .
_:t1 <http://www.w3.org/1999/02/22-rdf-syntax-ns#type> <http://www.w3.org/ns/csvw#Table> .
_:t1 <http://www.w3.org/ns/csvw#url> <http://example.org/events-listing.csv> .
_:t1 <http://www.w3.org/ns/csvw#row> _:t1r1 .
_:t1r1 <http://www.w3.org/1999/02/22-rdf-syntax-ns#type> <http://www.w3.org/ns/csvw#Row> .
_:t1r1 <http://www.w3.org/ns/csvw#rownum> "1"^^<http://www.w3.org/2001/XMLSchema#integer> .
_:t1r1 <http://www.w3.org/ns/csvw#url> <http://example.org/events-listing.csv#row=2> .
_:t1r1 <http://www.w3.org/ns/csvw#describes> <http://example.org/events-listing.csv#event-1> .
<http://example.org/events-listing.csv#event-1> <http://schema.org/name> "B.B. King" .
<http://example.org/events-listing.csv#event-1> <http://schema.org/startDate> "2014-04-12T19:30:00"^^<http://www.w3.org/2001/XMLSchema#dateTime> .
_:t1r1 <http://www.w3.org/ns/csvw#describes> <http://example.org/events-listing.csv#place-1> .
<http://example.org/events-listing.csv#place-1> <http://schema.org/name> "Lupo’s Heartbreak Hotel" .
<http://example.org/events-listing.csv#place-1> <http://schema.org/address> "79 Washington St., Providence, RI" .
_:t1r1 <http://www.w3.org/ns/csvw#describes> <http://example.org/events-listing.csv#offer-1> .
<http://example.org/events-listing.csv#offer-1> <http://schema.org/url> "https://www.etix.com/ticket/1771656"^^<http://www.w3.org/2001/XMLSchema#anyURI> .
_:t1r1 <http://www.w3.org/ns/csvw#describes> <http://example.org/events-listing.csv#event-1> .
<http://example.org/events-listing.csv#event-1> <http://www.w3.org/1999/02/22-rdf-syntax-ns#type> <http://schema.org/MusicEvent> .
_:t1r1 <http://www.w3.org/ns/csvw#describes> <http://example.org/events-listing.csv#place-1> .
<http://example.org/events-listing.csv#place-1> <http://www.w3.org/1999/02/22-rdf-syntax-ns#type> <http://schema.org/Place> .
_:t1r1 <http://www.w3.org/ns/csvw#describes> <http://example.org/events-listing.csv#offer-1> .
<http://example.org/events-listing.csv#offer-1> <http://www.w3.org/1999/02/22-rdf-syntax-ns#type> <http://schema.org/Offer> .
_:t1r1 <http://www.w3.org/ns/csvw#describes> <http://example.org/events-listing.csv#event-1> .
<http://example.org/events-listing.csv#event-1> <http://schema.org/location> <http://example.org/events-listing.csv#place-1> .
<http://example.org/events-listing.csv#event-1> <http://schema.org/offers> <http://example.org/events-listing.csv#offer-1> .
_:t1 <http://www.w3.org/ns/csvw#row> _:t1r2 .
_:t1r2 <http://www.w3.org/1999/02/22-rdf-syntax-ns#type> <http://www.w3.org/ns/csvw#Row> .
_:t1r2 <http://www.w3.org/ns/csvw#rownum> "2"^^<http://www.w3.org/2001/XMLSchema#integer> .
_:t1r2 <http://www.w3.org/ns/csvw#url> <http://example.org/events-listing.csv#row=3> .
_:t1r2 <http://www.w3.org/ns/csvw#describes> <http://example.org/events-listing.csv#event-2> .
<http://example.org/events-listing.csv#event-2> <http://schema.org/name> "B.B. King" .
<http://example.org/events-listing.csv#event-2> <http://schema.org/startDate> "2014-04-13T20:00:00"^^<http://www.w3.org/2001/XMLSchema#dateTime> .
_:t1r2 <http://www.w3.org/ns/csvw#describes> <http://example.org/events-listing.csv#place-2> .
<http://example.org/events-listing.csv#place-2> <http://schema.org/name> "Lynn Auditorium" .
<http://example.org/events-listing.csv#place-2> <http://schema.org/address> "Lynn, MA, 01901" .
_:t1r2 <http://www.w3.org/ns/csvw#describes> <http://example.org/events-listing.csv#offer-2> .
<http://example.org/events-listing.csv#offer-2> <http://schema.org/url> "http://frontgatetickets.com/venue.php?id=11766"^^<http://www.w3.org/2001/XMLSchema#anyURI> .
_:t1r2 <http://www.w3.org/ns/csvw#describes> <http://example.org/events-listing.csv#event-2> .
<http://example.org/events-listing.csv#event-2> <http://www.w3.org/1999/02/22-rdf-syntax-ns#type> <http://schema.org/MusicEvent> .
_:t1r2 <http://www.w3.org/ns/csvw#describes> <http://example.org/events-listing.csv#place-2> .
<http://example.org/events-listing.csv#place-2> <http://www.w3.org/1999/02/22-rdf-syntax-ns#type> <http://schema.org/Place> .
_:t1r2 <http://www.w3.org/ns/csvw#describes> <http://example.org/events-listing.csv#offer-2> .
<http://example.org/events-listing.csv#offer-2> <http://www.w3.org/1999/02/22-rdf-syntax-ns#type> <http://schema.org/Offer> .
_:t1r2 <http://www.w3.org/ns/csvw#describes> <http://example.org/events-listing.csv#event-2> .
<http://example.org/events-listing.csv#event-2> <http://schema.org/location> <http://example.org/events-listing.csv#place-2> .
<http://example.org/events-listing.csv#event-2> <http://schema.org/offers> <http://example.org/events-listing.csv#offer-2> .
"#;

#[test]
fn events_have_their_minimal_graph(rt: HostRuntime) -> Result<(), Fail> {
    assert!(rt; writes(rt.alloc(), META, &[TEXT], Mode::Minimal, MINIMAL)?);
    Ok(())
}

#[test]
fn events_have_their_standard_graph(rt: HostRuntime) -> Result<(), Fail> {
    assert!(rt; writes(rt.alloc(), META, &[TEXT], Mode::Standard, STANDARD)?);
    Ok(())
}
