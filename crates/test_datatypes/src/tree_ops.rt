//! The example of csv2rdf with rich annotations (section 7.2): operations on trees, with a column of XML.
//!
//! In the file of the Recommendation there are spaces between comments. By the Model (section 6.4) the items of strings
//! keep them, so here they are left out. The empty path of the publisher's URL becomes `/`, by the URL Standard.
use crate::examples::writes;
use csvw_meta_core::{MetaCode, Profile};
use csvw_session::Stop;
use csvw_triples_core::Mode;
use std::test::Fail;
use test_runs::run_in_profile;

static META: &str = r#"{
  "@context": ["http://www.w3.org/ns/csvw", {"@language": "en"}],
  "@id": "http://example.org/tree-ops-ext",
  "url": "tree-ops-ext.csv",
  "dc:title": "Tree Operations",
  "dcat:keyword": ["tree", "street", "maintenance"],
  "dc:publisher": [{"schema:name": "Example Municipality", "schema:url": {"@id": "http://example.org"}}],
  "dc:license": {"@id": "http://opendefinition.org/licenses/cc-by/"},
  "dc:modified": {"@value": "2010-12-31", "@type": "xsd:date"},
  "notes": [{
    "@type": "oa:Annotation",
    "oa:hasTarget": {"@id": "http://example.org/tree-ops-ext"},
    "oa:hasBody": {
      "@type": "oa:EmbeddedContent",
      "rdf:value": "This is a very interesting comment about the table; it's a table!",
      "dc:format": {"@value": "text/plain"}
    }
  }],
  "dialect": {"trim": true},
  "tableSchema": {
    "columns": [
      {"name": "GID", "titles": ["GID", "Generic Identifier"],
        "dc:description": "An identifier for the operation on a tree.",
        "datatype": "string", "required": true, "suppressOutput": true},
      {"name": "on_street", "titles": "On Street",
        "dc:description": "The street that the tree is on.",
        "datatype": "string"},
      {"name": "species", "titles": "Species",
        "dc:description": "The species of the tree.",
        "datatype": "string"},
      {"name": "trim_cycle", "titles": "Trim Cycle",
        "dc:description": "The operation performed on the tree.",
        "datatype": "string", "lang": "en"},
      {"name": "dbh", "titles": "Diameter at Breast Ht",
        "dc:description": "Diameter at Breast Height (DBH) of the tree (in feet), measured 4.5ft above ground.",
        "datatype": "integer"},
      {"name": "inventory_date", "titles": "Inventory Date",
        "dc:description": "The date of the operation that was performed.",
        "datatype": {"base": "date", "format": "M/d/yyyy"}},
      {"name": "comments", "titles": "Comments",
        "dc:description": "Supplementary comments relating to the operation or tree.",
        "datatype": "string", "separator": ";"},
      {"name": "protected", "titles": "Protected",
        "dc:description": "Indication (YES / NO) whether the tree is subject to a protection order.",
        "datatype": {"base": "boolean", "format": "YES|NO"}, "default": "NO"},
      {"name": "kml", "titles": "KML",
        "dc:description": "KML-encoded description of tree location.",
        "datatype": "xml"}
    ],
    "primaryKey": "GID",
    "aboutUrl": "http://example.org/tree-ops-ext#gid-{GID}"
  }
}"#;

static TEXT: &str =
    r#"GID,On Street,Species,Trim Cycle,Diameter at Breast Ht,Inventory Date,Comments,Protected,KML
1,ADDISON AV,Celtis australis,Large Tree Routine Prune,11,10/18/2010,,,"<Point><coordinates>-122.156485,37.440963</coordinates></Point>"
2,EMERSON ST,Liquidambar styraciflua,Large Tree Routine Prune,11,6/2/2010,,,"<Point><coordinates>-122.156749,37.440958</coordinates></Point>"
6,ADDISON AV,Robinia pseudoacacia,Large Tree Routine Prune,29,6/1/2010,cavity or decay;trunk decay;codominant leaders;included bark;large leader or limb decay;previous failure root damage;root decay;beware of BEES,YES,"<Point><coordinates>-122.156299,37.441151</coordinates></Point>"
"#;

static MINIMAL: &str =
    r#"<http://example.org/tree-ops-ext#gid-1> <http://example.org/tree-ops-ext.csv#on_street> "ADDISON AV" .
<http://example.org/tree-ops-ext#gid-1> <http://example.org/tree-ops-ext.csv#species> "Celtis australis" .
<http://example.org/tree-ops-ext#gid-1> <http://example.org/tree-ops-ext.csv#trim_cycle> "Large Tree Routine Prune"@en .
<http://example.org/tree-ops-ext#gid-1> <http://example.org/tree-ops-ext.csv#dbh> "11"^^<http://www.w3.org/2001/XMLSchema#integer> .
<http://example.org/tree-ops-ext#gid-1> <http://example.org/tree-ops-ext.csv#inventory_date> "2010-10-18"^^<http://www.w3.org/2001/XMLSchema#date> .
<http://example.org/tree-ops-ext#gid-1> <http://example.org/tree-ops-ext.csv#protected> "false"^^<http://www.w3.org/2001/XMLSchema#boolean> .
<http://example.org/tree-ops-ext#gid-1> <http://example.org/tree-ops-ext.csv#kml> "<Point><coordinates>-122.156485,37.440963</coordinates></Point>"^^<http://www.w3.org/1999/02/22-rdf-syntax-ns#XMLLiteral> .
<http://example.org/tree-ops-ext#gid-2> <http://example.org/tree-ops-ext.csv#on_street> "EMERSON ST" .
<http://example.org/tree-ops-ext#gid-2> <http://example.org/tree-ops-ext.csv#species> "Liquidambar styraciflua" .
<http://example.org/tree-ops-ext#gid-2> <http://example.org/tree-ops-ext.csv#trim_cycle> "Large Tree Routine Prune"@en .
<http://example.org/tree-ops-ext#gid-2> <http://example.org/tree-ops-ext.csv#dbh> "11"^^<http://www.w3.org/2001/XMLSchema#integer> .
<http://example.org/tree-ops-ext#gid-2> <http://example.org/tree-ops-ext.csv#inventory_date> "2010-06-02"^^<http://www.w3.org/2001/XMLSchema#date> .
<http://example.org/tree-ops-ext#gid-2> <http://example.org/tree-ops-ext.csv#protected> "false"^^<http://www.w3.org/2001/XMLSchema#boolean> .
<http://example.org/tree-ops-ext#gid-2> <http://example.org/tree-ops-ext.csv#kml> "<Point><coordinates>-122.156749,37.440958</coordinates></Point>"^^<http://www.w3.org/1999/02/22-rdf-syntax-ns#XMLLiteral> .
<http://example.org/tree-ops-ext#gid-6> <http://example.org/tree-ops-ext.csv#on_street> "ADDISON AV" .
<http://example.org/tree-ops-ext#gid-6> <http://example.org/tree-ops-ext.csv#species> "Robinia pseudoacacia" .
<http://example.org/tree-ops-ext#gid-6> <http://example.org/tree-ops-ext.csv#trim_cycle> "Large Tree Routine Prune"@en .
<http://example.org/tree-ops-ext#gid-6> <http://example.org/tree-ops-ext.csv#dbh> "29"^^<http://www.w3.org/2001/XMLSchema#integer> .
<http://example.org/tree-ops-ext#gid-6> <http://example.org/tree-ops-ext.csv#inventory_date> "2010-06-01"^^<http://www.w3.org/2001/XMLSchema#date> .
<http://example.org/tree-ops-ext#gid-6> <http://example.org/tree-ops-ext.csv#comments> "cavity or decay" .
<http://example.org/tree-ops-ext#gid-6> <http://example.org/tree-ops-ext.csv#comments> "trunk decay" .
<http://example.org/tree-ops-ext#gid-6> <http://example.org/tree-ops-ext.csv#comments> "codominant leaders" .
<http://example.org/tree-ops-ext#gid-6> <http://example.org/tree-ops-ext.csv#comments> "included bark" .
<http://example.org/tree-ops-ext#gid-6> <http://example.org/tree-ops-ext.csv#comments> "large leader or limb decay" .
<http://example.org/tree-ops-ext#gid-6> <http://example.org/tree-ops-ext.csv#comments> "previous failure root damage" .
<http://example.org/tree-ops-ext#gid-6> <http://example.org/tree-ops-ext.csv#comments> "root decay" .
<http://example.org/tree-ops-ext#gid-6> <http://example.org/tree-ops-ext.csv#comments> "beware of BEES" .
<http://example.org/tree-ops-ext#gid-6> <http://example.org/tree-ops-ext.csv#protected> "true"^^<http://www.w3.org/2001/XMLSchema#boolean> .
<http://example.org/tree-ops-ext#gid-6> <http://example.org/tree-ops-ext.csv#kml> "<Point><coordinates>-122.156299,37.441151</coordinates></Point>"^^<http://www.w3.org/1999/02/22-rdf-syntax-ns#XMLLiteral> .
"#;

static STANDARD: &str =
    r#"_:g <http://www.w3.org/1999/02/22-rdf-syntax-ns#type> <http://www.w3.org/ns/csvw#TableGroup> .
_:g <http://www.w3.org/ns/csvw#table> <http://example.org/tree-ops-ext> .
<http://example.org/tree-ops-ext> <http://www.w3.org/1999/02/22-rdf-syntax-ns#type> <http://www.w3.org/ns/csvw#Table> .
<http://example.org/tree-ops-ext> <http://www.w3.org/ns/csvw#url> <http://example.org/tree-ops-ext.csv> .
<http://example.org/tree-ops-ext> <http://purl.org/dc/terms/license> <http://opendefinition.org/licenses/cc-by/> .
<http://example.org/tree-ops-ext> <http://purl.org/dc/terms/modified> "2010-12-31"^^<http://www.w3.org/2001/XMLSchema#date> .
<http://example.org/tree-ops-ext> <http://purl.org/dc/terms/publisher> _:a1 .
_:a1 <http://schema.org/name> "Example Municipality"@en .
_:a1 <http://schema.org/url> <http://example.org/> .
<http://example.org/tree-ops-ext> <http://purl.org/dc/terms/title> "Tree Operations"@en .
<http://example.org/tree-ops-ext> <http://www.w3.org/ns/dcat#keyword> "tree"@en .
<http://example.org/tree-ops-ext> <http://www.w3.org/ns/dcat#keyword> "street"@en .
<http://example.org/tree-ops-ext> <http://www.w3.org/ns/dcat#keyword> "maintenance"@en .
<http://example.org/tree-ops-ext> <http://www.w3.org/ns/csvw#note> _:a2 .
_:a2 <http://www.w3.org/1999/02/22-rdf-syntax-ns#type> <http://www.w3.org/ns/oa#Annotation> .
_:a2 <http://www.w3.org/ns/oa#hasBody> _:a3 .
_:a3 <http://www.w3.org/1999/02/22-rdf-syntax-ns#type> <http://www.w3.org/ns/oa#EmbeddedContent> .
_:a3 <http://purl.org/dc/terms/format> "text/plain" .
_:a3 <http://www.w3.org/1999/02/22-rdf-syntax-ns#value> "This is a very interesting comment about the table; it's a table!"@en .
_:a2 <http://www.w3.org/ns/oa#hasTarget> <http://example.org/tree-ops-ext> .
<http://example.org/tree-ops-ext> <http://www.w3.org/ns/csvw#row> _:t1r1 .
_:t1r1 <http://www.w3.org/1999/02/22-rdf-syntax-ns#type> <http://www.w3.org/ns/csvw#Row> .
_:t1r1 <http://www.w3.org/ns/csvw#rownum> "1"^^<http://www.w3.org/2001/XMLSchema#integer> .
_:t1r1 <http://www.w3.org/ns/csvw#url> <http://example.org/tree-ops-ext.csv#row=2> .
_:t1r1 <http://www.w3.org/ns/csvw#describes> <http://example.org/tree-ops-ext#gid-1> .
<http://example.org/tree-ops-ext#gid-1> <http://example.org/tree-ops-ext.csv#on_street> "ADDISON AV" .
<http://example.org/tree-ops-ext#gid-1> <http://example.org/tree-ops-ext.csv#species> "Celtis australis" .
<http://example.org/tree-ops-ext#gid-1> <http://example.org/tree-ops-ext.csv#trim_cycle> "Large Tree Routine Prune"@en .
<http://example.org/tree-ops-ext#gid-1> <http://example.org/tree-ops-ext.csv#dbh> "11"^^<http://www.w3.org/2001/XMLSchema#integer> .
<http://example.org/tree-ops-ext#gid-1> <http://example.org/tree-ops-ext.csv#inventory_date> "2010-10-18"^^<http://www.w3.org/2001/XMLSchema#date> .
<http://example.org/tree-ops-ext#gid-1> <http://example.org/tree-ops-ext.csv#protected> "false"^^<http://www.w3.org/2001/XMLSchema#boolean> .
<http://example.org/tree-ops-ext#gid-1> <http://example.org/tree-ops-ext.csv#kml> "<Point><coordinates>-122.156485,37.440963</coordinates></Point>"^^<http://www.w3.org/1999/02/22-rdf-syntax-ns#XMLLiteral> .
<http://example.org/tree-ops-ext> <http://www.w3.org/ns/csvw#row> _:t1r2 .
_:t1r2 <http://www.w3.org/1999/02/22-rdf-syntax-ns#type> <http://www.w3.org/ns/csvw#Row> .
_:t1r2 <http://www.w3.org/ns/csvw#rownum> "2"^^<http://www.w3.org/2001/XMLSchema#integer> .
_:t1r2 <http://www.w3.org/ns/csvw#url> <http://example.org/tree-ops-ext.csv#row=3> .
_:t1r2 <http://www.w3.org/ns/csvw#describes> <http://example.org/tree-ops-ext#gid-2> .
<http://example.org/tree-ops-ext#gid-2> <http://example.org/tree-ops-ext.csv#on_street> "EMERSON ST" .
<http://example.org/tree-ops-ext#gid-2> <http://example.org/tree-ops-ext.csv#species> "Liquidambar styraciflua" .
<http://example.org/tree-ops-ext#gid-2> <http://example.org/tree-ops-ext.csv#trim_cycle> "Large Tree Routine Prune"@en .
<http://example.org/tree-ops-ext#gid-2> <http://example.org/tree-ops-ext.csv#dbh> "11"^^<http://www.w3.org/2001/XMLSchema#integer> .
<http://example.org/tree-ops-ext#gid-2> <http://example.org/tree-ops-ext.csv#inventory_date> "2010-06-02"^^<http://www.w3.org/2001/XMLSchema#date> .
<http://example.org/tree-ops-ext#gid-2> <http://example.org/tree-ops-ext.csv#protected> "false"^^<http://www.w3.org/2001/XMLSchema#boolean> .
<http://example.org/tree-ops-ext#gid-2> <http://example.org/tree-ops-ext.csv#kml> "<Point><coordinates>-122.156749,37.440958</coordinates></Point>"^^<http://www.w3.org/1999/02/22-rdf-syntax-ns#XMLLiteral> .
<http://example.org/tree-ops-ext> <http://www.w3.org/ns/csvw#row> _:t1r3 .
_:t1r3 <http://www.w3.org/1999/02/22-rdf-syntax-ns#type> <http://www.w3.org/ns/csvw#Row> .
_:t1r3 <http://www.w3.org/ns/csvw#rownum> "3"^^<http://www.w3.org/2001/XMLSchema#integer> .
_:t1r3 <http://www.w3.org/ns/csvw#url> <http://example.org/tree-ops-ext.csv#row=4> .
_:t1r3 <http://www.w3.org/ns/csvw#describes> <http://example.org/tree-ops-ext#gid-6> .
<http://example.org/tree-ops-ext#gid-6> <http://example.org/tree-ops-ext.csv#on_street> "ADDISON AV" .
<http://example.org/tree-ops-ext#gid-6> <http://example.org/tree-ops-ext.csv#species> "Robinia pseudoacacia" .
<http://example.org/tree-ops-ext#gid-6> <http://example.org/tree-ops-ext.csv#trim_cycle> "Large Tree Routine Prune"@en .
<http://example.org/tree-ops-ext#gid-6> <http://example.org/tree-ops-ext.csv#dbh> "29"^^<http://www.w3.org/2001/XMLSchema#integer> .
<http://example.org/tree-ops-ext#gid-6> <http://example.org/tree-ops-ext.csv#inventory_date> "2010-06-01"^^<http://www.w3.org/2001/XMLSchema#date> .
<http://example.org/tree-ops-ext#gid-6> <http://example.org/tree-ops-ext.csv#comments> "cavity or decay" .
<http://example.org/tree-ops-ext#gid-6> <http://example.org/tree-ops-ext.csv#comments> "trunk decay" .
<http://example.org/tree-ops-ext#gid-6> <http://example.org/tree-ops-ext.csv#comments> "codominant leaders" .
<http://example.org/tree-ops-ext#gid-6> <http://example.org/tree-ops-ext.csv#comments> "included bark" .
<http://example.org/tree-ops-ext#gid-6> <http://example.org/tree-ops-ext.csv#comments> "large leader or limb decay" .
<http://example.org/tree-ops-ext#gid-6> <http://example.org/tree-ops-ext.csv#comments> "previous failure root damage" .
<http://example.org/tree-ops-ext#gid-6> <http://example.org/tree-ops-ext.csv#comments> "root decay" .
<http://example.org/tree-ops-ext#gid-6> <http://example.org/tree-ops-ext.csv#comments> "beware of BEES" .
<http://example.org/tree-ops-ext#gid-6> <http://example.org/tree-ops-ext.csv#protected> "true"^^<http://www.w3.org/2001/XMLSchema#boolean> .
<http://example.org/tree-ops-ext#gid-6> <http://example.org/tree-ops-ext.csv#kml> "<Point><coordinates>-122.156299,37.441151</coordinates></Point>"^^<http://www.w3.org/1999/02/22-rdf-syntax-ns#XMLLiteral> .
"#;

#[test]
fn trees_have_their_minimal_graph(rt: HostRuntime) -> Result<(), Fail> {
    assert!(rt; writes(rt.alloc(), META, &[TEXT], Mode::Minimal, MINIMAL)?);
    Ok(())
}

#[test]
fn trees_have_their_standard_graph(rt: HostRuntime) -> Result<(), Fail> {
    assert!(rt; writes(rt.alloc(), META, &[TEXT], Mode::Standard, STANDARD)?);
    Ok(())
}

#[test]
fn the_core_refuses_their_column(rt: HostRuntime) -> Result<(), Fail> {
    let ran = run_in_profile(rt.alloc(), Profile::Core, META, TEXT)?;
    let is_refused = match &ran.stop {
        Some(Stop::Meta(fault)) => {
            fault.code == MetaCode::NotSupported
                && fault.pointer.as_str() == "/tableSchema/columns/8/datatype"
        }
        _ => false,
    };
    assert!(rt; is_refused);
    Ok(())
}
