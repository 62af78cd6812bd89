//! The example of csv2rdf with four tables that refer to one another (section 7.4): organizations, professions, and the
//! senior and junior roles of a public body.
//!
//! As in the Recommendation, each schema is a file of its own. There foreign keys refer to schemas, which isn't supported:
//! here they refer to the URLs of tables. In standard mode the triple that describes a senior post is there twice, before
//! and after the person.
use crate::examples::writes_with;
use csvw_triples_core::Mode;
use std::test::Fail;

static META: &str = r#"{
  "@type": "TableGroup",
  "@context": "http://www.w3.org/ns/csvw",
  "tables": [{
    "url": "http://example.org/gov.uk/data/organizations.csv",
    "tableSchema": "http://example.org/gov.uk/schema/organizations.json",
    "suppressOutput": true
  }, {
    "url": "http://example.org/gov.uk/data/professions.csv",
    "tableSchema": "http://example.org/gov.uk/schema/professions.json",
    "suppressOutput": true
  }, {
    "url": "http://example.org/senior-roles.csv",
    "tableSchema": "http://example.org/gov.uk/schema/senior-roles.json"
  }, {
    "url": "http://example.org/junior-roles.csv",
    "tableSchema": "http://example.org/gov.uk/schema/junior-roles.json"
  }]
}"#;

/// The files of the schemas, by their URLs.
static SCHEMAS: [(&str, &str); 4] = [
    (
        "http://example.org/gov.uk/schema/organizations.json",
        r#"{
  "@context": "http://www.w3.org/ns/csvw",
  "@id": "http://example.org/gov.uk/schema/organizations.json",
  "columns": [
    {"name": "ref", "titles": "Organization Unique Reference", "datatype": "string", "required": true,
      "propertyUrl": "dc:identifier"},
    {"name": "name", "titles": "Organization Name", "datatype": "string", "propertyUrl": "foaf:name"},
    {"name": "department", "titles": "Department Reference", "datatype": "string", "null": "xx",
      "propertyUrl": "org:subOrganizationOf", "valueUrl": "http://example.org/organization/{department}"}
  ],
  "primaryKey": "ref",
  "aboutUrl": "http://example.org/organization/{ref}",
  "foreignKeys": [
    {"columnReference": "department",
      "reference": {"resource": "http://example.org/gov.uk/data/organizations.csv", "columnReference": "ref"}}
  ]
}"#,
    ),
    (
        "http://example.org/gov.uk/schema/professions.json",
        r#"{
  "@context": "http://www.w3.org/ns/csvw",
  "@id": "http://example.org/gov.uk/schema/professions.json",
  "columns": [{"name": "name", "titles": "Profession", "datatype": "string", "required": true}],
  "primaryKey": "name"
}"#,
    ),
    (
        "http://example.org/gov.uk/schema/senior-roles.json",
        r#"{
  "@context": "http://www.w3.org/ns/csvw",
  "@id": "http://example.org/gov.uk/schema/senior-roles.json",
  "columns": [
    {"name": "ref", "titles": "Post Unique Reference", "datatype": "string", "required": true,
      "propertyUrl": "dc:identifier"},
    {"name": "name", "titles": "Name", "datatype": "string",
      "aboutUrl": "http://example.org/person/{_row}", "propertyUrl": "foaf:name"},
    {"name": "grade", "titles": "Grade", "datatype": "string",
      "propertyUrl": "http://example.org/gov.uk/def/grade"},
    {"name": "job", "titles": "Job Title", "datatype": "string",
      "propertyUrl": "http://example.org/gov.uk/def/job"},
    {"name": "reportsTo", "titles": "Reports to Senior Post", "datatype": "string", "null": "xx",
      "propertyUrl": "org:reportsTo", "valueUrl": "http://example.org/post/{reportsTo}"},
    {"name": "profession", "titles": "Profession", "datatype": "string",
      "propertyUrl": "http://example.org/gov.uk/def/profession"},
    {"name": "organizationRef", "titles": "Organization Reference", "datatype": "string", "required": true,
      "propertyUrl": "org:postIn", "valueUrl": "http://example.org/organization/{organizationRef}"},
    {"name": "post_holder", "virtual": true,
      "propertyUrl": "org:heldBy", "valueUrl": "http://example.org/person/{_row}"}
  ],
  "primaryKey": "ref",
  "aboutUrl": "http://example.org/post/{ref}",
  "foreignKeys": [
    {"columnReference": "reportsTo",
      "reference": {"resource": "http://example.org/senior-roles.csv", "columnReference": "ref"}},
    {"columnReference": "profession",
      "reference": {"resource": "http://example.org/gov.uk/data/professions.csv", "columnReference": "name"}},
    {"columnReference": "organizationRef",
      "reference": {"resource": "http://example.org/gov.uk/data/organizations.csv", "columnReference": "ref"}}
  ]
}"#,
    ),
    (
        "http://example.org/gov.uk/schema/junior-roles.json",
        r#"{
  "@context": "http://www.w3.org/ns/csvw",
  "@id": "http://example.org/gov.uk/schema/junior-roles.json",
  "columns": [
    {"name": "reportsToSenior", "titles": "Reporting Senior Post", "datatype": "string", "required": true,
      "propertyUrl": "org:reportsTo", "valueUrl": "http://example.org/post/{reportsToSenior}"},
    {"name": "grade", "titles": "Grade", "datatype": "string",
      "propertyUrl": "http://example.org/gov.uk/def/grade"},
    {"name": "min_pay", "titles": "Payscale Minimum (£)", "datatype": "integer",
      "propertyUrl": "http://example.org/gov.uk/def/min_pay"},
    {"name": "max_pay", "titles": "Payscale Maximum (£)", "datatype": "integer",
      "propertyUrl": "http://example.org/gov.uk/def/max_pay"},
    {"name": "job", "titles": "Generic Job Title", "datatype": "string",
      "propertyUrl": "http://example.org/gov.uk/def/job"},
    {"name": "number", "titles": "Number of Posts (FTE)", "datatype": "number",
      "propertyUrl": "http://example.org/gov.uk/def/number_of_posts"},
    {"name": "profession", "titles": "Profession", "datatype": "string",
      "propertyUrl": "http://example.org/gov.uk/def/profession"},
    {"name": "organizationRef", "titles": "Organization Reference", "datatype": "string", "required": true,
      "propertyUrl": "org:postIn", "valueUrl": "http://example.org/organization/{organizationRef}"}
  ],
  "foreignKeys": [
    {"columnReference": "reportsToSenior",
      "reference": {"resource": "http://example.org/senior-roles.csv", "columnReference": "ref"}},
    {"columnReference": "profession",
      "reference": {"resource": "http://example.org/gov.uk/data/professions.csv", "columnReference": "name"}},
    {"columnReference": "organizationRef",
      "reference": {"resource": "http://example.org/gov.uk/data/organizations.csv", "columnReference": "ref"}}
  ]
}"#,
    ),
];

static TEXTS: [&str; 4] = [
    // organizations
    r#"Organization Unique Reference,Organization Name,Department Reference
hefce.ac.uk,Higher Education Funding Council for England,bis.gov.uk
bis.gov.uk,"Department for Business, Innovation and Skills",xx
"#,
    // professions
    r#"Profession
Finance
Information Technology
Operational Delivery
Policy
"#,
    // senior roles
    r#"Post Unique Reference,Name,Grade,Job Title,Reports to Senior Post,Profession,Organization Reference
90115,Steve Egan,SCS1A,Deputy Chief Executive,90334,Finance,hefce.ac.uk
90250,David Sweeney,SCS1A,Director,90334,Operational Delivery,hefce.ac.uk
90284,Heather Fry,SCS1A,Director,90334,Policy,hefce.ac.uk
90334,Sir Alan Langlands,SCS4,Chief Executive,xx,Policy,hefce.ac.uk
"#,
    // junior roles
    r#"Reporting Senior Post,Grade,Payscale Minimum (£),Payscale Maximum (£),Generic Job Title,Number of Posts (FTE),Profession,Organization Reference
90115,4,17426,20002,Administrator,8.67,Operational Delivery,hefce.ac.uk
90115,5,19546,22478,Administrator,0.5,Operational Delivery,hefce.ac.uk
"#,
];

static MINIMAL: &str =
    r#"<http://example.org/post/90115> <http://purl.org/dc/terms/identifier> "90115" .
<http://example.org/person/1> <http://xmlns.com/foaf/0.1/name> "Steve Egan" .
<http://example.org/post/90115> <http://example.org/gov.uk/def/grade> "SCS1A" .
<http://example.org/post/90115> <http://example.org/gov.uk/def/job> "Deputy Chief Executive" .
<http://example.org/post/90115> <http://www.w3.org/ns/org#reportsTo> <http://example.org/post/90334> .
<http://example.org/post/90115> <http://example.org/gov.uk/def/profession> "Finance" .
<http://example.org/post/90115> <http://www.w3.org/ns/org#postIn> <http://example.org/organization/hefce.ac.uk> .
<http://example.org/post/90115> <http://www.w3.org/ns/org#heldBy> <http://example.org/person/1> .
<http://example.org/post/90250> <http://purl.org/dc/terms/identifier> "90250" .
<http://example.org/person/2> <http://xmlns.com/foaf/0.1/name> "David Sweeney" .
<http://example.org/post/90250> <http://example.org/gov.uk/def/grade> "SCS1A" .
<http://example.org/post/90250> <http://example.org/gov.uk/def/job> "Director" .
<http://example.org/post/90250> <http://www.w3.org/ns/org#reportsTo> <http://example.org/post/90334> .
<http://example.org/post/90250> <http://example.org/gov.uk/def/profession> "Operational Delivery" .
<http://example.org/post/90250> <http://www.w3.org/ns/org#postIn> <http://example.org/organization/hefce.ac.uk> .
<http://example.org/post/90250> <http://www.w3.org/ns/org#heldBy> <http://example.org/person/2> .
<http://example.org/post/90284> <http://purl.org/dc/terms/identifier> "90284" .
<http://example.org/person/3> <http://xmlns.com/foaf/0.1/name> "Heather Fry" .
<http://example.org/post/90284> <http://example.org/gov.uk/def/grade> "SCS1A" .
<http://example.org/post/90284> <http://example.org/gov.uk/def/job> "Director" .
<http://example.org/post/90284> <http://www.w3.org/ns/org#reportsTo> <http://example.org/post/90334> .
<http://example.org/post/90284> <http://example.org/gov.uk/def/profession> "Policy" .
<http://example.org/post/90284> <http://www.w3.org/ns/org#postIn> <http://example.org/organization/hefce.ac.uk> .
<http://example.org/post/90284> <http://www.w3.org/ns/org#heldBy> <http://example.org/person/3> .
<http://example.org/post/90334> <http://purl.org/dc/terms/identifier> "90334" .
<http://example.org/person/4> <http://xmlns.com/foaf/0.1/name> "Sir Alan Langlands" .
<http://example.org/post/90334> <http://example.org/gov.uk/def/grade> "SCS4" .
<http://example.org/post/90334> <http://example.org/gov.uk/def/job> "Chief Executive" .
<http://example.org/post/90334> <http://example.org/gov.uk/def/profession> "Policy" .
<http://example.org/post/90334> <http://www.w3.org/ns/org#postIn> <http://example.org/organization/hefce.ac.uk> .
<http://example.org/post/90334> <http://www.w3.org/ns/org#heldBy> <http://example.org/person/4> .
_:t4r1s <http://www.w3.org/ns/org#reportsTo> <http://example.org/post/90115> .
_:t4r1s <http://example.org/gov.uk/def/grade> "4" .
_:t4r1s <http://example.org/gov.uk/def/min_pay> "17426"^^<http://www.w3.org/2001/XMLSchema#integer> .
_:t4r1s <http://example.org/gov.uk/def/max_pay> "20002"^^<http://www.w3.org/2001/XMLSchema#integer> .
_:t4r1s <http://example.org/gov.uk/def/job> "Administrator" .
_:t4r1s <http://example.org/gov.uk/def/number_of_posts> "8.67"^^<http://www.w3.org/2001/XMLSchema#double> .
_:t4r1s <http://example.org/gov.uk/def/profession> "Operational Delivery" .
_:t4r1s <http://www.w3.org/ns/org#postIn> <http://example.org/organization/hefce.ac.uk> .
_:t4r2s <http://www.w3.org/ns/org#reportsTo> <http://example.org/post/90115> .
_:t4r2s <http://example.org/gov.uk/def/grade> "5" .
_:t4r2s <http://example.org/gov.uk/def/min_pay> "19546"^^<http://www.w3.org/2001/XMLSchema#integer> .
_:t4r2s <http://example.org/gov.uk/def/max_pay> "22478"^^<http://www.w3.org/2001/XMLSchema#integer> .
_:t4r2s <http://example.org/gov.uk/def/job> "Administrator" .
_:t4r2s <http://example.org/gov.uk/def/number_of_posts> "0.5"^^<http://www.w3.org/2001/XMLSchema#double> .
_:t4r2s <http://example.org/gov.uk/def/profession> "Operational Delivery" .
_:t4r2s <http://www.w3.org/ns/org#postIn> <http://example.org/organization/hefce.ac.uk> .
"#;

static STANDARD: &str =
    r#"_:g <http://www.w3.org/1999/02/22-rdf-syntax-ns#type> <http://www.w3.org/ns/csvw#TableGroup> .
_:g <http://www.w3.org/ns/csvw#table> _:t3 .
_:t3 <http://www.w3.org/1999/02/22-rdf-syntax-ns#type> <http://www.w3.org/ns/csvw#Table> .
_:t3 <http://www.w3.org/ns/csvw#url> <http://example.org/senior-roles.csv> .
_:g <http://www.w3.org/ns/csvw#table> _:t4 .
_:t4 <http://www.w3.org/1999/02/22-rdf-syntax-ns#type> <http://www.w3.org/ns/csvw#Table> .
_:t4 <http://www.w3.org/ns/csvw#url> <http://example.org/junior-roles.csv> .
_:t3 <http://www.w3.org/ns/csvw#row> _:t3r1 .
_:t3r1 <http://www.w3.org/1999/02/22-rdf-syntax-ns#type> <http://www.w3.org/ns/csvw#Row> .
_:t3r1 <http://www.w3.org/ns/csvw#rownum> "1"^^<http://www.w3.org/2001/XMLSchema#integer> .
_:t3r1 <http://www.w3.org/ns/csvw#url> <http://example.org/senior-roles.csv#row=2> .
_:t3r1 <http://www.w3.org/ns/csvw#describes> <http://example.org/post/90115> .
<http://example.org/post/90115> <http://purl.org/dc/terms/identifier> "90115" .
_:t3r1 <http://www.w3.org/ns/csvw#describes> <http://example.org/person/1> .
<http://example.org/person/1> <http://xmlns.com/foaf/0.1/name> "Steve Egan" .
_:t3r1 <http://www.w3.org/ns/csvw#describes> <http://example.org/post/90115> .
<http://example.org/post/90115> <http://example.org/gov.uk/def/grade> "SCS1A" .
<http://example.org/post/90115> <http://example.org/gov.uk/def/job> "Deputy Chief Executive" .
<http://example.org/post/90115> <http://www.w3.org/ns/org#reportsTo> <http://example.org/post/90334> .
<http://example.org/post/90115> <http://example.org/gov.uk/def/profession> "Finance" .
<http://example.org/post/90115> <http://www.w3.org/ns/org#postIn> <http://example.org/organization/hefce.ac.uk> .
<http://example.org/post/90115> <http://www.w3.org/ns/org#heldBy> <http://example.org/person/1> .
_:t3 <http://www.w3.org/ns/csvw#row> _:t3r2 .
_:t3r2 <http://www.w3.org/1999/02/22-rdf-syntax-ns#type> <http://www.w3.org/ns/csvw#Row> .
_:t3r2 <http://www.w3.org/ns/csvw#rownum> "2"^^<http://www.w3.org/2001/XMLSchema#integer> .
_:t3r2 <http://www.w3.org/ns/csvw#url> <http://example.org/senior-roles.csv#row=3> .
_:t3r2 <http://www.w3.org/ns/csvw#describes> <http://example.org/post/90250> .
<http://example.org/post/90250> <http://purl.org/dc/terms/identifier> "90250" .
_:t3r2 <http://www.w3.org/ns/csvw#describes> <http://example.org/person/2> .
<http://example.org/person/2> <http://xmlns.com/foaf/0.1/name> "David Sweeney" .
_:t3r2 <http://www.w3.org/ns/csvw#describes> <http://example.org/post/90250> .
<http://example.org/post/90250> <http://example.org/gov.uk/def/grade> "SCS1A" .
<http://example.org/post/90250> <http://example.org/gov.uk/def/job> "Director" .
<http://example.org/post/90250> <http://www.w3.org/ns/org#reportsTo> <http://example.org/post/90334> .
<http://example.org/post/90250> <http://example.org/gov.uk/def/profession> "Operational Delivery" .
<http://example.org/post/90250> <http://www.w3.org/ns/org#postIn> <http://example.org/organization/hefce.ac.uk> .
<http://example.org/post/90250> <http://www.w3.org/ns/org#heldBy> <http://example.org/person/2> .
_:t3 <http://www.w3.org/ns/csvw#row> _:t3r3 .
_:t3r3 <http://www.w3.org/1999/02/22-rdf-syntax-ns#type> <http://www.w3.org/ns/csvw#Row> .
_:t3r3 <http://www.w3.org/ns/csvw#rownum> "3"^^<http://www.w3.org/2001/XMLSchema#integer> .
_:t3r3 <http://www.w3.org/ns/csvw#url> <http://example.org/senior-roles.csv#row=4> .
_:t3r3 <http://www.w3.org/ns/csvw#describes> <http://example.org/post/90284> .
<http://example.org/post/90284> <http://purl.org/dc/terms/identifier> "90284" .
_:t3r3 <http://www.w3.org/ns/csvw#describes> <http://example.org/person/3> .
<http://example.org/person/3> <http://xmlns.com/foaf/0.1/name> "Heather Fry" .
_:t3r3 <http://www.w3.org/ns/csvw#describes> <http://example.org/post/90284> .
<http://example.org/post/90284> <http://example.org/gov.uk/def/grade> "SCS1A" .
<http://example.org/post/90284> <http://example.org/gov.uk/def/job> "Director" .
<http://example.org/post/90284> <http://www.w3.org/ns/org#reportsTo> <http://example.org/post/90334> .
<http://example.org/post/90284> <http://example.org/gov.uk/def/profession> "Policy" .
<http://example.org/post/90284> <http://www.w3.org/ns/org#postIn> <http://example.org/organization/hefce.ac.uk> .
<http://example.org/post/90284> <http://www.w3.org/ns/org#heldBy> <http://example.org/person/3> .
_:t3 <http://www.w3.org/ns/csvw#row> _:t3r4 .
_:t3r4 <http://www.w3.org/1999/02/22-rdf-syntax-ns#type> <http://www.w3.org/ns/csvw#Row> .
_:t3r4 <http://www.w3.org/ns/csvw#rownum> "4"^^<http://www.w3.org/2001/XMLSchema#integer> .
_:t3r4 <http://www.w3.org/ns/csvw#url> <http://example.org/senior-roles.csv#row=5> .
_:t3r4 <http://www.w3.org/ns/csvw#describes> <http://example.org/post/90334> .
<http://example.org/post/90334> <http://purl.org/dc/terms/identifier> "90334" .
_:t3r4 <http://www.w3.org/ns/csvw#describes> <http://example.org/person/4> .
<http://example.org/person/4> <http://xmlns.com/foaf/0.1/name> "Sir Alan Langlands" .
_:t3r4 <http://www.w3.org/ns/csvw#describes> <http://example.org/post/90334> .
<http://example.org/post/90334> <http://example.org/gov.uk/def/grade> "SCS4" .
<http://example.org/post/90334> <http://example.org/gov.uk/def/job> "Chief Executive" .
<http://example.org/post/90334> <http://example.org/gov.uk/def/profession> "Policy" .
<http://example.org/post/90334> <http://www.w3.org/ns/org#postIn> <http://example.org/organization/hefce.ac.uk> .
<http://example.org/post/90334> <http://www.w3.org/ns/org#heldBy> <http://example.org/person/4> .
_:t4 <http://www.w3.org/ns/csvw#row> _:t4r1 .
_:t4r1 <http://www.w3.org/1999/02/22-rdf-syntax-ns#type> <http://www.w3.org/ns/csvw#Row> .
_:t4r1 <http://www.w3.org/ns/csvw#rownum> "1"^^<http://www.w3.org/2001/XMLSchema#integer> .
_:t4r1 <http://www.w3.org/ns/csvw#url> <http://example.org/junior-roles.csv#row=2> .
_:t4r1 <http://www.w3.org/ns/csvw#describes> _:t4r1s .
_:t4r1s <http://www.w3.org/ns/org#reportsTo> <http://example.org/post/90115> .
_:t4r1s <http://example.org/gov.uk/def/grade> "4" .
_:t4r1s <http://example.org/gov.uk/def/min_pay> "17426"^^<http://www.w3.org/2001/XMLSchema#integer> .
_:t4r1s <http://example.org/gov.uk/def/max_pay> "20002"^^<http://www.w3.org/2001/XMLSchema#integer> .
_:t4r1s <http://example.org/gov.uk/def/job> "Administrator" .
_:t4r1s <http://example.org/gov.uk/def/number_of_posts> "8.67"^^<http://www.w3.org/2001/XMLSchema#double> .
_:t4r1s <http://example.org/gov.uk/def/profession> "Operational Delivery" .
_:t4r1s <http://www.w3.org/ns/org#postIn> <http://example.org/organization/hefce.ac.uk> .
_:t4 <http://www.w3.org/ns/csvw#row> _:t4r2 .
_:t4r2 <http://www.w3.org/1999/02/22-rdf-syntax-ns#type> <http://www.w3.org/ns/csvw#Row> .
_:t4r2 <http://www.w3.org/ns/csvw#rownum> "2"^^<http://www.w3.org/2001/XMLSchema#integer> .
_:t4r2 <http://www.w3.org/ns/csvw#url> <http://example.org/junior-roles.csv#row=3> .
_:t4r2 <http://www.w3.org/ns/csvw#describes> _:t4r2s .
_:t4r2s <http://www.w3.org/ns/org#reportsTo> <http://example.org/post/90115> .
_:t4r2s <http://example.org/gov.uk/def/grade> "5" .
_:t4r2s <http://example.org/gov.uk/def/min_pay> "19546"^^<http://www.w3.org/2001/XMLSchema#integer> .
_:t4r2s <http://example.org/gov.uk/def/max_pay> "22478"^^<http://www.w3.org/2001/XMLSchema#integer> .
_:t4r2s <http://example.org/gov.uk/def/job> "Administrator" .
_:t4r2s <http://example.org/gov.uk/def/number_of_posts> "0.5"^^<http://www.w3.org/2001/XMLSchema#double> .
_:t4r2s <http://example.org/gov.uk/def/profession> "Operational Delivery" .
_:t4r2s <http://www.w3.org/ns/org#postIn> <http://example.org/organization/hefce.ac.uk> .
"#;

#[test]
fn roles_have_their_minimal_graph(rt: HostRuntime) -> Result<(), Fail> {
    assert!(rt; writes_with(rt.alloc(), (META, &SCHEMAS), &TEXTS, Mode::Minimal, MINIMAL)?);
    Ok(())
}

#[test]
fn roles_have_their_standard_graph(rt: HostRuntime) -> Result<(), Fail> {
    assert!(rt;
        writes_with(
            rt.alloc(),
            (META, &SCHEMAS),
            &TEXTS,
            Mode::Standard,
            STANDARD
        )?
    );
    Ok(())
}
