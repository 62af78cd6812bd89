//! Tests of foreign keys that name their table by its schema, by whole runs in the profile w3c (Metadata Vocabulary for
//! Tabular Data, section 5.5.2.1, `schemaReference`).
use csvw_meta_core::Profile;
use csvw_triples_core::Mode;
use std::alloc::{AllocError, Global};
use std::test::Fail;
use test_runs::run_tables_in_profile;

/// Two tables. Each row of the first refers to a row of the second.
const META: &str = r#"{"@context":"http://www.w3.org/ns/csvw","tables":[
    {"url":"cities.csv","tableSchema":{"columns":[{"name":"name"},{"name":"country"}],"foreignKeys":[
        {"columnReference":"country","reference":{"schemaReference":"countries.json","columnReference":"code"}}]}},
    {"url":"countries.csv","tableSchema":{"@id":"countries.json","columns":[{"name":"code"}],"primaryKey":"code"}}]}"#;

const COUNTRIES: &str = "code\nAD\nAE\nAE\n";

/// Returns the lines of the report on these cities after its heading, or `None` if the run stops.
fn report_of(alloc: Global, cities: &str) -> Result<Option<Vec<u8>>, AllocError> {
    let texts = [cities, COUNTRIES];
    let ran = run_tables_in_profile(alloc, Profile::W3c, Mode::Minimal, META, &texts)?;
    if ran.stop.is_some() {
        return Ok(None);
    }
    match ran.report.strip_prefix(b"kind,code,table,row,column\n") {
        Some(lines) => Ok(Some(Vec::from_slice(alloc, lines)?)),
        None => Ok(None),
    }
}

/// Whether the report on these cities has exactly these lines after its heading.
fn reports(alloc: Global, cities: &str, lines: &str) -> Result<bool, AllocError> {
    match report_of(alloc, cities)? {
        Some(found) => Ok(found.as_slice() == lines.as_bytes()),
        None => Ok(false),
    }
}

#[test]
fn rows_refer_to_the_table_of_the_schema(rt: HostRuntime) -> Result<(), Fail> {
    let of_countries = "error,DuplicateKey,2,4,1\n";
    assert!(rt;
        reports(
            rt.alloc(),
            "name,country\nCanillo,AD\nNowhere,\n",
            of_countries
        )?
    );
    Ok(())
}

#[test]
fn rows_without_a_referenced_row_are_reported(rt: HostRuntime) -> Result<(), Fail> {
    let lines =
        "error,NoReferencedRow,1,3,2\nerror,ManyReferencedRows,1,4,2\nerror,DuplicateKey,2,4,1\n";
    assert!(rt;
        reports(
            rt.alloc(),
            "name,country\nCanillo,AD\nParis,FR\nDubai,AE\n",
            lines
        )?
    );
    Ok(())
}
