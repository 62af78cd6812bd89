//! Tests of the values that the profile `w3c` ignores, so that their defaults hold (Metadata Vocabulary for Tabular Data, section 5.1).
use crate::reading::document;
use csvw_defaults::{Defaulted, with_defaults};
use csvw_meta::json::{json_of, without_bom};
use csvw_meta_core::Profile;
use std::alloc::{AllocError, Global};
use std::test::Fail;

/// The texts around a part of an object, and the pointer of the object.
#[derive(Clone, Copy)]
struct Frame {
    /// The text before the part.
    front: &'static str,
    /// The text after it.
    end: &'static str,
    /// The pointer of the object that the part is in.
    at: &'static str,
}

const GROUP: Frame = Frame {
    front: r#"{"@context":"http://www.w3.org/ns/csvw","tables":[{"url":"a.csv"}],"#,
    end: "}",
    at: "",
};

const TABLE: Frame = Frame {
    front: r#"{"@context":"http://www.w3.org/ns/csvw","tables":[{"url":"a.csv"},{"url":"b.csv","#,
    end: "}]}",
    at: "/tables/1",
};

const SCHEMA: Frame = Frame {
    front: r#"{"@context":"http://www.w3.org/ns/csvw","url":"a.csv","tableSchema":{"#,
    end: "}}",
    at: "/tableSchema",
};

const COLUMN: Frame = Frame {
    front: r#"{"@context":"http://www.w3.org/ns/csvw","url":"a.csv","tableSchema":{"columns":[{"#,
    end: "}]}}",
    at: "/tableSchema/columns/0",
};

const DIALECT: Frame = Frame {
    front: r#"{"@context":"http://www.w3.org/ns/csvw","url":"a.csv","dialect":{"#,
    end: "}}",
    at: "/dialect",
};

const DATATYPE: Frame = Frame {
    front: r#"{"@context":"http://www.w3.org/ns/csvw","url":"a.csv","datatype":{"#,
    end: "}}",
    at: "/datatype",
};

/// Each line is a part of an object, and the pointers below the object of the values that are ignored or read as texts. There may be none.
const OF_GROUPS: &str = r#"
"notes":{} => /notes
"notes":[{}] =>
"transformations":5 => /transformations
"tableDirection":"up" => /tableDirection
"tableDirection":"rtl" =>
"dialect":[] => /dialect
"dialect":"d.json" =>
"tableSchema":null => /tableSchema
"tables":{} =>
"tables":[1,{"url":"a.csv","suppressOutput":0},"b.csv"] => /tables/0 /tables/1/suppressOutput /tables/2
"suppressOutput":0 =>
"dc:title":{"lang":5,"@value":6,"@type":7} =>
"notes":[{"ordered":5}] =>
"datatype":["string"] => /datatype
"lang":5 => /lang
"@id":5 =>
"@type":5 =>
"ordered":1,"required":0 => /ordered /required"#;

const OF_TABLES: &str = r#"
"suppressOutput":"true" => /suppressOutput
"notes":"n" => /notes
"dialect":5,"tableSchema":[] => /dialect /tableSchema
"url":5 =>
"tableSchema":{"columns":[{"ordered":5}]} => /tableSchema/columns/0/ordered
"@context":5,"unknown":5 =>"#;

const OF_SCHEMAS: &str = r#"
"columns":{"name":"a"} => /columns
"columns":[5,{"name":"a"},null] => /columns/0 /columns/2
"foreignKeys":"a" => /foreignKeys
"foreignKeys":[5,{"columnReference":5}] => /foreignKeys/0
"primaryKey":5 => /primaryKey
"primaryKey":[] => /primaryKey
"primaryKey":["a",5] => /primaryKey
"primaryKey":["a"] =>
"rowTitles":{} => /rowTitles
"rowTitles":"a" =>
"columns":[{"name":5,"titles":6}] => /columns/0/name /columns/0/titles"#;

const OF_COLUMNS: &str = r#"
"name":5 => /name
"name":"a b" =>
"virtual":"yes" => /virtual
"suppressOutput":1 => /suppressOutput
"titles":5 => /titles
"titles":["A",5,null] => /titles/1 /titles/2
"titles":{"en":"A","de":[],"fr":["B",6],"it":7} => /titles/fr/1 /titles/it
"titles":{"a b":"A","x:y":"B"} => /titles/a b /titles/x:y
"titles":[] =>
"aboutUrl":5,"propertyUrl":{},"valueUrl":null => /aboutUrl /propertyUrl /valueUrl
"aboutUrl":"{" =>
"default":null => /default
"lang":"not a tag" => /lang
"lang":"de-CH" =>
"null":["-",5] => /null
"null":[] =>
"null":null => /null
"ordered":"true","required":null => /ordered /required
"separator":5 => /separator
"separator":null =>
"textDirection":"up" => /textDirection
"textDirection":"inherit" =>
"datatype":5 => /datatype
"datatype":"unknown" =>
"datatype":{"base":5,"format":6} => /datatype/base /datatype/format"#;

const OF_DIALECTS: &str = r#"
"delimiter":null => /delimiter
"delimiter":"" =>
"quoteChar":5 => /quoteChar
"quoteChar":null,"commentPrefix":null =>
"commentPrefix":true => /commentPrefix
"doubleQuote":1,"header":1,"skipBlankRows":1,"skipInitialSpace":1 => /doubleQuote /header /skipBlankRows /skipInitialSpace
"encoding":8 => /encoding
"headerRowCount":"1" => /headerRowCount
"headerRowCount":-1 => /headerRowCount
"headerRowCount":1.5 =>
"headerRowCount":900 =>
"skipRows":true,"skipColumns":-2 => /skipColumns /skipRows
"lineTerminators":5 => /lineTerminators
"lineTerminators":["\n",5] => /lineTerminators
"lineTerminators":"x" =>
"trim":"both" => /trim
"trim":"start" =>
"trim":0 => /trim"#;

const OF_DATATYPES: &str = r#"
"base":null => /base
"length":"5" => /length
"minLength":-1,"maxLength":false => /maxLength /minLength
"minimum":true => /minimum
"minimum":"5","maximum":6 =>
"minimum":0.5,"maxExclusive":-1E2,"length":1.5 => /maxExclusive /minimum
"minimum":-0 => /minimum
"minimum":true,"maximum":0.5 => /maximum /minimum
"minInclusive":[],"maxInclusive":{},"minExclusive":null,"maxExclusive":false => /maxExclusive /maxInclusive /minExclusive /minInclusive
"base":"decimal","format":{"decimalChar":5,"groupChar":null,"pattern":{}} => /format/decimalChar /format/groupChar /format/pattern
"base":"decimal","format":["0"] => /format
"base":"decimal","format":"0" =>"#;

/// Documents that have other values in the place of those that are ignored or read as texts: the document, what is left of it, and a blank line.
const LEFT: &str = r#"
{"@context":"http://www.w3.org/ns/csvw","url":"a.csv","dialect":5,"tableSchema":7}
{"@context":"http://www.w3.org/ns/csvw","url":"a.csv","dialect":{},"dialect is ignored":null,"tableSchema":{},"tableSchema is ignored":null}

{"@context":"http://www.w3.org/ns/csvw","url":"a.csv","tableSchema":{"columns":[5,{"name":"a","titles":["A",6]}]}}
{"@context":"http://www.w3.org/ns/csvw","url":"a.csv","tableSchema":{"columns":[{"name":"a","titles":["A"],"titles is ignored":null}],"columns is ignored":null}}

{"@context":"http://www.w3.org/ns/csvw","url":"a.csv","datatype":{"base":7,"format":{"pattern":1}},"dc:title":{"a":5}}
{"@context":"http://www.w3.org/ns/csvw","url":"a.csv","datatype":{"base is ignored":null,"format":{"pattern is ignored":null}},"dc:title":{"a":5}}

{"@context":"http://www.w3.org/ns/csvw","url":"a.csv","datatype":{"base":"decimal","minimum":-0.50,"maximum":1e2,"minimum":0.10}}
{"@context":"http://www.w3.org/ns/csvw","url":"a.csv","datatype":{"base":"decimal","minimum":"0.10","maximum":"1e2"}}

{"@context":"http://www.w3.org/ns/csvw","tables":[{"url":"a.csv"},{"url":"b.csv","tableSchema":{"columns":[{},{"datatype":{"minInclusive":18446744073709551616.0}}]}}]}
{"@context":"http://www.w3.org/ns/csvw","tables":[{"url":"a.csv"},{"url":"b.csv","tableSchema":{"columns":[{},{"datatype":{"minInclusive":"18446744073709551616.0"}}]}}]}

{"@context":"http://www.w3.org/ns/csvw","url":"a.csv","lang":1,"lang is ignored":2,"tableSchema":{"columns":[{"titles":{"en":1,"de":"A"}}]}}
{"@context":"http://www.w3.org/ns/csvw","url":"a.csv","lang is ignored":null,"tableSchema":{"columns":[{"titles":{"de":"A"},"titles is ignored":null}]}}"#;

fn defaulted(alloc: Global, text: &str) -> Result<Defaulted, AllocError> {
    with_defaults(
        alloc,
        Vec::from_slice(alloc, text.as_bytes())?,
        Profile::W3c,
    )
}

/// Returns the pointers below an object of the values that are ignored, each behind a space.
fn pointers(alloc: Global, at: &str, found: &Defaulted) -> Result<String, AllocError> {
    let mut pointers = String::new(alloc);
    for fault in found.changed.as_slice() {
        let pointer = fault.pointer.as_str();
        pointers.push(' ')?;
        pointers.push_str(pointer.strip_prefix(at).unwrap_or(pointer))?;
    }
    Ok(pointers)
}

/// Whether the values of a line are ignored or read as texts, and its bytes stay if there are none.
fn ignores(alloc: Global, frame: Frame, line: &str) -> Result<bool, AllocError> {
    let Some((part, expected)) = line.split_once(" =>") else {
        return Ok(false);
    };
    let text = document(alloc, (frame.front, frame.end), part)?;
    let found = defaulted(alloc, text.as_str())?;
    let pointers = pointers(alloc, frame.at, &found)?;
    let is_same = found.bytes.as_slice() == text.as_bytes();
    Ok(pointers.as_str() == expected && is_same == expected.is_empty())
}

/// Returns the first line that is wrong, or `None` if all are right.
fn wrong_line<'a>(
    alloc: Global,
    frame: Frame,
    lines: &'a str,
) -> Result<Option<&'a str>, AllocError> {
    for line in lines.lines() {
        if !line.is_empty() && !ignores(alloc, frame, line)? {
            return Ok(Some(line));
        }
    }
    Ok(None)
}

#[test]
fn values_of_other_kinds_are_ignored(rt: HostRuntime) -> Result<(), Fail> {
    let tables = [
        (GROUP, OF_GROUPS),
        (TABLE, OF_TABLES),
        (SCHEMA, OF_SCHEMAS),
        (COLUMN, OF_COLUMNS),
        (DIALECT, OF_DIALECTS),
        (DATATYPE, OF_DATATYPES),
    ];
    for (frame, lines) in tables {
        let wrong = wrong_line(rt.alloc(), frame, lines)?.unwrap_or("");
        assert!(rt; wrong.is_empty(), "{wrong}");
    }
    Ok(())
}

/// Whether what is left of a document is the value of a text.
fn leaves(alloc: Global, text: &str, expected: &str) -> Result<bool, AllocError> {
    let found = defaulted(alloc, text)?;
    match (
        json_of(alloc, without_bom(found.bytes.as_slice())),
        json_of(alloc, expected.as_bytes()),
    ) {
        (Ok(found), Ok(expected)) => Ok(found == expected),
        _ => Ok(false),
    }
}

#[test]
fn defaults_take_the_place_of_values(rt: HostRuntime) -> Result<(), Fail> {
    for block in LEFT.split("\n\n") {
        let (text, expected) = block.trim().split_once('\n').unwrap_or(("", ""));
        assert!(rt; leaves(rt.alloc(), text, expected)?, "{text}");
    }
    Ok(())
}

/// Documents that stay: in the profile `core`, and if they are no objects.
#[test]
fn other_documents_stay(rt: HostRuntime) -> Result<(), Fail> {
    let alloc = rt.alloc();
    for (text, profile) in [
        (r#"{"lang":5}"#, Profile::Core),
        (r#"{"lang":5"#, Profile::W3c),
        (r#"["lang",5]"#, Profile::W3c),
        ("5", Profile::W3c),
    ] {
        let found = with_defaults(alloc, Vec::from_slice(alloc, text.as_bytes())?, profile)?;
        assert!(rt;
            found.bytes.as_slice() == text.as_bytes() && found.changed.is_empty(),
            "{text}"
        );
    }
    Ok(())
}
