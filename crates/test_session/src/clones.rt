//! Tests of copies of triples, terms and plans. A copy shows the same text as what it copies, if there is memory.
use crate::examples::EXAMPLES;
use crate::failing_sinks::whole;
use crate::tables::{columns_of, plan_of};
use csvw_columns::{Columns, Plan, TablePlan};
use csvw_ntriples::{NtTerm, NtTriple, read};
use csvw_triples::{Mode, Term, Triple};
use std::alloc::{AllocError, Global};
use std::fmt::Debug;
use std::process::Abort;

/// Returns the text that shows a value.
pub(crate) fn shown<T: Debug>(alloc: Global, value: &T) -> Option<String> {
    let mut text = String::new(alloc);
    match write!(text, "{value:?}") {
        Ok(()) => Some(text),
        Err(_) => None,
    }
}

/// Whether there is a copy, and it shows the same text as the value.
fn is_copy<T: Debug + Drop>(alloc: Global, value: &T, copy: Result<T, AllocError>) -> bool {
    let Ok(copy) = copy else {
        return false;
    };
    match (shown(alloc, value), shown(alloc, &copy)) {
        (Some(shown), Some(copied)) => shown.as_str() == copied.as_str(),
        _ => false,
    }
}

/// Whether a triple and its parts have copies.
fn copies_triple(alloc: Global, triple: &Triple) -> bool {
    let is_literal = match &triple.o {
        Term::Literal(lit) => is_copy(alloc, lit, lit.clone(alloc)),
        Term::Named(_) | Term::Blank(_) => true,
    };
    is_literal
        && is_copy(alloc, triple, triple.clone(alloc))
        && is_copy(alloc, &triple.s, triple.s.clone(alloc))
        && is_copy(alloc, &triple.o, triple.o.clone(alloc))
}

/// Whether the triples of all examples in standard mode have copies.
fn copies_examples(alloc: Global) -> bool {
    for example in &EXAMPLES {
        let Some(sink) = whole(alloc, example, Mode::Standard) else {
            return false;
        };
        if !sink
            .triples()
            .iter()
            .all(|triple| copies_triple(alloc, triple))
        {
            return false;
        }
    }
    true
}

/// Lines with each kind of subject and object.
const LINES: &[u8] = b"_:a <http://example.org/p> \"x\"@en .
<http://example.org/s> <http://example.org/p> _:b .
_:a <http://example.org/p> <http://example.org/o> .
_:a <http://example.org/p> \"1\"^^<http://www.w3.org/2001/XMLSchema#integer> .
";

/// Whether a triple that was read and its parts have copies.
fn copies_read(alloc: Global, triple: &NtTriple) -> bool {
    let is_literal = match &triple.o {
        NtTerm::Literal(lit) => is_copy(alloc, lit, lit.clone(alloc)),
        NtTerm::Named(_) | NtTerm::Blank(_) => true,
    };
    is_literal
        && is_copy(alloc, triple, triple.clone(alloc))
        && is_copy(alloc, &triple.s, triple.s.clone(alloc))
        && is_copy(alloc, &triple.o, triple.o.clone(alloc))
}

/// Whether all triples of the lines have copies.
fn copies_lines(alloc: Global) -> bool {
    match read(alloc, LINES) {
        Ok(triples) => {
            triples.len() == 4
                && triples
                    .as_slice()
                    .iter()
                    .all(|triple| copies_read(alloc, triple))
        }
        Err(_) => false,
    }
}

#[test]
fn triples_and_their_parts(rt: HostRuntime) {
    let alloc = rt.alloc();
    assert!(rt; copies_examples(alloc));
    assert!(rt; copies_lines(alloc));
}

/// Two tables with annotations, keys, a dialect and templates.
const GROUP: &str = r#"{"@context":"http://www.w3.org/ns/csvw","tables":[
{"url":"a.csv","@id":"http://example.org/a","dc:title":[{"dc:creator":"Ann"},"b"],"dialect":{"delimiter":";"},
"tableSchema":{"aboutUrl":"{#ref}","columns":[{"name":"ref","titles":["Ref","Id"],"datatype":{"base":"integer","minimum":1}}],
"foreignKeys":[{"columnReference":"ref","reference":{"resource":"b.csv","columnReference":"k"}}]}},
{"url":"b.csv","tableSchema":{"columns":[{"name":"k","separator":" ","null":["-","?"]}],"primaryKey":"k"}}]}"#;

/// Whether the plan of a table, its annotations and its foreign keys have copies.
fn copies_table(alloc: Global, table: &TablePlan) -> bool {
    is_copy(alloc, table, table.clone(alloc))
        && table
            .notes
            .as_slice()
            .iter()
            .all(|note| is_copy(alloc, note, note.clone(alloc)))
        && table
            .foreign_keys
            .as_slice()
            .iter()
            .all(|key| is_copy(alloc, key, key.clone(alloc)))
}

/// Whether the plans of both tables have copies.
fn copies_plan(alloc: Global, plan: &Plan) -> bool {
    plan.tables().len() == 2 && plan.tables().iter().all(|table| copies_table(alloc, table))
}

/// Whether the columns of a table have copies.
fn copies_columns(alloc: Global, columns: &Columns) -> bool {
    is_copy(alloc, columns, columns.clone(alloc))
        && match columns.by_name("ref") {
            Some(column) => is_copy(alloc, column, column.clone(alloc)),
            None => false,
        }
}

#[test]
fn plans_and_columns(rt: HostRuntime) {
    let alloc = rt.alloc();
    let plan = plan_of(alloc, GROUP);
    assert!(rt; matches!(&plan, Some(plan) if copies_plan(alloc, plan)));
    let columns = columns_of(alloc, GROUP, 0, &["Ref"]);
    assert!(rt; matches!(&columns, Some(columns) if copies_columns(alloc, columns)));
}
