//! The session over the tables that a document describes.
ghost use Rattle.std.specs.Prelude.{IfSome};
ghost use Rattle.csvw_columns.specs.Ready.{AreReady};

use crate::counter::Counter;
use csvw_api::{Description, Mode, Plan, ReadDescription, Session};
use std::alloc::Global;

/// The document, and its URL.
const DOCUMENT: &str = r#"{"@context":"http://www.w3.org/ns/csvw","tables":[
{"url":"stations.csv","tableSchema":{"columns":[
{"name":"station","titles":"Station","required":true},
{"name":"river","titles":"River","lang":"de"},
{"name":"towns","titles":"Towns","separator":";"}]}},
{"url":"levels.csv","dialect":{"delimiter":";"},"null":"-","tableSchema":{"columns":[
{"titles":"station"},{"titles":"day"},{"titles":"level"}]}}]}"#;

const URL: &str = "http://example.org/rivers/metadata.json";

/// Returns the plan of the group that the document describes.
fn plan(alloc: Global) -> Option<Plan>
    ensures { IfSome result (λ plan. AreReady plan.tables) }
{
    let Ok(description) = Description::read(alloc, DOCUMENT.as_bytes(), URL) else {
        return None;
    };
    match Plan::build(alloc, description) {
        Ok(plan) => Some(plan),
        Err(_) => None,
    }
}

/// Starts a session over its tables, in minimal mode. Its sink counts the triples.
pub(crate) fn session_over(alloc: Global) -> Option<Session<Counter>> {
    let plan = plan(alloc)?;
    Session::start(alloc, plan, Mode::Minimal, Counter::new()).ok()
}
