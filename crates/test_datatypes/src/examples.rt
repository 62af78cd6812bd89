//! A helper that runs over an example of a Recommendation in the profile w3c, and compares the graph with its own.
use csvw_bundle::{Resource, bundle};
use csvw_iri::Base;
use csvw_meta_core::Profile;
use csvw_triples_core::Mode;
use std::alloc::{AllocError, Global};
use std::str;
use test_runs::run_tables_in_profile;

/// The report of a run without faults and warnings.
const NO_FAULTS: &[u8] = b"kind,code,table,row,column\n";

/// Returns whether a run over a document and the texts of its tables writes exactly this graph in this mode, and
/// reports nothing. It returns `AllocError` if there is no memory.
pub(crate) fn writes(
    alloc: Global,
    meta: &str,
    texts: &[&str],
    mode: Mode,
    graph: &str,
) -> Result<bool, AllocError> {
    let ran = run_tables_in_profile(alloc, Profile::W3c, mode, meta, texts)?;
    let is_graph = ran.graph.as_slice() == graph.as_bytes();
    let is_report = ran.report.as_slice() == NO_FAULTS;
    Ok(ran.stop.is_none() && is_graph && is_report)
}

/// Returns the resources of these URLs and texts, or `None` if a URL is none.
fn resources_of(
    alloc: Global,
    texts: &[(&str, &str)],
) -> Result<Option<Vec<Resource>>, AllocError> {
    let mut resources = Vec::new(alloc);
    for (url, text) in texts {
        let Ok(url) = Base::new(alloc, url) else {
            return Ok(None);
        };
        let bytes = Vec::from_slice(alloc, text.as_bytes())?;
        resources.push(Resource { url, bytes })?;
    }
    Ok(Some(resources))
}

/// Returns the bytes of a document with the schemas of these URLs, or `None` if there are none.
fn bundled(
    alloc: Global,
    meta: &str,
    schemas: &[(&str, &str)],
) -> Result<Option<Vec<u8>>, AllocError> {
    let Some(resources) = resources_of(alloc, schemas)? else {
        return Ok(None);
    };
    let document = Vec::from_slice(alloc, meta.as_bytes())?;
    Ok(bundle(
        alloc,
        document,
        "http://example.org/m.json",
        resources.as_slice(),
    )
    .ok())
}

/// The same as `writes`, for a document and the URLs and texts of its schemas.
pub(crate) fn writes_with(
    alloc: Global,
    source: (&str, &[(&str, &str)]),
    texts: &[&str],
    mode: Mode,
    graph: &str,
) -> Result<bool, AllocError> {
    let (meta, schemas) = source;
    let Some(bytes) = bundled(alloc, meta, schemas)? else {
        return Ok(false);
    };
    match str::from_utf8(bytes.as_slice()) {
        Ok(meta) => writes(alloc, meta, texts, mode, graph),
        Err(_) => Ok(false),
    }
}
