//! Tests of long lists of texts that are null.
use csvw_triples_core::Mode;
use std::alloc::{AllocError, Global};
use std::test::Fail;
use test_runs::run_over;

/// Returns 1,000 texts in JSON: the empty text, the numbers from 0 to 498 twice, and 499.
fn null_texts(alloc: Global) -> Result<String, AllocError> {
    let mut texts = String::from_str(alloc, "\"\"")?;
    for n in 0..999u32 {
        let number = n % 500;
        write!(texts, ",\"{number}\"")?;
    }
    Ok(texts)
}

/// Returns the document of a table with two columns that inherit the texts. The cells of the second are lists.
fn document_of(alloc: Global, texts: &str) -> Result<String, AllocError> {
    format!(in alloc;
        "{{\"@context\":\"http://www.w3.org/ns/csvw\",\"url\":\"p.csv\",\"null\":[{texts}],\"tableSchema\":{{\"columns\":[{{\"name\":\"a\"}},{{\"name\":\"b\",\"separator\":\" \"}}]}}}}"
    )
}

const TABLE: &str = "a,b\n0,500 498 x\n499,499\n,0\n500,\n07,1 2\n1,z\n";

const GRAPH: &str = concat!(
    "_:t1r1s <http://example.org/p.csv#b> \"500\" .\n",
    "_:t1r1s <http://example.org/p.csv#b> \"x\" .\n",
    "_:t1r4s <http://example.org/p.csv#a> \"500\" .\n",
    "_:t1r5s <http://example.org/p.csv#a> \"07\" .\n",
    "_:t1r6s <http://example.org/p.csv#b> \"z\" .\n",
);

/// Whether the graph has each cell and each item that is not null, and no other.
fn leaves_out_nulls(alloc: Global) -> Result<bool, AllocError> {
    let texts = null_texts(alloc)?;
    let meta = document_of(alloc, texts.as_str())?;
    let ran = run_over(alloc, meta.as_str(), TABLE, Mode::Minimal)?;
    Ok(ran.stop.is_none() && ran.graph.as_slice() == GRAPH.as_bytes())
}

#[test]
fn long_lists_of_nulls_are_looked_up(rt: HostRuntime) -> Result<(), Fail> {
    assert!(rt; leaves_out_nulls(rt.alloc())?);
    Ok(())
}
