//! Tables without a header, whose first row says how many columns there are.

use crate::running::{Order, Ran, run_in};
use csvw_engine::{Stop, TableStop};
use csvw_triples_core::Mode;
use std::alloc::{AllocError, Global};

const NO_HEADER: &str =
    r#"{"@context":"http://www.w3.org/ns/csvw","url":"p.csv","dialect":{"header":false}}"#;

/// Returns what a run over a table leaves whose first row has so many empty fields. A comment is in front of it.
fn ran(alloc: Global, fields: usize) -> Result<Ran, AllocError> {
    let mut text = String::from_str(alloc, "#\n")?;
    for _ in 1..fields {
        text.push(',')?;
    }
    text.push('\n')?;
    run_in(
        alloc,
        NO_HEADER,
        &[text.as_str()],
        Mode::Minimal,
        Order::OneByOne,
    )
}

/// Whether a run stopped at the second row with too many columns, and wrote no graph.
fn is_too_wide(ran: &Ran) -> bool {
    let stop = Stop::Table {
        table: 1,
        row: 2,
        stop: TableStop::TooManyColumns,
    };
    ran.graph.is_empty() && ran.stop == Some(stop)
}

#[test]
fn a_first_row_has_at_most_so_many_fields(rt: HostRuntime) {
    let alloc = rt.alloc();
    assert!(rt; matches!(ran(alloc, 1024), Ok(ran) if ran.stop.is_none()));
    assert!(rt; matches!(ran(alloc, 1025), Ok(ran) if is_too_wide(&ran)));
}
