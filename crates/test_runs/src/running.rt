//! Helpers that run over the texts of tables.
use csvw_engine::{Order as ReadOrder, Profile, Request, Stop, Way, run, run_by, run_turns};
use csvw_text::Counted;
use csvw_triples_core::Mode;
use std::alloc::{AllocError, Global};

/// What a run leaves.
#[derive(Drop)]
pub struct Ran {
    /// The reason why it stopped, or `None` if it did not stop.
    pub stop: Option<Stop>,
    /// The graph that it wrote.
    pub graph: Vec<u8>,
    /// The report that it wrote.
    pub report: Vec<u8>,
}

/// The order in which tables are read.
#[derive(Clone, Copy)]
pub(crate) enum Order {
    /// One table after the other.
    OneByOne,
    /// A piece of each table in turn.
    InTurn,
}

/// Returns a reader of each text.
fn readers_of<'a>(alloc: Global, texts: &[&'a str]) -> Result<Vec<Counted<&'a [u8]>>, AllocError> {
    let mut readers = Vec::new(alloc);
    for text in texts {
        readers.push(Counted::new(text.as_bytes()))?;
    }
    Ok(readers)
}

/// Returns what a run over a document and the texts of its tables leaves, in this mode and order. It returns
/// `AllocError` if there is no memory.
pub(crate) fn run_in(
    alloc: Global,
    meta: &str,
    texts: &[&str],
    mode: Mode,
    order: Order,
) -> Result<Ran, AllocError> {
    let mut readers = readers_of(alloc, texts)?;
    let mut graph = Counted::new(Vec::new(alloc));
    let mut report = Counted::new(Vec::new(alloc));
    let meta = meta.as_bytes();
    let base = "http://example.org/";
    let readers = readers.as_mut_slice();
    let outcome = match order {
        Order::OneByOne => run(alloc, meta, base, readers, mode, &mut graph, &mut report),
        Order::InTurn => run_turns(alloc, meta, base, readers, mode, &mut graph, &mut report),
    };
    Ok(Ran {
        stop: outcome.err(),
        graph: graph.into_inner(),
        report: report.into_inner(),
    })
}

/// Returns what a run over a document and the text of its table leaves. It returns `AllocError` if there is no memory.
pub fn run_over(alloc: Global, meta: &str, text: &str, mode: Mode) -> Result<Ran, AllocError> {
    run_in(alloc, meta, &[text], mode, Order::OneByOne)
}

/// Returns what a run over a document in a profile and the texts of its tables leaves, in this mode. It returns
/// `AllocError` if there is no memory.
pub fn run_tables_in_profile(
    alloc: Global,
    profile: Profile,
    mode: Mode,
    meta: &str,
    texts: &[&str],
) -> Result<Ran, AllocError> {
    let mut readers = readers_of(alloc, texts)?;
    let mut graph = Counted::new(Vec::new(alloc));
    let mut report = Counted::new(Vec::new(alloc));
    let request = Request {
        meta: meta.as_bytes(),
        base: "http://example.org/",
        profile,
        way: Way {
            mode,
            order: ReadOrder::TableByTable,
        },
    };
    let outcome = run_by(
        alloc,
        request,
        readers.as_mut_slice(),
        &mut graph,
        &mut report,
    );
    Ok(Ran {
        stop: outcome.err(),
        graph: graph.into_inner(),
        report: report.into_inner(),
    })
}

/// Returns what a run over a document in a profile and the text of its table leaves, in minimal mode. It returns
/// `AllocError` if there is no memory.
pub fn run_in_profile(
    alloc: Global,
    profile: Profile,
    meta: &str,
    text: &str,
) -> Result<Ran, AllocError> {
    run_tables_in_profile(alloc, profile, Mode::Minimal, meta, &[text])
}

/// Whether a report has exactly these lines after its heading.
pub(crate) fn is_report(report: &[u8], faults: &str) -> bool {
    report.strip_prefix(b"kind,code,table,row,column\n") == Some(faults.as_bytes())
}
