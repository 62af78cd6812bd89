//! Whole runs over groups of tables, and their results.
use csvw_engine::{MetaCode, Stop, TableStop, run};
use csvw_rows::RowStop;
use csvw_text::Counted;
use csvw_triples_core::Mode;
use std::alloc::{AllocError, Global};
use std::process::Abort;
use test_fakes::Full;

const BASE: &str = "http://example.org/metadata.json";

const HEADING: &str = "kind,code,table,row,column\n";

/// Room for every graph.
pub(crate) const AMPLE: usize = usize::MAX;

/// The end of a run.
#[derive(Clone, Copy)]
pub(crate) enum End {
    /// A report was written.
    Report,
    /// The document is refused with this code, at this pointer.
    Meta(MetaCode, &'static str),
    /// There are more texts than tables.
    TableCount,
    /// The first table can't be annotated from this row on.
    Table(u64, TableStop),
    /// The text of the first table can't be read from this row on.
    Rows(u64, RowStop),
    /// There is no more room for the graph.
    Write,
}

/// A document, the texts of its tables, and the result of a run over them.
pub(crate) struct Case {
    /// The document.
    pub(crate) meta: &'static str,
    /// The texts of its tables.
    pub(crate) texts: &'static [&'static [u8]],
    /// How the run ends.
    pub(crate) end: End,
    /// The graph, line by line.
    pub(crate) graph: &'static str,
    /// The faults of the report, line by line.
    pub(crate) faults: &'static str,
}

impl End {
    /// Returns whether a run with this end has this stop.
    fn has(self, stop: &Stop) -> bool {
        match self {
            End::Report => false,
            End::Meta(code, pointer) => {
                matches!(stop, Stop::Meta(fault) if fault.code == code && fault.pointer.as_str() == pointer)
            }
            End::TableCount => matches!(stop, Stop::TableCount),
            End::Table(at, why) => {
                matches!(stop, Stop::Table { table: 1, row, stop } if *row == at && *stop == why)
            }
            End::Rows(at, why) => {
                matches!(stop, Stop::Rows { table: 1, row, stop } if *row == at && *stop == why)
            }
            End::Write => matches!(stop, Stop::Write),
        }
    }

    /// Returns whether it is an end with a report.
    fn has_report(self) -> bool {
        matches!(self, End::Report)
    }

    /// Returns whether the bytes are the report of a run with this end: none after a stop, else the heading and
    /// these faults.
    fn leaves_report(self, report: &[u8], faults: &str) -> bool {
        match self {
            End::Report => report.strip_prefix(HEADING.as_bytes()) == Some(faults.as_bytes()),
            _ => report.is_empty(),
        }
    }
}

/// Returns the front of a graph for which there is room.
fn front(graph: &str, room: usize) -> &[u8] {
    let bytes = graph.as_bytes();
    bytes.get(..room).unwrap_or(bytes)
}

/// Returns whether a run in this mode over these texts ends like this, and leaves what the case says. Of its graph
/// it leaves the front that has room.
fn leaves_from(
    alloc: Global,
    case: &Case,
    readers: &mut [Counted<&[u8]>],
    mode: Mode,
    room: usize,
    end: End,
) -> bool {
    let mut graph = Counted::new(Full::new(alloc, room));
    let mut report = Counted::new(Vec::new(alloc));
    let is_end = match run(
        alloc,
        case.meta.as_bytes(),
        BASE,
        readers,
        mode,
        &mut graph,
        &mut report,
    ) {
        Ok(_) => end.has_report(),
        Err(stop) => end.has(&stop),
    };
    let graph = graph.into_inner().taken;
    let report = report.into_inner();
    let is_graph = graph.as_slice() == front(case.graph, room);
    let is_report = end.leaves_report(report.as_slice(), case.faults);
    is_end && is_graph && is_report
}

fn readers_of<'a>(alloc: Global, texts: &[&'a [u8]]) -> Result<Vec<Counted<&'a [u8]>>, AllocError> {
    let mut readers = Vec::new(alloc);
    for text in texts {
        readers.push(Counted::new(*text))?;
    }
    Ok(readers)
}

/// Returns whether a run in this mode ends like this, and leaves what the case says. Of its graph it leaves the
/// front that has room.
pub(crate) fn leaves(alloc: Global, case: &Case, mode: Mode, room: usize, end: End) -> bool {
    match readers_of(alloc, case.texts) {
        Ok(mut readers) => leaves_from(alloc, case, readers.as_mut_slice(), mode, room, end),
        Err(_) => false,
    }
}

/// Checks that runs in this mode leave what the cases say. If there is no room, they write no graph.
pub(crate) fn each_leaves(rt: &impl Abort, alloc: Global, cases: &[Case], mode: Mode, room: usize) {
    for case in cases {
        assert!(rt; leaves(alloc, case, mode, room, case.end), "{}", case.meta);
    }
}
