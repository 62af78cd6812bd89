//! Runs over groups of tables. Their graph and their report go to room that was made before.
use crate::groups::{BASE, GROUPS, Group};
use crate::marks::{print_marks, print_result};
use csvw_api::{Counted, Outcome, Stop, run};
use std::alloc::{AllocError, Global};
use std::io;

/// How many bytes a writer has room for.
pub(crate) const ROOM: usize = 4_096;

/// What a run leaves.
#[derive(Drop)]
struct Ran {
    /// What it returned.
    result: Result<Outcome, Stop>,
    /// The graph that it wrote.
    graph: Vec<u8>,
    /// The report that it wrote.
    report: Vec<u8>,
}

/// Returns a reader of each text.
fn readers_of(
    alloc: Global,
    texts: &[&'static [u8]],
) -> Result<Vec<Counted<&'static [u8]>>, AllocError> {
    let mut readers = Vec::new(alloc);
    for text in texts {
        readers.push(Counted::new(*text))?;
    }
    Ok(readers)
}

/// Runs over a group.
fn run_once(alloc: Global, group: &Group) -> Result<Ran, AllocError> {
    let mut readers = readers_of(alloc, group.texts)?;
    let mut graph = Counted::new(Vec::with_capacity(alloc, ROOM)?);
    let mut report = Counted::new(Vec::with_capacity(alloc, ROOM)?);
    let result = run(
        alloc,
        group.meta.as_bytes(),
        BASE,
        readers.as_mut_slice(),
        group.mode,
        &mut graph,
        &mut report,
    );
    Ok(Ran {
        result,
        graph: graph.into_inner(),
        report: report.into_inner(),
    })
}

fn print_ran(rt: &HostRuntime, ran: &Ran) -> io::Result<()> {
    print_result(rt, &ran.result)?;
    print!(rt; "; graph")?;
    print_marks(rt, ran.graph.as_slice())?;
    print!(rt; "; report")?;
    print_marks(rt, ran.report.as_slice())?;
    println!(rt; "")
}

fn print_run(rt: &HostRuntime, group: &Group) -> io::Result<()> {
    print!(rt; "run {}: ", group.name)?;
    match run_once(rt.alloc(), group) {
        Ok(ran) => print_ran(rt, &ran),
        Err(_) => println!(rt; "no room"),
    }
}

/// Prints what two runs over each group leave.
pub(crate) fn print_runs(rt: &HostRuntime) -> io::Result<()> {
    for group in &GROUPS {
        print_run(rt, group)?;
        print_run(rt, group)?;
    }
    Ok(())
}
