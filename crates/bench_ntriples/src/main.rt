//! Reads and writes N-Triples for the measurements in bench/.
#![tactic(auto)]

mod convert;
mod copier;
mod stop;
mod words;

use convert::triples;
use copier::Copier;
use csvw_ntriples::{NtReader, NtSink, read};
use csvw_text::Counted;
use csvw_triples_core::{Triple, TripleSink};
use std::alloc::Global;
use std::env;
use std::io::{self, BufWriter, Read, Write};
use std::process::ExitCode;
use stop::Stop;
use words::{Task, requested};

/// Reads all bytes that the reader has left.
fn read_all<R: Read>(alloc: Global, input: &mut R) -> Result<Vec<u8>, Stop> {
    let mut bytes = Vec::new(alloc);
    match input.read_to_end(&mut bytes) {
        Ok(_) => Ok(bytes),
        Err(_) => Err(Stop::Read),
    }
}

fn put_all<S: TripleSink>(triples: &[Triple], sink: &mut S) -> Result<(), Stop> {
    for triple in triples {
        sink.put(triple)?;
    }
    Ok(())
}

/// Writes the triples of the document `rounds` times.
fn write<W: Write>(
    alloc: Global,
    rounds: u64,
    document: &[u8],
    out: &mut Counted<W>,
) -> Result<(), Stop> {
    let triples = triples(alloc, read(alloc, document)?)?;
    let mut sink = NtSink::new(alloc, out);
    for _ in 0..rounds {
        put_all(triples.as_slice(), &mut sink)?;
    }
    Ok(())
}

/// Returns how many triples the document has, and keeps none of them.
fn count_each(alloc: Global, document: &[u8]) -> Result<usize, Stop> {
    let mut reader = NtReader::new(alloc, document);
    let mut count = 0usize;
    while reader.next()?.is_some() {
        count += 1;
    }
    Ok(count)
}

/// Writes each triple of the document as soon as it is read.
fn copy<W: Write>(alloc: Global, document: &[u8], out: &mut Counted<W>) -> Result<(), Stop> {
    let mut reader = NtReader::new(alloc, document);
    let mut copier = Copier::new(alloc)?;
    let mut sink = NtSink::new(alloc, out);
    while let Some(triple) = reader.next()? {
        copier.put(&triple, &mut sink)?;
    }
    Ok(())
}

fn tell<W: Write>(count: usize, out: &mut Counted<W>) -> Result<(), Stop> {
    match writeln!(out, "{count} triples") {
        Ok(()) => Ok(()),
        Err(_) => Err(Stop::Write),
    }
}

/// Does with the document what the words ask for.
fn run<R: Read, W: Write>(
    alloc: Global,
    words: &[String],
    input: &mut R,
    out: &mut Counted<W>,
) -> Result<(), Stop> {
    let Some(task) = requested(words) else {
        return Err(Stop::Usage);
    };
    let document = read_all(alloc, input)?;
    match task {
        Task::Count => tell(read(alloc, document.as_slice())?.len(), out)?,
        Task::Each => tell(count_each(alloc, document.as_slice())?, out)?,
        Task::Copy => copy(alloc, document.as_slice(), out)?,
        Task::Write(rounds) => write(alloc, rounds, document.as_slice(), out)?,
    }
    match out.flush() {
        Ok(()) => Ok(()),
        Err(_) => Err(Stop::Write),
    }
}

fn main(rt: HostRuntime) -> io::Result<ExitCode> {
    let alloc = rt.alloc();
    let words = env::args(&rt)?.collect::<Vec<String>>(alloc)?;
    let mut out = Counted::new(BufWriter::new(alloc, rt.stdout())?);
    let mut input = rt.stdin();
    match run(alloc, words.as_slice(), &mut input, &mut out) {
        Ok(()) => Ok(ExitCode::from(0)),
        Err(stop) => {
            let (status, line) = stop.told();
            eprintln!(rt; "csvw_ntriples_bench: {line}")?;
            Ok(ExitCode::from(status))
        }
    }
}
