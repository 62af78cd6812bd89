//! Counts the rows, fields and bytes of a file on standard input. It is used to measure and compare readers of CSV.
#![tactic(auto)]

mod counts;
mod kit;
mod own;
mod stop;
mod words;

use counts::Counts;
use kit::count_records;
use own::count_file;
use std::alloc::Global;
use std::env;
use std::io::{self, BufReader, Read};
use std::process::ExitCode;
use stop::Stop;
use words::{Task, requested};

/// The number of bytes that are read from the system at once.
const BUFFER: usize = 65_536;

fn run<R: Read + Drop>(alloc: Global, words: &[String], mut input: R) -> Result<Counts, Stop> {
    match requested(words) {
        Some(Task::Rows(delimiter, piece)) => count_file(alloc, delimiter, piece, &mut input),
        Some(Task::Csv) => count_records(alloc, input),
        None => Err(Stop::Usage),
    }
}

fn main(rt: HostRuntime) -> io::Result<ExitCode> {
    let alloc = rt.alloc();
    let words = env::args(&rt)?.collect::<Vec<String>>(alloc)?;
    let input = BufReader::with_capacity(alloc, BUFFER, rt.stdin())?;
    match run(alloc, words.as_slice(), input) {
        Ok(counts) => {
            let (rows, fields, bytes) = (counts.rows, counts.fields, counts.bytes);
            println!(rt; "{rows} rows, {fields} fields, {bytes} bytes")?;
            Ok(ExitCode::from(0))
        }
        Err(stop) => {
            eprintln!(rt; "csvw_rows_bench: {}", stop.told())?;
            Ok(ExitCode::from(1))
        }
    }
}
