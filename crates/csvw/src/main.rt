//! `csvw`: CSV on the Web, validated and converted to RDF.
//!
//! # Promises
//!
//! - It is safe and ends. Only tests check that `main` hands the words, files and streams of its process to `command`.
//! - Only tests check what it shows at a terminal: colours, progress and the explanation of a stop.
#![tactic(auto)]

mod asked;
mod words;

use crate::asked::Asked;
use crate::words::words_of;
use csvw_command::{Colors, FileOpener, Opener, ProgressShown, command, tell_mistake, tell_stop};
use csvw_engine::Stop;
use csvw_text::Counted;
use std::alloc::Global;
use std::io::{self, BufWriter, IsTerminal, Stderr, Stdout};
use std::process::ExitCode;
use std::rt::{Env, Files};
use std::{env, fs};

/// How many bytes of the output are kept before they are written.
const BUFFERED: usize = 65_536;

/// The variable of the environment that asks for no colours.
const NO_COLOR: &str = "NO_COLOR";

/// The null device, which takes the descriptor of a standard stream that is closed: a file that is opened later gets none of theirs.
fn null_device<R: Files>(rt: &R) -> Option<R::File> {
    fs::open(rt, "/dev/null").ok()
}

/// Returns at which streams texts have colours: at terminals, if the environment doesn't ask for none.
fn colors<R: Env + AllocGlobal>(rt: &R, out: &Stdout, err: &Stderr) -> Colors {
    let are_wanted = match env::var(rt, NO_COLOR) {
        Ok(value) => value.is_empty(),
        Err(_) => true,
    };
    Colors {
        out: are_wanted && out.is_terminal(),
        err: are_wanted && err.is_terminal(),
    }
}

/// Returns whether the progress is shown: at a terminal, if standard output is none or if it is asked for.
fn progress(asked: Asked, out: &Stdout, err: &Stderr) -> ProgressShown {
    if err.is_terminal() && (asked.progress || !out.is_terminal()) {
        ProgressShown::Always
    } else {
        ProgressShown::Never
    }
}

/// Returns the words of the process.
///
/// Fails with `InvalidData` if a word is no UTF-8, and with another kind if memory runs out.
fn own_words(rt: &HostRuntime) -> io::Result<Vec<String>> {
    let alloc = rt.alloc();
    let words = env::args(rt)?.collect::<Vec<String>>(alloc)?;
    Ok(words_of(alloc, words, &rt.stderr())?)
}

/// Runs the program with a buffer before standard output. At the end the buffer is let go unsent: it is empty, or what a
/// failed write left of it.
fn run_buffered<O: Opener>(
    words: &[String],
    opener: &mut O,
    out: Stdout,
    err: &mut Counted<Stderr>,
    alloc: Global,
) -> u8 {
    let Ok(buffer) = BufWriter::with_capacity(alloc, BUFFERED, out) else {
        return tell_stop(&Stop::Memory, err);
    };
    let mut out = Counted::new(buffer);
    let status = command(alloc, words, opener, &mut out, err);
    let (_, _) = out.into_inner().into_parts();
    status
}

/// Runs the program on its words and the streams of its process.
fn run(rt: &HostRuntime, words: &[String], err: &mut Counted<Stderr>) -> u8 {
    let alloc = rt.alloc();
    let out = rt.stdout();
    let screen = rt.stderr();
    let asked = Asked::of(alloc, words);
    let opener = FileOpener::new(rt, rt.stdin());
    let mut opener = opener.showing(colors(rt, &out, &screen), progress(asked, &out, &screen));
    if asked.line_buffered || out.is_terminal() {
        // without a buffer: a line is one write
        let mut out = Counted::new(out);
        return command(alloc, words, &mut opener, &mut out, err);
    }
    run_buffered(words, &mut opener, out, err, alloc)
}

/// Says why there are no words.
fn tell_no_words(fault: &io::Error, err: &mut Counted<Stderr>) -> u8 {
    match fault.kind() {
        io::ErrorKind::InvalidData => {
            tell_mistake("csvw: a word of the command line is no UTF-8\n", err)
        }
        _ => tell_stop(&Stop::Memory, err),
    }
}

fn main(rt: HostRuntime) -> ExitCode {
    let _standard = (null_device(&rt), null_device(&rt), null_device(&rt));
    let mut err = Counted::new(rt.stderr());
    let status = match own_words(&rt) {
        Ok(words) => run(&rt, words.as_slice(), &mut err),
        Err(fault) => tell_no_words(&fault, &mut err),
    };
    ExitCode::from(status)
}
