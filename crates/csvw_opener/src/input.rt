//! A file, or standard input, that is read.
ghost use Rattle.std.specs.Prelude.{None};

use crate::progress::{ERASED, Progress};
use std::io::{self, Read, Stdin};
use std::rt::{Clock, Files};
use std::time::Instant;

/// What is read.
#[derive(Drop)]
enum Source<F> {
    /// A file that was opened.
    File(F),
    /// Standard input.
    Standard(Stdin),
}

/// What shows the progress of a file.
#[derive(Drop)]
pub(crate) struct Watch<'a, R> {
    /// What reaches the clock and standard error.
    rt: &'a R,
    /// When the file was opened.
    start: Instant,
    /// How far it has been read.
    progress: Progress,
}

impl<'a, R: Files + Clock + Eprint + AllocGlobal> Watch<'a, R> {
    /// Returns what watches a file from now on, or `None` if there is no clock or memory runs out.
    pub(crate) fn of(rt: &'a R, path: &str) -> Option<Watch<'a, R>> {
        let start = Instant::now(rt).ok()?;
        let total = match rt.metadata(path) {
            Ok(metadata) if metadata.is_file() => Some(metadata.len()),
            _ => None,
        };
        let progress = Progress::new(rt.alloc(), path, total).ok()?;
        Some(Watch {
            rt,
            start,
            progress,
        })
    }

    /// Counts a piece, and shows the progress if it is due.
    fn pass(&mut self, piece: &[u8]) {
        self.progress.count(piece);
        let Ok(elapsed) = self.start.elapsed(self.rt) else {
            return;
        };
        if let Some(line) = self.progress.line(self.rt.alloc(), elapsed) {
            let _ = self.rt.eprint(line.as_str());
        }
    }

    /// Erases the line that was shown.
    fn end(&self) {
        if self.progress.is_shown() {
            let _ = self.rt.eprint(ERASED);
        }
    }
}

/// A file, or standard input, whose progress may be shown.
#[derive(Drop)]
pub struct Input<'a, R: Files> {
    /// What is read.
    source: Source<R::File>,
    /// What shows the progress, if it is shown.
    watch: Option<Watch<'a, R>>,
}

impl<'a, R: Files> Input<'a, R> {
    /// A file that was opened.
    pub(crate) fn file(file: R::File, watch: Option<Watch<'a, R>>) -> Input<'a, R> {
        Input {
            source: Source::File(file),
            watch,
        }
    }

    /// Standard input.
    pub(crate) fn standard(stdin: Stdin, watch: Option<Watch<'a, R>>) -> Input<'a, R> {
        Input {
            source: Source::Standard(stdin),
            watch,
        }
    }
}

impl<'a, R: Files + Clock + Eprint + AllocGlobal> Input<'a, R> {
    /// Ends the reading: the line that shows the progress is erased.
    pub(crate) fn end(&self) {
        if let Some(watch) = &self.watch {
            watch.end();
        }
    }
}

impl<'a, R: Files + Clock + Eprint + AllocGlobal> Read for Input<'a, R> {
    // What a real file, pipe or terminal gives is said nowhere.
    ghost remaining = { λ _. None };

    fn read(&mut self, buf: &mut [u8]) -> io::Result<usize> {
        let count = match &mut self.source {
            Source::File(file) => file.read(buf)?,
            Source::Standard(stdin) => stdin.read(buf)?,
        };
        if let Some(watch) = &mut self.watch {
            watch.pass(&buf[..count]);
        }
        Ok(count)
    }
}
