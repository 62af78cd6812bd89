//! Runs of the program over files in memory, and their results.
ghost use Rattle.std.specs.Prelude.{◌≡◌};

use csvw_command::{Opener, command};
use csvw_text::Counted;
use std::alloc::{AllocError, Global};
use std::io::{self, Write};
use std::process::Abort;
use std::str;
use test_fakes::FailingReader;

/// The first line of each report.
pub(crate) const HEADING: &[u8] = b"kind,code,table,row,column\n";

/// A document of one table.
pub(crate) const META: &[u8] = br#"{"@context":"http://www.w3.org/ns/csvw","url":"p.csv"}"#;

/// The words that convert one table without a document.
pub(crate) const PLAIN: &str = "csvw plain http://example.org/p.csv p.csv";

/// The words that validate a group of one table.
pub(crate) const VALIDATE: &str = "csvw validate --base http://example.org/ m.json p.csv";

/// The words that convert a group of one table in minimal mode.
pub(crate) const CONVERT: &str = "csvw convert --minimal --base http://example.org/ m.json p.csv";

/// The number of the system's error for a file that there isn't (POSIX, `ENOENT`, on Linux).
const NO_FILE: i32 = 2;

/// A file in memory.
#[derive(Clone, Copy)]
pub(crate) struct File<'a> {
    /// Its path.
    pub(crate) path: &'a str,
    /// Its content.
    pub(crate) bytes: &'a [u8],
}

/// The files that there are, and the readers that were opened and came back.
#[derive(Drop)]
pub(crate) struct Files<'a> {
    /// The files, each with its path.
    files: &'a [File<'a>],
    /// The path of the file whose reader fails, if there is one.
    broken: Option<&'a str>,
    /// How many reads of that file are made before one fails.
    reads: u64,
    /// How many readers were opened.
    pub(crate) opened: u64,
    /// How many readers came back.
    pub(crate) closed: u64,
    /// How often the readers that came back had failed.
    pub(crate) failures: u64,
}

impl<'a> Files<'a> {
    /// Makes an opener of these files. Their readers don't fail.
    pub(crate) fn new(files: &'a [File<'a>]) -> Files<'a> {
        Files {
            files,
            broken: None,
            reads: 0,
            opened: 0,
            closed: 0,
            failures: 0,
        }
    }

    /// Makes an opener of these files. The reader of the file at this path fails after so many reads.
    pub(crate) fn with_broken(files: &'a [File<'a>], path: &'a str, reads: u64) -> Files<'a> {
        Files {
            files,
            broken: Some(path),
            reads,
            opened: 0,
            closed: 0,
            failures: 0,
        }
    }

    /// Returns a reader of the file at this path, if there is one.
    fn reader_of(&self, path: &str) -> Option<FailingReader<'a>> {
        let reads = self.reads_of(path);
        for file in self.files {
            if file.path == path {
                return Some(FailingReader {
                    rest: file.bytes,
                    piece: usize::MAX,
                    reads,
                });
            }
        }
        None
    }

    /// Returns how many reads of the file at this path don't fail.
    fn reads_of(&self, path: &str) -> u64 {
        match self.broken {
            Some(broken) if broken == path => self.reads,
            _ => u64::MAX,
        }
    }
}

impl<'a> Opener for Files<'a> {
    type Reader = FailingReader<'a>;

    type Writer = Vec<u8>;

    ghost opens = { λ old _ _ new. new.files ≡ old.files };

    ghost opens_at = { λ old _ _ _ new. new.files ≡ old.files };

    ghost closes = { λ old _ new. new.files ≡ old.files };

    fn open(&mut self, path: &str) -> Option<FailingReader<'a>> {
        let reader = self.reader_of(path)?;
        self.opened = self.opened.saturating_add(1);
        Some(reader)
    }

    fn open_at(&mut self, path: &str, first_byte: u64) -> Option<FailingReader<'a>> {
        let mut reader = self.reader_of(path)?;
        reader.rest = reader.rest.get(usize::try_from(first_byte).ok()?..)?;
        self.opened = self.opened.saturating_add(1);
        Some(reader)
    }

    fn length(&self, path: &str) -> Option<u64> {
        for file in self.files {
            if file.path == path && path != "-" {
                return Some(file.bytes.len() as u64);
            }
        }
        None
    }

    fn io_error(&self, path: &str) -> Option<io::Error> {
        match self.reader_of(path) {
            Some(_) => None,
            None => Some(io::Error::from_raw_os_error(NO_FILE)),
        }
    }

    fn close(&mut self, reader: Counted<FailingReader<'a>>)
        ensures { self.new.files ≡ self.old.files }
    {
        self.closed = self.closed.saturating_add(1);
        self.failures = self.failures.saturating_add(reader.failures());
    }
}

/// The bytes that a stream got.
#[derive(Clone, Copy)]
pub(crate) enum Sent {
    /// Exactly these bytes.
    Just(&'static [u8]),
    /// Exactly these lines, in any order. They are sorted here.
    Lines(&'static [&'static str]),
    /// Some text.
    SomeText,
}

/// Returns the lines of a text, sorted.
fn sorted_lines(alloc: Global, bytes: &[u8]) -> Option<Vec<&str>> {
    let text = str::from_utf8(bytes).ok()?;
    let mut lines = text.lines().collect::<Vec<&str>>(alloc).ok()?;
    lines.sort().ok()?;
    Some(lines)
}

/// Returns whether the bytes are a text of these sorted lines, in any order.
fn has_lines(alloc: Global, bytes: &[u8], sorted: &[&str]) -> bool {
    match sorted_lines(alloc, bytes) {
        Some(lines) => lines.as_slice() == sorted,
        None => false,
    }
}

impl Sent {
    /// Returns whether these are the bytes that the stream got.
    fn is(self, alloc: Global, bytes: &[u8]) -> bool {
        match self {
            Sent::Just(all) => bytes == all,
            Sent::Lines(sorted) => has_lines(alloc, bytes, sorted),
            Sent::SomeText => !bytes.is_empty(),
        }
    }
}

/// The end of a run.
#[derive(Clone, Copy)]
pub(crate) struct End {
    /// Its status.
    pub(crate) status: u8,
    /// What standard output got.
    pub(crate) out: Sent,
    /// What standard error got.
    pub(crate) err: Sent,
}

/// Words, files, and how the run ends.
pub(crate) struct Case {
    /// What the case shows.
    pub(crate) what: &'static str,
    /// The words of the command line with a space between two, the program's name first.
    pub(crate) words: &'static str,
    /// The files.
    pub(crate) files: &'static [File<'static>],
    /// How the run ends.
    pub(crate) end: End,
}

/// How the empty word is written.
const EMPTY_WORD: &str = "''";

/// Returns a word as `command` takes it.
fn owned_word(alloc: Global, word: &str) -> Result<String, AllocError> {
    match word == EMPTY_WORD {
        true => Ok(String::new(alloc)),
        false => String::from_str(alloc, word),
    }
}

/// Returns the words of a line as `command` takes them. They have a space between two.
fn owned(alloc: Global, words: &str) -> Result<Vec<String>, AllocError> {
    let mut all = Vec::new(alloc);
    for word in words.split(' ') {
        all.push(owned_word(alloc, word)?)?;
    }
    Ok(all)
}

/// Returns the status of a run of these words, or `None` if memory runs out for the words.
pub(crate) fn status_by<W: Write, V: Write>(
    alloc: Global,
    words: &str,
    opener: &mut Files<'_>,
    out: &mut Counted<W>,
    err: &mut Counted<V>,
) -> Option<u8> {
    let words = owned(alloc, words).ok()?;
    Some(command(alloc, words.as_slice(), opener, out, err))
}

/// Returns the status of a run of these words over these files, or `None` if memory runs out for the words.
pub(crate) fn status_of<W: Write, V: Write>(
    alloc: Global,
    words: &str,
    files: &[File<'_>],
    out: &mut Counted<W>,
    err: &mut Counted<V>,
) -> Option<u8> {
    status_by(alloc, words, &mut Files::new(files), out, err)
}

/// Returns whether a run of these words with this opener ends like this.
pub(crate) fn ends_by(alloc: Global, words: &str, opener: &mut Files<'_>, end: End) -> bool {
    let mut out = Counted::new(Vec::new(alloc));
    let mut err = Counted::new(Vec::new(alloc));
    let status = status_by(alloc, words, opener, &mut out, &mut err);
    let out = out.into_inner();
    let err = err.into_inner();
    status == Some(end.status)
        && end.out.is(alloc, out.as_slice())
        && end.err.is(alloc, err.as_slice())
}

/// Returns whether a run of these words over these files ends like this, and hands back every reader that it opened.
pub(crate) fn ends_so(alloc: Global, words: &str, files: &[File<'_>], end: End) -> bool {
    let mut opener = Files::new(files);
    ends_by(alloc, words, &mut opener, end)
        && opener.closed == opener.opened
        && opener.failures == 0
}

/// Checks that runs end as the cases say.
pub(crate) fn each_ends_so(rt: &impl Abort, alloc: Global, cases: &[Case]) {
    for case in cases {
        assert!(rt;
            ends_so(alloc, case.words, case.files, case.end),
            "{}",
            case.what
        );
    }
}
