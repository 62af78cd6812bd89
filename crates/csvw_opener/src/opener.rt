//! Where files come from.
ghost use Rattle.std.specs.Prelude.{◌≡◌, ℕ, IfSome, List, Option, None};
ghost use Rattle.csvw_streams.specs.declared.counted.Counted.{Counted as TheCounted};

use crate::input::{Input, Watch};
use csvw_streams::Counted;
use percent_encoding::{AsciiSet, CONTROLS, ascii_set, utf8_percent_encode};
use std::alloc::{AllocError, Global};
use std::fs::OpenOptions;
use std::io::{self, Read, Seek, SeekFrom, Stdin, Write};
use std::rt::{Clock, Env, Files};
use std::{fs, path};

/// The name of standard input in place of a file's path.
pub const STANDARD_INPUT: &str = "-";

/// The ASCII characters that the path of a URL can't have as they are (URL Standard, section 1.3), and `%`.
const BUT_PATH: AsciiSet = ascii_set!(
    CONTROLS
        .add(b' ')
        .add(b'"')
        .add(b'#')
        .add(b'<')
        .add(b'>')
        .add(b'?')
        .add(b'^')
        .add(b'`')
        .add(b'{')
        .add(b'}')
        .add(b'%')
);

/// Returns the `file:` URL of an absolute path, or `AllocError` if memory runs out.
fn file_url(alloc: Global, path: &str) -> Result<String, AllocError> {
    let mut url = String::from_str(alloc, "file://")?;
    for part in utf8_percent_encode(path, BUT_PATH) {
        url.push_str(part)?;
    }
    Ok(url)
}

/// At which streams of a process texts have colours.
#[derive(Clone, Copy, Debug, PartialEq, Eq)]
pub struct Colors {
    /// At standard output.
    pub out: bool,
    /// At standard error.
    pub err: bool,
}

/// Whether the progress of a file is shown on standard error.
#[derive(Clone, Copy, Debug, PartialEq, Eq)]
pub enum ProgressShown {
    /// It isn't shown.
    Never,
    /// It is shown at most four times a second, and erased when the file is handed back.
    Always,
}

/// Opens files to read, and takes their readers back. Creates files to write.
pub trait Opener {
    /// What reads a file that was opened.
    type Reader: Read + Drop;

    /// What writes a file that was created.
    type Writer: Write + Drop;

    // What a path gives, and what it leaves.
    ghost opens: { Self → List ℕ → Option Self.Reader → Self → Type 0 };

    // What reads the file of a path from a byte on, and what opening it leaves.
    ghost opens_at: { Self → List ℕ → ℕ → Self.Reader → Self → Type 0 };

    // What a reader that is handed back leaves.
    ghost closes: { Self → TheCounted Self.Reader → Self → Type 0 };

    /// Opens the file at this path. Returns `None` if it can't be opened.
    fn open(&mut self, path: &str) -> Option<Self::Reader>
        ensures { opens self.old path.now result self.new };

    /// Opens the file at this path from a byte on, from 0. Returns `None` if it can't be opened, or not at that byte.
    fn open_at(&mut self, path: &str, first_byte: u64) -> Option<Self::Reader>
        ensures { IfSome result (λ reader. opens_at self.old path.now first_byte reader self.new) }
    {
        None
    }

    /// Creates the file at this path, or empties the one that is there. Returns `None` if it can't.
    fn create(&mut self, _path: &str) -> Option<Self::Writer> {
        None
    }

    /// Returns the `file:` URL of the file at a path, or `None` if it isn't known.
    fn url(&self, _path: &str) -> Option<String> {
        None
    }

    /// Returns the number of bytes of the file at a path, or `None` if it isn't known, as that of standard input.
    fn length(&self, _path: &str) -> Option<u64> {
        None
    }

    /// Returns the error with which the system refuses to open or read the file at a path, or `None` if it isn't known.
    fn io_error(&self, _path: &str) -> Option<io::Error> {
        None
    }

    /// Returns at which streams texts have colours, if it isn't said.
    fn colors(&self) -> Colors {
        Colors {
            out: false,
            err: false,
        }
    }

    /// Takes back the reader of a file, in the state in which it was left and with its count of failures. Nothing more is
    /// read of it.
    fn close(&mut self, reader: Counted<Self::Reader>)
        ensures { closes self.old reader self.new };
}

/// Opens the files of a file system, and standard input by the name `-`, once.
#[derive(Drop)]
pub struct FileOpener<'a, R> {
    /// What reaches the files.
    rt: &'a R,
    /// Standard input, until it is opened.
    stdin: Option<Stdin>,
    /// At which streams texts have colours.
    colors: Colors,
    /// Whether the progress of files is shown.
    progress: ProgressShown,
}

impl<'a, R: Files> FileOpener<'a, R> {
    /// Opens the files that this runtime reaches, and this standard input. Nothing has colours, and no progress is
    /// shown.
    pub fn new(rt: &'a R, stdin: Stdin) -> FileOpener<'a, R>
        ensures { result.rt ≡ rt.entry }
    {
        FileOpener {
            rt,
            stdin: Some(stdin),
            colors: Colors {
                out: false,
                err: false,
            },
            progress: ProgressShown::Never,
        }
    }

    /// Returns the same, with these colours and this progress.
    pub fn showing(self, colors: Colors, progress: ProgressShown) -> FileOpener<'a, R>
        ensures { result.rt ≡ self.entry.rt }
    {
        FileOpener {
            rt: self.rt,
            stdin: self.stdin,
            colors,
            progress,
        }
    }
}

impl<'a, R: Files + Clock + Eprint + AllocGlobal> FileOpener<'a, R> {
    /// Returns what watches a file from now on, or `None` if no progress is shown.
    fn watch(&self, path: &str) -> Option<Watch<'a, R>> {
        match self.progress {
            ProgressShown::Never => None,
            ProgressShown::Always => Watch::of(self.rt, path),
        }
    }
}

impl<'a, R: Files + Env + Clock + Eprint + AllocGlobal> Opener for FileOpener<'a, R> {
    type Reader = Input<'a, R>;

    type Writer = R::File;

    // `fs::open` says nothing of the file that a path gives.
    ghost opens = { λ old _ _ new. new.rt ≡ old.rt };

    // Nor does `seek` say at which byte it reads.
    ghost opens_at = { λ old _ _ _ new. new.rt ≡ old.rt };

    ghost closes = { λ old _ new. new ≡ old };

    fn open(&mut self, path: &str) -> Option<Input<'a, R>> {
        if path == STANDARD_INPUT {
            let stdin = self.stdin.take()?;
            return Some(Input::standard(stdin, self.watch(path)));
        }
        let file = fs::open(self.rt, path).ok()?;
        Some(Input::file(file, self.watch(path)))
    }

    fn open_at(&mut self, path: &str, first_byte: u64) -> Option<Input<'a, R>> {
        if path == STANDARD_INPUT {
            return None;
        }
        let mut file = fs::open(self.rt, path).ok()?;
        file.seek(SeekFrom::Start(first_byte)).ok()?;
        Some(Input::file(file, self.watch(path)))
    }

    fn create(&mut self, path: &str) -> Option<R::File> {
        let mut how = OpenOptions::new();
        how.write(true).create(true).truncate(true);
        self.rt.open_file(&how, path).ok()
    }

    fn url(&self, path: &str) -> Option<String> {
        let path = path::absolute(self.rt, path).ok()?;
        file_url(self.rt.alloc(), path.as_path().as_str()).ok()
    }

    fn length(&self, path: &str) -> Option<u64> {
        if path == STANDARD_INPUT {
            return None;
        }
        match self.rt.metadata(path) {
            Ok(metadata) if metadata.is_file() => Some(metadata.len()),
            _ => None,
        }
    }

    fn io_error(&self, path: &str) -> Option<io::Error> {
        if path == STANDARD_INPUT {
            return None;
        }
        match fs::open(self.rt, path) {
            Ok(mut file) => file.read(&mut [0u8; 1]).err(),
            Err(fault) => Some(fault),
        }
    }

    fn colors(&self) -> Colors {
        self.colors
    }

    fn close(&mut self, reader: Counted<Input<'a, R>>)
        ensures { self.new ≡ self.old }
    {
        reader.into_inner().end();
    }
}
