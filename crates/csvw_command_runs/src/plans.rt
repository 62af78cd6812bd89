//! The plan of a group whose document is a file.
ghost use Rattle.std.specs.Prelude.{◌≤◌, IfOk};
ghost use Rattle.csvw_columns.specs.Ready.{AreReady};

use crate::profile::profile_of;
use crate::resources::resource_files;
use crate::tell::tell_stop;
use csvw_columns::Plan;
use csvw_defaults::with_defaults;
use csvw_engine::{Stop, planned};
use csvw_files::{Opener, ResourceFile, bundle_files, note_unread, read_document};
use csvw_text::Counted;
use std::alloc::Global;
use std::io::Write;

/// Why a command that reads files stops.
#[derive(Drop)]
pub(crate) enum FileStop<'a> {
    /// The file at this path can't be opened or read.
    Unread(&'a str),
    /// It stops as a run does.
    Stop(Stop),
}

impl<'a> From<Stop> for FileStop<'a> {
    fn from(stop: Stop) -> FileStop<'a> {
        FileStop::Stop(stop)
    }
}

impl FileStop<'_> {
    /// Reports the stop: a file that can't be read in a line that names it, with the system's error, and then the stop in
    /// its line. Returns the status.
    pub(crate) fn tell<O: Opener, V: Write>(&self, opener: &O, err: &mut Counted<V>) -> u8
        ensures { result ≤ 4 }
    {
        match self {
            FileStop::Unread(path) => {
                note_unread(path, opener.io_error(path), err);
                tell_stop(&Stop::Read, err)
            }
            FileStop::Stop(stop) => tell_stop(stop, err),
        }
    }
}

/// Returns that the file of a table can't be read. The first of the paths is that of table 1.
pub(crate) fn unread<'a>(table: u32, paths: &[&'a str]) -> FileStop<'a> {
    match paths.get((table as usize).wrapping_sub(1)) {
        Some(path) => FileStop::Unread(path),
        None => FileStop::Stop(Stop::Read),
    }
}

/// A metadata document in a file.
#[derive(Clone, Copy)]
pub(crate) struct DocumentFile<'a> {
    /// The path of the file.
    pub(crate) path: &'a str,
    /// The URL of the document.
    pub(crate) base: &'a str,
    /// The name of its profile, if one is given.
    pub(crate) profile: Option<&'a str>,
    /// The resources that take the place of their URLs in it, each as `URL=FILE`.
    pub(crate) resources: &'a [&'a str],
}

/// Reads a file of at most the length of a document, or one byte more.
pub(crate) fn read_file<'a, O: Opener>(
    alloc: Global,
    path: &'a str,
    opener: &mut O,
) -> Result<Vec<u8>, FileStop<'a>> {
    let Some(reader) = opener.open(path) else {
        return Err(FileStop::Unread(path));
    };
    let mut reader = Counted::new(reader);
    let read = read_document(alloc, &mut reader);
    opener.close(reader);
    match read {
        Ok(bytes) => Ok(bytes),
        Err(Stop::Read) => Err(FileStop::Unread(path)),
        Err(stop) => Err(FileStop::Stop(stop)),
    }
}

/// Returns that the first file which the system refused can't be read.
fn unread_resource<'a, O: Opener>(files: &[ResourceFile<'a>], opener: &O) -> FileStop<'a> {
    for file in files {
        if opener.io_error(file.path).is_some() {
            return FileStop::Unread(file.path);
        }
    }
    FileStop::Stop(Stop::Read)
}

/// Returns the bytes of a document, in which the objects of its resources take the place of their URLs.
fn with_resources<'a, O: Opener>(
    alloc: Global,
    own: Vec<u8>,
    document: DocumentFile<'a>,
    opener: &mut O,
) -> Result<Vec<u8>, FileStop<'a>> {
    let Ok(files) = resource_files(alloc, document.resources) else {
        return Err(FileStop::Stop(Stop::Memory));
    };
    match bundle_files(alloc, own, document.base, files.as_slice(), opener) {
        Ok(bytes) => Ok(bytes),
        Err(Stop::Read) => Err(unread_resource(files.as_slice(), opener)),
        Err(stop) => Err(FileStop::Stop(stop)),
    }
}

/// Reads a metadata document with its resources, and plans its tables.
pub(crate) fn plan_of<'a, O: Opener>(
    alloc: Global,
    document: DocumentFile<'a>,
    opener: &mut O,
) -> Result<Plan, FileStop<'a>>
    ensures { IfOk result (λ plan. AreReady plan.tables) }
{
    let own = read_file(alloc, document.path, opener)?;
    let whole = with_resources(alloc, own, document, opener)?;
    let profile = profile_of(document.profile);
    let Ok(meta) = with_defaults(alloc, whole, profile) else {
        return Err(FileStop::Stop(Stop::Memory));
    };
    match planned(alloc, meta.bytes.as_slice(), document.base, profile) {
        Ok(plan) => Ok(plan),
        Err(stop) => Err(FileStop::Stop(stop)),
    }
}
