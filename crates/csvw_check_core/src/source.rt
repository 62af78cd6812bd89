//! A document, and the files of the resources that it names by their URLs.

use crate::document::{UnreadFile, opened};
use csvw_defaults::{Defaulted, with_defaults};
use csvw_engine_core::Stop;
use csvw_files::{Opener, ResourceFile, bundle_files};
use csvw_meta::{MetaFault, Profile};
use csvw_text::Seq;
use std::alloc::{AllocError, Global};

/// A document that is to be read, and the files of its resources.
#[derive(Clone, Copy)]
pub struct Source<'a> {
    /// The absolute URL of the document.
    pub base: &'a str,
    /// The path of the document.
    pub meta: &'a str,
    /// The files of the schemas and dialects that the document names by their URLs. There may be none.
    pub resources: &'a [ResourceFile<'a>],
    /// The features that the document may use.
    pub profile: Profile,
}

/// A document that was read from its file.
#[derive(Drop)]
pub struct Document {
    /// Its own bytes. Lines, columns and hints are of these bytes.
    pub own: Vec<u8>,
    /// Its bytes with the objects of its resources in place of their URLs, and without the values that aren't permitted. It is `None` if
    /// these are its own bytes.
    pub defaulted: Option<Vec<u8>>,
    /// The values that aren't permitted and are ignored (`BadProperty`), and the bounds that are read as texts (`NotSupported`).
    pub changed: Seq<MetaFault>,
}

impl Document {
    /// Returns the bytes that say what the document describes.
    pub fn bytes(&self) -> &[u8] {
        match &self.defaulted {
            Some(bytes) => bytes.as_slice(),
            None => self.own.as_slice(),
        }
    }
}

/// What became of a document and its resources.
#[derive(Drop)]
pub enum Opened<'a> {
    /// The document was read.
    Document(Document),
    /// This file can't be opened or read.
    Unread(UnreadFile<'a>),
    /// A resource can't be used. These are the document's own bytes, and the fault.
    Refused(Vec<u8>, MetaFault),
}

/// Returns the path of the first resource whose file can't be read, or `None` if there is none.
fn unread_resource<'a, O: Opener>(
    alloc: Global,
    files: &'a [ResourceFile<'a>],
    opener: &mut O,
) -> Option<&'a str> {
    for file in files {
        if opened(alloc, file.path, opener).is_none() {
            return Some(file.path);
        }
    }
    None
}

/// Returns the file of a document that can't be read.
///
/// It is the document, if the system says so. Else it is the first resource that can't be read. If all can be read now, it is
/// the document.
pub fn unread_file<'a, O: Opener>(
    alloc: Global,
    source: &Source<'a>,
    opener: &mut O,
) -> UnreadFile<'a> {
    let error = opener.io_error(source.meta);
    let path = match error {
        Some(_) => source.meta,
        None => unread_resource(alloc, source.resources, opener).unwrap_or(source.meta),
    };
    UnreadFile {
        path,
        table: 0,
        error: opener.io_error(path),
    }
}

/// Returns a document with its own bytes, and with these bytes of it and its resources.
fn document_of(
    alloc: Global,
    own: Vec<u8>,
    bytes: Vec<u8>,
    profile: Profile,
) -> Result<Document, AllocError> {
    let Defaulted { bytes, changed } = with_defaults(alloc, bytes, profile)?;
    let is_own = bytes.as_slice() == own.as_slice();
    Ok(Document {
        own,
        defaulted: if is_own { None } else { Some(bytes) },
        changed,
    })
}

/// Reads a document, and the files of its resources. It returns `AllocError` if memory runs out.
pub fn open_document<'a, O: Opener>(
    alloc: Global,
    source: &Source<'a>,
    opener: &mut O,
) -> Result<Opened<'a>, AllocError> {
    let Some(own) = opened(alloc, source.meta, opener) else {
        return Ok(Opened::Unread(UnreadFile {
            path: source.meta,
            table: 0,
            error: opener.io_error(source.meta),
        }));
    };
    let copy = Vec::from_slice(alloc, own.as_slice())?;
    match bundle_files(alloc, copy, source.base, source.resources, opener) {
        Ok(bytes) => Ok(Opened::Document(document_of(alloc, own, bytes, source.profile)?)),
        Err(Stop::Read) => Ok(Opened::Unread(unread_file(alloc, source, opener))),
        Err(Stop::Meta(fault)) => Ok(Opened::Refused(own, fault)),
        Err(_) => Err(AllocError),
    }
}
