//! The properties of a document that are ignored, since their objects don't have them, and what is meant by them.

use crate::near::near_name;
use crate::objects::{Object, object_with};
use csvw_hints::{Lines, Scan, place_of};
use csvw_meta::{MetaCode, MetaFault};
use csvw_page::{Meant, Page, UnknownShown};
use std::alloc::{AllocError, Global};

/// How many bytes of a pointer are made. More aren't shown.
const POINTER_BYTES: usize = 256;

/// Returns what is meant by the name of a property that an object doesn't have.
fn meant(alloc: Global, object: Object, name: &str) -> Result<Meant, AllocError> {
    if let Some(other) = object_with(name) {
        return Ok(Meant::Object(other.name()));
    }
    match near_name(alloc, name, &[object.properties(), object.inherited()])? {
        Some(near) => Ok(Meant::Name(near)),
        None => Ok(Meant::Nothing),
    }
}

/// A property that is ignored.
#[derive(Clone, Copy)]
struct Unknown<'a> {
    /// What doesn't have it.
    object: Object,
    /// Its name.
    name: &'a str,
    /// The place of its name, from 0.
    at: usize,
}

/// An object or an array that is being read, with what is read of it.
#[derive(Clone, Copy)]
enum Level<'a> {
    /// An object, and its last name, which is empty at first.
    Member(Object, &'a str),
    /// An array, what its items describe, and the place of the item, from 0.
    Item(Object, u64),
}

impl<'a> Level<'a> {
    /// Returns it at the next item, if it is an array.
    fn at_next_item(self) -> Level<'a> {
        match self {
            Level::Item(object, place) => Level::Item(object, place.saturating_add(1)),
            member => member,
        }
    }

    /// Returns it at a name, if it is an object.
    fn at_name(self, name: &'a str) -> Level<'a> {
        match self {
            Level::Member(object, _) => Level::Member(object, name),
            item => item,
        }
    }

    /// Returns what its next item describes, if it is an array.
    fn item(self) -> Object {
        match self {
            Level::Item(object, _) => object,
            Level::Member(_, _) => Object::Other,
        }
    }

    /// Returns what it describes, if it is an object.
    fn object(self) -> Object {
        match self {
            Level::Member(object, _) => object,
            Level::Item(_, _) => Object::Other,
        }
    }
}

/// A walk through a document, with the objects and arrays around its place.
#[derive(Drop)]
struct Walk<'a> {
    /// The place.
    scan: Scan<'a>,
    /// The objects and arrays, the outermost first.
    levels: Vec<Level<'a>>,
    /// What the next object or array describes.
    next: Object,
}

/// Adds a token to a pointer (RFC 6901, section 3).
fn push_token(pointer: &mut String, token: &str) -> Result<(), AllocError> {
    pointer.push('/')?;
    for c in token.chars() {
        if pointer.len() > POINTER_BYTES {
            break;
        }
        match c {
            '~' => pointer.push_str("~0")?,
            '/' => pointer.push_str("~1")?,
            c => pointer.push(c)?,
        }
    }
    Ok(())
}

/// Adds the token of a level to a pointer.
fn push_level(pointer: &mut String, level: Level<'_>) -> Result<(), AllocError> {
    match level {
        Level::Member(_, name) => push_token(pointer, name),
        Level::Item(_, place) => write!(pointer, "/{place}"),
    }
}

/// Returns what the object that is a document describes.
fn outermost(scan: &Scan<'_>) -> Object {
    let mut scan = *scan;
    scan.skip(&[]);
    match scan.member(b"tables") {
        Some(_) => Object::Group,
        None => Object::SoleTable,
    }
}

impl<'a> Walk<'a> {
    /// Begins at the start of a document.
    fn new(alloc: Global, bytes: &'a [u8]) -> Walk<'a> {
        let scan = Scan { bytes, at: 0 };
        Walk {
            scan,
            levels: Vec::new(alloc),
            next: outermost(&scan),
        }
    }

    /// Goes on to the next item, if the walk is in an array.
    fn next_item(&mut self) {
        if let Some(level) = self.levels.last_mut() {
            let next = level.at_next_item();
            self.next = next.item();
            *level = next;
        }
    }

    /// Goes on behind the end of an object or an array.
    fn leave(&mut self) {
        self.levels.pop();
    }

    /// Takes a byte that begins no string.
    fn take(&mut self, b: u8) -> Result<(), AllocError> {
        match b {
            b'{' => self.levels.push(Level::Member(self.next, ""))?,
            b'[' => self.levels.push(Level::Item(self.next, 0))?,
            b'}' | b']' => self.leave(),
            b',' => self.next_item(),
            _ => {}
        }
        self.scan.go_on();
        Ok(())
    }

    /// Keeps a name of the object in which the walk is. Returns what the object describes.
    fn keep_name(&mut self, name: &'a str) -> Object {
        let Some(level) = self.levels.last_mut() else {
            return Object::Other;
        };
        let named = level.at_name(name);
        *level = named;
        named.object()
    }

    /// Takes a string. Returns it, if it is the name of a property that is ignored. The value of such a property is passed, as
    /// is one whose names aren't looked at.
    fn take_string(&mut self) -> Option<Unknown<'a>> {
        let at = self.scan.at;
        let name = str::from_utf8(self.scan.string()).unwrap_or("\\");
        self.scan.skip(&[]);
        if self.scan.byte() != Some(b':') {
            return None;
        }
        let object = self.keep_name(name);
        let is_ignored = object.ignores(name);
        self.next = object.of_property(name);
        if is_ignored || self.next == Object::Other {
            self.scan.skip(b":");
            self.scan.value();
        }
        // a name with an escape isn't known here
        if is_ignored && !name.contains('\\') {
            return Some(Unknown { object, name, at });
        }
        None
    }

    /// Goes on to the next property that is ignored.
    fn next_unknown(&mut self) -> Result<Option<Unknown<'a>>, AllocError> {
        for _ in 0..self.scan.bytes.len() {
            self.scan.skip(&[]);
            match self.scan.byte() {
                Some(b'"') => {
                    let found = self.take_string();
                    if found.is_some() {
                        return Ok(found);
                    }
                }
                Some(b) => self.take(b)?,
                None => return Ok(None),
            }
        }
        Ok(None)
    }

    /// Makes the pointer of the last name.
    fn point(&self, pointer: &mut String) -> Result<(), AllocError> {
        pointer.clear();
        for level in &self.levels {
            if pointer.len() > POINTER_BYTES {
                break;
            }
            push_level(pointer, *level)?;
        }
        Ok(())
    }
}

/// Adds each property that is ignored: its place, its pointer, its name, its object, and what is meant. Begins the warnings of
/// the page at the first one. Returns how many there are.
pub(crate) fn show_unknown(page: &mut Page, path: &str, bytes: &[u8]) -> Result<u64, AllocError> {
    let alloc = page.alloc;
    let mut walk = Walk::new(alloc, bytes);
    let mut pointer = String::new(alloc);
    let mut lines = Lines::new();
    let mut count = 0u64;
    for _ in 0..bytes.len() {
        let Some(Unknown { object, name, at }) = walk.next_unknown()? else {
            break;
        };
        if count == 0 {
            page.begin_warnings()?;
        }
        lines.go_to(bytes, at);
        walk.point(&mut pointer)?;
        page.warning(&UnknownShown {
            path,
            line: lines.line as u64,
            column: lines.column as u64,
            pointer: pointer.as_str(),
            name,
            object: object.name(),
            meant: meant(alloc, object, name)?,
        })?;
        count = count.saturating_add(1);
    }
    Ok(count)
}

/// How many values have their lines. To find one takes a walk through the document.
const PLACED: usize = 1_000;

/// What is ignored in a document.
#[derive(Clone, Copy)]
pub(crate) struct Ignored<'a> {
    /// The path of the document.
    pub(crate) path: &'a str,
    /// Its own bytes.
    pub(crate) bytes: &'a [u8],
    /// The values that aren't permitted (`BadProperty`), and others that aren't shown.
    pub(crate) values: &'a [MetaFault],
    /// How many warnings there are in the report.
    pub(crate) times: u64,
}

/// Returns the last token of a pointer.
fn last_token(pointer: &str) -> &str {
    match pointer.rsplit_once('/') {
        Some((_, token)) => token,
        None => "",
    }
}

/// Adds a value that isn't permitted: its place, its pointer and its name. `times` values come before it.
fn show_value(
    page: &mut Page,
    ignored: &Ignored<'_>,
    value: &MetaFault,
    times: usize,
) -> Result<(), AllocError> {
    let pointer = value.pointer.as_str();
    let (line, column) = match times < PLACED {
        true => place_of(ignored.bytes, pointer),
        false => (0, 0),
    };
    page.warning(&UnknownShown {
        path: ignored.path,
        line: line as u64,
        column: column as u64,
        pointer,
        name: last_token(pointer),
        object: "",
        meant: Meant::Value,
    })
}

/// Adds each value that isn't permitted. Returns how many there are.
fn show_values(page: &mut Page, ignored: &Ignored<'_>) -> Result<usize, AllocError> {
    let mut times = 0usize;
    for value in ignored.values {
        if value.code == MetaCode::BadProperty {
            show_value(page, ignored, value, times)?;
            times = times.saturating_add(1);
        }
    }
    Ok(times)
}

/// Adds what is ignored in a document: the properties that their objects don't have, and the values that aren't permitted. Warnings of
/// resources, and of names with escapes, are counted.
pub(crate) fn show_ignored(page: &mut Page, ignored: &Ignored<'_>) -> Result<(), AllocError> {
    if ignored.times == 0 {
        return Ok(());
    }
    let placed = show_unknown(page, ignored.path, ignored.bytes)?;
    if placed == 0 {
        page.begin_warnings()?;
    }
    let values = show_values(page, ignored)?;
    let shown = placed.saturating_add(values as u64);
    match ignored.times.saturating_sub(shown) {
        0 => Ok(()),
        times => page.unplaced(ignored.path, times),
    }
}
