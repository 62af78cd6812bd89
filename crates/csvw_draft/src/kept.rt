//! The different texts of a column, kept to look for keys.

use std::alloc::{AllocError, Global};
use std::collections::HashSet;

/// How many different texts of a column are kept at most.
const KEPT_VALUES: usize = 100_000;

/// How many bytes the texts of a column may have that are kept. Each text counts 32 bytes more.
const KEPT_BYTES: usize = 4_194_304;

/// How many bytes the texts of all columns of a draft may have that are kept. Each text counts 32 bytes more.
const KEPT_BYTES_IN_ALL: usize = 268_435_456;

/// How many bytes a text counts besides its own.
const BYTES_OF_ONE: usize = 32;

/// Why the texts of a column are no longer kept.
#[derive(Clone, Copy)]
pub(crate) enum Limit {
    /// There are more than `KEPT_VALUES`.
    Values,
    /// They have more than `KEPT_BYTES`.
    Bytes,
    /// The texts of all columns have more than `KEPT_BYTES_IN_ALL`.
    BytesInAll,
}

impl Limit {
    /// Returns what there is more of than may be kept.
    pub(crate) fn text(self) -> &'static str {
        match self {
            Limit::Values => "more than 100000 values",
            Limit::Bytes => "more than 4194304 bytes of values",
            Limit::BytesInAll => "more than 268435456 bytes of values in all columns",
        }
    }
}

/// The room that is left for the texts of all columns.
#[derive(Drop)]
pub(crate) struct Room {
    /// How many bytes are left.
    left: usize,
}

impl Room {
    /// Returns the room of a draft.
    pub(crate) fn new() -> Room {
        Room {
            left: KEPT_BYTES_IN_ALL,
        }
    }

    /// Takes so many bytes. Returns whether they were left.
    fn take(&mut self, bytes: usize) -> bool {
        if bytes > self.left {
            return false;
        }
        self.left -= bytes;
        true
    }

    /// Gives so many bytes back.
    fn give_back(&mut self, bytes: usize) {
        self.left = self.left.saturating_add(bytes);
    }
}

/// What a column's texts are kept for.
#[derive(Clone, Copy, PartialEq, Eq)]
pub(crate) enum Purpose {
    /// For a primary key alone, because there is one table. A text that comes twice ends it.
    PrimaryKey,
    /// For a primary key or a foreign key.
    AnyKey,
}

/// The different texts of a column, as far as they are kept.
#[derive(Drop)]
pub(crate) struct Kept {
    alloc: Global,
    purpose: Purpose,
    /// The texts.
    texts: HashSet<String>,
    /// How many bytes they count.
    bytes: usize,
    /// Whether a text came twice.
    is_doubled: bool,
    /// Why no more are kept.
    limit: Option<Limit>,
}

impl Kept {
    /// Starts with no text. It takes no memory.
    pub(crate) fn new(alloc: Global, purpose: Purpose) -> Kept {
        Kept {
            alloc,
            purpose,
            texts: HashSet::new(alloc),
            bytes: 0,
            is_doubled: false,
            limit: None,
        }
    }

    /// Keeps a text, if all before it were kept and there is room. Returns `AllocError` if memory runs out.
    pub(crate) fn add(&mut self, text: &str, room: &mut Room) -> Result<(), AllocError> {
        if self.limit.is_some() || self.is_useless() {
            return Ok(());
        }
        if self.texts.contains(text) {
            self.is_doubled = true;
            if self.is_useless() {
                self.drop_texts(room);
            }
            return Ok(());
        }
        let bytes = text.len().saturating_add(BYTES_OF_ONE);
        if let Some(limit) = self.limit_of(bytes, room) {
            self.limit = Some(limit);
            self.drop_texts(room);
            return Ok(());
        }
        self.bytes = self.bytes.saturating_add(bytes);
        self.texts.insert(String::from_str(self.alloc, text)?)?;
        Ok(())
    }

    /// Whether the texts serve no purpose any more.
    fn is_useless(&self) -> bool {
        self.is_doubled && self.purpose == Purpose::PrimaryKey
    }

    /// Takes room for so many bytes more. Returns the limit that they would pass, if they would.
    fn limit_of(&self, bytes: usize, room: &mut Room) -> Option<Limit> {
        if self.texts.len() >= KEPT_VALUES {
            return Some(Limit::Values);
        }
        if self.bytes.saturating_add(bytes) > KEPT_BYTES {
            return Some(Limit::Bytes);
        }
        if room.take(bytes) {
            None
        } else {
            Some(Limit::BytesInAll)
        }
    }

    /// Drops the texts, and gives their room back.
    fn drop_texts(&mut self, room: &mut Room) {
        self.texts = HashSet::new(self.alloc);
        room.give_back(self.bytes);
        self.bytes = 0;
    }

    /// Returns why not all texts are kept, if a limit was passed.
    pub(crate) fn limit(&self) -> Option<Limit> {
        self.limit
    }

    /// Returns whether all texts were kept, and each came once.
    pub(crate) fn is_unique(&self) -> bool {
        self.limit.is_none() && !self.is_doubled
    }

    /// Returns the different texts, or `None` if not all were kept.
    pub(crate) fn texts(&self) -> Option<&HashSet<String>> {
        if self.limit.is_some() || self.is_useless() {
            None
        } else {
            Some(&self.texts)
        }
    }
}
