//! The text of bytes that come in pieces, up to the first byte that is not UTF-8.
ghost use Rattle.std.specs.Prelude.{◌≡◌, ◌≤◌, ◌+◌, ℕ, List, ◌==◌, ◌++◌, not, true, false, [], if◌then◌else◌};
ghost use Rattle.std.specs.Prelude.{length, drop, vec_len, IfOk, OnOk, OnErr, IsUtf8, chars};
ghost use Rattle.std.specs.Str.{is_utf8};
ghost use Rattle.csvw_records.specs.Files.{without_mark};

use csvw_fields::valid_front;
use csvw_records::laws::record_laws;
use std::alloc::{AllocError, Global};

const BYTE_ORDER_MARK: char = '\u{FEFF}';

/// The text that was not taken yet. A byte order mark at the start isn't part of it.
#[derive(Drop)]
pub struct Source {
    /// The allocator of its memory.
    alloc: Global,
    /// The text, whose front was taken.
    text: Vec<u8>,
    /// The number of bytes of it that were taken.
    taken: usize,
    /// The bytes at the end that are not a whole character.
    pending: Vec<u8>,
    /// Whether a character came. If one did, no byte order mark may follow.
    begun: bool,
    /// Whether the bytes are not UTF-8, whatever follows.
    is_bad: bool,
    ghost within: { taken ≤ vec_len text },
    ghost is_text: { is_utf8 (drop taken text.items) ≡ true },
}

impl Source {
    ghost use Rattle.csvw_rows.specs.SourceState.{text_items, taken_of, rest_bytes, rest_of, is_bad_of, pending_of, begun_of, unread_bytes_in, Pushes, Grows};

    /// Returns a source without text.
    pub fn new(alloc: Global) -> Source
        ensures rest { rest_of result ≡ [] }
        ensures begun { begun_of result ≡ false }
        ensures pending { pending_of result ≡ [] }
        ensures bad { is_bad_of result ≡ false }
    {
        Source {
            alloc,
            text: Vec::new(alloc),
            taken: 0,
            pending: Vec::new(alloc),
            begun: false,
            is_bad: false,
        }
    }

    /// Adds some more bytes. Returns `AllocError` if memory runs out.
    pub fn push(&mut self, piece: &[u8]) -> Result<(), AllocError>
        ensures pushes { OnOk result (Pushes self.old self.new piece.now) }
        ensures grows { OnOk result (Grows self.old self.new) }
    {
        if self.pending.is_empty() {
            return self.decode(piece);
        }
        let bytes = joined(self.alloc, self.pending.as_slice(), piece)?;
        self.decode(bytes.as_slice())
    }

    /// Adds the text of these bytes, after the pending ones.
    fn decode(&mut self, bytes: &[u8]) -> Result<(), AllocError>
        ensures pushes { (piece : List ℕ) → bytes.now ≡ pending_of self.old ++ piece → OnOk result (Pushes self.old self.new piece) }
        ensures grows { OnOk result (Grows self.old self.new) }
    {
        record_laws();
        let (text, is_bad) = valid_front(bytes);
        let pending = tail(self.alloc, bytes, text.len())?;
        self.add(text)?;
        self.begun = has_begun(self.begun, text);
        self.pending = pending;
        self.is_bad = is_bad;
        Ok(())
    }

    /// Adds some text in the place of what was taken.
    fn add(&mut self, text: &str) -> Result<(), AllocError>
        ensures rest { OnOk result (rest_of self.new ≡ rest_of self.old ++ (if begun_of self.old then chars text.now else without_mark (chars text.now))) }
        ensures bad { is_bad_of self.new ≡ is_bad_of self.old }
        ensures pending { pending_of self.new ≡ pending_of self.old }
        ensures begun { begun_of self.new ≡ begun_of self.old }
    {
        drop_front(&mut self.text, self.taken);
        self.taken = 0;
        self.text
            .extend_from_slice(unmarked(self.begun, text).as_bytes())
    }

    /// Returns the text that isn't taken.
    pub fn rest(&self) -> &str
        ensures value { result.now ≡ rest_bytes self.now }
        ensures chars { chars result.now ≡ rest_of self.now }
    {
        let (_, rest) = self.text.as_slice().split_at(self.taken);
        unsafe { str::from_utf8_unchecked(rest) }
    }

    /// Returns the bytes that are kept, with those that were taken.
    pub fn items(&self) -> &[u8]
        ensures { result.now ≡ text_items self.now }
    {
        self.text.as_slice()
    }

    /// Returns how many of the bytes that are kept were taken.
    pub fn taken(&self) -> usize
        ensures { result ≡ taken_of self.now }
    {
        self.taken
    }

    /// Takes some bytes, which are text.
    pub fn take(&mut self, len: usize)
        requires within { len ≤ length (rest_bytes self.old) }
        requires text { is_utf8 (drop len (rest_bytes self.old)) ≡ true }
        ensures rest { rest_bytes self.new ≡ drop len (rest_bytes self.old) }
        ensures items { text_items self.new ≡ text_items self.old }
        ensures bad { is_bad_of self.new ≡ is_bad_of self.old }
        ensures pending { pending_of self.new ≡ pending_of self.old }
        ensures begun { begun_of self.new ≡ begun_of self.old }
    {
        self.taken += len;
    }

    /// Returns the number of bytes that aren't taken, with those at the end that are not a whole character.
    pub fn unread_bytes(&self) -> usize
        ensures { result ≡ unread_bytes_in self.now }
    {
        (self.text.len() - self.taken) + self.pending.len()
    }

    /// Goes on after text that isn't there: a character came.
    pub fn begin(&mut self)
        ensures items { text_items self.new ≡ text_items self.old }
        ensures rest { rest_bytes self.new ≡ rest_bytes self.old }
        ensures pending { pending_of self.new ≡ pending_of self.old }
        ensures bad { is_bad_of self.new ≡ is_bad_of self.old }
        ensures begun { begun_of self.new ≡ true }
    {
        self.begun = true;
    }

    /// Returns whether the bytes are not UTF-8, whatever follows.
    pub fn is_bad(&self) -> bool
        ensures { result ≡ is_bad_of self.now }
    {
        self.is_bad
    }

    /// Returns whether the bytes end inside a character.
    pub fn is_cut(&self) -> bool
        ensures { result ≡ not (length (pending_of self.now) == 0) }
    {
        !self.pending.is_empty()
    }
}

/// Returns the text without a byte order mark at its start.
fn unmarked(begun: bool, text: &str) -> &str
    ensures { chars result.now ≡ (if begun then chars text.now else without_mark (chars text.now)) }
{
    if begun {
        return text;
    }
    let mut rest = text.chars();
    match rest.next() {
        Some(BYTE_ORDER_MARK) => rest.as_str(),
        _ => text,
    }
}

/// Returns whether there was a character, in this text or before it.
fn has_begun(begun: bool, text: &str) -> bool
    ensures { result ≡ (if begun then true else not (length (chars text.now) == 0)) }
{
    begun || !text.is_empty()
}

fn joined(alloc: Global, a: &[u8], b: &[u8]) -> Result<Vec<u8>, AllocError>
    ensures { IfOk result (λ v. v.items ≡ a.now ++ b.now) }
{
    let mut all = Vec::from_slice(alloc, a)?;
    all.extend_from_slice(b)?;
    Ok(all)
}

/// Returns the bytes after the first `count`.
fn tail(alloc: Global, bytes: &[u8], count: usize) -> Result<Vec<u8>, AllocError>
    requires { count ≤ length bytes.now }
    ensures { IfOk result (λ v. v.items ≡ drop count bytes.now) }
{
    let (_, rest) = bytes.split_at(count);
    Vec::from_slice(alloc, rest)
}

/// Moves the bytes after the first `count` to the start.
fn drop_front(bytes: &mut Vec<u8>, count: usize)
    requires { count ≤ vec_len bytes.old }
    ensures { bytes.new.items ≡ drop count bytes.old.items }
{
    if count == 0 {
        return;
    }
    let rest = bytes.len() - count;
    bytes.copy_within(count.., 0);
    bytes.truncate(rest);
}
