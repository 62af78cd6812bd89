//! How far a file has been read, in a line at a terminal.

use std::alloc::{AllocError, Global};
use std::simd::prelude::*;
use std::time::Duration;

/// The time before the first line and between two lines, in milliseconds.
const PAUSE: u64 = 250;

/// The number of bytes in a megabyte.
const MEGABYTE: u64 = 1_000_000;

/// Of so many pieces, the line feeds of one are counted. That is what keeps the cost of progress low.
const SAMPLED: u64 = 8;

/// What erases the line of a terminal and goes to its begin (ECMA-48).
pub(crate) const ERASED: &str = "\r\x1b[K";

/// How far a file has been read.
#[derive(Drop)]
pub(crate) struct Progress {
    /// The path of the file.
    path: String,
    /// The number of its bytes, if it is known.
    total: Option<u64>,
    /// The number of pieces that were read.
    pieces: u64,
    /// The number of their bytes.
    bytes: u64,
    /// The number of bytes of the pieces whose line feeds were counted.
    sampled: u64,
    /// The number of line feeds in these pieces.
    line_feeds: u64,
    /// When the next line is due, in milliseconds from the start.
    due: u64,
}

impl Progress {
    /// Returns the progress of a file of which nothing was read. Fails with `AllocError` if memory runs out.
    pub(crate) fn new(
        alloc: Global,
        path: &str,
        total: Option<u64>,
    ) -> Result<Progress, AllocError> {
        Ok(Progress {
            path: String::from_str(alloc, path)?,
            total,
            pieces: 0,
            bytes: 0,
            sampled: 0,
            line_feeds: 0,
            due: PAUSE,
        })
    }

    /// Whether a line was shown.
    pub(crate) fn is_shown(&self) -> bool {
        self.due > PAUSE
    }

    /// Counts a piece that was read, and the line feeds of the first of each eight pieces.
    pub(crate) fn count(&mut self, piece: &[u8]) {
        let len = piece.len() as u64;
        self.bytes = self.bytes.saturating_add(len);
        if self.pieces % SAMPLED == 0 {
            self.sampled = self.sampled.saturating_add(len);
            self.line_feeds = self.line_feeds.saturating_add(line_feeds(piece));
        }
        self.pieces = self.pieces.saturating_add(1);
    }

    /// Returns about how many rows were read. A line feed counts as a row, and pieces that were not searched count as those
    /// that were.
    fn rows(&self) -> u64 {
        let rows = u128::from(self.line_feeds) * u128::from(self.bytes)
            / u128::from(self.sampled.max(1));
        u64::try_from(rows).unwrap_or(u64::MAX)
    }

    /// Returns the line that is due after this time from the start, or `None` if none is due or memory runs out.
    pub(crate) fn line(&mut self, alloc: Global, elapsed: Duration) -> Option<String> {
        let now = u64::try_from(elapsed.as_millis()).ok()?;
        if now < self.due {
            return None;
        }
        self.due = now.saturating_add(PAUSE);
        self.text(alloc, now).ok()
    }

    /// Returns the line after so many milliseconds.
    fn text(&self, alloc: Global, now: u64) -> Result<String, AllocError> {
        let mut text = String::from_str(alloc, ERASED)?;
        let rows = self.rows();
        let read = self.bytes / MEGABYTE;
        text.push_str(self.path.as_str())?;
        write!(text, ": about {rows} rows, {read} MB")?;
        if let Some(total) = self.total {
            let whole = total / MEGABYTE;
            write!(text, " of {whole} MB")?;
        }
        // bytes in a millisecond are thousands of them in a second
        let rate = self.bytes / now.max(1);
        let in_a_second = rate / 1000;
        write!(text, ", {in_a_second} MB/s")?;
        if let Some(total) = self.total {
            let left = total.saturating_sub(self.bytes) / rate.max(1) / 1000;
            write!(text, ", {left} s left")?;
        }
        Ok(text)
    }
}

/// Returns the number of line feeds among some bytes. It looks at 64 bytes together, so that progress costs nearly
/// nothing.
fn line_feeds(bytes: &[u8]) -> u64 {
    let (blocks, rest) = bytes.as_chunks::<64>();
    let mut lines = 0u64;
    for block in blocks {
        lines = lines.saturating_add(line_feeds_in(block));
    }
    lines.saturating_add(rest.iter().filter(|byte| **byte == b'\n').count() as u64)
}

/// Returns the number of line feeds among 64 bytes.
fn line_feeds_in(block: &[u8; 64]) -> u64 {
    let found = u8x64::from_array(*block).simd_eq(u8x64::splat(b'\n'));
    u64::from(found.to_bitmask().count_ones())
}
