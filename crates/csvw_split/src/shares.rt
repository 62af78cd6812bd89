//! Where parts are to begin.
ghost use Rattle.std.specs.Prelude.{◌<◌};

/// The bytes of all files, one file after the other, in shares of equal size.
#[derive(Clone, Copy)]
pub(crate) struct Shares {
    /// The number of bytes of a share. It is at least 1.
    size: u64,
    /// The number of bytes of the files before this one.
    before: u64,
    ghost some: { 0 < size },
}

impl Shares {
    /// Returns at most so many shares of so many bytes, at the first file.
    pub(crate) fn new(bytes: u64, parts: u32) -> Shares {
        let parts = u64::from(parts).max(1);
        let whole = bytes / parts;
        let size = if bytes % parts == 0 {
            whole
        } else {
            whole.saturating_add(1)
        };
        Shares {
            size: size.max(1),
            before: 0,
        }
    }

    /// Returns the same shares at the file after one of this length.
    pub(crate) fn after(&self, length: u64) -> Shares {
        Shares {
            size: self.size,
            before: self.before.saturating_add(length),
        }
    }

    /// Returns the number of the share, from 0, that has this place of the file.
    pub(crate) fn share_at(&self, place: u64) -> u64 {
        self.before.saturating_add(place) / self.size
    }

    /// Returns the place of the file where the share after that of a place begins. It may be after the end of the file.
    pub(crate) fn next_after(&self, place: u64) -> u64 {
        self.share_at(place)
            .saturating_add(1)
            .saturating_mul(self.size)
            .saturating_sub(self.before)
    }
}
