//! The faults of a document that is refused.

use csvw_check_core::Profile;
use csvw_meta::MetaFault;
use csvw_meta_faults::faults_in;
use csvw_text::Seq;
use std::alloc::Global;

/// How many bytes the pointers of all faults may take, at each depth of the document, so that they are listed.
const MOST: usize = 16_777_216;

/// What is known of the bytes of a document so far.
#[derive(Clone, Copy)]
struct Scan {
    /// Whether a text goes on.
    in_text: bool,
    /// Whether a backslash comes before.
    is_escaped: bool,
    /// The length of the last text.
    text: usize,
    /// The length of the longest text that is a name.
    longest: usize,
    /// How many values there are at most.
    values: usize,
}

impl Scan {
    /// Takes a byte of a text.
    fn text_byte(&mut self, b: u8) {
        self.in_text = self.is_escaped || b != b'"';
        self.is_escaped = !self.is_escaped && b == b'\\';
        self.text = self.text.saturating_add(1);
    }

    /// Takes a byte outside texts.
    fn other_byte(&mut self, b: u8) {
        match b {
            b'"' => {
                self.in_text = true;
                self.text = 0;
            }
            b':' => {
                self.longest = self.longest.max(self.text);
                self.values = self.values.saturating_add(1);
            }
            b',' | b'[' => self.values = self.values.saturating_add(1),
            _ => {}
        }
    }

    /// Takes a byte.
    fn byte(&mut self, b: u8) {
        if self.in_text {
            self.text_byte(b);
        } else {
            self.other_byte(b);
        }
    }
}

/// Whether the pointers of a document's values may take much memory, since it has a long name and many values.
fn is_heavy(bytes: &[u8]) -> bool {
    let mut scan = Scan {
        in_text: false,
        is_escaped: false,
        text: 0,
        longest: 0,
        values: 0,
    };
    for b in bytes {
        scan.byte(*b);
    }
    scan.values.saturating_mul(scan.longest) > MOST
}

/// Returns the faults of a document in a profile, or none if there is no memory for them, or if they may take much.
pub(crate) fn faults_of(
    alloc: Global,
    bytes: &[u8],
    base: &str,
    profile: Profile,
) -> Seq<MetaFault> {
    if is_heavy(bytes) {
        return Seq::new(alloc);
    }
    match faults_in(alloc, bytes, base, profile) {
        Ok(faults) => faults,
        Err(_) => Seq::new(alloc),
    }
}
