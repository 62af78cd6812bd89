//! The line and the column of a value of a JSON document, by its pointer (RFC 6901).

/// A place in the bytes of a document.
#[derive(Clone, Copy)]
pub struct Scan<'a> {
    /// The bytes of the document.
    pub bytes: &'a [u8],
    /// The place, from 0.
    pub at: usize,
}

impl<'a> Scan<'a> {
    /// Returns the byte at this place.
    pub fn byte(&self) -> Option<u8> {
        self.bytes.get(self.at).copied()
    }

    /// Goes on by one byte.
    pub fn go_on(&mut self) {
        self.at = self.at.saturating_add(1);
    }

    /// Goes on to the next byte that isn't white space or one of the given bytes.
    pub fn skip(&mut self, other: &[u8]) {
        for _ in 0..self.bytes.len() {
            match self.byte() {
                Some(b' ' | b'\n' | b'\r' | b'\t') => self.go_on(),
                Some(b) if other.contains(&b) => self.go_on(),
                _ => return,
            }
        }
    }

    /// Goes on behind the string at this place, and returns the bytes between its quotes.
    pub fn string(&mut self) -> &'a [u8] {
        self.go_on();
        let begin = self.at;
        for _ in 0..self.bytes.len() {
            match self.byte() {
                Some(b'\\') => {
                    self.go_on();
                    self.go_on();
                }
                Some(b'"') | None => break,
                Some(_) => self.go_on(),
            }
        }
        let inner = self.bytes.get(begin..self.at).unwrap_or(&[]);
        self.go_on();
        inner
    }

    /// Goes on behind the value at this place.
    pub fn value(&mut self) {
        let mut depth = 0usize;
        for _ in 0..self.bytes.len() {
            match self.byte() {
                Some(b'"') => {
                    self.string();
                }
                Some(b'{' | b'[') => {
                    depth = depth.saturating_add(1);
                    self.go_on();
                }
                Some(b'}' | b']') if depth > 0 => {
                    depth -= 1;
                    self.go_on();
                }
                Some(b',' | b'}' | b']') if depth == 0 => return,
                None => return,
                Some(_) => self.go_on(),
            }
            if depth == 0 && self.ends_here() {
                return;
            }
        }
    }

    /// Whether a value outside all others may end before this place.
    fn ends_here(&self) -> bool {
        matches!(
            self.byte(),
            None | Some(b',' | b'}' | b']' | b' ' | b'\n' | b'\r' | b'\t')
        )
    }

    /// Goes on to the last member of this name of the object at this place. Returns the place of its name.
    pub fn member(&mut self, name: &[u8]) -> Option<usize> {
        let mut found = None;
        self.go_on();
        for _ in 0..self.bytes.len() {
            self.skip(b",");
            if self.byte() != Some(b'"') {
                break;
            }
            let begin = self.at;
            let is_this = self.string() == name;
            self.skip(b":");
            if is_this {
                found = Some((begin, self.at));
            }
            self.value();
        }
        let (begin, value) = found?;
        self.at = value;
        Some(begin)
    }

    /// Goes on to an item of the array at this place, counted from 0. Returns its place.
    fn item(&mut self, index: usize) -> Option<usize> {
        self.go_on();
        for _ in 0..index {
            self.skip(b",");
            self.value();
        }
        self.skip(b",");
        match self.byte() {
            None | Some(b']') => None,
            Some(_) => Some(self.at),
        }
    }

    /// Goes on to what a token of a pointer names. Returns its place.
    fn step(&mut self, token: &str) -> Option<usize> {
        self.skip(&[]);
        match self.byte() {
            Some(b'{') => self.member(token.as_bytes()),
            Some(b'[') => self.item(token.parse::<usize>().ok()?),
            _ => None,
        }
    }
}

/// Returns the place of what a pointer names, as far as the document has it. Names with escapes aren't found.
fn offset_of(bytes: &[u8], pointer: &str) -> usize {
    let mut scan = Scan { bytes, at: 0 };
    let mut found = 0;
    for token in pointer.split('/').skip(1) {
        match scan.step(token) {
            Some(at) => found = at,
            None => return found,
        }
    }
    found
}

/// Returns the text that a pointer names, as the bytes of the document spell it, or `None` if it names no text. Names with
/// escapes aren't found.
pub fn text_at<'a>(bytes: &'a [u8], pointer: &str) -> Option<&'a str> {
    let mut scan = Scan { bytes, at: 0 };
    for token in pointer.split('/').skip(1) {
        scan.step(token)?;
    }
    scan.skip(&[]);
    match scan.byte() {
        Some(b'"') => str::from_utf8(scan.string()).ok(),
        _ => None,
    }
}

/// Returns the line and the column of what a pointer names, both from 1. A column counts characters.
pub fn place_of(bytes: &[u8], pointer: &str) -> (usize, usize) {
    let offset = offset_of(bytes, pointer);
    line_and_column(bytes.get(..offset).unwrap_or(&[]))
}

/// A place of a text that is read from its start to its end, with its line and its column, both from 1. A column counts
/// characters.
#[derive(Clone, Copy)]
pub struct Lines {
    /// The place in bytes.
    at: usize,
    /// The line.
    pub line: usize,
    /// The column.
    pub column: usize,
}

impl Lines {
    /// Returns the start of a text.
    pub fn new() -> Lines {
        Lines {
            at: 0,
            line: 1,
            column: 1,
        }
    }

    /// Takes a byte.
    fn take(&mut self, b: u8) {
        if b == b'\n' {
            self.line = self.line.saturating_add(1);
            self.column = 1;
        } else if b & 0xC0 != 0x80 {
            self.column = self.column.saturating_add(1);
        }
    }

    /// Goes on to a later place of the same text.
    pub fn go_to(&mut self, bytes: &[u8], at: usize) {
        for b in bytes.get(self.at..at).unwrap_or(&[]) {
            self.take(*b);
        }
        self.at = at;
    }
}

/// Returns the line and the column behind these bytes, both from 1.
pub fn line_and_column(before: &[u8]) -> (usize, usize) {
    let mut lines = Lines::new();
    lines.go_to(before, before.len());
    (lines.line, lines.column)
}
