//! What is expected where a document stops being JSON (RFC 8259).

use csvw_hints::Scan;
use std::alloc::{AllocError, Global};

/// What is open at a place of a document.
#[derive(Clone, Copy, PartialEq, Eq)]
enum Inside {
    /// Nothing.
    Nothing,
    /// An object.
    Object,
    /// An array.
    Array,
}

/// What comes before a place of a document, but for white space.
#[derive(Clone, Copy, PartialEq, Eq)]
enum Before {
    /// Nothing.
    Nothing,
    /// `{` or `[`.
    Bracket,
    /// The name of a member.
    Name,
    /// A colon.
    Colon,
    /// A comma.
    Comma,
    /// A number, or the letters of another value.
    Letters,
    /// Another value.
    Value,
}

/// A walk through a document.
#[derive(Drop)]
struct Walk<'a> {
    /// The place.
    scan: Scan<'a>,
    /// What is open, the outermost first.
    open: Vec<Inside>,
    /// What comes before the place.
    before: Before,
}

impl Walk<'_> {
    /// Returns the innermost object or array.
    fn inside(&self) -> Inside {
        match self.open.last() {
            Some(inside) => *inside,
            None => Inside::Nothing,
        }
    }

    /// Takes a text.
    fn take_text(&mut self) {
        let begins = self.before == Before::Bracket || self.before == Before::Comma;
        self.scan.string();
        self.before = match self.inside() {
            Inside::Object if begins => Before::Name,
            _ => Before::Value,
        };
    }

    /// Opens an object or an array.
    fn enter(&mut self, inside: Inside) -> Result<Before, AllocError> {
        self.open.push(inside)?;
        Ok(Before::Bracket)
    }

    /// Closes an object or an array.
    fn leave(&mut self) -> Before {
        self.open.pop();
        Before::Value
    }

    /// Takes a byte that begins no text.
    fn take(&mut self, b: u8) -> Result<(), AllocError> {
        self.before = match b {
            b'{' => self.enter(Inside::Object)?,
            b'[' => self.enter(Inside::Array)?,
            b'}' | b']' => self.leave(),
            b':' => Before::Colon,
            b',' => Before::Comma,
            _ => Before::Letters,
        };
        self.scan.go_on();
        Ok(())
    }

    /// Goes on behind white space, which ends letters.
    fn skip(&mut self) {
        let from = self.scan.at;
        self.scan.skip(&[]);
        if self.scan.at > from && self.before == Before::Letters {
            self.before = Before::Value;
        }
    }

    /// Goes on to a place, or behind the text in which it is.
    fn go_to(&mut self, at: usize) -> Result<(), AllocError> {
        for _ in 0..at {
            self.skip();
            if self.scan.at >= at {
                break;
            }
            match self.scan.byte() {
                Some(b'"') => self.take_text(),
                Some(b) => self.take(b)?,
                None => break,
            }
        }
        Ok(())
    }

    /// Returns what is expected at its place.
    fn expected(&self) -> &'static str {
        match (self.before, self.inside()) {
            (Before::Nothing, _) => "`{`",
            (Before::Colon, _) => "a value",
            (Before::Bracket, Inside::Object) => "a name in double quotes, or `}`",
            (Before::Bracket, _) => "a value, or `]`",
            (Before::Comma, Inside::Object) => "a name in double quotes",
            (Before::Comma, _) => "a value",
            (Before::Name, _) => "`:`",
            (Before::Letters | Before::Value, Inside::Object) => "`,` or `}`",
            (Before::Letters | Before::Value, Inside::Array) => "`,` or `]`",
            (Before::Letters | Before::Value, Inside::Nothing) => "the end of the document",
        }
    }

    /// Whether a value may begin at its place.
    fn takes_value(&self) -> bool {
        match self.before {
            Before::Nothing | Before::Colon => true,
            Before::Bracket | Before::Comma => self.inside() != Inside::Object,
            Before::Name | Before::Letters | Before::Value => false,
        }
    }

    /// Whether a text may begin at its place: a value or a name.
    fn takes_text(&self) -> bool {
        self.takes_value() || self.before == Before::Bracket || self.before == Before::Comma
    }

    /// Whether the byte is what may follow a number at its place.
    fn follows_number(&self, b: u8) -> bool {
        let closes = match self.inside() {
            Inside::Object => b == b'}',
            Inside::Array => b == b']',
            Inside::Nothing => false,
        };
        self.before == Before::Letters && (closes || b == b',')
    }

    /// Returns what is wrong with a byte at its place and what to do, if that is known.
    fn advice(&self, found: Option<u8>) -> &'static str {
        let Some(b) = found else {
            return ": the document ends too early";
        };
        match b {
            b'/' | b'#' => ": JSON has no comments: remove this one",
            b'\'' => ": write double quotes",
            b'}' | b']' if self.before == Before::Comma => ": remove the comma before it",
            b'{' | b'[' if self.takes_value() => ": the values nest too deep",
            b'"' if self.takes_text() =>
                ": this text isn't closed, or it has a line break or an unknown escape",
            _ if self.follows_number(b) => ": the number before it is too great",
            _ if self.takes_value() =>
                ": a number, a text in double quotes, `true`, `false` or `null`",
            _ => "",
        }
    }
}

/// Returns the place of a line and a column, both from 1, in bytes from 0.
fn offset_of(bytes: &[u8], line: usize, column: usize) -> usize {
    let mut begin = 0usize;
    let mut lines = 1usize;
    for (i, b) in bytes.iter().enumerate() {
        if lines >= line {
            break;
        }
        if *b == b'\n' {
            lines = lines.saturating_add(1);
            begin = i.saturating_add(1);
        }
    }
    begin.saturating_add(column.saturating_sub(1))
}

/// Where a document stops being JSON.
#[derive(Clone, Copy)]
pub(crate) enum JsonEnd {
    /// At its end, which comes too early.
    End,
    /// At this line and this column, both from 1.
    Place(usize, usize),
}

/// Returns the place of an end in bytes, from 0.
fn place_of(bytes: &[u8], end: JsonEnd) -> usize {
    match end {
        JsonEnd::End => bytes.len(),
        JsonEnd::Place(line, column) => offset_of(bytes, line, column),
    }
}

/// Adds what is expected where a document stops being JSON: a line of text.
pub(crate) fn push_expected(
    hints: &mut String,
    alloc: Global,
    bytes: &[u8],
    end: JsonEnd,
) -> Result<(), AllocError> {
    let at = place_of(bytes, end);
    let mut walk = Walk {
        scan: Scan { bytes, at: 0 },
        open: Vec::new(alloc),
        before: Before::Nothing,
    };
    walk.go_to(at)?;
    if walk.scan.at > at {
        return hints.push_str("    expected a closing quote: the document ends too early\n");
    }
    let expected = walk.expected();
    let advice = walk.advice(bytes.get(at).copied());
    write!(hints, "    expected {expected}{advice}\n")
}
