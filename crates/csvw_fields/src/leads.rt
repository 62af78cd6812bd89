//! The first bytes of a dialect's symbols in UTF-8. A text without such a byte has no such symbol.
ghost use Rattle.std.specs.Prelude.{◌≡◌, ◌≢◌, ◌≤◌, ◌<◌, ◌-◌, true, false, [], ◌∷◌, length, take, drop, chars, encode_utf8, slice_index};
ghost use Rattle.std.specs.Str.{IsCharBoundary};
ghost use Rattle.csvw_fields.specs.FieldText.{IsLeads, IsClean};
ghost use Rattle.csvw_records.specs.declared.scan.State.TheVariants.{Plain, Inside};

use csvw_records::{Dialect, State};
use memchr::{memchr2, memchr3};

/// The first bytes of the delimiter, of the quote, and of the character that begins an escape. If no field is quoted,
/// the delimiter's byte is used for the quote's. If quotes are doubled, the quote's byte is used for the escape's.
#[derive(Clone, Copy, Debug, PartialEq, Eq)]
pub struct Leads {
    /// The first byte of the delimiter.
    delimiter: u8,
    /// The first byte of the quote.
    quote: u8,
    /// The first byte of the character that begins an escape.
    escape: u8,
}

/// Returns the first byte of a character.
fn lead(c: char) -> u8
    ensures { take 1 (encode_utf8 c) ≡ result ∷ [] }
{
    let mut bytes = [0; 4];
    c.encode_utf8(&mut bytes).as_bytes()[0]
}

impl Leads {
    /// Returns the first bytes of a dialect's symbols.
    pub fn of(d: &Dialect) -> Leads
        ensures { IsLeads d.now result }
    {
        let delimiter = lead(d.delimiter);
        let quote = match d.quote_char {
            Some(quote) => lead(quote),
            None => delimiter,
        };
        let escape = if d.double_quote { quote } else { b'\\' };
        Leads {
            delimiter,
            quote,
            escape,
        }
    }

    /// Returns how many of the first bytes are text of a field in this state for sure.
    ///
    /// All bytes that are looked at are among them, except the last one, which a later step looks at once more. A
    /// byte after a CR may be that last one twice. So each byte is looked at a bounded number of times.
    pub(crate) fn clean_len(self, d: &Dialect, state: State, text: &str) -> usize
        requires { IsLeads d.now self }
        ensures boundary { IsCharBoundary text.now result }
        ensures clean { IsClean d.now state (chars (take result text.now)) (chars (drop result text.now)) }
    {
        let bytes = text.as_bytes();
        match state {
            State::Plain => {
                let found = memchr3(self.delimiter, self.quote, b'\n', bytes);
                place_before(text, found.unwrap_or(bytes.len()))
            }
            State::Inside => {
                let found = memchr2(self.quote, self.escape, bytes);
                boundary_at(text, found.unwrap_or(bytes.len()))
            }
            State::Start | State::Escaped | State::Closed => 0,
        }
    }
}

/// Returns this place if it is between two characters, else 0.
fn boundary_at(text: &str, at: usize) -> usize
    ensures within { result ≤ at }
    ensures kept { 0 < result → result ≡ at }
    ensures boundary { IsCharBoundary text.now result }
{
    if text.is_char_boundary(at) { at } else { 0 }
}

/// Returns whether a CR is before this place.
fn ends_in_cr(bytes: &[u8], end: usize) -> bool
    requires { end ≤ length bytes.now }
    ensures some { result ≡ true → (0 < end) × (slice_index bytes.now (end - 1) ≡ 13) }
    ensures other { result ≡ false → 0 < end → slice_index bytes.now (end - 1) ≢ 13 }
{
    0 < end && bytes[end - 1] == b'\r'
}

/// Returns this place, or that of the CR if one is before it. Returns 0 if that place isn't between two characters.
fn place_before(text: &str, at: usize) -> usize
    requires { at ≤ length text.now }
    ensures within { result ≤ at }
    ensures boundary { IsCharBoundary text.now result }
    ensures settled { 0 < result → slice_index text.now (result - 1) ≡ 13 → slice_index text.now result ≡ 13 }
{
    if ends_in_cr(text.as_bytes(), at) {
        boundary_at(text, at - 1)
    } else {
        boundary_at(text, at)
    }
}
