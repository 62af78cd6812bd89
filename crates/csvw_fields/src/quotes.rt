//! Doubled quotes inside quotes, many of them together.
ghost use Rattle.std.specs.Prelude.{◌≡◌, ◌≤◌, ◌<◌, ℕ, length, slice_index};
ghost use Rattle.csvw_fields.specs.FieldText.{AreDoubled};

use csvw_records::{Dialect, State};

/// Returns the number of doubled quotes at the start of text that continues a field in this state. Returns 0 if the
/// state isn't inside quotes, or if the quote is not an ASCII character.
pub(crate) fn doubled_quotes(d: &Dialect, state: State, text: &str) -> usize
    ensures { AreDoubled d.now state text.now result }
{
    match d.quote_char {
        Some(quote) if quote.is_ascii() && d.double_quote && state == State::Inside => {
            run_len(quote as u8, text.as_bytes()) / 2
        }
        _ => 0,
    }
}

/// Returns how many of the first bytes are this byte.
fn run_len(byte: u8, bytes: &[u8]) -> usize
    ensures within { result ≤ length bytes.now }
    ensures same { (k : ℕ) → k < result → slice_index bytes.now k ≡ byte }
{
    let mut len = 0;
    while len < bytes.len() && bytes[len] == byte {
        len += 1;
    }
    len
}
