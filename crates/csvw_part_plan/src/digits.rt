//! Decimal numbers in a text.
ghost use Rattle.std.specs.Prelude.{◌≡◌, ◌<◌, ◌==◌, ◌∷◌, ◌++◌, ◌^◌, ℕ, List, MatchOption, false};
ghost use Rattle.std.specs.List.{list_any};
ghost use Rattle.csvw_part_plan.specs.Plans.{cell};

use itoa::Buffer;

/// Returns the bytes before the first byte that is `end`, and those after it.
pub fn parted(text: &[u8], end: u8) -> Option<(&[u8], &[u8])>
    ensures { MatchOption result (list_any (λ b. b == end) text.now ≡ false)
        (λ parts. (text.now ≡ parts.0.now ++ end ∷ parts.1.now) × (list_any (λ b. b == end) parts.0.now ≡ false)) }
{
    for (i, byte) in text.iter().enumerate() {
        if *byte == end {
            return Some((&text[..i], &text[i + 1..]));
        }
    }
    None
}

/// Reads a decimal number without zeros in front, and the byte that ends it. Returns the number and what follows.
pub fn number(text: &[u8], end: u8) -> Option<(u64, &[u8])>
    requires { end < 48 }
    ensures { MatchOption result ((n : ℕ) (rest : List ℕ) → n < 2 ^ 64 → (text.now ≡ cell n end rest) → ⊥)
        (λ read. (text.now ≡ cell read.0 end read.1.now) × (read.0 < 2 ^ 64)) }
{
    let (digits, rest) = parted(text, end)?;
    let Ok(digits) = str::from_utf8(digits) else {
        return None;
    };
    let Ok(number) = digits.parse::<u64>() else {
        return None;
    };
    let mut buffer = Buffer::new();
    if buffer.format(number) != digits {
        return None;
    }
    Some((number, rest))
}
