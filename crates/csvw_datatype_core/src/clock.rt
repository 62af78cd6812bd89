//! How a text writes a time of day that may have parts of a second and a zone.
ghost use Rattle.std.specs.Prelude.{◌≡◌, ◌≢◌, ◌↔◌, ◌++◌, ◌<◌, true, IfOk, IfSome, MatchOption, OnOk, List, ℕ, Some, is_some, string_bytes};
ghost use Rattle.std.specs.Str.{IsAscii};
ghost use Rattle.csvw_datatype_core.specs.declared.clock.ClockFormat.TheVariants as clocks;
ghost use Rattle.csvw_datatype_core.specs.Clocks.{clock_form, clock_format_of, clock_instant, clock_parts, clock_pattern, clock_start};
ghost use Rattle.csvw_datatype_core.specs.Clocks.{has_pattern, is_clock_pattern};
ghost use Rattle.csvw_datatype_core.specs.DateTimes.{IsOffset};
ghost use Rattle.csvw_datatype_core.specs.Fields.{option_view};

use crate::clock_form::{ClockParts, written};
use crate::date_time::{fraction_at, trimmed, zone_at};
use crate::instant::{Instant, placed_instant};
use crate::pattern::time_format_of;
use crate::stamp::{ending_at, fraction_within, time_len};
use crate::stamp_format;
use crate::stamp_format::{ZoneFormat, fraction_split, zone_split};
use crate::time::{TimeFormat, second_at};
use csvw_text::Text;
use std::alloc::{AllocError, Global};

/// The pattern of a time of day (Model for Tabular Data and Metadata on the Web, section 6.4.4).
#[derive(Clone, Copy, Debug, PartialEq, Eq)]
pub struct ClockPattern {
    /// The hours, minutes and seconds.
    pub time: TimeFormat,
    /// The greatest number of digits of the parts of a second. It is 0 if a text has none.
    pub digits: u8,
    /// How the zone is written, if a text has one.
    pub zone: Option<ZoneFormat>,
}

/// How a time of day is written that may have parts of a second and a zone.
#[derive(Clone, Copy, Debug, PartialEq, Eq)]
pub enum ClockFormat {
    /// As a pattern says.
    Pattern(ClockPattern),
    /// `HH:mm:ss`, any number of digits after a point or none, and a zone or none (XML Schema 1.1 part 2, section 3.3.8).
    Any,
}

/// The number of bytes of a time of day in the format `HH:mm:ss`.
const CLOCK_LEN: usize = 8;

impl ClockPattern {
    /// Returns whether the pattern has no digits of a second, or has seconds and `:`.
    pub fn is_clock_pattern(self) -> bool
        ensures { result ≡ is_clock_pattern self }
    {
        self.digits == 0 || matches!(self.time, TimeFormat::Seconds)
    }
}

impl ClockFormat {
    ghost use Rattle.csvw_datatype_core.specs.declared.clock.ClockFormat.{ClockFormat};

    /// Returns the format of a pattern, or `None` if it is not one of these patterns (Model for Tabular Data and Metadata on the
    /// Web, section 6.4.4). It is one of the four patterns of a time of day and then perhaps:
    ///
    /// - a point and up to 255 letters `S`, after `HH:mm:ss`;
    /// - one to three letters `X` or `x`, perhaps after one space.
    ///
    /// No pattern is that of `Any`.
    #[tactic(auto, unfolding(crate::specs::Clocks::clock_format_of))]
    pub fn of(pattern: &str) -> Option<ClockFormat>
        ensures format { result ≡ clock_format_of pattern.now }
        ensures pattern { MatchOption result ((f : ClockFormat) → has_pattern f ≡ true → pattern.now ≢ clock_pattern f)
            (λ f. (has_pattern f ≡ true) × (pattern.now ≡ clock_pattern f)) }
    {
        let (front, zone) = zone_split(pattern)?;
        let (front, digits) = fraction_split(front)?;
        let pattern = ClockPattern {
            time: time_format_of(front)?,
            digits,
            zone,
        };
        if pattern.is_clock_pattern() {
            Some(ClockFormat::Pattern(pattern))
        } else {
            None
        }
    }

    /// Appends the pattern of the format, which `of` reads, to a text. It appends nothing for `Any`. Returns `AllocError` if memory
    /// runs out.
    pub fn push_pattern(self, text: &mut String) -> Result<(), AllocError>
        ensures { OnOk result (string_bytes text.new ≡ string_bytes text.old ++ clock_pattern self) }
    {
        let ClockFormat::Pattern(pattern) = self else {
            return Ok(());
        };
        text.push_str(pattern.time.pattern())?;
        stamp_format::push_fraction(pattern.digits, text)?;
        match pattern.zone {
            Some(zone) => zone.push_pattern(text),
            None => Ok(()),
        }
    }
}

/// Reads what a text of a pattern writes.
#[tactic(auto, unfolding(crate::specs::Clocks::clock_parts))]
fn pattern_parts(pattern: ClockPattern, bytes: &[u8]) -> Option<ClockParts<'_>>
    ensures parts { option_view (λ p. (p.second, p.digits.now, p.minutes)) result ≡ clock_parts (clocks.Pattern pattern) bytes.now }
    ensures second { IfSome result (λ p. p.second < 86_400) }
    ensures minutes { IfSome result (λ p. IfSome p.minutes IsOffset) }
    ensures ascii { IfSome result (λ p. IsAscii p.digits.now) }
{
    let (front, rest) = bytes.split_at(bytes.len().min(time_len(pattern.time)));
    let second = second_at(pattern.time, front)?;
    let (digits, rest) = fraction_within(pattern.digits, rest)?;
    let minutes = ending_at(pattern.zone, rest)?;
    Some(ClockParts {
        second,
        digits: trimmed(digits),
        minutes,
    })
}

/// Reads what a text of XML Schema writes.
#[tactic(auto, unfolding(crate::specs::Clocks::clock_parts))]
fn any_parts(bytes: &[u8]) -> Option<ClockParts<'_>>
    ensures parts { option_view (λ p. (p.second, p.digits.now, p.minutes)) result ≡ clock_parts clocks.Any bytes.now }
    ensures second { IfSome result (λ p. p.second < 86_400) }
    ensures minutes { IfSome result (λ p. IfSome p.minutes IsOffset) }
    ensures ascii { IfSome result (λ p. IsAscii p.digits.now) }
{
    let (front, rest) = bytes.split_at(bytes.len().min(CLOCK_LEN));
    let second = second_at(TimeFormat::Seconds, front)?;
    let (digits, rest) = fraction_at(rest)?;
    let minutes = zone_at(rest)?;
    Some(ClockParts {
        second,
        digits: trimmed(digits),
        minutes,
    })
}

fn parts_of(format: ClockFormat, text: &str) -> Option<ClockParts<'_>>
    ensures parts { option_view (λ p. (p.second, p.digits.now, p.minutes)) result ≡ clock_parts format text.now }
    ensures second { IfSome result (λ p. p.second < 86_400) }
    ensures minutes { IfSome result (λ p. IfSome p.minutes IsOffset) }
    ensures ascii { IfSome result (λ p. IsAscii p.digits.now) }
{
    match format {
        ClockFormat::Pattern(pattern) => pattern_parts(pattern, text.as_bytes()),
        ClockFormat::Any => any_parts(text.as_bytes()),
    }
}

/// Returns the one text of the time of day that a text writes: `HH:mm:ss`, a point and digits if there are parts of a second, and
/// the zone if there is one (XML Schema 1.1 part 2, section 3.3.8). The last digit is not 0.
///
/// The zone is `Z` if the time is on the same day there. Otherwise it is the nearest zone of whole hours where it is. Returns
/// `None` if the text isn't in the format, or if a day has no such time. Returns `AllocError` if memory runs out.
pub fn clock_text(
    alloc: Global,
    format: ClockFormat,
    text: &str,
) -> Result<Option<Text>, AllocError>
    ensures { IfOk result (λ o. o ≡ clock_form format text.now) }
{
    match parts_of(format, text) {
        Some(parts) => Ok(Some(written(alloc, parts)?)),
        None => Ok(None),
    }
}

/// Returns whether a text writes a time of day of XML Schema. It takes no memory.
pub fn is_clock(text: &str) -> bool
    ensures { result ≡ is_some (clock_form clocks.Any text.now) }
{
    any_parts(text.as_bytes()).is_some()
}

/// Returns the moment of a time of day on the time line, where all times of day are on one day (XML Schema 1.1 part 2, section
/// 3.3.8 and appendix E.3). It takes no memory.
///
/// Returns `None` if the text isn't a time of day.
pub fn clock_instant(text: &str) -> Option<Instant<'_>>
    ensures { option_view (λ i. (i.second, i.digits.now, i.kind)) result ≡ clock_instant text.now }
{
    let parts = any_parts(text.as_bytes())?;
    Some(placed_instant(parts.second as i64, parts.digits, parts.minutes))
}

/// A law: the text of a time of day is itself written as one, and is its own text.
pub fn one_clock_text()
    ensures { (format : ClockFormat) (text form : List ℕ) → clock_form format text ≡ Some form → clock_form clocks.Any form ≡ Some form }
{}

/// A law: a text has a moment on the time line exactly if it writes a time of day.
pub fn clocks_have_instants()
    ensures { (text : List ℕ) → is_some (clock_instant text) ≡ is_some (clock_form clocks.Any text) }
{}

/// A law: two texts of times of day have the same one text exactly if they are at the same time, in any formats.
pub fn clocks_at_one_time()
    ensures { (f g : ClockFormat) (s t x y : List ℕ) → clock_form f s ≡ Some x → clock_form g t ≡ Some y
        → (x ≡ y) ↔ (clock_start f s ≡ clock_start g t) }
{}
