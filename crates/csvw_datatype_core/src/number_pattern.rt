//! Patterns of numbers, as `#,##0.00` and `#0.###E0` (Model for Tabular Data and Metadata on the Web, section 6.4.2; Unicode
//! Technical Standard 35, part 3, section 3).
ghost use Rattle.std.specs.Prelude.{◌≡◌, ◌==◌, ◌++◌, OnOk, MatchOption, option_map, encode_utf8_all, string_bytes, [], ◌∷◌, Some, suc, List, ℕ, if◌then◌else◌, length};
ghost use Rattle.std.specs.List.{list_all, list_any};
ghost use Rattle.csvw_datatype_core.specs.Numbers.{mark_text};
ghost use Rattle.csvw_datatype_core.specs.declared.number.NumberRules.{NumberRules as Rules};
ghost use Rattle.std.specs.Char.{is_ascii_digit};
ghost use Rattle.std.specs.Str.{chars};
ghost use Rattle.csvw_datatype_core.specs.NumberPatterns.{after_character, after_plus, after_whole, at_first_e, at_group, candidate, count, exponent_fits, exponent_form};
ghost use Rattle.csvw_datatype_core.specs.NumberPatterns.{exponent_of, fits, fraction_count, group_of, has_plus, is_bare, is_exponent, mantissa_fits, mantissa_form};
ghost use Rattle.csvw_datatype_core.specs.NumberPatterns.{has_sign, has_symbols, most_shown, pattern_form, shown_of, whole_shown, is_boundary, is_left};
ghost use Rattle.csvw_datatype_core.specs.NumberPatterns.{is_pattern, is_pattern_character, is_sign, is_symbol, is_zero, larger, left, mark_of};
ghost use Rattle.csvw_datatype_core.specs.NumberPatterns.{pattern_of, mantissa_pattern, pattern_by, pattern_parts, parts_fit, point_of, runs, no_runs, scientific_pattern, sizes_of, symbol};
ghost use Rattle.csvw_datatype_core.specs.NumberPatterns.{symbols, unsigned, as_symbol, whole_count, with_digits, zeros};

use crate::number::{Mark, NumberRules};
use std::alloc::AllocError;
use std::error::Error;
use std::fmt;

/// How many digits are between the group characters of a number.
#[derive(Clone, Copy, Debug, PartialEq, Eq)]
pub struct GroupSizes {
    /// After the last group character.
    pub last: u8,
    /// Between two group characters.
    pub other: u8,
}

/// How numbers with an exponent are written.
#[derive(Clone, Copy, Debug, PartialEq, Eq)]
pub struct ExponentPattern {
    /// The greatest number of digits of the whole part before the exponent.
    pub most_whole: usize,
    /// Whether an exponent has a sign, as with `E+0`. Without it a sign may be missing.
    pub needs_sign: bool,
    /// The least number of digits of the exponent.
    pub least: usize,
}

/// How the numbers of a column are written.
#[derive(Clone, Copy, Debug, PartialEq, Eq)]
pub struct NumberPattern {
    /// Whether a number has a sign, as with `+0`. Without it a sign may be missing.
    pub needs_sign: bool,
    /// The least number of digits of the whole part.
    pub least_whole: usize,
    /// Where group characters are. `None` if there is none.
    pub groups: Option<GroupSizes>,
    /// The least number of digits of the fraction.
    pub least_fraction: usize,
    /// The greatest number of digits of the fraction.
    pub most_fraction: usize,
    /// The mark at the end of a number.
    pub mark: Mark,
    /// How the exponent is written, as in `0.0E0`. `None` if a number has none.
    pub exponent: Option<ExponentPattern>,
}

/// Why a text is not a pattern of numbers.
#[derive(Clone, Copy, Debug, PartialEq, Eq)]
pub enum PatternFault {
    /// The symbols are in no order that a pattern has.
    Bad,
    /// There is a character that no supported pattern has, as `;`.
    Unknown,
}

impl PatternFault {
    /// Returns what is wrong and what to do, as a sentence without its full stop.
    fn sentence(&self) -> &'static str {
        match self {
            PatternFault::Bad => {
                "the pattern has its symbols in no order of numbers: write `#` before `0`, and after the point `0` before `#`"
            }
            PatternFault::Unknown => {
                "the pattern has a character that is not supported: use `0`, `#`, `+`, `%`, `‰`, `E`, the decimal and the group character"
            }
        }
    }
}

impl fmt::Display for PatternFault {
    fn fmt<W: fmt::Write>(&self, f: &mut fmt::Formatter<W>) -> fmt::Result {
        f.write_str(self.sentence())
    }
}

impl Error for PatternFault {}

/// What is left of a pattern, from left to right.
#[derive(Clone, Copy)]
pub enum Left {
    /// So many symbols of the whole part, and all after it.
    Whole(usize),
    /// A group character, and then so many symbols of the whole part.
    Group(usize),
    /// So many symbols of the fraction, and the mark.
    Fraction(usize),
    /// Nothing.
    End,
}

/// The groups of a pattern as far as it was read.
#[derive(Clone, Copy)]
pub struct GroupRuns {
    /// The sizes so far. `None` before the first group character.
    pub sizes: Option<GroupSizes>,
    /// How many symbols there are since the last group character, counted to 255.
    pub run: u8,
    /// Whether the whole part is over.
    pub is_over: bool,
}

/// Returns the decimal character of a pattern.
fn point_of(rules: &NumberRules) -> char
    ensures { result ≡ point_of rules.now }
{
    rules.decimal_char.unwrap_or('.')
}

/// Returns the group character of a pattern.
fn group_of(rules: &NumberRules) -> char
    ensures { result ≡ group_of rules.now }
{
    rules.group_char.unwrap_or(',')
}

fn is_sign(c: char) -> bool
    ensures { result ≡ is_sign c }
{
    c == '+' || c == '-'
}

/// Returns whether a character is a digit of a number or a symbol of a pattern.
fn is_symbol(c: char) -> bool
    ensures { result ≡ is_symbol c }
{
    c.is_ascii_digit() || c == '#'
}

fn has_sign(text: &str) -> bool
    ensures { result ≡ has_sign (chars text.now) }
{
    match text.chars().next() {
        Some(c) => is_sign(c),
        None => false,
    }
}

/// Returns a text without its sign.
fn unsigned(text: &str) -> &str
    ensures { chars result.now ≡ unsigned (chars text.now) }
{
    let mut characters = text.chars();
    match characters.next() {
        Some(c) if is_sign(c) => characters.as_str(),
        _ => text,
    }
}

fn has_plus(text: &str) -> bool
    ensures { result ≡ has_plus (chars text.now) }
{
    match text.chars().next() {
        Some(c) => c == '+',
        None => false,
    }
}

/// Returns a text without its `+`.
fn after_plus(text: &str) -> &str
    ensures { chars result.now ≡ after_plus (chars text.now) }
{
    let mut characters = text.chars();
    match characters.next() {
        Some(c) if c == '+' => characters.as_str(),
        _ => text,
    }
}

/// Returns the text before the first `E` and the text after it, or `None` if there is no `E`.
fn at_first_e(text: &str) -> Option<(&str, &str)>
    ensures { option_map (λ x. (chars x.0.now, chars x.1.now)) result ≡ at_first_e (chars text.now) }
{
    text.split_once('E')
}

/// Returns a character of a number as that of a pattern: each digit as `0`.
fn as_symbol(c: char) -> char
    ensures { result ≡ as_symbol c }
{
    if c.is_ascii_digit() { '0' } else { c }
}

fn larger(a: usize, b: usize) -> usize
    ensures { result ≡ larger a b }
{
    if a < b { b } else { a }
}

/// Returns the symbol at a place, counted from the point and from 0, if so many places always have a digit.
fn symbol(place: usize, always: usize) -> char
    ensures { result ≡ symbol place always }
{
    if place < always { '0' } else { '#' }
}

/// Returns how many digits and symbols a text has.
fn symbol_count(text: &str) -> usize
    ensures { result ≡ count is_symbol (chars text.now) }
{
    text.chars().filter(|c| is_symbol(*c)).count()
}

/// Returns how many zeros a text has.
fn zero_count(text: &str) -> usize
    ensures { result ≡ count is_zero (chars text.now) }
{
    text.chars().filter(|c| *c == '0').count()
}

/// Returns how many digits and symbols the whole part of a text has.
fn whole_symbol_count(rules: &NumberRules, text: &str) -> usize
    ensures { result ≡ whole_count rules.now is_symbol (chars text.now) }
{
    let point = point_of(rules);
    text.chars()
        .take_while(|c| *c != point)
        .filter(|c| is_symbol(*c))
        .count()
}

/// Returns how many zeros the whole part of a text has.
fn whole_zero_count(rules: &NumberRules, text: &str) -> usize
    ensures { result ≡ whole_count rules.now is_zero (chars text.now) }
{
    let point = point_of(rules);
    text.chars()
        .take_while(|c| *c != point)
        .filter(|c| *c == '0')
        .count()
}

impl GroupSizes {
    /// Returns whether a group character is in front of so many digits.
    fn is_boundary(self, digits: usize) -> bool
        ensures { result ≡ is_boundary (Some self) digits }
    {
        let last = self.last as usize;
        let other = self.other as usize;
        digits != 0
            && (digits == last || (last < digits && other != 0 && (digits - last) % other == 0))
    }

    /// Returns the least number of symbols of a whole part that shows the sizes.
    fn shown(self) -> usize
        ensures { result ≡ shown_of (Some self) }
    {
        let last = self.last as usize;
        let other = self.other as usize;
        if last == other {
            last + 1
        } else {
            last + other + 1
        }
    }
}

impl NumberPattern {
    /// Returns the mark of the pattern, if it has one, and what is left after it.
    fn mark_left(&self) -> Option<(char, Left)>
        ensures { (rules : Rules) → MatchOption result (mark_text self.now.mark ≡ [])
            (λ x. mark_text self.now.mark ≡ x.0 ∷ left rules self.now x.1) }
    {
        match self.mark {
            Mark::Plain => None,
            Mark::Percent => Some(('%', Left::End)),
            Mark::PerMille => Some(('‰', Left::End)),
        }
    }

    /// Returns the first character after the whole part, and what is left after it.
    fn after_whole(&self, rules: &NumberRules) -> Option<(char, Left)>
        ensures { MatchOption result (after_whole rules.now self.now ≡ [])
            (λ x. after_whole rules.now self.now ≡ x.0 ∷ left rules.now self.now x.1) }
    {
        if self.most_fraction == 0 {
            self.mark_left()
        } else {
            Some((point_of(rules), Left::Fraction(self.most_fraction)))
        }
    }

    /// Returns what is left before so many symbols of the whole part.
    fn before(&self, places: usize) -> Left
        ensures { (rules : Rules) → left rules self.now result
            ≡ (if is_boundary self.now.groups places then group_of rules ∷ symbols rules self.now places else symbols rules self.now places) }
    {
        match self.groups {
            Some(sizes) if sizes.is_boundary(places) => Left::Group(places),
            _ => Left::Whole(places),
        }
    }

    /// Returns the symbol of the whole part before so many others, and what is left after it.
    fn whole_next(&self, places: usize) -> (char, Left)
        ensures { (rules : Rules) → symbols rules self.now (suc places) ≡ result.0 ∷ left rules self.now result.1 }
    {
        (symbol(places, self.least_whole), self.before(places))
    }

    /// Returns the first character of what is left of the pattern, and what is left after it.
    fn next(&self, rules: &NumberRules, rest: Left) -> Option<(char, Left)>
        ensures { MatchOption result (left rules.now self.now rest ≡ [])
            (λ x. left rules.now self.now rest ≡ x.0 ∷ left rules.now self.now x.1) }
    {
        match rest {
            Left::Whole(0) => self.after_whole(rules),
            Left::Whole(n) => Some(self.whole_next(n - 1)),
            Left::Group(n) => Some((group_of(rules), Left::Whole(n))),
            Left::Fraction(0) => self.mark_left(),
            Left::Fraction(n) => {
                let place = self.most_fraction.saturating_sub(n);
                Some((symbol(place, self.least_fraction), Left::Fraction(n - 1)))
            }
            Left::End => None,
        }
    }

    /// Returns what is left after a character of a number. `None` if the character isn't the one that is left.
    fn after(&self, rules: &NumberRules, rest: Option<Left>, c: char) -> Option<Left>
        ensures { (tail : List ℕ) → is_left rules.now self.now result tail
            ≡ is_left rules.now self.now rest (as_symbol c ∷ tail) }
    {
        match self.next(rules, rest?) {
            Some((symbol, after)) if symbol == as_symbol(c) => Some(after),
            _ => None,
        }
    }

    /// Returns whether nothing is left.
    fn is_over(&self, rules: &NumberRules, rest: Option<Left>) -> bool
        ensures { result ≡ is_left rules.now self.now rest [] }
    {
        match rest {
            Some(rest) => self.next(rules, rest).is_none(),
            None => false,
        }
    }

    /// Returns whether a text, with each digit as `0`, is the pattern with so many symbols in its whole part. Signs don't count.
    fn has_symbols(&self, rules: &NumberRules, whole: usize, text: &str) -> bool
        ensures { result ≡ has_symbols rules.now self.now whole (chars text.now) }
    {
        let mut rest = Some(Left::Whole(whole));
        for c in unsigned(text).chars() {
            rest = self.after(rules, rest, c);
        }
        self.is_over(rules, rest)
    }

    /// Returns whether a number is written as the pattern says. The text is one that `read_number` reads, or before its exponent.
    #[tactic(auto, unfolding(crate::specs::NumberPatterns::fits))]
    pub fn fits(&self, rules: &NumberRules, text: &str) -> bool
        ensures { result ≡ fits rules.now self.now (chars text.now) }
    {
        match self.exponent {
            Some(exponent) => self.parts_fit(rules, exponent, at_first_e(text)),
            None => self.mantissa_fits(rules, text),
        }
    }

    /// Returns whether a mantissa and its exponent are written as the pattern says.
    fn parts_fit(
        &self,
        rules: &NumberRules,
        exponent: ExponentPattern,
        parts: Option<(&str, &str)>,
    ) -> bool
        ensures { result ≡ parts_fit rules.now self.now exponent (option_map (λ x. (chars x.0.now, chars x.1.now)) parts.entry) }
    {
        match parts {
            Some((mantissa, digits)) => {
                self.mantissa_fits(rules, mantissa)
                    && whole_symbol_count(rules, mantissa) <= exponent.most_whole
                    && exponent.fits(digits)
            }
            None => false,
        }
    }

    /// Returns whether a number without an exponent is written as the pattern says.
    #[tactic(auto, unfolding(crate::specs::NumberPatterns::mantissa_fits))]
    fn mantissa_fits(&self, rules: &NumberRules, text: &str) -> bool
        ensures { result ≡ mantissa_fits rules.now self.now (chars text.now) }
    {
        let whole = whole_symbol_count(rules, text);
        let fraction = symbol_count(text).saturating_sub(whole);
        let digits = NumberPattern {
            least_whole: whole,
            least_fraction: fraction,
            most_fraction: fraction,
            ..*self
        };
        (!self.needs_sign || has_sign(text))
            && self.least_whole <= whole
            && self.least_fraction <= fraction
            && fraction <= self.most_fraction
            && digits.has_symbols(rules, whole, text)
    }

    /// Returns how many symbols of the whole part show the pattern.
    fn whole_shown(&self) -> usize
        ensures { result ≡ whole_shown self.now }
    {
        let groups = match self.groups {
            Some(sizes) => sizes.shown(),
            None => 0,
        };
        let one = if self.most_fraction == 0 { 1 } else { 0 };
        let shown = larger(self.least_whole, larger(groups, one));
        larger(self.most_shown(), shown)
    }

    /// Returns how many symbols of the whole part show its most digits before an exponent.
    fn most_shown(&self) -> usize
        ensures { result ≡ most_shown self.now.exponent }
    {
        match self.exponent {
            Some(exponent) => exponent.most_whole,
            None => 0,
        }
    }

    /// Adds the pattern to a text, with as few symbols as show it. Returns `AllocError` if memory runs out.
    pub fn push_to(&self, rules: &NumberRules, text: &mut String) -> Result<(), AllocError>
        ensures { OnOk result (string_bytes text.new
            ≡ string_bytes text.old ++ encode_utf8_all (pattern_form rules.now self.now)) }
    {
        self.push_mantissa(rules, text)?;
        match self.exponent {
            Some(exponent) => exponent.push_to(text),
            None => Ok(()),
        }
    }

    /// Adds the pattern without its exponent.
    fn push_mantissa(&self, rules: &NumberRules, text: &mut String) -> Result<(), AllocError>
        ensures { OnOk result (string_bytes text.new
            ≡ string_bytes text.old ++ encode_utf8_all (mantissa_form rules.now self.now)) }
    {
        if self.needs_sign {
            text.push('+')?;
        }
        self.push_symbols(rules, text)
    }

    /// Adds the symbols of the pattern.
    fn push_symbols(&self, rules: &NumberRules, text: &mut String) -> Result<(), AllocError>
        ensures { OnOk result (string_bytes text.new
            ≡ string_bytes text.old ++ encode_utf8_all (symbols rules.now self.now (whole_shown self.now))) }
    {
        let mut rest = Left::Whole(self.whole_shown());
        while let Some((symbol, after)) = self.next(rules, rest) {
            text.push(symbol)?;
            rest = after;
        }
        Ok(())
    }

    /// Returns the pattern that a text is, with the decimal and the group character of the rules, `.` and `,` without them
    /// (Unicode Technical Standard 35, part 3, section 3).
    ///
    /// Returns `Unknown` if there is another character than `0`, `#`, `+`, `%`, `‰`, `E` and these two. Otherwise returns `Bad` if
    /// the text is no pattern.
    #[tactic(auto, unfolding(crate::specs::NumberPatterns::pattern_of))]
    pub fn of(rules: &NumberRules, text: &str) -> Result<NumberPattern, PatternFault>
        ensures { result ≡ pattern_of rules.now (chars text.now) }
    {
        if !are_pattern_characters(rules, text) {
            return Err(PatternFault::Unknown);
        }
        pattern_by(rules, text, pattern_parts(rules, text))
    }

    /// Returns whether the pattern has no group character and no mark, as one with an exponent.
    fn is_bare(&self) -> bool
        ensures { result ≡ is_bare self.now }
    {
        self.groups.is_none() && matches!(self.mark, Mark::Plain)
    }
}

impl ExponentPattern {
    /// Returns whether an exponent, the text after its `E`, is written as the pattern says.
    fn fits(self, text: &str) -> bool
        ensures { result ≡ exponent_fits self (chars text.now) }
    {
        let digits = unsigned(text);
        (!self.needs_sign || has_sign(text))
            && larger(self.least, 1) <= character_count(digits)
            && are_digits(digits)
    }

    /// Adds the pattern of the exponent, with its `E`. Returns `AllocError` if memory runs out.
    fn push_to(self, text: &mut String) -> Result<(), AllocError>
        ensures { OnOk result (string_bytes text.new ≡ string_bytes text.old ++ encode_utf8_all (exponent_form (Some self))) }
    {
        text.push('E')?;
        if self.needs_sign {
            text.push('+')?;
        }
        push_zeros(self.least, text)
    }
}

/// Returns how many characters a text has.
fn character_count(text: &str) -> usize
    ensures { result ≡ length (chars text.now) }
{
    text.chars().count()
}

/// Returns whether each character is a digit.
fn are_digits(text: &str) -> bool
    ensures { result ≡ list_all is_ascii_digit (chars text.now) }
{
    text.chars().all(|c| c.is_ascii_digit())
}

/// Adds so many zeros. Returns `AllocError` if memory runs out.
fn push_zeros(count: usize, text: &mut String) -> Result<(), AllocError>
    ensures { OnOk result (string_bytes text.new ≡ string_bytes text.old ++ encode_utf8_all (zeros count)) }
{
    let mut left = count;
    while left > 0 {
        text.push('0')?;
        left -= 1;
    }
    Ok(())
}

/// Returns the text before the exponent of a pattern and the exponent, or `None` if there is none. An `E` that is the decimal or
/// the group character is before no exponent.
fn pattern_parts<'a>(rules: &NumberRules, text: &'a str) -> Option<(&'a str, &'a str)>
    ensures { option_map (λ x. (chars x.0.now, chars x.1.now)) result ≡ pattern_parts rules.now (chars text.now) }
{
    if point_of(rules) == 'E' || group_of(rules) == 'E' {
        None
    } else {
        at_first_e(text)
    }
}

/// Returns the pattern that a text or its two parts are.
fn pattern_by(
    rules: &NumberRules,
    text: &str,
    parts: Option<(&str, &str)>,
) -> Result<NumberPattern, PatternFault>
    ensures { result ≡ pattern_by rules.now (chars text.now) (option_map (λ x. (chars x.0.now, chars x.1.now)) parts.entry) }
{
    match parts {
        Some((mantissa, exponent)) => scientific_pattern(rules, mantissa, exponent),
        None => mantissa_pattern(rules, text),
    }
}

/// Returns the pattern that a mantissa and an exponent are.
fn scientific_pattern(
    rules: &NumberRules,
    mantissa: &str,
    exponent: &str,
) -> Result<NumberPattern, PatternFault>
    ensures { result ≡ scientific_pattern rules.now (chars mantissa.now, chars exponent.now) }
{
    let pattern = candidate(rules, mantissa);
    if is_pattern(rules, mantissa) && pattern.is_bare() && is_exponent(exponent) {
        Ok(NumberPattern {
            exponent: Some(exponent_of(whole_symbol_count(rules, mantissa), exponent)),
            ..pattern
        })
    } else {
        Err(PatternFault::Bad)
    }
}

/// Returns the pattern without an exponent that a text is.
fn mantissa_pattern(rules: &NumberRules, text: &str) -> Result<NumberPattern, PatternFault>
    ensures { result ≡ mantissa_pattern rules.now (chars text.now) }
{
    if is_pattern(rules, text) {
        Ok(candidate(rules, text))
    } else {
        Err(PatternFault::Bad)
    }
}

/// Returns whether a text is a pattern without an exponent.
fn is_pattern(rules: &NumberRules, text: &str) -> bool
    ensures { result ≡ is_pattern rules.now (chars text.now) }
{
    let whole = whole_symbol_count(rules, text);
    symbol_count(text) > 0 && candidate(rules, text).has_symbols(rules, whole, text)
}

/// Returns whether a text is a pattern of exponents.
fn is_exponent(text: &str) -> bool
    ensures { result ≡ is_exponent (chars text.now) }
{
    zero_count(text) > 0 && are_zeros(after_plus(text))
}

/// Returns whether each character is a zero.
fn are_zeros(text: &str) -> bool
    ensures { result ≡ list_all is_zero (chars text.now) }
{
    text.chars().all(|c| c == '0')
}

/// Returns the only pattern of exponents that a text can be, after a whole part of so many symbols.
fn exponent_of(most_whole: usize, text: &str) -> ExponentPattern
    ensures { result ≡ exponent_of most_whole (chars text.now) }
{
    ExponentPattern {
        most_whole,
        needs_sign: has_plus(text),
        least: zero_count(text),
    }
}

/// Returns whether each character is one that patterns may have.
fn are_pattern_characters(rules: &NumberRules, text: &str) -> bool
    ensures { result ≡ list_all (is_pattern_character rules.now) (chars text.now) }
{
    let point = point_of(rules);
    let group = group_of(rules);
    text.chars().all(|c| matches!(c, '0' | '#' | '+' | '%' | '‰' | 'E') || c == point || c == group)
}

/// Returns whether a text contains a character.
fn contains(text: &str, sought: char) -> bool
    ensures { result ≡ list_any (λ c. c == sought) (chars text.now) }
{
    text.chars().any(|c| c == sought)
}

/// Returns the mark that a text has.
fn mark_of(text: &str) -> Mark
    ensures { result ≡ mark_of (chars text.now) }
{
    if contains(text, '%') {
        Mark::Percent
    } else if contains(text, '‰') {
        Mark::PerMille
    } else {
        Mark::Plain
    }
}

impl GroupRuns {
    /// Returns the groups after a group character.
    fn at_group(self) -> GroupRuns
        ensures { result ≡ at_group self }
    {
        let other = if self.sizes.is_some() { self.run } else { 0 };
        GroupRuns {
            sizes: Some(GroupSizes { last: 0, other }),
            run: 0,
            ..self
        }
    }

    /// Returns the groups after one more character.
    fn after(self, rules: &NumberRules, c: char) -> GroupRuns
        ensures { result ≡ after_character rules.now self c }
    {
        if self.is_over {
            self
        } else if c == point_of(rules) {
            GroupRuns {
                is_over: true,
                ..self
            }
        } else if c == group_of(rules) {
            self.at_group()
        } else if is_symbol(c) && self.run < 255 {
            GroupRuns {
                run: self.run + 1,
                ..self
            }
        } else {
            self
        }
    }

    /// Returns the sizes of the groups at the end of the whole part.
    fn sizes(self) -> Option<GroupSizes>
        ensures { result ≡ sizes_of self }
    {
        match self.sizes {
            Some(sizes) => {
                let other = if sizes.other == 0 {
                    self.run
                } else {
                    sizes.other
                };
                Some(GroupSizes {
                    last: self.run,
                    other,
                })
            }
            None => None,
        }
    }
}

/// Returns the groups of the whole part of a pattern.
fn runs_of(rules: &NumberRules, text: &str) -> GroupRuns
    ensures { result ≡ runs rules.now no_runs (chars text.now) }
{
    let mut groups = GroupRuns {
        sizes: None,
        run: 0,
        is_over: false,
    };
    for c in text.chars() {
        groups = groups.after(rules, c);
    }
    groups
}

/// Returns the only pattern without an exponent that a text can be.
fn candidate(rules: &NumberRules, text: &str) -> NumberPattern
    ensures { result ≡ candidate rules.now (chars text.now) }
{
    let least_whole = whole_zero_count(rules, text);
    let whole = whole_symbol_count(rules, text);
    NumberPattern {
        needs_sign: has_sign(text),
        least_whole,
        groups: runs_of(rules, text).sizes(),
        least_fraction: zero_count(text).saturating_sub(least_whole),
        most_fraction: symbol_count(text).saturating_sub(whole),
        mark: mark_of(text),
        exponent: None,
    }
}
