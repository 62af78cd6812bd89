//! How a text writes a number.
ghost use Rattle.std.specs.Prelude.{◌≡◌, ◌≤◌, ◌+◌, ◌*◌, ◌^◌, ◌<◌, Some, None, pos, neg_ℤ, MatchOption, MatchResult, IfSome, fold, if◌then◌else◌};
ghost use Rattle.std.specs.Str.{chars};

use crate::short_number::short_number;
use std::error::Error;
use std::fmt;

/// How a column writes its numbers.
#[derive(Clone, Copy, Debug, PartialEq, Eq)]
pub struct NumberRules {
    /// The character before a fraction. `None` if numbers have no fraction.
    pub decimal_char: Option<char>,
    /// The character that may be between two digits of the whole part.
    pub group_char: Option<char>,
    /// Whether `%` or `‰` may end a number.
    pub allows_marks: bool,
}

/// What a character can be in a number.
#[derive(Clone, Copy)]
pub enum Kind {
    /// `0` to `9`, as its value.
    Digit(u8),
    /// `+`.
    Plus,
    /// `-`.
    Minus,
    /// The decimal character.
    Point,
    /// The group character.
    Group,
    /// `%`, if it is allowed.
    Percent,
    /// `‰`, if it is allowed.
    PerMille,
    /// Not a character of a number.
    Other,
}

/// What was read last.
#[derive(Clone, Copy)]
pub enum Place {
    /// Nothing.
    Start,
    /// A sign.
    Sign,
    /// A digit of the whole part.
    Whole,
    /// A group character.
    Group,
    /// The decimal character, with no digit before it.
    BarePoint,
    /// The decimal character after a digit, or a digit of the fraction.
    Fraction,
    /// `%` or `‰`.
    Mark,
    /// Characters with which no number begins.
    Bad,
}

/// The mark at the end of a number.
#[derive(Clone, Copy, Debug, PartialEq, Eq)]
pub enum Mark {
    /// No mark.
    Plain,
    /// `%`: hundredths.
    Percent,
    /// `‰`: thousandths.
    PerMille,
}

ghost use Rattle.csvw_datatype_core.specs.Scan.{holds};
ghost use Rattle.csvw_datatype_core.specs.Lawful.{is_free, is_free_option, differ};

fn is_free(c: char) -> bool
    ensures { result ≡ is_free c }
{
    !(c.is_ascii_digit() || matches!(c, '+' | '-' | '%' | '‰' | '\t' | '\n' | '\r'))
}

fn is_free_option(option: Option<char>) -> bool
    ensures { result ≡ is_free_option option }
{
    match option {
        None => true,
        Some(c) => is_free(c),
    }
}

fn differ(a: Option<char>, b: Option<char>) -> bool
    ensures { result ≡ differ a b }
{
    match (a, b) {
        (Some(x), Some(y)) => x != y,
        (Some(_), None) | (None, Some(_)) | (None, None) => true,
    }
}

pub(crate) fn holds(option: Option<char>, c: char) -> bool
    ensures { result ≡ holds option c }
{
    match option {
        None => false,
        Some(d) => d == c,
    }
}

impl NumberRules {
    ghost use Rattle.std.specs.Prelude.{◌↔◌, ◌&&◌, IsTrue};
    ghost use Rattle.csvw_datatype_core.specs.Numbers.{IsLawful};
    ghost use Rattle.csvw_datatype_core.specs.Lawful.{is_free_option, differ};
    ghost use Rattle.csvw_datatype_core.specs.Scan.{kind_of, IsBelowTen};

    /// Returns whether the two characters differ from each other and from all others of a number, and none is
    /// carriage return, line feed or tab.
    pub fn is_lawful(&self) -> bool
        ensures { IsTrue result ↔ IsLawful self.now }
    {
        self.are_free() && differ(self.decimal_char, self.group_char)
    }

    fn are_free(&self) -> bool
        ensures { result ≡ (is_free_option self.now.decimal_char && is_free_option self.now.group_char) }
    {
        is_free_option(self.decimal_char) && is_free_option(self.group_char)
    }

    #[tactic(auto, unfolding(crate::specs::Scan::kind_of))]
    fn kind(&self, c: char) -> Kind
        ensures value { result ≡ kind_of self.now c }
        ensures digit { IsBelowTen result }
    {
        if c.is_ascii_digit() {
            Kind::Digit((c as u32 - 48) as u8)
        } else if c == '+' {
            Kind::Plus
        } else if c == '-' {
            Kind::Minus
        } else if holds(self.decimal_char, c) {
            Kind::Point
        } else if holds(self.group_char, c) {
            Kind::Group
        } else if self.allows_marks && c == '%' {
            Kind::Percent
        } else if self.allows_marks && c == '‰' {
            Kind::PerMille
        } else {
            Kind::Other
        }
    }
}

impl Place {
    ghost use Rattle.csvw_datatype_core.specs.Scan.{next, ends};

    fn ends(self) -> bool
        ensures { result ≡ ends self }
    {
        matches!(self, Place::Whole | Place::Fraction | Place::Mark)
    }

    fn after(self, kind: Kind) -> Place
        ensures { result ≡ next self kind }
    {
        match (self, kind) {
            (Place::Start | Place::Sign | Place::Whole | Place::Group, Kind::Digit(_)) =>
                Place::Whole,
            (Place::BarePoint | Place::Fraction, Kind::Digit(_)) => Place::Fraction,
            (Place::Start, Kind::Plus | Kind::Minus) => Place::Sign,
            (Place::Start | Place::Sign, Kind::Point) => Place::BarePoint,
            (Place::Whole, Kind::Point) => Place::Fraction,
            (Place::Whole, Kind::Group) => Place::Group,
            (Place::Whole | Place::Fraction, Kind::Percent | Kind::PerMille) => Place::Mark,
            _ => Place::Bad,
        }
    }
}

/// A number as far as it was read. The fraction is counted in units of 10^-18.
#[derive(Clone, Copy)]
pub struct Scan {
    place: Place,
    minus: bool,
    whole: u128,
    fraction: u64,
    weight: u64,
    too_long: bool,
    mark: Mark,
}

const WHOLE_LIMIT: u128 = 100_000_000_000_000_000_000_000;

/// Ten times a whole part below this limit fits in 64 bits.
const SHORT_LIMIT: u128 = 1_000_000_000_000_000_000;

impl Scan {
    ghost use Rattle.csvw_datatype_core.specs.declared.number.Kind.TheVariants as kinds;
    ghost use Rattle.csvw_datatype_core.specs.Scan.{next};
    ghost use Rattle.csvw_datatype_core.specs.Step.{begun, step, push, push_whole, push_fraction, run, count_of, IsSmall};
    ghost use Rattle.std.specs.Str.{chars};

    fn new() -> Scan
        ensures value { result ≡ begun }
        ensures small { IsSmall result }
    {
        Scan {
            place: Place::Start,
            minus: false,
            whole: 0,
            fraction: 0,
            weight: 100_000_000_000_000_000,
            too_long: false,
            mark: Mark::Plain,
        }
    }

    fn push_whole(self, digit: u8) -> Scan
        requires digit { digit < 10 }
        requires small { IsSmall self }
        ensures value { result ≡ push_whole self digit }
        ensures small { IsSmall result }
    {
        // Most numbers are small.
        let whole = if self.whole < SHORT_LIMIT {
            (self.whole as u64 * 10 + digit as u64) as u128
        } else {
            (self.whole * 10 + digit as u128).min(WHOLE_LIMIT)
        };
        Scan { whole, ..self }
    }

    fn push_fraction(self, digit: u8) -> Scan
        requires digit { digit < 10 }
        requires small { IsSmall self }
        ensures value { result ≡ push_fraction self digit }
        ensures small { IsSmall result }
    {
        let fraction = self.fraction + digit as u64 * self.weight;
        let too_long = self.too_long || (self.weight == 0 && digit != 0);
        let weight = self.weight / 10;
        Scan {
            fraction,
            too_long,
            weight,
            ..self
        }
    }

    fn push_digit(self, digit: u8) -> Scan
        requires digit { digit < 10 }
        requires small { IsSmall self }
        ensures value { result ≡ push (record self { place = next self.place (kinds.Digit digit) }) (kinds.Digit digit) }
        ensures small { IsSmall result }
    {
        match self.place {
            Place::Start | Place::Sign | Place::Whole | Place::Group => Scan {
                place: Place::Whole,
                ..self
            }
            .push_whole(digit),
            Place::BarePoint | Place::Fraction => Scan {
                place: Place::Fraction,
                ..self
            }
            .push_fraction(digit),
            Place::Mark | Place::Bad => Scan {
                place: Place::Bad,
                ..self
            }
            .push_fraction(digit),
        }
    }

    fn moved(self, kind: Kind) -> Scan
        requires { IsSmall self }
        ensures value { result ≡ record self { place = next self.place kind } }
        ensures small { IsSmall result }
    {
        Scan {
            place: self.place.after(kind),
            ..self
        }
    }

    fn step(self, rules: &NumberRules, c: char) -> Scan
        requires { IsSmall self }
        ensures value { result ≡ step rules.now self c }
        ensures small { IsSmall result }
    {
        let kind = rules.kind(c);
        match kind {
            Kind::Digit(digit) => self.push_digit(digit),
            Kind::Minus => Scan {
                minus: true,
                ..self.moved(kind)
            },
            Kind::Percent => Scan {
                mark: Mark::Percent,
                ..self.moved(kind)
            },
            Kind::PerMille => Scan {
                mark: Mark::PerMille,
                ..self.moved(kind)
            },
            Kind::Plus | Kind::Point | Kind::Group | Kind::Other => self.moved(kind),
        }
    }

    /// Returns the number in units of 10^-18, if it is a whole count of them below 10^38.
    fn count(self) -> Option<u128>
        requires { IsSmall self }
        ensures value { result ≡ count_of self }
        ensures bound { IfSome result (λ n. n ≤ 10 ^ 38) }
    {
        let (limit, unit, divisor) = match self.mark {
            Mark::Plain => (100_000_000_000_000_000_000, 1_000_000_000_000_000_000, 1),
            Mark::Percent => (10_000_000_000_000_000_000_000, 10_000_000_000_000_000, 100),
            Mark::PerMille => (WHOLE_LIMIT, 1_000_000_000_000_000, 1000),
        };
        if self.too_long || self.whole >= limit || self.fraction % divisor != 0 {
            None
        } else {
            Some(self.whole * unit + (self.fraction / divisor) as u128)
        }
    }
}

ghost use Rattle.csvw_datatype_core.specs.Step.{begun, run, IsSmall};

#[tactic(auto)]
fn scan_text(rules: &NumberRules, text: &str) -> Scan
    ensures value { result ≡ run rules.now begun (chars text.now) }
    ensures small { IsSmall result }
{
    let mut scan = Scan::new();
    for c in text.chars() {
        scan = scan.step(rules, c);
    }
    scan
}

/// Why a text is not a number.
#[derive(Clone, Copy, Debug, PartialEq, Eq)]
pub enum NumberFault {
    /// The text does not spell a number.
    Bad,
    /// The number is 10^20 or more in size, or not a whole multiple of 10^-18.
    TooLong,
}

impl NumberFault {
    /// Returns what is wrong and what to do, as a sentence without its full stop.
    fn sentence(&self) -> &'static str {
        match self {
            NumberFault::Bad => {
                "the text is not spelled as a number of this format: write digits as `format` says"
            }
            NumberFault::TooLong => {
                "the number is 10^20 or more in size, or finer than 10^-18: round it"
            }
        }
    }
}

impl fmt::Display for NumberFault {
    fn fmt<W: fmt::Write>(&self, f: &mut fmt::Formatter<W>) -> fmt::Result {
        f.write_str(self.sentence())
    }
}

impl Error for NumberFault {}

ghost use Rattle.csvw_datatype_core.specs.Numbers.{IsLawful, ReadsNumber};
ghost use Rattle.csvw_datatype_core.specs.Misread.{MisreadNumber};

// Apart, so that a short number needs no room for what it keeps.
#[inline(never)]
fn any_number(rules: &NumberRules, text: &str) -> Result<i128, NumberFault>
    requires { IsLawful rules.now }
    ensures { MatchResult result (ReadsNumber rules.now (chars text.now)) (MisreadNumber rules.now (chars text.now)) }
{
    let scan = scan_text(rules, text);
    if !scan.place.ends() {
        return Err(NumberFault::Bad);
    }
    match scan.count() {
        None => Err(NumberFault::TooLong),
        Some(count) => Ok(signed(scan.minus, count)),
    }
}

/// Returns the number that a text spells, in units of 10^-18 (Model for Tabular Data and Metadata on the Web, section
/// 6.4.2).
///
/// Returns `Bad` if the text does not spell a number. Otherwise returns `TooLong` if the number is 10^20 or more in
/// size, or not a whole count of units. The rules must have passed `is_lawful`.
#[inline(always)]
pub fn read_number(rules: &NumberRules, text: &str) -> Result<i128, NumberFault>
    requires { IsLawful rules.now }
    ensures { MatchResult result (ReadsNumber rules.now (chars text.now)) (MisreadNumber rules.now (chars text.now)) }
{
    // Most numbers are short.
    match short_number(rules, text.as_bytes()) {
        Some(number) => Ok(number),
        None => any_number(rules, text),
    }
}

pub(crate) fn signed(minus: bool, count: u128) -> i128
    requires { count ≤ 10 ^ 38 }
    ensures { result ≡ (if minus then neg_ℤ (pos count) else pos count) }
{
    if minus {
        -(count as i128)
    } else {
        count as i128
    }
}

ghost use Rattle.std.specs.Prelude.{ℤ, List, ℕ};

/// A law: a text is one number at most.
pub fn one_number()
    ensures { (rules : NumberRules) (cs : List ℕ) (y z : ℤ) → IsLawful rules
        → ReadsNumber rules cs y → ReadsNumber rules cs z → y ≡ z }
{}
