//! Numbers with group characters, as `63 110`.
ghost use Rattle.std.specs.Prelude.{◌≡◌};
ghost use Rattle.csvw_datatype_core.specs.Numbers.{IsLawful};
ghost use Rattle.csvw_draft.specs.Groupings.{decimal_char, group_char, grouped_value, rules_of};

use csvw_datatype::number_of;
use csvw_datatype_core::{GroupSizes, Mark, NumberPattern, NumberRules};

/// A group character that a draft looks for. `,` and `.` are none of them, since `1,234` and `1.234` may be decimals.
#[derive(Clone, Copy, PartialEq, Eq)]
pub enum GroupChar {
    /// A space.
    Space,
    /// U+00A0.
    NoBreakSpace,
    /// U+202F.
    NarrowNoBreakSpace,
    /// `'`.
    Apostrophe,
}

/// How the fraction of a number is written.
#[derive(Clone, Copy, PartialEq, Eq)]
pub enum Fraction {
    /// There is none: the number is an integer.
    None,
    /// Behind a point.
    Point,
    /// Behind a comma.
    Comma,
}

/// How a number with group characters is written.
#[derive(Clone, Copy, PartialEq, Eq)]
pub struct Grouping {
    /// The character before each three digits of the whole part.
    pub group_char: GroupChar,
    /// How the fraction is written.
    pub fraction: Fraction,
}

/// The pattern of a number with a group character before each three digits of the whole part.
const THOUSANDS: NumberPattern = NumberPattern {
    needs_sign: false,
    least_whole: 1,
    groups: Some(GroupSizes { last: 3, other: 3 }),
    least_fraction: 0,
    most_fraction: 18,
    mark: Mark::Plain,
    exponent: None,
};

impl GroupChar {
    /// Returns the character.
    pub(crate) fn char(self) -> char
        ensures { result ≡ group_char self }
    {
        match self {
            GroupChar::Space => ' ',
            GroupChar::NoBreakSpace => '\u{A0}',
            GroupChar::NarrowNoBreakSpace => '\u{202F}',
            GroupChar::Apostrophe => '\'',
        }
    }
}

impl Fraction {
    /// Returns the decimal character, or `None` for integers.
    pub(crate) fn decimal_char(self) -> Option<char>
        ensures { result ≡ decimal_char self }
    {
        match self {
            Fraction::None => None,
            Fraction::Point => Some('.'),
            Fraction::Comma => Some(','),
        }
    }
}

impl Grouping {
    /// Returns how such numbers are written.
    #[tactic(auto, using(crate::proofs::GroupingLemmas::lawful))]
    fn rules(self) -> NumberRules
        ensures rules { result ≡ rules_of self }
        ensures lawful { IsLawful result }
    {
        NumberRules {
            decimal_char: self.fraction.decimal_char(),
            group_char: Some(self.group_char.char()),
            allows_marks: false,
        }
    }

    /// Returns the number of a text, or `None` if it is none with a group character before each three digits.
    pub(crate) fn value(self, text: &str) -> Option<i128>
        ensures { result ≡ grouped_value self text.now }
    {
        let rules = self.rules();
        if THOUSANDS.fits(&rules, text) {
            number_of(&rules, text)
        } else {
            None
        }
    }
}
