//! Laws: the number, the day or the moment of a text, as functions.
ghost use Rattle.std.specs.Prelude.{List, ℕ, ℤ, MatchOption};
ghost use Rattle.csvw_datatype_core.specs.Numbers.{IsLawful, ReadsNumber};
ghost use Rattle.csvw_datatype_core.specs.Dates.{ReadsDate};
ghost use Rattle.csvw_datatype_core.specs.Moments.{ReadsMoment};
ghost use Rattle.csvw_datatype_core.specs.Values.{number_value, date_value, moment_value};

use crate::date::DateFormat;
use crate::moment::MomentFormat;
use crate::number::NumberRules;

/// A law: a text is the number, the day or the moment that these functions return. It is none if they return none.
pub fn values_read()
    ensures number { (rules : NumberRules) (cs : List ℕ) → IsLawful rules
        → MatchOption (number_value rules cs) ((z : ℤ) → ReadsNumber rules cs z → ⊥) (ReadsNumber rules cs) }
    ensures day { (f : DateFormat) (text : List ℕ)
        → MatchOption (date_value f text) ((day : ℤ) → ReadsDate f text day → ⊥) (ReadsDate f text) }
    ensures moment { (f : MomentFormat) (text : List ℕ)
        → MatchOption (moment_value f text) ((moment : ℤ) → ReadsMoment f text moment → ⊥) (ReadsMoment f text) }
{}
