//! Laws: a text has one value or one code, a value has one lexical form, and facets say what the standards do.
ghost use Rattle.std.specs.Prelude.{◌≡◌, ◌↔◌, IsTrue, true, List, ℕ, Option};
ghost use Rattle.std.specs.Str.{IsUtf8};
ghost use Rattle.csvw_fault.specs.declared.fault.Code.{Code};
ghost use Rattle.csvw_datatype.specs.Formats.{IsFormatOf};
ghost use Rattle.csvw_datatype.specs.Reads.{ReadsAs, MisreadAs};
ghost use Rattle.csvw_datatype.specs.Lexical.{IsWritable, IsLexical, lexical_of};
ghost use Rattle.csvw_datatype.specs.declared.datatype.Facets.{Facets};
ghost use Rattle.csvw_datatype.specs.Breaks.{breaks};
ghost use Rattle.csvw_datatype.specs.Facets.{SaysWhatBreaks};
ghost use Rattle.csvw_datatype.specs.Agreement.{LengthsApply, LengthsAgree, BoundsAgree};
ghost use Rattle.csvw_datatype.specs.Sound.{IsBoundOf, has_bounds, lengths_apply, lengths_agree, bounds_agree};

use crate::format::Format;
use crate::simple::Simple;
use crate::value::Value;
use csvw_datatype_core::{
    date_forms, date_parts_have_fields, date_times, number_forms, one_clock_text, one_date,
    one_date_text, one_date_time_text, one_moment, one_moment_text, one_number, one_number_text,
    stamps, zoned_dates,
};
use csvw_double::canonical_texts_stay;
use csvw_duration::one_duration_text;

/// A law: a text is one value at most.
pub fn one_value()
    ensures { (s : Simple) (f : Option Format) (text : List ℕ) (v w : Value) → IsFormatOf s f
        → ReadsAs s f text v → ReadsAs s f text w → v ≡ w }
{
    one_number();
    one_date();
    one_moment();
}

/// A law: a text that is a value has no code.
pub fn value_or_code()
    ensures { (s : Simple) (f : Option Format) (text : List ℕ) (v : Value) (code : Code) → IsFormatOf s f
        → ReadsAs s f text v → ¬ MisreadAs s f text code }
{
    one_number();
}

/// A law: a text has one code at most.
pub fn one_code()
    ensures { (s : Simple) (f : Option Format) (text : List ℕ) (c d : Code) → IsFormatOf s f
        → MisreadAs s f text c → MisreadAs s f text d → c ≡ d }
{
    one_number();
}

/// A law: each value that a text is has a lexical form, and under an ordered type it can be a bound.
pub fn values_of_texts()
    ensures writable { (s : Simple) (f : Option Format) (text : List ℕ) (v : Value)
        → ReadsAs s f text v → IsWritable v }
    ensures in_type { (s : Simple) (f : Option Format) (text : List ℕ) (v : Value) → has_bounds s ≡ true
        → ReadsAs s f text v → IsBoundOf s v }
{
    one_date();
    one_moment();
    date_times();
    canonical_texts_stay();
    stamps();
    zoned_dates();
    one_clock_text();
    date_parts_have_fields();
    one_date_time_text();
    one_duration_text();
}

/// A law: a value has one lexical form among the texts, which are UTF-8 as each `String` is.
pub fn one_form()
    ensures { (v : Value) (s t : List ℕ) → IsUtf8 s → IsUtf8 t → IsLexical v s → IsLexical v t → s ≡ t }
{
    one_number_text();
    one_date_text();
    one_moment_text();
}

/// A law: that form is the text that a function returns, which is a lexical form.
pub fn lexical_forms()
    ensures only { (v : Value) (text : List ℕ) → IsUtf8 text → IsWritable v → IsLexical v text → text ≡ lexical_of v }
    ensures lexical { (v : Value) → IsWritable v → IsLexical v (lexical_of v) }
{
    number_forms();
    date_forms();
}

/// A law: the codes of the facets that a value breaks say what the standards' words say.
pub fn broken_facets()
    ensures { (s : Simple) (v : Value) (f : Facets) → SaysWhatBreaks s v f (breaks s v f) }
{}

/// A law: the facets of a sound datatype fit the type and each other as the standards' words say.
pub fn sound_facets()
    ensures lengths_apply { (s : Simple) (f : Facets) → IsTrue (lengths_apply s f) ↔ LengthsApply s f }
    ensures lengths_agree { (f : Facets) → IsTrue (lengths_agree f) ↔ LengthsAgree f }
    ensures bounds_agree { (s : Simple) (f : Facets) → IsTrue (bounds_agree s f) ↔ BoundsAgree s f }
{}

/// Returns whether `==` holds of two values: they are the same text, boolean, number, day or moment.
pub fn are_equal(a: &Value, b: &Value) -> bool
    ensures { IsTrue result ↔ (a.now ≡ b.now) }
{
    a == b
}
