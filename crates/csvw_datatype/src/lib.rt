//! Datatypes of columns: the value of a text, the facets that it breaks, and the lexical forms of values.
//!
//! # Promises
//!
//! - `Datatype::read` returns the value of a text exactly if there is one, else the code (`Reads`, `Misread`).
//! - The value of a double, a time of day, a part of a date, a duration or octets is its one text. So is that of a moment with
//!   a zone or with parts of a second, and of a text that is kept as it is (`double_form`, `text_value`). A regular expression that is the
//!   format describes each value (`is_described`).
//! - The laws `one_value`, `value_or_code` and `one_code`: a text has one value or one code.
//! - `facets` returns the facets that a value breaks, in the standards' words: the law `broken_facets`.
//!   `is_faceted` returns false only if the value breaks none (`breaks`).
//! - `check` returns Ok exactly if a datatype is sound. Its facets then fit the type and each other: the law
//!   `sound_facets`.
//! - `Facets::agree` returns whether facets fit each other.
//! - `Value::lexical` returns the lexical form. A value has one: the law `one_form`. Values that were read have one:
//!   the law `values_of_texts`.
//! - `are_equal` returns whether two values are equal.
//! - `Datatype::is_string` returns whether the base is `string` (`is_string`). `white_space` returns what becomes of white
//!   space in cells, and `keeps_ends` whether it stays at the ends of items.
//! - `Simple::bound` and `whole_bound` return the bounds that texts and whole numbers are: the law `bounds_read`.
//! - `number_of`, `day_of` and `moment_of` return the value of a text in a format, or `None` exactly if there is none.
//!
//! That a datatype is sound has at most one proof (`IsSound-prop`). So an invariant of a crate above can keep that it
//! was checked.
#![tactic(auto)]

mod bound;
mod check;
mod datatype;
mod double_format;
mod facets;
mod format;
mod laws;
mod lexical;
mod order;
mod qualified_name;
mod read;
mod reading;
mod simple;
mod text_value;
mod truth;
mod value;
mod white_space;
mod width;

pub use bound::bounds_read;
pub use check::BadDatatype;
pub use csvw_binary::BinaryForm;
pub use csvw_datatype_core::{
    ClockFormat, ClockPattern, DateFormat, DatePart, FieldDigits, MomentFormat, OffsetForm,
    Separator, StampFormat, TimeFormat, UtcMark, Zone, ZoneFormat, ZoneGap, ZonedDateFormat,
};
pub use csvw_duration::DurationKind;
pub use csvw_regex::{Expressions, RegularExpression};
pub use datatype::{Datatype, Facets};
pub use facets::Broken;
pub use format::{Format, NumberFormat, TruthFormat};
pub use laws::{
    are_equal, broken_facets, lexical_forms, one_code, one_form, one_value, sound_facets,
    value_or_code, values_of_texts,
};
pub use reading::{day_of, moment_of, number_of};
pub use simple::{Floating, Simple, TextType, Width};
pub use value::Value;
pub use white_space::WhiteSpace;
