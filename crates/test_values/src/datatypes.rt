//! Texts under datatypes: their values in lexical form, the facets that those break, and the datatypes that are
//! sound.
use crate::date_times::{DATE_TIMES, STAMPS};
use crate::durations::DURATIONS;
use crate::kept_texts::{NAMED, PARTS, TIMES};
use crate::limits::{BREAKS, ONES, SOUND};
use crate::octets::{OCTETS, SHORT_TYPES};
use crate::patterns::PATTERNED;
use crate::readings::{BOUNDS, DATE_FORMATS, DATES, FULL, NO_FORMATS, NUMBERS, TEXTS};
use crate::spaced_moments::UNREAD;
use crate::stamps::{FRACTIONS, NO_STAMPS, WITH_ZONES};
use crate::zones::{ZONED_DATES, ZONED_TIMES};
use csvw_datatype::{
    BinaryForm, Broken, ClockFormat, Datatype, DateFormat, DatePart, DurationKind, Facets,
    Floating, Format, MomentFormat, NumberFormat, RegularExpression, Simple, StampFormat, TextType,
    TruthFormat, Value, Width, Zone, ZonedDateFormat,
};
use csvw_datatype_core::NumberPattern;
use csvw_text::Text;
use std::alloc::{AllocError, Global};
use std::process::Abort;
use std::test::Fail;

/// A format, as a datatype description writes it.
#[derive(Clone, Copy)]
pub(crate) enum Pattern {
    /// No format.
    Plain,
    /// The decimal character and the group character.
    Number(char, Option<char>),
    /// These, and a pattern of numbers.
    Written(char, Option<char>, &'static str),
    /// A format of dates.
    Day(&'static str),
    /// A format of moments.
    Moment(&'static str),
    /// A format of booleans.
    Truth(&'static str),
    /// A format of times of day.
    Time(&'static str),
    /// The pattern of dates that may have a zone.
    ZonedDay(&'static str),
    /// A format of moments that may have parts of a second and a zone.
    Stamp(&'static str),
    /// A regular expression.
    Expression(&'static str),
}

/// A bound of values.
#[derive(Clone, Copy)]
pub(crate) enum Bound {
    /// A bound of numbers, in units of 10^-18.
    Number(i128),
    /// A bound of days, in days since 1 January 1970.
    Day(i32),
    /// A bound as a text.
    Text(&'static str),
}

/// Facets, as constants.
#[derive(Clone, Copy)]
pub(crate) struct Limits {
    /// The length in characters.
    pub(crate) length: Option<u64>,
    /// The least length.
    pub(crate) min_length: Option<u64>,
    /// The greatest length.
    pub(crate) max_length: Option<u64>,
    /// The least value.
    pub(crate) minimum: Option<Bound>,
    /// The greatest value.
    pub(crate) maximum: Option<Bound>,
    /// The least value, by its other name.
    pub(crate) min_inclusive: Option<Bound>,
    /// The greatest value, by its other name.
    pub(crate) max_inclusive: Option<Bound>,
    /// Each value is above it.
    pub(crate) min_exclusive: Option<Bound>,
    /// Each value is below it.
    pub(crate) max_exclusive: Option<Bound>,
}

pub(crate) const UNLIMITED: Limits = Limits {
    length: None,
    min_length: None,
    max_length: None,
    minimum: None,
    maximum: None,
    min_inclusive: None,
    max_inclusive: None,
    min_exclusive: None,
    max_exclusive: None,
};

/// A claim about texts under a datatype.
#[derive(Clone, Copy)]
pub(crate) enum Claim {
    /// The texts have the lexical forms or the codes after `=>`.
    Read,
    /// Their values break these facets.
    Break(Broken),
    /// The datatype is sound, or isn't.
    Sound(bool),
    /// Their values are the number 1, or aren't.
    One(bool),
    /// The datatype has no format, as its pattern is none.
    NoFormat,
    /// The datatype equals its copy.
    Copied,
}

/// The number 1, in units of 10^-18.
pub(crate) const ONE: i128 = 1_000_000_000_000_000_000;

/// A datatype, and a claim about texts under it.
#[derive(Clone, Copy)]
pub(crate) struct Row {
    /// The base of the datatype.
    pub(crate) simple: Simple,
    /// Its format.
    pub(crate) pattern: Pattern,
    /// Its facets.
    pub(crate) limits: Limits,
    /// The claim.
    pub(crate) claim: Claim,
    /// The texts, with `;` between them.
    pub(crate) texts: &'static str,
}

/// A row without a format and facets.
pub(crate) const PLAIN: Row = Row {
    simple: Simple::Text,
    pattern: Pattern::Plain,
    limits: UNLIMITED,
    claim: Claim::Read,
    texts: "",
};

fn format_of(alloc: Global, pattern: &Pattern) -> Result<Option<Format>, AllocError> {
    match pattern {
        Pattern::Plain => Ok(None),
        Pattern::Number(decimal_char, group_char) => Ok(Some(Format::Number(NumberFormat {
            decimal_char: *decimal_char,
            group_char: *group_char,
            pattern: None,
        }))),
        Pattern::Written(decimal_char, group_char, text) => {
            Ok(patterned_of(*decimal_char, *group_char, text))
        }
        Pattern::Day(text) => Ok(DateFormat::of(text).map(Format::Day)),
        Pattern::Moment(text) => Ok(MomentFormat::of(text).map(Format::Moment)),
        Pattern::Truth(text) => truth_format_of(alloc, text),
        Pattern::Time(text) => Ok(ClockFormat::of(text).map(Format::Time)),
        Pattern::ZonedDay(text) => Ok(ZonedDateFormat::of(text).map(Format::ZonedDay)),
        Pattern::Stamp(text) => Ok(StampFormat::of(text).map(Format::Stamp)),
        Pattern::Expression(text) => expression_of(alloc, text),
    }
}

fn patterned_of(decimal_char: char, group_char: Option<char>, text: &str) -> Option<Format> {
    let format = NumberFormat {
        decimal_char,
        group_char,
        pattern: None,
    };
    let pattern = NumberPattern::of(&format.rules(), text).ok()?;
    Some(Format::Number(NumberFormat {
        pattern: Some(pattern),
        ..format
    }))
}

fn truth_format_of(alloc: Global, text: &str) -> Result<Option<Format>, AllocError> {
    match TruthFormat::of(alloc, text)? {
        Some(format) => Ok(Some(Format::Truth(format))),
        None => Ok(None),
    }
}

fn expression_of(alloc: Global, text: &str) -> Result<Option<Format>, AllocError> {
    match RegularExpression::of(alloc, Text::copied(alloc, text)?)? {
        Some(expression) => Ok(Some(Format::Expression(expression))),
        None => Ok(None),
    }
}

/// Returns the value of a bound. Returns `None` for a text if memory runs out.
fn value_of(alloc: Global, bound: Option<Bound>) -> Option<Value> {
    match bound {
        None => None,
        Some(Bound::Text(text)) => match Text::copied(alloc, text) {
            Ok(text) => Some(Value::Text(text)),
            Err(_) => None,
        },
        Some(Bound::Number(number)) => Some(Value::Number(number)),
        Some(Bound::Day(day)) => Some(Value::Day(day)),
    }
}

fn facets_of(alloc: Global, limits: &Limits) -> Facets {
    Facets {
        length: limits.length,
        min_length: limits.min_length,
        max_length: limits.max_length,
        minimum: value_of(alloc, limits.minimum),
        maximum: value_of(alloc, limits.maximum),
        min_inclusive: value_of(alloc, limits.min_inclusive),
        max_inclusive: value_of(alloc, limits.max_inclusive),
        min_exclusive: value_of(alloc, limits.min_exclusive),
        max_exclusive: value_of(alloc, limits.max_exclusive),
    }
}

fn datatype_of(alloc: Global, row: &Row) -> Result<Datatype, AllocError> {
    Ok(Datatype {
        simple: row.simple,
        id: None,
        format: format_of(alloc, &row.pattern)?,
        facets: facets_of(alloc, &row.limits),
    })
}

/// Returns whether a lexical form is the expected one.
fn is_form(form: Result<String, AllocError>, want: &str) -> bool {
    match form {
        Ok(form) => form.as_str() == want,
        Err(_) => false,
    }
}

/// Returns whether a text has this lexical form, or the code of this name.
fn reads(alloc: Global, datatype: &Datatype, text: &str, want: &str) -> bool {
    if datatype.check().is_err() {
        return want == "BadDatatype";
    }
    match datatype.read(alloc, text) {
        Ok(Ok(value)) => is_form(value.lexical(alloc), want),
        Ok(Err(code)) => code.name() == want,
        Err(_) => false,
    }
}

/// Returns whether a copy of a datatype equals it.
fn equals_its_copy(alloc: Global, datatype: &Datatype) -> bool {
    match datatype.clone(alloc) {
        Ok(copy) => copy == *datatype,
        Err(_) => false,
    }
}

/// Returns the value that a text is, by a datatype that is sound.
fn value_by(alloc: Global, datatype: &Datatype, text: &str) -> Result<Option<Value>, AllocError> {
    if datatype.check().is_err() {
        return Ok(None);
    }
    match datatype.read(alloc, text)? {
        Ok(value) => Ok(Some(value)),
        Err(_) => Ok(None),
    }
}

/// Returns whether the value of a text breaks these facets.
fn breaks(alloc: Global, datatype: &Datatype, text: &str, want: Broken) -> bool {
    match value_by(alloc, datatype, text) {
        Ok(Some(value)) => datatype.facets(&value) == want,
        _ => false,
    }
}

/// Returns whether a text has a value that is the number 1, or is another one, as expected.
fn is_one(alloc: Global, datatype: &Datatype, text: &str, want: bool) -> bool {
    match value_by(alloc, datatype, text) {
        Ok(Some(value)) => (value == Value::Number(ONE)) == want,
        _ => false,
    }
}

/// Returns whether the claim holds of a text.
fn holds(alloc: Global, datatype: &Datatype, claim: Claim, row: &str) -> bool {
    let (text, want) = row.split_once("=>").unwrap_or((row, row));
    match claim {
        Claim::Read => reads(alloc, datatype, text, want),
        Claim::Break(broken) => breaks(alloc, datatype, text, broken),
        Claim::Sound(sound) => datatype.check().is_ok() == sound,
        Claim::One(one) => is_one(alloc, datatype, text, one),
        Claim::NoFormat => datatype.format.is_none(),
        Claim::Copied => equals_its_copy(alloc, datatype),
    }
}

fn texts_hold(rt: &impl Abort, alloc: Global, datatype: &Datatype, row: &Row) {
    for text in row.texts.split(';') {
        assert!(rt; holds(alloc, datatype, row.claim, text), "{text}");
    }
}

/// Checks a row.
pub(crate) fn row_holds(rt: &impl Abort, alloc: Global, row: &Row) -> Result<(), AllocError> {
    let datatype = datatype_of(alloc, row)?;
    texts_hold(rt, alloc, &datatype, row);
    Ok(())
}

fn rows_hold(rt: &impl Abort, alloc: Global, rows: &[Row]) -> Result<(), AllocError> {
    for row in rows {
        row_holds(rt, alloc, row)?;
    }
    Ok(())
}

/// Checks the rows of all tables.
fn all_hold(rt: &impl Abort, alloc: Global) -> Result<(), AllocError> {
    for rows in [
        NUMBERS.as_slice(),
        &DATES,
        &PATTERNED,
        &DATE_FORMATS,
        &TEXTS,
        &BOUNDS,
        &BREAKS,
        &SOUND,
        &ONES,
        &NO_FORMATS,
        &FULL,
        &PARTS,
        &TIMES,
        &NAMED,
        &SHORT_TYPES,
        &OCTETS,
        &DURATIONS,
        &DATE_TIMES,
        &STAMPS,
        &UNREAD,
        &FRACTIONS,
        &WITH_ZONES,
        &NO_STAMPS,
        &ZONED_TIMES,
        &ZONED_DATES,
    ] {
        rows_hold(rt, alloc, rows)?;
    }
    Ok(())
}

#[test]
fn texts_under_datatypes(rt: HostRuntime) -> Result<(), Fail> {
    Ok(all_hold(&rt, rt.alloc())?)
}

/// Names of datatypes, and their bases.
static NAMES: [(&str, Option<Simple>); 27] = [
    ("dateTime", Some(Simple::Moment)),
    ("datetime", Some(Simple::Moment)),
    (
        "dateTimeStamp",
        Some(Simple::Other(TextType::DateTime(Zone::Required))),
    ),
    ("datetimestamp", None),
    ("unsignedShort", Some(Simple::Derived(Width::UnsignedShort))),
    ("float", Some(Simple::Floating(Floating::Float))),
    ("number", Some(Simple::Floating(Floating::Double))),
    ("time", Some(Simple::Other(TextType::Time))),
    ("language", Some(Simple::Other(TextType::Language))),
    ("Name", Some(Simple::Other(TextType::Name))),
    ("NMTOKEN", Some(Simple::Other(TextType::NameToken))),
    ("gYear", Some(Simple::Other(TextType::Part(DatePart::Year)))),
    (
        "gYearMonth",
        Some(Simple::Other(TextType::Part(DatePart::YearMonth))),
    ),
    (
        "gMonth",
        Some(Simple::Other(TextType::Part(DatePart::Month))),
    ),
    (
        "gMonthDay",
        Some(Simple::Other(TextType::Part(DatePart::MonthDay))),
    ),
    ("gDay", Some(Simple::Other(TextType::Part(DatePart::Day)))),
    ("name", None),
    (
        "normalizedString",
        Some(Simple::Other(TextType::Normalized)),
    ),
    ("QName", Some(Simple::Other(TextType::QualifiedName))),
    (
        "hexBinary",
        Some(Simple::Other(TextType::Binary(BinaryForm::Hex))),
    ),
    (
        "base64Binary",
        Some(Simple::Other(TextType::Binary(BinaryForm::Base64))),
    ),
    (
        "binary",
        Some(Simple::Other(TextType::Binary(BinaryForm::Base64))),
    ),
    (
        "duration",
        Some(Simple::Other(TextType::Duration(DurationKind::Any))),
    ),
    (
        "yearMonthDuration",
        Some(Simple::Other(TextType::Duration(DurationKind::YearMonth))),
    ),
    (
        "dayTimeDuration",
        Some(Simple::Other(TextType::Duration(DurationKind::DayTime))),
    ),
    ("hexbinary", None),
    ("Duration", None),
];

fn names_each(rt: &impl Abort, names: &[(&str, Option<Simple>)]) {
    for (name, simple) in names {
        assert!(rt; Simple::of(name) == *simple, "{name}");
    }
}

/// Types of moments with zones, their names and their IRIs.
static ZONED: [(Zone, &str, &str); 2] = [
    (
        Zone::Optional,
        "dateTime",
        "http://www.w3.org/2001/XMLSchema#dateTime",
    ),
    (
        Zone::Required,
        "dateTimeStamp",
        "http://www.w3.org/2001/XMLSchema#dateTimeStamp",
    ),
];

fn zoned_each(rt: &impl Abort, rows: &[(Zone, &str, &str)]) {
    for (zone, name, iri) in rows {
        let text_type = TextType::DateTime(*zone);
        assert!(rt; Simple::Other(text_type).name() == *name, "{name}");
        assert!(rt; text_type.iri() == *iri, "{iri}");
    }
}

#[test]
fn names(rt: HostRuntime) {
    names_each(&rt, &NAMES);
    zoned_each(&rt, &ZONED);
    assert!(rt; Simple::Moment.name() == "dateTime" && Simple::Uri.name() == "anyURI");
}

/// The texts of a decimal and a group character, and the format that they make.
static CHARACTERS: [(Option<&str>, Option<&str>, Option<(char, Option<char>)>); 5] = [
    (None, None, Some(('.', None))),
    (Some(","), Some("·"), Some((',', Some('·')))),
    (Some(""), None, None),
    (Some(".."), None, None),
    (None, Some(".·"), None),
];

fn characters_each(
    rt: &impl Abort,
    rows: &[(Option<&str>, Option<&str>, Option<(char, Option<char>)>)],
) {
    for (decimal, group, want) in rows {
        let format = NumberFormat::of(*decimal, *group);
        let found = format.map(|f| (f.decimal_char, f.group_char));
        assert!(rt; found == *want);
    }
}

#[test]
fn characters_of_numbers(rt: HostRuntime) {
    characters_each(&rt, &CHARACTERS);
}
