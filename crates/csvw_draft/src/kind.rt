//! The datatypes that a draft gives to columns.
ghost use Rattle.std.specs.Prelude.{◌≡◌, ◌++◌, IfOk, OnOk};
ghost use Rattle.csvw_draft.specs.declared.kind.Kind.TheVariants as kinds;
ghost use Rattle.csvw_draft.specs.Kinds.{all_spaced_kinds, core_kinds, database_format, day_kinds, grouped_kinds, kinds_of, moment_kinds, spaced_kinds, stamp_kinds, w3c_kinds, zone_of};

use crate::grouping::{Fraction, GroupChar, Grouping};
use crate::value::{date_as_value, date_time_as_value, truth_of};
use csvw_datatype::{Value, day_of, moment_of, number_of};
use csvw_datatype_core::{
    ClockFormat, ClockPattern, DATE_FORMATS, DateFormat, MomentFormat, NumberRules, OffsetForm,
    StampFormat, TimeFormat, UtcMark, Zone, ZoneFormat, ZoneGap, clock_text, is_zoned_date,
    read_date_time, read_stamp, read_zoned_date,
};
use csvw_double::double_of;
use csvw_meta::Profile;
use csvw_text::{Text, collapse};
use std::alloc::{AllocError, Global};

/// How integers are written: without a fraction and without group characters.
const WHOLE: NumberRules = NumberRules {
    decimal_char: None,
    group_char: None,
    allows_marks: false,
};

/// How decimals are written: with a point and without group characters.
const DECIMAL: NumberRules = NumberRules {
    decimal_char: Some('.'),
    group_char: None,
    allows_marks: false,
};

/// How decimals are written with a comma: without group characters.
const DECIMAL_COMMA: NumberRules = NumberRules {
    decimal_char: Some(','),
    group_char: None,
    allows_marks: false,
};

/// How times of day are written without seconds: `HH:mm`.
const MINUTES: ClockFormat = ClockFormat::Pattern(ClockPattern {
    time: TimeFormat::Minutes,
    digits: 0,
    zone: None,
});

/// A datatype that a draft gives to a column, with its format.
#[derive(Clone, Copy, PartialEq, Eq)]
pub enum Kind {
    /// `boolean`, written as `true` and `false`. `1` and `0` are integers here.
    Truth,
    /// `integer`.
    Whole,
    /// `decimal`.
    Decimal,
    /// `decimal` with a comma before the fraction.
    DecimalComma,
    /// `integer` or `decimal` with a group character before each three digits.
    Grouped(Grouping),
    /// `date` in a format.
    Day(DateFormat),
    /// `dateTime` in a format.
    Moment(MomentFormat),
    /// `double`, in the profile w3c.
    Double,
    /// `time`, in the profile w3c: in a format, or as XML Schema writes it.
    Time(ClockFormat),
    /// `date` that may have a zone, in the profile w3c.
    DayWithZone,
    /// `dateTime` that may have a zone and parts of a second, in the profile w3c.
    MomentWithZone,
    /// `dateTime` in a format that may have a zone and parts of a second, in the profile w3c.
    Stamp(StampFormat),
    /// `string`.
    Text,
}

/// Adds numbers whose fraction is written so, with each group character. Returns `AllocError` if memory runs out.
fn push_grouped(kinds: &mut Vec<Kind>, fraction: Fraction) -> Result<(), AllocError>
    ensures { OnOk result (kinds.new.items ≡ kinds.old.items ++ grouped_kinds fraction) }
{
    kinds.push(grouped(GroupChar::Space, fraction))?;
    kinds.push(grouped(GroupChar::NoBreakSpace, fraction))?;
    kinds.push(grouped(GroupChar::NarrowNoBreakSpace, fraction))?;
    kinds.push(grouped(GroupChar::Apostrophe, fraction))?;
    Ok(())
}

/// Returns the datatype of numbers with a group character, whose fraction is written so.
fn grouped(group_char: GroupChar, fraction: Fraction) -> Kind
    ensures { result ≡ kinds.Grouped (record { group_char = group_char; fraction = fraction }) }
{
    Kind::Grouped(Grouping {
        group_char,
        fraction,
    })
}

/// Adds `date` in each of some formats. Returns `AllocError` if memory runs out.
fn push_days(kinds: &mut Vec<Kind>, formats: &[DateFormat]) -> Result<(), AllocError>
    ensures { OnOk result (kinds.new.items ≡ kinds.old.items ++ day_kinds formats.now) }
{
    for format in formats {
        kinds.push(Kind::Day(*format))?;
    }
    Ok(())
}

/// Adds `dateTime` with a space for each of some formats of dates. Returns `AllocError` if memory runs out.
fn push_spaced(
    kinds: &mut Vec<Kind>,
    time: TimeFormat,
    dates: &[DateFormat],
) -> Result<(), AllocError>
    ensures { OnOk result (kinds.new.items ≡ kinds.old.items ++ spaced_kinds time dates.now) }
{
    for date in dates {
        kinds.push(Kind::Moment(MomentFormat::Spaced(*date, time)))?;
    }
    Ok(())
}

/// Returns the zone at the end of a moment: `Z`, or an offset in a form.
fn zone_of(form: OffsetForm) -> ZoneFormat
    ensures { result ≡ zone_of form }
{
    ZoneFormat {
        form,
        utc: UtcMark::Allowed,
        gap: ZoneGap::None,
    }
}

/// Returns the moments that databases write: a date, a space, a time with up to nine digits of a fraction, and a zone or none.
fn database_format(zone: Option<ZoneFormat>) -> StampFormat
    ensures { result ≡ database_format zone }
{
    StampFormat {
        moment: MomentFormat::Spaced(DateFormat::YearFirst, TimeFormat::Seconds),
        digits: 9,
        zone,
    }
}

/// Adds the moments that databases write. Returns `AllocError` if memory runs out.
fn push_stamps(kinds: &mut Vec<Kind>) -> Result<(), AllocError>
    ensures { OnOk result (kinds.new.items ≡ kinds.old.items ++ stamp_kinds) }
{
    let (short, extended) = (zone_of(OffsetForm::Short), zone_of(OffsetForm::Extended));
    kinds.push(Kind::Stamp(database_format(None)))?;
    kinds.push(Kind::Stamp(database_format(Some(short))))?;
    kinds.push(Kind::Stamp(database_format(Some(extended))))?;
    Ok(())
}

/// Adds `dateTime` with a space for each format of dates. Returns `AllocError` if memory runs out.
fn push_all_spaced(kinds: &mut Vec<Kind>) -> Result<(), AllocError>
    ensures { OnOk result (kinds.new.items ≡ kinds.old.items ++ all_spaced_kinds) }
{
    push_spaced(kinds, TimeFormat::Seconds, &DATE_FORMATS)?;
    push_spaced(kinds, TimeFormat::Minutes, &DATE_FORMATS)
}

/// Adds `dateTime` with a space in each format. Returns `AllocError` if memory runs out.
fn push_moments(kinds: &mut Vec<Kind>) -> Result<(), AllocError>
    ensures { OnOk result (kinds.new.items ≡ kinds.old.items ++ moment_kinds) }
{
    push_all_spaced(kinds)?;
    push_stamps(kinds)
}

/// Adds the datatypes that a document of the profile w3c may use besides. Those in front of them are narrower, or have other
/// texts. Returns `AllocError` if memory runs out.
fn push_w3c(kinds: &mut Vec<Kind>) -> Result<(), AllocError>
    ensures { OnOk result (kinds.new.items ≡ kinds.old.items ++ w3c_kinds) }
{
    kinds.push(Kind::Double)?;
    kinds.push(Kind::Time(ClockFormat::Any))?;
    kinds.push(Kind::Time(MINUTES))?;
    kinds.push(Kind::DayWithZone)?;
    kinds.push(Kind::MomentWithZone)?;
    push_moments(kinds)
}

/// Returns the datatypes besides `string` that each document may use, from the narrowest on. Returns `AllocError` if memory runs
/// out.
fn core_kinds(alloc: Global) -> Result<Vec<Kind>, AllocError>
    ensures { IfOk result (λ kinds. kinds.items ≡ core_kinds) }
{
    let mut kinds = Vec::new(alloc);
    kinds.push(Kind::Truth)?;
    kinds.push(Kind::Whole)?;
    kinds.push(Kind::Decimal)?;
    push_grouped(&mut kinds, Fraction::None)?;
    push_grouped(&mut kinds, Fraction::Point)?;
    push_days(&mut kinds, &DATE_FORMATS)?;
    kinds.push(Kind::Moment(MomentFormat::Seconds))?;
    kinds.push(Kind::Moment(MomentFormat::Minutes))?;
    Ok(kinds)
}

/// Returns the datatypes besides `string` that are looked for, from the narrowest on. Decimals may have a comma if `;` is the
/// delimiter: where the comma is the decimal character, spreadsheets write `;` between fields. Returns `AllocError` if memory
/// runs out.
pub(crate) fn kinds_of(alloc: Global, delimiter: char) -> Result<Vec<Kind>, AllocError>
    ensures { IfOk result (λ kinds. kinds.items ≡ kinds_of delimiter) }
{
    let mut kinds = core_kinds(alloc)?;
    if delimiter == ';' {
        kinds.push(Kind::DecimalComma)?;
        push_grouped(&mut kinds, Fraction::Comma)?;
    }
    push_w3c(&mut kinds)?;
    Ok(kinds)
}

impl Kind {
    ghost use Rattle.csvw_draft.specs.Kinds.{is_core, kind_in, reads};

    /// Returns the name of the datatype.
    pub(crate) fn name(self) -> &'static str {
        match self {
            Kind::Text => "string",
            Kind::Truth => "boolean",
            Kind::Whole => "integer",
            Kind::Grouped(grouping) if grouping.fraction == Fraction::None => "integer",
            Kind::Decimal | Kind::DecimalComma | Kind::Grouped(_) => "decimal",
            Kind::Day(_) | Kind::DayWithZone => "date",
            Kind::Moment(_) | Kind::MomentWithZone | Kind::Stamp(_) => "dateTime",
            Kind::Double => "double",
            Kind::Time(_) => "time",
        }
    }

    /// Returns whether each document may use the datatype.
    pub(crate) fn is_core(self) -> bool
        ensures { result ≡ is_core self }
    {
        match self {
            Kind::Double
            | Kind::Time(_)
            | Kind::DayWithZone
            | Kind::MomentWithZone
            | Kind::Stamp(_)
            | Kind::Moment(MomentFormat::Spaced(..)) => false,
            Kind::Truth
            | Kind::Whole
            | Kind::Decimal
            | Kind::DecimalComma
            | Kind::Grouped(_)
            | Kind::Day(_)
            | Kind::Moment(MomentFormat::Seconds | MomentFormat::Minutes)
            | Kind::Text => true,
        }
    }

    /// Returns the datatype in a document of a profile: `string` if such a document can't use it.
    pub(crate) fn in_profile(self, profile: Profile) -> Kind
        ensures { result ≡ kind_in profile self }
    {
        match profile {
            Profile::Core if !self.is_core() => Kind::Text,
            Profile::Core | Profile::W3c => self,
        }
    }

    /// Returns whether a text, whose white space is collapsed, is a value of the datatype. Returns `AllocError` if memory runs out.
    pub(crate) fn reads(self, alloc: Global, text: &str) -> Result<bool, AllocError>
        ensures { IfOk result (λ is_read. is_read ≡ reads self text.now) }
    {
        Ok(match self {
            Kind::Truth => text == "true" || text == "false",
            Kind::Whole => number_of(&WHOLE, text).is_some(),
            Kind::Decimal => number_of(&DECIMAL, text).is_some(),
            Kind::DecimalComma => number_of(&DECIMAL_COMMA, text).is_some(),
            Kind::Grouped(grouping) => grouping.value(text).is_some(),
            Kind::Day(format) => day_of(format, text).is_some(),
            Kind::Moment(format) => moment_of(format, text).is_some(),
            Kind::Double => double_of(alloc, text)?.is_some(),
            Kind::Time(format) => clock_text(alloc, format, text)?.is_some(),
            Kind::Stamp(format) => read_stamp(alloc, format, Zone::Optional, text)?.is_some(),
            Kind::DayWithZone => is_zoned_date(text),
            Kind::MomentWithZone => read_date_time(alloc, Zone::Optional, text)?.is_some(),
            Kind::Text => true,
        })
    }

    /// Returns the value of a text, or `None` if it is none of the datatype. Returns `AllocError` if memory runs out.
    pub(crate) fn value(self, alloc: Global, text: &str) -> Result<Option<Value>, AllocError> {
        if self == Kind::Text {
            return Ok(Some(Value::Text(Text::copied(alloc, text)?)));
        }
        let collapsed = collapse(alloc, text)?;
        self.read(alloc, collapsed.as_str())
    }

    /// Returns the value of a text whose white space is collapsed, or `None` if it is none of the datatype or the datatype is
    /// `string`. Returns `AllocError` if memory runs out.
    fn read(self, alloc: Global, text: &str) -> Result<Option<Value>, AllocError> {
        Ok(match self {
            Kind::Truth => truth_of(text).map(Value::Truth),
            Kind::Whole => number_of(&WHOLE, text).map(Value::Number),
            Kind::Decimal => number_of(&DECIMAL, text).map(Value::Number),
            Kind::DecimalComma => number_of(&DECIMAL_COMMA, text).map(Value::Number),
            Kind::Grouped(grouping) => grouping.value(text).map(Value::Number),
            Kind::Day(format) => day_of(format, text).map(Value::Day),
            Kind::Moment(format) => moment_of(format, text).map(Value::Moment),
            Kind::Double => double_of(alloc, text)?.map(Value::Text),
            Kind::Time(format) => clock_text(alloc, format, text)?.map(Value::Text),
            Kind::Stamp(format) => {
                read_stamp(alloc, format, Zone::Optional, text)?.map(date_time_as_value)
            }
            Kind::DayWithZone => read_zoned_date(alloc, None, text)?.map(date_as_value),
            Kind::MomentWithZone => {
                read_date_time(alloc, Zone::Optional, text)?.map(date_time_as_value)
            }
            Kind::Text => None,
        })
    }
}
