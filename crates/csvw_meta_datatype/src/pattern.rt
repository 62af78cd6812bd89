//! The patterns of dates, moments and times of day (Model for Tabular Data and Metadata on the Web, section 6.4.4).
ghost use Rattle.std.specs.Prelude.{◌≡◌};
ghost use Rattle.csvw_meta_datatype.specs.Patterns.{core_format_of, date_format, moment_format, stamp_format, clock_format, zoned_date_format};

use csvw_datatype::{ClockFormat, DateFormat, MomentFormat, StampFormat, ZonedDateFormat};
use csvw_datatype_core::date_format_of;
use csvw_meta_core::{MetaCode, Part, Reader, Refusal};

fn core_format_of(pattern: &str) -> Option<MomentFormat>
    ensures { result ≡ core_format_of pattern.now }
{
    match MomentFormat::of(pattern)? {
        MomentFormat::Seconds => Some(MomentFormat::Seconds),
        MomentFormat::Minutes => Some(MomentFormat::Minutes),
        MomentFormat::Spaced(..) => None,
    }
}

/// Reads the pattern of a date in the profile core. A pattern that is not one of the fourteen is `NotSupported`.
#[derive(Drop)]
pub struct DatePattern;

impl Reader for DatePattern {
    type Output = DateFormat;

    ghost reads = { λ _. date_format };

    fn read(&self, part: &Part) -> Result<DateFormat, Refusal> {
        let Some(pattern) = part.value.as_str() else {
            return Err(part.wrong());
        };
        match date_format_of(pattern) {
            Some(format) => Ok(format),
            None => Err(part.refused(MetaCode::NotSupported)),
        }
    }
}

/// Reads the pattern of a date that may have a zone. Another pattern is `NotSupported`.
#[derive(Drop)]
pub struct ZonedDatePattern;

impl Reader for ZonedDatePattern {
    type Output = ZonedDateFormat;

    ghost reads = { λ _. zoned_date_format };

    fn read(&self, part: &Part) -> Result<ZonedDateFormat, Refusal> {
        let Some(pattern) = part.value.as_str() else {
            return Err(part.wrong());
        };
        match ZonedDateFormat::of(pattern) {
            Some(format) => Ok(format),
            None => Err(part.refused(MetaCode::NotSupported)),
        }
    }
}

/// Reads the pattern of a date with a time of day in the profile core. A pattern that is not one of the two with a `T` is
/// `NotSupported`.
#[derive(Drop)]
pub struct MomentPattern;

impl Reader for MomentPattern {
    type Output = MomentFormat;

    ghost reads = { λ _. moment_format };

    fn read(&self, part: &Part) -> Result<MomentFormat, Refusal> {
        let Some(pattern) = part.value.as_str() else {
            return Err(part.wrong());
        };
        match core_format_of(pattern) {
            Some(format) => Ok(format),
            None => Err(part.refused(MetaCode::NotSupported)),
        }
    }
}

/// Reads the pattern of a date with a time of day that may have parts of a second and a zone. Another pattern is
/// `NotSupported`.
#[derive(Drop)]
pub struct StampPattern;

impl Reader for StampPattern {
    type Output = StampFormat;

    ghost reads = { λ _. stamp_format };

    fn read(&self, part: &Part) -> Result<StampFormat, Refusal> {
        let Some(pattern) = part.value.as_str() else {
            return Err(part.wrong());
        };
        match StampFormat::of(pattern) {
            Some(format) => Ok(format),
            None => Err(part.refused(MetaCode::NotSupported)),
        }
    }
}

/// Reads the pattern of a time of day that may have parts of a second and a zone. Another pattern is `NotSupported`.
#[derive(Drop)]
pub struct ClockPattern;

impl Reader for ClockPattern {
    type Output = ClockFormat;

    ghost reads = { λ _. clock_format };

    fn read(&self, part: &Part) -> Result<ClockFormat, Refusal> {
        let Some(pattern) = part.value.as_str() else {
            return Err(part.wrong());
        };
        match ClockFormat::of(pattern) {
            Some(format) => Ok(format),
            None => Err(part.refused(MetaCode::NotSupported)),
        }
    }
}
