//! What may be at the end of a time of day: a fraction of a second and a zone.

use csvw_datatype_core::{OffsetForm, TimeFormat, UtcMark, ZoneFormat, ZoneGap};

/// The formats of times of day.
pub(crate) const TIMES: [TimeFormat; 4] = [
    TimeFormat::Seconds,
    TimeFormat::CompactSeconds,
    TimeFormat::Minutes,
    TimeFormat::CompactMinutes,
];

/// Returns how an offset is written that has this text after its sign, if its length is that of one.
fn form_of(after: &str) -> Option<OffsetForm> {
    match after.len() {
        2 => Some(OffsetForm::Short),
        4 => Some(OffsetForm::Basic),
        5 => Some(OffsetForm::Extended),
        _ => None,
    }
}

/// Returns the text before an offset at its end, and how the offset is written. Its digits aren't looked at.
fn offset_split(text: &str) -> Option<(&str, OffsetForm)> {
    if let Some(front) = text.strip_suffix('Z') {
        return Some((front, OffsetForm::Short));
    }
    // a `-` may also separate the fields of a date, so `+` comes first
    let (front, after) = match text.rsplit_once('+') {
        Some(parts) => parts,
        None => text.rsplit_once('-')?,
    };
    Some((front, form_of(after)?))
}

/// Returns the text before a zone at its end, and the zone's format. Its digits aren't looked at. A text without one is returned
/// whole.
pub(crate) fn zone_split(text: &str) -> (&str, Option<ZoneFormat>) {
    let Some((front, form)) = offset_split(text) else {
        return (text, None);
    };
    let (front, gap) = match front.strip_suffix(' ') {
        Some(front) => (front, ZoneGap::Space),
        None => (front, ZoneGap::None),
    };
    let utc = UtcMark::Allowed;
    (front, Some(ZoneFormat { form, utc, gap }))
}

/// Returns how many digits a text is, if it is 1 to 255 digits.
fn digits_of(text: &str) -> Option<u8> {
    let count = text.len();
    if count == 0 || count > 255 || !text.bytes().all(|byte| byte.is_ascii_digit()) {
        return None;
    }
    Some(count as u8)
}

/// Returns the text before a point and 1 to 255 digits at its end, and how many digits there are. A text without them is returned
/// whole, with 0.
pub(crate) fn fraction_split(text: &str) -> (&str, u8) {
    if let Some((front, after)) = text.rsplit_once('.') {
        if let Some(digits) = digits_of(after) {
            return (front, digits);
        }
    }
    (text, 0)
}
