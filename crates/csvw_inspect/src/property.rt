//! Properties with their values.

use crate::value::Shown;
use csvw_iri::Iri;

/// Where a value comes from.
#[derive(Clone, Copy)]
pub(crate) enum Origin {
    /// The document, or what the document implies.
    Document,
    /// It is the default, whether the document says it or not.
    Default,
}

/// A property.
#[derive(Clone, Copy)]
pub(crate) struct Property<'a> {
    /// The name, as in the standard.
    pub(crate) name: &'static str,
    /// The value.
    pub(crate) value: Shown<'a>,
    /// Where the value comes from.
    pub(crate) origin: Origin,
}

/// Returns a property that has no default.
pub(crate) fn given<'a>(name: &'static str, value: Shown<'a>) -> Property<'a> {
    Property {
        name,
        value,
        origin: Origin::Document,
    }
}

/// Returns a property whose value is the default.
pub(crate) fn default<'a>(name: &'static str, value: Shown<'a>) -> Property<'a> {
    Property {
        name,
        value,
        origin: Origin::Default,
    }
}

/// Returns a text with its default.
pub(crate) fn text<'a>(name: &'static str, text: &'a str, default_text: &str) -> Property<'a> {
    if text == default_text {
        default(name, Shown::Text(text))
    } else {
        given(name, Shown::Text(text))
    }
}

/// Returns a text that is null by default.
pub(crate) fn optional<'a>(name: &'static str, text: Option<&'a str>) -> Property<'a> {
    match text {
        Some(text) => given(name, Shown::Text(text)),
        None => default(name, Shown::Null),
    }
}

/// Returns a number with its default.
pub(crate) fn number(name: &'static str, number: u64, default_number: u64) -> Property<'static> {
    if number == default_number {
        default(name, Shown::Number(number))
    } else {
        given(name, Shown::Number(number))
    }
}

/// Returns a number, if there is one.
pub(crate) fn length(name: &'static str, length: Option<u64>) -> Property<'static> {
    given(
        name,
        match length {
            Some(length) => Shown::Number(length),
            None => Shown::Nothing,
        },
    )
}

/// Returns a boolean that is false by default.
pub(crate) fn truth(name: &'static str, truth: bool) -> Property<'static> {
    if truth {
        given(name, Shown::Truth(true))
    } else {
        default(name, Shown::Truth(false))
    }
}

impl Property<'_> {
    /// Whether the property is shown.
    pub(crate) fn is_shown(&self) -> bool {
        !matches!(self.value, Shown::Nothing)
    }
}

/// Returns the text of an IRI, if there is one.
pub(crate) fn text_of_iri(iri: &Option<Iri>) -> Option<&str> {
    match iri {
        Some(iri) => Some(iri.as_str()),
        None => None,
    }
}
