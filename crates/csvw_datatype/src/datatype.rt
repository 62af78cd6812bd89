//! `Datatype` and `Facets`: a datatype of a column.
ghost use Rattle.std.specs.Prelude.{◌≡◌, IfOk};
ghost use Rattle.csvw_datatype.specs.Strings.{is_string, takes_any_text, keeps_ends};

use crate::format::Format;
use crate::simple::{Simple, TextType};
use crate::value::Value;
use csvw_iri::Iri;
use csvw_text::{both, copied_option};
use std::alloc::{AllocError, Global};

/// The values that a column takes, besides their type (Metadata Vocabulary for Tabular Data, section 5.11.2). Lengths
/// are in characters.
#[derive(Debug, Drop, PartialEq, Eq)]
pub struct Facets {
    /// `length`: the number of characters of a text.
    pub length: Option<u64>,
    /// `minLength`: the least number of characters.
    pub min_length: Option<u64>,
    /// `maxLength`: the greatest number of characters.
    pub max_length: Option<u64>,
    /// `minimum`: the least value.
    pub minimum: Option<Value>,
    /// `minInclusive`: the least value, too.
    pub min_inclusive: Option<Value>,
    /// `minExclusive`: each value is above it.
    pub min_exclusive: Option<Value>,
    /// `maximum`: the greatest value.
    pub maximum: Option<Value>,
    /// `maxInclusive`: the greatest value, too.
    pub max_inclusive: Option<Value>,
    /// `maxExclusive`: each value is below it.
    pub max_exclusive: Option<Value>,
}

/// A datatype (Metadata Vocabulary for Tabular Data, section 5.11.2).
#[derive(Debug, Drop, PartialEq, Eq)]
pub struct Datatype {
    /// The `base`.
    pub simple: Simple,
    /// The `@id`, if there is one.
    pub id: Option<Iri>,
    /// The `format`, if there is one.
    pub format: Option<Format>,
    /// The values that the datatype takes, besides their type.
    pub facets: Facets,
}

impl Facets {
    ghost use Rattle.csvw_datatype.specs.Breaks.{no_facets};

    /// Returns facets of which none is set.
    pub fn new() -> Facets
        ensures { result ≡ no_facets }
    {
        Facets {
            length: None,
            min_length: None,
            max_length: None,
            minimum: None,
            min_inclusive: None,
            min_exclusive: None,
            maximum: None,
            max_inclusive: None,
            max_exclusive: None,
        }
    }

    /// Returns equal facets, or `AllocError` if memory runs out.
    pub fn clone(&self, alloc: Global) -> Result<Facets, AllocError>
        ensures { IfOk result (λ f. f ≡ self.now) }
    {
        let least = copied_option(alloc, &self.minimum);
        let least_inclusive = copied_option(alloc, &self.min_inclusive);
        let least_exclusive = copied_option(alloc, &self.min_exclusive);
        let greatest = copied_option(alloc, &self.maximum);
        let greatest_inclusive = copied_option(alloc, &self.max_inclusive);
        let greatest_exclusive = copied_option(alloc, &self.max_exclusive);
        let lower = both(least, both(least_inclusive, least_exclusive));
        let upper = both(greatest, both(greatest_inclusive, greatest_exclusive));
        let (lower, upper) = both(lower, upper)?;
        let (minimum, (min_inclusive, min_exclusive)) = lower;
        let (maximum, (max_inclusive, max_exclusive)) = upper;
        Ok(Facets {
            length: self.length,
            min_length: self.min_length,
            max_length: self.max_length,
            minimum,
            min_inclusive,
            min_exclusive,
            maximum,
            max_inclusive,
            max_exclusive,
        })
    }
}

impl Datatype {
    /// Returns whether the base is `string`.
    #[inline(always)]
    pub fn is_string(&self) -> bool
        ensures { result ≡ is_string self.now }
    {
        match self.simple {
            Simple::Text => true,
            Simple::Truth
            | Simple::Whole
            | Simple::Decimal
            | Simple::Day
            | Simple::Uri
            | Simple::Derived(_)
            | Simple::Moment
            | Simple::Other(_)
            | Simple::Floating(_) => false,
        }
    }

    /// Returns whether each text is a value: the base is `string`, and the format is no regular expression.
    #[inline(always)]
    pub fn takes_any_text(&self) -> bool
        ensures { result ≡ takes_any_text self.now }
    {
        self.is_string() && !matches!(self.format, Some(Format::Expression(_)))
    }

    /// Returns whether white space at the ends of the items of a list stays (Model for Tabular Data, section 6.4, step 6).
    #[inline(always)]
    pub fn keeps_ends(&self) -> bool
        ensures { result ≡ keeps_ends self.now }
    {
        match self.simple {
            Simple::Text | Simple::Other(TextType::Any) => true,
            Simple::Truth
            | Simple::Whole
            | Simple::Decimal
            | Simple::Day
            | Simple::Uri
            | Simple::Derived(_)
            | Simple::Moment
            | Simple::Floating(_)
            | Simple::Other(_) => false,
        }
    }

    /// Returns an equal datatype, or `AllocError` if memory runs out.
    pub fn clone(&self, alloc: Global) -> Result<Datatype, AllocError>
        ensures { IfOk result (λ d. d ≡ self.now) }
    {
        let id = copied_option(alloc, &self.id);
        let format = copied_option(alloc, &self.format);
        let ((id, format), facets) = both(both(id, format), self.facets.clone(alloc))?;
        Ok(Datatype {
            simple: self.simple,
            id,
            format,
            facets,
        })
    }
}
