//! `Links`: the links of a cell.
ghost use Rattle.std.specs.Prelude.{◌≡◌, ◌<◌, ◌++◌, ℕ, List, Result, IfOk, OnOk, length};
ghost use Rattle.url.specs.Parts.{Parts};
ghost use Rattle.csvw_iri.specs.Link.{Refusal, link_of, max_text};
ghost use Rattle.csvw_text.specs.Gives.{Gives};
ghost use Rattle.csvw_iri.specs.Fault.{refusal};
ghost use Rattle.csvw_cell.specs.Codes.{told};
ghost use Rattle.csvw_annotate.specs.Links.{no_link, outcome, has_value, joined, codes_of, has_template, has_own_template};

use csvw_cell::CellValue;
use csvw_columns_core::Column;
use csvw_iri::{Base, Iri, IriFault, link, long_texts_have_no_link};
use csvw_text::{Code, Seq, copied_option};
use std::alloc::{AllocError, Global};

/// A link, or what is wrong with it.
#[derive(Drop)]
pub struct Made {
    /// The IRI. `None` if there is no template, or if something is wrong.
    pub iri: Option<Iri>,
    /// Whether the link is not a URL.
    pub is_bad: bool,
    /// Whether the text of the link is longer than the limit.
    pub is_too_long: bool,
}

/// The links of a cell, and what is wrong with them (Metadata Vocabulary for Tabular Data, section 5.7).
#[derive(Drop)]
pub struct Links {
    /// The about link, by `aboutUrl`.
    pub about: Option<Iri>,
    /// The property link, by `propertyUrl`.
    pub property: Option<Iri>,
    /// The value link, by `valueUrl`.
    pub value: Option<Iri>,
    /// Whether one of the links is not a URL.
    pub is_bad: bool,
    /// Whether the text of one of the links is longer than the limit.
    pub is_too_long: bool,
}

/// Returns no link: there is no template.
pub fn no_link() -> Made
    ensures { result ≡ no_link }
{
    Made {
        iri: None,
        is_bad: false,
        is_too_long: false,
    }
}

/// Returns the link of a text that is longer than the limit.
pub(crate) fn too_long() -> Made
    ensures { (base : Parts) (text : List ℕ) → max_text < length text → result ≡ outcome (link_of base text) }
{
    long_texts_have_no_link();
    Made {
        iri: None,
        is_bad: false,
        is_too_long: true,
    }
}

pub(crate) fn linked(alloc: Global, base: &Base, text: &str) -> Result<Made, AllocError>
    ensures { IfOk result (λ l. l ≡ outcome (link_of base.now text.now)) }
{
    outcome(link(alloc, base, text))
}

pub(crate) fn outcome(answer: Result<Iri, IriFault>) -> Result<Made, AllocError>
    ensures { IfOk result (λ l. (expected : Result (List ℕ) Refusal) → Gives (λ i. i) refusal answer expected → l ≡ outcome expected) }
{
    match answer {
        Ok(iri) => Ok(Made {
            iri: Some(iri),
            is_bad: false,
            is_too_long: false,
        }),
        Err(IriFault::BadUrl) => Ok(Made {
            iri: None,
            is_bad: true,
            is_too_long: false,
        }),
        Err(IriFault::UrlTooLong) => Ok(Made {
            iri: None,
            is_bad: false,
            is_too_long: true,
        }),
        Err(IriFault::Memory) => Err(AllocError),
    }
}

/// Returns whether a value is neither null nor the empty list.
pub(crate) fn has_value(value: &CellValue) -> bool
    ensures { result ≡ has_value value.now }
{
    match value {
        CellValue::Null => false,
        CellValue::One(_) => true,
        CellValue::Many(items) => !items.is_empty(),
    }
}

/// Returns whether a column has a template for a link.
pub fn has_template(column: &Column) -> bool
    ensures { result ≡ has_template column.now }
{
    let properties = &column.properties;
    properties.about_url.is_some()
        || properties.property_url.is_some()
        || properties.value_url.is_some()
}

/// Returns whether a column has a template for a property or a value link.
pub fn has_own_template(column: &Column) -> bool
    ensures { result ≡ has_own_template column.now }
{
    let properties = &column.properties;
    properties.property_url.is_some() || properties.value_url.is_some()
}

/// Returns the links of a cell that has only its about link.
pub fn about_alone(about: Made) -> Links
    ensures { result ≡ joined about no_link no_link }
{
    Links {
        is_bad: about.is_bad,
        is_too_long: about.is_too_long,
        about: about.iri,
        property: None,
        value: None,
    }
}

/// Returns three links, and whether something is wrong with one of them.
pub fn joined(about: Made, property: Made, value: Made) -> Links
    ensures { result ≡ joined about property value }
{
    Links {
        is_bad: about.is_bad || property.is_bad || value.is_bad,
        is_too_long: about.is_too_long || property.is_too_long || value.is_too_long,
        about: about.iri,
        property: property.iri,
        value: value.iri,
    }
}

impl Made {
    /// Returns an equal link. It is an `AllocError` only if the count of the IRI's owners is at its greatest.
    pub fn clone(&self, alloc: Global) -> Result<Made, AllocError>
        ensures { IfOk result (λ made. made ≡ self.now) }
    {
        Ok(Made {
            iri: copied_option(alloc, &self.iri)?,
            is_bad: self.is_bad,
            is_too_long: self.is_too_long,
        })
    }
}

fn tell(codes: &mut Seq<Code>, is_wrong: bool, code: Code) -> Result<(), AllocError>
    ensures { OnOk result (codes.new ≡ codes.old ++ told is_wrong code) }
{
    if is_wrong {
        codes.push(code)?;
    }
    Ok(())
}

impl Links {
    /// Adds the codes of what is wrong with the links, each once and in the order of the codes. Returns `AllocError`
    /// if memory runs out.
    pub fn tell(&self, codes: &mut Seq<Code>) -> Result<(), AllocError>
        ensures { OnOk result (codes.new ≡ codes.old ++ codes_of self.now) }
    {
        tell(codes, self.is_bad, Code::BadUrl)?;
        tell(codes, self.is_too_long, Code::UrlTooLong)
    }
}
