//! What becomes of white space in a cell.
ghost use Rattle.std.specs.Prelude.{◌≡◌};
ghost use Rattle.csvw_datatype.specs.Strings.{white_space, space_of};
ghost use Rattle.csvw_datatype.specs.declared.simple.Simple.TheVariants as simples;

use crate::datatype::Datatype;
use crate::simple::{Simple, TextType};

/// What becomes of white space in a cell before it is read, as XML Schema 1.1 part 2, section 4.3.6, names it.
#[derive(Clone, Copy, Debug, PartialEq, Eq)]
pub enum WhiteSpace {
    /// It stays as it is.
    Preserve,
    /// Each line break and each tab becomes a space.
    Replace,
    /// Then each run of spaces becomes one space, and the ends have none.
    Collapse,
}

/// Returns what becomes of white space in cells of a type of texts.
fn space_of(text_type: TextType) -> WhiteSpace
    ensures { result ≡ space_of (simples.Other text_type) }
{
    match text_type {
        TextType::Any | TextType::Xml | TextType::Html | TextType::Json => WhiteSpace::Preserve,
        TextType::Normalized => WhiteSpace::Replace,
        TextType::Token
        | TextType::Language
        | TextType::Name
        | TextType::NameToken
        | TextType::QualifiedName
        | TextType::Time
        | TextType::Date
        | TextType::DateTime(_)
        | TextType::Part(_)
        | TextType::Binary(_)
        | TextType::Duration(_) => WhiteSpace::Collapse,
    }
}

impl Datatype {
    /// Returns what becomes of white space in a cell (Model for Tabular Data, section 6.4, steps 1 and 2).
    #[inline(always)]
    pub fn white_space(&self) -> WhiteSpace
        ensures { result ≡ white_space self.now }
    {
        match self.simple {
            Simple::Text => WhiteSpace::Preserve,
            Simple::Other(text_type) => space_of(text_type),
            Simple::Truth
            | Simple::Whole
            | Simple::Decimal
            | Simple::Day
            | Simple::Uri
            | Simple::Derived(_)
            | Simple::Moment
            | Simple::Floating(_) => WhiteSpace::Collapse,
        }
    }
}
