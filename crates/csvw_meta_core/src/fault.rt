//! The faults of a metadata document.
ghost use Rattle.std.specs.Prelude.{◌≡◌, IfOk};
ghost use Rattle.csvw_meta_core.specs.MetaCodes.{name_of};

use csvw_text::Text;
use std::alloc::{AllocError, AllocFailed, Global};
use std::error::Error;
use std::fmt;

/// What is wrong with a metadata document.
#[derive(Clone, Copy, Debug, PartialEq, Eq)]
pub enum MetaCode {
    /// There is no memory for what the document says.
    Memory,
    /// The document, or a template in it, is longer than its limit.
    TooLong,
    /// The bytes are not a JSON text (RFC 8259), or the text is nested too deep.
    NotJson,
    /// The property `@context` is missing, or is not the context of the vocabulary.
    BadContext,
    /// The value of a property is of a wrong kind, or a required property is missing.
    BadProperty,
    /// An `@id` names a blank node.
    BadId,
    /// A text is not a URL.
    BadUrl,
    /// A text that must be a URL is longer than its limit.
    UrlTooLong,
    /// A part of the vocabulary is not supported.
    NotSupported,
    /// A dialect cannot be used to read any text.
    BadDialect,
    /// A datatype has a format or facets that it cannot have.
    BadDatatype,
    /// A text is not a URI template (RFC 6570).
    BadTemplate,
    /// A template is of a level that is not supported (RFC 6570, section 1.2).
    TemplateLevel,
    /// The name of a column is not the name of a variable.
    BadName,
    /// Two columns of a table have the same name.
    DuplicateName,
    /// A virtual column comes before a column that is not virtual.
    VirtualOrder,
    /// Two tables of a group have the same URL.
    DuplicateTable,
    /// A key names a column or a table that does not exist.
    BadReference,
    /// There are more items than the limit, or a number is above its limit.
    TooMany,
}

impl MetaCode {
    /// Returns the name of the variant, as the program's lines spell it.
    pub fn name(&self) -> &'static str
        ensures { result.now ≡ name_of self.now }
    {
        match self {
            MetaCode::Memory => "Memory",
            MetaCode::TooLong => "TooLong",
            MetaCode::NotJson => "NotJson",
            MetaCode::BadContext => "BadContext",
            MetaCode::BadProperty => "BadProperty",
            MetaCode::BadId => "BadId",
            MetaCode::BadUrl => "BadUrl",
            MetaCode::UrlTooLong => "UrlTooLong",
            MetaCode::NotSupported => "NotSupported",
            MetaCode::BadDialect => "BadDialect",
            MetaCode::BadDatatype => "BadDatatype",
            MetaCode::BadTemplate => "BadTemplate",
            MetaCode::TemplateLevel => "TemplateLevel",
            MetaCode::BadName => "BadName",
            MetaCode::DuplicateName => "DuplicateName",
            MetaCode::VirtualOrder => "VirtualOrder",
            MetaCode::DuplicateTable => "DuplicateTable",
            MetaCode::BadReference => "BadReference",
            MetaCode::TooMany => "TooMany",
        }
    }

    /// What is wrong and what to do, as a sentence without its full stop.
    fn sentence(&self) -> &'static str {
        match self {
            MetaCode::Memory => "there is no memory: free some, and try again",
            MetaCode::TooLong => "the document or a template in it is too long: shorten it",
            MetaCode::NotJson => "the bytes are no JSON text, or nest too deep: correct them",
            MetaCode::BadContext => "`@context` is not that of CSVW: `http://www.w3.org/ns/csvw`",
            MetaCode::BadProperty => "a value is of a wrong kind, or a property is missing",
            MetaCode::BadId => "an `@id` names a blank node: name it by a URL, or leave it out",
            MetaCode::BadUrl => "the text is no URL: correct it",
            MetaCode::UrlTooLong => "the text of a URL is too long: shorten it",
            MetaCode::NotSupported => "this part of the vocabulary is not supported: leave it out",
            MetaCode::BadDialect => "delimiter, quotes and line ends clash: make them different",
            MetaCode::BadDatatype => "the datatype cannot have this format or these facets",
            MetaCode::BadTemplate => "the text is no URI template: write names as `{name}`",
            MetaCode::TemplateLevel => "the template is of a level above 2: leave out its operator",
            MetaCode::BadName => "a column's name has a `_` in front, or a wrong character",
            MetaCode::DuplicateName => "two columns of a table have one name: rename one of them",
            MetaCode::VirtualOrder =>
                "a virtual column stands too early: write it behind the others",
            MetaCode::DuplicateTable => "two tables have one URL: correct one, or leave it out",
            MetaCode::BadReference => "a key names a column or a table that is not there",
            MetaCode::TooMany => "there are more items than the limit: write fewer",
        }
    }
}

impl fmt::Display for MetaCode {
    fn fmt<W: fmt::Write>(&self, f: &mut fmt::Formatter<W>) -> fmt::Result {
        f.write_str(self.sentence())
    }
}

impl Error for MetaCode {}

/// A fault of a metadata document, with its place.
#[derive(Debug, Drop, PartialEq, Eq)]
pub struct MetaFault {
    /// What is wrong.
    pub code: MetaCode,
    /// The JSON Pointer (RFC 6901) of the value, or of the object in which a property is missing.
    pub pointer: Text,
}

impl MetaFault {
    /// Returns an equal fault, or `AllocError` if there is no memory.
    pub fn clone(&self, alloc: Global) -> Result<MetaFault, AllocError>
        ensures { IfOk result (λ f. f ≡ self.now) }
    {
        Ok(MetaFault {
            code: self.code,
            pointer: self.pointer.clone(alloc)?,
        })
    }
}

/// Why a part of a document is not read.
#[derive(Debug, Drop)]
pub enum Refusal {
    /// There is no memory for it.
    Memory,
    /// A fault of the part.
    Fault(MetaFault),
}

impl From<AllocError> for Refusal {
    ghost use Rattle.csvw_meta_core.specs.declared.fault.Refusal.TheVariants.{Memory};

    ghost from_gives = { λ _ e. e ≡ Memory };

    fn from(_: AllocError) -> Refusal {
        Refusal::Memory
    }
}

impl<T: Drop> From<AllocFailed<T>> for Refusal {
    ghost use Rattle.csvw_meta_core.specs.declared.fault.Refusal.TheVariants.{Memory};

    ghost from_gives = { λ _ e. e ≡ Memory };

    fn from(_: AllocFailed<T>) -> Refusal {
        Refusal::Memory
    }
}

impl fmt::Display for MetaFault {
    fn fmt<W: fmt::Write>(&self, f: &mut fmt::Formatter<W>) -> fmt::Result {
        let code = self.code;
        let pointer = self.pointer.as_str();
        write!(f, "{code}; it is at `{pointer}` of the document")
    }
}

impl Error for MetaFault {}

impl fmt::Display for Refusal {
    fn fmt<W: fmt::Write>(&self, f: &mut fmt::Formatter<W>) -> fmt::Result {
        match self {
            Refusal::Memory => f.write_str(MetaCode::Memory.sentence()),
            Refusal::Fault(fault) => write!(f, "{fault}"),
        }
    }
}

impl Error for Refusal {}
