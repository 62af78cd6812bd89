//! The IRIs that any annotation may use.
ghost use Rattle.std.specs.Prelude.{◌≡◌};
ghost use Rattle.csvw_iri.specs.Vocabulary.{xsd_string, xsd_integer, xsd_boolean, lang_string};
ghost use Rattle.csvw_meta_notes.specs.Vocabulary.{csvw_note};

use csvw_iri::{Iri, named};
use std::alloc::{AllocError, Global};

/// The IRIs that any annotation may use.
#[derive(Drop)]
pub(crate) struct Vocabulary {
    /// xsd:string.
    pub(crate) string: Iri,
    /// xsd:integer.
    pub(crate) integer: Iri,
    /// xsd:boolean.
    pub(crate) boolean: Iri,
    /// rdf:langString.
    pub(crate) tagged: Iri,
    /// csvw:note.
    pub(crate) note: Iri,
    pub(crate) ghost is_string: { string ≡ xsd_string },
    pub(crate) ghost is_integer: { integer ≡ xsd_integer },
    pub(crate) ghost is_boolean: { boolean ≡ xsd_boolean },
    pub(crate) ghost is_tagged: { tagged ≡ lang_string },
    pub(crate) ghost is_note: { note ≡ csvw_note },
}

impl Vocabulary {
    /// Returns the IRIs, or `AllocError` if there is no memory.
    pub(crate) fn new(alloc: Global) -> Result<Vocabulary, AllocError> {
        let string = named(alloc, "http://www.w3.org/2001/XMLSchema#string")?;
        let integer = named(alloc, "http://www.w3.org/2001/XMLSchema#integer")?;
        let boolean = named(alloc, "http://www.w3.org/2001/XMLSchema#boolean")?;
        let tagged = named(
            alloc,
            "http://www.w3.org/1999/02/22-rdf-syntax-ns#langString",
        )?;
        let note = named(alloc, "http://www.w3.org/ns/csvw#note")?;
        Ok(Vocabulary {
            string,
            integer,
            boolean,
            tagged,
            note,
        })
    }
}
