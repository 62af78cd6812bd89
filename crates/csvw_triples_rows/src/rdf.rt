//! The IRIs of RDF and XML Schema that triples use.
ghost use Rattle.std.specs.Prelude.{◌≡◌};
ghost use Rattle.csvw_iri.specs.Vocabulary as vocabulary;
ghost use Rattle.csvw_triples_rows.specs.Vocabulary.{rdf_first, rdf_rest, rdf_nil};

use csvw_iri::{Iri, named};
use csvw_text::both;
use std::alloc::{AllocError, Global};

/// The IRIs that are the same for all columns.
#[derive(Debug, Drop)]
pub struct RdfNames {
    /// rdf:first.
    pub first: Iri,
    /// rdf:rest.
    pub rest: Iri,
    /// rdf:nil.
    pub nil: Iri,
    /// rdf:langString.
    pub lang_string: Iri,
    /// xsd:string.
    pub string: Iri,
    pub ghost is_first: { first ≡ rdf_first },
    pub ghost is_rest: { rest ≡ rdf_rest },
    pub ghost is_nil: { nil ≡ rdf_nil },
    pub ghost is_lang_string: { lang_string ≡ vocabulary.lang_string },
    pub ghost is_string: { string ≡ vocabulary.xsd_string },
}

impl RdfNames {
    /// Makes the names. Fails with `AllocError` if memory runs out.
    pub(crate) fn new(alloc: Global) -> Result<RdfNames, AllocError> {
        let first = named(alloc, "http://www.w3.org/1999/02/22-rdf-syntax-ns#first");
        let rest = named(alloc, "http://www.w3.org/1999/02/22-rdf-syntax-ns#rest");
        let nil = named(alloc, "http://www.w3.org/1999/02/22-rdf-syntax-ns#nil");
        let lang_string = named(
            alloc,
            "http://www.w3.org/1999/02/22-rdf-syntax-ns#langString",
        );
        let string = named(alloc, "http://www.w3.org/2001/XMLSchema#string");
        let list = both(first, both(rest, nil));
        let (list, texts) = both(list, both(lang_string, string))?;
        let (first, (rest, nil)) = list;
        let (lang_string, string) = texts;
        Ok(RdfNames {
            first,
            rest,
            nil,
            lang_string,
            string,
        })
    }
}
