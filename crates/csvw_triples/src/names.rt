//! The IRIs that the triples of groups and tables use.
ghost use Rattle.std.specs.Prelude.{◌≡◌};
ghost use Rattle.csvw_triples_rows.specs.CsvwVocabulary as vocabulary;
ghost use Rattle.csvw_iri.specs.Vocabulary as datatypes;

use csvw_iri::{Iri, named};
use csvw_text::both;
use std::alloc::{AllocError, Global};

/// The IRIs that are the same for all groups and tables (CSVW Namespace Vocabulary Terms).
#[derive(Debug, Drop)]
pub struct OpeningNames {
    /// rdf:type.
    pub rdf_type: Iri,
    /// csvw:TableGroup.
    pub group_class: Iri,
    /// csvw:table.
    pub table: Iri,
    /// csvw:Table.
    pub table_class: Iri,
    /// csvw:url.
    pub url: Iri,
    /// rdf:langString.
    pub lang_string: Iri,
    pub ghost is_rdf_type: { rdf_type ≡ vocabulary.rdf_type },
    pub ghost is_group_class: { group_class ≡ vocabulary.group_class },
    pub ghost is_table: { table ≡ vocabulary.table_of_group },
    pub ghost is_table_class: { table_class ≡ vocabulary.table_class },
    pub ghost is_url: { url ≡ vocabulary.csvw_url },
    pub ghost is_lang_string: { lang_string ≡ datatypes.lang_string },
}

impl OpeningNames {
    /// Makes the names. Fails with `AllocError` if memory runs out.
    pub(crate) fn new(alloc: Global) -> Result<OpeningNames, AllocError> {
        let rdf_type = named(alloc, "http://www.w3.org/1999/02/22-rdf-syntax-ns#type");
        let group_class = named(alloc, "http://www.w3.org/ns/csvw#TableGroup");
        let table = named(alloc, "http://www.w3.org/ns/csvw#table");
        let table_class = named(alloc, "http://www.w3.org/ns/csvw#Table");
        let url = named(alloc, "http://www.w3.org/ns/csvw#url");
        let lang_string = named(
            alloc,
            "http://www.w3.org/1999/02/22-rdf-syntax-ns#langString",
        );
        let classes = both(rdf_type, both(group_class, table_class));
        let (classes, rest) = both(classes, both(table, both(url, lang_string)))?;
        let (rdf_type, (group_class, table_class)) = classes;
        let (table, (url, lang_string)) = rest;
        Ok(OpeningNames {
            rdf_type,
            group_class,
            table,
            table_class,
            url,
            lang_string,
        })
    }
}
