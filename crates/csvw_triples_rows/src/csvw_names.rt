//! The IRIs that the triples of standard mode use.
ghost use Rattle.std.specs.Prelude.{◌≡◌};
ghost use Rattle.csvw_iri.specs.Vocabulary.{xsd_integer};
ghost use Rattle.csvw_triples_rows.specs.CsvwVocabulary as vocabulary;

use csvw_iri::{Iri, named};
use csvw_text::both;
use std::alloc::{AllocError, Global};

/// The IRIs of standard mode that are the same for all rows (CSVW Namespace Vocabulary Terms).
#[derive(Debug, Drop)]
pub struct CsvwNames {
    /// rdf:type.
    pub rdf_type: Iri,
    /// csvw:row.
    pub row: Iri,
    /// csvw:Row.
    pub row_class: Iri,
    /// csvw:rownum.
    pub rownum: Iri,
    /// csvw:url.
    pub url: Iri,
    /// csvw:title.
    pub title: Iri,
    /// csvw:describes.
    pub describes: Iri,
    /// xsd:integer.
    pub integer: Iri,
    pub ghost is_rdf_type: { rdf_type ≡ vocabulary.rdf_type },
    pub ghost is_row: { row ≡ vocabulary.row_of_table },
    pub ghost is_row_class: { row_class ≡ vocabulary.row_class },
    pub ghost is_rownum: { rownum ≡ vocabulary.csvw_rownum },
    pub ghost is_url: { url ≡ vocabulary.csvw_url },
    pub ghost is_title: { title ≡ vocabulary.csvw_title },
    pub ghost is_describes: { describes ≡ vocabulary.csvw_describes },
    pub ghost is_integer: { integer ≡ xsd_integer },
}

impl CsvwNames {
    /// Makes the names. Fails with `AllocError` if memory runs out.
    pub(crate) fn new(alloc: Global) -> Result<CsvwNames, AllocError> {
        let rdf_type = named(alloc, "http://www.w3.org/1999/02/22-rdf-syntax-ns#type");
        let row = named(alloc, "http://www.w3.org/ns/csvw#row");
        let row_class = named(alloc, "http://www.w3.org/ns/csvw#Row");
        let rownum = named(alloc, "http://www.w3.org/ns/csvw#rownum");
        let url = named(alloc, "http://www.w3.org/ns/csvw#url");
        let title = named(alloc, "http://www.w3.org/ns/csvw#title");
        let describes = named(alloc, "http://www.w3.org/ns/csvw#describes");
        let integer = named(alloc, "http://www.w3.org/2001/XMLSchema#integer");
        let classes = both(rdf_type, both(row, row_class));
        let rest = both(both(rownum, url), both(both(title, describes), integer));
        let (classes, rest) = both(classes, rest)?;
        let (rdf_type, (row, row_class)) = classes;
        let ((rownum, url), ((title, describes), integer)) = rest;
        Ok(CsvwNames {
            rdf_type,
            row,
            row_class,
            rownum,
            url,
            title,
            describes,
            integer,
        })
    }
}
