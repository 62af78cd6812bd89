//! `Row` and `AnnCell`: annotated rows.
ghost use Rattle.std.specs.Prelude.{◌≡◌, []};
ghost use Rattle.csvw_annotate.specs.Annotated.{null_cell};

use csvw_cell::CellValue;
use csvw_iri::Iri;
use csvw_text::{Code, Seq};
use std::alloc::Global;

/// A cell of a row (Model for Tabular Data, section 4.5).
#[derive(Debug, Drop)]
pub struct AnnCell {
    /// The value.
    pub value: CellValue,
    /// The about link: the subject of the cell's triples.
    pub about: Option<Iri>,
    /// The property link: the predicate of the cell's triples.
    pub property: Option<Iri>,
    /// The value link: the object of the cell's triples.
    pub link: Option<Iri>,
    /// What is wrong with the cell, each code once, in the order of the codes.
    pub faults: Seq<Code>,
}

/// A row (Model for Tabular Data, section 4.4).
#[derive(Debug, Drop)]
pub struct Row {
    /// The number of the row among the data rows, from 1.
    pub number: u64,
    /// The number of the row in its source, from 1. Skipped rows, comments, blank rows and header rows count.
    pub source: u64,
    /// The cells, one for each column.
    pub cells: Seq<AnnCell>,
}

impl AnnCell {
    /// Returns a null cell without links and faults. It takes no memory.
    pub fn new(alloc: Global) -> AnnCell
        ensures { result ≡ null_cell }
    {
        AnnCell {
            value: CellValue::Null,
            about: None,
            property: None,
            link: None,
            faults: Seq::new(alloc),
        }
    }
}

impl Row {
    /// Returns a row without cells. It takes no memory.
    pub fn new(alloc: Global) -> Row
        ensures { (result.number ≡ 0) × (result.source ≡ 0) × (result.cells ≡ []) }
    {
        Row {
            number: 0,
            source: 0,
            cells: Seq::new(alloc),
        }
    }
}
