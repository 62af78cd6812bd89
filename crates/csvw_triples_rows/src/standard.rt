//! Writes the triples of rows in standard mode into a sink.
ghost use Rattle.std.specs.Prelude.{◌≡◌, [], ◌∷◌, ◌++◌, IfOk, OnOk, None, length, option_copied};
ghost use Rattle.std.specs.List.{zip};
ghost use Rattle.csvw_triples_core.specs.Lent.{node_of, term_of};
ghost use Rattle.csvw_triples_core.specs.Taking.{FrontOf, Ends};
ghost use Rattle.csvw_cell.specs.HasForm.{HasForm};
ghost use Rattle.csvw_annotate.specs.HasForms.{CellsHaveForms, HasForms};
ghost use Rattle.csvw_triples_rows.specs.Puts.{Puts};
ghost use Rattle.csvw_triples_rows.specs.RowTriples.{row_node, subject_of};
ghost use Rattle.csvw_triples_rows.specs.StandardTriples.{table_node, object_of, row_fragment, row_url};
ghost use Rattle.csvw_triples_rows.specs.StandardTriples.{member_triple, class_triple, number_triple, url_triple, row_front};
ghost use Rattle.csvw_triples_rows.specs.StandardTriples.{same_about, is_described, describes_triples, described_triples};
ghost use Rattle.csvw_triples_rows.specs.StandardTriples.{last_after, described_cells, row_contents, standard_triples};

use crate::emitter::Emitter;
use crate::literals::typed;
use crate::putting::put_object;
use crate::stem::{RowPlace, Stem};
use csvw_annotate::{AnnCell, Row};
use csvw_columns_core::{Column, Columns};
use csvw_iri::Iri;
use csvw_text::Text;
use csvw_triples_core::{Node, NodeRef, Origin, SinkFault, TermRef, TripleSink};
use itoa::Buffer;
use std::alloc::{AllocError, Global};

/// Returns the node of table `t`: its `@id` if it has one, else its blank node. Fails with `AllocError` if memory
/// runs out.
pub fn table_node(alloc: Global, t: u32, id: &Option<Iri>) -> Result<Node, AllocError>
    ensures { IfOk result (λ s. s ≡ table_node t id.now) }
{
    table_node_ref(t, id).to_node(alloc)
}

/// Lends the node of table `t`.
fn table_node_ref(t: u32, id: &Option<Iri>) -> NodeRef<'_>
    ensures { node_of result ≡ table_node t id.now }
{
    match id {
        Some(iri) => NodeRef::Named(iri),
        None => NodeRef::Blank(Origin::Table(t)),
    }
}

/// Lends the subject of a cell as an object.
fn subject_as_object(place: RowPlace, cell: &AnnCell) -> TermRef<'_>
    ensures { term_of result ≡ object_of (subject_of place.table place.row cell.now) }
{
    match &cell.about {
        Some(iri) => TermRef::Named(iri),
        None => TermRef::Blank(Origin::Subject(place.table, place.row)),
    }
}

/// Lends a subject and a predicate: the row and the one that is given.
pub(crate) fn row_stem(place: RowPlace, predicate: &Iri) -> Stem<'_>
    ensures s { node_of result.s ≡ row_node place.table place.row }
    ensures p { result.p.now ≡ predicate.now }
{
    Stem {
        s: NodeRef::Blank(Origin::Row(place.table, place.row)),
        p: predicate,
    }
}

/// Writes the fragment of a row, its place in its source, over a text.
fn refill_fragment(text: &mut Text, source: u64) -> Result<(), AllocError>
    ensures { OnOk result (text.new ≡ row_fragment source) }
{
    let mut digits = Buffer::new();
    text.refill("row=")?;
    text.push_str(digits.format(source))
}

fn same_about(a: &Option<Iri>, b: &Option<Iri>) -> bool
    ensures { result ≡ same_about a.now b.now }
{
    match (a, b) {
        (None, None) => true,
        (Some(x), Some(y)) => x.as_str() == y.as_str(),
        (Some(_), None) | (None, Some(_)) => false,
    }
}

fn is_described(last: Option<&AnnCell>, cell: &AnnCell) -> bool
    ensures { result ≡ is_described (option_copied last.entry) cell.now }
{
    match last {
        Some(before) => same_about(&before.about, &cell.about),
        None => false,
    }
}

/// Returns the last cell whose column is not suppressed, after one more cell.
fn last_after<'a>(
    column: &Column,
    last: Option<&'a AnnCell>,
    cell: &'a AnnCell,
) -> Option<&'a AnnCell>
    ensures { option_copied result ≡ last_after column.now (option_copied last.entry) cell.now }
{
    if column.suppressed { last } else { Some(cell) }
}

impl Emitter {
    /// Makes its address the IRI of a row: the URL of its table and its place in its source.
    fn refill_address(&mut self, columns: &Columns, row: &Row) -> Result<(), AllocError>
        ensures { OnOk result (self.new.address ≡ row_url columns.now row.now) }
    {
        refill_fragment(&mut self.fragment, row.source)?;
        let url = columns.url.iri();
        self.address
            .refill_with_fragment(self.alloc, url, self.fragment.as_str())
    }

    fn emit_member<S: TripleSink>(
        &self,
        columns: &Columns,
        place: RowPlace,
        sink: &mut S,
    ) -> Result<(), SinkFault>
        ensures { Puts S.gains S.cuts S.is_open S.failed sink.old (member_triple place.table columns.now place.row ∷ []) sink.new result }
    {
        let stem = Stem {
            s: table_node_ref(place.table, &columns.id),
            p: &self.csvw.row,
        };
        let row = TermRef::Blank(Origin::Row(place.table, place.row));
        put_object(self.alloc, stem, row, sink)
    }

    fn emit_class<S: TripleSink>(&self, place: RowPlace, sink: &mut S) -> Result<(), SinkFault>
        ensures { Puts S.gains S.cuts S.is_open S.failed sink.old (class_triple place.table place.row ∷ []) sink.new result }
    {
        let stem = row_stem(place, &self.csvw.rdf_type);
        put_object(self.alloc, stem, TermRef::Named(&self.csvw.row_class), sink)
    }

    fn emit_number<S: TripleSink>(&self, place: RowPlace, sink: &mut S) -> Result<(), SinkFault>
        ensures { Puts S.gains S.cuts S.is_open S.failed sink.old (number_triple place.table place.row ∷ []) sink.new result }
    {
        let mut digits = Buffer::new();
        let literal = typed(digits.format(place.row), &self.csvw.integer);
        let stem = row_stem(place, &self.csvw.rownum);
        put_object(self.alloc, stem, TermRef::Literal(literal), sink)
    }

    fn emit_url<S: TripleSink>(
        &mut self,
        columns: &Columns,
        t: u32,
        row: &Row,
        sink: &mut S,
    ) -> Result<(), SinkFault>
        ensures { Puts S.gains S.cuts S.is_open S.failed sink.old (url_triple t columns.now row.now ∷ []) sink.new result }
    {
        self.refill_address(columns, row)?;
        let place = RowPlace {
            table: t,
            row: row.number,
        };
        let names = &self.csvw;
        let stem = row_stem(place, &names.url);
        put_object(self.alloc, stem, TermRef::Named(&self.address), sink)
    }

    /// Writes that the table has the row, and the class of the row.
    fn emit_kind<S: TripleSink>(
        &self,
        columns: &Columns,
        place: RowPlace,
        sink: &mut S,
    ) -> Result<(), SinkFault>
        ensures { Puts S.gains S.cuts S.is_open S.failed sink.old
            (member_triple place.table columns.now place.row ∷ class_triple place.table place.row ∷ []) sink.new result }
    {
        self.emit_member(columns, place, sink)?;
        self.emit_class(place, sink)
    }

    /// Writes the number of the row and its place in its source.
    fn emit_source<S: TripleSink>(
        &mut self,
        columns: &Columns,
        t: u32,
        row: &Row,
        sink: &mut S,
    ) -> Result<(), SinkFault>
        ensures { Puts S.gains S.cuts S.is_open S.failed sink.old
            (number_triple t row.now.number ∷ url_triple t columns.now row.now ∷ []) sink.new result }
    {
        let place = RowPlace {
            table: t,
            row: row.number,
        };
        self.emit_number(place, sink)?;
        self.emit_url(columns, t, row, sink)
    }

    fn emit_front<S: TripleSink>(
        &mut self,
        columns: &Columns,
        t: u32,
        row: &Row,
        sink: &mut S,
    ) -> Result<(), SinkFault>
        ensures { Puts S.gains S.cuts S.is_open S.failed sink.old (row_front t columns.now row.now) sink.new result }
    {
        let place = RowPlace {
            table: t,
            row: row.number,
        };
        self.emit_kind(columns, place, sink)?;
        self.emit_source(columns, t, row, sink)
    }

    fn emit_describes<S: TripleSink>(
        &self,
        place: RowPlace,
        last: Option<&AnnCell>,
        cell: &AnnCell,
        sink: &mut S,
    ) -> Result<(), SinkFault>
        ensures { Puts S.gains S.cuts S.is_open S.failed sink.old
            (describes_triples place.table place.row (option_copied last.entry) cell.now) sink.new result }
    {
        if is_described(last, cell) {
            return Ok(());
        }
        let stem = row_stem(place, &self.csvw.describes);
        put_object(self.alloc, stem, subject_as_object(place, cell), sink)
    }

    /// Writes what a cell adds to what the row describes, and then the triples of the cell.
    fn emit_described<S: TripleSink>(
        &mut self,
        place: RowPlace,
        column: &Column,
        last: Option<&AnnCell>,
        cell: &AnnCell,
        sink: &mut S,
    ) -> Result<(), SinkFault>
        requires { HasForm cell.now.value }
        ensures { Puts S.gains S.cuts S.is_open S.failed sink.old
            (described_triples place.table place.row column.now (option_copied last.entry) cell.now) sink.new result }
    {
        if column.suppressed {
            return Ok(());
        }
        self.emit_describes(place, last, cell, sink)?;
        self.emit_cell(place, column, cell, sink)
    }

    fn emit_all_described<S: TripleSink>(
        &mut self,
        place: RowPlace,
        columns: &[Column],
        cells: &[AnnCell],
        sink: &mut S,
    ) -> Result<(), SinkFault>
        requires places { length cells.now ≡ length columns.now }
        requires forms { CellsHaveForms cells.now }
        ensures { Puts S.gains S.cuts S.is_open S.failed sink.old
            (described_cells place.table place.row None (zip columns.now cells.now)) sink.new result }
    {
        let mut last: Option<&AnnCell> = None;
        for i in 0..cells.len() {
            let column = &columns[i];
            let cell = &cells[i];
            self.emit_described(place, column, last, cell, sink)?;
            last = last_after(column, last, cell);
        }
        Ok(())
    }

    /// Writes the titles of a row, and then the triples of its cells with what it describes.
    fn emit_contents<S: TripleSink>(
        &mut self,
        place: RowPlace,
        columns: &[Column],
        cells: &[AnnCell],
        sink: &mut S,
    ) -> Result<(), SinkFault>
        requires places { length cells.now ≡ length columns.now }
        requires forms { CellsHaveForms cells.now }
        ensures { Puts S.gains S.cuts S.is_open S.failed sink.old
            (row_contents place.table place.row columns.now cells.now) sink.new result }
    {
        self.emit_titles(place, columns, cells, sink)?;
        self.emit_all_described(place, columns, cells, sink)
    }

    /// Writes the triples of a row of table `t` in standard mode, in their order (csv2rdf, section 4.2). The values
    /// of the row have lexical forms.
    pub(crate) fn emit_standard<S: TripleSink>(
        &mut self,
        columns: &Columns,
        t: u32,
        row: &Row,
        sink: &mut S,
    ) -> Result<(), SinkFault>
        requires places { length row.now.cells ≡ length columns.now.columns }
        requires forms { HasForms row.now }
        ensures { Puts S.gains S.cuts S.is_open S.failed sink.old (standard_triples t columns.now row.now) sink.new result }
    {
        if columns.suppressed {
            return Ok(());
        }
        let place = RowPlace {
            table: t,
            row: row.number,
        };
        self.emit_front(columns, t, row, sink)?;
        self.emit_contents(
            place,
            columns.columns.as_slice(),
            row.cells.as_slice(),
            sink,
        )
    }
}
