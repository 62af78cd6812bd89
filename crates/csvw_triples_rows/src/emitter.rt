//! Writes the triples of rows into a sink.
//!
//! An `Emitter` lends the parts of each triple to the sink: IRIs and texts of the row, and names of its own.
ghost use Rattle.std.specs.Prelude.{◌≡◌, [], ◌∷◌, length, map, IfErr, OnOk};
ghost use Rattle.csvw_datatype.specs.Lexical.{IsWritable, lexical_of};
ghost use Rattle.csvw_triples_core.specs.Taking.{FrontOf, Ends};
ghost use Rattle.csvw_triples_core.specs.Lent.{node_of, term_of};
ghost use Rattle.csvw_triples_core.specs.declared.term.Node.TheVariants as node;
ghost use Rattle.csvw_triples_core.specs.declared.term.Term.TheVariants as term;
ghost use Rattle.csvw_cell.specs.HasForm.{HaveForms, HasForm};
ghost use Rattle.csvw_annotate.specs.HasForms.{CellsHaveForms, HasForms};
ghost use Rattle.csvw_triples_rows.specs.Literals.{literal_of};
ghost use Rattle.csvw_triples_rows.specs.Puts.{Puts};
ghost use Rattle.csvw_triples_rows.specs.Spelled.{spelled};
ghost use Rattle.csvw_triples_rows.specs.Stems.{object_triple, literal_triple, entries_in, node_from, entry_triples};
ghost use Rattle.csvw_triples_rows.specs.RowTriples.{triple, subject_of, predicate_of, entries_of, list_node, list_triples, items_triples, value_triples};
ghost use Rattle.csvw_triples_rows.specs.RowTriples.{object_triples, cell_triples, cells_triples, minimal_triples};
ghost use Rattle.csvw_triples_rows.specs.ModeTriples.{row_triples};
ghost use Rattle.csvw_triples_rows.specs.Vocabulary.{rdf_first, rdf_rest};

use crate::csvw_names::CsvwNames;
use crate::literals::{literal_of, spell, spelled};
use crate::putting::put_object;
use crate::rdf::RdfNames;
use crate::stem::{ListPlace, RowPlace, Stem};
use csvw_annotate::{AnnCell, Row};
use csvw_cell::{CellValue, Item};
use csvw_columns_core::{Column, Columns};
use csvw_iri::Iri;
use csvw_text::{Text, both};
use csvw_triples_core::{Mode, NodeRef, Origin, SinkFault, TermRef, TripleSink};
use std::alloc::{AllocError, Global};

/// Writes the triples of rows into sinks. It keeps the memory of one lexical form and of one row's IRI from row to
/// row.
#[derive(Debug, Drop)]
pub struct Emitter {
    /// Where its memory comes from.
    pub(crate) alloc: Global,
    /// The names of RDF.
    pub(crate) names: RdfNames,
    /// The names of CSVW.
    pub(crate) csvw: CsvwNames,
    /// The lexical form of the last value that was no text. The next one is written over it.
    pub(crate) form: Text,
    /// The fragment of a row's IRI: its place in its source.
    pub(crate) fragment: Text,
    /// The IRI of the row that was written last. The next one is made in its memory.
    pub(crate) address: Iri,
}

impl Emitter {
    /// Makes an emitter. Fails with `AllocError` if memory runs out.
    pub fn new(alloc: Global) -> Result<Emitter, AllocError> {
        let names = both(RdfNames::new(alloc), CsvwNames::new(alloc));
        let (names, csvw) = names?;
        let address = csvw.row.clone(alloc)?;
        Ok(Emitter {
            alloc,
            names,
            csvw,
            form: Text::new(alloc),
            fragment: Text::new(alloc),
            address,
        })
    }

    /// Makes an emitter on the heap, so that its owner drops it with one call. Fails with `AllocError` if memory
    /// runs out.
    pub fn boxed(alloc: Global) -> Result<Box<Emitter>, AllocError> {
        Ok(Box::new(alloc, Emitter::new(alloc)?)?)
    }

    /// Writes the triple of an item. `spell` wrote the lexical form of its value.
    #[inline(always)]
    fn put_item<S: TripleSink>(
        &self,
        stem: Stem<'_>,
        column: &Column,
        item: &Item,
        sink: &mut S,
    ) -> Result<(), SinkFault>
        requires { spelled item.now.value self.now.form ≡ lexical_of item.now.value }
        ensures { Puts S.gains S.cuts S.is_open S.failed sink.old (literal_triple stem.entry column.now item.now ∷ []) sink.new result }
    {
        let text = spelled(&item.value, &self.form);
        let literal = literal_of(&self.names, column, item, text);
        put_object(self.alloc, stem, TermRef::Literal(literal), sink)
    }

    #[inline(always)]
    fn emit_item<S: TripleSink>(
        &mut self,
        stem: Stem<'_>,
        column: &Column,
        item: &Item,
        sink: &mut S,
    ) -> Result<(), SinkFault>
        requires { IsWritable item.now.value }
        ensures { Puts S.gains S.cuts S.is_open S.failed sink.old (literal_triple stem.entry column.now item.now ∷ []) sink.new result }
    {
        spell(&mut self.form, &item.value)?;
        self.put_item(stem, column, item, sink)
    }

    fn emit_items<S: TripleSink>(
        &mut self,
        stem: Stem<'_>,
        column: &Column,
        items: &[Item],
        sink: &mut S,
    ) -> Result<(), SinkFault>
        requires { HaveForms items.now }
        ensures { Puts S.gains S.cuts S.is_open S.failed sink.old (map (literal_triple stem.entry column.now) items.now) sink.new result }
    {
        for i in 0..items.len() {
            self.emit_item(stem, column, &items[i], sink)?;
        }
        Ok(())
    }

    /// Lends the node of a list, by its first entry.
    fn list_node(&self, entry: Option<Origin>) -> TermRef<'_>
        ensures { term_of result ≡ node_from entry }
    {
        match entry {
            Some(origin) => TermRef::Blank(origin),
            None => TermRef::Named(&self.names.nil),
        }
    }

    fn first_stem(&self, entry: Origin) -> Stem<'_>
        ensures s { node_of result.s ≡ node.Blank entry }
        ensures p { result.p.now ≡ rdf_first }
    {
        Stem {
            s: NodeRef::Blank(entry),
            p: &self.names.first,
        }
    }

    fn rest_stem(&self, entry: Origin) -> Stem<'_>
        ensures s { node_of result.s ≡ node.Blank entry }
        ensures p { result.p.now ≡ rdf_rest }
    {
        Stem {
            s: NodeRef::Blank(entry),
            p: &self.names.rest,
        }
    }

    /// Writes the triple that says that an item is the first of an entry.
    fn emit_first<S: TripleSink>(
        &mut self,
        entry: Origin,
        column: &Column,
        item: &Item,
        sink: &mut S,
    ) -> Result<(), SinkFault>
        requires { IsWritable item.now.value }
        ensures { Puts S.gains S.cuts S.is_open S.failed sink.old
            (triple (node.Blank entry) rdf_first (term.Literal (literal_of column.now item.now)) ∷ []) sink.new result }
    {
        spell(&mut self.form, &item.value)?;
        self.put_item(self.first_stem(entry), column, item, sink)
    }

    /// Writes the triple that says what the rest of an entry is, by the entry after it.
    fn emit_rest<S: TripleSink>(
        &self,
        entry: Origin,
        next: Option<Origin>,
        sink: &mut S,
    ) -> Result<(), SinkFault>
        ensures { Puts S.gains S.cuts S.is_open S.failed sink.old (triple (node.Blank entry) rdf_rest (node_from next) ∷ []) sink.new result }
    {
        put_object(
            self.alloc,
            self.rest_stem(entry),
            self.list_node(next),
            sink,
        )
    }

    /// Writes the triples of an entry, by the entry after it.
    fn emit_entry<S: TripleSink>(
        &mut self,
        entry: Origin,
        column: &Column,
        item: &Item,
        next: Option<Origin>,
        sink: &mut S,
    ) -> Result<(), SinkFault>
        requires { IsWritable item.now.value }
        ensures { Puts S.gains S.cuts S.is_open S.failed sink.old (entry_triples entry column.now item.now next) sink.new result }
    {
        self.emit_first(entry, column, item, sink)?;
        self.emit_rest(entry, next, sink)
    }

    fn emit_entries<S: TripleSink>(
        &mut self,
        place: ListPlace,
        column: &Column,
        items: &[Item],
        sink: &mut S,
    ) -> Result<(), SinkFault>
        requires { HaveForms items.now }
        ensures { Puts S.gains S.cuts S.is_open S.failed sink.old (list_triples (entries_in place) column.now 1 items.now) sink.new result }
    {
        for i in 0..items.len() {
            let k = i as u64 + 1;
            let next = place.entry_after(k, items.len());
            self.emit_entry(place.entry(k), column, &items[i], next, sink)?;
        }
        Ok(())
    }

    fn emit_list<S: TripleSink>(
        &mut self,
        stem: Stem<'_>,
        place: ListPlace,
        column: &Column,
        items: &[Item],
        sink: &mut S,
    ) -> Result<(), SinkFault>
        requires { HaveForms items.now }
        ensures { Puts S.gains S.cuts S.is_open S.failed sink.old
            (object_triple stem.entry (list_node (entries_in place) 1 items.now)
            ∷ list_triples (entries_in place) column.now 1 items.now) sink.new result }
    {
        let first = place.entry_after(0, items.len());
        put_object(self.alloc, stem, self.list_node(first), sink)?;
        self.emit_entries(place, column, items, sink)
    }

    fn emit_many<S: TripleSink>(
        &mut self,
        stem: Stem<'_>,
        place: ListPlace,
        column: &Column,
        items: &[Item],
        sink: &mut S,
    ) -> Result<(), SinkFault>
        requires { HaveForms items.now }
        ensures { Puts S.gains S.cuts S.is_open S.failed sink.old
            (items_triples (node_of stem.entry.s) stem.entry.p.now (entries_in place) column.now items.now) sink.new result }
    {
        if column.properties.ordered {
            self.emit_list(stem, place, column, items, sink)
        } else {
            self.emit_items(stem, column, items, sink)
        }
    }

    fn emit_value<S: TripleSink>(
        &mut self,
        stem: Stem<'_>,
        place: ListPlace,
        column: &Column,
        value: &CellValue,
        sink: &mut S,
    ) -> Result<(), SinkFault>
        requires { HasForm value.now }
        ensures { Puts S.gains S.cuts S.is_open S.failed sink.old
            (value_triples (node_of stem.entry.s) stem.entry.p.now (entries_in place) column.now value.now) sink.new result }
    {
        match value {
            CellValue::Null => Ok(()),
            CellValue::One(item) => self.emit_item(stem, column, item, sink),
            CellValue::Many(items) => self.emit_many(stem, place, column, items.as_slice(), sink),
        }
    }

    fn emit_objects<S: TripleSink>(
        &mut self,
        stem: Stem<'_>,
        place: ListPlace,
        column: &Column,
        cell: &AnnCell,
        sink: &mut S,
    ) -> Result<(), SinkFault>
        requires { HasForm cell.now.value }
        ensures { Puts S.gains S.cuts S.is_open S.failed sink.old
            (object_triples (node_of stem.entry.s) stem.entry.p.now (entries_in place) column.now cell.now.value cell.now.link) sink.new result }
    {
        match &cell.link {
            Some(link) => put_object(self.alloc, stem, TermRef::Named(link), sink),
            None => self.emit_value(stem, place, column, &cell.value, sink),
        }
    }

    /// Writes the triples of a cell whose column is not suppressed.
    #[inline(never)]
    fn emit_any<S: TripleSink>(
        &mut self,
        place: RowPlace,
        column: &Column,
        cell: &AnnCell,
        sink: &mut S,
    ) -> Result<(), SinkFault>
        requires { HasForm cell.now.value }
        ensures { Puts S.gains S.cuts S.is_open S.failed sink.old
            (object_triples (subject_of place.table place.row cell.now) (predicate_of column.now cell.now)
            (entries_of place.table place.row column.now) column.now cell.now.value cell.now.link) sink.new result }
    {
        let stem = Stem::of(place, column, cell);
        let list = ListPlace {
            table: place.table,
            row: place.row,
            column: column.number,
        };
        self.emit_objects(stem, list, column, cell, sink)
    }

    /// Writes the triple of a cell that has one value.
    #[inline(always)]
    fn emit_single<S: TripleSink>(
        &mut self,
        place: RowPlace,
        column: &Column,
        cell: &AnnCell,
        item: &Item,
        sink: &mut S,
    ) -> Result<(), SinkFault>
        requires { IsWritable item.now.value }
        ensures { Puts S.gains S.cuts S.is_open S.failed sink.old
            (triple (subject_of place.table place.row cell.now) (predicate_of column.now cell.now)
            (term.Literal (literal_of column.now item.now)) ∷ []) sink.new result }
    {
        self.emit_item(Stem::of(place, column, cell), column, item, sink)
    }

    #[inline(always)]
    pub(crate) fn emit_cell<S: TripleSink>(
        &mut self,
        place: RowPlace,
        column: &Column,
        cell: &AnnCell,
        sink: &mut S,
    ) -> Result<(), SinkFault>
        requires { HasForm cell.now.value }
        ensures { Puts S.gains S.cuts S.is_open S.failed sink.old (cell_triples place.table place.row column.now cell.now) sink.new result }
    {
        if column.suppressed {
            return Ok(());
        }
        // Most cells have one value and no value link.
        match (&cell.link, &cell.value) {
            (None, CellValue::One(item)) => self.emit_single(place, column, cell, item, sink),
            _ => self.emit_any(place, column, cell, sink),
        }
    }

    fn emit_cells<S: TripleSink>(
        &mut self,
        place: RowPlace,
        columns: &[Column],
        cells: &[AnnCell],
        sink: &mut S,
    ) -> Result<(), SinkFault>
        requires places { length cells.now ≡ length columns.now }
        requires forms { CellsHaveForms cells.now }
        ensures { Puts S.gains S.cuts S.is_open S.failed sink.old (cells_triples place.table place.row columns.now cells.now) sink.new result }
    {
        for i in 0..cells.len() {
            self.emit_cell(place, &columns[i], &cells[i], sink)?;
        }
        Ok(())
    }

    fn emit_minimal<S: TripleSink>(
        &mut self,
        columns: &Columns,
        t: u32,
        row: &Row,
        sink: &mut S,
    ) -> Result<(), SinkFault>
        requires places { length row.now.cells ≡ length columns.now.columns }
        requires forms { HasForms row.now }
        ensures { Puts S.gains S.cuts S.is_open S.failed sink.old (minimal_triples t columns.now row.now) sink.new result }
    {
        if columns.suppressed {
            return Ok(());
        }
        let place = RowPlace {
            table: t,
            row: row.number,
        };
        self.emit_cells(
            place,
            columns.columns.as_slice(),
            row.cells.as_slice(),
            sink,
        )
    }

    fn emit<S: TripleSink>(
        &mut self,
        columns: &Columns,
        mode: Mode,
        t: u32,
        row: &Row,
        sink: &mut S,
    ) -> Result<(), SinkFault>
        requires places { length row.now.cells ≡ length columns.now.columns }
        requires forms { HasForms row.now }
        ensures { Puts S.gains S.cuts S.is_open S.failed sink.old (row_triples mode t columns.now row.now) sink.new result }
    {
        match mode {
            Mode::Validate => Ok(()),
            Mode::Minimal => self.emit_minimal(columns, t, row, sink),
            Mode::Standard => self.emit_standard(columns, t, row, sink),
        }
    }

    /// Writes the triples of a row of table `t` by the mode, in their order (csv2rdf, section 4.2). The values of
    /// the row have lexical forms.
    ///
    /// - Mode `Validate` has no triples.
    /// - Mode `Minimal` has the triples of the cells, in the order of the cells.
    /// - Mode `Standard` has the triples about the row first, and then its titles. Before the triples of a cell it
    ///   has what the cell adds to what the row describes.
    ///
    /// The fault is one that the sink returned in this call, or `Memory`. After an error the sink took a front of
    /// the triples, each of them whole. After `Device` the device failed within the next triple.
    pub fn emit_row<S: TripleSink>(
        &mut self,
        columns: &Columns,
        mode: Mode,
        t: u32,
        row: &Row,
        sink: &mut S,
    ) -> Result<(), SinkFault>
        requires places { length row.now.cells ≡ length columns.now.columns }
        requires forms { HasForms row.now }
        ensures ok { OnOk result (S.gains sink.old (row_triples mode t columns.now row.now) sink.new) }
        ensures err { IfErr result (λ fault. FrontOf S.gains S.cuts sink.old (row_triples mode t columns.now row.now) sink.new
            (fault ≡ SinkFault.Device)) }
        ensures sink { Ends S.is_open S.failed sink.old sink.new result }
    {
        self.emit(columns, mode, t, row, sink)
    }
}

/// Writes the triples of one row, as `Emitter::emit_row` does. It fails as that does.
pub fn emit_row<S: TripleSink>(
    alloc: Global,
    columns: &Columns,
    mode: Mode,
    t: u32,
    row: &Row,
    sink: &mut S,
) -> Result<(), SinkFault>
    requires places { length row.now.cells ≡ length columns.now.columns }
    requires forms { HasForms row.now }
    ensures ok { OnOk result (S.gains sink.old (row_triples mode t columns.now row.now) sink.new) }
    ensures err { IfErr result (λ fault. FrontOf S.gains S.cuts sink.old (row_triples mode t columns.now row.now) sink.new
        (fault ≡ SinkFault.Device)) }
    ensures sink { Ends S.is_open S.failed sink.old sink.new result }
{
    let mut emitter = Emitter::boxed(alloc)?;
    emitter.emit_row(columns, mode, t, row, sink)
}
