//! Writes the titles of rows into a sink.
ghost use Rattle.std.specs.Prelude.{◌≡◌, [], ◌∷◌, length, map};
ghost use Rattle.csvw_datatype.specs.Lexical.{IsWritable, lexical_of};
ghost use Rattle.csvw_cell.specs.HasForm.{HaveForms, HasForm};
ghost use Rattle.csvw_annotate.specs.HasForms.{CellsHaveForms};
ghost use Rattle.csvw_triples_rows.specs.Puts.{Puts};
ghost use Rattle.csvw_triples_rows.specs.Spelled.{spelled};
ghost use Rattle.csvw_triples_rows.specs.RowTitles.{title_triple, value_titles, title_triples, titles_triples};

use crate::emitter::Emitter;
use crate::literals::{spell, spelled, title_literal};
use crate::putting::put_object;
use crate::standard::row_stem;
use crate::stem::RowPlace;
use csvw_annotate::AnnCell;
use csvw_cell::{CellValue, Item};
use csvw_columns_core::Column;
use csvw_triples_core::{SinkFault, TermRef, TripleSink};

impl Emitter {
    /// Writes the title that an item is. `spell` wrote the lexical form of its value.
    fn put_title<S: TripleSink>(
        &self,
        place: RowPlace,
        column: &Column,
        item: &Item,
        sink: &mut S,
    ) -> Result<(), SinkFault>
        requires { spelled item.now.value self.now.form ≡ lexical_of item.now.value }
        ensures { Puts S.gains S.cuts S.is_open S.failed sink.old (title_triple place.table place.row column.now item.now ∷ []) sink.new result }
    {
        let text = spelled(&item.value, &self.form);
        let literal = title_literal(&self.names, column, item, text);
        let stem = row_stem(place, &self.csvw.title);
        put_object(self.alloc, stem, TermRef::Literal(literal), sink)
    }

    fn emit_title<S: TripleSink>(
        &mut self,
        place: RowPlace,
        column: &Column,
        item: &Item,
        sink: &mut S,
    ) -> Result<(), SinkFault>
        requires { IsWritable item.now.value }
        ensures { Puts S.gains S.cuts S.is_open S.failed sink.old (title_triple place.table place.row column.now item.now ∷ []) sink.new result }
    {
        spell(&mut self.form, &item.value)?;
        self.put_title(place, column, item, sink)
    }

    fn emit_each_title<S: TripleSink>(
        &mut self,
        place: RowPlace,
        column: &Column,
        items: &[Item],
        sink: &mut S,
    ) -> Result<(), SinkFault>
        requires { HaveForms items.now }
        ensures { Puts S.gains S.cuts S.is_open S.failed sink.old
            (map (title_triple place.table place.row column.now) items.now) sink.new result }
    {
        for i in 0..items.len() {
            self.emit_title(place, column, &items[i], sink)?;
        }
        Ok(())
    }

    /// Writes the titles that the value of a cell is.
    #[inline(never)]
    fn emit_value_titles<S: TripleSink>(
        &mut self,
        place: RowPlace,
        column: &Column,
        value: &CellValue,
        sink: &mut S,
    ) -> Result<(), SinkFault>
        requires { HasForm value.now }
        ensures { Puts S.gains S.cuts S.is_open S.failed sink.old
            (value_titles place.table place.row column.now value.now) sink.new result }
    {
        match value {
            CellValue::Null => Ok(()),
            CellValue::One(item) => self.emit_title(place, column, item, sink),
            CellValue::Many(items) => self.emit_each_title(place, column, items.as_slice(), sink),
        }
    }

    /// Writes the titles of a cell, if its column is one of the row titles.
    #[inline(always)]
    fn emit_cell_titles<S: TripleSink>(
        &mut self,
        place: RowPlace,
        column: &Column,
        cell: &AnnCell,
        sink: &mut S,
    ) -> Result<(), SinkFault>
        requires { HasForm cell.now.value }
        ensures { Puts S.gains S.cuts S.is_open S.failed sink.old
            (title_triples place.table place.row column.now cell.now) sink.new result }
    {
        if column.is_row_title {
            self.emit_value_titles(place, column, &cell.value, sink)
        } else {
            Ok(())
        }
    }

    /// Writes the titles of a row, in the order of its columns (csv2rdf, section 4.6). The values of the cells have
    /// lexical forms.
    pub(crate) fn emit_titles<S: TripleSink>(
        &mut self,
        place: RowPlace,
        columns: &[Column],
        cells: &[AnnCell],
        sink: &mut S,
    ) -> Result<(), SinkFault>
        requires places { length cells.now ≡ length columns.now }
        requires forms { CellsHaveForms cells.now }
        ensures { Puts S.gains S.cuts S.is_open S.failed sink.old
            (titles_triples place.table place.row columns.now cells.now) sink.new result }
    {
        for i in 0..cells.len() {
            self.emit_cell_titles(place, &columns[i], &cells[i], sink)?;
        }
        Ok(())
    }
}
