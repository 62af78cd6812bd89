//! Laws about the triples of rows.
ghost use Rattle.std.specs.Prelude.{ℕ, List, ◌↔◌, Contains, flat_map, Some};
ghost use Rattle.csvw_columns_core.specs.declared.columns.Columns.{Columns as TheColumns};
ghost use Rattle.csvw_annotate.specs.declared.row.Row.{Row as TheRow};
ghost use Rattle.csvw_triples_core.specs.declared.mode.Mode.{Mode as TheMode};
ghost use Rattle.csvw_triples_core.specs.declared.term.Triple.{Triple as TheTriple};
ghost use Rattle.csvw_triples_rows.specs.ModeGraph.{RowGraph, TableGraph};
ghost use Rattle.csvw_triples_rows.specs.ModeTriples.{row_triples};

/// The triples of a row are its graph in each mode (csv2rdf, section 4.2).
pub fn row_triples_are_row_graph()
    ensures { (m : TheMode) (t : ℕ) (columns : TheColumns) (row : TheRow) (x : TheTriple)
        → Contains (row_triples m t columns row) x ↔ RowGraph m t columns row x }
{}

/// The triples of all rows of a table are the graph of these rows in each mode (csv2rdf, section 4.2).
pub fn rows_triples_are_table_graph()
    ensures { (m : TheMode) (t : ℕ) (columns : TheColumns) (rows : List TheRow) (x : TheTriple)
        → Contains (flat_map (row_triples m t columns) rows) x ↔ TableGraph m t (Some columns) rows x }
{}
