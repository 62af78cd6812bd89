//! Laws of pieces of a table. A call of a law does nothing.
ghost use Rattle.csvw_parts.specs.Joining.{PiecesJoin};

/// A law: the triples and the faults of the rows of two pieces, one after the other, are those of all their rows.
/// Their annotated rows are those of all their rows, too.
pub fn pieces_join()
    ensures { PiecesJoin }
{}
