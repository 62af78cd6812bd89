//! Laws of the parts of a group. A call of a law does nothing.
ghost use Rattle.csvw_join_laws.specs.AllParts.{RunsJoin};
ghost use Rattle.csvw_join_laws.specs.Finding.{FindRows};
ghost use Rattle.csvw_join_laws.specs.Joining.{PartsJoin};
ghost use Rattle.csvw_join_laws.specs.Keys.{KeysJoin};
ghost use Rattle.csvw_join_laws.specs.PlanPieces.{CutsArePieces};
ghost use Rattle.csvw_join_laws.specs.Running.{PartsGive};
ghost use Rattle.csvw_parts.specs.Fronts.{opener_of};
ghost use Rattle.csvw_parts.specs.Outlets.{outs};

use csvw_group_laws::laws::texts_have_one_annotation;
use csvw_opener::Opener;
use csvw_part_laws::laws::{numbers_go_on, rows_of_parts};
use csvw_records::laws::{have_one_list, record_laws};
use csvw_row_keys::laws::{parts_have_all_records, records_find_faults_of_parts, sources_ascend};
use csvw_triples::{opening_is_the_graphs, rows_triples_are_table_graph};
use csvw_triples_core::TripleSink;
use std::io::{Read, Write};

/// A law: the triples and the faults of all parts, joined, are those of the whole group.
pub fn parts_join()
    ensures { PartsJoin }
{}

/// A law: the faults of all parts, and those of the joined records of their rows, are the violations of the group.
pub fn keys_join()
    ensures { KeysJoin }
{
    sources_ascend();
    records_find_faults_of_parts();
}

/// A law: the pieces of a plan that `split` returns are those of the annotated tables, part by part.
pub fn cuts_are_pieces<R: Read>()
    ensures { CutsArePieces R.remaining }
{
    rows_of_parts();
    numbers_go_on();
}

/// A law: before each piece of a part that ran come the bytes of its file before it, so the part gives the rows of its pieces.
pub fn parts_give<O: Opener, S: TripleSink, W: Write + Drop>()
    ensures { PartsGive (opener_of O.opens O.opens_at O.closes O.Reader.remaining) (outs S.gains S.is_open S.failed W.contents) }
{
    record_laws();
    rows_of_parts();
    numbers_go_on();
}

/// A law: the rows that a part finds up to a later piece are the first rows of the table, and those up to the end of the file are all.
pub fn find_rows()
    ensures { FindRows }
{
    have_one_list();
    texts_have_one_annotation();
    rows_of_parts();
    numbers_go_on();
}

/// A law: the runs of all parts over a plan that `split` returns are, together, the whole group: its triples in order, its records and
/// its violations.
pub fn runs_join<F: Read, O: Opener, S: TripleSink, W: Write + Drop>()
    ensures { RunsJoin F.remaining (opener_of O.opens O.opens_at O.closes O.Reader.remaining) (outs S.gains S.is_open S.failed W.contents) }
{
    find_rows();
    parts_give::<O, S, W>();
    cuts_are_pieces::<F>();
    parts_join();
    keys_join();
    parts_have_all_records();
    opening_is_the_graphs();
    rows_triples_are_table_graph();
}
