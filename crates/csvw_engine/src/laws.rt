//! Laws about what sessions and runs write. A call of a law does nothing.
ghost use Rattle.std.specs.Prelude.{◌≡◌, ◌++◌, ℕ, true, List, [], Result};
ghost use Rattle.csvw_streams.specs.Streams.{Stream};
ghost use Rattle.csvw_streams.specs.declared.counted.Counted.{Counted as TheCounted};
ghost use Rattle.csvw_meta.specs.Document.{Document};
ghost use Rattle.csvw_columns.specs.declared.plan.Plan.{Plan as ThePlan};
ghost use Rattle.csvw_triples_core.specs.Taking.{IsAsReady};
ghost use Rattle.csvw_triples_core.specs.declared.mode.Mode.{Mode as TheMode};
ghost use Rattle.csvw_ntriples.specs.NtSink.{sink_is_open};
ghost use Rattle.csvw_ntriples.specs.declared.nt_sink.NtSink.{NtSink as TheSink};
ghost use Rattle.csvw_report.specs.declared.outcome.Outcome.{Outcome as TheOutcome};
ghost use Rattle.csvw_session.specs.Events.{Event};
ghost use Rattle.csvw_session.specs.Finishing.{Finishes, IsUnfinishedInOrder};
ghost use Rattle.csvw_session.specs.Refusing.{Refuses};
ghost use Rattle.csvw_session.specs.Sessions.{IsRefusedInOrder, Takes};
ghost use Rattle.csvw_session.specs.declared.session.Session.{Session as TheSession};
ghost use Rattle.csvw_session.specs.declared.state.State.TheVariants as state;
ghost use Rattle.csvw_engine_core.specs.declared.stop.Stop.{Stop as TheStop};
ghost use Rattle.csvw_engine_core.specs.declared.stop.Stop.TheVariants as stop;
ghost use Rattle.csvw_triples.specs.OpeningTriples.{opening};
ghost use Rattle.csvw_group_laws.specs.Stopped.{TookAll, TookSome};
ghost use Rattle.csvw_engine.specs.GoodRuns.{IsOkOrLacks, ReadGoodTables};
ghost use Rattle.csvw_engine.specs.Lines.{cuts_lines, gains_lines, line_failures, writer_of};
ghost use Rattle.csvw_engine.specs.Rooms.{IsOrder};
ghost use Rattle.csvw_engine.specs.Runs.{Runs};
ghost use Rattle.csvw_engine.specs.Stopped.{WroteAll, WroteSome};
ghost use Rattle.csvw_engine.specs.declared.room.Order.{Order as TheOrder};

use crate::read_laws::reads_are_bytes;
use csvw_group_laws::laws::good_texts_are_accepted;
use csvw_meta::laws::groups_have_no_faults;
use csvw_ntriples::{labels_name_one_to_one, written_denotes};
use csvw_triples::opening_is_the_graphs;
use csvw_triples_core::TripleSink;
use std::io::{Read, Write};

/// What a session has written over an N-Triples sink that was open. `csvw_group_laws::laws` say which triples its sink
/// took. The bytes are whole lines that denote these triples. After a failed write a front of the line of one more
/// triple may follow.
pub fn sessions_write_lines<W: Write>()
    ensures all { (m : TheMode) (plan : ThePlan) (events : List Event) (sink now : TheSink W) → sink_is_open sink ≡ true
        → TookAll (gains_lines W.contents) m plan events sink now → IsAsReady sink_is_open line_failures sink now
        → WroteAll m plan (writer_of W.contents sink now) events }
    ensures memory { (m : TheMode) (plan : ThePlan) (events : List Event) (sink now : TheSink W) → sink_is_open sink ≡ true
        → TookSome (gains_lines W.contents) (cuts_lines W.contents) sink_is_open line_failures m plan events sink now ⊥
        → IsAsReady sink_is_open line_failures sink now
        → WroteSome m plan (writer_of W.contents sink now) events [] }
    ensures write { (m : TheMode) (plan : ThePlan) (events : List Event) (sink now : TheSink W) → sink_is_open sink ≡ true
        → TookSome (gains_lines W.contents) (cuts_lines W.contents) sink_is_open line_failures m plan events sink now (sink_is_open sink ≡ true)
        → (more : List ℕ) × WroteSome m plan (writer_of W.contents sink now) events more }
{
    written_denotes();
    labels_name_one_to_one();
}

/// What a session that did not start has written over an N-Triples sink that was open. The bytes are whole lines
/// that denote a front of the opening, the triples of the group and its tables. After a failed write a proper front
/// of the line of the next triple may follow.
pub fn refused_starts_write_lines<W: Write>()
    ensures memory { (m : TheMode) (plan : ThePlan) (sink now : TheSink W) → sink_is_open sink ≡ true
        → Refuses (gains_lines W.contents) (cuts_lines W.contents) sink_is_open line_failures plan m sink now stop.Memory
        → (wrote : WroteSome m plan (writer_of W.contents sink now) [] []) × (opening m plan ≡ wrote.triples ++ wrote.rest) }
    ensures write { (m : TheMode) (plan : ThePlan) (sink now : TheSink W) → sink_is_open sink ≡ true
        → Refuses (gains_lines W.contents) (cuts_lines W.contents) sink_is_open line_failures plan m sink now stop.Write
        → (more : List ℕ) × (wrote : WroteSome m plan (writer_of W.contents sink now) [] more)
        × (opening m plan ≡ wrote.triples ++ wrote.rest) }
{
    written_denotes();
    labels_name_one_to_one();
    opening_is_the_graphs();
}

/// A later call of a session that stopped changes nothing. Its sink takes no triple, so the writer of an N-Triples
/// sink gains no byte.
pub fn stopped_sessions_stay<S: TripleSink>()
    ensures event { (old new : TheSession S) (t : ℕ) (event : Event) (result : Result Unit TheStop) → old.state ≡ state.Failed
        → Takes S.gains S.cuts S.is_open S.failed old new t event result → IsRefusedInOrder old t result → new ≡ old }
    ensures finish { (old new : TheSession S) (result : Result TheOutcome TheStop) → old.state ≡ state.Failed
        → Finishes old new result → IsUnfinishedInOrder old result → new ≡ old }
{}

/// A run over good tables is Ok. There are as many readers as tables in the group that is described. Their bytes
/// are known and are the texts of annotated tables.
///
/// Else memory ran out, or the count of failures of a reader or a writer rose, or the texts have at least 2^40
/// bytes, less one for each table.
pub fn good_runs_succeed<R: Read>()
    ensures { (order : TheOrder) (described : Document) (m : TheMode) (olds news : List (TheCounted R)) (out report_out : Stream)
        (result : Result TheOutcome TheStop) (good : ReadGoodTables R.remaining described olds)
        → Runs R.remaining (IsOrder order) described m olds news out report_out result → IsOkOrLacks good.texts olds news out report_out result }
{
    good_texts_are_accepted();
    groups_have_no_faults();
    reads_are_bytes();
}
