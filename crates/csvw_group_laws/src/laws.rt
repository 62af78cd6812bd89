//! Laws about the definitions that the contracts use. A call of a law does nothing.
ghost use Rattle.std.specs.Prelude.{◌≡◌, ◌⊎◌, ◌++◌, ◌∷◌, ℕ, true, List, [], length, Result, Err};
ghost use Rattle.std.specs.List.{list_all};
ghost use Rattle.csvw_columns.specs.declared.plan.Plan.{Plan as ThePlan};
ghost use Rattle.csvw_engine_core.specs.Tables.{is_ended};
ghost use Rattle.csvw_triples.specs.OpeningTriples.{opening};
ghost use Rattle.csvw_session.specs.Events.{Event, table_of};
ghost use Rattle.csvw_session.specs.Order.{AreInOrder};
ghost use Rattle.csvw_session.specs.Sessions.{Stands, Starts, Takes};
ghost use Rattle.csvw_session.specs.declared.session.Session.{Session as TheSession};
ghost use Rattle.csvw_engine_core.specs.declared.stop.Stop.{Stop};
ghost use Rattle.csvw_triples_core.specs.Taking.{IsAsReady};
ghost use Rattle.csvw_triples_core.specs.declared.mode.Mode.{Mode as TheMode};
ghost use Rattle.csvw_report.specs.declared.outcome.Outcome.{Outcome as TheOutcome};
ghost use Rattle.csvw_group_laws.specs.Annotated.{Table, AreAnnotated};
ghost use Rattle.csvw_group_laws.specs.AnyOrder.{HaveSameTexts, EndTheSame};
ghost use Rattle.csvw_group_laws.specs.Finished.{IsAtItsEnd, EndsAnnotated};
ghost use Rattle.csvw_group_laws.specs.GoodEvents.{AreGood, EndsWell, Goes, IsTakenOrLacks, LacksFirst};
ghost use Rattle.csvw_group_laws.specs.GoodTexts.{GoodTextsAreAccepted};
ghost use Rattle.csvw_group_laws.specs.AtEnd.{Annotates, texts_of};
ghost use Rattle.csvw_group_laws.specs.OneTable.{HaveOneAnnotation};
ghost use Rattle.csvw_group_laws.specs.Stopped.{TookAll, TookBy};
ghost use Rattle.csvw_group_laws.specs.Taken.{AreTaken};

use csvw_columns::laws::columns_of_ready_tables_are_sound;
use csvw_datatype::{one_code, one_value, value_or_code};
use csvw_records::laws::{files_have_no_stop, first_begin, first_stay, have_one_list};
use csvw_report::laws::sorts_to_one;
use csvw_rows::laws::nothing_given;
use csvw_session::laws::texts_grow;
use csvw_triples::opening_is_the_graphs;
use csvw_triples_core::TripleSink;
use csvw_triples_rows::{row_triples_are_row_graph, rows_triples_are_table_graph};

/// If each table of a session was ended, the texts of its events are annotated tables. Its sink took their graph,
/// which begins with what the mode says of the group. Its faults are their violations.
pub fn sessions_annotate<S: TripleSink>()
    ensures { (sink start : S) (events : List Event) (s : TheSession S) → S.gains sink (opening s.mode s.plan) start
        → Stands S.gains S.is_open S.failed start events s → list_all is_ended s.tables.items ≡ true → Annotates S.gains sink events s }
{
    opening_is_the_graphs();
    rows_triples_are_table_graph();
}

/// The sink of a session, from its start on, took exactly the graph of the group with all rows that are complete in
/// the texts so far. So each row is given as soon as it is complete.
pub fn sessions_give_all<S: TripleSink>()
    ensures { (sink start : S) (events : List Event) (s : TheSession S) → S.gains sink (opening s.mode s.plan) start
        → Stands S.gains S.is_open S.failed start events s → TookAll S.gains s.mode s.plan events sink s.sink }
{
    opening_is_the_graphs();
    rows_triples_are_table_graph();
    nothing_given();
}

/// No stop is in the texts of the events that a session took, and no table refuses a row of its text. The rows are
/// tables so far, and whole tables if the text has ended.
pub fn taken_events_are_tables<S: TripleSink>()
    ensures { (start : S) (events : List Event) (s : TheSession S) → Stands S.gains S.is_open S.failed start events s
        → AreTaken s.plan.tables events }
{
    nothing_given();
    files_have_no_stop();
}

/// What the sink of a session took before a stop.
///
/// - After `Rows` and `Table` it took the graph with all rows before the stop.
/// - After `Memory` and `Write` it took the graph with all rows of each other table. Of the table of the event it
///   took some rows, at least those that it had before, and some triples of its next row.
///
/// All these triples are whole. After `Write` the device failed within the next one if the sink was open.
pub fn stopped_sessions_give_parts<S: TripleSink>()
    ensures { (sink start : S) (events : List Event) (event : Event) (old new : TheSession S) (t : ℕ) (reason : Stop)
        → S.gains sink (opening old.mode old.plan) start → IsAsReady S.is_open S.failed sink start → Stands S.gains S.is_open S.failed start events old
        → table_of event ≡ t → Takes S.gains S.cuts S.is_open S.failed old new t event (Err reason)
        → TookBy S.gains S.cuts S.is_open S.failed old.mode old.plan (events ++ event ∷ []) sink new.sink reason }
{
    opening_is_the_graphs();
    rows_triples_are_table_graph();
    row_triples_are_row_graph();
    nothing_given();
    texts_grow();
}

/// Texts are at most one list of annotated tables.
pub fn texts_have_one_annotation()
    ensures { HaveOneAnnotation }
{
    columns_of_ready_tables_are_sound();
    one_value();
    value_or_code();
    one_code();
    have_one_list();
}

/// If a session is finished, the texts of its events are annotated tables. Its sink took their graph, with what the
/// mode says of the group. Its outcome lists what they violate, in order.
pub fn finished_sessions_annotate<S: TripleSink>()
    ensures { (sink : S) (events : List Event) (s : TheSession S) (outcome : TheOutcome)
        → IsAtItsEnd S.gains S.is_open S.failed sink events s outcome → EndsAnnotated S.gains sink events s outcome }
{
    sessions_annotate::<S>();
}

/// Take two finished sessions over one plan and mode whose tables have the same texts. They have the same faults in
/// the same order, and their sinks took the same graph. So the order of the events does not matter, nor where they
/// cut the texts.
pub fn any_order<S: TripleSink>()
    ensures { (sink other : S) (events others : List Event) (s r : TheSession S) (outcome its : TheOutcome)
        → IsAtItsEnd S.gains S.is_open S.failed sink events s outcome → IsAtItsEnd S.gains S.is_open S.failed other others r its
        → r.plan ≡ s.plan → r.mode ≡ s.mode → HaveSameTexts events others → EndTheSame S.gains sink other s r outcome its }
{
    finished_sessions_annotate::<S>();
    texts_have_one_annotation();
    sorts_to_one();
}

/// A text that goes on to that of an annotated table does not stop. The table refuses neither a row of it nor its
/// header.
pub fn good_texts_are_accepted()
    ensures { GoodTextsAreAccepted }
{
    have_one_list();
    first_begin();
    first_stay();
    files_have_no_stop();
}

/// A session refuses no event of a good list. In a good list the texts of all events, later ones included, are
/// annotated tables, and each table has its pieces before its end. If the session took the events before this one,
/// it takes this one too, unless memory runs out or the sink's device fails.
pub fn good_events_are_taken<S: TripleSink>()
    ensures { (start : S) (events more : List Event) (event : Event) (old new : TheSession S) (tables : List Table) (answer : Result Unit Stop)
        → Stands S.gains S.is_open S.failed start events old → AreInOrder (length old.plan.tables) (events ++ event ∷ more)
        → AreAnnotated old.plan.tables (texts_of (events ++ event ∷ more)) tables
        → Takes S.gains S.cuts S.is_open S.failed old new (table_of event) event answer → IsTakenOrLacks answer }
{
    good_texts_are_accepted();
}

/// A session that is given a good list of events ends well. In a good list each table is ended once, after its
/// pieces, and the texts are annotated tables. Then each call returns Ok, the session took all events, and `finish`
/// returns Ok or `Memory`. Else the first call that does not return Ok says that memory ran out or the sink's
/// device failed.
pub fn good_sessions_finish<S: TripleSink>()
    ensures { (plan : ThePlan) (mode : TheMode) (sink : S) (s last : TheSession S) (events : List Event)
        (answers : List (Result Unit Stop)) (tables : List Table)
        → Starts S.gains S.is_open S.failed plan mode sink s → AreGood (length plan.tables) events → AreAnnotated plan.tables (texts_of events) tables
        → Goes S.gains S.cuts S.is_open S.failed s events answers last
        → LacksFirst answers ⊎ EndsWell S.gains S.is_open S.failed s.sink events answers last }
{
    good_events_are_taken::<S>();
}
