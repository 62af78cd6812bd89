//! A session over the tables of a plan.
ghost use Rattle.std.specs.Prelude.{◌≡◌, ◌↔◌, ◌⊎◌, ◌<◌, ◌+◌, length, ◌++◌, IsTrue, IfOk, IfErr, OnOk, MatchOption};
ghost use Rattle.std.specs.List.{list_all};
ghost use Rattle.csvw_triples_core.specs.Taking.{IsAsReady};
ghost use Rattle.csvw_triples.specs.OpeningTriples.{opening};
ghost use Rattle.csvw_engine_core.specs.Tables.{is_ended};
ghost use Rattle.csvw_session.specs.Faults.{all_faults};
ghost use Rattle.csvw_columns.specs.Ready.{AreReady};
ghost use Rattle.csvw_session.specs.Ready.{AreReady-prop};
ghost use Rattle.csvw_session.specs.NewTables.{AreNew};
ghost use Rattle.csvw_session.specs.Refusing.{Refuses};

use crate::state::State;
use csvw_columns::{Plan, TablePlan};
use csvw_engine_core::{Stop, Table, end_table, feed_table};
use csvw_keys::KeyBook;
use csvw_report::{Outcome, sorted};
use csvw_text::{Fault, Seq};
use csvw_triples::emit_opening;
use csvw_triples_rows::{Mode, TripleSink};
use std::alloc::{AllocError, Global};

/// A session: tables that come in pieces, and a sink for their triples.
#[derive(Drop)]
pub struct Session<S> {
    alloc: Global,
    plan: Plan,
    mode: Mode,
    tables: Vec<Table>,
    sink: S,
    keys: KeyBook,
    state: State,
    ghost many: { length tables.items ≡ length plan.tables },
    ghost ready: { AreReady plan.tables } by { AreReady-prop plan.tables },
}

/// A session that did not start, and its sink.
#[derive(Drop)]
pub struct Refused<S> {
    /// The reason: `Memory` or `Write`.
    pub stop: Stop,
    /// The sink that was passed to `start`. It may have taken a front of the opening.
    pub sink: S,
}

/// Makes the states of tables whose texts were not read yet.
fn new_tables(alloc: Global, plans: &[TablePlan], mode: Mode) -> Result<Vec<Table>, AllocError>
    requires { AreReady plans.now }
    ensures { IfOk result (λ v. AreNew mode plans.now v.items) }
{
    let mut tables = Vec::new(alloc);
    for plan in plans {
        tables.push(Table::new(alloc, plan, mode)?)?;
    }
    Ok(tables)
}

/// Puts the opening of a plan into the sink, and makes the states of its tables, whose texts were not read yet.
fn open_tables<S: TripleSink>(
    alloc: Global,
    plan: &Plan,
    mode: Mode,
    sink: &mut S,
) -> Result<Vec<Table>, Stop>
    requires { AreReady plan.now.tables }
    ensures tables { IfOk result (λ tables. AreNew mode plan.now.tables tables.items) }
    ensures opened { IfOk result (λ tables. S.gains sink.old (opening mode plan.now) sink.new) }
    ensures ready { IfOk result (λ tables. IsAsReady S.is_open S.failed sink.old sink.new) }
    ensures refused { IfErr result (λ stop. Refuses S.gains S.cuts S.is_open S.failed plan.now mode sink.old sink.new stop) }
{
    let Ok(tables) = new_tables(alloc, plan.tables(), mode) else {
        return Err(Stop::Memory);
    };
    match emit_opening(alloc, plan, mode, sink) {
        Ok(()) => Ok(tables),
        Err(fault) => Err(Stop::of_fault(fault)),
    }
}

fn all_ended(tables: &[Table]) -> bool
    ensures { result ≡ list_all is_ended tables.now }
{
    tables.iter().all(|table| table.is_ended())
}

fn list_faults(tables: &[Table], faults: &mut Seq<Fault>) -> Result<(), AllocError>
    ensures { OnOk result (faults.new ≡ faults.old ++ all_faults tables.now) }
{
    for table in tables {
        table.list_faults(faults)?;
    }
    Ok(())
}

/// Returns the place of table `t`, or `None` if there is none. Tables are numbered from 1, and places from 0.
fn place_of(t: u32, count: usize) -> Option<usize>
    ensures { MatchOption result ((t ≡ 0) ⊎ (count < t)) (λ i. (i + 1 ≡ t) × (i < count)) }
{
    if t == 0 {
        return None;
    }
    if t as usize > count {
        return None;
    }
    Some(t as usize - 1)
}

impl<S: TripleSink> Session<S> {
    ghost use Rattle.csvw_session.specs.Events.{Feed, End};
    ghost use Rattle.csvw_session.specs.Sessions.{Checks, IsRefusedInOrder, Starts, Takes};
    ghost use Rattle.csvw_session.specs.Finishing.{AreFaultsSoFar, Finishes, HasRead, IsUnfinishedInOrder, ListsFaults};

    /// Starts a session over the tables of a plan that `Plan::build` made. In mode `Standard` its sink takes the
    /// triples of the group and its tables (csv2rdf, section 4.2).
    ///
    /// Returns `Refused` with `Memory` if memory runs out, and with `Write` if the sink's device failed or the sink was
    /// closed before. `Refused` has the sink, which took a front of these triples, each of them whole. After `Write`
    /// the sink is closed. If it was open before, its device failed within the next triple.
    pub fn start(alloc: Global, plan: Plan, mode: Mode, sink: S) -> Result<Session<S>, Refused<S>>
        requires { AreReady plan.tables }
        ensures stands { IfOk result (λ s. Starts S.gains S.is_open S.failed plan mode sink s) }
        ensures refused { IfErr result (λ r. Refuses S.gains S.cuts S.is_open S.failed plan mode sink r.sink r.stop) }
    {
        let Ok(keys) = KeyBook::new(alloc, &plan) else {
            return Err(Refused {
                stop: Stop::Memory,
                sink,
            });
        };
        let mut sink = sink;
        match open_tables(alloc, &plan, mode, &mut sink) {
            Ok(tables) => Ok(Session {
                alloc,
                plan,
                mode,
                tables,
                sink,
                keys,
                state: State::Open,
            }),
            Err(stop) => Err(Refused { stop, sink }),
        }
    }

    fn is_failed(&self) -> bool
        ensures { IsTrue result ↔ (self.now.state ≡ State.Failed) }
    {
        self.state == State::Failed
    }

    fn is_finished(&self) -> bool
        ensures { IsTrue result ↔ (self.now.state ≡ State.Finished) }
    {
        self.state == State::Finished
    }

    /// Returns the place of table `t`, from 0, if the table can take an event now.
    fn check(&self, t: u32) -> Result<usize, Stop>
        ensures { Checks self.now t result }
    {
        if self.is_failed() {
            return Err(Stop::Failed);
        }
        let Some(i) = place_of(t, self.tables.len()) else {
            return Err(Stop::UnknownTable);
        };
        if self.is_finished() {
            return Err(Stop::AfterEnd);
        }
        if self.tables[i].is_ended() {
            return Err(Stop::AfterEnd);
        }
        Ok(i)
    }

    /// Takes a piece of table `t`, numbered from 1, and gives each complete row to the sink.
    ///
    /// These errors change nothing, and the first one that is true is returned:
    ///
    /// - `Failed` if the session stopped before.
    /// - `UnknownTable` if it has no such table.
    /// - `AfterEnd` if it was finished or the table was ended.
    ///
    /// These errors stop the session:
    ///
    /// - `Rows` or `Table` if a row can't be read or annotated. All rows before it were given to the sink.
    /// - `Write` if the sink's device failed, or the sink was closed before.
    /// - `Memory` if memory runs out.
    pub fn feed(&mut self, t: u32, piece: &[u8]) -> Result<(), Stop>
        ensures takes { Takes S.gains S.cuts S.is_open S.failed self.old self.new t (Feed t piece.now) result }
        ensures order { IsRefusedInOrder self.old t result }
        ensures same { (self.new.plan ≡ self.old.plan) × (self.new.mode ≡ self.old.mode) }
    {
        let i = self.check(t)?;
        self.state = State::Failed;
        let plans = self.plan.tables();
        feed_table(
            &plans[i],
            &mut self.tables[i],
            piece,
            &mut self.sink,
            &mut self.keys,
        )?;
        self.state = State::Open;
        Ok(())
    }

    /// Takes the end of table `t`, numbered from 1, and gives each row that is left to the sink. It fails as `feed`
    /// does.
    pub fn end(&mut self, t: u32) -> Result<(), Stop>
        ensures takes { Takes S.gains S.cuts S.is_open S.failed self.old self.new t (End t) result }
        ensures order { IsRefusedInOrder self.old t result }
        ensures same { (self.new.plan ≡ self.old.plan) × (self.new.mode ≡ self.old.mode) }
    {
        let i = self.check(t)?;
        self.state = State::Failed;
        let plans = self.plan.tables();
        end_table(
            &plans[i],
            &mut self.tables[i],
            &mut self.sink,
            &mut self.keys,
        )?;
        self.state = State::Open;
        Ok(())
    }

    /// Lists the warnings of the plan, then the faults of the tables, then the faults of their rows by their keys.
    fn faults(&self) -> Result<Seq<Fault>, AllocError>
        ensures { IfOk result (λ faults. ListsFaults self.now faults) }
    {
        let broken = self.keys.finish()?;
        let mut faults = Seq::new(self.alloc);
        faults.extend_from_slice(self.plan.warnings())?;
        list_faults(self.tables.as_slice(), &mut faults)?;
        faults.extend_from_slice(broken.as_slice())?;
        Ok(faults)
    }

    /// Returns the warnings of the plan and the faults of the headers and cells so far, in the order of reports. It can be
    /// called after a stop, too. The faults of keys aren't among them, since keys are judged over whole tables.
    ///
    /// Returns `AllocError` if memory runs out.
    pub fn faults_so_far(&self) -> Result<Seq<Fault>, AllocError>
        ensures { IfOk result (λ faults. AreFaultsSoFar self.now faults) }
    {
        let mut faults = Seq::new(self.alloc);
        faults.extend_from_slice(self.plan.warnings())?;
        list_faults(self.tables.as_slice(), &mut faults)?;
        Ok(sorted(faults))
    }

    /// Returns the number of complete rows that were read of table `t`, numbered from 1, or `None` if there is no such
    /// table. Rows of all kinds count.
    pub fn rows_read(&self, t: u32) -> Option<u64>
        ensures { MatchOption result ((t ≡ 0) ⊎ (length self.now.tables.items < t)) (HasRead self.now t) }
    {
        let i = place_of(t, self.tables.len())?;
        Some(self.tables[i].rows_read())
    }

    /// Finishes the session, and returns its faults in order.
    ///
    /// These errors change nothing, and the first one that is true is returned:
    ///
    /// - `Failed` if the session stopped before.
    /// - `AfterEnd` if it was finished before.
    /// - `NotEnded` if a table was not ended.
    ///
    /// `Memory` comes if memory runs out, and stops the session.
    pub fn finish(&mut self) -> Result<Outcome, Stop>
        ensures finishes { Finishes self.old self.new result }
        ensures order { IsUnfinishedInOrder self.old result }
    {
        if self.is_failed() {
            return Err(Stop::Failed);
        }
        if self.is_finished() {
            return Err(Stop::AfterEnd);
        }
        if !all_ended(self.tables.as_slice()) {
            return Err(Stop::NotEnded);
        }
        let Ok(faults) = self.faults() else {
            self.state = State::Failed;
            return Err(Stop::Memory);
        };
        self.state = State::Finished;
        Ok(Outcome {
            faults: sorted(faults),
        })
    }

    /// Returns the sink.
    pub fn sink(&self) -> &S
        ensures { result.now ≡ self.now.sink }
    {
        &self.sink
    }

    /// Returns the sink. The session takes no more events.
    pub fn into_sink(self) -> S
        ensures { result ≡ self.sink }
    {
        let Session {
            alloc: _,
            plan: _,
            mode: _,
            tables: _,
            sink,
            keys: _,
            state: _,
        } = self;
        sink
    }
}
