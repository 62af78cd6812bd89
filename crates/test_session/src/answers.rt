//! The results of the calls of a session, in order, and the number of triples in its sink after each.
use crate::sessions::started;
use csvw_columns::TableStop;
use csvw_session::{Session, Stop};
use csvw_triples_core::{Mode, TripleSink, VecSink};
use std::alloc::Global;
use std::process::Abort;

/// One table without metadata of its own.
const PLAIN: &str = r#"{"@context":"http://www.w3.org/ns/csvw","url":"p.csv"}"#;

/// One table with the column `k`.
const ONE_COLUMN: &str =
    r#"{"@context":"http://www.w3.org/ns/csvw","url":"p.csv","tableSchema":{"columns":[{"name":"k"}]}}"#;

/// Two tables.
const TWO_TABLES: &str =
    r#"{"@context":"http://www.w3.org/ns/csvw","tables":[{"url":"a.csv"},{"url":"b.csv"}]}"#;

/// A call on a session.
#[derive(Clone, Copy)]
enum Call {
    /// A piece of the text of the table of this number.
    Feed(u32, &'static [u8]),
    /// The end of the table of this number.
    End(u32),
    /// The end of the session.
    Finish,
}

/// The result of a call of a session.
#[derive(Clone, Copy)]
enum Answer {
    /// The session takes the call.
    Ok,
    /// There is no table of that number.
    UnknownTable,
    /// The table was ended, or the session was finished.
    AfterEnd,
    /// A table was not ended yet.
    NotEnded,
    /// The session stopped in an earlier call.
    Failed,
    /// This row of the first table does not have one field for each column.
    Ragged(u64),
}

/// A call of a session, its result, and how many triples its sink has then.
type Step = (Call, Answer, usize);

/// A table of one column, whose rows come in pieces.
static PIECES: [Step; 8] = [
    (Call::Feed(1, b"k\n1"), Answer::Ok, 0),
    (Call::Feed(1, b"\n2"), Answer::Ok, 1),
    (Call::Feed(0, b"3"), Answer::UnknownTable, 1),
    (Call::End(1), Answer::Ok, 2),
    (Call::Feed(1, b""), Answer::AfterEnd, 2),
    (Call::Finish, Answer::Ok, 2),
    (Call::Finish, Answer::AfterEnd, 2),
    (Call::End(1), Answer::AfterEnd, 2),
];

/// Two tables without text.
static ENDS: [Step; 13] = [
    (Call::Feed(3, b"x"), Answer::UnknownTable, 0),
    (Call::Finish, Answer::NotEnded, 0),
    (Call::End(1), Answer::Ok, 0),
    (Call::Finish, Answer::NotEnded, 0),
    (Call::End(1), Answer::AfterEnd, 0),
    (Call::End(0), Answer::UnknownTable, 0),
    (Call::End(2), Answer::Ok, 0),
    (Call::Finish, Answer::Ok, 0),
    (Call::Feed(1, b"x"), Answer::AfterEnd, 0),
    (Call::End(2), Answer::AfterEnd, 0),
    (Call::Feed(3, b"x"), Answer::UnknownTable, 0),
    (Call::End(0), Answer::UnknownTable, 0),
    (Call::Finish, Answer::AfterEnd, 0),
];

/// A table whose third row has one field too many.
static FAILURES: [Step; 6] = [
    (Call::Feed(1, b"id\n1\n2,3\n"), Answer::Ragged(3), 1),
    (Call::Feed(1, b"4\n"), Answer::Failed, 1),
    (Call::Feed(0, b"4\n"), Answer::Failed, 1),
    (Call::End(1), Answer::Failed, 1),
    (Call::End(2), Answer::Failed, 1),
    (Call::Finish, Answer::Failed, 1),
];

impl Call {
    /// Returns the result of the call.
    fn answer<S: TripleSink>(self, session: &mut Session<S>) -> Result<(), Stop> {
        match self {
            Call::Feed(table, piece) => session.feed(table, piece),
            Call::End(table) => session.end(table),
            Call::Finish => match session.finish() {
                Ok(_) => Ok(()),
                Err(stop) => Err(stop),
            },
        }
    }
}

impl Answer {
    /// Returns whether this is the result.
    fn is(self, answer: &Result<(), Stop>) -> bool {
        match self {
            Answer::Ok => answer.is_ok(),
            Answer::UnknownTable => matches!(answer, Err(Stop::UnknownTable)),
            Answer::AfterEnd => matches!(answer, Err(Stop::AfterEnd)),
            Answer::NotEnded => matches!(answer, Err(Stop::NotEnded)),
            Answer::Failed => matches!(answer, Err(Stop::Failed)),
            Answer::Ragged(at) => {
                matches!(answer, Err(Stop::Table { table: 1, row, stop: TableStop::RaggedRow }) if *row == at)
            }
        }
    }
}

/// Returns whether the session returns this result for the call.
fn answers(session: &mut Session<VecSink>, call: Call, wanted: Answer) -> bool {
    let answer = call.answer(session);
    wanted.is(&answer)
}

/// Checks that the session takes the steps as they say. Returns how many triples were given.
fn take(rt: &impl Abort, mut session: Session<VecSink>, steps: &[Step]) -> usize {
    for (call, answer, triples) in steps {
        assert!(rt; answers(&mut session, *call, *answer));
        assert_eq!(rt; session.sink().triples().len(), *triples);
    }
    session.into_sink().triples().len()
}

/// Returns how many triples a session over the tables of a document gave that takes the steps as they say, or
/// `None` if there is no session.
fn given(rt: &impl Abort, alloc: Global, meta: &str, steps: &[Step]) -> Option<usize> {
    let session = started(alloc, meta, Mode::Minimal, VecSink::new(alloc))?;
    Some(take(rt, session, steps))
}

#[test]
fn rows_are_given_as_soon_as_they_are_complete(rt: HostRuntime) {
    assert!(rt; given(&rt, rt.alloc(), ONE_COLUMN, &PIECES) == Some(2));
}

#[test]
fn a_session_is_finished_once_all_tables_were_ended(rt: HostRuntime) {
    assert!(rt; given(&rt, rt.alloc(), TWO_TABLES, &ENDS) == Some(0));
}

#[test]
fn a_session_that_stopped_answers_that_it_failed(rt: HostRuntime) {
    assert!(rt; given(&rt, rt.alloc(), PLAIN, &FAILURES) == Some(1));
}

/// Returns whether a stop is displayed as this sentence.
fn is_told(alloc: Global, stop: &Stop, sentence: &str) -> bool {
    match stop.to_string(alloc) {
        Ok(told) => told.as_str() == sentence,
        Err(_) => false,
    }
}

#[test]
fn stops_are_told_by_sentences(rt: HostRuntime) {
    let ended = "the table was ended before: give all its text before its end";
    assert!(rt; is_told(rt.alloc(), &Stop::AfterEnd, ended));
}

#[test]
fn a_stop_at_a_row_names_it(rt: HostRuntime) {
    let ragged = Stop::Table {
        table: 2,
        row: 7,
        stop: TableStop::RaggedRow,
    };
    let told =
        "table 2, row 7: the row has not one field for each column: add the fields that are missing, or remove those that are too many";
    assert!(rt; is_told(rt.alloc(), &ragged, told));
}
