//! What a character does in a row.
ghost use Rattle.std.specs.Prelude.{◌≡◌};
ghost use Rattle.csvw_records.specs.Scan.{quote_is, is_quoted, step_of};

use crate::dialect::Dialect;
use crate::stop::RowStop;

/// The place of a character in a field.
#[derive(Clone, Copy, Debug, PartialEq, Eq)]
pub enum State {
    /// At the start of the field, or after spaces that may be skipped.
    Start,
    /// In a field without quotes.
    Plain,
    /// Between its quotes.
    Inside,
    /// After a backslash between its quotes.
    Escaped,
    /// After a quote that closes the field or begins an escape.
    Closed,
}

/// Returns whether a state is inside quotes.
pub fn is_quoted(state: State) -> bool
    ensures { result ≡ is_quoted state }
{
    match state {
        State::Inside | State::Escaped => true,
        State::Start | State::Plain | State::Closed => false,
    }
}

/// What a character does.
#[derive(Clone, Copy, Debug, PartialEq, Eq)]
pub enum Step {
    /// The character is part of the field.
    Keep(State),
    /// The character is not part of the field's value.
    Skip(State),
    /// The character opens the quotes. The spaces before it are not part of the field's value.
    Open,
    /// The character ends the field, and another field follows.
    Next,
    /// The character begins the row's terminator.
    End,
    /// The character breaks a rule.
    Stop(RowStop),
}

fn is_quote(d: &Dialect, c: char) -> bool
    ensures { result ≡ quote_is d.now.quote_char c }
{
    match d.quote_char {
        Some(quote) => c == quote,
        None => false,
    }
}

/// Returns what a character does in a state. `ends` says whether a terminator begins with it.
pub fn next_step(d: &Dialect, state: State, c: char, ends: bool) -> Step
    ensures { result ≡ step_of d.now state c ends }
{
    match state {
        State::Start | State::Plain => {
            if ends {
                Step::End
            } else if c == d.delimiter {
                Step::Next
            } else if is_quote(d, c) {
                match state {
                    State::Start => Step::Open,
                    _ => Step::Stop(RowStop::BadQuote),
                }
            } else if state == State::Start && d.skip_initial_space && c == ' ' {
                Step::Keep(State::Start)
            } else {
                Step::Keep(State::Plain)
            }
        }
        State::Inside => {
            if is_quote(d, c) {
                Step::Skip(State::Closed)
            } else if !d.double_quote && c == '\\' {
                Step::Skip(State::Escaped)
            } else {
                Step::Keep(State::Inside)
            }
        }
        State::Escaped => Step::Keep(State::Inside),
        State::Closed => {
            if ends {
                Step::End
            } else if c == d.delimiter {
                Step::Next
            } else if d.double_quote && is_quote(d, c) {
                Step::Keep(State::Inside)
            } else {
                Step::Stop(RowStop::TextAfterQuote)
            }
        }
    }
}
