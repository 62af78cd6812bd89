//! What the words ask of the streams.

use csvw_command::{Request, requested};
use std::alloc::Global;

/// What the words ask of the streams.
#[derive(Clone, Copy, Debug)]
pub(crate) struct Asked {
    /// Whether each line of a graph is sent when it is made.
    pub(crate) line_buffered: bool,
    /// Whether the progress is shown, also if standard output is a terminal.
    pub(crate) progress: bool,
}

impl Asked {
    /// Returns what these words ask for. Words that make no request ask for nothing.
    pub(crate) fn of(alloc: Global, words: &[String]) -> Asked {
        match requested(alloc, words) {
            Ok(request) => asked_by(&request),
            Err(_) => Asked {
                line_buffered: false,
                progress: false,
            },
        }
    }
}

/// Returns what a request asks for.
fn asked_by(request: &Request<'_>) -> Asked {
    let (line_buffered, progress) = match request {
        Request::Plain {
            line_buffered,
            progress,
            ..
        } => (*line_buffered, *progress),
        Request::Convert {
            group,
            line_buffered,
            ..
        } => (*line_buffered, group.progress),
        Request::Validate(group) => (false, group.progress),
        Request::Check(asked) => (false, asked.progress),
        _ => (false, false),
    };
    Asked {
        line_buffered,
        progress,
    }
}
