//! The command line.

/// The reader of the file on standard input.
#[derive(Clone, Copy, Debug, PartialEq, Eq)]
pub enum Task {
    /// `Rows`, with this delimiter, and so many bytes at once.
    Rows(char, usize),
    /// The crate `csv`.
    Csv,
}

/// Returns the character that the word is.
fn only_char(word: &str) -> Option<char> {
    let mut chars = word.chars();
    let c = chars.next()?;
    match chars.next() {
        Some(_) => None,
        None => Some(c),
    }
}

fn rows_task(piece: &str, delimiter: &str) -> Option<Task> {
    let piece = piece.parse::<usize>().ok()?;
    let delimiter = only_char(delimiter)?;
    Some(Task::Rows(delimiter, piece))
}

/// Returns the task that the words ask for, or `None` if there is none. The first word is the program's name.
pub(crate) fn requested(words: &[String]) -> Option<Task> {
    match words {
        [_, name] if name.as_str() == "csv" => Some(Task::Csv),
        [_, name, piece, delimiter] if name.as_str() == "rows" => {
            rows_task(piece.as_str(), delimiter.as_str())
        }
        _ => None,
    }
}
