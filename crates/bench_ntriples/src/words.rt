//! The command line.

/// What the program does with the document on standard input.
#[derive(Clone, Copy, Debug, PartialEq, Eq)]
pub(crate) enum Task {
    /// Reads it and prints how many triples it has.
    Count,
    /// Reads it one triple after the other and prints how many it has.
    Each,
    /// Reads it one triple after the other and writes each.
    Copy,
    /// Reads it and writes its triples this many times.
    Write(u64),
}

fn write_task(rounds: &str) -> Option<Task> {
    let rounds = rounds.parse::<u64>().ok()?;
    Some(Task::Write(rounds))
}

/// Returns the task that the words ask for. The first word is the program's name.
pub(crate) fn requested(words: &[String]) -> Option<Task> {
    let name = words.get(1)?.as_str();
    match words.get(2) {
        None if name == "count" => Some(Task::Count),
        None if name == "each" => Some(Task::Each),
        None if name == "copy" => Some(Task::Copy),
        Some(rounds) if name == "write" => write_task(rounds.as_str()),
        _ => None,
    }
}
