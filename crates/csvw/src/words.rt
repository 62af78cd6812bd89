//! The words of the command line, and what a terminal adds to them.

use std::alloc::{AllocError, Global};
use std::io::{IsTerminal, Stderr};

/// The flag that asks for the explanation of a stop.
const EXPLAIN: &str = "--explain";

/// The place of the subcommand among the words, from 0.
const SUBCOMMAND: usize = 1;

/// Whether a subcommand of this name has the flag.
fn is_explained(name: &str) -> bool {
    name == "validate" || name == "convert" || name == "plain" || name == "inspect"
}

/// Whether the words ask for a subcommand that has the flag, and not for the explanation of its stop.
fn may_be_explained(words: &[String]) -> bool {
    let has_flag = match words.get(SUBCOMMAND) {
        Some(word) => is_explained(word.as_str()),
        None => false,
    };
    has_flag && !words.iter().any(|word| word.as_str() == EXPLAIN)
}

/// Returns the words. At a terminal a stop is also explained, so the flag for that follows the subcommand.
///
/// Fails with `AllocError` if memory runs out.
pub(crate) fn words_of(
    alloc: Global,
    words: Vec<String>,
    err: &Stderr,
) -> Result<Vec<String>, AllocError> {
    if !err.is_terminal() || !may_be_explained(words.as_slice()) {
        return Ok(words);
    }
    let mut all = Vec::new(alloc);
    for (place, word) in words.into_iter().enumerate() {
        all.push(word)?;
        if place == SUBCOMMAND {
            all.push(String::from_str(alloc, EXPLAIN)?)?;
        }
    }
    Ok(all)
}
