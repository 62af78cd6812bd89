//! The text of a code, and the list of all codes.

use crate::codes::CODES;
use std::alloc::AllocError;

/// What begins the heading of a code.
const HEADING: &str = "## ";

/// Returns the name of a code and its kind, if a line is its heading: `## NAME (KIND)`.
fn heading(line: &str) -> Option<(&str, &str)> {
    let heading = line.strip_prefix(HEADING)?;
    heading.split_once(' ')
}

/// Adds all that is written of a code. Returns whether there is such a code, or `AllocError` if memory runs out.
pub fn push_explanation(text: &mut String, code: &str) -> Result<bool, AllocError> {
    let mut is_known = false;
    let mut is_shown = false;
    for line in CODES.lines() {
        if let Some((name, _)) = heading(line) {
            is_shown = name == code;
            is_known = is_known || is_shown;
        }
        if is_shown {
            text.push_str(line.strip_prefix(HEADING).unwrap_or(line))?;
            text.push('\n')?;
        }
    }
    Ok(is_known)
}

/// Adds a line for each code: its name and its kind. Returns `AllocError` if memory runs out.
pub fn push_codes(text: &mut String) -> Result<(), AllocError> {
    for line in CODES.lines() {
        if let Some((name, kind)) = heading(line) {
            write!(text, "{name:<20}{kind}\n")?;
        }
    }
    Ok(())
}
