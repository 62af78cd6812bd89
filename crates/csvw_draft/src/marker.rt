//! Texts that mark a missing value.

/// The markers. `.` and `:` are common in tables of statistical offices.
const MARKERS: [&str; 10] = [
    "NA", "N/A", "n/a", "NULL", "null", "-", ".", "..", "...", ":",
];

/// Returns the marker that a text is, or `None` if it is none.
pub(crate) fn marker_of(text: &str) -> Option<&'static str> {
    for marker in &MARKERS {
        if *marker == text {
            return Some(*marker);
        }
    }
    None
}
