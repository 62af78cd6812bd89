//! Whether a name has another name in it.

/// How many bytes a name has at least that may be in the middle of a word.
const LONG: usize = 4;

/// Returns whether a word may begin or end between two bytes: one isn't a letter or digit, or a capital follows a small letter.
fn is_between(before: Option<&u8>, after: Option<&u8>) -> bool {
    let (Some(before), Some(after)) = (before, after) else {
        return true;
    };
    if !before.is_ascii_alphanumeric() || !after.is_ascii_alphanumeric() {
        return true;
    }
    before.is_ascii_lowercase() && after.is_ascii_uppercase()
}

/// Returns whether the bytes at a place are those of a name, whatever their case.
fn is_at(text: &[u8], place: usize, name: &[u8]) -> bool {
    let end = place.saturating_add(name.len());
    match text.get(place..end) {
        Some(found) => found.eq_ignore_ascii_case(name),
        None => false,
    }
}

/// Returns whether the bytes of a name at a place are whole words.
fn are_words(text: &[u8], place: usize, len: usize) -> bool {
    let end = place.saturating_add(len);
    let before = match place.checked_sub(1) {
        Some(last) => text.get(last),
        None => None,
    };
    let last = match end.checked_sub(1) {
        Some(last) => text.get(last),
        None => None,
    };
    is_between(before, text.get(place)) && is_between(last, text.get(end))
}

/// Returns whether a text has a name in it, whatever the case. A name of fewer than four letters has to be whole words:
/// `station_id` and `stationId` have `id`, and `width` hasn't.
pub(crate) fn has_words(text: &str, name: &str) -> bool {
    let text = text.as_bytes();
    let name = name.as_bytes();
    if name.is_empty() {
        return false;
    }
    for place in 0..text.len() {
        if is_at(text, place, name) && (name.len() >= LONG || are_words(text, place, name.len())) {
            return true;
        }
    }
    false
}
