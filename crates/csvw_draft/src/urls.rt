//! The URLs of tables, made from the paths of their files.

use percent_encoding::{AsciiSet, CONTROLS, ascii_set, utf8_percent_encode};
use std::alloc::{AllocError, Global};

/// The ASCII characters that a part of a relative URL's path can't have as they are (URL Standard, section 1.3), `%`, and those
/// that would make it another URL: `/`, `\` and `:`.
const BUT_PART: AsciiSet = ascii_set!(
    CONTROLS
        .add(b' ')
        .add(b'"')
        .add(b'#')
        .add(b'<')
        .add(b'>')
        .add(b'?')
        .add(b'^')
        .add(b'`')
        .add(b'{')
        .add(b'}')
        .add(b'|')
        .add(b'[')
        .add(b']')
        .add(b'%')
        .add(b'/')
        .add(b'\\')
        .add(b':')
);

/// Adds a part of a path, percent-encoded.
fn push_part(url: &mut String, part: &str) -> Result<(), AllocError> {
    for text in utf8_percent_encode(part, BUT_PART) {
        url.push_str(text)?;
    }
    Ok(())
}

/// Returns the last part of a path.
pub(crate) fn last_part(path: &str) -> &str {
    match path.rsplit_once('/') {
        Some((_, last)) => last,
        None => path,
    }
}

/// Returns the last part of a path as a URL.
fn short_url(alloc: Global, path: &str) -> Result<String, AllocError> {
    let mut url = String::new(alloc);
    push_part(&mut url, last_part(path))?;
    Ok(url)
}

/// Returns a path as a URL, without the parts that go nowhere or up.
fn long_url(alloc: Global, path: &str) -> Result<String, AllocError> {
    let mut url = String::new(alloc);
    for part in path.split('/') {
        if part.is_empty() || part == "." || part == ".." {
            continue;
        }
        if !url.is_empty() {
            url.push('/')?;
        }
        push_part(&mut url, part)?;
    }
    Ok(url)
}

/// Returns how many paths end with the same part as this one, itself too.
fn count_alike(files: &[&str], path: &str) -> usize {
    let last = last_part(path);
    files.iter().filter(|file| last_part(file) == last).count()
}

/// Returns the URL of a file: the last part of its path or, if another path ends with it, all parts.
fn url_of(alloc: Global, files: &[&str], path: &str) -> Result<String, AllocError> {
    if count_alike(files, path) > 1 {
        long_url(alloc, path)
    } else {
        short_url(alloc, path)
    }
}

/// Returns the URL of each file.
pub(crate) fn urls_of(alloc: Global, files: &[&str]) -> Result<Vec<String>, AllocError> {
    let mut urls = Vec::new(alloc);
    for path in files {
        urls.push(url_of(alloc, files, path)?)?;
    }
    Ok(urls)
}
