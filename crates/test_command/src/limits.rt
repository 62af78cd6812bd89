//! Inputs that are as long as the limits allow, and longer ones.

use crate::runs::Sent::{Just, SomeText};
use crate::runs::{End, File, HEADING, META, PLAIN, VALIDATE, ends_so};
use std::alloc::{AllocError, Global};
use std::fmt::Write;
use std::str;

/// How often something occurs in an input, and how the run ends.
struct Limit {
    /// What the case shows.
    what: &'static str,
    /// How often it occurs.
    count: usize,
    /// How the run ends.
    end: End,
}

/// Returns a front, and then a byte `count` times.
fn filled(alloc: Global, front: &[u8], byte: u8, count: usize) -> Result<Vec<u8>, AllocError> {
    let mut bytes = Vec::from_slice(alloc, front)?;
    for _ in 0..count {
        bytes.push(byte)?;
    }
    Ok(bytes)
}

/// Returns whether a run over one table with this text ends like this.
fn table_ends_so(alloc: Global, bytes: &[u8], end: End) -> bool {
    let files = [File {
        path: "p.csv",
        bytes,
    }];
    ends_so(alloc, PLAIN, &files, end)
}

static ROWS: [Limit; 2] = [
    Limit {
        what: "a row of 2^20 bytes",
        count: 1_048_576,
        end: End {
            status: 0,
            out: SomeText,
            err: Just(HEADING),
        },
    },
    Limit {
        what: "a row of a byte more",
        count: 1_048_577,
        end: End {
            status: 3,
            out: Just(b""),
            err: Just(b"csvw: RowTooLong table 1 row 2\n"),
        },
    },
];

/// Returns whether a run over a table with a row of this number of bytes ends as the limit says.
fn row_ends_so(alloc: Global, limit: &Limit) -> bool {
    match filled(alloc, b"h\n", b'x', limit.count) {
        Ok(table) => table_ends_so(alloc, table.as_slice(), limit.end),
        Err(_) => false,
    }
}

#[test]
fn rows_are_at_most_so_long(rt: HostRuntime) {
    let alloc = rt.alloc();
    for limit in &ROWS {
        assert!(rt; row_ends_so(alloc, limit), "{}", limit.what);
    }
}

static HEADERS: [Limit; 2] = [
    Limit {
        what: "1024 columns",
        count: 1023,
        end: End {
            status: 0,
            out: Just(b""),
            err: Just(HEADING),
        },
    },
    Limit {
        what: "1025 columns",
        count: 1024,
        end: End {
            status: 3,
            out: Just(b""),
            err: Just(b"csvw: TooManyColumns table 1 row 1\n"),
        },
    },
];

/// Returns a header of `count` cells, `c` and their numbers, and one more.
fn header(alloc: Global, count: usize) -> Result<String, AllocError> {
    let mut text = String::new(alloc);
    for i in 0..count {
        write!(&mut text, "c{i},")?;
    }
    text.push_str("last\n")?;
    Ok(text)
}

/// Returns whether a run over a table with a header of this number of cells and one more ends as the limit says.
fn header_ends_so(alloc: Global, limit: &Limit) -> bool {
    match header(alloc, limit.count) {
        Ok(table) => table_ends_so(alloc, table.as_bytes(), limit.end),
        Err(_) => false,
    }
}

#[test]
fn headers_are_at_most_so_wide(rt: HostRuntime) {
    let alloc = rt.alloc();
    for limit in &HEADERS {
        assert!(rt; header_ends_so(alloc, limit), "{}", limit.what);
    }
}

static DOCUMENTS: [Limit; 2] = [
    Limit {
        what: "a document of 2^20 bytes",
        count: 1_048_576,
        end: End {
            status: 0,
            out: Just(HEADING),
            err: Just(b""),
        },
    },
    Limit {
        what: "a document of a byte more",
        count: 1_048_577,
        end: End {
            status: 3,
            out: Just(b""),
            err: Just(b"csvw: metadata TooLong \n"),
        },
    },
];

/// Returns whether a validation by this document, of a table without rows, ends like this.
fn validation_ends_so(alloc: Global, bytes: &[u8], end: End) -> bool {
    let files = [
        File {
            path: "m.json",
            bytes,
        },
        File {
            path: "p.csv",
            bytes: b"id,name\n",
        },
    ];
    ends_so(alloc, VALIDATE, &files, end)
}

/// Returns whether a validation ends as the limit says by a document that spaces fill up to this number of bytes.
fn document_ends_so(alloc: Global, limit: &Limit) -> bool {
    let spaces = limit.count.saturating_sub(META.len());
    match filled(alloc, META, b' ', spaces) {
        Ok(document) => validation_ends_so(alloc, document.as_slice(), limit.end),
        Err(_) => false,
    }
}

#[test]
fn documents_are_at_most_so_long(rt: HostRuntime) {
    let alloc = rt.alloc();
    for limit in &DOCUMENTS {
        assert!(rt; document_ends_so(alloc, limit), "{}", limit.what);
    }
}

static URL: Limit = Limit {
    what: "a URL of more than 2^16 bytes",
    count: 65_536,
    end: End {
        status: 3,
        out: Just(b""),
        err: Just(b"csvw: metadata UrlTooLong /url\n"),
    },
};

/// Returns whether a run over one table at this URL ends like this.
fn table_at_ends_so(alloc: Global, url: &[u8], end: End) -> bool {
    let files = [File {
        path: "p.csv",
        bytes: b"a\n1\n",
    }];
    let Ok(url) = str::from_utf8(url) else {
        return false;
    };
    match format!(in alloc; "csvw plain {url} p.csv") {
        Ok(words) => ends_so(alloc, words.as_str(), &files, end),
        Err(_) => false,
    }
}

/// Returns whether a run over one table at a URL with this number of letters ends as the limit says.
fn url_ends_so(alloc: Global, limit: &Limit) -> bool {
    match filled(alloc, b"http://example.org/", b'x', limit.count) {
        Ok(url) => table_at_ends_so(alloc, url.as_slice(), limit.end),
        Err(_) => false,
    }
}

#[test]
fn urls_are_at_most_so_long(rt: HostRuntime) {
    let alloc = rt.alloc();
    assert!(rt; url_ends_so(alloc, &URL), "{}", URL.what);
}
