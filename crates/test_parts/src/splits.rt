//! Files and their plans.

use csvw_columns::Plan;
use csvw_meta::read;
use csvw_part_plan::{Piece, read_plan, write_plan};
use csvw_split::{SplitStop, TableFile, split};
use csvw_streams::Counted;
use std::alloc::{AllocError, Global};
use std::process::Abort;
use std::str;

/// The URL of each document.
const BASE: &str = "http://example.org/";

/// A table `a.csv`.
const ONE: &str = r#"{"@context":"http://www.w3.org/ns/csvw","url":"a.csv"}"#;

/// A table `a.csv` without a header row.
const BARE: &str =
    r#"{"@context":"http://www.w3.org/ns/csvw","url":"a.csv","dialect":{"header":false}}"#;

/// A table `a.csv` with two columns and without a header row.
const DECLARED: &str =
    r#"{"@context":"http://www.w3.org/ns/csvw","url":"a.csv","dialect":{"header":false},"tableSchema":{"columns":[{"name":"x"},{"name":"y"}]}}"#;

/// A table `a.csv` whose first row is skipped.
const SKIPPED: &str =
    r#"{"@context":"http://www.w3.org/ns/csvw","url":"a.csv","dialect":{"skipRows":1}}"#;

/// Two tables.
const TWO: &str =
    r#"{"@context":"http://www.w3.org/ns/csvw","tables":[{"url":"a.csv"},{"url":"b.csv"}]}"#;

/// Files that are split.
struct Case {
    /// What the case shows.
    name: &'static str,
    /// The metadata document.
    meta: &'static str,
    /// The files of its tables.
    files: &'static [&'static str],
    /// The greatest number of parts.
    parts: u32,
    /// The lines of the plan after its heading, or the stop.
    want: &'static str,
}

static CASES: [Case; 19] = [
    Case {
        name: "one part has everything",
        meta: ONE,
        files: &["id,n\n1,2\n3,4\n"],
        parts: 1,
        want: "1,1,0,13,0,0,5\n",
    },
    Case {
        name: "two parts",
        meta: ONE,
        files: &["id,n\n1,2\n3,4\n"],
        parts: 2,
        want: "1,1,0,9,0,0,5\n2,1,9,4,2,1,5\n",
    },
    Case {
        name: "no part without a data row",
        meta: ONE,
        files: &["id,n\n1,2\n3,4\n"],
        parts: 9,
        want: "1,1,0,9,0,0,5\n2,1,9,4,2,1,5\n",
    },
    Case {
        name: "0 parts are 1",
        meta: ONE,
        files: &["id,n\n1,2\n3,4\n"],
        parts: 0,
        want: "1,1,0,13,0,0,5\n",
    },
    Case {
        name: "a quoted line break is no end",
        meta: ONE,
        files: &["id,n\n\"a\nb\",2\n3,4\n"],
        parts: 2,
        want: "1,1,0,13,0,0,5\n2,1,13,4,2,1,5\n",
    },
    Case {
        name: "a mark and a comment",
        meta: ONE,
        files: &["\u{FEFF}id\n#c\n1\n2\n"],
        parts: 2,
        want: "1,1,0,11,0,0,6\n2,1,11,2,3,1,6\n",
    },
    Case {
        name: "carriage returns",
        meta: ONE,
        files: &["id\r\n1\r\n2\r\n"],
        parts: 2,
        want: "1,1,0,7,0,0,4\n2,1,7,3,2,1,4\n",
    },
    Case {
        name: "no line feed at the end",
        meta: ONE,
        files: &["id\n1\n2"],
        parts: 2,
        want: "1,1,0,5,0,0,3\n2,1,5,1,2,1,3\n",
    },
    Case {
        name: "no header, no columns",
        meta: BARE,
        files: &["1,2\n3,4\n5,6\n"],
        parts: 3,
        want: "1,1,0,4,0,0,4\n2,1,4,4,1,1,4\n3,1,8,4,2,2,4\n",
    },
    Case {
        name: "no header, two columns",
        meta: DECLARED,
        files: &["1,2\n3,4\n5,6\n"],
        parts: 2,
        want: "1,1,0,8,0,0,4\n2,1,8,4,2,2,4\n",
    },
    Case {
        name: "a skipped row",
        meta: SKIPPED,
        files: &["junk\nid\n1\n2\n"],
        parts: 2,
        want: "1,1,0,10,0,0,8\n2,1,10,2,3,1,8\n",
    },
    Case {
        name: "a small table shares a part",
        meta: TWO,
        files: &["a\n1\n", "b\n1\n2\n3\n"],
        parts: 2,
        want: "1,1,0,4,0,0,2\n1,2,0,4,0,0,2\n2,2,4,4,2,1,2\n",
    },
    Case {
        name: "a table begins a part",
        meta: TWO,
        files: &["a\n1\n2\n", "b\n1\n2\n"],
        parts: 2,
        want: "1,1,0,6,0,0,2\n2,2,0,6,0,0,2\n",
    },
    Case {
        name: "one part has both tables",
        meta: TWO,
        files: &["a\n1\n2\n", "b\n1\n2\n"],
        parts: 1,
        want: "1,1,0,6,0,0,2\n1,2,0,6,0,0,2\n",
    },
    Case {
        name: "an empty file",
        meta: TWO,
        files: &["", "b\n1\n"],
        parts: 2,
        want: "1,1,0,0,0,0,0\n1,2,0,4,0,0,2\n",
    },
    Case {
        name: "a header alone",
        meta: TWO,
        files: &["a", "b\n1\n"],
        parts: 1,
        want: "1,1,0,1,0,0,1\n1,2,0,4,0,0,2\n",
    },
    Case {
        name: "a quote that isn't closed",
        meta: ONE,
        files: &["id\n\"a\n"],
        parts: 2,
        want: "Rows { table: 1, row: 2, stop: UnclosedQuote }",
    },
    Case {
        name: "a quote in the second table",
        meta: TWO,
        files: &["a\n1\n", "b\n1\n2\"\n"],
        parts: 2,
        want: "Rows { table: 2, row: 3, stop: BadQuote }",
    },
    Case {
        name: "a file too few",
        meta: TWO,
        files: &["a\n1\n"],
        parts: 2,
        want: "TableCount",
    },
];

/// Returns the plan of the group that a document describes.
fn plan_of(alloc: Global, meta: &str) -> Option<Plan> {
    let description = read(alloc, meta.as_bytes(), BASE).ok()?;
    match Plan::build(alloc, description) {
        Ok(plan) => Some(plan),
        Err(_) => None,
    }
}

/// Which length is said of a file.
#[derive(Clone, Copy)]
enum Said {
    /// The number of its bytes.
    True,
    /// One byte more.
    More,
    /// One byte less.
    Less,
}

/// Returns the length that is said of a file of so many bytes.
fn length_of(bytes: usize, said: Said) -> u64 {
    let bytes = bytes as u64;
    match said {
        Said::True => bytes,
        Said::More => bytes.saturating_add(1),
        Said::Less => bytes.saturating_sub(1),
    }
}

/// Returns the files of these texts.
fn files_of<'a>(
    alloc: Global,
    texts: &[&'a str],
    said: Said,
) -> Result<Vec<TableFile<&'a [u8]>>, AllocError> {
    let mut files = Vec::new(alloc);
    for text in texts {
        let bytes = text.as_bytes();
        files.push(TableFile {
            reader: Counted::new(bytes),
            length: length_of(bytes.len(), said),
        })?;
    }
    Ok(files)
}

/// Returns the lines after the first one.
fn after_heading(alloc: Global, text: &[u8]) -> Result<String, AllocError> {
    let lines = match str::from_utf8(text) {
        Ok(text) => text.split_once('\n'),
        Err(_) => None,
    };
    match lines {
        Some((_, lines)) => String::from_str(alloc, lines),
        None => String::from_str(alloc, "no heading"),
    }
}

/// Returns the text of a plan after its heading. The plan must be read again as it was.
fn written(alloc: Global, pieces: &[Piece]) -> Result<String, AllocError> {
    let mut out = Counted::new(Vec::new(alloc));
    if write_plan(pieces, &mut out).is_err() {
        return Err(AllocError);
    }
    let text = out.into_inner();
    match read_plan(alloc, text.as_slice()) {
        Ok(again) if again.as_slice() == pieces => after_heading(alloc, text.as_slice()),
        _ => String::from_str(alloc, "not read again"),
    }
}

/// Returns the text of the plan of some files after its heading, or the stop.
fn split_text(
    alloc: Global,
    meta: &str,
    texts: &[&str],
    said: Said,
    parts: u32,
) -> Result<String, AllocError> {
    let Some(plan) = plan_of(alloc, meta) else {
        return String::from_str(alloc, "no plan");
    };
    let mut files = files_of(alloc, texts, said)?;
    match split(alloc, plan.tables(), files.as_mut_slice(), parts) {
        Ok(pieces) => written(alloc, pieces.as_slice()),
        Err(stop) => format!(in alloc; "{stop:?}"),
    }
}

/// Returns whether the files of a case have the expected plan or stop.
fn gives(alloc: Global, case: &Case) -> Result<bool, AllocError> {
    let text = split_text(alloc, case.meta, case.files, Said::True, case.parts)?;
    Ok(text.as_str() == case.want)
}

#[test]
fn worked(rt: HostRuntime) {
    for case in &CASES {
        assert!(rt; gives(rt.alloc(), case) == Ok(true), "{}", case.name);
    }
}

/// Returns whether a file of another length than is said is refused.
fn refuses(alloc: Global, said: Said) -> Result<bool, AllocError> {
    let text = split_text(alloc, TWO, &["a\n1\n", "b\n1\n"], said, 2)?;
    Ok(text.as_str() == "Length { table: 1 }")
}

#[test]
fn other_lengths(rt: HostRuntime) {
    assert!(rt; refuses(rt.alloc(), Said::More) == Ok(true));
    assert!(rt; refuses(rt.alloc(), Said::Less) == Ok(true));
}

/// The plan of 7 parts of a header row of 3 bytes and 20,000 rows of 6 bytes. A share has 17,144 bytes.
const LONG: &str = "\
1,1,0,17145,0,0,3
2,1,17145,17148,2858,2857,3
3,1,34293,17142,5716,5715,3
4,1,51435,17142,8573,8572,3
5,1,68577,17148,11430,11429,3
6,1,85725,17142,14288,14287,3
7,1,102867,17136,17145,17144,3
";

/// Returns whether a long file has the expected plan.
fn long_gives(alloc: Global) -> Result<bool, AllocError> {
    let rows = "12345\n".repeat(alloc, 20_000)?;
    let file = format!(in alloc; "id\n{}", rows.as_str())?;
    let text = split_text(alloc, ONE, &[file.as_str()], Said::True, 7)?;
    Ok(text.as_str() == LONG)
}

#[test]
fn a_long_file(rt: HostRuntime) {
    assert!(rt; long_gives(rt.alloc()) == Ok(true));
}

/// Returns whether the second table of a group alone is refused.
fn refuses_order(alloc: Global) -> Result<bool, AllocError> {
    let Some(plan) = plan_of(alloc, TWO) else {
        return Ok(false);
    };
    let Some((_, later)) = plan.tables().split_first() else {
        return Ok(false);
    };
    let mut files = files_of(alloc, &["b\n1\n"], Said::True)?;
    let pieces = split(alloc, later, files.as_mut_slice(), 2);
    Ok(matches!(pieces, Err(SplitStop::NoPlan)))
}

#[test]
fn tables_out_of_order(rt: HostRuntime) {
    assert!(rt; refuses_order(rt.alloc()) == Ok(true));
}
