//! A page in JSON: an object for each fault.

use crate::shown::{FaultShown, Meant, MoreShown, SpotShown, StopShown, UnknownShown, kind_name};
use csvw_text::Code;
use serde::{Described, Serialize, Serializer};
use std::alloc::{AllocError, Global};

/// The lines of a text, without the spaces around each.
#[derive(Clone, Copy)]
struct Lines<'a> {
    text: &'a str,
}

impl Described for Lines<'_> {}

impl Serialize for Lines<'_> {
    fn serialize<S: Serializer>(&self, out: &mut S) -> Result<(), S::Error> {
        out.begin_seq(None)?;
        for line in self.text.lines() {
            out.str(line.trim())?;
        }
        out.end_seq()
    }
}

/// The members of an object of any kind but `rest`.
#[derive(Clone, Copy)]
struct Members<'a> {
    kind: &'static str,
    code: &'a str,
    sentence: &'a str,
    file: &'a str,
    table: u32,
    row: u64,
    line: u64,
    column: u64,
    name: &'a str,
}

/// The members of an object of the kind `rest`.
#[derive(Clone, Copy)]
struct Rest<'a> {
    code: &'a str,
    file: &'a str,
    table: u32,
    column: u32,
    count: u64,
}

/// Adds a member of an object, after a text.
fn push_member<T: Serialize>(
    lines: &mut String,
    before: &str,
    name: &str,
    value: &T,
) -> Result<(), AllocError> {
    let Ok(value) = serde_json::to_string(*lines.allocator(), value) else {
        return Err(AllocError);
    };
    write!(lines, "{before}\"{name}\":{value}")
}

/// An object to whose line members are added, in byte order of their names. Once memory runs out, no more is added.
#[derive(Drop)]
struct Object<'a> {
    lines: &'a mut String,
    has_member: bool,
    is_cut: bool,
}

impl<'a> Object<'a> {
    /// Begins an object.
    fn new(lines: &'a mut String) -> Object<'a> {
        Object {
            lines,
            has_member: false,
            is_cut: false,
        }
    }

    /// Adds a member.
    fn put<T: Serialize>(&mut self, name: &str, value: &T) {
        if !self.is_cut {
            let before = if self.has_member { "," } else { "{" };
            self.has_member = true;
            self.is_cut = push_member(self.lines, before, name, value).is_err();
        }
    }

    /// Ends the object. Fails with `AllocError` if memory ran out.
    fn end(self) -> Result<(), AllocError> {
        if self.is_cut {
            return Err(AllocError);
        }
        self.lines.push('}')
    }
}

/// Adds an object of any kind but `rest`, with the lines of hints if there are some, and with the text of a cell, which is
/// null if there is none.
fn push_object(
    lines: &mut String,
    members: &Members<'_>,
    hints: Option<Lines<'_>>,
    text: Option<&str>,
) -> Result<(), AllocError> {
    let mut object = Object::new(lines);
    object.put("code", &members.code);
    object.put("column", &members.column);
    object.put("file", &members.file);
    if let Some(hints) = hints {
        object.put("hints", &hints);
    }
    object.put("kind", &members.kind);
    object.put("line", &members.line);
    object.put("name", &members.name);
    object.put("row", &members.row);
    object.put("sentence", &members.sentence);
    object.put("table", &members.table);
    object.put("text", &text);
    object.end()
}

/// Adds an object of the kind `rest`.
fn push_rest_of(lines: &mut String, rest: &Rest<'_>) -> Result<(), AllocError> {
    let mut object = Object::new(lines);
    object.put("code", &rest.code);
    object.put("column", &rest.column);
    object.put("count", &rest.count);
    object.put("file", &rest.file);
    object.put("kind", &"rest");
    object.put("table", &rest.table);
    object.end()
}

/// Adds a fault.
pub(crate) fn push_fault(lines: &mut String, shown: &FaultShown<'_>) -> Result<(), AllocError> {
    let code = shown.fault.code;
    let sentence = code.to_string(*lines.allocator())?;
    let members = Members {
        kind: kind_name(shown.fault.kind),
        code: code.name(),
        sentence: sentence.as_str(),
        file: shown.path,
        table: shown.fault.place.table,
        row: shown.fault.place.row,
        line: shown.line,
        column: u64::from(shown.fault.place.column),
        name: shown.name,
    };
    let text = match &shown.cell {
        Some(cell) => Some(cell.text),
        None => None,
    };
    push_object(lines, &members, None, text)
}

/// What is told of a value that isn't permitted.
const NOT_PERMITTED: &str =
    "the value isn't permitted, so it is ignored: correct it, or leave it out";

/// Returns what is wrong with a property that is ignored, and what is meant.
fn unknown_sentence(alloc: Global, shown: &UnknownShown<'_>) -> Result<String, AllocError> {
    if let Meant::Value = shown.meant {
        return String::from_str(alloc, NOT_PERMITTED);
    }
    let mut sentence = Code::UnknownProperty.to_string(alloc)?;
    match shown.meant {
        Meant::Nothing | Meant::Value => {}
        Meant::Name(name) => write!(sentence, ": did you mean \"{name}\"?")?,
        Meant::Object(object) => write!(sentence, ": it is a property of {object}")?,
    }
    Ok(sentence)
}

/// Adds a property of the document that is ignored. Its line and its column are those of the document.
pub(crate) fn push_unknown(lines: &mut String, shown: &UnknownShown<'_>) -> Result<(), AllocError> {
    let sentence = unknown_sentence(*lines.allocator(), shown)?;
    let members = Members {
        kind: "warning",
        code: Code::UnknownProperty.name(),
        sentence: sentence.as_str(),
        file: shown.path,
        table: 0,
        row: 0,
        line: shown.line,
        column: shown.column,
        name: shown.name,
    };
    push_object(lines, &members, None, None)
}

/// Adds a property of the document at a path that is ignored, and whose place isn't known.
pub(crate) fn push_unplaced(lines: &mut String, meta: &str) -> Result<(), AllocError> {
    push_unknown(
        lines,
        &UnknownShown {
            path: meta,
            line: 0,
            column: 0,
            pointer: "",
            name: "",
            object: "",
            meant: Meant::Nothing,
        },
    )
}

/// Adds how many faults of one code in one column are not shown.
pub(crate) fn push_rest(lines: &mut String, shown: &SpotShown<'_>) -> Result<(), AllocError> {
    let rest = Rest {
        code: shown.spot.code.name(),
        file: shown.path,
        table: shown.spot.table,
        column: shown.spot.column,
        count: shown.times,
    };
    push_rest_of(lines, &rest)
}

/// Adds how many faults of one code in the document are not shown.
pub(crate) fn push_more(lines: &mut String, shown: &MoreShown<'_>) -> Result<(), AllocError> {
    let rest = Rest {
        code: shown.name,
        file: shown.path,
        table: 0,
        column: 0,
        count: shown.times,
    };
    push_rest_of(lines, &rest)
}

/// Adds why the document or a table wasn't read. Its name is the JSON Pointer of a value of the document.
pub(crate) fn push_stop(lines: &mut String, shown: &StopShown<'_>) -> Result<(), AllocError> {
    let members = Members {
        kind: "stop",
        code: shown.name,
        sentence: shown.sentence,
        file: shown.path,
        table: shown.table,
        row: shown.row,
        line: shown.line,
        column: shown.column,
        name: shown.pointer,
    };
    let hints = Lines { text: shown.hints };
    push_object(lines, &members, Some(hints), None)
}
