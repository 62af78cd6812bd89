//! The place of a value in a document.
ghost use Rattle.std.specs.Prelude.{◌≡◌, ◌++◌, IfOk, OnOk, string_bytes, encode_utf8};
ghost use Rattle.csvw_meta_core.specs.Pointer.{text_of, escape, escaped};

use csvw_text::Text;
use std::alloc::{AllocError, Global};

/// The place of a value in a document: a JSON Pointer (RFC 6901). It is kept as its steps, so one step further takes no
/// memory. Contracts see its text, by `text_of`.
#[derive(Clone, Copy)]
pub enum Pointer<'a> {
    /// The whole document.
    Root,
    /// The member of that name, in the object at the pointer.
    Member(&'a Pointer<'a>, &'a str),
    /// The item of that index, from 0, in the array at the pointer.
    Item(&'a Pointer<'a>, usize),
}

impl<'a> Pointer<'a> {
    /// Returns the text of the pointer. In a name, `~` becomes `~0` and `/` becomes `~1`. It returns `AllocError` if
    /// there is no memory.
    pub fn text(&self, alloc: Global) -> Result<Text, AllocError>
        ensures { IfOk result (λ t. t ≡ text_of self.now) }
    {
        match self {
            Pointer::Root => Ok(Text::new(alloc)),
            Pointer::Member(above, name) => {
                let mut text = above.text(alloc)?;
                let step = escaped(alloc, name)?;
                text.push_str("/")?;
                text.push_str(step.as_str())?;
                Ok(text)
            }
            Pointer::Item(above, index) => {
                let mut text = above.text(alloc)?;
                let step = index.to_string(alloc)?;
                text.push_str("/")?;
                text.push_str(step.as_str())?;
                Ok(text)
            }
        }
    }
}

fn escaped(alloc: Global, name: &str) -> Result<String, AllocError>
    ensures { IfOk result (λ s. string_bytes s ≡ escaped name.now) }
{
    let mut out = String::new(alloc);
    for c in name.chars() {
        push_escaped(&mut out, c)?;
    }
    Ok(out)
}

fn push_escaped(out: &mut String, c: char) -> Result<(), AllocError>
    ensures { OnOk result (string_bytes out.new ≡ string_bytes out.old ++ escape c (encode_utf8 c)) }
{
    match c {
        '~' => out.push_str("~0"),
        '/' => out.push_str("~1"),
        _ => out.push(c),
    }
}
