//! `collapse`: white space is replaced and collapsed, the first two steps of reading a cell.
ghost use Rattle.std.specs.Prelude.{◌≡◌, IfOk, OnOk, string_bytes, ◌++◌, encode_utf8_all};
ghost use Rattle.std.specs.Str.{chars};
ghost use Rattle.csvw_text.specs.Collapse.{collapse};

use std::alloc::{AllocError, Global};

/// The place of the pass in the text.
#[derive(Clone, Copy)]
pub enum Stand {
    /// Before the first word.
    Front,
    /// In a word.
    Word,
    /// After a word, in white space.
    Gap,
}

impl Stand {
    ghost use Rattle.csvw_text.specs.Spaces.{next};

    fn after(self, white: bool) -> Stand
        ensures { result ≡ next self white }
    {
        match (self, white) {
            (Stand::Front, true) => Stand::Front,
            (_, true) => Stand::Gap,
            (_, false) => Stand::Word,
        }
    }
}

ghost use Rattle.csvw_text.specs.Spaces.{pushed};
ghost use Rattle.csvw_text.specs.Collapse.{is_space};

fn is_space(c: char) -> bool
    ensures { result ≡ is_space c }
{
    matches!(c, '\r' | '\n' | '\t' | ' ')
}

fn push_next(out: &mut String, stand: Stand, c: char) -> Result<(), AllocError>
    ensures { OnOk result (string_bytes out.new ≡ string_bytes out.old ++ encode_utf8_all (pushed stand c)) }
{
    if is_space(c) {
        return Ok(());
    }
    if matches!(stand, Stand::Gap) {
        out.push(' ')?;
    }
    out.push(c)
}

/// Returns the text with white space collapsed (Model for Tabular Data, section 6.4).
///
/// Each CR, LF and tab becomes a space. Each run of spaces becomes one space. The spaces at both ends are removed.
/// Returns `AllocError` if memory runs out.
pub fn collapse(alloc: Global, text: &str) -> Result<String, AllocError>
    ensures { IfOk result (λ s. string_bytes s ≡ encode_utf8_all (collapse (chars text.now))) }
{
    let mut out = String::new(alloc);
    let mut stand = Stand::Front;
    for c in text.chars() {
        push_next(&mut out, stand, c)?;
        stand = stand.after(is_space(c));
    }
    Ok(out)
}
