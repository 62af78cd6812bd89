//! `Bound`: the place of the text of a field.
ghost use Rattle.std.specs.Prelude.{◌≡◌, true};
ghost use Rattle.csvw_fields.specs.Bounds.{bytes_at, is_bound};

/// The place of the text of a field: among the bytes that were read or, if `apart` is true, in a second buffer.
/// Places are in bytes from 0.
#[derive(Clone, Copy, Debug, PartialEq, Eq)]
pub struct Bound {
    /// The place of the first byte, from 0.
    pub from: usize,
    /// The place after the last byte.
    pub to: usize,
    /// Whether the text is in the second buffer.
    pub apart: bool,
}

/// Returns the text of a field. `text` is the bytes that were read, and `spare` is the second buffer.
pub fn text_at<'a>(text: &'a [u8], spare: &'a [u8], bound: Bound) -> &'a str
    requires { is_bound text.now spare.now bound ≡ true }
    ensures { result.now ≡ bytes_at text.now spare.now bound }
{
    let home = if bound.apart { spare } else { text };
    let (_, behind) = home.split_at(bound.from);
    let (field, _) = behind.split_at(bound.to - bound.from);
    unsafe { str::from_utf8_unchecked(field) }
}
