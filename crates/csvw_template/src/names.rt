//! The list of variable names in an expression. One pass finds whether a text is such a list.
ghost use Rattle.std.specs.Prelude.{◌≡◌};
ghost use Rattle.csvw_template.specs.Name.{is_hex, is_name_byte};
ghost use Rattle.csvw_template.specs.Grammar.{is_modifier};
ghost use Rattle.csvw_template.specs.Reading.{varchar_step, step, kind_of, is_end};

/// The place of the pass in a list of names.
#[derive(Clone, Copy, Debug, PartialEq, Eq)]
pub(crate) enum Place {
    /// Before a name.
    Front,
    /// After a character of a name.
    Char,
    /// After a dot.
    Dot,
    /// After `%`.
    Percent,
    /// After the first digit of a triplet.
    Digit,
}

/// What a text after the operator is.
#[derive(Clone, Copy, Debug, PartialEq, Eq)]
pub(crate) enum Kind {
    /// Names, with commas between them.
    Names,
    /// Names with a modifier after them.
    Higher,
    /// Neither.
    Bad,
}

pub(crate) fn is_hex(b: u8) -> bool
    ensures { result ≡ is_hex b }
{
    matches!(b, b'0'..=b'9' | b'A'..=b'F' | b'a'..=b'f')
}

fn is_name_byte(b: u8) -> bool
    ensures { result ≡ is_name_byte b }
{
    matches!(b, b'0'..=b'9' | b'A'..=b'Z' | b'a'..=b'z' | b'_')
}

fn is_modifier(b: u8) -> bool
    ensures { result ≡ is_modifier b }
{
    matches!(b, b':' | b'*')
}

fn varchar_step(b: u8) -> Option<Place>
    ensures { result ≡ varchar_step b }
{
    if b == b'%' {
        Some(Place::Percent)
    } else if is_name_byte(b) {
        Some(Place::Char)
    } else {
        None
    }
}

fn step(place: Place, b: u8) -> Option<Place>
    ensures { result ≡ step place b }
{
    match place {
        Place::Front | Place::Dot => varchar_step(b),
        Place::Char if b == b'.' => Some(Place::Dot),
        Place::Char if b == b',' => Some(Place::Front),
        Place::Char => varchar_step(b),
        Place::Percent if is_hex(b) => Some(Place::Digit),
        Place::Digit if is_hex(b) => Some(Place::Char),
        Place::Percent | Place::Digit => None,
    }
}

fn is_end(place: Place) -> bool
    ensures { result ≡ is_end place }
{
    matches!(place, Place::Char)
}

#[tactic(auto, unfolding(crate::specs::Reading::kind_of))]
pub(crate) fn kind_of(text: &[u8]) -> Kind
    ensures { result ≡ kind_of text.now }
{
    let mut place = Place::Front;
    for b in text {
        if is_end(place) && is_modifier(*b) {
            return Kind::Higher;
        }
        match step(place, *b) {
            None => return Kind::Bad,
            Some(next) => place = next,
        }
    }
    if is_end(place) {
        Kind::Names
    } else {
        Kind::Bad
    }
}
