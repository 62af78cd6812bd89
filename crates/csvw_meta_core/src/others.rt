//! The properties of an object that the vocabulary doesn't list for it (Metadata Vocabulary for Tabular Data, sections
//! 4.1 and 5.8).
ghost use Rattle.std.specs.Prelude.{◌≡◌};
ghost use Rattle.serde_json.specs.View.{view, members_view};
ghost use Rattle.csvw_meta_core.specs.Pointer.{text_of};
ghost use Rattle.csvw_meta_core.specs.Reads.{Reads};
ghost use Rattle.csvw_meta_core.specs.Others.{has_colon, is_among, names_of, judged, other, others_in, others};
ghost use Rattle.csvw_meta_core.specs.Listed.{all_names};

use crate::fault::Refusal;
use crate::part::Part;
use crate::reader::Reader;
use csvw_text::{Code, Fault, Kind, Place, Seq};
use serde_json::{Map, Value};

/// How a common property of an object is treated. A common property has a colon in its name and is not listed.
#[derive(Debug, Clone, Copy, Drop)]
pub enum CommonProperty {
    /// It is an annotation of the object and makes no warning.
    Allowed,
    /// It is `BadProperty`, or `NotSupported` if its value is a number that is not whole.
    Refused,
}

/// Makes a warning for each property of an object that is not listed for it and is not a common property.
#[derive(Drop)]
pub struct Listed<'a> {
    /// The names of the properties that are listed for this kind of object.
    pub names: &'a [&'a str],
    /// The names of the properties that are listed for it and for other kinds.
    pub shared: &'a [&'a str],
    /// How its common properties are treated.
    pub common: CommonProperty,
    /// The place of the warnings.
    pub place: Place,
}

impl<'a> Reader for Listed<'a> {
    type Output = Seq<Fault>;

    ghost reads = { λ r. others (all_names r) r.common r.place };

    fn read(&self, part: &Part) -> Result<Seq<Fault>, Refusal> {
        match part.value {
            Value::Object(members) => others_in(part, self, members),
            _ => Ok(Seq::new(part.alloc)),
        }
    }
}

fn others_in(
    part: &Part,
    listed: &Listed,
    members: &Map<String, Value>,
) -> Result<Seq<Fault>, Refusal>
    ensures { Reads result (others_in (all_names listed.now) listed.now.common listed.now.place (text_of part.now.at) (members_view members.now.entries)) }
{
    let mut warnings = Vec::new(part.alloc);
    for (name, value) in members.iter() {
        if is_ignored(part, listed, name.as_str(), value)? {
            warnings.push(Fault {
                place: listed.place,
                code: Code::UnknownProperty,
                kind: Kind::Warning,
            })?;
        }
    }
    Ok(Seq::of(warnings))
}

fn is_ignored(part: &Part, listed: &Listed, name: &str, value: &Value) -> Result<bool, Refusal>
    ensures { Reads result (other (all_names listed.now) listed.now.common (text_of part.now.at) name.now (view value.now)) }
{
    if is_among(listed.names, name) || is_among(listed.shared, name) {
        return Ok(false);
    }
    if has_colon(name) {
        return judge_common(listed.common, &part.member(name, value));
    }
    Ok(true)
}

fn judge_common(common: CommonProperty, property: &Part) -> Result<bool, Refusal>
    ensures { Reads result (judged common (text_of property.now.at) (view property.now.value.now)) }
{
    match common {
        CommonProperty::Allowed => Ok(false),
        CommonProperty::Refused => Err(property.wrong()),
    }
}

fn has_colon(name: &str) -> bool
    ensures { result ≡ has_colon name.now }
{
    name.as_bytes().contains(&b':')
}

fn is_among(names: &[&str], name: &str) -> bool
    ensures { result ≡ is_among (names_of names.now) name.now }
{
    for listed in names {
        if *listed == name {
            return true;
        }
    }
    false
}
