//! The names of the members of an object in an annotation (Metadata Vocabulary for Tabular Data, section 6.2).
ghost use Rattle.std.specs.Prelude.{◌≡◌};
ghost use Rattle.serde_json.specs.View.{view, members_view};
ghost use Rattle.csvw_meta_core.specs.Others.{has_colon};
ghost use Rattle.csvw_meta_core.specs.Pointer.{text_of};
ghost use Rattle.csvw_meta_core.specs.Reads.{Reads};
ghost use Rattle.csvw_meta_notes.specs.Members.{has_at, is_plain, plain_member, is_literal_keyword, literal_member};
ghost use Rattle.csvw_meta_notes.specs.Members.{no_keyword, no_list, node_member, each_member};

use csvw_meta_core::{MetaCode, Part, Refusal};
use serde_json::{Map, Value};

/// Whether a name is the name of a common property.
pub fn has_colon(name: &str) -> bool
    ensures { result ≡ has_colon name.now }
{
    name.as_bytes().contains(&b':')
}

/// Whether a name is a keyword.
pub(crate) fn has_at(name: &str) -> bool
    ensures { result ≡ has_at name.now }
{
    name.starts_with("@")
}

fn is_plain(name: &str) -> bool
    ensures { result ≡ is_plain name.now }
{
    !has_at(name) && !has_colon(name)
}

#[tactic(auto, unfolding(crate::specs::Members::plain_member))]
fn check_plain(part: &Part, name: &str, value: &Value) -> Result<(), Refusal>
    ensures { Reads result (plain_member (text_of part.now.at) name.now (view value.now)) }
{
    if is_plain(name) {
        return Ok(());
    }
    Err(part.member(name, value).wrong())
}

fn is_literal_keyword(name: &str) -> bool
    ensures { result ≡ is_literal_keyword name.now }
{
    name == "@value" || name == "@language" || name == "@type"
}

/// Checks a member of a literal. Any other keyword, and any common property, is `BadProperty`, or `NotSupported` if its
/// value is a number that is not whole.
pub fn check_literal_member(part: &Part, name: &str, value: &Value) -> Result<(), Refusal>
    ensures { Reads result (literal_member (text_of part.now.at) name.now (view value.now)) }
{
    if is_literal_keyword(name) {
        return Ok(());
    }
    check_plain(part, name, value)
}

/// Checks the members of a literal. Any other keyword, and any common property, is `BadProperty`.
pub(crate) fn check_literal_members(
    part: &Part,
    members: &Map<String, Value>,
) -> Result<(), Refusal>
    ensures { Reads result (each_member literal_member (text_of part.now.at) (members_view members.now.entries)) }
{
    for (name, value) in members.iter() {
        check_literal_member(part, name.as_str(), value)?;
    }
    Ok(())
}

fn check_no_keyword(part: &Part, name: &str, value: &Value) -> Result<(), Refusal>
    ensures { Reads result (no_keyword (text_of part.now.at) name.now (view value.now)) }
{
    if !has_at(name) {
        return Ok(());
    }
    Err(part.member(name, value).wrong())
}

fn check_no_list(part: &Part, name: &str, value: &Value) -> Result<(), Refusal>
    ensures { Reads result (no_list (text_of part.now.at) name.now (view value.now)) }
{
    if matches!(name, "@list" | "@set") {
        return Err(part.member(name, value).refused(MetaCode::NotSupported));
    }
    check_no_keyword(part, name, value)
}

/// Checks a member of a node. A list or a set is `NotSupported`. Any other keyword is `BadProperty`, or `NotSupported` if
/// its value is a number that is not whole.
pub fn check_node_member(part: &Part, name: &str, value: &Value) -> Result<(), Refusal>
    ensures { Reads result (node_member (text_of part.now.at) name.now (view value.now)) }
{
    if matches!(name, "@id" | "@type") {
        return Ok(());
    }
    check_no_list(part, name, value)
}

/// Checks the members of a node. A list or a set is `NotSupported`, and any other keyword is `BadProperty`.
pub(crate) fn check_node_members(part: &Part, members: &Map<String, Value>) -> Result<(), Refusal>
    ensures { Reads result (each_member node_member (text_of part.now.at) (members_view members.now.entries)) }
{
    for (name, value) in members.iter() {
        check_node_member(part, name.as_str(), value)?;
    }
    Ok(())
}
