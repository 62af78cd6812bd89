//! The members of an object, each of which is read by its name.
ghost use Rattle.std.specs.Prelude.{◌≡◌, List, ℕ, MatchResult};
ghost use Rattle.serde_json.specs.Data.{Data};
ghost use Rattle.serde_json.specs.View.{view, members_view};
ghost use Rattle.csvw_meta_core.specs.Read.{Read, fine};
ghost use Rattle.csvw_meta_core.specs.Reads.{Fails};
ghost use Rattle.csvw_bundle.specs.Members.{ReadsAs, each_member};

use csvw_meta_core::Refusal;
use serde_json::{Map, Value, put};
use std::alloc::Global;

/// What the members of an object become. The ghost member `reads` defines it, by the name and the value.
pub(crate) trait MemberReader {
    ghost reads: { Self → List ℕ → Data → Read Data };

    /// Returns the value that a member has instead, or its fault.
    fn read(&self, name: &str, value: &Value) -> Result<Value, Refusal>
        ensures { ReadsAs result (reads self.now name.now (view value.now)) };
}

/// Returns the members of an object with the values that they have instead, or the fault of one of them.
pub(crate) fn each_member<R: MemberReader>(
    alloc: Global,
    reader: &R,
    members: &Map<String, Value>,
) -> Result<Map<String, Value>, Refusal>
    ensures { MatchResult result (λ m. each_member (R.reads reader.now) (members_view members.now.entries) ≡ fine (members_view m.entries))
        (λ e. Fails e (each_member (R.reads reader.now) (members_view members.now.entries)).faults) }
{
    let mut read = Map::new(alloc);
    for (name, value) in members.iter() {
        let value = reader.read(name.as_str(), value)?;
        put(&mut read, alloc, name.as_str(), value)?;
    }
    Ok(read)
}
