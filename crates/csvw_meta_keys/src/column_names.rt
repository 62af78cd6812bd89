//! Names of columns in keys (Metadata Vocabulary for Tabular Data, section 5.1.4: column references).
ghost use Rattle.std.specs.Prelude.{◌≡◌, IfOk};
ghost use Rattle.csvw_meta_core.specs.Pointer.{text_of};
ghost use Rattle.csvw_meta_keys.specs.ColumnNames.{named_at, key_name, column_names, row_titles};

use csvw_meta_core::{MetaCode, NumberedReader, Part, Profile, Reader, Refusal, Several};
use csvw_text::{Seq, Text};
use serde_json::Value;
use std::alloc::AllocError;

/// How many columns a key has at most.
pub const MAX_COLUMNS: u32 = 16;

/// The name of a column in a key, and its place.
#[derive(Debug, Drop)]
pub struct KeyName {
    /// The name.
    pub name: Text,
    /// The JSON Pointer (RFC 6901) of the text.
    pub at: Text,
}

/// Returns a name at the place of a part, or `AllocError` if there is no memory.
pub fn name_here(part: &Part, name: &str) -> Result<KeyName, AllocError>
    ensures { IfOk result (λ k. k ≡ named_at (text_of part.now.at) name.now) }
{
    Ok(KeyName {
        name: Text::copied(part.alloc, name)?,
        at: part.at.text(part.alloc)?,
    })
}

/// Reads the name of a column.
#[derive(Drop)]
pub struct KeyNameReader;

impl NumberedReader for KeyNameReader {
    type Output = KeyName;

    ghost reads = { λ _ n. key_name };

    fn read(&self, _number: u32, part: &Part) -> Result<KeyName, Refusal> {
        match part.value.as_str() {
            Some(name) => Ok(name_here(part, name)?),
            None => Err(part.wrong()),
        }
    }
}

/// Reads the name of a column, or an array of 1 to 16 names. An empty array is `BadProperty`, and a longer one is
/// `TooMany`.
#[derive(Drop)]
pub struct ColumnNames;

impl Reader for ColumnNames {
    type Output = Seq<KeyName>;

    ghost reads = { λ _. column_names };

    fn read(&self, part: &Part) -> Result<Seq<KeyName>, Refusal> {
        match part.value {
            Value::String(name) => {
                let mut one = Seq::new(part.alloc);
                one.push(name_here(part, name.as_str())?)?;
                Ok(one)
            }
            _ => {
                let names = Several {
                    reader: KeyNameReader,
                    least: 1,
                    most: MAX_COLUMNS,
                };
                names.read(part)
            }
        }
    }
}

/// Reads the property `rowTitles` of a schema (section 5.5): the columns whose values are titles of their rows. In the
/// profile `W3c` they are `ColumnNames`. In the profile `Core` the property is `NotSupported`.
#[derive(Drop)]
pub struct RowTitles {
    /// The profile.
    pub profile: Profile,
}

impl Reader for RowTitles {
    type Output = Seq<KeyName>;

    ghost reads = { λ r. row_titles r.profile };

    fn read(&self, part: &Part) -> Result<Seq<KeyName>, Refusal> {
        match self.profile {
            Profile::Core => Err(part.refused(MetaCode::NotSupported)),
            Profile::W3c => ColumnNames.read(part),
        }
    }
}
