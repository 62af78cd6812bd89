//! Foreign keys (Metadata Vocabulary for Tabular Data, section 5.5.2.1).
ghost use Rattle.std.specs.Prelude.{◌≡◌, ◌++◌, [], IfOk};
ghost use Rattle.serde_json.specs.View.{view};
ghost use Rattle.csvw_meta_core.specs.Pointer.{text_of};
ghost use Rattle.csvw_meta_core.specs.Others.{others};
ghost use Rattle.csvw_meta_core.specs.declared.others.CommonProperty.TheVariants.{Refused};
ghost use Rattle.csvw_meta_core.specs.Reads.{Reads};
ghost use Rattle.csvw_meta_keys.specs.ForeignKeys.{foreign_key_names, foreign_key_of, joined};

use crate::column_names::{ColumnNames, KeyName};
use crate::reference::{NamedTable, ReferenceFound, ReferenceReader};
use csvw_iri::Base;
use csvw_meta_core::{
    CommonProperty, Listed, NumberedReader, Part, Profile, Reader, Refusal, joined,
};
use csvw_text::{Fault, Place, Seq, Text, both};
use serde_json::Value;
use std::alloc::AllocError;

/// The properties that are listed for a foreign key.
pub const FOREIGN_KEY: [&str; 2] = ["columnReference", "reference"];

/// A foreign key, as a document describes it.
#[derive(Debug, Drop)]
pub struct ForeignKeyFound {
    /// The JSON Pointer (RFC 6901) of its object.
    pub at: Text,
    /// The names of the referring columns, 1 to 16 of them.
    pub columns: Seq<KeyName>,
    /// The table that is referenced.
    pub table: NamedTable,
    /// The names of the referenced columns, 1 to 16 of them.
    pub referenced: Seq<KeyName>,
    /// A warning for each property of the foreign key that is ignored.
    pub warnings: Seq<Fault>,
}

fn warnings_of(place: Place, part: &Part) -> Result<Seq<Fault>, Refusal>
    ensures { Reads result (others (foreign_key_names ++ []) Refused place (text_of part.now.at) (view part.now.value.now)) }
{
    let listed = Listed {
        names: &FOREIGN_KEY,
        shared: &[],
        common: CommonProperty::Refused,
        place,
    };
    listed.read(part)
}

/// Returns the foreign key of these columns, with the warnings on it and on its reference. It returns `AllocError` if
/// there is no memory.
pub fn with_reference(
    part: &Part,
    warnings: Seq<Fault>,
    columns: Seq<KeyName>,
    reference: ReferenceFound,
) -> Result<ForeignKeyFound, AllocError>
    ensures { IfOk result (λ k. k ≡ joined (text_of part.now.at) warnings columns reference) }
{
    let warnings = joined(warnings, reference.warnings);
    let (at, warnings) = both(part.at.text(part.alloc), warnings)?;
    Ok(ForeignKeyFound {
        at,
        columns,
        table: reference.table,
        referenced: reference.columns,
        warnings,
    })
}

fn foreign_key_of(
    profile: Profile,
    base: &Base,
    place: Place,
    part: &Part,
) -> Result<ForeignKeyFound, Refusal>
    ensures { Reads result (foreign_key_of profile base.now place (text_of part.now.at) (view part.now.value.now)) }
{
    let warnings = warnings_of(place, part)?;
    let columns = part.needed(&ColumnNames, "columnReference")?;
    let reader = ReferenceReader {
        profile,
        base,
        place,
    };
    let reference = part.needed(&reader, "reference")?;
    Ok(with_reference(part, warnings, columns, reference)?)
}

/// Reads a foreign key.
#[derive(Drop)]
pub struct ForeignKeyReader<'a> {
    /// The profile.
    pub profile: Profile,
    /// The base against which URLs are resolved.
    pub base: &'a Base,
    /// The place of the warnings.
    pub place: Place,
}

impl<'a> NumberedReader for ForeignKeyReader<'a> {
    ghost use Rattle.csvw_meta_keys.specs.ForeignKeys.{foreign_key};

    type Output = ForeignKeyFound;

    ghost reads = { λ r n. foreign_key r.profile r.base.now r.place };

    fn read(&self, _number: u32, part: &Part) -> Result<ForeignKeyFound, Refusal> {
        match part.value {
            Value::Object(_) => foreign_key_of(self.profile, self.base, self.place, part),
            _ => Err(part.wrong()),
        }
    }
}
