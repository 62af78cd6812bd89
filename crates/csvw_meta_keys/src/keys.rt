//! The keys and row titles of a schema (Metadata Vocabulary for Tabular Data, section 5.5: `primaryKey`, `rowTitles` and
//! `foreignKeys`).
ghost use Rattle.std.specs.Prelude.{◌≡◌};
ghost use Rattle.serde_json.specs.View.{view};
ghost use Rattle.csvw_meta_core.specs.Pointer.{text_of};
ghost use Rattle.csvw_meta_core.specs.Reads.{Reads};
ghost use Rattle.csvw_meta_keys.specs.Keys.{keys};

use crate::column_names::{ColumnNames, KeyName, RowTitles};
use crate::foreign_key::{ForeignKeyFound, ForeignKeyReader};
use csvw_iri::{Base, Iri};
use csvw_meta_core::{Part, Profile, Refusal, Several};
use csvw_text::{Place, Seq};

/// The greatest number of foreign keys of a schema.
pub const MAX_FOREIGN_KEYS: u32 = 64;

/// The keys and row titles of a schema, as a document describes them.
#[derive(Debug, Drop)]
pub struct KeysFound {
    /// The `@id` of the schema, if it has one. Foreign keys may name a table by it.
    pub id: Option<Iri>,
    /// The names of the columns of its primary key, at most 16. If there are none, the schema has no primary key.
    pub primary: Seq<KeyName>,
    /// The names of the columns whose values are titles of their rows (`rowTitles`), at most 16. If there are none, no
    /// column has titles of rows.
    pub row_titles: Seq<KeyName>,
    /// Its foreign keys in order, at most 64.
    pub foreign: Seq<ForeignKeyFound>,
}

/// Reads the keys and row titles of the schema that the part is, which has this `@id`. URLs are resolved against the base,
/// and warnings have the given place. It returns them, a fault of one of them, or `Memory`. The faults are:
///
/// - `BadProperty`: a value is of a wrong kind, a property is missing, an array of columns is empty, a foreign key has a
///   common property, or a reference has a `schemaReference` beside its `resource`.
/// - `TooMany`: a key or the row titles have over 16 columns, or the schema has over 64 foreign keys.
/// - `BadUrl` or `UrlTooLong`: the `resource` or the `schemaReference` of a foreign key resolves to no URL.
/// - `NotSupported`: a value is a number that is not whole, or, in the profile `Core`, a foreign key refers to a schema or
///   the schema has row titles.
pub fn read_keys(
    profile: Profile,
    base: &Base,
    place: Place,
    id: Option<Iri>,
    part: &Part,
) -> Result<KeysFound, Refusal>
    ensures { Reads result (keys profile base.now place id (text_of part.now.at) (view part.now.value.now)) }
{
    let primary = part.property(&ColumnNames, Seq::new(part.alloc), "primaryKey")?;
    let row_titles = part.property(&RowTitles { profile }, Seq::new(part.alloc), "rowTitles")?;
    let foreign_keys = Several {
        reader: ForeignKeyReader {
            profile,
            base,
            place,
        },
        least: 0,
        most: MAX_FOREIGN_KEYS,
    };
    let foreign = part.property(&foreign_keys, Seq::new(part.alloc), "foreignKeys")?;
    Ok(KeysFound {
        id,
        primary,
        row_titles,
        foreign,
    })
}
