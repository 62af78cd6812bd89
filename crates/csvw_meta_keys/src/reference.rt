//! The reference of a foreign key (Metadata Vocabulary for Tabular Data, section 5.5.2.1, `reference`).
ghost use Rattle.std.specs.Prelude.{◌≡◌, ◌++◌, [], IfOk};
ghost use Rattle.serde_json.specs.View.{view};
ghost use Rattle.csvw_meta_core.specs.Pointer.{text_of};
ghost use Rattle.csvw_meta_core.specs.Others.{others};
ghost use Rattle.csvw_meta_core.specs.declared.others.CommonProperty.TheVariants.{Refused};
ghost use Rattle.csvw_meta_core.specs.Read.{fine};
ghost use Rattle.csvw_meta_core.specs.Reads.{Reads};
ghost use Rattle.csvw_meta_keys.specs.References.{has_resource, reference_names, reference_of, resource, schema_id, schema_named, schema_reference};
ghost use Rattle.csvw_meta_keys.specs.References.{table_named, table_of_schema};

use crate::column_names::{ColumnNames, KeyName};
use csvw_iri::{Base, Iri, IriFault, resolve};
use csvw_meta_core::{CommonProperty, Listed, MetaCode, Part, Profile, Reader, Refusal, UrlReader};
use csvw_text::{Fault, Place, Seq, Text, both};
use serde_json::Value;
use std::alloc::AllocError;

/// The properties that are listed for the reference of a foreign key.
pub const REFERENCE: [&str; 3] = ["resource", "schemaReference", "columnReference"];

/// What the reference of a foreign key names its table by.
#[derive(Debug, Clone, Copy, PartialEq, Eq)]
pub enum NamedBy {
    /// The URL of the table (`resource`).
    Url,
    /// The `@id` of the schema of the table (`schemaReference`).
    Schema,
}

/// The table that a reference names, and the place of the name.
#[derive(Debug, Drop)]
pub struct NamedTable {
    /// What names the table.
    pub by: NamedBy,
    /// The URL of the table or the `@id` of its schema, made safe.
    pub url: Iri,
    /// The JSON Pointer (RFC 6901) of the text.
    pub at: Text,
}

/// The reference of a foreign key.
#[derive(Debug, Drop)]
pub struct ReferenceFound {
    /// The table.
    pub table: NamedTable,
    /// The names of the referenced columns.
    pub columns: Seq<KeyName>,
    /// A warning for each property that is ignored.
    pub warnings: Seq<Fault>,
}

/// Returns the table of this URL, with the place of the part.
fn resource_of(part: &Part, url: &Iri) -> Result<NamedTable, Refusal>
    ensures { Reads result (fine (record { by = NamedBy.Url; url = url.now; at = text_of part.now.at })) }
{
    let (url, at) = both(url.clone(part.alloc), part.at.text(part.alloc))?;
    Ok(NamedTable {
        by: NamedBy::Url,
        url,
        at,
    })
}

/// Reads `resource`, the URL of a table. It is resolved against a base, and its fragment is dropped. A text that resolves to no
/// URL is `UrlTooLong` or `BadUrl`.
#[derive(Drop)]
pub struct ResourceReader<'a> {
    /// The base.
    pub base: &'a Base,
}

impl<'a> Reader for ResourceReader<'a> {
    type Output = NamedTable;

    ghost reads = { λ r. resource r.base.now };

    fn read(&self, part: &Part) -> Result<NamedTable, Refusal> {
        let url = UrlReader { base: self.base }.read(part)?;
        resource_of(part, url.iri())
    }
}

/// Reads the `@id` of a schema that a reference names. It is resolved against a base, and keeps its fragment. A text that
/// resolves to no URL is `UrlTooLong` or `BadUrl`.
#[derive(Drop)]
pub struct SchemaIdReader<'a> {
    /// The base.
    pub base: &'a Base,
}

impl<'a> Reader for SchemaIdReader<'a> {
    type Output = Iri;

    ghost reads = { λ r. schema_id r.base.now };

    fn read(&self, part: &Part) -> Result<Iri, Refusal> {
        let Some(text) = part.value.as_str() else {
            return Err(part.wrong());
        };
        match resolve(part.alloc, self.base, text) {
            Ok(id) => Ok(id),
            Err(IriFault::Memory) => Err(Refusal::Memory),
            Err(IriFault::UrlTooLong) => Err(part.refused(MetaCode::UrlTooLong)),
            Err(IriFault::BadUrl) => Err(part.refused(MetaCode::BadUrl)),
        }
    }
}

/// Returns the table whose schema has this `@id`, with the place of the part. It returns `AllocError` if there is no
/// memory.
pub fn table_of_schema(part: &Part, id: Iri) -> Result<NamedTable, AllocError>
    ensures { IfOk result (λ t. t ≡ table_of_schema (text_of part.now.at) id) }
{
    Ok(NamedTable {
        by: NamedBy::Schema,
        url: id,
        at: part.at.text(part.alloc)?,
    })
}

/// Reads `schemaReference`, which names a table by the `@id` of its schema. In the profile `Core` the property is
/// `NotSupported`. Beside a `resource` it is `BadProperty`. A text that resolves to no URL is `UrlTooLong` or `BadUrl`.
#[derive(Drop)]
pub struct SchemaReference<'a> {
    /// The profile.
    pub profile: Profile,
    /// The base.
    pub base: &'a Base,
    /// Whether the reference has a `resource`.
    pub beside_resource: bool,
}

impl<'a> Reader for SchemaReference<'a> {
    type Output = Option<NamedTable>;

    ghost reads = { λ r. schema_reference r.profile r.base.now r.beside_resource };

    fn read(&self, part: &Part) -> Result<Option<NamedTable>, Refusal> {
        match self.profile {
            Profile::Core => Err(part.refused(MetaCode::NotSupported)),
            Profile::W3c if self.beside_resource => Err(part.refused(MetaCode::BadProperty)),
            Profile::W3c => {
                let id = SchemaIdReader { base: self.base }.read(part)?;
                Ok(Some(table_of_schema(part, id)?))
            }
        }
    }
}

/// Returns whether a reference has a `resource`.
pub fn has_resource(part: &Part) -> bool
    ensures { result ≡ has_resource (view part.now.value.now) }
{
    part.value.get("resource").is_some()
}

fn warnings_of(place: Place, part: &Part) -> Result<Seq<Fault>, Refusal>
    ensures { Reads result (others (reference_names ++ []) Refused place (text_of part.now.at) (view part.now.value.now)) }
{
    let listed = Listed {
        names: &REFERENCE,
        shared: &[],
        common: CommonProperty::Refused,
        place,
    };
    listed.read(part)
}

/// Reads the `schemaReference` of a reference. It returns `None` if there is none.
fn schema_named(profile: Profile, base: &Base, part: &Part) -> Result<Option<NamedTable>, Refusal>
    ensures { Reads result (schema_named profile base.now (text_of part.now.at) (view part.now.value.now)) }
{
    let reader = SchemaReference {
        profile,
        base,
        beside_resource: has_resource(part),
    };
    part.property(&reader, None, "schemaReference")
}

/// Returns the table that the `schemaReference` names, or reads the `resource`.
fn table_named(base: &Base, schema: Option<NamedTable>, part: &Part) -> Result<NamedTable, Refusal>
    ensures { Reads result (table_named base.now schema (text_of part.now.at) (view part.now.value.now)) }
{
    match schema {
        Some(table) => Ok(table),
        None => part.needed(&ResourceReader { base }, "resource"),
    }
}

fn reference_of(
    profile: Profile,
    base: &Base,
    place: Place,
    part: &Part,
) -> Result<ReferenceFound, Refusal>
    ensures { Reads result (reference_of profile base.now place (text_of part.now.at) (view part.now.value.now)) }
{
    let schema = schema_named(profile, base, part)?;
    let warnings = warnings_of(place, part)?;
    let table = table_named(base, schema, part)?;
    let columns = part.needed(&ColumnNames, "columnReference")?;
    Ok(ReferenceFound {
        table,
        columns,
        warnings,
    })
}

/// Reads the reference of a foreign key: a table, by its URL or by its schema, and columns of it.
#[derive(Drop)]
pub struct ReferenceReader<'a> {
    /// The profile.
    pub profile: Profile,
    /// The base against which URLs are resolved.
    pub base: &'a Base,
    /// The place of the warnings.
    pub place: Place,
}

impl<'a> Reader for ReferenceReader<'a> {
    ghost use Rattle.csvw_meta_keys.specs.References.{reference};

    type Output = ReferenceFound;

    ghost reads = { λ r. reference r.profile r.base.now r.place };

    fn read(&self, part: &Part) -> Result<ReferenceFound, Refusal> {
        match part.value {
            Value::Object(_) => reference_of(self.profile, self.base, self.place, part),
            _ => Err(part.wrong()),
        }
    }
}
