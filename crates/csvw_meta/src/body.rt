//! What groups and tables have in common: a dialect, a schema and inherited properties (Metadata Vocabulary for Tabular
//! Data, sections 5.3 and 5.4).
ghost use Rattle.std.specs.Prelude.{◌≡◌, IfOk};
ghost use Rattle.serde_json.specs.View.{view};
ghost use Rattle.csvw_meta_core.specs.Pointer.{text_of};
ghost use Rattle.csvw_meta_core.specs.Reads.{Reads};
ghost use Rattle.csvw_meta.specs.Body.{split, given_dialect, body_of, body};

use crate::schema::{SchemaFound, SchemaReader};
use csvw_description::{Inherited, Schema};
use csvw_meta_core::{Context, Part, Refusal};
use csvw_meta_dialect::{DialectFound, DialectReader};
use csvw_meta_inherited::{InheritedFound, read_inherited};
use csvw_meta_keys::KeysFound;
use csvw_records::Dialect;
use csvw_text::{Fault, Seq};
use std::alloc::AllocError;

/// The dialect of an object, and the warnings on it and on the object.
#[derive(Drop)]
pub struct DialectGiven {
    /// The dialect, or `None` if the object has none of its own.
    pub dialect: Option<Dialect>,
    /// The warnings on the dialect, then those on the object.
    pub warnings: Seq<Fault>,
}

/// The schema of an object and its keys, its inherited properties, and the warnings on its datatype.
#[derive(Drop)]
pub struct Body {
    /// The schema, or `None` if the object has none of its own.
    pub schema: Option<Schema>,
    /// The keys of the schema with their places, or `None` if there is no schema.
    pub keys: Option<KeysFound>,
    /// The inherited properties of the object itself.
    pub inherited: Inherited,
    /// The warnings on the datatype among them.
    pub warnings: Seq<Fault>,
}

/// Returns the dialect of an object, with the warnings on it and then those on the object. It returns `AllocError` if
/// there is no memory.
pub fn split(found: Option<DialectFound>, warnings: Seq<Fault>) -> Result<DialectGiven, AllocError>
    ensures { IfOk result (λ g. g ≡ split warnings found) }
{
    let Some(found) = found else {
        return Ok(DialectGiven {
            dialect: None,
            warnings,
        });
    };
    let mut all = found.warnings.into_vec();
    all.append(&mut warnings.into_vec())?;
    Ok(DialectGiven {
        dialect: Some(found.dialect),
        warnings: Seq::of(all),
    })
}

/// Reads the dialect of the table of this number, or of the group if it is 0, with these warnings on the object.
#[tactic(auto, unfolding(crate::specs::Body::given_dialect))]
pub(crate) fn read_dialect(
    context: &Context,
    table: u32,
    warnings: Seq<Fault>,
    part: &Part,
) -> Result<DialectGiven, Refusal>
    ensures { Reads result (given_dialect context.now table warnings (text_of part.now.at) (view part.now.value.now)) }
{
    let found = part.optional(&DialectReader { context, table }, "dialect")?;
    Ok(split(found, warnings)?)
}

/// Returns what a schema and inherited properties are together.
pub fn body_of(schema: Option<SchemaFound>, found: InheritedFound) -> Body
    ensures { result ≡ body_of schema found }
{
    match schema {
        None => Body {
            schema: None,
            keys: None,
            inherited: found.inherited,
            warnings: found.warnings,
        },
        Some(schema) => Body {
            schema: Some(schema.schema),
            keys: Some(schema.keys),
            inherited: found.inherited,
            warnings: found.warnings,
        },
    }
}

/// Reads the schema and the inherited properties of the table of this number, or of the group if it is 0.
pub(crate) fn read_body(context: &Context, table: u32, part: &Part) -> Result<Body, Refusal>
    ensures { Reads result (body context.now table (text_of part.now.at) (view part.now.value.now)) }
{
    let found = read_inherited(context, table, 0, part)?;
    let schema = part.optional(&SchemaReader { context, table }, "tableSchema")?;
    Ok(body_of(schema, found))
}
