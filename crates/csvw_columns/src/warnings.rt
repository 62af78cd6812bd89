//! The warnings of a description, one for each property that is ignored.
ghost use Rattle.std.specs.Prelude.{◌≡◌, ◌++◌, IfOk, OnOk, flat_map};
ghost use Rattle.csvw_description.specs.Unknown.{in_schema, in_table, unknown};

use csvw_description::{ColumnDescription, Description, Schema, TableDescription};
use csvw_text::{Fault, Seq};
use std::alloc::{AllocError, Global};

fn push_columns(out: &mut Vec<Fault>, columns: &[ColumnDescription]) -> Result<(), AllocError>
    ensures { OnOk result (out.new.items ≡ out.old.items ++ flat_map (λ c. c.warnings) columns.now) }
{
    for column in columns {
        out.extend_from_slice(column.warnings.as_slice())?;
    }
    Ok(())
}

#[tactic(auto, using(std::proofs::Common::append_assoc))]
fn push_schema(out: &mut Vec<Fault>, schema: &Option<Schema>) -> Result<(), AllocError>
    ensures { OnOk result (out.new.items ≡ out.old.items ++ in_schema schema.now) }
{
    let Some(schema) = schema else {
        return Ok(());
    };
    out.extend_from_slice(schema.warnings.as_slice())?;
    push_columns(out, schema.columns.as_slice())
}

#[tactic(auto, using(std::proofs::Common::append_assoc))]
fn push_table(out: &mut Vec<Fault>, table: &TableDescription) -> Result<(), AllocError>
    ensures { OnOk result (out.new.items ≡ out.old.items ++ in_table table.now) }
{
    out.extend_from_slice(table.warnings.as_slice())?;
    push_schema(out, &table.schema)
}

fn push_tables(out: &mut Vec<Fault>, tables: &[TableDescription]) -> Result<(), AllocError>
    ensures { OnOk result (out.new.items ≡ out.old.items ++ flat_map in_table tables.now) }
{
    for table in tables {
        push_table(out, table)?;
    }
    Ok(())
}

/// Returns the warnings of the group, then those of each table (Metadata Vocabulary for Tabular Data, section 4.1). It
/// returns `AllocError` if there is no memory.
#[tactic(auto, using(std::proofs::Common::append_assoc))]
pub(crate) fn unknown(alloc: Global, d: &Description) -> Result<Seq<Fault>, AllocError>
    ensures { IfOk result (λ s. s ≡ unknown d.now) }
{
    let mut out = Vec::new(alloc);
    out.extend_from_slice(d.warnings.as_slice())?;
    push_schema(&mut out, &d.schema)?;
    push_tables(&mut out, d.tables.as_slice())?;
    Ok(Seq::of(out))
}
