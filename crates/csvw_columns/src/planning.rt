//! The construction of the plan of a group of tables.
ghost use Rattle.std.specs.Prelude.{◌≡◌, ◌≤◌, [], IfOk, IfSome, All, length, unwrap_or};
ghost use Rattle.csvw_iri.specs.Link.{iri_of};
ghost use Rattle.csvw_columns_core.specs.declared.declared.Frame.{Frame as TheFrame};
ghost use Rattle.csvw_columns_core.specs.SchemaColumns.{declared_columns};
ghost use Rattle.csvw_description.specs.Plannable.{table_limit, IsFitDialect, IsFitSchema, IsFitTable, column_limit};
ghost use Rattle.csvw_columns.specs.Fit.{IsFitGroup};
ghost use Rattle.csvw_columns.specs.Known.{IsKnown};
ghost use Rattle.csvw_columns.specs.PlanOf.{dialect_of, no_schema, schema_of, targets_of, table_plan, table_plans, plan_of};

use crate::choices::{dialect_of, schema_of};
use crate::plan::{Plan, TablePlan};
use crate::references::{Keys, Targets, keys_of, targets_of};
use crate::warnings::unknown;
use csvw_columns_core::{Column, Defaults, Frame};
use csvw_description::{Description, Inherited, Note, Schema, TableDescription, no_inherited};
use csvw_text::{Seq, both, copied_option};
use std::alloc::{AllocError, Global};
use std::mem;

/// The values that the plan of each table needs.
#[derive(Drop)]
struct Known {
    defaults: Defaults,
    targets: Targets,
}

/// Returns what the columns inherit from their schema.
fn schema_inherited(alloc: Global, schema: &Option<Schema>) -> Result<Inherited, AllocError>
    ensures { IfOk result (λ i. i ≡ (unwrap_or schema.now no_schema).inherited) }
{
    match schema {
        Some(schema) => schema.inherited.clone(alloc),
        None => Ok(no_inherited()),
    }
}

/// Returns the columns that a schema declares.
fn declared(
    alloc: Global,
    defaults: &Defaults,
    frame: &Frame,
    group: &Inherited,
    schema: &Option<Schema>,
) -> Result<Seq<Column>, AllocError>
    requires { length (unwrap_or schema.now no_schema).columns ≤ column_limit }
    ensures { IfOk result (λ cs. cs ≡ declared_columns (iri_of frame.now.url) frame.now.skip_columns frame.now.schema frame.now.table
        group.now (unwrap_or schema.now no_schema).columns) }
{
    match schema {
        Some(schema) => frame.declared_columns(alloc, defaults, group, schema.columns.as_slice()),
        None => Ok(Seq::new(alloc)),
    }
}

/// Returns what the columns have in common from their table.
fn frame_of(
    alloc: Global,
    table: &TableDescription,
    skip_columns: u32,
    schema: &Option<Schema>,
) -> Result<Frame, AllocError>
    ensures { let inherited = (unwrap_or schema.now no_schema).inherited in
        IfOk result (λ f. f ≡ record { url = table.now.url; skip_columns = skip_columns; schema = inherited; table = table.now.inherited }) }
{
    let url = table.url.clone(alloc);
    let schema = schema_inherited(alloc, schema);
    let table = table.inherited.clone(alloc);
    let (url, (schema, table)) = both(url, both(schema, table))?;
    Ok(Frame {
        url,
        skip_columns,
        schema,
        table,
    })
}

/// Returns what the columns have in common from their table, and the columns that a schema declares.
fn framed(
    alloc: Global,
    group: &Description,
    known: &Known,
    table: &TableDescription,
    skip_columns: u32,
) -> Result<(Frame, Seq<Column>), AllocError>
    requires { length (schema_of table.now.schema group.now.schema).columns ≤ column_limit }
    ensures { let schema = schema_of table.now.schema group.now.schema in
        let frame : TheFrame = record { url = table.now.url; skip_columns = skip_columns; schema = schema.inherited; table = table.now.inherited } in
        IfOk result (λ p. (p.0 ≡ frame) × (p.1 ≡ declared_columns (iri_of table.now.url) skip_columns schema.inherited table.now.inherited
        group.now.inherited schema.columns)) }
{
    let schema = schema_of(&table.schema, &group.schema);
    let frame = frame_of(alloc, table, skip_columns, schema)?;
    let declared = declared(alloc, &known.defaults, &frame, &group.inherited, schema);
    both(Ok(frame), declared)
}

/// Returns the plan of a table without its keys and notes.
fn bare_plan(
    alloc: Global,
    group: &Description,
    known: &Known,
    number: u32,
    table: &TableDescription,
) -> Result<TablePlan, AllocError>
    requires { length (schema_of table.now.schema group.now.schema).columns ≤ column_limit }
    ensures { IfOk result (λ p. p ≡ record (table_plan known.now.targets group.now number table.now) { primary_key = []; foreign_keys = []; notes = [] }) }
{
    let dialect = dialect_of(alloc, &table.dialect, &group.dialect)?;
    let framed = framed(alloc, group, known, table, dialect.skip_columns);
    let id = copied_option(alloc, &table.id);
    let rest = both(id, group.inherited.clone(alloc));
    let ((frame, declared), (id, group)) = both(framed, rest)?;
    Ok(TablePlan {
        number,
        url: frame.url,
        id,
        suppressed: table.suppressed,
        dialect,
        declared,
        schema: frame.schema,
        table: frame.table,
        group,
        primary_key: Seq::new(alloc),
        foreign_keys: Seq::new(alloc),
        notes: Seq::new(alloc),
    })
}

/// Adds keys and notes to the plan of a table.
fn completed(plan: TablePlan, keys: Keys, notes: Seq<Note>) -> TablePlan
    ensures { result ≡ record plan { primary_key = keys.primary; foreign_keys = keys.foreign; notes = notes } }
{
    let mut plan = plan;
    plan.primary_key = keys.primary;
    plan.foreign_keys = keys.foreign;
    plan.notes = notes;
    plan
}

/// Returns the plan of a table.
fn table_plan(
    alloc: Global,
    group: &Description,
    known: &Known,
    number: u32,
    mut table: TableDescription,
) -> Result<TablePlan, AllocError>
    requires known { IsKnown known.now }
    requires limit { length (schema_of table.schema group.now.schema).columns ≤ column_limit }
    ensures { IfOk result (λ p. p ≡ table_plan known.now.targets group.now number table) }
{
    let plan = bare_plan(alloc, group, known, number, &table);
    let schema = schema_of(&table.schema, &group.schema);
    let keys = keys_of(alloc, &known.targets, schema);
    let notes = mem::replace(&mut table.notes, Seq::new(alloc));
    drop(table);
    let (plan, keys) = both(plan, keys)?;
    Ok(completed(plan, keys, notes))
}

/// Returns the plans of tables, numbered from 1.
fn table_plans(
    alloc: Global,
    group: &Description,
    known: &Known,
    tables: Vec<TableDescription>,
) -> Result<Seq<TablePlan>, AllocError>
    requires known { IsKnown known.now }
    requires dialect { IfSome group.now.dialect IsFitDialect }
    requires schema { IfSome group.now.schema IsFitSchema }
    requires limit { length tables.items ≤ table_limit }
    requires tables { All IsFitTable tables.items }
    ensures { IfOk result (λ ps. ps ≡ table_plans known.now.targets group.now 1 tables.items) }
{
    let mut plans = Vec::new(alloc);
    for table in tables {
        let number = plans.len() as u32 + 1;
        let plan = table_plan(alloc, group, known, number, table)?;
        plans.push(plan)?;
    }
    Ok(Seq::of(plans))
}

fn known_of(alloc: Global, group: &Description) -> Result<Known, AllocError>
    requires { IsFitGroup group.now }
    ensures { IfOk result (λ known. IsKnown known × (known.targets ≡ targets_of group.now)) }
{
    Ok(Known {
        defaults: Defaults::new(alloc)?,
        targets: targets_of(alloc, group)?,
    })
}

/// Makes the plan of a description whose tables can be read. It takes the tables, the `@id` and the notes from the
/// description. It returns `AllocError` if there is no memory.
pub(crate) fn planned(alloc: Global, description: &mut Description) -> Result<Plan, AllocError>
    requires { IsFitGroup description.old }
    ensures { IfOk result (λ plan. plan ≡ plan_of description.old) }
{
    let warnings = unknown(alloc, description)?;
    let known = known_of(alloc, description)?;
    let tables = mem::replace(&mut description.tables, Seq::new(alloc));
    let tables = table_plans(alloc, description, &known, tables.into_vec());
    drop(known);
    let tables = tables?;
    Ok(Plan {
        id: mem::replace(&mut description.id, None),
        notes: mem::replace(&mut description.notes, Seq::new(alloc)),
        tables,
        warnings,
    })
}
