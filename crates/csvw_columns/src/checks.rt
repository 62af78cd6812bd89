//! The checks that the tables of a description can be read. Keys are checked elsewhere.
ghost use Rattle.std.specs.Prelude.{◌≡◌, ◌↔◌, IfOk, IfSome, IsTrue, MatchOption, All};
ghost use Rattle.csvw_description.specs.Plannable.{table_limit, IsFitDialect, HasSound, IsFitSchema, IsFitTable};
ghost use Rattle.csvw_description.specs.Name.{numbered_names};
ghost use Rattle.csvw_columns.specs.Fit.{IsFitGroup, Finds};
ghost use Rattle.csvw_columns.specs.FreeOf.{DialectIsFreeOf, SchemaIsFreeOf, TableIsFreeOf, GroupIsFreeOf};

use crate::names::are_distinct;
use csvw_description::{
    COLUMN_LIMIT, ColumnDescription, Description, Inherited, Name, SKIP_LIMIT, Schema, TABLE_LIMIT,
    TableDescription,
};
use csvw_meta_core::MetaCode;
use csvw_records::Dialect;
use std::alloc::{AllocError, Global};

fn dialect_fault(dialect: &Dialect) -> Option<MetaCode>
    ensures { MatchOption result (IsFitDialect dialect.now) (λ code. DialectIsFreeOf code dialect.now → ⊥) }
{
    if dialect.skip_columns > SKIP_LIMIT {
        return Some(MetaCode::TooMany);
    }
    match dialect.check() {
        Ok(()) => None,
        Err(_) => Some(MetaCode::BadDialect),
    }
}

fn fault_of_dialect(dialect: &Option<Dialect>) -> Option<MetaCode>
    ensures { MatchOption result (IfSome dialect.now IsFitDialect) (λ code. IfSome dialect.now (DialectIsFreeOf code) → ⊥) }
{
    match dialect {
        Some(dialect) => dialect_fault(dialect),
        None => None,
    }
}

fn has_sound(inherited: &Inherited) -> bool
    ensures { IsTrue result ↔ HasSound inherited.now }
{
    match &inherited.datatype {
        Some(datatype) => datatype.get().check().is_ok(),
        None => true,
    }
}

fn are_sound(columns: &[ColumnDescription]) -> bool
    ensures { IsTrue result ↔ All (λ c. HasSound c.inherited) columns.now }
{
    columns.iter().all(|c| has_sound(&c.inherited))
}

/// Returns the names of columns, numbered from 1, or `AllocError` if there is no memory.
pub(crate) fn numbered_names(
    alloc: Global,
    columns: &[ColumnDescription],
) -> Result<Vec<Name>, AllocError>
    ensures { IfOk result (λ v. v.items ≡ numbered_names 0 columns.now) }
{
    let mut names = Vec::new(alloc);
    for (i, column) in columns.iter().enumerate() {
        let name = column.resolved_name(alloc, i + 1)?;
        names.push(name)?;
    }
    Ok(names)
}

fn schema_fault(alloc: Global, schema: &Schema) -> Result<Option<MetaCode>, AllocError>
    ensures { Finds (IsFitSchema schema.now) (λ code. SchemaIsFreeOf code schema.now) result }
{
    if schema.columns.len() > COLUMN_LIMIT {
        return Ok(Some(MetaCode::TooMany));
    }
    if !has_sound(&schema.inherited) || !are_sound(schema.columns.as_slice()) {
        return Ok(Some(MetaCode::BadDatatype));
    }
    let names = numbered_names(alloc, schema.columns.as_slice())?;
    if !are_distinct(alloc, names)? {
        return Ok(Some(MetaCode::DuplicateName));
    }
    Ok(None)
}

fn fault_in(alloc: Global, schema: &Option<Schema>) -> Result<Option<MetaCode>, AllocError>
    ensures { Finds (IfSome schema.now IsFitSchema) (λ code. IfSome schema.now (SchemaIsFreeOf code)) result }
{
    match schema {
        Some(schema) => schema_fault(alloc, schema),
        None => Ok(None),
    }
}

fn table_fault(alloc: Global, table: &TableDescription) -> Result<Option<MetaCode>, AllocError>
    ensures { Finds (IsFitTable table.now) (λ code. TableIsFreeOf code table.now) result }
{
    if let Some(code) = fault_of_dialect(&table.dialect) {
        return Ok(Some(code));
    }
    if !has_sound(&table.inherited) {
        return Ok(Some(MetaCode::BadDatatype));
    }
    if let Some(code) = fault_in(alloc, &table.schema)? {
        return Ok(Some(code));
    }
    Ok(None)
}

fn first_fault(alloc: Global, tables: &[TableDescription]) -> Result<Option<MetaCode>, AllocError>
    ensures { Finds (All IsFitTable tables.now) (λ code. All (TableIsFreeOf code) tables.now) result }
{
    for table in tables {
        if let Some(code) = table_fault(alloc, table)? {
            return Ok(Some(code));
        }
    }
    Ok(None)
}

/// Returns the code of why the tables of a description cannot be read, or `None` if they can. It returns `AllocError`
/// if there is no memory.
pub(crate) fn fault_of(
    alloc: Global,
    description: &Description,
) -> Result<Option<MetaCode>, AllocError>
    ensures { Finds (IsFitGroup description.now) (λ code. GroupIsFreeOf code description.now) result }
{
    if description.tables.len() > TABLE_LIMIT {
        return Ok(Some(MetaCode::TooMany));
    }
    if let Some(code) = fault_of_dialect(&description.dialect) {
        return Ok(Some(code));
    }
    if !has_sound(&description.inherited) {
        return Ok(Some(MetaCode::BadDatatype));
    }
    if let Some(code) = fault_in(alloc, &description.schema)? {
        return Ok(Some(code));
    }
    if let Some(code) = first_fault(alloc, description.tables.as_slice())? {
        return Ok(Some(code));
    }
    Ok(None)
}
