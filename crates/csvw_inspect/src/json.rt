//! A document as JSON.

use crate::asked::Inspect;
use crate::column::{column_properties, link_properties};
use crate::datatype::datatype_properties;
use crate::dialect::dialect_properties;
use crate::document::{document_properties, kind_of, warning_properties};
use crate::link::{example_row, set_column};
use crate::property::Property;
use crate::table::{foreign_key_properties, key_properties, table_properties};
use crate::value::value_of;
use csvw_columns::{Plan, TablePlan};
use csvw_columns_core::Column;
use csvw_template::Vars;
use serde_json::{Map, Value, put};
use std::alloc::{AllocError, Global};

/// An object.
type Object = Map<String, Value>;

/// Adds a property to an object, if it is shown.
fn insert(object: &mut Object, alloc: Global, property: &Property<'_>) -> Result<(), AllocError> {
    if property.is_shown() {
        put(
            object,
            alloc,
            property.name,
            value_of(alloc, property.value)?,
        )?;
    }
    Ok(())
}

/// Returns an object of the properties that are shown.
fn object_of(alloc: Global, properties: &[Property<'_>]) -> Result<Object, AllocError> {
    let mut object = Map::new(alloc);
    for property in properties {
        insert(&mut object, alloc, property)?;
    }
    Ok(object)
}

/// Adds an object of properties to an object.
fn put_object(
    object: &mut Object,
    alloc: Global,
    name: &str,
    properties: &[Property<'_>],
) -> Result<(), AllocError> {
    let value = Value::Object(object_of(alloc, properties)?);
    put(object, alloc, name, value)
}

/// Returns a column. The variables are those of its table's example row, and of the column.
fn column_of(
    alloc: Global,
    table: &TablePlan,
    column: &Column,
    vars: &Vars,
) -> Result<Value, AllocError> {
    let mut object = object_of(alloc, &column_properties(column))?;
    let datatype = datatype_properties(column.properties.datatype.get());
    put_object(&mut object, alloc, "datatype", &datatype)?;
    let links = link_properties(table, column, vars);
    put_object(&mut object, alloc, "example", &links)?;
    Ok(Value::Object(object))
}

/// Returns the columns of a table.
fn columns_of(alloc: Global, table: &TablePlan) -> Result<Value, AllocError> {
    let mut vars = example_row(alloc, table)?;
    let mut columns = Vec::new(alloc);
    for column in table.declared.as_slice() {
        set_column(&mut vars, alloc, column)?;
        columns.push(column_of(alloc, table, column, &vars)?)?;
    }
    Ok(Value::Array(columns))
}

/// Returns the foreign keys of a table.
fn foreign_keys_of(
    alloc: Global,
    tables: &[TablePlan],
    table: &TablePlan,
) -> Result<Value, AllocError> {
    let mut keys = Vec::new(alloc);
    for key in table.foreign_keys.as_slice() {
        let properties = foreign_key_properties(tables, table, key);
        keys.push(Value::Object(object_of(alloc, &properties)?))?;
    }
    Ok(Value::Array(keys))
}

/// Returns the schema of a table: its columns and keys.
fn schema_of(alloc: Global, tables: &[TablePlan], table: &TablePlan) -> Result<Value, AllocError> {
    let mut schema = object_of(alloc, &key_properties(table))?;
    put(&mut schema, alloc, "columns", columns_of(alloc, table)?)?;
    let keys = foreign_keys_of(alloc, tables, table)?;
    put(&mut schema, alloc, "foreignKeys", keys)?;
    Ok(Value::Object(schema))
}

/// Returns a table.
fn table_of(alloc: Global, tables: &[TablePlan], table: &TablePlan) -> Result<Value, AllocError> {
    let mut object = object_of(alloc, &table_properties(table))?;
    let dialect = dialect_properties(&table.dialect);
    put_object(&mut object, alloc, "dialect", &dialect)?;
    let schema = schema_of(alloc, tables, table)?;
    put(&mut object, alloc, "tableSchema", schema)?;
    Ok(Value::Object(object))
}

/// Returns the tables of a group.
fn tables_of(alloc: Global, tables: &[TablePlan]) -> Result<Value, AllocError> {
    let mut values = Vec::new(alloc);
    for table in tables {
        values.push(table_of(alloc, tables, table)?)?;
    }
    Ok(Value::Array(values))
}

/// Returns the warnings of a document.
fn warnings_of(alloc: Global, bytes: &[u8], plan: &Plan) -> Result<Value, AllocError> {
    let kind = kind_of(alloc, bytes, plan);
    let mut warnings = Vec::new(alloc);
    for fault in plan.warnings() {
        let properties = warning_properties(kind, fault);
        warnings.push(Value::Object(object_of(alloc, &properties)?))?;
    }
    Ok(Value::Array(warnings))
}

/// Returns a document with these bytes as JSON, with line breaks.
pub(crate) fn json_of(
    alloc: Global,
    asked: &Inspect<'_>,
    bytes: &[u8],
    plan: &Plan,
) -> Result<String, AllocError> {
    let mut object = object_of(alloc, &document_properties(asked, plan))?;
    put(
        &mut object,
        alloc,
        "tables",
        tables_of(alloc, plan.tables())?,
    )?;
    put(
        &mut object,
        alloc,
        "warnings",
        warnings_of(alloc, bytes, plan)?,
    )?;
    let document = Value::Object(object);
    format!(in alloc; "{document:#}\n")
}
