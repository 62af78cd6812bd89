//! The books that record the rows of the tables of keys.
ghost use Rattle.std.specs.Prelude.{◌≡◌, [], true, All, IfOk, OnOk, flat_map, map};
ghost use Rattle.std.specs.List.{list_any};
ghost use Rattle.csvw_keys.specs.Books.{KeepsBook, IsMore, is_served, no_rows, purposes_of, records_in, rules_in};
ghost use Rattle.csvw_keys.specs.KeyRules.{primary_rules, recorded_for, recorded_rules, reference_rule, table_rules};

use crate::book::{Book, recorded_in, recording_book};
use csvw_columns::{ForeignKeyPlan, TablePlan};
use std::alloc::{AllocError, Global};

/// Ensures that a book records the rows of a table with their keys in these columns.
fn record_rows(
    alloc: Global,
    table: u32,
    columns: &[u32],
    books: &mut Vec<Book>,
) -> Result<(), AllocError>
    ensures more { OnOk result (IsMore books.old.items books.new.items) }
    ensures recorded { OnOk result (list_any (records_in table columns.now) (purposes_of books.new.items) ≡ true) }
{
    if recorded_in(books.as_slice(), table, columns).is_some() {
        return Ok(());
    }
    let book = recording_book(alloc, table, columns)?;
    books.push(book)?;
    Ok(())
}

/// Ensures that a book records what a primary key needs.
fn record_primary(
    alloc: Global,
    table: u32,
    columns: &[u32],
    books: &mut Vec<Book>,
) -> Result<(), AllocError>
    ensures more { OnOk result (IsMore books.old.items books.new.items) }
    ensures served { OnOk result (All (λ rule. is_served (purposes_of books.new.items) rule ≡ true) (recorded_rules (primary_rules table columns.now))) }
{
    if columns.is_empty() {
        return Ok(());
    }
    record_rows(alloc, table, columns, books)?;
    Ok(())
}

/// Ensures that books record what a foreign key of a table needs: its own columns and the referenced ones.
fn record_reference(
    alloc: Global,
    table: u32,
    key: &ForeignKeyPlan,
    books: &mut Vec<Book>,
) -> Result<(), AllocError>
    ensures more { OnOk result (IsMore books.old.items books.new.items) }
    ensures served { OnOk result (All (λ rule. is_served (purposes_of books.new.items) rule ≡ true) (recorded_for (reference_rule table key.now))) }
{
    record_rows(alloc, table, key.columns.as_slice(), books)?;
    record_rows(alloc, key.table, key.referenced.as_slice(), books)?;
    Ok(())
}

/// Ensures the same for each of the foreign keys of a table.
fn record_references(
    alloc: Global,
    table: u32,
    keys: &[ForeignKeyPlan],
    books: &mut Vec<Book>,
) -> Result<(), AllocError>
    ensures more { OnOk result (IsMore books.old.items books.new.items) }
    ensures served { OnOk result (All (λ rule. is_served (purposes_of books.new.items) rule ≡ true)
        (recorded_rules (map (reference_rule table) keys.now))) }
{
    for key in keys {
        record_reference(alloc, table, key, books)?;
    }
    Ok(())
}

/// Ensures the same for all keys of a table.
fn record_table(alloc: Global, plan: &TablePlan, books: &mut Vec<Book>) -> Result<(), AllocError>
    ensures more { OnOk result (IsMore books.old.items books.new.items) }
    ensures served { OnOk result (All (λ rule. is_served (purposes_of books.new.items) rule ≡ true) (recorded_rules (table_rules plan.now))) }
{
    record_primary(alloc, plan.number, plan.primary_key.as_slice(), books)?;
    record_references(alloc, plan.number, plan.foreign_keys.as_slice(), books)?;
    Ok(())
}

/// Returns the books that record what the keys of these tables need, without rows, or `AllocError` if there is no
/// memory.
pub(crate) fn recording_books(alloc: Global, plans: &[TablePlan]) -> Result<Vec<Book>, AllocError>
    ensures rules { IfOk result (λ v. rules_in v.items ≡ []) }
    ensures keeps { IfOk result (λ v. All (λ b. KeepsBook b no_rows) v.items) }
    ensures served { IfOk result (λ v. All (λ rule. is_served (purposes_of v.items) rule ≡ true)
        (recorded_rules (flat_map table_rules plans.now))) }
{
    let mut books = Vec::new(alloc);
    for plan in plans {
        record_table(alloc, plan, &mut books)?;
    }
    Ok(books)
}
