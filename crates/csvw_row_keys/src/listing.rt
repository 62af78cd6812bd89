//! What is listed of the rows of tables for keys.
ghost use Rattle.std.specs.Prelude.{◌≡◌, ◌+◌, ◌++◌, suc, length, map, IfOk, OnOk};
ghost use Rattle.csvw_keys.specs.KeyRules.{primary_rules, reference_rule, rules_of, table_rules};
ghost use Rattle.csvw_row_keys.specs.Listings.{listings_for, listings_from};

use csvw_columns::{ForeignKeyPlan, Plan, TablePlan};
use csvw_key_records::Role;
use csvw_text::Seq;
use std::alloc::{AllocError, Global};

/// A list of the rows of a table for a key: what their records have in common.
#[derive(Drop)]
pub(crate) struct Listing {
    /// The number of the key, from 1.
    pub(crate) rule: u32,
    /// The part that the rows have in the key.
    pub(crate) role: Role,
    /// The number of the table, from 1.
    pub(crate) table: u32,
    /// The numbers of the columns whose cells are compared, from 1.
    pub(crate) columns: Seq<u32>,
}

fn new_listing(
    alloc: Global,
    rule: u32,
    role: Role,
    table: u32,
    columns: &[u32],
) -> Result<Listing, AllocError>
    ensures { IfOk result (λ l. l ≡ record { rule = rule; role = role; table = table; columns = columns.now }) }
{
    let columns = Seq::of(Vec::from_slice(alloc, columns)?);
    Ok(Listing {
        rule,
        role,
        table,
        columns,
    })
}

/// Returns the number of the next key. There is none after 2^32 - 1 keys, which are more than memory holds.
fn following(rule: u32) -> Result<u32, AllocError>
    ensures { IfOk result (λ next. next ≡ rule + 1) }
{
    match rule.checked_add(1) {
        Some(next) => Ok(next),
        None => Err(AllocError),
    }
}

/// Adds what is listed for the primary key of a table. Returns the number of the next key.
fn list_primary(
    alloc: Global,
    rule: u32,
    plan: &TablePlan,
    listings: &mut Vec<Listing>,
) -> Result<u32, AllocError>
    ensures listed { OnOk result (listings.new.items ≡ listings.old.items ++ listings_from rule (primary_rules plan.now.number plan.now.primary_key)) }
    ensures next { IfOk result (λ next. next ≡ rule + length (primary_rules plan.now.number plan.now.primary_key)) }
{
    if plan.primary_key.as_slice().is_empty() {
        return Ok(rule);
    }
    let columns = plan.primary_key.as_slice();
    let listing = new_listing(alloc, rule, Role::Unique, plan.number, columns)?;
    listings.push(listing)?;
    following(rule)
}

/// Adds what is listed for a foreign key of a table: the rows that it refers to, then those that refer.
fn list_reference(
    alloc: Global,
    rule: u32,
    table: u32,
    key: &ForeignKeyPlan,
    listings: &mut Vec<Listing>,
) -> Result<(), AllocError>
    ensures { OnOk result (listings.new.items ≡ listings.old.items ++ listings_for rule (reference_rule table key.now)) }
{
    let columns = key.referenced.as_slice();
    let referenced = new_listing(alloc, rule, Role::Referenced, key.table, columns)?;
    listings.push(referenced)?;
    let refers = new_listing(alloc, rule, Role::Refers, table, key.columns.as_slice())?;
    listings.push(refers)?;
    Ok(())
}

/// Adds what is listed for the foreign keys of a table. Returns the number of the next key.
fn list_references(
    alloc: Global,
    rule: u32,
    plan: &TablePlan,
    listings: &mut Vec<Listing>,
) -> Result<u32, AllocError>
    ensures listed { OnOk result (listings.new.items
        ≡ listings.old.items ++ listings_from rule (map (reference_rule plan.now.number) plan.now.foreign_keys)) }
    ensures next { IfOk result (λ next. next ≡ rule + length (map (reference_rule plan.now.number) plan.now.foreign_keys)) }
{
    let mut next = rule;
    for key in plan.foreign_keys.as_slice() {
        list_reference(alloc, next, plan.number, key, listings)?;
        next = following(next)?;
    }
    Ok(next)
}

/// Adds what is listed for the keys of a table. Returns the number of the next key.
fn list_table(
    alloc: Global,
    rule: u32,
    plan: &TablePlan,
    listings: &mut Vec<Listing>,
) -> Result<u32, AllocError>
    ensures listed { OnOk result (listings.new.items ≡ listings.old.items ++ listings_from rule (table_rules plan.now)) }
    ensures next { IfOk result (λ next. next ≡ rule + length (table_rules plan.now)) }
{
    let next = list_primary(alloc, rule, plan, listings)?;
    let last = list_references(alloc, next, plan, listings)?;
    Ok(last)
}

/// Returns what is listed for the keys of a plan, which are numbered from 1.
pub(crate) fn listings_of(alloc: Global, plan: &Plan) -> Result<Vec<Listing>, AllocError>
    ensures { IfOk result (λ v. v.items ≡ listings_from 1 (rules_of plan.now)) }
{
    let mut listings = Vec::new(alloc);
    let mut rule = 1;
    for table in plan.tables() {
        rule = list_table(alloc, rule, table, &mut listings)?;
    }
    Ok(listings)
}
