//! Rows that repeat a primary key, each with the first row that has the key (Metadata Vocabulary for Tabular Data,
//! section 5.5.1). The file is read twice for them: for the keys of these rows, and for the first rows with the keys.
ghost use Rattle.std.specs.Prelude.{IfSome};
ghost use Rattle.csvw_columns.specs.Ready.{AreReady, IsReady};

use crate::keyed_rows::KeyedRows;
use crate::repeating_rows::RepeatingRows;
use csvw_check_core::{Form, Repeat, Shown, Tables};
use csvw_columns::laws::each_table_is_ready;
use csvw_columns::{Plan, TablePlan};
use csvw_files::Opener;
use csvw_streams::Counted;
use csvw_text::{Code, Fault};
use std::alloc::{AllocError, Global};
use std::io::Read;

/// Of how many rows of a table the first row with their key is looked for, if not all faults are shown.
const MOST: usize = 20;

/// Of how many rows of a table it is looked for, if all faults are shown. Their keys are held.
const MOST_OF_ALL: usize = 100_000;

/// What a file is read for.
#[derive(Clone, Copy)]
enum Purpose {
    /// The keys of the rows that repeat one.
    Keys,
    /// The first rows with these keys.
    Firsts,
}

/// Returns of how many rows of a table the first row with their key is shown on a page of this form.
pub(crate) fn most_of(form: Form, shown: Shown) -> usize {
    match (form, shown) {
        (Form::Json, _) => 0,
        (Form::Text | Form::Html, Shown::First) => MOST,
        (Form::Text | Form::Html, Shown::All) => MOST_OF_ALL,
    }
}

/// Returns those of some faults, which are in the order of reports, that are in the table of this number.
fn in_table(faults: &[Fault], table: u32) -> &[Fault] {
    let begin = faults.partition_point(|fault| fault.place.table < table);
    let end = faults.partition_point(|fault| fault.place.table <= table);
    faults.get(begin..end).unwrap_or(&[])
}

/// Returns the numbers in their source of the first rows, at most so many, that repeat a key by these faults of a table.
fn rows_of(alloc: Global, faults: &[Fault], most: usize) -> Result<Vec<u64>, AllocError> {
    let mut rows = Vec::new(alloc);
    for fault in faults {
        if fault.code == Code::DuplicateKey && rows.len() < most {
            rows.push(fault.place.row)?;
        }
    }
    Ok(rows)
}

/// Reads the keys of the rows that repeat one.
fn read_keys<R: Read>(
    repeating: &mut RepeatingRows,
    rows: &mut KeyedRows,
    table: &TablePlan,
    reader: &mut R,
) -> Result<(), AllocError>
    requires { IsReady table.now }
{
    for _ in 0..u64::MAX {
        let goes_on = rows.read(table, reader);
        repeating.keep_keys(rows.rows(table))?;
        if !goes_on || repeating.has_keys() {
            break;
        }
    }
    Ok(())
}

/// Reads the first rows with the keys that are repeated.
fn read_firsts<R: Read>(
    repeating: &mut RepeatingRows,
    rows: &mut KeyedRows,
    table: &TablePlan,
    reader: &mut R,
) -> Result<(), AllocError>
    requires { IsReady table.now }
{
    for _ in 0..u64::MAX {
        let goes_on = rows.read(table, reader);
        repeating.keep_firsts(rows.rows(table))?;
        if !goes_on || repeating.has_firsts() {
            break;
        }
    }
    Ok(())
}

/// Returns the table of this number, from 1, of a plan whose tables can be read.
fn ready_table(plan: &Plan, number: u32) -> Option<&TablePlan>
    requires { AreReady plan.now.tables }
    ensures { IfSome result (λ table. IsReady table.now) }
{
    each_table_is_ready();
    let place = u32::checked_sub(number, 1)?;
    let table = plan.tables().get(place as usize)?;
    Some(table)
}

/// Reads the file of the rows' table for this purpose. It reads nothing if the file can't be opened again.
fn read_file<O: Opener>(
    repeating: &mut RepeatingRows,
    alloc: Global,
    tables: &Tables<'_>,
    purpose: Purpose,
    opener: &mut O,
) -> Result<(), AllocError>
    requires { AreReady tables.now.plan.now.tables }
{
    let Some(table) = ready_table(tables.plan, repeating.table) else {
        return Ok(());
    };
    let path = tables.path_at(repeating.table).unwrap_or("");
    let mut rows = KeyedRows::new(alloc, tables.plan, table)?;
    let Some(reader) = opener.open(path) else {
        return Ok(());
    };
    let mut reader = Counted::new(reader);
    let read = match purpose {
        Purpose::Keys => read_keys(repeating, &mut rows, table, &mut reader),
        Purpose::Firsts => read_firsts(repeating, &mut rows, table, &mut reader),
    };
    opener.close(reader);
    read
}

/// Adds those of the rows of a table whose first row is found.
fn add_table<O: Opener>(
    repeats: &mut Vec<Repeat>,
    alloc: Global,
    repeating: RepeatingRows,
    tables: &Tables<'_>,
    opener: &mut O,
) -> Result<(), AllocError>
    requires { AreReady tables.now.plan.now.tables }
{
    let mut repeating = repeating;
    read_file(&mut repeating, alloc, tables, Purpose::Keys, opener)?;
    read_file(&mut repeating, alloc, tables, Purpose::Firsts, opener)?;
    repeating.push_to(repeats)
}

/// Returns the rows that repeat a primary key by these faults, which are in the order of reports, each with the first row
/// that has the key: of each table at most so many. Returns `AllocError` if memory runs out.
pub(crate) fn repeats_of<O: Opener>(
    alloc: Global,
    tables: &Tables<'_>,
    faults: &[Fault],
    most: usize,
    opener: &mut O,
) -> Result<Vec<Repeat>, AllocError>
    requires { AreReady tables.now.plan.now.tables }
{
    let mut repeats = Vec::new(alloc);
    let mut number = 0;
    for _ in tables.paths {
        number = u32::saturating_add(number, 1);
        let rows = rows_of(alloc, in_table(faults, number), most)?;
        if !rows.is_empty() {
            let repeating = RepeatingRows::new(alloc, number, rows);
            add_table(&mut repeats, alloc, repeating, tables, opener)?;
        }
    }
    Ok(repeats)
}
