//! The keys of two tables, to which rows are added.
ghost use Rattle.csvw_columns.specs.Ready.{AreReady};

use crate::groups::{KEYS, REFERRED, REFERRING};
use crate::tables::{plan_of, rows_of};
use csvw_annotate::Row;
use csvw_api::{Fault, Plan};
use csvw_keys::KeyBook;
use std::io;

/// Adds a row to the book, and once more if there was no memory. Prints what was returned.
fn print_add(rt: &HostRuntime, book: &mut KeyBook, table: u32, row: &Row) -> io::Result<()> {
    if book.add(table, row).is_ok() {
        return println!(rt; "add {table}: Ok");
    }
    match book.add(table, row) {
        Ok(()) => println!(rt; "add {table}: Memory; again Ok"),
        Err(_) => println!(rt; "add {table}: Memory; again Memory"),
    }
}

fn print_adds(rt: &HostRuntime, book: &mut KeyBook, table: u32, rows: &[Row]) -> io::Result<()> {
    for row in rows {
        print_add(rt, book, table, row)?;
    }
    Ok(())
}

fn print_faults(rt: &HostRuntime, faults: &[Fault]) -> io::Result<()> {
    for fault in faults {
        let place = &fault.place;
        print!(rt;
            " {} {} {} {}",
            fault.code.name(),
            place.table,
            place.row,
            place.column
        )?;
    }
    Ok(())
}

fn print_finish(rt: &HostRuntime, book: &KeyBook) -> io::Result<()> {
    match book.finish() {
        Ok(faults) => {
            print!(rt; "Ok")?;
            print_faults(rt, faults.as_slice())
        }
        Err(_) => print!(rt; "Memory"),
    }
}

/// Prints what the book returns at the end, twice.
fn print_end(rt: &HostRuntime, book: &KeyBook) -> io::Result<()> {
    print!(rt; "finish: ")?;
    print_finish(rt, book)?;
    print!(rt; "; again ")?;
    print_finish(rt, book)?;
    println!(rt; "")
}

/// Adds the rows of both tables to a book.
fn print_book(
    rt: &HostRuntime,
    book: &mut KeyBook,
    referring: &[Row],
    referred: &[Row],
) -> io::Result<()> {
    print_adds(rt, book, 1, referring)?;
    print_adds(rt, book, 2, referred)?;
    print_end(rt, book)
}

fn print_rows(
    rt: &HostRuntime,
    plan: &Plan,
    referring: &[Row],
    referred: &[Row],
) -> io::Result<()> {
    match KeyBook::new(rt.alloc(), plan) {
        Ok(mut book) => {
            println!(rt; "book: Ok")?;
            print_book(rt, &mut book, referring, referred)
        }
        Err(_) => println!(rt; "book: Memory"),
    }
}

fn print_plan(rt: &HostRuntime, plan: &Plan) -> io::Result<()>
    requires { AreReady plan.now.tables }
{
    let Some(referring) = rows_of(rt.alloc(), plan, 0, "ref", REFERRING) else {
        return println!(rt; "book: no rows");
    };
    let Some(referred) = rows_of(rt.alloc(), plan, 1, "k", REFERRED) else {
        return println!(rt; "book: no rows");
    };
    print_rows(rt, plan, referring.as_slice(), referred.as_slice())
}

/// Prints what `KeyBook::add` and `finish` return.
pub(crate) fn print_keys(rt: &HostRuntime) -> io::Result<()> {
    match plan_of(rt.alloc(), KEYS) {
        Some(plan) => print_plan(rt, &plan),
        None => println!(rt; "book: no plan"),
    }
}
