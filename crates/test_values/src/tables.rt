//! Tables of claims, and the tests that check them.
use crate::claims::Claim;
use crate::{bases, encoded, iri_limits, iris, links, own};
use csvw_iri::Base;
use std::alloc::{AllocError, Global};
use std::process::Abort;
use std::test::Fail;

/// Texts with the same claim.
pub(crate) struct Table {
    /// The base of the texts.
    pub(crate) base: &'static str,
    /// The claim.
    pub(crate) claim: Claim,
    /// The texts, one on each line, each with the expected result after `=>`. For a text alone the expected result is
    /// the text.
    pub(crate) rows: &'static str,
}

/// Returns whether the claim holds of a row.
fn row_holds(alloc: Global, base: &Base, claim: Claim, row: &str) -> Result<bool, AllocError> {
    let (text, want) = row.split_once("=>").unwrap_or((row, row));
    claim.holds(alloc, base, text, want)
}

fn rows_hold(rt: &impl Abort, alloc: Global, base: &Base, claim: Claim, rows: &str) {
    for row in rows.lines() {
        assert!(rt;
            matches!(row_holds(alloc, base, claim, row), Ok(true)),
            "{row:?}"
        );
    }
}

fn table_holds(rt: &impl Abort, alloc: Global, table: &Table) -> Result<(), Fail> {
    let base = Base::new(alloc, table.base)?;
    rows_hold(rt, alloc, &base, table.claim, table.rows);
    Ok(())
}

fn tables_hold(rt: &impl Abort, alloc: Global, tables: &[Table]) -> Result<(), Fail> {
    for table in tables {
        table_holds(rt, alloc, table)?;
    }
    Ok(())
}

/// A text, and the number of letters after it.
pub(crate) type Long = (&'static str, usize);

/// A claim, a text, and the expected result.
pub(crate) type Case = (Claim, Long, Long);

/// Returns a text with its letters after it.
fn letters(alloc: Global, long: &Long) -> Result<String, AllocError> {
    let (front, count) = long;
    let mut text = String::from_str(alloc, front)?;
    for _ in 0..*count {
        text.push('a')?;
    }
    Ok(text)
}

/// Returns whether the claim holds of a text with its letters.
fn case_holds(
    alloc: Global,
    base: &Base,
    claim: Claim,
    long: &Long,
    want: &Long,
) -> Result<bool, AllocError> {
    let text = letters(alloc, long)?;
    let want = letters(alloc, want)?;
    claim.holds(alloc, base, text.as_str(), want.as_str())
}

fn cases_hold_by(rt: &impl Abort, alloc: Global, base: &Base, cases: &[Case]) {
    for (claim, long, want) in cases {
        assert!(rt;
            matches!(case_holds(alloc, base, *claim, long, want), Ok(true)),
            "{long:?}"
        );
    }
}

/// Checks the claims against the base that a text is.
fn cases_hold(rt: &impl Abort, alloc: Global, base: &str, cases: &[Case]) -> Result<(), Fail> {
    let base = Base::new(alloc, base)?;
    cases_hold_by(rt, alloc, &base, cases);
    Ok(())
}

#[test]
fn tables_of_bases(rt: HostRuntime) -> Result<(), Fail> {
    tables_hold(&rt, rt.alloc(), &bases::TABLES)
}

#[test]
fn tables_of_links(rt: HostRuntime) -> Result<(), Fail> {
    tables_hold(&rt, rt.alloc(), &links::TABLES)
}

#[test]
fn tables_of_own_links(rt: HostRuntime) -> Result<(), Fail> {
    tables_hold(&rt, rt.alloc(), &own::TABLES)
}

#[test]
fn tables_of_encoded_links(rt: HostRuntime) -> Result<(), Fail> {
    tables_hold(&rt, rt.alloc(), &encoded::TABLES)
}

#[test]
fn long_texts(rt: HostRuntime) -> Result<(), Fail> {
    cases_hold(
        &rt,
        rt.alloc(),
        "http://example.org/p.csv",
        &iri_limits::TEXTS,
    )
}

#[test]
fn long_encoded_texts(rt: HostRuntime) -> Result<(), Fail> {
    cases_hold(&rt, rt.alloc(), encoded::BASE, &iri_limits::ENCODED)
}

#[test]
fn safe_iris(rt: HostRuntime) -> Result<(), Fail> {
    cases_hold(&rt, rt.alloc(), encoded::BASE, &iris::CASES)
}
