//! Tests of plans of descriptions that no document makes.
use csvw_columns::Plan;
use csvw_meta::{Description, MetaCode, MetaFault, plain};
use csvw_records::Dialect;
use std::alloc::{AllocError, Global};

/// Returns the default dialect with so many skipped columns and this quote.
fn dialect_of(alloc: Global, skipped: u32, quote: char) -> Result<Dialect, AllocError> {
    let mut dialect = Dialect::new(alloc)?;
    dialect.skip_columns = skipped;
    dialect.quote_char = Some(quote);
    Ok(dialect)
}

/// Returns the description of a table whose group has this dialect.
fn with_dialect(alloc: Global, dialect: Dialect) -> Result<Description, MetaFault> {
    let mut description = plain(alloc, "http://example.org/p.csv")?;
    description.dialect = Some(dialect);
    Ok(description)
}

/// Returns the description of a table whose group has a dialect with so many skipped columns and this quote.
fn described(alloc: Global, skipped: u32, quote: char) -> Option<Description> {
    let dialect = dialect_of(alloc, skipped, quote).ok()?;
    with_dialect(alloc, dialect).ok()
}

/// Returns the code of the fault by which a description has no plan, or `None` if it has a plan.
fn code_of(alloc: Global, description: Description) -> Option<MetaCode> {
    match Plan::build(alloc, description) {
        Ok(_) => None,
        Err(fault) => Some(fault.code),
    }
}

/// Whether the description with such a dialect has a plan, or no plan with this code.
fn has_code(alloc: Global, skipped: u32, quote: char, code: Option<MetaCode>) -> bool {
    match described(alloc, skipped, quote) {
        Some(description) => code_of(alloc, description) == code,
        None => false,
    }
}

#[test]
fn at_most_so_many_columns_are_skipped(rt: HostRuntime) {
    let alloc = rt.alloc();
    assert!(rt; has_code(alloc, 1024, '"', None));
    assert!(rt; has_code(alloc, 1025, '"', Some(MetaCode::TooMany)));
}

#[test]
fn no_quote_is_the_delimiter(rt: HostRuntime) {
    let alloc = rt.alloc();
    assert!(rt; has_code(alloc, 0, '\'', None));
    assert!(rt; has_code(alloc, 0, ',', Some(MetaCode::BadDialect)));
}
