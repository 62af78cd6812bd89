//! What the names in the templates of a column are bound to.
ghost use Rattle.std.specs.Prelude.{◌≡◌, IfOk, decimal};
ghost use Rattle.csvw_template.specs.declared.bound.Binding.TheVariants.{Constant};
ghost use Rattle.csvw_annotate.specs.Bindings.{column_binding, own_binding, source_binding};
ghost use Rattle.csvw_annotate.specs.Reserved.{decoded};

use csvw_columns_core::Column;
use csvw_template::{Binding, Names};
use csvw_text::Text;
use percent_encoding::percent_decode;
use std::alloc::{AllocError, Global};

/// The names in the templates of a column.
#[derive(Clone, Copy)]
pub(crate) struct CellNames<'a> {
    /// The column.
    pub column: &'a Column,
    /// The columns of its table.
    pub columns: &'a [Column],
}

impl<'a> Names for CellNames<'a> {
    ghost use Rattle.csvw_annotate.specs.Bindings.{name_binding};

    ghost binding_of = { λ names. name_binding names.column.now names.columns.now };

    fn binding(&self, alloc: Global, name: &str) -> Result<Binding, AllocError> {
        match own_binding(alloc, self.column, name)? {
            Some(binding) => Ok(binding),
            None => Ok(column_binding(self.columns, name)),
        }
    }
}

fn number_binding(alloc: Global, number: u64) -> Result<Binding, AllocError>
    ensures { IfOk result (λ b. b ≡ Constant (decimal number)) }
{
    Ok(Binding::Constant(Text::of(format!(in alloc; "{number}")?)))
}

fn source_binding(alloc: Global, number: Option<u64>) -> Result<Binding, AllocError>
    ensures { IfOk result (λ b. b ≡ source_binding number) }
{
    match number {
        Some(number) => number_binding(alloc, number),
        None => Ok(Binding::Nothing),
    }
}

/// Returns the name, percent-decoded.
fn decoded(alloc: Global, name: &str) -> Result<Text, AllocError>
    ensures { IfOk result (λ text. text ≡ decoded name.now) }
{
    let mut bytes = Vec::new(alloc);
    percent_decode(name.as_bytes()).append_to(&mut bytes)?;
    Ok(Text::of(String::from_utf8_lossy(alloc, bytes.as_slice())?))
}

/// Returns what a name is bound to that each cell has: `_row`, `_sourceRow`, `_column`, `_sourceColumn` or `_name`
/// (Metadata Vocabulary for Tabular Data, section 5.1.3). Returns `None` for another name, and `AllocError` if memory
/// runs out.
fn own_binding(alloc: Global, column: &Column, name: &str) -> Result<Option<Binding>, AllocError>
    ensures { IfOk result (λ b. b ≡ own_binding column.now name.now) }
{
    if "_row" == name {
        return Ok(Some(Binding::At(0)));
    }
    if "_sourceRow" == name {
        return Ok(Some(Binding::At(1)));
    }
    if "_column" == name {
        return Ok(Some(number_binding(alloc, u64::from(column.number))?));
    }
    if "_sourceColumn" == name {
        return Ok(Some(source_binding(alloc, column.source_number)?));
    }
    if "_name" == name {
        return Ok(Some(Binding::Constant(decoded(alloc, column.name.as_str())?)));
    }
    Ok(None)
}

/// Returns what the name of a column is bound to. The values of the columns are at the places from 2 on.
fn column_binding(columns: &[Column], name: &str) -> Binding
    ensures { result ≡ column_binding 2 columns.now name.now }
{
    for i in 0..columns.len() {
        if columns[i].name.as_str() == name {
            return Binding::At(i + 2);
        }
    }
    Binding::Nothing
}
