//! What is seen of a column (Metadata Vocabulary for Tabular Data, section 5.6), whatever faults it has: its names, and whether it
//! is virtual.
ghost use Rattle.std.specs.Prelude.{◌≡◌, IfOk, ℕ, codes};
ghost use Rattle.serde_json.specs.View.{view};
ghost use Rattle.csvw_meta_core.specs.Pointer.{text_of};
ghost use Rattle.csvw_meta_core.specs.Read.{optional};
ghost use Rattle.csvw_meta.specs.Column.{column, column_of};
ghost use Rattle.csvw_meta.specs.DeclaredName.{name};
ghost use Rattle.csvw_meta_faults.specs.Seen.{bare_column};

use crate::seen_titles::column_titles;
use csvw_description::{ColumnDescription, Name, no_inherited};
use csvw_meta::name::NameReader;
use csvw_meta_core::{Context, Part, Reader, Refusal, Truth};
use csvw_meta_faults_core::property_value;
use csvw_meta_faults_parts::Leaf;
use csvw_text::{Seq, Text};
use serde_json::Value;
use std::alloc::AllocError;

/// Returns the declared name of a value, or the empty name if it can't be read.
fn name_seen(part: &Part) -> Result<Name, AllocError>
    ensures { IfOk result (λ n. n ≡ (name (text_of part.now.at) (view part.now.value.now)).value) }
{
    match NameReader.read(part) {
        Ok(name) => Ok(name),
        Err(Refusal::Memory) => Err(AllocError),
        Err(Refusal::Fault(_)) => match Name::of(Text::new(part.alloc)) {
            Some(name) => Ok(name),
            None => unreachable!(),
        },
    }
}

/// Returns the declared name of a column, if it has one.
fn declared_name(part: &Part) -> Result<Option<Name>, AllocError>
    ensures { IfOk result (λ n. n ≡ (optional name (text_of part.now.at) (view part.now.value.now) (codes "name")).value) }
{
    match part.value.get("name") {
        Some(value) => Ok(Some(name_seen(&part.member("name", value))?)),
        None => Ok(None),
    }
}

/// Returns what an object says of a column: its names, and whether it is virtual.
#[tactic(auto, unfolding(csvw_meta::specs::Column::column_of))]
fn column_of_seen(context: &Context, part: &Part) -> Result<ColumnDescription, AllocError>
    ensures { (table number : ℕ) →
        IfOk result (λ c. c ≡ bare_column (column_of context.now table number (text_of part.now.at) (view part.now.value.now)).value) }
{
    let is_virtual = property_value(part, &Leaf { reader: Truth }, "virtual")?;
    let name = declared_name(part)?;
    let titles = column_titles(part, &context.language)?;
    Ok(ColumnDescription {
        name,
        titles,
        is_virtual,
        suppressed: false,
        is_row_title: false,
        inherited: no_inherited(),
        warnings: Seq::new(part.alloc),
    })
}

/// Returns what is seen of a column: its names, and whether it is virtual.
pub(crate) fn column_seen(context: &Context, part: &Part) -> Result<ColumnDescription, AllocError>
    ensures { (table number : ℕ) → IfOk result (λ c. c ≡ bare_column (column context.now table number (text_of part.now.at) (view part.now.value.now)).value) }
{
    match part.value {
        Value::Object(_) => column_of_seen(context, part),
        _ => Ok(ColumnDescription {
            name: None,
            titles: Seq::new(part.alloc),
            is_virtual: false,
            suppressed: false,
            is_row_title: false,
            inherited: no_inherited(),
            warnings: Seq::new(part.alloc),
        }),
    }
}
