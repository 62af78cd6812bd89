//! Columns whose cells have the same about links.
//!
//! The cells of a row are mostly about one thing. So a cell has the about link of the cell before it if their columns
//! have equal templates that name none of `_column`, `_sourceColumn` and `_name`. That is found once, too.
ghost use Rattle.std.specs.Prelude.{◌≡◌, true};
ghost use Rattle.std.specs.List.{list_any};
ghost use Rattle.csvw_annotate.specs.LowLine.{begins_with_low_line};
ghost use Rattle.csvw_annotate.specs.Sharing.{ShareAbout, is_of_column, names_column};

use csvw_columns_core::Column;
use csvw_template::Part;
use csvw_text::Text;

fn begins_with_low_line(name: &[u8]) -> bool
    ensures { result ≡ begins_with_low_line name.now }
{
    matches!(name, [b'_', ..])
}

#[tactic(auto, using(crate::proofs::ReservedLemmas::none_of_column))]
fn is_of_column(name: &str) -> bool
    ensures { result ≡ is_of_column name.now }
{
    // Few names begin like those.
    if !begins_with_low_line(name.as_bytes()) {
        return false;
    }
    "_column" == name || "_sourceColumn" == name || "_name" == name
}

fn any_of_column(names: &[Text]) -> bool
    ensures { result ≡ list_any is_of_column names.now }
{
    for name in names {
        if is_of_column(name.as_str()) {
            return true;
        }
    }
    false
}

fn names_column(part: &Part) -> bool
    ensures { result ≡ names_column part.now }
{
    match part {
        Part::Literal(_) => false,
        Part::Expression(_, names) => any_of_column(names.as_slice()),
    }
}

fn any_names_column(parts: &[Part]) -> bool
    ensures { result ≡ list_any names_column parts.now }
{
    for part in parts {
        if names_column(part) {
            return true;
        }
    }
    false
}

/// Returns true only if the cells of two columns have the same about link in each row.
///
/// The templates of such columns are equal and name no variable that each column has of its own.
pub(crate) fn share_about(one: &Column, other: &Column) -> bool
    ensures { result ≡ true → ShareAbout one.now other.now }
{
    match (&one.properties.about_url, &other.properties.about_url) {
        (Some(one), Some(other)) => {
            let one = one.get();
            one.is_same(other.get()) && !any_names_column(one.parts())
        }
        _ => false,
    }
}
