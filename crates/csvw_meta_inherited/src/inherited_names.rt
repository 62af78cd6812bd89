//! The warnings on an object that has inherited properties (Metadata Vocabulary for Tabular Data, sections 5 and 5.7).
ghost use Rattle.std.specs.Prelude.{◌≡◌, ◌++◌};
ghost use Rattle.serde_json.specs.View.{view};
ghost use Rattle.csvw_meta_core.specs.Others.{names_of};
ghost use Rattle.csvw_meta_core.specs.Pointer.{text_of};
ghost use Rattle.csvw_meta_core.specs.Reads.{Reads};
ghost use Rattle.csvw_meta_inherited.specs.Names.{inherited_names};
ghost use Rattle.csvw_meta_notes.specs.Unlisted.{all_warnings, unlisted};

use csvw_meta_core::{Context, Part, Refusal};
use csvw_meta_notes::{read_all_warnings, warnings_at};
use csvw_text::{Fault, Place, Seq};

/// The inherited properties.
pub const INHERITED: [&str; 11] = [
    "aboutUrl",
    "propertyUrl",
    "valueUrl",
    "datatype",
    "default",
    "lang",
    "null",
    "ordered",
    "required",
    "separator",
    "textDirection",
];

/// Returns the warnings at a place on a column or a schema, whose annotations say nothing. `names` are the properties of its
/// kind; inherited properties are allowed as well. Fails with a fault of its annotations, or with `Memory` if memory runs out.
pub fn inheriting_warnings(
    context: &Context,
    names: &[&str],
    place: Place,
    part: &Part,
) -> Result<Seq<Fault>, Refusal>
    ensures { Reads result (unlisted context.now.base context.now.language (names_of names.now ++ inherited_names) place
        (text_of part.now.at) (view part.now.value.now)) }
{
    warnings_at(context, names, &INHERITED, place, part)
}

/// Returns the warnings at a place on a table or a group, and on its annotations. `names` are the properties of its kind;
/// inherited properties are allowed as well. Fails with `Memory` if memory runs out.
pub fn annotated_warnings(names: &[&str], place: Place, part: &Part) -> Result<Seq<Fault>, Refusal>
    ensures { Reads result (all_warnings (names_of names.now ++ inherited_names) place (text_of part.now.at) (view part.now.value.now)) }
{
    read_all_warnings(names, &INHERITED, place, part)
}
