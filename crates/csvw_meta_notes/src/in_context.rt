//! The annotations of an object in the context of its document, and the warnings on its properties.
ghost use Rattle.std.specs.Prelude.{◌≡◌, ◌++◌};
ghost use Rattle.serde_json.specs.View.{view};
ghost use Rattle.csvw_meta_core.specs.Others.{names_of};
ghost use Rattle.csvw_meta_core.specs.Pointer.{text_of};
ghost use Rattle.csvw_meta_core.specs.Reads.{Reads};
ghost use Rattle.csvw_meta_notes.specs.Unlisted.{all_notes, unlisted};

use crate::annotations::NoteContext;
use crate::unlisted::{read_all_notes, read_unlisted};
use csvw_description::Note;
use csvw_meta_core::{Context, Part, Refusal};
use csvw_text::{Fault, Place, Seq};

/// Reads the annotations of a group or a table: its common properties, then its notes. Fails with a fault of them, or with
/// `Memory` if memory runs out.
pub fn read_notes(context: &Context, part: &Part) -> Result<Seq<Note>, Refusal>
    ensures { Reads result (all_notes context.now.base context.now.language (text_of part.now.at) (view part.now.value.now)) }
{
    let notes = NoteContext {
        base: &context.base,
        language: &context.language,
    };
    read_all_notes(&notes, part)
}

/// Returns the warnings at a place on an object whose annotations say nothing. `names` are the properties of its kind, and
/// `shared` those that it shares with other kinds. Fails with a fault of its annotations, or with `Memory` if memory runs out.
pub fn warnings_at(
    context: &Context,
    names: &[&str],
    shared: &[&str],
    place: Place,
    part: &Part,
) -> Result<Seq<Fault>, Refusal>
    ensures { Reads result (unlisted context.now.base context.now.language (names_of names.now ++ names_of shared.now) place
        (text_of part.now.at) (view part.now.value.now)) }
{
    let notes = NoteContext {
        base: &context.base,
        language: &context.language,
    };
    read_unlisted(&notes, names, shared, place, part)
}
