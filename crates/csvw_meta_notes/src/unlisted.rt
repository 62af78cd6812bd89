//! The properties of an object that are not listed for its kind (Metadata Vocabulary for Tabular Data, sections 4.1,
//! 5.8).
ghost use Rattle.std.specs.Prelude.{◌≡◌, ◌++◌};
ghost use Rattle.serde_json.specs.View.{view};
ghost use Rattle.csvw_meta_core.specs.Others.{names_of};
ghost use Rattle.csvw_meta_core.specs.Pointer.{text_of};
ghost use Rattle.csvw_meta_core.specs.Reads.{Reads};
ghost use Rattle.csvw_meta_notes.specs.Unlisted.{all_notes, all_warnings, unlisted};

use crate::annotations::{NoteContext, read_annotations, read_notes};
use crate::warnings::{annotation_warnings, note_warnings};
use csvw_description::Note;
use csvw_meta_core::{CommonProperty, Listed, Part, Reader, Refusal, joined};
use csvw_text::{Fault, Place, Seq};

/// Returns the warnings on an object whose annotations are not kept. `names` are listed for its kind only, and
/// `shared` for other kinds too. The warnings have the given place. The common properties are checked but not kept. It
/// returns a fault of a common property if there is one, or `Memory`.
pub fn read_unlisted(
    context: &NoteContext,
    names: &[&str],
    shared: &[&str],
    place: Place,
    part: &Part,
) -> Result<Seq<Fault>, Refusal>
    ensures { Reads result (unlisted context.now.base.now context.now.language.now (names_of names.now ++ names_of shared.now) place
        (text_of part.now.at) (view part.now.value.now)) }
{
    read_annotations(context, part)?;
    let listed = Listed {
        names,
        shared,
        common: CommonProperty::Allowed,
        place,
    };
    let warnings = listed.read(part)?;
    let inside = annotation_warnings(part.alloc, place, part.value)?;
    Ok(joined(warnings, inside)?)
}

/// Returns the annotations of a group or a table: its common properties in the byte order of their keys, then its
/// `notes`. It returns a fault of an annotation if there is one, or `Memory`.
pub fn read_all_notes(context: &NoteContext, part: &Part) -> Result<Seq<Note>, Refusal>
    ensures { Reads result (all_notes context.now.base.now context.now.language.now (text_of part.now.at) (view part.now.value.now)) }
{
    let common = read_annotations(context, part)?;
    let notes = read_notes(context, part)?;
    Ok(joined(common, notes)?)
}

/// Returns the warnings on a group or a table and on its annotations. `names` are listed for its kind only, and
/// `shared` for other kinds too. The warnings have the given place. It returns `Memory` if memory runs out.
pub fn read_all_warnings(
    names: &[&str],
    shared: &[&str],
    place: Place,
    part: &Part,
) -> Result<Seq<Fault>, Refusal>
    ensures { Reads result (all_warnings (names_of names.now ++ names_of shared.now) place (text_of part.now.at) (view part.now.value.now)) }
{
    let listed = Listed {
        names,
        shared,
        common: CommonProperty::Allowed,
        place,
    };
    let warnings = listed.read(part)?;
    let inside = annotation_warnings(part.alloc, place, part.value)?;
    let noted = note_warnings(part.alloc, place, part.value)?;
    let warnings = joined(warnings, inside)?;
    Ok(joined(warnings, noted)?)
}
