//! The annotations of an object of a metadata document: its common properties and its `notes` (Metadata Vocabulary for
//! Tabular Data, section 5.8).
ghost use Rattle.std.specs.Prelude.{◌≡◌};
ghost use Rattle.serde_json.specs.View.{view};
ghost use Rattle.csvw_meta_core.specs.Pointer.{text_of};
ghost use Rattle.csvw_meta_core.specs.Reads.{Reads};
ghost use Rattle.csvw_meta_notes.specs.Annotations.{annotations, note_items, notes};

use crate::value::{Scope, add_items, add_members};
use crate::vocabulary::Vocabulary;
use csvw_description::Note;
use csvw_iri::Base;
use csvw_meta_core::{Part, Reader, Refusal};
use csvw_text::{LanguageTag, Seq};
use serde_json::Value;

/// What the context of a document says about its annotations.
#[derive(Clone, Copy)]
pub struct NoteContext<'a> {
    /// The base against which their `@id`s are resolved.
    pub base: &'a Base,
    /// The language of their texts.
    pub language: &'a Option<LanguageTag>,
}

/// Reads the common properties of the object that the part is, in the byte order of their keys. It returns the notes, a
/// fault of a property, or `Memory`.
pub(crate) fn read_annotations(context: &NoteContext, part: &Part) -> Result<Seq<Note>, Refusal>
    ensures { Reads result (annotations context.now.base.now context.now.language.now (text_of part.now.at) (view part.now.value.now)) }
{
    let mut found = Vec::new(part.alloc);
    if let Value::Object(members) = part.value {
        let vocabulary = Vocabulary::new(part.alloc)?;
        let scope = Scope {
            alloc: part.alloc,
            base: context.base,
            language: context.language,
            vocabulary: &vocabulary,
        };
        add_members(&scope, &part.at, members, &mut found)?;
    }
    Ok(Seq::of(found))
}

/// Reads an array of notes.
#[derive(Drop)]
struct NoteItems<'a> {
    context: NoteContext<'a>,
}

impl<'a> Reader for NoteItems<'a> {
    type Output = Seq<Note>;

    ghost reads = { λ r. note_items r.context.base.now r.context.language.now };

    fn read(&self, part: &Part) -> Result<Seq<Note>, Refusal> {
        let Value::Array(items) = part.value else {
            return Err(part.wrong());
        };
        let vocabulary = Vocabulary::new(part.alloc)?;
        let scope = Scope {
            alloc: part.alloc,
            base: self.context.base,
            language: self.context.language,
            vocabulary: &vocabulary,
        };
        let mut found = Vec::new(part.alloc);
        add_items(
            &scope,
            &vocabulary.note,
            &part.at,
            items.as_slice(),
            &mut found,
        )?;
        Ok(Seq::of(found))
    }
}

/// Reads the items of the property `notes` of the object that the part is, in order. It returns the notes, a fault of
/// an item, or `Memory`. If the property is not an array, the fault is `BadProperty`, or `NotSupported` for a number
/// that is not whole.
pub(crate) fn read_notes(context: &NoteContext, part: &Part) -> Result<Seq<Note>, Refusal>
    ensures { Reads result (notes context.now.base.now context.now.language.now (text_of part.now.at) (view part.now.value.now)) }
{
    let reader = NoteItems { context: *context };
    part.property(&reader, Seq::new(part.alloc), "notes")
}
