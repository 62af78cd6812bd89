//! Datatypes that objects describe (Metadata Vocabulary for Tabular Data, section 5.11.2).
ghost use Rattle.std.specs.Prelude.{◌≡◌, ◌++◌, [], None};
ghost use Rattle.serde_json.specs.View.{view};
ghost use Rattle.csvw_meta_core.specs.Pointer.{text_of};
ghost use Rattle.csvw_meta_core.specs.Reads.{Reads};
ghost use Rattle.csvw_meta_notes.specs.Unlisted.{unlisted};
ghost use Rattle.csvw_meta_datatype.specs.Names.{datatype_names};
ghost use Rattle.csvw_meta_datatype.specs.Datatypes.{based, form, named, of_type};

use crate::base::BaseReader;
use crate::facets::FacetsReader;
use crate::format::{FormatFound, FormatReader};
use csvw_datatype::{Datatype, Facets, Simple};
use csvw_iri::{Base, Iri};
use csvw_meta_core::{Fixed, IdReader, Part, Profile, Reader, Refusal, joined};
use csvw_meta_notes::{NoteContext, read_unlisted};
use csvw_text::{Fault, Place, Seq};

/// The properties that are listed for a datatype.
pub const DATATYPE: [&str; 13] = [
    "@id",
    "@type",
    "base",
    "format",
    "length",
    "minLength",
    "maxLength",
    "minimum",
    "minInclusive",
    "minExclusive",
    "maximum",
    "maxInclusive",
    "maxExclusive",
];

/// A datatype, and the warnings on it.
#[derive(Drop)]
pub struct DatatypeFound {
    /// The datatype. Its format and its facets fit its type and each other.
    pub datatype: Datatype,
    /// A warning for each property of the datatype, or of its format, that is ignored.
    pub warnings: Seq<Fault>,
}

/// Returns the datatype of a name.
pub(crate) fn named(simple: Simple) -> Datatype
    ensures { result ≡ (named simple).datatype }
{
    Datatype {
        simple,
        id: None,
        format: None,
        facets: Facets::new(),
    }
}

/// Returns the warnings on a datatype. Its annotations are checked but not kept, so no language is needed.
fn warnings_of(base: &Base, place: Place, part: &Part) -> Result<Seq<Fault>, Refusal>
    ensures { Reads result (unlisted base.now None (datatype_names ++ []) place (text_of part.now.at) (view part.now.value.now)) }
{
    let context = NoteContext {
        base,
        language: &None,
    };
    read_unlisted(&context, &DATATYPE, &[], place, part)
}

/// Reads the format and the facets of the object, for the datatype of a type.
#[tactic(auto, using(crate::proofs::ReadLemmas::fails_first), unfolding(crate::specs::Datatypes::of_type))]
fn read_of_type(
    profile: Profile,
    simple: Simple,
    id: Option<Iri>,
    place: Place,
    part: &Part,
) -> Result<DatatypeFound, Refusal>
    ensures { Reads result (of_type profile id place (text_of part.now.at) (view part.now.value.now) simple) }
{
    let none = FormatFound {
        format: None,
        warnings: Seq::new(part.alloc),
    };
    let reader = FormatReader {
        profile,
        simple,
        place,
    };
    let found = part.property(&reader, none, "format")?;
    let facets = FacetsReader { simple }.read(part)?;
    Ok(DatatypeFound {
        datatype: Datatype {
            simple,
            id,
            format: found.format,
            facets,
        },
        warnings: found.warnings,
    })
}

// The type decides which format and facets are allowed, so `base` is read first.
#[tactic(auto, using(crate::proofs::ReadLemmas::fails_by))]
fn read_based(
    profile: Profile,
    id: Option<Iri>,
    place: Place,
    part: &Part,
) -> Result<DatatypeFound, Refusal>
    ensures { Reads result (based profile id place (text_of part.now.at) (view part.now.value.now)) }
{
    let simple = part.property(&BaseReader { profile }, Simple::Text, "base")?;
    read_of_type(profile, simple, id, place, part)
}

/// Reads the datatype that an object describes. Its `@id` is resolved against the base.
#[tactic(auto, using(crate::proofs::ReadLemmas::fails_first), unfolding(crate::specs::Datatypes::form))]
pub(crate) fn read_form(
    profile: Profile,
    base: &Base,
    place: Place,
    part: &Part,
) -> Result<DatatypeFound, Refusal>
    ensures { Reads result (form profile base.now place (text_of part.now.at) (view part.now.value.now)) }
{
    let id = part.optional(&IdReader { base }, "@id")?;
    part.optional(&Fixed { text: "Datatype" }, "@type")?;
    let warnings = warnings_of(base, place, part)?;
    let found = read_based(profile, id, place, part)?;
    let warnings = joined(found.warnings, warnings)?;
    Ok(DatatypeFound {
        datatype: found.datatype,
        warnings,
    })
}
