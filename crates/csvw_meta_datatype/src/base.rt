//! The names of built-in datatypes (Metadata Vocabulary for Tabular Data, section 5.11.1).
ghost use Rattle.std.specs.Prelude.{◌≡◌};
ghost use Rattle.csvw_meta_datatype.specs.Names.{is_in, kept_in, named_of, type_named, with_zones};
ghost use Rattle.csvw_meta_datatype.specs.Base.{base};

use csvw_datatype::{Simple, TextType, Zone};
use csvw_meta_core::{MetaCode, Part, Profile, Reader, Refusal};

/// Returns whether a document in a profile may use a type.
pub fn is_in(profile: Profile, simple: Simple) -> bool
    ensures { result ≡ is_in profile simple }
{
    match (profile, simple) {
        (Profile::Core, Simple::Other(_) | Simple::Floating(_)) => false,
        (Profile::Core | Profile::W3c, _) => true,
    }
}

/// Returns a type as a document in a profile uses it: in the profile w3c a `date` may have a zone, and a `dateTime` a zone and
/// parts of a second.
pub fn with_zones(profile: Profile, simple: Simple) -> Simple
    ensures { result ≡ with_zones profile simple }
{
    match (profile, simple) {
        (Profile::W3c, Simple::Day) => Simple::Other(TextType::Date),
        (Profile::W3c, Simple::Moment) => Simple::Other(TextType::DateTime(Zone::Optional)),
        (Profile::Core | Profile::W3c, _) => simple,
    }
}

fn simple_named(name: &str) -> Option<Simple>
    ensures { result ≡ type_named name.now }
{
    Simple::of(name)
}

/// Returns a type if a document in a profile may use it.
fn kept_in(profile: Profile, found: Option<Simple>) -> Option<Simple>
    ensures { result ≡ kept_in profile found }
{
    match found {
        Some(simple) if is_in(profile, simple) => Some(with_zones(profile, simple)),
        _ => None,
    }
}

/// Reads the name of a built-in datatype. A name that the profile doesn't have is `NotSupported`.
#[derive(Drop)]
pub struct BaseReader {
    /// The datatypes that the document may use.
    pub profile: Profile,
}

impl Reader for BaseReader {
    type Output = Simple;

    ghost reads = { λ r. base r.profile };

    fn read(&self, part: &Part) -> Result<Simple, Refusal> {
        let Some(name) = part.value.as_str() else {
            return Err(part.wrong());
        };
        match kept_in(self.profile, simple_named(name)) {
            Some(simple) => Ok(simple),
            None => Err(part.refused(MetaCode::NotSupported)),
        }
    }
}
