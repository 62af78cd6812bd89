//! Datatypes (Metadata Vocabulary for Tabular Data, section 5.11).
use crate::base::BaseReader;
use crate::form::{DatatypeFound, named, read_form};
use csvw_iri::Base;
use csvw_meta_core::{Part, Profile, Reader, Refusal};
use csvw_text::{Place, Seq};
use serde_json::Value;

/// Reads a datatype: the name of a built-in one, or an object. A name that the profile doesn't have is `NotSupported`.
#[derive(Drop)]
pub struct DatatypeReader<'a> {
    /// The datatypes that the document may use.
    pub profile: Profile,
    /// The base against which its `@id` is resolved.
    pub base: &'a Base,
    /// The place of the warnings.
    pub place: Place,
}

impl<'a> Reader for DatatypeReader<'a> {
    ghost use Rattle.csvw_meta_datatype.specs.Datatypes.{datatype};

    type Output = DatatypeFound;

    ghost reads = { λ r. datatype r.profile r.base.now r.place };

    #[tactic(auto, unfolding(crate::specs::Datatypes::datatype))]
    fn read(&self, part: &Part) -> Result<DatatypeFound, Refusal> {
        match part.value {
            Value::Object(_) => read_form(self.profile, self.base, self.place, part),
            _ => {
                let simple = BaseReader {
                    profile: self.profile,
                }
                .read(part)?;
                Ok(DatatypeFound {
                    datatype: named(simple),
                    warnings: Seq::new(part.alloc),
                })
            }
        }
    }
}
