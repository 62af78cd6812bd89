//! Texts that are resolved against a base (Metadata Vocabulary for Tabular Data, section 5.1.2).
ghost use Rattle.std.specs.Prelude.{◌≡◌};
ghost use Rattle.csvw_meta_core.specs.Links.{url, id};

use crate::fault::{MetaCode, Refusal};
use crate::part::Part;
use crate::reader::Reader;
use csvw_iri::{Base, Iri, IriFault, resolve};

/// Reads a URL. It is resolved against a base, and its fragment is dropped. A text that resolves to no URL is
/// `UrlTooLong` or `BadUrl`.
#[derive(Drop)]
pub struct UrlReader<'a> {
    /// The base.
    pub base: &'a Base,
}

impl<'a> Reader for UrlReader<'a> {
    type Output = Base;

    ghost reads = { λ r. url r.base.now };

    fn read(&self, part: &Part) -> Result<Base, Refusal> {
        let Some(text) = part.value.as_str() else {
            return Err(part.wrong());
        };
        match self.base.join(part.alloc, text) {
            Ok(url) => Ok(url),
            Err(IriFault::Memory) => Err(Refusal::Memory),
            Err(IriFault::UrlTooLong) => Err(part.refused(MetaCode::UrlTooLong)),
            Err(IriFault::BadUrl) => Err(part.refused(MetaCode::BadUrl)),
        }
    }
}

/// Reads an `@id`, which is resolved against a base. A text that names a blank node is `BadId`. A text that resolves to
/// nothing is `UrlTooLong` or `BadUrl`.
#[derive(Drop)]
pub struct IdReader<'a> {
    /// The base.
    pub base: &'a Base,
}

impl<'a> Reader for IdReader<'a> {
    type Output = Iri;

    ghost reads = { λ r. id r.base.now };

    fn read(&self, part: &Part) -> Result<Iri, Refusal> {
        let Some(text) = part.value.as_str() else {
            return Err(part.wrong());
        };
        if text.starts_with("_:") {
            return Err(part.refused(MetaCode::BadId));
        }
        match resolve(part.alloc, self.base, text) {
            Ok(iri) => Ok(iri),
            Err(IriFault::Memory) => Err(Refusal::Memory),
            Err(IriFault::UrlTooLong) => Err(part.refused(MetaCode::UrlTooLong)),
            Err(IriFault::BadUrl) => Err(part.refused(MetaCode::BadUrl)),
        }
    }
}
