//! The `@id` of a node that an object describes (Metadata Vocabulary for Tabular Data, section 6.2).
ghost use Rattle.std.specs.Prelude.{◌≡◌};
ghost use Rattle.csvw_meta_notes.specs.Nodes.{node_id};

use csvw_iri::{Base, Iri, IriFault, link};
use csvw_meta_core::{MetaCode, Part, Reader, Refusal};

/// Reads the `@id` of a node. Its prefix is replaced, and the result is resolved against a base. A text that names a
/// blank node is `BadId`. A text that resolves to nothing is `UrlTooLong` or `BadUrl`.
#[derive(Drop)]
pub struct NodeId<'a> {
    /// The base.
    pub base: &'a Base,
}

impl<'a> Reader for NodeId<'a> {
    type Output = Iri;

    ghost reads = { λ r. node_id r.base.now };

    fn read(&self, part: &Part) -> Result<Iri, Refusal> {
        let Some(text) = part.value.as_str() else {
            return Err(part.wrong());
        };
        if text.starts_with("_:") {
            return Err(part.refused(MetaCode::BadId));
        }
        match link(part.alloc, self.base, text) {
            Ok(iri) => Ok(iri),
            Err(IriFault::Memory) => Err(Refusal::Memory),
            Err(IriFault::UrlTooLong) => Err(part.refused(MetaCode::UrlTooLong)),
            Err(IriFault::BadUrl) => Err(part.refused(MetaCode::BadUrl)),
        }
    }
}
