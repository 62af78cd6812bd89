//! The datatypes of literals.
ghost use Rattle.std.specs.Prelude.{◌≡◌, IfOk};
ghost use Rattle.csvw_columns_core.specs.LiteralDatatype.{xsd_type, simple_iri, literal_datatype};

use csvw_datatype::{Datatype, Simple};
use csvw_iri::{Iri, made_safe};
use std::alloc::{AllocError, Global};

/// Returns the IRI of a built-in datatype of XML Schema.
fn xsd_type(alloc: Global, simple: Simple) -> Result<Iri, AllocError>
    ensures { IfOk result (λ iri. iri ≡ xsd_type simple) }
{
    let mut text = String::from_str(alloc, "http://www.w3.org/2001/XMLSchema#")?;
    text.push_str(simple.name())?;
    made_safe(alloc, text.as_str())
}

/// Returns the IRI of a built-in datatype.
fn simple_iri(alloc: Global, simple: Simple) -> Result<Iri, AllocError>
    ensures { IfOk result (λ iri. iri ≡ simple_iri simple) }
{
    match simple {
        Simple::Other(text_type) => made_safe(alloc, text_type.iri()),
        _ => xsd_type(alloc, simple),
    }
}

/// Returns the datatype of the literals of values that were read: the `@id` of a datatype, else its base (csv2rdf,
/// section 4.6). Returns `AllocError` if memory runs out.
pub(crate) fn literal_datatype(alloc: Global, datatype: &Datatype) -> Result<Iri, AllocError>
    ensures { IfOk result (λ iri. iri ≡ literal_datatype datatype.now) }
{
    match &datatype.id {
        Some(id) => id.clone(alloc),
        None => simple_iri(alloc, datatype.simple),
    }
}
