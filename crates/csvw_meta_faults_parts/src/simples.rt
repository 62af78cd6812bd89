//! The built-in datatypes of a profile (Metadata Vocabulary for Tabular Data, section 5.11.1).
ghost use Rattle.std.specs.Prelude.{◌≡◌, IfOk, filter, map};
ghost use Rattle.csvw_meta_datatype.specs.Names.{all_simples, is_in, simples_of, with_zones};

use csvw_datatype::{BinaryForm, DatePart, DurationKind, Floating, Simple, TextType, Width, Zone};
use csvw_meta_core::Profile;
use csvw_meta_datatype::base::{is_in, with_zones};
use std::alloc::{AllocError, Global};

/// The built-in datatypes of all profiles.
static ALL: [Simple; 43] = [
    Simple::Text,
    Simple::Truth,
    Simple::Whole,
    Simple::Decimal,
    Simple::Day,
    Simple::Uri,
    Simple::Moment,
    Simple::Derived(Width::Long),
    Simple::Derived(Width::Int),
    Simple::Derived(Width::Short),
    Simple::Derived(Width::Byte),
    Simple::Derived(Width::UnsignedLong),
    Simple::Derived(Width::UnsignedInt),
    Simple::Derived(Width::UnsignedShort),
    Simple::Derived(Width::UnsignedByte),
    Simple::Derived(Width::NonNegativeInteger),
    Simple::Derived(Width::PositiveInteger),
    Simple::Derived(Width::NonPositiveInteger),
    Simple::Derived(Width::NegativeInteger),
    Simple::Other(TextType::Any),
    Simple::Other(TextType::Token),
    Simple::Other(TextType::Xml),
    Simple::Other(TextType::Html),
    Simple::Other(TextType::Json),
    Simple::Floating(Floating::Double),
    Simple::Floating(Floating::Float),
    Simple::Other(TextType::Language),
    Simple::Other(TextType::Name),
    Simple::Other(TextType::NameToken),
    Simple::Other(TextType::Time),
    Simple::Other(TextType::Part(DatePart::Year)),
    Simple::Other(TextType::Part(DatePart::YearMonth)),
    Simple::Other(TextType::Part(DatePart::Month)),
    Simple::Other(TextType::Part(DatePart::MonthDay)),
    Simple::Other(TextType::Part(DatePart::Day)),
    Simple::Other(TextType::DateTime(Zone::Required)),
    Simple::Other(TextType::Normalized),
    Simple::Other(TextType::QualifiedName),
    Simple::Other(TextType::Binary(BinaryForm::Hex)),
    Simple::Other(TextType::Binary(BinaryForm::Base64)),
    Simple::Other(TextType::Duration(DurationKind::Any)),
    Simple::Other(TextType::Duration(DurationKind::YearMonth)),
    Simple::Other(TextType::Duration(DurationKind::DayTime)),
];

/// Returns those of some datatypes that a document in a profile may use, as it uses them. Returns `AllocError` if there is no
/// memory.
fn kept_in(alloc: Global, profile: Profile, simples: &[Simple]) -> Result<Vec<Simple>, AllocError>
    ensures { IfOk result (λ v. v.items ≡ map (with_zones profile) (filter (is_in profile) simples.now)) }
{
    let mut kept = Vec::new(alloc);
    for simple in simples {
        if is_in(profile, *simple) {
            kept.push(with_zones(profile, *simple))?;
        }
    }
    Ok(kept)
}

/// Returns the built-in datatypes of a profile, or `AllocError` if there is no memory.
pub fn simples_of(alloc: Global, profile: Profile) -> Result<Vec<Simple>, AllocError>
    ensures { IfOk result (λ v. v.items ≡ simples_of profile) }
{
    kept_in(alloc, profile, &ALL)
}
