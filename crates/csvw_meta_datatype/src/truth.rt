//! The texts of booleans (Model for Tabular Data and Metadata on the Web, section 6.4.3).
ghost use Rattle.std.specs.Prelude.{◌≡◌, IfOk};
ghost use Rattle.csvw_meta_datatype.specs.Truths.{truth_format_of, truth_format};

use csvw_datatype::TruthFormat;
use csvw_meta_core::{MetaCode, Part, Reader, Refusal};
use std::alloc::{AllocError, Global};

fn truth_format_of(alloc: Global, pattern: &str) -> Result<Option<TruthFormat>, AllocError>
    ensures { IfOk result (λ o. o ≡ truth_format_of pattern.now) }
{
    TruthFormat::of(alloc, pattern)
}

/// Reads two different texts with `|` between them. Another text is `BadDatatype`.
#[derive(Drop)]
pub struct TruthPattern;

impl Reader for TruthPattern {
    type Output = TruthFormat;

    ghost reads = { λ _. truth_format };

    fn read(&self, part: &Part) -> Result<TruthFormat, Refusal> {
        let Some(pattern) = part.value.as_str() else {
            return Err(part.wrong());
        };
        match truth_format_of(part.alloc, pattern)? {
            Some(format) => Ok(format),
            None => Err(part.refused(MetaCode::BadDatatype)),
        }
    }
}
