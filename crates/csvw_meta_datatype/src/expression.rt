//! Regular expressions as formats (Model for Tabular Data and Metadata on the Web, section 6.4.6).
ghost use Rattle.csvw_meta_core.specs.Pointer.{text_of};
ghost use Rattle.csvw_meta_core.specs.Reads.{Reads};
ghost use Rattle.csvw_meta_datatype.specs.Expressions.{expression_of, text_expression};

use csvw_datatype::RegularExpression;
use csvw_meta_core::{MetaCode, Part, Profile, Reader, Refusal};
use csvw_text::Text;

/// Reads a text as an expression. Another text is `BadDatatype`.
fn read_text(text: &str, part: &Part) -> Result<Option<RegularExpression>, Refusal>
    ensures { Reads result (expression_of (text_of part.now.at) text.now) }
{
    let text = Text::copied(part.alloc, text)?;
    match RegularExpression::of(part.alloc, text)? {
        Some(expression) => Ok(Some(expression)),
        None => Err(part.refused(MetaCode::BadDatatype)),
    }
}

/// Reads a regular expression. A text that is none is `BadDatatype`. In the profile core each value is `NotSupported`.
#[derive(Drop)]
pub struct ExpressionReader {
    /// The formats that the document may use.
    pub profile: Profile,
}

impl Reader for ExpressionReader {
    type Output = Option<RegularExpression>;

    ghost reads = { λ r. text_expression r.profile };

    fn read(&self, part: &Part) -> Result<Option<RegularExpression>, Refusal> {
        match (self.profile, part.value.as_str()) {
            (Profile::Core, _) => Err(part.refused(MetaCode::NotSupported)),
            (Profile::W3c, Some(text)) => read_text(text, part),
            (Profile::W3c, None) => Err(part.wrong()),
        }
    }
}
