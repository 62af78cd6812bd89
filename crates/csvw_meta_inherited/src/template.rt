//! The URI templates of documents (Metadata Vocabulary for Tabular Data, section 5.1.3).
ghost use Rattle.std.specs.Prelude.{◌≡◌};

use csvw_meta_core::{MetaCode, Part, Reader, Refusal};
use csvw_template::{Template, TemplateFault};

/// Reads a text that is a URI template. The fault is the first one of the template: `TooLong`, `BadTemplate` or
/// `TemplateLevel`.
#[derive(Drop)]
pub struct TemplateReader;

impl Reader for TemplateReader {
    ghost use Rattle.csvw_meta_inherited.specs.TemplateText.{template_text};

    type Output = Template;

    ghost reads = { λ _. template_text };

    fn read(&self, part: &Part) -> Result<Template, Refusal> {
        let Some(text) = part.value.as_str() else {
            return Err(part.wrong());
        };
        match Template::read(part.alloc, text) {
            Ok(template) => Ok(template),
            Err(TemplateFault::Memory) => Err(Refusal::Memory),
            Err(TemplateFault::TooLong) => Err(part.refused(MetaCode::TooLong)),
            Err(TemplateFault::BadTemplate) => Err(part.refused(MetaCode::BadTemplate)),
            Err(TemplateFault::TemplateLevel) => Err(part.refused(MetaCode::TemplateLevel)),
        }
    }
}
