//! Texts of `base64Binary`.
ghost use Rattle.std.specs.Prelude.{◌≡◌, IfOk, IfSome};
ghost use Rattle.csvw_binary.specs.Binaries.{IsEncoded};
ghost use Rattle.csvw_binary.specs.declared.binary.BinaryForm.TheVariants.{Base64};
ghost use Rattle.csvw_binary.specs.Base64Texts.{base64_form, without_spaces};

use base64::DecodeAllocError;
use base64::engine::general_purpose::STANDARD;
use csvw_text::Text;
use std::alloc::{AllocError, Global};

fn without_spaces(alloc: Global, text: &[u8]) -> Result<Vec<u8>, AllocError>
    ensures { IfOk result (λ rest. rest.items ≡ without_spaces text.now) }
{
    text.iter().copied().filter(|b| *b != b' ').collect(alloc)
}

/// Returns the text without its spaces, or `None` if that isn't the encoding of bytes. Returns `AllocError` if memory runs
/// out.
#[tactic(auto, unfolding(crate::specs::Base64Texts::encoding))]
pub(crate) fn base64_text(alloc: Global, text: &str) -> Result<Option<Text>, AllocError>
    ensures form { IfOk result (λ found. found ≡ base64_form text.now) }
    ensures encoded { IfOk result (λ found. IfSome found (λ canonical. IsEncoded Base64 canonical)) }
{
    let form = without_spaces(alloc, text.as_bytes())?;
    match STANDARD.decode(alloc, form.as_slice()) {
        Ok(_) => {
            let Ok(form) = String::from_utf8(form) else {
                unreachable!();
            };
            Ok(Some(Text::of(form)))
        }
        Err(DecodeAllocError::OutOfMemory) => Err(AllocError),
        Err(DecodeAllocError::DecodeError(_)) => Ok(None),
    }
}
