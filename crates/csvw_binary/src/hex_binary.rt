//! Texts of `hexBinary`.
ghost use Rattle.std.specs.Prelude.{◌≡◌, IfOk, IfSome};
ghost use Rattle.csvw_binary.specs.Binaries.{IsEncoded};
ghost use Rattle.csvw_binary.specs.declared.binary.BinaryForm.TheVariants.{Hex};
ghost use Rattle.csvw_binary.specs.HexTexts.{hex_form};

use csvw_text::Text;
use hex::FromHexError;
use std::alloc::{AllocError, Global};

/// Returns the canonical text of the bytes that a text writes, or `None` if it isn't pairs of hexadecimal digits. Returns
/// `AllocError` if memory runs out.
#[tactic(auto, unfolding(crate::specs::HexTexts::hex_form))]
pub(crate) fn hex_text(alloc: Global, text: &str) -> Result<Option<Text>, AllocError>
    ensures form { IfOk result (λ found. found ≡ hex_form text.now) }
    ensures encoded { IfOk result (λ found. IfSome found (λ canonical. IsEncoded Hex canonical)) }
{
    match hex::decode(alloc, text) {
        Ok(bytes) => {
            let form = hex::encode_upper(alloc, bytes.as_slice())?;
            Ok(Some(Text::of(form)))
        }
        Err(FromHexError::OutOfMemory) => Err(AllocError),
        Err(_) => Ok(None),
    }
}
