//! The JSON value of the bytes of a document (RFC 8259).
ghost use Rattle.std.specs.Prelude.{◌≡◌, ◌≢◌, ◌∷◌, [], MatchResult, Some, None};
ghost use Rattle.serde_json.specs.View.{view};
ghost use Rattle.serde_json.specs.Read.{read as read_text};
ghost use Rattle.csvw_meta_core.specs.Reads.{Fails};
ghost use Rattle.csvw_meta.specs.Json.{json_of, without_bom};

use csvw_meta_core::{MetaCode, MetaFault, Refusal};
use csvw_text::Text;
use serde_json::Value;
use std::alloc::Global;

/// Returns the fault of the whole document.
pub(crate) fn document_fault(alloc: Global, code: MetaCode) -> Refusal
    ensures { result ≡ Refusal.Fault (record { code = code; pointer = [] }) }
{
    Refusal::Fault(MetaFault {
        code,
        pointer: Text::new(alloc),
    })
}

/// Returns the value of the bytes. If they are not a JSON text, the fault is `NotJson`.
pub fn json_of(alloc: Global, bytes: &[u8]) -> Result<Value, Refusal>
    ensures { MatchResult result (λ v. json_of bytes.now ≡ Some (view v))
        (λ e. Fails e (record { code = MetaCode.NotJson; pointer = [] } ∷ []) × (e ≢ Refusal.Memory → json_of bytes.now ≡ None)) }
{
    match str::from_utf8(bytes) {
        Ok(text) => json_of_text(alloc, text),
        Err(_) => Err(document_fault(alloc, MetaCode::NotJson)),
    }
}

fn json_of_text(alloc: Global, text: &str) -> Result<Value, Refusal>
    ensures { MatchResult result (λ v. read_text text.now ≡ Some (view v))
        (λ e. Fails e (record { code = MetaCode.NotJson; pointer = [] } ∷ []) × (e ≢ Refusal.Memory → read_text text.now ≡ None)) }
{
    match Value::from_str(alloc, text) {
        Ok(value) => Ok(value),
        Err(e) if e.is_memory() => Err(Refusal::Memory),
        Err(_) => Err(document_fault(alloc, MetaCode::NotJson)),
    }
}

/// Returns the bytes without U+FEFF at their start.
pub fn without_bom(bytes: &[u8]) -> &[u8]
    ensures { result.now ≡ without_bom bytes.now }
{
    match bytes.strip_prefix(b"\xEF\xBB\xBF") {
        Some(rest) => rest,
        None => bytes,
    }
}
