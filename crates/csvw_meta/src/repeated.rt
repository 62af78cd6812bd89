//! Texts that equal an earlier text.
ghost use Rattle.std.specs.Prelude.{◌≡◌, ℕ, [], true, bytes_eq, MatchOption, Contains};
ghost use Rattle.std.specs.List.{list_any};
ghost use Rattle.csvw_meta_core.specs.declared.fault.MetaFault.{MetaFault};
ghost use Rattle.csvw_meta.specs.Repeated.{repeated};

use csvw_text::Text;

fn has_text(texts: &[Text], text: &Text) -> bool
    ensures { result ≡ list_any (λ t. bytes_eq t text.now) texts.now }
{
    for earlier in texts {
        if earlier.as_str() == text.as_str() {
            return true;
        }
    }
    false
}

/// Returns the index of a text that equals an earlier one, or `None` if there is none.
pub(crate) fn repeated_at(texts: &[Text]) -> Option<usize>
    ensures { (fault : ℕ → MetaFault) → MatchOption result (repeated (λ i. true) fault [] 0 texts.now ≡ [])
        (λ i. Contains (repeated (λ i. true) fault [] 0 texts.now) (fault i)) }
{
    for (i, text) in texts.iter().enumerate() {
        if has_text(&texts[..i], text) {
            return Some(i);
        }
    }
    None
}
