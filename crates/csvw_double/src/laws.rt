//! Laws: what contracts cite of canonical texts.
ghost use Rattle.std.specs.Prelude.{◌≡◌, ◌↔◌, List, Some, ℕ};
ghost use Rattle.csvw_double.specs.Forms.{double_form, number_of};
ghost use Rattle.csvw_double.specs.Values.{IsOneNumber};

/// A law: the canonical text of a double is a double, and its own canonical text.
pub fn canonical_texts_stay()
    ensures { (text form : List ℕ) → double_form text ≡ Some form → double_form form ≡ Some form }
{}

/// A law: two numbers have one canonical text exactly if they are equal.
pub fn equal_doubles()
    ensures { (s t x y : List ℕ) → number_of s ≡ Some x → number_of t ≡ Some y → (x ≡ y) ↔ IsOneNumber s t }
{}
