//! Laws about documents. The calls do nothing.
ghost use Rattle.std.specs.Prelude.{◌≡◌, ◌↔◌, true, ℕ, List, Some, None, Contains};
ghost use Rattle.csvw_description.specs.declared.description.Description.{Description as TheDescription};
ghost use Rattle.csvw_meta_core.specs.declared.fault.MetaFault.{MetaFault as TheFault};
ghost use Rattle.csvw_meta.specs.DeclaredName.{is_variable};
ghost use Rattle.csvw_meta.specs.Document.{Document, IsFault, group_in};
ghost use Rattle.csvw_template.specs.Name.{IsName};

/// A document describes a group exactly if there is no fault in it. The faults in it fit in one list.
pub fn groups_have_no_faults()
    ensures group { (x : Document) (d : TheDescription) (f : TheFault) → group_in x ≡ Some d → IsFault x f → ⊥ }
    ensures none { (x : Document) → group_in x ≡ None → (f : TheFault) × IsFault x f }
    ensures all { (x : Document) → (faults : List TheFault) × ((f : TheFault) → IsFault x f → Contains faults f) }
{}

/// The test for the declared names of columns accepts a text as a variable exactly if the grammar of URI templates
/// does (RFC 6570, section 2.3).
pub fn variables_are_names()
    ensures { (text : List ℕ) → (is_variable text ≡ true) ↔ IsName text }
{}
