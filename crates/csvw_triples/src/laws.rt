//! Laws about the triples of groups and tables. A call of a law does nothing.
ghost use Rattle.std.specs.Prelude.{◌≡◌, ◌↔◌, Contains, length};
ghost use Rattle.csvw_columns.specs.declared.plan.Plan.{Plan as ThePlan};
ghost use Rattle.csvw_triples_core.specs.declared.mode.Mode.{Mode as TheMode};
ghost use Rattle.csvw_triples_core.specs.declared.term.Triple.{Triple as TheTriple};
ghost use Rattle.csvw_triples.specs.Numbering.{note_numbers, counted};
ghost use Rattle.csvw_triples.specs.Opening.{Opening};
ghost use Rattle.csvw_triples.specs.OpeningTriples.{opening};

/// As a set, the triples of the opening are the graph of the group and its tables in each mode (csv2rdf, section
/// 4.2).
pub fn opening_is_the_graphs()
    ensures { (m : TheMode) (plan : ThePlan) (x : TheTriple) → Contains (opening m plan) x ↔ Opening m plan x }
{}

/// The objects of annotations that become blank nodes have numbers from 1, in the order in which the triples lead
/// to them.
pub fn notes_are_numbered_in_order()
    ensures { (m : TheMode) (plan : ThePlan) → note_numbers (opening m plan) ≡ counted 0 (length (note_numbers (opening m plan))) }
{}
