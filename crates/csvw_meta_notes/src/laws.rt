//! A law of the annotations that are read.
ghost use Rattle.std.specs.Prelude.{List, ℕ, Option};
ghost use Rattle.serde_json.specs.Data.{Data};
ghost use Rattle.url.specs.Parts.{Parts};
ghost use Rattle.csvw_meta_notes.specs.Fits.{AreFitNotes};
ghost use Rattle.csvw_meta_notes.specs.Annotations.{annotations, notes};

/// A law: each literal with a language in the annotations that are read, however deep, has the datatype rdf:langString.
/// This holds even if there is a fault in the annotations.
pub fn notes_fit()
    ensures annotations { (base : Parts) (language : Option (List ℕ)) (at : List ℕ) (d : Data) → AreFitNotes (annotations base language at d).value }
    ensures notes { (base : Parts) (language : Option (List ℕ)) (at : List ℕ) (d : Data) → AreFitNotes (notes base language at d).value }
{}
