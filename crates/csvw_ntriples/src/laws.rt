//! Laws about the documents that are written and read.
ghost use Rattle.std.specs.Prelude.{◌≡◌, ◌↔◌, ◌++◌, List, ℕ, map, Contains};
ghost use Rattle.std.specs.List.{AllByRecursion};
ghost use Rattle.csvw_triples_core.specs.declared.term.Triple.{Triple};
ghost use Rattle.csvw_ntriples.specs.LabelLaw.{LabelsDiffer};
ghost use Rattle.csvw_ntriples.specs.Document.{IsDocument};
ghost use Rattle.csvw_ntriples.specs.Grammar.{Denotes, DenotesText};
ghost use Rattle.csvw_ntriples.specs.Passing.{Passes, BeginsWrong};
ghost use Rattle.csvw_ntriples.specs.declared.term.NtTriple.{NtTriple};
ghost use Rattle.csvw_ntriples.specs.SameUpTo.{SameUpTo};
ghost use Rattle.csvw_ntriples.specs.Written.{written, said};
ghost use Rattle.csvw_ntriples.specs.Writable.{TripleFits};

/// Different origins of blank nodes have different labels.
pub fn labels_differ()
    ensures { LabelsDiffer }
{}

/// A text denotes triples, line by line, exactly if it is a document of them by the production `ntriplesDoc` (RDF
/// 1.1 N-Triples, section 7).
pub fn document_is_the_grammars()
    ensures { (text : List ℕ) (ts : List NtTriple) → DenotesText text ts ↔ IsDocument text ts }
{}

/// Bytes denote at most one list of triples (RDF 1.1 N-Triples, section 7).
pub fn denotes_one_list()
    ensures { (bytes : List ℕ) (xs ys : List NtTriple) → Denotes bytes xs → Denotes bytes ys → xs ≡ ys }
{}

/// If a reader read some triples and then more, it read both lists, one after the other.
pub fn passes_join()
    ensures { (a b c : List ℕ) (xs ys : List NtTriple) → Passes a xs b → Passes b ys c → Passes a (xs ++ ys) c }
{}

/// A document denotes the triples that were read, followed by those that the bytes after them denote, and no other
/// list.
pub fn passed_then_rest()
    ensures { (bytes rest : List ℕ) (ts all : List NtTriple) → Passes bytes ts rest
        → Denotes bytes all ↔ ((us : List NtTriple) × (all ≡ ts ++ us) × Denotes rest us) }
{}

/// Bytes denote no list of triples if their first line denotes none.
pub fn wrong_line_denotes_none()
    ensures { (bytes : List ℕ) (ts : List NtTriple) → BeginsWrong bytes → Denotes bytes ts → ⊥ }
{}

/// The bytes that are written denote the triples, each blank node by its label.
pub fn written_denotes()
    ensures { (ts : List Triple) → AllByRecursion TripleFits ts → Denotes (written ts) (map said ts) }
{}

/// The triples that are written are the same graph as the triples that were put, up to the names of blank nodes
/// (RDF 1.1 Concepts, section 3.6).
pub fn labels_name_one_to_one()
    ensures { (ts : List Triple) → AllByRecursion TripleFits ts → SameUpTo (Contains ts) (map said ts) }
{}
