//! The triples of annotations.
ghost use Rattle.std.specs.Prelude.{◌≡◌, ◌∷◌, [], IfOk, OnOk, map};
ghost use Rattle.csvw_triples_rows.specs.RowTriples.{triple};
ghost use Rattle.csvw_triples_rows.specs.StandardTriples.{object_of};
ghost use Rattle.csvw_triples.specs.Annotations.{annotations, keyed, lit_of};
ghost use Rattle.csvw_triples.specs.Blanks.{blanks, blanks_of, is_blank, object_node};
ghost use Rattle.csvw_triples.specs.Growing.{Grows};
ghost use Rattle.csvw_triples.specs.NotesTriples.{kind_triple, note_triples, notes_triples, object_link};
ghost use Rattle.csvw_triples_core.specs.declared.term.Term.TheVariants.{Literal};

use crate::draft::{Draft, is_blank};
use crate::names::OpeningNames;
use csvw_description::{Note, NoteLiteral, NoteValue};
use csvw_iri::Iri;
use csvw_triples_rows::{Lit, Node, Term, Triple};
use std::alloc::{AllocError, Global};

/// Makes a node an object.
pub(crate) fn object_of(node: Node) -> Term
    ensures { result ≡ object_of node }
{
    match node {
        Node::Named(iri) => Term::Named(iri),
        Node::Blank(origin) => Term::Blank(origin),
    }
}

fn lit_of(alloc: Global, names: &OpeningNames, literal: &NoteLiteral) -> Result<Lit, AllocError>
    ensures { IfOk result (λ lit. lit ≡ lit_of literal.now) }
{
    let text = literal.text.clone(alloc)?;
    match &literal.language {
        None => Ok(Lit::typed(text, literal.datatype.clone(alloc)?)),
        Some(tag) => {
            let datatype = names.lang_string.clone(alloc)?;
            let lang = Some(tag.clone(alloc)?);
            Ok(Lit {
                text,
                datatype,
                lang,
            })
        }
    }
}

/// Adds the triple that leads to an object of an annotation, and returns the node of the object.
fn push_object(
    alloc: Global,
    draft: &mut Draft,
    subject: &Node,
    key: &Iri,
    id: &Option<Iri>,
) -> Result<Node, AllocError>
    ensures node { IfOk result (λ s. s ≡ object_node draft.old.blanks id.now) }
    ensures grows { OnOk result (Grows draft.old (object_link subject.now draft.old.blanks key.now id.now ∷ []) (is_blank id.now) draft.new) }
{
    let node = draft.object_node(alloc, id)?;
    let s = subject.clone(alloc)?;
    let p = key.clone(alloc)?;
    let o = object_of(node.clone(alloc)?);
    draft.triples.push(Triple { s, p, o })?;
    draft.blanks += is_blank(id);
    Ok(node)
}

fn push_literal(
    alloc: Global,
    draft: &mut Draft,
    subject: &Node,
    key: &Iri,
    lit: Lit,
) -> Result<(), AllocError>
    ensures { OnOk result (Grows draft.old (triple subject.now key.now (Literal lit) ∷ []) 0 draft.new) }
{
    let s = subject.clone(alloc)?;
    let p = key.clone(alloc)?;
    let o = Term::Literal(lit);
    draft.push(Triple { s, p, o })
}

fn kind_triple(
    alloc: Global,
    names: &OpeningNames,
    node: &Node,
    kind: &Iri,
) -> Result<Triple, AllocError>
    ensures { IfOk result (λ x. x ≡ kind_triple node.now kind.now) }
{
    let s = node.clone(alloc)?;
    let p = names.rdf_type.clone(alloc)?;
    let o = Term::Named(kind.clone(alloc)?);
    Ok(Triple { s, p, o })
}

fn push_kinds(
    alloc: Global,
    names: &OpeningNames,
    draft: &mut Draft,
    node: &Node,
    types: &[Iri],
) -> Result<(), AllocError>
    ensures { OnOk result (Grows draft.old (map (kind_triple node.now) types.now) 0 draft.new) }
{
    for kind in types {
        draft.push(kind_triple(alloc, names, node, kind)?)?;
    }
    Ok(())
}

#[cycle(push)]
fn push_note(
    alloc: Global,
    names: &OpeningNames,
    draft: &mut Draft,
    subject: &Node,
    note: &Note,
) -> Result<(), AllocError>
    ensures { OnOk result (Grows draft.old (note_triples subject.now draft.old.blanks (keyed note.now)) (blanks_of (keyed note.now).1) draft.new) }
{
    match &note.value {
        NoteValue::Literal(literal) => {
            let lit = lit_of(alloc, names, literal)?;
            push_literal(alloc, draft, subject, &note.key, lit)
        }
        NoteValue::Object(object) => {
            let node = push_object(alloc, draft, subject, &note.key, &object.id)?;
            push_kinds(alloc, names, draft, &node, object.types.as_slice())?;
            push_notes(alloc, names, draft, &node, object.notes.as_slice())
        }
    }
}

/// Adds the triples of a subject's annotations, in their order.
#[cycle(push)]
pub(crate) fn push_notes(
    alloc: Global,
    names: &OpeningNames,
    draft: &mut Draft,
    subject: &Node,
    notes: &[Note],
) -> Result<(), AllocError>
    ensures { OnOk result (Grows draft.old (notes_triples subject.now draft.old.blanks (annotations notes.now)) (blanks (annotations notes.now)) draft.new) }
{
    for note in notes {
        push_note(alloc, names, draft, subject, note)?;
    }
    Ok(())
}
