//! Annotations: common properties and notes.
use csvw_iri::Iri;
use csvw_text::{LanguageTag, Seq, Text};

/// One item of an annotation (Metadata Vocabulary for Tabular Data, sections 5.8 and 6.2). An array has one note for
/// each of its items.
#[cycle(note)]
#[derive(Debug, Drop)]
pub struct Note {
    /// The predicate.
    pub key: Iri,
    /// The value.
    pub value: NoteValue,
}

/// The value of a note.
#[cycle(note)]
#[derive(Debug, Drop)]
pub enum NoteValue {
    /// A text, a number or a boolean.
    Literal(NoteLiteral),
    /// A node, with its properties.
    Object(NoteObject),
}

/// A literal of an annotation.
#[derive(Debug, Drop)]
pub struct NoteLiteral {
    /// The text.
    pub text: Text,
    /// The datatype. It is rdf:langString if the literal has a language.
    pub datatype: Iri,
    /// The language.
    pub language: Option<LanguageTag>,
}

/// An object of an annotation, which is a node of the graph.
#[cycle(note)]
#[derive(Debug, Drop)]
pub struct NoteObject {
    /// The `@id`. `None`: the object is a blank node.
    pub id: Option<Iri>,
    /// The `@type`s, in order.
    pub types: Seq<Iri>,
    /// The other properties, in the byte order of their keys.
    pub notes: Seq<Note>,
}
