//! A value of a document, with what the text of the document says of it.
ghost use Rattle.std.specs.Prelude.{◌≡◌, option_map};
ghost use Rattle.csvw_meta_core.specs.Pointer.{below, item_at, text_of};
ghost use Rattle.csvw_defaults.specs.Sources.{in_item, in_member, number_text, source_of};

use csvw_meta_core::Part;
use json::Value as Source;
use serde_json::Value;

/// A value of a document as it is written, if it is known. A number is its text.
#[derive(Clone, Copy)]
pub(crate) enum Written<'s, 't> {
    /// It is this value of a text.
    Known(&'s Source<'t>),
    /// It isn't known.
    Unknown,
}

/// A value of a document, and its place there.
#[derive(Clone, Copy)]
pub(crate) struct Node<'a, 's, 't> {
    /// The value, as it is read, and its place.
    pub(crate) part: Part<'a>,
    /// The value as it is written.
    pub(crate) source: Written<'s, 't>,
}

impl<'s, 't> Written<'s, 't> {
    /// Returns the member of that name.
    fn member(self, name: &str) -> Written<'s, 't>
        ensures { source_of result ≡ in_member name.now (source_of self.entry) }
    {
        match self {
            Written::Known(source) => match source.get(name) {
                Some(found) => Written::Known(found),
                None => Written::Unknown,
            },
            Written::Unknown => Written::Unknown,
        }
    }

    /// Returns the item of that index, from 0.
    fn item(self, index: usize) -> Written<'s, 't>
        ensures { source_of result ≡ in_item index (source_of self.entry) }
    {
        match self {
            Written::Known(source) => match source.at(index) {
                Some(found) => Written::Known(found),
                None => Written::Unknown,
            },
            Written::Unknown => Written::Unknown,
        }
    }
}

impl<'a, 's, 't> Node<'a, 's, 't> {
    /// Returns the node of the member of that name.
    pub(crate) fn member<'b>(&'b self, name: &'b str, value: &'b Value) -> Node<'b, 's, 't>
        ensures at { text_of result.part.at ≡ below (text_of self.now.part.at) name.now }
        ensures source { source_of result.source ≡ in_member name.now (source_of self.now.source) }
        ensures value { result.part.value.now ≡ value.now }
    {
        Node {
            part: self.part.member(name, value),
            source: self.source.member(name),
        }
    }

    /// Returns the node of the item of that index, from 0.
    pub(crate) fn item<'b>(&'b self, index: usize, value: &'b Value) -> Node<'b, 's, 't>
        ensures at { text_of result.part.at ≡ item_at (text_of self.now.part.at) index }
        ensures source { source_of result.source ≡ in_item index (source_of self.now.source) }
        ensures value { result.part.value.now ≡ value.now }
    {
        Node {
            part: self.part.item(index, value),
            source: self.source.item(index),
        }
    }

    /// Returns how the number that it is is written.
    pub(crate) fn number_text(&self) -> Option<&'t str>
        ensures { option_map (λ s. s.now) result ≡ number_text (source_of self.now.source) }
    {
        match self.source {
            Written::Known(source) => source.as_number(),
            Written::Unknown => None,
        }
    }
}
