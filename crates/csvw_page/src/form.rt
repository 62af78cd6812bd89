//! The form of a page, and whether it has colours.

/// The form of a page.
#[derive(Clone, Copy)]
pub enum Form {
    /// Lines of text.
    Text,
    /// One file of HTML, without scripts and links to other files.
    Html,
    /// A JSON array with an object for each fault, each on a line. An object has the members `kind`, `code`, `sentence`,
    /// `file`, `table`, `row`, `line`, `column`, `name` and `text`.
    ///
    /// The row is that of the source. A number is 0, a name is empty and a text is null if there is none. The line and the
    /// column of a property of the document are those of its name. A stop has the kind `stop`. Its `name` is the JSON
    /// Pointer of a value of the document, and its `hints` are texts. An object of the kind `rest` has the `count` of
    /// faults that are not shown.
    Json,
}

/// Whether lines of text have colours, by the codes of ANSI (ECMA-48).
#[derive(Clone, Copy)]
pub enum Color {
    /// Lines have no colours.
    Never,
    /// The severity, the code and the mark of each fault have colours.
    Always,
}
