//! The literals of values.
ghost use Rattle.std.specs.Prelude.{◌≡◌, OnOk, bytes_eq, codes};
ghost use Rattle.csvw_iri.specs.Vocabulary.{lang_string};
ghost use Rattle.csvw_datatype.specs.Lexical.{IsWritable, lexical_of};
ghost use Rattle.csvw_datatype.specs.Strings.{is_string};
ghost use Rattle.csvw_triples_core.specs.Lent.{lit_of};
ghost use Rattle.csvw_triples_core.specs.Literal.{tagged_lit, typed_lit};
ghost use Rattle.csvw_triples_rows.specs.Literals.{has_language, literal_of, read_literal};
ghost use Rattle.csvw_triples_rows.specs.RowTitles.{text_literal, title_literal};
ghost use Rattle.csvw_triples_rows.specs.Spelled.{spelled};

use crate::rdf::RdfNames;
use csvw_cell::Item;
use csvw_columns_core::{Column, Properties};
use csvw_datatype::Value;
use csvw_iri::Iri;
use csvw_text::{LanguageTag, Text};
use csvw_triples_core::LitRef;
use std::alloc::AllocError;

/// Returns whether the tag is that of an undetermined language.
fn is_undetermined(tag: &LanguageTag) -> bool
    ensures { result ≡ bytes_eq tag.now (codes "und") }
{
    matches!(tag.as_str().as_bytes(), [b'u', b'n', b'd'])
}

fn has_language(properties: &Properties) -> bool
    ensures { result ≡ has_language properties.now }
{
    let datatype = properties.datatype.get();
    datatype.is_string() && datatype.id.is_none() && !is_undetermined(properties.lang.get())
}

/// Writes the lexical form of a value over a text, unless the value is a text itself. Fails with `AllocError` if
/// memory runs out.
#[inline(always)]
pub(crate) fn spell(form: &mut Text, value: &Value) -> Result<(), AllocError>
    requires { IsWritable value.now }
    ensures { OnOk result (spelled value.now form.new ≡ lexical_of value.now) }
{
    match value {
        Value::Text(_) => Ok(()),
        Value::Truth(_) | Value::Number(_) | Value::Day(_) | Value::Moment(_) => {
            value.refill_lexical(form)
        }
    }
}

/// Lends the lexical form of a value: the text that it is, else the form that `spell` wrote.
#[inline(always)]
pub(crate) fn spelled<'a>(value: &'a Value, form: &'a Text) -> &'a str
    ensures { result.now ≡ spelled value.now form.now }
{
    match value {
        Value::Text(text) => text.as_str(),
        Value::Truth(_) | Value::Number(_) | Value::Day(_) | Value::Moment(_) => form.as_str(),
    }
}

/// Lends a literal with a datatype and without a language.
#[inline(always)]
pub(crate) fn typed<'a>(text: &'a str, datatype: &'a Iri) -> LitRef<'a>
    ensures { lit_of result ≡ typed_lit text.now datatype.now }
{
    LitRef {
        text,
        datatype,
        lang: None,
    }
}

/// Lends a literal with a language. Its datatype is rdf:langString.
fn tagged<'a>(text: &'a str, datatype: &'a Iri, tag: &'a LanguageTag) -> LitRef<'a>
    requires { datatype.now ≡ lang_string }
    ensures { lit_of result ≡ tagged_lit text.now tag.now }
{
    LitRef {
        text,
        datatype,
        lang: Some(tag),
    }
}

#[inline(always)]
fn read_literal<'a>(names: &'a RdfNames, column: &'a Column, text: &'a str) -> LitRef<'a>
    ensures { lit_of result ≡ read_literal column.now text.now }
{
    if has_language(&column.properties) {
        return tagged(text, &names.lang_string, column.properties.lang.get());
    }
    typed(text, &column.literal_datatype)
}

/// Lends the literal of a text in the language of its column.
fn text_literal<'a>(names: &'a RdfNames, column: &'a Column, text: &'a str) -> LitRef<'a>
    ensures { lit_of result ≡ text_literal column.now text.now }
{
    let tag = column.properties.lang.get();
    if is_undetermined(tag) {
        return typed(text, &names.string);
    }
    tagged(text, &names.lang_string, tag)
}

/// Lends the literal of a title, by the lexical form of its value.
pub(crate) fn title_literal<'a>(
    names: &'a RdfNames,
    column: &'a Column,
    item: &Item,
    text: &'a str,
) -> LitRef<'a>
    requires { text.now ≡ lexical_of item.now.value }
    ensures { lit_of result ≡ title_literal column.now item.now }
{
    if item.was_read && column.properties.datatype.get().is_string() {
        return text_literal(names, column, text);
    }
    typed(text, &names.string)
}

/// Lends the literal of a value, by its lexical form.
#[inline(always)]
pub(crate) fn literal_of<'a>(
    names: &'a RdfNames,
    column: &'a Column,
    item: &Item,
    text: &'a str,
) -> LitRef<'a>
    requires { text.now ≡ lexical_of item.now.value }
    ensures { lit_of result ≡ literal_of column.now item.now }
{
    if item.was_read {
        return read_literal(names, column, text);
    }
    typed(text, &names.string)
}
