//! Writes the line of a triple. The parts that most lines have are inlined into `put_ref`. The parts that few lines
//! have are not.
ghost use Rattle.std.specs.Prelude.{◌≡◌, ◌∷◌, [], ◌++◌, true, OnOk, flat_map, codes, decimal, Bool, option_copied};
ghost use Rattle.csvw_ntriples.specs.Written.{label, escaped, iri_text, blank_text, string_text};
ghost use Rattle.csvw_ntriples.specs.Written.{datatype_text, suffix_text, is_string_type, lit_text, term_text};
ghost use Rattle.csvw_ntriples.specs.Front.{rest_text, object_text};
ghost use Rattle.csvw_ntriples.specs.Writable.{IriFits, SuffixFits, LitFits, TermFits, IsOrigin};
ghost use Rattle.csvw_triples_core.specs.declared.term.Term.TheVariants as term;
ghost use Rattle.csvw_triples_core.specs.Lent.{lit_of, term_of, triple_of};
ghost use Rattle.csvw_text.specs.Language.{is_language_tag};

use crate::row_label::RowLabel;
use crate::scratch::Scratch;
use csvw_iri::Iri;
use csvw_text::LanguageTag;
use csvw_triples_core::{LitRef, Origin, TermRef, TripleRef};
use itoa::{Buffer, Integer};
use std::alloc::AllocError;

const XSD_STRING: &str = "http://www.w3.org/2001/XMLSchema#string";

/// Adds an IRI without its brackets.
pub(crate) fn push_iri(out: &mut Scratch, iri: &Iri) -> Result<(), AllocError>
    ensures text { OnOk result (out.new ≡ out.old ++ iri.now) }
    ensures fits { OnOk result (IriFits iri.now) }
{
    out.push_name(iri.as_str().as_bytes())
}

fn push_escape(out: &mut Scratch, b: u8) -> Result<(), AllocError>
    ensures { OnOk result (out.new ≡ out.old ++ escaped b) }
{
    match b {
        b'"' => out.push_fixed(b"\\\""),
        b'\\' => out.push_fixed(b"\\\\"),
        b'\n' => out.push_fixed(b"\\n"),
        b'\r' => out.push_fixed(b"\\r"),
        _ => out.push_fixed(&[b]),
    }
}

#[inline(never)]
fn push_each_escaped(out: &mut Scratch, bytes: &[u8]) -> Result<(), AllocError>
    ensures { OnOk result (out.new ≡ out.old ++ flat_map escaped bytes.now) }
{
    for b in bytes {
        push_escape(out, *b)?;
    }
    Ok(())
}

#[inline(always)]
fn push_escaped(out: &mut Scratch, bytes: &[u8]) -> Result<(), AllocError>
    ensures { OnOk result (out.new ≡ out.old ++ flat_map escaped bytes.now) }
{
    if out.push_plain(bytes)? {
        return Ok(());
    }
    push_each_escaped(out, bytes)
}

/// Adds a letter of a label and the number after it.
pub(crate) fn push_part<I: Integer>(
    out: &mut Scratch,
    letter: u8,
    number: I,
) -> Result<(), AllocError>
    ensures { OnOk result (out.new ≡ out.old ++ letter ∷ I.text number) }
{
    out.push_fixed(&[letter])?;
    push_number(out, number)
}

/// Adds a number in decimal digits.
pub(crate) fn push_number<I: Integer>(out: &mut Scratch, number: I) -> Result<(), AllocError>
    ensures { OnOk result (out.new ≡ out.old ++ I.text number) }
{
    let mut buffer = Buffer::new();
    out.push(buffer.format(number).as_bytes())
}

/// Adds a blank node. `last` has the row that was named last.
pub(crate) fn push_blank(
    out: &mut Scratch,
    last: &mut RowLabel,
    origin: Origin,
) -> Result<(), AllocError>
    ensures text { OnOk result (out.new ≡ out.old ++ blank_text origin) }
    ensures fits { OnOk result (IsOrigin origin) }
{
    match origin {
        Origin::Group => out.push_fixed(b"_:g"),
        Origin::Table(table) => {
            out.push_fixed(b"_:")?;
            push_part(out, b't', table)
        }
        Origin::Row(table, row) => last.push(out, table, row),
        Origin::Subject(table, row) => {
            last.push(out, table, row)?;
            out.push_fixed(b"s")
        }
        Origin::Entry(table, row, column, entry) => {
            last.push(out, table, row)?;
            push_part(out, b'c', column)?;
            push_part(out, b'i', entry)
        }
        Origin::Note(number) => {
            out.push_fixed(b"_:")?;
            push_part(out, b'a', number)
        }
    }
}

fn is_xsd_string(iri: &Iri) -> bool
    ensures value { result ≡ is_string_type iri.now }
    ensures fits { IriFits iri.now }
{
    let text = iri.as_str();
    // Most other datatypes have an IRI of another length.
    text.len() == XSD_STRING.len() && text == XSD_STRING
}

/// Adds the end of a literal that has a datatype, and of its line.
#[inline(never)]
fn end_typed(out: &mut Scratch, iri: &Iri) -> Result<(), AllocError>
    ensures text { OnOk result (out.new ≡ out.old ++ 34 ∷ datatype_text iri.now ++ codes " .\n") }
    ensures fits { OnOk result (IriFits iri.now) }
{
    if is_xsd_string(iri) {
        return out.push_fixed(b"\" .\n");
    }
    out.push_fixed(b"\"^^<")?;
    push_iri(out, iri)?;
    out.push_fixed(b"> .\n")
}

/// Adds the end of a literal that has a language, and of its line.
fn end_tagged(out: &mut Scratch, tag: &LanguageTag) -> Result<(), AllocError>
    ensures text { OnOk result (out.new ≡ out.old ++ 34 ∷ 64 ∷ tag.now ++ codes " .\n") }
    ensures fits { OnOk result (is_language_tag tag.now ≡ true) }
{
    out.push_fixed(b"\"@")?;
    out.push(tag.as_str().as_bytes())?;
    out.push_fixed(b" .\n")
}

/// Adds the end of a literal and of its line.
fn end_literal(
    out: &mut Scratch,
    lang: Option<&LanguageTag>,
    datatype: &Iri,
) -> Result<(), AllocError>
    ensures text { OnOk result (out.new ≡ out.old ++ 34 ∷ suffix_text (option_copied lang.entry) datatype.now ++ codes " .\n") }
    ensures fits { OnOk result (SuffixFits (option_copied lang.entry) datatype.now) }
{
    match lang {
        None => end_typed(out, datatype),
        Some(tag) => end_tagged(out, tag),
    }
}

/// Adds the part of a line after the text of its predicate, if the object is an IRI.
fn push_named(out: &mut Scratch, iri: &Iri) -> Result<(), AllocError>
    ensures text { OnOk result (out.new ≡ out.old ++ object_text (term.Named iri.now)) }
    ensures fits { OnOk result (IriFits iri.now) }
{
    out.push_fixed(b"> <")?;
    push_iri(out, iri)?;
    out.push_fixed(b"> .\n")
}

/// Adds the part of a line after the text of its predicate, if the object is a blank node.
fn push_labelled(out: &mut Scratch, last: &mut RowLabel, origin: Origin) -> Result<(), AllocError>
    ensures text { OnOk result (out.new ≡ out.old ++ object_text (term.Blank origin)) }
    ensures fits { OnOk result (IsOrigin origin) }
{
    out.push_fixed(b"> ")?;
    push_blank(out, last, origin)?;
    out.push_fixed(b" .\n")
}

/// Adds the part of a line after the text of its predicate, if the object is a literal.
#[inline(always)]
fn push_literal(out: &mut Scratch, lit: &LitRef<'_>) -> Result<(), AllocError>
    ensures text { OnOk result (out.new ≡ out.old ++ object_text (term.Literal (lit_of lit.now))) }
    ensures fits { OnOk result (LitFits (lit_of lit.now)) }
{
    out.push_fixed(b"> \"")?;
    push_escaped(out, lit.text.as_bytes())?;
    end_literal(out, lit.lang, lit.datatype)
}

/// Adds the part of a line after the text of its predicate.
#[inline(always)]
fn push_object(out: &mut Scratch, last: &mut RowLabel, term: &TermRef<'_>) -> Result<(), AllocError>
    ensures text { OnOk result (out.new ≡ out.old ++ object_text (term_of term.now)) }
    ensures fits { OnOk result (TermFits (term_of term.now)) }
{
    match term {
        TermRef::Named(iri) => push_named(out, iri),
        TermRef::Blank(origin) => push_labelled(out, last, *origin),
        TermRef::Literal(lit) => push_literal(out, lit),
    }
}

/// Adds the part of a triple's line from the text of its predicate on.
#[inline(always)]
pub(crate) fn push_rest(
    out: &mut Scratch,
    last: &mut RowLabel,
    triple: &TripleRef<'_>,
) -> Result<(), AllocError>
    ensures text { OnOk result (out.new ≡ out.old ++ rest_text (triple_of triple.now)) }
    ensures fits { OnOk result (IriFits triple.now.p.now × TermFits (term_of triple.now.o)) }
{
    push_iri(out, triple.p)?;
    push_object(out, last, &triple.o)
}
