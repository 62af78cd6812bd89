//! Tests of N-Triples documents that are read, and of texts that are refused.
use crate::clones::shown;
use csvw_ntriples::{NtFault, NtLit, NtNode, NtReader, NtTerm, NtTriple, read};
use std::alloc::Global;
use std::process::Abort;

/// Returns the number of triples of the text, or `None` if it is not a document.
fn count(alloc: Global, text: &[u8]) -> Option<usize> {
    match read(alloc, text) {
        Ok(triples) => Some(triples.len()),
        Err(_) => None,
    }
}

/// Documents without a triple.
static EMPTY: [&str; 5] = ["", "\n", "\r\n ", "# comment", " \t# comment\n\n# another"];

/// Documents of one triple.
static ONE: [&str; 26] = [
    "<a:b> <a:b> <a:b> .",
    "<a:b><a:b><a:b>.",
    "<a:b> <a:b> <a:b> .\n",
    "\t<a:b>\t<a:b>\t<a:b>\t.\t# end",
    "<a:b> <a:b> <a:b> .#x",
    "_:a <a:b> _:b .",
    "_:a <a:b> _:b.",
    "_:a.b <a:b> _:b.c .",
    "_:a..b <a:b> _:0 .",
    "_:1 <a:b> _:a-1 .",
    "_:_ <a:b> _:: .",
    "_:\u{e9} <a:b> _:a\u{b7} .",
    "_:a<a:b>_:b.",
    "<a:b> <a:b> \"\" .",
    "<a:b> <a:b> \"x\".",
    "<a:b> <a:b> \"\\t\\b\\n\\r\\f\\\"\\'\\\\\" .",
    "<a:b> <a:b> \"\\u0041\\U0001F600\" .",
    "<a:b> <a:b> \"tab\there\" .",
    "<a:b> <a:b> \"x\"@en .",
    "<a:b> <a:b> \"x\"@en-GB.",
    "<a:b> <a:b> \"x\" @de-Latn-1996 .",
    "<a:b> <a:b> \"x\"^^<a:b> .",
    "<a:b> <a:b> \"x\" ^^ <a:b> .",
    "<\\u0061:b> <a:b> <a:\\U0000007C> .",
    "<> <> <> .",
    "<a:b> <a:b> \"# no comment . <\" .",
];

/// Documents of two triples.
static TWO: [&str; 3] = [
    "<a:b> <a:b> <a:b> .\n<a:b> <a:b> <a:b> .",
    "<a:b> <a:b> <a:b> .\r<a:b> <a:b> <a:b> .\r\n",
    "\n\n<a:b> <a:b> <a:b> .\n \n#x\n<a:b> <a:b> <a:b> .\n\n",
];

/// Texts that are not documents.
static REFUSED: [&str; 40] = [
    ".",
    "<a:b>",
    "<a:b> <a:b>",
    "<a:b> <a:b> .",
    "<a:b> <a:b> <a:b>",
    "_:a <p:q> \"x\"",
    "<a:b> <a:b> <a:b> . <a:b> <a:b> <a:b> .",
    "<a:b> <a:b> <a:b> . .",
    "<a:b> <a:b>\n<a:b> .",
    "<a:b> _:b <a:b> .",
    "\"x\" <a:b> <a:b> .",
    "<a:b> \"x\" <a:b> .",
    "<a b> <a:b> <a:b> .",
    "<a|b> <a:b> <a:b> .",
    "<a\\b> <a:b> <a:b> .",
    "<a\\n> <a:b> <a:b> .",
    "<a\"b> <a:b> <a:b> .",
    "<a^b> <a:b> <a:b> .",
    "<a`b> <a:b> <a:b> .",
    "<a{b> <a:b> <a:b> .",
    "<a}b> <a:b> <a:b> .",
    "<a<b> <a:b> <a:b> .",
    "<a:b <a:b> <a:b> .",
    "<a:b> <a:b> \"x .",
    "<a:b> <a:b> \"x\ny\" .",
    "<a:b> <a:b> \"x\ry\" .",
    "<a:b> <a:b> \"\\x\" .",
    "<a:b> <a:b> \"\\u12\" .",
    "<a:b> <a:b> \"\\uD800\" .",
    "<a:b> <a:b> \"\\U00110000\" .",
    "<a:b> <a:b> \"\\U0001F60\" .",
    "<a:b> <a:b> 'x' .",
    "<a:b> <a:b> \"x\"@ .",
    "<a:b> <a:b> \"x\"@1 .",
    "<a:b> <a:b> \"x\"@en- .",
    "<a:b> <a:b> \"x\"@en--GB .",
    "<a:b> <a:b> \"x\"^<a:b> .",
    "<a:b> <a:b> \"x\"^^ .",
    "_: <a:b> <a:b> .",
    "_:-a <a:b> <a:b> .",
];

/// Checks that each text has so many triples, or is not a document.
fn counts_each(rt: &impl Abort, alloc: Global, texts: &[&str], triples: Option<usize>) {
    for text in texts {
        assert!(rt; count(alloc, text.as_bytes()) == triples, "{text:?}");
    }
}

#[test]
fn documents_and_other_texts(rt: HostRuntime) {
    let alloc = rt.alloc();
    counts_each(&rt, alloc, &EMPTY, Some(0));
    counts_each(&rt, alloc, &ONE, Some(1));
    counts_each(&rt, alloc, &TWO, Some(2));
    counts_each(&rt, alloc, &REFUSED, None);
}

#[test]
fn bytes_that_are_no_text(rt: HostRuntime) {
    let alloc = rt.alloc();
    assert!(rt; count(alloc, b"<a:b> <a:b> \"\xff\" .").is_none());
    assert!(rt; count(alloc, b"<a:b> <a:b> \"\xc3").is_none());
}

/// Whether both triples show the same text.
fn is_same(alloc: Global, triple: &NtTriple, other: &NtTriple) -> bool {
    match (shown(alloc, triple), shown(alloc, other)) {
        (Some(triple), Some(other)) => triple.as_str() == other.as_str(),
        _ => false,
    }
}

/// Whether the reader returns this triple next.
fn is_next(alloc: Global, reader: &mut NtReader, want: &NtTriple) -> bool {
    match reader.next() {
        Ok(Some(triple)) => is_same(alloc, &triple, want),
        Ok(None) | Err(_) => false,
    }
}

/// Whether the reader returns these triples, one after the other.
fn returns_each(alloc: Global, reader: &mut NtReader, triples: &[NtTriple]) -> bool {
    for triple in triples {
        if !is_next(alloc, reader, triple) {
            return false;
        }
    }
    true
}

fn ends(reader: &mut NtReader) -> bool {
    matches!(reader.next(), Ok(None))
}

fn refuses(reader: &mut NtReader) -> bool {
    matches!(reader.next(), Err(NtFault::Syntax))
}

/// Whether a reader of the text returns what `read` returns, one after the other, and stays at the end.
fn reads_same(alloc: Global, text: &str) -> bool {
    let Ok(triples) = read(alloc, text.as_bytes()) else {
        return false;
    };
    let mut reader = NtReader::new(alloc, text.as_bytes());
    returns_each(alloc, &mut reader, triples.as_slice()) && ends(&mut reader) && ends(&mut reader)
}

/// Whether a reader of the document and a wrong line returns what `read` returns of the document, and stays there.
fn reads_up_to(alloc: Global, document: &str, wrong: &[u8]) -> bool {
    let Ok(triples) = read(alloc, document.as_bytes()) else {
        return false;
    };
    let Some(text) = with_line(alloc, document, wrong) else {
        return false;
    };
    let mut reader = NtReader::new(alloc, text.as_slice());
    returns_each(alloc, &mut reader, triples.as_slice())
        && refuses(&mut reader)
        && refuses(&mut reader)
}

/// Returns the document, a line break and the line.
fn with_line(alloc: Global, document: &str, line: &[u8]) -> Option<Vec<u8>> {
    let mut bytes = Vec::new(alloc);
    for part in [document.as_bytes(), b"\n", line] {
        let Ok(()) = bytes.extend_from_slice(part) else {
            return None;
        };
    }
    Some(bytes)
}

fn reads_each_same(rt: &impl Abort, alloc: Global, texts: &[&str]) {
    for text in texts {
        assert!(rt; reads_same(alloc, text), "{text:?}");
    }
}

#[test]
fn one_triple_after_the_other(rt: HostRuntime) {
    let alloc = rt.alloc();
    reads_each_same(&rt, alloc, &EMPTY);
    reads_each_same(&rt, alloc, &ONE);
    reads_each_same(&rt, alloc, &TWO);
}

#[test]
fn triples_before_a_wrong_line(rt: HostRuntime) {
    let alloc = rt.alloc();
    for document in &TWO {
        assert!(rt;
            reads_up_to(alloc, document, b"<a:b> <a:b> \"\xff\" ."),
            "{document:?}"
        );
    }
    for wrong in &REFUSED {
        assert!(rt; reads_up_to(alloc, TWO[1], wrong.as_bytes()), "{wrong:?}");
    }
}

/// The expected subject.
#[derive(Clone, Copy)]
enum Subject {
    /// A blank node of this label.
    Blank(&'static str),
    /// This IRI.
    Named(&'static str),
}

impl Subject {
    fn is(self, node: &NtNode) -> bool {
        match self {
            Subject::Blank(want) => matches!(node, NtNode::Blank(label) if label.as_str() == want),
            Subject::Named(want) => matches!(node, NtNode::Named(iri) if iri.as_str() == want),
        }
    }
}

/// The expected triple, whose object is a literal.
struct Wanted {
    subject: Subject,
    predicate: &'static str,
    text: &'static str,
    lang: Option<&'static str>,
    datatype: &'static str,
}

impl Wanted {
    fn is_lang(&self, lit: &NtLit) -> bool {
        match &lit.lang {
            Some(tag) => self.lang == Some(tag.as_str()),
            None => self.lang.is_none(),
        }
    }

    fn is_literal(&self, term: &NtTerm) -> bool {
        match term {
            NtTerm::Literal(lit) => {
                lit.text.as_str() == self.text
                    && lit.datatype.as_str() == self.datatype
                    && self.is_lang(lit)
            }
            NtTerm::Named(_) | NtTerm::Blank(_) => false,
        }
    }

    fn is(&self, triple: &NtTriple) -> bool {
        self.subject.is(&triple.s)
            && triple.p.as_str() == self.predicate
            && self.is_literal(&triple.o)
    }

    /// Whether the text is a document whose last triple is this.
    fn is_last(&self, alloc: Global, text: &str) -> bool {
        match read(alloc, text.as_bytes()) {
            Ok(triples) => match triples.as_slice().last() {
                Some(triple) => self.is(triple),
                None => false,
            },
            Err(_) => false,
        }
    }
}

/// A label with dots and a language.
static LABEL: Wanted = Wanted {
    subject: Subject::Blank("a.b"),
    predicate: "p:q",
    text: "A",
    lang: Some("en-GB"),
    datatype: "http://www.w3.org/1999/02/22-rdf-syntax-ns#langString",
};

/// A literal with escapes.
static ESCAPED: Wanted = Wanted {
    subject: Subject::Named("a:|"),
    predicate: "p:q",
    text: "\t\u{8}\n\r\u{c}\"'\\\u{1F600}\u{e9}",
    lang: None,
    datatype: "d:t",
};

#[test]
fn a_label_with_dots_and_a_language(rt: HostRuntime) {
    let text = "_:a.b<p:q>\"\\u0041\"@en-GB.#c";
    assert!(rt; LABEL.is_last(rt.alloc(), text));
}

#[test]
fn escapes_stand_for_characters(rt: HostRuntime) {
    let text = "<a:\\u007C> <p:q> \"\\t\\b\\n\\r\\f\\\"\\'\\\\\\U0001F600\u{e9}\"^^<d:t>.";
    assert!(rt; ESCAPED.is_last(rt.alloc(), text));
}
