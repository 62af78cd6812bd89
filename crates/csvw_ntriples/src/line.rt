//! The line of a triple.
//!
//! Each line is made over the line before it. If the subject is the same blank node as before, the front of the
//! line stays.
ghost use Rattle.std.specs.Prelude.{◌≡◌, ◌++◌, true, codes, OnOk};
ghost use Rattle.csvw_ntriples.specs.Front.{IsFront, front_text};
ghost use Rattle.csvw_ntriples.specs.Written.{iri_text, node_text, line_text};
ghost use Rattle.csvw_ntriples.specs.Writable.{IriFits, NodeFits, TripleFits, IsOrigin};
ghost use Rattle.csvw_triples_core.specs.Lent.{node_of, triple_of};

use crate::row_label::RowLabel;
use crate::scratch::Scratch;
use crate::write::{push_blank, push_iri, push_rest};
use csvw_iri::Iri;
use csvw_triples_core::{NodeRef, Origin, TripleRef};
use std::alloc::{AllocError, Global};

/// Makes the lines of triples, one over the other. Most triples have the subject of the triple before. If that is a
/// blank node, the front of the line stays.
#[derive(Drop)]
pub(crate) struct Line {
    /// The line that was made last.
    pub(crate) bytes: Scratch,
    /// Whether the line begins with a blank node.
    is_kept: bool,
    /// That blank node.
    subject: Origin,
    /// How many bytes come before the text of the predicate.
    front: usize,
    /// The label of the row that was named last.
    row: RowLabel,
    ghost begins: { is_kept ≡ true → IsFront subject front bytes },
}

/// Proves that the numbers of an origin fit a label: no number is too great.
fn fits(origin: Origin)
    ensures { IsOrigin origin }
{
    match origin {
        Origin::Group | Origin::Note(_) | Origin::Table(_) => (),
        Origin::Row(_, _) | Origin::Subject(_, _) | Origin::Entry(_, _, _, _) => (),
    }
}

impl Line {
    /// Makes an empty line. It takes no memory.
    pub(crate) fn new(alloc: Global) -> Line {
        Line {
            bytes: Scratch::new(alloc),
            is_kept: false,
            subject: Origin::Group,
            front: 0,
            row: RowLabel::new(alloc),
        }
    }

    /// If the line begins with this blank node, cuts the line off before the text of the predicate and returns
    /// true.
    #[inline(always)]
    fn keeps(&mut self, origin: &Origin) -> bool
        ensures { result ≡ true → self.new.bytes ≡ front_text origin.now }
    {
        if self.is_kept && self.subject == *origin {
            self.bytes.truncate(self.front);
            return true;
        }
        false
    }

    #[inline(never)]
    fn begin_anew(&mut self, origin: &Origin) -> Result<(), AllocError>
        ensures { OnOk result (self.new.bytes ≡ front_text origin.now) }
    {
        self.is_kept = false;
        self.bytes.truncate(0);
        push_blank(&mut self.bytes, &mut self.row, *origin)?;
        self.bytes.push_fixed(b" <")?;
        self.front = self.bytes.len();
        self.subject = *origin;
        self.is_kept = true;
        Ok(())
    }

    #[inline(always)]
    fn begin_blank(&mut self, origin: &Origin) -> Result<(), AllocError>
        ensures text { OnOk result (self.new.bytes ≡ front_text origin.now) }
        ensures fits { OnOk result (IsOrigin origin.now) }
    {
        fits(*origin);
        if self.keeps(origin) {
            return Ok(());
        }
        self.begin_anew(origin)
    }

    fn begin_named(&mut self, iri: &Iri) -> Result<(), AllocError>
        ensures text { OnOk result (self.new.bytes ≡ iri_text iri.now ++ codes " <") }
        ensures fits { OnOk result (IriFits iri.now) }
    {
        self.is_kept = false;
        self.bytes.truncate(0);
        self.bytes.push_fixed(b"<")?;
        push_iri(&mut self.bytes, iri)?;
        self.bytes.push_fixed(b"> <")
    }

    #[inline(always)]
    fn begin(&mut self, node: &NodeRef<'_>) -> Result<(), AllocError>
        ensures text { OnOk result (self.new.bytes ≡ node_text (node_of node.now) ++ codes " <") }
        ensures fits { OnOk result (NodeFits (node_of node.now)) }
    {
        match node {
            NodeRef::Named(iri) => self.begin_named(iri),
            NodeRef::Blank(origin) => self.begin_blank(origin),
        }
    }

    /// Becomes the line of a triple that is lent. Fails with `AllocError` if memory runs out; it is then perhaps a part of the
    /// line.
    #[inline(always)]
    pub(crate) fn refill(&mut self, triple: &TripleRef<'_>) -> Result<(), AllocError>
        ensures text { OnOk result (self.new.bytes ≡ line_text (triple_of triple.now)) }
        ensures fits { OnOk result (TripleFits (triple_of triple.now)) }
    {
        self.begin(&triple.s)?;
        let is_kept = self.is_kept;
        self.is_kept = false;
        push_rest(&mut self.bytes, &mut self.row, triple)?;
        self.is_kept = is_kept;
        Ok(())
    }
}
