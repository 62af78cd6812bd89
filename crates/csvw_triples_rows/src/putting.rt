//! Writes triples into a sink.
ghost use Rattle.std.specs.Prelude.{◌≡◌, [], ◌∷◌, OnOk, IfErr};
ghost use Rattle.csvw_triples_core.specs.Taking.{FrontOf, Ends};
ghost use Rattle.csvw_triples_core.specs.Lent.{term_of};
ghost use Rattle.csvw_triples_rows.specs.Puts.{Puts};
ghost use Rattle.csvw_triples_rows.specs.Stems.{object_triple};

use crate::stem::Stem;
use csvw_triples_core::{SinkFault, TermRef, Triple, TripleRef, TripleSink};
use std::alloc::Global;

/// Writes a lent triple into a sink.
#[inline(always)]
pub(crate) fn put_object<'a, S: TripleSink>(
    alloc: Global,
    stem: Stem<'a>,
    o: TermRef<'a>,
    sink: &mut S,
) -> Result<(), SinkFault>
    ensures { Puts S.gains S.cuts S.is_open S.failed sink.old (object_triple stem.entry (term_of o.entry) ∷ []) sink.new result }
{
    let Stem { s, p } = stem;
    sink.put_ref(alloc, &TripleRef { s, p, o })
}

/// Writes one triple into a sink.
#[inline(always)]
fn put_one<S: TripleSink>(triple: &Triple, sink: &mut S) -> Result<(), SinkFault>
    ensures { Puts S.gains S.cuts S.is_open S.failed sink.old (triple.now ∷ []) sink.new result }
{
    sink.put(triple)
}

fn put_each<S: TripleSink>(triples: &[Triple], sink: &mut S) -> Result<(), SinkFault>
    ensures { Puts S.gains S.cuts S.is_open S.failed sink.old triples.now sink.new result }
{
    for triple in triples {
        put_one(triple, sink)?;
    }
    Ok(())
}

/// Writes triples into a sink, in their order. The fault is one that the sink returned in this call. After an error
/// the sink took a front of the triples, each of them whole. After `Device` the device failed within the next
/// triple.
pub fn put_all<S: TripleSink>(triples: &[Triple], sink: &mut S) -> Result<(), SinkFault>
    ensures ok { OnOk result (S.gains sink.old triples.now sink.new) }
    ensures err { IfErr result (λ fault. FrontOf S.gains S.cuts sink.old triples.now sink.new (fault ≡ SinkFault.Device)) }
    ensures sink { Ends S.is_open S.failed sink.old sink.new result }
{
    put_each(triples, sink)
}
