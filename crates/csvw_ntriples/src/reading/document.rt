//! `NtReader`: the triples of an N-Triples document, one after the other. `read`: all of them.
ghost use Rattle.std.specs.Prelude.{◌≡◌, ◌<◌, [], List, IfOk, IfSome, OnOk, Ok, Err, None, length};
ghost use Rattle.csvw_ntriples.specs.Grammar.{Denotes};
ghost use Rattle.csvw_ntriples.specs.Passing.{Passes, BeginsWrong, given};
ghost use Rattle.csvw_ntriples.specs.declared.term.NtTriple.{NtTriple as TheTriple};

use super::byte_line::{first_line, triple_of};
use crate::{NtFault, NtTriple};
use csvw_text::Seq;
use std::alloc::Global;
use std::marker::Model;

/// Reads the triples of an N-Triples document, one after the other (RDF 1.1 N-Triples, section 7). Its memory is that
/// of the longest line. Contracts see it as the bytes that are left.
#[derive(Drop)]
pub struct NtReader<'a> {
    alloc: Global,
    /// The bytes that are not read yet.
    rest: &'a [u8],
    /// The characters of a line. They are kept for their memory.
    characters: Vec<char>,
}

impl<'a> Model for NtReader<'a> {
    ghost use Rattle.std.specs.Prelude.{ℕ, List};

    ghost Value = { List ℕ };

    ghost view = { λ r. r.rest.now };
}

impl<'a> NtReader<'a> {
    /// Returns a reader of the document of these bytes. It takes no memory.
    pub fn new(alloc: Global, bytes: &'a [u8]) -> NtReader<'a>
        ensures { result ≡ bytes.now }
    {
        NtReader {
            alloc,
            rest: bytes,
            characters: Vec::new(alloc),
        }
    }

    /// Returns the next triple, or `None` at the end of the document.
    ///
    /// Fails with `Syntax` at a line that is not UTF-8, and at one that is neither a triple nor spaces, tabs and a
    /// comment. The reader stays at this line, so each later call fails too. Fails with `Memory` if memory runs out.
    /// The reader stays at the line that needed memory, and a later call reads that line again.
    pub fn next(&mut self) -> Result<Option<NtTriple>, NtFault>
        ensures passes { Passes self.old (given result) self.new }
        ensures shorter { IfOk result (λ o. IfSome o (λ t. length self.new < length self.old)) }
        ensures ended { result ≡ Ok None → self.new ≡ [] }
        ensures refused { result ≡ Err NtFault.Syntax → BeginsWrong self.new }
        ensures stays { BeginsWrong self.old → OnOk result ⊥ }
    {
        while !self.rest.is_empty() {
            let (front, after) = first_line(self.rest);
            let triple = triple_of(self.alloc, front, &mut self.characters)?;
            self.rest = after;
            if triple.is_some() {
                return Ok(triple);
            }
        }
        Ok(None)
    }
}

/// Reads an N-Triples document (RDF 1.1 N-Triples, section 7). Returns the triples that it denotes, in their order.
///
/// Fails with `Syntax` exactly if the bytes are not UTF-8 or denote no list of triples, and with `Memory` if memory
/// runs out.
pub fn read(alloc: Global, bytes: &[u8]) -> Result<Vec<NtTriple>, NtFault>
    ensures found { IfOk result (λ v. Denotes bytes.now v.items) }
    ensures none { result ≡ Err NtFault.Syntax → (ts : List TheTriple) → Denotes bytes.now ts → ⊥ }
{
    let mut triples = Seq::new(alloc);
    let mut reader = NtReader::new(alloc, bytes);
    while let Some(triple) = reader.next()? {
        let Ok(()) = triples.push(triple) else {
            return Err(NtFault::Memory);
        };
    }
    Ok(triples.into_vec())
}
