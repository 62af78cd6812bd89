//! `Rules`: a dialect with its comment prefix as characters.
ghost use Rattle.std.specs.Prelude.{◌≡◌, ◌≤◌, nat_eq, false, Some, length, IfOk, chars};
ghost use Rattle.std.specs.List.{starts_with};
ghost use Rattle.csvw_fields.specs.FieldText.{IsLeads};
ghost use Rattle.csvw_fields.specs.Cuts.{IsSymbols};
ghost use Rattle.csvw_fields.specs.declared.cut.Symbols.{Symbols};
ghost use Rattle.csvw_records.specs.Files.{begins_with, is_ignored};
ghost use Rattle.csvw_records.specs.Lawful.{prefix_of};
ghost use Rattle.csvw_records.specs.Lawful.{IsLawful};
ghost use Rattle.csvw_records.specs.NextRow.{may_be_comment};
ghost use Rattle.csvw_records.specs.AtFront.{IsCommon, IsPrefixLen};

use crate::cut::Symbols;
use crate::decode::chars_of;
use crate::leads::Leads;
use csvw_records::Dialect;
use csvw_records::laws::record_laws;
use csvw_text::Seq;
use std::alloc::{AllocError, Global};

/// A dialect with the characters of its comment prefix.
#[derive(Drop)]
pub struct Rules {
    /// The dialect.
    pub dialect: Dialect,
    /// The comment prefix.
    pub prefix: Option<Seq<char>>,
    /// The symbols, if rows of the dialect are cut among their bytes.
    pub symbols: Option<Symbols>,
    /// The first bytes of the symbols.
    pub leads: Leads,
    ghost same_prefix: { prefix ≡ prefix_of dialect },
    ghost lawful: { IsLawful dialect },
    ghost same_symbols: { (s : Symbols) → symbols ≡ Some s → IsSymbols dialect s },
    ghost same_leads: { IsLeads dialect leads },
}

impl Rules {
    /// Returns the rules of a dialect, or `AllocError` if memory runs out.
    pub fn new(alloc: Global, dialect: Dialect) -> Result<Rules, AllocError>
        requires { IsLawful dialect }
        ensures { IfOk result (λ r. r.dialect ≡ dialect) }
    {
        let prefix = match &dialect.comment_prefix {
            Some(text) => Some(Seq::of(chars_of(alloc, text.as_str())?)),
            None => None,
        };
        let symbols = Symbols::of(&dialect);
        let leads = Leads::of(&dialect);
        Ok(Rules {
            dialect,
            prefix,
            symbols,
            leads,
        })
    }

    /// Returns whether a row that begins with these bytes is skipped or a comment. `place` is its place among all
    /// rows, from 0.
    pub fn is_ignored(&self, place: u64, rest: &str) -> bool
        ensures { result ≡ is_ignored self.now.dialect place (chars rest.now) }
    {
        place < self.dialect.skip_rows || self.begins_comment(rest)
    }

    fn begins_comment(&self, rest: &str) -> bool
        ensures { result ≡ begins_with (chars rest.now) (prefix_of self.now.dialect) }
    {
        record_laws();
        match &self.dialect.comment_prefix {
            Some(prefix) => begins_with(rest.as_bytes(), prefix.as_str().as_bytes()),
            None => false,
        }
    }

    /// Returns whether a row that begins with these bytes may still become a comment.
    pub fn may_be_comment(&self, rest: &str) -> bool
        ensures { result ≡ may_be_comment self.now.dialect (chars rest.now) }
    {
        record_laws();
        match &self.dialect.comment_prefix {
            Some(prefix) => prefix.as_str().as_bytes().starts_with(rest.as_bytes()),
            None => false,
        }
    }

    /// Returns how many of the first characters of the text and of the comment prefix are the same.
    pub fn common_len(&self, rest: &str) -> usize
        ensures { IsPrefixLen (prefix_of self.now.dialect) (chars rest.now) result }
    {
        match &self.prefix {
            Some(prefix) => same_len(prefix.as_slice(), rest),
            None => 0,
        }
    }
}

/// Returns whether the bytes begin with the prefix. Mostly the first byte decides.
fn begins_with(bytes: &[u8], prefix: &[u8]) -> bool
    ensures { result ≡ starts_with nat_eq bytes.now prefix.now }
{
    if !bytes.is_empty() && !prefix.is_empty() && bytes[0] != prefix[0] {
        return false;
    }
    bytes.starts_with(prefix)
}

/// Returns how many of the first characters are the same.
fn same_len(a: &[char], b: &str) -> usize
    ensures { IsCommon a.now (chars b.now) result }
{
    let mut rest = b.chars();
    for (i, c) in a.iter().enumerate() {
        let Some(next) = rest.next() else {
            return i;
        };
        if next != *c {
            return i;
        }
    }
    a.len()
}
