//! The keys and row titles of a schema, as a description has them.
ghost use Rattle.std.specs.Prelude.{◌≡◌, IfOk, map};
ghost use Rattle.csvw_meta_keys.specs.Described.{all_warnings, described, names_of, table_url};

use crate::column_names::KeyName;
use crate::foreign_key::ForeignKeyFound;
use crate::keys::KeysFound;
use crate::naming::{Target, named};
use crate::reference::NamedTable;
use csvw_description::ForeignKey;
use csvw_iri::Iri;
use csvw_text::{Fault, Seq, Text};
use std::alloc::{AllocError, Global};

fn names_of(alloc: Global, key: &[KeyName]) -> Result<Seq<Text>, AllocError>
    ensures { IfOk result (λ s. s ≡ names_of key.now) }
{
    let mut names = Vec::new(alloc);
    for name in key {
        let text = name.name.clone(alloc)?;
        names.push(text)?;
    }
    Ok(Seq::of(names))
}

/// Returns the URL of the table that a reference names. If there is no such table, it is the reference's own URL.
fn table_url(alloc: Global, targets: &[Target], table: &NamedTable) -> Result<Iri, AllocError>
    ensures { IfOk result (λ u. u ≡ table_url targets.now table.now) }
{
    match named(targets, table) {
        Some(target) => target.url.clone(alloc),
        None => table.url.clone(alloc),
    }
}

fn described(
    alloc: Global,
    targets: &[Target],
    key: &ForeignKeyFound,
) -> Result<ForeignKey, AllocError>
    ensures { IfOk result (λ k. k ≡ described targets.now key.now) }
{
    Ok(ForeignKey {
        columns: names_of(alloc, key.columns.as_slice())?,
        resource: table_url(alloc, targets, &key.table)?,
        referenced: names_of(alloc, key.referenced.as_slice())?,
    })
}

fn each_described(
    alloc: Global,
    targets: &[Target],
    keys: &[ForeignKeyFound],
) -> Result<Seq<ForeignKey>, AllocError>
    ensures { IfOk result (λ s. s ≡ map (described targets.now) keys.now) }
{
    let mut all = Vec::new(alloc);
    for key in keys {
        let key = described(alloc, targets, key)?;
        all.push(key)?;
    }
    Ok(Seq::of(all))
}

fn all_warnings(alloc: Global, keys: &[ForeignKeyFound]) -> Result<Seq<Fault>, AllocError>
    ensures { IfOk result (λ s. s ≡ all_warnings keys.now) }
{
    let mut warnings = Vec::new(alloc);
    for key in keys {
        warnings.extend_from_slice(key.warnings.as_slice())?;
    }
    Ok(Seq::of(warnings))
}

impl KeysFound {
    /// Returns the names of the columns of the primary key, or `AllocError` if there is no memory.
    pub fn primary_key(&self, alloc: Global) -> Result<Seq<Text>, AllocError>
        ensures { IfOk result (λ s. s ≡ names_of self.now.primary) }
    {
        names_of(alloc, self.primary.as_slice())
    }

    /// Returns the names of the columns whose values are titles of their rows, or `AllocError` if there is no memory.
    pub fn row_titles(&self, alloc: Global) -> Result<Seq<Text>, AllocError>
        ensures { IfOk result (λ s. s ≡ names_of self.now.row_titles) }
    {
        names_of(alloc, self.row_titles.as_slice())
    }

    /// Returns the foreign keys in order, each with the URL of the table that it names among these tables. A key that
    /// names none of them has its own URL. It returns `AllocError` if there is no memory.
    pub fn foreign_keys(
        &self,
        alloc: Global,
        targets: &[Target],
    ) -> Result<Seq<ForeignKey>, AllocError>
        ensures { IfOk result (λ s. s ≡ map (described targets.now) self.now.foreign) }
    {
        each_described(alloc, targets, self.foreign.as_slice())
    }

    /// Returns the warnings on the foreign keys in order, or `AllocError` if there is no memory.
    pub fn warnings(&self, alloc: Global) -> Result<Seq<Fault>, AllocError>
        ensures { IfOk result (λ s. s ≡ all_warnings self.now.foreign) }
    {
        all_warnings(alloc, self.foreign.as_slice())
    }
}
