//! The faults of the tables of a group together (Metadata Vocabulary for Tabular Data, section 5.3): URLs that are equal.
ghost use Rattle.std.specs.Prelude.{◌≡◌, IfOk, map};
ghost use Rattle.csvw_meta_core.specs.Pointer.{text_of};
ghost use Rattle.csvw_meta.specs.Group.{url_faults, url_of};
ghost use Rattle.csvw_meta_faults.specs.Seen.{as_table};

use crate::faults_at::faults_at_members;
use crate::names_read::property_read;
use crate::repeated::repeated_at;
use crate::seen::TableSeen;
use csvw_meta_core::{MetaCode, MetaFault, Part};
use csvw_text::{Seq, Text};
use std::alloc::{AllocError, Global};

/// Returns the URL of a table, made safe, or that of the URL that stands in.
pub(crate) fn url_of(alloc: Global, table: &TableSeen) -> Result<Text, AllocError>
    ensures { IfOk result (λ t. t ≡ url_of (as_table table.now)) }
{
    match &table.url {
        Some(url) => Text::copied(alloc, url.iri().as_str()),
        None => Text::copied(alloc, ":"),
    }
}

fn urls(alloc: Global, tables: &[TableSeen]) -> Result<Seq<Text>, AllocError>
    ensures { IfOk result (λ s. s ≡ map url_of (map as_table tables.now)) }
{
    let mut urls = Vec::new(alloc);
    for table in tables {
        let url = url_of(alloc, table)?;
        urls.push(url)?;
    }
    Ok(Seq::of(urls))
}

/// Returns `DuplicateTable` at the URL of each table of the array that has the URL of an earlier one. It returns
/// `AllocError` if there is no memory for them.
pub(crate) fn url_faults(
    part: &Part,
    own: &[MetaFault],
    tables: &[TableSeen],
) -> Result<Seq<MetaFault>, AllocError>
    ensures { IfOk result (λ fs. fs ≡ url_faults (text_of part.now.at) own.now (map as_table tables.now)) }
{
    let known = property_read(part, own, "url", tables.len())?;
    let urls = urls(part.alloc, tables)?;
    let indices = repeated_at(part.alloc, known.as_slice(), urls.as_slice())?;
    faults_at_members(part, MetaCode::DuplicateTable, "url", indices.as_slice())
}
