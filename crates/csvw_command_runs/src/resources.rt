//! The files of resources that words name.
ghost use Rattle.std.specs.Prelude.{◌≡◌, ◌++◌, IfOk, OnOk, map};
ghost use Rattle.csvw_command_runs.specs.Resources.{AreResources, named, pair_of};

use csvw_command_core::split_resource;
use csvw_files::ResourceFile;
use std::alloc::{AllocError, Global};

/// Adds the file of the resource that a word names, if it names one.
fn push_resource<'a>(files: &mut Vec<ResourceFile<'a>>, word: &'a str) -> Result<(), AllocError>
    ensures { OnOk result (map pair_of files.new.items ≡ map pair_of files.old.items ++ named word.now) }
{
    if let Some((url, path)) = split_resource(word) {
        files.push(ResourceFile { url, path })?;
    }
    Ok(())
}

/// Returns the files of the resources that words `URL=FILE` name, in order. Other words name none.
pub fn resource_files<'a>(
    alloc: Global,
    words: &[&'a str],
) -> Result<Vec<ResourceFile<'a>>, AllocError>
    ensures { IfOk result (λ files. AreResources (map (λ word. word.now) words.now) files.items) }
{
    let mut files = Vec::new(alloc);
    for word in words {
        push_resource(&mut files, word)?;
    }
    Ok(files)
}
