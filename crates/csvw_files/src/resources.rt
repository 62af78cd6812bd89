//! Documents with the resources that files have.
ghost use Rattle.std.specs.Prelude.{IfErr, IfOk};
ghost use Rattle.csvw_files.specs.ResourceFiles.{BundlesFiles, BundlesNot, ReadsNoResource, ReadsResource, ReadsResources, StopsReading};

use crate::file::read_file;
use csvw_bundle::{Resource, bundle};
use csvw_engine_core::Stop;
use csvw_meta::document::own_url;
use csvw_meta_core::Refusal;
use csvw_opener::Opener;
use std::alloc::Global;

/// A file that has a resource of a document.
#[derive(Clone, Copy, Debug)]
pub struct ResourceFile<'a> {
    /// The absolute URL by which documents name the resource.
    pub url: &'a str,
    /// The path of the file.
    pub path: &'a str,
}

/// Reads the resource of a file.
fn read_resource<O: Opener>(
    alloc: Global,
    file: &ResourceFile<'_>,
    opener: &mut O,
) -> Result<Resource, Stop>
    ensures read { IfOk result (λ r. ReadsResource O.opens O.closes O.Reader.remaining file.now opener.old opener.new r) }
    ensures stop { IfErr result (λ reason. ReadsNoResource O.opens O.closes file.now opener.old opener.new reason) }
{
    let url = match own_url(alloc, file.url) {
        Ok(url) => url,
        Err(Refusal::Memory) => return Err(Stop::Memory),
        Err(Refusal::Fault(fault)) => return Err(Stop::Meta(fault)),
    };
    match read_file(alloc, file.path, opener) {
        Ok(bytes) => Ok(Resource { url, bytes }),
        Err(stop) => Err(stop),
    }
}

/// Reads the resources of files, in order.
fn read_resources<O: Opener>(
    alloc: Global,
    files: &[ResourceFile<'_>],
    opener: &mut O,
) -> Result<Vec<Resource>, Stop>
    ensures read { IfOk result (λ rs. ReadsResources O.opens O.closes O.Reader.remaining files.now opener.old rs.items opener.new) }
    ensures stop { IfErr result (λ reason. StopsReading O.opens O.closes O.Reader.remaining files.now opener.old opener.new reason) }
{
    let mut resources = Vec::new(alloc);
    for file in files {
        let resource = match read_resource(alloc, file, opener) {
            Ok(resource) => resource,
            Err(stop) => return Err(stop),
        };
        let Ok(()) = resources.push(resource) else {
            return Err(Stop::Memory);
        };
    }
    Ok(resources)
}

/// Returns the bytes of a document at its own URL, in which the objects of the resources take the place of their URLs.
///
/// Without files it returns the document as it is. Else it reads the files in order. It returns `Read` if a file can't be
/// opened or read. It returns `Meta` with the fault of a URL that isn't absolute, or of a resource that can't be used. It
/// returns `Memory` if memory runs out.
pub fn bundle_files<O: Opener>(
    alloc: Global,
    document: Vec<u8>,
    url: &str,
    files: &[ResourceFile<'_>],
    opener: &mut O,
) -> Result<Vec<u8>, Stop>
    ensures bundled { IfOk result (λ bytes.
        BundlesFiles O.opens O.closes O.Reader.remaining files.now url.now document.items opener.old opener.new bytes.items) }
    ensures stop { IfErr result (λ reason.
        BundlesNot O.opens O.closes O.Reader.remaining files.now url.now document.items opener.old opener.new reason) }
{
    let resources = read_resources(alloc, files, opener)?;
    match bundle(alloc, document, url, resources.as_slice()) {
        Ok(bytes) => Ok(bytes),
        Err(Refusal::Memory) => Err(Stop::Memory),
        Err(Refusal::Fault(fault)) => Err(Stop::Meta(fault)),
    }
}
