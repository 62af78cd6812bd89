//! The bytes of a file that has a document or a resource.
ghost use Rattle.std.specs.Prelude.{IfErr, IfOk};
ghost use Rattle.csvw_files.specs.Files.{ReadsFile, ReadsNot};

use crate::document::read_document;
use csvw_engine_core::Stop;
use csvw_opener::Opener;
use csvw_streams::Counted;
use std::alloc::Global;

/// Opens a file, and reads it to its end, or one byte past the limit of a document. Its reader is handed back as soon as it was
/// read, also if it failed. It returns `Read` if the file can't be opened or read, and `Memory` if memory runs out.
pub fn read_file<O: Opener>(alloc: Global, path: &str, opener: &mut O) -> Result<Vec<u8>, Stop>
    ensures read { IfOk result (λ bytes. ReadsFile O.opens O.closes O.Reader.remaining path.now opener.old opener.new bytes.items) }
    ensures stop { IfErr result (λ reason. ReadsNot O.opens O.closes path.now opener.old opener.new reason) }
{
    let Some(reader) = opener.open(path) else {
        return Err(Stop::Read);
    };
    let mut reader = Counted::new(reader);
    let read = read_document(alloc, &mut reader);
    opener.close(reader);
    read
}
