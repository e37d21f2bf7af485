//! The link files of a run, read from bytes that were judged before.

ghost use Rattle.std.specs.Prelude.{◌≡◌, IfOk};
ghost use Rattle.{echo_links.specs.LinkLines.file_of, cmd_why.specs.Sources.files_of};

use echo_addr::Items;
use echo_links::LinkFile;
use std::alloc::{AllocError, Global};

pub(crate) fn read_files(alloc: Global, sources: &[Items<u8>]) -> Result<Vec<LinkFile>, AllocError>
    ensures { IfOk result (λ files. files.items ≡ files_of sources.now) }
{
    let mut files = Vec::new(alloc);
    'sources: for source in sources {
        let file = read_file(alloc, source.as_slice())?;
        files.push(file)?;
    }
    Ok(files)
}

/// The link file of these bytes. They were read as one before, so no fault of a file comes here, and what does is memory.
fn read_file(alloc: Global, bytes: &[u8]) -> Result<LinkFile, AllocError>
    ensures { IfOk result (λ file. file ≡ file_of bytes.now) }
{
    match LinkFile::read(alloc, bytes) {
        Ok(file) => Ok(file),
        Err(_) => Err(AllocError),
    }
}
