//! Link files and nodelists that were read, or their fault.

ghost use Rattle.std.specs.Prelude.{◌⊎◌, IfErr, IfOk, option_copied};
ghost use Rattle.cmd_status.specs.{Ended.IsOutOfMemory, Inputs.AreLinkFiles, Inputs.IsLinkFault, Inputs.IsNodelistFault, Inputs.IsNodelistGiven};

use crate::fault::Fault;
use echo_addr::Items;
use echo_links::LinkFile;
use echo_nodelist::Nodelist;
use std::alloc::Global;

/// The link files, in order, or the first fault of the first faulty one.
pub fn link_files<'a>(alloc: Global, inputs: &[Items<u8>]) -> Result<Vec<LinkFile>, Fault<'a>>
    ensures ok { IfOk result (λ files. AreLinkFiles inputs.now files.items) }
    ensures err { IfErr result (λ fault. IsOutOfMemory fault ⊎ IsLinkFault inputs.now fault) }
{
    let mut files = Vec::new(alloc);
    'inputs: for input in inputs {
        let file = LinkFile::read(alloc, input.as_slice())?;
        files.push(file)?;
    }
    Ok(files)
}

/// The nodelist, if one was given.
pub fn nodelist_given<'a>(
    alloc: Global,
    input: Option<&[u8]>,
) -> Result<Option<Nodelist>, Fault<'a>>
    ensures ok { IfOk result (λ list. IsNodelistGiven (option_copied input.entry) list) }
    ensures err { IfErr result (λ fault. IsOutOfMemory fault ⊎ IsNodelistFault (option_copied input.entry) fault) }
{
    match input {
        Some(bytes) => Ok(Some(Nodelist::read(alloc, bytes)?)),
        None => Ok(None),
    }
}
