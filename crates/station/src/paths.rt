//! The name of a system in paths of files.
ghost use Rattle.std.specs.Prelude.{◌≡◌, ◌≢◌, All, IfOk};
ghost use Rattle.disk_atomic.specs.StagingPaths.{dotted};

use echo_addr::Address;
use echo_links::LinkFile;
use std::alloc::{AllocError, Global};

/// The own system of a link file, as names of files spell it.
pub fn system_name(alloc: Global, links: &LinkFile) -> Result<Vec<u8>, AllocError>
    ensures own { IfOk result (λ own. own.items ≡ dotted links.now.system) }
    ensures plain { IfOk result (λ own. All (λ b. b ≢ 47) own.items) }
{
    let name = dotted(alloc, links.system())?;
    Ok(name)
}

// A system in the name of a file.
fn dotted(alloc: Global, address: Address) -> Result<Vec<u8>, AllocError>
    ensures { IfOk result (λ name. name.items ≡ dotted address) }
{
    let Address { zone, net, node } = address;
    let name = format!(in alloc; "{zone}.{net}.{node}")?;
    Ok(name.into_bytes())
}
