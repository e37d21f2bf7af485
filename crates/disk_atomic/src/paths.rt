//! The staging path of a file.

ghost use Rattle.std.specs.Prelude.{◌≡◌, IfOk};
ghost use Rattle.disk_atomic.specs.StagingPaths.{staging_path};

use std::alloc::{AllocError, Global};

/// The staging path of a file for the system of this name.
pub fn staging_path(alloc: Global, path: &[u8], own: &[u8]) -> Result<Vec<u8>, AllocError>
    ensures { IfOk result (λ staging. staging.items ≡ staging_path path.now own.now) }
{
    let mut staging = Vec::from_slice(alloc, path)?;
    staging.extend_from_slice(b".~")?;
    staging.extend_from_slice(own)?;
    staging.extend_from_slice(b"~.new")?;
    Ok(staging)
}
