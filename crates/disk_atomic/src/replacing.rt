//! A file whose bytes are replaced at once.

ghost use Rattle.std.specs.Prelude.{◌≡◌, ◌≢◌, ◌⊎◌, None, OnOk};
ghost use Rattle.disk_io.specs.{Disk.IsIn, Runs.HasCause, Runs.LeavesOnly, Runs.OneStepOn};
ghost use Rattle.disk_atomic.specs.{Changes.ChangesOnly, Changes.HasOnDisk, Replacing.Replaces};

use crate::staging::stage_file;
use disk_io::{Disk, DiskError, sync_parent_folder};

/// Replaces the bytes of a file, or makes it. They are written at a staging path first. At `Ok` they are synced.
pub fn replace_file<D: Disk>(
    disk: &mut D,
    folder: &[u8],
    path: &[u8],
    staging: &[u8],
    bytes: &[u8],
) -> Result<(), DiskError>
    requires path_in { IsIn folder.now path.now }
    requires staging_in { IsIn folder.now staging.now }
    requires other { staging.now ≢ path.now }
    ensures replaced { OnOk result (HasOnDisk (D.state disk.new) path.now bytes.now) }
    ensures moved { OnOk result ((D.state disk.new).seen staging.now ≡ None) }

    // A crash leaves the old file or these bytes at the path, and changes files only at these two paths.
    ensures any_moment { LeavesOnly (D.state disk.old) (D.state disk.new) (OneStepOn (Replaces path.now staging.now bytes.now) (D.state disk.old)) }
    ensures changes { ChangesOnly (λ m. (m ≡ staging.now) ⊎ (m ≡ path.now)) (D.state disk.old) (D.state disk.new) }
    ensures cause { HasCause (D.failures disk.old) (D.failures disk.new) result }
{
    stage_file(disk, folder, staging, bytes)?;
    disk.rename(staging, path)?;
    sync_parent_folder(disk, folder)
}
