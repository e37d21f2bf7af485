//! The folder of a path, synced.

ghost use Rattle.std.specs.Prelude.{◌≡◌, ℕ, List, None, OnOk};
ghost use Rattle.disk_io.specs.{Disk.IsFolder, Disk.IsIn, Runs.ChangesNothing, Runs.HasCause};

use crate::disk::Disk;
use crate::disk_error::DiskError;

/// The folder of a path: all of it up to its last slash.
pub fn parent_folder(path: &[u8]) -> &[u8]
    ensures is_folder { IsFolder result.now }
    ensures inside { IsIn result.now path.now }
{
    let mut end = path.len();
    'bytes: while end > 0 && path[end - 1] != b'/' {
        end -= 1;
    }
    &path[..end]
}

/// Syncs the folder of a path. Each path in it then leads on the disk to its present file, or to none.
pub fn sync_parent_folder<D: Disk>(disk: &mut D, path: &[u8]) -> Result<(), DiskError>
    ensures durable { OnOk result ((m : List ℕ) → IsIn path.now m → (D.state disk.new).is_named m) }
    ensures gone { OnOk result ((m : List ℕ) → IsIn path.now m → (D.state disk.new).seen m ≡ None → (D.state disk.new).is_flushed m) }
    ensures quiet { ChangesNothing (D.state disk.old) (D.state disk.new) }
    ensures cause { HasCause (D.failures disk.old) (D.failures disk.new) result }
{
    disk.sync_folder(parent_folder(path))
}
