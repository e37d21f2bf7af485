//! A file that is written and synced, before it is certain that it is needed.
ghost use Rattle.std.specs.Prelude.{◌≡◌, ℕ, List, [], Some, OnOk};
ghost use Rattle.disk_io.specs.{Fixed.AreBytes, Disk.IsIn, Runs.HasCause, Runs.KeepsNamed};
ghost use Rattle.disk_atomic.specs.Changes.{ChangesOnly, HasOnDisk};

use disk_io::{Disk, DiskError, sync_parent_folder};

/// Writes the bytes of a file that was just made, at a synced path. At `Ok` the bytes are synced too.
pub fn fill_file<D: Disk>(disk: &mut D, path: &[u8], bytes: &[u8]) -> Result<(), DiskError>
    requires empty { (D.state disk.old).seen path.now ≡ Some [] }
    requires named { (D.state disk.old).is_named path.now }
    requires alone { (D.state disk.old).is_alone path.now }
    ensures bytes { AreBytes bytes.now }
    ensures filled { OnOk result (HasOnDisk (D.state disk.new) path.now bytes.now) }
    ensures named { KeepsNamed (λ m. ⊥) (D.state disk.old) (D.state disk.new) }
    ensures changes { ChangesOnly (λ m. m ≡ path.now) (D.state disk.old) (D.state disk.new) }
    ensures cause { HasCause (D.failures disk.old) (D.failures disk.new) result }
{
    disk.write_at(path, 0, bytes)?;
    disk.sync(path)
}

/// Makes a file of these bytes at the path, instead of any file there, and syncs it with all paths of its folder.
pub fn stage_file<D: Disk>(
    disk: &mut D,
    folder: &[u8],
    path: &[u8],
    bytes: &[u8],
) -> Result<(), DiskError>
    requires { IsIn folder.now path.now }
    ensures staged { OnOk result (HasOnDisk (D.state disk.new) path.now bytes.now) }
    ensures named { OnOk result ((m : List ℕ) → IsIn folder.now m → (D.state disk.new).is_named m) }
    ensures changes { ChangesOnly (λ m. m ≡ path.now) (D.state disk.old) (D.state disk.new) }
    ensures cause { HasCause (D.failures disk.old) (D.failures disk.new) result }
{
    sync_parent_folder(disk, folder)?;
    disk.create(path)?;
    sync_parent_folder(disk, folder)?;
    fill_file(disk, path, bytes)
}
