//! Whether a file of a folder can get a second path there. Some folders have no hard links.
ghost use Rattle.std.specs.Prelude.{◌≡◌, ◌≢◌, ◌⊎◌, ℕ, List, false, true, IfOk, None, OnOk};
ghost use Rattle.disk_io.specs.{Disk.Honestly, Disk.IsIn, Runs.HasCause};
ghost use Rattle.disk_atomic.specs.{Changes.ChangesOnly, Naming.CanLink, Trying.Tries, Trying.WasTried};

use crate::naming::link_path;
use disk_io::{Disk, DiskError, sync_parent_folder};

fn clear_path<D: Disk>(disk: &mut D, folder: &[u8], path: &[u8]) -> Result<(), DiskError>
    requires inside { IsIn folder.now path.now }
    requires named { (D.state disk.old).is_named path.now }
    ensures gone { Honestly (D.state disk.new) (OnOk result ((D.state disk.new).seen path.now ≡ None)) }
    ensures named { OnOk result ((D.state disk.new).is_named path.now) }
    ensures changes { ChangesOnly (λ m. m ≡ path.now) (D.state disk.old) (D.state disk.new) }
    ensures cause { HasCause (D.failures disk.old) (D.failures disk.new) result }
{
    if !disk.exists(path)? {
        return Ok(());
    }
    disk.remove(path)?;
    sync_parent_folder(disk, folder)
}

/// Gives a file of the folder this second path, syncs the folder, and removes the path again. A file that a stopped
/// run left there is removed before. Returns `false` if something else has the path.
pub fn try_link<D: Disk>(
    disk: &mut D,
    folder: &[u8],
    from: &[u8],
    trial: &[u8],
) -> Result<bool, DiskError>
    requires inside { IsIn folder.now trial.now }
    requires can { CanLink (D.state disk.old) from.now trial.now }
    ensures tried { IfOk result (λ tried. tried ≡ true → WasTried D.state (λ m. (m ≡ from.now) ⊎ (m ≡ trial.now)) trial.now (D.state disk.old)) }
    ensures taken { Honestly (D.state disk.new) (IfOk result (λ tried. tried ≡ false → ⊥)) }
    ensures gone { IfOk result (λ tried. tried ≡ true → (m : List ℕ) → IsIn folder.now m → m ≢ trial.now → (D.state disk.new).seen m ≡ None → (D.state disk.new).is_flushed m) }
    ensures tries { Tries (D.state disk.old) (D.state disk.new) trial.now from.now }
    ensures cause { HasCause (D.failures disk.old) (D.failures disk.new) result }
{
    clear_path(disk, folder, trial)?;
    if !link_path(disk, from, trial)? {
        return Ok(false);
    }
    sync_parent_folder(disk, folder)?;
    disk.remove(trial)?;
    Ok(true)
}
