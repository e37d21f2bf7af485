//! A base folder opened under the locks of a station.
ghost use Rattle.std.specs.Prelude.{◌≡◌, ◌≤◌, ◌⊎◌, ℕ, List, IfErr, IfOk, OnOk, Some};
ghost use Rattle.base_file.specs.Base.{Base};
ghost use Rattle.{echo_addr.specs.declared.address.Address.Address as TheAddress, base_folder.specs.Ours.IsOfOther};
ghost use Rattle.{base_folder.specs.{Unopened.{HasOpened, HaveRoom, IsOpenedFor, OpensOnly}, Wrong.NeedsSound}, disk_io.specs.{Device.Failed, Disk.Honestly}};
ghost use Rattle.{disk_io.specs.Runs.ChangesNothing, base_log.specs.Opening.AreAlone, base_folder_store.specs.Held.RepresentsBase};
ghost use Rattle.station_bases.specs.{InFolder.IsFolderShut, Opening.{IsNotOpened, IsOpenStation}};

use crate::place::{FolderPlace, FolderProbe};
use base_folder::open_own;
use base_folder_store::Folder;
use cmd_status::{Fault, FileLock};
use disk_io::Disk;
use echo_addr::Address;
use echo_links::LinkFile;
use station::{Locks, links_held};
use std::alloc::Global;

// Opens the folder, which is locked like the link file, for the system with this address. A failure is returned as
// the fault that is reported.
fn folder_at<'a, D: Disk, L: FileLock, K: FileLock>(
    alloc: Global,
    disk: &mut D,
    _locks: &Locks<L, K>,
    at: FolderPlace<'a>,
    found: FolderProbe,
    own: Address,
) -> Result<Folder, Fault<'a>>
    requires locked { (L.held _locks.now.links ≡ Some at.links.now) × (K.held _locks.now.base ≡ Some at.base.now) }
    requires alone { Honestly (D.state disk.old) (AreAlone at.path.now (D.state disk.old)) }
    ensures own { IfOk result (IsOpenedFor at.entry.path.now own found.key.0 found.key.1 (D.state disk.new)) }
    ensures other { Honestly (D.state disk.new) ((address : TheAddress) → IsOfOther own found.strange at.entry.path.now (D.state disk.old).seen address → OnOk result ⊥) }
    ensures same { Honestly (D.state disk.new) ((keyed : ℕ → ℕ → List ℕ → ℕ) (base : Base) → HaveRoom keyed → RepresentsBase keyed at.entry.path.now base (D.state disk.old).seen
        → IfOk result (HasOpened keyed (D.state disk.new) base)) }
    ensures run { OpensOnly at.entry.path.now (D.state disk.old) (D.state disk.new) }
    ensures sound { Honestly (D.state disk.new) (NeedsSound found.strange at.entry.path.now (D.state disk.old) (D.state disk.new) result) }
    ensures err { Honestly (D.state disk.new) (IfErr result (IsNotOpened own found.strange at.entry.base.now at.entry.path.now (Failed (D.failures disk.old) (D.failures disk.new)) (D.state disk.old) (D.state disk.new))) }
    ensures later { D.failures disk.old ≤ D.failures disk.new }
{
    match open_own(alloc, disk, at.path, found.strange, own, found.key) {
        Ok(folder) => Ok(folder),
        Err(why) => Err(why.fault(at.base)),
    }
}

/// The link file of a station and its folder, which is open.
#[derive(Drop)]
pub(crate) struct Station {
    pub links: LinkFile,
    pub folder: Folder,
}

/// Reads the link file of a station, and opens its folder for the own system. Both are locked.
pub(crate) fn open_station<'a, D: Disk, L: FileLock, K: FileLock>(
    alloc: Global,
    disk: &mut D,
    locks: &Locks<L, K>,
    at: FolderPlace<'a>,
    found: FolderProbe,
) -> Result<Station, Fault<'a>>
    requires locked { (L.held locks.now.links ≡ Some at.links.now) × (K.held locks.now.base ≡ Some at.base.now) }
    requires alone { Honestly (D.state disk.old) (AreAlone at.path.now (D.state disk.old)) }
    ensures opened { IfOk result (λ station. IsOpenStation at.entry.links.now at.entry.path.now found.strange found.key.0 found.key.1 (D.state disk.old) (D.state disk.new) station.links station.folder) }
    ensures run { OpensOnly at.entry.path.now (D.state disk.old) (D.state disk.new) }
    ensures err { Honestly (D.state disk.new) (IfErr result (IsFolderShut at.entry.links.now at.entry.base.now at.entry.path.now found.strange (Failed (D.failures disk.old) (D.failures disk.new)) (D.state disk.old) (D.state disk.new))) }
    ensures later { D.failures disk.old ≤ D.failures disk.new }
{
    let links = links_held(alloc, disk, &locks.links, at.links)?;
    let folder = folder_at(alloc, disk, locks, at, found, links.system())?;
    Ok(Station { links, folder })
}
