//! A base folder of a station opened as a store.
ghost use Rattle.std.specs.Prelude.{◌≡◌, ◌≤◌, IfErr, IfOk, Some};
ghost use Rattle.{base_folder.specs.{Ours.number_of, Unopened.OpensOnly}, disk_io.specs.Device.Failed};
ghost use Rattle.{disk_io.specs.Disk.Honestly, base_log.specs.Opening.AreAlone, station_bases.specs.{InFolder.IsFolderShut, Opening.{IsBegun, IsOfFolder}}};

use crate::opening::{Station, open_station};
use crate::place::{FolderPlace, FolderProbe};
use base_folder_store::FolderStore;
use base_store::{Digest, Store};
use cmd_status::{Fault, FileLock};
use disk_io::Disk;
use echo_links::LinkFile;
use station::Locks;
use std::alloc::Global;

/// The link file of a station, and its folder as a store.
#[derive(Drop)]
pub(crate) struct Begun<D: Disk, H: Digest> {
    pub links: LinkFile,
    pub store: FolderStore<D, H>,
}

/// The disk, and why the folder is not open on it.
#[derive(Drop)]
pub(crate) struct NotBegun<'a, D> {
    pub disk: D,
    pub fault: Fault<'a>,
}

/// Opens the station as a store.
pub(crate) fn open_store<'a, D: Disk + Drop, H: Digest, L: FileLock, K: FileLock>(
    alloc: Global,
    disk: D,
    locks: &Locks<L, K>,
    at: FolderPlace<'a>,
    found: FolderProbe,
) -> Result<Begun<D, H>, NotBegun<'a, D>>
    requires locked { (L.held locks.now.links ≡ Some at.links.now) × (K.held locks.now.base ≡ Some at.base.now) }
    requires alone { Honestly (D.state disk) (AreAlone at.path.now (D.state disk)) }
    ensures begun { IfOk result (λ begun. Honestly (D.state begun.store.disk)
        (IsBegun H.keyed at.entry.links.now at.entry.path.now found.strange (D.state disk) (⟦<FolderStore<D, H> as Store>⟧.state begun.store) begun.links)) }
    ensures of_folder { IfOk result (λ begun. IsOfFolder H.keyed at.entry.path.now (D.state disk) (⟦<FolderStore<D, H> as Store>⟧.state begun.store) × (begun.store.folder.recorded.mark.owner ≡ number_of begun.links.system)) }
    ensures later { IfOk result (λ begun. D.failures disk ≤ D.failures begun.store.disk) }
    ensures run { IfErr result (λ stopped. OpensOnly at.entry.path.now (D.state disk) (D.state stopped.disk)) }
    ensures err { IfErr result (λ stopped. Honestly (D.state stopped.disk)
        (IsFolderShut at.entry.links.now at.entry.base.now at.entry.path.now found.strange (Failed (D.failures disk) (D.failures stopped.disk)) (D.state disk) (D.state stopped.disk) stopped.fault)) }
{
    let mut disk = disk;
    match open_station(alloc, &mut disk, locks, at, found) {
        Ok(Station { links, folder }) => Ok(Begun {
            links,
            store: FolderStore::new(alloc, disk, folder),
        }),
        Err(fault) => Err(NotBegun { disk, fault }),
    }
}
