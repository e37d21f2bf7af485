//! A station with its base in a folder.
ghost use Rattle.std.specs.Prelude.{◌≡◌, Some};
ghost use Rattle.{disk_io.specs.Runs.ChangesNothing, base_folder.specs.Wrong.IsSound, base_log.specs.Opening.AreAlone};
ghost use Rattle.station_bases.specs.InFolder.{IsFolderShut, IsOwnLinks, folder_place};

use crate::beginning::{Begun, open_store};
use crate::place::{FolderPlace, FolderProbe};
use base_folder_store::FolderStore;
use base_store::{Digest, Store};
use cmd_status::{Fault, FileLock};
use disk_io::Disk;
use station::{Locks, OpenStation, Opened, Stopped, lock_both};
use std::alloc::Global;
use std::marker::PhantomData;

/// Where a station with a base folder is, and what a program found of the folder. `H` makes the digests.
#[derive(Drop)]
pub struct FolderStation<'a, H> {
    pub at: FolderPlace<'a>,
    pub found: FolderProbe,
    pub digests: PhantomData<H>,
}

impl<'a, D: Disk + Drop, H: Digest> OpenStation<'a, D> for FolderStation<'a, H> {
    type Kept = FolderStore<D, H>;

    ghost place = { λ station. folder_place H.keyed station.at.path.now };

    ghost holds_base = { λ station files. IsSound station.found.strange station.at.path.now files };

    ghost can_open = { λ station disk. AreAlone station.at.path.now disk };

    ghost is_locked = { λ station links base. (links ≡ Some station.at.links.now) × (base ≡ Some station.at.base.now) };

    ghost reads = { λ station disk file. IsOwnLinks station.at.links.now station.at.path.now station.found.strange disk file };

    ghost is_shut = { λ station failed old new fault. IsFolderShut station.at.links.now station.at.base.now station.at.path.now station.found.strange failed old new fault };

    fn lock<L: FileLock, K: FileLock>(
        &self,
        _disk: &D,
        locks: &mut Locks<L, K>,
    ) -> Result<(), Fault<'a>> {
        lock_both(locks, self.at.links, self.at.base)
    }

    fn open<L: FileLock, K: FileLock>(
        self,
        alloc: Global,
        disk: D,
        locks: &Locks<L, K>,
    ) -> Result<Opened<FolderStore<D, H>>, Stopped<'a, D>> {
        match open_store(alloc, disk, locks, self.at, self.found) {
            Ok(begun) => {
                let Begun { links, store } = begun;
                Ok(Opened { links, kept: store })
            }
            Err(stopped) => Err(Stopped {
                disk: stopped.disk,
                fault: stopped.fault,
            }),
        }
    }

    fn into_disk(kept: FolderStore<D, H>) -> D
        ensures quiet { ChangesNothing (⟦<FolderStore<D, H> as Store>⟧.state kept).disk (D.state result) }
        ensures failures { D.failures result ≡ ⟦<FolderStore<D, H> as Store>⟧.failures kept }
    {
        let (disk, _folder) = kept.into_parts();
        disk
    }
}
