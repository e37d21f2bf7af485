//! A station with its base in a file.
ghost use Rattle.std.specs.Prelude.{◌≡◌, Some};
ghost use Rattle.{base_file.specs.Base.Base, station.specs.Links.AreLinks, station_bases.specs.InFile.RepresentsInFile};
ghost use Rattle.station_bases.specs.Reading.{IsShutFor, file_place};

use crate::file_store::FileStore;
use crate::loading::{Read, read_station};
use cmd_status::{Fault, FileLock, MessageProgress};
use disk_io::Disk;
use station::{Locks, OpenStation, Opened, Stopped, lock_both};
use std::alloc::Global;
use std::hash::BuildHasher;

/// The paths of a station: its link file and its base file. The hasher serves look-ups by key; reading the base file
/// is watched.
#[derive(Drop)]
pub struct FileStation<'a, S, T> {
    pub links: &'a str,
    pub base: &'a str,
    pub hasher: S,
    pub watch: T,
}

impl<'a, D: Disk + Drop, S: BuildHasher + Copy + Drop, T: MessageProgress + Drop> OpenStation<'a, D>
    for FileStation<'a, S, T> {
    type Kept = FileStore<'a, D, S>;

    ghost place = { λ at. file_place at.base.now };

    ghost holds_base = { λ at files. (base : Base) × RepresentsInFile at.base.now base files };

    ghost can_open = { λ at disk. Unit {0} };

    ghost is_locked = { λ at links base. (links ≡ Some at.links.now) × (base ≡ Some at.base.now) };

    ghost reads = { λ at disk file. AreLinks disk at.links.now file };

    ghost is_shut = { λ at failed old new fault. IsShutFor at.links.now at.base.now failed old new fault };

    fn lock<L: FileLock, K: FileLock>(
        &self,
        _disk: &D,
        locks: &mut Locks<L, K>,
    ) -> Result<(), Fault<'a>> {
        lock_both(locks, self.links, self.base)
    }

    fn open<L: FileLock, K: FileLock>(
        self,
        alloc: Global,
        disk: D,
        locks: &Locks<L, K>,
    ) -> Result<Opened<FileStore<'a, D, S>>, Stopped<'a, D>> {
        let mut disk = disk;
        let path = self.base;
        let hasher = self.hasher;
        match read_station(alloc, &mut disk, locks, self) {
            Ok(read) => {
                let Read { links, own, held } = read;
                Ok(Opened {
                    links,
                    kept: FileStore::new(alloc, disk, held, hasher, path, own),
                })
            }
            Err(fault) => Err(Stopped { disk, fault }),
        }
    }

    fn into_disk(kept: FileStore<'a, D, S>) -> D {
        kept.into_disk()
    }
}
