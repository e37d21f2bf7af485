//! The link file of a station is read, and its base file is opened.
ghost use Rattle.std.specs.Prelude.{◌≡◌, ◌≢◌, ◌⊎◌, ◌↔◌, All, IfErr, IfNone, IfOk, IfSome, IsSome, IsTrue, OnOk, Some, None};
ghost use Rattle.disk_io.specs.Device.{Failed};
ghost use Rattle.{disk_io.specs.{Disk.Honestly, Runs.{ChangesNothing, HasCause}}, station.specs.{Links.AreLinks, Faults.IsFaultAt}};
ghost use Rattle.{cmd_status.specs.{Ended.IsOutOfMemory, Inputs.{IsBaseFault, IsBaseGiven}}, station_bases.specs.InFile.{IsReadAs, IsWithinReach, RepresentsInFile}};
ghost use Rattle.station_bases.specs.Reading.{IsFileShut, IsSettled, IsUnreadFor, ReadsOnly};

use crate::entry_opening::open_entries;
use crate::file_station::FileStation;
use crate::held::Held;
use base_file::Base;
use base_store::{Digest, SipDigest};
use cmd_status::{Fault, FileLock, MessageProgress};
use disk_io::{Disk, DiskError, parent_folder, read_file};
use echo_addr::Items;
use echo_links::LinkFile;
use station::{Followed, Locks, links_held, system_name};
use std::alloc::Global;
use std::hash::BuildHasher;

/// A link file, the name of its system, and the part of the base file in memory.
#[derive(Drop)]
pub(crate) struct Read<S: BuildHasher> {
    pub links: LinkFile,
    pub own: Items<u8>,
    pub held: Held<S>,
}

// Syncs a file and its name, and answers whether it exists.
fn settle<D: Disk>(disk: &mut D, path: &[u8]) -> Result<bool, DiskError>
    ensures found { Honestly (D.state disk.new) (IfOk result (λ found. IsTrue found ↔ IsSome ((D.state disk.old).seen path.now))) }
    ensures settled { Honestly (D.state disk.new) (OnOk result (IsSettled (D.state disk.new) path.now)) }
    ensures quiet { ChangesNothing (D.state disk.old) (D.state disk.new) }
    ensures cause { HasCause (D.failures disk.old) (D.failures disk.new) result }
{
    disk.sync_folder(parent_folder(path))?;
    if !disk.exists(path)? {
        return Ok(false);
    }
    disk.sync(path)?;
    Ok(true)
}

// The base in these bytes of a base file.
fn loaded<'a, S: BuildHasher + Drop, T: MessageProgress>(
    alloc: Global,
    all: &[u8],
    hasher: S,
    watch: &T,
) -> Result<Base<S>, Fault<'a>>
    ensures same { IfOk result (λ base. IsBaseGiven (Some all.now) base.messages base.cursor) }
    ensures err { IfErr result (λ fault. IsOutOfMemory fault ⊎ IsBaseFault (Some all.now) fault) }
{
    let mut left = Followed::new(all, all.len(), watch);
    Ok(Base::load(alloc, &mut left, hasher)?)
}

// A failure of the disk at this path, as the fault that is reported.
fn fault_at(cause: DiskError, path: &str) -> Fault<'_>
    ensures { IsFaultAt path.now cause result }
{
    match cause {
        DiskError::Memory => Fault::OutOfMemory,
        DiskError::Device => Fault::CannotUse(path),
    }
}

// The key of the digests of a run.
fn digest_by<S: BuildHasher>(hasher: &S) -> SipDigest {
    SipDigest::keyed(hasher.hash_one(&0u8), hasher.hash_one(&1u8))
}

// Opens a synced file, leaving its messages in it. Without a file the base is empty, and in memory.
fn open_apart<D: Disk, S: BuildHasher + Drop, T: MessageProgress>(
    alloc: Global,
    disk: &mut D,
    path: &[u8],
    hasher: S,
    watch: &T,
) -> Result<Option<Held<S>>, DiskError>
    ensures held { Honestly (D.state disk.new) (IfOk result (λ found. IfSome found (IsReadAs (D.state disk.old).seen (D.state disk.new) path.now))) }
    ensures reach { IfOk result (λ found. IfSome found (IsWithinReach (D.state disk.new) path.now)) }
    ensures there { Honestly (D.state disk.new) (IfOk result (λ found. IfNone found (IsSome ((D.state disk.old).seen path.now)))) }
    ensures settled { Honestly (D.state disk.new) (OnOk result (IsSettled (D.state disk.new) path.now)) }
    ensures quiet { ChangesNothing (D.state disk.old) (D.state disk.new) }
    ensures cause { HasCause (D.failures disk.old) (D.failures disk.new) result }
{
    if !settle(disk, path)? {
        return Ok(Some(Held::Whole(Base::new(alloc, hasher))));
    }
    let digest = digest_by(&hasher);
    match open_entries(alloc, disk, path, digest, watch)? {
        Some(entries) => Ok(Some(Held::Apart(entries))),
        None => Ok(None),
    }
}

// Reads a whole base file into memory.
fn open_whole<'a, D: Disk, S: BuildHasher + Drop, T: MessageProgress>(
    alloc: Global,
    disk: &mut D,
    path: &'a str,
    hasher: S,
    watch: &T,
) -> Result<Base<S>, Fault<'a>>
    requires there { Honestly (D.state disk.old) (IsSome ((D.state disk.old).seen path.now)) }
    ensures same { Honestly (D.state disk.new) (IfOk result (λ base. RepresentsInFile path.entry.now base (D.state disk.old).seen)) }
    ensures reads { ReadsOnly (D.state disk.old) (D.state disk.new) (D.failures disk.old) (D.failures disk.new) }
    ensures err { Honestly (D.state disk.new) (IfErr result (IsUnreadFor path.entry.now (Failed (D.failures disk.old) (D.failures disk.new)) (D.state disk.old))) }
{
    match read_file(alloc, disk, path.as_bytes()) {
        Ok(bytes) => loaded(alloc, &bytes, hasher, watch),
        Err(cause) => Err(fault_at(cause, path)),
    }
}

// Opens the base file of the station, under its locks.
fn base_at<
    'a,
    D: Disk,
    L: FileLock,
    K: FileLock,
    S: BuildHasher + Copy + Drop,
    T: MessageProgress + Drop,
>(
    alloc: Global,
    disk: &mut D,
    _locks: &Locks<L, K>,
    at: FileStation<'a, S, T>,
) -> Result<Held<S>, Fault<'a>>
    requires links_locked { L.held _locks.now.links ≡ Some at.links.now }
    requires base_locked { K.held _locks.now.base ≡ Some at.base.now }
    ensures same { Honestly (D.state disk.new) (IfOk result (IsReadAs (D.state disk.old).seen (D.state disk.new) at.entry.base.now)) }
    ensures reach { IfOk result (IsWithinReach (D.state disk.new) at.entry.base.now) }
    ensures settled { Honestly (D.state disk.new) (OnOk result (IsSettled (D.state disk.new) at.entry.base.now)) }
    ensures reads { ReadsOnly (D.state disk.old) (D.state disk.new) (D.failures disk.old) (D.failures disk.new) }
    ensures err { Honestly (D.state disk.new) (IfErr result (IsUnreadFor at.entry.base.now (Failed (D.failures disk.old) (D.failures disk.new)) (D.state disk.old))) }
{
    let FileStation {
        base: path,
        hasher,
        watch,
        ..
    } = at;
    match open_apart(alloc, disk, path.as_bytes(), hasher, &watch) {
        Ok(Some(held)) => Ok(held),
        Ok(None) => {
            let base = open_whole(alloc, disk, path, hasher, &watch)?;
            Ok(Held::Whole(base))
        }
        Err(cause) => Err(fault_at(cause, path)),
    }
}

/// Reads the link file of a station, and its base file. Both are locked.
pub(crate) fn read_station<
    'a,
    D: Disk,
    L: FileLock,
    K: FileLock,
    S: BuildHasher + Copy + Drop,
    T: MessageProgress + Drop,
>(
    alloc: Global,
    disk: &mut D,
    locks: &Locks<L, K>,
    at: FileStation<'a, S, T>,
) -> Result<Read<S>, Fault<'a>>
    requires links_locked { L.held locks.now.links ≡ Some at.links.now }
    requires base_locked { K.held locks.now.base ≡ Some at.base.now }
    ensures read { Honestly (D.state disk.new) (IfOk result (λ read. AreLinks (D.state disk.old) at.entry.links.now read.links × IsReadAs (D.state disk.old).seen (D.state disk.new) at.entry.base.now read.held)) }
    ensures reach { IfOk result (λ read. IsWithinReach (D.state disk.new) at.entry.base.now read.held) }
    ensures plain { IfOk result (λ read. All (λ b. b ≢ 47) read.own) }
    ensures settled { Honestly (D.state disk.new) (OnOk result (IsSettled (D.state disk.new) at.entry.base.now)) }
    ensures reads { ReadsOnly (D.state disk.old) (D.state disk.new) (D.failures disk.old) (D.failures disk.new) }
    ensures err { Honestly (D.state disk.new) (IfErr result (IsFileShut at.entry.links.now at.entry.base.now (Failed (D.failures disk.old) (D.failures disk.new)) (D.state disk.old))) }
{
    let links = links_held(alloc, disk, &locks.links, at.links)?;
    let own = Items::new(system_name(alloc, &links)?);
    let held = base_at(alloc, disk, locks, at)?;
    Ok(Read { links, own, held })
}
