//! The link file alone, and other files that are locked.
ghost use Rattle.std.specs.Prelude.{◌≡◌, ◌≤◌, ◌⊎◌, length, IfErr, IfOk, OnOk, Some, None};
ghost use Rattle.disk_io.specs.{Device.Failed, Disk.Honestly, Runs.ChangesNothing};
ghost use Rattle.station.specs.{Faults.{FailsAt, HaveFailed, LinksUnread, most_links}, Links.{AreLinks, NoLinks}, Opening.AreFree};

use crate::locks::Locks;
use crate::reading::{fault_at, read_links};
use cmd_status::{Fault, FileLock};
use disk_io::Disk;
use echo_links::LinkFile;
use std::alloc::Global;

/// Takes the lock of the file with this path.
pub fn take_lock<'a, L: FileLock>(lock: &mut L, path: &'a str) -> Result<(), Fault<'a>>
    requires { L.held lock.old ≡ None }
    ensures locked { OnOk result (L.held lock.new ≡ Some path.now) }
    ensures err { IfErr result (FailsAt path.now (Failed (L.failures lock.old) (L.failures lock.new))) }
    ensures later { L.failures lock.old ≤ L.failures lock.new }
{
    match lock.lock(path.as_bytes()) {
        Ok(()) => Ok(()),
        Err(cause) => Err(fault_at(cause, path)),
    }
}

/// Takes the lock of the link file with this path, and reads it.
pub fn lock_links<'a, D: Disk, L: FileLock>(
    alloc: Global,
    disk: &mut D,
    lock: &mut L,
    path: &'a str,
) -> Result<Vec<u8>, Fault<'a>>
    requires { L.held lock.old ≡ None }
    ensures locked { OnOk result (L.held lock.new ≡ Some path.now) }
    ensures bound { Honestly (D.state disk.new) (IfOk result (λ bytes. length bytes.items ≤ most_links)) }
    ensures bytes { Honestly (D.state disk.new) (IfOk result (λ bytes. (D.state disk.old).seen path.now ≡ Some bytes.items)) }
    ensures quiet { ChangesNothing (D.state disk.old) (D.state disk.new) }
    ensures err { Honestly (D.state disk.new) (IfErr result (LinksUnread (D.state disk.old) path.now (HaveFailed (D.failures disk.old) (D.failures disk.new) (L.failures lock.old) (L.failures lock.new)))) }
    ensures later { D.failures disk.old ≤ D.failures disk.new }
    ensures lock_later { L.failures lock.old ≤ L.failures lock.new }
{
    let taken = lock.lock(path.as_bytes());
    match taken {
        Ok(()) => read_links(alloc, disk, lock, path),
        Err(cause) => Err(fault_at(cause, path)),
    }
}

/// Takes the lock of the link file with this path, then that of the base.
pub fn lock_both<'a, L: FileLock, K: FileLock>(
    locks: &mut Locks<L, K>,
    links: &'a str,
    base: &'a str,
) -> Result<(), Fault<'a>>
    requires { AreFree (L.held locks.old.links) (K.held locks.old.base) }
    ensures both { OnOk result ((L.held locks.new.links ≡ Some links.now) × (K.held locks.new.base ≡ Some base.now)) }
    ensures order { K.held locks.new.base ≡ Some base.now → L.held locks.new.links ≡ Some links.now }
    ensures err { IfErr result (λ fault. FailsAt links.now (Failed (L.failures locks.old.links) (L.failures locks.new.links)) fault ⊎ FailsAt base.now (Failed (K.failures locks.old.base) (K.failures locks.new.base)) fault) }
{
    take_lock(&mut locks.links, links)?;
    take_lock(&mut locks.base, base)
}

/// Judges what the link file with this path says. Its lock is held.
pub fn links_held<'a, D: Disk, L: FileLock>(
    alloc: Global,
    disk: &mut D,
    lock: &L,
    path: &'a str,
) -> Result<LinkFile, Fault<'a>>
    requires { L.held lock.now ≡ Some path.now }
    ensures read { Honestly (D.state disk.new) (IfOk result (AreLinks (D.state disk.old) path.now)) }
    ensures err { Honestly (D.state disk.new) (IfErr result (NoLinks (D.state disk.old) path.now (Failed (D.failures disk.old) (D.failures disk.new)))) }
    ensures quiet { ChangesNothing (D.state disk.old) (D.state disk.new) }
    ensures later { D.failures disk.old ≤ D.failures disk.new }
{
    let bytes = read_links(alloc, disk, lock, path)?;
    Ok(LinkFile::read(alloc, &bytes)?)
}

/// Takes the lock of the link file with this path, and judges what it says.
pub fn lock_and_read_links<'a, D: Disk, L: FileLock>(
    alloc: Global,
    disk: &mut D,
    lock: &mut L,
    path: &'a str,
) -> Result<LinkFile, Fault<'a>>
    requires { L.held lock.old ≡ None }
    ensures locked { OnOk result (L.held lock.new ≡ Some path.now) }
    ensures read { Honestly (D.state disk.new) (IfOk result (AreLinks (D.state disk.old) path.now)) }
    ensures err { Honestly (D.state disk.new) (IfErr result (NoLinks (D.state disk.old) path.now (HaveFailed (D.failures disk.old) (D.failures disk.new) (L.failures lock.old) (L.failures lock.new)))) }
    ensures quiet { ChangesNothing (D.state disk.old) (D.state disk.new) }
    ensures later { D.failures disk.old ≤ D.failures disk.new }
    ensures lock_later { L.failures lock.old ≤ L.failures lock.new }
{
    let bytes = lock_links(alloc, disk, lock, path)?;
    Ok(LinkFile::read(alloc, &bytes)?)
}
