//! The link file of a station is read.
ghost use Rattle.std.specs.Prelude.{◌≡◌, ◌≤◌, length, IfErr, IfOk, OnOk, IsSome, Some, None};
ghost use Rattle.disk_io.specs.{Device.Failed, Disk.{Honestly, bytes_in}};
ghost use Rattle.{disk_io.specs.Runs.{ChangesNothing, HasCause}, station.specs.Faults.{HasSize, IsFaultAt, LinksUnread, most_links}};

use cmd_status::{Fault, FileLock};
use disk_io::{Disk, DiskError, read_file};
use std::alloc::Global;

/// The most bytes of a link file.
const MAX_LINKS: usize = 1_048_576;

/// The report of a disk's fault at the file with this path.
pub(crate) fn fault_at(cause: DiskError, path: &str) -> Fault<'_>
    ensures { IsFaultAt path.now cause result }
{
    match cause {
        DiskError::Memory => Fault::OutOfMemory,
        DiskError::Device => Fault::CannotUse(path),
    }
}

// The size of the file; none if it does not exist.
pub(crate) fn size_of<D: Disk>(disk: &mut D, path: &[u8]) -> Result<Option<usize>, DiskError>
    ensures size { Honestly (D.state disk.new) (IfOk result (HasSize ((D.state disk.old).seen path.now))) }
    ensures quiet { ChangesNothing (D.state disk.old) (D.state disk.new) }
    ensures cause { HasCause (D.failures disk.old) (D.failures disk.new) result }
{
    if !disk.exists(path)? {
        return Ok(None);
    }
    Ok(Some(disk.len(path)?))
}

// A fault, unless there is a link file with this path and it is small enough.
fn check_links<'a, D: Disk>(disk: &mut D, path: &'a str) -> Result<(), Fault<'a>>
    ensures there { Honestly (D.state disk.new) (OnOk result (IsSome ((D.state disk.old).seen path.now))) }
    ensures bound { Honestly (D.state disk.new) (OnOk result (length (bytes_in ((D.state disk.old).seen path.now)) ≤ most_links)) }
    ensures quiet { ChangesNothing (D.state disk.old) (D.state disk.new) }
    ensures err { Honestly (D.state disk.new) (IfErr result (LinksUnread (D.state disk.old) path.now (Failed (D.failures disk.old) (D.failures disk.new)))) }
    ensures later { D.failures disk.old ≤ D.failures disk.new }
{
    match size_of(disk, path.as_bytes()) {
        Ok(Some(size)) => {
            if size > MAX_LINKS {
                Err(Fault::TooLarge(path))
            } else {
                Ok(())
            }
        }
        Ok(None) => Err(Fault::CannotUse(path)),
        Err(cause) => Err(fault_at(cause, path)),
    }
}

// The bytes of a link file. Its lock is held.
pub(crate) fn read_links<'a, D: Disk, L: FileLock>(
    alloc: Global,
    disk: &mut D,
    _lock: &L,
    path: &'a str,
) -> Result<Vec<u8>, Fault<'a>>
    requires { L.held _lock.now ≡ Some path.now }
    ensures bound { Honestly (D.state disk.new) (IfOk result (λ bytes. length bytes.items ≤ most_links)) }
    ensures bytes { Honestly (D.state disk.new) (IfOk result (λ bytes. (D.state disk.old).seen path.now ≡ Some bytes.items)) }
    ensures quiet { ChangesNothing (D.state disk.old) (D.state disk.new) }
    ensures err { Honestly (D.state disk.new) (IfErr result (LinksUnread (D.state disk.old) path.now (Failed (D.failures disk.old) (D.failures disk.new)))) }
    ensures later { D.failures disk.old ≤ D.failures disk.new }
{
    check_links(disk, path)?;
    match read_file(alloc, disk, path.as_bytes()) {
        Ok(bytes) => Ok(bytes),
        Err(cause) => Err(fault_at(cause, path)),
    }
}
