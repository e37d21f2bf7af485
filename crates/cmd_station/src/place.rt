//! A station before it is opened: its locks, and the state of its base.
ghost use Rattle.std.specs.Prelude.{OnOk};
ghost use Rattle.station.specs.Opening.{AreFree};

use cmd_base::{BaseFiles, break_hard_links, drawn_key, is_folder, is_strange};
use cmd_input::{BaseLock, LinkLock, folder_path};
use cmd_status::{Fault, FileLock};
use cmd_words::Place;
use disk_io::Disk;
use disk_system::{OutputFault, RealDisk, Unknown, write_target};
use station::{Locks, lock_and_read_links, take_lock};
use station_bases::FolderProbe;

/// The state of a base, and the files of the system for it. `path` is that of a base file, or the one before the names of
/// the files in a base folder.
#[derive(Drop)]
pub struct FoundBase<'r> {
    path: String,
    folder: Option<FolderProbe>,
    files: BaseFiles<'r>,
}

/// A station with a found base.
#[derive(Clone, Copy)]
pub struct Station<'a> {
    pub rt: &'a HostRuntime,
    pub place: Place<'a>,
    pub path: &'a str,
    /// The state of its base, if that is a folder.
    pub folder: Option<FolderProbe>,
    /// The files of the system, on which a base file is replaced.
    pub files: &'a BaseFiles<'a>,
}

impl<'r> FoundBase<'r> {
    fn new(rt: &'r HostRuntime, path: String, folder: Option<FolderProbe>) -> FoundBase<'r> {
        FoundBase {
            path,
            folder,
            files: BaseFiles::new(rt),
        }
    }

    /// The station of these paths.
    pub fn at<'a>(&'a self, rt: &'a HostRuntime, place: Place<'a>) -> Station<'a> {
        Station {
            rt,
            place,
            path: self.path.as_str(),
            folder: self.folder,
            files: &self.files,
        }
    }
}

/// The locks of a station. The link file is already locked, if possible. So no other run changes the station from before
/// its base is found until the command ends.
pub fn station_locks<'a>(rt: &'a HostRuntime, place: Place<'a>) -> Locks<LinkLock<'a>, BaseLock<'a>>
    ensures { AreFree (⟦<LinkLock<'a> as FileLock>⟧.held result.links) (⟦<BaseLock<'a> as FileLock>⟧.held result.base) }
{
    Locks {
        links: LinkLock::ahead(rt, place.links),
        base: BaseLock::new(rt, place.links),
    }
}

/// Finds the base of a station. Faults of the link file and of the locks precede that of a folder.
pub fn find_base<'a, L: FileLock, K: FileLock>(
    rt: &'a HostRuntime,
    place: Place<'a>,
    locks: &mut Locks<L, K>,
) -> Result<FoundBase<'a>, Fault<'a>>
    requires { AreFree (L.held locks.old.links) (K.held locks.old.base) }
    ensures { OnOk result (AreFree (L.held locks.new.links) (K.held locks.new.base)) }
{
    match found_at(rt, place.base) {
        Ok(found) => Ok(found),
        Err(fault) => Err(first_fault(rt, place, locks, fault)),
    }
}

// The fault of the link file or of a lock, if there is one, in place of that of a folder.
fn first_fault<'a, L: FileLock, K: FileLock>(
    rt: &HostRuntime,
    place: Place<'a>,
    locks: &mut Locks<L, K>,
    fault: Fault<'a>,
) -> Fault<'a>
    requires { AreFree (L.held locks.old.links) (K.held locks.old.base) }
{
    let mut disk = RealDisk::new(rt, Unknown);
    match lock_both(rt, &mut disk, place, locks) {
        Ok(()) => fault,
        Err(first) => first,
    }
}

// The state of the base with this path.
fn found_at<'a>(rt: &'a HostRuntime, base: &'a str) -> Result<FoundBase<'a>, Fault<'a>> {
    if is_folder(rt, base) {
        match probed(rt, base) {
            Ok((path, found)) => Ok(FoundBase::new(rt, path, Some(found))),
            Err(fault) => Err(fault),
        }
    } else {
        match followed(rt, base) {
            Ok(path) => Ok(FoundBase::new(rt, path, None)),
            Err(fault) => Err(fault),
        }
    }
}

// The path before the names of the files of this base folder, its state, and a key for its digests. Its files have no
// second path then.
fn probed<'a>(rt: &HostRuntime, base: &'a str) -> Result<(String, FolderProbe), Fault<'a>> {
    let strange = is_strange(rt, base)?;
    match folder_path(rt, base) {
        Ok(path) => match probed_at(rt, base, path.as_str(), strange) {
            Ok(found) => Ok((path, found)),
            Err(fault) => Err(fault),
        },
        Err(_) => Err(Fault::OutOfMemory),
    }
}

fn probed_at<'a>(
    rt: &HostRuntime,
    base: &'a str,
    path: &str,
    strange: bool,
) -> Result<FolderProbe, Fault<'a>> {
    break_hard_links(rt, base, path, strange)?;
    match drawn_key(rt) {
        Ok(key) => Ok(FolderProbe { strange, key }),
        Err(fault) => Err(fault),
    }
}

// The path of a base file, with symbolic links followed. If they lead to no file, that is a fault when the base is
// written.
fn followed<'a>(rt: &HostRuntime, base: &'a str) -> Result<String, Fault<'a>> {
    match write_target(rt.alloc(), rt, base) {
        Ok(target) => Ok(target),
        Err(OutputFault::Memory) => Err(Fault::OutOfMemory),
        Err(OutputFault::Device) => match String::from_str(rt.alloc(), base) {
            Ok(path) => Ok(path),
            Err(_) => Err(Fault::OutOfMemory),
        },
    }
}

// Takes both locks. The link file is judged between them.
fn lock_both<'a, D: Disk, L: FileLock, K: FileLock>(
    rt: &HostRuntime,
    disk: &mut D,
    place: Place<'a>,
    locks: &mut Locks<L, K>,
) -> Result<(), Fault<'a>>
    requires { AreFree (L.held locks.old.links) (K.held locks.old.base) }
{
    match lock_and_read_links(rt.alloc(), disk, &mut locks.links, place.links) {
        Ok(_) => take_lock(&mut locks.base, place.base),
        Err(fault) => Err(fault),
    }
}
