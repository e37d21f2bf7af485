//! The staging file: its name, and how it is made.

use crate::owned::Owned;
use crate::writing::OutputFault;
use disk_io::{Watched, fill_buffer};
use std::alloc::{AllocError, Global};
use std::fs::{OpenFile, OpenOptions, Permissions};
use std::io::ErrorKind;
use std::os::unix::fs::{MetadataExt, OpenOptionsExt};
use std::rt::Files;
use std::{fs, io};

/// The mode of a file that only its owner may read and write. A staging file has it until it gets that of the file that
/// it replaces.
pub const OWNER_ALONE: u32 = 0o600;

/// The mode of a file that all may use whom the umask does not exclude.
pub const BY_UMASK: u32 = 0o666;

/// The mode and owner that a file keeps when it is replaced.
#[derive(Drop)]
pub struct Access {
    pub permissions: Permissions,
    pub owner: u32,
    pub group: u32,
}

pub(crate) fn staging_name(alloc: Global, path: &str, own: &str) -> Result<String, AllocError> {
    format!(in alloc; "{path}.~{own}~.new")
}

/// Removes the staging file of a stopped run. Any other file with the name stays, and is a fault.
pub(crate) fn make_staging<R: Files>(
    alloc: Global,
    files: &R,
    staging: &str,
    start: &[u8],
    mode: u32,
) -> Result<R::File, OutputFault> {
    match make_with(files, staging, mode) {
        Err(error) if error.kind() == ErrorKind::AlreadyExists => {
            check_left(alloc, files, staging, start)?;
            fs::remove_file(files, staging)?;
            Ok(make_with(files, staging, mode)?)
        }
        made => Ok(made?),
    }
}

/// Makes a file that was not there, for its owner alone, and follows no link.
pub fn make_new<R: Files>(files: &R, path: &str) -> io::Result<R::File> {
    make_with(files, path, OWNER_ALONE)
}

fn make_with<R: Files>(files: &R, path: &str, mode: u32) -> io::Result<R::File> {
    OpenOptions::new()
        .write(true)
        .create_new(true)
        .mode(mode)
        .open(files, path)
}

/// A fault, unless a stopped run left the file. That is a regular file of this user, whatever it holds,
/// since a power cut can leave zeros instead of its bytes. A file of another user has to begin like the
/// new bytes, or be too short to tell.
pub fn check_left<R: Files>(
    alloc: Global,
    files: &R,
    path: &str,
    start: &[u8],
) -> Result<(), OutputFault> {
    let found = fs::symlink_metadata(files, path)?;
    if !found.is_file() {
        return Err(OutputFault::Device);
    }
    if is_of_this_user(files, found.uid()) {
        return Ok(());
    }
    let mut first = vec![in alloc; 0u8; start.len()]?;
    let mut device = Watched::new(fs::open(files, path)?);
    let came = fill_buffer(&mut device, first.as_mut_slice(), 0)?;
    first.truncate(came);
    if start.starts_with(first.as_slice()) {
        Ok(())
    } else {
        Err(OutputFault::Device)
    }
}

/// Removes the staging file of a stopped run, if it is a regular file of this user. One that cannot be removed stays.
pub fn remove_left<R: Files>(files: &R, path: &str) {
    if let Ok(found) = fs::symlink_metadata(files, path) {
        if found.is_file() && is_of_this_user(files, found.uid()) {
            let _ = fs::remove_file(files, path);
        }
    }
}

fn is_of_this_user<R: Files>(files: &R, owner: u32) -> bool {
    match fs::metadata(files, "/proc/self") {
        Ok(this_run) => this_run.uid() == owner,
        Err(_) => false,
    }
}

/// The access of the file to be replaced, if there is one. It has to be a regular file that may be written.
pub fn replaced_access<R: Files>(files: &R, path: &str) -> Result<Option<Access>, OutputFault> {
    match fs::metadata(files, path) {
        Ok(found) if found.is_file() && !found.permissions().readonly() => {
            OpenOptions::new().write(true).open(files, path)?;
            Ok(Some(Access {
                permissions: found.permissions(),
                owner: found.uid(),
                group: found.gid(),
            }))
        }
        Ok(_) => Err(OutputFault::Device),
        Err(error) if error.kind() == ErrorKind::NotFound => Ok(None),
        Err(error) => Err(OutputFault::from(error)),
    }
}

/// Gives a file the access of the one that it replaces. It sets owner and group if that is allowed.
pub fn give_access<F: OpenFile + Owned>(file: &F, access: Access) -> io::Result<()> {
    file.set_owner(access.owner, access.group);
    file.set_permissions(access.permissions)
}
