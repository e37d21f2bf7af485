//! Files of a JAM base, by the path of the base. A symbolic link at such a path is not followed. A fault here has no
//! path: the callers add it. So it is of a small type, and its proofs are short.

use disk_io::Watched;
use disk_system::{InputFault, OutputFault, read_whole};
use std::alloc::AllocError;
use std::fs::{File, OpenOptions};
use std::os::unix::fs::{FileExt, MetadataExt};
use std::{fs, io};

pub(crate) fn with_end(rt: &HostRuntime, path: &str, end: &str) -> Result<String, AllocError> {
    let mut whole = String::from_str(rt.alloc(), path)?;
    whole.push_str(end)?;
    Ok(whole)
}

/// Opens one of the files, which has to exist, to read and to write.
pub(crate) fn open_file(rt: &HostRuntime, path: &str, end: &str) -> Result<File, OutputFault> {
    match with_end(rt, path, end) {
        Ok(path) => open_named(rt, path.as_str()),
        Err(_) => Err(OutputFault::Memory),
    }
}

/// Opens the file, or makes one without bytes and with the mode of the umask.
pub(crate) fn open_or_make(rt: &HostRuntime, path: &str, end: &str) -> Result<File, OutputFault> {
    match with_end(rt, path, end) {
        Ok(path) => make_or_open(rt, path.as_str()),
        Err(_) => Err(OutputFault::Memory),
    }
}

fn make_or_open(rt: &HostRuntime, path: &str) -> Result<File, OutputFault> {
    let new = OpenOptions::new()
        .read(true)
        .write(true)
        .create_new(true)
        .open(rt, path);
    match new {
        Ok(file) => Ok(file),
        Err(error) if error.kind() == io::ErrorKind::AlreadyExists => open_named(rt, path),
        Err(error) => Err(OutputFault::from(error)),
    }
}

fn open_named(rt: &HostRuntime, path: &str) -> Result<File, OutputFault> {
    if !fs::symlink_metadata(rt, path)?.is_file() {
        return Err(OutputFault::Device);
    }
    let file = OpenOptions::new().read(true).write(true).open(rt, path)?;
    match check_named(rt, path, &file) {
        Ok(()) => Ok(file),
        Err(fault) => Err(fault),
    }
}

// A fault, unless the open file still has the path.
fn check_named(rt: &HostRuntime, path: &str, file: &File) -> Result<(), OutputFault> {
    let (found, named) = (file.metadata()?, fs::symlink_metadata(rt, path)?);
    if found.dev() == named.dev() && found.ino() == named.ino() {
        Ok(())
    } else {
        Err(OutputFault::Device)
    }
}

pub(crate) fn check_file(
    rt: &HostRuntime,
    path: &str,
    end: &str,
    file: &File,
) -> Result<(), OutputFault> {
    match with_end(rt, path, end) {
        Ok(path) => check_named(rt, path.as_str(), file),
        Err(_) => Err(OutputFault::Memory),
    }
}

pub(crate) fn bytes_of(rt: &HostRuntime, file: &File) -> Result<Vec<u8>, OutputFault> {
    match read_whole(rt.alloc(), &mut Watched::new(file), usize::MAX) {
        Ok(bytes) => Ok(bytes),
        Err(InputFault::Memory) => Err(OutputFault::Memory),
        Err(_) => Err(OutputFault::Device),
    }
}

/// Writes bytes at a place, and flushes them.
pub(crate) fn write_at(file: &File, bytes: &[u8], at: u64) -> Result<(), OutputFault> {
    if bytes.is_empty() {
        return Ok(());
    }
    file.write_all_at(bytes, at)?;
    file.sync_all()?;
    Ok(())
}
