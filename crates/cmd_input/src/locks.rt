//! Locks of files and folders, and the line that says that this run waits for one.
ghost use Rattle.std.specs.Prelude.{◌≡◌, ◌≤◌, None};
ghost use Rattle.disk_io.specs.{Device.Failed, declared.disk_error.DiskError.TheVariants.Device};

use crate::inputs::folder_fault;
use crate::paths::text_path;
use cmd_status::{Fault, FileLock, print_rest};
use disk_io::{DiskError, Watched};
use disk_system::parent_path;
use echo_addr::Items;
use echo_charset::push_word;
use std::alloc::AllocError;
use std::fs::{File, Metadata, TryLockError};
use std::io::{ErrorKind, IsTerminal};
use std::os::unix::fs::MetadataExt;
use std::{fs, io};

/// A file can't be used if so many files that were locked for it had lost their path.
const MOST_TRIES: u32 = 1_000;

/// The lock of a link file. It is held until this value is dropped.
#[derive(Drop)]
pub struct LinkLock<'r> {
    rt: &'r HostRuntime,
    file: Option<File>,
    path: Option<Items<u8>>,
    failures: u64,
}

impl<'r> LinkLock<'r> {
    /// The lock counts as not taken yet. But the file with this path is already locked, if possible, so that no other
    /// run changes the station from now on.
    pub fn ahead(rt: &'r HostRuntime, path: &str) -> LinkLock<'r>
        ensures { result.path ≡ None }
    {
        LinkLock {
            rt,
            file: locked_at(rt, path).ok(),
            path: None,
            failures: 0,
        }
    }

    // The locked file with this path: the one that is already locked, if it still has the path.
    fn locked(&mut self, path: &str) -> io::Result<File>
        ensures path { self.new.path ≡ self.old.path }
        ensures failures { self.new.failures ≡ self.old.failures }
    {
        match if_at(self.rt, self.file.take(), path) {
            Some(file) => Ok(file),
            None => locked_at(self.rt, path),
        }
    }
}

impl FileLock for LinkLock<'_> {
    ghost held = { λ lock. lock.path };

    ghost failures = { λ lock. lock.failures };

    fn lock(&mut self, path: &[u8]) -> Result<(), DiskError> {
        let kept = Items::new(Vec::from_slice(self.rt.alloc(), path)?);
        match self.locked(text_path(path)) {
            Ok(file) => {
                self.file = Some(file);
                self.path = Some(kept);
                Ok(())
            }
            Err(error) => Err(counted(&mut self.failures, &error)),
        }
    }
}

/// The lock of the base of a station, held until this value is dropped. Without a base it is the lock of the folder in
/// which a base file is made. If nothing there can be locked, or the base is the link file, that file's lock serves
/// for both. Each run takes the lock of a link file first, then this one, and none after it: so runs cannot wait for
/// each other.
#[derive(Drop)]
pub struct BaseLock<'r> {
    rt: &'r HostRuntime,
    links: &'r str,
    file: Option<File>,
    path: Option<Items<u8>>,
    failures: u64,
}

impl<'r> BaseLock<'r> {
    /// No lock is held yet. `links` is the path of the station's link file.
    pub fn new(rt: &'r HostRuntime, links: &'r str) -> BaseLock<'r>
        ensures { result.path ≡ None }
    {
        BaseLock {
            rt,
            links,
            file: None,
            path: None,
            failures: 0,
        }
    }
}

impl FileLock for BaseLock<'_> {
    ghost held = { λ lock. lock.path };

    ghost failures = { λ lock. lock.failures };

    fn lock(&mut self, path: &[u8]) -> Result<(), DiskError> {
        let kept = Items::new(Vec::from_slice(self.rt.alloc(), path)?);
        match locked_base(self.rt, self.links, text_path(path)) {
            Ok(file) => {
                self.file = file;
                self.path = Some(kept);
                Ok(())
            }
            Err(error) => Err(counted(&mut self.failures, &error)),
        }
    }
}

fn counted(failures: &mut u64, error: &io::Error) -> DiskError
    ensures later { failures.old ≤ failures.new }
    ensures failed { result ≡ Device → Failed failures.old failures.new }
{
    match error.kind() {
        ErrorKind::OutOfMemory => DiskError::Memory,
        _ => {
            *failures = failures.saturating_add(1);
            DiskError::Device
        }
    }
}

// The open and locked file with this path. If another file got the path while this run waited, that file is locked.
fn locked_at(rt: &HostRuntime, path: &str) -> io::Result<File> {
    'tries: for _ in 0..MOST_TRIES {
        let file = fs::open(rt, path)?;
        if lock_at_path(rt, &file, path)? {
            return Ok(file);
        }
    }
    Err(ErrorKind::Other.into())
}

// Locks an open file. Returns whether it still has the path.
fn lock_at_path(rt: &HostRuntime, file: &File, path: &str) -> io::Result<bool> {
    lock_file(rt, file, path)?;
    has_path(rt, file, path)
}

fn if_at(rt: &HostRuntime, file: Option<File>, path: &str) -> Option<File> {
    let file = file?;
    match has_path(rt, &file, path) {
        Ok(true) => Some(file),
        _ => None,
    }
}

fn has_path(rt: &HostRuntime, file: &File, path: &str) -> io::Result<bool> {
    Ok(are_same(&file.metadata()?, &fs::metadata(rt, path)?))
}

fn are_same(one: &Metadata, other: &Metadata) -> bool {
    (one.dev(), one.ino()) == (other.dev(), other.ino())
}

/// Whether both paths lead to one file or folder.
pub fn lead_to_one(rt: &HostRuntime, one: &str, other: &str) -> bool {
    match fs::metadata(rt, one) {
        Ok(found) => leads_to(rt, other, &found),
        Err(_) => false,
    }
}

fn leads_to(rt: &HostRuntime, path: &str, found: &Metadata) -> bool {
    match fs::metadata(rt, path) {
        Ok(other) => are_same(found, &other),
        Err(_) => false,
    }
}

// The open and locked base with this path, if it has its own lock. If there is no base, it is the folder, so that
// only one run makes the base. If another run made it before the folder was locked, that base is locked.
fn locked_base(rt: &HostRuntime, links: &str, path: &str) -> io::Result<Option<File>> {
    'tries: for _ in 0..MOST_TRIES {
        match locked_if_own(rt, links, path) {
            Err(error) if error.kind() == ErrorKind::NotFound => {}
            answer => return answer,
        }
        let folder = unless_missing(locked_at(rt, parent_path(path)))?;
        if !fs::exists(rt, path)? {
            return Ok(folder);
        }
    }
    Err(ErrorKind::Other.into())
}

fn unless_missing(found: io::Result<File>) -> io::Result<Option<File>> {
    match found {
        Ok(file) => Ok(Some(file)),
        Err(error) if error.kind() == ErrorKind::NotFound => Ok(None),
        Err(error) => Err(error),
    }
}

// A pipe is not opened, since that would wait for its writer.
fn locked_if_own(rt: &HostRuntime, links: &str, path: &str) -> io::Result<Option<File>> {
    let found = fs::metadata(rt, path)?;
    if has_own_lock(rt, links, &found) {
        Ok(Some(locked_at(rt, path)?))
    } else {
        Ok(None)
    }
}

// Whether a base is a file or a folder, and not the link file.
fn has_own_lock(rt: &HostRuntime, links: &str, base: &Metadata) -> bool {
    (base.is_file() || base.is_dir()) && !leads_to(rt, links, base)
}

/// Takes the lock of an open file, once no other run holds it. A wait is reported on standard error, if a terminal.
pub fn lock_file(rt: &HostRuntime, file: &File, path: &str) -> io::Result<()> {
    match file.try_lock() {
        Ok(()) => Ok(()),
        Err(TryLockError::WouldBlock) => {
            tell_waiting(rt, path);
            file.lock()
        }
        Err(TryLockError::Error(error)) => Err(error),
    }
}

/// The folder with this path, open under its own lock.
pub fn locked_folder<'a>(rt: &HostRuntime, folder: &'a str) -> Result<File, Fault<'a>> {
    let file = fs::open(rt, folder).map_err(|error| folder_fault(&error, folder))?;
    lock_file(rt, &file, folder).map_err(|_| Fault::CannotUse(folder))?;
    Ok(file)
}

fn tell_waiting(rt: &HostRuntime, path: &str) {
    let errors = rt.stderr();
    if errors.is_terminal() {
        if let Ok(mut line) = waiting_line(rt, path) {
            let _ = print_rest(&mut line, &mut Watched::new(errors));
        }
    }
}

fn waiting_line(rt: &HostRuntime, path: &str) -> Result<Vec<u8>, AllocError> {
    let mut line = Vec::new(rt.alloc());
    line.extend_from_slice(b"echonet: waiting for the lock of ")?;
    push_word(&mut line, path.as_bytes())?;
    line.push(b'\n')?;
    Ok(line)
}
