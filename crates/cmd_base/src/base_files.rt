//! The files of the system for a command that replaces a base file. The staging file gets the mode and owner of the
//! base file, and its own lock. It replaces no file except one that a stopped run left, and it is removed if the command
//! fails. The lock of a file that became the base file is held as long as these files.

use disk_system::{Access, OutputFault, check_left, give_access, make_new, replaced_access};
use std::alloc::Allocator;
use std::cell::Cell;
use std::fs::{File, Metadata, OpenOptions};
use std::io::ErrorKind;
use std::rt::Files;
use std::{fs, io};

/// The first bytes of every base file.
pub const BASE_START: &[u8] = b"ECHOBAS";

/// The end of a staging path.
const BESIDE: &str = "~.new";

/// The files of the system.
#[derive(Drop)]
pub struct BaseFiles<'r> {
    rt: &'r HostRuntime,
    // The staging file of the base file, until it replaces that.
    made: Cell<Option<Made>>,
    // The file that replaced the base file. It stays open for its lock.
    placed: Cell<Option<Made>>,
}

#[derive(Drop)]
struct Made {
    path: String,
    file: File,
}

impl<'r> BaseFiles<'r> {
    pub fn new(rt: &'r HostRuntime) -> BaseFiles<'r> {
        BaseFiles {
            rt,
            made: Cell::new(None),
            placed: Cell::new(None),
        }
    }

    /// Removes the staging file, unless it replaced the base file.
    pub fn tidy(&self) {
        if let Some(made) = self.made.take() {
            let _ = fs::remove_file(self.rt, made.path.as_str());
        }
    }

    // A symbolic link is not replaced: if it leads to a file, that file's path is returned.
    fn access_at(&self, target: &str) -> io::Result<Option<Access>> {
        if is_link(self.rt, target) {
            return Err(ErrorKind::Other.into());
        }
        replaced_access(self.rt, target).map_err(system_error)
    }

    // No other run has this new file, so it is locked at once, where files have locks.
    fn make(&self, path: &str, target: &str) -> io::Result<File> {
        let access = self.access_at(target)?;
        let made = self.new_file(path)?;
        let _ = made.file.try_lock();
        let file = made.opened_with(access);
        self.made.set(Some(made));
        file
    }

    fn new_file(&self, path: &str) -> io::Result<Made> {
        let kept = String::from_str(self.rt.alloc(), path)?;
        match make_new(self.rt, path) {
            Ok(file) => Ok(Made { path: kept, file }),
            Err(error) => Err(error),
        }
    }

    fn made_at(&self, path: &str) -> Option<io::Result<File>> {
        let made = self.made.take()?;
        let file = if made.path.as_str() == path {
            Some(made.file.try_clone())
        } else {
            None
        };
        self.made.set(Some(made));
        file
    }

    // An error, unless a stopped run left this staging file and its base file may be replaced.
    fn check_staging(&self, path: &str, target: &str) -> io::Result<()> {
        self.rt.symlink_metadata(path)?;
        self.access_at(target)?;
        check_left(self.rt.alloc(), self.rt, path, BASE_START).map_err(system_error)
    }
}

impl Made {
    fn opened_with(&self, access: Option<Access>) -> io::Result<File> {
        if let Some(access) = access {
            give_access(&self.file, access)?;
        }
        self.file.try_clone()
    }
}

fn is_link(rt: &HostRuntime, path: &str) -> bool {
    match fs::symlink_metadata(rt, path) {
        Ok(found) => found.is_symlink(),
        Err(_) => false,
    }
}

/// The path that the staging file with this path replaces.
pub fn target_staging(path: &str) -> Option<&str> {
    let front = path.strip_suffix(BESIDE)?;
    let (target, _) = front.rsplit_once(".~")?;
    Some(target)
}

/// A fault as an error of the system.
pub fn system_error(fault: OutputFault) -> io::Error {
    match fault {
        OutputFault::Memory => ErrorKind::OutOfMemory.into(),
        OutputFault::Device => ErrorKind::Other.into(),
    }
}

impl Files for BaseFiles<'_> {
    type File = File;

    type Dir = <HostRuntime as Files>::Dir;

    fn open_file(&self, how: &OpenOptions, path: &str) -> io::Result<File> {
        if let Some(file) = self.made_at(path) {
            return file;
        }
        match target_staging(path) {
            Some(target) if how.asks_create_new() => self.make(path, target),
            _ => self.rt.open_file(how, path),
        }
    }

    fn open_dir(&self, path: &str) -> io::Result<<HostRuntime as Files>::Dir> {
        self.rt.open_dir(path)
    }

    fn metadata(&self, path: &str) -> io::Result<Metadata> {
        self.rt.metadata(path)
    }

    fn symlink_metadata(&self, path: &str) -> io::Result<Metadata> {
        self.rt.symlink_metadata(path)
    }

    fn copy(&self, from: &str, to: &str) -> io::Result<u64> {
        self.rt.copy(from, to)
    }

    // The new file replaces the old one, and is locked like that.
    fn rename(&self, from: &str, to: &str) -> io::Result<()> {
        self.rt.rename(from, to)?;
        self.placed.set(self.made.take());
        Ok(())
    }

    // A file at a staging path stays, unless a stopped run left it and its base file may be replaced.
    fn remove_file(&self, path: &str) -> io::Result<()> {
        if let Some(target) = target_staging(path) {
            self.check_staging(path, target)?;
        }
        self.rt.remove_file(path)
    }

    fn create_dir(&self, path: &str) -> io::Result<()> {
        self.rt.create_dir(path)
    }

    fn remove_dir(&self, path: &str) -> io::Result<()> {
        self.rt.remove_dir(path)
    }

    fn remove_dir_all<B: Allocator>(&self, alloc: B, path: &str) -> io::Result<()> {
        self.rt.remove_dir_all(alloc, path)
    }
}
