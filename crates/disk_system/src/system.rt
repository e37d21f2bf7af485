//! The calls of the system. Contracts do not know what they do: read this module. After a failed sync each call fails.
//! An open file is still at its path: only the calls of a disk give paths to other files, and those close all open
//! files first.
ghost use Rattle.std.specs.Prelude.{◌≡◌, ◌≤◌, length, IfOk, IsSome, None, OnErr, OnOk};

use crate::kept::{KeptFiles, Placed};
use disk_io::DiskError;
use std::fs::{OpenFile, OpenOptions};
use std::io::{ErrorKind, Read, Seek, SeekFrom, Write};
use std::rt::Files;
use std::{fs, io, str};

/// The files of the system, as a disk calls them.
#[derive(Drop)]
pub(crate) struct Calls<R: Files + Drop> {
    // None after a failed sync: the system may have dropped written bytes, and will not report it again.
    files: Option<R>,
    kept: KeptFiles<R::File>,
}

impl<R: Files + Drop> Calls<R> {
    pub(crate) fn new(files: R) -> Calls<R> {
        Calls {
            files: Some(files),
            kept: KeptFiles::none(),
        }
    }

    pub(crate) fn exists(&self, path: &[u8]) -> Result<bool, DiskError>
        ensures made { OnOk result (IsSome self.now.files) }
    {
        match find(&self.files, path) {
            Ok(found) => Ok(found),
            Err(error) => Err(fault(error)),
        }
    }

    pub(crate) fn len(&self, path: &[u8]) -> Result<usize, DiskError>
        ensures made { OnOk result (IsSome self.now.files) }
    {
        match measure(&self.files, path) {
            Ok(len) => Ok(len),
            Err(error) => Err(fault(error)),
        }
    }

    pub(crate) fn read_at(
        &mut self,
        path: &[u8],
        at: usize,
        buf: &mut [u8],
    ) -> Result<usize, DiskError>
        ensures bound { IfOk result (λ count. count ≤ length buf.new) }
        ensures made { OnOk result (IsSome self.old.files) }
        ensures stays { self.new.files ≡ self.old.files }
    {
        match read(&self.files, &mut self.kept, path, at, buf) {
            Ok(count) => Ok(count),
            Err(error) => Err(fault(error)),
        }
    }

    pub(crate) fn write_at(&mut self, path: &[u8], at: usize, bytes: &[u8]) -> Result<(), DiskError>
        ensures made { OnOk result (IsSome self.old.files) }
        ensures stays { self.new.files ≡ self.old.files }
    {
        match write(&self.files, &mut self.kept, path, at, bytes) {
            Ok(()) => Ok(()),
            Err(error) => Err(fault(error)),
        }
    }

    pub(crate) fn create(&mut self, path: &[u8]) -> Result<(), DiskError>
        ensures made { OnOk result (IsSome self.old.files) }
        ensures stays { self.new.files ≡ self.old.files }
    {
        self.kept = KeptFiles::none();
        match make(&self.files, path) {
            Ok(()) => Ok(()),
            Err(error) => Err(fault(error)),
        }
    }

    pub(crate) fn rename(&mut self, from: &[u8], to: &[u8]) -> Result<(), DiskError>
        ensures made { OnOk result (IsSome self.old.files) }
        ensures stays { self.new.files ≡ self.old.files }
    {
        self.kept = KeptFiles::none();
        match give_path(&self.files, from, to) {
            Ok(()) => Ok(()),
            Err(error) => Err(fault(error)),
        }
    }

    pub(crate) fn link(&mut self, from: &[u8], to: &[u8]) -> Result<bool, DiskError>
        ensures made { OnOk result (IsSome self.old.files) }
        ensures stays { self.new.files ≡ self.old.files }
    {
        self.kept = KeptFiles::none();
        match add_path(&self.files, from, to) {
            Ok(linked) => Ok(linked),
            Err(error) => Err(fault(error)),
        }
    }

    pub(crate) fn remove(&mut self, path: &[u8]) -> Result<(), DiskError>
        ensures made { OnOk result (IsSome self.old.files) }
        ensures stays { self.new.files ≡ self.old.files }
    {
        self.kept = KeptFiles::none();
        match take_path(&self.files, path) {
            Ok(()) => Ok(()),
            Err(error) => Err(fault(error)),
        }
    }

    pub(crate) fn sync(&mut self, path: &[u8]) -> Result<(), DiskError>
        ensures made { OnOk result (IsSome self.old.files) }
        ensures stopped { OnErr result (self.new.files ≡ None) }
    {
        match flush(&self.files, path) {
            Ok(()) => Ok(()),
            Err(error) => {
                self.stop();
                Err(fault(error))
            }
        }
    }

    pub(crate) fn sync_folder(&mut self, folder: &[u8]) -> Result<(), DiskError>
        ensures made { OnOk result (IsSome self.old.files) }
        ensures stopped { OnErr result (self.new.files ≡ None) }
    {
        let folder = if folder.is_empty() {
            b".".as_slice()
        } else {
            folder
        };
        self.sync(folder)
    }

    fn stop(&mut self)
        ensures { self.new.files ≡ None }
    {
        self.files = None;
        self.kept = KeptFiles::none();
    }
}

fn fault(error: io::Error) -> DiskError {
    match error.kind() {
        ErrorKind::OutOfMemory => DiskError::Memory,
        _ => DiskError::Device,
    }
}

fn usable<R: Files>(files: &Option<R>) -> io::Result<&R>
    ensures { OnOk result (IsSome files.now) }
{
    match files {
        Some(files) => Ok(files),
        None => Err(ErrorKind::Other.into()),
    }
}

fn name(path: &[u8]) -> io::Result<&str> {
    match str::from_utf8(path) {
        Ok(name) => Ok(name),
        Err(_) => Err(ErrorKind::InvalidInput.into()),
    }
}

fn find<R: Files>(files: &Option<R>, path: &[u8]) -> io::Result<bool>
    ensures { OnOk result (IsSome files.now) }
{
    let files = usable(files)?;
    match fs::metadata(files, name(path)?) {
        Ok(found) if found.is_file() => Ok(true),
        Ok(_) => Err(ErrorKind::Unsupported.into()),
        Err(error) if error.kind() == ErrorKind::NotFound => Ok(false),
        Err(error) => Err(error),
    }
}

fn measure<R: Files>(files: &Option<R>, path: &[u8]) -> io::Result<usize>
    ensures { OnOk result (IsSome files.now) }
{
    let files = usable(files)?;
    Ok(fs::metadata(files, name(path)?)?.len() as usize)
}

fn go_to<F: Seek + Drop>(placed: &mut Placed<F>, at: u64) -> io::Result<()> {
    if placed.at != at {
        placed.at = placed.file.seek(SeekFrom::Start(at))?;
    }
    Ok(())
}

fn read<R: Files>(
    files: &Option<R>,
    kept: &mut KeptFiles<R::File>,
    path: &[u8],
    at: usize,
    buf: &mut [u8],
) -> io::Result<usize>
    ensures bound { IfOk result (λ count. count ≤ length buf.new) }
    ensures made { OnOk result (IsSome files.now) }
{
    let files = usable(files)?;
    let mut placed = match kept.take_read(path) {
        Some(placed) => placed,
        None => Placed {
            file: fs::open(files, name(path)?)?,
            at: 0,
        },
    };
    go_to(&mut placed, at as u64)?;
    let count = placed.file.read(buf)?;
    placed.at = (at as u64).saturating_add(count as u64);
    kept.keep_read(path, placed);
    Ok(count)
}

fn open_to_write<R: Files>(files: &R, path: &[u8]) -> io::Result<R::File> {
    OpenOptions::new().write(true).open(files, name(path)?)
}

fn write<R: Files>(
    files: &Option<R>,
    kept: &mut KeptFiles<R::File>,
    path: &[u8],
    at: usize,
    bytes: &[u8],
) -> io::Result<()>
    ensures { OnOk result (IsSome files.now) }
{
    let files = usable(files)?;
    let mut placed = match kept.take_written(path) {
        Some(placed) => placed,
        None => Placed {
            file: open_to_write(files, path)?,
            at: 0,
        },
    };
    go_to(&mut placed, at as u64)?;
    placed.file.write_all(bytes)?;
    placed.at = (at as u64).saturating_add(bytes.len() as u64);
    kept.keep_written(path, placed);
    Ok(())
}

// It removes an existing file first, so that other paths keep it.
fn make<R: Files>(files: &Option<R>, path: &[u8]) -> io::Result<()>
    ensures { OnOk result (IsSome files.now) }
{
    let (files, name) = (usable(files)?, name(path)?);
    match fs::remove_file(files, name) {
        Err(error) if error.kind() != ErrorKind::NotFound => return Err(error),
        _ => {}
    }
    OpenOptions::new()
        .write(true)
        .create_new(true)
        .open(files, name)?;
    Ok(())
}

fn give_path<R: Files>(files: &Option<R>, from: &[u8], to: &[u8]) -> io::Result<()>
    ensures { OnOk result (IsSome files.now) }
{
    let files = usable(files)?;
    fs::rename(files, name(from)?, name(to)?)?;
    Ok(())
}

fn add_path<R: Files>(files: &Option<R>, from: &[u8], to: &[u8]) -> io::Result<bool>
    ensures { OnOk result (IsSome files.now) }
{
    let files = usable(files)?;
    match fs::hard_link(files, name(from)?, name(to)?) {
        Ok(()) => Ok(true),
        Err(error) if error.kind() == ErrorKind::AlreadyExists => Ok(false),
        Err(error) => Err(error),
    }
}

fn take_path<R: Files>(files: &Option<R>, path: &[u8]) -> io::Result<()>
    ensures { OnOk result (IsSome files.now) }
{
    let files = usable(files)?;
    fs::remove_file(files, name(path)?)?;
    Ok(())
}

fn flush<R: Files>(files: &Option<R>, path: &[u8]) -> io::Result<()>
    ensures { OnOk result (IsSome files.now) }
{
    let files = usable(files)?;
    fs::open(files, name(path)?)?.sync_all()?;
    Ok(())
}
