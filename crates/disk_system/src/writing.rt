//! Writes whole files. The bytes go to a staging file (`staging`) and are flushed to the disk. Then the file
//! gets its name at once. If a step fails, the staging file is removed, and the old file is unchanged.
ghost use Rattle.std.specs.{Prelude.◌≡◌, Prelude.take, Prelude.IfErr, Prelude.OnOk, Io.KnownBytes.Appends};
ghost use Rattle.disk_io.specs.Device.{Failed};
ghost use Rattle.disk_system.specs.declared.writing.OutputFault.TheVariants.{Device, Memory};

use crate::reading::is_missing;
use crate::staging::{OWNER_ALONE, make_staging, staging_name};
use disk_io::{Failure, Sink, Watched, send};
use std::alloc::{AllocError, Global};
use std::fs::OpenFile;
use std::io::ErrorKind;
use std::rt::Files;
use std::{fs, io};

/// Why a file was not written.
#[derive(Clone, Copy, Debug, PartialEq, Eq)]
pub enum OutputFault {
    /// The file system failed, or something has the name of a file that was to be new.
    Device,
    Memory,
}

/// A file to be written: its path, its bytes, how many first bytes show its kind, and its mode. The staging name has
/// the address of the system that writes it, such as `1.10.2`, so that no other system writes that file.
#[derive(Clone, Copy)]
pub struct NewFile<'a> {
    pub path: &'a str,
    pub own: &'a str,
    pub bytes: &'a [u8],
    pub known_by: usize,
    pub mode: u32,
}

impl From<AllocError> for OutputFault {
    ghost from_gives = { λ _ fault. fault ≡ Memory };

    fn from(_refused: AllocError) -> OutputFault {
        OutputFault::Memory
    }
}

impl From<Failure> for OutputFault {
    ghost from_gives = { λ _ fault. fault ≡ Device };

    fn from(_failed: Failure) -> OutputFault {
        OutputFault::Device
    }
}

impl From<io::Error> for OutputFault {
    fn from(error: io::Error) -> OutputFault {
        match error.kind() {
            ErrorKind::OutOfMemory => OutputFault::Memory,
            _ => OutputFault::Device,
        }
    }
}

/// A new file that has no name yet. Its bytes go to a staging file.
#[derive(Drop)]
pub struct StagedFile<F> {
    /// The staging file, to be written.
    pub device: Watched<F>,
    staging: String,
}

/// Begins a new file for this path, for its owner alone. Files of its kind begin with `start`. `own` is as in
/// `NewFile`.
pub fn begin_file<R: Files>(
    alloc: Global,
    files: &R,
    path: &str,
    own: &str,
    start: &[u8],
) -> Result<StagedFile<R::File>, OutputFault> {
    begin_with(alloc, files, path, own, start, OWNER_ALONE)
}

fn begin_with<R: Files>(
    alloc: Global,
    files: &R,
    path: &str,
    own: &str,
    start: &[u8],
    mode: u32,
) -> Result<StagedFile<R::File>, OutputFault> {
    let staging = staging_name(alloc, path, own)?;
    let file = make_staging(alloc, files, staging.as_str(), start, mode)?;
    Ok(StagedFile {
        device: Watched::new(file),
        staging,
    })
}

/// Flushes a file that was written to the disk, and gives it its name. If the path exists, that is a fault, and it
/// stays. It does not flush the folder: `flush_folder` does, once for many files.
pub fn name_file<R: Files>(
    files: &R,
    staged: StagedFile<R::File>,
    path: &str,
) -> Result<(), OutputFault> {
    let StagedFile { device, staging } = staged;
    let done = match device.into_inner().sync_all() {
        Ok(()) => give_new_name(files, staging.as_str(), path),
        Err(error) => Err(OutputFault::from(error)),
    };
    tidied(files, staging.as_str(), done)
}

/// Removes a file that was not written whole.
pub fn drop_file<R: Files>(files: &R, staged: StagedFile<R::File>) {
    let _ = fs::remove_file(files, staged.staging.as_str());
}

/// Makes a file of these bytes. If the path exists, that is a fault, and it stays. It does not flush the folder.
pub fn create_file<R: Files>(
    alloc: Global,
    files: &R,
    new: NewFile<'_>,
) -> Result<(), OutputFault> {
    let start = start_of(new.bytes, new.known_by);
    let mut staged = begin_with(alloc, files, new.path, new.own, start, new.mode)?;
    match put_bytes(&mut staged.device, new.bytes) {
        Ok(()) => name_file(files, staged, new.path),
        Err(fault) => {
            drop_file(files, staged);
            Err(fault)
        }
    }
}

/// Flushes a folder to the disk, so that a power cut removes no name from it.
pub fn flush_folder<R: Files>(files: &R, folder: &str) -> Result<(), OutputFault> {
    fs::open(files, folder)?.sync_all()?;
    Ok(())
}

/// Flushes the folder of the file with this path, or of the one that a symbolic link leads to. Then a power cut
/// leaves the present file at the path.
pub fn flush_path<R: Files>(alloc: Global, files: &R, path: &str) -> Result<(), OutputFault> {
    let target = write_target(alloc, files, path)?;
    flush_folder(files, parent_path(target.as_str()))
}

fn start_of(bytes: &[u8], known_by: usize) -> &[u8]
    ensures { result.now ≡ take known_by bytes.now }
{
    &bytes[..known_by.min(bytes.len())]
}

/// The folder of the file with this path.
pub fn parent_path(path: &str) -> &str {
    match path.rsplit_once('/') {
        Some(("", _)) => "/",
        Some((folder, _)) => folder,
        None => ".",
    }
}

fn give_new_name<R: Files>(files: &R, staging: &str, path: &str) -> Result<(), OutputFault> {
    fs::hard_link(files, staging, path)?;
    fs::remove_file(files, staging)?;
    Ok(())
}

fn put_bytes<W: Sink>(device: &mut W, bytes: &[u8]) -> Result<(), OutputFault>
    ensures bytes { OnOk result (Appends (W.contents device.old) (W.contents device.new) bytes.now) }
    ensures err { IfErr result (λ fault. (fault ≡ Device) × Failed (W.failures device.old) (W.failures device.new)) }
{
    let mut sent = 0;
    send(device, bytes, &mut sent)?;
    Ok(())
}

fn tidied<R: Files>(
    files: &R,
    staging: &str,
    done: Result<(), OutputFault>,
) -> Result<(), OutputFault>
    ensures { result ≡ done }
{
    if done.is_err() {
        let _ = fs::remove_file(files, staging);
    }
    done
}

/// The path of the file that is to be written: that which a symbolic link leads to, else the path.
pub fn write_target<R: Files>(alloc: Global, files: &R, path: &str) -> Result<String, OutputFault> {
    match fs::symlink_metadata(files, path) {
        Ok(found) if found.is_symlink() => Ok(files.canonicalize(alloc, path)?.into_string()),
        Ok(_) => Ok(String::from_str(alloc, path)?),
        Err(error) if is_missing(&error) => Ok(String::from_str(alloc, path)?),
        Err(error) => Err(OutputFault::from(error)),
    }
}
