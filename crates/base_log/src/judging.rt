//! The contents of a folder's files, and whether they hold a base. Nothing is changed.
ghost use Rattle.std.specs.Prelude.{◌≡◌, ◌≤◌, ◌<◌, ◌↔◌, length, IfOk, IsErrOf, IsSome, IsTrue, OnOk};
ghost use Rattle.disk_io.specs.{Disk.Honestly, Disk.bytes_in, Runs.ChangesNothing, Runs.HasCause};
ghost use Rattle.base_log.specs.Standing.{HasNoBytes, IsBroken, IsLost, Represents, base_at};
ghost use Rattle.base_log.specs.{Log.IsShutAt, Names.AreNames, Names.folder_of, Opening.HasFiles, Opening.HasFolderCause, Reading.IsLogIn, Reading.IsRead};

use crate::folder_error::FolderError;
use crate::log::{CommitRecord, Log, last_record};
use crate::names::{Names, log_path};
use disk_io::{Disk, DiskError, read_file};
use std::alloc::Global;

/// How many numbers the files have.
const NUMBERS: u8 = 10;

fn log_bytes<D: Disk>(alloc: Global, disk: &mut D, log: &[u8]) -> Result<Vec<u8>, DiskError>
    ensures bytes { Honestly (D.state disk.new) (IfOk result (λ bytes. bytes.items ≡ bytes_in ((D.state disk.old).seen log.now))) }
    ensures quiet { ChangesNothing (D.state disk.old) (D.state disk.new) }
    ensures cause { HasCause (D.failures disk.old) (D.failures disk.new) result }
{
    if !disk.exists(log)? {
        return Ok(Vec::new(alloc));
    }
    read_file(alloc, disk, log)
}

/// Reads the log of a folder: a path that ends in a slash or is empty.
pub fn read_log<D: Disk>(alloc: Global, disk: &mut D, folder: &[u8]) -> Result<Log, DiskError>
    ensures log { Honestly (D.state disk.new) (IfOk result (IsLogIn folder.now (D.state disk.old).seen)) }
    ensures read { IfOk result IsRead }
    ensures within { IfOk result (λ log. log.end.records_len ≤ length log.bytes.items) }
    ensures quiet { ChangesNothing (D.state disk.old) (D.state disk.new) }
    ensures cause { HasCause (D.failures disk.old) (D.failures disk.new) result }
{
    let path = log_path(alloc, folder)?;
    let bytes = log_bytes(alloc, disk, &path)?;
    let end = last_record(&bytes);
    Ok(Log { bytes, end })
}

/// The size of the file; none if it does not exist.
pub fn file_len<D: Disk>(disk: &mut D, path: &[u8]) -> Result<usize, DiskError>
    ensures len { Honestly (D.state disk.new) (IfOk result (λ len. len ≡ length (bytes_in ((D.state disk.old).seen path.now)))) }
    ensures quiet { ChangesNothing (D.state disk.old) (D.state disk.new) }
    ensures cause { HasCause (D.failures disk.old) (D.failures disk.new) result }
{
    if disk.exists(path)? {
        disk.len(path)
    } else {
        Ok(0)
    }
}

fn is_bare<D: Disk>(disk: &mut D, names: &Names) -> Result<bool, DiskError>
    ensures bare { Honestly (D.state disk.new) (IfOk result (λ bare. IsTrue bare
        ↔ ((length (bytes_in ((D.state disk.old).seen names.now.messages.items)) ≡ 0)
        × (length (bytes_in ((D.state disk.old).seen names.now.keys.items)) ≡ 0)))) }
    ensures quiet { ChangesNothing (D.state disk.old) (D.state disk.new) }
    ensures cause { HasCause (D.failures disk.old) (D.failures disk.new) result }
{
    let messages = file_len(disk, &names.messages)?;
    let keys = file_len(disk, &names.keys)?;
    Ok(messages == 0 && keys == 0)
}

fn has_no_bytes<D: Disk>(alloc: Global, disk: &mut D, folder: &[u8]) -> Result<bool, DiskError>
    ensures none { Honestly (D.state disk.new) (IfOk result (λ none. IsTrue none ↔ HasNoBytes folder.now (D.state disk.old).seen)) }
    ensures quiet { ChangesNothing (D.state disk.old) (D.state disk.new) }
    ensures cause { HasCause (D.failures disk.old) (D.failures disk.new) result }
{
    'numbers: for number in 0..NUMBERS {
        let names = Names::new(alloc, folder, number)?;
        if !is_bare(disk, &names)? {
            return Ok(false);
        }
    }
    Ok(true)
}

fn has_bytes<D: Disk>(disk: &mut D, path: &[u8], count: usize) -> Result<bool, DiskError>
    ensures has { Honestly (D.state disk.new) (IfOk result (λ has. IsTrue has
        ↔ (IsSome ((D.state disk.old).seen path.now) × (count ≤ length (bytes_in ((D.state disk.old).seen path.now)))))) }
    ensures quiet { ChangesNothing (D.state disk.old) (D.state disk.new) }
    ensures cause { HasCause (D.failures disk.old) (D.failures disk.new) result }
{
    if !disk.exists(path)? {
        return Ok(false);
    }
    Ok(disk.len(path)? >= count)
}

fn has_files<D: Disk>(
    disk: &mut D,
    names: &Names,
    recorded: CommitRecord,
) -> Result<bool, DiskError>
    requires { AreNames names.now recorded.number }
    ensures has { Honestly (D.state disk.new) (IfOk result (λ has. IsTrue has ↔ HasFiles (folder_of names.now) (D.state disk.old).seen recorded)) }
    ensures quiet { ChangesNothing (D.state disk.old) (D.state disk.new) }
    ensures cause { HasCause (D.failures disk.old) (D.failures disk.new) result }
{
    if !has_bytes(disk, &names.messages, recorded.messages)? {
        return Ok(false);
    }
    has_bytes(disk, &names.keys, recorded.keys)
}

// Without a closed gate after its records the folder has to be new.
fn judge_new<D: Disk>(
    alloc: Global,
    disk: &mut D,
    folder: &[u8],
    log: &Log,
) -> Result<(), FolderError>
    requires log { Honestly (D.state disk.old) (IsLogIn folder.now (D.state disk.old).seen log.now) }
    requires read { IsRead log.now }
    requires ajar { IsShutAt log.now.end.records_len log.now.bytes.items → ⊥ }
    ensures represented { Honestly (D.state disk.new) (OnOk result (Represents folder.now (base_at (D.state disk.old) folder.now log.now.end.recorded) (D.state disk.old).seen)) }
    ensures lost { Honestly (D.state disk.new) (IsErrOf result FolderError.Lost → IsLost folder.now (D.state disk.old).seen) }
    ensures corrupt { Honestly (D.state disk.new) (IsErrOf result FolderError.Corrupt → IsBroken folder.now (D.state disk.old).seen) }
    ensures quiet { ChangesNothing (D.state disk.old) (D.state disk.new) }
    ensures cause { HasFolderCause (D.failures disk.old) (D.failures disk.new) result }
{
    let size = log.bytes.len();
    if size > 1 {
        return Err(FolderError::Corrupt);
    }
    if has_no_bytes(alloc, disk, folder)? {
        return Ok(());
    }
    if size == 0 {
        return Err(FolderError::Lost);
    }
    Err(FolderError::Corrupt)
}

/// Whether the files of a folder with this log hold a base. The fault is `Lost` if the log is gone or empty and other
/// files have bytes. It is `Corrupt` if the log or a file is cut short.
pub fn judge<D: Disk>(
    alloc: Global,
    disk: &mut D,
    folder: &[u8],
    log: &Log,
) -> Result<(), FolderError>
    requires log { Honestly (D.state disk.old) (IsLogIn folder.now (D.state disk.old).seen log.now) }
    requires read { IsRead log.now }
    ensures digit { OnOk result (log.now.end.recorded.number < 10) }
    ensures represented { Honestly (D.state disk.new) (OnOk result (Represents folder.now (base_at (D.state disk.old) folder.now log.now.end.recorded) (D.state disk.old).seen)) }
    ensures lost { Honestly (D.state disk.new) (IsErrOf result FolderError.Lost → IsLost folder.now (D.state disk.old).seen) }
    ensures corrupt { Honestly (D.state disk.new) (IsErrOf result FolderError.Corrupt → IsBroken folder.now (D.state disk.old).seen) }
    ensures quiet { ChangesNothing (D.state disk.old) (D.state disk.new) }
    ensures cause { HasFolderCause (D.failures disk.old) (D.failures disk.new) result }
{
    let recorded = log.end.recorded;
    if recorded.number >= NUMBERS {
        return Err(FolderError::Corrupt);
    }
    if !log.is_shut() {
        return judge_new(alloc, disk, folder, log);
    }
    if log.end.records_len == 0 {
        return Ok(());
    }
    let names = Names::new(alloc, folder, recorded.number)?;
    if !has_files(disk, &names, recorded)? {
        return Err(FolderError::Corrupt);
    }
    Ok(())
}
