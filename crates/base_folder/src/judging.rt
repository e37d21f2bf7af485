//! The contents of a base folder's log, and the faults of a folder.
ghost use Rattle.std.specs.Prelude.{◌≡◌, ◌≤◌, ◌<◌, ◌/◌, length, take, drop, IfErr, IfOk, OnOk};
ghost use Rattle.disk_io.specs.{Disk.Honestly, Disk.bytes_in, Runs.ChangesNothing, Runs.HasCause};
ghost use Rattle.base_log.specs.{Names.keys_of, Names.log_of, Names.messages_of, Reading.IsLogIn, Reading.IsRead, Standing.Represents, Standing.base_at};
ghost use Rattle.base_folder.specs.{OpenError.HasUnreadCause, OpenError.IsWrong, Wrong.AreWhole, Wrong.IsFolderLog, Wrong.is_foreign, Wrong.is_no_log};

use crate::open_error::OpenError;
use base_file::BaseFault;
use base_log::{CommitRecord, End, FolderError, Log, Names, file_len, judge, read_log};
use base_store::message_end;
use disk_io::{Disk, DiskError, read_part};
use std::alloc::Global;

/// How many bytes of the keys belong to one message.
const ENTRY: usize = 16;

/// How many bytes a stopped commit leaves after the records: a closed gate, and a record with its own gate.
const LEFT_BEHIND: usize = 51;

/// The greatest number of files.
const GREATEST: u8 = 9;

/// The bytes of a file between two places: fewer if it ends before the second one, none if there is no file.
pub(crate) fn part_of<D: Disk>(
    alloc: Global,
    disk: &mut D,
    path: &[u8],
    from: usize,
    most: usize,
) -> Result<Vec<u8>, DiskError>
    ensures bytes { Honestly (D.state disk.new) (IfOk result (λ bytes. bytes.items ≡ drop from (take most (bytes_in ((D.state disk.old).seen path.now))))) }
    ensures quiet { ChangesNothing (D.state disk.old) (D.state disk.new) }
    ensures cause { HasCause (D.failures disk.old) (D.failures disk.new) result }
{
    if !disk.exists(path)? {
        return Ok(Vec::new(alloc));
    }
    let len = disk.len(path)?;
    let end = if len < most { len } else { most };
    if from >= end {
        return Ok(Vec::new(alloc));
    }
    read_part(alloc, disk, path, from, end)
}

fn is_no_log(size: usize, end: End) -> bool
    requires { end.records_len ≤ size }
    ensures { result ≡ is_no_log size end }
{
    let recorded = end.recorded;
    recorded.number > GREATEST
        || recorded.keys % ENTRY != 0
        || recorded.cursor > (recorded.keys / ENTRY) as u64
        || size - end.records_len > LEFT_BEHIND
}

fn is_foreign(strange: bool, size: usize, end: End) -> bool
    requires { end.records_len ≤ size }
    ensures { result ≡ is_foreign strange size end }
{
    is_no_log(size, end) || (strange && end.records_len == 0)
}

fn whole_in(keys: &[u8], all: usize, there: usize) -> u64
    ensures { AreWhole keys.now all there result }
{
    let count = keys.len() / ENTRY;
    'messages: for i in 0..count {
        if message_end(keys, i, all as u64) > there as u64 {
            return i as u64;
        }
    }
    count as u64
}

fn whole_of<D: Disk>(
    alloc: Global,
    disk: &mut D,
    path: &[u8],
    recorded: CommitRecord,
) -> Result<u64, DiskError>
    requires { recorded.number < 10 }
    ensures whole { Honestly (D.state disk.new) (IfOk result (AreWhole (take recorded.keys (bytes_in ((D.state disk.old).seen (keys_of path.now recorded.number))))
        recorded.messages (length (bytes_in ((D.state disk.old).seen (messages_of path.now recorded.number)))))) }
    ensures quiet { ChangesNothing (D.state disk.old) (D.state disk.new) }
    ensures cause { HasCause (D.failures disk.old) (D.failures disk.new) result }
{
    let names = Names::new(alloc, path, recorded.number)?;
    let there = file_len(disk, &names.messages)?;
    let keys = part_of(alloc, disk, &names.keys, 0, recorded.keys)?;
    Ok(whole_in(&keys, recorded.messages, there))
}

/// Whether the files of the folder with this log hold a base. `strange` says that the folder has foreign files.
pub(crate) fn judge_by<D: Disk>(
    alloc: Global,
    disk: &mut D,
    path: &[u8],
    strange: bool,
    log: &Log,
) -> Result<(), OpenError>
    requires log { Honestly (D.state disk.old) (IsLogIn path.now (D.state disk.old).seen log.now) }
    requires read { IsRead log.now }
    requires within { log.now.end.records_len ≤ length log.now.bytes.items }
    ensures digit { OnOk result (log.now.end.recorded.number < 10) }
    ensures folder { OnOk result (IsFolderLog strange log.now.bytes.items log.now.end) }
    ensures represented { Honestly (D.state disk.new) (OnOk result (Represents path.now (base_at (D.state disk.old) path.now log.now.end.recorded) (D.state disk.old).seen)) }
    ensures wrong { Honestly (D.state disk.new) (IfErr result (IsWrong strange path.now (D.state disk.old).seen)) }
    ensures quiet { ChangesNothing (D.state disk.old) (D.state disk.new) }
    ensures cause { HasUnreadCause (D.failures disk.old) (D.failures disk.new) result }
{
    if is_foreign(strange, log.bytes.len(), log.end) {
        return Err(OpenError::Wrong(BaseFault::NotBase));
    }
    match judge(alloc, disk, path, log) {
        Ok(()) => Ok(()),
        Err(FolderError::Lost) => Err(OpenError::Wrong(BaseFault::NotBase)),
        Err(FolderError::Corrupt) => {
            let messages = whole_of(alloc, disk, path, log.end.recorded)?;
            Err(OpenError::Wrong(BaseFault::Truncated { messages }))
        }
        Err(FolderError::Memory) => Err(OpenError::Memory),
        Err(FolderError::Device) => Err(OpenError::Device),
    }
}

pub(crate) fn judged<D: Disk>(
    alloc: Global,
    disk: &mut D,
    path: &[u8],
    strange: bool,
) -> Result<Log, OpenError>
    ensures log { Honestly (D.state disk.new) (IfOk result (IsLogIn path.now (D.state disk.old).seen)) }
    ensures read { IfOk result IsRead }
    ensures digit { IfOk result (λ log. log.end.recorded.number < 10) }
    ensures folder { Honestly (D.state disk.new) (IfOk result (λ log. IsFolderLog strange (bytes_in ((D.state disk.old).seen (log_of path.now))) log.end)) }
    ensures represented { Honestly (D.state disk.new) (IfOk result (λ log. Represents path.now (base_at (D.state disk.old) path.now log.end.recorded) (D.state disk.old).seen)) }
    ensures wrong { Honestly (D.state disk.new) (IfErr result (IsWrong strange path.now (D.state disk.old).seen)) }
    ensures quiet { ChangesNothing (D.state disk.old) (D.state disk.new) }
    ensures cause { HasUnreadCause (D.failures disk.old) (D.failures disk.new) result }
{
    let log = read_log(alloc, disk, path)?;
    judge_by(alloc, disk, path, strange, &log)?;
    Ok(log)
}

/// The end of the records of a base folder's log, and the contents of the last record.
pub fn log_end<D: Disk>(
    alloc: Global,
    disk: &mut D,
    path: &[u8],
    strange: bool,
) -> Result<End, OpenError>
    ensures folder { Honestly (D.state disk.new) (IfOk result (IsFolderLog strange (bytes_in ((D.state disk.old).seen (log_of path.now))))) }
    ensures wrong { Honestly (D.state disk.new) (IfErr result (IsWrong strange path.now (D.state disk.old).seen)) }
    ensures quiet { ChangesNothing (D.state disk.old) (D.state disk.new) }
    ensures cause { HasUnreadCause (D.failures disk.old) (D.failures disk.new) result }
{
    let log = judged(alloc, disk, path, strange)?;
    Ok(log.end)
}
