//! Tests of bases over a disk that fails.

ghost use Rattle.std.specs.Prelude.{◌≡◌, IfOk};
ghost use Rattle.{disk_io.specs.Disk.Honestly, base_log.specs.{AtRest.{IsAtRest, IsStaged}, Names.{AreNames, folder_of}}};
ghost use Rattle.base_log.specs.Opening.{AreAlone};

use base_log::{
    CommitRecord, End, FolderError, FolderIdentity, GrowingFile, Names, commit, judge, open,
    read_log, stage_anew, stage_bytes, stage_nothing,
};
use disk_io::{Disk, read_file};
use std::alloc::{AllocError, Global};

/// How much a test stages at most.
const LIMIT: usize = 1 << 40;

#[derive(Debug, Drop)]
pub(crate) struct TestBase {
    pub(crate) messages: Vec<u8>,
    pub(crate) keys: Vec<u8>,
    pub(crate) cursor: u64,
    pub(crate) mark: FolderIdentity,
}

/// What one commit adds. If it starts new files, only the mark of the base stays.
#[derive(Drop)]
pub(crate) struct Change {
    pub(crate) anew: bool,
    pub(crate) messages: Vec<u8>,
    pub(crate) keys: Vec<u8>,
    pub(crate) cursor: u64,
    pub(crate) mark: FolderIdentity,
}

impl TestBase {
    pub(crate) fn changed(&self, alloc: Global, change: &Change) -> Result<TestBase, AllocError> {
        let mut messages = Vec::new(alloc);
        let mut keys = Vec::new(alloc);
        if !change.anew {
            messages.extend_from_slice(&self.messages)?;
            keys.extend_from_slice(&self.keys)?;
        }
        messages.extend_from_slice(&change.messages)?;
        keys.extend_from_slice(&change.keys)?;
        Ok(TestBase {
            messages,
            keys,
            cursor: change.cursor,
            mark: if change.anew { self.mark } else { change.mark },
        })
    }

    pub(crate) fn is(&self, other: &TestBase) -> bool {
        self.messages.as_slice() == other.messages.as_slice()
            && self.keys.as_slice() == other.keys.as_slice()
            && self.cursor == other.cursor
            && self.mark == other.mark
    }
}

fn stage<D: Disk>(
    disk: &mut D,
    names: &Names,
    end: End,
    recorded: CommitRecord,
    messages: &[u8],
    keys: &[u8],
) -> Result<CommitRecord, FolderError>
    requires names { AreNames names.now recorded.number }
    requires staged { Honestly (D.state disk.old) (IsStaged (D.state disk.old) (folder_of names.now) end recorded) }
    ensures staged { Honestly (D.state disk.new) (IfOk result (λ more. IsStaged (D.state disk.new) (folder_of names.now) end more)) }
    ensures honest { (D.state disk.new).is_honest → (D.state disk.old).is_honest }
    ensures number { IfOk result (λ more. more.number ≡ recorded.number) }
{
    if recorded.messages > LIMIT
        || recorded.keys > LIMIT
        || messages.len() > LIMIT
        || keys.len() > LIMIT
    {
        return Err(FolderError::Corrupt);
    }
    let recorded = stage_bytes(disk, names, end, recorded, GrowingFile::Messages, messages)?;
    Ok(stage_bytes(disk, names, end, recorded, GrowingFile::Keys, keys)?)
}

fn stage_and_commit<D: Disk>(
    disk: &mut D,
    names: &Names,
    end: End,
    recorded: CommitRecord,
    change: &Change,
) -> Result<End, FolderError>
    requires names { AreNames names.now recorded.number }
    requires staged { Honestly (D.state disk.old) (IsStaged (D.state disk.old) (folder_of names.now) end recorded) }
    ensures settled { Honestly (D.state disk.new) (IfOk result (λ after. IsAtRest (D.state disk.new) (folder_of names.now) after)) }
{
    let messages = change.messages.as_slice();
    let keys = change.keys.as_slice();
    let half = messages.len() / 2;
    let some = keys.len() / 2;
    let recorded = stage(disk, names, end, recorded, &messages[..half], &keys[..some])?;
    let recorded = stage(disk, names, end, recorded, &messages[half..], &keys[some..])?;
    if end.records_len > LIMIT {
        return Err(FolderError::Corrupt);
    }
    Ok(commit(disk, names, end, recorded)?)
}

pub(crate) fn open_folder<D: Disk>(
    alloc: Global,
    disk: &mut D,
    folder: &[u8],
) -> Result<End, FolderError>
    requires { Honestly (D.state disk.old) (AreAlone folder.now (D.state disk.old)) }
    ensures settled { Honestly (D.state disk.new) (IfOk result (λ end. IsAtRest (D.state disk.new) folder.now end)) }
{
    let log = read_log(alloc, disk, folder)?;
    judge(alloc, disk, folder, &log)?;
    let names = Names::new(alloc, folder, log.end.recorded.number)?;
    open(alloc, disk, &names, &log)?;
    Ok(log.end)
}

pub(crate) fn change_folder<D: Disk>(
    alloc: Global,
    disk: &mut D,
    folder: &[u8],
    end: End,
    change: &Change,
) -> Result<End, FolderError>
    requires { Honestly (D.state disk.old) (IsAtRest (D.state disk.old) folder.now end) }
    ensures settled { Honestly (D.state disk.new) (IfOk result (λ after. IsAtRest (D.state disk.new) folder.now after)) }
{
    if change.anew {
        renew(alloc, disk, folder, end, change)
    } else {
        append(alloc, disk, folder, end, change)
    }
}

fn append<D: Disk>(
    alloc: Global,
    disk: &mut D,
    folder: &[u8],
    end: End,
    change: &Change,
) -> Result<End, FolderError>
    requires { Honestly (D.state disk.old) (IsAtRest (D.state disk.old) folder.now end) }
    ensures settled { Honestly (D.state disk.new) (IfOk result (λ after. IsAtRest (D.state disk.new) folder.now after)) }
{
    if end.recorded.number > 9 {
        return Err(FolderError::Corrupt);
    }
    let names = Names::new(alloc, folder, end.recorded.number)?;
    let recorded = stage_nothing(disk, &names.folder, end, change.cursor, change.mark);
    stage_and_commit(disk, &names, end, recorded, change)
}

fn renew<D: Disk>(
    alloc: Global,
    disk: &mut D,
    folder: &[u8],
    end: End,
    change: &Change,
) -> Result<End, FolderError>
    requires { Honestly (D.state disk.old) (IsAtRest (D.state disk.old) folder.now end) }
    ensures settled { Honestly (D.state disk.new) (IfOk result (λ after. IsAtRest (D.state disk.new) folder.now after)) }
{
    let number = if end.recorded.number < 9 {
        end.recorded.number + 1
    } else {
        0
    };
    let names = Names::new(alloc, folder, number)?;
    let recorded = stage_anew(disk, &names, end, number, change.cursor)?;
    stage_and_commit(disk, &names, end, recorded, change)
}

fn read_front<D: Disk>(
    alloc: Global,
    disk: &mut D,
    path: &[u8],
    len: usize,
) -> Result<Vec<u8>, FolderError> {
    if !disk.exists(path)? {
        return Err(FolderError::Corrupt);
    }
    let mut bytes = read_file(alloc, disk, path)?;
    bytes.truncate(len);
    Ok(bytes)
}

pub(crate) fn read_base<D: Disk>(
    alloc: Global,
    disk: &mut D,
    folder: &[u8],
    end: End,
) -> Result<TestBase, FolderError> {
    if end.recorded.number > 9 {
        return Err(FolderError::Corrupt);
    }
    let names = Names::new(alloc, folder, end.recorded.number)?;
    Ok(TestBase {
        messages: read_front(alloc, disk, &names.messages, end.recorded.messages)?,
        keys: read_front(alloc, disk, &names.keys, end.recorded.keys)?,
        cursor: end.recorded.cursor,
        mark: end.recorded.mark,
    })
}
