//! Messages and keys written after those that count, before a commit. However many are written so, a crash leaves the
//! base as it was.
ghost use Rattle.std.specs.Prelude.{◌≡◌, ◌<◌, ◌+◌, ◌^◌, length, IfOk};
ghost use Rattle.disk_io.specs.{Disk.Honestly, Runs.HasCause, Steps.SameOthers};
ghost use Rattle.base_log.specs.Growing.{and_bytes, counted, file_of, path_in, with_more};
ghost use Rattle.base_log.specs.{Names.folder_of, Standing.base_at, AtRest.HoldsNext, AtRest.IsAtRest, AtRest.IsStaged, AtRest.IsStagedBy, Moments.LeavesOutside, Moments.StagesOnly};

use crate::log::{CommitRecord, End, FolderIdentity};
use crate::names::Names;
use disk_io::{Disk, DiskError};

/// The record that a commit would write of a base at rest to which nothing was added, with this cursor and this mark.
/// More is staged from there.
pub fn stage_nothing<D: Disk>(
    _disk: &D,
    _folder: &[u8],
    end: End,
    cursor: u64,
    mark: FolderIdentity,
) -> CommitRecord
    requires { Honestly (D.state _disk.now) (IsAtRest (D.state _disk.now) _folder.now end) }
    ensures staged { Honestly (D.state _disk.now) (IsStaged (D.state _disk.now) _folder.now end result) }
    ensures recorded { result ≡ record end.recorded { cursor = cursor; mark = mark } }
{
    CommitRecord {
        cursor,
        mark,
        ..end.recorded
    }
}

/// One of the two files of a number. Both only grow.
#[derive(Clone, Copy, Debug, PartialEq, Eq)]
pub enum GrowingFile {
    Messages,
    Keys,
}

fn path_of(names: &Names, file: GrowingFile) -> &[u8]
    ensures { result.now ≡ path_in names.now file }
{
    match file {
        GrowingFile::Messages => &names.messages,
        GrowingFile::Keys => &names.keys,
    }
}

fn counted(recorded: CommitRecord, file: GrowingFile) -> usize
    ensures { result ≡ counted recorded file }
{
    match file {
        GrowingFile::Messages => recorded.messages,
        GrowingFile::Keys => recorded.keys,
    }
}

fn with_more(recorded: CommitRecord, file: GrowingFile, more: usize) -> CommitRecord
    requires { counted recorded file + more < 2 ^ 64 }
    ensures { result ≡ with_more recorded file more }
{
    match file {
        GrowingFile::Messages => CommitRecord {
            messages: recorded.messages + more,
            ..recorded
        },
        GrowingFile::Keys => CommitRecord {
            keys: recorded.keys + more,
            ..recorded
        },
    }
}

/// Writes bytes after the staged ones of the file, without a sync.
pub fn stage_bytes<D: Disk>(
    disk: &mut D,
    names: &Names,
    end: End,
    recorded: CommitRecord,
    file: GrowingFile,
    bytes: &[u8],
) -> Result<CommitRecord, DiskError>
    requires staged { IsStagedBy (D.state disk.old) names.now end recorded }
    requires room { counted recorded file + length bytes.now < 2 ^ 64 }
    ensures staged { Honestly (D.state disk.new) (IfOk result (λ more. IsStaged (D.state disk.new) (folder_of names.now) end more)) }
    ensures recorded { IfOk result (λ more. more ≡ with_more recorded file (length bytes.now)) }
    ensures next { Honestly (D.state disk.new) (IfOk result (HoldsNext (D.state disk.new) (folder_of names.now) end.recorded
        (base_at (D.state disk.old) (folder_of names.now) end.recorded) (and_bytes (base_at (D.state disk.old) (folder_of names.now) recorded) file bytes.now))) }
    ensures others { SameOthers (file_of (folder_of names.now) recorded.number file) (D.state disk.old).seen (D.state disk.new).seen }
    ensures run { StagesOnly (folder_of names.now) (base_at (D.state disk.old) (folder_of names.now) end.recorded) (D.state disk.old) (D.state disk.new) }
    ensures leaves { LeavesOutside (folder_of names.now) (D.state disk.old) (D.state disk.new) }
    ensures cause { HasCause (D.failures disk.old) (D.failures disk.new) result }
{
    disk.write_at(path_of(names, file), counted(recorded, file), bytes)?;
    Ok(with_more(recorded, file, bytes.len()))
}
