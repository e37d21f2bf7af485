//! A commit: the staged bytes are synced, a record is written after the closed gate, and its gate is opened.
ghost use Rattle.std.specs.Prelude.{◌≡◌, ◌<◌, ◌+◌, ◌^◌, ◌++◌, ◌∷◌, [], IfOk};
ghost use Rattle.disk_io.specs.{Disk.Honestly, Runs.LeavesOnly, Runs.HasCause};
ghost use Rattle.base_log.specs.{Names.folder_of, Log.body_of, Log.FitsRecord, Standing.base_at, AtRest.IsAtRest, AtRest.IsStagedBy};
ghost use Rattle.base_log.specs.Moments.{IsBeforeOrAfter, KeepsOutside, LeavesOutside};

use crate::log::{CommitRecord, End};
use crate::names::Names;
use disk_io::{Disk, DiskError, write_synced};

fn record_of(recorded: CommitRecord) -> [u8; 50]
    ensures bytes { result ≡ body_of recorded ++ 0 ∷ [] }
    ensures fits { FitsRecord recorded }
{
    let mut record = [0u8; 50];
    record[0..8].copy_from_slice(&(recorded.messages as u64).to_le_bytes());
    record[8..16].copy_from_slice(&(recorded.keys as u64).to_le_bytes());
    record[16..24].copy_from_slice(&recorded.cursor.to_le_bytes());
    record[24] = recorded.number;
    record[25..33].copy_from_slice(&recorded.mark.owner.to_le_bytes());
    record[33..41].copy_from_slice(&recorded.mark.first.to_le_bytes());
    record[41..49].copy_from_slice(&recorded.mark.second.to_le_bytes());
    record
}

/// Makes the staged bytes the base. At `Ok` each later crash leaves files that hold it. At `Err`, open the folder
/// again.
pub fn commit<D: Disk>(
    disk: &mut D,
    names: &Names,
    end: End,
    recorded: CommitRecord,
) -> Result<End, DiskError>
    requires staged { IsStagedBy (D.state disk.old) names.now end recorded }
    requires room { end.records_len + 50 < 2 ^ 64 }

    ensures settled { Honestly (D.state disk.new) (IfOk result (λ after. IsAtRest (D.state disk.new) (folder_of names.now) after)) }
    ensures recorded { IfOk result (λ after. after.recorded ≡ recorded) }
    ensures acknowledged { Honestly (D.state disk.new) (IfOk result (λ after. base_at (D.state disk.new) (folder_of names.now) after.recorded ≡ base_at (D.state disk.old) (folder_of names.now) recorded)) }

    ensures any_moment { Honestly (D.state disk.new) (LeavesOnly (D.state disk.old) (D.state disk.new)
        (IsBeforeOrAfter (folder_of names.now) (D.state disk.old) (base_at (D.state disk.old) (folder_of names.now) end.recorded) (base_at (D.state disk.old) (folder_of names.now) recorded))) }
    ensures outside { KeepsOutside (folder_of names.now) (D.state disk.old) (D.state disk.new) }
    ensures leaves { LeavesOutside (folder_of names.now) (D.state disk.old) (D.state disk.new) }
    ensures cause { HasCause (D.failures disk.old) (D.failures disk.new) result }
{
    disk.sync(&names.messages)?;
    disk.sync(&names.keys)?;
    write_synced(disk, &names.log, end.records_len + 1, &record_of(recorded))?;
    write_synced(disk, &names.log, end.records_len, &[1])?;
    Ok(End {
        records_len: end.records_len + 50,
        recorded,
    })
}
