//! Files of another number, for a purge.
ghost use Rattle.std.specs.Prelude.{◌≡◌, ◌≢◌, ℕ, List, IfOk};
ghost use Rattle.disk_io.specs.{Disk.Honestly, Runs.HasCause};
ghost use Rattle.base_log.specs.{Names.AreNames, Names.folder_of, Names.keys_of, Names.messages_of, Standing.base_at, AtRest.IsAtRest, AtRest.IsFreeNumber, AtRest.IsStaged, Moments.StagesOnly};

use crate::log::{CommitRecord, End};
use crate::names::Names;
use disk_io::{Disk, DiskError, sync_parent_folder};

/// Makes empty files of another number, with the same mark. The bytes staged there become the base once they are
/// committed. Until then a crash leaves the base unchanged.
pub fn stage_anew<D: Disk>(
    disk: &mut D,
    names: &Names,
    end: End,
    number: u8,
    cursor: u64,
) -> Result<CommitRecord, DiskError>
    requires names { AreNames names.now number }
    requires free { IsFreeNumber end number }
    requires settled { Honestly (D.state disk.old) (IsAtRest (D.state disk.old) (folder_of names.now) end) }
    ensures staged { Honestly (D.state disk.new) (IfOk result (λ recorded. IsStaged (D.state disk.new) (folder_of names.now) end recorded)) }
    ensures recorded { IfOk result (λ recorded. recorded ≡ record { messages = 0; keys = 0; cursor = cursor; number = number; mark = end.recorded.mark }) }
    ensures same { Honestly (D.state disk.new) (base_at (D.state disk.new) (folder_of names.now) end.recorded
        ≡ base_at (D.state disk.old) (folder_of names.now) end.recorded) }
    ensures others { (m : List ℕ) → m ≢ messages_of (folder_of names.now) number → m ≢ keys_of (folder_of names.now) number
        → (D.state disk.new).seen m ≡ (D.state disk.old).seen m }
    ensures run { StagesOnly (folder_of names.now) (base_at (D.state disk.old) (folder_of names.now) end.recorded) (D.state disk.old) (D.state disk.new) }
    ensures cause { HasCause (D.failures disk.old) (D.failures disk.new) result }
{
    disk.create(&names.messages)?;
    disk.create(&names.keys)?;
    sync_parent_folder(disk, &names.folder)?;
    Ok(CommitRecord {
        messages: 0,
        keys: 0,
        cursor,
        number,
        mark: end.recorded.mark,
    })
}
