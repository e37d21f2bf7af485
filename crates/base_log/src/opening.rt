//! Opens a base folder that a crash, or a stopped program, may have left.
ghost use Rattle.std.specs.Prelude.{◌≡◌, ◌⊎◌, IsSome, OnOk};
ghost use Rattle.disk_io.specs.{Disk.Honestly, Runs.ChangesNothing, Runs.LeavesOnly, Runs.HasCause};
ghost use Rattle.base_log.specs.{Log.IsShutAt, Names.AreNames, Names.folder_of, Names.log_of, Standing.BaseBytes, Standing.IsNew, Standing.Represents, Standing.base_at, Reading.IsLogRead};
ghost use Rattle.base_log.specs.{AtRest.IsAtRest, AtRest.IsLogAt, Moments.KeepsOutside, Opening.AreAlone, Opening.RepresentsOrWasLeft, Opening.KeepsButOne};

use crate::log::Log;
use crate::making::{make_files, make_log};
use crate::names::Names;
use disk_io::{Disk, DiskError, sync_parent_folder};
use std::alloc::Global;

// The bytes of a killed program are seen and may not be synced yet. The log of a new folder is made.
fn settle_log<D: Disk>(
    alloc: Global,
    disk: &mut D,
    names: &Names,
    log: &Log,
) -> Result<(), DiskError>
    requires name { names.now.log.items ≡ log_of (folder_of names.now) }
    requires alone { Honestly (D.state disk.old) (AreAlone (folder_of names.now) (D.state disk.old)) }
    requires log { IsLogRead (D.state disk.old) (folder_of names.now) log.now }
    requires ended { Honestly (D.state disk.old) (IsShutAt log.now.end.records_len log.now.bytes.items ⊎ IsNew (folder_of names.now) (D.state disk.old).seen) }
    ensures log { Honestly (D.state disk.new) (OnOk result (IsLogAt (D.state disk.new) (folder_of names.now) log.now.end)) }
    ensures others { KeepsButOne (D.state disk.old) (D.state disk.new) (log_of (folder_of names.now)) }
    ensures any_moment { Honestly (D.state disk.new) ((base : BaseBytes) → Represents (folder_of names.now) base (D.state disk.old).seen
        → LeavesOnly (D.state disk.old) (D.state disk.new) (RepresentsOrWasLeft (folder_of names.now) (D.state disk.old) base)) }
    ensures cause { HasCause (D.failures disk.old) (D.failures disk.new) result }
{
    sync_parent_folder(disk, &names.folder)?;
    if log.is_shut() {
        disk.sync(&names.log)?;
        return Ok(());
    }
    make_log(alloc, disk, names)?;
    Ok(())
}

fn settle_files<D: Disk>(disk: &mut D, names: &Names) -> Result<(), DiskError>
    requires messages { Honestly (D.state disk.old) (IsSome ((D.state disk.old).seen names.now.messages.items)) }
    requires keys { Honestly (D.state disk.old) (IsSome ((D.state disk.old).seen names.now.keys.items)) }
    ensures messages { OnOk result ((D.state disk.new).is_flushed names.now.messages.items) }
    ensures keys { OnOk result ((D.state disk.new).is_flushed names.now.keys.items) }
    ensures quiet { ChangesNothing (D.state disk.old) (D.state disk.new) }
    ensures cause { HasCause (D.failures disk.old) (D.failures disk.new) result }
{
    disk.sync(&names.messages)?;
    disk.sync(&names.keys)
}

/// Opens a base folder, with its log as it was read. Missing files are made, others only synced. It may crash too.
pub fn open<D: Disk>(alloc: Global, disk: &mut D, names: &Names, log: &Log) -> Result<(), DiskError>
    requires names { AreNames names.now log.now.end.recorded.number }
    requires alone { Honestly (D.state disk.old) (AreAlone (folder_of names.now) (D.state disk.old)) }
    requires log { IsLogRead (D.state disk.old) (folder_of names.now) log.now }
    requires represented { Honestly (D.state disk.old) (Represents (folder_of names.now) (base_at (D.state disk.old) (folder_of names.now) log.now.end.recorded) (D.state disk.old).seen) }

    ensures settled { Honestly (D.state disk.new) (OnOk result (IsAtRest (D.state disk.new) (folder_of names.now) log.now.end)) }
    ensures same { Honestly (D.state disk.new) (OnOk result (base_at (D.state disk.new) (folder_of names.now) log.now.end.recorded
        ≡ base_at (D.state disk.old) (folder_of names.now) log.now.end.recorded)) }

    ensures any_moment { Honestly (D.state disk.new) (LeavesOnly (D.state disk.old) (D.state disk.new)
        (RepresentsOrWasLeft (folder_of names.now) (D.state disk.old) (base_at (D.state disk.old) (folder_of names.now) log.now.end.recorded))) }
    ensures outside { KeepsOutside (folder_of names.now) (D.state disk.old) (D.state disk.new) }
    ensures cause { HasCause (D.failures disk.old) (D.failures disk.new) result }
{
    settle_log(alloc, disk, names, log)?;
    if log.end.records_len > 0 {
        settle_files(disk, names)?;
        return Ok(());
    }
    make_files(disk, names)?;
    settle_files(disk, names)?;
    Ok(())
}
