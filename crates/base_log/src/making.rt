//! The log of a folder that is new, and the first files of messages and of keys.
ghost use Rattle.std.specs.Prelude.{◌≡◌, ◌∷◌, [], None, OnOk};
ghost use Rattle.disk_io.specs.{Disk.Honestly, Disk.bytes_in, Runs.ChangesNothing, Runs.LeavesOnly, Runs.HasCause, Synced.IsOnDisk};
ghost use Rattle.base_log.specs.Names.{AreNames, folder_of, log_of, messages_of, keys_of};
ghost use Rattle.base_log.specs.Opening.{AreFlushed, AreNamed, HasBareLog, HasFirstFiles, IsNewFolder, KeepsButOne, RepresentsOrWasLeft, StayGone};
ghost use Rattle.base_log.specs.{Moments.RepresentsAlone, Moments.KeepsOutside, Standing.BaseBytes, Standing.Represents};

use crate::names::Names;
use disk_io::{Disk, DiskError, sync_parent_folder, write_synced};
use std::alloc::Global;

fn settle_file<D: Disk>(disk: &mut D, path: &[u8]) -> Result<(), DiskError>
    requires { Honestly (D.state disk.old) ((D.state disk.old).seen path.now ≡ None → (D.state disk.old).is_flushed path.now) }
    ensures flushed { Honestly (D.state disk.new) (OnOk result ((D.state disk.new).is_flushed path.now)) }
    ensures quiet { ChangesNothing (D.state disk.old) (D.state disk.new) }
    ensures cause { HasCause (D.failures disk.old) (D.failures disk.new) result }
{
    if !disk.exists(path)? {
        return Ok(());
    }
    disk.sync(path)
}

fn settle_number<D: Disk>(disk: &mut D, names: &Names, _number: u8) -> Result<(), DiskError>
    requires names { AreNames names.now _number }
    requires gone { Honestly (D.state disk.old) (StayGone (folder_of names.now) (D.state disk.old)) }
    ensures messages { Honestly (D.state disk.new) (OnOk result ((D.state disk.new).is_flushed (messages_of (folder_of names.now) _number))) }
    ensures keys { Honestly (D.state disk.new) (OnOk result ((D.state disk.new).is_flushed (keys_of (folder_of names.now) _number))) }
    ensures quiet { ChangesNothing (D.state disk.old) (D.state disk.new) }
    ensures cause { HasCause (D.failures disk.old) (D.failures disk.new) result }
{
    settle_file(disk, &names.messages)?;
    settle_file(disk, &names.keys)
}

fn settle_all<D: Disk>(alloc: Global, disk: &mut D, names: &Names) -> Result<(), DiskError>
    requires log { names.now.log.items ≡ log_of (folder_of names.now) }
    requires gone { Honestly (D.state disk.old) (StayGone (folder_of names.now) (D.state disk.old)) }
    ensures flushed { Honestly (D.state disk.new) (OnOk result (AreFlushed (folder_of names.now) (D.state disk.new))) }
    ensures quiet { ChangesNothing (D.state disk.old) (D.state disk.new) }
    ensures cause { HasCause (D.failures disk.old) (D.failures disk.new) result }
{
    'numbers: for number in 0..10 {
        let there = Names::new(alloc, &names.folder, number)?;
        settle_number(disk, &there, number)?;
    }
    settle_file(disk, &names.log)
}

// Before it is made, the other files have no bytes on the disk.
pub(crate) fn make_log<D: Disk>(alloc: Global, disk: &mut D, names: &Names) -> Result<(), DiskError>
    requires log { names.now.log.items ≡ log_of (folder_of names.now) }
    requires new { Honestly (D.state disk.old) (IsNewFolder (folder_of names.now) (D.state disk.old)) }
    ensures made { Honestly (D.state disk.new) (OnOk result (bytes_in ((D.state disk.new).seen (log_of (folder_of names.now))) ≡ 0 ∷ [])) }
    ensures on_disk { Honestly (D.state disk.new) (OnOk result (IsOnDisk (D.state disk.new) (log_of (folder_of names.now)))) }
    ensures named { Honestly (D.state disk.new) (OnOk result (AreNamed (folder_of names.now) (D.state disk.new))) }
    ensures others { KeepsButOne (D.state disk.old) (D.state disk.new) (log_of (folder_of names.now)) }
    ensures any_moment { Honestly (D.state disk.new) ((base : BaseBytes) → Represents (folder_of names.now) base (D.state disk.old).seen
        → LeavesOnly (D.state disk.old) (D.state disk.new) (RepresentsOrWasLeft (folder_of names.now) (D.state disk.old) base)) }
    ensures cause { HasCause (D.failures disk.old) (D.failures disk.new) result }
{
    settle_all(alloc, disk, names)?;
    disk.create(&names.log)?;
    sync_parent_folder(disk, &names.folder)?;
    disk.sync(&names.log)?;
    write_synced(disk, &names.log, 0, &[0])
}

pub(crate) fn make_files<D: Disk>(disk: &mut D, names: &Names) -> Result<(), DiskError>
    requires names { AreNames names.now 0 }
    requires bare { Honestly (D.state disk.old) (HasBareLog (folder_of names.now) (D.state disk.old)) }
    ensures made { OnOk result (HasFirstFiles (folder_of names.now) (D.state disk.new)) }
    ensures log { Honestly (D.state disk.new) (IsOnDisk (D.state disk.new) (log_of (folder_of names.now))) }
    ensures same { (D.state disk.new).seen (log_of (folder_of names.now)) ≡ (D.state disk.old).seen (log_of (folder_of names.now)) }
    ensures outside { KeepsOutside (folder_of names.now) (D.state disk.old) (D.state disk.new) }
    ensures any_moment { Honestly (D.state disk.new) ((base : BaseBytes) → Represents (folder_of names.now) base (D.state disk.old).seen
        → LeavesOnly (D.state disk.old) (D.state disk.new) (RepresentsAlone (folder_of names.now) (D.state disk.old) base)) }
    ensures cause { HasCause (D.failures disk.old) (D.failures disk.new) result }
{
    disk.create(&names.messages)?;
    disk.create(&names.keys)?;
    sync_parent_folder(disk, &names.folder)
}
