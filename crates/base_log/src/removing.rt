//! Files of numbers that no longer count are removed.

ghost use Rattle.std.specs.Prelude.{◌≡◌, ◌≢◌, ℕ, List, None, OnOk};
ghost use Rattle.disk_io.specs.{Disk.Honestly, Runs.HasCause};
ghost use Rattle.base_log.specs.{Names.AreNames, Names.IsOtherNumber, Names.folder_of, Standing.base_at, AtRest.IsAtRest, Opening.AreGone, Moments.LeavesOutside, Moments.StagesOnly};

use crate::log::End;
use crate::names::Names;
use disk_io::{Disk, DiskError, sync_parent_folder};

pub(crate) fn remove_one<D: Disk>(
    disk: &mut D,
    folder: &[u8],
    file: &[u8],
    end: End,
) -> Result<(), DiskError>
    requires file { IsOtherNumber folder.now end.recorded.number file.now }
    requires settled { Honestly (D.state disk.old) (IsAtRest (D.state disk.old) folder.now end) }
    ensures settled { Honestly (D.state disk.new) (OnOk result (IsAtRest (D.state disk.new) folder.now end)) }
    ensures gone { Honestly (D.state disk.new) (OnOk result ((D.state disk.new).seen file.now ≡ None)) }
    ensures others { (m : List ℕ) → m ≢ file.now → (D.state disk.new).seen m ≡ (D.state disk.old).seen m }
    ensures run { StagesOnly folder.now (base_at (D.state disk.old) folder.now end.recorded) (D.state disk.old) (D.state disk.new) }
    ensures leaves { LeavesOutside folder.now (D.state disk.old) (D.state disk.new) }
    ensures cause { HasCause (D.failures disk.old) (D.failures disk.new) result }
{
    if !disk.exists(file)? {
        return Ok(());
    }
    disk.remove(file)?;
    sync_parent_folder(disk, folder)
}

/// Removes the files of a number that no longer counts. A crash meanwhile leaves the base, and some of them.
pub fn remove_files<D: Disk>(
    disk: &mut D,
    names: &Names,
    end: End,
    number: u8,
) -> Result<(), DiskError>
    requires names { AreNames names.now number }
    requires other { number ≢ end.recorded.number }
    requires settled { Honestly (D.state disk.old) (IsAtRest (D.state disk.old) (folder_of names.now) end) }
    ensures settled { Honestly (D.state disk.new) (OnOk result (IsAtRest (D.state disk.new) (folder_of names.now) end)) }
    ensures gone { Honestly (D.state disk.new) (OnOk result (AreGone (D.state disk.new) (folder_of names.now) number)) }
    ensures same { base_at (D.state disk.new) (folder_of names.now) end.recorded ≡ base_at (D.state disk.old) (folder_of names.now) end.recorded }
    ensures run { StagesOnly (folder_of names.now) (base_at (D.state disk.old) (folder_of names.now) end.recorded) (D.state disk.old) (D.state disk.new) }
    ensures leaves { LeavesOutside (folder_of names.now) (D.state disk.old) (D.state disk.new) }
    ensures cause { HasCause (D.failures disk.old) (D.failures disk.new) result }
{
    remove_one(disk, &names.folder, &names.messages, end)?;
    remove_one(disk, &names.folder, &names.keys, end)
}
