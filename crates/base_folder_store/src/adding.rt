//! Messages are added to a base folder, and committed.
ghost use Rattle.std.specs.Prelude.{◌≡◌, ◌≢◌, ◌≤◌, ◌<◌, ◌⊎◌, ◌+◌, ◌^◌, ◌/◌, length, IfNone, IfOk, IfSome, OnOk, IsErrOf};
ghost use Rattle.disk_io.specs.{Disk.Honestly, Runs.HasCause, Runs.LeavesOnly};
ghost use Rattle.base_log.specs.{AtRest.IsAtRest, AtRest.IsStaged, Moments.LeavesOutside, Moments.RepresentsAlone, Opening.AreGone, Names.AreNames, Names.folder_of, Standing.base_at};
ghost use Rattle.base_folder_store.specs.Added.{IsFull, LacksRoom, OneMoreWaits, SameOthersThanBoth, next_place, with_stored};
ghost use Rattle.base_folder_store.specs.Calls.{CommitsOnly, HasWriteCause, IsAcknowledged, IsWrittenOut, StagesBoth, StagesOnly, StaysInFiles, StaysOpen};
ghost use Rattle.base_folder_store.specs.{Opened.IsWritten, Opened.committed_by, Opened.held_by, Opened.path_of, State.IsUsable};

use crate::folder::{ENTRY, Folder};
use base_log::{CommitRecord, End, GrowingFile, Names, commit, remove_files, stage_bytes};
use base_store::{StoreError, entry};
use disk_io::{Disk, DiskError};

/// How many bytes a commit adds to the log.
const RECORD: usize = 50;

/// The most bytes of messages that wait, without those of the last message.
const PIECE: usize = 65_536;

fn stage_both<D: Disk>(
    disk: &mut D,
    names: &Names,
    end: End,
    recorded: CommitRecord,
    bytes: &[u8],
    keys: &[u8],
) -> Result<CommitRecord, DiskError>
    requires names { AreNames names.now recorded.number }
    requires staged { Honestly (D.state disk.old) (IsStaged (D.state disk.old) (folder_of names.now) end recorded) }
    requires messages_room { recorded.messages + length bytes.now < 2 ^ 64 }
    requires keys_room { recorded.keys + length keys.now < 2 ^ 64 }
    ensures staged { IfOk result (λ more. StagesBoth (folder_of names.now) (D.state disk.old) (D.state disk.new) end recorded more bytes.now keys.now) }
    ensures others { SameOthersThanBoth (folder_of names.now) recorded.number (D.state disk.old).seen (D.state disk.new).seen }
    ensures run { StagesOnly (folder_of names.now) (base_at (D.state disk.old) (folder_of names.now) end.recorded) (D.state disk.old) (D.state disk.new) }
    ensures leaves { LeavesOutside (folder_of names.now) (D.state disk.old) (D.state disk.new) }
    ensures cause { HasCause (D.failures disk.old) (D.failures disk.new) result }
{
    let more = stage_bytes(disk, names, end, recorded, GrowingFile::Messages, bytes)?;
    stage_bytes(disk, names, end, more, GrowingFile::Keys, keys)
}

impl Folder {
    fn next_place(&self, more: usize) -> Option<usize>
        ensures place { IfSome result (λ place. place ≡ self.now.recorded.messages + length self.now.waiting.messages.items) }
        ensures room { IfSome result (λ place. place + more < 2 ^ 64) }
        ensures none { IfNone result (2 ^ 64 ≤ next_place self.now + more) }
    {
        let place = self
            .recorded
            .messages
            .checked_add(self.waiting.messages.len())?;
        if more > usize::MAX - place {
            return None;
        }
        Some(place)
    }

    fn add(&mut self, bytes: &[u8], digest: u64) -> Result<(), StoreError>
        ensures names { self.new.names ≡ self.old.names }
        ensures end { self.new.end ≡ self.old.end }
        ensures recorded { self.new.recorded ≡ self.old.recorded }
        ensures waits { OnOk result (OneMoreWaits self.old self.new bytes.now digest) }
        ensures whole { IsErrOf result StoreError.Damaged → ⊥ }
        ensures device { IsErrOf result StoreError.Device → ⊥ }
        ensures many { IsErrOf result StoreError.TooMany → LacksRoom self.old (length bytes.now) }
    {
        let Some(place) = self.next_place(bytes.len()) else {
            return Err(StoreError::TooMany);
        };
        let Some(keys) = self.keys.checked_add(ENTRY) else {
            return Err(StoreError::TooMany);
        };
        let entry = entry(place as u64, digest);
        self.waiting.add(bytes, &entry)?;
        self.keys = keys;
        Ok(())
    }

    fn write_out<D: Disk>(&mut self, disk: &mut D) -> Result<(), StoreError>
        requires { IsUsable (D.state disk.old) self.old }
        ensures stays { StaysOpen self.old self.new (D.state disk.new) result }
        ensures out { IsWrittenOut (D.state disk.old) (D.state disk.new) self.old self.new result }
        ensures files { StaysInFiles self.old self.new (D.state disk.old).seen (D.state disk.new).seen }
        ensures run { StagesOnly (path_of self.old) (committed_by (D.state disk.old) self.old) (D.state disk.old) (D.state disk.new) }
        ensures leaves { LeavesOutside (path_of self.old) (D.state disk.old) (D.state disk.new) }
        ensures cause { HasWriteCause (D.failures disk.old) (D.failures disk.new) result }
        ensures many { IsErrOf result StoreError.TooMany → (2 ^ 64 ≤ next_place self.old) ⊎ (2 ^ 64 ≤ self.old.recorded.keys + length self.old.waiting.keys.items) }
    {
        let messages = &self.waiting.messages;
        let keys = &self.waiting.keys;
        if messages.len() > usize::MAX - self.recorded.messages
            || keys.len() > usize::MAX - self.recorded.keys
        {
            return Err(StoreError::TooMany);
        }
        let more = stage_both(disk, &self.names, self.end, self.recorded, messages, keys)?;
        self.recorded = more;
        self.waiting.clear();
        Ok(())
    }

    /// Adds a message, as it is stored, and its entry. Many are written by one call. Nothing is committed. After an
    /// error only the effects of a crash are known: open the folder again.
    pub fn stage<D: Disk>(
        &mut self,
        disk: &mut D,
        bytes: &[u8],
        digest: u64,
    ) -> Result<(), StoreError>
        requires { IsUsable (D.state disk.old) self.old }
        ensures stays { StaysOpen self.old self.new (D.state disk.new) result }
        ensures staged { Honestly (D.state disk.new) (OnOk result (held_by (D.state disk.new) self.new ≡ with_stored (held_by (D.state disk.old) self.old) bytes.now digest)) }
        ensures fits { Honestly (D.state disk.new) (OnOk result (length (held_by (D.state disk.new) self.new).messages < 2 ^ 64)) }
        ensures same { Honestly (D.state disk.new) (OnOk result (committed_by (D.state disk.new) self.new ≡ committed_by (D.state disk.old) self.old)) }
        ensures files { StaysInFiles self.old self.new (D.state disk.old).seen (D.state disk.new).seen }
        ensures run { StagesOnly (path_of self.old) (committed_by (D.state disk.old) self.old) (D.state disk.old) (D.state disk.new) }
        ensures cause { HasWriteCause (D.failures disk.old) (D.failures disk.new) result }
        ensures many { IsErrOf result StoreError.TooMany → LacksRoom self.old (length bytes.now) }
    {
        self.add(bytes, digest)?;
        if self.waiting.messages.len() < PIECE {
            return Ok(());
        }
        self.write_out(disk)
    }

    /// Moves the cursor to the end: all messages are scanned. Nothing is committed.
    pub fn move_to_end(&mut self)
        ensures { self.new ≡ record self.old { recorded = record self.old.recorded { cursor = self.old.keys / 16 } } }
    {
        self.recorded.cursor = self.count() as u64;
    }

    fn tell<D: Disk>(&mut self, disk: &mut D) -> Result<(), StoreError>
        requires usable { IsUsable (D.state disk.old) self.old }
        requires written { IsWritten self.old }
        ensures stays { StaysOpen self.old self.new (D.state disk.new) result }
        ensures done { IsAcknowledged (D.state disk.old) (D.state disk.new) self.old self.new result }
        ensures run { CommitsOnly (path_of self.old) (committed_by (D.state disk.old) self.old) (held_by (D.state disk.old) self.old) (D.state disk.old) (D.state disk.new) }
        ensures leaves { LeavesOutside (path_of self.old) (D.state disk.old) (D.state disk.new) }
        ensures cause { HasWriteCause (D.failures disk.old) (D.failures disk.new) result }
        ensures many { IsErrOf result StoreError.TooMany → 2 ^ 64 ≤ self.old.end.records_len + 51 }
        ensures refused { IsErrOf result StoreError.TooMany → disk.new ≡ disk.old }
    {
        if self.end.records_len >= usize::MAX - RECORD {
            return Err(StoreError::TooMany);
        }
        let end = commit(disk, &self.names, self.end, self.recorded)?;
        self.end = end;
        Ok(())
    }

    fn acknowledge<D: Disk>(&mut self, disk: &mut D) -> Result<(), StoreError>
        requires { IsUsable (D.state disk.old) self.old }
        ensures stays { StaysOpen self.old self.new (D.state disk.new) result }
        ensures done { IsAcknowledged (D.state disk.old) (D.state disk.new) self.old self.new result }
        ensures run { CommitsOnly (path_of self.old) (committed_by (D.state disk.old) self.old) (held_by (D.state disk.old) self.old) (D.state disk.old) (D.state disk.new) }
        ensures leaves { LeavesOutside (path_of self.old) (D.state disk.old) (D.state disk.new) }
        ensures cause { HasWriteCause (D.failures disk.old) (D.failures disk.new) result }
        ensures many { IsErrOf result StoreError.TooMany → IsFull self.old }
        ensures refused { Honestly (D.state disk.new) (IsErrOf result StoreError.TooMany → LeavesOnly (D.state disk.old) (D.state disk.new)
            (RepresentsAlone (path_of self.old) (D.state disk.old) (committed_by (D.state disk.old) self.old))) }
    {
        self.write_out(disk)?;
        self.tell(disk)
    }

    fn remove_former<D: Disk>(&self, disk: &mut D, former: u8) -> Result<(), StoreError>
        requires { Honestly (D.state disk.old) (IsAtRest (D.state disk.old) (path_of self.now) self.now.end) }
        ensures settled { Honestly (D.state disk.new) (OnOk result (IsAtRest (D.state disk.new) (path_of self.now) self.now.end)) }
        ensures gone { Honestly (D.state disk.new) (OnOk result (former < 10 → former ≢ self.now.end.recorded.number → AreGone (D.state disk.new) (path_of self.now) former)) }
        ensures same { committed_by (D.state disk.new) self.now ≡ committed_by (D.state disk.old) self.now }
        ensures run { StagesOnly (path_of self.now) (committed_by (D.state disk.old) self.now) (D.state disk.old) (D.state disk.new) }
        ensures leaves { LeavesOutside (path_of self.now) (D.state disk.old) (D.state disk.new) }
        ensures cause { HasWriteCause (D.failures disk.old) (D.failures disk.new) result }
        ensures few { IsErrOf result StoreError.TooMany → ⊥ }
    {
        if former == self.end.recorded.number || former > 9 {
            return Ok(());
        }
        let alloc = *self.names.folder.allocator();
        let names = Names::new(alloc, &self.names.folder, former)?;
        remove_files(disk, &names, self.end, former)?;
        Ok(())
    }

    /// Commits its contents, and removes the files that held them before, if those are others. At `Ok` each later
    /// crash leaves the contents; after an error open the folder again.
    pub fn commit<D: Disk>(&mut self, disk: &mut D) -> Result<(), StoreError>
        requires { IsUsable (D.state disk.old) self.old }
        ensures stays { StaysOpen self.old self.new (D.state disk.new) result }
        ensures done { IsAcknowledged (D.state disk.old) (D.state disk.new) self.old self.new result }

        ensures gone { Honestly (D.state disk.new) (OnOk result (self.old.end.recorded.number < 10 → self.old.end.recorded.number ≢ self.new.end.recorded.number
            → AreGone (D.state disk.new) (path_of self.old) self.old.end.recorded.number)) }
        ensures run { CommitsOnly (path_of self.old) (committed_by (D.state disk.old) self.old) (held_by (D.state disk.old) self.old) (D.state disk.old) (D.state disk.new) }
        ensures leaves { LeavesOutside (path_of self.old) (D.state disk.old) (D.state disk.new) }
        ensures cause { HasWriteCause (D.failures disk.old) (D.failures disk.new) result }
        ensures many { IsErrOf result StoreError.TooMany → IsFull self.old }
        ensures refused { Honestly (D.state disk.new) (IsErrOf result StoreError.TooMany → LeavesOnly (D.state disk.old) (D.state disk.new)
            (RepresentsAlone (path_of self.old) (D.state disk.old) (committed_by (D.state disk.old) self.old))) }
    {
        let former = self.end.recorded.number;
        self.acknowledge(disk)?;
        self.remove_former(disk, former)
    }
}
