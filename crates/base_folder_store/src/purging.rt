//! A purge: what it leaves of each message is staged in files of another number, which the next commit names.
ghost use Rattle.std.specs.Prelude.{◌≡◌, ◌≢◌, ◌<◌, ◌+◌, ◌/◌, ◌^◌, ℕ, List, [], length, IfOk, IsErrOf, OnOk, if◌then◌else◌};
ghost use Rattle.disk_io.specs.Disk.{Honestly};
ghost use Rattle.base_file.specs.{Base.Base, Purging.changed_by};
ghost use Rattle.base_log.specs.AtRest.{IsAtRest};
ghost use Rattle.base_store.specs.Store.{purged};
ghost use Rattle.base_folder_store.specs.Calls.{CommitsOnly, HasWriteCause, StagesOnly, StaysInFiles, StaysOpen};
ghost use Rattle.base_folder_store.specs.Left.{AreLegible, ArePaired, HasPurgeCause, IsPurgedTo, IsReadable, IsStagedFew, changed_in};
ghost use Rattle.base_folder_store.specs.{Added.IsFull, Added.LacksRoom, Answers.HasReadCause, Held.HoldsBase, Opened.IsOpen, Opened.committed_by, Opened.held_by, Opened.path_of, State.IsUsable};

use crate::folder::Folder;
use crate::leaving::left_of;
use crate::waiting::Waiting;
use base_file::PurgeRange;
use base_log::{Names, stage_anew};
use base_store::StoreError;
use disk_io::Disk;
use std::alloc::Global;

fn other_number(number: u8) -> u8
    ensures digit { result < 10 }
    ensures other { result ≢ number }
{
    if number == 0 { 1 } else { 0 }
}

fn one_if(so: bool) -> u64
    ensures { result ≡ (if so then 1 else 0) }
{
    u64::from(so)
}

// Does nothing: its contract is for the prover, and holds for each number.
fn is_counted(number: usize)
    ensures { number < 2 ^ 64 }
{
    let _number = number;
}

impl Folder {
    fn anew<D: Disk>(&self, alloc: Global, disk: &mut D) -> Result<Folder, StoreError>
        requires settled { Honestly (D.state disk.old) (IsAtRest (D.state disk.old) (path_of self.now) self.now.end) }
        requires readable { Honestly (D.state disk.old) (IsReadable (D.state disk.old) self.now) }
        ensures paired { IfOk result (ArePaired (D.state disk.new) self.now) }
        ensures opened { Honestly (D.state disk.new) (IfOk result (IsOpen (D.state disk.new))) }
        ensures empty { IfOk result (λ next. held_by (D.state disk.new) next ≡ record { messages = []; keys = []; cursor = 0; mark = self.now.end.recorded.mark }) }
        ensures committed { Honestly (D.state disk.new) (IfOk result (λ next. committed_by (D.state disk.new) next ≡ committed_by (D.state disk.old) self.now)) }
        ensures run { StagesOnly (path_of self.now) (committed_by (D.state disk.old) self.now) (D.state disk.old) (D.state disk.new) }
        ensures cause { HasWriteCause (D.failures disk.old) (D.failures disk.new) result }
        ensures few { IsErrOf result StoreError.TooMany → ⊥ }
    {
        let number = other_number(self.end.recorded.number);
        let names = Names::new(alloc, &self.names.folder, number)?;
        let recorded = stage_anew(disk, &names, self.end, number, 0)?;
        let waiting = Waiting::new(alloc);
        Ok(Folder {
            names,
            end: self.end,
            recorded,
            keys: 0,
            waiting,
        })
    }

    fn leave_next<D: Disk>(
        &self,
        alloc: Global,
        disk: &mut D,
        next: &mut Folder,
        range: &PurgeRange,
        place: usize,
    ) -> Result<bool, StoreError>
        requires within { place < self.now.keys / 16 }
        requires purged { IsPurgedTo range.now (D.state disk.old) self.now next.old place }
        ensures purged { OnOk result (IsPurgedTo range.now (D.state disk.new) self.now next.new (place + 1)) }
        ensures changed { Honestly (D.state disk.new) ((keyed : ℕ → ℕ → List ℕ → ℕ) (base : Base) → HoldsBase keyed (committed_by (D.state disk.old) next.old) base
            → IfOk result (λ one. changed_in range.now base (place + 1) ≡ changed_in range.now base place + (if one then 1 else 0))) }
        ensures same { Honestly (D.state disk.new) (OnOk result (committed_by (D.state disk.new) next.new ≡ committed_by (D.state disk.old) next.old)) }
        ensures run { StagesOnly (path_of next.old) (committed_by (D.state disk.old) next.old) (D.state disk.old) (D.state disk.new) }
        ensures cause { HasPurgeCause (D.state disk.new) (committed_by (D.state disk.old) next.old) (D.failures disk.old) (D.failures disk.new) result }
        ensures few { IsErrOf result StoreError.TooMany → ⊥ }
    {
        let stored = self.stored(alloc, disk, None, place)?;
        let digest = stored.digest;
        let cursor = self.end.recorded.cursor;
        let scanned = (place as u64) < cursor;
        let end = range.end(cursor);
        let before = (place as u64) < end;
        let left = left_of(alloc, stored.bytes, range, scanned, before)?;
        next.stage_left(disk, &left.bytes, digest)?;
        Ok(left.changed)
    }

    // Stages the purged form of a message. It has no more bytes than before, so too many bytes are damage.
    fn stage_left<D: Disk>(
        &mut self,
        disk: &mut D,
        bytes: &[u8],
        digest: u64,
    ) -> Result<(), StoreError>
        requires { IsUsable (D.state disk.old) self.old }
        ensures stays { StaysOpen self.old self.new (D.state disk.new) result }
        ensures staged { Honestly (D.state disk.new) (OnOk result (IsStagedFew (D.state disk.old) (D.state disk.new) self.old self.new bytes.now digest)) }
        ensures same { Honestly (D.state disk.new) (OnOk result (committed_by (D.state disk.new) self.new ≡ committed_by (D.state disk.old) self.old)) }
        ensures files { StaysInFiles self.old self.new (D.state disk.old).seen (D.state disk.new).seen }
        ensures run { StagesOnly (path_of self.old) (committed_by (D.state disk.old) self.old) (D.state disk.old) (D.state disk.new) }
        ensures cause { HasReadCause (D.failures disk.old) (D.failures disk.new) result }
        ensures damaged { IsErrOf result StoreError.Damaged → LacksRoom self.old (length bytes.now) }
        ensures few { IsErrOf result StoreError.TooMany → ⊥ }
    {
        match self.stage(disk, bytes, digest) {
            Err(StoreError::TooMany) => Err(StoreError::Damaged),
            staged => staged,
        }
    }

    fn leave_all<D: Disk>(
        &self,
        alloc: Global,
        disk: &mut D,
        next: &mut Folder,
        range: &PurgeRange,
    ) -> Result<u64, StoreError>
        requires { IsPurgedTo range.now (D.state disk.old) self.now next.old 0 }
        ensures purged { OnOk result (IsPurgedTo range.now (D.state disk.new) self.now next.new (self.now.keys / 16)) }
        ensures changed { Honestly (D.state disk.new) ((keyed : ℕ → ℕ → List ℕ → ℕ) (base : Base) → HoldsBase keyed (committed_by (D.state disk.old) next.old) base
            → IfOk result (λ count. count ≡ changed_in range.now base (length base.messages))) }
        ensures same { Honestly (D.state disk.new) (OnOk result (committed_by (D.state disk.new) next.new ≡ committed_by (D.state disk.old) next.old)) }
        ensures run { StagesOnly (path_of next.old) (committed_by (D.state disk.old) next.old) (D.state disk.old) (D.state disk.new) }
        ensures cause { HasPurgeCause (D.state disk.new) (committed_by (D.state disk.old) next.old) (D.failures disk.old) (D.failures disk.new) result }
        ensures few { IsErrOf result StoreError.TooMany → ⊥ }
    {
        let mut changed = 0u64;
        'messages: for place in 0..self.count() {
            let one = self.leave_next(alloc, disk, next, range, place)?;
            changed += one_if(one);
        }
        Ok(changed)
    }

    /// Commits its contents, and then purges: a scanned message in the range that has an id keeps only the id of its
    /// text. Returns how many changed. The next commit keeps the purge. After an error open the folder again.
    pub fn purge<D: Disk>(
        &mut self,
        alloc: Global,
        disk: &mut D,
        range: &PurgeRange,
    ) -> Result<u64, StoreError>
        requires { IsUsable (D.state disk.old) self.old }
        ensures stays { StaysOpen self.old self.new (D.state disk.new) result }
        ensures purged { Honestly (D.state disk.new) ((keyed : ℕ → ℕ → List ℕ → ℕ) (base : Base) → HoldsBase keyed (held_by (D.state disk.old) self.old) base
            → OnOk result (HoldsBase keyed (held_by (D.state disk.new) self.new) (purged range.now base))) }
        ensures count { Honestly (D.state disk.new) ((keyed : ℕ → ℕ → List ℕ → ℕ) (base : Base) → HoldsBase keyed (held_by (D.state disk.old) self.old) base
            → IfOk result (λ count. count ≡ changed_by range.now base.messages base.cursor)) }
        ensures committed { Honestly (D.state disk.new) (OnOk result (committed_by (D.state disk.new) self.new ≡ held_by (D.state disk.old) self.old)) }
        ensures read { Honestly (D.state disk.new) (OnOk result (AreLegible (held_by (D.state disk.old) self.old) (length (held_by (D.state disk.old) self.old).keys / 16))) }
        ensures run { CommitsOnly (path_of self.old) (committed_by (D.state disk.old) self.old) (held_by (D.state disk.old) self.old) (D.state disk.old) (D.state disk.new) }
        ensures cause { HasPurgeCause (D.state disk.new) (held_by (D.state disk.old) self.old) (D.failures disk.old) (D.failures disk.new) result }
        ensures many { IsErrOf result StoreError.TooMany → IsFull self.old }
    {
        self.commit(disk)?;
        is_counted(self.recorded.messages);
        let mut next = self.anew(alloc, disk)?;
        let changed = self.leave_all(alloc, disk, &mut next, range)?;
        next.recorded.cursor = self.end.recorded.cursor;
        *self = next;
        Ok(changed)
    }
}
