//! Messages are added behind a base file, and all are marked as scanned. Nothing is written.
ghost use Rattle.std.specs.Prelude.{◌≡◌, ◌≤◌, ◌<◌, ◌+◌, ◌-◌, ◌/◌, ◌^◌, ◌++◌, ◌||◌, ℕ, false, List, length, IfErr, IfOk, IsErrOf, OnErr, OnOk};
ghost use Rattle.{echo_filed.specs.Filed.key_of, base_file.specs.Base.{Base, is_known}, base_store.specs.{Keys.digested, Store.with_message}};
ghost use Rattle.station_bases.specs.Entries.{AreIndexed, HasRoomFor, HoldEntries, IsUnsaved, SameButAdded, entry_digest};

use crate::entries::{Entries, HEAD};
use crate::entry_saving::MOST;
use base_folder_store::{bytes_alone, one_message_more};
use base_store::{StoreError, entry};
use echo_filed::{Filed, is_short, is_short_enough};
use std::alloc::{AllocError, Global};

/// A fault, unless a base file with so many messages can have this one too.
pub(crate) fn check_room(alloc: Global, count: usize, message: &Filed) -> Result<(), StoreError>
    ensures room { OnOk result (HasRoomFor count message.now) }
    ensures many { IsErrOf result StoreError.TooMany → HasRoomFor count message.now → ⊥ }
    ensures err { IfErr result IsUnsaved }
{
    if count >= MOST || !is_short_enough(alloc, message, false)? {
        return Err(StoreError::TooMany);
    }
    Ok(())
}

fn either(one: bool, other: bool) -> bool
    ensures { result ≡ (one || other) }
{
    one || other
}

impl Entries {
    // Adds the bytes of a message, and its entry. If memory is refused, both are as they were.
    fn push(&mut self, bytes: &[u8], entry: &[u8]) -> Result<(), AllocError>
        ensures waiting { OnOk result (self.new.waiting.items ≡ self.old.waiting.items ++ bytes.now) }
        ensures keys { OnOk result (self.new.keys.items ≡ self.old.keys.items ++ entry.now) }
        ensures waiting_as_before { OnErr result (self.new.waiting.items ≡ self.old.waiting.items) }
        ensures keys_as_before { OnErr result (self.new.keys.items ≡ self.old.keys.items) }
        ensures same { self.new ≡ record self.old { waiting = self.new.waiting; keys = self.new.keys } }
    {
        let before = self.waiting.len();
        self.waiting.extend_from_slice(bytes)?;
        if self.keys.extend_from_slice(entry).is_err() {
            self.waiting.truncate(before);
            return Err(AllocError);
        }
        Ok(())
    }

    // Where the next message begins, behind the head of the file, if numbers count so many bytes more.
    fn next_place(&self, more: usize) -> Result<usize, AllocError>
        ensures place { IfOk result (λ place. place ≡ self.now.end - 16 + length self.now.waiting.items) }
        ensures room { IfOk result (λ place. place + more < 2 ^ 64) }
    {
        let Some(place) = self
            .end
            .saturating_sub(HEAD)
            .checked_add(self.waiting.len())
        else {
            return Err(AllocError);
        };
        if more > usize::MAX - place {
            return Err(AllocError);
        }
        Ok(place)
    }

    /// Adds a message with the digest of its key. At an error nothing has changed.
    pub(crate) fn add(
        &mut self,
        alloc: Global,
        message: &Filed,
        digest: u64,
    ) -> Result<(), StoreError>
        requires { AreIndexed self.old }
        ensures held { (file : List ℕ) (base : Base) → self.old.end ≤ length file → HoldEntries file self.old base
            → is_known base.messages (key_of message.now) ≡ false → digest ≡ entry_digest self.old (digested message.now)
            → OnOk result (HoldEntries file self.new (with_message base message.now)) }
        ensures as_before { (file : List ℕ) (base : Base) → HoldEntries file self.old base → OnErr result (HoldEntries file self.new base) }
        ensures indexed { AreIndexed self.new }
        ensures same { SameButAdded self.old self.new }
        ensures many { IsErrOf result StoreError.TooMany → HasRoomFor (length self.old.keys.items / 16) message.now → ⊥ }
        ensures whole { IsErrOf result StoreError.Damaged → ⊥ }
        ensures device { IsErrOf result StoreError.Device → ⊥ }
    {
        one_message_more();
        check_room(alloc, self.count(), message)?;
        let bytes = bytes_alone(alloc, message)?;
        let place = self.next_place(bytes.len())?;
        let entry = entry(place as u64, digest);
        self.push(&bytes, &entry)?;
        self.odd = either(self.odd, is_short(message, 0, 1));
        Ok(())
    }
}
