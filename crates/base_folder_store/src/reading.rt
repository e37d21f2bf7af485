//! Messages and keys of an open base folder, read from its files and from what waits to be written.
ghost use Rattle.std.specs.Prelude.{◌≡◌, ◌≤◌, ◌<◌, ◌+◌, ◌-◌, ◌*◌, ◌/◌, List, length, min, slice_index_or, IfOk, IsErrOf, IfSome};
ghost use Rattle.disk_io.specs.{Disk.Honestly, Runs.ChangesNothing};
ghost use Rattle.echo_filed.specs.{Filed.Filed, Stored.Stored, Stored.message_in, Stored.stored_bytes, declared.stored.Version.TheVariants.Second};
ghost use Rattle.base_store.specs.{Index.IsIndexOf, Keys.HasBytesOf, Keys.IsPieceOf, Keys.AreWhereRecorded};
ghost use Rattle.base_folder_store.specs.{Ahead.HasParts, Answers.Answers, Answers.HasReadCause, Answers.IsStoredOf, Extent.IsExtent, Opened.IsLegible, Opened.held_by, Vouched.IsReadAt, Vouched.IsReadOf, Vouched.IsThere};

use crate::extent::{Extent, fill_across, is_at, read_at, stored_at};
use crate::folder::{ENTRY, Folder};
use crate::read_ahead::Buffers;
use crate::sought::Sought;
use base_store::{Index, StoreError, stored_digest};
use disk_io::Disk;
use echo_filed::Filed;
use std::alloc::Global;

#[derive(Drop)]
pub(crate) struct StoredBytes {
    pub(crate) bytes: Vec<u8>,
    pub(crate) digest: u64,
}

/// A message that was read, and the digest in its entry.
#[derive(Drop)]
pub(crate) struct ReadMessage {
    pub(crate) message: Filed,
    pub(crate) digest: u64,
}

impl Folder {
    pub(crate) fn key_bytes(&self) -> Extent<'_>
        ensures { IsExtent self.now.names.keys.items self.now.recorded.keys self.now.waiting.keys.items result }
    {
        Extent {
            path: &self.names.keys,
            head: 0,
            end: self.recorded.keys,
            waiting: &self.waiting.keys,
        }
    }

    fn message_bytes(&self) -> Extent<'_>
        ensures { IsExtent self.now.names.messages.items self.now.recorded.messages self.now.waiting.messages.items result }
    {
        Extent {
            path: &self.names.messages,
            head: 0,
            end: self.recorded.messages,
            waiting: &self.waiting.messages,
        }
    }

    pub(crate) fn read_keys<D: Disk>(
        &self,
        alloc: Global,
        disk: &mut D,
        from: usize,
        to: usize,
    ) -> Result<Vec<u8>, StoreError>
        requires legible { Honestly (D.state disk.old) (IsLegible (D.state disk.old) self.now) }
        requires order { from ≤ to }
        requires within { to ≤ self.now.keys / 16 }
        ensures long { IfOk result (λ piece. length piece.items ≡ 16 * to - 16 * from) }
        ensures piece { Honestly (D.state disk.new) (IfOk result (λ piece. IsPieceOf (held_by (D.state disk.old) self.now).keys from piece.items)) }
        ensures whole { Honestly (D.state disk.new) (IsErrOf result StoreError.Damaged → ⊥) }
        ensures quiet { ChangesNothing (D.state disk.old) (D.state disk.new) }
        ensures cause { HasReadCause (D.failures disk.old) (D.failures disk.new) result }
        ensures few { IsErrOf result StoreError.TooMany → ⊥ }
    {
        let (begins, ends) = (ENTRY * from, ENTRY * to);
        let keys = self.key_bytes();
        if ends.saturating_sub(keys.end) > keys.waiting.len() {
            return Err(StoreError::Damaged);
        }
        let mut piece = Vec::new(alloc);
        fill_across(disk, keys, begins, ends, &mut piece)?;
        // Only a file that others cut ends before that.
        if piece.len() != ends - begins {
            return Err(StoreError::Damaged);
        }
        Ok(piece)
    }

    fn behind_two(&self, place: usize) -> usize
        requires { place < self.now.keys / 16 }
        ensures { result ≡ place + min 2 (self.now.keys / 16 - place) }
    {
        place + (self.count() - place).min(2)
    }

    // The entry of this message, and the next one if there is one. They are read only if the index lacks them.
    pub(crate) fn entry_at<D: Disk>(
        &self,
        alloc: Global,
        disk: &mut D,
        index: Option<&Index>,
        place: usize,
    ) -> Result<Vec<u8>, StoreError>
        requires legible { Honestly (D.state disk.old) (IsLegible (D.state disk.old) self.now) }
        requires indexed { Honestly (D.state disk.old) (IfSome index (λ index. IsIndexOf (held_by (D.state disk.old) self.now).keys index.now)) }
        requires within { place < self.now.keys / 16 }
        ensures long { IfOk result (λ entry. length entry.items / 16 ≡ min 2 (self.now.keys / 16 - place)) }
        ensures entry { Honestly (D.state disk.new) (IfOk result (λ entry. IsPieceOf (held_by (D.state disk.old) self.now).keys place entry.items)) }
        ensures whole { Honestly (D.state disk.new) (IsErrOf result StoreError.Damaged → ⊥) }
        ensures quiet { ChangesNothing (D.state disk.old) (D.state disk.new) }
        ensures cause { HasReadCause (D.failures disk.old) (D.failures disk.new) result }
        ensures few { IsErrOf result StoreError.TooMany → ⊥ }
    {
        let next = self.behind_two(place);
        let held = match index {
            Some(index) => index.piece(place, next),
            None => None,
        };
        match held {
            Some(piece) => Ok(Vec::from_slice(alloc, piece)?),
            None => self.read_keys(alloc, disk, place, next),
        }
    }

    pub(crate) fn stored<D: Disk>(
        &self,
        alloc: Global,
        disk: &mut D,
        index: Option<&Index>,
        place: usize,
    ) -> Result<StoredBytes, StoreError>
        requires legible { Honestly (D.state disk.old) (IsLegible (D.state disk.old) self.now) }
        requires indexed { Honestly (D.state disk.old) (IfSome index (λ index. IsIndexOf (held_by (D.state disk.old) self.now).keys index.now)) }
        requires within { place < self.now.keys / 16 }
        ensures stored { Honestly (D.state disk.new) ((base : List Filed) → AreWhereRecorded base (held_by (D.state disk.old) self.now).messages (held_by (D.state disk.old) self.now).keys
            → place < length base → Answers (λ stored. IsStoredOf base place stored.bytes.items) result) }
        ensures there { Honestly (D.state disk.new) ((s : Stored) → HasBytesOf (held_by (D.state disk.old) self.now).messages (held_by (D.state disk.old) self.now).keys place s
            → Answers (λ stored. stored.bytes.items ≡ stored_bytes Second s) result) }
        ensures at { Honestly (D.state disk.new) (IfOk result (IsReadAt (held_by (D.state disk.old) self.now) place)) }
        ensures quiet { ChangesNothing (D.state disk.old) (D.state disk.new) }
        ensures cause { HasReadCause (D.failures disk.old) (D.failures disk.new) result }
        ensures few { IsErrOf result StoreError.TooMany → ⊥ }
    {
        let entry = self.entry_at(alloc, disk, index, place)?;
        let bytes = stored_at(alloc, disk, self.message_bytes(), &entry, 0)?;
        let digest = stored_digest(&entry, 0);
        Ok(StoredBytes { bytes, digest })
    }

    // Whether the message of this number is the sought one. It is read ahead.
    pub(crate) fn is_sought<D: Disk, W: Sought>(
        &self,
        alloc: Global,
        disk: &mut D,
        index: &Index,
        buffers: &mut Buffers,
        sought: &W,
        place: usize,
    ) -> Result<bool, StoreError>
        requires legible { Honestly (D.state disk.old) (IsLegible (D.state disk.old) self.now) }
        requires indexed { Honestly (D.state disk.old) (IsIndexOf (held_by (D.state disk.old) self.now).keys index.now) }
        requires parts { Honestly (D.state disk.old) (HasParts (D.state disk.old) self.now buffers.old) }
        requires within { place < self.now.keys / 16 }
        ensures found { Honestly (D.state disk.new) ((base : List Filed) (d : Filed) → AreWhereRecorded base (held_by (D.state disk.old) self.now).messages (held_by (D.state disk.old) self.now).keys
            → place < length base → Answers (λ found. found ≡ W.test sought.now (slice_index_or base place d)) result) }
        ensures parts { Honestly (D.state disk.new) (HasParts (D.state disk.old) self.now buffers.new) }
        ensures quiet { ChangesNothing (D.state disk.old) (D.state disk.new) }
        ensures cause { HasReadCause (D.failures disk.old) (D.failures disk.new) result }
        ensures few { IsErrOf result StoreError.TooMany → ⊥ }
    {
        let entry = self.entry_at(alloc, disk, Some(index), place)?;
        let ahead = &mut buffers.messages;
        is_at(alloc, disk, self.message_bytes(), ahead, sought, &entry)
    }

    /// The message of this number, counted from 0. It and its entry are read ahead.
    pub(crate) fn read<D: Disk>(
        &self,
        disk: &mut D,
        buffers: &mut Buffers,
        place: usize,
    ) -> Result<ReadMessage, StoreError>
        requires legible { Honestly (D.state disk.old) (IsLegible (D.state disk.old) self.now) }
        requires parts { Honestly (D.state disk.old) (HasParts (D.state disk.old) self.now buffers.old) }
        requires within { place < self.now.keys / 16 }
        ensures there { Honestly (D.state disk.new) ((s : Stored) → IsThere (held_by (D.state disk.old) self.now) place s → Answers (λ read. read.message ≡ message_in Second s) result) }
        ensures at { Honestly (D.state disk.new) (IfOk result (IsReadOf (held_by (D.state disk.old) self.now) place)) }
        ensures parts { Honestly (D.state disk.new) (HasParts (D.state disk.old) self.now buffers.new) }
        ensures quiet { ChangesNothing (D.state disk.old) (D.state disk.new) }
        ensures cause { HasReadCause (D.failures disk.old) (D.failures disk.new) result }
        ensures few { IsErrOf result StoreError.TooMany → ⊥ }
    {
        let (begins, ends) = (ENTRY * place, ENTRY * self.behind_two(place));
        let keys = self.key_bytes();
        if ends.saturating_sub(keys.end) > keys.waiting.len() {
            return Err(StoreError::Damaged);
        }
        buffers.keys.read(disk, keys, begins, ends)?;
        let Some(entry) = buffers.keys.part(begins, ends) else {
            return Err(StoreError::Damaged);
        };
        let (ahead, room) = (&mut buffers.messages, &mut buffers.room);
        let message = read_at(disk, self.message_bytes(), ahead, room, entry, 0)?;
        let digest = stored_digest(entry, 0);
        Ok(ReadMessage { message, digest })
    }
}
