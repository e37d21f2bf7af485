//! A message looked up by its digest: only those that have it are read, and keys are compared whole.
ghost use Rattle.std.specs.{Prelude.{◌≡◌, ◌≤◌, ◌/◌, List, IsErrOf, OnOk}, List.list_any};
ghost use Rattle.disk_io.specs.{Disk.Honestly, Runs.ChangesNothing};
ghost use Rattle.echo_filed.specs.Filed.{Filed};
ghost use Rattle.base_store.specs.{Index.IsIndexOf, Index.covered, Keys.AreWhereRecorded};
ghost use Rattle.base_folder_store.specs.{Ahead.HasParts, Answers.Answers, Answers.HasReadCause, Answers.HaveDigest, Opened.IsLegible, Opened.held_by};

use crate::folder::{ENTRY, Folder};
use crate::read_ahead::Buffers;
use crate::sought::Sought;
use base_store::{Index, StoreError};
use disk_io::Disk;
use std::alloc::Global;

/// How many entries are read at once: 64 KiB of them.
const PIECE: usize = 4_096;

impl Folder {
    fn add_keys<D: Disk>(
        &self,
        disk: &mut D,
        index: &mut Index,
        buffers: &mut Buffers,
        digest: u64,
        from: usize,
        to: usize,
    ) -> Result<(), StoreError>
        requires legible { Honestly (D.state disk.old) (IsLegible (D.state disk.old) self.now) }
        requires parts { Honestly (D.state disk.old) (HasParts (D.state disk.old) self.now buffers.old) }
        requires order { from ≤ to }
        requires within { to ≤ self.now.keys / 16 }
        ensures indexed { Honestly (D.state disk.new) (covered index.old digest ≡ from → IsIndexOf (held_by (D.state disk.old) self.now).keys index.old
            → IsIndexOf (held_by (D.state disk.old) self.now).keys index.new) }
        ensures covered { Honestly (D.state disk.new) (covered index.old digest ≡ from → IsIndexOf (held_by (D.state disk.old) self.now).keys index.old
            → OnOk result (covered index.new digest ≡ to)) }
        ensures whole { Honestly (D.state disk.new) (IsErrOf result StoreError.Damaged → ⊥) }
        ensures parts { Honestly (D.state disk.new) (HasParts (D.state disk.old) self.now buffers.new) }
        ensures quiet { ChangesNothing (D.state disk.old) (D.state disk.new) }
        ensures cause { HasReadCause (D.failures disk.old) (D.failures disk.new) result }
        ensures few { IsErrOf result StoreError.TooMany → ⊥ }
    {
        let (begins, ends) = (ENTRY * from, ENTRY * to);
        let keys = self.key_bytes();
        if ends.saturating_sub(keys.end) > keys.waiting.len() {
            return Err(StoreError::Damaged);
        }
        buffers.keys.read(disk, keys, begins, ends)?;
        match buffers.keys.part(begins, ends) {
            Some(piece) => Ok(index.add_keys(digest, from, piece)?),
            None => Err(StoreError::Damaged),
        }
    }

    fn go_over<D: Disk>(
        &self,
        alloc: Global,
        disk: &mut D,
        index: &mut Index,
        buffers: &mut Buffers,
        digest: u64,
    ) -> Result<(), StoreError>
        requires legible { Honestly (D.state disk.old) (IsLegible (D.state disk.old) self.now) }
        requires indexed { Honestly (D.state disk.old) (IsIndexOf (held_by (D.state disk.old) self.now).keys index.old) }
        requires parts { Honestly (D.state disk.old) (HasParts (D.state disk.old) self.now buffers.old) }
        ensures indexed { Honestly (D.state disk.new) (IsIndexOf (held_by (D.state disk.old) self.now).keys index.new) }
        ensures covered { Honestly (D.state disk.new) (OnOk result (self.now.keys / 16 ≤ covered index.new digest)) }
        ensures whole { Honestly (D.state disk.new) (IsErrOf result StoreError.Damaged → ⊥) }
        ensures parts { Honestly (D.state disk.new) (HasParts (D.state disk.old) self.now buffers.new) }
        ensures quiet { ChangesNothing (D.state disk.old) (D.state disk.new) }
        ensures cause { HasReadCause (D.failures disk.old) (D.failures disk.new) result }
        ensures few { IsErrOf result StoreError.TooMany → ⊥ }
    {
        let all = self.count();
        index.begin(alloc, digest);
        let mut from = index.covered(digest);
        'pieces: while from < all {
            let to = from + (all - from).min(PIECE);
            self.add_keys(disk, index, buffers, digest, from, to)?;
            from = to;
        }
        index.chain(alloc, digest);
        Ok(())
    }

    fn find_covered<D: Disk, W: Sought>(
        &self,
        alloc: Global,
        disk: &mut D,
        index: &Index,
        buffers: &mut Buffers,
        sought: &W,
        digest: u64,
    ) -> Result<bool, StoreError>
        requires legible { Honestly (D.state disk.old) (IsLegible (D.state disk.old) self.now) }
        requires indexed { Honestly (D.state disk.old) (IsIndexOf (held_by (D.state disk.old) self.now).keys index.now) }
        requires parts { Honestly (D.state disk.old) (HasParts (D.state disk.old) self.now buffers.old) }
        requires covered { Honestly (D.state disk.old) (self.now.keys / 16 ≤ covered index.now digest) }
        ensures found { Honestly (D.state disk.new) ((base : List Filed) → AreWhereRecorded base (held_by (D.state disk.old) self.now).messages (held_by (D.state disk.old) self.now).keys
            → HaveDigest (W.test sought.now) digest base (held_by (D.state disk.old) self.now).keys
            → Answers (λ found. found ≡ list_any (W.test sought.now) base) result) }
        ensures parts { Honestly (D.state disk.new) (HasParts (D.state disk.old) self.now buffers.new) }
        ensures quiet { ChangesNothing (D.state disk.old) (D.state disk.new) }
        ensures cause { HasReadCause (D.failures disk.old) (D.failures disk.new) result }
        ensures few { IsErrOf result StoreError.TooMany → ⊥ }
    {
        let mut below = self.count();
        'entries: while let Some(place) = index.find_below(digest, below) {
            if self.is_sought(alloc, disk, index, buffers, sought, place)? {
                return Ok(true);
            }
            below = place;
        }
        Ok(false)
    }

    /// Whether a message is the sought one, if each such message has the digest. The index belongs to the folder's
    /// keys; it takes in those that it lacks.
    pub fn find<D: Disk, W: Sought>(
        &self,
        alloc: Global,
        disk: &mut D,
        index: &mut Index,
        buffers: &mut Buffers,
        sought: &W,
        digest: u64,
    ) -> Result<bool, StoreError>
        requires legible { Honestly (D.state disk.old) (IsLegible (D.state disk.old) self.now) }
        requires indexed { Honestly (D.state disk.old) (IsIndexOf (held_by (D.state disk.old) self.now).keys index.old) }
        requires parts { Honestly (D.state disk.old) (HasParts (D.state disk.old) self.now buffers.old) }
        ensures found { Honestly (D.state disk.new) ((base : List Filed) → AreWhereRecorded base (held_by (D.state disk.old) self.now).messages (held_by (D.state disk.old) self.now).keys
            → HaveDigest (W.test sought.now) digest base (held_by (D.state disk.old) self.now).keys
            → Answers (λ found. found ≡ list_any (W.test sought.now) base) result) }
        ensures indexed { Honestly (D.state disk.new) (IsIndexOf (held_by (D.state disk.old) self.now).keys index.new) }
        ensures parts { Honestly (D.state disk.new) (HasParts (D.state disk.old) self.now buffers.new) }
        ensures quiet { ChangesNothing (D.state disk.old) (D.state disk.new) }
        ensures cause { HasReadCause (D.failures disk.old) (D.failures disk.new) result }
        ensures few { IsErrOf result StoreError.TooMany → ⊥ }
    {
        self.go_over(alloc, disk, index, buffers, digest)?;
        self.find_covered(alloc, disk, index, buffers, sought, digest)
    }
}
