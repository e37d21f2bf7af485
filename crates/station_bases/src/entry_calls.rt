//! The calls of a store on a base file with its messages left in the file.
ghost use Rattle.std.specs.{Prelude.{◌≡◌, ◌<◌, ◌≤◌, ◌/◌, ℕ, List, false, length, slice_get, option_copied, IsErrOf, OnErr, OnOk}, List.list_any};
ghost use Rattle.{disk_io.specs.{Disk.{Honestly, bytes_in}, Runs.ChangesNothing}, echo_filed.specs.Filed.{has_id, key_of}, base_file.specs.Base.{Base, is_known}};
ghost use Rattle.{base_store.specs.Store.{all_scanned, with_message}, base_folder_store.specs.{Ahead.IsPartOf, Answers.{Answers, HasReadCause}}};
ghost use Rattle.station_bases.specs.Entries.{AreIndexed, CanFetch, CanLookUp, HasRoomFor, HoldEntries, SameButAdded, message_bytes};

use crate::entries::Entries;
use base_folder_store::Id;
use base_store::{Digest, StoreError, digest_of_key};
use disk_io::Disk;
use echo_filed::{Filed, Key};
use std::alloc::Global;

impl Entries {
    /// Whether a message has the key.
    pub(crate) fn knows<D: Disk>(
        &mut self,
        alloc: Global,
        disk: &mut D,
        path: &[u8],
        key: &Key,
    ) -> Result<bool, StoreError>
        requires can { CanLookUp (D.state disk.old) path.now self.old }
        ensures found { Honestly (D.state disk.new) ((base : Base) → HoldEntries (bytes_in ((D.state disk.old).seen path.now)) self.old base
            → Answers (λ found. found ≡ is_known base.messages key.now) result) }
        ensures same { self.new ≡ record self.old { chains = self.new.chains } }
        ensures indexed { AreIndexed self.new }
        ensures quiet { ChangesNothing (D.state disk.old) (D.state disk.new) }
        ensures cause { HasReadCause (D.failures disk.old) (D.failures disk.new) result }
        ensures few { IsErrOf result StoreError.TooMany → ⊥ }
    {
        let digest = digest_of_key(alloc, &self.digest, key)?;
        self.find(alloc, disk, path, key, digest)
    }

    /// Whether a message has the id, in any area.
    pub(crate) fn has_id<D: Disk>(
        &mut self,
        alloc: Global,
        disk: &mut D,
        path: &[u8],
        msgid: &[u8],
    ) -> Result<bool, StoreError>
        requires can { CanLookUp (D.state disk.old) path.now self.old }
        ensures found { Honestly (D.state disk.new) ((base : Base) → HoldEntries (bytes_in ((D.state disk.old).seen path.now)) self.old base
            → Answers (λ found. found ≡ list_any (has_id msgid.now) base.messages) result) }
        ensures same { self.new ≡ record self.old { chains = self.new.chains } }
        ensures indexed { AreIndexed self.new }
        ensures quiet { ChangesNothing (D.state disk.old) (D.state disk.new) }
        ensures cause { HasReadCause (D.failures disk.old) (D.failures disk.new) result }
        ensures few { IsErrOf result StoreError.TooMany → ⊥ }
    {
        let digest = self.digest.of(msgid);
        self.find(alloc, disk, path, &Id { msgid }, digest)
    }

    /// Makes the message of this number the current one.
    pub(crate) fn fetch<D: Disk>(
        &mut self,
        disk: &mut D,
        path: &[u8],
        place: usize,
    ) -> Result<(), StoreError>
        requires can { CanFetch (D.state disk.old) path.now self.old }
        ensures fetched { Honestly (D.state disk.new) ((base : Base) → HoldEntries (bytes_in ((D.state disk.old).seen path.now)) self.old base
            → place < length base.messages → Answers (λ done. self.new.message ≡ slice_get base.messages place) result) }
        ensures same { self.new ≡ record self.old { message = self.new.message; ahead = self.new.ahead; room = self.new.room } }
        ensures ahead { Honestly (D.state disk.new) (IsPartOf (message_bytes (bytes_in ((D.state disk.old).seen path.now)) self.old) self.new.ahead) }
        ensures quiet { ChangesNothing (D.state disk.old) (D.state disk.new) }
        ensures cause { HasReadCause (D.failures disk.old) (D.failures disk.new) result }
        ensures few { IsErrOf result StoreError.TooMany → ⊥ }
    {
        if place >= self.count() {
            return Err(StoreError::Damaged);
        }
        let message = self.read(disk, path, place)?;
        let gone = self.message.replace(message);
        self.room.take_back(gone);
        Ok(())
    }

    /// The current message.
    pub(crate) fn at_hand(&self) -> Option<&Filed>
        ensures { option_copied result ≡ self.now.message }
    {
        self.message.as_ref()
    }

    /// Adds a message with its key.
    pub(crate) fn file(
        &mut self,
        alloc: Global,
        key: &Key,
        message: &Filed,
    ) -> Result<(), StoreError>
        requires own { key.now ≡ key_of message.now }
        requires indexed { AreIndexed self.old }
        ensures held { (file : List ℕ) (base : Base) → self.old.end ≤ length file → HoldEntries file self.old base → is_known base.messages key.now ≡ false
            → OnOk result (HoldEntries file self.new (with_message base message.now)) }
        ensures as_before { (file : List ℕ) (base : Base) → HoldEntries file self.old base → OnErr result (HoldEntries file self.new base) }
        ensures indexed { AreIndexed self.new }
        ensures same { SameButAdded self.old self.new }
        ensures many { IsErrOf result StoreError.TooMany → HasRoomFor (length self.old.keys.items / 16) message.now → ⊥ }
        ensures whole { IsErrOf result StoreError.Damaged → ⊥ }
        ensures device { IsErrOf result StoreError.Device → ⊥ }
    {
        let digest = digest_of_key(alloc, &self.digest, key)?;
        self.add(alloc, message, digest)
    }

    /// All messages are scanned. No message changes its stored form then.
    pub(crate) fn move_to_end(&mut self)
        requires { self.old.odd ≡ false }
        ensures held { (file : List ℕ) (base : Base) → HoldEntries file self.old base → HoldEntries file self.new (all_scanned base) }
        ensures same { self.new ≡ record self.old { cursor = self.new.cursor } }
    {
        self.cursor = self.count();
    }
}
