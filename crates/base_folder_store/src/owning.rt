//! The owner of a base folder, and the digests by its key.
ghost use Rattle.std.specs.Prelude.{◌≡◌, true, false, IfOk};
ghost use Rattle.base_store.specs.Keys.{digested_key};
ghost use Rattle.base_folder_store.specs.{Held.digest_by, Owned.IsUnclaimed, Owned.owner_of, Owned.with_mark, Owned.with_owner};

use crate::folder::Folder;
use base_log::FolderIdentity;
use base_store::{Digest, digest_of_key};
use echo_filed::Key;
use std::alloc::{AllocError, Global};

impl Folder {
    /// Its owner; none if it has no owner.
    pub fn owner(&self) -> Option<u64>
        ensures { result ≡ owner_of self.now.recorded.mark }
    {
        if self.recorded.mark.owner == 0 {
            return None;
        }
        Some(self.recorded.mark.owner)
    }

    /// Gives it an owner and a key, if it has no owner and no message, and returns whether it did. Nothing is
    /// committed.
    pub fn claim(&mut self, mark: FolderIdentity) -> bool
        ensures claimed { result ≡ true → IsUnclaimed self.old × (self.new ≡ with_mark self.old mark) }
        ensures refused { result ≡ false → (IsUnclaimed self.old → ⊥) × (self.new ≡ self.old) }
    {
        if self.recorded.mark.owner != 0 || self.keys != 0 {
            return false;
        }
        self.recorded.mark = mark;
        true
    }

    /// Gives it an owner, if it has none, and returns whether it did. Its key stays. Nothing is committed.
    pub fn adopt(&mut self, owner: u64) -> bool
        ensures adopted { result ≡ true → (self.old.recorded.mark.owner ≡ 0) × (self.new ≡ with_owner self.old owner) }
        ensures refused { result ≡ false → (self.old.recorded.mark.owner ≡ 0 → ⊥) × (self.new ≡ self.old) }
    {
        if self.recorded.mark.owner != 0 {
            return false;
        }
        self.recorded.mark.owner = owner;
        true
    }

    /// The digest of a message with this key, by the folder's key.
    pub fn digest_of_key<H: Digest>(&self, alloc: Global, key: &Key) -> Result<u64, AllocError>
        ensures { IfOk result (λ digest. digest ≡ digest_by H.keyed self.now.recorded.mark (digested_key key.now)) }
    {
        let mark = self.recorded.mark;
        digest_of_key(alloc, &H::keyed(mark.first, mark.second), key)
    }

    pub(crate) fn digest<H: Digest>(&self, bytes: &[u8]) -> u64
        ensures { result ≡ digest_by H.keyed self.now.recorded.mark bytes.now }
    {
        H::keyed(self.recorded.mark.first, self.recorded.mark.second).of(bytes)
    }
}
