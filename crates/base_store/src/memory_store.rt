//! A base in memory as a store.

ghost use Rattle.std.specs.Prelude.{◌≡◌, slice_get};
ghost use Rattle.base_store.specs.Store.{no_disk};

use crate::store::{PurgedStore, Store};
use crate::store_error::StoreError;
use base_file::{Base, PurgeRange};
use echo_filed::{Filed, Key};
use std::hash::BuildHasher;

/// A base in memory. It is on no disk, so any files represent any base: its owner saves it as a file.
#[derive(Drop)]
pub struct MemoryStore<S: BuildHasher> {
    base: Base<S>,
    place: usize,
}

impl<S: BuildHasher> MemoryStore<S> {
    /// The base as a store.
    pub fn new(base: Base<S>) -> MemoryStore<S>
        ensures { (⟦<MemoryStore<S> as Store>⟧.state result).keeps base }
    {
        MemoryStore { base, place: 0 }
    }

    /// The base.
    pub fn base(&self) -> &Base<S>
        ensures { (⟦<MemoryStore<S> as Store>⟧.state self.now).keeps result.now }
    {
        &self.base
    }
}

impl<S: BuildHasher> Store for MemoryStore<S> {
    ghost state = { λ store. record {
      disk = no_disk;
      is_ready = Unit {0};
      keeps = λ base. base ≡ store.base;
      committed = λ base. Unit {0};
      at_hand = slice_get store.base.messages store.place;
      is_sound = Unit {0};
      represented = λ base c. Unit {0};
      is_own = λ m. ⊥;
      undoes = Unit {0};
      is_full = ⊥;
      has_room = λ m. Unit {0};
      stays = λ honest ready base is c left. tt;
      shown = λ honest ready base is. tt;
    } };

    ghost failures = { λ _. 0 };

    fn len(&self) -> usize {
        self.base.len()
    }

    fn cursor(&self) -> usize {
        self.base.cursor()
    }

    fn knows(&mut self, key: &Key) -> Result<bool, StoreError> {
        Ok(self.base.knows(key))
    }

    fn has_id(&mut self, msgid: &[u8]) -> Result<bool, StoreError> {
        Ok(self.base.has_id(msgid)?)
    }

    fn fetch(&mut self, place: usize) -> Result<(), StoreError> {
        self.place = place;
        Ok(())
    }

    fn at_hand(&self) -> Option<&Filed> {
        self.base.message(self.place)
    }

    fn file(&mut self, key: Key, message: Filed) -> Result<(), StoreError> {
        Ok(self.base.file(key, message)?)
    }

    fn move_to_end(&mut self) -> Result<(), StoreError> {
        self.base.move_to_end();
        Ok(())
    }

    fn commit(&mut self) -> Result<(), StoreError> {
        Ok(())
    }
}

impl<S: BuildHasher> PurgedStore for MemoryStore<S> {
    fn purge(&mut self, range: &PurgeRange) -> Result<u64, StoreError> {
        Ok(self.base.purge(range)?)
    }
}
