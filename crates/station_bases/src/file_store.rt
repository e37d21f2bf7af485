//! A base file on a disk, as a store.
ghost use Rattle.std.specs.Prelude.{◌≡◌, false, IsErrOf, OnOk};
ghost use Rattle.{disk_io.specs.{Disk.Honestly, Runs.ChangesNothing}, base_file.specs.Base.Base as TheBase};
ghost use Rattle.{base_store.specs.Store.HasStoreCause, station_bases.specs.InFile.{IsHeld, IsInMemory, file_state}};

use crate::entry_adding::check_room;
use crate::held::Held;
use crate::saving::write_file;
use base_file::PurgeRange;
use base_store::{PurgedStore, Store, StoreError, note_look};
use disk_io::Disk;
use echo_addr::Items;
use echo_filed::{Filed, Key};
use std::alloc::Global;
use std::hash::BuildHasher;

/// The part of a base file in memory, and the disk that has the file. A commit replaces the file. `own` is the name of
/// the system in the staging path.
#[derive(Drop)]
pub struct FileStore<'a, D: Disk, S: BuildHasher> {
    alloc: Global,
    pub(crate) disk: D,
    held: Held<S>,
    // The number of the current message, if all are in memory.
    place: usize,
    // A look at the messages did not end well.
    unread: bool,
    hasher: S,
    path: &'a str,
    own: Items<u8>,
}

impl<'a, D: Disk, S: BuildHasher + Copy + Drop> FileStore<'a, D, S> {
    /// The base file with this path, as a store.
    pub fn new(
        alloc: Global,
        disk: D,
        held: Held<S>,
        hasher: S,
        path: &'a str,
        own: Items<u8>,
    ) -> FileStore<'a, D, S>
        ensures disk { result.disk ≡ disk }
        ensures held { result.held ≡ held }
        ensures path { result.path.now ≡ path.now }
        ensures own { result.own ≡ own }
        ensures unread { result.unread ≡ false }
    {
        FileStore {
            alloc,
            disk,
            held,
            place: 0,
            unread: false,
            hasher,
            path,
            own,
        }
    }

    /// The disk.
    pub fn into_disk(self) -> D
        ensures { result ≡ self.entry.disk }
    {
        self.disk
    }

    // Brings all messages into memory. At an error nothing has changed.
    fn bring_in(&mut self) -> Result<(), StoreError>
        requires { (file_state (D.state self.old.disk) self.old.path.now self.old.own self.old.held self.old.place self.old.unread).is_ready }
        ensures held { Honestly (D.state self.new.disk) ((base : TheBase) → IsHeld (D.state self.old.disk) self.old.path.now self.old.held base → IsHeld (D.state self.new.disk) self.new.path.now self.new.held base) }
        ensures memory { OnOk result (IsInMemory self.new.held) }
        ensures same { self.new ≡ record self.old { disk = self.new.disk; held = self.new.held } }
        ensures ready { (file_state (D.state self.new.disk) self.new.path.now self.new.own self.new.held self.new.place self.new.unread).is_ready }
        ensures quiet { ChangesNothing (D.state self.old.disk) (D.state self.new.disk) }
        ensures few { IsErrOf result StoreError.TooMany → ⊥ }
        ensures cause { HasStoreCause (file_state (D.state self.old.disk) self.old.path.now self.old.own self.old.held self.old.place self.old.unread) (file_state (D.state self.new.disk) self.new.path.now self.new.own self.new.held self.new.place self.new.unread)
            (D.failures self.old.disk) (D.failures self.new.disk) result }
    {
        let path = self.path;
        let hasher = self.hasher;
        if let Held::Apart(entries) = &self.held {
            let base = entries.load(self.alloc, &mut self.disk, path.as_bytes(), hasher)?;
            self.held = Held::Whole(base);
        }
        Ok(())
    }
}

impl<'a, D: Disk, S: BuildHasher + Copy + Drop> Store for FileStore<'a, D, S> {
    ghost state = { λ store. file_state (D.state store.disk) store.path.now store.own store.held store.place store.unread };

    ghost failures = { λ store. D.failures store.disk };

    fn len(&self) -> usize {
        match &self.held {
            Held::Apart(entries) => entries.count(),
            Held::Whole(base) => base.len(),
        }
    }

    fn cursor(&self) -> usize {
        match &self.held {
            Held::Apart(entries) => entries.cursor(),
            Held::Whole(base) => base.cursor(),
        }
    }

    fn knows(&mut self, key: &Key) -> Result<bool, StoreError> {
        let path = self.path;
        match &mut self.held {
            Held::Apart(entries) => {
                let found = entries.knows(self.alloc, &mut self.disk, path.as_bytes(), key);
                note_look(&mut self.unread, &found);
                found
            }
            Held::Whole(base) => Ok(base.knows(key)),
        }
    }

    fn has_id(&mut self, msgid: &[u8]) -> Result<bool, StoreError> {
        let path = self.path;
        match &mut self.held {
            Held::Apart(entries) => {
                let found = entries.has_id(self.alloc, &mut self.disk, path.as_bytes(), msgid);
                note_look(&mut self.unread, &found);
                found
            }
            Held::Whole(base) => Ok(base.has_id(msgid)?),
        }
    }

    fn fetch(&mut self, place: usize) -> Result<(), StoreError> {
        let path = self.path;
        match &mut self.held {
            Held::Apart(entries) => {
                let fetched = entries.fetch(&mut self.disk, path.as_bytes(), place);
                note_look(&mut self.unread, &fetched);
                fetched
            }
            Held::Whole(_) => {
                self.place = place;
                Ok(())
            }
        }
    }

    fn at_hand(&self) -> Option<&Filed> {
        match &self.held {
            Held::Apart(entries) => entries.at_hand(),
            Held::Whole(base) => base.message(self.place),
        }
    }

    fn file(&mut self, key: Key, message: Filed) -> Result<(), StoreError> {
        match &mut self.held {
            Held::Apart(entries) => entries.file(self.alloc, &key, &message),
            Held::Whole(base) => {
                // On a disk that is not honest a caller need not know it.
                if base.knows(&key) {
                    return Err(StoreError::Damaged);
                }
                check_room(self.alloc, base.len(), &message)?;
                Ok(base.file(key, message)?)
            }
        }
    }

    fn move_to_end(&mut self) -> Result<(), StoreError> {
        if let Held::Apart(entries) = &mut self.held {
            if !entries.is_odd() {
                entries.move_to_end();
                return Ok(());
            }
        }
        self.bring_in()?;
        if let Held::Whole(base) = &mut self.held {
            base.move_to_end();
        }
        Ok(())
    }

    fn commit(&mut self) -> Result<(), StoreError> {
        let path = self.path;
        let own = &self.own;
        match &mut self.held {
            Held::Apart(entries) => {
                entries.commit(self.alloc, &mut self.disk, path, own.as_slice())
            }
            Held::Whole(base) => {
                write_file(self.alloc, &mut self.disk, base, path, own.as_slice())
            }
        }
    }
}

impl<'a, D: Disk, S: BuildHasher + Copy + Drop> PurgedStore for FileStore<'a, D, S> {
    fn purge(&mut self, range: &PurgeRange) -> Result<u64, StoreError> {
        self.bring_in()?;
        match &mut self.held {
            Held::Whole(base) => Ok(base.purge(range)?),
            Held::Apart(_) => Err(StoreError::Damaged),
        }
    }
}
