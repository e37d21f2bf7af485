//! A base folder as a store.

ghost use Rattle.std.specs.Prelude.{◌≡◌, true, false};
ghost use Rattle.disk_io.specs.Disk.{Honestly};
ghost use Rattle.base_file.specs.Base.{Base};
ghost use Rattle.base_folder_store.specs.{Held.HoldsBase, Opened.IsNamed, Opened.IsOpen, Opened.committed_by, Opened.held_by, Owned.IsUnclaimed, Owned.owner_of, Owned.with_mark};
ghost use Rattle.base_folder_store.specs.State.{IsCached, state_of, where_so};
ghost use Rattle.base_store.specs.Store.{CommitsNothing, GoesOn, LooksOn};

use crate::alone::bytes_alone;
use crate::folder::Folder;
use crate::read_ahead::Buffers;
use crate::sought::Id;
use base_file::PurgeRange;
use base_log::FolderIdentity;
use base_store::{Digest, Index, PurgedStore, Store, StoreError, note_look};
use disk_io::Disk;
use echo_filed::{Filed, Key};
use std::alloc::Global;
use std::marker::PhantomData;

/// A base folder on a disk. After a call that failed in the middle of a change, open it again. Expected messages are
/// looked up in one pass over the keys. Of the others, the first ones take a pass each, and the rest use an index in
/// memory. One read serves many messages that are fetched in order.
#[derive(Drop)]
pub struct FolderStore<D: Disk, H: Digest> {
    alloc: Global,
    /// The disk. Between two calls files outside the folder may change on it.
    pub disk: D,
    folder: Folder,
    index: Index,
    buffers: Buffers,
    message: Option<Filed>,
    // A look at the messages did not end well.
    unread: bool,
    digests: PhantomData<H>,
}

impl<D: Disk, H: Digest> FolderStore<D, H> {
    /// An open folder on the disk, as a store. Its entries have digests by its key.
    pub fn new(alloc: Global, disk: D, folder: Folder) -> FolderStore<D, H>
        requires named { IsNamed folder }
        requires opened { Honestly (D.state disk) (IsOpen (D.state disk) folder) }
        ensures ready { (⟦<FolderStore<D, H> as Store>⟧.state result).is_ready }
        ensures keeps { (base : Base) → HoldsBase H.keyed (held_by (D.state disk) folder) base
            → (⟦<FolderStore<D, H> as Store>⟧.state result).keeps base }
        ensures committed { (base : Base) → HoldsBase H.keyed (committed_by (D.state disk) folder) base
            → (⟦<FolderStore<D, H> as Store>⟧.state result).committed base }
        ensures disk { result.disk ≡ disk }
        ensures folder { result.folder ≡ folder }
        ensures unread { result.unread ≡ false }
    {
        FolderStore {
            alloc,
            disk,
            folder,
            index: Index::new(alloc),
            buffers: Buffers::new(alloc),
            message: None,
            unread: false,
            digests: PhantomData,
        }
    }

    /// The disk and the folder, taken out.
    pub fn into_parts(self) -> (D, Folder)
        ensures disk { result.0 ≡ self.disk }
        ensures folder { result.1 ≡ self.folder }
    {
        (self.disk, self.folder)
    }

    /// The owner of the folder; none if it has no owner.
    pub fn owner(&self) -> Option<u64>
        ensures { result ≡ owner_of self.now.folder.recorded.mark }
    {
        self.folder.owner()
    }

    /// Gives the folder an owner and a key, if it has no owner and no message, and returns whether it did. It keeps
    /// them from the next commit on.
    pub fn claim(&mut self, mark: FolderIdentity) -> bool
        requires { (⟦<FolderStore<D, H> as Store>⟧.state self.old).is_ready }
        ensures claimed { result ≡ true → IsUnclaimed self.old.folder × (self.new ≡ record self.old { folder = with_mark self.old.folder mark }) }
        ensures refused { result ≡ false → (IsUnclaimed self.old.folder → ⊥) × (self.new ≡ self.old) }
        ensures keeps { Honestly (D.state self.new.disk) ((base : Base) → (⟦<FolderStore<D, H> as Store>⟧.state self.old).keeps base
            → (⟦<FolderStore<D, H> as Store>⟧.state self.new).keeps base) }
        ensures goes_on { GoesOn (⟦<FolderStore<D, H> as Store>⟧.state self.old) (⟦<FolderStore<D, H> as Store>⟧.state self.new) }
        ensures commits { CommitsNothing (⟦<FolderStore<D, H> as Store>⟧.state self.old) (⟦<FolderStore<D, H> as Store>⟧.state self.new) }
    {
        self.folder.claim(mark)
    }

    /// These keys will be looked up. Answers are the same without this call. If memory is refused, some are not
    /// expected.
    pub fn expect(&mut self, keys: &[Key])
        requires { (⟦<FolderStore<D, H> as Store>⟧.state self.old).is_ready }
        ensures looks { LooksOn (⟦<FolderStore<D, H> as Store>⟧.state self.old) (⟦<FolderStore<D, H> as Store>⟧.state self.new) }
        ensures disk { self.new.disk ≡ self.old.disk }
        ensures folder { self.new.folder ≡ self.old.folder }
        ensures unread { self.new.unread ≡ self.old.unread }
    {
        'keys: for i in 0..keys.len() {
            self.expect_one(&keys[i]);
        }
    }

    fn expect_one(&mut self, key: &Key)
        requires { (⟦<FolderStore<D, H> as Store>⟧.state self.old).is_ready }
        ensures looks { LooksOn (⟦<FolderStore<D, H> as Store>⟧.state self.old) (⟦<FolderStore<D, H> as Store>⟧.state self.new) }
        ensures disk { self.new.disk ≡ self.old.disk }
        ensures folder { self.new.folder ≡ self.old.folder }
        ensures unread { self.new.unread ≡ self.old.unread }
    {
        if let Ok(digest) = self.folder.digest_of_key::<H>(self.alloc, key) {
            self.index.expect(self.alloc, digest);
        }
    }
}

impl<D: Disk, H: Digest> Store for FolderStore<D, H> {
    ghost state = { λ store. where_so (state_of (D.state store.disk) H.keyed store.folder store.message) (IsCached (D.state store.disk) store.folder store.index store.buffers) store.unread };

    ghost failures = { λ store. D.failures store.disk };

    fn len(&self) -> usize {
        self.folder.count()
    }

    fn cursor(&self) -> usize {
        self.folder.cursor()
    }

    fn knows(&mut self, key: &Key) -> Result<bool, StoreError> {
        let digest = self.folder.digest_of_key::<H>(self.alloc, key)?;
        let (index, buffers) = (&mut self.index, &mut self.buffers);
        let found = self
            .folder
            .find(self.alloc, &mut self.disk, index, buffers, key, digest);
        note_look(&mut self.unread, &found);
        found
    }

    fn has_id(&mut self, msgid: &[u8]) -> Result<bool, StoreError> {
        let digest = self.folder.digest::<H>(msgid);
        let found = self.folder.find(
            self.alloc,
            &mut self.disk,
            &mut self.index,
            &mut self.buffers,
            &Id { msgid },
            digest,
        );
        note_look(&mut self.unread, &found);
        found
    }

    fn fetch(&mut self, place: usize) -> Result<(), StoreError> {
        let unread = self.unread;
        self.unread = true;
        if place >= self.folder.count() {
            return Err(StoreError::Damaged);
        }
        let gone = self.message.take();
        self.buffers.room.take_back(gone);
        let read = self.folder.read(&mut self.disk, &mut self.buffers, place)?;
        self.message = Some(read.message);
        self.unread = unread;
        Ok(())
    }

    fn at_hand(&self) -> Option<&Filed> {
        self.message.as_ref()
    }

    fn file(&mut self, key: Key, message: Filed) -> Result<(), StoreError> {
        let bytes = bytes_alone(self.alloc, &message)?;
        let digest = self.folder.digest_of_key::<H>(self.alloc, &key)?;
        self.folder.stage(&mut self.disk, &bytes, digest)
    }

    fn move_to_end(&mut self) -> Result<(), StoreError> {
        self.folder.move_to_end();
        Ok(())
    }

    fn commit(&mut self) -> Result<(), StoreError> {
        self.folder.commit(&mut self.disk)
    }
}

impl<D: Disk, H: Digest> PurgedStore for FolderStore<D, H> {
    fn purge(&mut self, range: &PurgeRange) -> Result<u64, StoreError> {
        let index = Index::new(self.alloc);
        self.index = index;
        let buffers = Buffers::new(self.alloc);
        self.buffers = buffers;
        self.folder.purge(self.alloc, &mut self.disk, range)
    }
}
