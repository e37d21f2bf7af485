//! The two readers of a base: of a base file in memory, and of a base folder on a disk.

ghost use Rattle.std.specs.Prelude.{◌≡◌, ◌⊎◌, IfErr, IfOk, Some};
ghost use Rattle.{disk_io.specs.{Disk.Honestly, Runs.ChangesNothing}, base_folder.specs.Looked.{IsReaderOf, IsUnreadOf}, base_folder_store.specs.Held.{HoldsBase, RepresentsBase}};
ghost use Rattle.{base_folder_store.specs.{Opened.held_by, Vouched.IsLookedAt}, cmd_status.specs.{Ended.IsOutOfMemory, Inputs.{IsBaseFault, IsBaseGiven}}};
ghost use Rattle.base_file.specs.Base as model;

use crate::looking::look;
use crate::open_error::OpenError;
use crate::reading::ReadingProgress;
use crate::source::MessageSource;
use base_file::Base;
use base_folder_store::{Buffers, Folder};
use base_store::{Digest, StoreError};
use cmd_status::Fault;
use disk_io::Disk;
use echo_filed::Filed;
use std::alloc::Global;
use std::hash::BuildHasher;
use std::marker::PhantomData;

/// A base in memory, as a source of messages.
#[derive(Drop)]
pub struct BaseReader<S: BuildHasher> {
    base: Base<S>,
    place: usize,
}

impl<S: BuildHasher> BaseReader<S> {
    /// The messages of this base file.
    pub fn read<'a>(alloc: Global, file: &[u8], hasher: S) -> Result<BaseReader<S>, Fault<'a>>
    where
        S: Drop,
        ensures ok { IfOk result (λ messages. IsBaseGiven (Some file.now) messages.base.messages messages.base.cursor) }
        ensures err { IfErr result (λ fault. IsOutOfMemory fault ⊎ IsBaseFault (Some file.now) fault) }
    {
        let base = Base::load(alloc, &mut &*file, hasher)?;
        Ok(BaseReader { base, place: 0 })
    }
}

impl<S: BuildHasher> MessageSource for BaseReader<S> {
    ghost use Rattle.std.specs.Prelude.{◌≡◌, length, slice_get};
    ghost use Rattle.std.proofs.Common.{ap};
    ghost use Rattle.base_file.specs.Base as model;

    ghost state = { λ r. record {
      is_honest = Unit {0};
      is_ready = Unit {0};
      count = length r.base.messages;
      holds = λ (base : model.Base). (r.base.messages ≡ base.messages) × (r.base.cursor ≡ base.cursor);
      legible = λ _. Unit {0};
      at_hand = slice_get r.base.messages r.place;
      failures = 0;
      counted = λ (base : model.Base) same. ap length same.0;
    } };

    fn count(&self) -> usize {
        self.base.len()
    }

    fn cursor(&self) -> usize {
        self.base.cursor()
    }

    fn fetch(&mut self, place: usize) -> Result<(), StoreError> {
        self.place = place;
        Ok(())
    }

    fn at_hand(&self) -> Option<&Filed> {
        self.base.message(self.place)
    }
}

/// A base folder that was looked at, as a source of messages. The message that is read has the digest of its entry.
#[derive(Drop)]
pub struct FolderReader<D: Disk, H: Digest> {
    alloc: Global,
    disk: D,
    folder: Folder,
    message: Option<Filed>,
    buffers: Buffers,
    digests: PhantomData<H>,
}

impl<D: Disk, H: Digest> FolderReader<D, H> {
    fn new(alloc: Global, disk: D, folder: Folder) -> FolderReader<D, H>
        requires { IsLookedAt (D.state disk) folder }
        ensures ready { (⟦<FolderReader<D, H> as MessageSource>⟧.state result).is_ready }
        ensures holds { Honestly (D.state disk) ((base : model.Base) → HoldsBase H.keyed (held_by (D.state disk) folder) base
            → (⟦<FolderReader<D, H> as MessageSource>⟧.state result).holds base) }
        ensures disk { result.disk ≡ disk }
        ensures folder { result.folder ≡ folder }
    {
        FolderReader {
            alloc,
            disk,
            folder,
            message: None,
            buffers: Buffers::new(alloc),
            digests: PhantomData,
        }
    }

    /// The disk, taken out.
    pub fn into_disk(self) -> D
        ensures { result ≡ self.disk }
    {
        self.disk
    }
}

/// The base folder of this path, to be read message by message, after a look at it (`look`). The reader has the bytes of
/// the files, so that no folder with a fault is read as an empty base.
pub fn read_folder<D: Disk + Drop, H: Digest, P: ReadingProgress>(
    alloc: Global,
    disk: D,
    path: &[u8],
    strange: bool,
    first: u64,
    progress: &P,
) -> Result<FolderReader<D, H>, OpenError>
    ensures ready { IfOk result (λ messages. (⟦<FolderReader<D, H> as MessageSource>⟧.state messages).is_ready) }
    ensures holds { IfOk result (λ messages. Honestly (D.state messages.disk) ((base : model.Base) → RepresentsBase H.keyed path.now base (D.state disk).seen
        → (⟦<FolderReader<D, H> as MessageSource>⟧.state messages).holds base)) }
    ensures read { IfOk result (λ messages. Honestly (D.state messages.disk) (IsReaderOf H.keyed strange path.now first (D.state disk) (D.state messages.disk) messages.folder)) }
    ensures quiet { IfOk result (λ messages. ChangesNothing (D.state disk) (D.state messages.disk)) }
    ensures unread { IfErr result (IsUnreadOf D.state D.failures H.keyed strange path.now disk) }
{
    let mut disk = disk;
    let looked = look::<D, H, P>(alloc, &mut disk, path, strange, first, progress)?;
    Ok(FolderReader::new(alloc, disk, looked.folder))
}

impl<D: Disk, H: Digest> MessageSource for FolderReader<D, H> {
    ghost use Rattle.base_folder.specs.Source.{folder_source};

    ghost state = { λ r. folder_source (D.state r.disk) (D.failures r.disk) H.keyed r.folder r.buffers r.message };

    fn count(&self) -> usize {
        self.folder.count()
    }

    fn cursor(&self) -> usize {
        self.folder.cursor()
    }

    fn fetch(&mut self, place: usize) -> Result<(), StoreError> {
        let gone = self.message.take();
        self.buffers.room.take_back(gone);
        let message = self
            .folder
            .read_vouched::<D, H>(self.alloc, &mut self.disk, &mut self.buffers, place)?;
        self.message = Some(message);
        Ok(())
    }

    fn at_hand(&self) -> Option<&Filed> {
        self.message.as_ref()
    }
}
