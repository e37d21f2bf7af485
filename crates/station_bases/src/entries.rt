//! A base file with its messages left in the file. In memory are the place and the digest of each, and chains for
//! look-ups: some 24 bytes a message.
ghost use Rattle.std.specs.Prelude.{◌≡◌, ◌≤◌, ◌<◌, ◌/◌, List, length, IsErrOf, Some, slice_get};
ghost use Rattle.disk_io.specs.{Disk.{Honestly, bytes_in}, Runs.ChangesNothing};
ghost use Rattle.{echo_filed.specs.Filed.Filed, base_store.specs.Keys.AreWhereRecorded, base_folder_store.specs.Answers.{Answers, HasReadCause, IsStoredOf}};
ghost use Rattle.{base_folder_store.specs.Ahead.IsPartOf, station_bases.specs.Entries.{CanFetch, IsWithinFile, message_bytes}};

use base_file::MessageRoom;
use base_folder_store::{Extent, ReadAhead, read_at, stored_at};
use base_store::{Chains, SipDigest, StoreError};
use disk_io::Disk;
use echo_filed::Filed;
use std::alloc::Global;

/// How many bytes of a base file come before its messages.
pub(crate) const HEAD: usize = 16;

/// How many bytes an entry has.
pub(crate) const ENTRY: usize = 16;

/// The entries of a base file of version 2, and messages that wait to be written after them.
#[derive(Drop)]
pub struct Entries {
    pub(crate) digest: SipDigest,
    pub(crate) cursor: usize,
    // Where the messages in the file end.
    pub(crate) end: usize,
    // Whether a message that was not scanned may be stored in another form once it is.
    pub(crate) odd: bool,
    pub(crate) waiting: Vec<u8>,
    pub(crate) keys: Vec<u8>,
    pub(crate) chains: Chains,
    // The current message.
    pub(crate) message: Option<Filed>,
    // The part of the messages that was read ahead.
    pub(crate) ahead: ReadAhead,
    pub(crate) room: MessageRoom,
}

impl Entries {
    /// How many messages there are.
    pub(crate) fn count(&self) -> usize
        ensures { result ≡ length self.now.keys.items / 16 }
    {
        self.keys.len() / ENTRY
    }

    /// How many of them, from the front, were scanned.
    pub(crate) fn cursor(&self) -> usize
        ensures { result ≡ self.now.cursor }
    {
        self.cursor
    }

    /// Whether a message that was not scanned may be stored in another form once it is.
    pub(crate) fn is_odd(&self) -> bool
        ensures { result ≡ self.now.odd }
    {
        self.odd
    }

    /// The bytes of the message of this number, counted from 0.
    pub(crate) fn stored<D: Disk>(
        &self,
        alloc: Global,
        disk: &mut D,
        path: &[u8],
        place: usize,
    ) -> Result<Vec<u8>, StoreError>
        requires legible { Honestly (D.state disk.old) (IsWithinFile (D.state disk.old) path.now self.now) }
        requires head { 16 ≤ self.now.end }
        requires within { place < length self.now.keys.items / 16 }
        ensures stored { Honestly (D.state disk.new) ((base : List Filed) → AreWhereRecorded base (message_bytes (bytes_in ((D.state disk.old).seen path.now)) self.now) self.now.keys.items
            → place < length base → Answers (λ bytes. IsStoredOf base place bytes.items) result) }
        ensures quiet { ChangesNothing (D.state disk.old) (D.state disk.new) }
        ensures cause { HasReadCause (D.failures disk.old) (D.failures disk.new) result }
        ensures few { IsErrOf result StoreError.TooMany → ⊥ }
    {
        let messages = Extent {
            path,
            head: HEAD,
            end: self.end,
            waiting: &self.waiting,
        };
        stored_at(alloc, disk, messages, &self.keys, place)
    }

    /// The message of this number, counted from 0. It is read ahead.
    pub(crate) fn read<D: Disk>(
        &mut self,
        disk: &mut D,
        path: &[u8],
        place: usize,
    ) -> Result<Filed, StoreError>
        requires can { CanFetch (D.state disk.old) path.now self.old }
        requires within { place < length self.old.keys.items / 16 }
        ensures read { Honestly (D.state disk.new) ((base : List Filed) → AreWhereRecorded base (message_bytes (bytes_in ((D.state disk.old).seen path.now)) self.old) self.old.keys.items
            → place < length base → Answers (λ message. slice_get base place ≡ Some message) result) }
        ensures ahead { Honestly (D.state disk.new) (IsPartOf (message_bytes (bytes_in ((D.state disk.old).seen path.now)) self.old) self.new.ahead) }
        ensures same { self.new ≡ record self.old { ahead = self.new.ahead; room = self.new.room } }
        ensures quiet { ChangesNothing (D.state disk.old) (D.state disk.new) }
        ensures cause { HasReadCause (D.failures disk.old) (D.failures disk.new) result }
        ensures few { IsErrOf result StoreError.TooMany → ⊥ }
    {
        let messages = Extent {
            path,
            head: HEAD,
            end: self.end,
            waiting: &self.waiting,
        };
        let (ahead, room) = (&mut self.ahead, &mut self.room);
        read_at(disk, messages, ahead, room, &self.keys, place)
    }
}
