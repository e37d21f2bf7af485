//! A folder that is read and never changed: its messages, each with the digest of its entry.
ghost use Rattle.std.specs.Prelude.{◌≡◌, ◌<◌, ◌/◌, ◌↔◌, IfOk, IsErrOf, IsTrue};
ghost use Rattle.disk_io.specs.{Disk.Honestly, Runs.ChangesNothing};
ghost use Rattle.echo_filed.specs.{Stored.Stored, Stored.message_in, declared.stored.Version.TheVariants.Second};
ghost use Rattle.base_store.specs.Keys.{digested};
ghost use Rattle.base_folder_store.specs.{Ahead.HasParts, Answers.Answers, Answers.HasReadCause, Held.digest_by, Opened.IsFresh, Opened.held_by};
ghost use Rattle.base_folder_store.specs.Vouched.{HasDigest, IsLookedAt, IsThere, IsVouchedAs};

use crate::folder::Folder;
use crate::read_ahead::Buffers;
use crate::waiting::Waiting;
use base_log::{Log, Names};
use base_store::{Digest, StoreError};
use disk_io::Disk;
use echo_filed::{Filed, Key};
use std::alloc::{AllocError, Global};

impl Folder {
    /// The base folder of this path with this log. It is to be read: no file is made, and none is synced.
    pub fn look(alloc: Global, path: &[u8], log: &Log) -> Result<Folder, AllocError>
        requires { log.now.end.recorded.number < 10 }
        ensures fresh { IfOk result (IsFresh path.now) }
        ensures end { IfOk result (λ folder. folder.end ≡ log.now.end) }
        ensures keys { IfOk result (λ folder. folder.keys ≡ log.now.end.recorded.keys) }
    {
        let names = Names::new(alloc, path, log.end.recorded.number)?;
        let waiting = Waiting::new(alloc);
        Ok(Folder {
            names,
            end: log.end,
            recorded: log.end.recorded,
            keys: log.end.recorded.keys,
            waiting,
        })
    }

    /// The message of this number, counted from 0, of a folder where nothing waits. It is `Damaged` if there is none, or
    /// if its digest differs from that of its entry. One read serves many messages that are read in order.
    pub fn read_vouched<D: Disk, H: Digest>(
        &self,
        alloc: Global,
        disk: &mut D,
        buffers: &mut Buffers,
        place: usize,
    ) -> Result<Filed, StoreError>
        requires looked { IsLookedAt (D.state disk.old) self.now }
        requires parts { Honestly (D.state disk.old) (HasParts (D.state disk.old) self.now buffers.old) }
        requires within { place < self.now.keys / 16 }
        ensures message { Honestly (D.state disk.new) ((s : Stored) → IsThere (held_by (D.state disk.old) self.now) place s → HasDigest H.keyed (held_by (D.state disk.old) self.now) place s
            → Answers (λ message. message ≡ message_in Second s) result) }
        ensures vouched { Honestly (D.state disk.new) (IfOk result (IsVouchedAs H.keyed (held_by (D.state disk.old) self.now) place)) }
        ensures parts { Honestly (D.state disk.new) (HasParts (D.state disk.old) self.now buffers.new) }
        ensures quiet { ChangesNothing (D.state disk.old) (D.state disk.new) }
        ensures cause { HasReadCause (D.failures disk.old) (D.failures disk.new) result }
        ensures few { IsErrOf result StoreError.TooMany → ⊥ }
    {
        let read = self.read(disk, buffers, place)?;
        if self.has_digest::<H>(alloc, &read.message, read.digest)? {
            Ok(read.message)
        } else {
            Err(StoreError::Damaged)
        }
    }

    fn has_digest<H: Digest>(
        &self,
        alloc: Global,
        message: &Filed,
        digest: u64,
    ) -> Result<bool, AllocError>
        ensures { IfOk result (λ has. IsTrue has ↔ (digest ≡ digest_by H.keyed self.now.recorded.mark (digested message.now))) }
    {
        let key = Key::of_message(alloc, message)?;
        let own = self.digest_of_key::<H>(alloc, &key)?;
        Ok(digest == own)
    }
}
