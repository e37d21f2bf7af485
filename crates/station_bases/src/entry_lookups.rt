//! A message of a base file looked up by its digest. Only messages that have it are read, and keys are compared whole.
ghost use Rattle.std.specs.{Prelude.{◌≡◌, List, IsErrOf}, List.list_any};
ghost use Rattle.disk_io.specs.{Disk.{Honestly, bytes_in}, Runs.ChangesNothing};
ghost use Rattle.{echo_filed.specs.Filed.Filed, base_store.specs.Keys.AreWhereRecorded, base_folder_store.specs.Answers.{Answers, HasReadCause, HaveDigest}};
ghost use Rattle.station_bases.specs.Entries.{AreIndexed, CanLookUp, message_bytes};

use crate::entries::Entries;
use base_folder_store::{Sought, is_stored};
use base_store::StoreError;
use disk_io::Disk;
use std::alloc::Global;

impl Entries {
    // Whether a message is the sought one, if each such message has the digest.
    fn search<D: Disk, W: Sought>(
        &self,
        alloc: Global,
        disk: &mut D,
        path: &[u8],
        sought: &W,
        digest: u64,
    ) -> Result<bool, StoreError>
        requires can { CanLookUp (D.state disk.old) path.now self.now }
        ensures found { Honestly (D.state disk.new) ((base : List Filed) → AreWhereRecorded base (message_bytes (bytes_in ((D.state disk.old).seen path.now)) self.now) self.now.keys.items
            → HaveDigest (W.test sought.now) digest base self.now.keys.items
            → Answers (λ found. found ≡ list_any (W.test sought.now) base) result) }
        ensures quiet { ChangesNothing (D.state disk.old) (D.state disk.new) }
        ensures cause { HasReadCause (D.failures disk.old) (D.failures disk.new) result }
        ensures few { IsErrOf result StoreError.TooMany → ⊥ }
    {
        let mut below = self.count();
        'entries: while let Some(place) = self.chains.find_below(&self.keys, digest, below) {
            let bytes = self.stored(alloc, disk, path, place)?;
            if is_stored(alloc, sought, &bytes)? {
                return Ok(true);
            }
            below = place;
        }
        Ok(false)
    }

    /// Whether a message is the sought one, if each such message has the digest. Chains are made of all entries first.
    /// If memory is refused, it goes over the entries that are not chained.
    pub(crate) fn find<D: Disk, W: Sought>(
        &mut self,
        alloc: Global,
        disk: &mut D,
        path: &[u8],
        sought: &W,
        digest: u64,
    ) -> Result<bool, StoreError>
        requires can { CanLookUp (D.state disk.old) path.now self.old }
        ensures found { Honestly (D.state disk.new) ((base : List Filed) → AreWhereRecorded base (message_bytes (bytes_in ((D.state disk.old).seen path.now)) self.old) self.old.keys.items
            → HaveDigest (W.test sought.now) digest base self.old.keys.items
            → Answers (λ found. found ≡ list_any (W.test sought.now) base) result) }
        ensures same { self.new ≡ record self.old { chains = self.new.chains } }
        ensures indexed { AreIndexed self.new }
        ensures quiet { ChangesNothing (D.state disk.old) (D.state disk.new) }
        ensures cause { HasReadCause (D.failures disk.old) (D.failures disk.new) result }
        ensures few { IsErrOf result StoreError.TooMany → ⊥ }
    {
        let _followed = self.chains.follow(alloc, &self.keys);
        self.search(alloc, disk, path, sought, digest)
    }
}
