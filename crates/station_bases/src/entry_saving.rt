//! A base file is replaced by one with the messages that wait behind it, or is read whole.
ghost use Rattle.std.specs.Prelude.{◌≡◌, ◌≢◌, ◌≤◌, ◌/◌, ℕ, All, Ok, length, IfOk, IsErrOf, IsSome, OnOk};
ghost use Rattle.disk_io.specs.Disk.{Honestly, bytes_in};
ghost use Rattle.{disk_io.specs.Runs.{ChangesNothing, HasCause, LeavesOnly, OneStepOn}, disk_atomic.specs.{Changes.{ChangesOnly, HasOnDisk}, Keeping.kept_bytes}};
ghost use Rattle.{disk_atomic.specs.{Replacing.Replaces, StagingPaths.staging_path}, echo_filed.specs.declared.stored.Version.TheVariants.Second};
ghost use Rattle.{base_file.specs.{Base.Base as TheBase, BaseFile.{LoadOf, head_bytes}}, base_folder_store.specs.Answers.{Answers, HasReadCause}};
ghost use Rattle.station_bases.specs.{Entries.{CanFetch, CanLookUp, HoldEntries, IsRefusedUncounted, file_bytes}, InFile.IsOfFile};

use crate::entries::{Entries, HEAD};
use base_file::{Base, BaseFault};
use base_folder_store::ReadAhead;
use base_store::StoreError;
use disk_atomic::{KeptRange, replace_around, staging_path};
use disk_io::{Disk, DiskError, are_bytes, parent_folder, read_part};
use echo_filed::long_bytes;
use std::alloc::{AllocError, Global};
use std::hash::BuildHasher;

/// The most messages of a base file.
pub(crate) const MOST: usize = 4_294_967_295;

// The first bytes of a base file of version 2.
const SECOND: &[u8] = b"ECHOBAS2";

// The head of a base file.
fn head_of(alloc: Global, cursor: u32, number: u32) -> Result<Vec<u8>, AllocError>
    ensures { IfOk result (λ head. head.items ≡ head_bytes Second cursor number) }
{
    let mut head = Vec::from_slice(alloc, SECOND)?;
    head.extend_from_slice(&long_bytes(cursor))?;
    head.extend_from_slice(&long_bytes(number))?;
    Ok(head)
}

// The base in these bytes of a base file.
fn loaded<S: BuildHasher + Drop>(
    alloc: Global,
    whole: &[u8],
    hasher: S,
) -> Result<Base<S>, StoreError>
    ensures loaded { (base : TheBase) (count : ℕ) → LoadOf whole.now (Ok (base.messages, base.cursor, count)) → Answers (λ loaded. base ≡ loaded) result }
    ensures device { IsErrOf result StoreError.Device → ⊥ }
    ensures few { IsErrOf result StoreError.TooMany → ⊥ }
{
    are_bytes(whole);
    let mut reader = whole;
    match Base::load(alloc, &mut reader, hasher) {
        Ok(base) => Ok(base),
        Err(fault) => match fault {
            BaseFault::Memory => Err(StoreError::Memory),
            _ => Err(StoreError::Damaged),
        },
    }
}

// Replaces a file by a head, some of its bytes and a tail, through its staging path.
fn put_around<D: Disk>(
    alloc: Global,
    disk: &mut D,
    path: &str,
    own: &[u8],
    kept: KeptRange<'_>,
) -> Result<(), DiskError>
    requires plain { All (λ b. b ≢ 47) own.now }
    requires there { Honestly (D.state disk.old) (IsSome ((D.state disk.old).seen path.now)) }
    requires order { kept.from ≤ kept.to }
    requires within { Honestly (D.state disk.old) (kept.to ≤ length (bytes_in ((D.state disk.old).seen path.now))) }
    ensures replaced { Honestly (D.state disk.new) (OnOk result (HasOnDisk (D.state disk.new) path.now (kept_bytes (bytes_in ((D.state disk.old).seen path.now)) kept.entry))) }
    ensures any_moment { Honestly (D.state disk.new) (LeavesOnly (D.state disk.old) (D.state disk.new)
        (OneStepOn (Replaces path.now (staging_path path.now own.now) (kept_bytes (bytes_in ((D.state disk.old).seen path.now)) kept.entry)) (D.state disk.old))) }
    ensures changes { ChangesOnly (IsOfFile path.now own.now) (D.state disk.old) (D.state disk.new) }
    ensures cause { HasCause (D.failures disk.old) (D.failures disk.new) result }
{
    let path = path.as_bytes();
    let staging = staging_path(alloc, path, own)?;
    replace_around(alloc, disk, parent_folder(path), path, &staging, kept)
}

impl Entries {
    // The head of a base file with these messages, which four bytes count.
    fn head(&self, alloc: Global) -> Result<Vec<u8>, StoreError>
        ensures head { IfOk result (λ head. head.items ≡ head_bytes Second self.now.cursor (length self.now.keys.items / 16)) }
        ensures refused { IsRefusedUncounted self.now result }
        ensures device { IsErrOf result StoreError.Device → ⊥ }
    {
        if self.cursor > MOST || self.count() > MOST {
            return Err(StoreError::Damaged);
        }
        let head = head_of(alloc, self.cursor as u32, self.count() as u32)?;
        Ok(head)
    }

    // The bytes of a base file with these messages.
    fn whole<D: Disk>(
        &self,
        alloc: Global,
        disk: &mut D,
        path: &[u8],
    ) -> Result<Vec<u8>, StoreError>
        requires { CanLookUp (D.state disk.old) path.now self.now }
        ensures bytes { Honestly (D.state disk.new) (IfOk result (λ whole. whole.items ≡ file_bytes (bytes_in ((D.state disk.old).seen path.now)) self.now)) }
        ensures refused { IsRefusedUncounted self.now result }
        ensures quiet { ChangesNothing (D.state disk.old) (D.state disk.new) }
        ensures cause { HasReadCause (D.failures disk.old) (D.failures disk.new) result }
    {
        let mut whole = self.head(alloc)?;
        let part = read_part(alloc, disk, path, HEAD, self.end)?;
        whole.extend_from_slice(&part)?;
        whole.extend_from_slice(&self.waiting)?;
        Ok(whole)
    }

    /// The base, with its messages in memory.
    pub(crate) fn load<D: Disk, S: BuildHasher + Drop>(
        &self,
        alloc: Global,
        disk: &mut D,
        path: &[u8],
        hasher: S,
    ) -> Result<Base<S>, StoreError>
        requires { CanLookUp (D.state disk.old) path.now self.now }
        ensures same { Honestly (D.state disk.new) ((base : TheBase) → HoldEntries (bytes_in ((D.state disk.old).seen path.now)) self.now base → Answers (λ loaded. base ≡ loaded) result) }
        ensures quiet { ChangesNothing (D.state disk.old) (D.state disk.new) }
        ensures cause { HasReadCause (D.failures disk.old) (D.failures disk.new) result }
        ensures few { IsErrOf result StoreError.TooMany → ⊥ }
    {
        let whole = self.whole(alloc, disk, path)?;
        loaded(alloc, &whole, hasher)
    }

    /// Replaces the base file by one with the messages that wait, and their cursor.
    pub(crate) fn commit<D: Disk>(
        &mut self,
        alloc: Global,
        disk: &mut D,
        path: &str,
        own: &[u8],
    ) -> Result<(), StoreError>
        requires plain { All (λ b. b ≢ 47) own.now }
        requires can { CanLookUp (D.state disk.old) path.now self.old }
        ensures written { Honestly (D.state disk.new) (OnOk result (HasOnDisk (D.state disk.new) path.now (file_bytes (bytes_in ((D.state disk.old).seen path.now)) self.old))) }
        ensures held { Honestly (D.state disk.new) (OnOk result ((base : TheBase) → HoldEntries (bytes_in ((D.state disk.old).seen path.now)) self.old base → HoldEntries (bytes_in ((D.state disk.new).seen path.now)) self.new base)) }
        ensures can { OnOk result (CanFetch (D.state disk.new) path.now self.new) }
        ensures any_moment { Honestly (D.state disk.new) (LeavesOnly (D.state disk.old) (D.state disk.new)
            (OneStepOn (Replaces path.now (staging_path path.now own.now) (file_bytes (bytes_in ((D.state disk.old).seen path.now)) self.old)) (D.state disk.old))) }
        ensures changes { ChangesOnly (IsOfFile path.now own.now) (D.state disk.old) (D.state disk.new) }
        ensures refused { IsRefusedUncounted self.old result }
        ensures cause { HasReadCause (D.failures disk.old) (D.failures disk.new) result }
    {
        let head = self.head(alloc)?;
        let Some(end) = self.end.checked_add(self.waiting.len()) else {
            return Err(StoreError::Memory);
        };
        let kept = KeptRange {
            head: &head,
            from: HEAD,
            to: self.end,
            tail: &self.waiting,
        };
        put_around(alloc, disk, path, own, kept)?;
        self.end = end;
        self.waiting.clear();
        let ahead = ReadAhead::new(alloc);
        self.ahead = ahead;
        Ok(())
    }
}
