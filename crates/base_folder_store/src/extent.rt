//! Messages in a part of a file, and in the bytes that wait to be written after it. They are found by their entries.
ghost use Rattle.std.specs.Prelude.{◌≡◌, ◌≤◌, ◌<◌, ◌/◌, ℕ, List, length, IfOk, IsErrOf, OnOk, drop, take};
ghost use Rattle.disk_io.specs.{Disk.Honestly, Runs.ChangesNothing, Runs.HasCause};
ghost use Rattle.echo_filed.specs.{Filed.Filed, Stored.IsStored, Stored.Stored, Stored.message_in, Stored.stored_bytes, declared.stored.Version.TheVariants.Second};
ghost use Rattle.base_file.specs.Alone.{IsStoredAlone, MayStandAlone};
ghost use Rattle.base_store.specs.Keys.{HasBytesOf, place_at, place_behind};
ghost use Rattle.base_folder_store.specs.{Ahead.IsPartOf, Answers.Answers, Answers.HasReadCause, Extent.IsReadable, Extent.bytes_of, Extent.size_of, Vouched.AreBytesAt, Vouched.IsMessageAt};

use crate::alone::read_alone;
use crate::read_ahead::ReadAhead;
use crate::sought::{Sought, is_stored};
use base_file::MessageRoom;
use base_store::{StoreError, message_end, message_start};
use disk_io::{Disk, DiskError, fill_with_part};
use echo_filed::Filed;
use std::alloc::Global;

/// The bytes of a file between two places, and those that wait to be written after them.
#[derive(Clone, Copy, Debug)]
pub struct Extent<'a> {
    pub path: &'a [u8],
    pub head: usize,
    pub end: usize,
    pub waiting: &'a [u8],
}

/// Fills the part with the bytes between two places of the extent.
pub(crate) fn fill_across<D: Disk>(
    disk: &mut D,
    extent: Extent<'_>,
    begins: usize,
    ends: usize,
    part: &mut Vec<u8>,
) -> Result<(), DiskError>
    requires readable { Honestly (D.state disk.old) (IsReadable (D.state disk.old) extent) }
    requires head { extent.head ≤ extent.end }
    requires order { begins ≤ ends }
    requires within { ends ≤ size_of extent }
    ensures bytes { Honestly (D.state disk.new) (OnOk result (part.new.items ≡ drop begins (take ends (bytes_of (D.state disk.old) extent.entry)))) }
    ensures quiet { ChangesNothing (D.state disk.old) (D.state disk.new) }
    ensures cause { HasCause (D.failures disk.old) (D.failures disk.new) result }
{
    let (head, written) = (extent.head, extent.end - extent.head);
    let from = begins.saturating_sub(written);
    let to = ends.saturating_sub(written);
    let first = begins.min(written);
    let last = ends.min(written);
    fill_with_part(disk, extent.path, head + first, head + last, part)?;
    part.extend_from_slice(&extent.waiting[from..to])?;
    Ok(())
}

/// The places where a message begins and ends.
#[derive(Clone, Copy, Drop)]
pub struct Bounds {
    begins: usize,
    ends: usize,
}

/// The bounds of the message of this number, by its entry and the next one. They are `Damaged` if one of its bytes is
/// not in the extent.
fn bounds_in(extent: Extent<'_>, entries: &[u8], place: usize) -> Result<Bounds, StoreError>
    requires head { extent.head ≤ extent.end }
    requires within { place < length entries.now / 16 }
    ensures order { IfOk result (λ at. at.begins ≤ at.ends) }
    ensures within { IfOk result (λ at. at.ends ≤ size_of extent.entry) }
    ensures at { (file : List ℕ) → length file ≡ size_of extent.entry → IfOk result (λ at. (at.begins ≡ place_at entries.now place) × (at.ends ≡ place_behind file entries.now place)) }
    ensures bytes { (file : List ℕ) (s : Stored) → length file ≡ size_of extent.entry → HasBytesOf file entries.now place s
        → Answers (λ at. drop at.begins (take at.ends file) ≡ stored_bytes Second s) result }
    ensures device { IsErrOf result StoreError.Device → ⊥ }
    ensures few { IsErrOf result StoreError.TooMany → ⊥ }
{
    let Some(all) = (extent.end - extent.head).checked_add(extent.waiting.len()) else {
        return Err(StoreError::Memory);
    };
    let begins = message_start(entries, place) as usize;
    let ends = message_end(entries, place, all as u64) as usize;
    if begins > ends || ends > all {
        return Err(StoreError::Damaged);
    }
    Ok(Bounds { begins, ends })
}

/// The bytes of the message of this number among these entries.
pub fn stored_at<D: Disk>(
    alloc: Global,
    disk: &mut D,
    extent: Extent<'_>,
    entries: &[u8],
    place: usize,
) -> Result<Vec<u8>, StoreError>
    requires readable { Honestly (D.state disk.old) (IsReadable (D.state disk.old) extent) }
    requires head { extent.head ≤ extent.end }
    requires within { place < length entries.now / 16 }
    ensures stored { Honestly (D.state disk.new) ((s : Stored) → HasBytesOf (bytes_of (D.state disk.old) extent.entry) entries.now place s
        → Answers (λ bytes. bytes.items ≡ stored_bytes Second s) result) }
    ensures at { Honestly (D.state disk.new) (IfOk result (λ bytes. AreBytesAt (bytes_of (D.state disk.old) extent.entry) entries.now place bytes.items)) }
    ensures quiet { ChangesNothing (D.state disk.old) (D.state disk.new) }
    ensures cause { HasReadCause (D.failures disk.old) (D.failures disk.new) result }
    ensures few { IsErrOf result StoreError.TooMany → ⊥ }
{
    let at = bounds_in(extent, entries, place)?;
    let mut bytes = Vec::new(alloc);
    fill_across(disk, extent, at.begins, at.ends, &mut bytes)?;
    Ok(bytes)
}

/// Whether the first message of these entries is the sought one. It is read ahead.
pub(crate) fn is_at<D: Disk, W: Sought>(
    alloc: Global,
    disk: &mut D,
    extent: Extent<'_>,
    ahead: &mut ReadAhead,
    sought: &W,
    entries: &[u8],
) -> Result<bool, StoreError>
    requires readable { Honestly (D.state disk.old) (IsReadable (D.state disk.old) extent) }
    requires head { extent.head ≤ extent.end }
    requires within { 0 < length entries.now / 16 }
    ensures found { Honestly (D.state disk.new) ((s : Stored) (m : Filed) → IsStoredAlone m (stored_bytes Second s) → HasBytesOf (bytes_of (D.state disk.old) extent.entry) entries.now 0 s
        → IsPartOf (bytes_of (D.state disk.old) extent.entry) ahead.old → Answers (λ found. found ≡ W.test sought.now m) result) }
    ensures part { Honestly (D.state disk.new) (IsPartOf (bytes_of (D.state disk.old) extent.entry) ahead.old → IsPartOf (bytes_of (D.state disk.old) extent.entry) ahead.new) }
    ensures quiet { ChangesNothing (D.state disk.old) (D.state disk.new) }
    ensures cause { HasReadCause (D.failures disk.old) (D.failures disk.new) result }
    ensures few { IsErrOf result StoreError.TooMany → ⊥ }
{
    let at = bounds_in(extent, entries, 0)?;
    ahead.read(disk, extent, at.begins, at.ends)?;
    match ahead.part(at.begins, at.ends) {
        Some(bytes) => is_stored(alloc, sought, bytes),
        None => Err(StoreError::Damaged),
    }
}

/// The message of this number among these entries. It is read ahead.
pub fn read_at<D: Disk>(
    disk: &mut D,
    extent: Extent<'_>,
    ahead: &mut ReadAhead,
    room: &mut MessageRoom,
    entries: &[u8],
    place: usize,
) -> Result<Filed, StoreError>
    requires readable { Honestly (D.state disk.old) (IsReadable (D.state disk.old) extent) }
    requires head { extent.head ≤ extent.end }
    requires within { place < length entries.now / 16 }
    ensures read { Honestly (D.state disk.new) ((s : Stored) → IsStored Second s → MayStandAlone s → HasBytesOf (bytes_of (D.state disk.old) extent.entry) entries.now place s
        → IsPartOf (bytes_of (D.state disk.old) extent.entry) ahead.old → Answers (λ message. message ≡ message_in Second s) result) }
    ensures at { Honestly (D.state disk.new) (IsPartOf (bytes_of (D.state disk.old) extent.entry) ahead.old → IfOk result (IsMessageAt (bytes_of (D.state disk.old) extent.entry) entries.now place)) }
    ensures part { Honestly (D.state disk.new) (IsPartOf (bytes_of (D.state disk.old) extent.entry) ahead.old → IsPartOf (bytes_of (D.state disk.old) extent.entry) ahead.new) }
    ensures quiet { ChangesNothing (D.state disk.old) (D.state disk.new) }
    ensures cause { HasReadCause (D.failures disk.old) (D.failures disk.new) result }
    ensures few { IsErrOf result StoreError.TooMany → ⊥ }
{
    let at = bounds_in(extent, entries, place)?;
    ahead.read(disk, extent, at.begins, at.ends)?;
    match ahead.part(at.begins, at.ends) {
        Some(bytes) => read_alone(room, bytes),
        None => Err(StoreError::Damaged),
    }
}
