//! A base folder filled with messages that are read one by one.
ghost use Rattle.std.specs.Prelude.{◌≡◌, ◌≢◌, ◌≤◌, ◌<◌, ◌+◌, ◌-◌, ℕ, IfErr, IsErrOf, OnOk, Some, slice_get};
ghost use Rattle.{base_file.specs.Base.Base, disk_io.specs.Disk.Honestly};
ghost use Rattle.{base_log.specs.{Moments.KeepsOutside, Opening.AreAlone}, echo_filed.specs.Filed.Filed as TheMessage, base_folder_store.specs.Added.HasRoomFor};
ghost use Rattle.base_folder_store.specs.{Answers.HasReadCause, Held.{HoldsBase, RepresentsBase}, Opened.{committed_by, held_by, path_of}};
ghost use Rattle.{base_folder_store.specs.{Owned.{IsUnclaimed, with_mark}, State.IsUsable}, base_folder.specs.Ours.SameKey};
ghost use Rattle.base_folder.specs.Filled.{AddsOnly, FillsAllOrNothing, FillsIfEmpty, FillsOnly, HasFillCause, HasMark, HasUnfilledCause, HoldsFront, HoldsMany, HoldsMore, IsFilledFull, IsKept, IsUnfilled, ReadsFor, ShowsBase, RepresentsNoneOr, drawn_mark, no_messages};

use crate::as_file::fault_of;
use crate::fill_error::FillError;
use crate::open_error::OpenError;
use crate::opening::open_base;
use crate::source::MessageSource;
use base_file::BaseFault;
use base_folder_store::{Folder, bytes_alone};
use base_log::FolderIdentity;
use base_store::{Digest, StoreError};
use disk_io::Disk;
use echo_filed::{Filed, Key};
use std::alloc::Global;

fn add<D: Disk, H: Digest>(
    alloc: Global,
    disk: &mut D,
    folder: &mut Folder,
    message: &Filed,
) -> Result<(), StoreError>
    requires { IsUsable (D.state disk.old) folder.old }
    ensures kept { AddsOnly folder.old folder.new (D.state disk.old) (D.state disk.new) result }
    ensures more { Honestly (D.state disk.new) ((k : ℕ) → HoldsMany H.keyed (held_by (D.state disk.old) folder.old) k → OnOk result (HoldsMany H.keyed (held_by (D.state disk.new) folder.new) (k + 1))) }
    ensures added { Honestly (D.state disk.new) (OnOk result (HoldsMore H.keyed (held_by (D.state disk.old) folder.old) (held_by (D.state disk.new) folder.new) message.now)) }
    ensures cause { HasReadCause (D.failures disk.old) (D.failures disk.new) result }
    ensures many { IsErrOf result StoreError.TooMany → HasRoomFor folder.old message.now → ⊥ }
{
    let bytes = bytes_alone(alloc, message)?;
    let key = Key::of_message(alloc, message)?;
    let number = folder.digest_of_key::<H>(alloc, &key)?;
    folder.stage(disk, &bytes, number)
}

fn add_next<D: Disk, H: Digest, M: MessageSource>(
    alloc: Global,
    disk: &mut D,
    folder: &mut Folder,
    messages: &mut M,
    place: usize,
) -> Result<(), FillError>
    requires usable { IsUsable (D.state disk.old) folder.old }
    requires ready { (M.state messages.old).is_ready }
    requires within { place < (M.state messages.old).count }
    ensures kept { FillsOnly H.keyed 1 folder.old folder.new (D.state disk.old) (D.state disk.new) result }
    ensures added { Honestly (D.state disk.new) ((base : Base) (cursor : ℕ) → ShowsBase (M.state messages.old) (M.state messages.new) base
        → HoldsFront H.keyed (held_by (D.state disk.old) folder.old) base.messages place cursor
        → OnOk result (HoldsFront H.keyed (held_by (D.state disk.new) folder.new) base.messages (place + 1) cursor)) }
    ensures reads { ReadsFor (M.state messages.old) (M.state messages.new) result }
    ensures cause { HasFillCause (D.failures disk.old) (D.failures disk.new) result }
    ensures many { (base : Base) → ShowsBase (M.state messages.old) (M.state messages.new) base → IsErrOf result (FillError.Folder (OpenError.Wrong BaseFault.TooMany))
        → (m : TheMessage) × (slice_get base.messages place ≡ Some m) × (HasRoomFor folder.old m → ⊥) }
{
    if let Err(error) = messages.fetch(place) {
        return Err(FillError::Messages(fault_of(error, place)));
    }
    match messages.at_hand() {
        Some(message) => Ok(add::<D, H>(alloc, disk, folder, message)?),
        None => {
            let message = place as u64;
            Err(FillError::Messages(BaseFault::Damaged { message }))
        }
    }
}

fn add_from<D: Disk, H: Digest, M: MessageSource>(
    alloc: Global,
    disk: &mut D,
    folder: &mut Folder,
    messages: &mut M,
    from: usize,
    to: usize,
) -> Result<(), FillError>
    requires usable { IsUsable (D.state disk.old) folder.old }
    requires ready { (M.state messages.old).is_ready }
    requires order { from ≤ to }
    requires within { to ≤ (M.state messages.old).count }
    ensures kept { FillsOnly H.keyed (to - from) folder.old folder.new (D.state disk.old) (D.state disk.new) result }
    ensures added { Honestly (D.state disk.new) ((base : Base) (cursor : ℕ) → ShowsBase (M.state messages.old) (M.state messages.new) base
        → HoldsFront H.keyed (held_by (D.state disk.old) folder.old) base.messages from cursor
        → OnOk result (HoldsFront H.keyed (held_by (D.state disk.new) folder.new) base.messages to cursor)) }
    ensures reads { ReadsFor (M.state messages.old) (M.state messages.new) result }
    ensures cause { HasFillCause (D.failures disk.old) (D.failures disk.new) result }
    ensures many { Honestly (D.state disk.new) ((base : Base) (cursor : ℕ) → ShowsBase (M.state messages.old) (M.state messages.new) base
        → HoldsFront H.keyed (held_by (D.state disk.old) folder.old) base.messages from cursor
        → IsErrOf result (FillError.Folder (OpenError.Wrong BaseFault.TooMany)) → IsFilledFull D.state H.keyed (path_of folder.old) base) }
{
    'messages: for i in from..to {
        add_next::<D, H, M>(alloc, disk, folder, messages, i)?;
    }
    Ok(())
}

fn add_all<D: Disk, H: Digest, M: MessageSource>(
    alloc: Global,
    disk: &mut D,
    folder: &mut Folder,
    messages: &mut M,
) -> Result<(), FillError>
    requires usable { IsUsable (D.state disk.old) folder.old }
    requires ready { (M.state messages.old).is_ready }
    ensures kept { FillsOnly H.keyed (M.state messages.old).count folder.old folder.new (D.state disk.old) (D.state disk.new) result }
    ensures added { Honestly (D.state disk.new) ((M.state messages.new).is_honest → (base : Base) → (M.state messages.old).holds base
        → HoldsFront H.keyed (held_by (D.state disk.old) folder.old) base.messages 0 0
        → OnOk result (HoldsBase H.keyed (held_by (D.state disk.new) folder.new) base)) }
    ensures reads { ReadsFor (M.state messages.old) (M.state messages.new) result }
    ensures cause { HasFillCause (D.failures disk.old) (D.failures disk.new) result }
    ensures many { Honestly (D.state disk.new) ((M.state messages.new).is_honest → (base : Base) → (M.state messages.old).holds base
        → HoldsFront H.keyed (held_by (D.state disk.old) folder.old) base.messages 0 0
        → IsErrOf result (FillError.Folder (OpenError.Wrong BaseFault.TooMany)) → IsFilledFull D.state H.keyed (path_of folder.old) base) }
{
    let count = messages.count();
    let scanned = messages.cursor().min(count);
    add_from::<D, H, M>(alloc, disk, folder, messages, 0, scanned)?;
    folder.move_to_end();
    add_from::<D, H, M>(alloc, disk, folder, messages, scanned, count)
}

fn fill_opened<D: Disk, H: Digest, M: MessageSource>(
    alloc: Global,
    disk: &mut D,
    folder: &mut Folder,
    messages: &mut M,
) -> Result<(), FillError>
    requires usable { IsUsable (D.state disk.old) folder.old }
    requires ready { (M.state messages.old).is_ready }
    ensures filled { Honestly (D.state disk.new) ((M.state messages.new).is_honest → (base : Base) → (M.state messages.old).holds base
        → HoldsFront H.keyed (held_by (D.state disk.old) folder.old) base.messages 0 0
        → OnOk result (IsKept (D.state disk.new) (RepresentsBase H.keyed (path_of folder.old) base))) }
    ensures any_moment { Honestly (D.state disk.new) (HoldsBase H.keyed (committed_by (D.state disk.old) folder.old) no_messages → HoldsBase H.keyed (held_by (D.state disk.old) folder.old) no_messages
        → FillsAllOrNothing H.keyed (path_of folder.old) (RepresentsNoneOr H.keyed (path_of folder.old) (D.state disk.old)) (D.state disk.old) (D.state disk.new) (M.state messages.old) (M.state messages.new) result) }
    ensures marked { Honestly (D.state disk.new) (OnOk result (IsKept (D.state disk.new) (HasMark (path_of folder.old) folder.old.recorded.mark))) }
    ensures outside { KeepsOutside (path_of folder.old) (D.state disk.old) (D.state disk.new) }
    ensures reads { ReadsFor (M.state messages.old) (M.state messages.new) result }
    ensures cause { HasFillCause (D.failures disk.old) (D.failures disk.new) result }
    ensures many { Honestly (D.state disk.new) ((M.state messages.new).is_honest → (base : Base) → (M.state messages.old).holds base
        → HoldsFront H.keyed (held_by (D.state disk.old) folder.old) base.messages 0 0
        → IsErrOf result (FillError.Folder (OpenError.Wrong BaseFault.TooMany)) → IsFilledFull D.state H.keyed (path_of folder.old) base) }
{
    add_all::<D, H, M>(alloc, disk, folder, messages)?;
    folder.commit(disk)?;
    Ok(())
}

fn give_key(folder: &mut Folder, first: u64, second: u64)
    ensures only { folder.new ≡ with_mark folder.old folder.new.recorded.mark }
    ensures key { 0 < folder.old.keys → SameKey folder.old.recorded.mark folder.new.recorded.mark }
    ensures kept { folder.old.recorded.mark.owner ≢ 0 → folder.new ≡ folder.old }
    ensures drawn { IsUnclaimed folder.old → folder.new.recorded.mark ≡ drawn_mark first second }
{
    let owner = 0;
    let _given = folder.claim(FolderIdentity {
        owner,
        first,
        second,
    });
}

/// Fills the base folder of this path, which ends in a slash, with the messages and the cursor of a source. One
/// message at a time is in memory. A folder without owner gets the key of these two halves. `strange`: it has foreign
/// files. `Used`: the folder has messages, and stays. Else the error is one of `open_base`, or `Wrong` if four bytes
/// can't count a message (F7).
pub fn fill<D: Disk, H: Digest, M: MessageSource>(
    alloc: Global,
    disk: &mut D,
    path: &[u8],
    strange: bool,
    key: (u64, u64),
    messages: &mut M,
) -> Result<(), FillError>
    requires alone { Honestly (D.state disk.old) (AreAlone path.now (D.state disk.old)) }
    requires ready { (M.state messages.old).is_ready }

    ensures filled { Honestly (D.state disk.new) ((M.state messages.new).is_honest → (base : Base) → (M.state messages.old).holds base
        → RepresentsBase H.keyed path.now no_messages (D.state disk.old).seen
        → OnOk result (IsKept (D.state disk.new) (RepresentsBase H.keyed path.now base))) }

    // A crash leaves no message or all, or what a crash might have left before.
    ensures any_moment { Honestly (D.state disk.new) (FillsIfEmpty H.keyed path.now strange (drawn_mark key.0 key.1) (D.state disk.old) (D.state disk.new) (M.state messages.old) (M.state messages.new) result) }
    ensures outside { KeepsOutside path.now (D.state disk.old) (D.state disk.new) }
    ensures wrong { Honestly (D.state disk.new) (IfErr result (IsUnfilled strange path.now (D.state disk.old).seen)) }

    ensures reads { ReadsFor (M.state messages.old) (M.state messages.new) result }
    ensures cause { HasUnfilledCause (D.failures disk.old) (D.failures disk.new) result }
    ensures many { Honestly (D.state disk.new) ((M.state messages.new).is_honest → (base : Base) → (M.state messages.old).holds base
        → RepresentsBase H.keyed path.now no_messages (D.state disk.old).seen
        → IsErrOf result (FillError.Folder (OpenError.Wrong BaseFault.TooMany)) → IsFilledFull D.state H.keyed path.now base) }
{
    let mut folder = open_base(alloc, disk, path, strange)?;
    if folder.count() > 0 {
        return Err(FillError::Used);
    }
    give_key(&mut folder, key.0, key.1);
    fill_opened::<D, H, M>(alloc, disk, &mut folder, messages)
}
