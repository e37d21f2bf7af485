//! The trait of all that holds the messages of a system.

ghost use Rattle.std.specs.{Prelude.{◌≡◌, ◌<◌, ℕ, false, length, slice_get, option_copied, IfOk, IsErrOf, OnOk, OnErr}, List.list_any};
ghost use Rattle.disk_io.specs.{Disk.Honestly, Runs.ChangesNothing};
ghost use Rattle.base_file.specs.{Base.Base, Base.IsBase, Base.is_known, Purging.changed_by};
ghost use Rattle.echo_filed.specs.Filed.{has_id, key_of};
ghost use Rattle.base_store.specs.Store.{StoreState, LooksOn, CommitsNothing, MayCommit, GoesOn, KeepsOrCommits, Undoes, Commits, HasStoreCause, with_message, all_scanned, purged};

use crate::store_error::StoreError;
use base_file::PurgeRange;
use echo_filed::{Filed, Key};

/// The messages of a system in order of filing, no key twice; those before the cursor were scanned. A commit makes
/// changes permanent; until then a crash leaves the base that was committed before. After a call that failed in the
/// middle of a change, open the store again, unless it undoes failed changes.
///
/// Answers and preconditions about messages hold only if the disk was honest until then: files that others change may
/// answer anything.
///
/// A store whose look met a damaged message is no longer sound.
pub trait Store {
    // The messages that it holds, and what a crash may leave.
    ghost state: { Self → StoreState };

    // How often the device failed: a count that stays at 2^64 - 1.
    ghost failures: { Self → ℕ };

    fn len(&self) -> usize
        requires { (state self.now).is_ready }
        ensures count { Honestly (state self.now).disk ((base : Base) → (state self.now).keeps base → result ≡ length base.messages) }
        ensures base { Honestly (state self.now).disk ((base : Base) → (state self.now).keeps base → IsBase base.messages base.cursor) };

    /// How many of them, from the front, were scanned.
    fn cursor(&self) -> usize
        requires { (state self.now).is_ready }
        ensures { Honestly (state self.now).disk ((base : Base) → (state self.now).keeps base → result ≡ base.cursor) };

    fn knows(&mut self, key: &Key) -> Result<bool, StoreError>
        requires { (state self.old).is_ready }
        ensures found { Honestly (state self.new).disk ((base : Base) → (state self.old).keeps base → IfOk result (λ found. found ≡ is_known base.messages key.now)) }
        ensures looks { LooksOn (state self.old) (state self.new) }
        ensures noted { IsErrOf result StoreError.Damaged → (state self.new).is_sound → ⊥ }
        ensures many { IsErrOf result StoreError.TooMany → (state self.old).is_full }
        ensures cause { HasStoreCause (state self.old) (state self.new) (failures self.old) (failures self.new) result };

    /// Whether a message has the id, in any area.
    fn has_id(&mut self, msgid: &[u8]) -> Result<bool, StoreError>
        requires { (state self.old).is_ready }
        ensures found { Honestly (state self.new).disk ((base : Base) → (state self.old).keeps base → IfOk result (λ found. found ≡ list_any (has_id msgid.now) base.messages)) }
        ensures looks { LooksOn (state self.old) (state self.new) }
        ensures noted { IsErrOf result StoreError.Damaged → (state self.new).is_sound → ⊥ }
        ensures many { IsErrOf result StoreError.TooMany → (state self.old).is_full }
        ensures cause { HasStoreCause (state self.old) (state self.new) (failures self.old) (failures self.new) result };

    /// Makes the message of this number the current one. Numbers count from 0 in order of filing.
    fn fetch(&mut self, place: usize) -> Result<(), StoreError>
        requires ready { (state self.old).is_ready }
        requires within { Honestly (state self.old).disk ((base : Base) → (state self.old).keeps base → place < length base.messages) }
        ensures fetched { Honestly (state self.new).disk ((base : Base) → (state self.old).keeps base → OnOk result ((state self.new).at_hand ≡ slice_get base.messages place)) }
        ensures looks { LooksOn (state self.old) (state self.new) }
        ensures noted { IsErrOf result StoreError.Damaged → (state self.new).is_sound → ⊥ }
        ensures many { IsErrOf result StoreError.TooMany → (state self.old).is_full }
        ensures cause { HasStoreCause (state self.old) (state self.new) (failures self.old) (failures self.new) result };

    /// The current message; `None` before the first fetch.
    fn at_hand(&self) -> Option<&Filed>
        ensures { option_copied result ≡ (state self.now).at_hand };

    /// Appends a new message with its key.
    fn file(&mut self, key: Key, message: Filed) -> Result<(), StoreError>
        requires ready { (state self.old).is_ready }
        requires own { key ≡ key_of message }
        requires new { Honestly (state self.old).disk ((base : Base) → (state self.old).keeps base → is_known base.messages key ≡ false) }
        ensures filed { Honestly (state self.new).disk ((base : Base) → (state self.old).keeps base → OnOk result ((state self.new).keeps (with_message base message))) }
        ensures goes_on { OnOk result (GoesOn (state self.old) (state self.new)) }
        ensures undone { OnErr result (Undoes (state self.old) (state self.new)) }
        ensures commits { CommitsNothing (state self.old) (state self.new) }
        ensures many { IsErrOf result StoreError.TooMany → (state self.old).has_room message → ⊥ }
        ensures cause { HasStoreCause (state self.old) (state self.new) (failures self.old) (failures self.new) result };

    /// Moves the cursor to the end: all messages are scanned. Nothing is written before a commit.
    fn move_to_end(&mut self) -> Result<(), StoreError>
        requires { (state self.old).is_ready }
        ensures moved { Honestly (state self.new).disk ((base : Base) → (state self.old).keeps base → OnOk result ((state self.new).keeps (all_scanned base))) }
        ensures goes_on { OnOk result (GoesOn (state self.old) (state self.new)) }
        ensures undone { OnErr result (Undoes (state self.old) (state self.new)) }
        ensures quiet { ChangesNothing (state self.old).disk (state self.new).disk }
        ensures commits { CommitsNothing (state self.old) (state self.new) }
        ensures few { IsErrOf result StoreError.TooMany → ⊥ }
        ensures cause { HasStoreCause (state self.old) (state self.new) (failures self.old) (failures self.new) result };

    /// Commits the held base. At `Ok` each crash leaves it; until then, it or the base that was
    /// committed before. A base of too many bytes is not committed.
    fn commit(&mut self) -> Result<(), StoreError>
        requires { (state self.old).is_ready }
        ensures committed { OnOk result (Commits (state self.old) (state self.new)) }
        ensures either { MayCommit (state self.old) (state self.new) }
        ensures many { IsErrOf result StoreError.TooMany → (state self.old).is_full }
        ensures refused { IsErrOf result StoreError.TooMany → CommitsNothing (state self.old) (state self.new) }
        ensures cause { HasStoreCause (state self.old) (state self.new) (failures self.old) (failures self.new) result };
}

/// A store that can purge scanned messages.
pub trait PurgedStore: Store {
    /// Replaces each scanned message in the range that has an id by its stub, which keeps only the id, and answers how
    /// many changed. It may commit messages filed before; the purge itself waits for the next commit.
    fn purge(&mut self, range: &PurgeRange) -> Result<u64, StoreError>
        requires { (Self.state self.old).is_ready }
        ensures count { Honestly (Self.state self.new).disk ((base : Base) → (Self.state self.old).keeps base
            → IfOk result (λ count. count ≡ changed_by range.now base.messages base.cursor)) }
        ensures purged { Honestly (Self.state self.new).disk ((base : Base) → (Self.state self.old).keeps base → OnOk result ((Self.state self.new).keeps (purged range.now base))) }
        ensures committed { Honestly (Self.state self.new).disk (OnOk result (KeepsOrCommits (Self.state self.old) (Self.state self.new))) }
        ensures ready { OnOk result (Self.state self.new).is_ready }
        ensures undone { OnErr result (Undoes (Self.state self.old) (Self.state self.new)) }
        ensures either { MayCommit (Self.state self.old) (Self.state self.new) }
        ensures many { IsErrOf result StoreError.TooMany → (Self.state self.old).is_full }
        ensures cause { HasStoreCause (Self.state self.old) (Self.state self.new) (Self.failures self.old) (Self.failures self.new) result };
}
