//! The trait of all that gives messages one by one.

ghost use Rattle.std.specs.Prelude.{◌≡◌, ◌<◌, length, slice_get, option_copied, IsErrOf};
ghost use Rattle.base_file.specs.Base.{Base, IsBase};
ghost use Rattle.{base_folder_store.specs.Answers.{Answers, HasReadCause}, base_folder.specs.Source.{LooksAt, ReadsLegibly, SourceState}};

use base_store::StoreError;
use echo_filed::Filed;

/// Messages in order of filing, and a cursor. They are read one by one, so one is in memory.
pub trait MessageSource {
    ghost state: { Self → SourceState };

    /// How many messages there are.
    fn count(&self) -> usize
        ensures count { result ≡ (state self.now).count }
        ensures all { (base : Base) → (state self.now).holds base → result ≡ length base.messages }
        ensures base { (base : Base) → (state self.now).holds base → IsBase base.messages base.cursor };

    /// How many of them, from the front, were scanned.
    fn cursor(&self) -> usize
        ensures { (base : Base) → (state self.now).holds base → result ≡ base.cursor };

    /// Makes the message of this number, counted from 0, the current one.
    fn fetch(&mut self, place: usize) -> Result<(), StoreError>
        requires ready { (state self.old).is_ready }
        requires within { place < (state self.old).count }
        ensures fetched { (state self.new).is_honest → (base : Base) → (state self.old).holds base → Answers (λ _. (state self.new).at_hand ≡ slice_get base.messages place) result }
        ensures legible { ReadsLegibly (state self.old) (state self.new) place result }
        ensures looks { LooksAt (state self.old) (state self.new) }
        ensures few { IsErrOf result StoreError.TooMany → ⊥ }
        ensures cause { HasReadCause (state self.old).failures (state self.new).failures result };

    /// The current message.
    fn at_hand(&self) -> Option<&Filed>
        ensures { option_copied result ≡ (state self.now).at_hand };
}
