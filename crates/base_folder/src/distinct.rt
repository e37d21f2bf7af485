//! Messages of which no two may have one key.
ghost use Rattle.std.specs.Prelude.{◌≡◌, ◌<◌, ℕ, Some, slice_get, option_copied, option_map, IfOk, IsErrOf, IsTrue};
ghost use Rattle.base_file.specs.Base.{Base};
ghost use Rattle.{echo_filed.specs.Filed.key_of, base_folder_store.specs.Answers.{Answers, HasReadCause}, base_folder.specs.Source.LooksAt};

use crate::source::MessageSource;
use base_store::StoreError;
use echo_filed::{Filed, Key};
use std::alloc::{AllocError, Global};
use std::collections::BTreeSet;
use std::hash::BuildHasher;

/// A source of messages that are fetched in order, from the first on, once or more often. One is damaged if an earlier
/// one has its key. It keeps eight bytes for each message.
#[derive(Drop)]
pub struct Distinct<M: MessageSource, S: BuildHasher> {
    alloc: Global,
    source: M,
    hasher: S,
    // A hash of each key so far.
    hashes: BTreeSet<u64>,
}

impl<M: MessageSource, S: BuildHasher> Distinct<M, S> {
    /// The messages of this source.
    pub fn new(alloc: Global, source: M, hasher: S) -> Distinct<M, S>
        ensures source { result.source ≡ source }
        ensures ready { (M.state source).is_ready → (⟦<Distinct<M, S> as MessageSource>⟧.state result).is_ready }
    {
        Distinct {
            alloc,
            source,
            hasher,
            hashes: BTreeSet::new(alloc),
        }
    }
}

impl<M: MessageSource, S: BuildHasher> MessageSource for Distinct<M, S> {
    ghost state = { λ r. M.state r.source };

    fn count(&self) -> usize {
        self.source.count()
    }

    fn cursor(&self) -> usize {
        self.source.cursor()
    }

    fn fetch(&mut self, place: usize) -> Result<(), StoreError> {
        if place == 0 {
            self.hashes.clear();
        }
        self.source.fetch(place)?;
        let Some(key) = key_of(self.alloc, self.source.at_hand())? else {
            return Ok(());
        };
        if self.hashes.insert(self.hasher.hash_one(&key))? {
            return Ok(());
        }
        judge_earlier(self.alloc, &mut self.source, &key, place)
    }

    fn at_hand(&self) -> Option<&Filed> {
        self.source.at_hand()
    }
}

fn key_of(alloc: Global, message: Option<&Filed>) -> Result<Option<Key>, AllocError>
    ensures { IfOk result (λ key. key ≡ option_map key_of (option_copied message.entry)) }
{
    match message {
        Some(message) => Ok(Some(Key::of_message(alloc, message)?)),
        None => Ok(None),
    }
}

fn has_key(alloc: Global, message: Option<&Filed>, key: &Key) -> Result<bool, AllocError>
    ensures { IfOk result (λ has. IsTrue has → option_map key_of (option_copied message.entry) ≡ Some key.now) }
{
    let Some(message) = message else {
        return Ok(false);
    };
    let own = Key::of_message(alloc, message)?;
    Ok(own == *key)
}

fn judge_earlier<M: MessageSource>(
    alloc: Global,
    messages: &mut M,
    key: &Key,
    place: usize,
) -> Result<(), StoreError>
    requires ready { (M.state messages.old).is_ready }
    requires within { place < (M.state messages.old).count }
    ensures fetched { (M.state messages.new).is_honest → (base : Base) → (M.state messages.old).holds base → option_map key_of (slice_get base.messages place) ≡ Some key.now
        → Answers (λ _. (M.state messages.new).at_hand ≡ slice_get base.messages place) result }
    ensures since { (i : ℕ) → (M.state messages.new).legible i → (M.state messages.old).legible i }
    ensures looks { LooksAt (M.state messages.old) (M.state messages.new) }
    ensures few { IsErrOf result StoreError.TooMany → ⊥ }
    ensures cause { HasReadCause (M.state messages.old).failures (M.state messages.new).failures result }
{
    let before = place.min(messages.count());
    'earlier: for i in 0..before {
        messages.fetch(i)?;
        if has_key(alloc, messages.at_hand(), key)? {
            return Err(StoreError::Damaged);
        }
    }
    messages.fetch(place)
}
