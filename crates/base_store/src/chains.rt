//! Chains over the keys: a look-up goes only to the messages with the low bits of a digest.
ghost use Rattle.std.specs.Prelude.{◌≡◌, ◌≢◌, ◌<◌, ◌≤◌, ◌+◌, ◌/◌, ◌⊎◌, ℕ, List, length, min, slice_index, IfSome, IfNone, OnOk};
ghost use Rattle.base_store.specs.{Keys.digest_at, Chains.AreChains, Chains.count_of, Chains.head_of};

use crate::entries::{ENTRY, has_digest, last_from, stored_digest};
use std::alloc::{AllocError, Global};

/// How many messages are chained at most: each, counted from 1, is a number of four bytes.
const MOST: usize = 4_294_967_294;

/// Chains by the low bits of digests: to the last message with these bits, and from each message to the previous one.
/// Messages count from 1, and 0 is none. Chains take 6 to 8 bytes a message. The caller holds the keys, and passes to
/// each call the same ones, or the same and more behind them.
#[derive(Drop)]
pub struct Chains {
    heads: Vec<u32>,
    before: Vec<u32>,
}

fn head_of(heads: usize, digest: u64) -> usize
    requires { 0 < heads }
    ensures head { result ≡ head_of heads digest }
    ensures within { result < heads }
{
    (digest & (heads as u64 - 1)) as usize
}

impl Chains {
    /// Those of no message.
    pub fn new(alloc: Global) -> Chains
        ensures { (keys : List ℕ) → AreChains keys result }
    {
        Chains {
            heads: Vec::new(alloc),
            before: Vec::new(alloc),
        }
    }

    fn make_room(&mut self, alloc: Global, all: usize) -> Result<(), AllocError>
        ensures chains { (keys : List ℕ) → AreChains keys self.old → AreChains keys self.new }
        ensures room { OnOk result (0 < length self.new.heads.items) }
    {
        if self.heads.len() <= all / 2 {
            let heads = vec![in alloc; 0; (all / 2 + 1).next_power_of_two()]?;
            self.heads = heads;
            self.before.clear();
        }
        Ok(())
    }

    fn chain_next(&mut self, keys: &[u8], number: usize) -> Result<(), AllocError>
        requires within { number < length keys.now / 16 }
        requires few { number < 4294967294 }
        requires next { number ≡ count_of self.old }
        requires room { 0 < length self.old.heads.items }
        ensures chains { AreChains keys.now self.old → AreChains keys.now self.new }
        ensures count { OnOk result (count_of self.new ≡ number + 1) }
        ensures heads { length self.new.heads.items ≡ length self.old.heads.items }
    {
        let head = head_of(self.heads.len(), stored_digest(keys, number));
        let last = self.heads[head];
        self.before.push(last)?;
        self.heads[head] = number as u32 + 1;
        Ok(())
    }

    /// Chains the messages that are not chained yet. If memory is refused, look-ups pass over the keys of the others.
    pub fn follow(&mut self, alloc: Global, keys: &[u8]) -> Result<(), AllocError>
        ensures chains { AreChains keys.now self.old → AreChains keys.now self.new }
        ensures all { OnOk result (min (length keys.now / 16) 4294967294 ≤ count_of self.new) }
    {
        let all = (keys.len() / ENTRY).min(MOST);
        self.make_room(alloc, all)?;
        'entries: for i in self.before.len()..all {
            self.chain_next(keys, i)?;
        }
        Ok(())
    }

    fn link(&self, next: usize) -> Option<(usize, usize)>
        ensures link { IfSome result (λ link. (next ≡ link.0 + 1) × (link.0 < count_of self.now) × (link.1 ≡ min (slice_index self.now.before.items link.0) link.0)) }
        ensures none { IfNone result ((next ≡ 0) ⊎ (count_of self.now < next)) }
    {
        if next == 0 || next > self.before.len() {
            return None;
        }
        let place = next - 1;
        Some((place, (self.before[place] as usize).min(place)))
    }

    fn find_chained(&self, keys: &[u8], digest: u64, below: usize) -> Option<usize>
        requires { below ≤ length keys.now / 16 }
        ensures found { IfSome result (λ i. (i < below) × (digest_at keys.now i ≡ digest)) }
        ensures last { AreChains keys.now self.now
            → IfSome result (λ i. (j : ℕ) → i < j → j < below → j < count_of self.now → digest_at keys.now j ≢ digest) }
        ensures none { AreChains keys.now self.now
            → IfNone result ((j : ℕ) → j < below → j < count_of self.now → digest_at keys.now j ≢ digest) }
    {
        if self.heads.is_empty() {
            return None;
        }
        let mut next = self.heads[head_of(self.heads.len(), digest)] as usize;
        'chain: while let Some((place, earlier)) = self.link(next) {
            if has_digest(keys, digest, place, below) {
                return Some(place);
            }
            next = earlier;
        }
        None
    }

    /// The last message below that number with the digest. Its key may differ: compare whole keys.
    pub fn find_below(&self, keys: &[u8], digest: u64, below: usize) -> Option<usize>
        ensures found { IfSome result (λ i. (i < below) × (i < length keys.now / 16) × (digest_at keys.now i ≡ digest)) }
        ensures last { AreChains keys.now self.now
            → IfSome result (λ i. (j : ℕ) → i < j → j < below → j < length keys.now / 16 → digest_at keys.now j ≢ digest) }
        ensures none { AreChains keys.now self.now
            → IfNone result ((j : ℕ) → j < below → j < length keys.now / 16 → digest_at keys.now j ≢ digest) }
    {
        let end = below.min(keys.len() / ENTRY);
        let added = last_from(keys, digest, self.before.len(), end);
        if added.is_some() {
            return added;
        }
        self.find_chained(keys, digest, end)
    }
}
