//! An index of the keys: a look-up goes only to the messages with a digest.
ghost use Rattle.std.specs.Prelude.{◌≡◌, ◌≢◌, ◌<◌, ◌≤◌, ◌+◌, ◌*◌, ◌/◌, ◌^◌, ℕ, List, drop, length, take, IfSome, IfNone, OnOk};
ghost use Rattle.base_store.specs.{Keys.IsPieceOf, Keys.digest_at, Index.IsIndexOf, Index.covered, Index.entries_of};

use crate::chains::Chains;
use crate::entries::ENTRY;
use crate::expected::Expected;
use std::alloc::{AllocError, Global};

/// How many look-ups pass over the keys before chains are made of them: a posting has no more.
const PASSES: u8 = 2;

/// Chains, and the keys that they are made of: some 22 to 24 bytes a message. Expected digests need no chains: one
/// pass finds their messages, and keeps no keys. The first look-ups of other digests are made so too.
#[derive(Drop)]
pub struct Index {
    keys: Vec<u8>,
    chains: Chains,
    expected: Expected,
    // How many look-ups passed over the keys.
    passes: u8,
}

impl Index {
    /// One that has no message yet.
    pub fn new(alloc: Global) -> Index
        ensures { (keys : List ℕ) → IsIndexOf keys result }
    {
        Index {
            keys: Vec::new(alloc),
            chains: Chains::new(alloc),
            expected: Expected::new(alloc),
            passes: 0,
        }
    }

    /// Announces a look-up of the digest. Answers do not depend on it.
    pub fn expect(&mut self, alloc: Global, digest: u64)
        ensures { (keys : List ℕ) → IsIndexOf keys self.old → IsIndexOf keys self.new }
    {
        self.expected.add(alloc, digest);
    }

    /// Call it before a look-up of a digest, and then `add_keys` for the keys that are not covered. An
    /// unexpected digest is expected from then on, if it is one of the first two.
    pub fn begin(&mut self, alloc: Global, digest: u64)
        ensures { (keys : List ℕ) → IsIndexOf keys self.old → IsIndexOf keys self.new }
    {
        if self.passes < PASSES && !self.expected.has(digest) {
            self.passes += 1;
            self.expected.add(alloc, digest);
        }
    }

    /// How many first messages a look-up of the digest covers.
    pub fn covered(&self, digest: u64) -> usize
        ensures { result ≡ covered self.now digest }
    {
        if self.expected.has(digest) {
            self.expected.passed()
        } else {
            self.keys.len() / ENTRY
        }
    }

    /// Takes in the next keys, for look-ups of the digest: those from the first message on that is
    /// not covered, which has that number. If memory is refused, it is an index still.
    pub fn add_keys(&mut self, digest: u64, from: usize, piece: &[u8]) -> Result<(), AllocError>
        requires { from + length piece.now / 16 < 2 ^ 64 }
        ensures index { (keys : List ℕ) → covered self.old digest ≡ from → IsPieceOf keys from piece.now → IsIndexOf keys self.old → IsIndexOf keys self.new }
        ensures covered { (keys : List ℕ) → covered self.old digest ≡ from → IsPieceOf keys from piece.now → IsIndexOf keys self.old
            → OnOk result (covered self.new digest ≡ from + length piece.now / 16) }
    {
        if self.expected.has(digest) {
            self.expected.go_over(from, piece)
        } else {
            self.keys.extend_from_slice(piece)
        }
    }

    /// Chains the keys that were taken in, unless the digest is expected. If memory is refused,
    /// look-ups go over those that are not chained.
    pub fn chain(&mut self, alloc: Global, digest: u64)
        ensures index { (keys : List ℕ) → IsIndexOf keys self.old → IsIndexOf keys self.new }
        ensures covered { (other : ℕ) → covered self.new other ≡ covered self.old other }
    {
        if !self.expected.has(digest) {
            let _followed = self.chains.follow(alloc, &self.keys);
        }
    }

    /// The entries of the messages from one number up to another, if it holds them.
    pub fn piece(&self, from: usize, to: usize) -> Option<&[u8]>
        requires { from ≤ to }
        ensures held { IfSome result (λ piece. (16 * to ≤ length (entries_of self.now)) × (piece.now ≡ drop (16 * from) (take (16 * to) (entries_of self.now)))) }
        ensures none { IfNone result (length (entries_of self.now) / 16 < to) }
    {
        if to > self.keys.len() / ENTRY {
            return None;
        }
        Some(&self.keys[ENTRY * from..ENTRY * to])
    }

    /// The last covered message below that number with the digest. Its key may differ: compare whole keys.
    pub fn find_below(&self, digest: u64, below: usize) -> Option<usize>
        ensures found { IfSome result (λ i. i < below) }
        ensures digest { (keys : List ℕ) → IsIndexOf keys self.now → IfSome result (λ i. digest_at keys i ≡ digest) }
        ensures last { (keys : List ℕ) → IsIndexOf keys self.now → IfSome result (λ i. (j : ℕ) → i < j → j < below → j < covered self.now digest → digest_at keys j ≢ digest) }
        ensures none { (keys : List ℕ) → IsIndexOf keys self.now → IfNone result ((j : ℕ) → j < below → j < covered self.now digest → digest_at keys j ≢ digest) }
    {
        if self.expected.has(digest) {
            return self.expected.find_below(digest, below);
        }
        self.chains.find_below(&self.keys, digest, below)
    }
}
