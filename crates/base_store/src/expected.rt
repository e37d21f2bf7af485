//! Digests that a run expects to look up: one pass over the keys finds the messages that have them.
ghost use Rattle.std.specs.Prelude.{◌≡◌, ◌≢◌, ◌<◌, ◌+◌, ◌/◌, ◌%◌, ◌^◌, ◌⊎◌, ℕ, true, false, Contains, List, length, slice_index_or, IfNone, IfSome, OnOk};
ghost use Rattle.base_store.specs.{Expected.{AreFound, IsLastSeen, IsPlaceIn, are_set, is_expected, place_in}, Keys.{IsPieceOf, digest_at}};

use crate::entries::{ENTRY, stored_digest};
use std::alloc::{AllocError, Global};

/// How many flags are in a table: one for each number of sixteen bits.
const FLAGS: usize = 65_536;

/// The most digests that are expected. With more of them the flags distinguish too little.
const MOST: usize = 2_048;

/// Flags for expected digests, and the messages with such digests among the first keys. Another digest with the bits
/// of an expected one counts too: that costs time and never a wrong answer.
#[derive(Drop)]
pub struct Expected {
    // A flag for the low sixteen bits of a digest, and one for the sixteen above them.
    low: Vec<bool>,
    high: Vec<bool>,
    digests: usize,
    places: Vec<NumberedDigest>,
    // The number of messages that a pass has covered.
    passed: usize,
}

/// The number of a message, and the digest in its entry.
#[derive(Clone, Copy)]
pub struct NumberedDigest {
    number: usize,
    digest: u64,
}

fn is_set(flags: &[bool], number: usize) -> bool
    ensures { result ≡ slice_index_or flags.now number false }
{
    match flags.get(number) {
        Some(flag) => *flag,
        None => false,
    }
}

fn are_set(low: &[bool], high: &[bool], digest: u64) -> bool
    ensures { result ≡ are_set low.now high.now digest }
{
    is_set(low, (digest % 65_536) as usize) && is_set(high, (digest / 65_536 % 65_536) as usize)
}

fn find_all(
    low: &[bool],
    high: &[bool],
    piece: &[u8],
    from: usize,
    places: &mut Vec<NumberedDigest>,
) -> Result<(), AllocError>
    requires { from + length piece.now / 16 < 2 ^ 64 }
    ensures kept { (p : NumberedDigest) → Contains places.old.items p → Contains places.new.items p }
    ensures found { OnOk result ((i : ℕ) → i < length piece.now / 16 → are_set low.now high.now (digest_at piece.now i) ≡ true → Contains places.new.items (place_in piece.now from i)) }
    ensures only { (p : NumberedDigest) → Contains places.new.items p → Contains places.old.items p ⊎ IsPlaceIn piece.now from p }
{
    'entries: for i in 0..piece.len() / ENTRY {
        let digest = stored_digest(piece, i);
        if are_set(low, high, digest) {
            places.push(NumberedDigest {
                number: from + i,
                digest,
            })?;
        }
    }
    Ok(())
}

impl Expected {
    pub(crate) fn new(alloc: Global) -> Expected
        ensures { (keys : List ℕ) → AreFound keys result }
    {
        Expected {
            low: Vec::new(alloc),
            high: Vec::new(alloc),
            digests: 0,
            places: Vec::new(alloc),
            passed: 0,
        }
    }

    pub(crate) fn has(&self, digest: u64) -> bool
        ensures { result ≡ is_expected self.now digest }
    {
        are_set(&self.low, &self.high, digest)
    }

    pub(crate) fn passed(&self) -> usize
        ensures { result ≡ self.now.passed }
    {
        self.passed
    }

    /// Expects this digest too, and forgets the pass over the keys. If memory is refused, or very
    /// many are added, some are not expected.
    pub(crate) fn add(&mut self, alloc: Global, digest: u64)
        ensures { (keys : List ℕ) → AreFound keys self.new }
    {
        self.passed = 0;
        self.places.clear();
        if self.digests >= MOST {
            self.low.clear();
            return;
        }
        self.digests += 1;
        let _set = self.set_flags(alloc, digest);
    }

    fn set_flags(&mut self, alloc: Global, digest: u64) -> Result<(), AllocError>
        ensures passed { self.new.passed ≡ self.old.passed }
        ensures places { self.new.places ≡ self.old.places }
    {
        if self.low.len() < FLAGS || self.high.len() < FLAGS {
            let low = vec![in alloc; false; FLAGS]?;
            let high = vec![in alloc; false; FLAGS]?;
            self.low = low;
            self.high = high;
        }
        self.low[(digest % 65_536) as usize] = true;
        self.high[(digest / 65_536 % 65_536) as usize] = true;
        Ok(())
    }

    /// Goes over the next keys, of which the first has that number. If memory is refused, the next call repeats it.
    pub(crate) fn go_over(&mut self, from: usize, piece: &[u8]) -> Result<(), AllocError>
        requires { from + length piece.now / 16 < 2 ^ 64 }
        ensures found { (keys : List ℕ) → self.old.passed ≡ from → IsPieceOf keys from piece.now → AreFound keys self.old → AreFound keys self.new }
        ensures passed { OnOk result (self.new.passed ≡ from + length piece.now / 16) }
        ensures same { (digest : ℕ) → is_expected self.new digest ≡ is_expected self.old digest }
    {
        find_all(&self.low, &self.high, piece, from, &mut self.places)?;
        self.passed = from + piece.len() / ENTRY;
        Ok(())
    }

    fn seen_next(&self, digest: u64, below: usize, i: usize, last: usize) -> usize
        requires { i < length self.now.places.items }
        ensures { IsLastSeen self.now.places.items digest below i last → IsLastSeen self.now.places.items digest below (i + 1) result }
    {
        let place = self.places[i];
        if place.digest == digest && last <= place.number && place.number < below {
            return place.number + 1;
        }
        last
    }

    /// The last message below that number with the digest. It looks at all places: they are few.
    pub(crate) fn find_below(&self, digest: u64, below: usize) -> Option<usize>
        ensures found { IfSome result (λ i. i < below) }
        ensures digest { (keys : List ℕ) → AreFound keys self.now → IfSome result (λ i. digest_at keys i ≡ digest) }
        ensures last { (keys : List ℕ) → AreFound keys self.now → is_expected self.now digest ≡ true
            → IfSome result (λ i. (j : ℕ) → i < j → j < below → j < self.now.passed → digest_at keys j ≢ digest) }
        ensures none { (keys : List ℕ) → AreFound keys self.now → is_expected self.now digest ≡ true
            → IfNone result ((j : ℕ) → j < below → j < self.now.passed → digest_at keys j ≢ digest) }
    {
        let mut last = 0;
        'places: for i in 0..self.places.len() {
            last = self.seen_next(digest, below, i, last);
        }
        if last == 0 {
            return None;
        }
        Some(last - 1)
    }
}
