//! The entries of the keys, one after another.
ghost use Rattle.std.specs.{Prelude.{◌≡◌, ◌≢◌, ◌<◌, ◌≤◌, ◌+◌, ◌*◌, ◌/◌, ◌↔◌, ℕ, List, length, take, drop, IfSome, IfNone, IsTrue}, Int.{w64, from_le_bytes}};
ghost use Rattle.base_store.specs.Keys.{digest_at, entry, place_at, place_behind};

/// How many bytes an entry has.
pub(crate) const ENTRY: usize = 16;

fn number_at(keys: &[u8], at: usize) -> u64
    requires { at + 8 ≤ length keys.now }
    ensures { result ≡ from_le_bytes w64 (take 8 (drop at keys.now)) }
{
    u64::from_le_bytes([
        keys[at],
        keys[at + 1],
        keys[at + 2],
        keys[at + 3],
        keys[at + 4],
        keys[at + 5],
        keys[at + 6],
        keys[at + 7],
    ])
}

/// Where the message of this number begins, counted from 0.
pub fn message_start(keys: &[u8], number: usize) -> u64
    requires { number < length keys.now / 16 }
    ensures { result ≡ place_at keys.now number }
{
    number_at(keys, ENTRY * number)
}

/// The digest in the entry of the message of this number, counted from 0.
pub fn stored_digest(keys: &[u8], number: usize) -> u64
    requires { number < length keys.now / 16 }
    ensures { result ≡ digest_at keys.now number }
{
    number_at(keys, ENTRY * number + 8)
}

/// Where the message of this number ends: where the next one begins, or where all messages end.
pub fn message_end(keys: &[u8], number: usize, all: u64) -> u64
    requires { number < length keys.now / 16 }
    ensures { (messages : List ℕ) → length messages ≡ all → result ≡ place_behind messages keys.now number }
{
    if number + 1 < keys.len() / ENTRY {
        message_start(keys, number + 1)
    } else {
        all
    }
}

/// The entry of a message that begins there, with its digest.
pub fn entry(place: u64, digest: u64) -> [u8; 16]
    ensures { result ≡ entry place digest }
{
    let p = place.to_le_bytes();
    let d = digest.to_le_bytes();
    [
        p[0], p[1], p[2], p[3], p[4], p[5], p[6], p[7], d[0], d[1], d[2], d[3], d[4], d[5], d[6],
        d[7],
    ]
}

pub(crate) fn has_digest(keys: &[u8], digest: u64, place: usize, below: usize) -> bool
    requires { below ≤ length keys.now / 16 }
    ensures { IsTrue result ↔ ((place < below) × (digest_at keys.now place ≡ digest)) }
{
    place < below && stored_digest(keys, place) == digest
}

pub(crate) fn last_from(keys: &[u8], digest: u64, from: usize, below: usize) -> Option<usize>
    requires { below ≤ length keys.now / 16 }
    ensures found { IfSome result (λ i. (from ≤ i) × (i < below) × (digest_at keys.now i ≡ digest)) }
    ensures last { IfSome result (λ i. (j : ℕ) → i < j → j < below → digest_at keys.now j ≢ digest) }
    ensures none { IfNone result ((j : ℕ) → from ≤ j → j < below → digest_at keys.now j ≢ digest) }
{
    let mut end = below;
    'entries: while end > from {
        let place = end - 1;
        if stored_digest(keys, place) == digest {
            return Some(place);
        }
        end = place;
    }
    None
}
