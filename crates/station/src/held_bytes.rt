//! Bytes in memory that are read from the front.
ghost use Rattle.std.specs.Prelude.{◌≡◌, ℕ, ◌≤◌, List, length, drop, min, take, vec_len};

use std::marker::Model;

/// Bytes in memory, of which the first were read.
#[derive(Drop)]
pub struct HeldBytes {
    bytes: Vec<u8>,
    read: usize,
}

impl Model for HeldBytes {
    ghost Value = { List ℕ };

    ghost view = { λ held. drop held.read held.bytes.items };

    ghost invariant = { λ held. held.read ≤ vec_len held.bytes };
}

impl HeldBytes {
    /// All of these bytes.
    pub fn new(bytes: Vec<u8>) -> HeldBytes
        ensures { result ≡ bytes.items }
    {
        HeldBytes { bytes, read: 0 }
    }

    // The bytes that are left.
    pub(crate) fn as_slice(&self) -> &[u8]
        ensures { result.now ≡ self.now }
    {
        let all = self.bytes.as_slice();
        &all[self.read..]
    }

    // Drops the first `count` bytes.
    pub(crate) fn skip(&mut self, count: usize)
        requires { count ≤ length self.old }
        ensures { self.new ≡ drop count self.old }
    {
        self.read += count;
    }

    // Moves as many bytes as there are, and room for, to the front of `buf`.
    pub(crate) fn give(&mut self, buf: &mut [u8]) -> usize
        ensures count { result ≡ min (length self.old) (length buf.old) }
        ensures given { take result buf.new ≡ take result self.old }
        ensures rest { self.new ≡ drop result self.old }
    {
        let held = self.as_slice();
        let count = held.len().min(buf.len());
        buf[..count].copy_from_slice(&held[..count]);
        self.skip(count);
        count
    }
}
