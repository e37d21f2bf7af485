//! Bytes that were read ahead.
ghost use Rattle.std.specs.Prelude.{◌≡◌, ◌↔◌, ℕ, ◌-◌, ◌<◌, ◌≤◌, List, [], length, drop, min, slice_range, vec_len, take, IsTrue, IfOk, OnOk, OnErr};
ghost use Rattle.std.specs.Io.KnownBytes.{Keeps, IsAtEnd, prepend_known};
ghost use Rattle.disk_io.specs.Device.{Failed};

use crate::failure::Failure;
use crate::source::Source;
use std::alloc::{AllocError, Global};
use std::marker::Model;

/// A buffer of a fixed size, and the part of it that is read ahead.
#[derive(Drop)]
pub(crate) struct Ahead {
    bytes: Vec<u8>,
    start: usize,
    end: usize,
}

impl Model for Ahead {
    ghost Value = { List ℕ };

    ghost view = { λ s. slice_range s.bytes.items s.start s.end };

    ghost invariant = { λ s. (s.start ≤ s.end) × (s.end ≤ vec_len s.bytes) × (0 < vec_len s.bytes) };
}

impl Ahead {
    pub(crate) fn new(alloc: Global, capacity: usize) -> Result<Ahead, AllocError>
        ensures { IfOk result (λ ahead. ahead ≡ []) }
    {
        let capacity = capacity.max(1);
        let mut bytes = Vec::with_capacity(alloc, capacity)?;
        bytes.resize(capacity, 0)?;
        Ok(Ahead {
            bytes,
            start: 0,
            end: 0,
        })
    }

    pub(crate) fn as_slice(&self) -> &[u8]
        ensures { result.now ≡ self.now }
    {
        let all = self.bytes.as_slice();
        &all[self.start..self.end]
    }

    pub(crate) fn is_empty(&self) -> bool
        ensures { IsTrue result ↔ (self.now ≡ []) }
    {
        self.start == self.end
    }

    pub(crate) fn skip(&mut self, count: usize)
        requires { count ≤ length self.old }
        ensures { self.new ≡ drop count self.old }
    {
        self.start += count;
    }

    pub(crate) fn give(&mut self, buf: &mut [u8]) -> usize
        ensures count { result ≡ min (length self.old) (length buf.old) }
        ensures given { take result buf.new ≡ take result self.old }
        ensures rest { self.new ≡ drop result self.old }
    {
        let held = self.as_slice();
        let count = held.len().min(buf.len());
        buf[..count].copy_from_slice(&held[..count]);
        self.skip(count);
        count
    }

    pub(crate) fn refill<S: Source>(&mut self, source: &mut S) -> Result<(), Failure>
        requires { self.old ≡ [] }
        ensures bytes { Keeps (S.remaining source.old) (prepend_known self.new (S.remaining source.new)) }
        ensures end { OnOk result (self.new ≡ [] → IsAtEnd (S.remaining source.new)) }
        ensures ok { OnOk result (S.failures source.new ≡ S.failures source.old) }
        ensures err { OnErr result (Failed (S.failures source.old) (S.failures source.new)) }
    {
        let count = source.read_some(self.bytes.as_mut_slice())?;
        self.start = 0;
        self.end = count;
        Ok(())
    }
}
