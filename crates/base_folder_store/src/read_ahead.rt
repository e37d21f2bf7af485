//! Bytes of an extent that are read ahead, since most look-ups go on where the last one ended.

ghost use Rattle.std.specs.Prelude.{◌≡◌, ◌≤◌, ◌-◌, true, false, ℕ, List, length, take, drop, IfSome, IsSome, OnOk};
ghost use Rattle.disk_io.specs.{Disk.Honestly, Runs.ChangesNothing, Runs.HasCause};
ghost use Rattle.base_folder_store.specs.{Ahead.{AreParts, Covers, IsPartOf}, Extent.{IsReadable, bytes_of, size_of}};

use crate::extent::{Extent, fill_across};
use base_file::MessageRoom;
use disk_io::{Disk, DiskError};
use std::alloc::Global;

/// How many bytes are read ahead, if the extent has so many.
const PIECE: usize = 65_536;

/// A part of an extent, and the place where it begins.
#[derive(Drop)]
pub struct ReadAhead {
    pub(crate) from: usize,
    pub(crate) bytes: Vec<u8>,
}

impl ReadAhead {
    /// No bytes.
    pub fn new(alloc: Global) -> ReadAhead
        ensures { (file : List ℕ) → IsPartOf file result }
    {
        ReadAhead {
            from: 0,
            bytes: Vec::new(alloc),
        }
    }

    fn has(&self, begins: usize, ends: usize) -> bool
        requires { begins ≤ ends }
        ensures yes { result ≡ true → Covers self.now begins ends }
        ensures no { result ≡ false → Covers self.now begins ends → ⊥ }
    {
        self.from <= begins && ends - self.from <= self.bytes.len()
    }

    // Up to where to read. More is read only where these bytes go on from those it has: looks at random places have no use
    // for it.
    fn up_to(&self, begins: usize, ends: usize) -> usize
        ensures { ends ≤ result }
    {
        if self.from <= begins && begins - self.from <= self.bytes.len() {
            return ends.max(begins.saturating_add(PIECE));
        }
        ends
    }

    /// Reads the bytes between two places of an extent, if it lacks them. Where they go on from those it has, it also
    /// reads more behind them. After a fault it has no bytes.
    pub fn read<D: Disk>(
        &mut self,
        disk: &mut D,
        extent: Extent<'_>,
        begins: usize,
        ends: usize,
    ) -> Result<(), DiskError>
        requires readable { Honestly (D.state disk.old) (IsReadable (D.state disk.old) extent) }
        requires head { extent.head ≤ extent.end }
        requires order { begins ≤ ends }
        requires within { ends ≤ size_of extent }
        ensures part { Honestly (D.state disk.new) (IsPartOf (bytes_of (D.state disk.old) extent.entry) self.old → IsPartOf (bytes_of (D.state disk.old) extent.entry) self.new) }
        ensures has { Honestly (D.state disk.new) (OnOk result (Covers self.new begins ends)) }
        ensures quiet { ChangesNothing (D.state disk.old) (D.state disk.new) }
        ensures cause { HasCause (D.failures disk.old) (D.failures disk.new) result }
    {
        if self.has(begins, ends) {
            return Ok(());
        }
        let all = (extent.end - extent.head).saturating_add(extent.waiting.len());
        let to = self.up_to(begins, ends).min(all);
        self.from = begins;
        match fill_across(disk, extent, begins, to, &mut self.bytes) {
            Ok(()) => Ok(()),
            Err(fault) => {
                self.bytes.clear();
                Err(fault)
            }
        }
    }

    /// The bytes between two places; none if it lacks some.
    pub fn part(&self, begins: usize, ends: usize) -> Option<&[u8]>
        requires { begins ≤ ends }
        ensures part { (file : List ℕ) → IsPartOf file self.now → IfSome result (λ part. part.now ≡ drop begins (take ends file)) }
        ensures long { IfSome result (λ part. length part.now ≡ ends - begins) }
        ensures some { Covers self.now begins ends → IsSome result }
    {
        if !self.has(begins, ends) {
            return None;
        }
        let start = begins - self.from;
        let end = ends - self.from;
        Some(&self.bytes[start..end])
    }
}

/// The parts of a folder's keys and messages that were read ahead, and room for a message.
#[derive(Drop)]
pub struct Buffers {
    pub(crate) keys: ReadAhead,
    pub(crate) messages: ReadAhead,
    pub room: MessageRoom,
}

impl Buffers {
    /// Nothing was read.
    pub fn new(alloc: Global) -> Buffers
        ensures { (messages keys : List ℕ) → AreParts messages keys result }
    {
        Buffers {
            keys: ReadAhead::new(alloc),
            messages: ReadAhead::new(alloc),
            room: MessageRoom::new(alloc),
        }
    }
}
