//! What reads a packet file: bytes that are held in memory, or another reader.
ghost use Rattle.std.specs.{Prelude.{◌≡◌, OnOk, OnErr}, Io.{ReadsAtMost, KnownBytes.ReadConsumes}};
ghost use Rattle.disk_io.specs.Device.{Failed};
ghost use Rattle.station.specs.PacketReader.{held_failures, held_front, held_remaining};

use crate::held_bytes::HeldBytes;
use disk_io::{Failure, Source};
use std::io;
use std::io::{ErrorKind, Read};

/// Reads a packet file.
#[derive(Drop)]
pub enum PacketSource<R> {
    /// One that is held in memory.
    Held(HeldBytes),
    /// One that is read piece by piece.
    Streamed(R),
}

impl<R: Source> Read for PacketSource<R> {
    ghost remaining = { held_remaining R.remaining };

    fn read(&mut self, buf: &mut [u8]) -> io::Result<usize>
        ensures bound { ReadsAtMost result buf.new }
        ensures bytes { ReadConsumes (held_remaining R.remaining self.old) (held_remaining R.remaining self.new) result buf.new }
        ensures ok { OnOk result (held_failures R.failures self.new ≡ held_failures R.failures self.old) }
        ensures err { OnErr result (Failed (held_failures R.failures self.old) (held_failures R.failures self.new)) }
    {
        Source::read_some(self, buf).map_err(|_| io::Error::from(ErrorKind::Other))
    }
}

impl<R: Source> Source for PacketSource<R> {
    ghost failures = { held_failures R.failures };

    ghost held = { held_front R.held };

    fn read_some(&mut self, buf: &mut [u8]) -> Result<usize, Failure> {
        match self {
            PacketSource::Held(held) => Ok(held.give(buf)),
            PacketSource::Streamed(reader) => reader.read_some(buf),
        }
    }

    fn held(&self) -> &[u8] {
        match self {
            PacketSource::Held(held) => held.as_slice(),
            PacketSource::Streamed(reader) => reader.held(),
        }
    }

    fn skip(&mut self, count: usize) {
        match self {
            PacketSource::Held(held) => held.skip(count),
            PacketSource::Streamed(reader) => reader.skip(count),
        }
    }
}
