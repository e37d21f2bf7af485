//! A device for tests: it moves small pieces, is interrupted, and fails.

ghost use Rattle.std.specs.{Prelude.◌≡◌, Prelude.◌<◌, Prelude.◌≤◌, Prelude.IfOk, Prelude.IsErr, Io.ReadsAtMost, Io.WritesAtMost, Io.KnownBytes.Keeps, Io.KnownBytes.ReadConsumes, Io.KnownBytes.WriteAppends};
ghost use Rattle.disk_io.specs.Trial.{trial_device, trial_piece, trial_again, trial_interrupted, trial_left, KeepsRules, MovesPiece};

use std::io;
use std::io::{ErrorKind, Read, Write};

/// A reader or a writer that works badly, for tests. A call moves at most `piece` bytes, after `again` interruptions.
/// After `left` bytes each call fails. With pieces of 0 bytes a writer takes nothing, and a reader answers an error.
#[derive(Drop)]
pub struct Trial<D> {
    device: D,
    piece: usize,
    again: u32,
    left: u64,
    interrupted: u32,
}

impl<D> Trial<D> {
    /// The device, which moves pieces, is interrupted and fails from now on.
    pub fn new(device: D, piece: usize, again: u32, left: u64) -> Trial<D>
        ensures device { trial_device result ≡ device }
        ensures piece { trial_piece result ≡ piece }
        ensures again { trial_again result ≡ again }
        ensures left { trial_left result ≡ left }
        ensures interrupted { trial_interrupted result ≡ 0 }
    {
        Trial {
            device,
            piece,
            again,
            left,
            interrupted: 0,
        }
    }

    /// The device.
    pub fn into_inner(self) -> D
        ensures { result ≡ trial_device self }
    {
        self.device
    }

    fn next_piece(&mut self, room: usize) -> io::Result<usize>
        ensures device { trial_device self.new ≡ trial_device self.old }
        ensures left { trial_left self.new ≡ trial_left self.old }
        ensures rules { KeepsRules self.old self.new }
        ensures fits { IfOk result (λ count. (count ≤ room)
            × (count ≤ trial_piece self.old) × (count ≤ trial_left self.old)) }
        ensures waits { IfOk result (λ count. 0 < count
            → (trial_again self.old ≤ trial_interrupted self.old) × (trial_interrupted self.new ≡ 0)) }
        ensures spent { trial_left self.old ≡ 0 → IsErr result }
    {
        if self.left == 0 {
            return Err(io::Error::from(ErrorKind::Other));
        }
        let count = room.min(self.piece).min(self.left as usize);
        if count == 0 {
            return Ok(0);
        }
        if self.interrupted < self.again {
            self.interrupted += 1;
            return Err(io::Error::from(ErrorKind::Interrupted));
        }
        self.interrupted = 0;
        Ok(count)
    }
}

impl<D: Read> Read for Trial<D> {
    ghost remaining = { λ trial. D.remaining (trial_device trial) };

    fn read(&mut self, buf: &mut [u8]) -> io::Result<usize>
        ensures bound { ReadsAtMost result buf.new }
        ensures bytes { ReadConsumes (D.remaining (trial_device self.old))
            (D.remaining (trial_device self.new)) result buf.new }
        ensures piece { MovesPiece self.old self.new result }
        ensures rules { KeepsRules self.old self.new }
        ensures spent { trial_left self.old ≡ 0 → IsErr result }
    {
        let count = self.next_piece(buf.len())?;
        if count == 0 && !buf.is_empty() {
            return Err(io::Error::from(ErrorKind::Other));
        }
        let came = self.device.read(&mut buf[..count])?;
        self.left -= came as u64;
        Ok(came)
    }
}

impl<D: Write> Write for Trial<D> {
    ghost contents = { λ trial. D.contents (trial_device trial) };

    fn write(&mut self, buf: &[u8]) -> io::Result<usize>
        ensures bound { WritesAtMost result buf.now }
        ensures bytes { WriteAppends (D.contents (trial_device self.old))
            (D.contents (trial_device self.new)) result buf.now }
        ensures piece { MovesPiece self.old self.new result }
        ensures rules { KeepsRules self.old self.new }
        ensures spent { trial_left self.old ≡ 0 → IsErr result }
    {
        let count = self.next_piece(buf.len())?;
        let went = self.device.write(&buf[..count])?;
        self.left -= went as u64;
        Ok(went)
    }

    fn flush(&mut self) -> io::Result<()>
        ensures bytes { Keeps (D.contents (trial_device self.old)) (D.contents (trial_device self.new)) }
        ensures left { trial_left self.new ≡ trial_left self.old }
        ensures interrupted { trial_interrupted self.new ≡ trial_interrupted self.old }
        ensures rules { KeepsRules self.old self.new }
    {
        self.device.flush()
    }
}
