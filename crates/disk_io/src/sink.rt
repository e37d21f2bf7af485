//! The trait of a writer that counts its failures.

ghost use Rattle.std.specs.Prelude.{◌≡◌, ℕ, ◌<◌, Bool, false, length, IfOk, OnOk, OnErr};
ghost use Rattle.std.specs.Io.{WritesAtMost, KnownBytes.Keeps, KnownBytes.WriteAppends};
ghost use Rattle.disk_io.specs.Device.{Failed, Sends};

use crate::failure::Failure;
use std::io::Write;

/// A writer that counts its failures. A fault is answered only where `failures` rose. The bytes that went out are
/// `contents` of `Write`, where they are known.
pub trait Sink: Write {
    // How often the device failed: a count that stays at 2^64 - 1.
    ghost failures: { Self → ℕ };

    // Whether bytes may be held back that were not passed on.
    ghost holds: { Self → Bool };

    /// Writes some bytes from the front of `buf`: none only where `buf` is empty.
    fn write_some(&mut self, buf: &[u8]) -> Result<usize, Failure>
        ensures bound { WritesAtMost result buf.now }
        ensures bytes { WriteAppends (Self.contents self.old) (Self.contents self.new) result buf.now }
        ensures some { 0 < length buf.now → IfOk result (λ count. 0 < count) }
        ensures ok { OnOk result (failures self.new ≡ failures self.old) }
        ensures err { OnErr result (Failed (failures self.old) (failures self.new)) };

    /// Passes on the bytes that the writer holds back.
    fn flush_all(&mut self) -> Result<(), Failure>
        ensures bytes { Keeps (Self.contents self.old) (Self.contents self.new) }
        ensures passed { OnOk result (holds self.new ≡ false) }
        ensures ok { OnOk result (failures self.new ≡ failures self.old) }
        ensures err { OnErr result (Failed (failures self.old) (failures self.new)) };
}

impl<S: Sink> Sink for &mut S {
    ghost failures = { λ sink. S.failures sink.now };

    ghost holds = { λ sink. S.holds sink.now };

    fn write_some(&mut self, buf: &[u8]) -> Result<usize, Failure> {
        Sink::write_some(&mut **self, buf)
    }

    fn flush_all(&mut self) -> Result<(), Failure> {
        Sink::flush_all(&mut **self)
    }
}

/// Writes all of `bytes`. Adds to `sent` how many went out, a count that stays at 2^64 - 1.
pub fn send<S: Sink>(sink: &mut S, bytes: &[u8], sent: &mut u64) -> Result<(), Failure>
    ensures bytes { Sends (S.contents sink.old) (S.contents sink.new) result bytes.now sent.old sent.new }
    ensures ok { OnOk result (S.failures sink.new ≡ S.failures sink.old) }
    ensures err { OnErr result (Failed (S.failures sink.old) (S.failures sink.new)) }
{
    let before = *sent;
    let mut done = 0;
    'writes: while done < bytes.len() {
        done += sink.write_some(&bytes[done..])?;
        *sent = before.saturating_add(done as u64);
    }
    Ok(())
}
