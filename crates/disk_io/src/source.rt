//! The trait of a reader that counts its failures.

ghost use Rattle.std.specs.Prelude.{◌≡◌, ℕ, ◌+◌, ◌<◌, ◌≤◌, List, length, take, drop, IfSome, IfOk, OnOk, OnErr};
ghost use Rattle.std.specs.Io.{ReadsAtMost, StartsWith, KnownBytes.Consumes, KnownBytes.ReadConsumes};
ghost use Rattle.disk_io.specs.Device.{Failed, Fills};

use crate::failure::Failure;
use std::io::Read;

/// A reader that counts its failures and shows the bytes that it already has. A fault is answered only where
/// `failures` rose. The bytes that are left are `remaining` of `Read`, where they are known.
pub trait Source: Read {
    // How often the device failed: a count that stays at 2^64 - 1.
    ghost failures: { Self → ℕ };

    // The bytes that are already there, and come next.
    ghost held: { Self → List ℕ };

    /// Reads some bytes to the front of `buf`: none only where `buf` is empty or nothing is left.
    fn read_some(&mut self, buf: &mut [u8]) -> Result<usize, Failure>
        ensures bound { ReadsAtMost result buf.new }
        ensures bytes { ReadConsumes (Self.remaining self.old) (Self.remaining self.new) result buf.new }
        ensures ok { OnOk result (failures self.new ≡ failures self.old) }
        ensures err { OnErr result (Failed (failures self.old) (failures self.new)) };

    /// The bytes that need no read: all of a slice, the buffer of a buffered source, none of any other.
    fn held(&self) -> &[u8]
        ensures held { result.now ≡ held self.now }
        ensures front { IfSome (Self.remaining self.now) (λ bytes. StartsWith bytes (held self.now)) };

    /// Drops the first `count` of the bytes that are already there.
    fn skip(&mut self, count: usize)
        requires { count ≤ length (held self.old) }
        ensures bytes { Consumes (Self.remaining self.old) (Self.remaining self.new)
            (take count (held self.old)) }
        ensures held { held self.new ≡ drop count (held self.old) }
        ensures failures { failures self.new ≡ failures self.old };
}

impl Source for &[u8] {
    ghost failures = { λ _. 0 };

    ghost held = { λ slice. slice.now };

    fn read_some(&mut self, buf: &mut [u8]) -> Result<usize, Failure> {
        let all: &[u8] = *self;
        let came = all.len().min(buf.len());
        buf[..came].copy_from_slice(&all[..came]);
        *self = &all[came..];
        Ok(came)
    }

    fn held(&self) -> &[u8] {
        *self
    }

    fn skip(&mut self, count: usize) {
        let all: &[u8] = *self;
        *self = &all[count..];
    }
}

impl<S: Source> Source for &mut S {
    ghost failures = { λ source. S.failures source.now };

    ghost held = { λ source. S.held source.now };

    fn read_some(&mut self, buf: &mut [u8]) -> Result<usize, Failure> {
        Source::read_some(&mut **self, buf)
    }

    fn held(&self) -> &[u8] {
        Source::held(&**self)
    }

    fn skip(&mut self, count: usize) {
        Source::skip(&mut **self, count)
    }
}

fn read_at<S: Source>(source: &mut S, buf: &mut [u8], at: usize) -> Result<usize, Failure>
    requires { at < length buf.old }
    ensures front { take at buf.new ≡ take at buf.old }
    ensures within { IfOk result (λ count. at + count ≤ length buf.new) }
    ensures bytes { ReadConsumes (S.remaining source.old) (S.remaining source.new) result (drop at buf.new) }
    ensures ok { OnOk result (S.failures source.new ≡ S.failures source.old) }
    ensures err { OnErr result (Failed (S.failures source.old) (S.failures source.new)) }
{
    source.read_some(&mut buf[at..])
}

/// Reads until `buf` is full or nothing is left, and answers how many bytes came.
pub fn fill<S: Source>(source: &mut S, buf: &mut [u8]) -> Result<usize, Failure>
    ensures bound { ReadsAtMost result buf.new }
    ensures bytes { Fills (S.remaining source.old) (S.remaining source.new) result buf.new }
    ensures ok { OnOk result (S.failures source.new ≡ S.failures source.old) }
    ensures err { OnErr result (Failed (S.failures source.old) (S.failures source.new)) }
{
    let mut filled = 0;
    'reads: while filled < buf.len() {
        let came = read_at(source, buf, filled)?;
        if came == 0 {
            break;
        }
        filled += came;
    }
    Ok(filled)
}

/// Reads into `buf` from `at` on until it is full or nothing is left, and answers how many bytes came.
pub fn fill_buffer<S: Source>(source: &mut S, buf: &mut [u8], at: usize) -> Result<usize, Failure>
    requires { at ≤ length buf.old }
    ensures front { take at buf.new ≡ take at buf.old }
    ensures within { IfOk result (λ count. at + count ≤ length buf.new) }
    ensures bytes { Fills (S.remaining source.old) (S.remaining source.new) result (drop at buf.new) }
    ensures ok { OnOk result (S.failures source.new ≡ S.failures source.old) }
    ensures err { OnErr result (Failed (S.failures source.old) (S.failures source.new)) }
{
    fill(source, &mut buf[at..])
}
