//! A reader or writer of Rust as a source or sink.

ghost use Rattle.std.specs.Prelude.{◌≡◌, ◌≢◌, ◌↔◌, ◌+◌, ◌<◌, [], false, length, IsTrue, IfOk, OnOk, IfErr, OnErr};
ghost use Rattle.std.specs.{Io.ReadsAtMost, Io.WritesAtMost, Io.KnownBytes.Keeps, Io.KnownBytes.ReadConsumes, Io.KnownBytes.WriteAppends, IoError.error_kind};
ghost use Rattle.disk_io.specs.{Device.Failed, Device.counted, Watched.watched_device, Watched.watched_failures, Watched.watched_holds};

use crate::failure::Failure;
use crate::sink::Sink;
use crate::source::Source;
use std::io;
use std::io::{ErrorKind, Read, Write};

/// How many interruptions in a row are a failure.
const TRIES: u32 = 16;

/// A reader or writer that counts its failures, up to the greatest `u64`. It retries after an interruption. A failure
/// is any other error, sixteen interruptions in a row, or a write of some bytes that takes none.
#[derive(Drop)]
pub struct Watched<D> {
    device: D,
    failures: u64,
    // Whether bytes were written since the last flush.
    holds: bool,
}

impl<D> Watched<D> {
    /// The device, which has not failed yet.
    pub fn new(device: D) -> Watched<D>
        ensures device { watched_device result ≡ device }
        ensures failures { watched_failures result ≡ 0 }
        ensures holds { watched_holds result ≡ false }
    {
        Watched {
            device,
            failures: 0,
            holds: false,
        }
    }

    /// The device.
    pub fn into_inner(self) -> D
        ensures { result ≡ watched_device self }
    {
        self.device
    }

    /// How often the device failed.
    pub fn failures(&self) -> u64
        ensures { result ≡ watched_failures self.now }
    {
        self.failures
    }
}

fn count_error<T>(failures: &mut u64, answer: &io::Result<T>)
    ensures ok { OnOk answer.now (failures.new ≡ failures.old) }
    ensures once { OnErr answer.now (failures.new ≡ counted (failures.old + 1)) }
    ensures err { OnErr answer.now (Failed failures.old failures.new) }
{
    if answer.is_err() {
        *failures = failures.saturating_add(1);
    }
}

fn interrupted_too_often() -> io::Error
    ensures { error_kind result ≡ ErrorKind.TimedOut }
{
    io::Error::from(ErrorKind::TimedOut)
}

fn is_interrupted(error: &io::Error) -> bool
    ensures { IsTrue result ↔ (error_kind error.now ≡ ErrorKind.Interrupted) }
{
    error.kind() == ErrorKind::Interrupted
}

fn read_retrying<D: Read>(device: &mut D, buf: &mut [u8]) -> io::Result<usize>
    ensures bound { ReadsAtMost result buf.new }
    ensures bytes { ReadConsumes (D.remaining device.old) (D.remaining device.new) result buf.new }
    ensures kind { IfErr result (λ error. error_kind error ≢ ErrorKind.Interrupted) }
{
    'tries: for _ in 0..TRIES {
        match device.read(buf) {
            Ok(count) => return Ok(count),
            Err(error) => {
                if !is_interrupted(&error) {
                    return Err(error);
                }
            }
        }
    }
    Err(interrupted_too_often())
}

fn write_retrying<D: Write>(device: &mut D, buf: &[u8]) -> io::Result<usize>
    ensures bound { WritesAtMost result buf.now }
    ensures bytes { WriteAppends (D.contents device.old) (D.contents device.new) result buf.now }
    ensures some { 0 < length buf.now → IfOk result (λ count. 0 < count) }
    ensures kind { IfErr result (λ error. error_kind error ≢ ErrorKind.Interrupted) }
{
    'tries: for _ in 0..TRIES {
        match device.write(buf) {
            Ok(0) if !buf.is_empty() => return Err(io::Error::from(ErrorKind::WriteZero)),
            Ok(count) => return Ok(count),
            Err(error) => {
                if !is_interrupted(&error) {
                    return Err(error);
                }
            }
        }
    }
    Err(interrupted_too_often())
}

fn flush_retrying<D: Write>(device: &mut D) -> io::Result<()>
    ensures bytes { Keeps (D.contents device.old) (D.contents device.new) }
    ensures kind { IfErr result (λ error. error_kind error ≢ ErrorKind.Interrupted) }
{
    'tries: for _ in 0..TRIES {
        match device.flush() {
            Ok(()) => return Ok(()),
            Err(error) => {
                if !is_interrupted(&error) {
                    return Err(error);
                }
            }
        }
    }
    Err(interrupted_too_often())
}

impl<D: Read> Read for Watched<D> {
    ghost remaining = { λ watched. D.remaining (watched_device watched) };

    fn read(&mut self, buf: &mut [u8]) -> io::Result<usize>
        ensures bound { ReadsAtMost result buf.new }
        ensures bytes { ReadConsumes (D.remaining (watched_device self.old))
            (D.remaining (watched_device self.new)) result buf.new }
        ensures ok { OnOk result (watched_failures self.new ≡ watched_failures self.old) }
        ensures once { OnErr result (watched_failures self.new ≡ counted (watched_failures self.old + 1)) }
        ensures err { OnErr result (Failed (watched_failures self.old) (watched_failures self.new)) }
        ensures kind { IfErr result (λ error. error_kind error ≢ ErrorKind.Interrupted) }
    {
        let result = read_retrying(&mut self.device, buf);
        count_error(&mut self.failures, &result);
        result
    }
}

impl<D: Write> Write for Watched<D> {
    ghost contents = { λ watched. D.contents (watched_device watched) };

    fn write(&mut self, buf: &[u8]) -> io::Result<usize>
        ensures bound { WritesAtMost result buf.now }
        ensures bytes { WriteAppends (D.contents (watched_device self.old))
            (D.contents (watched_device self.new)) result buf.now }
        ensures some { 0 < length buf.now → IfOk result (λ count. 0 < count) }
        ensures ok { OnOk result (watched_failures self.new ≡ watched_failures self.old) }
        ensures once { OnErr result (watched_failures self.new ≡ counted (watched_failures self.old + 1)) }
        ensures err { OnErr result (Failed (watched_failures self.old) (watched_failures self.new)) }
        ensures kind { IfErr result (λ error. error_kind error ≢ ErrorKind.Interrupted) }
    {
        self.holds = true;
        let result = write_retrying(&mut self.device, buf);
        count_error(&mut self.failures, &result);
        result
    }

    fn flush(&mut self) -> io::Result<()>
        ensures bytes { Keeps (D.contents (watched_device self.old)) (D.contents (watched_device self.new)) }
        ensures passed { OnOk result (watched_holds self.new ≡ false) }
        ensures ok { OnOk result (watched_failures self.new ≡ watched_failures self.old) }
        ensures once { OnErr result (watched_failures self.new ≡ counted (watched_failures self.old + 1)) }
        ensures err { OnErr result (Failed (watched_failures self.old) (watched_failures self.new)) }
        ensures kind { IfErr result (λ error. error_kind error ≢ ErrorKind.Interrupted) }
    {
        let result = flush_retrying(&mut self.device);
        self.holds = self.holds && result.is_err();
        count_error(&mut self.failures, &result);
        result
    }
}

impl<D: Read> Source for Watched<D> {
    ghost failures = { watched_failures };

    ghost held = { λ _. [] };

    fn read_some(&mut self, buf: &mut [u8]) -> Result<usize, Failure> {
        Read::read(self, buf).map_err(|_| Failure)
    }

    fn held(&self) -> &[u8] {
        &[]
    }

    fn skip(&mut self, _count: usize) {}
}

impl<D: Write> Sink for Watched<D> {
    ghost failures = { watched_failures };

    ghost holds = { watched_holds };

    fn write_some(&mut self, buf: &[u8]) -> Result<usize, Failure> {
        Write::write(self, buf).map_err(|_| Failure)
    }

    fn flush_all(&mut self) -> Result<(), Failure> {
        Write::flush(self).map_err(|_| Failure)
    }
}
