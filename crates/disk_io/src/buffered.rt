//! A source with a buffer before it.

ghost use Rattle.std.specs.{Prelude.◌≡◌, Prelude.[], Prelude.length, Prelude.◌<◌, Prelude.IfOk, Prelude.OnOk, Prelude.OnErr, Io.ReadsAtMost, Io.KnownBytes.Keeps, Io.KnownBytes.IsAtEnd, Io.KnownBytes.ReadConsumes};
ghost use Rattle.disk_io.specs.{Device.Failed, Buffered.buffered_source, Buffered.buffered_held, Buffered.buffered_remaining};

use crate::ahead::Ahead;
use crate::failure::Failure;
use crate::source::Source;
use std::alloc::{AllocError, Global};
use std::io;
use std::io::{ErrorKind, Read};

/// A buffer in front of a source. One read fills it when it is empty.
#[derive(Drop)]
pub struct Buffered<S> {
    source: S,
    ahead: Ahead,
}

impl<S> Buffered<S> {
    /// An empty buffer of `capacity` bytes, or of one, in front of the source. It never grows. The
    /// source is dropped where there is no memory.
    pub fn new(alloc: Global, source: S, capacity: usize) -> Result<Buffered<S>, AllocError>
    where
        S: Drop,
        ensures source { IfOk result (λ buffered. buffered_source buffered ≡ source) }
        ensures held { IfOk result (λ buffered. buffered_held buffered ≡ []) }
    {
        let ahead = Ahead::new(alloc, capacity)?;
        Ok(Buffered { source, ahead })
    }

    /// The source. The bytes in the buffer are lost.
    pub fn into_inner(self) -> S
        ensures { result ≡ buffered_source self }
    {
        self.source
    }
}

impl<S: Source> Buffered<S> {
    /// Reads once if the buffer is empty: then it holds some bytes, or nothing is left.
    pub fn read_ahead(&mut self) -> Result<(), Failure>
        ensures bytes { Keeps (buffered_remaining S.remaining self.old)
            (buffered_remaining S.remaining self.new) }
        ensures held { 0 < length (buffered_held self.old)
            → buffered_held self.new ≡ buffered_held self.old }
        ensures end { OnOk result (buffered_held self.new ≡ []
            → IsAtEnd (buffered_remaining S.remaining self.new)) }
        ensures ok { OnOk result (S.failures (buffered_source self.new)
            ≡ S.failures (buffered_source self.old)) }
        ensures err { OnErr result (Failed (S.failures (buffered_source self.old))
            (S.failures (buffered_source self.new))) }
    {
        if self.ahead.is_empty() {
            self.ahead.refill(&mut self.source)?;
        }
        Ok(())
    }
}

impl<S: Source> Read for Buffered<S> {
    ghost remaining = { buffered_remaining S.remaining };

    fn read(&mut self, buf: &mut [u8]) -> io::Result<usize>
        ensures bound { ReadsAtMost result buf.new }
        ensures bytes { ReadConsumes (buffered_remaining S.remaining self.old)
            (buffered_remaining S.remaining self.new) result buf.new }
        ensures ok { OnOk result (S.failures (buffered_source self.new)
            ≡ S.failures (buffered_source self.old)) }
        ensures err { OnErr result (Failed (S.failures (buffered_source self.old))
            (S.failures (buffered_source self.new))) }
    {
        Source::read_some(self, buf).map_err(|_| io::Error::from(ErrorKind::Other))
    }
}

impl<S: Source> Source for Buffered<S> {
    ghost failures = { λ buffered. S.failures (buffered_source buffered) };

    ghost held = { buffered_held };

    fn read_some(&mut self, buf: &mut [u8]) -> Result<usize, Failure> {
        self.read_ahead()?;
        Ok(self.ahead.give(buf))
    }

    fn held(&self) -> &[u8] {
        self.ahead.as_slice()
    }

    fn skip(&mut self, count: usize) {
        self.ahead.skip(count);
    }
}
