//! The progress of a command: how far a base file is read.
ghost use Rattle.std.specs.{Prelude.{◌≡◌, OnOk, OnErr}, Io.{ReadsAtMost, KnownBytes.ReadConsumes}};
ghost use Rattle.disk_io.specs.Device.{Failed};

use cmd_status::MessageProgress;
use disk_io::{Failure, Source};
use std::io;
use std::io::{ErrorKind, Read};

/// The offset of the number of messages in a base file: four bytes, low byte first.
const MESSAGES: usize = 12;

/// How many bytes are read between two reports.
const SOME: usize = 65_536;

/// A base file that is read, with reports of progress.
#[derive(Drop)]
pub struct Followed<'w, R, T> {
    source: R,
    watch: &'w T,
    size: usize,
    messages: usize,
    read: usize,
    // How many bytes were read at the last report.
    reported: usize,
}

impl<'w, R: Source, T: MessageProgress> Followed<'w, R, T> {
    /// A base file of so many bytes. Its first bytes say how many messages it has.
    pub fn new(source: R, size: usize, watch: &'w T) -> Followed<'w, R, T>
        ensures { result.source ≡ source }
    {
        let messages = messages_in(source.held());
        Followed {
            source,
            watch,
            size,
            messages,
            read: 0,
            reported: 0,
        }
    }

    // So many more bytes are read.
    fn count(&mut self, more: usize)
        ensures { self.new.source ≡ self.old.source }
    {
        self.read = self.read.saturating_add(more);
        if self.read.saturating_sub(self.reported) >= SOME && self.messages > 0 {
            self.reported = self.read;
            self.watch.tell(self.place(), self.messages);
        }
    }

    // The message that is being read, if all have one size.
    fn place(&self) -> usize {
        let share = (self.messages as u128).saturating_mul(self.read as u128)
            / (self.size.max(1) as u128);
        share.min(self.messages.saturating_sub(1) as u128) as usize
    }
}

// How many messages a base file says that it has; none if it ends before that.
fn messages_in(front: &[u8]) -> usize {
    let four = front.get(MESSAGES..).unwrap_or(&[]);
    if four.len() < 4 {
        return 0;
    }
    u32::from_le_bytes([four[0], four[1], four[2], four[3]]) as usize
}

impl<R: Source, T: MessageProgress> Read for Followed<'_, R, T> {
    ghost remaining = { λ followed. R.remaining followed.source };

    fn read(&mut self, buf: &mut [u8]) -> io::Result<usize>
        ensures bound { ReadsAtMost result buf.new }
        ensures bytes { ReadConsumes (R.remaining self.old.source) (R.remaining self.new.source) result buf.new }
        ensures ok { OnOk result (R.failures self.new.source ≡ R.failures self.old.source) }
        ensures err { OnErr result (Failed (R.failures self.old.source) (R.failures self.new.source)) }
    {
        Source::read_some(self, buf).map_err(|_| io::Error::from(ErrorKind::Other))
    }
}

impl<R: Source, T: MessageProgress> Source for Followed<'_, R, T> {
    ghost failures = { λ followed. R.failures followed.source };

    ghost held = { λ followed. R.held followed.source };

    fn read_some(&mut self, buf: &mut [u8]) -> Result<usize, Failure> {
        let came = self.source.read_some(buf)?;
        self.count(came);
        Ok(came)
    }

    fn held(&self) -> &[u8] {
        self.source.held()
    }

    fn skip(&mut self, count: usize) {
        self.source.skip(count);
        self.count(count);
    }
}
