//! What a command printed, kept for a note.

use std::alloc::Global;
use std::io;
use std::io::Write;

/// Standard error. Its lines are kept for the notes that come after them.
#[derive(Drop)]
pub struct KeptLines<W> {
    to: W,
    kept: Vec<u8>,
}

impl<W> KeptLines<W> {
    pub fn new(alloc: Global, to: W) -> KeptLines<W> {
        KeptLines {
            to,
            kept: Vec::new(alloc),
        }
    }

    /// The written bytes that memory could hold.
    pub fn into_kept(self) -> Vec<u8>
    where
        W: Drop,
    {
        self.kept
    }
}

impl<W: Write> Write for KeptLines<W> {
    ghost contents = { λ lines. W.contents lines.to };

    fn write(&mut self, buf: &[u8]) -> io::Result<usize> {
        let count = self.to.write(buf)?;
        let _ = self.kept.extend_from_slice(&buf[..count]);
        Ok(count)
    }

    fn flush(&mut self) -> io::Result<()> {
        self.to.flush()
    }
}
