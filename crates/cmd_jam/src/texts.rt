//! The text file of a JAM base, written in large pieces.

use std::fs::File;
use std::io;
use std::io::Write;
use std::os::unix::fs::FileExt;

/// So many bytes are in memory before they are written.
pub(crate) const ROOM: usize = 0x1_0000;

/// A writer after the end of a file. Bytes of many small texts are written at once. After a fault it drops all bytes,
/// and each flush reports the fault.
#[derive(Drop)]
pub(crate) struct Texts<'f> {
    pub(crate) file: &'f File,
    pub(crate) at: u64,
    pub(crate) held: Vec<u8>,
    pub(crate) failed: Option<io::ErrorKind>,
}

impl Write for Texts<'_> {
    fn write(&mut self, buf: &[u8]) -> io::Result<usize> {
        if self.held.len() >= ROOM {
            let _ = self.flush();
        }
        let count = buf.len().min(ROOM.saturating_sub(self.held.len()));
        self.held.extend_from_slice(&buf[..count])?;
        Ok(count)
    }

    fn flush(&mut self) -> io::Result<()> {
        if self.failed.is_none() {
            if let Err(error) = self.file.write_all_at(self.held.as_slice(), self.at) {
                self.failed = Some(error.kind());
            }
        }
        self.at = self.at.saturating_add(self.held.len() as u64);
        self.held.clear();
        match self.failed {
            Some(kind) => Err(kind.into()),
            None => Ok(()),
        }
    }
}
