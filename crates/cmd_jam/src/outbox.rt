//! A JAM base with messages from an editor, to be posted: the choice of these messages, and the mark of posted ones.
//!
//! The file of headers is locked from the first read until the last mark. A mark is one byte, flushed before the next
//! message is posted. The count of changes comes last.

use crate::contents::{Contents, OtherFiles};
use crate::jam::text_of;
use crate::locked::locked_again;
use crate::named::{bytes_of, write_at};
use cmd_input::output_fault;
use cmd_status::Fault;
use disk_system::OutputFault;
use echo_jam::{ATTRIBUTE_AT, JamDraft, Last, next_counts, read_jam, read_unsent, sent_attribute};
use std::fs::File;

/// The offset of the counts in the headers.
const COUNTS_AT: u64 = 8;

/// How long a header is without its subfields.
const HEADER: usize = 76;

/// A JAM base under its lock, and its contents.
#[derive(Drop)]
pub struct Outbox<'a> {
    path: &'a str,
    files: OutboxFiles,
    marked: bool,
}

#[derive(Drop)]
struct OutboxFiles {
    headers: File,
    others: OtherFiles,
    found: Vec<u8>,
    contents: Contents,
}

/// A message that is to be posted: where its header is, its number in the JAM base, and its text.
#[derive(Debug, Drop)]
pub struct OutboxMessage {
    place: u32,
    number: u64,
    text: Vec<u8>,
}

impl OutboxMessage {
    /// Its number in the JAM base.
    pub fn number(&self) -> u64 {
        self.number
    }
}

impl OutboxFiles {
    fn open(rt: &HostRuntime, path: &str) -> Result<OutboxFiles, OutputFault> {
        let headers = locked_again(rt, path)?;
        let found = bytes_of(rt, &headers)?;
        let others = OtherFiles::open(rt, path)?;
        match others.read(rt, &found) {
            Ok(contents) => Ok(OutboxFiles {
                headers,
                others,
                found,
                contents,
            }),
            Err(fault) => Err(fault),
        }
    }

    fn unsent(&self, rt: &HostRuntime, i: usize) -> Result<Option<OutboxMessage>, OutputFault> {
        match read_unsent(
            &self.found,
            &self.contents.entries,
            self.contents.texts_end,
            i,
        ) {
            Some(last) => self.with_text(rt, last, i),
            None => Ok(None),
        }
    }

    // A message with its text. A text of more bytes than the file has is that of a deleted message.
    fn with_text(
        &self,
        rt: &HostRuntime,
        last: Last,
        i: usize,
    ) -> Result<Option<OutboxMessage>, OutputFault> {
        if u64::from(last.text) + u64::from(last.size) > self.contents.texts_end {
            return Err(OutputFault::Device);
        }
        let standing = self.contents.standing;
        let first = u64::from(standing.next).saturating_sub(u64::from(standing.entries));
        match text_of(rt, &self.others.texts, last) {
            Ok(text) => Ok(Some(OutboxMessage {
                place: last.place,
                number: first.saturating_add(i as u64),
                text,
            })),
            Err(fault) => Err(fault),
        }
    }

    fn count(&self, rt: &HostRuntime) -> Result<(), OutputFault> {
        let counts = next_counts(rt.alloc(), self.contents.standing, 0)?;
        write_at(&self.headers, counts.as_slice(), COUNTS_AT)
    }
}

impl<'a> Outbox<'a> {
    /// The JAM base with this path, which has to be there. It is judged whole.
    pub fn open(rt: &HostRuntime, path: &'a str) -> Result<Outbox<'a>, Fault<'a>> {
        match OutboxFiles::open(rt, path) {
            Ok(files) => Ok(Outbox {
                path,
                files,
                marked: false,
            }),
            Err(fault) => Err(output_fault(fault, path)),
        }
    }

    /// How many entries the index has.
    pub fn entries(&self) -> usize {
        self.files.contents.standing.entries as usize
    }

    /// The message of an entry, if it is to be posted.
    pub fn unsent(&self, rt: &HostRuntime, i: usize) -> Result<Option<OutboxMessage>, Fault<'a>> {
        match self.files.unsent(rt, i) {
            Ok(unsent) => Ok(unsent),
            Err(fault) => Err(output_fault(fault, self.path)),
        }
    }

    /// The message, read for posting.
    pub fn draft<'b>(
        &'b self,
        rt: &HostRuntime,
        unsent: &OutboxMessage,
    ) -> Result<JamDraft<'b>, Fault<'a>> {
        let found = self.files.found.as_slice();
        if found.len() < unsent.place as usize + HEADER {
            return Err(Fault::CannotUse(self.path));
        }
        match read_jam(rt.alloc(), found, unsent.place, unsent.text.as_slice()) {
            Ok(draft) => Ok(draft),
            Err(_) => Err(Fault::OutOfMemory),
        }
    }

    /// Marks the message as sent.
    pub fn mark(&mut self, unsent: &OutboxMessage) -> Result<(), Fault<'a>> {
        match sent_attribute(self.files.found.as_slice(), unsent.place) {
            Some(byte) => {
                self.marked = true;
                self.put(byte, unsent.place)
            }
            None => Err(Fault::CannotUse(self.path)),
        }
    }

    fn put(&self, byte: u8, place: u32) -> Result<(), Fault<'a>> {
        let at = u64::from(place) + ATTRIBUTE_AT as u64;
        match write_at(&self.files.headers, &[byte], at) {
            Ok(()) => Ok(()),
            Err(fault) => Err(output_fault(fault, self.path)),
        }
    }

    /// Counts the change, if a message was marked, and gives the lock back.
    pub fn close(&self, rt: &HostRuntime) -> Result<(), Fault<'a>> {
        let counted = if self.marked {
            self.files.count(rt)
        } else {
            Ok(())
        };
        let _ = self.files.headers.unlock();
        match counted {
            Ok(()) => Ok(()),
            Err(fault) => Err(output_fault(fault, self.path)),
        }
    }
}
