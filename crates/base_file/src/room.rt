//! Vectors that one message after another is read into.
ghost use Rattle.std.specs.Prelude.{◌≡◌};
ghost use Rattle.echo_filed.specs.Written.{text_of};

use crate::known_lists::{KnownLists, place_of};
use echo_addr::NetNode;
use echo_filed::{Filed, StoredRoom};
use echo_text::{Echo, EchoRoom};
use std::alloc::{AllocError, Global};

/// How many lists of earlier texts are kept.
const MOST_LISTS: usize = 16;

/// Vectors of messages that are needed no more, which may hold anything; and lists of texts.
#[derive(Drop)]
pub struct MessageRoom {
    bytes: Vec<Vec<u8>>,
    entries: Vec<Vec<NetNode>>,
    lists: Vec<KnownLists>,
}

impl MessageRoom {
    /// No vectors. Takes no memory.
    pub fn new(alloc: Global) -> MessageRoom {
        MessageRoom {
            bytes: Vec::new(alloc),
            entries: Vec::new(alloc),
            lists: Vec::new(alloc),
        }
    }

    /// Takes the vectors of a message, if there is one. If memory is refused, some are lost.
    pub fn take_back(&mut self, message: Option<Filed>) {
        if let Some(message) = message {
            let echo = message.echo.into_room();
            self.put_entries(echo.path);
            self.put_entries(echo.seen);
            self.put_bytes(echo.kept);
            self.put_bytes(echo.tag);
            // The last one put is the first one taken, so a name often goes where a name was.
            self.put_bytes(message.subject.into_vec());
            self.put_bytes(message.from_name.into_vec());
            self.put_bytes(message.to_name.into_vec());
        }
    }

    pub(crate) fn alloc(&self) -> Global {
        *self.bytes.allocator()
    }

    pub(crate) fn put_bytes(&mut self, bytes: Vec<u8>) {
        let _put = self.bytes.push(bytes);
    }

    fn put_entries(&mut self, entries: Vec<NetNode>) {
        let _put = self.entries.push(entries);
    }

    pub(crate) fn take_bytes(&mut self) -> Vec<u8> {
        match self.bytes.pop() {
            Some(bytes) => bytes,
            None => Vec::new(self.alloc()),
        }
    }

    fn take_entries(&mut self) -> Vec<NetNode> {
        match self.entries.pop() {
            Some(entries) => entries,
            None => Vec::new(self.alloc()),
        }
    }

    pub(crate) fn take_strings(&mut self) -> StoredRoom {
        StoredRoom {
            to_name: self.take_bytes(),
            from_name: self.take_bytes(),
            subject: self.take_bytes(),
            tag: self.take_bytes(),
            last: self.take_bytes(),
        }
    }

    pub(crate) fn take_echo(&mut self) -> EchoRoom {
        EchoRoom {
            tag: self.take_bytes(),
            kept: self.take_bytes(),
            seen: self.take_entries(),
            path: self.take_entries(),
        }
    }

    /// Takes the lists that the text ends with, if they are kept.
    pub(crate) fn take_lists(&mut self, text: &[u8]) -> Option<KnownLists> {
        let at = place_of(&self.lists, text)?;
        Some(self.lists.swap_remove(at))
    }

    pub(crate) fn put_lists(&mut self, lists: KnownLists) {
        let _put = self.lists.push(lists);
    }

    /// Keeps the lists of this text, in place of others if there are many.
    pub(crate) fn keep_lists(&mut self, echo: &Echo, text: &[u8]) -> Result<(), AllocError>
        requires { text.now ≡ text_of echo.now }
    {
        if echo.seen.is_empty() && echo.path.is_empty() {
            return Ok(());
        }
        let others = if self.lists.len() < MOST_LISTS {
            KnownLists::none(self.alloc())
        } else {
            self.lists.swap_remove(0)
        };
        let lists = others.replaced(echo, text)?;
        self.put_lists(lists);
        Ok(())
    }
}
