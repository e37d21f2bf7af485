//! The messages that were filed and not yet written, with their keys.

ghost use Rattle.std.specs.Prelude.{◌≡◌, ◌++◌, [], OnOk};

use std::alloc::{AllocError, Global};

/// Messages, and their entries, that wait to be written, so that one call writes many.
#[derive(Drop)]
pub struct Waiting {
    pub(crate) messages: Vec<u8>,
    pub(crate) keys: Vec<u8>,
}

impl Waiting {
    pub(crate) fn new(alloc: Global) -> Waiting
        ensures messages { result.messages.items ≡ [] }
        ensures keys { result.keys.items ≡ [] }
    {
        Waiting {
            messages: Vec::new(alloc),
            keys: Vec::new(alloc),
        }
    }

    pub(crate) fn add(&mut self, bytes: &[u8], entry: &[u8]) -> Result<(), AllocError>
        ensures messages { OnOk result (self.new.messages.items ≡ self.old.messages.items ++ bytes.now) }
        ensures keys { OnOk result (self.new.keys.items ≡ self.old.keys.items ++ entry.now) }
    {
        self.messages.extend_from_slice(bytes)?;
        self.keys.extend_from_slice(entry)?;
        Ok(())
    }

    pub(crate) fn clear(&mut self)
        ensures messages { self.new.messages.items ≡ [] }
        ensures keys { self.new.keys.items ≡ [] }
    {
        self.messages.clear();
        self.keys.clear();
    }
}
