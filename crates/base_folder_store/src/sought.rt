//! What a look-up seeks: a key, or an id.

ghost use Rattle.std.specs.Prelude.{◌≡◌, Bool, true, IfOk, IsErrOf, IsTrue};
ghost use Rattle.echo_filed.specs.Filed.{Filed, has_id, key_of, same_key};
ghost use Rattle.base_file.specs.Alone.{IsStoredAlone};
ghost use Rattle.base_folder_store.specs.Answers.{Answers};

use crate::alone::read_alone;
use crate::front::{has_plain_id, has_plain_tag, text_in};
use base_file::MessageRoom;
use base_store::StoreError;
use echo_filed::{Filed, Key};
use std::alloc::{AllocError, Global};

/// The property of a sought message.
pub trait Sought {
    ghost test: { Self → Filed → Bool };

    /// Whether the stored message certainly is one. False is inconclusive.
    fn matches_by_header(&self, bytes: &[u8]) -> bool
        ensures { IsTrue result → (m : Filed) → IsStoredAlone m bytes.now → test self.now m ≡ true };

    /// Whether the message is one.
    fn matches(&self, alloc: Global, message: &Filed) -> Result<bool, AllocError>
        ensures { IfOk result (λ found. found ≡ test self.now message.now) };
}

impl Sought for Key {
    ghost test = { λ key m. same_key (key_of m) key };

    fn matches_by_header(&self, bytes: &[u8]) -> bool {
        let Key::ById { tag, msgid } = self else {
            return false;
        };
        let Some(text) = text_in(bytes) else {
            return false;
        };
        has_plain_tag(text, tag.as_slice()) && has_plain_id(text, msgid.as_slice())
    }

    fn matches(&self, alloc: Global, message: &Filed) -> Result<bool, AllocError> {
        let key = Key::of_message(alloc, message)?;
        Ok(key == *self)
    }
}

/// An id, in any area.
#[derive(Clone, Copy)]
pub struct Id<'a> {
    pub msgid: &'a [u8],
}

impl Sought for Id<'_> {
    ghost test = { λ id. has_id id.msgid.now };

    fn matches_by_header(&self, bytes: &[u8]) -> bool {
        let Some(text) = text_in(bytes) else {
            return false;
        };
        has_plain_id(text, self.msgid)
    }

    fn matches(&self, _alloc: Global, message: &Filed) -> Result<bool, AllocError> {
        match message.echo.msgid() {
            Some(msgid) => Ok(self.msgid == msgid),
            None => Ok(false),
        }
    }
}

/// Whether the message of these stored bytes is the sought one. All of it is read only if its front is inconclusive.
pub fn is_stored<W: Sought>(alloc: Global, sought: &W, bytes: &[u8]) -> Result<bool, StoreError>
    ensures found { (m : Filed) → IsStoredAlone m bytes.now → Answers (λ found. found ≡ W.test sought.now m) result }
    ensures device { IsErrOf result StoreError.Device → ⊥ }
    ensures few { IsErrOf result StoreError.TooMany → ⊥ }
{
    if sought.matches_by_header(bytes) {
        return Ok(true);
    }
    let message = read_alone(&mut MessageRoom::new(alloc), bytes)?;
    Ok(sought.matches(alloc, &message)?)
}
