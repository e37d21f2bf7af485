//! The note that a look-up failed, so that its answer is not taken for a no.

ghost use Rattle.std.specs.Prelude.{◌≡◌, false, true, IsErr, OnOk};

use crate::store_error::StoreError;

/// Notes that a look at messages did not end well.
pub fn note_look<T>(unread: &mut bool, answer: &Result<T, StoreError>)
    ensures noted { IsErr answer.now → unread.new ≡ true }
    ensures kept { unread.new ≡ false → unread.old ≡ false }
    ensures ended { OnOk answer.now (unread.new ≡ unread.old) }
{
    if answer.is_err() {
        *unread = true;
    }
}
