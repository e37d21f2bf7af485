//! One message by itself, as it is stored: read and written.
ghost use Rattle.std.specs.Prelude.{◌≡◌, false, true, IfOk, IsErrOf};
ghost use Rattle.echo_filed.specs.{declared.stored.Version.TheVariants.Second, Filed.Filed, Filed.IsFiled, Stored.is_short_enough, Stored.stored_as, Stored.stored_bytes};
ghost use Rattle.base_file.specs.{Alone.IsStoredAlone, BaseFile.stored_at};
ghost use Rattle.base_folder_store.specs.Answers.{Answers};

use base_file::{MessageRoom, read_message};
use base_store::StoreError;
use disk_io::Watched;
use echo_filed::{Filed, is_short, is_short_enough, send_message};
use std::alloc::Global;

/// How many bytes an entry of SEEN-BY or PATH takes at most, with its space, in most texts.
const ENTRY_ROOM: usize = 6;

/// How many bytes a message has besides: the numbers, the names, the tag and the words of its lists.
const FRONT_ROOM: usize = 512;

/// The message of these stored bytes. They are `Damaged` if they are not one message, judged as `read_message` says. The
/// content of the room makes no difference.
pub fn read_alone(room: &mut MessageRoom, bytes: &[u8]) -> Result<Filed, StoreError>
    ensures read { (m : Filed) → IsStoredAlone m bytes.now → Answers (λ message. message ≡ m) result }
    ensures stored { IfOk result (λ message. IsStoredAlone message bytes.now) }
    ensures device { IsErrOf result StoreError.Device → ⊥ }
    ensures few { IsErrOf result StoreError.TooMany → ⊥ }
{
    match read_message(room, bytes)? {
        Some(message) => Ok(message),
        None => Err(StoreError::Damaged),
    }
}

// Does nothing: its contract is for the prover, and holds for each message.
fn is_filed(message: &Filed)
    ensures { IsFiled message.now }
{
    let _sender = message.sender;
}

// How many bytes most stored messages have at most: more are rarely needed.
fn usual_room(message: &Filed) -> usize {
    let echo = &message.echo;
    let entries = echo.seen.len().saturating_add(echo.path.len());
    let lists = entries.saturating_mul(ENTRY_ROOM);
    let kept = echo.kept.as_text().len();
    kept.saturating_add(lists).saturating_add(FRONT_ROOM)
}

fn write_whole(alloc: Global, message: &Filed, short: bool) -> Result<Vec<u8>, StoreError>
    ensures bytes { IfOk result (λ bytes. bytes.items ≡ stored_bytes Second (stored_as short message.now)) }
    ensures room { IfOk result (λ _. is_short_enough (stored_as short message.now) ≡ true) }
    ensures whole { IsErrOf result StoreError.Damaged → ⊥ }
    ensures device { IsErrOf result StoreError.Device → ⊥ }
    ensures many { IsErrOf result StoreError.TooMany → is_short_enough (stored_as short message.now) ≡ false }
{
    if !is_short_enough(alloc, message, short)? {
        return Err(StoreError::TooMany);
    }
    let room = Vec::with_capacity(alloc, usual_room(message))?;
    let mut bytes = Watched::new(room);
    match send_message(alloc, &mut bytes, message, short, &mut 0) {
        Ok(()) => Ok(bytes.into_inner()),
        Err(_) => Err(StoreError::Memory),
    }
}

/// The message as it is stored, its text whole. It is `TooMany` if the text is too large to be counted in four bytes.
pub fn bytes_alone(alloc: Global, message: &Filed) -> Result<Vec<u8>, StoreError>
    ensures stored { IfOk result (λ bytes. IsStoredAlone message.now bytes.items) }
    ensures bytes { IfOk result (λ bytes. bytes.items ≡ stored_bytes Second (stored_as false message.now)) }
    ensures filed { IsFiled message.now }
    ensures whole { IsErrOf result StoreError.Damaged → ⊥ }
    ensures device { IsErrOf result StoreError.Device → ⊥ }
    ensures many { IsErrOf result StoreError.TooMany → is_short_enough (stored_as false message.now) ≡ false }
{
    is_filed(message);
    write_whole(alloc, message, false)
}

/// The message as it is stored once it is scanned. It is `TooMany` if four bytes do not count its text or id.
pub(crate) fn bytes_scanned(alloc: Global, message: &Filed) -> Result<Vec<u8>, StoreError>
    ensures stored { IfOk result (λ bytes. IsStoredAlone message.now bytes.items) }
    ensures bytes { IfOk result (λ bytes. bytes.items ≡ stored_bytes Second (stored_at 1 0 message.now)) }
    ensures whole { IsErrOf result StoreError.Damaged → ⊥ }
    ensures device { IsErrOf result StoreError.Device → ⊥ }
    ensures many { IsErrOf result StoreError.TooMany → is_short_enough (stored_at 1 0 message.now) ≡ false }
{
    is_filed(message);
    let short = is_short(message, 0, 1);
    write_whole(alloc, message, short)
}
