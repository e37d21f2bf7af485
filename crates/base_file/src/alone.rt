//! One message by itself, read from its own bytes.
ghost use Rattle.std.specs.Prelude.{◌≡◌, if◌then◌else◌, IfOk};
ghost use Rattle.echo_filed.specs.{Stored.has_tag, declared.stored.Version.TheVariants.Second};
ghost use Rattle.base_file.specs.Alone.{IsReadAlone};

use crate::judging::sound_message;
use crate::room::MessageRoom;
use disk_io::{Broken, are_bytes};
use echo_filed::{Filed, Version, has_tag, read_stored};
use std::alloc::AllocError;

fn cursor_alone(kind: u8) -> usize
    ensures { result ≡ (if has_tag Second kind then 1 else 0) }
{
    usize::from(has_tag(Version::Second, kind))
}

/// The message of these stored bytes, judged as the only one of a base file; tag and id instead of the text mean
/// scanned. None if it is damaged, cut or followed by more bytes. The content of the room makes no difference.
pub fn read_message(room: &mut MessageRoom, bytes: &[u8]) -> Result<Option<Filed>, AllocError>
    ensures { IfOk result (IsReadAlone bytes.now) }
{
    are_bytes(bytes);
    let mut rest = bytes;
    let stored = match read_stored(room.take_strings(), &mut rest, Version::Second) {
        Ok(stored) => stored,
        Err(Broken::Memory) => return Err(AllocError),
        Err(_) => return Ok(None),
    };
    if !rest.is_empty() {
        return Ok(None);
    }
    let cursor = cursor_alone(stored.kind);
    let Some((message, last)) = sound_message(room, Version::Second, cursor, 0, stored)? else {
        return Ok(None);
    };
    room.put_bytes(last.into_vec());
    Ok(Some(message))
}
