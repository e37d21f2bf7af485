//! A base file judged in pieces: its head, and then one message after another.
ghost use Rattle.std.specs.Prelude.{◌≡◌, ◌+◌, ◌≤◌, length, take, IfErr, IfOk};
ghost use Rattle.echo_filed.specs.Stored.{IsStored, long_at};
ghost use Rattle.base_file.specs.Pieces.{BeginsWith, IsHeadFault, IsNext, JudgesOne};

use crate::base::{Head, version_of};
use crate::fault::BaseFault;
use crate::judging::judged;
use crate::room::MessageRoom;
use disk_io::{Broken, are_bytes};
use echo_filed::{Key, StoredMessage, is_short, read_stored};
use std::alloc::AllocError;

/// The front of a piece of a base file.
#[derive(Drop)]
pub enum Next {
    /// A message that no rule refuses by itself. `size` is in bytes. `short`: it has tag and id instead of its text
    /// once it is scanned.
    Sound { key: Key, size: usize, short: bool },
    /// A message that no base has at this place.
    Damaged,
    Cut,
}

fn long_at(bytes: &[u8], at: usize) -> u32
    requires { at + 4 ≤ length bytes.now }
    ensures { result ≡ long_at at bytes.now }
{
    u32::from_le_bytes([bytes[at], bytes[at + 1], bytes[at + 2], bytes[at + 3]])
}

fn front_of(bytes: &[u8]) -> &[u8]
    ensures { result.now ≡ take 8 bytes.now }
{
    if bytes.len() < 8 {
        return bytes;
    }
    &bytes[..8]
}

/// The head of a base file, of which these are the first bytes: 16 or more, or else all that it has. It is `NotBase` or
/// `Truncated` as `load` says.
pub fn parse_head(bytes: &[u8]) -> Result<Head, BaseFault>
    ensures head { IfOk result (λ head. BeginsWith head bytes.now) }
    ensures fault { IfErr result (IsHeadFault bytes.now) }
{
    are_bytes(bytes);
    let version = version_of(front_of(bytes))?;
    if bytes.len() < 16 {
        return Err(BaseFault::Truncated { messages: 0 });
    }
    let cursor = long_at(bytes, 8);
    let number = long_at(bytes, 12);
    if cursor > number {
        return Err(BaseFault::NotBase);
    }
    Ok(Head {
        version,
        cursor,
        number,
    })
}

fn judge_one(
    room: &mut MessageRoom,
    head: Head,
    place: usize,
    stored: StoredMessage,
    size: usize,
) -> Result<Next, AllocError>
    requires { IsStored head.version stored }
    ensures { IfOk result (JudgesOne head.version head.cursor place stored size) }
{
    let found = judged(room, head.version, head.cursor as usize, place, stored)?;
    let Some((key, message)) = found else {
        return Ok(Next::Damaged);
    };
    let short = is_short(&message, 0, 1);
    room.take_back(Some(message));
    Ok(Next::Sound { key, size, short })
}

/// Judges the message in front of these bytes of a base file with this head. It is the one at this place, counted from
/// 0. Whether an earlier one has its key is not asked. The content of the room makes no difference.
pub fn judge_next(
    room: &mut MessageRoom,
    head: Head,
    place: usize,
    bytes: &[u8],
) -> Result<Next, AllocError>
    ensures { IfOk result (IsNext head.version head.cursor place bytes.now) }
{
    let mut rest = bytes;
    match read_stored(room.take_strings(), &mut rest, head.version) {
        Ok(stored) => judge_one(room, head, place, stored, bytes.len() - rest.len()),
        Err(Broken::Memory) => Err(AllocError),
        Err(_) => Ok(Next::Cut),
    }
}
