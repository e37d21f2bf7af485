//! The words that an answer takes of the message that it answers.
ghost use Rattle.std.specs.Prelude.{◌≡◌, IfOk, option_copied, take};
ghost use Rattle.cmd_store.specs.AnswerWords.{IsFound, answered, is_answer, named_id, room_behind};

use echo_addr::Items;
use echo_filed::Filed;
use model_steps::{Stamp, is_reply_id};
use std::alloc::{AllocError, Global};

/// How many bytes of a subject have room behind `Re: `.
const ROOM_BEHIND: usize = 67;

/// What `reply` states itself: the sender, the serial, whether a later free serial will do, and the timestamp.
#[derive(Clone, Copy, Debug)]
pub struct Answer<'a> {
    pub from_name: &'a [u8],
    pub serial: u32,
    pub free: bool,
    pub stamp: Stamp,
}

/// The words that a message gives to the answer.
#[derive(Drop)]
pub struct ReplyFields {
    pub tag: Items<u8>,
    pub to_name: Items<u8>,
    pub subject: Items<u8>,
    pub reply: Items<u8>,
}

/// The words that the message gives.
pub fn reply_fields(alloc: Global, message: &Filed) -> Result<ReplyFields, AllocError>
    ensures { IfOk result (IsFound message.now) }
{
    let echo = &message.echo;
    Ok(ReplyFields {
        tag: Items::new(Vec::from_slice(alloc, echo.tag.as_slice())?),
        to_name: Items::new(Vec::from_slice(alloc, message.from_name.as_slice())?),
        subject: Items::new(answered(alloc, message.subject.as_slice())?),
        reply: Items::new(Vec::from_slice(alloc, named_id(echo.msgid()))?),
    })
}

fn answered(alloc: Global, subject: &[u8]) -> Result<Vec<u8>, AllocError>
    ensures { IfOk result (λ bytes. bytes.items ≡ answered subject.now) }
{
    if is_answer(subject) {
        return Vec::from_slice(alloc, subject);
    }
    let mut bytes = Vec::from_slice(alloc, b"Re: ")?;
    bytes.extend_from_slice(front(subject))?;
    Ok(bytes)
}

fn front(subject: &[u8]) -> &[u8]
    ensures { result.now ≡ take room_behind subject.now }
{
    if subject.len() > ROOM_BEHIND {
        &subject[..ROOM_BEHIND]
    } else {
        subject
    }
}

fn is_answer(subject: &[u8]) -> bool
    ensures { result ≡ is_answer subject.now }
{
    subject.len() >= 3
        && subject[0].eq_ignore_ascii_case(&b'r')
        && subject[1].eq_ignore_ascii_case(&b'e')
        && subject[2] == b':'
}

fn named_id(msgid: Option<&[u8]>) -> &[u8]
    ensures { result.now ≡ named_id (option_copied msgid.entry) }
{
    match msgid {
        Some(id) if is_reply_id(id) => id,
        _ => &[],
    }
}
