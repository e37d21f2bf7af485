//! The key of a message, by which duplicates are found.

ghost use Rattle.std.specs.Prelude.{◌≡◌, List, Option, IfOk};
ghost use Rattle.echo_addr.specs.declared.address.{Address.Address as Sender, NetNode.NetNode};
ghost use Rattle.echo_filed.specs.{declared.key.Key.TheVariants.ByContent, declared.key.Key.TheVariants.ById, Filed.key_of};

use crate::boxed::{Boxed, BoxedLines};
use crate::filed::Filed;
use echo_addr::Items;
use echo_text::{FrontView, Lines};
use std::alloc::{AllocError, Global};

/// The key, which makes two messages of a base one: the tag and the MSGID (FTS-0009). Without a MSGID: the tag,
/// the DateTime, the names, the subject and the kept lines.
#[derive(Debug, Drop, PartialEq, Eq, Hash)]
pub enum Key {
    ById {
        tag: Items<u8>,
        msgid: Items<u8>,
    },
    ByContent {
        tag: Boxed<u8>,
        date: Boxed<u8>,
        to_name: Boxed<u8>,
        from_name: Boxed<u8>,
        subject: Boxed<u8>,
        kept: BoxedLines,
    },
}

impl Key {
    /// The key of the message.
    pub fn of_message(alloc: Global, message: &Filed) -> Result<Key, AllocError>
        ensures { IfOk result (λ key. key ≡ key_of message.now) }
    {
        let tag = message.echo.tag.as_slice();
        let to_name = message.to_name.as_slice();
        let from_name = message.from_name.as_slice();
        let subject = message.subject.as_slice();
        if let Some(msgid) = message.echo.msgid() {
            return by_id(alloc, tag, msgid);
        }
        let kept = message.echo.kept.copy(alloc)?;
        let date = &message.date;
        by_content(alloc, tag, date, to_name, from_name, subject, kept)
    }

    /// The key that a message with this front of its text, DateTime, names and subject has, whoever sent it.
    pub fn of_front(
        alloc: Global,
        front: &FrontView<'_>,
        date: &[u8; 20],
        to_name: &[u8],
        from_name: &[u8],
        subject: &[u8],
    ) -> Result<Key, AllocError>
        ensures { IfOk result (λ key. (sender : Option Sender) (seen path : List NetNode) → key ≡ key_of (record {
          sender = sender;
          date = date.now;
          to_name = to_name.now;
          from_name = from_name.now;
          subject = subject.now;
          echo = record { tag = front.now.tag; kept = front.now.kept; seen = seen; path = path };
        })) }
    {
        let tag = front.tag.as_slice();
        if let Some(msgid) = front.msgid() {
            return by_id(alloc, tag, msgid);
        }
        let kept = front.kept.lines_into(Vec::new(alloc))?;
        by_content(alloc, tag, date, to_name, from_name, subject, kept)
    }
}

/// The key of a message with this tag and id.
pub fn by_id(alloc: Global, tag: &[u8], msgid: &[u8]) -> Result<Key, AllocError>
    ensures { IfOk result (λ key. key ≡ ById tag.now msgid.now) }
{
    let tag = Items::new(Vec::from_slice(alloc, tag)?);
    let msgid = Items::new(Vec::from_slice(alloc, msgid)?);
    Ok(Key::ById { tag, msgid })
}

fn by_content(
    alloc: Global,
    tag: &[u8],
    date: &[u8; 20],
    to_name: &[u8],
    from_name: &[u8],
    subject: &[u8],
    kept: Lines,
) -> Result<Key, AllocError>
    ensures { IfOk result (λ key. key ≡ ByContent tag.now date.now to_name.now from_name.now subject.now kept) }
{
    Ok(Key::ByContent {
        tag: boxed(alloc, tag)?,
        date: boxed(alloc, date)?,
        to_name: boxed(alloc, to_name)?,
        from_name: boxed(alloc, from_name)?,
        subject: boxed(alloc, subject)?,
        kept: BoxedLines::new(alloc, kept)?,
    })
}

fn boxed(alloc: Global, bytes: &[u8]) -> Result<Boxed<u8>, AllocError>
    ensures { IfOk result (λ copy. copy ≡ bytes.now) }
{
    Boxed::new(alloc, Vec::from_slice(alloc, bytes)?)
}
