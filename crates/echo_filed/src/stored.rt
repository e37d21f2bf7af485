//! A message of a base file, read from a source.
ghost use Rattle.std.specs.Prelude.{◌≡◌};
ghost use Rattle.echo_filed.specs.{Stored.IsStored, Stored.has_tag, Stored.stored_bytes, Fields.Reads};
ghost use Rattle.disk_io.specs.Fixed.{CountsBreak};

use crate::field::{read_address, read_byte, read_date, read_last, read_short};
use disk_io::{Broken, Source};
use echo_addr::{Address, Items};
use std::marker::Model;

/// The two layouts of a base file. Both are read, the second is written.
#[derive(Clone, Copy, Debug, PartialEq, Eq)]
pub enum Version {
    First,
    Second,
}

/// A stored message; `last` is its text, or its id where it has the tag instead of the text.
#[derive(Drop)]
pub struct StoredMessage {
    pub kind: u8,
    pub sender: Address,
    pub date: [u8; 20],
    pub to_name: Items<u8>,
    pub from_name: Items<u8>,
    pub subject: Items<u8>,
    pub tag: Items<u8>,
    pub last: Items<u8>,
}

impl Model for StoredMessage {
    ghost use Rattle.echo_filed.specs.Stored.{Stored};

    ghost Value = { Stored };

    ghost view = { λ s. record {
      kind = s.kind;
      zone = s.sender.zone;
      net = s.sender.net;
      node = s.sender.node;
      date = s.date;
      to_name = s.to_name;
      from_name = s.from_name;
      subject = s.subject;
      tag = s.tag;
      last = s.last;
    } };
}

/// Vectors that the strings of a stored message are read into. They may hold anything.
#[derive(Drop)]
pub struct StoredRoom {
    pub to_name: Vec<u8>,
    pub from_name: Vec<u8>,
    pub subject: Vec<u8>,
    pub tag: Vec<u8>,
    pub last: Vec<u8>,
}

/// Whether messages of this first byte have tag and id instead of the text.
pub fn has_tag(version: Version, kind: u8) -> bool
    ensures { result ≡ has_tag version kind }
{
    match version {
        Version::First => false,
        Version::Second => kind == 2 || kind == 3,
    }
}

/// The next message, with its strings in the vectors of the room. Their content makes no difference.
pub fn read_stored<R: Source>(
    room: StoredRoom,
    reader: &mut R,
    version: Version,
) -> Result<StoredMessage, Broken>
    ensures read { Reads (IsStored version) (stored_bytes version) (R.remaining reader.old) (R.remaining reader.new) result }
    ensures device { CountsBreak result (R.failures reader.old) (R.failures reader.new) }
{
    let kind = read_byte(reader)?;
    let sender = read_address(reader)?;
    let date = read_date(reader)?;
    let to_name = read_short(room.to_name, reader)?;
    let from_name = read_short(room.from_name, reader)?;
    let subject = read_short(room.subject, reader)?;
    let (tag, last) = read_last(room.tag, room.last, reader, has_tag(version, kind))?;
    Ok(StoredMessage {
        kind,
        sender,
        date,
        to_name,
        from_name,
        subject,
        tag,
        last,
    })
}
