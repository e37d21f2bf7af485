//! A whole packet, read from bytes.

ghost use Rattle.std.specs.Prelude.{◌≡◌, ◌⊎◌, Err};
ghost use Rattle.echo_packet.specs.{Answer.Answer, Answer.AnswersAsDescribed, Answer.Describes, Answer.answered, declared.fault.PacketFault.TheVariants.Memory};

use crate::fault::PacketFault;
use crate::header::Header;
use crate::limits::Limits;
use crate::packed::Packed;
use crate::reader::PacketReader;
use std::alloc::Global;

/// The packet at the front of the bytes: its header, its messages, and its length in bytes. Bytes
/// after the terminator are ignored (FTS-0001). `Memory` is the only other answer.
pub fn read_packet(
    alloc: Global,
    bytes: &[u8],
    limits: Limits,
) -> Result<(Header, Vec<Packed>, usize), PacketFault>
    ensures judged { (answered result ≡ Err Memory) ⊎ Describes limits bytes.now (answered result) }
    ensures only { (other : Answer) → Describes limits bytes.now other → AnswersAsDescribed (answered result) other }
{
    read_messages(alloc, bytes, limits)
}

fn read_messages(
    alloc: Global,
    bytes: &[u8],
    limits: Limits,
) -> Result<(Header, Vec<Packed>, usize), PacketFault>
    ensures { (answered result ≡ Err Memory) ⊎ Describes limits bytes.now (answered result) }
{
    let mut reader = PacketReader::open(alloc, bytes, limits)?;
    let mut messages = Vec::new(alloc);
    'messages: loop {
        match reader.next()? {
            Some(message) => messages.push(message)?,
            None => break,
        }
    }
    Ok((*reader.header(), messages, reader.place() as usize))
}
