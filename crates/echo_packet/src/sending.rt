//! The parts of a packet, written to a sink that stays the caller's. A failed call wrote a beginning
//! of its bytes and nothing else.
ghost use Rattle.std.specs.Prelude.{◌≡◌, length, OnOk, OnErr};
ghost use Rattle.disk_io.specs.Device.{Failed, Sends};
ghost use Rattle.echo_packet.specs.{Header.IsHeader, Header.header_bytes, Header.word, Message.IsMessage, Message.zero_ended, Message.message_bytes, Message.readdressed};

use crate::encoding::{fixed_bytes, write_header};
use crate::header::{HEADER_BYTES, Header};
use crate::packed::Packed;
use disk_io::{Failure, Sink, send};

/// Writes the bytes of the header. Adds to `sent` how many went out.
pub fn send_header<W: Sink>(writer: &mut W, header: &Header, sent: &mut u64) -> Result<(), Failure>
    ensures bytes { Sends (W.contents writer.old) (W.contents writer.new) result (header_bytes header.now) sent.old sent.new }
    ensures ok { OnOk result (W.failures writer.new ≡ W.failures writer.old) }
    ensures err { OnErr result (Failed (W.failures writer.old) (W.failures writer.new)) }
    ensures header { IsHeader header.now }
{
    let mut bytes = [0u8; HEADER_BYTES];
    write_header(header, &mut bytes);
    send(writer, &bytes, sent)
}

fn send_string<W: Sink>(writer: &mut W, string: &[u8], sent: &mut u64) -> Result<(), Failure>
    ensures bytes { Sends (W.contents writer.old) (W.contents writer.new) result (zero_ended string.now) sent.old sent.new }
    ensures ok { OnOk result (W.failures writer.new ≡ W.failures writer.old) }
    ensures err { OnErr result (Failed (W.failures writer.old) (W.failures writer.new)) }
{
    send(writer, string, sent)?;
    send(writer, &[0], sent)
}

/// Writes the message for the system of this node and net. Adds to `sent` how many bytes went out.
pub fn send_message<W: Sink>(
    writer: &mut W,
    message: &Packed,
    dest_node: u16,
    dest_net: u16,
    sent: &mut u64,
) -> Result<(), Failure>
    ensures bytes { Sends (W.contents writer.old) (W.contents writer.new) result (message_bytes (readdressed message.now dest_node dest_net)) sent.old sent.new }
    ensures ok { OnOk result (W.failures writer.new ≡ W.failures writer.old) }
    ensures err { OnErr result (Failed (W.failures writer.old) (W.failures writer.new)) }
    ensures message { OnOk result (IsMessage (length message.now.text) (readdressed message.now dest_node dest_net)) }
{
    send(writer, &fixed_bytes(message, dest_node, dest_net), sent)?;
    send_string(writer, message.to_name(), sent)?;
    send_string(writer, message.from_name(), sent)?;
    send_string(writer, message.subject(), sent)?;
    send_string(writer, message.text(), sent)
}

/// Writes the terminator 00 00. Adds to `sent` how many bytes went out.
pub fn send_terminator<W: Sink>(writer: &mut W, sent: &mut u64) -> Result<(), Failure>
    ensures bytes { Sends (W.contents writer.old) (W.contents writer.new) result (word 0) sent.old sent.new }
    ensures ok { OnOk result (W.failures writer.new ≡ W.failures writer.old) }
    ensures err { OnErr result (Failed (W.failures writer.old) (W.failures writer.new)) }
{
    send(writer, &[0, 0], sent)
}
