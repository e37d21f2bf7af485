//! The parts of a packet that have a fixed size, as bytes.
ghost use Rattle.std.specs.{Prelude.◌≡◌, Prelude.◌*◌, Prelude.◌++◌, Prelude.length, List.flat_map};
ghost use Rattle.echo_packet.specs.{Header.IsHeader, Header.header_bytes, Header.word, Message.numbers, Message.readdressed};

use crate::header::{HEADER_BYTES, Header};
use crate::packed::Packed;
use byteorder::{ByteOrder, LittleEndian};

/// The number of bytes of a message before its strings.
pub(crate) const FIXED_BYTES: usize = 34;

fn write_numbers(numbers: &[u16], out: &mut [u8])
    requires { length out.old ≡ 2 * length numbers.now }
    ensures { out.new ≡ flat_map word numbers.now }
{
    LittleEndian::write_u16_into(numbers, out)
}

/// Writes the bytes of the header (FTS-0001), with the packet type 2.
#[tactic(auto, unfolding(crate::specs::Header::header_bytes))]
pub(crate) fn write_header(header: &Header, out: &mut [u8])
    requires { length out.old ≡ 58 }
    ensures bytes { out.new ≡ header_bytes header.now }
    ensures header { IsHeader header.now }
{
    let mut bytes = [0u8; HEADER_BYTES];
    let numbers = [
        header.orig_node,
        header.dest_node,
        header.year,
        header.month,
        header.day,
        header.hour,
        header.minute,
        header.second,
        header.baud,
        2,
        header.orig_net,
        header.dest_net,
    ];
    bytes[38..].copy_from_slice(&header.fill);
    write_numbers(&[header.orig_zone, header.dest_zone], &mut bytes[34..38]);
    bytes[26..34].copy_from_slice(&header.password);
    bytes[25] = header.serial_no;
    bytes[24] = header.prod_code;
    write_numbers(&numbers, &mut bytes[..24]);
    out.copy_from_slice(&bytes);
}

/// The bytes of the message before its strings, for the system of this node and net.
#[tactic(auto, unfolding(crate::specs::Message::numbers))]
pub(crate) fn fixed_bytes(message: &Packed, dest_node: u16, dest_net: u16) -> [u8; FIXED_BYTES]
    ensures { result ≡ (word 2 ++ numbers (readdressed message.now dest_node dest_net)) ++ message.now.date }
{
    let mut bytes = [0u8; FIXED_BYTES];
    let numbers = [
        2,
        message.orig_node(),
        dest_node,
        message.orig_net(),
        dest_net,
        message.attribute(),
        message.cost(),
    ];
    write_numbers(&numbers, &mut bytes[..14]);
    bytes[14..].copy_from_slice(message.date());
    bytes
}
