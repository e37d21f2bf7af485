//! The header of a packet (FTS-0001).

ghost use Rattle.std.specs.Prelude.{◌≡◌, ◌+◌, ◌≤◌, length};
ghost use Rattle.echo_packet.specs.Header.{header_of, number_at};

use byteorder::{ByteOrder, LittleEndian};

/// How many bytes a header has.
pub const HEADER_BYTES: usize = 58;

/// The header of a packet (FTS-0001). The fields are as in the bytes: the month counts from 0,
/// `password` and `fill` are unchanged. The packet type is always 2 and is left out.
#[derive(Clone, Copy, Debug, PartialEq, Eq)]
pub struct Header {
    pub orig_node: u16,
    pub dest_node: u16,
    pub year: u16,
    pub month: u16,
    pub day: u16,
    pub hour: u16,
    pub minute: u16,
    pub second: u16,
    pub baud: u16,
    pub orig_net: u16,
    pub dest_net: u16,
    pub prod_code: u8,
    pub serial_no: u8,
    pub password: [u8; 8],
    pub orig_zone: u16,
    pub dest_zone: u16,
    pub fill: [u8; 20],
}

pub(crate) fn number_at(bytes: &[u8], at: usize) -> u16
    requires { at + 2 ≤ length bytes.now }
    ensures { result ≡ number_at at bytes.now }
{
    LittleEndian::read_u16(&bytes[at..])
}

/// The header at the front of the bytes, whatever the packet type.
#[tactic(auto, unfolding(crate::specs::Header::header_of))]
pub(crate) fn header_of(bytes: &[u8]) -> Header
    requires { 58 ≤ length bytes.now }
    ensures { result ≡ header_of bytes.now }
{
    let mut password = [0u8; 8];
    password.copy_from_slice(&bytes[26..34]);
    let mut fill = [0u8; 20];
    fill.copy_from_slice(&bytes[38..58]);
    Header {
        orig_node: number_at(bytes, 0),
        dest_node: number_at(bytes, 2),
        year: number_at(bytes, 4),
        month: number_at(bytes, 6),
        day: number_at(bytes, 8),
        hour: number_at(bytes, 10),
        minute: number_at(bytes, 12),
        second: number_at(bytes, 14),
        baud: number_at(bytes, 16),
        orig_net: number_at(bytes, 20),
        dest_net: number_at(bytes, 22),
        prod_code: bytes[24],
        serial_no: bytes[25],
        password,
        orig_zone: number_at(bytes, 34),
        dest_zone: number_at(bytes, 36),
        fill,
    }
}
