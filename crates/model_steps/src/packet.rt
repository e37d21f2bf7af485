//! A packet in memory, and its bytes.

ghost use Rattle.std.specs.Prelude.{◌≡◌, ◌+◌, ◌<◌, length, IfOk, OnErr};
ghost use Rattle.echo_packet.specs.{Header.header_bytes, Message.message_bytes, Packet.PacketOf, Packet.packet_bytes};

use disk_io::Watched;
use echo_addr::Items;
use echo_packet::{HEADER_BYTES, Header, PackedCopy, PacketWriter};
use std::alloc::{AllocError, Global};

/// A packet for one address: its header and its messages in order.
#[derive(Debug, Drop)]
pub struct Packet {
    pub header: Header,
    pub messages: Items<PackedCopy>,
}

// The number of bytes of a packet outside its messages: the header, and 00 00.
fn size_beside(header: Header) -> usize
    ensures { result ≡ length (header_bytes header) + 2 }
{
    HEADER_BYTES + 2
}

// The number of bytes of a message outside its strings, with the 00 after each.
const FIXED: usize = 38;

/// How many bytes a message has.
pub fn message_size(copy: &PackedCopy) -> usize
    ensures { result ≡ length (message_bytes copy.now) }
{
    let message = copy.message();
    let text = message.text().len();
    let names = message.to_name().len() + message.from_name().len();
    FIXED + names + message.subject().len() + text
}

impl Packet {
    /// How many bytes the packet has. There is no memory for one of more than `usize::MAX`.
    pub fn size(&self) -> Result<usize, AllocError>
        ensures size { IfOk result (λ size. size ≡ length (packet_bytes self.now.header self.now.messages)) }
        ensures too_long { OnErr result (usize.MAX < length (packet_bytes self.now.header self.now.messages)) }
    {
        let mut size = size_beside(self.header);
        'messages: for copy in self.messages.as_slice() {
            let Some(more) = size.checked_add(message_size(copy)) else {
                return Err(AllocError);
            };
            size = more;
        }
        Ok(size)
    }

    /// The bytes of the packet (FTS-0001): the header, the messages in order, and 00 00.
    pub fn encode(&self, alloc: Global) -> Result<Vec<u8>, AllocError>
        ensures { IfOk result (λ bytes. PacketOf (record { text = usize.MAX; messages = u64.MAX }) self.now.header self.now.messages bytes.items) }
    {
        let bytes = Watched::new(Vec::with_capacity(alloc, self.size()?)?);
        let Ok(mut writer) = PacketWriter::begin(bytes, &self.header) else {
            return Err(AllocError);
        };
        'messages: for message in self.messages.as_slice() {
            let Ok(()) = writer.put_copy(message) else {
                return Err(AllocError);
            };
        }
        let Ok(bytes) = writer.finish() else {
            return Err(AllocError);
        };
        Ok(bytes.into_inner())
    }
}
