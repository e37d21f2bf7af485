//! FidoNet packets of type 2 (FTS-0001). `read_packet` accepts exactly the packets and answers their length in bytes,
//! or the one fault of the input with its place. `PacketReader` does so over any source, message by message, and takes
//! no byte after the packet. Begin with `packed` (one message) and `header`.
#![tactic(auto)]

mod copy;
mod encoding;
mod fault;
mod field;
mod header;
mod laws;
mod limits;
mod message;
mod packed;
mod reader;
mod reading;
mod sending;
mod writer;

pub use copy::PackedCopy;
pub use fault::{Field, PacketFault};
pub use header::{HEADER_BYTES, Header};
pub use laws::{header_laws, one_answer, one_next_fault, whole_runs, written_packet_reads_back};
pub use limits::{Limits, MAX_NAME, MAX_SUBJECT, no_limits};
pub use message::read_next;
pub use packed::{Buffers, Packed, PackedNumbers};
pub use reader::{PacketReader, read_header};
pub use reading::read_packet;
pub use sending::{send_header, send_message, send_terminator};
pub use writer::PacketWriter;
