//! Reads the messages of a packet one by one from a source.

ghost use Rattle.std.specs.Prelude.{◌≤◌};

mod calls;

use crate::header::Header;
use crate::limits::Limits;
pub use calls::read_header;
use std::alloc::Global;

#[derive(Clone, Copy, Debug, PartialEq, Eq)]
enum Stage {
    Reading,
    Ended,
    Stopped,
}

/// Reads a packet (FTS-0001) from a source. It holds the header and at most one message, and never
/// asks for a byte after the terminator.
#[derive(Drop)]
pub struct PacketReader<R> {
    alloc: Global,
    source: R,
    limits: Limits,
    header: Header,
    given: u64,
    place: u64,
    stage: Stage,
    ghost fits: { given ≤ limits.messages },
}
