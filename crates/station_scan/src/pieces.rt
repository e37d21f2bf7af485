//! The pieces of a packet: its header, the copies of a group of messages, its end.
ghost use Rattle.{echo_packet.specs.{Header.{header_bytes, word}, Message.messages_bytes}, model_steps.specs.Scanning.header_to, echo_steps.specs.Counts.copies_out};

use disk_atomic::Pieces;
use disk_io::Watched;
use echo_addr::Address;
use echo_links::LinkFile;
use echo_packet::send_header;
use echo_steps::{Group, group_copies, packet_header};
use model_steps::Stamp;
use std::alloc::{AllocError, Global};

/// What the packets of a scan are made of: the links, the stamp, and the messages of the store from a number on.
#[derive(Clone, Copy)]
pub struct ScanSource<'s> {
    pub links: &'s LinkFile,
    pub stamp: Stamp,
    pub from: usize,
}

/// The headers of packets.
#[derive(Drop)]
pub(crate) struct Headers<'s> {
    pub source: ScanSource<'s>,
}

impl Pieces for Headers<'_> {
    ghost bytes = { λ headers to. header_bytes (header_to headers.source.links.now headers.source.stamp to) };

    fn piece(&self, alloc: Global, to: Address) -> Result<Vec<u8>, AllocError> {
        let header = packet_header(self.source.links, self.source.stamp, to);
        let mut piece = Watched::new(Vec::new(alloc));
        match send_header(&mut piece, &header, &mut 0) {
            Ok(()) => Ok(piece.into_inner()),
            Err(_) => Err(AllocError),
        }
    }
}

/// The copies of a group of messages.
#[derive(Drop)]
pub(crate) struct Copies<'g> {
    pub group: &'g Group,
}

impl Pieces for Copies<'_> {
    ghost bytes = { λ copies to. messages_bytes (copies_out to copies.group.now.sent) };

    fn piece(&self, alloc: Global, to: Address) -> Result<Vec<u8>, AllocError> {
        group_copies(alloc, self.group, to)
    }
}

/// The ends of packets.
#[derive(Drop)]
pub(crate) struct Ends {}

impl Pieces for Ends {
    ghost bytes = { λ ends to. word 0 };

    fn piece(&self, alloc: Global, _to: Address) -> Result<Vec<u8>, AllocError> {
        Vec::from_slice(alloc, &[0, 0])
    }
}
