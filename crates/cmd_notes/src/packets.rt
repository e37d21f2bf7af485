//! The notes on faulty packets.

use crate::notes::{FaultLine, tell};
use crate::reasons::{FaultyPacket, Misdelivered, PacketPlace, Reason};
use cmd_input::{MAX_TEXT_FILE, PathName, read_file};
use cmd_status::{Fault, LIMITS, capped_limits, parse_number};
use cmd_words::TossWords;
use disk_io::{Buffered, Sink, Watched};
use disk_system::open_regular;
use echo_addr::Address;
use echo_links::LinkFile;
use echo_packet::{Header, Limits, PacketFault, PacketReader};

/// How many bytes of a packet are read at once.
const BUFFER: usize = 65_536;

/// How many messages of a packet are read at most.
const MOST: u32 = u32::MAX;

#[derive(Clone, Copy)]
enum PacketFailure {
    NotForUs(Address),
    Faulty(PacketFault),
}

/// Explains the fault of the first packet that is refused.
pub(crate) fn explain_packets<E: Sink>(
    met: FaultLine<'_>,
    words: &TossWords<'_>,
    names: &[PathName],
    errors: &mut E,
) {
    let Ok(bytes) = read_file(met.rt, words.place.links, MAX_TEXT_FILE) else {
        return;
    };
    let Ok(links) = LinkFile::read(met.rt.alloc(), &bytes) else {
        return;
    };
    let limits = limits_of(words.text_limit);
    for (i, name) in names.iter().enumerate() {
        let Ok(path) = name.path() else {
            return;
        };
        let place = PacketPlace {
            number: i.saturating_add(1),
            packets: names.len(),
            path,
        };
        if explain_packet(met, links.system(), limits, place, errors) {
            return;
        }
    }
}

fn limits_of(text_limit: Option<&str>) -> Limits {
    let Some(word) = text_limit else {
        return LIMITS;
    };
    match parse_number(word) {
        Ok(most) => capped_limits(most),
        Err(_) => LIMITS,
    }
}

fn explain_packet<E: Sink>(
    met: FaultLine<'_>,
    own: Address,
    limits: Limits,
    packet: PacketPlace<'_>,
    errors: &mut E,
) -> bool {
    let Some(wrong) = wrong_in(met.rt, own, limits, packet.path) else {
        return false;
    };
    let (fault, why) = match wrong {
        PacketFailure::NotForUs(to) => (
            Fault::NotForUs(to),
            Reason::NotForUs(Misdelivered { packet, to, own }),
        ),
        PacketFailure::Faulty(fault) => (
            Fault::Packet(fault),
            Reason::Packet(FaultyPacket { packet, fault }),
        ),
    };
    if met.is(fault) {
        tell(met.rt, why, errors);
    }
    true
}

fn wrong_in(rt: &HostRuntime, own: Address, limits: Limits, path: &str) -> Option<PacketFailure> {
    let file = open_regular(rt, path).ok()?;
    let source = Buffered::new(rt.alloc(), Watched::new(file), BUFFER).ok()?;
    let mut reader = match PacketReader::open(rt.alloc(), source, limits) {
        Ok(reader) => reader,
        Err(fault) => return Some(PacketFailure::Faulty(fault)),
    };
    let to = destination_in(own, reader.header());
    if to != own {
        return Some(PacketFailure::NotForUs(to));
    }
    'messages: for _ in 0..MOST {
        match reader.next() {
            Ok(Some(_)) => {}
            Ok(None) => return None,
            Err(fault) => return Some(PacketFailure::Faulty(fault)),
        }
    }
    None
}

// The address that a packet is for. A zone 0 means the own.
fn destination_in(own: Address, header: &Header) -> Address {
    let zone = if header.dest_zone == 0 {
        own.zone
    } else {
        header.dest_zone
    };
    Address {
        zone,
        net: header.dest_net,
        node: header.dest_node,
    }
}
