//! The names of the packets of a scan, and their lines.
ghost use Rattle.std.specs.{Prelude.◌≡◌, Prelude.◌++◌, Prelude.IfOk, Prelude.OnOk, List.flat_map};
ghost use Rattle.cmd_store.specs.{PacketLines.counted_line, PacketLines.line_sent, PacketLines.packet_name, PacketLines.repair_name, PacketLines.resent_name, Lines.named_receiver};

use crate::lines::push_sent;
use echo_addr::Address;
use echo_packet::Header;
use echo_steps::CountedPacket;
use model_steps::Packet;
use std::alloc::{AllocError, Global};

/// Adds a line for each counted packet.
pub fn push_counted(lines: &mut Vec<u8>, packets: &[CountedPacket]) -> Result<(), AllocError>
    ensures { OnOk result (lines.new.items ≡ lines.old.items ++ flat_map counted_line packets.now) }
{
    'packets: for packet in packets {
        push_sent(lines, packet.to, packet.messages, packet.bytes)?;
    }
    Ok(())
}

fn destination(header: &Header) -> Address
    ensures { result ≡ named_receiver header.now }
{
    Address {
        zone: header.dest_zone,
        net: header.dest_net,
        node: header.dest_node,
    }
}

/// The name of the file of a packet, with this number of messages scanned before.
pub fn packet_name(alloc: Global, to: Address, before: usize) -> Result<Vec<u8>, AllocError>
    ensures { IfOk result (λ name. name.items ≡ packet_name to before) }
{
    let zone = to.zone;
    let net = to.net;
    let node = to.node;
    let name = format!(in alloc; "{zone}.{net}.{node}.{before}.pkt")?;
    Ok(name.into_bytes())
}

/// The name of the file of a packet that is made again, of messages from this number on.
pub fn resent_name(alloc: Global, to: Address, first: usize) -> Result<Vec<u8>, AllocError>
    ensures { IfOk result (λ name. name.items ≡ resent_name to first) }
{
    let zone = to.zone;
    let net = to.net;
    let node = to.node;
    let name = format!(in alloc; "{zone}.{net}.{node}.r{first}.pkt")?;
    Ok(name.into_bytes())
}

/// The name of a packet of all messages from this number on: `resent_name` for the number 1, else with the number.
pub fn repair_name(
    alloc: Global,
    to: Address,
    first: usize,
    number: u32,
) -> Result<Vec<u8>, AllocError>
    ensures { IfOk result (λ name. name.items ≡ repair_name to first number) }
{
    if number == 1 {
        return resent_name(alloc, to, first);
    }
    let zone = to.zone;
    let net = to.net;
    let node = to.node;
    let name = format!(in alloc; "{zone}.{net}.{node}.r{first}-{number}.pkt")?;
    Ok(name.into_bytes())
}

/// Adds the line of a packet, with the count of its bytes.
pub fn push_packet(lines: &mut Vec<u8>, packet: &Packet) -> Result<(), AllocError>
    ensures { OnOk result (lines.new.items ≡ lines.old.items ++ line_sent packet.now) }
{
    let to = destination(&packet.header);
    push_sent(lines, to, packet.messages.len(), packet.size()?)
}
