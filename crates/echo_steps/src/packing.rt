//! The packets of outgoing messages.
ghost use Rattle.std.specs.{Prelude.{◌≡◌, List, [], ◌∷◌, ◌++◌, true, map, filter, IfOk, OnOk}, List.flat_map};
ghost use Rattle.echo_addr.specs.declared.address.Address.{Address};
ghost use Rattle.echo_filed.specs.Sets.{address_set};
ghost use Rattle.model_steps.specs.{Scanning.header_to, Stamps.is_stamp};
ghost use Rattle.echo_steps.specs.Exports.{copy_out, goes_out, packet_out, packets_out};

use crate::outgoing::OutgoingMessage;
use crate::sets::address_set;
use echo_addr::{Address, Items};
use echo_links::LinkFile;
use echo_packet::{Header, PackedCopy};
use model_steps::{Packet, Stamp};
use std::alloc::{AllocError, Global};

/// One packet for each address that gets some of the messages, ascending.
pub(crate) fn packets(
    alloc: Global,
    links: &LinkFile,
    stamp: Stamp,
    outgoing: &[OutgoingMessage],
) -> Result<Vec<Packet>, AllocError>
    requires { is_stamp stamp ≡ true }
    ensures { IfOk result (λ all. all.items ≡ packets_out links.now stamp outgoing.now) }
{
    let recipients = recipients(alloc, outgoing)?;
    packets_to(alloc, links, stamp, recipients.as_slice(), outgoing)
}

/// How many addresses are gathered before those that repeat are dropped.
const MANY: usize = 1_024;

fn recipients(alloc: Global, outgoing: &[OutgoingMessage]) -> Result<Vec<Address>, AllocError>
    ensures { IfOk result (λ all. all.items ≡ address_set (flat_map (λ o. o.targets) outgoing.now)) }
{
    let mut all = Vec::new(alloc);
    let mut limit = MANY;
    'outgoing: for one in outgoing {
        all.extend_from_slice(one.targets.as_slice())?;
        all = set_when_many(all, &mut limit);
    }
    Ok(address_set(all))
}

// The addresses, as a set if they reach the limit. Then the limit is above twice that set.
fn set_when_many(all: Vec<Address>, limit: &mut usize) -> Vec<Address>
    ensures { (more : List Address) → address_set (result.items ++ more) ≡ address_set (all.items ++ more) }
{
    if all.len() < *limit {
        return all;
    }
    let set = address_set(all);
    *limit = set.len().saturating_mul(2).max(MANY);
    set
}

fn packets_to(
    alloc: Global,
    links: &LinkFile,
    stamp: Stamp,
    recipients: &[Address],
    outgoing: &[OutgoingMessage],
) -> Result<Vec<Packet>, AllocError>
    requires { is_stamp stamp ≡ true }
    ensures { IfOk result (λ all. all.items ≡ map (packet_out links.now stamp outgoing.now) recipients.now) }
{
    let mut all = Vec::with_capacity(alloc, recipients.len())?;
    'recipients: for address in recipients {
        all.push(packet_to(alloc, links, stamp, *address, outgoing)?)?;
    }
    Ok(all)
}

fn packet_to(
    alloc: Global,
    links: &LinkFile,
    stamp: Stamp,
    address: Address,
    outgoing: &[OutgoingMessage],
) -> Result<Packet, AllocError>
    requires { is_stamp stamp ≡ true }
    ensures { IfOk result (λ packet. packet ≡ packet_out links.now stamp outgoing.now address) }
{
    let mut messages = Vec::new(alloc);
    'outgoing: for one in outgoing {
        push_copy(address, one, &mut messages)?;
    }
    Ok(Packet {
        header: packet_header(links, stamp, address),
        messages: Items::new(messages),
    })
}

pub(crate) fn push_copy(
    address: Address,
    one: &OutgoingMessage,
    messages: &mut Vec<PackedCopy>,
) -> Result<(), AllocError>
    ensures { OnOk result (messages.new.items ≡ messages.old.items ++ map (copy_out address) (filter (goes_out address) (one.now ∷ []))) }
{
    if goes_to(one, address) {
        messages.push(one.message.readdressed_copy(address.node, address.net)?)?;
    }
    Ok(())
}

pub(crate) fn goes_to(one: &OutgoingMessage, address: Address) -> bool
    ensures { result ≡ goes_out address one.now }
{
    one.targets.as_slice().binary_search(&address).is_ok()
}

/// The header of a packet to the address.
#[tactic(auto, unfolding(model_steps::specs::Scanning::header_to))]
pub fn packet_header(links: &LinkFile, stamp: Stamp, address: Address) -> Header
    ensures { result ≡ header_to links.now stamp address }
{
    let system = links.system();
    Header {
        orig_node: system.node,
        dest_node: address.node,
        year: stamp.year,
        month: stamp.month.saturating_sub(1),
        day: stamp.day,
        hour: stamp.hour,
        minute: stamp.minute,
        second: stamp.second,
        baud: 0,
        orig_net: system.net,
        dest_net: address.net,
        prod_code: 0,
        serial_no: 0,
        password: [0; 8],
        orig_zone: system.zone,
        dest_zone: address.zone,
        fill: [0; 20],
    }
}
