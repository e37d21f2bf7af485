//! The packets of a scan are counted: the address of each, and its size.
ghost use Rattle.std.specs.Prelude.{◌≡◌, [], ◌∷◌, map, filter, slice_get, Some, IfOk, IsErrOf};
ghost use Rattle.disk_io.specs.Disk.{Honestly};
ghost use Rattle.base_file.specs.Base.{Base};
ghost use Rattle.base_store.specs.Store.{HasStoreCause, LooksOn};
ghost use Rattle.echo_links.specs.Links.{Area, links_of};
ghost use Rattle.model_steps.specs.Scanning.{scanned};
ghost use Rattle.echo_steps.specs.{Counts.counted_to, Counts.counted_with, Counts.counted_of, Counts.has_messages, Counts.link_set, Bounds.IsFullWhenRead};

use crate::grouping::{Group, gather_group};
use crate::outgoing::{OutgoingMessage, links_of};
use crate::packing::goes_to;
use crate::sets::address_set;
use base_store::{Store, StoreError};
use echo_addr::Address;
use echo_links::LinkFile;
use model_steps::{Stamp, message_size};
use std::alloc::{AllocError, Global};

/// A packet that a scan will make: its address, and how many messages and bytes it will have.
#[derive(Clone, Copy, Debug)]
pub struct CountedPacket {
    pub to: Address,
    pub messages: usize,
    pub bytes: usize,
}

impl CountedPacket {
    /// The packet for this address, without messages.
    pub fn empty(to: Address) -> CountedPacket
        ensures { result ≡ counted_to [] to }
    {
        CountedPacket {
            to,
            messages: 0,
            bytes: EMPTY,
        }
    }

    /// The packet with the copies of the group added.
    pub fn with_group(self, group: &Group) -> Result<CountedPacket, AllocError>
        ensures { IfOk result (λ more. more ≡ counted_with group.now.sent self) }
    {
        count_copies(self, group.sent())
    }
}

/// Counts the packets of the messages from this number on: one for each address that gets some of them, ascending.
/// The store is only looked at. It holds a group of messages at a time.
pub fn count_packets<T: Store>(
    alloc: Global,
    links: &LinkFile,
    store: &mut T,
    from: usize,
) -> Result<Vec<CountedPacket>, StoreError>
    requires { (T.state store.old).is_ready }
    ensures packets { Honestly (T.state store.new).disk ((base : Base) → (T.state store.old).keeps base
        → IfOk result (λ all. (stamp : Stamp) → all.items ≡ map counted_of (scanned links.now base.messages from stamp))) }
    ensures looks { LooksOn (T.state store.old) (T.state store.new) }
    ensures many { IsErrOf result StoreError.TooMany → IsFullWhenRead T.state (T.state store.old) }
    ensures cause { HasStoreCause (T.state store.old) (T.state store.new) (T.failures store.old) (T.failures store.new) result }
{
    let addresses = link_set(alloc, links)?;
    let mut counts = none_counted(alloc, &addresses)?;
    let end = store.len();
    let mut at = from;
    'groups: while at < end {
        let group = gather_group(alloc, links, store, at, end)?;
        let more = count_group(alloc, &counts, group.sent())?;
        counts = more;
        at = group.next();
    }
    Ok(with_messages(alloc, &counts)?)
}

/// The links of all areas, ascending.
pub fn link_set(alloc: Global, links: &LinkFile) -> Result<Vec<Address>, AllocError>
    ensures { IfOk result (λ all. all.items ≡ link_set links.now) }
{
    let mut all = Vec::new(alloc);
    'areas: for i in 0..links.areas() {
        all.extend_from_slice(links_in(links, i))?;
    }
    Ok(address_set(all))
}

fn links_in(links: &LinkFile, i: usize) -> &[Address]
    ensures { (area : Area) → slice_get links.now.areas i ≡ Some area → result.now ≡ links_of links.now area.tag }
{
    match links.area(i) {
        Some(tag) => links_of(links, tag),
        None => &[],
    }
}

// The number of bytes of a packet outside its messages: the header, and 00 00.
const EMPTY: usize = 60;

fn none_counted(alloc: Global, addresses: &[Address]) -> Result<Vec<CountedPacket>, AllocError>
    ensures { IfOk result (λ all. all.items ≡ map (counted_to []) addresses.now) }
{
    let mut all = Vec::with_capacity(alloc, addresses.len())?;
    'addresses: for to in addresses {
        all.push(CountedPacket::empty(*to))?;
    }
    Ok(all)
}

fn count_group(
    alloc: Global,
    packets: &[CountedPacket],
    sent: &[OutgoingMessage],
) -> Result<Vec<CountedPacket>, AllocError>
    ensures { IfOk result (λ all. all.items ≡ map (counted_with sent.now) packets.now) }
{
    let mut all = Vec::with_capacity(alloc, packets.len())?;
    'packets: for packet in packets {
        all.push(count_copies(*packet, sent)?)?;
    }
    Ok(all)
}

fn count_copies(
    packet: CountedPacket,
    sent: &[OutgoingMessage],
) -> Result<CountedPacket, AllocError>
    ensures { IfOk result (λ more. more ≡ counted_with sent.now packet) }
{
    let mut more = packet;
    'sent: for one in sent {
        more = count_copy(more, one)?;
    }
    Ok(more)
}

// A packet of more than `usize::MAX` bytes counts as out of memory.
fn count_copy(packet: CountedPacket, one: &OutgoingMessage) -> Result<CountedPacket, AllocError>
    ensures { IfOk result (λ more. more ≡ counted_with (one.now ∷ []) packet) }
{
    if !goes_to(one, packet.to) {
        return Ok(packet);
    }
    let size = message_size(&one.message);
    let messages = packet.messages.checked_add(1).ok_or(AllocError)?;
    let bytes = packet.bytes.checked_add(size).ok_or(AllocError)?;
    Ok(CountedPacket {
        to: packet.to,
        messages,
        bytes,
    })
}

fn with_messages(alloc: Global, packets: &[CountedPacket]) -> Result<Vec<CountedPacket>, AllocError>
    ensures { IfOk result (λ all. all.items ≡ filter has_messages packets.now) }
{
    packets
        .iter()
        .copied()
        .filter(|packet| packet.messages > 0)
        .collect(alloc)
}
