//! The outgoing form of a message that waits for a scan.
ghost use Rattle.std.specs.Prelude.{◌≡◌, ◌<◌, [], ◌∷◌, ◌++◌, ◌&&◌, not, false, length, filter, drop, option_map, unwrap_or, All, IfOk, IsErrOf, OnOk};
ghost use Rattle.std.specs.List.{list_any};
ghost use Rattle.echo_addr.specs.Address.{net_node_of};
ghost use Rattle.echo_links.specs.Links.{links_of, same_address};
ghost use Rattle.echo_filed.specs.{Sets.address_set, Sets.same_entry, Written.text_of};
ghost use Rattle.disk_io.specs.Disk.{Honestly};
ghost use Rattle.base_file.specs.Base.{Base};
ghost use Rattle.base_store.specs.Store.{HasStoreCause, LooksOn};
ghost use Rattle.model_steps.specs.Scanning.{copy_to, exported, message_out, targets};
ghost use Rattle.echo_steps.specs.{Bounds.IsFullWhenRead, Exports.GrowsByMessageAt, Exports.nowhere, Exports.outgoing_of, Exports.sent_of, Ways.CameOn, Ways.IsWay, Ways.list_lines};

use crate::sets::address_set;
use crate::ways::{Way, lines_out, text_with, way_of};
use base_store::{Store, StoreError};
use echo_addr::{Address, Items, NetNode};
use echo_filed::Filed;
use echo_links::LinkFile;
use echo_packet::{Buffers, Packed, PackedCopy, PackedNumbers};
use std::alloc::{AllocError, Global};
use std::marker::Model;

/// A waiting message in its outgoing form, before it is addressed, which its copies share; and its receivers as a set.
#[derive(Drop)]
pub(crate) struct OutgoingMessage {
    pub(crate) message: PackedCopy,
    pub(crate) targets: Items<Address>,
}

impl Model for OutgoingMessage {
    ghost use Rattle.std.specs.Prelude.{◌≡◌};
    ghost use Rattle.echo_filed.specs.Sets.{address_set};
    ghost use Rattle.echo_steps.specs.Exports as model;

    ghost Value = { model.OutgoingMessage };

    ghost view = { λ o. record { message = o.message; targets = o.targets } };

    ghost invariant = { λ o. address_set o.targets ≡ o.targets };
}

/// The outgoing forms of the messages from the cursor on that have receivers, in order. Of all others no text is made.
pub(crate) fn waiting<T: Store>(
    alloc: Global,
    links: &LinkFile,
    store: &mut T,
) -> Result<Vec<OutgoingMessage>, StoreError>
    requires { (T.state store.old).is_ready }
    ensures outgoing { Honestly (T.state store.new).disk ((base : Base) → (T.state store.old).keeps base
        → IfOk result (λ all. all.items ≡ sent_of links.now (drop base.cursor base.messages))) }
    ensures looks { LooksOn (T.state store.old) (T.state store.new) }
    ensures many { IsErrOf result StoreError.TooMany → IsFullWhenRead T.state (T.state store.old) }
    ensures cause { HasStoreCause (T.state store.old) (T.state store.new) (T.failures store.old) (T.failures store.new) result }
{
    let mut all = Vec::new(alloc);
    let count = store.len();
    let mut ways = Vec::new(alloc);
    let mut at = store.cursor();
    'waiting: while at < count {
        push_message(alloc, links, store, at, &mut ways, &mut all)?;
        at += 1;
    }
    Ok(all)
}

pub(crate) fn push_message<T: Store>(
    alloc: Global,
    links: &LinkFile,
    store: &mut T,
    place: usize,
    ways: &mut Vec<Way>,
    all: &mut Vec<OutgoingMessage>,
) -> Result<(), StoreError>
    requires ready { (T.state store.old).is_ready }
    requires ways { All (IsWay links.now) ways.old.items }
    requires within { Honestly (T.state store.old).disk ((base : Base) → (T.state store.old).keeps base → place < length base.messages) }
    ensures grown { Honestly (T.state store.new).disk ((base : Base) → (T.state store.old).keeps base
        → OnOk result (GrowsByMessageAt links.now base.messages place all.old.items all.new.items)) }
    ensures looks { LooksOn (T.state store.old) (T.state store.new) }
    ensures many { IsErrOf result StoreError.TooMany → (T.state store.old).is_full }
    ensures cause { HasStoreCause (T.state store.old) (T.state store.new) (T.failures store.old) (T.failures store.new) result }
    ensures ways { All (IsWay links.now) ways.new.items }
{
    store.fetch(place)?;
    match store.at_hand() {
        Some(message) => Ok(push_prepared(alloc, links, message, ways, all)?),
        None => Err(StoreError::Damaged),
    }
}

pub(crate) fn prepared(
    alloc: Global,
    links: &LinkFile,
    message: &Filed,
) -> Result<OutgoingMessage, AllocError>
    ensures { IfOk result (λ o. o ≡ outgoing_of links.now message.now) }
{
    let receivers = targets(alloc, links, message)?;
    let lines = lines_out(alloc, links, &message.echo)?;
    prepared_for(alloc, links, message, receivers, &lines)
}

#[tactic(auto, unfolding(model_steps::specs::Scanning::copy_to))]
fn prepared_for(
    alloc: Global,
    links: &LinkFile,
    message: &Filed,
    receivers: Items<Address>,
    lines: &[u8],
) -> Result<OutgoingMessage, AllocError>
    requires receivers { receivers ≡ address_set (targets links.now message.now) }
    requires lines { lines.now ≡ list_lines (exported links.now message.now.echo) }
    ensures { IfOk result (λ o. o ≡ outgoing_of links.now message.now) }
{
    let one = exported(alloc, links, message, lines)?;
    Ok(OutgoingMessage {
        message: PackedCopy::new(alloc, one)?,
        targets: receivers,
    })
}

/// The exported message, which has these SEEN-BY and PATH lines.
pub(crate) fn exported(
    alloc: Global,
    links: &LinkFile,
    message: &Filed,
    lines: &[u8],
) -> Result<Packed, AllocError>
    requires { lines.now ≡ list_lines (exported links.now message.now.echo) }
    ensures { IfOk result (λ one. one ≡ copy_to links.now nowhere message.now) }
{
    let text = text_with(alloc, &message.echo, lines)?;
    packed(alloc, links, message, text)
}

#[tactic(auto, using(crate::proofs::SameWay::on_way))]
fn push_prepared(
    alloc: Global,
    links: &LinkFile,
    message: &Filed,
    ways: &mut Vec<Way>,
    all: &mut Vec<OutgoingMessage>,
) -> Result<(), AllocError>
    requires { All (IsWay links.now) ways.old.items }
    ensures sent { OnOk result (all.new.items ≡ all.old.items ++ sent_of links.now (message.now ∷ [])) }
    ensures ways { All (IsWay links.now) ways.new.items }
{
    let Some(at) = way_of(alloc, links, ways, message)? else {
        return Ok(());
    };
    if let Some(way) = ways.get(at) {
        all.push(prepared_on(alloc, links, message, way)?)?;
    }
    Ok(())
}

fn prepared_on(
    alloc: Global,
    links: &LinkFile,
    message: &Filed,
    way: &Way,
) -> Result<OutgoingMessage, AllocError>
    requires way { IsWay links.now way.now }
    requires came { CameOn way.now message.now }
    ensures { IfOk result (λ o. o ≡ outgoing_of links.now message.now) }
{
    let receivers = Vec::from_slice(alloc, way.targets.as_slice())?;
    prepared_for(
        alloc,
        links,
        message,
        Items::new(receivers),
        way.lines.as_slice(),
    )
}

#[tactic(auto, unfolding(echo_links::specs::Links::links_of))]
pub(crate) fn links_of<'a>(links: &'a LinkFile, tag: &[u8]) -> &'a [Address]
    ensures { result.now ≡ links_of links.now tag.now }
{
    match links.links(tag) {
        Some(all) => all,
        None => &[],
    }
}

#[tactic(auto, unfolding(model_steps::specs::Scanning::targets))]
pub(crate) fn targets(
    alloc: Global,
    links: &LinkFile,
    message: &Filed,
) -> Result<Items<Address>, AllocError>
    ensures { IfOk result (λ found. found ≡ address_set (targets links.now message.now)) }
{
    let echo = &message.echo;
    let all = links_of(links, echo.tag.as_slice());
    let found = meant(alloc, all, message.sender, echo.seen.as_slice())?;
    Ok(Items::new(address_set(found)))
}

fn meant(
    alloc: Global,
    links: &[Address],
    sender: Option<Address>,
    seen: &[NetNode],
) -> Result<Vec<Address>, AllocError>
    ensures { IfOk result (λ found. found.items ≡ filter (λ link. not (unwrap_or (option_map (same_address link) sender) false) && not (list_any (same_entry (net_node_of link)) seen.now)) links.now) }
{
    links
        .iter()
        .copied()
        .filter(|link| !is_sender(sender, *link) && !is_seen_by(seen, *link))
        .collect(alloc)
}

fn is_sender(sender: Option<Address>, link: Address) -> bool
    ensures { result ≡ unwrap_or (option_map (same_address link) sender) false }
{
    match sender {
        Some(sender) => link == sender,
        None => false,
    }
}

fn is_seen_by(seen: &[NetNode], link: Address) -> bool
    ensures { result ≡ list_any (same_entry (net_node_of link)) seen.now }
{
    seen.contains(&link.net_node())
}

fn packed(
    alloc: Global,
    links: &LinkFile,
    message: &Filed,
    text: Vec<u8>,
) -> Result<Packed, AllocError>
    requires { text.items ≡ text_of (exported links.now message.now.echo) }
    ensures { IfOk result (λ copy. copy ≡ message_out links.now nowhere message.now text.items) }
{
    let system = links.system();
    let numbers = PackedNumbers {
        orig_node: system.node,
        dest_node: 0,
        orig_net: system.net,
        dest_net: 0,
        attribute: 0,
        cost: 0,
    };
    let strings = Buffers {
        to_name: Vec::from_slice(alloc, message.to_name.as_slice())?,
        from_name: Vec::from_slice(alloc, message.from_name.as_slice())?,
        subject: Vec::from_slice(alloc, message.subject.as_slice())?,
        text,
    };
    Ok(Packed::from_parts(numbers, message.date, strings))
}
