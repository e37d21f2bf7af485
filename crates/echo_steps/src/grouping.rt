//! Waiting messages in groups of some bytes, so that a scan need not hold all of them.
ghost use Rattle.std.specs.Prelude.{◌≡◌, ◌≤◌, ◌<◌, [], ◌∷◌, ◌++◌, length, IfOk, IsErrOf, OnOk};
ghost use Rattle.disk_io.specs.Disk.{Honestly};
ghost use Rattle.base_file.specs.Base.{Base};
ghost use Rattle.base_store.specs.Store.{HasStoreCause, LooksOn};
ghost use Rattle.echo_packet.specs.Message.{messages_bytes};
ghost use Rattle.echo_steps.specs.{Bounds.IsFullWhenRead, Counts.IsGroupFrom, Counts.copies_out};

use crate::outgoing::{OutgoingMessage, push_message};
use crate::packing::goes_to;
use base_store::{Store, StoreError};
use disk_io::Watched;
use echo_addr::Address;
use echo_links::LinkFile;
use echo_packet::send_message;
use model_steps::message_size;
use std::alloc::{AllocError, Global};
use std::marker::Model;
use std::mem;

/// Outgoing messages in order, and the number of the first message that comes after them.
#[derive(Drop)]
pub struct Group {
    sent: Vec<OutgoingMessage>,
    next: usize,
}

impl Model for Group {
    ghost use Rattle.echo_steps.specs.Counts as model;

    ghost Value = { model.Group };

    ghost view = { λ g. record { sent = g.sent.items; next = g.next } };
}

impl Group {
    /// The number of the first message after the group.
    pub fn next(&self) -> usize
        ensures { result ≡ self.now.next }
    {
        self.next
    }

    pub(crate) fn sent(&self) -> &[OutgoingMessage]
        ensures { result.now ≡ self.now.sent }
    {
        self.sent.as_slice()
    }
}

/// How many bytes of text a group has, before it ends.
const MANY_BYTES: usize = 524_288;

/// The outgoing messages from this number on, in order. The group ends before `end`, or once its texts have many
/// bytes.
pub fn gather_group<T: Store>(
    alloc: Global,
    links: &LinkFile,
    store: &mut T,
    from: usize,
    end: usize,
) -> Result<Group, StoreError>
    requires ready { (T.state store.old).is_ready }
    requires some { from < end }
    requires within { Honestly (T.state store.old).disk ((base : Base) → (T.state store.old).keeps base → end ≤ length base.messages) }
    ensures group { Honestly (T.state store.new).disk ((base : Base) → (T.state store.old).keeps base
        → IfOk result (IsGroupFrom links.now base.messages from)) }
    ensures later { IfOk result (λ group. from < group.next) }
    ensures within { IfOk result (λ group. group.next ≤ end) }
    ensures looks { LooksOn (T.state store.old) (T.state store.new) }
    ensures many { IsErrOf result StoreError.TooMany → IsFullWhenRead T.state (T.state store.old) }
    ensures cause { HasStoreCause (T.state store.old) (T.state store.new) (T.failures store.old) (T.failures store.new) result }
{
    let mut sent = Vec::new(alloc);
    let mut ways = Vec::new(alloc);
    push_message(alloc, links, store, from, &mut ways, &mut sent)?;
    let mut bytes = last_text(&sent);
    let mut at = from + 1;
    'group: while at < end && bytes < MANY_BYTES {
        push_message(alloc, links, store, at, &mut ways, &mut sent)?;
        bytes = bytes.saturating_add(last_text(&sent));
        at += 1;
    }
    Ok(Group { sent, next: at })
}

fn last_text(sent: &[OutgoingMessage]) -> usize {
    match sent {
        [.., last] => last.message.message().text().len(),
        [] => 0,
    }
}

/// The bytes that a packet for the address has of the group: its copies, in order.
pub fn group_copies(alloc: Global, group: &Group, address: Address) -> Result<Vec<u8>, AllocError>
    ensures { IfOk result (λ bytes. bytes.items ≡ messages_bytes (copies_out address group.now.sent)) }
{
    let mut bytes = Vec::with_capacity(alloc, copies_len(group.sent(), address))?;
    'sent: for one in group.sent() {
        add_copy(alloc, &mut bytes, one, address)?;
    }
    Ok(bytes)
}

fn copies_len(sent: &[OutgoingMessage], address: Address) -> usize {
    let mut bytes: usize = 0;
    'sent: for one in sent {
        if goes_to(one, address) {
            bytes = bytes.saturating_add(message_size(&one.message));
        }
    }
    bytes
}

fn add_copy(
    alloc: Global,
    bytes: &mut Vec<u8>,
    one: &OutgoingMessage,
    address: Address,
) -> Result<(), AllocError>
    ensures { OnOk result (bytes.new.items ≡ bytes.old.items ++ messages_bytes (copies_out address (one.now ∷ []))) }
{
    if !goes_to(one, address) {
        return Ok(());
    }
    let mut longer = Watched::new(mem::replace(bytes, Vec::new(alloc)));
    let message = one.message.message();
    match send_message(&mut longer, message, address.node, address.net, &mut 0) {
        Ok(()) => {
            *bytes = longer.into_inner();
            Ok(())
        }
        Err(_) => Err(AllocError),
    }
}
