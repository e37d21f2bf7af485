//! A packet that is made again of scanned messages: which copies it has.
ghost use Rattle.std.specs.Prelude.{◌≡◌, [], ◌∷◌, ◌++◌, map, filter, OnOk};
ghost use Rattle.echo_packet.specs.Message.{message_bytes};
ghost use Rattle.model_steps.specs.{Resending.is_resent, Resending.is_whole_in, Scanning.copy_to};

use crate::outgoing::{exported, prepared};
use crate::packing::push_copy;
use crate::ways::lines_out;
use disk_io::Watched;
use echo_addr::Address;
use echo_filed::{Filed, is_stub};
use echo_links::LinkFile;
use echo_packet::{PackedCopy, send_message};
use model_steps::Stamp;
use std::alloc::{AllocError, Global};
use std::mem;

/// A packet to make again: the area in upper case, its address, its stamp, and the first message that it may have.
#[derive(Clone, Copy)]
pub struct Resend<'a> {
    pub area: &'a [u8],
    pub to: Address,
    pub first: usize,
    pub stamp: Stamp,
}

/// Adds the copy of the message, if it is sent again. Whether it was scanned is not judged.
pub fn push_resent(
    alloc: Global,
    links: &LinkFile,
    asked: Resend<'_>,
    message: &Filed,
    all: &mut Vec<PackedCopy>,
) -> Result<(), AllocError>
    ensures { OnOk result (all.new.items ≡ all.old.items
        ++ map (copy_to links.now asked.entry.to) (filter (is_resent links.now asked.entry.area.now asked.entry.to) (message.now ∷ []))) }
{
    if !is_resendable(asked.area, message) {
        return Ok(());
    }
    let one = prepared(alloc, links, message)?;
    push_copy(asked.to, &one, all)
}

/// Adds the bytes of the message as a scan exports it, for this address, whoever sent it and whatever its SEEN-BY lists.
#[tactic(auto, unfolding(model_steps::specs::Scanning::copy_to))]
pub fn push_exported(
    alloc: Global,
    links: &LinkFile,
    message: &Filed,
    to: Address,
    bytes: &mut Vec<u8>,
) -> Result<(), AllocError>
    ensures { OnOk result (bytes.new.items ≡ bytes.old.items ++ message_bytes (copy_to links.now to message.now)) }
{
    let lines = lines_out(alloc, links, &message.echo)?;
    let one = exported(alloc, links, message, &lines)?;
    let mut longer = Watched::new(mem::replace(bytes, Vec::new(alloc)));
    match send_message(&mut longer, &one, to.node, to.net, &mut 0) {
        Ok(()) => {
            *bytes = longer.into_inner();
            Ok(())
        }
        Err(_) => Err(AllocError),
    }
}

/// Whether the message belongs to the area, and no purge removed its text.
pub fn is_resendable(area: &[u8], message: &Filed) -> bool
    ensures { result ≡ is_whole_in area.now message.now }
{
    let echo = &message.echo;
    echo.tag.as_slice() == area && !(echo.msgid().is_some() && is_stub(message))
}
