//! A packet of all messages of an area for one link: it is sent piece by piece.
ghost use Rattle.std.specs.Prelude.{◌≡◌, ◌++◌, ◌∷◌, [], IfErr, IfOk, List, ℕ, OnOk, drop, option_copied};
ghost use Rattle.base_file.specs.Base.{Base};
ghost use Rattle.{echo_packet.specs.{Header.header_bytes, Message.{message_bytes, messages_bytes}}, echo_links.specs.Links.upper};
ghost use Rattle.{model_steps.specs.Scanning.{copy_to, header_to}, cmd_status.specs.Lines.PassesOn};
ghost use Rattle.cmd_repair.specs.Repair.{AreLegibleFrom, IsStopped, IsUndone, IsUnsent, SendsPacket, copies_at, counted_with_copies, is_named, is_sent, nothing_counted, nothing_line, sent_copies};

use crate::known::KnownIds;
use crate::send_fault::SendFault;
use crate::words::{word_in, word_line};
use base_folder::{MessageSource, fetch_message, start_number};
use cmd_status::{Fault, flush_piece};
use disk_io::{Sink, Watched, send};
use echo_addr::Address;
use echo_charset::written;
use echo_filed::Filed;
use echo_links::LinkFile;
use echo_packet::{send_header, send_terminator};
use echo_steps::{CountedPacket, Resend, is_resendable, packet_header, push_exported};
use model_steps::{ScanFault, is_stamp};
use std::alloc::{AllocError, Global};
use std::io::Write;

#[derive(Clone, Copy)]
struct Repair<'r, 'l> {
    area: &'r [u8],
    to: Address,
    links: &'r LinkFile,
    held: Option<&'r KnownIds<'l>>,
}

/// `resend --all`, or `resend --has LIST` with the ids that the list names: sends the packet of all messages of the area
/// from the number `asked.first` on, scanned or waiting, and counts it. Letters of the area may be of either case. Of
/// messages without their text none is sent; with a list, those that it names are left out too.
pub fn send_all<'a, M: MessageSource, W: Sink>(
    alloc: Global,
    asked: Resend<'_>,
    held: Option<&KnownIds<'_>>,
    links: &LinkFile,
    path: &'a str,
    messages: &mut M,
    out: &mut W,
) -> Result<CountedPacket, SendFault<'a>>
    requires { (M.state messages.old).is_ready }
    ensures sent { (M.state messages.new).is_honest → (base : Base) → (M.state messages.old).holds base
        → IfOk result (SendsPacket links.now asked.entry.stamp (upper asked.entry.area.now) asked.entry.to asked.entry.first (option_copied held.entry) base (W.contents out.old) (W.contents out.new)) }
    ensures fault { (M.state messages.new).is_honest → (base : Base) → (M.state messages.old).holds base
        → IfErr result (IsUnsent asked.entry.stamp path.now (M.state messages.old).failures (M.state messages.new).failures (W.failures out.old) (W.failures out.new)) }
    ensures whole { (M.state messages.new).is_honest → OnOk result (AreLegibleFrom (M.state messages.old) asked.entry.first (M.state messages.old).count) }
    ensures ok { OnOk result (W.failures out.new ≡ W.failures out.old) }
{
    if !is_stamp(asked.stamp) {
        return Err(SendFault::Messages(Fault::Scan(ScanFault::BadStamp)));
    }
    let area = asked.area.to_ascii_uppercase(alloc)?;
    let repair = Repair {
        area: &area,
        to: asked.to,
        links,
        held,
    };
    let mut piece = header_of(alloc, asked, links)?;
    let counted = send_messages(alloc, repair, asked.first, path, messages, &mut piece, out)?;
    send(out, &piece, &mut 0)?;
    send_terminator(out, &mut 0)?;
    Ok(counted)
}

fn header_of(alloc: Global, asked: Resend<'_>, links: &LinkFile) -> Result<Vec<u8>, AllocError>
    ensures { IfOk result (λ bytes. bytes.items ≡ header_bytes (header_to links.now asked.entry.stamp asked.entry.to)) }
{
    let header = packet_header(links, asked.stamp, asked.to);
    let mut bytes = Watched::new(Vec::new(alloc));
    match send_header(&mut bytes, &header, &mut 0) {
        Ok(()) => Ok(bytes.into_inner()),
        Err(_) => Err(AllocError),
    }
}

fn send_messages<'a, M: MessageSource, W: Sink>(
    alloc: Global,
    repair: Repair<'_, '_>,
    first: usize,
    path: &'a str,
    messages: &mut M,
    piece: &mut Vec<u8>,
    out: &mut W,
) -> Result<CountedPacket, SendFault<'a>>
    requires { (M.state messages.old).is_ready }
    ensures sent { (M.state messages.new).is_honest → (base : Base) → (M.state messages.old).holds base
        → OnOk result (PassesOn (piece.old.items ++ messages_bytes (sent_copies repair.entry.links.now repair.entry.area.now repair.entry.to (option_copied repair.entry.held) (drop first base.messages))) piece.new.items (W.contents out.old) (W.contents out.new)) }
    ensures counted { (M.state messages.new).is_honest → (base : Base) → (M.state messages.old).holds base
        → IfOk result (λ counted. counted ≡ counted_with_copies (sent_copies repair.entry.links.now repair.entry.area.now repair.entry.to (option_copied repair.entry.held) (drop first base.messages)) (nothing_counted repair.entry.to)) }
    ensures fault { (M.state messages.new).is_honest → (base : Base) → (M.state messages.old).holds base
        → IfErr result (IsUndone path.now (M.state messages.old).failures (M.state messages.new).failures (W.failures out.old) (W.failures out.new)) }
    ensures whole { (M.state messages.new).is_honest → OnOk result (AreLegibleFrom (M.state messages.old) first (M.state messages.old).count) }
    ensures ok { OnOk result (W.failures out.new ≡ W.failures out.old) }
{
    let count = messages.count();
    let mut counted = CountedPacket::empty(repair.to);
    'messages: for i in start_number(first as u64, count)..count {
        fetch_message(messages, path, i)?;
        counted = send_at(alloc, repair, messages.at_hand(), counted, piece, out)?;
    }
    Ok(counted)
}

fn send_at<'a, W: Sink>(
    alloc: Global,
    repair: Repair<'_, '_>,
    message: Option<&Filed>,
    counted: CountedPacket,
    piece: &mut Vec<u8>,
    out: &mut W,
) -> Result<CountedPacket, SendFault<'a>>
    ensures sent { OnOk result (PassesOn (piece.old.items ++ messages_bytes (copies_at repair.entry.links.now repair.entry.area.now repair.entry.to (option_copied repair.entry.held) (option_copied message.entry))) piece.new.items (W.contents out.old) (W.contents out.new)) }
    ensures counted { IfOk result (λ more. more ≡ counted_with_copies (copies_at repair.entry.links.now repair.entry.area.now repair.entry.to (option_copied repair.entry.held) (option_copied message.entry)) counted) }
    ensures fault { IfErr result (IsStopped (W.failures out.old) (W.failures out.new)) }
    ensures ok { OnOk result (W.failures out.new ≡ W.failures out.old) }
{
    let Some(message) = message else {
        return Ok(counted);
    };
    if !is_sent(alloc, repair, message)? {
        return Ok(counted);
    }
    let more = add_copy(alloc, repair, message, counted, piece)?;
    match flush_piece(piece, out) {
        Ok(()) => Ok(more),
        Err(_) => Err(SendFault::Device),
    }
}

// A packet of more than `usize::MAX` bytes counts as out of memory.
fn add_copy(
    alloc: Global,
    repair: Repair<'_, '_>,
    message: &Filed,
    counted: CountedPacket,
    piece: &mut Vec<u8>,
) -> Result<CountedPacket, AllocError>
    ensures bytes { OnOk result (piece.new.items ≡ piece.old.items ++ message_bytes (copy_to repair.entry.links.now repair.entry.to message.now)) }
    ensures counted { IfOk result (λ more. more ≡ counted_with_copies (copy_to repair.entry.links.now repair.entry.to message.now ∷ []) counted) }
{
    let before = piece.len();
    push_exported(alloc, repair.links, message, repair.to, piece)?;
    let size = piece.len() - before;
    Ok(CountedPacket {
        to: counted.to,
        messages: counted.messages.checked_add(1).ok_or(AllocError)?,
        bytes: counted.bytes.checked_add(size).ok_or(AllocError)?,
    })
}

fn is_sent(alloc: Global, repair: Repair<'_, '_>, message: &Filed) -> Result<bool, AllocError>
    ensures { IfOk result (λ is. is ≡ is_sent (option_copied repair.entry.held) repair.entry.area.now message.now) }
{
    if !is_resendable(repair.area, message) {
        return Ok(false);
    }
    match repair.held {
        Some(held) => Ok(!is_named(alloc, held, message.echo.msgid())?),
        None => Ok(true),
    }
}

fn is_named(alloc: Global, held: &KnownIds<'_>, id: Option<&[u8]>) -> Result<bool, AllocError>
    ensures { IfOk result (λ is. is ≡ is_named held.now (option_copied id.entry)) }
{
    match id {
        Some(id) => Ok(held.has(word_in(&word_line(alloc, id)?))),
        None => Ok(false),
    }
}

/// Adds the line for an address to which there is nothing to send.
pub fn push_nothing(lines: &mut Vec<u8>, to: Address) -> Result<(), AllocError>
    ensures { OnOk result (lines.new.items ≡ lines.old.items ++ nothing_line to) }
{
    written(writeln!(lines, "nothing for {to}"))
}
