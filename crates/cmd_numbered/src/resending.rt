//! A packet that is made again.

ghost use Rattle.std.specs.Prelude.{◌≡◌, ◌++◌, IfErr, IfOk, OnOk, option_copied};
ghost use Rattle.{base_file.specs.Base.Base, base_folder.specs.Fetching.IsUnread};
ghost use Rattle.{model_steps.specs.Resending.resent, cmd_numbered.specs.Resending.{AreLegibleToCursor, IsMadeOf, ResendsReading, copies_at}};

use base_folder::{MessageSource, fetch_message};
use cmd_status::Fault;
use echo_addr::Items;
use echo_filed::Filed;
use echo_links::LinkFile;
use echo_packet::PackedCopy;
use echo_steps::{Resend, packet_header, push_resent};
use model_steps::{Packet, ScanFault, is_stamp};
use std::alloc::{AllocError, Global};

/// `resend --area TAG --to ADDRESS [--from I] --at STAMP LINKS BASE DIR`: the packet that is made again, perhaps without
/// messages. Letters of the area may be of either case.
pub fn resend<'a, M: MessageSource>(
    alloc: Global,
    asked: Resend<'_>,
    links: &LinkFile,
    path: &'a str,
    messages: &mut M,
) -> Result<Packet, Fault<'a>>
    requires { (M.state messages.old).is_ready }
    ensures made { (M.state messages.new).is_honest → (base : Base) → (M.state messages.old).holds base
        → ResendsReading asked.entry.stamp (IsMadeOf links.now asked.entry.stamp asked.entry.area.now asked.entry.to asked.entry.first base)
        path.now (M.state messages.old).failures (M.state messages.new).failures result }
    ensures whole { (M.state messages.new).is_honest → OnOk result (AreLegibleToCursor (M.state messages.old) asked.entry.first) }
{
    if !is_stamp(asked.stamp) {
        return Err(Fault::Scan(ScanFault::BadStamp));
    }
    let area = asked.area.to_ascii_uppercase(alloc)?;
    let asked = Resend {
        area: &area,
        to: asked.to,
        first: asked.first,
        stamp: asked.stamp,
    };
    let copies = copies_of(alloc, asked, links, path, messages)?;
    Ok(Packet {
        header: packet_header(links, asked.stamp, asked.to),
        messages: Items::new(copies),
    })
}

fn copies_of<'a, M: MessageSource>(
    alloc: Global,
    asked: Resend<'_>,
    links: &LinkFile,
    path: &'a str,
    messages: &mut M,
) -> Result<Vec<PackedCopy>, Fault<'a>>
    requires { (M.state messages.old).is_ready }
    ensures copies { (M.state messages.new).is_honest → (base : Base) → (M.state messages.old).holds base
        → IfOk result (λ all. all.items ≡ resent links.now asked.entry.area.now asked.entry.to asked.entry.first base.messages base.cursor) }
    ensures fault { (M.state messages.new).is_honest → (base : Base) → (M.state messages.old).holds base
        → IfErr result (IsUnread path.now (M.state messages.old).failures (M.state messages.new).failures) }
    ensures whole { (M.state messages.new).is_honest → OnOk result (AreLegibleToCursor (M.state messages.old) asked.entry.first) }
{
    let count = messages.count();
    let end = messages.cursor().min(count);
    let mut all = Vec::new(alloc);
    let mut at = asked.first;
    'scanned: while at < end {
        fetch_message(messages, path, at)?;
        push_at(alloc, links, asked, messages.at_hand(), &mut all)?;
        at += 1;
    }
    Ok(all)
}

fn push_at(
    alloc: Global,
    links: &LinkFile,
    asked: Resend<'_>,
    message: Option<&Filed>,
    all: &mut Vec<PackedCopy>,
) -> Result<(), AllocError>
    ensures { OnOk result (all.new.items ≡ all.old.items ++ copies_at links.now asked.entry.area.now asked.entry.to (option_copied message.entry)) }
{
    match message {
        Some(message) => push_resent(alloc, links, asked, message, all),
        None => Ok(()),
    }
}
