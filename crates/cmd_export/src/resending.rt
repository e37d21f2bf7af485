//! `resend`: a lost packet is made again. The lock of the link file is held until the packet has its name.
ghost use Rattle.std.specs.Prelude.{◌≡◌, None};

use crate::bases::first_number;
use crate::files::file_path;
use crate::repairing::{judge_links, run_repair};
use base_folder::{MessageSource, judge_owner, log_end};
use cmd_base::{is_folder, is_strange};
use cmd_door::{UseMessages, with_base};
use cmd_input::{LinkLock, folder_path, named_stamp, output_fault, text_path};
use cmd_numbered::resend;
use cmd_status::{Fault, FileLock, Status, parse_address, print_rest};
use cmd_store::{push_packet, resent_name};
use cmd_words::ResendWords;
use disk_io::{Disk, Sink};
use disk_system::{
    NewFile, OWNER_ALONE, OutputFault, RealDisk, Unknown, create_file, flush_folder,
};
use echo_addr::Address;
use echo_links::LinkFile;
use echo_steps::Resend;
use model_steps::Packet;
use station::lock_and_read_links;
use std::alloc::AllocError;

/// How many bytes show that a file is the packet that is to be written: the nodes of its two systems.
const PACKET_KNOWN_BY: usize = 4;

/// `resend --area TAG --to ADDRESS [--from I] --at STAMP LINKS BASE DIR`: the address, the number and the stamp are judged
/// first, then the link file, then whether the address is a link of the area, then the base. The line is printed before the
/// packet is written. Without messages there is neither.
pub(crate) fn run_resend<W: Sink, E: Sink>(
    rt: &HostRuntime,
    words: &ResendWords<'_>,
    out: &mut W,
    errors: &mut E,
) -> Status {
    let asked = match asked_of(rt, words) {
        Ok(asked) => asked,
        Err(fault) => return fault.report(errors),
    };
    if words.all || words.has.is_some() {
        return run_repair(rt, words, asked, out, errors);
    }
    let mut disk = RealDisk::new(rt, Unknown);
    let mut lock = LinkLock::ahead(rt, words.place.links);
    resend_locked(rt, &mut disk, &mut lock, words, asked, out, errors)
}

// The same under the lock of the link file.
fn resend_locked<D: Disk, L: FileLock, W: Sink, E: Sink>(
    rt: &HostRuntime,
    disk: &mut D,
    lock: &mut L,
    words: &ResendWords<'_>,
    asked: Resend<'_>,
    out: &mut W,
    errors: &mut E,
) -> Status
    requires { L.held lock.old ≡ None }
{
    match packet_of(rt, disk, lock, words, asked) {
        Ok(packet) => send_packet(rt, words.folder, asked, &packet, out, errors),
        Err(fault) => fault.report(errors),
    }
}

fn asked_of<'a>(rt: &HostRuntime, words: &ResendWords<'a>) -> Result<Resend<'a>, Fault<'a>> {
    let to = parse_address(words.to)?;
    let first = first_number(words.from)?;
    let stamp = named_stamp(rt, words.at)?;
    Ok(Resend {
        area: words.area.as_bytes(),
        to,
        first: first as usize,
        stamp,
    })
}

// The packet, by the link file under its lock.
fn packet_of<'a, D: Disk, L: FileLock>(
    rt: &HostRuntime,
    disk: &mut D,
    lock: &mut L,
    words: &ResendWords<'a>,
    asked: Resend<'_>,
) -> Result<Packet, Fault<'a>>
    requires { L.held lock.old ≡ None }
{
    match lock_and_read_links(rt.alloc(), disk, lock, words.place.links) {
        Ok(links) => {
            judge_links(rt, disk, words.place.base, &links, asked)?;
            resent(rt, words.place.base, asked, &links)
        }
        Err(fault) => Err(fault),
    }
}

fn resent<'a>(
    rt: &HostRuntime,
    base: &'a str,
    asked: Resend<'_>,
    links: &LinkFile,
) -> Result<Packet, Fault<'a>> {
    let mut resending = Resending {
        rt,
        base,
        asked,
        links,
    };
    with_base(rt, base, 0, &mut resending)
}

#[derive(Clone, Copy)]
struct Resending<'q, 'a> {
    rt: &'q HostRuntime,
    base: &'a str,
    asked: Resend<'q>,
    links: &'q LinkFile,
}

impl<'a> UseMessages<'a> for Resending<'_, 'a> {
    type Answer = Packet;

    fn run<M: MessageSource>(&mut self, messages: &mut M) -> Result<Packet, Fault<'a>> {
        resend(self.rt.alloc(), self.asked, self.links, self.base, messages)
    }
}

/// A fault, where the base is a folder of another system.
pub(crate) fn check_owner<'a, D: Disk>(
    rt: &HostRuntime,
    disk: &mut D,
    base: &'a str,
    own: Address,
) -> Result<(), Fault<'a>> {
    if !is_folder(rt, base) {
        return Ok(());
    }
    let strange = is_strange(rt, base)?;
    match folder_path(rt, base) {
        Ok(path) => judge_folder(rt, disk, base, path.as_bytes(), strange, own),
        Err(_) => Err(Fault::OutOfMemory),
    }
}

fn judge_folder<'a, D: Disk>(
    rt: &HostRuntime,
    disk: &mut D,
    base: &'a str,
    path: &[u8],
    strange: bool,
    own: Address,
) -> Result<(), Fault<'a>> {
    match log_end(rt.alloc(), disk, path, strange) {
        Ok(end) => match judge_owner(end.recorded.mark, own) {
            Ok(()) => Ok(()),
            Err(why) => Err(why.fault(base)),
        },
        Err(why) => Err(why.fault(base)),
    }
}

fn send_packet<W: Sink, E: Sink>(
    rt: &HostRuntime,
    folder: &str,
    asked: Resend<'_>,
    packet: &Packet,
    out: &mut W,
    errors: &mut E,
) -> Status {
    if packet.messages.is_empty() {
        return Status::Good;
    }
    match print_packet(rt, packet, out) {
        Ok(()) => put_packet(rt, folder, asked, packet, errors),
        Err(fault) => fault.report(errors),
    }
}

fn print_packet<'a, W: Sink>(
    rt: &HostRuntime,
    packet: &Packet,
    out: &mut W,
) -> Result<(), Fault<'a>> {
    let mut line = Vec::new(rt.alloc());
    match push_packet(&mut line, packet) {
        Ok(()) => print_rest(&mut line, out),
        Err(_) => Err(Fault::OutOfMemory),
    }
}

// Writes a packet to its file, which must be new, and flushes the folder.
fn put_packet<E: Sink>(
    rt: &HostRuntime,
    folder: &str,
    asked: Resend<'_>,
    packet: &Packet,
    errors: &mut E,
) -> Status {
    if !is_folder(rt, folder) {
        return Fault::CannotUse(folder).report(errors);
    }
    match path_of(rt, folder, asked) {
        Ok(path) => put_at(rt, folder, path.as_str(), packet, errors),
        Err(_) => Fault::OutOfMemory.report(errors),
    }
}

fn put_at<E: Sink>(
    rt: &HostRuntime,
    folder: &str,
    path: &str,
    packet: &Packet,
    errors: &mut E,
) -> Status {
    match write_packet(rt, path, packet) {
        Ok(()) => match flush_folder(rt, folder) {
            Ok(()) => Status::Good,
            Err(fault) => output_fault(fault, folder).report(errors),
        },
        Err(fault) => output_fault(fault, path).report(errors),
    }
}

fn path_of(rt: &HostRuntime, folder: &str, asked: Resend<'_>) -> Result<String, AllocError> {
    match resent_name(rt.alloc(), asked.to, asked.first) {
        Ok(name) => file_path(rt, folder, text_path(&name)),
        Err(refused) => Err(refused),
    }
}

// Writes it under the staging name of its system, and gives it its own.
fn write_packet(rt: &HostRuntime, path: &str, packet: &Packet) -> Result<(), OutputFault> {
    let zone = packet.header.orig_zone;
    let net = packet.header.orig_net;
    let node = packet.header.orig_node;
    match format!(in rt.alloc(); "{zone}.{net}.{node}") {
        Ok(own) => write_as(rt, path, own.as_str(), packet),
        Err(_) => Err(OutputFault::Memory),
    }
}

fn write_as(rt: &HostRuntime, path: &str, own: &str, packet: &Packet) -> Result<(), OutputFault> {
    match packet.encode(rt.alloc()) {
        Ok(bytes) => {
            let new = NewFile {
                path,
                own,
                bytes: &bytes,
                known_by: PACKET_KNOWN_BY,
                mode: OWNER_ALONE,
            };
            create_file(rt.alloc(), rt, new)
        }
        Err(_) => Err(OutputFault::Memory),
    }
}
