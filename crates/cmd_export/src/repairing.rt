//! `resend --all` and `resend --has LIST`: the packet of all that a link is to get. It is written piece by piece to its
//! staging file. The lock of the link file is held until the packet has its name.
ghost use Rattle.std.specs.Prelude.{◌≡◌, None};

use crate::files::file_path;
use crate::resending::check_owner;
use base_folder::MessageSource;
use cmd_base::is_folder;
use cmd_door::{UseMessages, with_base};
use cmd_input::{LinkLock, MAX_INPUT, output_fault, read_given, text_path};
use cmd_repair::{KnownIds, SendFault, check_linked, push_nothing, read_ids, send_all};
use cmd_status::{Fault, FileLock, Status, print_rest};
use cmd_store::{push_counted, repair_name};
use cmd_words::ResendWords;
use disk_io::{Disk, Sink, Watched};
use disk_system::{
    OutputFault, RealDisk, StagedFile, Unknown, begin_file, drop_file, flush_folder, name_file,
};
use echo_links::LinkFile;
use echo_steps::{CountedPacket, Resend};
use model_steps::is_stamp;
use station::lock_and_read_links;
use std::alloc::AllocError;
use std::fs::File;
use std::io::ErrorKind;
use std::{fs, io};

#[derive(Clone, Copy)]
struct Repair<'r, 'l> {
    asked: Resend<'r>,
    held: Option<&'r KnownIds<'l>>,
}

/// The packet that the words ask for. The list is judged first, then the link file, then whether the address is a link,
/// then the base.
pub(crate) fn run_repair<W: Sink, E: Sink>(
    rt: &HostRuntime,
    words: &ResendWords<'_>,
    asked: Resend<'_>,
    out: &mut W,
    errors: &mut E,
) -> Status {
    let Some(path) = words.has else {
        return send_repair(rt, words, Repair { asked, held: None }, out, errors);
    };
    match read_given(rt, path, MAX_INPUT) {
        Ok(list) => repair_by(rt, words, asked, &list, out, errors),
        Err(fault) => fault.report(errors),
    }
}

fn repair_by<W: Sink, E: Sink>(
    rt: &HostRuntime,
    words: &ResendWords<'_>,
    asked: Resend<'_>,
    list: &[u8],
    out: &mut W,
    errors: &mut E,
) -> Status {
    match known_ids(rt, asked.area, list) {
        Ok(known) => {
            let held = Some(&known);
            send_repair(rt, words, Repair { asked, held }, out, errors)
        }
        Err(fault) => fault.report(errors),
    }
}

fn known_ids<'l, 'a>(
    rt: &HostRuntime,
    area: &[u8],
    list: &'l [u8],
) -> Result<KnownIds<'l>, Fault<'a>> {
    match area.to_ascii_uppercase(rt.alloc()) {
        Ok(area) => read_ids(rt.alloc(), &area, list),
        Err(_) => Err(Fault::OutOfMemory),
    }
}

fn send_repair<W: Sink, E: Sink>(
    rt: &HostRuntime,
    words: &ResendWords<'_>,
    repair: Repair<'_, '_>,
    out: &mut W,
    errors: &mut E,
) -> Status {
    let mut disk = RealDisk::new(rt, Unknown);
    let mut lock = LinkLock::ahead(rt, words.place.links);
    send_locked(rt, &mut disk, &mut lock, words, repair, out, errors)
}

// The same under the lock of the link file.
fn send_locked<D: Disk, L: FileLock, W: Sink, E: Sink>(
    rt: &HostRuntime,
    disk: &mut D,
    lock: &mut L,
    words: &ResendWords<'_>,
    repair: Repair<'_, '_>,
    out: &mut W,
    errors: &mut E,
) -> Status
    requires { L.held lock.old ≡ None }
{
    match lock_and_read_links(rt.alloc(), disk, lock, words.place.links) {
        Ok(links) => send_judged(rt, disk, words, repair, &links, out, errors),
        Err(fault) => fault.report(errors),
    }
}

fn send_judged<D: Disk, W: Sink, E: Sink>(
    rt: &HostRuntime,
    disk: &mut D,
    words: &ResendWords<'_>,
    repair: Repair<'_, '_>,
    links: &LinkFile,
    out: &mut W,
    errors: &mut E,
) -> Status {
    match judge_links(rt, disk, words.place.base, links, repair.asked) {
        Ok(()) => send_opened(rt, words, repair, links, out, errors),
        Err(fault) => fault.report(errors),
    }
}

fn send_opened<'q, W: Sink, E: Sink>(
    rt: &'q HostRuntime,
    words: &'q ResendWords<'q>,
    repair: Repair<'q, 'q>,
    links: &'q LinkFile,
    out: &'q mut W,
    errors: &'q mut E,
) -> Status {
    let mut sending = Sending {
        rt,
        words,
        repair,
        links,
        out,
        errors,
    };
    match with_base(
        rt,
        words.place.base,
        judged_from(repair.asked),
        &mut sending,
    ) {
        Ok(status) => status,
        Err(fault) => fault.report(sending.errors),
    }
}

#[derive(Drop)]
struct Sending<'q, 'a, W, E> {
    rt: &'q HostRuntime,
    words: &'q ResendWords<'a>,
    repair: Repair<'q, 'q>,
    links: &'q LinkFile,
    out: &'q mut W,
    errors: &'q mut E,
}

impl<'a, W: Sink, E: Sink> UseMessages<'a> for Sending<'_, 'a, W, E> {
    type Answer = Status;

    fn run<M: MessageSource>(&mut self, messages: &mut M) -> Result<Status, Fault<'a>> {
        Ok(send_messages(
            self.rt,
            self.words,
            self.repair,
            self.links,
            messages,
            self.out,
            self.errors,
        ))
    }
}

/// A fault, unless the address is a link of the area, and a base folder that of this system.
pub(crate) fn judge_links<'a, D: Disk>(
    rt: &HostRuntime,
    disk: &mut D,
    base: &'a str,
    links: &LinkFile,
    asked: Resend<'_>,
) -> Result<(), Fault<'a>> {
    match asked.area.to_ascii_uppercase(rt.alloc()) {
        Ok(area) => check_linked(links, &area, asked.to)?,
        Err(_) => return Err(Fault::OutOfMemory),
    }
    check_owner(rt, disk, base, links.system())
}

// The first message that is judged before the packet is begun. Each is judged as it is sent, so it is read once. Only a
// bad stamp comes after all faults of the messages.
fn judged_from(asked: Resend<'_>) -> u64 {
    if is_stamp(asked.stamp) {
        u64::MAX
    } else {
        asked.first as u64
    }
}

// Sends the packet of these messages. Without a folder it is only counted.
fn send_messages<M: MessageSource, W: Sink, E: Sink>(
    rt: &HostRuntime,
    words: &ResendWords<'_>,
    repair: Repair<'_, '_>,
    links: &LinkFile,
    messages: &mut M,
    out: &mut W,
    errors: &mut E,
) -> Status
    requires { (M.state messages.old).is_ready }
{
    if is_folder(rt, words.folder) {
        return stage_packet(rt, words, repair, links, messages, out, errors);
    }
    let mut nowhere = Watched::new(io::sink());
    match send_all(
        rt.alloc(),
        repair.asked,
        repair.held,
        links,
        words.place.base,
        messages,
        &mut nowhere,
    ) {
        Ok(counted) => tell_no_folder(rt, words.folder, counted, out, errors),
        Err(why) => sending_fault(why, words.folder).report(errors),
    }
}

// Prints what would be sent. A packet with messages needs the folder.
fn tell_no_folder<W: Sink, E: Sink>(
    rt: &HostRuntime,
    folder: &str,
    counted: CountedPacket,
    out: &mut W,
    errors: &mut E,
) -> Status {
    match print_counted(rt, counted, out) {
        Ok(()) if counted.messages == 0 => Status::Good,
        Ok(()) => Fault::CannotUse(folder).report(errors),
        Err(fault) => fault.report(errors),
    }
}

// Why the packet was not sent. If its file failed, the folder cannot be used.
fn sending_fault<'a>(why: SendFault<'a>, folder: &'a str) -> Fault<'a> {
    match why {
        SendFault::Messages(fault) => fault,
        SendFault::Device => Fault::CannotUse(folder),
    }
}

fn print_counted<'a, W: Sink>(
    rt: &HostRuntime,
    counted: CountedPacket,
    out: &mut W,
) -> Result<(), Fault<'a>> {
    let mut line = Vec::new(rt.alloc());
    match push_line(&mut line, counted) {
        Ok(()) => print_rest(&mut line, out),
        Err(_) => Err(Fault::OutOfMemory),
    }
}

fn push_line(line: &mut Vec<u8>, counted: CountedPacket) -> Result<(), AllocError> {
    if counted.messages == 0 {
        push_nothing(line, counted.to)
    } else {
        push_counted(line, &[counted])
    }
}

fn stage_packet<M: MessageSource, W: Sink, E: Sink>(
    rt: &HostRuntime,
    words: &ResendWords<'_>,
    repair: Repair<'_, '_>,
    links: &LinkFile,
    messages: &mut M,
    out: &mut W,
    errors: &mut E,
) -> Status
    requires { (M.state messages.old).is_ready }
{
    match free_path(rt, words.folder, repair.asked) {
        Ok(path) => {
            let to = Staging {
                folder: words.folder,
                base: words.place.base,
                path: path.as_str(),
            };
            stage_at(rt, to, repair, links, messages, out, errors)
        }
        Err(_) => Fault::CannotUse(words.folder).report(errors),
    }
}

// The folder of the packet and its path there, and the base that it is made from.
#[derive(Clone, Copy)]
struct Staging<'a> {
    folder: &'a str,
    base: &'a str,
    path: &'a str,
}

fn stage_at<M: MessageSource, W: Sink, E: Sink>(
    rt: &HostRuntime,
    to: Staging<'_>,
    repair: Repair<'_, '_>,
    links: &LinkFile,
    messages: &mut M,
    out: &mut W,
    errors: &mut E,
) -> Status
    requires { (M.state messages.old).is_ready }
{
    match staged_at(rt, to.path, links, repair.asked) {
        Ok(mut staged) => {
            let filled = fill_staged(rt, to, repair, links, messages, &mut staged.device, out);
            end_staged(rt, to, staged, filled, errors)
        }
        Err(fault) => output_fault(fault, to.folder).report(errors),
    }
}

// Sends the messages to the device and prints the line. Whether there are any.
fn fill_staged<'a, M: MessageSource, D: Sink, W: Sink>(
    rt: &HostRuntime,
    to: Staging<'a>,
    repair: Repair<'_, '_>,
    links: &LinkFile,
    messages: &mut M,
    device: &mut D,
    out: &mut W,
) -> Result<bool, Fault<'a>>
    requires { (M.state messages.old).is_ready }
{
    match send_all(
        rt.alloc(),
        repair.asked,
        repair.held,
        links,
        to.base,
        messages,
        device,
    ) {
        Ok(counted) => match print_counted(rt, counted, out) {
            Ok(()) => Ok(counted.messages > 0),
            Err(fault) => Err(fault),
        },
        Err(why) => Err(sending_fault(why, to.folder)),
    }
}

// Gives the packet its name. One without messages, and one that was not filled, is dropped.
fn end_staged<E: Sink>(
    rt: &HostRuntime,
    to: Staging<'_>,
    staged: StagedFile<File>,
    filled: Result<bool, Fault<'_>>,
    errors: &mut E,
) -> Status {
    if matches!(filled, Ok(true)) {
        return name_staged(rt, to, staged, errors);
    }
    drop_file(rt, staged);
    match filled {
        Ok(_) => Status::Good,
        Err(fault) => fault.report(errors),
    }
}

fn name_staged<E: Sink>(
    rt: &HostRuntime,
    to: Staging<'_>,
    staged: StagedFile<File>,
    errors: &mut E,
) -> Status {
    match name_file(rt, staged, to.path) {
        Ok(()) => match flush_folder(rt, to.folder) {
            Ok(()) => Status::Good,
            Err(fault) => output_fault(fault, to.folder).report(errors),
        },
        Err(fault) => output_fault(fault, to.path).report(errors),
    }
}

// The staging file of the packet with this path. Its first bytes are the nodes of the two systems.
fn staged_at(
    rt: &HostRuntime,
    path: &str,
    links: &LinkFile,
    asked: Resend<'_>,
) -> Result<StagedFile<File>, OutputFault> {
    let own = links.system();
    let (zone, net, node) = (own.zone, own.net, own.node);
    let [first, second] = node.to_le_bytes();
    let [third, fourth] = asked.to.node.to_le_bytes();
    let start = [first, second, third, fourth];
    match format!(in rt.alloc(); "{zone}.{net}.{node}") {
        Ok(name) => begin_file(rt.alloc(), rt, path, name.as_str(), &start),
        Err(_) => Err(OutputFault::Memory),
    }
}

fn free_path(rt: &HostRuntime, folder: &str, asked: Resend<'_>) -> io::Result<String> {
    'numbers: for number in 1..u32::MAX {
        if let Some(path) = path_if_free(rt, folder, asked, number)? {
            return Ok(path);
        }
    }
    Err(ErrorKind::AlreadyExists.into())
}

fn path_if_free(
    rt: &HostRuntime,
    folder: &str,
    asked: Resend<'_>,
    number: u32,
) -> io::Result<Option<String>> {
    let path = path_of(rt, folder, asked, number)?;
    match is_free(rt, path.as_str()) {
        Ok(true) => Ok(Some(path)),
        Ok(false) => Ok(None),
        Err(error) => Err(error),
    }
}

// Whether nothing has the path, not even a symbolic link.
fn is_free(rt: &HostRuntime, path: &str) -> io::Result<bool> {
    match fs::symlink_metadata(rt, path) {
        Ok(_) => Ok(false),
        Err(error) if error.kind() == ErrorKind::NotFound => Ok(true),
        Err(error) => Err(error),
    }
}

fn path_of(
    rt: &HostRuntime,
    folder: &str,
    asked: Resend<'_>,
    number: u32,
) -> Result<String, AllocError> {
    match repair_name(rt.alloc(), asked.to, asked.first, number) {
        Ok(name) => file_path(rt, folder, text_path(&name)),
        Err(refused) => Err(refused),
    }
}
