//! `convert` makes a base file or a base folder with the messages of another base.
ghost use Rattle.base_folder.specs.Source.{LooksAt};

use base_folder::{FillError, MessageSource, SendError, fill, send_file};
use base_store::SipDigest;
use cmd_base::{
    BASE_START, drawn_key, flush_name, is_folder, is_strange, is_unused, messages_fault,
};
use cmd_door::{UseMessages, with_distinct, with_file};
use cmd_input::{folder_path, locked_folder, output_fault};
use cmd_status::{Fault, Status, print_rest};
use disk_io::{Sink, Watched};
use disk_system::{
    OutputFault, RealDisk, Unknown, begin_file, drop_file, flush_folder, name_file, parent_path,
};
use std::io;

/// The word in the staging path of a new base file where other files have the address of a system.
const OWN: &str = "base";

/// `convert FROM TO`: FROM is read first. TO is an empty folder, or a path that nothing has. If FROM is a folder, one
/// message at a time is in memory. Before a folder TO is filled, FROM is read to its end, so a fault leaves TO empty.
pub(crate) fn run_convert<'a, W: Sink>(
    rt: &HostRuntime,
    from: &'a str,
    to: &'a str,
    out: &mut W,
) -> Result<Status, Fault<'a>> {
    if is_folder(rt, from) {
        convert_folder(rt, from, to, out)
    } else {
        convert_file(rt, from, to, out)
    }
}

fn convert_file<'a, W: Sink>(
    rt: &HostRuntime,
    from: &'a str,
    to: &'a str,
    out: &mut W,
) -> Result<Status, Fault<'a>> {
    let mut converting = Converting {
        rt,
        from,
        to,
        judges: false,
        out,
    };
    with_file(rt, from, &mut converting)
}

#[derive(Drop)]
struct Converting<'q, 'a, W> {
    rt: &'q HostRuntime,
    from: &'a str,
    to: &'a str,
    // Whether the messages are read to their end before a folder is filled.
    judges: bool,
    out: &'q mut W,
}

impl<'a, W: Sink> UseMessages<'a> for Converting<'_, 'a, W> {
    type Answer = Status;

    fn run<M: MessageSource>(&mut self, messages: &mut M) -> Result<Status, Fault<'a>> {
        if self.judges {
            convert_distinct(self.rt, self.from, messages, self.to, self.out)
        } else {
            convert_messages(self.rt, self.from, messages, self.to, self.out)
        }
    }
}

fn convert_folder<'a, W: Sink>(
    rt: &HostRuntime,
    from: &'a str,
    to: &'a str,
    out: &mut W,
) -> Result<Status, Fault<'a>> {
    let mut converting = Converting {
        rt,
        from,
        to,
        judges: true,
        out,
    };
    with_distinct(rt, from, &mut converting)
}

fn convert_distinct<'a, M: MessageSource, W: Sink>(
    rt: &HostRuntime,
    from: &'a str,
    messages: &mut M,
    to: &'a str,
    out: &mut W,
) -> Result<Status, Fault<'a>>
    requires { (M.state messages.old).is_ready }
{
    match judge_for(rt, from, messages, to) {
        Ok(()) => convert_messages(rt, from, messages, to, out),
        Err(fault) => Err(fault),
    }
}

fn convert_messages<'a, M: MessageSource, W: Sink>(
    rt: &HostRuntime,
    from: &'a str,
    messages: &mut M,
    to: &'a str,
    out: &mut W,
) -> Result<Status, Fault<'a>>
    requires { (M.state messages.old).is_ready }
{
    let made = if is_folder(rt, to) {
        fill_empty(rt, from, messages, to)
    } else {
        save_file(rt, from, messages, to)
    };
    match made {
        Ok(()) => print_converted(rt, messages.count(), messages.cursor(), out),
        Err(fault) => Err(fault),
    }
}

fn judge_for<'a, M: MessageSource>(
    rt: &HostRuntime,
    from: &'a str,
    messages: &mut M,
    to: &str,
) -> Result<(), Fault<'a>>
    requires { (M.state messages.old).is_ready }
    ensures { LooksAt (M.state messages.old) (M.state messages.new) }
{
    if is_folder(rt, to) {
        judge_messages(rt, from, messages)
    } else {
        Ok(())
    }
}

fn judge_messages<'a, M: MessageSource>(
    rt: &HostRuntime,
    from: &'a str,
    messages: &mut M,
) -> Result<(), Fault<'a>>
    requires { (M.state messages.old).is_ready }
    ensures { LooksAt (M.state messages.old) (M.state messages.new) }
{
    match send_file(rt.alloc(), messages, &mut Watched::new(io::sink())) {
        Err(SendError::Messages(fault)) => Err(messages_fault(fault, from)),
        _ => Ok(()),
    }
}

fn print_converted<'a, W: Sink>(
    rt: &HostRuntime,
    count: usize,
    cursor: usize,
    out: &mut W,
) -> Result<Status, Fault<'a>> {
    let waiting = count.saturating_sub(cursor);
    match format!(in rt.alloc(); "converted {count} messages, {waiting} waiting\n") {
        Ok(line) => match print_rest(&mut line.into_bytes(), out) {
            Ok(()) => Ok(Status::Good),
            Err(fault) => Err(fault),
        },
        Err(_) => Err(Fault::OutOfMemory),
    }
}

// Fills an empty folder under its lock, so that no other run fills or changes it.
fn fill_empty<'a, M: MessageSource>(
    rt: &HostRuntime,
    from: &'a str,
    messages: &mut M,
    to: &'a str,
) -> Result<(), Fault<'a>>
    requires { (M.state messages.old).is_ready }
{
    match locked_folder(rt, to) {
        Ok(locked) => {
            let filled = fill_if_empty(rt, from, messages, to);
            let _ = locked.unlock();
            filled
        }
        Err(fault) => Err(fault),
    }
}

fn fill_if_empty<'a, M: MessageSource>(
    rt: &HostRuntime,
    from: &'a str,
    messages: &mut M,
    to: &'a str,
) -> Result<(), Fault<'a>>
    requires { (M.state messages.old).is_ready }
{
    if !is_unused(rt, to)? {
        return Err(Fault::CannotUse(to));
    }
    flush_name(rt, to, 0)?;
    let strange = is_strange(rt, to)?;
    match folder_path(rt, to) {
        Ok(path) => fill_folder(rt, from, messages, to, path.as_bytes(), strange),
        Err(_) => Err(Fault::OutOfMemory),
    }
}

// Fills the empty base folder with this path.
fn fill_folder<'a, M: MessageSource>(
    rt: &HostRuntime,
    from: &'a str,
    messages: &mut M,
    to: &'a str,
    path: &[u8],
    strange: bool,
) -> Result<(), Fault<'a>>
    requires { (M.state messages.old).is_ready }
{
    let key = drawn_key(rt)?;
    let mut disk = RealDisk::new(rt, Unknown);
    match fill::<_, SipDigest, _>(rt.alloc(), &mut disk, path, strange, key, messages) {
        Ok(()) => Ok(()),
        Err(why) => Err(filling_fault(why, from, to)),
    }
}

fn filling_fault<'a>(why: FillError, from: &'a str, to: &'a str) -> Fault<'a> {
    match why {
        FillError::Messages(fault) => messages_fault(fault, from),
        FillError::Used => Fault::CannotUse(to),
        FillError::Folder(why) => why.fault(to),
    }
}

// Makes a base file at a path that nothing has. A fault of the messages counts before one of the file: if the file
// fails first, they are read to the end.
fn save_file<'a, M: MessageSource>(
    rt: &HostRuntime,
    from: &'a str,
    messages: &mut M,
    to: &'a str,
) -> Result<(), Fault<'a>>
    requires { (M.state messages.old).is_ready }
{
    match write_file(rt, from, messages, to) {
        Ok(Ok(())) => match flush_folder(rt, parent_path(to)) {
            Ok(()) => Ok(()),
            Err(fault) => Err(output_fault(fault, to)),
        },
        Ok(Err(failed)) => match judge_messages(rt, from, messages) {
            Ok(()) => Err(output_fault(failed, to)),
            Err(fault) => Err(fault),
        },
        Err(fault) => Err(fault),
    }
}

// Writes it, message by message. The inner error is one of the file.
fn write_file<'a, M: MessageSource>(
    rt: &HostRuntime,
    from: &'a str,
    messages: &mut M,
    to: &str,
) -> Result<Result<(), OutputFault>, Fault<'a>>
    requires { (M.state messages.old).is_ready }
    ensures { LooksAt (M.state messages.old) (M.state messages.new) }
{
    match begin_file(rt.alloc(), rt, to, OWN, BASE_START) {
        Ok(mut staged) => match send_file(rt.alloc(), messages, &mut staged.device) {
            Ok(()) => Ok(name_file(rt, staged, to)),
            Err(why) => {
                drop_file(rt, staged);
                match why {
                    SendError::Messages(fault) => Err(messages_fault(fault, from)),
                    _ => Ok(Err(OutputFault::Device)),
                }
            }
        },
        Err(failed) => Ok(Err(failed)),
    }
}
