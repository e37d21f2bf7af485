//! The lines that report what an export made, and that refuse to post a message.
ghost use Rattle.std.specs.Prelude.{◌≡◌, false, IfErr, OnOk};
ghost use Rattle.cmd_status.specs.{Ended.Stops, declared.status.Status.TheVariants.Refused};

use crate::adding::JamExport;
use crate::numbering::Exported;
use cmd_status::{Fault, Status, print_rest};
use disk_io::Sink;
use echo_charset::written;
use std::alloc::{AllocError, Global};
use std::io::Write;

/// Prints how many files were made, and the number of the message from which the next export begins.
pub fn tell_exported<'a, W: Sink>(
    alloc: Global,
    exported: &Exported<'_>,
    out: &mut W,
) -> Result<(), Fault<'a>>
    ensures passed { OnOk result (W.holds out.new ≡ false) }
    ensures ok { OnOk result (W.failures out.new ≡ W.failures out.old) }
    ensures err { IfErr result (Stops (W.failures out.old) (W.failures out.new)) }
{
    tell_made(alloc, exported.made, exported.next, out)
}

/// Prints that line for a JAM base, to which so many of the messages were added. Next is the first one left, or the end.
pub fn tell_added<'a, W: Sink>(
    alloc: Global,
    exported: &JamExport,
    made: usize,
    out: &mut W,
) -> Result<(), Fault<'a>>
    ensures passed { OnOk result (W.holds out.new ≡ false) }
    ensures ok { OnOk result (W.failures out.new ≡ W.failures out.old) }
    ensures err { IfErr result (Stops (W.failures out.old) (W.failures out.new)) }
{
    let next = match exported.adding.messages.as_slice().get(made) {
        Some(message) => *message as u64,
        None => exported.end,
    };
    tell_made(alloc, made, next, out)
}

fn tell_made<'a, W: Sink>(
    alloc: Global,
    made: usize,
    next: u64,
    out: &mut W,
) -> Result<(), Fault<'a>>
    ensures passed { OnOk result (W.holds out.new ≡ false) }
    ensures ok { OnOk result (W.failures out.new ≡ W.failures out.old) }
    ensures err { IfErr result (Stops (W.failures out.old) (W.failures out.new)) }
{
    let mut line = Vec::new(alloc);
    written(writeln!(line, "exported {made} messages, next {next}"))?;
    print_rest(&mut line, out)
}

/// Prints the number of a message of a JAM base that is refused.
pub fn tell_refused<'a, W: Sink>(alloc: Global, number: u64, out: &mut W) -> Result<(), Fault<'a>>
    ensures passed { OnOk result (W.holds out.new ≡ false) }
    ensures ok { OnOk result (W.failures out.new ≡ W.failures out.old) }
    ensures err { IfErr result (Stops (W.failures out.old) (W.failures out.new)) }
{
    let mut line = Vec::new(alloc);
    written(writeln!(line, "refused {number}"))?;
    print_rest(&mut line, out)
}

/// Reports on standard error how many control lines were cut, if there are any.
pub fn tell_cuts<E: Sink>(alloc: Global, count: u64, errors: &mut E) {
    let mut line = Vec::new(alloc);
    if count > 0 && push_cuts(&mut line, count).is_ok() {
        let _ = print_rest(&mut line, errors);
    }
}

fn push_cuts(line: &mut Vec<u8>, count: u64) -> Result<(), AllocError> {
    written(writeln!(line, "echonet: {count} control lines cut"))
}

/// Reports a stored message that is not to be posted, and answers the status of refused input.
pub fn refuse_message<E: Sink>(alloc: Global, errors: &mut E) -> Status
    ensures { result ≡ Refused }
{
    let mut line = Vec::new(alloc);
    if line.extend_from_slice(b"echonet: bad message\n").is_ok() {
        let _ = print_rest(&mut line, errors);
    }
    Status::Refused
}
