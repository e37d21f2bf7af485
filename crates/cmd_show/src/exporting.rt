//! `export`: the messages of a base in the forms of other programs.

ghost use Rattle.std.specs.Prelude.{◌≡◌, ◌<◌, ◌^◌, IfErr, IfOk, OnOk};
ghost use Rattle.cmd_status.specs.{Devices.output_of, Ended.{PassesAll, Stops}};
ghost use Rattle.cmd_show.specs.Fetching.{AreLegibleFrom, StopsReading};
ghost use Rattle.base_file.specs.Base as model;

use crate::listing::{is_of_area, upper_tag};
use base_folder::{MessageSource, fetch_message, start_number};
use cmd_status::{Fault, flush_piece, print_rest};
use disk_io::Sink;
use echo_addr::Items;
use echo_charset::written;
use echo_export::{Form, MessageState, push_message};
use echo_filed::{Filed, is_stub};
use std::alloc::{AllocError, Global};
use std::io::Write;

/// Which messages of a base are exported, and as what: those of the area, if one is given, from the number `first` on.
/// What a purge left is among them only if that is asked for.
#[derive(Clone, Copy)]
pub struct ExportQuery<'a> {
    pub form: Form,
    pub area: Option<&'a [u8]>,
    pub first: u64,
    pub purged: bool,
}

#[derive(Drop)]
struct ExportFilter {
    form: Form,
    area: Option<Items<u8>>,
    first: u64,
    purged: bool,
}

/// `export [--area TAG] [--from I] [--purged] [--mbox | --json] BASE`: prints the messages asked for. Returns how many U+FFFD
/// were printed for characters that the charset of a message lacks. A fault of a message ends it there; `look` of a folder
/// finds it before.
pub fn export<'a, M: MessageSource, W: Sink>(
    alloc: Global,
    asked: &ExportQuery<'_>,
    path: &'a str,
    messages: &mut M,
    out: &mut W,
) -> Result<u128, Fault<'a>>
    requires { (M.state messages.old).is_ready }
    ensures passed { OnOk result (PassesAll (output_of W.contents W.failures W.holds out.old) (output_of W.contents W.failures W.holds out.new)) }
    ensures fault { (M.state messages.new).is_honest → (base : model.Base) → (M.state messages.old).holds base
        → IfErr result (StopsReading path.now (M.state messages.old).failures (M.state messages.new).failures (W.failures out.old) (W.failures out.new)) }
    ensures whole { (M.state messages.new).is_honest → OnOk result (AreLegibleFrom (M.state messages.old) asked.now.first) }
{
    let area = upper_tag(alloc, asked.area)?;
    let sought = ExportFilter {
        form: asked.form,
        area,
        first: asked.first,
        purged: asked.purged,
    };
    let mut lines = Vec::new(alloc);
    let count = print_sought(alloc, &sought, path, messages, &mut lines, out)?;
    print_rest(&mut lines, out)?;
    Ok(count)
}

/// Reports on standard error how many U+FFFD were printed, if any.
pub fn tell_lost<E: Sink>(alloc: Global, count: u128, errors: &mut E) {
    let mut line = Vec::new(alloc);
    if count > 0 && push_lost(&mut line, count).is_ok() {
        let _ = print_rest(&mut line, errors);
    }
}

fn push_lost(line: &mut Vec<u8>, count: u128) -> Result<(), AllocError> {
    written(writeln!(line, "echonet: {count} characters replaced by U+FFFD"))
}

fn print_sought<'a, M: MessageSource, W: Sink>(
    alloc: Global,
    sought: &ExportFilter,
    path: &'a str,
    messages: &mut M,
    lines: &mut Vec<u8>,
    out: &mut W,
) -> Result<u128, Fault<'a>>
    requires { (M.state messages.old).is_ready }
    ensures ok { OnOk result (W.failures out.new ≡ W.failures out.old) }
    ensures fault { (M.state messages.new).is_honest → (base : model.Base) → (M.state messages.old).holds base
        → IfErr result (StopsReading path.now (M.state messages.old).failures (M.state messages.new).failures (W.failures out.old) (W.failures out.new)) }
    ensures whole { (M.state messages.new).is_honest → OnOk result (AreLegibleFrom (M.state messages.old) sought.now.first) }
{
    let count = messages.count();
    let cursor = messages.cursor();
    let mut lost: u128 = 0;
    'messages: for i in start_number(sought.first, count)..count {
        fetch_message(messages, path, i)?;
        let more = print_one(alloc, sought, cursor, i, messages.at_hand(), lines, out)?;
        lost += more as u128;
    }
    Ok(lost)
}

fn print_one<'a, W: Sink>(
    alloc: Global,
    sought: &ExportFilter,
    cursor: usize,
    i: usize,
    message: Option<&Filed>,
    lines: &mut Vec<u8>,
    out: &mut W,
) -> Result<usize, Fault<'a>>
    ensures ok { OnOk result (W.failures out.new ≡ W.failures out.old) }
    ensures few { IfOk result (λ n. n < 2 ^ 64) }
    ensures err { IfErr result (Stops (W.failures out.old) (W.failures out.new)) }
{
    let Some(message) = message else {
        return Ok(0);
    };
    if !is_sought(sought, cursor, i, message) {
        return Ok(0);
    }
    let state = state_of(cursor, i, message);
    let count = push_message(alloc, lines, sought.form, i, state, message)?;
    flush_piece(lines, out)?;
    Ok(count)
}

fn is_sought(sought: &ExportFilter, cursor: usize, i: usize, message: &Filed) -> bool {
    sought.first <= i as u64
        && is_of_area(sought.area.as_ref(), message.echo.tag.as_slice())
        && match state_of(cursor, i, message) {
            MessageState::Scanned | MessageState::Waiting => true,
            MessageState::Purged => sought.purged,
        }
}

/// A stub that was scanned is purged.
pub(crate) fn state_of(cursor: usize, i: usize, message: &Filed) -> MessageState {
    if i >= cursor {
        MessageState::Waiting
    } else if message.echo.msgid().is_some() && is_stub(message) {
        MessageState::Purged
    } else {
        MessageState::Scanned
    }
}
