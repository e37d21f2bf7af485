//! `list`: the messages of a base.

ghost use Rattle.std.specs.Prelude.{◌≡◌, IfErr, IfOk, OnOk};
ghost use Rattle.cmd_status.specs.{Devices.output_of, Ended.{PassesAll, Stops}, declared.status.Status.TheVariants.Good};
ghost use Rattle.cmd_show.specs.Fetching.{AreLegibleFrom, StopsReading};
ghost use Rattle.base_file.specs.Base as model;

use base_folder::{MessageSource, fetch_message, start_number};
use cmd_print::{ListForm, push_base_total, push_listed};
use cmd_status::{Fault, Status, flush_piece, print_rest};
use disk_io::Sink;
use echo_addr::Items;
use echo_filed::Filed;
use std::alloc::{AllocError, Global};

/// Which messages of a base are listed, and how: those of the area, if one is given, from the number `first` on.
#[derive(Clone, Copy)]
pub struct ListQuery<'a> {
    pub form: ListForm,
    pub area: Option<&'a [u8]>,
    pub first: u64,
}

#[derive(Drop)]
struct ListFilter {
    form: ListForm,
    area: Option<Items<u8>>,
    first: u64,
}

/// `list [--short] [--area TAG] [--from I] BASE`: prints the messages from the number `first` on, of the area if one
/// is given. Then it prints how many the base has, and how many wait. A fault of a message ends it there; `look` of a base
/// folder finds it before.
pub fn list<'a, M: MessageSource, W: Sink>(
    alloc: Global,
    asked: &ListQuery<'_>,
    path: &'a str,
    messages: &mut M,
    out: &mut W,
) -> Result<Status, Fault<'a>>
    requires { (M.state messages.old).is_ready }
    ensures status { IfOk result (λ status. status ≡ Good) }
    ensures passed { OnOk result (PassesAll (output_of W.contents W.failures W.holds out.old) (output_of W.contents W.failures W.holds out.new)) }
    ensures fault { (M.state messages.new).is_honest → (base : model.Base) → (M.state messages.old).holds base
        → IfErr result (StopsReading path.now (M.state messages.old).failures (M.state messages.new).failures (W.failures out.old) (W.failures out.new)) }
    ensures whole { (M.state messages.new).is_honest → OnOk result (AreLegibleFrom (M.state messages.old) asked.now.first) }
{
    let area = upper_tag(alloc, asked.area)?;
    let asked = ListFilter {
        form: asked.form,
        area,
        first: asked.first,
    };
    let count = messages.count();
    let scanned = messages.cursor();
    let mut lines = Vec::new(alloc);
    print_messages(&asked, path, messages, &mut lines, out)?;
    push_base_total(&mut lines, count, count.saturating_sub(scanned))?;
    print_rest(&mut lines, out)?;
    Ok(Status::Good)
}

pub(crate) fn upper_tag(
    alloc: Global,
    area: Option<&[u8]>,
) -> Result<Option<Items<u8>>, AllocError> {
    match area {
        Some(tag) => Ok(Some(Items::new(tag.to_ascii_uppercase(alloc)?))),
        None => Ok(None),
    }
}

fn print_messages<'a, M: MessageSource, W: Sink>(
    asked: &ListFilter,
    path: &'a str,
    messages: &mut M,
    lines: &mut Vec<u8>,
    out: &mut W,
) -> Result<(), Fault<'a>>
    requires { (M.state messages.old).is_ready }
    ensures ok { OnOk result (W.failures out.new ≡ W.failures out.old) }
    ensures fault { (M.state messages.new).is_honest → (base : model.Base) → (M.state messages.old).holds base
        → IfErr result (StopsReading path.now (M.state messages.old).failures (M.state messages.new).failures (W.failures out.old) (W.failures out.new)) }
    ensures whole { (M.state messages.new).is_honest → OnOk result (AreLegibleFrom (M.state messages.old) asked.now.first) }
{
    let count = messages.count();
    let cursor = messages.cursor();
    'messages: for i in start_number(asked.first, count)..count {
        fetch_message(messages, path, i)?;
        print_message(asked, cursor, i, messages.at_hand(), lines, out)?;
    }
    Ok(())
}

fn print_message<'a, W: Sink>(
    asked: &ListFilter,
    cursor: usize,
    i: usize,
    message: Option<&Filed>,
    lines: &mut Vec<u8>,
    out: &mut W,
) -> Result<(), Fault<'a>>
    ensures ok { OnOk result (W.failures out.new ≡ W.failures out.old) }
    ensures err { IfErr result (Stops (W.failures out.old) (W.failures out.new)) }
{
    let Some(message) = message else {
        return Ok(());
    };
    if (i as u64) < asked.first || !is_of_area(asked.area.as_ref(), message.echo.tag.as_slice()) {
        return Ok(());
    }
    push_listed(lines, asked.form, cursor, i, message)?;
    flush_piece(lines, out)
}

pub(crate) fn is_of_area(area: Option<&Items<u8>>, tag: &[u8]) -> bool {
    match area {
        None => true,
        Some(area) => tag == area.as_slice(),
    }
}
