//! `list --areas`: how many messages of each area a base has.
ghost use Rattle.std.specs.Prelude.{◌≡◌, IfErr, OnOk};
ghost use Rattle.{base_folder.specs.{Fetching.{CannotRead, IsUnread}, Source.AreLegible}, cmd_status.specs.{declared.status.Status.TheVariants.Good, Devices.output_of, Ended.Answers}};
ghost use Rattle.base_file.specs.Base as model;

use crate::exporting::state_of;
use base_folder::{MessageSource, fetch_message};
use cmd_print::push_base_total;
use cmd_status::{Fault, Status, print_rest};
use disk_io::Sink;
use echo_charset::written;
use echo_export::MessageState;
use echo_filed::Filed;
use std::alloc::{AllocError, Global};
use std::collections::BTreeMap;
use std::io::Write;

// How many messages an area has, how many of them wait for a scan, and how many were scanned and purged.
#[derive(Clone, Copy)]
struct AreaCounts {
    messages: u64,
    waiting: u64,
    purged: u64,
}

/// `list --areas BASE`: prints each area with messages, ascending by tag: how many it has, how many wait, how many are
/// purged. Then it prints what `list` prints last. Of a faulty base nothing is printed.
pub fn list_areas<'a, M: MessageSource, W: Sink>(
    alloc: Global,
    path: &'a str,
    messages: &mut M,
    out: &mut W,
) -> Result<Status, Fault<'a>>
    requires { (M.state messages.old).is_ready }
    ensures answer { (M.state messages.new).is_honest → (base : model.Base) → (M.state messages.old).holds base
        → Answers (λ lines status. status ≡ Good) (CannotRead path.now (M.state messages.old).failures (M.state messages.new).failures)
        (output_of W.contents W.failures W.holds out.old) (output_of W.contents W.failures W.holds out.new) result }
    ensures whole { (M.state messages.new).is_honest → OnOk result (AreLegible (M.state messages.old)) }
{
    let count = messages.count();
    let scanned = messages.cursor();
    let counts = count_areas(alloc, path, messages)?;
    print_areas(alloc, counts, count, count.saturating_sub(scanned), out)
}

fn count_areas<'a, M: MessageSource>(
    alloc: Global,
    path: &'a str,
    messages: &mut M,
) -> Result<BTreeMap<Vec<u8>, AreaCounts>, Fault<'a>>
    requires { (M.state messages.old).is_ready }
    ensures fault { (M.state messages.new).is_honest → (base : model.Base) → (M.state messages.old).holds base
        → IfErr result (IsUnread path.now (M.state messages.old).failures (M.state messages.new).failures) }
    ensures whole { (M.state messages.new).is_honest → OnOk result (AreLegible (M.state messages.old)) }
{
    let count = messages.count();
    let cursor = messages.cursor();
    let mut counts = BTreeMap::new(alloc);
    'messages: for i in 0..count {
        fetch_message(messages, path, i)?;
        note_message(alloc, &mut counts, cursor, i, messages.at_hand())?;
    }
    Ok(counts)
}

fn note_message(
    alloc: Global,
    counts: &mut BTreeMap<Vec<u8>, AreaCounts>,
    cursor: usize,
    i: usize,
    message: Option<&Filed>,
) -> Result<(), AllocError> {
    let Some(message) = message else {
        return Ok(());
    };
    let tag = message.echo.tag.as_slice();
    let before = match counts.get(tag) {
        Some(found) => *found,
        None => AreaCounts {
            messages: 0,
            waiting: 0,
            purged: 0,
        },
    };
    let after = counted_more(before, state_of(cursor, i, message));
    counts.insert(Vec::from_slice(alloc, tag)?, after)?;
    Ok(())
}

fn counted_more(counts: AreaCounts, state: MessageState) -> AreaCounts {
    let messages = counts.messages.saturating_add(1);
    match state {
        MessageState::Scanned => AreaCounts { messages, ..counts },
        MessageState::Waiting => AreaCounts {
            messages,
            waiting: counts.waiting.saturating_add(1),
            ..counts
        },
        MessageState::Purged => AreaCounts {
            messages,
            purged: counts.purged.saturating_add(1),
            ..counts
        },
    }
}

fn print_areas<'a, W: Sink>(
    alloc: Global,
    counts: BTreeMap<Vec<u8>, AreaCounts>,
    messages: usize,
    waiting: usize,
    out: &mut W,
) -> Result<Status, Fault<'a>>
    ensures { Answers (λ lines status. status ≡ Good) (λ fault. ⊥) (output_of W.contents W.failures W.holds out.old) (output_of W.contents W.failures W.holds out.new) result }
{
    let mut lines = Vec::new(alloc);
    push_counts(&mut lines, counts)?;
    push_base_total(&mut lines, messages, waiting)?;
    print_rest(&mut lines, out)?;
    Ok(Status::Good)
}

fn push_counts(
    lines: &mut Vec<u8>,
    counts: BTreeMap<Vec<u8>, AreaCounts>,
) -> Result<(), AllocError> {
    let mut rest = counts;
    'areas: while let Some((tag, counted)) = rest.pop_first() {
        lines.extend_from_slice(b"area ")?;
        lines.extend_from_slice(&tag)?;
        let AreaCounts {
            messages,
            waiting,
            purged,
        } = counted;
        written(writeln!(
            lines,
            " messages {messages} waiting {waiting} purged {purged}"
        ))?;
    }
    Ok(())
}
