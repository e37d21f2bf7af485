//! The list of `list --ids`.

ghost use Rattle.std.specs.{Prelude.{◌≡◌, ◌++◌, OnErr, OnOk, IfErr, codes, length, map}, List.flat_map};
ghost use Rattle.base_folder.specs.{Fetching.CannotRead, Source.AreLegible};
ghost use Rattle.{cmd_status.specs.{Devices.output_of, Ended.{AnswersInPieces, Stops}, Lines.{PassesOn, WritesFront}}, echo_charset.specs.Escaped.escaped_line};
ghost use Rattle.{echo_links.specs.Links.upper, cmd_repair.specs.IdsListed.AreIdsListed};
ghost use Rattle.base_file.specs.Base as model;
ghost use Rattle.cmd_repair.specs.Words as words;

use crate::gathering::{gather_ids, ids_of};
use crate::words::{push_area, push_end};
use base_folder::MessageSource;
use cmd_status::{Fault, Status, flush_piece, print_rest};
use disk_io::Sink;
use echo_charset::push_escaped;
use std::alloc::{AllocError, Global};

/// `list --ids --area TAG BASE`: prints the ids of the area's messages, ascending by their bytes, each as the word
/// that escapes it. All messages are read first: of a faulty base nothing is printed.
pub fn list_ids<'a, M: MessageSource, W: Sink>(
    alloc: Global,
    area: &[u8],
    path: &'a str,
    messages: &mut M,
    out: &mut W,
) -> Result<Status, Fault<'a>>
    requires { (M.state messages.old).is_ready }
    ensures listed { (M.state messages.new).is_honest → (base : model.Base) → (M.state messages.old).holds base
        → AnswersInPieces (AreIdsListed (upper area.now) base) (CannotRead path.now (M.state messages.old).failures (M.state messages.new).failures)
        (output_of W.contents W.failures W.holds out.old) (output_of W.contents W.failures W.holds out.new) result }
    ensures whole { (M.state messages.new).is_honest → OnOk result (AreLegible (M.state messages.old)) }
{
    let area = area.to_ascii_uppercase(alloc)?;
    let gathered = gather_ids(alloc, &area, path, messages)?;
    let mut ids = ids_of(alloc, &gathered)?;
    ids.sort_unstable();
    let without = gathered.messages.saturating_sub(ids.len() as u64);
    let mut lines = Vec::new(alloc);
    push_first(&mut lines, &area)?;
    print_ids(&ids, &mut lines, out)?;
    push_last(&mut lines, gathered.messages, without)?;
    print_rest(&mut lines, out)?;
    Ok(Status::Good)
}

fn push_first(lines: &mut Vec<u8>, area: &[u8]) -> Result<(), AllocError>
    ensures { OnOk result (lines.new.items ≡ lines.old.items ++ (words.area_words area.now ++ codes "\n")) }
{
    push_area(lines, area)?;
    lines.push(b'\n')?;
    Ok(())
}

fn push_last(lines: &mut Vec<u8>, messages: u64, without: u64) -> Result<(), AllocError>
    ensures { OnOk result (lines.new.items ≡ lines.old.items ++ (words.end_words messages without ++ codes "\n")) }
{
    push_end(lines, messages, without)?;
    lines.push(b'\n')?;
    Ok(())
}

fn print_ids<'a, W: Sink>(ids: &[&[u8]], lines: &mut Vec<u8>, out: &mut W) -> Result<(), Fault<'a>>
    ensures lines { OnOk result (PassesOn (lines.old.items ++ flat_map (λ id. escaped_line (codes "id") id.now) ids.now) lines.new.items (W.contents out.old) (W.contents out.new)) }
    ensures begun { OnErr result (WritesFront (lines.old.items ++ flat_map (λ id. escaped_line (codes "id") id.now) ids.now) (W.contents out.old) (W.contents out.new)) }
    ensures ok { OnOk result (W.failures out.new ≡ W.failures out.old) }
    ensures err { IfErr result (Stops (W.failures out.old) (W.failures out.new)) }
{
    'ids: for id in ids {
        print_id(id, lines, out)?;
    }
    Ok(())
}

fn print_id<'a, W: Sink>(id: &[u8], lines: &mut Vec<u8>, out: &mut W) -> Result<(), Fault<'a>>
    ensures lines { OnOk result (PassesOn (lines.old.items ++ escaped_line (codes "id") id.now) lines.new.items (W.contents out.old) (W.contents out.new)) }
    ensures begun { OnErr result (WritesFront (lines.old.items ++ escaped_line (codes "id") id.now) (W.contents out.old) (W.contents out.new)) }
    ensures ok { OnOk result (W.failures out.new ≡ W.failures out.old) }
    ensures err { IfErr result (Stops (W.failures out.old) (W.failures out.new)) }
{
    push_escaped(lines, b"id", id)?;
    flush_piece(lines, out)
}
