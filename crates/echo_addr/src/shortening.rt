//! SEEN-BY and PATH lines, written with shortened entries (FTS-0004).

ghost use Rattle.std.specs.Prelude.{◌≡◌, ◌+◌, ◌-◌, ◌<◌, ◌≤◌, [], ◌∷◌, ◌++◌, length, take, drop, decimal, AllPairs, IfOk, OnOk};
ghost use Rattle.echo_addr.specs.ShortLines.{AddsLines, ComesBefore, ShortLines, entries_text, entry_text, entry_token, path_prefix, seen_prefix, shows_net};

use crate::address::NetNode;
use itoa::write_digits;
use std::alloc::{AllocError, Global};

/// The most bytes of a line before its 0D.
const LINE_ROOM: usize = 79;

/// The SEEN-BY lines of the entries (FTS-0004), each with its 0D. The entries ascend by net and node, each once. An
/// empty list has no bytes.
#[tactic(auto, using(crate::proofs::Runs::lines_alone))]
pub fn write_seen(alloc: Global, entries: &[NetNode]) -> Result<Vec<u8>, AllocError>
    requires { AllPairs ComesBefore entries.now }
    ensures { IfOk result (λ lines. ShortLines seen_prefix entries.now lines.items) }
{
    let mut lines = Vec::new(alloc);
    push_seen(&mut lines, entries)?;
    Ok(lines)
}

/// The PATH lines of the entries (FTS-0004) in the same way, in any order and with repeats, each with its 01 and 0D.
#[tactic(auto, using(crate::proofs::Runs::lines_alone))]
pub fn write_path(alloc: Global, entries: &[NetNode]) -> Result<Vec<u8>, AllocError>
    ensures { IfOk result (λ lines. ShortLines path_prefix entries.now lines.items) }
{
    let mut lines = Vec::new(alloc);
    push_path(&mut lines, entries)?;
    Ok(lines)
}

/// Adds the SEEN-BY lines of the entries (FTS-0004), each with its 0D. The entries ascend by net and node, each once.
pub fn push_seen(text: &mut Vec<u8>, entries: &[NetNode]) -> Result<(), AllocError>
    requires { AllPairs ComesBefore entries.now }
    ensures { OnOk result (AddsLines seen_prefix entries.now text.old.items text.new.items) }
{
    push_lines(text, b"SEEN-BY:", entries)
}

/// Adds the PATH lines of the entries to a text (FTS-0004), each with its 01 and 0D.
pub fn push_path(text: &mut Vec<u8>, entries: &[NetNode]) -> Result<(), AllocError>
    ensures { OnOk result (AddsLines path_prefix entries.now text.old.items text.new.items) }
{
    push_lines(text, b"\x01PATH:", entries)
}

fn push_lines(text: &mut Vec<u8>, prefix: &[u8], entries: &[NetNode]) -> Result<(), AllocError>
    requires { length prefix.now ≤ 8 }
    ensures { OnOk result (AddsLines prefix.now entries.now text.old.items text.new.items) }
{
    let mut line = [0; LINE_ROOM + 1];
    let begun = prefix.len();
    line[..begun].copy_from_slice(prefix);
    let mut rest = entries;
    'runs: while !rest.is_empty() {
        let (count, end) = write_run(&mut line, begun, rest);
        push_ended(text, &mut line, end)?;
        let (_, after) = rest.split_at(count);
        rest = after;
    }
    Ok(())
}

fn push_ended(text: &mut Vec<u8>, line: &mut [u8], end: usize) -> Result<(), AllocError>
    requires { end < length line.old }
    ensures text { OnOk result (text.new.items ≡ text.old.items ++ (take end line.old ++ 13 ∷ [])) }
    ensures line { take end line.new ≡ take end line.old }
{
    line[end] = b'\r';
    text.extend_from_slice(&line[..end + 1])
}

/// Writes the entries that have room behind the beginning of a line. Returns how many these are, and where they end.
fn write_run(line: &mut [u8], begun: usize, entries: &[NetNode]) -> (usize, usize)
    requires line { length line.old ≡ LINE_ROOM + 1 }
    requires begun { begun ≤ 8 }
    ensures some { 0 < length entries.now → 0 < result.0 }
    ensures within { result.0 ≤ length entries.now }
    ensures end { result.1 ≡ begun + length (entries_text None (take result.0 entries.now)) }
    ensures room { result.1 ≤ LINE_ROOM }
    ensures full { result.0 < length entries.now → LINE_ROOM < begun + length (entries_text None (take (result.0 + 1) entries.now)) }
    ensures written { take result.1 line.new ≡ take begun line.old ++ entries_text None (take result.0 entries.now) }
{
    let mut at = begun;
    let mut before = None;
    for (i, entry) in entries.iter().enumerate() {
        let end = at + entry_len(before, *entry);
        if end > LINE_ROOM {
            return (i, at);
        }
        write_entry(line, end, before, *entry);
        at = end;
        before = Some(entry.net);
    }
    (entries.len(), at)
}

fn shows_net(before: Option<u16>, net: u16) -> bool
    ensures { result ≡ shows_net before net }
{
    before != Some(net)
}

fn entry_len(before: Option<u16>, entry: NetNode) -> usize
    ensures exact { result ≡ length (entry_text before entry) }
    ensures small { result ≤ 12 }
{
    if shows_net(before, entry.net) {
        decimal_len(entry.net) + decimal_len(entry.node) + 2
    } else {
        decimal_len(entry.node) + 1
    }
}

fn decimal_len(n: u16) -> usize
    ensures exact { result ≡ length (decimal n) }
    ensures small { result ≤ 5 }
{
    match n {
        0..=9 => 1,
        10..=99 => 2,
        100..=999 => 3,
        1000..=9999 => 4,
        _ => 5,
    }
}

fn write_entry(line: &mut [u8], end: usize, before: Option<u16>, entry: NetNode)
    requires room { length (entry_text before entry) ≤ end }
    requires end { end ≤ length line.old }
    ensures { take end line.new ≡ take (end - length (entry_text before entry)) line.old ++ entry_text before entry }
{
    let start = write_token(line, end, before, entry);
    line[start - 1] = b' ';
}

/// Writes the entry without its blank, so that it ends at `end`, and returns where it starts.
fn write_token(line: &mut [u8], end: usize, before: Option<u16>, entry: NetNode) -> usize
    requires room { length (entry_token before entry) ≤ end }
    requires end { end ≤ length line.old }
    ensures start { result + length (entry_token before entry) ≡ end }
    ensures written { drop result line.new ≡ entry_token before entry ++ drop end line.old }
    ensures front { take result line.new ≡ take result line.old }
{
    let node = write_digits(u64::from(entry.node), line, end);
    if !shows_net(before, entry.net) {
        return node;
    }
    line[node - 1] = b'/';
    write_digits(u64::from(entry.net), line, node - 1)
}
