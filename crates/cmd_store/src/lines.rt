//! The lines of what `post`, `scan`, `purge` and `toss` did.
ghost use Rattle.std.specs.Prelude.{◌≡◌, ◌+◌, ◌≤◌, ◌++◌, decimal, length, OnOk, vec_capacity, vec_len};
ghost use Rattle.echo_text.specs.Ids.{id_of};
ghost use Rattle.cmd_store.specs.Lines.{HasTallyRoom, posted_line, purged_line, sent_line, tally_line};

use echo_addr::Address;
use echo_charset::written;
use echo_steps::Tally;
use echo_text::MsgId;
use itoa::Buffer;
use std::alloc::{AllocError, Global};
use std::io::Write;

/// Adds the line of a posting: the tag in upper case, and the id that this system and this serial make.
pub fn push_posted(
    alloc: Global,
    lines: &mut Vec<u8>,
    tag: &[u8],
    system: Address,
    serial: u32,
) -> Result<(), AllocError>
    ensures { OnOk result (lines.new.items ≡ lines.old.items ++ posted_line tag.now (id_of system serial)) }
{
    let tag = tag.to_ascii_uppercase(alloc)?;
    let id = MsgId::write(alloc, system, serial)?;
    lines.extend_from_slice(b"posted ")?;
    lines.extend_from_slice(&tag)?;
    lines.push(b' ')?;
    lines.extend_from_slice(&id)?;
    lines.push(b'\n')?;
    Ok(())
}

/// Adds the line of a packet to this system, with so many messages and bytes.
pub(crate) fn push_sent(
    lines: &mut Vec<u8>,
    to: Address,
    messages: usize,
    bytes: usize,
) -> Result<(), AllocError>
    ensures { OnOk result (lines.new.items ≡ lines.old.items ++ sent_line to messages bytes) }
{
    written(writeln!(lines, "packet {to} {messages} messages {bytes} bytes"))
}

/// Adds the line of how many messages a purge changed.
pub fn push_purged(lines: &mut Vec<u8>, count: u64) -> Result<(), AllocError>
    ensures { OnOk result (lines.new.items ≡ lines.old.items ++ purged_line count) }
{
    written(writeln!(lines, "purged {count}"))
}

/// How many bytes the line of what became of the messages of a packet has at most.
pub const MOST_TALLY: usize = 170;

/// Adds the line of what became of the messages of a packet. There is to be room for `MOST_TALLY` bytes.
pub fn push_tally(lines: &mut Vec<u8>, tally: Tally)
    requires { HasTallyRoom lines.old }
    ensures { lines.new.items ≡ lines.old.items ++ tally_line tally }
{
    push_count(lines, b"filed ", tally.filed);
    push_count(lines, b" known ", tally.known);
    push_count(lines, b" notecho ", tally.not_echo);
    push_count(lines, b" badtag ", tally.bad_tag);
    push_count(lines, b" noarea ", tally.no_area);
    push_count(lines, b" notlinked ", tally.not_linked);
    lines.extend_from_slice(b"\n").unwrap();
}

fn push_count(lines: &mut Vec<u8>, word: &[u8], count: u64)
    requires { vec_len lines.old + (length word.now + 20) ≤ vec_capacity lines.old }
    ensures added { lines.new.items ≡ lines.old.items ++ (word.now ++ decimal count) }
    ensures short { vec_len lines.new ≤ vec_len lines.old + (length word.now + 20) }
    ensures room { vec_capacity lines.old ≤ vec_capacity lines.new }
{
    let mut digits = Buffer::new();
    lines.extend_from_slice(word).unwrap();
    lines
        .extend_from_slice(digits.format(count).as_bytes())
        .unwrap();
}
