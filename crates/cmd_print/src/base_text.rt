//! The lines of the messages of a base.
ghost use Rattle.std.specs.{Prelude.{◌≡◌, ◌++◌, codes, OnOk}, List.flat_map};
ghost use Rattle.echo_charset.specs.Escaped.{escaped_line};
ghost use Rattle.echo_text.specs.Lines as text_lines;

use echo_charset::{push_escaped, written};
use echo_filed::{Filed, is_stub};
use echo_text::split_line;
use std::alloc::AllocError;
use std::io::Write;

/// The message waits if its index is not below `cursor`.
pub(crate) fn push_message(
    lines: &mut Vec<u8>,
    cursor: usize,
    i: usize,
    message: &Filed,
) -> Result<(), AllocError> {
    push_head(lines, cursor, i, message)?;
    push_escaped(lines, b"date", &message.date)?;
    push_escaped(lines, b"to", message.to_name.as_slice())?;
    push_escaped(lines, b"from", message.from_name.as_slice())?;
    push_escaped(lines, b"subject", message.subject.as_slice())?;
    push_lines(lines, message.echo.kept.as_text())?;
    let seen = message.echo.seen.len();
    let path = message.echo.path.len();
    written(writeln!(lines, "seen {seen} path {path}"))
}

/// Adds the last line of a base: how many messages it has, and how many of them wait.
pub fn push_base_total(
    lines: &mut Vec<u8>,
    messages: usize,
    waiting: usize,
) -> Result<(), AllocError> {
    written(writeln!(lines, "end {messages} messages, {waiting} waiting"))
}

fn push_head(
    lines: &mut Vec<u8>,
    cursor: usize,
    i: usize,
    message: &Filed,
) -> Result<(), AllocError> {
    written(write!(lines, "message {i} area "))?;
    lines.extend_from_slice(message.echo.tag.as_slice())?;
    match message.sender {
        None => lines.extend_from_slice(b" posted")?,
        Some(address) => written(write!(lines, " from {address}"))?,
    }
    let end: &[u8] = match mark_of(cursor, i, message) {
        Some(Mark::Waiting) => b" waiting\n",
        Some(Mark::Purged) => b" purged\n",
        None => b"\n",
    };
    lines.extend_from_slice(end)
}

/// What a list says of a message: it waits for a scan, or only its id is left.
#[derive(Clone, Copy)]
pub(crate) enum Mark {
    Waiting,
    Purged,
}

pub(crate) fn mark_of(cursor: usize, i: usize, message: &Filed) -> Option<Mark> {
    if i >= cursor {
        Some(Mark::Waiting)
    } else if message.echo.msgid().is_some() && is_stub(message) {
        Some(Mark::Purged)
    } else {
        None
    }
}

/// Adds a line for each line of a text.
pub(crate) fn push_lines(lines: &mut Vec<u8>, text: &[u8]) -> Result<(), AllocError>
    ensures { OnOk result (lines.new.items ≡ lines.old.items ++ flat_map (λ line. escaped_line (codes "line") line) (text_lines.lines text.now)) }
{
    let mut rest = text;
    'pieces: while !rest.is_empty() {
        let (line, after) = split_line(rest);
        push_escaped(lines, b"line", line)?;
        rest = after;
    }
    Ok(())
}
