//! The content of a line of a text: a subfield, cut if that has less room, or a line of the body.
ghost use Rattle.std.specs.Prelude.{◌≡◌, IfOk, MatchOption, None, Some, take};
ghost use Rattle.echo_text.specs.Lines.{lines};
ghost use Rattle.echo_jam.specs.Fields as contents;
ghost use Rattle.echo_jam.specs.Fields.{content_cut, content_of, cuts_in};

use echo_stored::behind_mark;
use echo_text::{after_word, is_control, split_line, trimmed};
use std::alloc::AllocError;

/// How many bytes the subfield of an id has at most.
pub(crate) const MOST_OF_ID: usize = 100;

/// That of the program that wrote the message, and of other kludge lines.
const MOST_OF_PROGRAM: usize = 40;

const MOST_OF_CONTROL: usize = 255;

/// That of PATH and SEEN-BY lines: as many as four bytes count.
const MOST_OF_ALL: usize = 4_294_967_295;

/// The content of a subfield: its kind, its most bytes, and the bytes.
#[derive(Clone, Copy)]
pub(crate) struct LineContent<'a> {
    pub(crate) kind: u16,
    pub(crate) most: usize,
    pub(crate) bytes: &'a [u8],
}

pub(crate) fn content_of(line: &[u8]) -> Option<LineContent<'_>>
    ensures { MatchOption result (content_of line.now ≡ None) (λ c. content_of line.now ≡ Some (record { kind = c.kind; most = c.most; bytes = c.bytes.now })) }
{
    if let Some(id) = after_word(b"\x01MSGID:", line) {
        Some(content(4, MOST_OF_ID, id))
    } else if let Some(id) = after_word(b"\x01REPLY:", line) {
        Some(content(5, MOST_OF_ID, id))
    } else if let Some(program) = after_word(b"\x01PID:", line) {
        Some(content(7, MOST_OF_PROGRAM, program))
    } else if let Some(list) = after_word(b"\x01PATH:", line) {
        Some(content(2002, MOST_OF_ALL, list))
    } else if let Some(list) = after_word(b"SEEN-BY:", line) {
        Some(content(2001, MOST_OF_ALL, list))
    } else if is_control(line) {
        Some(content(2000, MOST_OF_CONTROL, behind_mark(line)))
    } else {
        None
    }
}

fn content(kind: u16, most: usize, bytes: &[u8]) -> LineContent<'_>
    ensures { Some (record { kind = result.kind; most = result.most; bytes = result.bytes.now }) ≡ contents.content kind most bytes.now }
{
    LineContent {
        kind,
        most,
        bytes: trimmed(bytes),
    }
}

pub(crate) fn front(bytes: &[u8], most: usize) -> &[u8]
    ensures { result.now ≡ take most bytes.now }
{
    &bytes[..most.min(bytes.len())]
}

pub(crate) fn cuts_in(text: &[u8]) -> Result<u64, AllocError>
    ensures { IfOk result (λ n. n ≡ cuts_in (lines text.now)) }
{
    let mut rest = text;
    let mut count: u64 = 0;
    'lines: while !rest.is_empty() {
        let (line, after) = split_line(rest);
        count = count.checked_add(cut(line)).ok_or(AllocError)?;
        rest = after;
    }
    Ok(count)
}

fn cut(line: &[u8]) -> u64
    ensures { result ≡ content_cut (content_of line.now) }
{
    match content_of(line) {
        Some(content) if content.most < content.bytes.len() => 1,
        _ => 0,
    }
}
