//! Lines of a text, each ended by 0D (FTS-0001).

ghost use Rattle.std.specs.Prelude.{◌≡◌, ◌+◌, ◌<◌, ◌≤◌, [], ◌∷◌, ◌++◌, length, take, drop, if◌then◌else◌, OnOk, OnErr};
ghost use Rattle.std.specs.List.{flat_map};
ghost use Rattle.echo_text.specs.{Lines.first_line, Lines.later_lines, Lines.lines, Echo.HasEndedLines, Echo.ended};

use memchr::{memchr, memrchr};
use std::alloc::AllocError;

const RETURN: u8 = b'\r';

/// The first line of a text, without its 0D, and the bytes after it (FTS-0001). Takes no memory.
pub fn split_line(text: &[u8]) -> (&[u8], &[u8])
    ensures first { result.0.now ≡ first_line (lines text.now) }
    ensures later { lines result.1.now ≡ later_lines (lines text.now) }
    ensures both { 0 < length text.now → lines text.now ≡ result.0.now ∷ lines result.1.now }
    ensures shorter { 0 < length text.now → length result.1.now < length text.now }
    ensures room { length result.0.now + length result.1.now ≤ length text.now }
{
    match memchr(RETURN, text) {
        Some(end) => (&text[..end], &text[end + 1..]),
        None => (text, &text[text.len()..]),
    }
}

pub(crate) fn last_line_start(text: &[u8]) -> usize
    requires { 0 < length text.now }
    ensures within { result < length text.now }
    ensures before { HasEndedLines (take result text.now) }
    ensures last { lines (drop result text.now) ≡ first_line (lines (drop result text.now)) ∷ [] }
{
    match memrchr(RETURN, &text[..text.len() - 1]) {
        Some(at) => at + 1,
        None => 0,
    }
}

/// Adds the line and its 0D to a text (FTS-0001). Out of memory leaves the text as it was.
pub fn push_line(text: &mut Vec<u8>, line: &[u8]) -> Result<(), AllocError>
    ensures ok { OnOk result (text.new.items ≡ text.old.items ++ ended line.now) }
    ensures err { OnErr result (text.new.items ≡ text.old.items) }
{
    let before = text.len();
    text.extend_from_slice(line)?;
    if text.push(RETURN).is_err() {
        text.truncate(before);
        return Err(AllocError);
    }
    Ok(())
}

/// Adds the lines of the bytes to a text, each with its 0D. Out of memory leaves the text as it was.
pub fn push_lines(text: &mut Vec<u8>, bytes: &[u8]) -> Result<(), AllocError>
    ensures ok { OnOk result (text.new.items ≡ text.old.items ++ flat_map ended (lines bytes.now)) }
    ensures err { OnErr result (text.new.items ≡ text.old.items) }
{
    if !is_ended(bytes) {
        return push_line(text, bytes);
    }
    text.extend_from_slice(bytes)?;
    Ok(())
}

fn is_ended(bytes: &[u8]) -> bool
    ensures { flat_map ended (lines bytes.now) ≡ (if result then bytes.now else bytes.now ++ 13 ∷ []) }
{
    if bytes.is_empty() {
        return true;
    }
    bytes[bytes.len() - 1] == RETURN
}
