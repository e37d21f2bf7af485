//! The control lines at the end of a text.

ghost use Rattle.std.specs.Prelude.{◌≡◌, ◌≤◌, ◌++◌, length, take, drop, filter, OnOk};
ghost use Rattle.std.specs.List.{flat_map};
ghost use Rattle.echo_text.specs.{Lines.lines, Echo.ended, Tail.body, Tail.is_kept_control, Tail.tail};

use crate::lines::{last_line_start, push_line, split_line};
use crate::words::{is_kept_control, is_tail_line};
use std::alloc::AllocError;

/// The bytes before the control tail, and those of the tail.
pub(crate) fn split_tail(text: &[u8]) -> (&[u8], &[u8])
    ensures body { lines result.0.now ≡ body (lines text.now) }
    ensures tail { lines result.1.now ≡ tail (lines text.now) }
{
    let at = body_len(text);
    (&text[..at], &text[at..])
}

fn body_len(text: &[u8]) -> usize
    ensures within { result ≤ length text.now }
    ensures body { lines (take result text.now) ≡ body (lines text.now) }
    ensures tail { lines (drop result text.now) ≡ tail (lines text.now) }
{
    let mut end = text.len();
    'ends: while end > 0 {
        let front = &text[..end];
        let start = last_line_start(front);
        let (line, _) = split_line(&front[start..]);
        if !is_tail_line(line) {
            return end;
        }
        end = start;
    }
    end
}

pub(crate) fn kept_len(tail: &[u8]) -> usize {
    let mut kept: usize = 0;
    let mut rest = tail;
    'lines: while !rest.is_empty() {
        let (line, after) = split_line(rest);
        if is_kept_control(line) {
            kept = kept.saturating_add(line.len()).saturating_add(1);
        }
        rest = after;
    }
    kept
}

pub(crate) fn push_kept(text: &mut Vec<u8>, tail: &[u8]) -> Result<(), AllocError>
    ensures { OnOk result (text.new.items ≡ text.old.items ++ flat_map ended (filter is_kept_control (lines tail.now))) }
{
    let mut rest = tail;
    'lines: while !rest.is_empty() {
        let (line, after) = split_line(rest);
        if is_kept_control(line) {
            push_line(text, line)?;
        }
        rest = after;
    }
    Ok(())
}
