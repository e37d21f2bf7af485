//! The entries of all SEEN-BY or PATH lines of a text.

ghost use Rattle.std.specs.Prelude.{◌≡◌, ◌<◌, ◌^◌, IfOk};
ghost use Rattle.echo_text.specs.{Lines.lines, Tail.all_dropped, Tail.all_entries, Tail.lists_of};

use crate::lines::split_line;
use crate::words::after_word;
use echo_addr::{NetNode, add_list};
use std::alloc::AllocError;

/// The entries of the lines that begin with the word, in order and in a vector, and how many tokens were dropped.
pub(crate) fn entries_into(
    mut found: Vec<NetNode>,
    word: &[u8],
    tail: &[u8],
) -> Result<(Vec<NetNode>, usize), AllocError>
    requires { all_dropped (lists_of word.now (lines tail.now)) < 2 ^ 64 }
    ensures entries { IfOk result (λ r. r.0.items ≡ all_entries (lists_of word.now (lines tail.now))) }
    ensures dropped { IfOk result (λ r. r.1 ≡ all_dropped (lists_of word.now (lines tail.now))) }
{
    found.clear();
    let mut dropped = 0;
    let mut rest = tail;
    'lines: while !rest.is_empty() {
        let (line, after) = split_line(rest);
        if let Some(list) = after_word(word, line) {
            dropped += add_list(&mut found, list)?;
        }
        rest = after;
    }
    Ok((found, dropped))
}
