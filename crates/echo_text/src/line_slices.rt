//! The kept lines of a text one by one, each a slice of it.
ghost use Rattle.std.specs.Prelude.{◌≡◌, [], ◌∷◌, filter, MatchOption};
ghost use Rattle.std.specs.Iterator.{YieldsFirstRef, item_count};
ghost use Rattle.echo_text.specs.{Lines.lines, Tail.is_kept_control};

use crate::lines::split_line;
use crate::words::is_kept_control;
use std::marker::Model;

/// The kept lines that are left, in order. An iterator over slices, which takes no memory.
#[derive(Drop)]
pub struct LineSlices<'a> {
    body: &'a [u8],
    tail: &'a [u8],
}

impl<'a> Model for LineSlices<'a> {
    ghost use Rattle.std.specs.Prelude.{ℕ, List, ◌++◌, filter};

    ghost Value = { List (List ℕ) };

    ghost use Rattle.echo_text.specs.Lines.{lines};
    ghost use Rattle.echo_text.specs.Tail.{is_kept_control};

    ghost view = { λ k. lines k.body.now ++ filter is_kept_control (lines k.tail.now) };
}

impl<'a> LineSlices<'a> {
    ghost use Rattle.std.specs.Prelude.{◌≡◌, ◌++◌, filter};
    ghost use Rattle.echo_text.specs.Lines.{lines};
    ghost use Rattle.echo_text.specs.Tail.{is_kept_control};

    /// The lines of a body, then those of a control tail that are kept.
    pub(crate) fn new(body: &'a [u8], tail: &'a [u8]) -> LineSlices<'a>
        ensures { result ≡ lines body.now ++ filter is_kept_control (lines tail.now) }
    {
        LineSlices { body, tail }
    }
}

impl<'a> Iterator for LineSlices<'a> {
    type Item = &'a [u8];

    ghost next_gives = { YieldsFirstRef (λ left. left) };

    ghost remaining = { item_count (λ left. left) };

    fn next(&mut self) -> Option<&'a [u8]> {
        if !self.body.is_empty() {
            let (line, after) = split_line(self.body);
            self.body = after;
            return Some(line);
        }
        let (line, after) = next_kept(self.tail)?;
        self.tail = after;
        Some(line)
    }
}

fn next_kept(tail: &[u8]) -> Option<(&[u8], &[u8])>
    ensures { MatchOption result (filter is_kept_control (lines tail.now) ≡ [])
        (λ r. filter is_kept_control (lines tail.now) ≡ r.0.now ∷ filter is_kept_control (lines r.1.now)) }
{
    let mut rest = tail;
    'lines: while !rest.is_empty() {
        let (line, after) = split_line(rest);
        if is_kept_control(line) {
            return Some((line, after));
        }
        rest = after;
    }
    None
}
