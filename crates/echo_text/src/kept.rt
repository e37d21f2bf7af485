//! The lines of a text that travel unchanged.

use crate::found::{first_id, last_tear, last_with};
use crate::line_slices::LineSlices;
use crate::lines::push_lines;
use crate::tail::{kept_len, push_kept};
use crate::words::{MSGID, ORIGIN, REPLY};
use echo_addr::Items;
use std::alloc::{AllocError, Global};
use std::hash::{Hash, Hasher};
use std::marker::Model;

/// Lines one after another in memory, each with its 0D. Contracts see the list of the lines.
#[derive(Debug, Drop)]
pub struct Lines {
    text: Items<u8>,
}

impl Model for Lines {
    ghost use Rattle.std.specs.Prelude.{ℕ, List};

    ghost Value = { List (List ℕ) };

    ghost use Rattle.echo_text.specs.Lines.{lines};
    ghost use Rattle.echo_text.specs.Echo.{HasEndedLines};

    ghost view = { λ l. lines l.text };

    ghost invariant = { λ l. HasEndedLines l.text };
}

impl Lines {
    ghost use Rattle.std.specs.Prelude.{◌≡◌, IfOk};
    ghost use Rattle.std.specs.List.{flat_map};
    ghost use Rattle.echo_text.specs.Lines.{lines};
    ghost use Rattle.echo_text.specs.Echo.{HasEndedLines, ended};

    /// The lines of the text; each has its 0D.
    pub fn of_text(text: Vec<u8>) -> Lines
        requires { HasEndedLines text.items }
        ensures { result ≡ lines text.items }
    {
        Lines {
            text: Items::new(text),
        }
    }

    /// The lines one after another, each with its 0D.
    pub fn as_text(&self) -> &[u8]
        ensures bytes { result.now ≡ flat_map ended self.now }
        ensures lines { lines result.now ≡ self.now }
    {
        self.text.as_slice()
    }

    /// The lines one by one. Takes no memory.
    pub fn iter(&self) -> LineSlices<'_>
        ensures { result ≡ self.now }
    {
        LineSlices::new(self.as_text(), &[])
    }

    /// The text of the lines.
    pub fn into_text(self) -> Vec<u8>
        ensures { result.items ≡ flat_map ended self }
    {
        self.text.into_vec()
    }

    /// A copy of the lines.
    pub fn copy(&self, alloc: Global) -> Result<Lines, AllocError>
        ensures { IfOk result (λ lines. lines ≡ self.now) }
    {
        let text = Vec::from_slice(alloc, self.as_text())?;
        Ok(Lines::of_text(text))
    }
}

impl PartialEq for Lines {
    ghost use Rattle.std.specs.Str.{bytes_eq};
    ghost use Rattle.std.specs.Cmp.{nat_eq_equiv, partial_equiv_from_equiv};
    ghost use Rattle.std.specs.Cmp.Lexicographic.{lists_per, pointwise};

    ghost eq = { pointwise bytes_eq };

    ghost laws = { lists_per (lists_per (partial_equiv_from_equiv nat_eq_equiv)) };

    fn eq(&self, other: &Self) -> bool {
        self.text == other.text
    }
}

impl Eq for Lines {
    ghost use Rattle.std.specs.Cmp.{nat_eq_equiv};
    ghost use Rattle.std.specs.Cmp.Lexicographic.{lists_equiv};

    ghost laws = { lists_equiv (lists_equiv nat_eq_equiv) };
}

impl Hash for Lines {
    ghost use Rattle.std.specs.List.{flat_map};
    ghost use Rattle.std.specs.Hash as fed;
    ghost use Rattle.std.specs.Hash.{same_Alike};
    ghost use Rattle.std.specs.Cmp.Lexicographic.{bytes_decides, pointwise_decides};
    ghost use Rattle.echo_text.specs.Echo.{ended};

    ghost hash_input = { λ lines. fed.slice fed.u8 (flat_map ended lines) };

    ghost respects_eq = { (same_Alike (λ lines. fed.slice fed.u8 (flat_map ended lines)) (pointwise_decides bytes_decides)).fed };

    fn hash<H: Hasher>(&self, state: &mut H) {
        self.as_text().hash(state);
    }
}

/// The kept lines of a text, slices of it: the lines of its body, and those of its control tail that
/// are kept.
#[derive(Debug, Drop)]
pub struct KeptView<'a> {
    body: &'a [u8],
    tail: &'a [u8],
}

impl<'a> Model for KeptView<'a> {
    ghost use Rattle.std.specs.Prelude.{ℕ, List, ◌++◌, filter};

    ghost Value = { List (List ℕ) };

    ghost use Rattle.echo_text.specs.Lines.{lines};
    ghost use Rattle.echo_text.specs.Tail.{is_kept_control};

    ghost view = { λ k. lines k.body.now ++ filter is_kept_control (lines k.tail.now) };
}

impl<'a> KeptView<'a> {
    ghost use Rattle.std.specs.Prelude.{◌≡◌, ◌++◌, filter, IfOk, option_copied};
    ghost use Rattle.echo_text.specs.Lines.{lines};
    ghost use Rattle.echo_text.specs.Tail.{is_kept_control};
    ghost use Rattle.echo_text.specs.Echo.{msgid_of, origin_of, reply_of, tear_of};

    pub(crate) fn new(body: &'a [u8], tail: &'a [u8]) -> KeptView<'a>
        ensures { result ≡ lines body.now ++ filter is_kept_control (lines tail.now) }
    {
        KeptView { body, tail }
    }

    /// The lines one by one, slices of the text. Takes no memory.
    pub fn iter(&self) -> LineSlices<'a>
        ensures { result ≡ self.now }
    {
        LineSlices::new(self.body, self.tail)
    }

    /// A copy of the lines in the vector, whose old content is dropped.
    pub fn lines_into(&self, mut text: Vec<u8>) -> Result<Lines, AllocError>
        ensures { IfOk result (λ lines. lines ≡ self.now) }
    {
        let room = self.body.len().saturating_add(1);
        text.clear();
        text.reserve_exact(room.saturating_add(kept_len(self.tail)))?;
        push_lines(&mut text, self.body)?;
        push_kept(&mut text, self.tail)?;
        Ok(Lines::of_text(text))
    }

    /// The id of the message, as `Echo` has it.
    pub fn msgid(&self) -> Option<&[u8]>
        ensures { option_copied result ≡ msgid_of self.now }
    {
        match first_id(MSGID, self.body) {
            Some(id) => Some(id),
            None => first_id(MSGID, self.tail),
        }
    }

    /// The id of the message replied to, as `Echo` has it.
    pub fn reply(&self) -> Option<&[u8]>
        ensures { option_copied result ≡ reply_of self.now }
    {
        match first_id(REPLY, self.body) {
            Some(id) => Some(id),
            None => first_id(REPLY, self.tail),
        }
    }

    /// The last tear line. A tail has none.
    pub fn tear(&self) -> Option<&[u8]>
        ensures { option_copied result ≡ tear_of self.now }
    {
        last_tear(self.body)
    }

    /// The last origin line. A tail has none.
    pub fn origin(&self) -> Option<&[u8]>
        ensures { option_copied result ≡ origin_of self.now }
    {
        last_with(ORIGIN, self.body)
    }
}
