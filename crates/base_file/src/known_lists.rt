//! SEEN-BY and PATH lines of earlier texts. Where a text ends with the same lines, they are not read again.
ghost use Rattle.std.specs.Prelude.{◌≡◌, ◌++◌, ◌<◌, ◌≤◌, length, drop, IfOk, IfSome};
ghost use Rattle.echo_text.specs.Echo.{IsEcho};
ghost use Rattle.echo_filed.specs.Written.{text_of};
ghost use Rattle.base_file.specs.Lists.{lines_of};

use echo_addr::{Items, NetNode};
use echo_text::Echo;
use std::alloc::{AllocError, Global};
use std::marker::Model;

/// The lines as the tosser writes them, and their entries.
#[derive(Drop)]
pub(crate) struct KnownLists {
    lines: Vec<u8>,
    seen: Vec<NetNode>,
    path: Vec<NetNode>,
}

impl Model for KnownLists {
    ghost use Rattle.base_file.specs.Lists as model;

    ghost Value = { model.KnownLists };

    ghost view = { λ k. record { lines = k.lines.items; seen = k.seen.items; path = k.path.items } };

    ghost invariant = { λ k. model.AreWritten (record { lines = k.lines.items; seen = k.seen.items; path = k.path.items }) };
}

impl KnownLists {
    /// No lines. Takes no memory.
    #[tactic(auto, using(crate::proofs::KnownLists::nothing_written))]
    pub(crate) fn none(alloc: Global) -> KnownLists {
        KnownLists {
            lines: Vec::new(alloc),
            seen: Vec::new(alloc),
            path: Vec::new(alloc),
        }
    }

    /// The lists of this text, in the vectors of others.
    #[tactic(auto, using(crate::proofs::KnownLists::lists_written))]
    pub(crate) fn replaced(self, echo: &Echo, text: &[u8]) -> Result<KnownLists, AllocError>
        requires { text.now ≡ text_of echo.now }
    {
        let KnownLists {
            mut lines,
            mut seen,
            mut path,
        } = self;
        lines.clear();
        lines.extend_from_slice(&text[front_len(echo, text)..])?;
        seen.clear();
        seen.extend_from_slice(echo.seen.as_slice())?;
        path.clear();
        path.extend_from_slice(echo.path.as_slice())?;
        Ok(KnownLists { lines, seen, path })
    }

    /// The text before these lines, if it ends with them.
    pub(crate) fn text_before<'t>(&self, text: &'t [u8]) -> Option<&'t [u8]>
        ensures { IfSome result (λ front. text.now ≡ front.now ++ self.now.lines) }
    {
        let lines = self.lines.as_slice();
        if lines.len() > text.len() {
            return None;
        }
        let (front, end) = text.split_at(text.len() - lines.len());
        if end == lines { Some(front) } else { None }
    }

    /// The echo with these lists, if it has none.
    #[tactic(auto, using(crate::proofs::KnownLists::with_lists))]
    pub(crate) fn added_to(&self, echo: Echo) -> Result<Option<Echo>, AllocError>
        ensures text { IfOk result (λ found. IfSome found (λ whole. text_of whole ≡ text_of echo ++ self.now.lines)) }
        ensures echo { IfOk result (λ found. IfSome found IsEcho) }
    {
        let Echo {
            tag,
            kept,
            seen,
            path,
        } = echo;
        if !(seen.is_empty() && path.is_empty()) {
            return Ok(None);
        }
        let mut all_seen = seen.into_vec();
        all_seen.extend_from_slice(self.seen.as_slice())?;
        let mut whole_path = path.into_vec();
        whole_path.extend_from_slice(self.path.as_slice())?;
        Ok(Some(Echo {
            tag,
            kept,
            seen: Items::new(all_seen),
            path: Items::new(whole_path),
        }))
    }
}

#[tactic(auto, using(crate::proofs::KnownLists::front_within, crate::proofs::KnownLists::lines_last))]
fn front_len(echo: &Echo, text: &[u8]) -> usize
    requires { text.now ≡ text_of echo.now }
    ensures within { result ≤ length text.now }
    ensures lines { drop result text.now ≡ lines_of echo.now }
{
    AREA_LEN + echo.tag.as_slice().len() + echo.kept.as_text().len()
}

// The bytes of `AREA:`, and the 0D after the tag.
const AREA_LEN: usize = 6;

/// The number of the lists that the text ends with.
pub(crate) fn place_of(known: &[KnownLists], text: &[u8]) -> Option<usize>
    ensures { IfSome result (λ i. i < length known.now) }
{
    for (i, lists) in known.iter().enumerate() {
        if lists.text_before(text).is_some() {
            return Some(i);
        }
    }
    None
}
