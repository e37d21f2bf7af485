//! An echomail text by its parts, owned or as a view.

use crate::found::{first_id, last_tear, last_with};
use crate::kept::{KeptView, Lines};
use crate::words::{MSGID, ORIGIN, REPLY};
use echo_addr::{Items, NetNode};
use std::alloc::{AllocError, Global};
use std::marker::Model;

/// A parsed echomail text (FTS-0004). The tag has 1 to 60 bytes from `!` to `~` without small letters. No kept line
/// has 00 or 0D; the kludge lines at their end are no SEEN-BY, PATH or blank lines. `seen` ascends without repeats;
/// `path` has its entries in order, with repeats.
#[derive(Debug, Drop, PartialEq, Eq)]
pub struct Echo {
    pub tag: Items<u8>,
    pub kept: Lines,
    pub seen: Items<NetNode>,
    pub path: Items<NetNode>,
}

impl Model for Echo {
    ghost use Rattle.echo_text.specs.Echo.{EchoText, IsEcho};

    ghost Value = { EchoText };

    ghost view = { λ e. record { tag = e.tag; kept = e.kept; seen = e.seen; path = e.path } };

    ghost invariant = { λ e. IsEcho (record { tag = e.tag; kept = e.kept; seen = e.seen; path = e.path }) };

    ghost inverse = { λ e. record { tag = e.tag; kept = e.kept; seen = e.seen; path = e.path } };
}

/// Vectors that a text is read into. They may hold anything.
#[derive(Drop)]
pub struct EchoRoom {
    pub tag: Vec<u8>,
    pub kept: Vec<u8>,
    pub seen: Vec<NetNode>,
    pub path: Vec<NetNode>,
}

impl EchoRoom {
    /// Empty vectors. Takes no memory.
    pub fn new(alloc: Global) -> EchoRoom {
        EchoRoom {
            tag: Vec::new(alloc),
            kept: Vec::new(alloc),
            seen: Vec::new(alloc),
            path: Vec::new(alloc),
        }
    }
}

/// The tag and the kept lines over a text: each kept line is a slice of it.
#[derive(Debug, Drop)]
pub struct FrontView<'a> {
    pub tag: Items<u8>,
    pub kept: KeptView<'a>,
}

/// An echomail text in the same way, with its lists.
#[derive(Debug, Drop)]
pub struct EchoView<'a> {
    pub tag: Items<u8>,
    pub kept: KeptView<'a>,
    pub seen: Items<NetNode>,
    pub path: Items<NetNode>,
}

impl<'a> Model for EchoView<'a> {
    ghost use Rattle.echo_text.specs.Echo.{EchoText, IsEcho};

    ghost Value = { EchoText };

    ghost view = { λ e. record { tag = e.tag; kept = e.kept; seen = e.seen; path = e.path } };

    ghost invariant = { λ e. IsEcho (record { tag = e.tag; kept = e.kept; seen = e.seen; path = e.path }) };
}

impl Echo {
    ghost use Rattle.std.specs.Prelude.{◌≡◌, option_copied};
    ghost use Rattle.echo_text.specs.Echo.{msgid_of, origin_of, reply_of, tear_of};

    /// The id of the message (FTS-0009): the text after the colon of the first MSGID line with more
    /// than blanks there, without blanks at both ends.
    #[tactic(auto, unfolding(crate::specs::Echo::msgid_of))]
    pub fn msgid(&self) -> Option<&[u8]>
        ensures { option_copied result ≡ msgid_of self.now.kept }
    {
        first_id(MSGID, self.kept.as_text())
    }

    /// The id of the message replied to, read from the REPLY lines in the same way (FTS-0009).
    #[tactic(auto, unfolding(crate::specs::Echo::reply_of))]
    pub fn reply(&self) -> Option<&[u8]>
        ensures { option_copied result ≡ reply_of self.now.kept }
    {
        first_id(REPLY, self.kept.as_text())
    }

    /// The last tear line, without the line feeds at its front (FTS-0004).
    #[tactic(auto, unfolding(crate::specs::Echo::tear_of))]
    pub fn tear(&self) -> Option<&[u8]>
        ensures { option_copied result ≡ tear_of self.now.kept }
    {
        last_tear(self.kept.as_text())
    }

    /// The last origin line, without the line feeds at its front (FTS-0004).
    #[tactic(auto, unfolding(crate::specs::Echo::origin_of))]
    pub fn origin(&self) -> Option<&[u8]>
        ensures { option_copied result ≡ origin_of self.now.kept }
    {
        last_with(ORIGIN, self.kept.as_text())
    }

    /// The vectors of an echo that is needed no more.
    pub fn into_room(self) -> EchoRoom {
        EchoRoom {
            tag: self.tag.into_vec(),
            kept: self.kept.into_text(),
            seen: self.seen.into_vec(),
            path: self.path.into_vec(),
        }
    }
}

impl<'a> FrontView<'a> {
    ghost use Rattle.std.specs.Prelude.{◌≡◌, option_copied};
    ghost use Rattle.echo_text.specs.Echo.{msgid_of};

    /// The id of the message, as `Echo` has it.
    pub fn msgid(&self) -> Option<&[u8]>
        ensures { option_copied result ≡ msgid_of self.now.kept }
    {
        self.kept.msgid()
    }
}

impl<'a> EchoView<'a> {
    ghost use Rattle.std.specs.Prelude.{◌≡◌, IfOk, option_copied};
    ghost use Rattle.echo_text.specs.Echo.{msgid_of};

    /// An echo of the same parts, with a copy of each.
    pub fn to_echo(&self, alloc: Global) -> Result<Echo, AllocError>
        ensures { IfOk result (λ echo. echo ≡ self.now) }
    {
        let tag = Vec::from_slice(alloc, self.tag.as_slice())?;
        let kept = self.kept.lines_into(Vec::new(alloc))?;
        let seen = Vec::from_slice(alloc, self.seen.as_slice())?;
        let path = Vec::from_slice(alloc, self.path.as_slice())?;
        Ok(Echo {
            tag: Items::new(tag),
            kept,
            seen: Items::new(seen),
            path: Items::new(path),
        })
    }

    /// The id of the message, as `Echo` has it.
    pub fn msgid(&self) -> Option<&[u8]>
        ensures { option_copied result ≡ msgid_of self.now.kept }
    {
        self.kept.msgid()
    }
}
