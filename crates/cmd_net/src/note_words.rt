//! The notes on the faults of an area, in words.

use echo_addr::Address;
use echo_charset::{push_word, written};
use std::alloc::AllocError;
use std::io::Write;

/// Where a system stands.
#[derive(Clone, Copy)]
pub enum Place<'n> {
    /// The line of this number in the file with this path.
    Line(&'n str, u64),
    /// The file with this path.
    File(&'n str),
    /// An assumed system has no file.
    Assumed(Address),
}

/// What the given files do not show.
#[derive(Clone, Copy, Debug, PartialEq, Eq)]
pub enum NotSeen {
    /// What lies behind two assumed systems, after a yes.
    AfterYes,
    /// What lies behind two assumed systems, after a V7.
    AfterApart,
    /// What lies behind one assumed system.
    BehindOne,
}

fn push_place(note: &mut Vec<u8>, place: Place<'_>) -> Result<(), AllocError> {
    match place {
        Place::Line(path, number) => push_line(note, path, number),
        Place::File(path) => push_word(note, path.as_bytes()),
        Place::Assumed(system) => push_assumed(note, system),
    }
}

fn push_line(note: &mut Vec<u8>, path: &str, number: u64) -> Result<(), AllocError> {
    push_word(note, path.as_bytes())?;
    written(write!(note, ":{number}"))
}

fn push_assumed(note: &mut Vec<u8>, system: Address) -> Result<(), AllocError> {
    written(write!(note, "assumed {system}"))
}

/// No file has the area of this tag.
pub(crate) fn push_no_such_area(note: &mut Vec<u8>, tag: &[u8]) -> Result<(), AllocError> {
    push_between(
        note,
        b"no file has ",
        tag,
        b": add an AREA line, or look at the spelling",
    )
}

fn push_between(
    note: &mut Vec<u8>,
    before: &[u8],
    word: &[u8],
    after: &[u8],
) -> Result<(), AllocError> {
    note.extend_from_slice(before)?;
    push_word(note, word)?;
    note.extend_from_slice(after)
}

/// Two files have the address.
pub(crate) fn push_two_files(
    note: &mut Vec<u8>,
    one: Place<'_>,
    other: Place<'_>,
    system: Address,
) -> Result<(), AllocError> {
    push_place(note, one)?;
    note.extend_from_slice(b" and ")?;
    push_place(note, other)?;
    written(write!(
        note,
        " are both of {system}: remove one, or correct its SYSTEM line"
    ))
}

/// The same place twice.
pub(crate) fn push_given_twice(note: &mut Vec<u8>, given: Place<'_>) -> Result<(), AllocError> {
    push_place(note, given)?;
    note.extend_from_slice(b" was given twice")
}

/// The system lists itself at this place.
pub(crate) fn push_self_link(
    note: &mut Vec<u8>,
    at: Place<'_>,
    system: Address,
) -> Result<(), AllocError> {
    push_place(note, at)?;
    written(write!(note, ": {system} lists itself: remove it there"))
}

/// The first system lists the second at this place, and no file with the area of this tag is of the second.
pub(crate) fn push_unknown(
    note: &mut Vec<u8>,
    at: Place<'_>,
    from: Address,
    to: Address,
    tag: &[u8],
) -> Result<(), AllocError> {
    push_place(note, at)?;
    push_listing(note, from, to)?;
    push_word(note, tag)?;
    note.extend_from_slice(b" is of: give its file, or remove it there")
}

fn push_listing(note: &mut Vec<u8>, from: Address, to: Address) -> Result<(), AllocError> {
    written(write!(note, ": {from} lists {to}, which no file with "))
}

/// The first system lists the second at the place `at`, and at the place `back` the second does not list it.
pub(crate) fn push_one_sided(
    note: &mut Vec<u8>,
    at: Place<'_>,
    back: Place<'_>,
    from: Address,
    to: Address,
) -> Result<(), AllocError> {
    push_listed_at(note, at, to)?;
    push_lacking_at(note, back, from, to)?;
    push_removed_at(note, at)
}

fn push_listed_at(note: &mut Vec<u8>, at: Place<'_>, to: Address) -> Result<(), AllocError> {
    push_place(note, at)?;
    written(write!(note, " lists {to}, and "))
}

fn push_lacking_at(
    note: &mut Vec<u8>,
    back: Place<'_>,
    from: Address,
    to: Address,
) -> Result<(), AllocError> {
    push_place(note, back)?;
    written(write!(
        note,
        " does not list {from}: add it there, or remove {to} from "
    ))
}

fn push_removed_at(note: &mut Vec<u8>, at: Place<'_>) -> Result<(), AllocError> {
    push_place(note, at)?;
    note.extend_from_slice(b". Mail is lost")
}

/// Both systems have the same net and node.
pub(crate) fn push_same_net_node(
    note: &mut Vec<u8>,
    one: Address,
    other: Address,
) -> Result<(), AllocError> {
    written(write!(
        note,
        "SEEN-BY cannot tell {one} from {other}: give one another address. Mail may be lost"
    ))
}

/// No chain of links joins the systems.
pub(crate) fn push_apart(
    note: &mut Vec<u8>,
    one: Address,
    other: Address,
) -> Result<(), AllocError> {
    written(write!(
        note,
        "no chain of links leads from {one} to {other}: link them, in both files. Mail is lost"
    ))
}

/// These systems form a loop, and two of them are not linked.
pub(crate) fn push_loop(
    note: &mut Vec<u8>,
    round: &[Address],
    one: Address,
    other: Address,
) -> Result<(), AllocError> {
    push_addresses(note, round)?;
    written(write!(
        note,
        " form a loop, and {one} and {other} are not linked: remove a link of the loop, or add the missing ones, in both files. Mail is sent twice"
    ))
}

fn push_addresses(note: &mut Vec<u8>, systems: &[Address]) -> Result<(), AllocError> {
    match systems.split_first() {
        Some((first, more)) => push_first(note, *first, more),
        None => Ok(()),
    }
}

fn push_first(note: &mut Vec<u8>, first: Address, more: &[Address]) -> Result<(), AllocError> {
    written(write!(note, "{first}"))?;
    push_more(note, more)
}

fn push_more(note: &mut Vec<u8>, more: &[Address]) -> Result<(), AllocError> {
    'more: for system in more {
        push_next(note, *system)?;
    }
    Ok(())
}

fn push_next(note: &mut Vec<u8>, system: Address) -> Result<(), AllocError> {
    written(write!(note, ", {system}"))
}

/// What was not seen.
pub(crate) fn push_not_seen(note: &mut Vec<u8>, what: NotSeen) -> Result<(), AllocError> {
    note.extend_from_slice(not_seen_words(what))
}

fn not_seen_words(what: NotSeen) -> &'static [u8] {
    match what {
        NotSeen::AfterYes => b"unseen: a loop outside the given files may still bring mail twice",
        NotSeen::AfterApart => {
            b"unseen: a way outside the given files may join the parts, so V7 is often a false alarm"
        }
        NotSeen::BehindOne => {
            b"assumed: what the assumed system exchanges with others was not seen"
        }
    }
}
