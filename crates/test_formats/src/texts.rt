//! Echomail texts: what they say, and how they are written again.
use crate::samples::{FIRST, without_zero};
use echo_addr::NetNode;
use echo_text::{Echo, EchoView, LineSlices, TextFault, read_text, view_text, write_text};
use std::alloc::Global;
use std::test::Fail;

/// A text, what it says, how many tokens are no entries, and the text that is written for it.
#[derive(Drop)]
struct Said {
    text: &'static [u8],
    tag: &'static [u8],
    kept: &'static [&'static [u8]],
    seen: &'static [(u16, u16)],
    path: &'static [(u16, u16)],
    dropped: usize,
    written: &'static [u8],
}

/// Of an area T, without lines.
const BARE: Said = Said {
    text: b"AREA:T",
    tag: b"T",
    kept: &[],
    seen: &[],
    path: &[],
    dropped: 0,
    written: b"AREA:T\r",
};

const TEXTS: &[Said] = &[
    BARE,
    Said {
        text: b"AREA:T\r\r\n\r",
        ..BARE
    },
    Said {
        text: b"AREA: test \r\nHi\r\n\r\nSEEN-BY: 10/2 1\r",
        tag: b"TEST",
        kept: &[b"\nHi"],
        seen: &[(10, 1), (10, 2)],
        written: b"AREA:TEST\r\nHi\rSEEN-BY: 10/1 2\r",
        ..BARE
    },
    Said {
        text: b"AREA:T\rx\r\x01FOO\rSEEN-BY: 10/2\r\x01MSGID: a 00000001\r",
        kept: &[b"x", b"\x01FOO", b"\x01MSGID: a 00000001"],
        seen: &[(10, 2)],
        written: b"AREA:T\rx\r\x01FOO\r\x01MSGID: a 00000001\rSEEN-BY: 10/2\r",
        ..BARE
    },
    Said {
        text: b"AREA:T\r\x01PATH: 65536/1 65535/65535 70000 5\r",
        path: &[(65535, 65535), (65535, 5)],
        dropped: 2,
        written: b"AREA:T\r\x01PATH: 65535/65535 5\r",
        ..BARE
    },
    Said {
        text: b"AREA:T\rSEEN-BY: 10/2\rx\rSEEN-BY:\r",
        kept: &[b"SEEN-BY: 10/2", b"x"],
        written: b"AREA:T\rSEEN-BY: 10/2\rx\r",
        ..BARE
    },
    Said {
        text: b"AREA:T\rSEEN-BY: 10/2\rSEEN-BY: 1\r\x01PATH: 10/1 2\r\x01PATH: 3\r",
        seen: &[(10, 2)],
        path: &[(10, 1), (10, 2)],
        dropped: 2,
        written: b"AREA:T\rSEEN-BY: 10/2\r\x01PATH: 10/1 2\r",
        ..BARE
    },
    Said {
        text: b"AREA:T\r\n\n--- x\r---y\r",
        kept: &[b"\n\n--- x", b"---y"],
        written: b"AREA:T\r\n\n--- x\r---y\r",
        ..BARE
    },
    Said {
        text: b"AREA:T\r\rx\r\r \r\nSEEN-BY: 10/1\r\r\t\r\x01FOO\r\r",
        kept: &[b"", b"x", b"\x01FOO"],
        seen: &[(10, 1)],
        written: b"AREA:T\r\rx\r\x01FOO\rSEEN-BY: 10/1\r",
        ..BARE
    },
];

fn are_lines<'a>(found: LineSlices<'a>, wanted: &[&[u8]]) -> bool {
    found.eq(wanted.iter().copied())
}

fn are_entries(found: &[NetNode], wanted: &[(u16, u16)]) -> bool {
    found.len() == wanted.len()
        && found
            .iter()
            .zip(wanted)
            .all(|(entry, parts)| (entry.net, entry.node) == *parts)
}

fn says(echo: &Echo, said: &Said) -> bool {
    echo.tag.as_slice() == said.tag
        && are_lines(echo.kept.iter(), said.kept)
        && are_entries(echo.seen.as_slice(), said.seen)
        && are_entries(echo.path.as_slice(), said.path)
}

fn shows(view: &EchoView<'_>, said: &Said) -> bool {
    view.tag.as_slice() == said.tag
        && are_lines(view.kept.iter(), said.kept)
        && are_entries(view.seen.as_slice(), said.seen)
        && are_entries(view.path.as_slice(), said.path)
}

/// Whether the text is read so, and written so.
fn is_read(alloc: Global, said: &Said) -> Result<bool, Fail> {
    let text = without_zero(said.text).ok_or("a text without 00")?;
    let (echo, dropped) = read_text(alloc, text)?;
    let written = write_text(alloc, &echo)?;
    Ok(says(&echo, said) && dropped == said.dropped && written.as_slice() == said.written)
}

/// Whether the text is viewed so, and its view copied so.
fn is_viewed(alloc: Global, said: &Said) -> Result<bool, Fail> {
    let text = without_zero(said.text).ok_or("a text without 00")?;
    let (view, dropped) = view_text(alloc, text)?;
    let copy = view.to_echo(alloc)?;
    Ok(shows(&view, said) && dropped == said.dropped && says(&copy, said))
}

#[test]
fn texts(rt: HostRuntime) -> Result<(), Fail> {
    for (i, said) in TEXTS.iter().enumerate() {
        assert!(rt; is_read(rt.alloc(), said)?, "row {i}");
    }
    Ok(())
}

#[test]
fn views(rt: HostRuntime) -> Result<(), Fail> {
    for (i, said) in TEXTS.iter().enumerate() {
        assert!(rt; is_viewed(rt.alloc(), said)?, "row {i}");
    }
    Ok(())
}

/// The text of a first posting is written as it was read.
#[test]
fn text_of_first_posting(rt: HostRuntime) -> Result<(), Fail> {
    let said = Said {
        text: &FIRST[103..209],
        tag: b"TEST",
        kept: &[
            b"\x01MSGID: 1:10/1 00000001",
            b"Hello",
            b"--- echonet",
            b" * Origin: Alpha (1:10/1)",
        ],
        seen: &[(10, 1), (10, 2)],
        path: &[(10, 1)],
        dropped: 0,
        written: &FIRST[103..209],
    };
    assert!(rt; is_read(rt.alloc(), &said)?);
    assert!(rt; is_viewed(rt.alloc(), &said)?);
    Ok(())
}

/// What is found in a text: the id, the id replied to, the tear and the origin line.
#[derive(Drop)]
struct Found {
    text: &'static [u8],
    msgid: Option<&'static [u8]>,
    reply: Option<&'static [u8]>,
    tear: Option<&'static [u8]>,
    origin: Option<&'static [u8]>,
}

const FOUND: &[Found] = &[
    Found {
        text: b"AREA:TEST\r\x01MSGID: 1:10/1 00000001\rHello\r--- echonet\r * Origin: Alpha (1:10/1)\rSEEN-BY: 10/1 2\r\x01PATH: 10/1\r",
        msgid: Some(b"1:10/1 00000001"),
        reply: None,
        tear: Some(b"--- echonet"),
        origin: Some(b" * Origin: Alpha (1:10/1)"),
    },
    Found {
        text: b"AREA:T\rx\r\x01FOO\rSEEN-BY: 10/2\r\x01MSGID: a 00000001\r\x01REPLY:  b 00000002 \r",
        msgid: Some(b"a 00000001"),
        reply: Some(b"b 00000002"),
        tear: None,
        origin: None,
    },
    Found {
        text: b"AREA:T\r\x01MSGID: \t\r\n\x01MSGID: a 00000001\rx\r\x01MSGID: b 00000002\r",
        msgid: Some(b"a 00000001"),
        reply: None,
        tear: None,
        origin: None,
    },
    Found {
        text: b"AREA:T\r\n\n--- x\r---y\r",
        msgid: None,
        reply: None,
        tear: Some(b"--- x"),
        origin: None,
    },
    Found {
        text: b"AREA:T\r--- a\r * Origin: a\r\n * Origin: b\r---\r",
        msgid: None,
        reply: None,
        tear: Some(b"---"),
        origin: Some(b" * Origin: b"),
    },
];

fn has(echo: &Echo, found: &Found) -> bool {
    echo.msgid() == found.msgid
        && echo.reply() == found.reply
        && echo.tear() == found.tear
        && echo.origin() == found.origin
}

fn has_id(view: &EchoView<'_>, found: &Found) -> bool {
    view.msgid() == found.msgid
}

fn is_found(alloc: Global, found: &Found) -> Result<bool, Fail> {
    let text = without_zero(found.text).ok_or("a text without 00")?;
    let (echo, _) = read_text(alloc, text)?;
    let (view, _) = view_text(alloc, text)?;
    Ok(has(&echo, found) && has_id(&view, found))
}

#[test]
fn lines_that_are_found(rt: HostRuntime) -> Result<(), Fail> {
    for (i, found) in FOUND.iter().enumerate() {
        assert!(rt; is_found(rt.alloc(), found)?, "row {i}");
    }
    Ok(())
}

const FAULTS: &[(&[u8], TextFault)] = &[
    (b"", TextFault::NotEcho),
    (b"Hello", TextFault::NotEcho),
    (b"\x01AREA:T\r", TextFault::NotEcho),
    (b"\rAREA:T\r", TextFault::NotEcho),
    (b"AREA:a b\r", TextFault::BadTag),
    (
        b"AREA:abcdefghijklmnopqrstuvwxyzabcdefghijklmnopqrstuvwxyzabcdefghi\r",
        TextFault::BadTag,
    ),
    (b"AREA:\x80", TextFault::BadTag),
    (b"AREA: \n\r", TextFault::BadTag),
    (b"AREA:", TextFault::BadTag),
];

fn is_refused(alloc: Global, text: &[u8], wanted: TextFault) -> bool {
    let Some(text) = without_zero(text) else {
        return false;
    };
    let read = match read_text(alloc, text) {
        Ok(_) => None,
        Err(fault) => Some(fault),
    };
    let viewed = match view_text(alloc, text) {
        Ok(_) => None,
        Err(fault) => Some(fault),
    };
    (read, viewed) == (Some(wanted), Some(wanted))
}

#[test]
fn text_faults(rt: HostRuntime) {
    for (i, (text, wanted)) in FAULTS.iter().enumerate() {
        assert!(rt; is_refused(rt.alloc(), text, *wanted), "row {i}");
    }
}
