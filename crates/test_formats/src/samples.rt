//! The bytes of a first posting: its packet and its base, byte by byte as the formats have them.
ghost use Rattle.std.specs.Prelude.{IfSome};
ghost use Rattle.echo_text.specs.Echo.{HasNoZero};

use std::alloc::{AllocError, Global};

/// A packet of 60 bytes without messages, from 1:10/1 to 1:10/2.
pub const SIXTY: &[u8] = b"\
    \x01\0\x02\0\xea\x07\x06\0\x03\0\x0c\0\x22\0\x38\0\0\0\x02\0\
    \x0a\0\x0a\0\0\0\
    \0\0\0\0\0\0\0\0\
    \x01\0\x01\0\
    \0\0\0\0\0\0\0\0\0\0\0\0\0\0\0\0\0\0\0\0\
    \0\0";

/// The packet of the first posting, of 212 bytes, from 1:10/1 to 1:10/2. Its message begins at 58, the text at 103.
pub const FIRST: &[u8] = b"\
    \x01\0\x02\0\xea\x07\x06\0\x03\0\x0c\0\x22\0\x38\0\0\0\x02\0\
    \x0a\0\x0a\0\0\0\
    \0\0\0\0\0\0\0\0\
    \x01\0\x01\0\
    \0\0\0\0\0\0\0\0\0\0\0\0\0\0\0\0\0\0\0\0\
    \x02\0\x01\0\x02\0\x0a\0\x0a\0\0\0\0\0\
    03 Jul 26  12:34:56\0\
    All\0Ann\0Hi\0\
    AREA:TEST\r\
    \x01MSGID: 1:10/1 00000001\r\
    Hello\r\
    --- echonet\r\
    \x20* Origin: Alpha (1:10/1)\r\
    SEEN-BY: 10/1 2\r\
    \x01PATH: 10/1\r\
    \0\
    \0\0";

/// The base of 136 bytes with that posting, not scanned.
pub const POSTED: &[u8] = b"\
    ECHOBAS2\0\0\0\0\x01\0\0\0\
    \0\0\0\0\0\0\003 Jul 26  12:34:56\0\
    \x03All\x03Ann\x02Hi\
    \x4e\0\0\0\
    AREA:TEST\r\
    \x01MSGID: 1:10/1 00000001\r\
    Hello\r\
    --- echonet\r\
    \x20* Origin: Alpha (1:10/1)\r";

/// The same in version 1.
pub const POSTED_OLD: &[u8] = b"\
    ECHOBAS1\0\0\0\0\x01\0\0\0\
    \0\0\0\0\0\0\003 Jul 26  12:34:56\0\
    \x03All\x03Ann\x02Hi\
    \x4e\0\0\0\
    AREA:TEST\r\
    \x01MSGID: 1:10/1 00000001\r\
    Hello\r\
    --- echonet\r\
    \x20* Origin: Alpha (1:10/1)\r";

/// The base of 78 bytes after the scan and a purge.
pub const PURGED: &[u8] = b"\
    ECHOBAS2\x01\0\0\0\x01\0\0\0\
    \x02\0\0\0\0\0\003 Jul 26  12:34:56\0\
    \x03All\x03Ann\x02Hi\
    \x04TEST\x0f\0\0\01:10/1 00000001";

/// The base without messages.
pub const EMPTY: &[u8] = b"ECHOBAS2\0\0\0\0\0\0\0\0";

/// The system that posts, and the second and third of a chain.
pub const ALPHA: &[u8] = b"SYSTEM 1:10/1\nNAME Alpha\nAREA TEST 1:10/2\nAREA OTHER 1:10/2";

pub const BETA: &[u8] = b"SYSTEM 1:10/2\nAREA TEST 1:10/1 1:10/3\nAREA OTHER 1:10/1";

pub const GAMMA: &[u8] = b"SYSTEM 1:10/3\nAREA TEST 1:10/2";

/// The bytes with some replaced, each at its place.
pub fn changed(
    alloc: Global,
    bytes: &[u8],
    changes: &[(usize, u8)],
) -> Result<Vec<u8>, AllocError> {
    let mut all = Vec::from_slice(alloc, bytes)?;
    for (at, byte) in changes {
        if let Some(old) = all.get_mut(*at) {
            *old = *byte;
        }
    }
    Ok(all)
}

/// The bytes and those behind them.
pub fn joined(alloc: Global, front: &[u8], behind: &[u8]) -> Result<Vec<u8>, AllocError> {
    let mut all = Vec::from_slice(alloc, front)?;
    all.extend_from_slice(behind)?;
    Ok(all)
}

/// The text, if it has no 00.
pub fn without_zero(text: &[u8]) -> Option<&[u8]>
    ensures { IfSome result (λ t. HasNoZero t.now) }
{
    if text.iter().all(|b| *b != 0) {
        Some(text)
    } else {
        None
    }
}
