//! The sessions end well with the link files of README.md. The second scan prints no packet.
use crate::kinds::{Files, file_to_folder, folder_to_file};
use crate::session::Letter;
use base_store::SipDigest;
use cmd_store::NewMessage;
use disk_io::Watched;
use model_steps::Stamp;
use std::hash::RandomState;
use std::test::Fail;

const ONE: &[u8] = b"SYSTEM 1:10/1\nNAME Alpha\nAREA TEST 1:10/2\n";

const TWO: &[u8] = b"SYSTEM 1:10/2\nAREA TEST 1:10/1\n";

const STAMP: Stamp = Stamp {
    year: 2026,
    month: 7,
    day: 3,
    hour: 12,
    minute: 34,
    second: 56,
};

const WORDS: NewMessage<'static> = NewMessage {
    tag: b"TEST",
    to_name: b"All",
    from_name: b"Ann",
    subject: b"Hi",
    reply: b"",
    serial: 1,
    stamp: STAMP,
};

const FILES: Files<'static> = Files {
    one: ONE,
    two: TWO,
    left: b"half a pack",
};

const LETTER: Letter<'static> = Letter {
    words: WORDS,
    body: b"Hello\n",
    stamp: STAMP,
};

const LINES: &[u8] = b"yes TEST 2 systems 1 links
posted TEST 1:10/1 00000001
packet 1:10/2 1 messages 212 bytes
filed 1 known 0 notecho 0 badtag 0 noarea 0 notlinked 0
";

#[test]
fn from_a_folder_to_a_file(rt: HostRuntime) -> Result<(), Fail> {
    let alloc = rt.alloc();
    let mut out = Watched::new(Vec::new(alloc));
    let hasher = RandomState::new(&rt)?;
    let ended = folder_to_file::<SipDigest, _, _>(alloc, FILES, (1, 2), hasher, LETTER, &mut out);
    assert!(rt; ended.is_ok());
    assert!(rt; out.into_inner().as_slice() == LINES);
    Ok(())
}

#[test]
fn from_a_file_to_a_folder(rt: HostRuntime) -> Result<(), Fail> {
    let alloc = rt.alloc();
    let mut out = Watched::new(Vec::new(alloc));
    let hasher = RandomState::new(&rt)?;
    let ended = file_to_folder::<SipDigest, _, _>(alloc, FILES, (1, 2), hasher, LETTER, &mut out);
    assert!(rt; ended.is_ok());
    assert!(rt; out.into_inner().as_slice() == LINES);
    Ok(())
}
