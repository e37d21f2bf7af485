//! Calls of a tosser that are refused, which leave the system as it was; and what becomes of texts.
use crate::steps::{HELLO, ONE_FILED, Posting, SECOND, STAMP, Sample, Step, first_wrong};
use echo_addr::Address;
use echo_packet::PacketFault;
use echo_toss::{Outcome, PostFault, Stamp, Tally, TossCause, TossFault};
use std::alloc::Global;
use std::test::Fail;
use test_formats::samples::{ALPHA, BETA, EMPTY, POSTED};

const MONTH_13: Stamp = Stamp { month: 13, ..STAMP };

/// A day that no calendar has.
const FEBRUARY_31: Stamp = Stamp {
    month: 2,
    day: 31,
    ..STAMP
};

/// 36 bytes, one more than a name may have.
const LONG_NAME: &[u8] = b"123456789012345678901234567890123456";

/// 72 bytes, one more than a subject may have.
const LONG_SUBJECT: &[u8] =
    b"123456789012345678901234567890123456789012345678901234567890123456789012";

/// Postings, and what they are answered: the first fault that applies.
const POSTINGS: &[(Posting, Result<(), PostFault>)] = &[
    (HELLO, Ok(())),
    (
        Posting {
            tag: b"test",
            ..HELLO
        },
        Ok(()),
    ),
    (
        Posting {
            tag: b"NONE",
            body: b"\0",
            ..HELLO
        },
        Err(PostFault::NoArea),
    ),
    (
        Posting {
            subject: b"\0",
            stamp: MONTH_13,
            ..HELLO
        },
        Err(PostFault::ByteZero),
    ),
    (
        Posting {
            to: LONG_NAME,
            stamp: MONTH_13,
            ..HELLO
        },
        Err(PostFault::FieldTooLong),
    ),
    (
        Posting {
            subject: LONG_SUBJECT,
            ..HELLO
        },
        Err(PostFault::FieldTooLong),
    ),
    (
        Posting {
            reply: b"x",
            stamp: MONTH_13,
            ..HELLO
        },
        Err(PostFault::BadStamp),
    ),
    (
        Posting {
            stamp: Stamp {
                year: 2080,
                ..STAMP
            },
            ..HELLO
        },
        Err(PostFault::BadStamp),
    ),
    (
        Posting {
            stamp: FEBRUARY_31,
            ..HELLO
        },
        Ok(()),
    ),
    (
        Posting {
            reply: b"x",
            ..HELLO
        },
        Err(PostFault::BadReply),
    ),
    (
        Posting {
            reply: b" 1:10/9 00000009 ",
            ..HELLO
        },
        Ok(()),
    ),
];

/// The first step that is answered otherwise: the posting, or what it leaves.
fn wrong_of_posting(
    alloc: Global,
    posting: Posting,
    wanted: Result<(), PostFault>,
) -> Result<usize, Fail> {
    let left = if wanted.is_ok() {
        Step::Counts(1, 1)
    } else {
        Step::Base(EMPTY)
    };
    first_wrong(alloc, ALPHA, EMPTY, &[Step::Post(posting, wanted), left])
}

#[test]
fn postings(rt: HostRuntime) -> Result<(), Fail> {
    for (i, (posting, wanted)) in POSTINGS.iter().enumerate() {
        let wrong = wrong_of_posting(rt.alloc(), *posting, *wanted)?;
        assert!(rt; wrong == 0, "row {i}, step {wrong}");
    }
    Ok(())
}

/// No calendar is asked, the tag gets capital letters, and a reply is filed without blanks.
const FILED: &[Step] = &[
    Step::Post(
        Posting {
            tag: b"test",
            reply: b" 1:10/9 00000009 ",
            stamp: FEBRUARY_31,
            ..HELLO
        },
        Ok(()),
    ),
    Step::Filed(b"TEST", b"31 Feb 26  12:34:56\0", Some(b"1:10/9 00000009")),
];

#[test]
fn filed_postings(rt: HostRuntime) -> Result<(), Fail> {
    assert_eq!(rt; first_wrong(rt.alloc(), ALPHA, EMPTY, FILED)?, 0);
    Ok(())
}

/// Scans at stamps that are out of range, each in one part. They leave the base as it was.
const BAD_STAMPS: &[Step] = &[
    Step::ScanAt(Stamp {
        year: 1979,
        ..STAMP
    }),
    Step::ScanAt(Stamp {
        year: 2080,
        ..STAMP
    }),
    Step::ScanAt(Stamp { month: 0, ..STAMP }),
    Step::ScanAt(Stamp { month: 13, ..STAMP }),
    Step::ScanAt(Stamp { day: 0, ..STAMP }),
    Step::ScanAt(Stamp { day: 32, ..STAMP }),
    Step::ScanAt(Stamp { hour: 24, ..STAMP }),
    Step::ScanAt(Stamp {
        minute: 60,
        ..STAMP
    }),
    Step::ScanAt(Stamp {
        second: 60,
        ..STAMP
    }),
    Step::Base(POSTED),
];

#[test]
fn bad_stamps_of_scans(rt: HostRuntime) -> Result<(), Fail> {
    assert_eq!(rt; first_wrong(rt.alloc(), ALPHA, POSTED, BAD_STAMPS)?, 0);
    Ok(())
}

/// The packet of two postings, of 364 bytes. Its second message begins at 210: there at 244 begins the toUserName, at 252
/// the subject, at 255 the text.
const TWO: Sample = Sample {
    packet: b"\
        \x01\0\x02\0\xea\x07\x06\0\x03\0\x0c\0\x22\0\x38\0\0\0\x02\0\
        \x0a\0\x0a\0\0\0\
        \0\0\0\0\0\0\0\0\
        \x01\0\x01\0\
        \0\0\0\0\0\0\0\0\0\0\0\0\0\0\0\0\0\0\0\0\
        \x02\0\x01\0\x02\0\x0a\0\x0a\0\0\0\0\0\
        03 Jul 26  12:34:56\0\
        All\0Ann\0Hi\0\
        AREA:TEST\r\
        \x01MSGID: 1:10/1 00000001\r\
        Hello\r\
        --- echonet\r\
        \x20* Origin: Alpha (1:10/1)\r\
        SEEN-BY: 10/1 2\r\
        \x01PATH: 10/1\r\
        \0\
        \x02\0\x01\0\x02\0\x0a\0\x0a\0\0\0\0\0\
        03 Jul 26  12:34:56\0\
        All\0Ann\0Hi\0\
        AREA:TEST\r\
        \x01MSGID: 1:10/1 00000002\r\
        Hello\r\
        --- echonet\r\
        \x20* Origin: Alpha (1:10/1)\r\
        SEEN-BY: 10/1 2\r\
        \x01PATH: 10/1\r\
        \0\
        \0\0",
    changes: &[],
    size: 364,
};

const POST_TWO: &[Step] = &[
    Step::Post(HELLO, Ok(())),
    Step::Post(SECOND, Ok(())),
    Step::Scan(TWO),
];

#[test]
fn two_postings(rt: HostRuntime) -> Result<(), Fail> {
    assert_eq!(rt; first_wrong(rt.alloc(), ALPHA, EMPTY, POST_TWO)?, 0);
    Ok(())
}

/// Tosses of that packet that stop after its first message.
const STOPPED: &[Step] = &[
    Step::Stop(
        TWO,
        1,
        usize::MAX,
        ONE_FILED,
        PacketFault::TooManyMessages { at: 210 },
    ),
    Step::Stop(
        Sample { size: 300, ..TWO },
        u64::MAX,
        106,
        ONE_FILED,
        PacketFault::Truncated { at: 255 },
    ),
    Step::Stop(
        Sample {
            changes: &[(210, 3)],
            ..TWO
        },
        u64::MAX,
        106,
        ONE_FILED,
        PacketFault::NotMessage { at: 210 },
    ),
    Step::Stop(
        Sample {
            changes: &[(254, b'!')],
            ..TWO
        },
        u64::MAX,
        106,
        ONE_FILED,
        PacketFault::FieldTooLong { at: 252 },
    ),
    Step::Stop(
        Sample {
            changes: &[(361, b'!')],
            ..TWO
        },
        u64::MAX,
        106,
        ONE_FILED,
        PacketFault::TextTooLong { at: 255 },
    ),
    Step::Break(TWO, 210, ONE_FILED, PacketFault::Read { at: 210 }),
    Step::Break(TWO, 300, ONE_FILED, PacketFault::Read { at: 255 }),
];

/// Of the whole packet after its first message was filed.
const KNOWN_AND_FILED: Tally = Tally {
    known: 1,
    ..ONE_FILED
};

/// The first step that is answered otherwise: the toss, what it leaves, or that of the whole packet after it.
fn wrong_of_stop(alloc: Global, stop: Step) -> Result<usize, Fail> {
    let whole = Step::Toss(TWO, KNOWN_AND_FILED);
    let steps = [stop, Step::Counts(1, 1), whole, Step::Counts(2, 2)];
    first_wrong(alloc, BETA, EMPTY, &steps)
}

#[test]
fn packets_that_stop(rt: HostRuntime) -> Result<(), Fail> {
    for (i, stop) in STOPPED.iter().enumerate() {
        let wrong = wrong_of_stop(rt.alloc(), *stop)?;
        assert!(rt; wrong == 0, "row {i}, step {wrong}");
    }
    Ok(())
}

/// What becomes of texts that come one after another to the second system, each from the system of this node.
const OUTCOMES: &[Step] = &[
    Step::Message(
        1,
        b"AREA:TEST\r\x01MSGID: 1:10/1 00000001\rHi\r",
        Outcome::Filed,
    ),
    Step::Message(
        3,
        b"AREA:TEST\r\x01MSGID: 1:10/1 00000001\rHo\r",
        Outcome::Known,
    ),
    Step::Message(
        1,
        b"AREA:OTHER\r\x01MSGID: 1:10/1 00000001\rHi\r",
        Outcome::Filed,
    ),
    Step::Message(1, b"AREA:TEST\rHello\r", Outcome::Filed),
    Step::Message(1, b"AREA:TEST\rHello\r", Outcome::Known),
    Step::Message(1, b"AREA:TEST\rHello\rHello\r", Outcome::Filed),
    Step::Message(
        3,
        b"AREA:TEST\rHello\rHello\rSEEN-BY: 10/3\r",
        Outcome::Known,
    ),
    Step::Message(4, b"AREA:TEST\rHello\r", Outcome::NotLinked),
    Step::Message(4, b"AREA:NONE\rHello\r", Outcome::NoArea),
    Step::Message(1, b"Hello", Outcome::NotEcho),
    Step::Message(1, b"AREA:", Outcome::BadTag),
    Step::Counts(4, 4),
];

#[test]
fn outcomes(rt: HostRuntime) -> Result<(), Fail> {
    assert_eq!(rt; first_wrong(rt.alloc(), BETA, EMPTY, OUTCOMES)?, 0);
    Ok(())
}

const FOR_THE_SECOND: Address = Address {
    zone: 1,
    net: 10,
    node: 2,
};

const TEXTS: &[(TossCause, &str)] = &[
    (TossCause::NotForUs(FOR_THE_SECOND), "C1 NotForUs 1:10/2"),
    (TossCause::Memory, "C2 Memory"),
    (
        TossCause::Packet(PacketFault::Read { at: 210 }),
        "P6 Read at 210",
    ),
];

#[test]
fn texts_of_toss_faults(rt: HostRuntime) -> Result<(), Fail> {
    for (cause, wanted) in TEXTS {
        let fault = TossFault {
            tally: Tally::NONE,
            cause: *cause,
        };
        let text = fault.to_string(rt.alloc())?;
        assert!(rt; text.as_str() == *wanted);
    }
    Ok(())
}
