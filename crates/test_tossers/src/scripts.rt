//! Scripts: steps at one system, one after another.
use crate::steps::{HELLO, ONE_FILED, Posting, SECOND, Sample, Script, Step, WHOLE, first_wrong};
use echo_addr::Address;
use echo_packet::PacketFault;
use echo_toss::{PostFault, ReplyRule, Tally, TossCause};
use std::test::Fail;
use test_formats::samples::{ALPHA, BETA, EMPTY, GAMMA, POSTED, PURGED};

/// Of one message that was known.
const ONE_KNOWN: Tally = Tally {
    known: 1,
    ..Tally::NONE
};

/// Of one message from a system that is no link.
const ONE_NOT_LINKED: Tally = Tally {
    not_linked: 1,
    ..Tally::NONE
};

const KNOWN: Result<(), PostFault> = Err(PostFault::KnownSerial);

const BAD_REPLY: Result<(), PostFault> = Err(PostFault::BadReply);

/// The first posting in the other area.
const OTHER: Posting = Posting {
    tag: b"OTHER",
    ..HELLO
};

/// The address of the second system, for which the packets are.
const NOT_FOR_US: TossCause = TossCause::NotForUs(Address {
    zone: 1,
    net: 10,
    node: 2,
});

/// A posting with this reply.
const REPLYING: Posting = Posting {
    reply: b"1:10/9 00000009",
    ..HELLO
};

/// A body with lines that elsewhere in a text are control lines.
const CONTROLLED: Posting = Posting {
    body: b"SEEN-BY: 10/2\r\x01MSGID: 1:10/9 00000009",
    ..HELLO
};

/// The packet of that posting; its text has 138 bytes.
const CONTROLLED_FIRST: Sample = Sample {
    packet: b"\
        \x01\0\x02\0\xea\x07\x06\0\x03\0\x0c\0\x22\0\x38\0\0\0\x02\0\
        \x0a\0\x0a\0\0\0\
        \0\0\0\0\0\0\0\0\
        \x01\0\x01\0\
        \0\0\0\0\0\0\0\0\0\0\0\0\0\0\0\0\0\0\0\0\
        \x02\0\x01\0\x02\0\x0a\0\x0a\0\0\0\0\0\
        03 Jul 26  12:34:56\0\
        All\0Ann\0Hi\0\
        AREA:TEST\r\
        \x01MSGID: 1:10/1 00000001\r\
        SEEN-BY: 10/2\r\
        \x01MSGID: 1:10/9 00000009\r\
        --- echonet\r\
        \x20* Origin: Alpha (1:10/1)\r\
        SEEN-BY: 10/1 2\r\
        \x01PATH: 10/1\r\
        \0\
        \0\0",
    changes: &[],
    size: 244,
};

/// The packet of the second system, to the third.
const CONTROLLED_ONWARD: Sample = Sample {
    packet: b"\
        \x02\0\x03\0\xea\x07\x06\0\x03\0\x0c\0\x22\0\x38\0\0\0\x02\0\
        \x0a\0\x0a\0\0\0\
        \0\0\0\0\0\0\0\0\
        \x01\0\x01\0\
        \0\0\0\0\0\0\0\0\0\0\0\0\0\0\0\0\0\0\0\0\
        \x02\0\x02\0\x03\0\x0a\0\x0a\0\0\0\0\0\
        03 Jul 26  12:34:56\0\
        All\0Ann\0Hi\0\
        AREA:TEST\r\
        \x01MSGID: 1:10/1 00000001\r\
        SEEN-BY: 10/2\r\
        \x01MSGID: 1:10/9 00000009\r\
        --- echonet\r\
        \x20* Origin: Alpha (1:10/1)\r\
        SEEN-BY: 10/1 2 3\r\
        \x01PATH: 10/1 2\r\
        \0\
        \0\0",
    changes: &[],
    size: 248,
};

const CONTROLLED_LINES: &[u8] = b"\
    \x01MSGID: 1:10/1 00000001\r\
    SEEN-BY: 10/2\r\
    \x01MSGID: 1:10/9 00000009\r\
    --- echonet\r\
    \x20* Origin: Alpha (1:10/1)\r";

/// The packet of the second system, to the third.
const ONWARD: Sample = Sample {
    packet: b"\
        \x02\0\x03\0\xea\x07\x06\0\x03\0\x0c\0\x22\0\x38\0\0\0\x02\0\
        \x0a\0\x0a\0\0\0\
        \0\0\0\0\0\0\0\0\
        \x01\0\x01\0\
        \0\0\0\0\0\0\0\0\0\0\0\0\0\0\0\0\0\0\0\0\
        \x02\0\x02\0\x03\0\x0a\0\x0a\0\0\0\0\0\
        03 Jul 26  12:34:56\0\
        All\0Ann\0Hi\0\
        AREA:TEST\r\
        \x01MSGID: 1:10/1 00000001\r\
        Hello\r\
        --- echonet\r\
        \x20* Origin: Alpha (1:10/1)\r\
        SEEN-BY: 10/1 2 3\r\
        \x01PATH: 10/1 2\r\
        \0\
        \0\0",
    changes: &[],
    size: 216,
};

/// Its sender, if its zone is 1 or 2.
const IN_ZONE_1: Address = Address {
    zone: 1,
    net: 10,
    node: 1,
};

const IN_ZONE_2: Address = Address {
    zone: 2,
    ..IN_ZONE_1
};

/// The packet of the first posting without zones in its header.
const NO_ZONES: Sample = Sample {
    changes: &[(34, 0), (36, 0)],
    ..WHOLE
};

const SCRIPTS: &[Script] = &[
    Script {
        name: "first posting",
        file: ALPHA,
        base: EMPTY,
        steps: &[
            Step::Post(HELLO, Ok(())),
            Step::Counts(1, 1),
            Step::Base(POSTED),
            Step::Scan(WHOLE),
            Step::Counts(1, 0),
        ],
    },
    Script {
        name: "purged base",
        file: ALPHA,
        base: EMPTY,
        steps: &[
            Step::Post(
                Posting {
                    tag: b"test",
                    ..HELLO
                },
                Ok(()),
            ),
            Step::Purge(0),
            Step::Scan(WHOLE),
            Step::Purge(1),
            Step::Purge(0),
            Step::Base(PURGED),
        ],
    },
    Script {
        name: "on to the third system",
        file: BETA,
        base: EMPTY,
        steps: &[Step::Toss(WHOLE, ONE_FILED), Step::Scan(ONWARD)],
    },
    Script {
        name: "bytes after a packet",
        file: BETA,
        base: EMPTY,
        steps: &[Step::TossBefore(b"after"), Step::Counts(1, 1)],
    },
    Script {
        name: "zone 0 is the own",
        file: BETA,
        base: EMPTY,
        steps: &[Step::Toss(NO_ZONES, ONE_FILED), Step::From(IN_ZONE_1)],
    },
    Script {
        name: "zone 0 is the own in zone 2",
        file: b"SYSTEM 2:10/2\nAREA TEST 2:10/1",
        base: EMPTY,
        steps: &[Step::Toss(NO_ZONES, ONE_FILED), Step::From(IN_ZONE_2)],
    },
    Script {
        name: "known serial",
        file: ALPHA,
        base: EMPTY,
        steps: &[
            Step::Post(HELLO, Ok(())),
            Step::Base(POSTED),
            Step::Post(HELLO, KNOWN),
            Step::Post(OTHER, KNOWN),
            Step::Base(POSTED),
            Step::Post(SECOND, Ok(())),
            Step::Counts(2, 2),
        ],
    },
    Script {
        name: "serial of a purged message",
        file: ALPHA,
        base: PURGED,
        steps: &[
            Step::Counts(1, 0),
            Step::Post(HELLO, KNOWN),
            Step::Post(OTHER, KNOWN),
            Step::ScanNone,
            Step::Purge(0),
            Step::Base(PURGED),
        ],
    },
    Script {
        name: "own serial taken",
        file: ALPHA,
        base: EMPTY,
        steps: &[
            // From the second system to the first, with the id 1:10/1 00000002.
            Step::Toss(
                Sample {
                    changes: &[(0, 2), (2, 1), (135, b'2')],
                    ..WHOLE
                },
                ONE_FILED,
            ),
            Step::Post(SECOND, KNOWN),
            Step::Post(
                Posting {
                    tag: b"OTHER",
                    ..SECOND
                },
                KNOWN,
            ),
            Step::Post(HELLO, Ok(())),
            Step::Counts(2, 2),
        ],
    },
    Script {
        name: "replies by the order's rule",
        file: ALPHA,
        base: EMPTY,
        steps: &[
            Step::Post(
                Posting {
                    reply: b"1:10/9 123",
                    ..HELLO
                },
                BAD_REPLY,
            ),
            Step::Post(
                Posting {
                    reply: b"1:10/9",
                    ..HELLO
                },
                BAD_REPLY,
            ),
            Step::Base(EMPTY),
            Step::Post(REPLYING, Ok(())),
            Step::Counts(1, 1),
        ],
    },
    Script {
        name: "replies to ids of any form",
        file: ALPHA,
        base: EMPTY,
        steps: &[
            Step::PostBy(
                ReplyRule::AnyForm,
                Posting {
                    reply: b"1:10/9 123",
                    ..HELLO
                },
                Ok(()),
            ),
            Step::PostBy(ReplyRule::AnyForm, SECOND, Ok(())),
            Step::Counts(2, 2),
        ],
    },
    Script {
        name: "packets for others",
        file: GAMMA,
        base: EMPTY,
        steps: &[
            Step::Refuse(WHOLE, NOT_FOR_US),
            Step::Refuse(NO_ZONES, NOT_FOR_US),
            Step::Refuse(Sample { size: 100, ..WHOLE }, NOT_FOR_US),
            Step::Refuse(
                Sample { size: 57, ..WHOLE },
                TossCause::Packet(PacketFault::Truncated { at: 0 }),
            ),
            Step::Base(EMPTY),
        ],
    },
    Script {
        name: "header of another type",
        file: BETA,
        base: EMPTY,
        steps: &[
            Step::Refuse(
                Sample {
                    changes: &[(18, 3)],
                    ..WHOLE
                },
                TossCause::Packet(PacketFault::NotType2 { at: 18 }),
            ),
            Step::Base(EMPTY),
        ],
    },
    Script {
        name: "sender with node 40,000",
        file: BETA,
        base: EMPTY,
        steps: &[
            Step::Toss(
                Sample {
                    changes: &[(0, 0x40), (1, 0x9c)],
                    ..WHOLE
                },
                ONE_NOT_LINKED,
            ),
            Step::Base(EMPTY),
        ],
    },
    Script {
        name: "sender that is no link",
        file: b"SYSTEM 1:10/2\nAREA TEST 1:10/3",
        base: EMPTY,
        steps: &[Step::Toss(WHOLE, ONE_NOT_LINKED), Step::Base(EMPTY)],
    },
    Script {
        name: "a waiting message of a base that was read",
        file: ALPHA,
        base: POSTED,
        steps: &[
            Step::Counts(1, 1),
            Step::Scan(WHOLE),
            Step::Counts(1, 0),
            Step::ScanNone,
        ],
    },
    Script {
        name: "purge beside a waiting message",
        file: ALPHA,
        base: EMPTY,
        steps: &[
            Step::Post(HELLO, Ok(())),
            Step::Scan(WHOLE),
            Step::Post(SECOND, Ok(())),
            Step::Purge(1),
            Step::Counts(2, 1),
            Step::Purge(0),
            Step::Scan(Sample {
                changes: &[(135, b'2')],
                ..WHOLE
            }),
            Step::Counts(2, 0),
            Step::Purge(1),
        ],
    },
    Script {
        name: "control lines posted",
        file: ALPHA,
        base: EMPTY,
        steps: &[
            Step::Post(CONTROLLED, Ok(())),
            Step::Kept(CONTROLLED_LINES),
            Step::Scan(CONTROLLED_FIRST),
        ],
    },
    Script {
        name: "control lines at the second system",
        file: BETA,
        base: EMPTY,
        steps: &[
            Step::Toss(CONTROLLED_FIRST, ONE_FILED),
            Step::Toss(CONTROLLED_FIRST, ONE_KNOWN),
            Step::Kept(CONTROLLED_LINES),
            Step::Scan(CONTROLLED_ONWARD),
        ],
    },
    Script {
        name: "control lines at the third system",
        file: GAMMA,
        base: EMPTY,
        steps: &[
            Step::Toss(CONTROLLED_ONWARD, ONE_FILED),
            Step::Toss(CONTROLLED_ONWARD, ONE_KNOWN),
            Step::Kept(CONTROLLED_LINES),
            Step::ScanNone,
            Step::Counts(1, 0),
        ],
    },
];

#[test]
fn scripts(rt: HostRuntime) -> Result<(), Fail> {
    for script in SCRIPTS {
        let wrong = first_wrong(rt.alloc(), script.file, script.base, script.steps)?;
        let name = script.name;
        assert!(rt; wrong == 0, "{name}: step {wrong}");
    }
    Ok(())
}
