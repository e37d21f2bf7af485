//! Nodelists and their checksums.
use echo_addr::{Address, Sink, Trial, Watched};
use echo_nodelist::{CrcLine, Keyword, Line, NodeFault, Nodelist, crc_line, crc16};
use std::alloc::Global;
use std::test::Fail;

/// The published check value of this CRC is that of the nine digits.
#[test]
fn checksum(rt: HostRuntime) {
    assert_eq!(rt; crc16(b"123456789"), 12739);
    assert_eq!(rt; crc16(b""), 0);
}

const CHECKSUMS: &[(&[u8], CrcLine)] = &[
    (b";x : 12739\n123456789", CrcLine::Match(12739)),
    (b";x : 12739\n123456789\x1a9", CrcLine::Match(12739)),
    (
        b";x : 12738\n123456789",
        CrcLine::Mismatch {
            stated: 12738,
            computed: 12739,
        },
    ),
    (
        b";x : 12738\n123456789\x1a",
        CrcLine::Mismatch {
            stated: 12738,
            computed: 12739,
        },
    ),
    (b";x : 00000", CrcLine::Match(0)),
    (b"x:00000\r\x1a1", CrcLine::Match(0)),
    (b": 123456\n", CrcLine::Absent),
    (b";x 12345\n", CrcLine::Absent),
    (b"", CrcLine::Absent),
];

#[test]
fn checksums(rt: HostRuntime) {
    for (i, (bytes, wanted)) in CHECKSUMS.iter().enumerate() {
        assert!(rt; crc_line(bytes) == *wanted, "row {i}");
    }
}

/// Three nets, one with a hub.
const NESTED: &[u8] = b"\
    Zone,1,a,b,c,d,9600\n\
    Host,10,a,b,c,d,9600\n\
    Hub,100,a,b,c,d,9600\n\
    ,101,a,b,c,d,9600\n\
    Pvt,102,a,b,c,d,9600\n\
    Region,13,a,b,c,d,9600\n\
    ,5,a,b,c,d,9600\n\
    Host,20,a,b,c,d,9600\n\
    ,1,a,b,c,d,9600\n";

/// The net and node of each line, and the node of its hub in net 10.
const PLACES: &[(u16, u16, Option<u16>)] = &[
    (1, 0, None),
    (10, 0, None),
    (10, 100, None),
    (10, 101, Some(100)),
    (10, 102, Some(100)),
    (13, 0, None),
    (13, 5, None),
    (20, 0, None),
    (20, 1, None),
];

fn address(net: u16, node: u16) -> Address {
    Address { zone: 1, net, node }
}

fn is_at(list: &Nodelist, i: usize, place: (u16, u16, Option<u16>)) -> bool {
    let (net, node, hub) = place;
    let told = address(net, node);
    list.address_of(i) == Some(told)
        && list.find(told) == Some(i)
        && list.hub_of(i) == hub.map(|hub| address(10, hub))
}

/// Whether all lines are at their places, and nothing is told of others.
fn are_at_places(list: &Nodelist) -> bool {
    list.lines().len() == PLACES.len()
        && PLACES
            .iter()
            .enumerate()
            .all(|(i, place)| is_at(list, i, *place))
        && list.address_of(9).is_none()
        && list.hub_of(9).is_none()
        && list.find(address(10, 7)).is_none()
}

#[test]
fn addresses_and_hubs(rt: HostRuntime) -> Result<(), Fail> {
    let list = Nodelist::read(rt.alloc(), NESTED)?;
    assert!(rt; are_at_places(&list));
    Ok(())
}

const FAULTS: &[(&[u8], Option<NodeFault>)] = &[
    (b"Zone,1,a,b,c,d", Some(NodeFault::TooFewFields { line: 1 })),
    (b"Foo,x,a,b,c,d,e", Some(NodeFault::BadKeyword { line: 1 })),
    (b"Zone,0,a,b,c,d,e", Some(NodeFault::BadNumber { line: 1 })),
    (
        b"Host,32768,a,b,c,d,e",
        Some(NodeFault::BadNumber { line: 1 }),
    ),
    (b"Host,10,a,b,c,d,e", Some(NodeFault::NoZone { line: 1 })),
    (
        b"Zone,1,a,b,c,d,e\r\n;\r\nHub,x",
        Some(NodeFault::TooFewFields { line: 3 }),
    ),
    (b"zone,01,a,b,c,d,e", None),
    (b";Foo\n\r", None),
    (b"\x1aFoo", None),
];

fn fault_of(alloc: Global, bytes: &[u8]) -> Option<NodeFault> {
    match Nodelist::read(alloc, bytes) {
        Ok(_) => None,
        Err(fault) => Some(fault),
    }
}

#[test]
fn nodelist_faults(rt: HostRuntime) {
    for (i, (bytes, wanted)) in FAULTS.iter().enumerate() {
        assert!(rt; fault_of(rt.alloc(), bytes) == *wanted, "row {i}");
    }
}

/// Whether these are a Zone line whose last field ends with a 0D, and a Note.
fn are_zone_and_note(lines: &[Line]) -> bool {
    match lines {
        [
            Line::Entry {
                keyword,
                number,
                fields,
            },
            Line::Note(text),
        ] => {
            *keyword == Keyword::Zone
                && *number == 1
                && fields.len() == 5
                && fields
                    .last()
                    .is_some_and(|field| field.as_slice() == b"e\r".as_slice())
                && text.as_slice() == b";x".as_slice()
        }
        _ => false,
    }
}

#[test]
fn lines(rt: HostRuntime) -> Result<(), Fail> {
    let list = Nodelist::read(rt.alloc(), b"zOnE,01,a,b,c,d,e\r\r\n;x\r")?;
    assert!(rt; are_zone_and_note(list.lines()));
    Ok(())
}

/// Nodelists, and how they are written. The last is written as it was read.
const WRITTEN: &[(&[u8], &[u8])] = &[
    (b"zone,01,a,b,c,d,e", b"Zone,1,a,b,c,d,e\r\n\x1a"),
    (b"", b"\x1a"),
    (b"zone,01,a,b,c,d,9600\n;n\n\n,7,a,,c,d,,e", LIST),
    (LIST, LIST),
];

const LIST: &[u8] = b"Zone,1,a,b,c,d,9600\r\n;n\r\n\r\n,7,a,,c,d,,e\r\n\x1a";

fn send<W: Sink>(alloc: Global, bytes: &[u8], device: &mut W) -> Result<(), NodeFault> {
    let list = Nodelist::read(alloc, bytes)?;
    list.write(alloc, device)
}

/// What writing the nodelist answers where the device takes pieces and fails after some bytes, and the bytes that went.
fn written(
    alloc: Global,
    bytes: &[u8],
    piece: usize,
    left: u64,
) -> (Result<(), NodeFault>, Vec<u8>) {
    let mut device = Watched::new(Trial::new(Vec::new(alloc), piece, 1, left));
    let answer = send(alloc, bytes, &mut device);
    (answer, device.into_inner().into_inner())
}

#[test]
fn written_forms(rt: HostRuntime) {
    for (i, (bytes, wanted)) in WRITTEN.iter().enumerate() {
        for piece in [1, 1000] {
            let (answer, went) = written(rt.alloc(), bytes, piece, 1000);
            assert!(rt; answer == Ok(()), "row {i}");
            assert!(rt; went.as_slice() == *wanted, "row {i}");
        }
    }
}

#[test]
fn failing_nodelist_writers(rt: HostRuntime) {
    for left in 0..LIST.len() {
        let bytes = left as u64;
        let (answer, went) = written(rt.alloc(), LIST, 7, bytes);
        assert!(rt; answer == Err(NodeFault::Write { bytes }), "after {left}");
        assert!(rt; Some(went.as_slice()) == LIST.get(..left), "after {left}");
    }
    let (answer, _) = written(rt.alloc(), LIST, 0, 1000);
    assert!(rt; answer == Err(NodeFault::Write { bytes: 0 }));
}
