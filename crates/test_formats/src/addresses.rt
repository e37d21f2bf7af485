//! Addresses, and the lists of SEEN-BY and PATH lines.
use crate::samples::without_zero;
use echo_addr::{AddrFault, Address, NetNode, read_list, write_path, write_seen};
use echo_text::read_text;
use std::alloc::Global;
use std::test::Fail;

const ADDRESSES: &[(&[u8], Result<Address, AddrFault>)] = &[
    (b"", Err(AddrFault::Empty)),
    (b"1:10", Err(AddrFault::Shape)),
    (b"1/10:1", Err(AddrFault::Shape)),
    (b"1:10/1/1", Err(AddrFault::Shape)),
    (b"1:10/", Err(AddrFault::NotDigits)),
    (b"1:10/1.2", Err(AddrFault::NotDigits)),
    (b"0:10/1", Err(AddrFault::OutOfRange)),
    (b"1:0/1", Err(AddrFault::OutOfRange)),
    (b"1:10/32768", Err(AddrFault::OutOfRange)),
    (
        b"1:10/32767",
        Ok(Address {
            zone: 1,
            net: 10,
            node: 32767,
        }),
    ),
    (
        b"01:010/00",
        Ok(Address {
            zone: 1,
            net: 10,
            node: 0,
        }),
    ),
];

#[test]
fn addresses(rt: HostRuntime) {
    for (i, (bytes, wanted)) in ADDRESSES.iter().enumerate() {
        assert!(rt; Address::parse(bytes) == *wanted, "row {i}");
    }
}

const FAULTS: &[(AddrFault, &str)] = &[
    (AddrFault::Empty, "A1 Empty"),
    (AddrFault::Shape, "A2 Shape"),
    (AddrFault::NotDigits, "A3 NotDigits"),
    (AddrFault::OutOfRange, "A4 OutOfRange"),
];

#[test]
fn address_faults(rt: HostRuntime) -> Result<(), Fail> {
    for (fault, wanted) in FAULTS {
        let text = fault.to_string(rt.alloc())?;
        assert!(rt; text.as_str() == *wanted, "{wanted}");
    }
    Ok(())
}

#[test]
fn address_is_written(rt: HostRuntime) -> Result<(), Fail> {
    let address = Address {
        zone: 1,
        net: 10,
        node: 2,
    };
    assert!(rt; address.net_node() == NetNode { net: 10, node: 2 });
    let text = address.to_string(rt.alloc())?;
    assert!(rt; text.as_str() == "1:10/2");
    Ok(())
}

/// What follows the colon of a line, its entries, and how many tokens are dropped.
const LISTS: &[(&[u8], &[(u16, u16)], usize)] = &[
    (b" 113 10/1 70000/1 5", &[(10, 1), (10, 5)], 2),
    (b" 0010/01 2 10/ 3", &[(10, 1), (10, 2), (10, 3)], 1),
    (
        b" 132/101 113 136/601 1014/1",
        &[(132, 101), (132, 113), (136, 601), (1014, 1)],
        0,
    ),
    (b"\t10/65535\n+5 10/1/2 10/65536", &[(10, 65535)], 3),
    (b"", &[], 0),
];

fn are(found: &[NetNode], wanted: &[(u16, u16)]) -> bool {
    found.len() == wanted.len()
        && found
            .iter()
            .zip(wanted)
            .all(|(entry, parts)| (entry.net, entry.node) == *parts)
}

#[test]
fn lists(rt: HostRuntime) -> Result<(), Fail> {
    for (i, (bytes, wanted, wanted_drops)) in LISTS.iter().enumerate() {
        let (found, drops) = read_list(rt.alloc(), bytes)?;
        assert!(rt; are(&found, wanted), "row {i}");
        assert_eq!(rt; drops, *wanted_drops, "row {i}");
    }
    Ok(())
}

/// Texts, and the SEEN-BY lines of their lists. A full line has 79 bytes before its 0D.
const SEEN: &[(&[u8], &[u8])] = &[
    (
        b"AREA:T\rSEEN-BY: 132/101 113 136/601 1014/1\r",
        b"SEEN-BY: 132/101 113 136/601 1014/1\r",
    ),
    (
        b"AREA:T\rSEEN-BY: 10/100 101 102 103 104 105 106 107 108 109 110 111 112 113 114 115 116 117\r",
        b"SEEN-BY: 10/100 101 102 103 104 105 106 107 108 109 110 111 112 113 114 115 116\rSEEN-BY: 10/117\r",
    ),
    (b"AREA:T\r", b""),
];

/// The SEEN-BY lines of the list of the text, which ascends.
fn seen_lines(alloc: Global, text: &[u8]) -> Result<Vec<u8>, Fail> {
    let text = without_zero(text).ok_or("a text without 00")?;
    let (echo, _) = read_text(alloc, text)?;
    Ok(write_seen(alloc, echo.seen.as_slice())?)
}

#[test]
fn seen_by_lines(rt: HostRuntime) -> Result<(), Fail> {
    for (i, (text, wanted)) in SEEN.iter().enumerate() {
        let lines = seen_lines(rt.alloc(), text)?;
        assert!(rt; lines.as_slice() == *wanted, "row {i}");
    }
    Ok(())
}

/// Lists, and their PATH lines. A full line has 77 bytes, the 01 counted.
const PATHS: &[(&[u8], &[u8])] = &[
    (b" 10/5 5 11/1 10/5", b"\x01PATH: 10/5 5 11/1 10/5\r"),
    (
        b" 10/100 101 102 103 104 105 106 107 108 109 110 111 112 113 114 115 116 117",
        b"\x01PATH: 10/100 101 102 103 104 105 106 107 108 109 110 111 112 113 114 115 116\r\x01PATH: 10/117\r",
    ),
    (b"", b""),
];

#[test]
fn path_lines(rt: HostRuntime) -> Result<(), Fail> {
    for (i, (list, wanted)) in PATHS.iter().enumerate() {
        let (entries, _) = read_list(rt.alloc(), list)?;
        let lines = write_path(rt.alloc(), &entries)?;
        assert!(rt; lines.as_slice() == *wanted, "row {i}");
    }
    Ok(())
}
