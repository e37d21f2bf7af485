//! Packets in memory: their parts, their limits and their faults.
use crate::samples::{FIRST, SIXTY, changed, joined};
use echo_packet::{Field, Header, Limits, Packed, PacketFault, read_packet};
use std::alloc::{AllocError, Global};
use std::test::Fail;

fn fault_of(alloc: Global, bytes: &[u8], limits: Limits) -> Option<PacketFault> {
    match read_packet(alloc, bytes, limits) {
        Ok(_) => None,
        Err(fault) => Some(fault),
    }
}

fn is_dated(header: &Header) -> bool {
    (header.year, header.month, header.day) == (2026, 6, 3)
        && (header.hour, header.minute, header.second) == (12, 34, 56)
        && (header.baud, header.prod_code, header.serial_no) == (0, 0, 0)
}

fn is_from_first_to_second(header: &Header) -> bool {
    (header.orig_zone, header.orig_net, header.orig_node) == (1, 10, 1)
        && (header.dest_zone, header.dest_net, header.dest_node) == (1, 10, 2)
}

/// The bytes after the terminator are left.
#[test]
fn sixty_byte_packet(rt: HostRuntime) -> Result<(), Fail> {
    let bytes = joined(rt.alloc(), SIXTY, b"hello")?;
    let (header, messages, size) = read_packet(rt.alloc(), &bytes, Limits::NONE)?;
    assert_eq!(rt; (messages.len(), size), (0, 60));
    assert!(rt; is_dated(&header) && is_from_first_to_second(&header));
    Ok(())
}

const PASSWORD: [u8; 8] = *b"pass\0\0\0\0";

#[test]
fn password_and_fill(rt: HostRuntime) -> Result<(), Fail> {
    let alloc = rt.alloc();
    let mut bytes = Vec::from_slice(alloc, SIXTY)?;
    for (old, new) in bytes.iter_mut().skip(26).zip(PASSWORD) {
        *old = new;
    }
    for (old, new) in bytes.iter_mut().skip(38).zip(1..=20) {
        *old = new;
    }
    let (header, _, size) = read_packet(alloc, &bytes, Limits::NONE)?;
    assert_eq!(rt; size, 60);
    assert!(rt; header.password == PASSWORD);
    assert!(rt; header.fill.iter().copied().eq(1..=20));
    Ok(())
}

/// Whether it is the message of the first posting.
fn is_first(message: &Packed) -> bool {
    (message.orig_node(), message.dest_node()) == (1, 2)
        && (message.orig_net(), message.dest_net()) == (10, 10)
        && (message.attribute(), message.cost()) == (0, 0)
        && message.date() == b"03 Jul 26  12:34:56\0"
        && message.to_name() == b"All".as_slice()
        && message.from_name() == b"Ann".as_slice()
        && message.subject() == b"Hi".as_slice()
        && Some(message.text()) == FIRST.get(103..209)
}

#[test]
fn message_of_first_posting(rt: HostRuntime) -> Result<(), Fail> {
    let (header, messages, size) = read_packet(rt.alloc(), FIRST, Limits::NONE)?;
    assert_eq!(rt; (messages.len(), size), (1, 212));
    assert!(rt; is_from_first_to_second(&header));
    assert!(rt; messages.iter().all(is_first));
    Ok(())
}

/// A limit of the text, a limit of messages, and the fault of the packet of the first posting.
const LIMITS: &[(usize, u64, Option<PacketFault>)] = &[
    (106, 1, None),
    (105, 1, Some(PacketFault::TextTooLong { at: 103 })),
    (106, 0, Some(PacketFault::TooManyMessages { at: 58 })),
];

#[test]
fn limits(rt: HostRuntime) {
    for (text, messages, wanted) in LIMITS {
        let limits = Limits {
            text: *text,
            messages: *messages,
        };
        let fault = fault_of(rt.alloc(), FIRST, limits);
        assert!(rt; fault == *wanted, "text {text} messages {messages}");
    }
}

#[test]
fn cut_headers(rt: HostRuntime) {
    for (size, at) in [(59, 58), (58, 58), (57, 0), (0, 0)] {
        let fault = fault_of(rt.alloc(), &SIXTY[..size], Limits::NONE);
        assert!(rt;
            fault == Some(PacketFault::Truncated { at }),
            "{size} bytes"
        );
    }
}

#[test]
fn wrong_numbers(rt: HostRuntime) -> Result<(), Fail> {
    for (place, fault) in [
        (18, PacketFault::NotType2 { at: 18 }),
        (58, PacketFault::NotMessage { at: 58 }),
    ] {
        let bytes = changed(rt.alloc(), SIXTY, &[(place, 3)])?;
        assert!(rt; fault_of(rt.alloc(), &bytes, Limits::NONE) == Some(fault));
    }
    Ok(())
}

/// The packet of the first posting with this toUserName, and behind it.
fn with_name(alloc: Global, name: &[u8], behind: &[u8]) -> Result<Vec<u8>, AllocError> {
    let mut bytes = Vec::new(alloc);
    bytes.extend_from_slice(&FIRST[..92])?;
    bytes.extend_from_slice(name)?;
    bytes.extend_from_slice(behind)?;
    Ok(bytes)
}

#[test]
fn longest_name(rt: HostRuntime) -> Result<(), Fail> {
    let alloc = rt.alloc();
    // With the 00 behind its own name.
    let longest = with_name(alloc, &[b'A'; 35], &FIRST[95..])?;
    assert!(rt; fault_of(alloc, &longest, Limits::NONE).is_none());
    let longer = with_name(alloc, &[b'A'; 36], &FIRST[95..])?;
    let fault = PacketFault::FieldTooLong { at: 92 };
    assert!(rt; fault_of(alloc, &longer, Limits::NONE) == Some(fault));
    Ok(())
}

/// The lengths of the names and the subject, a text, and the field that is refused.
const FIELDS: &[(usize, usize, usize, &[u8], Option<Field>)] = &[
    (35, 35, 71, b"H", None),
    (36, 36, 72, b"\0", Some(Field::ToName)),
    (35, 36, 72, b"\0", Some(Field::FromName)),
    (35, 35, 72, b"\0", Some(Field::Subject)),
    (35, 35, 71, b"\0", Some(Field::Text)),
];

fn name(alloc: Global, size: usize) -> Result<Vec<u8>, AllocError> {
    let longest = [b'A'; 72];
    Vec::from_slice(alloc, &longest[..size.min(72)])
}

fn refused_field(
    alloc: Global,
    sizes: (usize, usize, usize),
    text: &[u8],
) -> Result<Option<PacketFault>, AllocError> {
    let to = name(alloc, sizes.0)?;
    let from = name(alloc, sizes.1)?;
    let subject = name(alloc, sizes.2)?;
    let text = Vec::from_slice(alloc, text)?;
    match Packed::new(1, 2, 10, 10, 0, 0, [0; 20], to, from, subject, text) {
        Ok(_) => Ok(None),
        Err(fault) => Ok(Some(fault)),
    }
}

#[test]
fn fields_that_are_refused(rt: HostRuntime) -> Result<(), Fail> {
    for (i, (to, from, subject, text, field)) in FIELDS.iter().enumerate() {
        let fault = refused_field(rt.alloc(), (*to, *from, *subject), text)?;
        assert!(rt; fault == field.map(PacketFault::BadField), "row {i}");
    }
    Ok(())
}
