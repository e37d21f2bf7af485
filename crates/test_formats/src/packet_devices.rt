//! Packets from readers that cut and fail, and to writers that do.
use crate::samples::{FIRST, joined};
use echo_addr::{Sink, Source, Trial, Watched};
use echo_packet::{Header, Limits, Packed, PacketFault, PacketReader, PacketWriter, read_packet};
use std::alloc::Global;
use std::test::Fail;

/// What `open` answers, and three calls of `next`: whether there is a message.
type Answers = Result<[Result<bool, PacketFault>; 3], PacketFault>;

const STOPPED: Result<bool, PacketFault> = Err(PacketFault::Stopped);

fn next<R: Source>(reader: &mut PacketReader<R>) -> Result<bool, PacketFault> {
    match reader.next() {
        Ok(message) => Ok(message.is_some()),
        Err(fault) => Err(fault),
    }
}

fn answers<R: Source + Drop>(alloc: Global, source: R) -> Answers {
    match PacketReader::open(alloc, source, Limits::NONE) {
        Ok(mut reader) => Ok([next(&mut reader), next(&mut reader), next(&mut reader)]),
        Err(fault) => Err(fault),
    }
}

/// The answers where the packet of the first posting ends, or the reader fails, after so many bytes.
fn stopped_after(count: usize, fault: PacketFault) -> Answers {
    match count {
        0..58 => Err(fault),
        58..210 => Ok([Err(fault), STOPPED, STOPPED]),
        _ => Ok([Ok(true), Err(fault), STOPPED]),
    }
}

/// Where the field begins that ends after more than so many bytes.
fn place_of_cut(count: usize) -> u64 {
    match count {
        0..58 => 0,
        58..60 => 58,
        60..72 => 60,
        72..92 => 72,
        92..96 => 92,
        96..100 => 96,
        100..103 => 100,
        103..210 => 103,
        _ => 210,
    }
}

#[test]
fn every_cut(rt: HostRuntime) {
    for count in 0..FIRST.len() {
        let at = place_of_cut(count);
        let wanted = stopped_after(count, PacketFault::Truncated { at });
        let found = answers(rt.alloc(), &FIRST[..count]);
        assert!(rt; found == wanted, "{count} bytes");
    }
}

#[test]
fn failing_packet_readers(rt: HostRuntime) {
    for count in 0..FIRST.len() {
        let at = place_of_cut(count);
        let wanted = stopped_after(count, PacketFault::Read { at });
        let reader = Watched::new(Trial::new(FIRST, 1000, 0, count as u64));
        assert!(rt; answers(rt.alloc(), reader) == wanted, "{count} bytes");
    }
}

/// The places after `open` and three calls of `next`.
fn places<R: Source + Drop>(alloc: Global, source: R) -> Option<[u64; 4]> {
    let Ok(mut reader) = PacketReader::open(alloc, source, Limits::NONE) else {
        return None;
    };
    let mut all = [reader.place(), 0, 0, 0];
    for place in all.iter_mut().skip(1) {
        if reader.next().is_err() {
            return None;
        }
        *place = reader.place();
    }
    Some(all)
}

/// The places of the packet, and how many bytes are left behind it.
fn places_and_rest(
    alloc: Global,
    bytes: &[u8],
    piece: usize,
    again: u32,
) -> (Option<[u64; 4]>, usize) {
    let mut source = Watched::new(Trial::new(bytes, piece, again, u64::MAX));
    let all = places(alloc, &mut source);
    (all, source.into_inner().into_inner().len())
}

/// Neither pieces nor fifteen interruptions before each of them change an answer, and no byte after the packet is
/// taken.
#[test]
fn readers_in_pieces(rt: HostRuntime) -> Result<(), Fail> {
    let bytes = joined(rt.alloc(), FIRST, b"after")?;
    for (piece, again) in [(1, 0), (7, 0), (1000, 0), (1, 15), (7, 15), (1000, 15)] {
        let found = places_and_rest(rt.alloc(), &bytes, piece, again);
        assert!(rt;
            found == (Some([58, 210, 212, 212]), 5),
            "pieces of {piece}"
        );
    }
    Ok(())
}

#[test]
fn sixteen_interruptions(rt: HostRuntime) {
    let reader = Watched::new(Trial::new(FIRST, 1, 16, u64::MAX));
    assert!(rt; answers(rt.alloc(), reader) == Err(PacketFault::Read { at: 0 }));
}

fn finish<W: Sink + Drop>(packet: PacketWriter<W>) -> Result<(), PacketFault> {
    match packet.finish() {
        Ok(_) => Ok(()),
        Err(fault) => Err(fault),
    }
}

fn put_all<W: Sink + Drop>(
    mut packet: PacketWriter<W>,
    messages: &[Packed],
) -> Result<(), PacketFault> {
    for message in messages {
        packet.put(message)?;
    }
    finish(packet)
}

fn write<W: Sink + Drop>(
    device: W,
    header: &Header,
    messages: &[Packed],
) -> Result<(), PacketFault> {
    match PacketWriter::begin(device, header) {
        Ok(packet) => put_all(packet, messages),
        Err(fault) => Err(fault),
    }
}

/// What writing the packet to a device answers that takes pieces and fails after some bytes, and whether just the first
/// of its bytes went.
fn written(
    alloc: Global,
    header: &Header,
    messages: &[Packed],
    piece: usize,
    left: usize,
) -> (Result<(), PacketFault>, bool) {
    let mut device = Watched::new(Trial::new(Vec::new(alloc), piece, 1, left as u64));
    let answer = write(&mut device, header, messages);
    let went = device.into_inner().into_inner();
    (answer, Some(went.as_slice()) == FIRST.get(..left))
}

#[test]
fn failing_packet_writers(rt: HostRuntime) -> Result<(), Fail> {
    let (header, messages, _) = read_packet(rt.alloc(), FIRST, Limits::NONE)?;
    for left in 0..FIRST.len() {
        let bytes = left as u64;
        let found = written(rt.alloc(), &header, &messages, 1000, left);
        assert!(rt;
            found == (Err(PacketFault::Write { bytes }), true),
            "{left}"
        );
    }
    Ok(())
}

#[test]
fn writers_in_pieces(rt: HostRuntime) -> Result<(), Fail> {
    let (header, messages, _) = read_packet(rt.alloc(), FIRST, Limits::NONE)?;
    for piece in [1, 7, 1000] {
        let found = written(rt.alloc(), &header, &messages, piece, FIRST.len());
        assert!(rt; found == (Ok(()), true), "pieces of {piece}");
    }
    let (none, _) = written(rt.alloc(), &header, &messages, 0, FIRST.len());
    assert!(rt; none == Err(PacketFault::Write { bytes: 0 }));
    Ok(())
}

/// What two calls of `put` answer, and `finish` after them.
fn put_twice<W: Sink + Drop>(
    mut packet: PacketWriter<W>,
    messages: &[Packed],
) -> [Result<(), PacketFault>; 3] {
    match messages {
        [message] => [packet.put(message), packet.put(message), finish(packet)],
        _ => [Ok(()); 3],
    }
}

#[test]
fn stopped_packet_writers(rt: HostRuntime) -> Result<(), Fail> {
    let (header, messages, _) = read_packet(rt.alloc(), FIRST, Limits::NONE)?;
    let device = Watched::new(Trial::new(Vec::new(rt.alloc()), 1000, 0, 100));
    let answers = match PacketWriter::begin(device, &header) {
        Ok(packet) => put_twice(packet, &messages),
        Err(fault) => [Err(fault); 3],
    };
    let stopped = Err(PacketFault::Stopped);
    assert!(rt; answers == [Err(PacketFault::Write { bytes: 100 }), stopped, stopped]);
    Ok(())
}
