//! The packets of a toss, read once before it, if they are small compared with the base folder.

use cmd_input::PathName;
use disk_io::{Buffered, Source, Watched};
use disk_system::open_regular;
use echo_filed::Key;
use echo_packet::{Limits, Packed, PacketReader};
use echo_text::view_front;
use std::alloc::AllocError;
use std::fs;
use std::fs::File;

/// How many bytes of a packet file are read at once.
const BUFFER: usize = 65_536;

/// The most bytes of all packets: keys of more messages would be too many.
const MOST: u64 = 1_048_576;

/// How many bytes of the keys belong to one message.
const ENTRY: u64 = 16;

/// The most messages that are read of a packet.
const MESSAGES: usize = 1_024;

/// The keys of the messages in these packets, if the packets have fewer bytes than the keys of a folder with so many
/// messages. A packet that cannot be read is no fault here: the toss reads it again.
pub fn expected_keys(
    rt: &HostRuntime,
    names: &[PathName],
    limits: Limits,
    messages: usize,
) -> Result<Vec<Key>, AllocError> {
    let mut keys = Vec::new(rt.alloc());
    let most = (messages as u64).saturating_mul(ENTRY).min(MOST);
    if bytes_in(rt, names) < most {
        push_files(rt, names, limits, &mut keys)?;
    }
    Ok(keys)
}

// The size of all files with these names. A file that cannot be used counts 0.
fn bytes_in(rt: &HostRuntime, names: &[PathName]) -> u64 {
    let mut bytes: u64 = 0;
    for name in names {
        bytes = bytes.saturating_add(size_of(rt, name));
    }
    bytes
}

fn size_of(rt: &HostRuntime, name: &PathName) -> u64 {
    let Ok(path) = name.path() else {
        return 0;
    };
    match fs::metadata(rt, path) {
        Ok(found) => found.len(),
        Err(_) => 0,
    }
}

fn push_files(
    rt: &HostRuntime,
    names: &[PathName],
    limits: Limits,
    keys: &mut Vec<Key>,
) -> Result<(), AllocError> {
    for name in names {
        if let Some(file) = open_packet(rt, name) {
            push_file(rt, file, limits, keys)?;
        }
    }
    Ok(())
}

fn open_packet(rt: &HostRuntime, name: &PathName) -> Option<File> {
    match name.path() {
        Ok(path) => open_regular(rt, path).ok(),
        Err(_) => None,
    }
}

fn push_file(
    rt: &HostRuntime,
    file: File,
    limits: Limits,
    keys: &mut Vec<Key>,
) -> Result<(), AllocError> {
    let reader = Buffered::new(rt.alloc(), Watched::new(file), BUFFER)?;
    push_packet(rt, reader, limits, keys)
}

fn push_packet<R: Source + Drop>(
    rt: &HostRuntime,
    reader: R,
    limits: Limits,
    keys: &mut Vec<Key>,
) -> Result<(), AllocError> {
    match PacketReader::open(rt.alloc(), reader, limits) {
        Ok(mut packet) => push_messages(rt, &mut packet, keys),
        Err(_) => Ok(()),
    }
}

fn push_messages<R: Source>(
    rt: &HostRuntime,
    packet: &mut PacketReader<R>,
    keys: &mut Vec<Key>,
) -> Result<(), AllocError> {
    for _ in 0..MESSAGES {
        let Ok(Some(message)) = packet.next() else {
            return Ok(());
        };
        push_key(rt, &message, keys)?;
    }
    Ok(())
}

fn push_key(rt: &HostRuntime, message: &Packed, keys: &mut Vec<Key>) -> Result<(), AllocError> {
    let Ok(front) = view_front(rt.alloc(), message.text()) else {
        return Ok(());
    };
    let (date, to_name) = (message.date(), message.to_name());
    let (from_name, subject) = (message.from_name(), message.subject());
    keys.push(Key::of_front(rt.alloc(), &front, date, to_name, from_name, subject)?)?;
    Ok(())
}
