//! The folder of packets of a base folder. The base folder keeps its path in a note, the file `outbound`. A scan into
//! another folder is refused while a stopped scan has staging files in the noted one: only a scan into that folder
//! can finish them.

use crate::left_files::packets_in;
use cmd_base::is_folder;
use cmd_input::output_fault;
use cmd_status::Fault;
use disk_io::{DiskError, Watched, send};
use disk_system::{OutputFault, flush_folder, make_new, read_file};
use std::fs::{File, OpenFile};
use std::io::ErrorKind;
use std::rt::Files;
use std::{fs, io, str};

/// The name of the note in a base folder.
const NOTE: &str = "outbound";

/// The most bytes of a path.
const MOST_PATH: usize = 4_096;

/// Notes in the base folder that this system, its owner, writes packets into the existing folder `outbound`. That
/// folder can't be used if another one is noted that has staging files of the system, or that can't be read. The base
/// folder can't be used if the note can't be written.
pub fn note_outbound<'a>(
    rt: &HostRuntime,
    base: &'a str,
    outbound: &'a str,
    owner: u64,
) -> Result<(), Fault<'a>> {
    let Some(path) = whole_path(rt, outbound)? else {
        return Ok(());
    };
    let note = format!(in rt.alloc(); "{}/{NOTE}", base.trim_end_matches('/'))?;
    let noted = read_file(rt.alloc(), rt, note.as_str(), MOST_PATH).unwrap_or(Vec::new(rt.alloc()));
    if noted.as_slice() == path.as_bytes() {
        return Ok(());
    }
    match str::from_utf8(&noted) {
        Ok(former) if has_left(rt, former, owner)? => Err(Fault::CannotUse(outbound)),
        _ => write_note(rt, base, note.as_str(), path.as_str()).map_err(|fault| output_fault(
            fault, base,
        )),
    }
}

// The path of an existing folder from the root on, without symbolic links.
fn whole_path<'a>(rt: &HostRuntime, folder: &'a str) -> Result<Option<String>, Fault<'a>> {
    if !is_folder(rt, folder) {
        return Ok(None);
    }
    match rt.canonicalize(rt.alloc(), folder) {
        Ok(path) => Ok(Some(path.into_string())),
        Err(error) if error.kind() == ErrorKind::OutOfMemory => Err(Fault::OutOfMemory),
        Err(_) => Ok(None),
    }
}

// Whether the folder has staging files of packets of this system, or cannot be read. What is a file has none.
fn has_left<'a>(rt: &HostRuntime, folder: &str, owner: u64) -> Result<bool, Fault<'a>> {
    if is_file(rt, folder) {
        return Ok(false);
    }
    let (zone, net, node) = (owner >> 32, owner >> 16 & 65_535, owner & 65_535);
    let own = format!(in rt.alloc(); "{zone}.{net}.{node}")?;
    match packets_in(rt, folder, own.as_str()) {
        Ok(left) => Ok(!left.is_empty()),
        Err(DiskError::Memory) => Err(Fault::OutOfMemory),
        Err(DiskError::Device) => Ok(true),
    }
}

fn is_file(rt: &HostRuntime, path: &str) -> bool {
    match fs::metadata(rt, path) {
        Ok(found) => found.is_file(),
        Err(_) => false,
    }
}

// Replaces the note. After it the new note is on the disk.
fn write_note(rt: &HostRuntime, base: &str, note: &str, path: &str) -> Result<(), OutputFault> {
    let staging = format!(in rt.alloc(); "{note}.new")?;
    let _ = fs::remove_file(rt, staging.as_str());
    let file = make_new(rt, staging.as_str())?;
    fill(file, path.as_bytes())?;
    fs::rename(rt, staging.as_str(), note)?;
    flush_folder(rt, base)
}

fn fill(file: File, bytes: &[u8]) -> io::Result<()> {
    let mut device = Watched::new(file);
    let mut sent = 0;
    if send(&mut device, bytes, &mut sent).is_err() {
        return Err(ErrorKind::Other.into());
    }
    device.into_inner().sync_all()
}
