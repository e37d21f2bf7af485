//! Base folders: which BASE is one, and its files.

use base_file::BaseFault;
use base_folder::{OpenError, log_end};
use cmd_input::{folder_fault, folder_path, output_fault};
use cmd_status::Fault;
use disk_system::{RealDisk, Unknown, flush_path};
use std::collections::hash_map::RandomState;
use std::fs::DirEntry;
use std::hash::{BuildHasher, Hasher};
use std::{fs, io};

/// Whether the path is that of a folder.
pub fn is_folder(rt: &HostRuntime, path: &str) -> bool {
    match fs::metadata(rt, path) {
        Ok(found) => found.is_dir(),
        Err(_) => false,
    }
}

/// Syncs the name of a base folder with this many messages, if it has none: then it may be new.
pub fn flush_name<'a>(rt: &HostRuntime, base: &'a str, messages: usize) -> Result<(), Fault<'a>> {
    if messages > 0 {
        return Ok(());
    }
    let name = base.trim_end_matches('/');
    flush_path(rt.alloc(), rt, name).map_err(|fault| output_fault(fault, base))
}

/// Whether nothing was ever committed in the folder, and all its files can belong to a base folder.
pub fn is_unused<'a>(rt: &HostRuntime, base: &'a str) -> Result<bool, Fault<'a>> {
    let strange = is_strange(rt, base)?;
    let path = folder_path(rt, base)?;
    let mut disk = RealDisk::new(rt, Unknown);
    match log_end(rt.alloc(), &mut disk, path.as_str().as_bytes(), strange) {
        Ok(end) => Ok(end.records_len == 0),
        Err(OpenError::Wrong(_)) => Ok(false),
        Err(why) => Err(why.fault(base)),
    }
}

/// The hasher of look-ups. If the system gives no seed, that is a failed read.
pub fn hash_state<'a>(rt: &HostRuntime) -> Result<RandomState, Fault<'a>> {
    match RandomState::new(rt) {
        Ok(state) => Ok(state),
        Err(_) => Err(Fault::Base(BaseFault::Read)),
    }
}

/// A key for digests, as two halves.
pub fn drawn_key<'a>(rt: &HostRuntime) -> Result<(u64, u64), Fault<'a>> {
    let state = hash_state(rt)?;
    Ok((half_of(&state, 1), half_of(&state, 2)))
}

fn half_of(state: &RandomState, number: u8) -> u64 {
    let mut hasher = state.build_hasher();
    hasher.write(&[number]);
    hasher.finish()
}

/// Whether the folder has a file that cannot belong to a base folder.
pub fn is_strange<'a>(rt: &HostRuntime, base: &'a str) -> Result<bool, Fault<'a>> {
    let names = fs::read_dir(rt, base).map_err(|error| folder_fault(&error, base))?;
    for entry in names {
        if is_strange_entry(entry, base)? {
            return Ok(true);
        }
    }
    Ok(false)
}

// Whether the entry of a folder cannot belong to a base folder. A name that is no text cannot.
fn is_strange_entry<'a>(entry: io::Result<DirEntry>, base: &'a str) -> Result<bool, Fault<'a>> {
    match entry {
        Ok(entry) => Ok(!is_own(entry.file_name())),
        Err(error) if error.kind() == io::ErrorKind::InvalidFilename => Ok(true),
        Err(error) => Err(folder_fault(&error, base)),
    }
}

fn is_own(name: &str) -> bool {
    match name.rsplit_once('.') {
        Some(("messages" | "keys", digit)) => digit.len() == 1
            && digit.as_bytes()[0].is_ascii_digit(),
        Some((first, last)) => first == "outbound" && last == "new",
        None => name == "log" || name == "outbound",
    }
}
