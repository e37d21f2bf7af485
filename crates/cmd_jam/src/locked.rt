//! A JAM base under its lock: `flock` on the file of headers. A missing base is made first, under the lock of its
//! folder.

use crate::named::{bytes_of, check_file, open_file, open_or_make, with_end, write_at};
use cmd_base::check_base;
use cmd_input::{created_now, lock_file, locked_folder, output_fault};
use cmd_status::Fault;
use disk_system::{
    BY_UMASK, NewFile, OutputFault, create_file, flush_folder, parent_path, remove_left,
};
use echo_jam::new_fixed;
use std::fs;
use std::fs::File;

/// The word in the staging path of the headers where other files have the address of a system.
const OWN: &str = "jam";

/// How many bytes show that a file is one of headers: `JAM` and 00.
const HEADERS_KNOWN_BY: usize = 4;

/// How long the fixed header is.
const FIXED: usize = 1024;

/// The headers of this JAM base, open and locked. A missing one is made, if the base with the messages can be read.
pub(crate) fn locked_headers<'a>(
    rt: &HostRuntime,
    path: &'a str,
    base: &'a str,
) -> Result<File, Fault<'a>> {
    if !has_headers(rt, path)? {
        check_base(rt, base)?;
        begin_alone(rt, path)?;
    }
    match locked_cleared(rt, path) {
        Ok(headers) => Ok(headers),
        Err(fault) => Err(output_fault(fault, path)),
    }
}

fn has_headers<'a>(rt: &HostRuntime, path: &'a str) -> Result<bool, Fault<'a>> {
    match is_there(rt, path, ".jhr") {
        Ok(found) => Ok(found),
        Err(fault) => Err(output_fault(fault, path)),
    }
}

fn locked_cleared(rt: &HostRuntime, path: &str) -> Result<File, OutputFault> {
    clear_left(rt, path)?;
    locked_again(rt, path)
}

/// The headers of an existing JAM base, open and locked.
pub(crate) fn locked_again(rt: &HostRuntime, path: &str) -> Result<File, OutputFault> {
    let headers = open_file(rt, path, ".jhr")?;
    match lock_headers(rt, path, &headers) {
        Ok(()) => Ok(headers),
        Err(fault) => Err(fault),
    }
}

fn lock_headers(rt: &HostRuntime, path: &str, headers: &File) -> Result<(), OutputFault> {
    match lock_file(rt, headers, path) {
        Ok(()) => check_file(rt, path, ".jhr", headers),
        Err(_) => Err(OutputFault::Device),
    }
}

fn is_there(rt: &HostRuntime, path: &str, end: &str) -> Result<bool, OutputFault> {
    match with_end(rt, path, end) {
        Ok(file) => exists(rt, file.as_str()),
        Err(_) => Err(OutputFault::Memory),
    }
}

fn exists(rt: &HostRuntime, file: &str) -> Result<bool, OutputFault> {
    match fs::exists(rt, file) {
        Ok(found) => Ok(found),
        Err(error) => Err(OutputFault::from(error)),
    }
}

// The staging path of the headers.
fn staging_end(rt: &HostRuntime) -> Result<String, OutputFault> {
    Ok(format!(in rt.alloc(); ".jhr.~{OWN}~.new")?)
}

// Removes the staging file of a stopped run. One that cannot be removed is no fault of the base.
fn clear_left(rt: &HostRuntime, path: &str) -> Result<(), OutputFault> {
    let end = staging_end(rt)?;
    if is_there(rt, path, end.as_str())? {
        let _ = begin_alone(rt, path);
    }
    Ok(())
}

// Makes a JAM base under the lock of its folder, unless another run made it. Removes the staging file of a stopped run.
fn begin_alone<'a>(rt: &HostRuntime, path: &'a str) -> Result<(), Fault<'a>> {
    match locked_folder(rt, parent_path(path)) {
        Ok(locked) => {
            let begun = begin_locked(rt, path);
            let _ = locked.unlock();
            begun
        }
        Err(Fault::OutOfMemory) => Err(Fault::OutOfMemory),
        Err(_) => Err(Fault::CannotUse(path)),
    }
}

fn begin_locked<'a>(rt: &HostRuntime, path: &'a str) -> Result<(), Fault<'a>> {
    match remove_staging(rt, path) {
        Ok(true) => Ok(()),
        Ok(false) => begin_now(rt, path),
        Err(fault) => Err(output_fault(fault, path)),
    }
}

// Removes the staging file. Whether there is a base.
fn remove_staging(rt: &HostRuntime, path: &str) -> Result<bool, OutputFault> {
    let end = staging_end(rt)?;
    let staging = with_end(rt, path, end.as_str())?;
    remove_left(rt, staging.as_str());
    is_there(rt, path, ".jhr")
}

fn begin_now<'a>(rt: &HostRuntime, path: &'a str) -> Result<(), Fault<'a>> {
    let created = created_now(rt)?;
    match begin_jam(rt, path, created) {
        Ok(()) => Ok(()),
        Err(fault) => Err(output_fault(fault, path)),
    }
}

// Makes a JAM base. The file of headers comes last and in one step, when the names of the others are on the disk.
// Readers know by it that there is a base.
fn begin_jam(rt: &HostRuntime, path: &str, created: u32) -> Result<(), OutputFault> {
    make_others(rt, path, true)?;
    let headers = with_end(rt, path, ".jhr")?;
    let bytes = new_fixed(rt.alloc(), created)?;
    make_headers(rt, headers.as_str(), bytes.as_slice())
}

fn make_headers(rt: &HostRuntime, headers: &str, bytes: &[u8]) -> Result<(), OutputFault> {
    let new = NewFile {
        path: headers,
        own: OWN,
        bytes,
        known_by: HEADERS_KNOWN_BY,
        mode: BY_UMASK,
    };
    create_file(rt.alloc(), rt, new)?;
    flush_folder(rt, parent_path(headers))
}

// Makes the other files, if they are missing, and flushes their folder. The index of a new base has no bytes.
fn make_others(rt: &HostRuntime, path: &str, is_new: bool) -> Result<(), OutputFault> {
    make_index(rt, path, is_new)?;
    open_or_make(rt, path, ".jdt")?;
    open_or_make(rt, path, ".jlr")?;
    flush_folder(rt, parent_path(path))
}

fn make_index(rt: &HostRuntime, path: &str, is_new: bool) -> Result<(), OutputFault> {
    let index = open_or_make(rt, path, ".jdx")?;
    match index.metadata() {
        Ok(found) if found.len() == 0 || !is_new => Ok(()),
        _ => Err(OutputFault::Device),
    }
}

/// The headers of a base that a power cut may have cut. If they are zeros, the base is made again. If they are the
/// fixed header alone, the missing files are made.
pub(crate) fn read_headers<'a>(
    rt: &HostRuntime,
    path: &'a str,
    headers: &File,
) -> Result<Vec<u8>, Fault<'a>> {
    match bytes_of(rt, headers) {
        Ok(found) => begun_again(rt, path, headers, found),
        Err(fault) => Err(output_fault(fault, path)),
    }
}

fn begun_again<'a>(
    rt: &HostRuntime,
    path: &'a str,
    headers: &File,
    found: Vec<u8>,
) -> Result<Vec<u8>, Fault<'a>> {
    if found.len() <= FIXED && found.iter().all(|byte| *byte == 0) {
        let created = created_now(rt)?;
        return match write_fixed(rt, path, headers, created) {
            Ok(bytes) => Ok(bytes),
            Err(fault) => Err(output_fault(fault, path)),
        };
    }
    match complete_others(rt, path, &found) {
        Ok(()) => Ok(found),
        Err(fault) => Err(output_fault(fault, path)),
    }
}

fn write_fixed(
    rt: &HostRuntime,
    path: &str,
    headers: &File,
    created: u32,
) -> Result<Vec<u8>, OutputFault> {
    make_others(rt, path, true)?;
    let bytes = new_fixed(rt.alloc(), created)?;
    match write_at(headers, bytes.as_slice(), 0) {
        Ok(()) => Ok(bytes),
        Err(fault) => Err(fault),
    }
}

fn complete_others(rt: &HostRuntime, path: &str, found: &[u8]) -> Result<(), OutputFault> {
    if found.len() == FIXED && found.starts_with(b"JAM\0") && !has_others(rt, path)? {
        make_others(rt, path, false)?;
    }
    Ok(())
}

fn has_others(rt: &HostRuntime, path: &str) -> Result<bool, OutputFault> {
    Ok(is_there(rt, path, ".jdx")? && is_there(rt, path, ".jdt")?)
}
