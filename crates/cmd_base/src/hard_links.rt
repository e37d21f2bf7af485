//! Hard links to files of a base folder, as a snapshot by `cp -al` has.
ghost use Rattle.std.specs.Prelude.{◌≢◌, ◌<◌, IfSome};

use base_folder::log_end;
use base_log::Names;
use cmd_input::{folder_fault, locked_folder, output_fault, text_path};
use cmd_status::Fault;
use disk_system::{
    Access, OutputFault, RealDisk, Unknown, flush_folder, give_access, make_new, replaced_access,
};
use std::fs::{DirEntry, File, Metadata};
use std::io::ErrorKind;
use std::os::unix::fs::MetadataExt;
use std::{fs, io};

/// How many numbers the files of a base folder have.
const NUMBERS: u8 = 10;

/// Replaces each file of a base folder that has a second path by a copy. So no command changes a snapshot of hard
/// links. The files have `path` before their names. In a folder that is no base nothing is changed.
pub fn break_hard_links<'a>(
    rt: &HostRuntime,
    base: &'a str,
    path: &str,
    strange: bool,
) -> Result<(), Fault<'a>> {
    if !has_hard_links(rt, base)? {
        return Ok(());
    }
    let _locked = locked_folder(rt, base)?;
    match spare_in(rt, path, strange) {
        Some(spare) => copy_linked(rt, base, path, spare).map_err(|fault| output_fault(
            fault, base,
        )),
        // Opening the folder reports it.
        None => Ok(()),
    }
}

fn has_hard_links<'a>(rt: &HostRuntime, base: &'a str) -> Result<bool, Fault<'a>> {
    let entries = fs::read_dir(rt, base).map_err(|error| folder_fault(&error, base))?;
    for entry in entries {
        if is_linked_entry(entry) {
            return Ok(true);
        }
    }
    Ok(false)
}

// A name that is no text does not belong to a base folder.
fn is_linked_entry(entry: io::Result<DirEntry>) -> bool {
    match entry {
        Ok(entry) => match entry.metadata() {
            Ok(found) => has_second_path(&found),
            Err(_) => false,
        },
        Err(_) => false,
    }
}

fn has_second_path(found: &Metadata) -> bool {
    found.is_file() && found.nlink() > 1
}

fn spare_in(rt: &HostRuntime, path: &str, strange: bool) -> Option<u8>
    ensures { IfSome result (λ spare. spare < 10) }
{
    let mut disk = RealDisk::new(rt, Unknown);
    match log_end(rt.alloc(), &mut disk, path.as_bytes(), strange) {
        Ok(end) => Some(spare_number(end.recorded.number)),
        Err(_) => None,
    }
}

fn spare_number(used: u8) -> u8
    ensures digit { result < 10 }
    ensures other { result ≢ used }
{
    if used == 0 { 1 } else { 0 }
}

// Each copy is made at the path of the messages of a number that does not count, so a stopped run leaves a base folder.
fn copy_linked(rt: &HostRuntime, base: &str, path: &str, spare: u8) -> Result<(), OutputFault>
    requires { spare < 10 }
{
    let names = Names::new(rt.alloc(), path.as_bytes(), spare)?;
    copy_over(rt, path, text_path(&names.log), text_path(&names.messages))?;
    flush_folder(rt, base)
}

// Copies all, by way of a staging file. If that fails, none is left.
fn copy_over(rt: &HostRuntime, path: &str, log: &str, staging: &str) -> Result<(), OutputFault> {
    remove_left(rt, staging)?;
    let copied = copy_each(rt, path, log, staging);
    if copied.is_err() {
        let _ = fs::remove_file(rt, staging);
    }
    copied
}

fn remove_left(rt: &HostRuntime, staging: &str) -> io::Result<()> {
    match fs::remove_file(rt, staging) {
        Err(error) if error.kind() != ErrorKind::NotFound => Err(error),
        _ => Ok(()),
    }
}

fn copy_each(rt: &HostRuntime, path: &str, log: &str, staging: &str) -> Result<(), OutputFault> {
    copy_if_linked(rt, log, staging)?;
    'numbers: for number in 0..NUMBERS {
        copy_number(rt, path, number, staging)?;
    }
    Ok(())
}

fn copy_number(rt: &HostRuntime, path: &str, number: u8, staging: &str) -> Result<(), OutputFault>
    requires { number < 10 }
{
    let names = Names::new(rt.alloc(), path.as_bytes(), number)?;
    copy_if_linked(rt, text_path(&names.messages), staging)?;
    copy_if_linked(rt, text_path(&names.keys), staging)
}

fn copy_if_linked(rt: &HostRuntime, path: &str, staging: &str) -> Result<(), OutputFault> {
    if !is_linked(rt, path)? {
        return Ok(());
    }
    copy_to(rt, path, staging)?;
    fs::rename(rt, staging, path)?;
    Ok(())
}

fn copy_to(rt: &HostRuntime, path: &str, staging: &str) -> Result<(), OutputFault> {
    let access = replaced_access(rt, path)?;
    make_new(rt, staging)?;
    fs::copy(rt, path, staging)?;
    let copy = fs::open(rt, staging)?;
    sync_with(&copy, access)?;
    Ok(())
}

fn sync_with(file: &File, access: Option<Access>) -> io::Result<()> {
    if let Some(access) = access {
        give_access(file, access)?;
    }
    file.sync_all()
}

fn is_linked(rt: &HostRuntime, path: &str) -> io::Result<bool> {
    match fs::symlink_metadata(rt, path) {
        Ok(found) => Ok(has_second_path(&found)),
        Err(error) if error.kind() == ErrorKind::NotFound => Ok(false),
        Err(error) => Err(error),
    }
}
