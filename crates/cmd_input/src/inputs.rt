//! The bytes of files and of standard input.
ghost use Rattle.std.specs.Prelude.{◌≡◌, ◌+◌, IfOk, None, OnOk, is_some, vec_len};

use crate::paths::{PathName, PathNames};
use cmd_status::Fault;
use disk_io::Watched;
use disk_system::{InputFault, OutputFault, read_whole};
use echo_addr::Items;
use std::io;
use std::io::ErrorKind;

/// The most bytes of a nodelist, and of a packet given to `show`.
pub const MAX_INPUT: usize = 67_108_864;

/// The most bytes of a link file, a script or a posted body.
pub const MAX_TEXT_FILE: usize = 1_048_576;

/// Why the file with this path was not read.
pub fn input_fault(fault: InputFault, path: &str) -> Fault<'_> {
    match fault {
        InputFault::TooLarge => Fault::TooLarge(path),
        InputFault::Device => Fault::CannotUse(path),
        InputFault::Memory => Fault::OutOfMemory,
    }
}

/// Why the file with this path was not written.
pub fn output_fault(fault: OutputFault, path: &str) -> Fault<'_> {
    match fault {
        OutputFault::Device => Fault::CannotUse(path),
        OutputFault::Memory => Fault::OutOfMemory,
    }
}

/// Why the folder cannot be read.
pub fn folder_fault<'a>(error: &io::Error, folder: &'a str) -> Fault<'a> {
    match error.kind() {
        ErrorKind::OutOfMemory => Fault::OutOfMemory,
        _ => Fault::CannotUse(folder),
    }
}

/// The bytes of a file, if they are at most `most`.
pub fn read_file<'a>(rt: &HostRuntime, path: &'a str, most: usize) -> Result<Vec<u8>, Fault<'a>> {
    disk_system::read_file(rt.alloc(), rt, path, most).map_err(|fault| input_fault(fault, path))
}

/// The bytes of a file, if one is given.
pub fn read_if_given<'a>(
    rt: &HostRuntime,
    path: Option<&'a str>,
    most: usize,
) -> Result<Option<Vec<u8>>, Fault<'a>>
    ensures { IfOk result (λ bytes. is_some bytes ≡ is_some path.entry) }
{
    match path {
        Some(path) => Ok(Some(read_file(rt, path, most)?)),
        None => Ok(None),
    }
}

/// The bytes of a file, or of standard input if the path is `-`.
pub fn read_given<'a>(rt: &HostRuntime, path: &'a str, most: usize) -> Result<Vec<u8>, Fault<'a>> {
    if path == "-" {
        read_standard_input(rt, most)
    } else {
        read_file(rt, path, most)
    }
}

/// The bytes of standard input.
pub fn read_standard_input<'a>(rt: &HostRuntime, most: usize) -> Result<Vec<u8>, Fault<'a>> {
    read_whole(rt.alloc(), &mut Watched::new(rt.reader()), most).map_err(|fault| input_fault(
        fault, "-",
    ))
}

/// The bytes of link files in order, up to the first that cannot be read. The fault is that of this file, or the
/// reason why the list of link files was not read. Without a fault all were read.
pub fn read_links<'a>(
    rt: &HostRuntime,
    links: &'a PathNames<'a>,
) -> (Vec<Items<u8>>, Option<Fault<'a>>)
    ensures { result.1 ≡ None → vec_len result.0 ≡ vec_len links.now.names }
{
    let mut files = Vec::new(rt.alloc());
    match push_links(rt, links, &mut files) {
        Ok(()) => (files, links.stopped),
        Err(fault) => (files, Some(fault)),
    }
}

fn push_links<'a>(
    rt: &HostRuntime,
    links: &'a PathNames<'a>,
    files: &mut Vec<Items<u8>>,
) -> Result<(), Fault<'a>>
    ensures { OnOk result (vec_len files.new ≡ vec_len files.old + vec_len links.now.names) }
{
    for name in &links.names {
        files.push(Items::new(read_link_file(rt, name)?))?;
    }
    Ok(())
}

/// The bytes of the link file with this name.
pub fn read_link_file<'a>(rt: &HostRuntime, name: &'a PathName) -> Result<Vec<u8>, Fault<'a>> {
    read_file(rt, name.path()?, MAX_TEXT_FILE)
}
