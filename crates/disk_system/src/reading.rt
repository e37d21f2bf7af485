//! Whole files of the system, read.

ghost use Rattle.std.specs.Prelude.{◌≡◌, ◌≤◌, ◌↔◌, length, IfOk, IfSome, IsTrue};
ghost use Rattle.std.specs.IoError.{error_kind};

use crate::input::{InputFault, read_whole};
use disk_io::Watched;
use std::alloc::Global;
use std::io::{ErrorKind, Read};
use std::rt::Files;
use std::{fs, io};

/// The bytes of the file with this path, if they are at most `most`.
pub fn read_file<R: Files>(
    alloc: Global,
    files: &R,
    path: &str,
    most: usize,
) -> Result<Vec<u8>, InputFault>
    ensures { IfOk result (λ bytes. length bytes.items ≤ most) }
{
    match fs::open(files, path) {
        Ok(file) => read_open(alloc, file, most),
        Err(error) => Err(input_fault(&error)),
    }
}

/// Opens the file with this path. Anything but a regular file, such as a folder or a pipe, is a fault at once.
pub fn open_regular<R: Files>(files: &R, path: &str) -> Result<R::File, InputFault> {
    match fs::metadata(files, path) {
        Ok(found) if found.is_file() => fs::open(files, path).map_err(|error| input_fault(&error)),
        Ok(_) => Err(InputFault::Device),
        Err(error) => Err(input_fault(&error)),
    }
}

fn read_open<F: Read + Drop>(alloc: Global, file: F, most: usize) -> Result<Vec<u8>, InputFault>
    ensures bounded { IfOk result (λ bytes. length bytes.items ≤ most) }
    ensures all { IfOk result (λ bytes. IfSome (F.remaining file) (λ all. bytes.items ≡ all)) }
{
    let mut bytes = read_whole(alloc, &mut Watched::new(file), most)?;
    bytes.shrink_to_fit();
    Ok(bytes)
}

pub(crate) fn is_missing(error: &io::Error) -> bool
    ensures { IsTrue result ↔ (error_kind error.now ≡ ErrorKind.NotFound) }
{
    error.kind() == ErrorKind::NotFound
}

fn input_fault(error: &io::Error) -> InputFault {
    match error.kind() {
        ErrorKind::OutOfMemory => InputFault::Memory,
        _ => InputFault::Device,
    }
}
