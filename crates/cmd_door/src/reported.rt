//! A base that is read with reports of progress.

use crate::{UseMessages, with_folder};
use base_folder::BaseReader;
use cmd_base::{Messages, hash_state, is_folder};
use cmd_input::{Progress, output_fault};
use cmd_status::Fault;
use disk_io::{Buffered, Source, Watched};
use disk_system::{InputFault, OutputFault, read_whole};
use station::Followed;
use std::fs;
use std::fs::File;

/// How many bytes are read at once.
const BUFFER: usize = 65_536;

/// Opens a base as `with_base` does, and reports the progress.
pub fn with_reported<'a, U: UseMessages<'a>>(
    rt: &HostRuntime,
    base: &'a str,
    first: u64,
    progress: &Progress<'_>,
    user: &mut U,
) -> Result<U::Answer, Fault<'a>> {
    if is_folder(rt, base) {
        return with_folder(rt, base, first, Some(progress), user);
    }
    match open_and_read(rt, base, progress) {
        Ok(bytes) => with_bytes(rt, &bytes, user),
        Err(fault) => Err(output_fault(fault, base)),
    }
}

fn with_bytes<'a, U: UseMessages<'a>>(
    rt: &HostRuntime,
    bytes: &[u8],
    user: &mut U,
) -> Result<U::Answer, Fault<'a>> {
    let hasher = hash_state(rt)?;
    match BaseReader::read(rt.alloc(), bytes, hasher) {
        Ok(mut messages) => user.run(&mut messages),
        Err(fault) => Err(fault),
    }
}

fn open_and_read(
    rt: &HostRuntime,
    base: &str,
    progress: &Progress<'_>,
) -> Result<Vec<u8>, OutputFault> {
    let file = fs::open(rt, base)?;
    let size = file.metadata()?.len() as usize;
    read_reported(rt, file, size, progress)
}

// Reads the file. Its first bytes, which say how many messages it has, are read before the first report.
fn read_reported(
    rt: &HostRuntime,
    file: File,
    size: usize,
    progress: &Progress<'_>,
) -> Result<Vec<u8>, OutputFault> {
    match Buffered::new(rt.alloc(), Watched::new(file), BUFFER) {
        Ok(mut source) => match source.read_ahead() {
            Ok(_) => read_followed(rt, &mut source, size, progress),
            Err(_) => Err(OutputFault::Device),
        },
        Err(_) => Err(OutputFault::Memory),
    }
}

fn read_followed<S: Source>(
    rt: &HostRuntime,
    source: &mut S,
    size: usize,
    progress: &Progress<'_>,
) -> Result<Vec<u8>, OutputFault> {
    let watch = Messages {
        progress: Some(progress),
    };
    let mut reported = Followed::new(source, size, &watch);
    match read_whole(rt.alloc(), &mut reported, usize::MAX) {
        Ok(mut bytes) => {
            bytes.shrink_to_fit();
            Ok(bytes)
        }
        Err(InputFault::Memory) => Err(OutputFault::Memory),
        Err(_) => Err(OutputFault::Device),
    }
}
