//! `export --msg`: messages of a base as files of a folder. The lock of the folder is held from before the base is read
//! until the last file is written. So two runs at once add each message once.

ghost use Rattle.std.specs.Prelude.{◌≢◌, IfErr};

use crate::bases::first_number;
use crate::files::file_path;
use base_folder::MessageSource;
use cmd_door::{UseMessages, with_base};
use cmd_input::{locked_folder, output_fault, read_file, text_path};
use cmd_numbered::{
    ExportError, Exported, LastFile, MessageFile, MessageFolder, export_files, is_left,
    stored_number, tell_exported,
};
use cmd_status::{Fault, Status};
use cmd_words::ExportStoredWords;
use disk_io::Sink;
use disk_system::{
    BY_UMASK, NewFile, OutputFault, create_file, flush_folder, parent_path, remove_left,
};
use std::alloc::AllocError;
use std::fs::File;
use std::{fs, io};

/// The word in the staging path of a message where other files have the address of a system.
const OWN: &str = "msg";

/// How many bytes show that a file is the message that is to be written: its sender's name.
const MESSAGE_KNOWN_BY: usize = 36;

#[derive(Drop)]
struct Last {
    number: u32,
    path: String,
}

// A folder that gets files. It reports on `errors` why a file was not made.
#[derive(Drop)]
struct FolderFiles<'r, 'a, E: Sink> {
    rt: &'r HostRuntime,
    folder: &'a str,
    errors: &'r mut E,
}

impl<E: Sink> MessageFolder for FolderFiles<'_, '_, E> {
    ghost use Rattle.std.specs.Prelude.{◌≢◌, None};
    ghost use Rattle.cmd_status.specs.declared.status.Status.TheVariants.{Good};

    ghost made = { λ folder. None };

    ghost refuses = { λ before now status. status ≢ Good };

    fn make(&mut self, file: &MessageFile) -> Result<(), Status> {
        match file_path(self.rt, self.folder, text_path(file.name.as_slice())) {
            Ok(path) => self.make_at(path.as_str(), file),
            Err(_) => Err(self.refuse(OutputFault::Memory, "")),
        }
    }
}

impl<E: Sink> FolderFiles<'_, '_, E> {
    // Makes the file at this path. Its name is on the disk then, so after a power cut the first ones of several files are
    // there.
    fn make_at(&mut self, path: &str, file: &MessageFile) -> Result<(), Status>
        ensures { IfErr result (λ status. status ≢ Status.Good) }
    {
        let new = NewFile {
            path,
            own: OWN,
            bytes: file.bytes.as_slice(),
            known_by: MESSAGE_KNOWN_BY,
            mode: BY_UMASK,
        };
        let made = match create_file(self.rt.alloc(), self.rt, new) {
            Ok(()) => flush_folder(self.rt, parent_path(path)),
            failed => failed,
        };
        match made {
            Ok(()) => Ok(()),
            Err(fault) => Err(self.refuse(fault, path)),
        }
    }

    fn refuse(&mut self, fault: OutputFault, path: &str) -> Status
        ensures { result ≢ Status.Good }
    {
        output_fault(fault, path).report(self.errors)
    }
}

/// `export --msg DIR --area TAG [--from I] BASE`: the number is judged first. The folder is locked before the base is
/// read, and a fault of the base counts before one of the folder. Each file is made before the next message is read.
pub(crate) fn run_export_stored<W: Sink, E: Sink>(
    rt: &HostRuntime,
    words: &ExportStoredWords<'_>,
    out: &mut W,
    errors: &mut E,
) -> Status {
    match first_number(words.from) {
        Ok(first) => export_first(rt, words, first, out, errors),
        Err(fault) => fault.report(errors),
    }
}

fn export_first<'q, W: Sink, E: Sink>(
    rt: &'q HostRuntime,
    words: &'q ExportStoredWords<'q>,
    first: u64,
    out: &'q mut W,
    errors: &'q mut E,
) -> Status {
    let locked = locked_folder(rt, words.folder);
    let mut storing = Storing {
        rt,
        words,
        first,
        locked: &locked,
        out,
        errors,
    };
    match with_base(rt, words.base, 0, &mut storing) {
        Ok(status) => status,
        Err(fault) => fault.report(storing.errors),
    }
}

#[derive(Drop)]
struct Storing<'q, 'a, W, E> {
    rt: &'q HostRuntime,
    words: &'q ExportStoredWords<'a>,
    first: u64,
    locked: &'q Result<File, Fault<'a>>,
    out: &'q mut W,
    errors: &'q mut E,
}

impl<'a, W: Sink, E: Sink> UseMessages<'a> for Storing<'_, 'a, W, E> {
    type Answer = Status;

    fn run<M: MessageSource>(&mut self, messages: &mut M) -> Result<Status, Fault<'a>> {
        match self.locked {
            Ok(locked) => {
                let status = export_under(
                    self.rt,
                    self.words,
                    self.first,
                    messages,
                    self.out,
                    self.errors,
                );
                let _ = locked.unlock();
                Ok(status)
            }
            Err(fault) => Err(*fault),
        }
    }
}

fn export_under<M: MessageSource, W: Sink, E: Sink>(
    rt: &HostRuntime,
    words: &ExportStoredWords<'_>,
    first: u64,
    messages: &mut M,
    out: &mut W,
    errors: &mut E,
) -> Status
    requires { (M.state messages.old).is_ready }
{
    let mut files = FolderFiles {
        rt,
        folder: words.folder,
        errors,
    };
    match export_messages(words, first, messages, &mut files) {
        Ok(exported) => tell_stored(rt, &exported, out, files.errors),
        Err(fault) => fault.report(files.errors),
    }
}

fn tell_stored<W: Sink, E: Sink>(
    rt: &HostRuntime,
    exported: &Exported<'_>,
    out: &mut W,
    errors: &mut E,
) -> Status {
    let line = tell_exported(rt.alloc(), exported, out);
    match &exported.stop {
        None => match line {
            Ok(()) => Status::Good,
            Err(fault) => fault.report(errors),
        },
        Some(ExportError::Message(fault)) => fault.report(errors),
        Some(ExportError::File(status)) => *status,
    }
}

fn export_messages<'a, M: MessageSource, E: Sink>(
    words: &ExportStoredWords<'a>,
    first: u64,
    messages: &mut M,
    files: &mut FolderFiles<'_, 'a, E>,
) -> Result<Exported<'a>, Fault<'a>>
    requires { (M.state messages.old).is_ready }
{
    match last_stored(files.rt, files.folder) {
        Ok((number, bytes)) => {
            let last = LastFile {
                number,
                bytes: bytes.as_ref().map(|bytes| bytes.as_slice()),
            };
            let area = words.area.as_bytes();
            export_files(
                files.rt.alloc(),
                area,
                first,
                last,
                words.base,
                messages,
                files,
            )
        }
        Err(fault) => Err(fault),
    }
}

// The greatest number of a stored message in the folder, 0 where it has none, and the bytes of that one.
fn last_stored<'a>(rt: &HostRuntime, folder: &'a str) -> Result<(u32, Option<Vec<u8>>), Fault<'a>> {
    match last_name(rt, folder) {
        Ok(Some(last)) => match read_stored_file(rt, last.path.as_str()) {
            Ok(bytes) => Ok((last.number, Some(bytes))),
            Err(fault) => Err(output_fault(fault, folder)),
        },
        Ok(None) => Ok((0, None)),
        Err(fault) => Err(output_fault(fault, folder)),
    }
}

fn read_stored_file(rt: &HostRuntime, path: &str) -> Result<Vec<u8>, OutputFault> {
    match read_file(rt, path, usize::MAX) {
        Ok(bytes) => Ok(bytes),
        Err(Fault::OutOfMemory) => Err(OutputFault::Memory),
        Err(_) => Err(OutputFault::Device),
    }
}

// The stored message of the greatest number in the folder. A name that is not UTF-8 has no number. Staging files that
// stopped runs left are removed.
fn last_name(rt: &HostRuntime, folder: &str) -> Result<Option<Last>, OutputFault> {
    let mut last: Option<Last> = None;
    for entry in fs::read_dir(rt, folder)? {
        match entry {
            Ok(entry) => note_name(rt, folder, entry.file_name(), &mut last)?,
            Err(error) if error.kind() == io::ErrorKind::InvalidFilename => {}
            Err(error) => return Err(OutputFault::from(error)),
        }
    }
    Ok(last)
}

fn note_name(
    rt: &HostRuntime,
    folder: &str,
    name: &str,
    last: &mut Option<Last>,
) -> Result<(), AllocError> {
    if is_left(name.as_bytes()) {
        remove_left(rt, file_path(rt, folder, name)?.as_str());
    }
    if let Some(number) = stored_number(name.as_bytes()) {
        if number >= last.as_ref().map_or(0, |last| last.number) {
            let path = file_path(rt, folder, name)?;
            *last = Some(Last { number, path });
        }
    }
    Ok(())
}
