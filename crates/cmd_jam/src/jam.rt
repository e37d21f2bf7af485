//! `export --jam`: messages of a base added to the four files of a JAM base. The file of headers is locked from the
//! first read until the last write, so that two runs at once add each message once.
//!
//! Written in this order, each flushed before the next: texts, headers, index; then the counts, and the replies that
//! earlier headers name. A reader sees only messages of the index, so a stopped run leaves a base with the first of
//! its messages. Until the next run the number of active messages may be too small, and earlier headers may not name
//! the last replies. After a fault before the first entry the new texts and headers are removed.
//!
//! Each step passes what it made to the next by reference. So no step has to be proved to drop the values of another.

use crate::contents::{Contents, OtherFiles};
use crate::locked::{locked_headers, read_headers};
use crate::named::{open_or_make, write_at};
use crate::texts::{ROOM, Texts};
use base_folder::MessageSource;
use cmd_door::{UseMessages, with_base};
use cmd_input::output_fault;
use cmd_numbered::{JamBase, JamEnd, JamExport, JamExportError, export_jam, tell_added, tell_cuts};
use cmd_status::{Fault, Status, parse_number};
use cmd_words::ExportJamWords;
use disk_io::{Sink, Watched};
use disk_system::OutputFault;
use echo_jam::{Last, link_replies, next_counts};
use std::alloc::AllocError;
use std::fs::File;
use std::io;
use std::io::Write;
use std::os::unix::fs::FileExt;

/// The offset of the counts in the headers.
const COUNTS_AT: u64 = 8;

/// Where a header names the first reply of its message, and the next one to the same message.
const REPLIES_AT: usize = 28;

// The words, and the number of the first message.
#[derive(Clone, Copy)]
struct Asked<'a> {
    rt: &'a HostRuntime,
    words: &'a ExportJamWords<'a>,
    first: u64,
}

#[derive(Drop)]
struct JamFiles {
    found: Vec<u8>,
    others: OtherFiles,
    contents: Contents,
    end: JamEnd,
    text: Vec<u8>,
}

/// `export --jam PATH --area TAG [--from I] BASE`: it judges the number first, then whether the base can be read, then
/// the JAM base, and last the messages of the base. The JAM base is locked before the base is read.
pub fn run_export_jam<W: Sink, E: Sink>(
    rt: &HostRuntime,
    words: &ExportJamWords<'_>,
    out: &mut W,
    errors: &mut E,
) -> Status {
    match first_asked(words) {
        Ok(first) => export_asked(Asked { rt, words, first }, out, errors),
        Err(fault) => fault.report(errors),
    }
}

fn first_asked<'a>(words: &ExportJamWords<'_>) -> Result<u64, Fault<'a>> {
    match words.from {
        Some(word) => parse_number(word),
        None => Ok(0),
    }
}

fn export_asked<W: Sink, E: Sink>(asked: Asked<'_>, out: &mut W, errors: &mut E) -> Status {
    let locked = locked_headers(asked.rt, asked.words.jam, asked.words.base);
    export_with(asked, &locked, out, errors)
}

fn export_with<'a, W: Sink, E: Sink>(
    asked: Asked<'a>,
    locked: &'a Result<File, Fault<'a>>,
    out: &'a mut W,
    errors: &'a mut E,
) -> Status {
    let mut exporting = Exporting {
        asked,
        locked,
        out,
        errors,
    };
    match with_base(asked.rt, asked.words.base, 0, &mut exporting) {
        Ok(status) => status,
        Err(fault) => fault.report(exporting.errors),
    }
}

// An export under the lock of the headers, if that was taken.
#[derive(Drop)]
struct Exporting<'q, 'a, W, E> {
    asked: Asked<'a>,
    locked: &'q Result<File, Fault<'a>>,
    out: &'q mut W,
    errors: &'q mut E,
}

impl<'a, W: Sink, E: Sink> UseMessages<'a> for Exporting<'_, 'a, W, E> {
    type Answer = Status;

    fn run<M: MessageSource>(&mut self, messages: &mut M) -> Result<Status, Fault<'a>> {
        match self.locked {
            Ok(locked) => {
                let status = export_into(self.asked, locked, messages, self.out, self.errors);
                let _ = locked.unlock();
                Ok(status)
            }
            Err(fault) => Err(*fault),
        }
    }
}

fn export_into<M: MessageSource, W: Sink, E: Sink>(
    asked: Asked<'_>,
    locked: &File,
    messages: &mut M,
    out: &mut W,
    errors: &mut E,
) -> Status
    requires { (M.state messages.old).is_ready }
{
    match jam_files(asked.rt, asked.words.jam, locked) {
        Ok(files) => export_under(asked, locked, &files, messages, out, errors),
        Err(fault) => fault.report(errors),
    }
}

fn export_under<M: MessageSource, W: Sink, E: Sink>(
    asked: Asked<'_>,
    locked: &File,
    files: &JamFiles,
    messages: &mut M,
    out: &mut W,
    errors: &mut E,
) -> Status
    requires { (M.state messages.old).is_ready }
{
    match with_texts(asked, files, messages) {
        Ok(made) => finish(asked, locked, files, &made, out, errors),
        Err(fault) => fault.report(errors),
    }
}

// What the messages add, and whether their texts were written.
#[derive(Drop)]
struct Made {
    exported: JamExport,
    sent: Result<(), OutputFault>,
}

fn with_texts<'a, M: MessageSource>(
    asked: Asked<'a>,
    files: &JamFiles,
    messages: &mut M,
) -> Result<Made, Fault<'a>>
    requires { (M.state messages.old).is_ready }
{
    let mut texts = Watched::new(Texts {
        file: &files.others.texts,
        at: u64::from(files.end.texts),
        held: Vec::with_capacity(asked.rt.alloc(), ROOM)?,
        failed: None,
    });
    match exported_to(asked, files, messages, &mut texts) {
        Ok(exported) => {
            let sent = flushed(&mut texts, &files.others.texts);
            Ok(Made { exported, sent })
        }
        Err(fault) => {
            cut_back(&files.others.texts, files.end.texts);
            Err(fault)
        }
    }
}

fn flushed<W: Write>(texts: &mut W, file: &File) -> Result<(), OutputFault> {
    texts.flush()?;
    file.sync_all()?;
    Ok(())
}

fn exported_to<'a, M: MessageSource, W: Sink>(
    asked: Asked<'a>,
    files: &JamFiles,
    messages: &mut M,
    texts: &mut W,
) -> Result<JamExport, Fault<'a>>
    requires { (M.state messages.old).is_ready }
{
    let jam = JamBase {
        headers: files.found.as_slice(),
        index: files.contents.entries.as_slice(),
        last: files.contents.standing.last.map(|last| last.place),
        text: files.text.as_slice(),
        end: files.end,
    };
    let words = asked.words;
    let area = words.area.as_bytes();
    match export_jam(
        asked.rt.alloc(),
        area,
        asked.first,
        jam,
        words.base,
        messages,
        texts,
    ) {
        Ok(exported) => Ok(exported),
        Err(JamExportError::Messages(fault)) => Err(fault),
        Err(JamExportError::Device) => Err(Fault::CannotUse(words.jam)),
    }
}

// Writes what was exported, and reports it.
fn finish<W: Sink, E: Sink>(
    asked: Asked<'_>,
    locked: &File,
    files: &JamFiles,
    made: &Made,
    out: &mut W,
    errors: &mut E,
) -> Status {
    let exported = &made.exported;
    let written = match made.sent {
        Ok(()) => write_jam(asked.rt, locked, files, exported),
        failed => failed,
    };
    let made = match written {
        Ok(()) => exported.adding.messages.len(),
        Err(_) => entries_made(locked, files, exported),
    };
    let reported = tell_added(asked.rt.alloc(), exported, made, out);
    match (written, reported) {
        (Err(fault), _) => output_fault(fault, asked.words.jam).report(errors),
        (Ok(()), Ok(())) => {
            tell_cuts(asked.rt.alloc(), exported.adding.jam.cuts, errors);
            Status::Good
        }
        (Ok(()), Err(fault)) => {
            tell_cuts(asked.rt.alloc(), exported.adding.jam.cuts, errors);
            fault.report(errors)
        }
    }
}

fn cut_back(file: &File, end: u32) {
    let end = u64::from(end);
    if let Ok(found) = file.metadata() {
        if found.len() > end {
            let _ = file.set_len(end);
        }
    }
}

fn jam_files<'a>(rt: &HostRuntime, path: &'a str, locked: &File) -> Result<JamFiles, Fault<'a>> {
    let found = read_headers(rt, path, locked)?;
    match JamFiles::read(rt, path, found) {
        Ok(files) => Ok(files),
        Err(fault) => Err(output_fault(fault, path)),
    }
}

impl JamFiles {
    fn read(rt: &HostRuntime, path: &str, found: Vec<u8>) -> Result<JamFiles, OutputFault> {
        let others = others_of(rt, path)?;
        let contents = others.read(rt, &found)?;
        let end = end_of(&found, &contents)?;
        match last_text(
            rt,
            &others.texts,
            contents.texts_end,
            contents.standing.last,
        ) {
            Ok(text) => Ok(JamFiles {
                found,
                others,
                contents,
                end,
                text,
            }),
            Err(fault) => Err(fault),
        }
    }

    fn index_end(&self) -> u64 {
        u64::from(self.contents.standing.entries) * 8
    }
}

fn others_of(rt: &HostRuntime, path: &str) -> Result<OtherFiles, OutputFault> {
    let others = OtherFiles::open(rt, path)?;
    match open_or_make(rt, path, ".jlr") {
        Ok(_) => Ok(others),
        Err(fault) => Err(fault),
    }
}

fn end_of(found: &[u8], contents: &Contents) -> Result<JamEnd, OutputFault> {
    match (
        u32::try_from(found.len()),
        u32::try_from(contents.texts_end),
    ) {
        (Ok(headers), Ok(texts)) => Ok(JamEnd {
            number: contents.standing.next,
            headers,
            texts,
        }),
        _ => Err(OutputFault::Device),
    }
}

fn last_text(
    rt: &HostRuntime,
    texts: &File,
    texts_end: u64,
    last: Option<Last>,
) -> Result<Vec<u8>, OutputFault> {
    match last {
        Some(last) if u64::from(last.text) + u64::from(last.size) <= texts_end => {
            text_of(rt, texts, last)
        }
        _ => Ok(Vec::new(rt.alloc())),
    }
}

/// The text of a message.
pub(crate) fn text_of(rt: &HostRuntime, texts: &File, last: Last) -> Result<Vec<u8>, OutputFault> {
    let mut text = Vec::new(rt.alloc());
    match fill_text(texts, last, &mut text) {
        Ok(()) => Ok(text),
        Err(error) => Err(OutputFault::from(error)),
    }
}

fn fill_text(texts: &File, last: Last, text: &mut Vec<u8>) -> io::Result<()> {
    text.resize(last.size as usize, 0)?;
    texts.read_exact_at(text.as_mut_slice(), u64::from(last.text))
}

// Writes the new headers, the index and the counts. No byte changes if nothing was added, the count of active messages
// is right, and the index ends without an entry of zeros.
fn write_jam(
    rt: &HostRuntime,
    locked: &File,
    files: &JamFiles,
    exported: &JamExport,
) -> Result<(), OutputFault> {
    let standing = files.contents.standing;
    let index_end = files.index_end();
    let has_zeros = (files.contents.entries.len() as u64).saturating_sub(index_end) >= 8;
    let added = exported.adding.messages.len();
    if added == 0 && standing.active == standing.counted && !has_zeros {
        return Ok(());
    }
    let counts = next_counts(rt.alloc(), standing, added)?;
    write_headers(rt, locked, files, exported, has_zeros)?;
    write_at(locked, counts.as_slice(), COUNTS_AT)
}

fn write_headers(
    rt: &HostRuntime,
    locked: &File,
    files: &JamFiles,
    exported: &JamExport,
    has_zeros: bool,
) -> Result<(), OutputFault> {
    match linked_headers(rt, files, exported) {
        Ok(headers) => write_linked(locked, files, exported, &headers, has_zeros),
        Err(_) => Err(OutputFault::Memory),
    }
}

fn write_linked(
    locked: &File,
    files: &JamFiles,
    exported: &JamExport,
    headers: &[u8],
    has_zeros: bool,
) -> Result<(), OutputFault> {
    let new = headers.get(files.found.len()..).unwrap_or(&[]);
    write_at(locked, new, u64::from(files.end.headers))?;
    let index_end = files.index_end();
    if has_zeros {
        cut_index(&files.others.index, index_end)?;
    }
    write_at(
        &files.others.index,
        exported.adding.jam.index.as_slice(),
        index_end,
    )?;
    write_replies(locked, files, headers)
}

fn cut_index(index: &File, end: u64) -> Result<(), OutputFault> {
    index.set_len(end)?;
    index.sync_all()?;
    Ok(())
}

// The headers with those that are added, each message linked to the one that it replies to.
fn linked_headers(
    rt: &HostRuntime,
    files: &JamFiles,
    exported: &JamExport,
) -> Result<Vec<u8>, AllocError> {
    let jam = &exported.adding.jam;
    let mut headers = Vec::from_slice(rt.alloc(), files.found.as_slice())?;
    headers.extend_from_slice(jam.headers.as_slice())?;
    let from = files.contents.standing.entries as usize;
    let written = files.contents.entries.get(..from * 8).unwrap_or(&[]);
    let mut index = Vec::from_slice(rt.alloc(), written)?;
    index.extend_from_slice(jam.index.as_slice())?;
    let entries = index.len() / 8;
    if from <= entries {
        link_replies(
            headers.as_mut_slice(),
            index.as_slice(),
            from,
            entries - from,
        );
    }
    Ok(headers)
}

// Writes the reply links of earlier messages that changed.
fn write_replies(locked: &File, files: &JamFiles, linked: &[u8]) -> Result<(), OutputFault> {
    for entry in files.contents.entries.as_slice().chunks_exact(8) {
        let begin = place_in(entry) as usize + REPLIES_AT;
        let old = files.found.get(begin..begin + 8).unwrap_or(&[]);
        let new = linked.get(begin..begin + 8).unwrap_or(&[]);
        if old != new {
            locked.write_all_at(new, begin as u64)?;
        }
    }
    Ok(())
}

fn place_in(entry: &[u8]) -> u32 {
    match entry {
        [_, _, _, _, a, b, c, d] => u32::from_le_bytes([*a, *b, *c, *d]),
        _ => u32::MAX,
    }
}

// How many of the messages are in the base after a write failed: as many as the index has whole entries of. If there is
// none, the new headers and texts are removed.
fn entries_made(locked: &File, files: &JamFiles, exported: &JamExport) -> usize {
    let Ok(found) = files.others.index.metadata() else {
        return 0;
    };
    let entries = found.len().saturating_sub(files.index_end()) / 8;
    if entries == 0 {
        cut_back(locked, files.end.headers);
        cut_back(&files.others.texts, files.end.texts);
    }
    exported.adding.messages.len().min(entries as usize)
}
