//! Which messages become files, and under which numbers.
ghost use Rattle.std.specs.Prelude.{◌≡◌, ◌≤◌, ◌<◌, [], ℕ, List, IfErr, IfOk, OnErr, OnOk};
ghost use Rattle.base_file.specs.Base.{Base};
ghost use Rattle.base_folder.specs.{Fetching.IsUnread, Source.{AreLegible, LooksAt, ReadsLegibly}};
ghost use Rattle.cmd_numbered.specs.{Folders.{Gets, IsRefused}, Numbered.{HasMade, IsStopped, IsUnmade}};

use crate::folder::{LastFile, MessageFile, MessageFolder};
use crate::names::file_name;
use base_folder::{MessageSource, fetch_message};
use cmd_status::{Fault, Status};
use echo_addr::Items;
use echo_filed::{Filed, is_stub};
use echo_stored::push_stored;
use std::alloc::{AllocError, Global};

/// Why a message has no file: the message was not read or there was no memory, or the folder did not get the file.
#[derive(Debug, Drop)]
pub enum ExportError<'a> {
    Message(Fault<'a>),
    File(Status),
}

/// How many files were made, and where the next export begins. If that message has no file, `stop` says why.
#[derive(Debug, Drop)]
pub struct Exported<'a> {
    pub made: usize,
    pub next: u64,
    pub stop: Option<ExportError<'a>>,
}

/// `export --msg DIR --area TAG [--from I] BASE`: makes a file of each message of the area, from the number `first` on. If
/// the last file of the folder is one of these messages, they start after it: so a stopped run continues. Each file is
/// made before the next message is read. `path` is that of BASE.
pub fn export_files<'a, M: MessageSource, F: MessageFolder>(
    alloc: Global,
    area: &[u8],
    first: u64,
    last: LastFile<'_>,
    path: &'a str,
    messages: &mut M,
    folder: &mut F,
) -> Result<Exported<'a>, Fault<'a>>
    requires { (M.state messages.old).is_ready }
    ensures files { IfOk result (λ exported. HasMade (F.made folder.old) (F.made folder.new) exported.made) }
    ensures stop { (M.state messages.new).is_honest → (base : Base) → (M.state messages.old).holds base
        → IfOk result (λ exported. IsStopped (IsRefused F.refuses folder.new) path.now (M.state messages.old).failures (M.state messages.new).failures exported.stop) }
    ensures fault { (M.state messages.new).is_honest → (base : Base) → (M.state messages.old).holds base
        → IfErr result (IsUnread path.now (M.state messages.old).failures (M.state messages.new).failures) }
    ensures none { OnErr result (Gets (F.made folder.old) (F.made folder.new) []) }
    ensures whole { (M.state messages.new).is_honest → OnOk result (AreLegible (M.state messages.old)) }
{
    let area = area.to_ascii_uppercase(alloc)?;
    let from = resumed(alloc, &area, first, last.bytes, path, messages)?;
    let wanted = Wanted {
        area: &area,
        first: from,
        cursor: messages.cursor(),
        // Tossers keep their progress in the file of number 1.
        number: u64::from(last.number.max(1)) + 1,
    };
    Ok(make_files(alloc, wanted, path, messages, folder))
}

fn resumed<'a, M: MessageSource>(
    alloc: Global,
    area: &[u8],
    first: u64,
    last: Option<&[u8]>,
    path: &'a str,
    messages: &mut M,
) -> Result<u64, Fault<'a>>
    requires { (M.state messages.old).is_ready }
    ensures fault { (M.state messages.new).is_honest → (base : Base) → (M.state messages.old).holds base
        → IfErr result (IsUnread path.now (M.state messages.old).failures (M.state messages.new).failures) }
    ensures whole { (M.state messages.new).is_honest → OnOk result (AreLegible (M.state messages.old)) }
    ensures looks { LooksAt (M.state messages.old) (M.state messages.new) }
    ensures later { (M.state messages.old).failures ≤ (M.state messages.new).failures }
{
    let count = messages.count();
    let cursor = messages.cursor();
    let mut from = first;
    'messages: for i in 0..count {
        fetch_message(messages, path, i)?;
        if is_last(alloc, area, first, cursor, last, i, messages.at_hand())? {
            from = i as u64 + 1;
        }
    }
    Ok(from)
}

// Readers change only the numbers of a file.
fn is_last(
    alloc: Global,
    area: &[u8],
    first: u64,
    cursor: usize,
    last: Option<&[u8]>,
    i: usize,
    message: Option<&Filed>,
) -> Result<bool, AllocError> {
    let (Some(last), Some(message)) = (last, message) else {
        return Ok(false);
    };
    if !is_exported(area, first, cursor, i, message) {
        return Ok(false);
    }
    let stored = stored_file(alloc, message, i < cursor)?;
    Ok(last.get(..164) == stored.get(..164) && last.get(190..) == stored.get(190..))
}

/// Whether the message of this number belongs to the area, is not before `first`, and still has its text.
pub(crate) fn is_exported(
    area: &[u8],
    first: u64,
    cursor: usize,
    i: usize,
    message: &Filed,
) -> bool {
    let tag = message.echo.tag.as_slice();
    let is_purged = message.echo.msgid().is_some() && is_stub(message);
    first <= i as u64 && tag == area && (cursor <= i || !is_purged)
}

fn stored_file(alloc: Global, message: &Filed, scanned: bool) -> Result<Vec<u8>, AllocError> {
    let mut stored = Vec::new(alloc);
    push_stored(alloc, &mut stored, message, scanned)?;
    Ok(stored)
}

#[derive(Clone, Copy)]
struct Wanted<'a> {
    area: &'a [u8],
    first: u64,
    cursor: usize,
    number: u64,
}

#[tactic(auto, using(crate::proofs::Gettings::more_made, crate::proofs::Gettings::no_more_made, crate::proofs::Gettings::none_made, crate::proofs::Gettings::unmade_since))]
fn make_files<'a, M: MessageSource, F: MessageFolder>(
    alloc: Global,
    wanted: Wanted<'_>,
    path: &'a str,
    messages: &mut M,
    folder: &mut F,
) -> Exported<'a>
    requires { (M.state messages.old).is_ready }
    ensures honest { (M.state messages.new).is_honest → (M.state messages.old).is_honest }
    ensures made { HasMade (F.made folder.old) (F.made folder.new) result.made }
    ensures stop { (M.state messages.new).is_honest → (base : Base) → (M.state messages.old).holds base
        → IsStopped (IsRefused F.refuses folder.new) path.now (M.state messages.old).failures (M.state messages.new).failures result.stop }
{
    let count = messages.count();
    let mut made = 0;
    'messages: for i in 0..count {
        match make_next(alloc, wanted, made, i, path, messages, folder) {
            Ok(more) => made += more,
            Err(why) => {
                return Exported {
                    made,
                    next: i as u64,
                    stop: Some(why),
                };
            }
        }
    }
    Exported {
        made,
        next: wanted.first.max(count as u64),
        stop: None,
    }
}

#[tactic(auto, using(crate::proofs::Gettings::none_made))]
fn make_next<'a, M: MessageSource, F: MessageFolder>(
    alloc: Global,
    wanted: Wanted<'_>,
    made: usize,
    i: usize,
    path: &'a str,
    messages: &mut M,
    folder: &mut F,
) -> Result<usize, ExportError<'a>>
    requires ready { (M.state messages.old).is_ready }
    requires within { i < (M.state messages.old).count }
    ensures made { IfOk result (HasMade (F.made folder.old) (F.made folder.new)) }
    ensures fault { (M.state messages.new).is_honest → (base : Base) → (M.state messages.old).holds base
        → IfErr result (IsUnmade (IsRefused F.refuses folder.new) path.now (M.state messages.old).failures (M.state messages.new).failures) }
    ensures none { OnErr result (Gets (F.made folder.old) (F.made folder.new) []) }
    ensures few { IfOk result (λ more. more ≤ 1) }
    ensures read { ReadsLegibly (M.state messages.old) (M.state messages.new) i result }
    ensures looks { LooksAt (M.state messages.old) (M.state messages.new) }
    ensures later { (M.state messages.old).failures ≤ (M.state messages.new).failures }
{
    if let Err(fault) = fetch_message(messages, path, i) {
        return Err(ExportError::Message(fault));
    }
    let number = u128::from(wanted.number) + made as u128;
    match messages.at_hand() {
        Some(message) if is_exported(wanted.area, wanted.first, wanted.cursor, i, message) => {
            let scanned = i < wanted.cursor;
            export_one(alloc, number, i, message, scanned, folder)
        }
        _ => Ok(0),
    }
}

#[tactic(auto, using(crate::proofs::Gettings::one_made))]
fn export_one<'a, F: MessageFolder>(
    alloc: Global,
    number: u128,
    i: usize,
    message: &Filed,
    scanned: bool,
    folder: &mut F,
) -> Result<usize, ExportError<'a>>
    ensures made { IfOk result (HasMade (F.made folder.old) (F.made folder.new)) }
    ensures few { IfOk result (λ more. more ≤ 1) }
    ensures fault { (path : List ℕ) (before now : ℕ) → IfErr result (IsUnmade (IsRefused F.refuses folder.new) path before now) }
    ensures none { OnErr result (Gets (F.made folder.old) (F.made folder.new) []) }
{
    let file = match new_file(alloc, number, i, message, scanned) {
        Ok(file) => file,
        Err(_) => return Err(ExportError::Message(Fault::OutOfMemory)),
    };
    match folder.make(&file) {
        Ok(()) => Ok(1),
        Err(status) => Err(ExportError::File(status)),
    }
}

fn new_file(
    alloc: Global,
    number: u128,
    i: usize,
    message: &Filed,
    scanned: bool,
) -> Result<MessageFile, AllocError> {
    let name = Items::new(file_name(alloc, number)?);
    let bytes = Items::new(stored_file(alloc, message, scanned)?);
    Ok(MessageFile {
        name,
        message: i,
        bytes,
    })
}
