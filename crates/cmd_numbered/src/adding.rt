//! Which messages are added to a JAM base, and what that adds.
ghost use Rattle.std.specs.Prelude.{◌≡◌, ◌≤◌, IfErr, OnOk};
ghost use Rattle.base_file.specs.Base.{Base};
ghost use Rattle.base_folder.specs.{Fetching.IsUnread, Source.{AreLegible, LooksAt}};
ghost use Rattle.cmd_numbered.specs.JamAdded.{IsUnadded, IsUnsent};

use crate::jam_export_error::JamExportError;
use crate::numbering::is_exported;
use base_folder::{MessageSource, fetch_message};
use cmd_status::Fault;
use disk_io::{Sink, send};
use echo_filed::Filed;
use echo_jam::{Jam, has_id, is_same, push_jam};
use std::alloc::{AllocError, Global};

/// The end of a JAM base: the number of its next message, and the length of its headers and texts.
#[derive(Clone, Copy, Debug)]
pub struct JamEnd {
    pub number: u32,
    pub headers: u32,
    pub texts: u32,
}

/// A JAM base to which messages are added: its headers and its index, the place of the last header and the text of its
/// message, and its end.
#[derive(Clone, Copy)]
pub struct JamBase<'a> {
    pub headers: &'a [u8],
    pub index: &'a [u8],
    pub last: Option<u32>,
    pub text: &'a [u8],
    pub end: JamEnd,
}

/// The bytes to add to the headers and the index of a JAM base, and the numbers that its messages have in their base.
/// `sent` bytes of texts were sent. The texts of `jam` are those of the last message, which are among them.
#[derive(Drop)]
pub struct Adding {
    pub jam: Jam,
    pub sent: u64,
    pub messages: Vec<usize>,
}

/// `adding`, and the number of the message behind all that were looked at.
#[derive(Drop)]
pub struct JamExport {
    pub adding: Adding,
    pub end: u64,
}

/// `export --jam PATH --area TAG [--from I] BASE`: what the messages of the area add to a JAM base, from the number
/// `first` on, or from behind the one that is its last: a run that was stopped goes on there. What the JAM base has from an
/// editor is not added. Each text is sent before the next message is read. `path` is that of BASE.
pub fn export_jam<'a, M: MessageSource, W: Sink>(
    alloc: Global,
    area: &[u8],
    first: u64,
    jam: JamBase<'_>,
    path: &'a str,
    messages: &mut M,
    texts: &mut W,
) -> Result<JamExport, JamExportError<'a>>
    requires { (M.state messages.old).is_ready }
    ensures fault { (M.state messages.new).is_honest → (base : Base) → (M.state messages.old).holds base
        → IfErr result (IsUnsent path.now (M.state messages.old).failures (M.state messages.new).failures (W.failures texts.old) (W.failures texts.new)) }
    ensures ok { OnOk result (W.failures texts.new ≡ W.failures texts.old) }
    ensures whole { (M.state messages.new).is_honest → OnOk result (AreLegible (M.state messages.old)) }
    ensures looks { LooksAt (M.state messages.old) (M.state messages.new) }
    ensures later { (M.state messages.old).failures ≤ (M.state messages.new).failures }
{
    let area = area.to_ascii_uppercase(alloc)?;
    let count = messages.count();
    let from = resumed_jam(alloc, &area, first, jam, path, messages)?;
    let adding = added_of(alloc, &area, from, jam, path, messages, texts)?;
    let end = from.max(count as u64);
    Ok(JamExport { adding, end })
}

fn resumed_jam<'a, M: MessageSource>(
    alloc: Global,
    area: &[u8],
    first: u64,
    jam: JamBase<'_>,
    path: &'a str,
    messages: &mut M,
) -> Result<u64, Fault<'a>>
    requires { (M.state messages.old).is_ready }
    ensures fault { (M.state messages.new).is_honest → (base : Base) → (M.state messages.old).holds base
        → IfErr result (IsUnread path.now (M.state messages.old).failures (M.state messages.new).failures) }
    ensures whole { (M.state messages.new).is_honest → OnOk result (AreLegible (M.state messages.old)) }
    ensures looks { LooksAt (M.state messages.old) (M.state messages.new) }
    ensures later { (M.state messages.old).failures ≤ (M.state messages.new).failures }
{
    let count = messages.count();
    let cursor = messages.cursor();
    let mut from = first;
    'messages: for i in 0..count {
        fetch_message(messages, path, i)?;
        if is_last_jam(alloc, area, first, cursor, jam, i, messages.at_hand())? {
            from = i as u64 + 1;
        }
    }
    Ok(from)
}

fn is_last_jam(
    alloc: Global,
    area: &[u8],
    first: u64,
    cursor: usize,
    jam: JamBase<'_>,
    i: usize,
    message: Option<&Filed>,
) -> Result<bool, AllocError> {
    let Some(place) = jam.last else {
        return Ok(false);
    };
    let Some(message) = message else {
        return Ok(false);
    };
    if !is_exported(area, first, cursor, i, message) {
        return Ok(false);
    }
    is_same(alloc, jam.headers, place, jam.text, message)
}

#[derive(Clone, Copy)]
struct Selection<'a> {
    area: &'a [u8],
    first: u64,
    cursor: usize,
    jam: JamBase<'a>,
}

fn added_of<'a, M: MessageSource, W: Sink>(
    alloc: Global,
    area: &[u8],
    first: u64,
    jam: JamBase<'_>,
    path: &'a str,
    messages: &mut M,
    texts: &mut W,
) -> Result<Adding, JamExportError<'a>>
    requires { (M.state messages.old).is_ready }
    ensures fault { (M.state messages.new).is_honest → (base : Base) → (M.state messages.old).holds base
        → IfErr result (IsUnsent path.now (M.state messages.old).failures (M.state messages.new).failures (W.failures texts.old) (W.failures texts.new)) }
    ensures ok { OnOk result (W.failures texts.new ≡ W.failures texts.old) }
    ensures whole { (M.state messages.new).is_honest → OnOk result (AreLegible (M.state messages.old)) }
    ensures looks { LooksAt (M.state messages.old) (M.state messages.new) }
    ensures later { (M.state messages.old).failures ≤ (M.state messages.new).failures }
{
    let count = messages.count();
    let cursor = messages.cursor();
    let wanted = Selection {
        area,
        first,
        cursor,
        jam,
    };
    let mut adding = Adding {
        jam: Jam {
            headers: Vec::new(alloc),
            texts: Vec::new(alloc),
            index: Vec::new(alloc),
            cuts: 0,
        },
        sent: 0,
        messages: Vec::new(alloc),
    };
    'messages: for i in 0..count {
        fetch_message(messages, path, i)?;
        add_if_wanted(alloc, &mut adding, wanted, i, messages.at_hand(), texts)?;
    }
    Ok(adding)
}

fn add_if_wanted<'a, W: Sink>(
    alloc: Global,
    adding: &mut Adding,
    wanted: Selection<'_>,
    i: usize,
    message: Option<&Filed>,
    texts: &mut W,
) -> Result<(), JamExportError<'a>>
    ensures fault { IfErr result (IsUnadded (W.failures texts.old) (W.failures texts.new)) }
    ensures ok { OnOk result (W.failures texts.new ≡ W.failures texts.old) }
{
    let Some(message) = message else {
        return Ok(());
    };
    let Selection {
        area,
        first,
        cursor,
        jam,
    } = wanted;
    if !is_exported(area, first, cursor, i, message) || is_written_there(jam, message) {
        return Ok(());
    }
    push_message(alloc, adding, jam.end, i, message, i < cursor)?;
    send(texts, &adding.jam.texts, &mut 0)?;
    Ok(())
}

// Whether an editor wrote the message into the JAM base: it was posted here, under an id that the JAM base has.
fn is_written_there(jam: JamBase<'_>, message: &Filed) -> bool {
    match message.echo.msgid() {
        Some(id) => message.sender.is_none() && has_id(jam.headers, jam.index, id),
        None => false,
    }
}

fn push_message(
    alloc: Global,
    adding: &mut Adding,
    end: JamEnd,
    i: usize,
    message: &Filed,
    scanned: bool,
) -> Result<(), AllocError> {
    let number = place_behind(end.number, adding.messages.len() as u64)?;
    let place = place_behind(end.texts, adding.sent)?;
    let jam = &mut adding.jam;
    jam.texts.clear();
    push_jam(alloc, jam, message, scanned, number, end.headers, place)?;
    let size = adding.jam.texts.len() as u64;
    adding.sent = adding.sent.checked_add(size).ok_or(AllocError)?;
    adding.messages.push(i)?;
    Ok(())
}

fn place_behind(begin: u32, count: u64) -> Result<u32, AllocError> {
    let count = u32::try_from(count).map_err(|_| AllocError)?;
    begin.checked_add(count).ok_or(AllocError)
}
