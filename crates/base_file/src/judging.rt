//! Decides whether a stored message may be in a base, and which message it is.
ghost use Rattle.std.specs.Prelude.{◌≡◌, ◌||◌, not, bytes_eq, false, None, Some, if◌then◌else◌, IfOk, IfSome, IsTrue};
ghost use Rattle.std.specs.List.{list_all, list_any};
ghost use Rattle.echo_text.specs.{Lines.is_tag, Echo.IsEcho, Ids.is_line_byte, Ids.is_zero};
ghost use Rattle.echo_filed.specs.{Written.echo_of, Written.text_of, declared.key.Key.TheVariants.ById, Filed.key_of, Stubs.bare, Stored.IsStored, Stored.is_posted, Stored.message_in};
ghost use Rattle.base_file.specs.BaseFile.{has_wrong_last, has_wrong_sender, has_wrong_string, is_no_string, is_other_kind, is_wrong_id, is_wrong_text};
ghost use Rattle.base_file.specs.Loading.{IsShortOnceScanned, Judges, UnlessWrong, has_wrong_field, has_wrong_front, is_wrong, said_last, wrong_form, wrong_last};

use crate::known_lists::KnownLists;
use crate::room::MessageRoom;
use echo_addr::{Address, Items};
use echo_filed::{Filed, Key, StoredMessage, Version, has_tag, is_short, lines_of_id};
use echo_packet::{MAX_NAME, MAX_SUBJECT};
use echo_text::{Echo, TextFault, is_kept_tag, overwrite_text, read_into_room, trimmed};
use memchr::memchr;
use std::alloc::AllocError;

fn is_other_kind(version: Version, kind: u8) -> bool
    ensures { result ≡ is_other_kind version kind }
{
    match version {
        Version::First => kind > 1,
        Version::Second => kind > 3,
    }
}

fn is_posted(kind: u8) -> bool
    ensures { result ≡ is_posted kind }
{
    kind == 0 || kind == 2
}

fn has_wrong_sender(stored: &StoredMessage) -> bool
    ensures { result ≡ has_wrong_sender stored.now }
{
    let sender = stored.sender;
    is_posted(stored.kind) && !(sender.zone == 0 && sender.net == 0 && sender.node == 0)
}

fn is_no_string(most: usize, bytes: &[u8]) -> bool
    ensures { result ≡ is_no_string most bytes.now }
{
    bytes.len() > most || has_zero(bytes)
}

#[tactic(auto, using(crate::proofs::Verdicts::zero_found))]
fn has_zero(bytes: &[u8]) -> bool
    ensures { result ≡ list_any is_zero bytes.now }
{
    memchr(0, bytes).is_some()
}

fn has_wrong_string(stored: &StoredMessage) -> bool
    ensures { result ≡ has_wrong_string stored.now }
{
    is_no_string(MAX_NAME, stored.to_name.as_slice())
        || is_no_string(MAX_NAME, stored.from_name.as_slice())
        || is_no_string(MAX_SUBJECT, stored.subject.as_slice())
}

fn is_wrong_id(id: &[u8]) -> bool
    ensures { result ≡ is_wrong_id id.now }
{
    id.is_empty() || !has_line_bytes(id) || trimmed(id) != id
}

fn has_line_bytes(bytes: &[u8]) -> bool
    ensures { result ≡ list_all is_line_byte bytes.now }
{
    bytes.iter().all(|b| *b != 0 && *b != 13)
}

fn is_written(room: &mut MessageRoom, echo: &Echo, text: &[u8]) -> Result<bool, AllocError>
    requires { IsEcho echo.now }
    ensures { IfOk result (λ same. same ≡ bytes_eq (text_of echo.now) text.now) }
{
    let mut written = room.take_bytes();
    overwrite_text(&mut written, echo)?;
    let same = written.as_slice() == text;
    room.put_bytes(written);
    Ok(same)
}

#[tactic(auto, using(crate::proofs::KnownLists::right_written))]
fn echo_of(room: &mut MessageRoom, text: &[u8]) -> Result<Option<Echo>, AllocError>
    ensures { IfOk result (UnlessWrong (is_wrong_text text.now) (echo_of text.now)) }
{
    if has_zero(text) {
        return Ok(None);
    }
    if let Some(lists) = room.take_lists(text) {
        let found = echo_with(room, &lists, text)?;
        room.put_lists(lists);
        if let Some(echo) = found {
            return Ok(Some(echo));
        }
    }
    let found = written_echo(room, text)?;
    if let Some(echo) = &found {
        room.keep_lists(echo, text)?;
    }
    Ok(found)
}

/// The echo of a text that ends with these lines, if the tosser writes it so.
#[tactic(auto, using(crate::proofs::KnownLists::no_zero_in_front, crate::proofs::KnownLists::right_written, crate::proofs::KnownLists::written_right))]
fn echo_with(
    room: &mut MessageRoom,
    lists: &KnownLists,
    text: &[u8],
) -> Result<Option<Echo>, AllocError>
    requires { list_any is_zero text.now ≡ false }
    ensures { IfOk result (λ found. IfSome found (λ echo. (is_wrong_text text.now ≡ false) × (echo ≡ echo_of text.now))) }
{
    let Some(front) = lists.text_before(text) else {
        return Ok(None);
    };
    match written_echo(room, front)? {
        Some(echo) => lists.added_to(echo),
        None => Ok(None),
    }
}

fn written_echo(room: &mut MessageRoom, text: &[u8]) -> Result<Option<Echo>, AllocError>
    requires { list_any is_zero text.now ≡ false }
    ensures { IfOk result (UnlessWrong (is_wrong_text text.now) (echo_of text.now)) }
{
    let echo = match read_into_room(room.take_echo(), text) {
        Ok((echo, _)) => echo,
        Err(TextFault::Memory) => return Err(AllocError),
        Err(_) => return Ok(None),
    };
    if !is_written(room, &echo, text)? {
        return Ok(None);
    }
    Ok(Some(echo))
}

fn bare(room: &mut MessageRoom, tag: Items<u8>, id: &[u8]) -> Result<Option<Echo>, AllocError>
    ensures { IfOk result (UnlessWrong (not (is_tag tag) || is_wrong_id id.now) (bare tag id.now)) }
{
    if !is_kept_tag(tag.as_slice()) || is_wrong_id(id) {
        return Ok(None);
    }
    let mut parts = room.take_echo();
    parts.seen.clear();
    parts.path.clear();
    room.put_bytes(parts.tag);
    let kept = lines_of_id(parts.kept, id)?;
    Ok(Some(Echo {
        tag,
        kept,
        seen: Items::new(parts.seen),
        path: Items::new(parts.path),
    }))
}

fn echo_in(
    room: &mut MessageRoom,
    with_tag: bool,
    tag: Items<u8>,
    last: &[u8],
) -> Result<Option<Echo>, AllocError>
    ensures { IfOk result (UnlessWrong (wrong_last with_tag tag last.now) (said_last with_tag tag last.now)) }
{
    if with_tag {
        bare(room, tag, last)
    } else {
        room.put_bytes(tag.into_vec());
        echo_of(room, last)
    }
}

fn sender_in(kind: u8, sender: Address) -> Option<Address>
    ensures { result ≡ (if is_posted kind then None else Some sender) }
{
    if is_posted(kind) { None } else { Some(sender) }
}

fn message_of(
    room: &mut MessageRoom,
    version: Version,
    stored: StoredMessage,
) -> Result<Option<(Filed, Items<u8>)>, AllocError>
    requires sizes { IsStored version stored }
    requires strings { has_wrong_string stored ≡ false }
    ensures { IfOk result (UnlessWrong (has_wrong_last version stored) (message_in version stored, stored.last)) }
{
    let with_tag = has_tag(version, stored.kind);
    let sender = sender_in(stored.kind, stored.sender);
    let Some(echo) = echo_in(room, with_tag, stored.tag, stored.last.as_slice())? else {
        return Ok(None);
    };
    let message = Filed {
        sender,
        date: stored.date,
        to_name: stored.to_name,
        from_name: stored.from_name,
        subject: stored.subject,
        echo,
    };
    Ok(Some((message, stored.last)))
}

fn has_wrong_front(version: Version, stored: &StoredMessage) -> bool
    ensures { result ≡ has_wrong_front version stored.now }
{
    is_other_kind(version, stored.kind) || has_wrong_sender(stored) || has_wrong_string(stored)
}

fn right_message(
    room: &mut MessageRoom,
    version: Version,
    stored: StoredMessage,
) -> Result<Option<(Filed, Items<u8>)>, AllocError>
    requires { IsStored version stored }
    ensures { IfOk result (UnlessWrong (has_wrong_field version stored) (message_in version stored, stored.last)) }
{
    if has_wrong_front(version, &stored) {
        return Ok(None);
    }
    message_of(room, version, stored)
}

fn has_wrong_form(
    version: Version,
    cursor: usize,
    place: usize,
    with_tag: bool,
    message: &Filed,
) -> bool
    requires { IsTrue with_tag → IsShortOnceScanned version message.now }
    ensures { result ≡ wrong_form version cursor place with_tag message.now }
{
    if with_tag {
        return place >= cursor;
    }
    match version {
        Version::First => false,
        Version::Second => is_short(message, place, cursor),
    }
}

fn key_of(
    room: &mut MessageRoom,
    with_tag: bool,
    message: &Filed,
    last: Items<u8>,
) -> Result<Key, AllocError>
    requires { IsTrue with_tag → key_of message.now ≡ ById message.now.echo.tag last }
    ensures { IfOk result (λ key. key ≡ key_of message.now) }
{
    let alloc = room.alloc();
    if !with_tag {
        room.put_bytes(last.into_vec());
        return Key::of_message(alloc, message);
    }
    let tag = Vec::from_slice(alloc, message.echo.tag.as_slice())?;
    Ok(Key::ById {
        tag: Items::new(tag),
        msgid: last,
    })
}

/// None if a field is wrong, or if a message at this place should have another form.
pub(crate) fn sound_message(
    room: &mut MessageRoom,
    version: Version,
    cursor: usize,
    place: usize,
    stored: StoredMessage,
) -> Result<Option<(Filed, Items<u8>)>, AllocError>
    requires { IsStored version stored }
    ensures { IfOk result (UnlessWrong (is_wrong version cursor place stored) (message_in version stored, stored.last)) }
{
    let with_tag = has_tag(version, stored.kind);
    let Some((message, last)) = right_message(room, version, stored)? else {
        return Ok(None);
    };
    if has_wrong_form(version, cursor, place, with_tag, &message) {
        return Ok(None);
    }
    Ok(Some((message, last)))
}

pub(crate) fn judged(
    room: &mut MessageRoom,
    version: Version,
    cursor: usize,
    place: usize,
    stored: StoredMessage,
) -> Result<Option<(Key, Filed)>, AllocError>
    requires { IsStored version stored }
    ensures { IfOk result (Judges (is_wrong version cursor place stored) (message_in version stored)) }
{
    let with_tag = has_tag(version, stored.kind);
    let Some((message, last)) = sound_message(room, version, cursor, place, stored)? else {
        return Ok(None);
    };
    let key = key_of(room, with_tag, &message, last)?;
    Ok(Some((key, message)))
}
