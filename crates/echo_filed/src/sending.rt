//! A message in the form of version 2 of a base, written to a sink. A failed call wrote a beginning
//! of its bytes and nothing else.
ghost use Rattle.std.specs.Prelude.{◌≡◌, [], ◌^◌, ◌<◌, ◌++◌, length, unwrap_or, IsTrue, IfOk, OnOk, OnErr, true};
ghost use Rattle.std.specs.List.{flat_map};
ghost use Rattle.disk_io.specs.Device.{Failed, Sends};
ghost use Rattle.echo_text.specs.{Lines.area_word, Echo.ended, Echo.msgid_of};
ghost use Rattle.echo_filed.specs.Stored.{Second, after_length, after_long_length, is_short, is_short_enough, kind_of, sender_or_zeros, stored_as, stored_bytes};
ghost use Rattle.echo_filed.specs.{Written.text_of, Sending.CountsUnsent, Sending.front_bytes, Sending.strings_bytes, Sending.text_with};

use crate::filed::Filed;
use crate::numbers::{long_bytes, word_bytes};
use crate::stub::is_stub;
use disk_io::{Failure, Sink, send};
use echo_addr::{Address, push_path, push_seen};
use echo_text::{Echo, write_text};
use std::alloc::{AllocError, AllocFailed, Global};

/// Why not all bytes went out.
#[derive(Clone, Copy, Debug, PartialEq, Eq)]
pub enum Unsent {
    Device,
    Memory,
}

impl From<Failure> for Unsent {
    ghost use Rattle.std.specs.Prelude.{◌≡◌};
    ghost use Rattle.echo_filed.specs.declared.sending.Unsent.TheVariants as unsent;

    ghost from_gives = { λ _ e. e ≡ unsent.Device };

    fn from(_failure: Failure) -> Unsent {
        Unsent::Device
    }
}

impl From<AllocError> for Unsent {
    ghost use Rattle.std.specs.Prelude.{◌≡◌};
    ghost use Rattle.echo_filed.specs.declared.sending.Unsent.TheVariants as unsent;

    ghost from_gives = { λ _ e. e ≡ unsent.Memory };

    fn from(_refused: AllocError) -> Unsent {
        Unsent::Memory
    }
}

// The number of bytes of a stored message before its strings.
const FRONT_BYTES: usize = 27;

// The most bytes that four bytes count.
const MOST: usize = 0xffff_ffff;

// With at most this many entries, and `LITTLE` bytes of kept lines, four bytes count the text.
const FEW: usize = 0x0100_0000;

const LITTLE: usize = 0x4000_0000;

const AREA: &[u8] = b"AREA:";

// How many bytes most lines of SEEN-BY and PATH have at most, and how many an entry has there.
const LINE_ROOM: usize = 80;

const ENTRY_ROOM: usize = 6;

/// Whether the message at this place has tag and id instead of the text.
pub fn is_short(message: &Filed, place: usize, cursor: usize) -> bool
    ensures { result ≡ is_short Second cursor place message.now }
{
    place < cursor && message.echo.msgid().is_some() && is_stub(message)
}

fn kind_of(short: bool, sender: Option<Address>) -> u8
    ensures { result ≡ kind_of short sender }
{
    match (short, sender) {
        (false, None) => 0,
        (false, Some(_)) => 1,
        (true, None) => 2,
        (true, Some(_)) => 3,
    }
}

fn sender_or_zeros(sender: Option<Address>) -> Address
    ensures { result ≡ sender_or_zeros sender }
{
    match sender {
        Some(address) => address,
        None => Address {
            zone: 0,
            net: 0,
            node: 0,
        },
    }
}

fn front_bytes(message: &Filed, short: bool) -> [u8; FRONT_BYTES]
    ensures { result ≡ front_bytes (stored_as short message.now) }
{
    let mut bytes = [0u8; FRONT_BYTES];
    let sender = sender_or_zeros(message.sender);
    bytes[0] = kind_of(short, message.sender);
    bytes[1..3].copy_from_slice(&word_bytes(sender.zone));
    bytes[3..5].copy_from_slice(&word_bytes(sender.net));
    bytes[5..7].copy_from_slice(&word_bytes(sender.node));
    bytes[7..].copy_from_slice(&message.date);
    bytes
}

fn send_string<W: Sink>(writer: &mut W, string: &[u8], sent: &mut u64) -> Result<(), Failure>
    requires { length string.now < 2 ^ 8 }
    ensures bytes { Sends (W.contents writer.old) (W.contents writer.new) result (after_length string.now) sent.old sent.new }
    ensures ok { OnOk result (W.failures writer.new ≡ W.failures writer.old) }
    ensures err { OnErr result (Failed (W.failures writer.old) (W.failures writer.new)) }
{
    send(writer, &[string.len() as u8], sent)?;
    send(writer, string, sent)
}

fn send_long<W: Sink>(writer: &mut W, bytes: &[u8], sent: &mut u64) -> Result<(), Failure>
    requires { length bytes.now < 2 ^ 32 }
    ensures bytes { Sends (W.contents writer.old) (W.contents writer.new) result (after_long_length bytes.now) sent.old sent.new }
    ensures ok { OnOk result (W.failures writer.new ≡ W.failures writer.old) }
    ensures err { OnErr result (Failed (W.failures writer.old) (W.failures writer.new)) }
{
    send(writer, &long_bytes(bytes.len() as u32), sent)?;
    send(writer, bytes, sent)
}

fn send_strings<W: Sink>(writer: &mut W, message: &Filed, sent: &mut u64) -> Result<(), Failure>
    ensures bytes { Sends (W.contents writer.old) (W.contents writer.new) result (strings_bytes message.now.to_name message.now.from_name message.now.subject) sent.old sent.new }
    ensures ok { OnOk result (W.failures writer.new ≡ W.failures writer.old) }
    ensures err { OnErr result (Failed (W.failures writer.old) (W.failures writer.new)) }
{
    send_string(writer, message.to_name.as_slice(), sent)?;
    send_string(writer, message.from_name.as_slice(), sent)?;
    send_string(writer, message.subject.as_slice(), sent)
}

fn send_id<W: Sink>(writer: &mut W, echo: &Echo, sent: &mut u64) -> Result<(), Failure>
    requires { length (unwrap_or (msgid_of echo.now.kept) []) < 2 ^ 32 }
    ensures bytes { Sends (W.contents writer.old) (W.contents writer.new) result (after_length echo.now.tag ++ after_long_length (unwrap_or (msgid_of echo.now.kept) [])) sent.old sent.new }
    ensures ok { OnOk result (W.failures writer.new ≡ W.failures writer.old) }
    ensures err { OnErr result (Failed (W.failures writer.old) (W.failures writer.new)) }
{
    let id = id_of(echo);
    send_string(writer, echo.tag.as_slice(), sent)?;
    send_long(writer, id, sent)
}

fn id_of(echo: &Echo) -> &[u8]
    ensures { result.now ≡ unwrap_or (msgid_of echo.now.kept) [] }
{
    echo.msgid().unwrap_or(&[])
}

fn text_of(alloc: Global, message: &Filed) -> Result<Vec<u8>, AllocError>
    ensures { IfOk result (λ text. text.items ≡ text_of message.now.echo) }
{
    write_text(alloc, &message.echo)
}

// The SEEN-BY and PATH lines, the end of the text.
fn list_lines(alloc: Global, echo: &Echo) -> Result<Vec<u8>, AllocError>
    ensures { IfOk result (λ lines. text_of echo.now ≡ text_with echo.now.tag (flat_map ended echo.now.kept) lines.items) }
{
    let seen = echo.seen.as_slice();
    let path = echo.path.as_slice();
    let mut lines = Vec::with_capacity(alloc, lines_room(seen.len(), path.len()))?;
    push_seen(&mut lines, seen)?;
    push_path(&mut lines, path)?;
    Ok(lines)
}

fn lines_room(seen: usize, path: usize) -> usize {
    seen.saturating_add(path)
        .saturating_mul(ENTRY_ROOM)
        .saturating_add(2 * LINE_ROOM)
}

fn text_len(tag: &[u8], kept: &[u8], lines: &[u8]) -> u32
    requires { length (text_with tag.now kept.now lines.now) < 2 ^ 32 }
    ensures { result ≡ length (text_with tag.now kept.now lines.now) }
{
    (AREA.len() + tag.len() + 1 + kept.len() + lines.len()) as u32
}

fn send_area<W: Sink>(writer: &mut W, tag: &[u8], sent: &mut u64) -> Result<(), Failure>
    ensures bytes { Sends (W.contents writer.old) (W.contents writer.new) result (ended (area_word ++ tag.now)) sent.old sent.new }
    ensures ok { OnOk result (W.failures writer.new ≡ W.failures writer.old) }
    ensures err { OnErr result (Failed (W.failures writer.old) (W.failures writer.new)) }
{
    send(writer, AREA, sent)?;
    send(writer, tag, sent)?;
    send(writer, &[13], sent)
}

fn send_parts<W: Sink>(
    writer: &mut W,
    tag: &[u8],
    kept: &[u8],
    lines: &[u8],
    sent: &mut u64,
) -> Result<(), Failure>
    requires { length (text_with tag.now kept.now lines.now) < 2 ^ 32 }
    ensures bytes { Sends (W.contents writer.old) (W.contents writer.new) result (after_long_length (text_with tag.now kept.now lines.now)) sent.old sent.new }
    ensures ok { OnOk result (W.failures writer.new ≡ W.failures writer.old) }
    ensures err { OnErr result (Failed (W.failures writer.old) (W.failures writer.new)) }
{
    send(writer, &long_bytes(text_len(tag, kept, lines)), sent)?;
    send_area(writer, tag, sent)?;
    send(writer, kept, sent)?;
    send(writer, lines, sent)
}

fn send_text<W: Sink>(
    alloc: Global,
    writer: &mut W,
    message: &Filed,
    sent: &mut u64,
) -> Result<(), Unsent>
    requires room { length (text_of message.now.echo) < 2 ^ 32 }
    requires count { sent.old < 2 ^ 64 }
    ensures bytes { Sends (W.contents writer.old) (W.contents writer.new) result (after_long_length (text_of message.now.echo)) sent.old sent.new }
    ensures device { CountsUnsent result (W.failures writer.old) (W.failures writer.new) }
{
    let echo = &message.echo;
    let lines = list_lines(alloc, echo)?;
    send_parts(
        writer,
        echo.tag.as_slice(),
        echo.kept.as_text(),
        &lines,
        sent,
    )?;
    Ok(())
}

/// Writes the stored form of the message, short or not. Adds to `sent` how many bytes went out.
pub fn send_message<W: Sink>(
    alloc: Global,
    writer: &mut W,
    message: &Filed,
    short: bool,
    sent: &mut u64,
) -> Result<(), Unsent>
    requires room { is_short_enough (stored_as short message.now) ≡ true }
    requires count { sent.old < 2 ^ 64 }
    ensures bytes { Sends (W.contents writer.old) (W.contents writer.new) result (stored_bytes Second (stored_as short message.now)) sent.old sent.new }
    ensures device { CountsUnsent result (W.failures writer.old) (W.failures writer.new) }
{
    send(writer, &front_bytes(message, short), sent)?;
    send_strings(writer, message, sent)?;
    if short {
        send_id(writer, &message.echo, sent)?;
        Ok(())
    } else {
        send_text(alloc, writer, message, sent)
    }
}

fn is_little(echo: &Echo) -> bool
    ensures { IsTrue result → length (text_of echo.now) < 2 ^ 32 }
{
    if echo.seen.len() > FEW || echo.path.len() > FEW {
        return false;
    }
    echo.kept.as_text().len() <= LITTLE
}

/// Whether four bytes count the bytes of the text, or of the id where the message is stored in short.
pub fn is_short_enough(alloc: Global, message: &Filed, short: bool) -> Result<bool, AllocError>
    ensures { IfOk result (λ enough. enough ≡ is_short_enough (stored_as short message.now)) }
{
    if short {
        return Ok(id_of(&message.echo).len() <= MOST);
    }
    if is_little(&message.echo) {
        return Ok(true);
    }
    let text = text_of(alloc, message)?;
    Ok(text.len() <= MOST)
}
