//! A message in the files of a JAM base.
ghost use Rattle.std.specs.Prelude.{◌≡◌, ◌+◌, ◌++◌, IfOk, OnOk, length, option_copied};
ghost use Rattle.echo_filed.specs.Stored.{long};
ghost use Rattle.echo_text.specs.Lines.{lines};
ghost use Rattle.echo_jam.specs.JamMessage.{entry_of, header_back, header_front, header_ids, header_of, id_crc, jam_attribute};
ghost use Rattle.echo_jam.specs.Fields.{body_of, cuts_of, fields_of, lines_behind};

use crate::content::{MOST_OF_ID, cuts_in, front};
use crate::crc::jam_crc;
use crate::fields::{push_body, push_line_fields, push_names, push_origin, push_word};
use crate::long::{count_of, place_behind, push_long};
use crate::moment::date_seconds;
use echo_addr::Address;
use echo_filed::Filed;
use echo_stored::{push_bytes, written_text};
use echo_text::split_line;
use std::alloc::{AllocError, Global};

/// The bytes to append to the headers, the texts and the index of a JAM base, and how many subfields were cut.
#[derive(Drop)]
pub struct Jam {
    pub headers: Vec<u8>,
    pub texts: Vec<u8>,
    pub index: Vec<u8>,
    pub cuts: u64,
}

#[derive(Drop)]
pub(crate) struct Parts {
    pub(crate) fields: Vec<u8>,
    pub(crate) body: Vec<u8>,
    pub(crate) cuts: u64,
}

/// Adds a message of this number, which was scanned or waits. The headers and texts of `jam` begin at these
/// places of their files. A number that four bytes do not count is refused as out of memory.
pub fn push_jam(
    alloc: Global,
    jam: &mut Jam,
    message: &Filed,
    scanned: bool,
    number: u32,
    headers_at: u32,
    texts_at: u32,
) -> Result<(), AllocError>
    ensures headers { OnOk result (jam.new.headers.items ≡ jam.old.headers.items ++ header_of scanned message.now number (texts_at + length jam.old.texts.items)) }
    ensures texts { OnOk result (jam.new.texts.items ≡ jam.old.texts.items ++ body_of message.now) }
    ensures index { OnOk result (jam.new.index.items ≡ jam.old.index.items ++ entry_of message.now (headers_at + length jam.old.headers.items)) }
    ensures cuts { OnOk result (jam.new.cuts ≡ jam.old.cuts + cuts_of message.now) }
{
    let parts = parts_of(alloc, message)?;
    let size = count_of(&parts.body)?;
    let place = place_behind(texts_at, &jam.texts)?;
    let entry = place_behind(headers_at, &jam.headers)?;
    jam.cuts = jam.cuts.checked_add(parts.cuts).ok_or(AllocError)?;
    push_header(
        &mut jam.headers,
        message,
        scanned,
        number,
        place,
        size,
        &parts.fields,
    )?;
    push_bytes(&mut jam.texts, &parts.body)?;
    push_entry(&mut jam.index, message, entry)
}

pub(crate) fn parts_of(alloc: Global, message: &Filed) -> Result<Parts, AllocError>
    ensures fields { IfOk result (λ parts. parts.fields.items ≡ fields_of message.now) }
    ensures body { IfOk result (λ parts. parts.body.items ≡ body_of message.now) }
    ensures cuts { IfOk result (λ parts. parts.cuts ≡ cuts_of message.now) }
{
    let text = written_text(alloc, message)?;
    let (_, behind) = split_line(&text);
    let fields = fields_of(alloc, message, behind)?;
    let body = body_of(alloc, message, behind)?;
    let cuts = cuts_in(behind)?;
    Ok(Parts { fields, body, cuts })
}

pub(crate) fn push_header(
    header: &mut Vec<u8>,
    message: &Filed,
    scanned: bool,
    number: u32,
    place: u32,
    size: u32,
    fields: &[u8],
) -> Result<(), AllocError>
    ensures { OnOk result (header.new.items ≡ header.old.items ++ (header_front (length fields.now) ++ (header_ids message.now ++ (header_back scanned message.now number place size ++ fields.now)))) }
{
    push_front(header, count_of(fields)?)?;
    push_ids(header, message)?;
    push_back(header, message, scanned, number, place, size)?;
    push_bytes(header, fields)
}

fn push_front(header: &mut Vec<u8>, count: u32) -> Result<(), AllocError>
    ensures { OnOk result (header.new.items ≡ header.old.items ++ header_front count) }
{
    header.extend_from_slice(b"JAM\0")?;
    push_word(header, 1)?;
    push_word(header, 0)?;
    push_long(header, count)?;
    push_long(header, 0)
}

fn push_ids(header: &mut Vec<u8>, message: &Filed) -> Result<(), AllocError>
    ensures { OnOk result (header.new.items ≡ header.old.items ++ header_ids message.now) }
{
    push_long(header, id_crc(message.echo.msgid()))?;
    push_long(header, id_crc(message.echo.reply()))?;
    push_long(header, 0)?;
    push_long(header, 0)?;
    push_long(header, 0)
}

fn id_crc(id: Option<&[u8]>) -> u32
    ensures { result ≡ id_crc (option_copied id.entry) }
{
    match id {
        Some(id) => jam_crc(front(id, MOST_OF_ID)),
        None => u32::MAX,
    }
}

fn jam_attribute(scanned: bool, sender: Option<Address>) -> u32
    ensures { result ≡ jam_attribute scanned sender }
{
    match sender {
        Some(_) => 0x0100_0000,
        None if scanned => 0x0100_0011,
        None => 0x0100_0001,
    }
}

fn push_back(
    header: &mut Vec<u8>,
    message: &Filed,
    scanned: bool,
    number: u32,
    place: u32,
    size: u32,
) -> Result<(), AllocError>
    ensures { OnOk result (header.new.items ≡ header.old.items ++ header_back scanned message.now number place size) }
{
    push_moments(header, date_seconds(&message.date))?;
    push_number(header, number, jam_attribute(scanned, message.sender))?;
    push_place(header, place, size)
}

fn push_moments(header: &mut Vec<u8>, written: u32) -> Result<(), AllocError>
    ensures { OnOk result (header.new.items ≡ header.old.items ++ (long written ++ (long 0 ++ long 0))) }
{
    push_long(header, written)?;
    push_long(header, 0)?;
    push_long(header, 0)
}

fn push_number(header: &mut Vec<u8>, number: u32, attribute: u32) -> Result<(), AllocError>
    ensures { OnOk result (header.new.items ≡ header.old.items ++ (long number ++ (long attribute ++ long 0))) }
{
    push_long(header, number)?;
    push_long(header, attribute)?;
    push_long(header, 0)
}

fn push_place(header: &mut Vec<u8>, place: u32, size: u32) -> Result<(), AllocError>
    ensures { OnOk result (header.new.items ≡ header.old.items ++ (long place ++ (long size ++ (long 4294967295 ++ long 0)))) }
{
    push_long(header, place)?;
    push_long(header, size)?;
    push_long(header, u32::MAX)?;
    push_long(header, 0)
}

pub(crate) fn fields_of(
    alloc: Global,
    message: &Filed,
    behind: &[u8],
) -> Result<Vec<u8>, AllocError>
    requires { lines behind.now ≡ lines_behind message.now.echo }
    ensures { IfOk result (λ fields. fields.items ≡ fields_of message.now) }
{
    let mut fields = Vec::new(alloc);
    push_origin(alloc, &mut fields, message)?;
    push_names(&mut fields, message)?;
    push_line_fields(&mut fields, behind)?;
    Ok(fields)
}

pub(crate) fn body_of(alloc: Global, message: &Filed, behind: &[u8]) -> Result<Vec<u8>, AllocError>
    requires { lines behind.now ≡ lines_behind message.now.echo }
    ensures { IfOk result (λ body. body.items ≡ body_of message.now) }
{
    let mut body = Vec::new(alloc);
    push_body(&mut body, behind)?;
    Ok(body)
}

pub(crate) fn push_entry(index: &mut Vec<u8>, message: &Filed, place: u32) -> Result<(), AllocError>
    ensures { OnOk result (index.new.items ≡ index.old.items ++ entry_of message.now place) }
{
    push_long(index, jam_crc(message.to_name.as_slice()))?;
    push_long(index, place)
}
