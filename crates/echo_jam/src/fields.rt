//! The subfields of a JAM message, and its text.
ghost use Rattle.std.specs.{Prelude.◌≡◌, Prelude.◌++◌, Prelude.OnOk, List.flat_map};
ghost use Rattle.echo_packet.specs.Header.{word};
ghost use Rattle.echo_stored.specs.OriginAddress.{address_in_origin};
ghost use Rattle.echo_text.specs.Lines.{lines};
ghost use Rattle.echo_jam.specs.Fields.{address_field, body_line, line_field, name_fields, origin_field, subfield};

use crate::content::{content_of, front};
use crate::long::{count_of, push_long};
use echo_addr::Address;
use echo_charset::written;
use echo_filed::Filed;
use echo_stored::{address_in_origin, is_seen};
use echo_text::{is_control, push_line, split_line};
use std::alloc::{AllocError, Global};
use std::io::Write;

/// Adds a subfield. If four bytes do not count its length, it is refused as out of memory.
pub(crate) fn push_subfield(fields: &mut Vec<u8>, kind: u16, bytes: &[u8]) -> Result<(), AllocError>
    ensures { OnOk result (fields.new.items ≡ fields.old.items ++ subfield kind bytes.now) }
{
    let size = count_of(bytes)?;
    push_word(fields, kind)?;
    push_word(fields, 0)?;
    push_long(fields, size)?;
    fields.extend_from_slice(bytes)
}

pub(crate) fn push_word(bytes: &mut Vec<u8>, number: u16) -> Result<(), AllocError>
    ensures { OnOk result (bytes.new.items ≡ bytes.old.items ++ word number) }
{
    bytes.extend_from_slice(&[(number % 256) as u8, (number / 256) as u8])
}

pub(crate) fn push_line_fields(fields: &mut Vec<u8>, text: &[u8]) -> Result<(), AllocError>
    ensures { OnOk result (fields.new.items ≡ fields.old.items ++ flat_map line_field (lines text.now)) }
{
    let mut rest = text;
    'lines: while !rest.is_empty() {
        let (line, after) = split_line(rest);
        push_line_field(fields, line)?;
        rest = after;
    }
    Ok(())
}

fn push_line_field(fields: &mut Vec<u8>, line: &[u8]) -> Result<(), AllocError>
    ensures { OnOk result (fields.new.items ≡ fields.old.items ++ line_field line.now) }
{
    match content_of(line) {
        Some(content) => push_subfield(fields, content.kind, front(content.bytes, content.most)),
        None => Ok(()),
    }
}

pub(crate) fn push_body(body: &mut Vec<u8>, text: &[u8]) -> Result<(), AllocError>
    ensures { OnOk result (body.new.items ≡ body.old.items ++ flat_map body_line (lines text.now)) }
{
    let mut rest = text;
    'lines: while !rest.is_empty() {
        let (line, after) = split_line(rest);
        push_body_line(body, line)?;
        rest = after;
    }
    Ok(())
}

fn push_body_line(body: &mut Vec<u8>, line: &[u8]) -> Result<(), AllocError>
    ensures { OnOk result (body.new.items ≡ body.old.items ++ body_line line.now) }
{
    if is_control(line) || is_seen(line) {
        return Ok(());
    }
    push_line(body, line)
}

pub(crate) fn push_names(fields: &mut Vec<u8>, message: &Filed) -> Result<(), AllocError>
    ensures { OnOk result (fields.new.items ≡ fields.old.items ++ name_fields message.now) }
{
    push_subfield(fields, 2, message.from_name.as_slice())?;
    push_subfield(fields, 3, message.to_name.as_slice())?;
    push_subfield(fields, 6, message.subject.as_slice())
}

pub(crate) fn push_origin(
    alloc: Global,
    fields: &mut Vec<u8>,
    message: &Filed,
) -> Result<(), AllocError>
    ensures { OnOk result (fields.new.items ≡ fields.old.items ++ origin_field (address_in_origin message.now.echo) message.now.sender) }
{
    if let Some(address) = address_in_origin(&message.echo) {
        return push_address(alloc, fields, address);
    }
    match message.sender {
        Some(address) => push_address(alloc, fields, address),
        None => Ok(()),
    }
}

fn push_address(alloc: Global, fields: &mut Vec<u8>, address: Address) -> Result<(), AllocError>
    ensures { OnOk result (fields.new.items ≡ fields.old.items ++ address_field address) }
{
    let mut text = Vec::new(alloc);
    written(write!(text, "{address}"))?;
    push_subfield(fields, 0, &text)
}
