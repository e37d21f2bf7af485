//! A message as an object of JSON.

use crate::label::{charset_for, label_in, without_zeros};
use crate::lists::write_lists;
use crate::members::{write_address, write_found, write_number, write_string, write_text};
use echo_charset::{Charset, lost};
use echo_filed::Filed;
use echo_text::Echo;
use json::Writer;
use std::alloc::{AllocError, Global};

/// The state of a message of a base: it waits for a scan, it was scanned, or it is a stub.
#[derive(Clone, Copy, Debug)]
pub enum MessageState {
    Scanned,
    Waiting,
    Purged,
}

/// Adds one object on one line, in UTF-8 (RFC 8259).
pub(crate) fn push_json(
    alloc: Global,
    lines: &mut Vec<u8>,
    i: usize,
    state: MessageState,
    message: &Filed,
) -> Result<usize, AllocError> {
    let mut writer = Writer::new(Vec::new(alloc));
    write_object(&mut writer, alloc, i, state, message)?;
    let mut line = writer.into_inner();
    line.push(b'\n')?;
    lines.extend_from_slice(&line)?;
    Ok(lost(&line))
}

fn write_object(
    writer: &mut Writer,
    alloc: Global,
    i: usize,
    state: MessageState,
    message: &Filed,
) -> Result<(), AllocError> {
    let label = label_in(message);
    let charset = charset_for(label);
    let tag = message.echo.tag.as_slice();
    writer.begin_object()?;
    write_number(writer, "number", i as u64)?;
    write_text(writer, alloc, "area", Some(Charset::Ascii), tag)?;
    write_string(writer, "state", state_word(state))?;
    write_address(writer, alloc, "sender", message.sender)?;
    write_names(writer, alloc, charset, message)?;
    write_charset(writer, alloc, label)?;
    write_ids(writer, alloc, charset, &message.echo)?;
    write_lists(writer, alloc, charset, &message.echo)?;
    writer.end_object()
}

fn state_word(state: MessageState) -> &'static str {
    match state {
        MessageState::Scanned => "scanned",
        MessageState::Waiting => "waiting",
        MessageState::Purged => "purged",
    }
}

fn write_names(
    writer: &mut Writer,
    alloc: Global,
    charset: Option<Charset>,
    message: &Filed,
) -> Result<(), AllocError> {
    write_text(writer, alloc, "from", charset, message.from_name.as_slice())?;
    write_text(writer, alloc, "to", charset, message.to_name.as_slice())?;
    write_text(
        writer,
        alloc,
        "subject",
        charset,
        message.subject.as_slice(),
    )?;
    write_text(writer, alloc, "date", charset, without_zeros(&message.date))
}

fn write_charset(
    writer: &mut Writer,
    alloc: Global,
    label: Option<&[u8]>,
) -> Result<(), AllocError> {
    let name = charset_for(label).map(|charset| charset.name());
    write_found(writer, alloc, "charset", Some(Charset::Ascii), name)?;
    write_found(writer, alloc, "label", Some(Charset::Latin1), label)
}

fn write_ids(
    writer: &mut Writer,
    alloc: Global,
    charset: Option<Charset>,
    echo: &Echo,
) -> Result<(), AllocError> {
    write_found(writer, alloc, "msgid", charset, echo.msgid())?;
    write_found(writer, alloc, "reply", charset, echo.reply())?;
    write_found(writer, alloc, "tear", charset, echo.tear())?;
    write_found(writer, alloc, "origin", charset, echo.origin())
}
