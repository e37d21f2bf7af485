//! The header fields of a mail (RFC 5322).
use crate::ends::cut;
use echo_addr::{Items, is_blank};
use echo_text::{split_line, trimmed};
use std::alloc::{AllocError, Global};

/// A header field (RFC 5322): its name, and its value on one line without the blanks at both ends.
#[derive(Debug, Drop)]
pub struct Field {
    pub name: Items<u8>,
    pub value: Items<u8>,
}

/// The header and the body: the bytes before the first empty line, and those behind it.
pub(crate) fn head_and_body(text: &[u8]) -> (&[u8], &[u8]) {
    let mut first = true;
    for i in 0..text.len() {
        let returned = text[i] == b'\r';
        if returned && first {
            return (&text[..i], &text[i + 1..]);
        }
        first = returned;
    }
    (text, b"")
}

/// The header with each field on one line: a line end before a blank is removed (2.2.3).
pub(crate) fn unfolded(alloc: Global, head: &[u8]) -> Result<Vec<u8>, AllocError> {
    let mut text = Vec::new(alloc);
    for i in 0..head.len() {
        if head[i] != b'\r' || !begins_blank(&head[i + 1..]) {
            text.push(head[i])?;
        }
    }
    Ok(text)
}

fn begins_blank(bytes: &[u8]) -> bool {
    match bytes.first() {
        Some(byte) => is_blank(*byte),
        None => false,
    }
}

/// The fields of an unfolded header, or `None` if a line of it is no field.
pub(crate) fn fields_of(alloc: Global, text: &[u8]) -> Result<Option<Vec<Field>>, AllocError> {
    let mut fields = Vec::new(alloc);
    let mut rest = text;
    'lines: while !rest.is_empty() {
        let (line, after) = split_line(rest);
        let (name, value) = cut(b':', line);
        if !is_name(name) || name.len() == line.len() {
            return Ok(None);
        }
        fields.push(new_field(alloc, name, trimmed(value))?)?;
        rest = after;
    }
    Ok(Some(fields))
}

fn new_field(alloc: Global, name: &[u8], value: &[u8]) -> Result<Field, AllocError> {
    let name = Items::new(Vec::from_slice(alloc, name)?);
    let value = Items::new(Vec::from_slice(alloc, value)?);
    Ok(Field { name, value })
}

fn is_name(name: &[u8]) -> bool {
    !name.is_empty() && name.iter().all(|b| b.is_ascii_graphic())
}
