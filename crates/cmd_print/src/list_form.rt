//! The forms of a list of messages.

use crate::base_text::{Mark, mark_of, push_message};
use echo_charset::{push_escaped, written};
use echo_export::without_zeros;
use echo_filed::Filed;
use std::alloc::AllocError;
use std::io::Write;

/// How a message of a base is listed: by all its lines, or by one.
#[derive(Clone, Copy, Debug, PartialEq, Eq)]
pub enum ListForm {
    Whole,
    Short,
}

/// Adds the message of this number in this form. It waits where the number is not below `cursor`.
pub fn push_listed(
    lines: &mut Vec<u8>,
    form: ListForm,
    cursor: usize,
    i: usize,
    message: &Filed,
) -> Result<(), AllocError> {
    match form {
        ListForm::Whole => push_message(lines, cursor, i, message),
        ListForm::Short => push_short(lines, cursor, i, message),
    }
}

fn push_short(
    lines: &mut Vec<u8>,
    cursor: usize,
    i: usize,
    message: &Filed,
) -> Result<(), AllocError> {
    let alloc = *lines.allocator();
    let mut number = Vec::new(alloc);
    written(write!(number, "{i}"))?;
    let mut parts = Vec::new(alloc);
    push_part(&mut parts, without_zeros(&message.date))?;
    push_part(&mut parts, message.from_name.as_slice())?;
    push_part(&mut parts, message.to_name.as_slice())?;
    push_part(&mut parts, message.subject.as_slice())?;
    parts.extend_from_slice(message.echo.tag.as_slice())?;
    let end: &[u8] = match mark_of(cursor, i, message) {
        Some(Mark::Waiting) => b" | waiting",
        Some(Mark::Purged) => b" | purged",
        None => b"",
    };
    parts.extend_from_slice(end)?;
    push_escaped(lines, &number, &parts)
}

fn push_part(parts: &mut Vec<u8>, part: &[u8]) -> Result<(), AllocError> {
    parts.extend_from_slice(part)?;
    parts.extend_from_slice(b" | ")
}
