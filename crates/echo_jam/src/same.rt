//! Whether a message of a JAM base is one that was exported before.

ghost use Rattle.std.specs.Prelude.{◌≡◌, ◌==◌, ◌+◌, ◌&&◌, ◌≤◌, IfOk, bytes_eq, length};
ghost use Rattle.echo_jam.specs.Moment as moments;
ghost use Rattle.echo_jam.specs.Same.{fields_at, is_same, written_at};

use crate::content::front;
use crate::message::{Parts, parts_of};
use crate::moment::date_seconds;
use crate::standing::long_at;
use echo_filed::Filed;
use std::alloc::{AllocError, Global};

/// Whether this header and text are those of the message, except numbers, attributes and links: readers change these.
pub fn is_same(
    alloc: Global,
    headers: &[u8],
    place: u32,
    text: &[u8],
    message: &Filed,
) -> Result<bool, AllocError>
    ensures { IfOk result (λ is. is ≡ is_same headers.now place text.now message.now) }
{
    let at = place as usize;
    if headers.len() < at + 76 {
        return Ok(false);
    }
    if !is_written_then(headers, at, message) {
        return Ok(false);
    }
    let parts = parts_of(alloc, message)?;
    Ok(has_parts(fields_at(headers, at), text, &parts))
}

fn has_parts(fields: &[u8], text: &[u8], parts: &Parts) -> bool
    ensures { result ≡ (bytes_eq fields.now parts.now.fields.items && bytes_eq text.now parts.now.body.items) }
{
    fields == parts.fields.as_slice() && text == parts.body.as_slice()
}

fn is_written_then(headers: &[u8], at: usize, message: &Filed) -> bool
    requires { at + 76 ≤ length headers.now }
    ensures { result ≡ (written_at headers.now at == moments.seconds_of message.now.date) }
{
    long_at(headers, at + 36) == date_seconds(&message.date)
}

pub(crate) fn fields_at(headers: &[u8], at: usize) -> &[u8]
    requires { at + 76 ≤ length headers.now }
    ensures { result.now ≡ fields_at headers.now at }
{
    front(&headers[at + 76..], long_at(headers, at + 8) as usize)
}
