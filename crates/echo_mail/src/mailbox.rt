//! The name in a list of mailboxes (RFC 5322, 3.4).
use crate::encoded::decoded_words;
use echo_text::trimmed;
use std::alloc::{AllocError, Global};

// The place of a byte: its depth in comments, whether in a quoted string, whether after a backslash there.
#[derive(Clone, Copy)]
struct QuotingState {
    depth: usize,
    quoted: bool,
    escaped: bool,
}

/// The name of the first mailbox in From or To, or else the part before the `@` of its address.
pub fn person_name(alloc: Global, value: &[u8]) -> Result<String, AllocError> {
    let name = mailbox_name(alloc, value)?;
    decoded_words(alloc, &name)
}

fn mailbox_name(alloc: Global, value: &[u8]) -> Result<Vec<u8>, AllocError> {
    let (bare, rest) = bare_name(alloc, value)?;
    let name = trimmed(&bare);
    match rest.split_first() {
        Some((_, address)) if name.is_empty() => Vec::from_slice(alloc, local_part(address)),
        Some((b'<', _)) => Vec::from_slice(alloc, name),
        _ => Vec::from_slice(alloc, local_part(name)),
    }
}

// The first name without its comments and marks of quoted strings, and the bytes from its end on.
fn bare_name(alloc: Global, value: &[u8]) -> Result<(Vec<u8>, &[u8]), AllocError> {
    let mut bare = Vec::new(alloc);
    let mut place = QuotingState {
        depth: 0,
        quoted: false,
        escaped: false,
    };
    for i in 0..value.len() {
        if ends_name(place, value[i]) {
            return Ok((bare, &value[i..]));
        }
        if is_name_part(place, value[i]) {
            bare.push(value[i])?;
        }
        place = next_place(place, value[i]);
    }
    Ok((bare, b""))
}

// Comments nest, and a backslash makes the next byte an ordinary one.
fn next_place(place: QuotingState, byte: u8) -> QuotingState {
    if place.escaped {
        return QuotingState {
            escaped: false,
            ..place
        };
    }
    let within = place.depth > 0;
    match byte {
        b'\\' if is_open(place) => QuotingState {
            escaped: true,
            ..place
        },
        b'"' if !within => QuotingState {
            quoted: !place.quoted,
            ..place
        },
        b'(' if !place.quoted => QuotingState {
            depth: place.depth.saturating_add(1),
            ..place
        },
        b')' if !place.quoted => QuotingState {
            depth: place.depth.saturating_sub(1),
            ..place
        },
        _ => place,
    }
}

fn is_open(place: QuotingState) -> bool {
    place.quoted || place.depth > 0
}

fn ends_name(place: QuotingState, byte: u8) -> bool {
    !is_open(place) && (byte == b'<' || byte == b',')
}

fn is_name_part(place: QuotingState, byte: u8) -> bool {
    if place.depth > 0 {
        false
    } else if place.escaped {
        true
    } else if place.quoted {
        byte != b'"' && byte != b'\\'
    } else {
        byte != b'"' && byte != b'('
    }
}

fn local_part(address: &[u8]) -> &[u8] {
    match address.iter().position(|b| *b == b'@' || *b == b'>') {
        Some(end) => &address[..end],
        None => address,
    }
}
