//! Header lines of a mail.
use echo_charset::Charset;
use echo_text::trimmed;
use std::alloc::{AllocError, Global};

const DIGITS: [u8; 16] = *b"0123456789ABCDEF";

/// How many bytes an encoded word has at most between its marks.
const WORD: u8 = 30;

/// How many a character takes there at most.
const CHARACTER: u8 = 12;

pub(crate) fn push_name(
    mail: &mut Vec<u8>,
    alloc: Global,
    field: &[u8],
    charset: Option<Charset>,
    name: &[u8],
) -> Result<(), AllocError> {
    mail.extend_from_slice(field)?;
    mail.extend_from_slice(b": ")?;
    if is_trimmed(name) && name.iter().all(|b| is_name_byte(*b)) {
        mail.push(b'"')?;
        mail.extend_from_slice(name)?;
        mail.push(b'"')?;
    } else {
        push_encoded(mail, alloc, charset, name)?;
    }
    mail.extend_from_slice(b" <fido@fido.invalid>\n")
}

pub(crate) fn push_field(
    mail: &mut Vec<u8>,
    alloc: Global,
    field: &[u8],
    charset: Option<Charset>,
    bytes: &[u8],
) -> Result<(), AllocError> {
    mail.extend_from_slice(field)?;
    mail.extend_from_slice(b": ")?;
    if is_trimmed(bytes) && bytes.iter().all(|b| is_field_byte(*b)) {
        mail.extend_from_slice(bytes)?;
    } else {
        push_encoded(mail, alloc, charset, bytes)?;
    }
    mail.extend_from_slice(b"\n")
}

pub(crate) fn push_found(
    mail: &mut Vec<u8>,
    alloc: Global,
    field: &[u8],
    charset: Option<Charset>,
    found: Option<&[u8]>,
) -> Result<(), AllocError> {
    match found {
        Some(bytes) => push_field(mail, alloc, field, charset, trimmed(bytes)),
        None => Ok(()),
    }
}

/// Adds the line of an id: its bytes in hexadecimal digits, in the form of a message id.
pub(crate) fn push_id(
    mail: &mut Vec<u8>,
    alloc: Global,
    field: &[u8],
    id: Option<&[u8]>,
) -> Result<(), AllocError> {
    let Some(id) = id else {
        return Ok(());
    };
    mail.extend_from_slice(field)?;
    mail.extend_from_slice(b": <")?;
    mail.extend_from_slice(hex::encode(alloc, id)?.as_bytes())?;
    mail.extend_from_slice(b"@fido.invalid>\n")
}

/// The bytes in UTF-8, or unchanged if the charset is not known.
pub(crate) fn mail_bytes(
    alloc: Global,
    charset: Option<Charset>,
    bytes: &[u8],
) -> Result<Vec<u8>, AllocError> {
    match charset {
        Some(charset) => Ok(charset.text(alloc, bytes)?.into_bytes()),
        None => Vec::from_slice(alloc, bytes),
    }
}

pub(crate) fn mail_charset(charset: Option<Charset>) -> &'static [u8] {
    match charset {
        Some(_) => b"UTF-8",
        None => b"unknown-8bit",
    }
}

// As words in the encoding Q (RFC 2047). No character is cut by the end of a word.
fn push_encoded(
    mail: &mut Vec<u8>,
    alloc: Global,
    charset: Option<Charset>,
    bytes: &[u8],
) -> Result<(), AllocError> {
    let text = mail_bytes(alloc, charset, bytes)?;
    push_front(mail, charset)?;
    let mut room = WORD;
    for byte in text.as_slice() {
        if room < CHARACTER && !is_following(charset, *byte) {
            mail.extend_from_slice(b"?=\n ")?;
            push_front(mail, charset)?;
            room = WORD;
        }
        push_q(mail, *byte)?;
        room = room.saturating_sub(q_size(*byte));
    }
    mail.extend_from_slice(b"?=")
}

fn push_front(mail: &mut Vec<u8>, charset: Option<Charset>) -> Result<(), AllocError> {
    mail.extend_from_slice(b"=?")?;
    mail.extend_from_slice(mail_charset(charset))?;
    mail.extend_from_slice(b"?Q?")
}

fn q_size(byte: u8) -> u8 {
    if byte.is_ascii_alphanumeric() || byte == b' ' {
        1
    } else {
        3
    }
}

fn push_q(mail: &mut Vec<u8>, byte: u8) -> Result<(), AllocError> {
    if byte.is_ascii_alphanumeric() {
        mail.extend_from_slice(&[byte])
    } else if byte == b' ' {
        mail.extend_from_slice(b"_")
    } else {
        let high = DIGITS[usize::from(byte / 16)];
        let low = DIGITS[usize::from(byte % 16)];
        mail.extend_from_slice(&[b'=', high, low])
    }
}

fn is_trimmed(bytes: &[u8]) -> bool {
    trimmed(bytes) == bytes
}

fn is_name_byte(byte: u8) -> bool {
    is_field_byte(byte) && byte != b'"' && byte != b'\\'
}

fn is_field_byte(byte: u8) -> bool {
    (b' '..=b'~').contains(&byte) && byte != b'='
}

// A byte inside a character of UTF-8.
fn is_following(charset: Option<Charset>, byte: u8) -> bool {
    charset.is_some() && (128..=191).contains(&byte)
}
