//! The type and charset of a body (RFC 2045, 5).
ghost use Rattle.std.specs.Prelude.{◌≡◌, IfErr};
ghost use Rattle.echo_mail.specs.declared.fault.MailFault.TheVariants.{BadField};

use crate::ends::cut;
use crate::fault::MailFault;
use crate::transfer::is_called;
use echo_charset::Charset;
use echo_text::trimmed;

/// Bytes that no word of a parameter has.
const SPECIALS: [u8; 15] = *b"()<>@,;:\\\"/[]?=";

/// The charset in a Content-Type. Without one it is US-ASCII (5.2).
pub(crate) fn charset_of(value: Option<&[u8]>) -> Result<Charset, MailFault>
    ensures { IfErr result (λ fault. fault ≡ BadField → ⊥) }
{
    let Some(value) = value else {
        return Ok(Charset::Ascii);
    };
    let (media, _) = cut(b';', value);
    let media = trimmed(media);
    if behind_called(b"multipart/", media).is_some() {
        Err(MailFault::Multipart)
    } else if !is_called(media, b"text/plain") {
        Err(MailFault::NotText)
    } else {
        let Some(name) = charset_param(value) else {
            return Ok(Charset::Ascii);
        };
        known_charset(name).ok_or(MailFault::UnknownCharset)
    }
}

/// The charset with a name from mails or from messages.
pub(crate) fn known_charset(name: &[u8]) -> Option<Charset> {
    if is_called(name, b"us-ascii") {
        Some(Charset::Ascii)
    } else if is_called(name, b"iso-8859-1") {
        Some(Charset::Latin1)
    } else if is_called(name, b"ibm437") {
        Some(Charset::Cp437)
    } else if is_called(name, b"ibm850") {
        Some(Charset::Cp850)
    } else if is_called(name, b"ibm866") {
        Some(Charset::Cp866)
    } else if is_called(name, b"windows-1251") {
        Some(Charset::Cp1251)
    } else {
        Charset::named(name)
    }
}

// The bytes behind a word, in letters of either case.
fn behind_called<'a>(word: &[u8], bytes: &'a [u8]) -> Option<&'a [u8]> {
    let (front, rest) = bytes.split_at_checked(word.len())?;
    if is_called(front, word) {
        Some(rest)
    } else {
        None
    }
}

// The value of the first parameter `charset`: a word, or the bytes between quotation marks.
fn charset_param(value: &[u8]) -> Option<&[u8]> {
    for i in 0..value.len() {
        if value[i] != b';' {
            continue;
        }
        if let Some(found) = behind_called(b"charset=", trimmed(&value[i + 1..])) {
            return Some(param_value(found));
        }
    }
    None
}

fn param_value(value: &[u8]) -> &[u8] {
    match value.strip_prefix(b"\"") {
        Some(quoted) => cut(b'"', quoted).0,
        None => token(value),
    }
}

fn token(value: &[u8]) -> &[u8] {
    match value.iter().position(|b| !is_token_byte(*b)) {
        Some(end) => &value[..end],
        None => value,
    }
}

fn is_token_byte(byte: u8) -> bool {
    byte.is_ascii_graphic() && !SPECIALS.contains(&byte)
}
