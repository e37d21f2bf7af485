//! A message as one of a mailbox (RFC 4155).

use crate::body::body_of;
use crate::header::{mail_bytes, mail_charset, push_field, push_found, push_id, push_name};
use crate::label::{charset_for, label_in, without_zeros};
use echo_charset::{Charset, lost, written};
use echo_filed::Filed;
use echo_text::Echo;
use std::alloc::{AllocError, Global};
use std::io::Write;

const MONTHS: [&[u8]; 12] = [
    b"Jan", b"Feb", b"Mar", b"Apr", b"May", b"Jun", b"Jul", b"Aug", b"Sep", b"Oct", b"Nov", b"Dec",
];

/// Adds the message as one of a mailbox (RFC 4155).
pub(crate) fn push_mail(
    alloc: Global,
    mail: &mut Vec<u8>,
    message: &Filed,
) -> Result<usize, AllocError> {
    let label = label_in(message);
    let charset = charset_for(label);
    mail.extend_from_slice(b"From fido@fido.invalid Thu Jan  1 00:00:00 1970\n")?;
    push_names(mail, alloc, charset, message)?;
    push_echo(mail, alloc, charset, &message.echo)?;
    push_found(mail, alloc, b"X-FTN-CHRS", None, label)?;
    push_form(mail, charset)?;
    let body = body_of(alloc, charset, message.echo.kept.as_text())?;
    mail.extend_from_slice(&body)?;
    mail.extend_from_slice(b"\n")?;
    lost_with(alloc, charset, message, &body)
}

fn push_names(
    mail: &mut Vec<u8>,
    alloc: Global,
    charset: Option<Charset>,
    message: &Filed,
) -> Result<(), AllocError> {
    push_name(mail, alloc, b"From", charset, message.from_name.as_slice())?;
    push_name(mail, alloc, b"To", charset, message.to_name.as_slice())?;
    push_field(mail, alloc, b"Subject", charset, message.subject.as_slice())?;
    let date = &message.date;
    if !is_customary(date) {
        return push_field(mail, alloc, b"X-FTN-Date", charset, without_zeros(date));
    }
    mail.extend_from_slice(b"Date: ")?;
    mail.extend_from_slice(&date[..7])?;
    mail.extend_from_slice(if date[7] >= b'8' { b"19" } else { b"20" })?;
    mail.extend_from_slice(&date[7..9])?;
    mail.extend_from_slice(b" ")?;
    mail.extend_from_slice(&date[11..19])?;
    mail.extend_from_slice(b" -0000\n")
}

// Whether the date has the form of FTS-0001, as `03 Jul 26  12:34:56`.
fn is_customary(date: &[u8; 20]) -> bool {
    is_pair(date[0], date[1], 1, 31)
        && date[2] == b' '
        && MONTHS.contains(&&date[3..6])
        && date[6] == b' '
        && is_pair(date[7], date[8], 0, 99)
        && is_pair(date[11], date[12], 0, 23)
        && date[13] == b':'
        && is_pair(date[14], date[15], 0, 59)
        && date[16] == b':'
        && is_pair(date[17], date[18], 0, 59)
}

// Whether the digits are a number in these bounds.
fn is_pair(tens: u8, ones: u8, low: u8, high: u8) -> bool {
    if !tens.is_ascii_digit() || !ones.is_ascii_digit() {
        return false;
    }
    let pair = 10 * (tens - b'0') + (ones - b'0');
    low <= pair && pair <= high
}

fn push_echo(
    mail: &mut Vec<u8>,
    alloc: Global,
    charset: Option<Charset>,
    echo: &Echo,
) -> Result<(), AllocError> {
    push_id(mail, alloc, b"Message-ID", echo.msgid())?;
    push_id(mail, alloc, b"In-Reply-To", echo.reply())?;
    push_id(mail, alloc, b"References", echo.reply())?;
    push_area(mail, echo.tag.as_slice())?;
    let seen = echo.seen.len();
    written(write!(mail, "X-FTN-SEEN-BY: {seen}\nX-FTN-PATH:"))?;
    for entry in echo.path.as_slice() {
        written(write!(mail, " {entry}"))?;
    }
    mail.extend_from_slice(b"\n")?;
    push_found(mail, alloc, b"X-FTN-MSGID", charset, echo.msgid())?;
    push_found(mail, alloc, b"X-FTN-REPLY", charset, echo.reply())?;
    push_found(mail, alloc, b"X-FTN-Tear", charset, echo.tear())?;
    push_found(mail, alloc, b"X-FTN-Origin", charset, echo.origin())
}

// A comma would begin another newsgroup. So a tag with one has a line of its own too.
fn push_area(mail: &mut Vec<u8>, tag: &[u8]) -> Result<(), AllocError> {
    mail.extend_from_slice(b"Newsgroups: ")?;
    for byte in tag {
        match byte {
            b',' => mail.extend_from_slice(b"%2C")?,
            _ => mail.extend_from_slice(&[*byte])?,
        }
    }
    mail.extend_from_slice(b"\n")?;
    if tag.contains(&b',') {
        mail.extend_from_slice(b"X-FTN-Area: ")?;
        mail.extend_from_slice(tag)?;
        mail.extend_from_slice(b"\n")?;
    }
    Ok(())
}

fn push_form(mail: &mut Vec<u8>, charset: Option<Charset>) -> Result<(), AllocError> {
    mail.extend_from_slice(b"MIME-Version: 1.0\nContent-Type: text/plain; charset=")?;
    mail.extend_from_slice(mail_charset(charset))?;
    mail.extend_from_slice(b"\nContent-Transfer-Encoding: 8bit\n\n")
}

// How many U+FFFD the names, the subject and the body have.
fn lost_with(
    alloc: Global,
    charset: Option<Charset>,
    message: &Filed,
    body: &[u8],
) -> Result<usize, AllocError> {
    let mut all = Vec::new(alloc);
    for part in [&message.from_name, &message.to_name, &message.subject] {
        all.extend_from_slice(&mail_bytes(alloc, charset, part.as_slice())?)?;
    }
    all.extend_from_slice(body)?;
    Ok(lost(&all))
}
