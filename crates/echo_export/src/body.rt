//! The body of a mail.

use crate::header::mail_bytes;
use echo_charset::Charset;
use echo_text::{after_feeds, is_control, split_line};
use std::alloc::{AllocError, Global};

/// The kept lines as the body of a mail: in UTF-8 if the charset is known, without kludge lines.
pub(crate) fn body_of(
    alloc: Global,
    charset: Option<Charset>,
    kept: &[u8],
) -> Result<Vec<u8>, AllocError> {
    let mut body = Vec::new(alloc);
    let mut rest = kept;
    'lines: while !rest.is_empty() {
        let (line, after) = split_line(rest);
        if !is_control(line) {
            let text = mail_bytes(alloc, charset, after_feeds(line))?;
            push_quoted(&mut body, &text)?;
            body.push(b'\n')?;
        }
        rest = after;
    }
    Ok(body)
}

// No line of a mailbox may begin with `From `.
fn push_quoted(mail: &mut Vec<u8>, text: &[u8]) -> Result<(), AllocError> {
    let mut first = true;
    for i in 0..text.len() {
        if first && text[i..].starts_with(b"From ") {
            mail.push(b'>')?;
        }
        mail.push(text[i])?;
        first = text[i] == b'\n';
    }
    Ok(())
}
