//! The encoding quoted-printable (RFC 2045, 6.7).
use echo_addr::is_blank;
use echo_text::split_line;
use std::alloc::{AllocError, Global};

/// The decoded bytes of a body. Blanks at the end of a line are left out, and a line that ends in `=` continues.
pub(crate) fn quoted_printable(alloc: Global, body: &[u8]) -> Result<Vec<u8>, AllocError> {
    let mut text = Vec::new(alloc);
    let mut rest = body;
    'lines: while !rest.is_empty() {
        let (line, after) = split_line(rest);
        let line = without_back_blanks(line);
        match line.strip_suffix(b"=") {
            Some(soft) => push_unescaped(&mut text, soft)?,
            None => {
                push_unescaped(&mut text, line)?;
                text.push(b'\r')?;
            }
        }
        rest = after;
    }
    Ok(text)
}

fn without_back_blanks(line: &[u8]) -> &[u8] {
    match line.iter().rposition(|b| !is_blank(*b)) {
        Some(last) => &line[..=last],
        None => b"",
    }
}

/// Adds the bytes, decoded. A `=` without two digits is itself.
pub(crate) fn push_unescaped(text: &mut Vec<u8>, bytes: &[u8]) -> Result<(), AllocError> {
    let mut digits: u8 = 0;
    for i in 0..bytes.len() {
        if digits > 0 {
            digits -= 1;
        } else if let Some(byte) = escaped(&bytes[i..]) {
            text.push(byte)?;
            digits = 2;
        } else {
            text.push(bytes[i])?;
        }
    }
    Ok(())
}

fn escaped(bytes: &[u8]) -> Option<u8> {
    if bytes.len() < 3 || bytes[0] != b'=' {
        return None;
    }
    let high = char::from(bytes[1]).to_digit(16)?;
    let low = char::from(bytes[2]).to_digit(16)?;
    Some((16 * high + low) as u8)
}
