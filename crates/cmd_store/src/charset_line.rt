//! The line that names the charset of a message (FTS-5003).
use echo_charset::Charset;
use std::alloc::{AllocError, Global};

/// The text, after the charset line if the message has a byte above 7F.
pub(crate) fn with_line(
    alloc: Global,
    charset: Charset,
    wide: bool,
    text: &[u8],
) -> Result<Vec<u8>, AllocError> {
    let mut bytes = Vec::new(alloc);
    if wide {
        bytes.extend_from_slice(b"\x01CHRS: ")?;
        bytes.extend_from_slice(charset.name())?;
        bytes.extend_from_slice(&[b' ', level(charset), b'\r'])?;
    }
    bytes.extend_from_slice(text)?;
    Ok(bytes)
}

// As a digit: 1 of seven bits, 2 of eight, 4 of UTF-8.
fn level(charset: Charset) -> u8 {
    match charset {
        Charset::Ascii => b'1',
        Charset::Utf8 => b'4',
        _ => b'2',
    }
}
