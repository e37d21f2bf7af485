//! The ends of lines.

use std::alloc::{AllocError, Global};

/// The bytes with 0D instead of each CRLF and each 0A.
pub(crate) fn returned(alloc: Global, bytes: &[u8]) -> Result<Vec<u8>, AllocError> {
    let mut text = Vec::new(alloc);
    let mut before = 0;
    for byte in bytes {
        if *byte != b'\n' {
            text.push(*byte)?;
        } else if before != b'\r' {
            text.push(b'\r')?;
        }
        before = *byte;
    }
    Ok(text)
}

/// The bytes before the first such byte, and those behind it.
pub(crate) fn cut(byte: u8, bytes: &[u8]) -> (&[u8], &[u8]) {
    match bytes.iter().position(|b| *b == byte) {
        Some(at) => (&bytes[..at], &bytes[at + 1..]),
        None => (bytes, b""),
    }
}
