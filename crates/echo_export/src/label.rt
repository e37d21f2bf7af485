//! The charset that a message names.
use echo_addr::is_blank;
use echo_charset::Charset;
use echo_filed::Filed;
use echo_text::{split_line, trimmed};
use std::alloc::{AllocError, Global};

const CHRS: &[u8] = b"\x01CHRS:";

pub(crate) fn label_in(message: &Filed) -> Option<&[u8]> {
    let mut rest = message.echo.kept.as_text();
    'lines: while !rest.is_empty() {
        let (line, after) = split_line(rest);
        if let Some(label) = trimmed(line).strip_prefix(CHRS) {
            return Some(trimmed(label));
        }
        rest = after;
    }
    None
}

/// The charset of a label. Without one it is CP437.
pub(crate) fn charset_for(label: Option<&[u8]>) -> Option<Charset> {
    let Some(label) = label else {
        return Some(Charset::Cp437);
    };
    match label.iter().position(|b| is_blank(*b)) {
        Some(end) => Charset::named(&label[..end]),
        None => Charset::named(label),
    }
}

/// The bytes as text; as Latin-1 if the charset is not known.
pub(crate) fn text_as(
    alloc: Global,
    charset: Option<Charset>,
    bytes: &[u8],
) -> Result<String, AllocError> {
    charset.unwrap_or(Charset::Latin1).text(alloc, bytes)
}

/// The bytes without the 00 at their end.
pub fn without_zeros(bytes: &[u8]) -> &[u8] {
    match bytes.iter().rposition(|b| *b != 0) {
        Some(last) => &bytes[..=last],
        None => b"",
    }
}
