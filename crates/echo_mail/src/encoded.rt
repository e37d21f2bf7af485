//! Encoded words of header fields (RFC 2047).
use crate::content::known_charset;
use crate::ends::cut;
use crate::quoted::push_unescaped;
use crate::transfer::{from_base64, is_called};
use echo_addr::is_blank;
use echo_charset::Charset;
use echo_text::split_line;
use std::alloc::{AllocError, Global};

/// The text before a word of a field.
#[derive(Clone, Copy, PartialEq, Eq)]
enum PrecedingText {
    Nothing,
    Word,
    Encoded,
}

/// The value of a header field as text, with its encoded words decoded. Blanks between two encoded words are left out;
/// other blanks in a row become one.
pub fn decoded_words(alloc: Global, value: &[u8]) -> Result<String, AllocError> {
    let words: Vec<u8> = value
        .iter()
        .map(|b| if is_blank(*b) { b'\r' } else { *b })
        .collect(alloc)?;
    let mut text = Vec::new(alloc);
    push_words(&mut text, alloc, &words)?;
    Charset::Utf8.text(alloc, &text)
}

fn push_words(text: &mut Vec<u8>, alloc: Global, words: &[u8]) -> Result<(), AllocError> {
    let mut before = PrecedingText::Nothing;
    let mut rest = words;
    'words: while !rest.is_empty() {
        let (word, after) = split_line(rest);
        before = push_word(text, alloc, before, word)?;
        rest = after;
    }
    Ok(())
}

fn push_word(
    text: &mut Vec<u8>,
    alloc: Global,
    before: PrecedingText,
    word: &[u8],
) -> Result<PrecedingText, AllocError> {
    let found = word_text(alloc, word)?;
    let joins = before == PrecedingText::Encoded && (found.is_some() || word.is_empty());
    if before != PrecedingText::Nothing && !joins {
        text.push(b' ')?;
    }
    if let Some(found) = found {
        text.extend_from_slice(&found)?;
        return Ok(PrecedingText::Encoded);
    }
    text.extend_from_slice(word)?;
    if word.is_empty() {
        Ok(before)
    } else {
        Ok(PrecedingText::Word)
    }
}

// The text of an encoded word: `=?`, a charset, an encoding and bytes that `?` parts, and `?=`.
fn word_text(alloc: Global, word: &[u8]) -> Result<Option<Vec<u8>>, AllocError> {
    let Some(inner) = word.strip_prefix(b"=?") else {
        return Ok(None);
    };
    let (charset, rest) = cut(b'?', inner);
    let (encoding, rest) = cut(b'?', rest);
    let (bytes, end) = cut(b'?', rest);
    if end != b"=".as_slice() {
        return Ok(None);
    }
    // A language may follow the charset (RFC 2231, 5).
    let (name, _) = cut(b'*', charset);
    let Some(charset) = known_charset(name) else {
        return Ok(None);
    };
    let Some(bytes) = word_bytes(alloc, encoding, bytes)? else {
        return Ok(None);
    };
    Ok(Some(charset.text(alloc, &bytes)?.into_bytes()))
}

fn word_bytes(alloc: Global, encoding: &[u8], text: &[u8]) -> Result<Option<Vec<u8>>, AllocError> {
    if is_called(encoding, b"B") {
        return from_base64(alloc, text);
    }
    if !is_called(encoding, b"Q") {
        return Ok(None);
    }
    let spaced: Vec<u8> = text
        .iter()
        .map(|b| if *b == b'_' { b' ' } else { *b })
        .collect(alloc)?;
    let mut bytes = Vec::new(alloc);
    push_unescaped(&mut bytes, &spaced)?;
    Ok(Some(bytes))
}
