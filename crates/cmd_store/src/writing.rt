//! What a mail says, in the bytes of a charset.
use crate::fault::LetterFault;
use echo_addr::Items;
use echo_charset::Charset;
use echo_mail::{decoded_words, person_name};
use std::alloc::Global;

/// The name in the value of a field, or the default if there is no value.
pub(crate) fn name_in(
    alloc: Global,
    charset: Charset,
    value: Option<&[u8]>,
    word: Option<&str>,
    lack: LetterFault,
) -> Result<Items<u8>, LetterFault> {
    match value {
        Some(value) => bytes_in(alloc, charset, person_name(alloc, value)?.as_str()),
        None => bytes_in(alloc, charset, word.ok_or(lack)?),
    }
}

/// The text of a field, or the default if there is no value.
pub(crate) fn words_in(
    alloc: Global,
    charset: Charset,
    value: Option<&[u8]>,
    word: Option<&str>,
    lack: LetterFault,
) -> Result<Items<u8>, LetterFault> {
    match value {
        Some(value) => bytes_in(alloc, charset, decoded_words(alloc, value)?.as_str()),
        None => bytes_in(alloc, charset, word.ok_or(lack)?),
    }
}

/// The text in the bytes of the charset. It is refused if that lacks a character of it.
pub(crate) fn bytes_in(
    alloc: Global,
    charset: Charset,
    text: &str,
) -> Result<Items<u8>, LetterFault> {
    match charset.encode_text(alloc, text)? {
        Some(bytes) => Ok(Items::new(bytes)),
        None => Err(LetterFault::NotInCharset),
    }
}
