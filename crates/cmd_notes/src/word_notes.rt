//! Notes on words of the command line, and on the fields of a message.

use crate::notes::{FaultLine, is_there, tell};
use crate::reasons::{LongField, Reason, WordForm, WrongWord};
use base_folder::{BaseReader, MessageSource, fetch_message};
use cmd_base::{is_folder, open_base};
use cmd_input::read_file;
use cmd_status::{Fault, parse_number};
use cmd_words::ReplyWords;
use disk_io::Sink;
use echo_filed::Filed;
use echo_packet::{Field, MAX_NAME, MAX_SUBJECT};
use memchr::memmem;
use model_steps::PostFault;
use std::alloc::{AllocError, Global};
use std::collections::hash_map::RandomState;

pub(crate) fn explain_word<E: Sink>(
    met: FaultLine<'_>,
    fault: Fault<'_>,
    form: WordForm,
    word: Option<&str>,
    errors: &mut E,
) {
    if let Some(word) = word {
        if met.is(fault) {
            tell(met.rt, Reason::Word(WrongWord { form, word }), errors);
        }
    }
}

pub(crate) fn explain_moment<E: Sink>(
    met: FaultLine<'_>,
    at: &str,
    serial: Option<&str>,
    errors: &mut E,
) {
    explain_word(met, Fault::BadStamp, WordForm::Stamp, Some(at), errors);
    explain_word(met, Fault::BadSerial, WordForm::Serial, serial, errors);
}

pub(crate) fn explain_area<E: Sink>(met: FaultLine<'_>, tag: &str, links: &str, errors: &mut E) {
    if met.is(Fault::Post(PostFault::NoArea)) || met.is(Fault::NoArea(tag)) {
        tell(met.rt, Reason::NoArea(tag, links), errors);
    }
}

/// Names and a subject of so many bytes, of which the first that is too long is named.
pub(crate) fn explain_fields<E: Sink>(
    met: FaultLine<'_>,
    to: usize,
    from: usize,
    subject: usize,
    errors: &mut E,
) {
    if !met.is(Fault::Post(PostFault::FieldTooLong)) {
        return;
    }
    let (field, length, most) = if to > MAX_NAME {
        (Field::ToName, to, MAX_NAME)
    } else if from > MAX_NAME {
        (Field::FromName, from, MAX_NAME)
    } else if subject > MAX_SUBJECT {
        (Field::Subject, subject, MAX_SUBJECT)
    } else {
        return;
    };
    let long = LongField {
        field,
        length,
        most,
    };
    tell(met.rt, Reason::TooLong(long), errors);
}

pub(crate) fn explain_index<E: Sink>(met: FaultLine<'_>, words: &ReplyWords<'_>, errors: &mut E) {
    if !met.is(Fault::BadNumber) {
        return;
    }
    match parse_number(words.index) {
        Ok(number) => match count_of(met.rt, words.place.base) {
            Some(count) if number >= count => {
                tell(met.rt, Reason::NoMessage(number, count), errors)
            }
            _ => {}
        },
        Err(fault) => {
            explain_word(met, fault, WordForm::Number, Some(words.index), errors);
        }
    }
}

fn count_of(rt: &HostRuntime, path: &str) -> Option<u64> {
    if !is_there(rt, path) {
        return Some(0);
    }
    let messages = open_base(rt, path, u64::MAX).ok()?;
    Some(messages.count() as u64)
}

/// Whether a readable base has no message of this area. The tag is in letters of either case.
pub(crate) fn has_none_of(rt: &HostRuntime, path: &str, tag: &str) -> bool {
    matches!(none_of(rt, path, tag), Some(true))
}

// A message of a folder is in memory alone.
fn none_of(rt: &HostRuntime, path: &str, tag: &str) -> Option<bool> {
    let tag = tag.as_bytes().to_ascii_uppercase(rt.alloc()).ok()?;
    if is_folder(rt, path) {
        let mut messages = open_base(rt, path, u64::MAX).ok()?;
        return lacks_area(&mut messages, path, &tag);
    }
    none_in_file(rt, path, &tag)
}

// Most often the bytes have a line of the area, and the base is not read whole.
fn none_in_file(rt: &HostRuntime, path: &str, tag: &[u8]) -> Option<bool> {
    let bytes = read_file(rt, path, usize::MAX).ok()?;
    let line = area_line(rt.alloc(), tag).ok()?;
    if memmem::find(&bytes, &line).is_some() {
        return Some(false);
    }
    let hasher = RandomState::new(rt).ok()?;
    let mut messages = BaseReader::read(rt.alloc(), &bytes, hasher).ok()?;
    lacks_area(&mut messages, path, tag)
}

fn area_line(alloc: Global, tag: &[u8]) -> Result<Vec<u8>, AllocError> {
    let mut line = Vec::from_slice(alloc, b"AREA:")?;
    line.extend_from_slice(tag)?;
    line.push(b'\r')?;
    Ok(line)
}

// None where a message is not read.
fn lacks_area<M: MessageSource>(messages: &mut M, path: &str, tag: &[u8]) -> Option<bool>
    requires { (M.state messages.old).is_ready }
{
    let count = messages.count();
    'messages: for i in 0..count {
        fetch_message(messages, path, i).ok()?;
        if is_of_area(messages.at_hand(), tag) {
            return Some(false);
        }
    }
    Some(true)
}

fn is_of_area(message: Option<&Filed>, tag: &[u8]) -> bool {
    match message {
        Some(message) => message.echo.tag.as_slice() == tag,
        None => false,
    }
}
