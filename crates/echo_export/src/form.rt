//! The forms of an exported message.

use crate::json_line::{MessageState, push_json};
use crate::mail::push_mail;
use echo_filed::Filed;
use std::alloc::{AllocError, Global};

/// A form of a message: a mail of a mailbox, or a line of JSON.
#[derive(Clone, Copy, Debug)]
pub enum Form {
    Mailbox,
    Json,
}

/// Adds the message in this form. Answers how many U+FFFD replace characters that its charset does not have.
pub fn push_message(
    alloc: Global,
    lines: &mut Vec<u8>,
    form: Form,
    i: usize,
    state: MessageState,
    message: &Filed,
) -> Result<usize, AllocError> {
    match form {
        Form::Mailbox => push_mail(alloc, lines, message),
        Form::Json => push_json(alloc, lines, i, state, message),
    }
}
