//! The words and the body that a mail says.

use crate::charset_line::with_line;
use crate::fault::LetterFault;
use crate::writing::{bytes_in, name_in, words_in};
use echo_addr::Items;
use echo_charset::Charset;
use echo_mail::{Mail, body_text, exported_id, field_value, named_area, read_mail};
use model_steps::is_reply_id;
use std::alloc::{AllocError, Global};

/// Words for what a mail lacks.
#[derive(Clone, Copy, Debug)]
pub struct MailDefaults<'a> {
    pub area: Option<&'a str>,
    pub to: Option<&'a str>,
    pub from: Option<&'a str>,
    pub subject: Option<&'a str>,
    pub reply: Option<&'a str>,
}

/// The words of a posting, and its body with lines that end in 0D.
#[derive(Drop)]
pub struct Letter {
    pub tag: Items<u8>,
    pub to_name: Items<u8>,
    pub from_name: Items<u8>,
    pub subject: Items<u8>,
    pub reply: Items<u8>,
    pub body: Items<u8>,
}

/// What a mail says, in the bytes of a charset, and the words for what it lacks. A newsgroup article has no To, but may
/// have X-Comment-To.
pub(crate) fn read_letter(
    alloc: Global,
    bytes: &[u8],
    spare: MailDefaults<'_>,
    charset: Charset,
) -> Result<Letter, LetterFault> {
    let mail = read_mail(alloc, bytes)?;
    let fields = mail.fields.as_slice();
    let tag = tag_in(alloc, &mail, spare.area)?;
    let to = field_value(fields, b"To").or(field_value(fields, b"X-Comment-To"));
    let to_name = name_in(alloc, charset, to, spare.to, LetterFault::NoTo)?;
    let from = field_value(fields, b"From");
    let from_name = name_in(alloc, charset, from, spare.from, LetterFault::NoFrom)?;
    let words = field_value(fields, b"Subject");
    let subject = words_in(alloc, charset, words, spare.subject, LetterFault::NoSubject)?;
    let said = bytes_in(alloc, charset, body_text(alloc, &mail)?.as_str())?;
    let reply = reply_in(alloc, &mail, spare.reply)?;
    let wide = [&to_name, &from_name, &subject, &said]
        .iter()
        .any(|part| part.as_slice().iter().any(|b| *b >= 128));
    let body = with_line(alloc, charset, wide, said.as_slice())?;
    Ok(Letter {
        tag,
        to_name,
        from_name,
        subject,
        reply,
        body: Items::new(body),
    })
}

fn tag_in(alloc: Global, mail: &Mail, word: Option<&str>) -> Result<Items<u8>, LetterFault> {
    let tag = match named_area(mail.fields.as_slice()) {
        Some(tag) => tag,
        None => word.ok_or(LetterFault::NoArea)?.as_bytes(),
    };
    Ok(Items::new(Vec::from_slice(alloc, tag)?))
}

// The id of the message that the mail answers, or else the word, or else none.
fn reply_in(alloc: Global, mail: &Mail, word: Option<&str>) -> Result<Items<u8>, AllocError> {
    if let Some(value) = field_value(mail.fields.as_slice(), b"In-Reply-To") {
        if let Some(id) = exported_id(alloc, value)? {
            if is_reply_id(id.as_slice()) {
                return Ok(id);
            }
        }
    }
    Ok(Items::new(Vec::from_slice(alloc, word.unwrap_or("").as_bytes())?))
}
