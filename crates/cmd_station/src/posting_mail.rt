//! `post --mail`: a mail message, posted. What it leaves open comes from the message that it answers, and then from the
//! words.
ghost use Rattle.std.specs.Prelude.{◌≡◌, None};

use crate::changing::{BaseCommand, find_and_change};
use base_folder::MessageSource;
use cmd_door::{UseMessages, with_base};
use cmd_input::{LinkLock, MAX_TEXT_FILE, named_serial, named_stamp, read_standard_input};
use cmd_numbered::{Answered, find_answered};
use cmd_status::{Fault, FileLock, Status};
use cmd_store::{LetterFault, MailDefaults, MailWords, PostMail};
use cmd_words::PostMailWords;
use disk_io::{Disk, Sink};
use disk_system::{RealDisk, Unknown};
use echo_addr::Items;
use echo_charset::Charset;
use echo_mail::{Field, MailFault, exported_id, field_value, named_area, read_mail};
use model_steps::Stamp;
use station::lock_links;
use std::alloc::{AllocError, Global};
use std::{fs, str};

/// The word for the charset of the message that is answered.
const SAME: &str = "same";

// The words that are judged before the mail, and the mail. Without a charset that of the answered message is meant.
#[derive(Drop)]
struct MailDraft {
    charset: Option<Charset>,
    serial: u32,
    free: bool,
    stamp: Stamp,
    mail: Vec<u8>,
}

/// `post --mail`: the charset, the serial and the stamp are judged first, then whether the files can be read, then the
/// mail. The contents of the files come last.
pub(crate) fn run_post_mail<W: Sink, E: Sink>(
    rt: &HostRuntime,
    words: &PostMailWords<'_>,
    out: &mut W,
    errors: &mut E,
) -> Status {
    let Ok(charset) = charset_asked(words.charset.unwrap_or("CP437")) else {
        return LetterFault::BadCharset.report(errors);
    };
    match mail_given(rt, words, charset) {
        Ok(given) => answer_given(rt, words, &given, out, errors),
        Err(fault) => fault.report(errors),
    }
}

fn answer_given<W: Sink, E: Sink>(
    rt: &HostRuntime,
    words: &PostMailWords<'_>,
    given: &MailDraft,
    out: &mut W,
    errors: &mut E,
) -> Status {
    match answered_message(rt, words, given) {
        Ok(found) => post_given(rt, words, given, found.as_ref(), out, errors),
        Err(fault) => match links_fault(rt, words.place.links, errors) {
            Some(status) => status,
            None => fault.report(errors),
        },
    }
}

// The charset of this name. None is that of the answered message; an error is a name of no charset.
fn charset_asked(word: &str) -> Result<Option<Charset>, LetterFault> {
    if word == SAME {
        return Ok(None);
    }
    match Charset::named(word.as_bytes()) {
        Some(charset) => Ok(Some(charset)),
        None => Err(LetterFault::BadCharset),
    }
}

// The words, and the mail on standard input.
fn mail_given<'a>(
    rt: &HostRuntime,
    words: &PostMailWords<'_>,
    charset: Option<Charset>,
) -> Result<MailDraft, Fault<'a>> {
    let (serial, free) = named_serial(rt, words.serial)?;
    let stamp = named_stamp(rt, words.at)?;
    Ok(MailDraft {
        charset,
        serial,
        free,
        stamp,
        mail: read_standard_input(rt, MAX_TEXT_FILE)?,
    })
}

// The message that the mail answers, if a part of it is needed and the base has it.
fn answered_message<'a>(
    rt: &HostRuntime,
    words: &PostMailWords<'a>,
    given: &MailDraft,
) -> Result<Option<Answered>, Fault<'a>> {
    match wanted_id(rt.alloc(), words, given) {
        Ok(Some(id)) => message_of_id(rt, words.place.base, id.as_slice()),
        Ok(None) => Ok(None),
        Err(_) => Err(Fault::OutOfMemory),
    }
}

// The message of this id, if the base has it.
fn message_of_id<'a>(
    rt: &HostRuntime,
    base: &'a str,
    id: &[u8],
) -> Result<Option<Answered>, Fault<'a>> {
    if !fs::exists(rt, base).unwrap_or(true) {
        return Ok(None);
    }
    let mut search = Search { rt, base, id };
    with_base(rt, base, 0, &mut search)
}

// Looks for the message of this id in a base.
#[derive(Clone, Copy, Drop)]
struct Search<'q, 'a> {
    rt: &'q HostRuntime,
    base: &'a str,
    id: &'q [u8],
}

impl<'a> UseMessages<'a> for Search<'_, 'a> {
    type Answer = Option<Answered>;

    fn run<M: MessageSource>(&mut self, messages: &mut M) -> Result<Option<Answered>, Fault<'a>> {
        find_answered(self.rt.alloc(), self.id, self.base, messages)
    }
}

// The id of the message that the mail answers, if no area is named or the charset of that message is asked for. A mail
// that cannot be read is refused later.
fn wanted_id(
    alloc: Global,
    words: &PostMailWords<'_>,
    given: &MailDraft,
) -> Result<Option<Items<u8>>, AllocError> {
    match read_mail(alloc, &given.mail) {
        Ok(mail) => wanted_in(alloc, words, given, mail.fields.as_slice()),
        Err(MailFault::Memory) => Err(AllocError),
        Err(_) => Ok(None),
    }
}

fn wanted_in(
    alloc: Global,
    words: &PostMailWords<'_>,
    given: &MailDraft,
    fields: &[Field],
) -> Result<Option<Items<u8>>, AllocError> {
    if given.charset.is_some() && (words.area.is_some() || named_area(fields).is_some()) {
        return Ok(None);
    }
    match field_value(fields, b"In-Reply-To") {
        Some(value) => exported_id(alloc, value),
        None => Ok(None),
    }
}

// Posts the mail, with what the answered message gives.
fn post_given<W: Sink, E: Sink>(
    rt: &HostRuntime,
    words: &PostMailWords<'_>,
    given: &MailDraft,
    found: Option<&Answered>,
    out: &mut W,
    errors: &mut E,
) -> Status {
    let Some(charset) = charset_of(given, found) else {
        return refuse_mail(rt, words.place.links, LetterFault::BadCharset, errors);
    };
    let asked = MailWords {
        spare: defaults_of(words, found),
        charset,
        serial: given.serial,
        free: given.free,
        stamp: given.stamp,
    };
    match PostMail::read(rt.alloc(), &given.mail, asked) {
        Ok(post) => find_and_change(
            rt,
            words.place,
            &mut BaseCommand::PostMail(post),
            None,
            out,
            errors,
        ),
        Err(fault) => refuse_mail(rt, words.place.links, fault, errors),
    }
}

// The charset of the posting. If that of the answered message is asked for and there is none, it is CP437.
fn charset_of(given: &MailDraft, found: Option<&Answered>) -> Option<Charset> {
    match (given.charset, found) {
        (Some(charset), _) => Some(charset),
        (None, Some(found)) => found.charset,
        (None, None) => Some(Charset::Cp437),
    }
}

// What the mail lacks. Without a word for its area that is the area of the answered message.
fn defaults_of<'a>(words: &PostMailWords<'a>, found: Option<&'a Answered>) -> MailDefaults<'a> {
    let tag = match found {
        Some(found) => str::from_utf8(found.tag.as_slice()).ok(),
        None => None,
    };
    MailDefaults {
        area: words.area.or(tag),
        to: words.to,
        from: words.from,
        subject: words.subject,
        reply: words.reply,
    }
}

// A mail is refused once the link file can be read.
fn refuse_mail<E: Sink>(
    rt: &HostRuntime,
    links: &str,
    fault: LetterFault,
    errors: &mut E,
) -> Status {
    match links_fault(rt, links, errors) {
        Some(status) => status,
        None => fault.report(errors),
    }
}

// Reports why the link file cannot be read under its lock, if it cannot.
fn links_fault<E: Sink>(rt: &HostRuntime, links: &str, errors: &mut E) -> Option<Status> {
    match links_checked(rt, links) {
        Ok(()) => None,
        Err(fault) => Some(fault.report(errors)),
    }
}

fn links_checked<'a>(rt: &HostRuntime, links: &'a str) -> Result<(), Fault<'a>> {
    let mut disk = RealDisk::new(rt, Unknown);
    let mut lock = LinkLock::ahead(rt, links);
    check_links(rt, &mut disk, &mut lock, links)
}

// A fault if the link file cannot be read under its lock.
fn check_links<'a, D: Disk, L: FileLock>(
    rt: &HostRuntime,
    disk: &mut D,
    lock: &mut L,
    links: &'a str,
) -> Result<(), Fault<'a>>
    requires { L.held lock.old ≡ None }
{
    match lock_links(rt.alloc(), disk, lock, links) {
        Ok(_) => Ok(()),
        Err(fault) => Err(fault),
    }
}
