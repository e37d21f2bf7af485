//! `post --jam`: the messages that an editor wrote into a JAM base are posted, and marked as sent.
ghost use Rattle.std.specs.Prelude.{◌≡◌, None};

use crate::changing::{BaseCommand, PostEnd, find_and_post};
use base_folder::MessageSource;
use cmd_door::{UseMessages, with_base};
use cmd_input::{LinkLock, named_serial, named_stamp};
use cmd_jam::{Outbox, OutboxMessage};
use cmd_numbered::{PostedWords, is_posted, own_serial, tell_refused};
use cmd_status::{Fault, FileLock, Status};
use cmd_store::{NewMessage, Post};
use cmd_words::{Place, PostJamWords};
use disk_io::{Disk, Sink};
use disk_system::{RealDisk, Unknown};
use echo_addr::Address;
use echo_jam::JamDraft;
use model_steps::{PostFault, Stamp};
use station::lock_and_read_links;

/// `post --jam PATH --area TAG`: the words are judged first, then the link file, then the JAM base. Each message is
/// marked once it is posted. One that is refused stays as it is, and the next one follows.
pub(crate) fn run_post_jam<W: Sink, E: Sink>(
    rt: &HostRuntime,
    words: &PostJamWords<'_>,
    out: &mut W,
    errors: &mut E,
) -> Status {
    let poster = match JamPoster::new(rt, words) {
        Ok(poster) => poster,
        Err(fault) => return fault.report(errors),
    };
    match Outbox::open(rt, words.jam) {
        Ok(mut outbox) => {
            let status = post_entries(rt, poster, &mut outbox, out, errors);
            match outbox.close(rt) {
                Ok(()) => status,
                Err(fault) => fault.report(errors),
            }
        }
        Err(fault) => fault.report(errors),
    }
}

fn post_entries<W: Sink, E: Sink>(
    rt: &HostRuntime,
    poster: JamPoster<'_>,
    outbox: &mut Outbox<'_>,
    out: &mut W,
    errors: &mut E,
) -> Status {
    let mut status = Status::Good;
    for i in 0..outbox.entries() {
        match post_entry(rt, poster, outbox, i, out, errors) {
            PostEnd::Posted => {}
            PostEnd::Refused(_) => status = Status::Refused,
            PostEnd::Stopped(stopped) => {
                status = stopped;
                break;
            }
        }
    }
    status
}

// Posts the message of an entry of the index, if it is to be posted. A fault of the message alone is reported with its
// number.
fn post_entry<W: Sink, E: Sink>(
    rt: &HostRuntime,
    poster: JamPoster<'_>,
    outbox: &mut Outbox<'_>,
    i: usize,
    out: &mut W,
    errors: &mut E,
) -> PostEnd {
    match outbox.unsent(rt, i) {
        Ok(Some(unsent)) => post_unsent(rt, poster, outbox, &unsent, out, errors),
        Ok(None) => PostEnd::Posted,
        Err(fault) => PostEnd::Stopped(fault.report(errors)),
    }
}

fn post_drafted<W: Sink, E: Sink>(
    rt: &HostRuntime,
    poster: JamPoster<'_>,
    outbox: &Outbox<'_>,
    unsent: &OutboxMessage,
    out: &mut W,
    errors: &mut E,
) -> PostEnd {
    match outbox.draft(rt, unsent) {
        Ok(draft) => poster.post_or_refuse(&draft, out, errors),
        Err(fault) => PostEnd::Stopped(fault.report(errors)),
    }
}

fn post_unsent<W: Sink, E: Sink>(
    rt: &HostRuntime,
    poster: JamPoster<'_>,
    outbox: &mut Outbox<'_>,
    unsent: &OutboxMessage,
    out: &mut W,
    errors: &mut E,
) -> PostEnd {
    let ended = post_drafted(rt, poster, outbox, unsent, out, errors);
    let reported = match ended {
        PostEnd::Posted => outbox.mark(unsent),
        PostEnd::Refused(_) => tell_refused(rt.alloc(), unsent.number(), out),
        PostEnd::Stopped(_) => Ok(()),
    };
    match reported {
        Ok(()) => ended,
        Err(fault) => PostEnd::Stopped(fault.report(errors)),
    }
}

// A station that posts messages of a JAM base: its own address, the serial from which the first free one is taken, and
// the stamp.
#[derive(Clone, Copy)]
struct JamPoster<'a> {
    rt: &'a HostRuntime,
    place: Place<'a>,
    tag: &'a str,
    own: Address,
    serial: u32,
    stamp: Stamp,
}

impl<'a> JamPoster<'a> {
    // The station of these words: the serial and the stamp are judged first, then the link file.
    fn new(rt: &'a HostRuntime, words: &PostJamWords<'a>) -> Result<JamPoster<'a>, Fault<'a>> {
        let (serial, _) = named_serial(rt, words.serial)?;
        let stamp = named_stamp(rt, words.at)?;
        match own_address(rt, words.place.links) {
            Ok(own) => Ok(JamPoster {
                rt,
                place: words.place,
                tag: words.area,
                own,
                serial,
                stamp,
            }),
            Err(fault) => Err(fault),
        }
    }

    // Posts the message, and reports a fault. One that is not of the message alone stops all postings.
    fn post_or_refuse<W: Sink, E: Sink>(
        &self,
        draft: &JamDraft<'_>,
        out: &mut W,
        errors: &mut E,
    ) -> PostEnd {
        match self.post(draft, out, errors) {
            PostEnd::Refused(why) => {
                let status = Fault::Post(why).report(errors);
                if is_of_message(why) {
                    PostEnd::Refused(why)
                } else {
                    PostEnd::Stopped(status)
                }
            }
            ended => ended,
        }
    }

    // Posts the message. Its own id stays, if it is one of this system and free. A message that was posted under its id
    // before is not posted again.
    fn post<W: Sink, E: Sink>(&self, draft: &JamDraft<'_>, out: &mut W, errors: &mut E) -> PostEnd {
        let serial = match own_serial(self.rt.alloc(), draft.id, self.own) {
            Ok(Some(serial)) => serial,
            Ok(None) => return self.post_with(draft, self.serial, true, out, errors),
            Err(_) => return PostEnd::Stopped(Fault::OutOfMemory.report(errors)),
        };
        let ended = self.post_with(draft, serial, false, out, errors);
        if !matches!(ended, PostEnd::Refused(PostFault::KnownSerial)) {
            return ended;
        }
        match self.was_posted(draft) {
            Ok(true) => PostEnd::Posted,
            Ok(false) => self.post_with(draft, self.serial, true, out, errors),
            Err(fault) => PostEnd::Stopped(fault.report(errors)),
        }
    }

    // Posts it with this serial, or with the first free one from this on.
    fn post_with<W: Sink, E: Sink>(
        &self,
        draft: &JamDraft<'_>,
        serial: u32,
        free: bool,
        out: &mut W,
        errors: &mut E,
    ) -> PostEnd {
        let words = NewMessage {
            tag: self.tag.as_bytes(),
            to_name: draft.to_name,
            from_name: draft.from_name,
            subject: draft.subject,
            reply: draft.reply,
            serial,
            stamp: self.stamp,
        };
        let post = Post {
            words,
            free,
            body: draft.body.as_slice(),
        };
        find_and_post(
            self.rt,
            self.place,
            &mut BaseCommand::Post(post),
            None,
            out,
            errors,
        )
    }

    // Whether the base has it, under its id.
    fn was_posted(&self, draft: &JamDraft<'_>) -> Result<bool, Fault<'a>> {
        let words = PostedWords {
            id: draft.id,
            tag: self.tag.as_bytes(),
            to_name: draft.to_name,
            from_name: draft.from_name,
            subject: draft.subject,
        };
        let base = self.place.base;
        let mut asked = Posted {
            rt: self.rt,
            base,
            words,
        };
        with_base(self.rt, base, 0, &mut asked)
    }
}

// Asks whether a base has a message.
#[derive(Clone, Copy, Drop)]
struct Posted<'q, 'a> {
    rt: &'q HostRuntime,
    base: &'a str,
    words: PostedWords<'q>,
}

impl<'a> UseMessages<'a> for Posted<'_, 'a> {
    type Answer = bool;

    fn run<M: MessageSource>(&mut self, messages: &mut M) -> Result<bool, Fault<'a>> {
        is_posted(self.rt.alloc(), self.words, self.base, messages)
    }
}

// Whether the fault is one of the message alone.
fn is_of_message(why: PostFault) -> bool {
    matches!(
        why,
        PostFault::ByteZero | PostFault::FieldTooLong | PostFault::BadReply
    )
}

// The address of the link file, which is read under its lock.
fn own_address<'a>(rt: &HostRuntime, path: &'a str) -> Result<Address, Fault<'a>> {
    let mut disk = RealDisk::new(rt, Unknown);
    let mut lock = LinkLock::ahead(rt, path);
    address_in(rt, &mut disk, &mut lock, path)
}

fn address_in<'a, D: Disk, L: FileLock>(
    rt: &HostRuntime,
    disk: &mut D,
    lock: &mut L,
    path: &'a str,
) -> Result<Address, Fault<'a>>
    requires { L.held lock.old ≡ None }
{
    match lock_and_read_links(rt.alloc(), disk, lock, path) {
        Ok(links) => Ok(links.system()),
        Err(fault) => Err(fault),
    }
}
