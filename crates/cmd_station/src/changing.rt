//! The commands that change the base of a station, by their words. They take the lock of its link file before they read it,
//! and hold it until they end. They wait while another run holds it.
ghost use Rattle.std.specs.Prelude.{◌≡◌, None, OnOk};
ghost use Rattle.station.specs.Opening.{AreFree};

use crate::place::{Station, find_base, station_locks};
use crate::posting::new_message;
use crate::running::{Before, run_at_station};
use base_file::PurgeRange;
use cmd_input::{MAX_TEXT_FILE, named_serial, named_stamp, read_file, read_standard_input};
use cmd_numbered::refuse_message;
use cmd_status::{Fault, FileLock, Status, parse_number};
use cmd_store::{Answer, NewMessage, Post, PostMail, Purge, Reply};
use cmd_words::{Place, PostStoredWords, PostWords, PurgeWords, ReplyWords};
use disk_io::Sink;
use echo_addr::Items;
use echo_stored::{StoredFault, read_stored};
use model_steps::{PostFault, Stamp};
use station::Locks;
use std::alloc::Global;

/// A command with its words and its body.
#[derive(Drop)]
pub(crate) enum BaseCommand<'w> {
    Post(Post<'w>),
    PostMail(PostMail<'w>),
    Reply(Reply<'w>),
    Purge(Purge<'w>),
}

/// Finds the base of a station, and runs a command on it. Faults of its files precede the fault of an earlier input,
/// `unread`.
pub(crate) fn find_and_change<'a, 'w: 'a, W: Sink, E: Sink>(
    rt: &'a HostRuntime,
    place: Place<'a>,
    asked: &mut BaseCommand<'w>,
    unread: Option<Fault<'a>>,
    out: &mut W,
    errors: &mut E,
) -> Status {
    match find_and_post(rt, place, asked, unread, out, errors) {
        PostEnd::Posted => Status::Good,
        PostEnd::Refused(why) => Fault::Post(why).report(errors),
        PostEnd::Stopped(status) => status,
    }
}

// Runs it on a station with a found base.
fn change_found<'a, 'w: 'a, L: FileLock, K: FileLock, W: Sink>(
    at: Station<'a>,
    locks: &mut Locks<L, K>,
    asked: &mut BaseCommand<'w>,
    unread: Option<Fault<'a>>,
    out: &mut W,
) -> Result<(), Fault<'a>>
    requires { AreFree (L.held locks.old.links) (K.held locks.old.base) }
    ensures passed { OnOk result (unread.entry ≡ None) }
{
    let before = Before {
        toss: None,
        progress: None,
        unread,
    };
    match asked {
        BaseCommand::Post(post) => run_at_station(at, locks, before, post, out),
        BaseCommand::PostMail(post) => run_at_station(at, locks, before, post, out),
        BaseCommand::Reply(reply) => run_at_station(at, locks, before, reply, out),
        BaseCommand::Purge(purge) => run_at_station(at, locks, before, purge, out),
    }
}

/// How a change ended. The fault that stopped it was reported.
#[derive(Clone, Copy)]
pub(crate) enum PostEnd {
    Posted,
    Refused(PostFault),
    Stopped(Status),
}

/// The same. A posting that is refused is not reported.
pub(crate) fn find_and_post<'a, 'w: 'a, W: Sink, E: Sink>(
    rt: &'a HostRuntime,
    place: Place<'a>,
    asked: &mut BaseCommand<'w>,
    unread: Option<Fault<'a>>,
    out: &mut W,
    errors: &mut E,
) -> PostEnd {
    let mut locks = station_locks(rt, place);
    post_with(rt, place, &mut locks, asked, unread, out, errors)
}

// The same with these locks.
fn post_with<'a, 'w: 'a, L: FileLock, K: FileLock, W: Sink, E: Sink>(
    rt: &'a HostRuntime,
    place: Place<'a>,
    locks: &mut Locks<L, K>,
    asked: &mut BaseCommand<'w>,
    unread: Option<Fault<'a>>,
    out: &mut W,
    errors: &mut E,
) -> PostEnd
    requires { AreFree (L.held locks.old.links) (K.held locks.old.base) }
{
    match find_base(rt, place, locks) {
        Ok(found) => post_found(found.at(rt, place), locks, asked, unread, out, errors),
        Err(fault) => PostEnd::Stopped(fault.report(errors)),
    }
}

fn post_found<'a, 'w: 'a, L: FileLock, K: FileLock, W: Sink, E: Sink>(
    at: Station<'a>,
    locks: &mut Locks<L, K>,
    asked: &mut BaseCommand<'w>,
    unread: Option<Fault<'a>>,
    out: &mut W,
    errors: &mut E,
) -> PostEnd
    requires { AreFree (L.held locks.old.links) (K.held locks.old.base) }
{
    match change_found(at, locks, asked, unread, out) {
        Ok(()) => PostEnd::Posted,
        Err(Fault::Post(why)) => PostEnd::Refused(why),
        Err(fault) => PostEnd::Stopped(fault.report(errors)),
    }
}

/// `post`: the serial and the stamp are judged first, then the files, then standard input. Standard input is read before
/// the lock is taken, since that may take long.
pub(crate) fn run_post<W: Sink, E: Sink>(
    rt: &HostRuntime,
    words: &PostWords<'_>,
    out: &mut W,
    errors: &mut E,
) -> Status {
    let (posting, free) = match posting_of(rt, words) {
        Ok(posting) => posting,
        Err(fault) => return fault.report(errors),
    };
    let (body, unread) = read_body(rt);
    let post = Post {
        words: posting,
        free,
        body: &body,
    };
    find_and_change(
        rt,
        words.place,
        &mut BaseCommand::Post(post),
        unread,
        out,
        errors,
    )
}

// The body of a message, from standard input, and the fault that stopped its reading.
fn read_body<'a>(rt: &HostRuntime) -> (Vec<u8>, Option<Fault<'a>>) {
    match read_standard_input(rt, MAX_TEXT_FILE) {
        Ok(body) => (body, None),
        Err(fault) => (Vec::new(rt.alloc()), Some(fault)),
    }
}

// The words of a posting without its body, and whether it gets the first free serial from this one on.
fn posting_of<'a>(
    rt: &HostRuntime,
    words: &PostWords<'a>,
) -> Result<(NewMessage<'a>, bool), Fault<'a>> {
    let (serial, free) = named_serial(rt, words.serial)?;
    let stamp = named_stamp(rt, words.at)?;
    Ok((new_message(words, serial, stamp), free))
}

/// `reply`: the serial, the stamp and the number are judged first, then as for `post`.
pub(crate) fn run_reply<W: Sink, E: Sink>(
    rt: &HostRuntime,
    words: &ReplyWords<'_>,
    out: &mut W,
    errors: &mut E,
) -> Status {
    let (answer, index) = match answer_of(rt, words) {
        Ok(asked) => asked,
        Err(fault) => return fault.report(errors),
    };
    let (body, unread) = read_body(rt);
    let reply = Reply {
        index,
        answer,
        body: &body,
    };
    find_and_change(
        rt,
        words.place,
        &mut BaseCommand::Reply(reply),
        unread,
        out,
        errors,
    )
}

// The words of an answer, and the number of the message that it answers.
fn answer_of<'a>(rt: &HostRuntime, words: &ReplyWords<'a>) -> Result<(Answer<'a>, u64), Fault<'a>> {
    let (serial, free) = named_serial(rt, words.serial)?;
    let stamp = named_stamp(rt, words.at)?;
    let index = parse_number(words.index)?;
    let answer = Answer {
        from_name: words.from.as_bytes(),
        serial,
        free,
        stamp,
    };
    Ok((answer, index))
}

/// `post --msg`: the serial and the stamp are judged first, then the stored message, then the files.
pub(crate) fn run_post_stored<W: Sink, E: Sink>(
    rt: &HostRuntime,
    words: &PostStoredWords<'_>,
    out: &mut W,
    errors: &mut E,
) -> Status {
    match stated_in(rt, words.serial, words.at) {
        Ok(stated) => post_stored_file(rt, words, stated, out, errors),
        Err(fault) => fault.report(errors),
    }
}

// The serial of a message, whether it gets the first free one from that on, and its stamp.
#[derive(Clone, Copy)]
struct Stated {
    serial: u32,
    free: bool,
    stamp: Stamp,
}

fn stated_in<'a>(rt: &HostRuntime, serial: &str, stamp: &str) -> Result<Stated, Fault<'a>> {
    let (serial, free) = named_serial(rt, serial)?;
    match named_stamp(rt, stamp) {
        Ok(stamp) => Ok(Stated {
            serial,
            free,
            stamp,
        }),
        Err(fault) => Err(fault),
    }
}

fn post_stored_file<W: Sink, E: Sink>(
    rt: &HostRuntime,
    words: &PostStoredWords<'_>,
    stated: Stated,
    out: &mut W,
    errors: &mut E,
) -> Status {
    match read_file(rt, words.message, MAX_TEXT_FILE) {
        Ok(message) => post_stored(rt, words, stated, &message, out, errors),
        Err(fault) => fault.report(errors),
    }
}

fn post_stored<W: Sink, E: Sink>(
    rt: &HostRuntime,
    words: &PostStoredWords<'_>,
    stated: Stated,
    message: &[u8],
    out: &mut W,
    errors: &mut E,
) -> Status {
    match read_stored(rt.alloc(), message) {
        Ok(draft) => {
            let posting = NewMessage {
                tag: words.area.as_bytes(),
                to_name: draft.to_name,
                from_name: draft.from_name,
                subject: draft.subject,
                reply: draft.reply,
                serial: stated.serial,
                stamp: stated.stamp,
            };
            let post = Post {
                words: posting,
                free: stated.free,
                body: draft.body.as_slice(),
            };
            let mut asked = BaseCommand::Post(post);
            find_and_change(rt, words.place, &mut asked, None, out, errors)
        }
        Err(StoredFault::BadMessage) => refuse_message(rt.alloc(), errors),
        Err(StoredFault::Memory) => Fault::OutOfMemory.report(errors),
    }
}

/// `purge`: the number is judged first, then the files, then the area.
pub(crate) fn run_purge<W: Sink, E: Sink>(
    rt: &HostRuntime,
    words: PurgeWords<'_>,
    out: &mut W,
    errors: &mut E,
) -> Status {
    let range = match range_of(rt.alloc(), words) {
        Ok(range) => range,
        Err(fault) => return fault.report(errors),
    };
    let purge = Purge {
        range,
        area: words.area.unwrap_or(""),
    };
    find_and_change(
        rt,
        words.place,
        &mut BaseCommand::Purge(purge),
        None,
        out,
        errors,
    )
}

// What `purge` is to reach.
fn range_of<'a>(alloc: Global, words: PurgeWords<'a>) -> Result<PurgeRange, Fault<'a>> {
    let below = match words.to {
        Some(word) => Some(parse_number(word)?),
        None => None,
    };
    let area = match words.area {
        Some(tag) => Some(Items::new(tag.as_bytes().to_ascii_uppercase(alloc)?)),
        None => None,
    };
    Ok(PurgeRange { area, below })
}
