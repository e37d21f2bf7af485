//! Steps at one system, and what each answers. One function owns the system and lends it to each step, so a row more costs
//! no proof.
use echo_addr::{Address, Items, Trial, Watched};
use echo_packet::{Limits, Packed, PacketFault};
use echo_toss::{
    BaseFault, Draft, LinkFile, Outcome, PostFault, ReplyRule, ScanFault, Stamp, Tally, TossCause,
    TossFault, Tosser,
};
use std::alloc::{AllocError, Global};
use std::hash::{BuildHasher, BuildHasherDefault, FoldHasher};
use std::test::Fail;
use test_formats::samples::{FIRST, changed, joined};

pub(crate) type System = Tosser<BuildHasherDefault<FoldHasher>>;

/// The moment of the first posting and of each scan.
pub(crate) const STAMP: Stamp = Stamp {
    year: 2026,
    month: 7,
    day: 3,
    hour: 12,
    minute: 34,
    second: 56,
};

/// Of one message that was filed.
pub(crate) const ONE_FILED: Tally = Tally {
    filed: 1,
    ..Tally::NONE
};

/// A packet: one with some bytes replaced, of which so many come.
#[derive(Clone, Copy)]
pub(crate) struct Sample {
    pub(crate) packet: &'static [u8],
    pub(crate) changes: &'static [(usize, u8)],
    pub(crate) size: usize,
}

/// The packet of the first posting.
pub(crate) const WHOLE: Sample = Sample {
    packet: FIRST,
    changes: &[],
    size: 212,
};

/// What Ann posts.
#[derive(Clone, Copy)]
pub(crate) struct Posting {
    pub(crate) tag: &'static [u8],
    pub(crate) serial: u32,
    pub(crate) to: &'static [u8],
    pub(crate) subject: &'static [u8],
    pub(crate) reply: &'static [u8],
    pub(crate) body: &'static [u8],
    pub(crate) stamp: Stamp,
}

/// The first posting.
pub(crate) const HELLO: Posting = Posting {
    tag: b"TEST",
    serial: 1,
    to: b"All",
    subject: b"Hi",
    reply: b"",
    body: b"Hello",
    stamp: STAMP,
};

/// The same but with serial 2.
pub(crate) const SECOND: Posting = Posting { serial: 2, ..HELLO };

/// One step at a system, and what it answers.
#[derive(Clone, Copy)]
pub(crate) enum Step {
    Post(Posting, Result<(), PostFault>),
    PostBy(ReplyRule, Posting, Result<(), PostFault>),
    /// A scan makes this packet alone.
    Scan(Sample),
    /// A scan makes no packet.
    ScanNone,
    /// A scan with this stamp is refused.
    ScanAt(Stamp),
    Toss(Sample, Tally),
    /// With this limit of messages, and of the bytes of a text, a toss stops.
    Stop(Sample, u64, usize, Tally, PacketFault),
    /// The reader fails after so many bytes.
    Break(Sample, u64, Tally, PacketFault),
    /// A toss is refused, and files nothing.
    Refuse(Sample, TossCause),
    /// A toss of the first packet with these bytes behind it leaves them unread.
    TossBefore(&'static [u8]),
    /// A message with this text from the system of this node.
    Message(u16, &'static [u8], Outcome),
    Purge(u64),
    /// So many messages are filed, and so many of them wait.
    Counts(usize, usize),
    /// The base file is this.
    Base(&'static [u8]),
    /// The first message has these kept lines.
    Kept(&'static [u8]),
    /// It has this tag, DateTime and reply.
    Filed(&'static [u8], &'static [u8], Option<&'static [u8]>),
    /// It came from this system.
    From(Address),
}

/// A system, the base that it begins with, and steps.
pub(crate) struct Script {
    pub(crate) name: &'static str,
    pub(crate) file: &'static [u8],
    pub(crate) base: &'static [u8],
    pub(crate) steps: &'static [Step],
}

pub(crate) fn address(node: u16) -> Address {
    Address {
        zone: 1,
        net: 10,
        node,
    }
}

fn items(alloc: Global, bytes: &[u8]) -> Result<Items<u8>, AllocError> {
    Ok(Items::new(Vec::from_slice(alloc, bytes)?))
}

fn draft(alloc: Global, posting: &Posting) -> Result<Draft, AllocError> {
    Ok(Draft {
        to_name: items(alloc, posting.to)?,
        from_name: items(alloc, b"Ann")?,
        subject: items(alloc, posting.subject)?,
        reply: items(alloc, posting.reply)?,
        body: items(alloc, posting.body)?,
    })
}

fn packed(alloc: Global, text: &[u8]) -> Result<Result<Packed, PacketFault>, AllocError> {
    let to = Vec::from_slice(alloc, b"All")?;
    let from = Vec::from_slice(alloc, b"Ann")?;
    let subject = Vec::from_slice(alloc, b"Hi")?;
    let text = Vec::from_slice(alloc, text)?;
    let date = *b"03 Jul 26  12:34:56\0";
    Ok(Packed::new(1, 2, 10, 10, 0, 0, date, to, from, subject, text))
}

fn bytes_of(alloc: Global, sample: Sample) -> Result<Vec<u8>, AllocError> {
    let mut bytes = changed(alloc, sample.packet, sample.changes)?;
    bytes.truncate(sample.size);
    Ok(bytes)
}

/// The base file of the system: all that it holds.
fn saved<S: BuildHasher>(alloc: Global, at: &Tosser<S>) -> Result<Vec<u8>, BaseFault> {
    let mut file = Watched::new(Vec::new(alloc));
    at.save(&mut file)?;
    Ok(file.into_inner())
}

/// Whether the system has this base file.
pub(crate) fn holds<S: BuildHasher>(alloc: Global, at: &Tosser<S>, base: &[u8]) -> bool {
    match saved(alloc, at) {
        Ok(bytes) => bytes.as_slice() == base,
        Err(_) => false,
    }
}

pub(crate) fn post<S: BuildHasher>(
    alloc: Global,
    at: &mut Tosser<S>,
    rule: ReplyRule,
    posting: &Posting,
) -> Result<(), PostFault> {
    let draft = draft(alloc, posting)?;
    at.post_by(rule, posting.tag, &draft, posting.serial, posting.stamp)
}

/// Tosses the packet at the front of the bytes.
pub(crate) fn toss<S: BuildHasher>(
    at: &mut Tosser<S>,
    packet: &[u8],
    limits: Limits,
) -> Result<Tally, TossFault> {
    let mut rest = packet;
    at.toss(&mut rest, limits)
}

fn tossed<S: BuildHasher>(
    alloc: Global,
    at: &mut Tosser<S>,
    sample: Sample,
    limits: Limits,
) -> Result<Result<Tally, TossFault>, Fail> {
    let packet = bytes_of(alloc, sample)?;
    Ok(toss(at, &packet, limits))
}

fn broken<S: BuildHasher>(
    alloc: Global,
    at: &mut Tosser<S>,
    sample: Sample,
    left: u64,
) -> Result<Result<Tally, TossFault>, Fail> {
    let packet = bytes_of(alloc, sample)?;
    let mut reader = Watched::new(Trial::new(packet.as_slice(), 7, 1, left));
    Ok(at.toss(&mut reader, Limits::NONE))
}

fn leaves<S: BuildHasher>(alloc: Global, at: &mut Tosser<S>, after: &[u8]) -> Result<bool, Fail> {
    let packets = joined(alloc, FIRST, after)?;
    let mut rest = packets.as_slice();
    let tossed = at.toss(&mut rest, Limits::NONE);
    Ok(tossed == Ok(ONE_FILED) && rest == after)
}

fn outcome<S: BuildHasher>(
    alloc: Global,
    at: &mut Tosser<S>,
    node: u16,
    text: &[u8],
) -> Result<Outcome, Fail> {
    let message = packed(alloc, text)??;
    Ok(at.toss_message(address(node), &message)?)
}

fn scans<S: BuildHasher>(alloc: Global, at: &mut Tosser<S>, sample: Sample) -> Result<bool, Fail> {
    let packets = at.scan(STAMP)?;
    match packets.as_slice() {
        [packet] => Ok(packet.encode(alloc)? == bytes_of(alloc, sample)?),
        _ => Ok(false),
    }
}

fn scan_fault<S: BuildHasher>(at: &mut Tosser<S>, stamp: Stamp) -> Option<ScanFault> {
    match at.scan(stamp) {
        Ok(_) => None,
        Err(fault) => Some(fault),
    }
}

fn keeps<S: BuildHasher>(at: &Tosser<S>, kept: &[u8]) -> bool {
    match at.message(0) {
        Some(message) => message.echo.kept.as_text() == kept,
        None => false,
    }
}

fn filed<S: BuildHasher>(at: &Tosser<S>, tag: &[u8], date: &[u8], reply: Option<&[u8]>) -> bool {
    match at.message(0) {
        Some(message) => {
            let echo = &message.echo;
            message.date.as_slice() == date && echo.tag.as_slice() == tag && echo.reply() == reply
        }
        None => false,
    }
}

fn stopped(tally: Tally, cause: TossCause) -> Result<Tally, TossFault> {
    Err(TossFault { tally, cause })
}

/// Whether the step is answered so.
fn is_answered<S: BuildHasher>(
    alloc: Global,
    at: &mut Tosser<S>,
    step: Step,
) -> Result<bool, Fail> {
    let order = ReplyRule::EightDigits;
    match step {
        Step::Post(posting, wanted) => Ok(post(alloc, at, order, &posting) == wanted),
        Step::PostBy(rule, posting, wanted) => Ok(post(alloc, at, rule, &posting) == wanted),
        Step::Scan(sample) => scans(alloc, at, sample),
        Step::ScanNone => Ok(at.scan(STAMP)?.is_empty()),
        Step::ScanAt(stamp) => Ok(scan_fault(at, stamp) == Some(ScanFault::BadStamp)),
        Step::Purge(count) => Ok(at.purge()? == count),
        Step::Message(node, text, wanted) => Ok(outcome(alloc, at, node, text)? == wanted),
        Step::Counts(filed, waiting) => Ok((at.filed(), at.waiting()) == (filed, waiting)),
        Step::Base(base) => Ok(holds(alloc, at, base)),
        Step::Kept(kept) => Ok(keeps(at, kept)),
        Step::Filed(tag, date, reply) => Ok(filed(at, tag, date, reply)),
        Step::From(sender) => Ok(at.message(0).and_then(|one| one.sender) == Some(sender)),
        _ => is_tossed(alloc, at, step),
    }
}

/// Whether the step is a toss, and answered so.
fn is_tossed<S: BuildHasher>(alloc: Global, at: &mut Tosser<S>, step: Step) -> Result<bool, Fail> {
    match step {
        Step::Toss(sample, wanted) => Ok(tossed(alloc, at, sample, Limits::NONE)? == Ok(wanted)),
        Step::Stop(sample, messages, text, tally, fault) => {
            let found = tossed(alloc, at, sample, Limits { text, messages })?;
            Ok(found == stopped(tally, TossCause::Packet(fault)))
        }
        Step::Break(sample, left, tally, fault) => {
            Ok(broken(alloc, at, sample, left)? == stopped(tally, TossCause::Packet(fault)))
        }
        Step::Refuse(sample, cause) => {
            Ok(tossed(alloc, at, sample, Limits::NONE)? == stopped(Tally::NONE, cause))
        }
        Step::TossBefore(after) => leaves(alloc, at, after),
        _ => Ok(false),
    }
}

/// The number of the first step with another answer, from 1; 0 if there is none.
fn wrong_step<S: BuildHasher>(
    alloc: Global,
    at: &mut Tosser<S>,
    steps: &[Step],
) -> Result<usize, Fail> {
    for (i, step) in steps.iter().enumerate() {
        if !is_answered(alloc, at, *step)? {
            return Ok(i + 1);
        }
    }
    Ok(0)
}

fn loaded(alloc: Global, file: &[u8], base: &[u8]) -> Result<System, Fail> {
    let links = LinkFile::read(alloc, file)?;
    let mut rest = base;
    let at = Tosser::load(alloc, links, &mut rest, BuildHasherDefault::new())?;
    Ok(at)
}

/// The number of the first step with another answer at the system of the link file with this base, from 1; 0 if there is
/// none.
pub(crate) fn first_wrong(
    alloc: Global,
    file: &[u8],
    base: &[u8],
    steps: &[Step],
) -> Result<usize, Fail> {
    let mut at = loaded(alloc, file, base)?;
    wrong_step(alloc, &mut at, steps)
}
