//! `toss` by its words.
ghost use Rattle.std.specs.Prelude.{◌≡◌, None, OnOk};
ghost use Rattle.station.specs.Opening.{AreFree};

use crate::place::{Station, find_base, station_locks};
use crate::running::{Before, by_name, run_at_station};
use cmd_input::{PathNames, Progress, path_names};
use cmd_packets::{PacketStreams, Tossing};
use cmd_status::{Fault, FileLock, LIMITS, Status, capped_limits, parse_number};
use cmd_store::Toss;
use cmd_words::{Place, TossWords};
use disk_io::Sink;
use disk_system::{RealDisk, Unknown};
use echo_packet::Limits;
use station::{Locks, packets_on_disk};

/// `toss`: the limit of a text is judged first. A list of packets is read before the lock is taken, and each packet file
/// is opened when its turn comes. A fault of a packet is reported once the base is committed.
pub(crate) fn run_toss<W: Sink, E: Sink>(
    rt: &HostRuntime,
    words: &TossWords<'_>,
    progress: &Progress<'_>,
    out: &mut W,
    errors: &mut E,
) -> Status {
    let limits = match toss_limits(words.text_limit) {
        Ok(limits) => limits,
        Err(fault) => return fault.report(errors),
    };
    let PathNames { names, stopped } = path_names(rt, &words.packets);
    let by = Tossing {
        names: names.as_slice(),
        limits,
        each: words.each,
    };
    find_and_toss(rt, words.place, by, stopped, progress, out, errors)
}

// Finds the base and tosses packets into it.
fn find_and_toss<'a, W: Sink, E: Sink>(
    rt: &'a HostRuntime,
    place: Place<'a>,
    by: Tossing<'a>,
    unread: Option<Fault<'a>>,
    progress: &'a Progress<'a>,
    out: &mut W,
    errors: &mut E,
) -> Status {
    let mut locks = station_locks(rt, place);
    let tossing = TossAsked {
        by,
        unread,
        progress,
    };
    toss_with(rt, place, &mut locks, tossing, out, errors)
}

// The packets, the fault of their list, and where progress is shown.
#[derive(Clone, Copy)]
struct TossAsked<'a> {
    by: Tossing<'a>,
    unread: Option<Fault<'a>>,
    progress: &'a Progress<'a>,
}

// The same with these locks.
fn toss_with<'a, L: FileLock, K: FileLock, W: Sink, E: Sink>(
    rt: &'a HostRuntime,
    place: Place<'a>,
    locks: &mut Locks<L, K>,
    tossing: TossAsked<'a>,
    out: &mut W,
    errors: &mut E,
) -> Status
    requires { AreFree (L.held locks.old.links) (K.held locks.old.base) }
{
    match find_base(rt, place, locks) {
        Ok(found) => toss_reported(found.at(rt, place), locks, tossing, out, errors),
        Err(fault) => fault.report(errors),
    }
}

fn toss_reported<'a, L: FileLock, K: FileLock, W: Sink, E: Sink>(
    at: Station<'a>,
    locks: &mut Locks<L, K>,
    tossing: TossAsked<'a>,
    out: &mut W,
    errors: &mut E,
) -> Status
    requires { AreFree (L.held locks.old.links) (K.held locks.old.base) }
{
    match toss_found(at, locks, tossing.by, tossing.unread, tossing.progress, out) {
        Ok(None) => Status::Good,
        Ok(Some(fault)) => by_name(at, fault).report(errors),
        Err(fault) => fault.report(errors),
    }
}

// Tosses packets at a station with a found base. If the list of them was not read, none is expected.
fn toss_found<'a, L: FileLock, K: FileLock, W: Sink>(
    at: Station<'a>,
    locks: &mut Locks<L, K>,
    by: Tossing<'a>,
    unread: Option<Fault<'a>>,
    progress: &'a Progress<'a>,
    out: &mut W,
) -> Result<Option<Fault<'a>>, Fault<'a>>
    requires { AreFree (L.held locks.old.links) (K.held locks.old.base) }
    ensures passed { OnOk result (unread.entry ≡ None) }
{
    let streams = PacketStreams {
        rt: at.rt,
        packets: by.names.len(),
        progress,
    };
    let disk = RealDisk::new(at.rt, Unknown);
    let packets = packets_on_disk(at.rt.alloc(), disk, by.names, streams);
    let before = Before {
        toss: if unread.is_none() { Some(by) } else { None },
        progress: Some(progress),
        unread,
    };
    let mut toss = Toss::new(by.limits, by.each, packets);
    run_at_station(at, locks, before, &mut toss, out)
}

// The limits of packets. A number above the greatest limit is refused.
fn toss_limits<'a>(text_limit: Option<&str>) -> Result<Limits, Fault<'a>> {
    let Some(word) = text_limit else {
        return Ok(LIMITS);
    };
    let most = parse_number(word)?;
    if most > LIMITS.text as u64 {
        return Err(Fault::BadNumber);
    }
    Ok(capped_limits(most))
}
