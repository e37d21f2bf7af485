//! The session: a post and a scan at the first station, a toss and a scan at the second.
ghost use Rattle.std.specs.Prelude.{List, IfOk, IsSome, false, map};
ghost use Rattle.{cmd_store.specs.Coming.{Coming, Holds}, law_stations.specs.{DiskKinds.IsPostAs, OnDisks.{AsMay, TossesAsMay}, Scans.ScansAsMay}};
ghost use Rattle.disk_memory.specs.{Memory.{changes_of, disk_after, files_after}, declared.memory_disk.Change.Change};
ghost use Rattle.station.specs.Opening.{AreFree};
ghost use Rattle.law_session.specs.Session.{ArePut, AreReadAt, HasReceived, HasSent, IsCarried, held_by};

use crate::in_memory::{MemoryLock, NoneStaged, OneStaged, Quiet};
use cmd_status::Fault;
use cmd_store::{NewMessage, Post, Toss};
use disk_atomic::ListStaged;
use disk_io::{Disk, DiskError, Failure, Sink};
use disk_memory::MemoryDisk;
use echo_packet::Limits;
use law_stations::{post_as_may, scan_as_may, toss_as_may};
use model_steps::Stamp;
use station::{Ended, LendStation, Locks, Nothing, OpenStation};
use station_scan::{Scan, Scanned};
use std::alloc::Global;

/// The link file of the first station, and its folder of packets.
pub(crate) const FIRST_LINKS: &str = "one.links";

pub(crate) const FIRST_OUT: &[u8] = b"out/";

/// The link file of the second station, and its folder of packets.
pub(crate) const SECOND_LINKS: &str = "two.links";

pub(crate) const SECOND_OUT: &[u8] = b"to/";

/// The packet of the first scan of a system for 1:10/2.
const PACKET: &[u8] = b"out/1.10.2.0.pkt";

/// The name of that packet, and its staging file, which a stopped scan left.
pub(crate) const STAGED: &[u8] = b"1.10.2.0.pkt";

const LEFT: &[u8] = b"out/1.10.2.0.pkt.~1.10.1~.new";

/// The packet once a mailer has moved it.
const CARRIED: &[u8] = b"in/1.10.2.0.pkt";

/// A disk with the link files of two stations, and what a stopped scan left in the folder of the first.
pub fn begin(alloc: Global, one: &[u8], two: &[u8], left: &[u8]) -> Result<MemoryDisk, DiskError>
    ensures { IfOk result (λ disk. ArePut one.now two.now left.now (files_after (changes_of disk))) }
{
    let mut disk = MemoryDisk::new(alloc);
    disk.put(FIRST_LINKS.as_bytes(), one)?;
    disk.put(SECOND_LINKS.as_bytes(), two)?;
    disk.put(LEFT, left)?;
    Ok(disk)
}

pub(crate) fn free_locks(alloc: Global) -> Locks<MemoryLock, MemoryLock>
    ensures { AreFree (held_by result.links) (held_by result.base) }
{
    Locks {
        links: MemoryLock::new(alloc),
        base: MemoryLock::new(alloc),
    }
}

/// `post` at a station does what the command event may do.
pub fn post_on<'a, P: OpenStation<'a, MemoryDisk>, W: Sink>(
    alloc: Global,
    disk: MemoryDisk,
    station: P,
    words: NewMessage<'_>,
    body: &[u8],
    out: &mut W,
) -> Ended<'a, MemoryDisk, ()>
    requires { P.can_open station (disk_after (changes_of disk)) }
    ensures { AsMay (λ base. IsPostAs false words.entry body.now) (P.place station) (P.reads station (disk_after (changes_of disk)))
        (disk_after (changes_of disk)) (disk_after (changes_of result.disk)) result.done }
{
    let mut command = Post {
        words,
        free: false,
        body,
    };
    post_as_may(
        alloc,
        disk,
        &mut free_locks(alloc),
        station,
        &mut Nothing,
        &mut command,
        out,
    )
}

/// `scan` at a station does what the command event may do, where the list of earlier packets is true.
pub fn scan_on<'a, P: LendStation<'a, MemoryDisk>, G: ListStaged + Drop, W: Sink>(
    alloc: Global,
    disk: MemoryDisk,
    station: P,
    outbound: &[u8],
    listing: G,
    stamp: Stamp,
    out: &mut W,
) -> Scanned<'a, MemoryDisk>
    requires { P.can_open station (disk_after (changes_of disk)) }
    ensures { (listed : _) × ScansAsMay stamp (P.place station) outbound.now (G.is_true listed) (P.reads station (disk_after (changes_of disk)))
        (disk_after (changes_of disk)) (disk_after (changes_of result.disk)) result.done }
{
    let mut scan = Scan {
        stamp,
        outbound,
        listing,
        watch: &Quiet,
    };
    scan_as_may(
        alloc,
        disk,
        &mut free_locks(alloc),
        station,
        &mut Nothing,
        &mut scan,
        out,
    )
}

/// `toss` of packets at a station does what the command event may do.
pub fn toss_on<'a, P: OpenStation<'a, MemoryDisk>, W: Sink>(
    alloc: Global,
    disk: MemoryDisk,
    station: P,
    packets: &'a [&'a [u8]],
    out: &mut W,
) -> Ended<'a, MemoryDisk, Option<Fault<'a>>>
    requires { P.can_open station (disk_after (changes_of disk)) }
    ensures { (left : List Coming) × TossesAsMay (map (λ packet. Holds packet.now) packets.now) left (P.place station) (P.reads station (disk_after (changes_of disk)))
        (disk_after (changes_of disk)) (disk_after (changes_of result.disk)) result.done }
{
    let mut command = Toss::new(Limits::NONE, false, packets);
    toss_as_may(
        alloc,
        disk,
        &mut free_locks(alloc),
        station,
        &mut Nothing,
        &mut command,
        out,
    )
}

/// A mailer moves the packet.
fn carry(disk: MemoryDisk) -> Result<MemoryDisk, DiskError>
    requires { IsSome (files_after (changes_of disk) PACKET.now) }
    ensures { IfOk result (λ then. IsCarried (changes_of disk) (changes_of then)) }
{
    let mut disk = disk;
    disk.rename(PACKET, CARRIED)?;
    Ok(disk)
}

/// The disk after a scan and a move of its packet, and the packet's bytes.
#[derive(Drop)]
pub struct Sent {
    pub disk: MemoryDisk,
    pub packet: Vec<u8>,
}

/// What is posted, and when.
#[derive(Clone, Copy, Debug)]
pub struct Letter<'l> {
    pub words: NewMessage<'l>,
    pub body: &'l [u8],
    pub stamp: Stamp,
}

/// A post and a scan at a station, which is opened for each. Then a mailer moves the packet.
pub fn send<'a, P: LendStation<'a, MemoryDisk>, W: Sink>(
    alloc: Global,
    disk: MemoryDisk,
    posting: P,
    scanning: P,
    letter: Letter<'_>,
    out: &mut W,
) -> Result<Sent, Failure>
    requires post { (changes : List Change) → P.can_open posting (disk_after changes) }
    requires scan { (changes : List Change) → P.can_open scanning (disk_after changes) }
    requires post_reads { AreReadAt FIRST_LINKS.now (P.reads posting) }
    requires scan_reads { AreReadAt FIRST_LINKS.now (P.reads scanning) }
    ensures { IfOk result (λ sent. HasSent (P.place posting) (P.place scanning) letter.entry.words letter.entry.body.now letter.entry.stamp (changes_of disk) (changes_of sent.disk) sent.packet.items) }
{
    let Ended { disk, done: posted } = post_on(
        alloc,
        disk,
        posting,
        letter.words,
        letter.body,
        out,
    );
    let Ok(()) = posted else {
        return Err(Failure);
    };
    let Scanned {
        disk,
        done: scanned,
    } = scan_on(
        alloc,
        disk,
        scanning,
        FIRST_OUT,
        OneStaged,
        letter.stamp,
        out,
    );
    let Ok(()) = scanned else {
        return Err(Failure);
    };
    if disk.file_at(PACKET).is_none() {
        return Err(Failure);
    }
    let Ok(disk) = carry(disk) else {
        return Err(Failure);
    };
    let Some(found) = disk.file_at(CARRIED) else {
        return Err(Failure);
    };
    let Ok(packet) = found.to_vec(alloc) else {
        return Err(Failure);
    };
    Ok(Sent { disk, packet })
}

/// A toss of packets and a scan at a station, which is opened for each. All packets are tossed whole.
pub fn receive<'a, P: LendStation<'a, MemoryDisk>, W: Sink>(
    alloc: Global,
    disk: MemoryDisk,
    tossing: P,
    scanning: P,
    packets: &'a [&'a [u8]],
    stamp: Stamp,
    out: &mut W,
) -> Result<MemoryDisk, Failure>
    requires toss { (changes : List Change) → P.can_open tossing (disk_after changes) }
    requires scan { (changes : List Change) → P.can_open scanning (disk_after changes) }
    requires toss_reads { AreReadAt SECOND_LINKS.now (P.reads tossing) }
    requires scan_reads { AreReadAt SECOND_LINKS.now (P.reads scanning) }
    ensures { IfOk result (λ then. HasReceived (P.place tossing) (P.place scanning) (map (λ packet. Holds packet.now) packets.now) stamp (changes_of disk) (changes_of then)) }
{
    let Ended { disk, done } = toss_on(alloc, disk, tossing, packets, out);
    let Ok(stopped) = done else {
        return Err(Failure);
    };
    let None = stopped else {
        return Err(Failure);
    };
    let Scanned {
        disk,
        done: scanned,
    } = scan_on(alloc, disk, scanning, SECOND_OUT, NoneStaged, stamp, out);
    let Ok(()) = scanned else {
        return Err(Failure);
    };
    Ok(disk)
}
