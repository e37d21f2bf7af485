//! Each command, run on a station of a net: it does on the disk what its command event may do.
ghost use Rattle.{disk_io.specs.Disk.Honestly, station.specs.Opening.{AreFree, HaveFailed}, law_stations.specs.Kinds.IsPurge};
ghost use Rattle.law_stations.specs.{DiskKinds.{IsMail, IsPostAs, IsReplyAs}, OnDisks.{AsMay, StaysWhereMet, TossesAsMay}};

use cmd_status::{Fault, FileLock};
use cmd_store::{PacketFiles, Post, PostMail, Purge, Reply, Toss};
use disk_io::{Disk, Sink};
use station::{BeforeCommand, Ended, Locks, OpenStation, run_command};
use std::alloc::Global;

/// `purge` on a station. A crash at any time leaves what an earlier one might have left, or the station as before the
/// command or after it. If it ended well, each later crash leaves the station as after it, and the next command finds
/// it so. If it met a fault on an open station, both are as before it.
pub fn purge_as_may<
    'a,
    D: Disk,
    P: OpenStation<'a, D>,
    Q: BeforeCommand<'a, P::Kept>,
    L: FileLock,
    K: FileLock,
    W: Sink,
>(
    alloc: Global,
    disk: D,
    locks: &mut Locks<L, K>,
    station: P,
    before: &mut Q,
    command: &mut Purge<'a>,
    out: &mut W,
) -> Ended<'a, D, ()>
    requires free { AreFree (L.held locks.old.links) (K.held locks.old.base) }
    requires can { Honestly (D.state disk) (P.can_open station (D.state disk)) }
    ensures does { Honestly (D.state result.disk) (AsMay (λ base. IsPurge command.old.range) (P.place station) (P.reads station (D.state disk)) (D.state disk) (D.state result.disk) result.done) }
    ensures stays { let failed = HaveFailed (D.failures disk) (D.failures result.disk) (L.failures locks.old.links) (L.failures locks.new.links) (K.failures locks.old.base) (K.failures locks.new.base) in
        Honestly (D.state result.disk) (StaysWhereMet (P.place station) (P.is_shut station failed (D.state disk) (D.state result.disk)) (D.state disk) (D.state result.disk) result.done) }
{
    run_command(alloc, disk, locks, station, before, command, out)
}

/// Of `post`. With a free serial it is the posting with some serial.
pub fn post_as_may<
    'a,
    D: Disk,
    P: OpenStation<'a, D>,
    Q: BeforeCommand<'a, P::Kept>,
    L: FileLock,
    K: FileLock,
    W: Sink,
>(
    alloc: Global,
    disk: D,
    locks: &mut Locks<L, K>,
    station: P,
    before: &mut Q,
    command: &mut Post<'_>,
    out: &mut W,
) -> Ended<'a, D, ()>
    requires free { AreFree (L.held locks.old.links) (K.held locks.old.base) }
    requires can { Honestly (D.state disk) (P.can_open station (D.state disk)) }
    ensures does { Honestly (D.state result.disk) (AsMay (λ base. IsPostAs command.old.free command.old.words command.old.body.now) (P.place station) (P.reads station (D.state disk)) (D.state disk) (D.state result.disk) result.done) }
    ensures stays { let failed = HaveFailed (D.failures disk) (D.failures result.disk) (L.failures locks.old.links) (L.failures locks.new.links) (K.failures locks.old.base) (K.failures locks.new.base) in
        Honestly (D.state result.disk) (StaysWhereMet (P.place station) (P.is_shut station failed (D.state disk) (D.state result.disk)) (D.state disk) (D.state result.disk) result.done) }
{
    run_command(alloc, disk, locks, station, before, command, out)
}

/// A `reply` is a posting of the words that it gets from its message.
pub fn reply_as_may<
    'a,
    D: Disk,
    P: OpenStation<'a, D>,
    Q: BeforeCommand<'a, P::Kept>,
    L: FileLock,
    K: FileLock,
    W: Sink,
>(
    alloc: Global,
    disk: D,
    locks: &mut Locks<L, K>,
    station: P,
    before: &mut Q,
    command: &mut Reply<'_>,
    out: &mut W,
) -> Ended<'a, D, ()>
    requires free { AreFree (L.held locks.old.links) (K.held locks.old.base) }
    requires can { Honestly (D.state disk) (P.can_open station (D.state disk)) }
    ensures does { Honestly (D.state result.disk) (AsMay (IsReplyAs command.old.index command.old.answer command.old.body.now) (P.place station) (P.reads station (D.state disk)) (D.state disk) (D.state result.disk) result.done) }
    ensures stays { let failed = HaveFailed (D.failures disk) (D.failures result.disk) (L.failures locks.old.links) (L.failures locks.new.links) (K.failures locks.old.base) (K.failures locks.new.base) in
        Honestly (D.state result.disk) (StaysWhereMet (P.place station) (P.is_shut station failed (D.state disk) (D.state result.disk)) (D.state disk) (D.state result.disk) result.done) }
{
    run_command(alloc, disk, locks, station, before, command, out)
}

/// A `post --mail` is a posting of the words of its letter.
pub fn mail_as_may<
    'a,
    D: Disk,
    P: OpenStation<'a, D>,
    Q: BeforeCommand<'a, P::Kept>,
    L: FileLock,
    K: FileLock,
    W: Sink,
>(
    alloc: Global,
    disk: D,
    locks: &mut Locks<L, K>,
    station: P,
    before: &mut Q,
    command: &mut PostMail<'_>,
    out: &mut W,
) -> Ended<'a, D, ()>
    requires free { AreFree (L.held locks.old.links) (K.held locks.old.base) }
    requires can { Honestly (D.state disk) (P.can_open station (D.state disk)) }
    ensures does { Honestly (D.state result.disk) (AsMay (λ base. IsMail command.old.letter command.old.asked) (P.place station) (P.reads station (D.state disk)) (D.state disk) (D.state result.disk) result.done) }
    ensures stays { let failed = HaveFailed (D.failures disk) (D.failures result.disk) (L.failures locks.old.links) (L.failures locks.new.links) (K.failures locks.old.base) (K.failures locks.new.base) in
        Honestly (D.state result.disk) (StaysWhereMet (P.place station) (P.is_shut station failed (D.state disk) (D.state result.disk)) (D.state disk) (D.state result.disk) result.done) }
{
    run_command(alloc, disk, locks, station, before, command, out)
}

/// Of `toss` of packet files of the net, with or without notes, whatever reads them, if the files were honest.
/// If it ended well, it tossed whole exactly the packets before the one that its answer names.
pub fn toss_as_may<
    'a,
    D: Disk,
    P: OpenStation<'a, D>,
    Q: BeforeCommand<'a, P::Kept>,
    F: PacketFiles<'a> + 'a,
    L: FileLock,
    K: FileLock,
    W: Sink,
>(
    alloc: Global,
    disk: D,
    locks: &mut Locks<L, K>,
    station: P,
    before: &mut Q,
    command: &mut Toss<'a, F>,
    out: &mut W,
) -> Ended<'a, D, Option<Fault<'a>>>
    requires free { AreFree (L.held locks.old.links) (K.held locks.old.base) }
    requires can { Honestly (D.state disk) (P.can_open station (D.state disk)) }
    ensures does { Honestly (D.state result.disk) (F.is_honest command.new.packets → TossesAsMay (F.coming command.old.packets) (F.coming command.new.packets) (P.place station) (P.reads station (D.state disk)) (D.state disk) (D.state result.disk) result.done) }
    ensures stays { let failed = HaveFailed (D.failures disk) (D.failures result.disk) (L.failures locks.old.links) (L.failures locks.new.links) (K.failures locks.old.base) (K.failures locks.new.base) in
        Honestly (D.state result.disk) (StaysWhereMet (P.place station) (P.is_shut station failed (D.state disk) (D.state result.disk)) (D.state disk) (D.state result.disk) result.done) }
{
    run_command(alloc, disk, locks, station, before, command, out)
}
