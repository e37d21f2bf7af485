//! A scan, run on a station of a net: it does on the disk what its command event may do.
ghost use Rattle.{disk_io.specs.Disk.Honestly, station.specs.Opening.{AreFree, HaveFailed}, law_stations.specs.Scans.{ScansAsMay, StaysWhereScanMet}};

use cmd_status::{FileLock, MessageProgress};
use disk_atomic::ListStaged;
use disk_io::{Disk, Sink};
use station::{BeforeCommand, LendStation, Locks};
use station_scan::{Scan, Scanned, run_scan};
use std::alloc::Global;

/// `scan` on a station. A crash at any time leaves what an earlier one might have left, or the station as before the
/// scan or after it. If the station is as after it, each packet is whole at its path or in its staging file. If the
/// scan ended well, each packet has its path, and the next command finds the station so. If it met a fault on an open
/// station, both are as before it.
pub fn scan_as_may<
    'a,
    's,
    D: Disk,
    P: LendStation<'a, D>,
    Q: BeforeCommand<'a, P::Kept>,
    G: ListStaged,
    T: MessageProgress,
    L: FileLock,
    K: FileLock,
    W: Sink,
>(
    alloc: Global,
    disk: D,
    locks: &mut Locks<L, K>,
    station: P,
    before: &mut Q,
    scan: &mut Scan<'s, G, T>,
    out: &mut W,
) -> Scanned<'a, D>
    requires free { AreFree (L.held locks.old.links) (K.held locks.old.base) }
    requires can { Honestly (D.state disk) (P.can_open station (D.state disk)) }
    ensures does { Honestly (D.state result.disk) (ScansAsMay scan.old.stamp (P.place station) scan.old.outbound.now (G.is_true scan.new.listing) (P.reads station (D.state disk)) (D.state disk) (D.state result.disk) result.done) }
    ensures stays { let failed = HaveFailed (D.failures disk) (D.failures result.disk) (L.failures locks.old.links) (L.failures locks.new.links) (K.failures locks.old.base) (K.failures locks.new.base) in
        Honestly (D.state result.disk) (StaysWhereScanMet (P.place station) scan.old.outbound.now (P.is_shut station failed (D.state disk) (D.state result.disk)) (D.state disk) (D.state result.disk) result.done) }
{
    run_scan(alloc, disk, locks, station, before, scan, out)
}
