//! The command `scan` on a station.
ghost use Rattle.std.specs.Prelude.{◌≤◌, ◌⊎◌, ℕ, List, IsErrOf, OnOk};
ghost use Rattle.{base_file.specs.Base.Base, disk_io.specs.{Device.Failed, Disk.Honestly, Runs.ChangesNothing}};
ghost use Rattle.{cmd_status.specs.Devices.output_of, station.specs.{Beneath.AreSettledByOwn, Opening.{AreFree, HaveFailed}, Running.{EndsSound, NeedsBase}}};
ghost use Rattle.station_scan.specs.{Scanning.{IsScanFull, IsScanNotRun, IsTouched, ScansIn, ScansOnStore}, Publishing.{UnchangedExcept, KeepsStoreBut}};

use crate::putting::put_moved;
use crate::reported::ReportedStore;
use crate::scan_error::ScanError;
use base_store::{Store, StoreError};
use cmd_status::{Fault, FileLock, MessageProgress};
use cmd_store::CommandError;
use disk_atomic::ListStaged;
use disk_io::{Disk, Sink};
use echo_links::LinkFile;
use model_steps::{ScanFault, Stamp, is_stamp};
use station::{BeforeCommand, LendStation, Locks, OpenStation, Opened, lock_and_open};
use std::alloc::Global;

/// A scan: its stamp, its folder of packets, a list of what earlier scans left there, and a progress report. The folder
/// is a path that ends in a slash, or is empty.
#[derive(Drop)]
pub struct Scan<'s, G, T> {
    pub stamp: Stamp,
    pub outbound: &'s [u8],
    pub listing: G,
    pub watch: &'s T,
}

/// The disk after a scan, and how the scan ended.
#[derive(Drop)]
pub struct Scanned<'a, D> {
    pub disk: D,
    pub done: Result<(), ScanError<'a>>,
}

/// `scan --at STAMP LINKS BASE DIR`: prints the lines of the packets of the waiting messages. It names or removes what
/// earlier scans left in the folder of packets. Then it writes the packets there, and moves the cursor to the end of
/// the base. No path of a packet may belong to the station.
pub fn run_scan<
    'a,
    's,
    D: Disk,
    P: LendStation<'a, D>,
    Q: BeforeCommand<'a, P::Kept>,
    G: ListStaged,
    T: MessageProgress,
    L: FileLock,
    K: FileLock,
    W: Sink,
>(
    alloc: Global,
    disk: D,
    locks: &mut Locks<L, K>,
    station: P,
    before: &mut Q,
    scan: &mut Scan<'s, G, T>,
    out: &mut W,
) -> Scanned<'a, D>
    requires free { AreFree (L.held locks.old.links) (K.held locks.old.base) }
    requires can { Honestly (D.state disk) (P.can_open station (D.state disk)) }
    ensures locked { P.is_locked station (L.held locks.new.links) (K.held locks.new.base) ⊎ ChangesNothing (D.state disk) (D.state result.disk) }
    ensures runs { let failed = HaveFailed (D.failures disk) (D.failures result.disk) (L.failures locks.old.links) (L.failures locks.new.links) (K.failures locks.old.base) (K.failures locks.new.base) in
        Honestly (D.state result.disk) (ScansIn D.state scan.old.stamp (P.place station) scan.old.outbound.now (G.is_true scan.new.listing) (P.reads station (D.state disk))
        (P.is_shut station failed (D.state disk) (D.state result.disk)) (Q.stops before.old before.new)
        (failed ⊎ Failed (G.failures scan.old.listing) (G.failures scan.new.listing)) (D.state disk) (D.state result.disk)
        (output_of W.contents W.failures W.holds out.old) (output_of W.contents W.failures W.holds out.new) result.done) }
    ensures many { Honestly (D.state result.disk) ((base : Base) → (P.place station).represents base (D.state disk).seen
        → IsErrOf result.done (ScanError.Command (CommandError.Store StoreError.TooMany)) → IsScanFull P.Kept.state base) }
    ensures needs { Honestly (D.state result.disk) (NeedsBase (P.holds_base station (D.state disk).seen)
        (IsScanNotRun (P.place station) (P.is_shut station (HaveFailed (D.failures disk) (D.failures result.disk) (L.failures locks.old.links) (L.failures locks.new.links) (K.failures locks.old.base) (K.failures locks.new.base))
        (D.state disk) (D.state result.disk)) (λ fault. ⊥) (D.state disk) (D.state result.disk) (output_of W.contents W.failures W.holds out.old) (output_of W.contents W.failures W.holds out.new) result.done)
        (D.state disk) (D.state result.disk) result.done) }
    ensures keeps { UnchangedExcept (IsTouched (P.place station).is_own scan.old.outbound.now) (D.state disk) (D.state result.disk) }
    ensures passed { OnOk result.done (Q.lets before.old) }
    ensures undamaged { OnOk result.done (EndsSound P.Kept.state (D.state result.disk)) }
{
    let paths = station.paths();
    match lock_and_open(alloc, disk, locks, station) {
        Ok(opened) => {
            let Opened { links, kept } = opened;
            let mut kept = kept;
            match before.prepare(&mut kept) {
                Ok(()) => {
                    let watch = scan.watch;
                    let mut reported = ReportedStore { store: kept, watch };
                    let done = scan_kept::<D, P, G, T, W>(
                        alloc,
                        &links,
                        &mut reported,
                        &paths,
                        scan,
                        out,
                    );
                    let ReportedStore { store, .. } = reported;
                    let disk = P::into_disk(store);
                    Scanned { disk, done }
                }
                Err(fault) => {
                    let disk = P::into_disk(kept);
                    Scanned {
                        disk,
                        done: Err(ScanError::Command(CommandError::Met(fault))),
                    }
                }
            }
        }
        Err(stopped) => Scanned {
            disk: stopped.disk,
            done: Err(ScanError::Command(CommandError::Met(stopped.fault))),
        },
    }
}

// Makes the packets of an open store, and writes them.
fn scan_kept<'a, 's, D: Disk, P: LendStation<'a, D>, G: ListStaged, T: MessageProgress, W: Sink>(
    alloc: Global,
    links: &LinkFile,
    store: &mut ReportedStore<'_, P::Kept, T>,
    paths: &P::Paths,
    scan: &mut Scan<'s, G, T>,
    out: &mut W,
) -> Result<(), ScanError<'a>>
    requires ready { (P.Kept.state store.old.store).is_ready }
    requires settled { (kept : P.Kept) → AreSettledByOwn (P.Kept.state kept) }
    requires own { (m : List ℕ) → (P.Kept.state store.old.store).is_own m → P.Paths.is_own paths.now m }
    ensures scans { Honestly (P.Kept.state store.new.store).disk ((base : Base) → (P.Kept.state store.old.store).keeps base → (P.Kept.state store.old.store).committed base
        → ScansOnStore D.state scan.old.stamp (P.Paths.is_own paths.now) scan.old.outbound.now (G.is_true scan.new.listing)
        (Failed (P.Kept.failures store.old.store) (P.Kept.failures store.new.store) ⊎ Failed (G.failures scan.old.listing) (G.failures scan.new.listing)) (P.Kept.state store.old.store) (P.Kept.state store.new.store)
        (output_of W.contents W.failures W.holds out.old) (output_of W.contents W.failures W.holds out.new) links.now base result) }
    ensures keeps { KeepsStoreBut (IsTouched (P.Kept.state store.old.store).is_own scan.old.outbound.now) (P.Kept.state store.old.store) (P.Kept.state store.new.store) }
    ensures undamaged { OnOk result ((P.Kept.state store.old.store).is_sound → (P.Kept.state store.new.store).is_sound) }
    ensures later { P.Kept.failures store.old.store ≤ P.Kept.failures store.new.store }
    ensures listing_later { G.failures scan.old.listing ≤ G.failures scan.new.listing }
    ensures device { IsErrOf result (ScanError.Command (CommandError.Store StoreError.Device)) → Failed (P.Kept.failures store.old.store) (P.Kept.failures store.new.store) }
    ensures many { Honestly (P.Kept.state store.new.store).disk ((base : Base) → (P.Kept.state store.old.store).keeps base → (P.Kept.state store.old.store).committed base
        → IsErrOf result (ScanError.Command (CommandError.Store StoreError.TooMany)) → IsScanFull P.Kept.state base) }
{
    if !is_stamp(scan.stamp) {
        return Err(ScanError::Command(CommandError::Met(Fault::Scan(ScanFault::BadStamp))));
    }
    let from = store.cursor();
    match store.move_to_end() {
        Ok(()) => put_moved::<D, P, G, T, W>(alloc, links, store, paths, scan, out, from),
        Err(cause) => Err(ScanError::Command(CommandError::Store(cause))),
    }
}
