//! The packets of the messages that waited are put under their names.
ghost use Rattle.std.specs.Prelude.{◌≡◌, ◌≢◌, ◌≤◌, ◌⊎◌, ℕ, List, true, All, IsErrOf, OnOk};
ghost use Rattle.{base_file.specs.Base.Base, disk_io.specs.{Device.Failed, Disk.Honestly}};
ghost use Rattle.{cmd_status.specs.Devices.output_of, model_steps.specs.Stamps.is_stamp, station.specs.Beneath.{AreSettledByOwn, IsUsedAt}};
ghost use Rattle.station_scan.specs.{Left.{AreFreeLeft, EndsLeft, IsOfNameOff}, Moved.{HasScanCause, IsMoved}, Publishing.KeepsStoreBut};
ghost use Rattle.station_scan.specs.Scanning.{IsTouched, ScansOnStore};

use crate::jobs::FinishLeft;
use crate::outgoing::send_on;
use crate::pieces::ScanSource;
use crate::reported::ReportedStore;
use crate::reporting::{left_reported, report, reported_as};
use crate::scan_error::ScanError;
use crate::scanning::Scan;
use crate::sending::{Sending, plan_of};
use base_store::Store;
use cmd_status::MessageProgress;
use disk_atomic::{ListStaged, PlacingError};
use disk_io::{Disk, Sink};
use echo_links::LinkFile;
use station::{LendStation, OwnPaths};
use std::alloc::Global;

// Names or removes the packets that earlier scans left, by the cursor of the committed base.
fn finish_earlier<'a, D: Disk, P: LendStation<'a, D>, G: ListStaged>(
    alloc: Global,
    store: &mut P::Kept,
    paths: &P::Paths,
    listing: &mut G,
    cursor: u32,
    sending: Sending<'_>,
) -> Result<(), PlacingError>
    requires plain { All (λ b. b ≢ 47) sending.own.now }
    requires ready { (P.Kept.state store.old).is_ready }
    requires settled { (kept : P.Kept) → AreSettledByOwn (P.Kept.state kept) }
    requires own { (m : List ℕ) → (P.Kept.state store.old).is_own m → P.Paths.is_own paths.now m }
    ensures used { IsUsedAt (IsOfNameOff (P.Paths.is_own paths.now) sending.entry.outbound.now sending.entry.own.now) (P.Kept.state store.old) (P.Kept.state store.new) }
    ensures ends { Honestly (P.Kept.state store.new).disk (EndsLeft (G.is_true listing.new (P.Kept.state store.old).disk.seen) (P.Paths.is_own paths.now) sending.entry.outbound.now sending.entry.own.now cursor
        (P.Kept.state store.old).disk (P.Kept.state store.new).disk result) }
    ensures taken { Honestly (P.Kept.state store.new).disk (IsErrOf result PlacingError.Taken → AreFreeLeft (P.Paths.is_own paths.now) sending.entry.outbound.now sending.entry.own.now (P.Kept.state store.old).disk.seen → ⊥) }
    ensures undamaged { OnOk result ((P.Kept.state store.old).is_sound → (P.Kept.state store.new).is_sound) }
    ensures later { P.Kept.failures store.old ≤ P.Kept.failures store.new }
    ensures listing_later { G.failures listing.old ≤ G.failures listing.new }
    ensures failed { IsErrOf result PlacingError.Device → Failed (P.Kept.failures store.old) (P.Kept.failures store.new) ⊎ Failed (G.failures listing.old) (G.failures listing.new) }
{
    let listed = listing.left_staged(alloc, sending.outbound, sending.own)?;
    let job = FinishLeft {
        paths,
        outbound: sending.outbound,
        own: sending.own,
        listed: listed.as_slice(),
        cursor,
    };
    P::with_disk(alloc, store, &job)
}

/// Names or removes what earlier scans left, by the cursor of the committed base. Then it makes the packets of the
/// messages from that number on, and commits the store.
pub(crate) fn put_moved<
    'a,
    's,
    D: Disk,
    P: LendStation<'a, D>,
    G: ListStaged,
    T: MessageProgress,
    W: Sink,
>(
    alloc: Global,
    links: &LinkFile,
    store: &mut ReportedStore<'_, P::Kept, T>,
    paths: &P::Paths,
    scan: &mut Scan<'s, G, T>,
    out: &mut W,
    from: usize,
) -> Result<(), ScanError<'a>>
    requires ready { (P.Kept.state store.old.store).is_ready }
    requires settled { (kept : P.Kept) → AreSettledByOwn (P.Kept.state kept) }
    requires stamp { is_stamp scan.old.stamp ≡ true }
    requires own { (m : List ℕ) → (P.Kept.state store.old.store).is_own m → P.Paths.is_own paths.now m }
    ensures scans { Honestly (P.Kept.state store.new.store).disk ((base : Base) → IsMoved (P.Kept.state store.old.store) from base
        → ScansOnStore D.state scan.old.stamp (P.Paths.is_own paths.now) scan.old.outbound.now (G.is_true scan.new.listing)
        (Failed (P.Kept.failures store.old.store) (P.Kept.failures store.new.store) ⊎ Failed (G.failures scan.old.listing) (G.failures scan.new.listing)) (P.Kept.state store.old.store) (P.Kept.state store.new.store)
        (output_of W.contents W.failures W.holds out.old) (output_of W.contents W.failures W.holds out.new) links.now base result) }
    ensures keeps { KeepsStoreBut (IsTouched (P.Kept.state store.old.store).is_own scan.old.outbound.now) (P.Kept.state store.old.store) (P.Kept.state store.new.store) }
    ensures listing_later { G.failures scan.old.listing ≤ G.failures scan.new.listing }
    ensures undamaged { OnOk result ((P.Kept.state store.old.store).is_sound → (P.Kept.state store.new.store).is_sound) }
    ensures cause { HasScanCause P.Kept.state (P.Kept.state store.old.store) (P.Kept.failures store.old.store) (P.Kept.failures store.new.store) result }
{
    let source = ScanSource {
        links,
        stamp: scan.stamp,
        from,
    };
    let plan = match plan_of(alloc, links, scan.outbound, from) {
        Ok(plan) => plan,
        Err(why) => {
            let reported = report(alloc, source, store, out);
            return reported_as(why, reported);
        }
    };
    let sending = Sending {
        outbound: scan.outbound,
        own: plan.own.as_slice(),
        trial: plan.trial.as_slice(),
        routes: plan.routes.as_slice(),
        source,
    };
    match finish_earlier::<D, P, G>(
        alloc,
        &mut store.store,
        paths,
        &mut scan.listing,
        from as u32,
        sending,
    ) {
        Ok(()) => send_on::<D, P, T, W>(alloc, store, paths, sending, out),
        Err(cause) => {
            let reported = report(alloc, source, store, out);
            left_reported(cause, reported)
        }
    }
}
