//! The messages of a store are gone over once, and their packets sent out with its commit.
ghost use Rattle.std.specs.Prelude.{◌≡◌, List, IfErr, OnOk};
ghost use Rattle.{base_file.specs.Base.Base, disk_io.specs.{Device.Failed, Disk.Honestly}};
ghost use Rattle.{base_store.specs.Store.{Commits, MayCommit}, cmd_status.specs.Devices.output_of, echo_steps.specs.Exports.OutgoingMessage as Sent};
ghost use Rattle.station_scan.specs.{Moved.{HasScanCause, IsMoved, ScansFrom, SendsFrom}, Passing.{CanSend, HasPassed, IsMaking}};
ghost use Rattle.station_scan.specs.{Publishing.{HasPublishCause, KeepsStoreBut}, Scanning.{IsTouched, packets_in}, Stops.{IsOfBase, scan_done}};

use crate::counting::{LinkPacket, made_of, print_made};
use crate::publish_error::PublishError;
use crate::publishing::publish;
use crate::reported::ReportedStore;
use crate::reporting::{report, reported_as};
use crate::scan_error::ScanError;
use crate::sending::Sending;
use crate::stopping::{drop_made, pass_waiting};
use crate::writing::Batch;
use base_store::Store;
use cmd_status::MessageProgress;
use cmd_store::CommandError;
use disk_io::{Disk, DiskError, Sink};
use station::LendStation;
use std::alloc::Global;

// Commits the store of a scan without packets.
fn commit_alone<S: Store>(store: &mut S) -> Result<(), PublishError>
    requires { (S.state store.old).is_ready }
    ensures base { IfErr result IsOfBase }
    ensures committed { OnOk result (Commits (S.state store.old) (S.state store.new)) }
    ensures either { MayCommit (S.state store.old) (S.state store.new) }
    ensures undamaged { OnOk result ((S.state store.old).is_sound → (S.state store.new).is_sound) }
    ensures cause { HasPublishCause S.state (S.state store.old) (S.state store.new) (S.failures store.old) (S.failures store.new) result }
{
    store.commit()?;
    Ok(())
}

// Ends the packets in their staging files, and commits the store. A scan without packets needs no folder.
fn publish_made<'a, D: Disk, P: LendStation<'a, D>>(
    alloc: Global,
    store: &mut P::Kept,
    paths: &P::Paths,
    sending: Sending<'_>,
    packets: &[LinkPacket<'_>],
) -> Result<(), PublishError>
    requires ready { CanSend (P.Paths.is_own paths.now) sending (P.Kept.state store.old) }
    requires making { (sent : List Sent) × IsMaking (P.Paths.is_own paths.now) sending sent (P.Kept.state store.old).disk packets.now }

    // The store and its disk as they were before the messages were gone over.
    ensures sends { (before : P.Kept) → HasPassed (P.Paths.is_own paths.now) sending.entry (P.Kept.state before) (P.Kept.state store.old) packets.now
        → Honestly (P.Kept.state store.new).disk ((base : Base) → IsMoved (P.Kept.state before) sending.entry.source.from base
        → SendsFrom D.state (P.Paths.is_own paths.now) sending.entry.outbound.now sending.entry.own.now (Failed (P.Kept.failures store.old) (P.Kept.failures store.new)) (P.Kept.state before) (P.Kept.state store.new)
        base (packets_in sending.entry.source.stamp sending.entry.source.links.now base) (scan_done result)) }
    ensures keeps { KeepsStoreBut (IsTouched (P.Kept.state store.old).is_own sending.entry.outbound.now) (P.Kept.state store.old) (P.Kept.state store.new) }
    ensures undamaged { OnOk result ((P.Kept.state store.old).is_sound → (P.Kept.state store.new).is_sound) }
    ensures cause { HasPublishCause P.Kept.state (P.Kept.state store.old) (P.Kept.state store.new) (P.Kept.failures store.old) (P.Kept.failures store.new) result }
{
    let made = match made_of(alloc, packets) {
        Ok(made) => made,
        Err(_refused) => return Err(PublishError::Staging(DiskError::Memory)),
    };
    let ended = made.as_slice();
    if ended.is_empty() {
        return commit_alone(store);
    }
    let batch = Batch {
        outbound: sending.outbound,
        trial: sending.trial,
        packets: ended,
    };
    publish::<D, P>(alloc, store, batch)
}

// Prints the lines of the packets that were made, and sends them out.
fn send_made<'a, D: Disk, P: LendStation<'a, D>, W: Sink>(
    alloc: Global,
    store: &mut P::Kept,
    paths: &P::Paths,
    sending: Sending<'_>,
    packets: &[LinkPacket<'_>],
    out: &mut W,
) -> Result<(), ScanError<'a>>
    requires ready { CanSend (P.Paths.is_own paths.now) sending (P.Kept.state store.old) }
    requires making { (sent : List Sent) × IsMaking (P.Paths.is_own paths.now) sending sent (P.Kept.state store.old).disk packets.now }

    // The store and its disk as they were before the messages were gone over.
    ensures sends { (before : P.Kept) → HasPassed (P.Paths.is_own paths.now) sending.entry (P.Kept.state before) (P.Kept.state store.old) packets.now
        → Honestly (P.Kept.state store.new).disk ((base : Base) → IsMoved (P.Kept.state before) sending.entry.source.from base
        → ScansFrom D.state (P.Paths.is_own paths.now) sending.entry (Failed (P.Kept.failures store.old) (P.Kept.failures store.new)) (P.Kept.state before) (P.Kept.state store.new)
        (output_of W.contents W.failures W.holds out.old) (output_of W.contents W.failures W.holds out.new) base result) }
    ensures keeps { KeepsStoreBut (IsTouched (P.Kept.state store.old).is_own sending.entry.outbound.now) (P.Kept.state store.old) (P.Kept.state store.new) }
    ensures undamaged { OnOk result ((P.Kept.state store.old).is_sound → (P.Kept.state store.new).is_sound) }
    ensures cause { HasScanCause P.Kept.state (P.Kept.state store.old) (P.Kept.failures store.old) (P.Kept.failures store.new) result }
{
    match print_made(alloc, packets, out) {
        Ok(()) => {
            let done = publish_made::<D, P>(alloc, store, paths, sending, packets);
            stop_done(done)
        }
        Err(stop) => match drop_made::<D, P>(alloc, store, paths, sending, packets) {
            Ok(()) => Err(ScanError::Command(stop)),
            Err(left) => Err(ScanError::Staying(left)),
        },
    }
}

/// Goes over the waiting messages, makes their packets and prints their lines. Then it commits the store, and the packets
/// get their paths. If a packet cannot be made, the lines are printed first.
pub(crate) fn send_on<'a, D: Disk, P: LendStation<'a, D>, T: MessageProgress, W: Sink>(
    alloc: Global,
    store: &mut ReportedStore<'_, P::Kept, T>,
    paths: &P::Paths,
    sending: Sending<'_>,
    out: &mut W,
) -> Result<(), ScanError<'a>>
    requires ready { CanSend (P.Paths.is_own paths.now) sending (P.Kept.state store.old.store) }
    ensures sends { Honestly (P.Kept.state store.new.store).disk ((base : Base) → IsMoved (P.Kept.state store.old.store) sending.entry.source.from base
        → ScansFrom D.state (P.Paths.is_own paths.now) sending.entry (Failed (P.Kept.failures store.old.store) (P.Kept.failures store.new.store)) (P.Kept.state store.old.store) (P.Kept.state store.new.store)
        (output_of W.contents W.failures W.holds out.old) (output_of W.contents W.failures W.holds out.new) base result) }
    ensures keeps { KeepsStoreBut (IsTouched (P.Kept.state store.old.store).is_own sending.entry.outbound.now) (P.Kept.state store.old.store) (P.Kept.state store.new.store) }
    ensures undamaged { OnOk result ((P.Kept.state store.old.store).is_sound → (P.Kept.state store.new.store).is_sound) }
    ensures cause { HasScanCause P.Kept.state (P.Kept.state store.old.store) (P.Kept.failures store.old.store) (P.Kept.failures store.new.store) result }
{
    match pass_waiting::<D, P, T>(alloc, store, paths, sending) {
        Ok(packets) => {
            send_made::<D, P, W>(alloc, &mut store.store, paths, sending, &packets, out)
        }
        Err(why) => match why {
            PublishError::Packets(cause) => {
                let reported = report(alloc, sending.source, store, out);
                reported_as(ScanError::Placing(cause), reported)
            }
            PublishError::Reading(cause) => Err(ScanError::Command(CommandError::Store(cause))),
            PublishError::Staging(left) => Err(ScanError::Staying(left)),
            PublishError::Base(cause) => Err(ScanError::Command(CommandError::Store(cause))),
        },
    }
}

// How a scan with this publication ended.
fn stop_done<'a>(done: Result<(), PublishError>) -> Result<(), ScanError<'a>>
    ensures { result ≡ scan_done done }
{
    match done {
        Ok(()) => Ok(()),
        Err(why) => Err(ScanError::from(why)),
    }
}
