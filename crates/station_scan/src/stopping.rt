//! A pass that stops removes its staging files.
ghost use Rattle.std.specs.Prelude.{◌≡◌, ◌<◌, ℕ, List, IfErr, IfOk, IsErrOf, None, OnOk};
ghost use Rattle.{base_file.specs.Base.Base, disk_io.specs.{Disk.Honestly, Runs.HasCause}};
ghost use Rattle.{echo_steps.specs.Exports.OutgoingMessage as Sent, station.specs.Beneath.IsUsedAt, station_scan.specs.Writing.publish_stop};
ghost use Rattle.station_scan.specs.{Passing.{AreCounted, CanSend, FitTo, HasPassed, IsStagingTo, IsTakenFor, StopsPassing}, Publishing.HasPublishCause};

use crate::counting::{LinkPacket, empty_packets, made_of};
use crate::jobs::DropStaging;
use crate::passing::{PassStop, pass_on};
use crate::publish_error::PublishError;
use crate::reported::ReportedStore;
use crate::sending::Sending;
use crate::writing::Batch;
use base_store::Store;
use cmd_status::MessageProgress;
use disk_atomic::PlacingError;
use disk_io::{Disk, DiskError};
use station::LendStation;
use std::alloc::Global;

/// Removes the staging files of the packets with messages, and the file at the path that is tried. Without such packets
/// nothing is removed.
pub(crate) fn drop_made<'a, D: Disk, P: LendStation<'a, D>>(
    alloc: Global,
    store: &mut P::Kept,
    paths: &P::Paths,
    sending: Sending<'_>,
    packets: &[LinkPacket<'_>],
) -> Result<(), DiskError>
    requires ready { CanSend (P.Paths.is_own paths.now) sending (P.Kept.state store.old) }
    requires fit { (sent : List Sent) × AreCounted sending sent packets.now × FitTo (P.Paths.is_own paths.now) sending sent }
    ensures used { (sent : List Sent) → AreCounted sending.entry sent packets.now → IsUsedAt (IsStagingTo sending.entry sent) (P.Kept.state store.old) (P.Kept.state store.new) }
    ensures gone { Honestly (P.Kept.state store.new).disk (OnOk result ((sent : List Sent) → AreCounted sending.entry sent packets.now → (m : List ℕ) → IsStagingTo sending.entry sent m → (P.Kept.state store.new).disk.seen m ≡ None)) }
    ensures cause { HasCause (P.Kept.failures store.old) (P.Kept.failures store.new) result }
{
    let made = made_of(alloc, packets)?;
    let dropped = made.as_slice();
    if dropped.is_empty() {
        return Ok(());
    }
    let batch = Batch {
        outbound: sending.outbound,
        trial: sending.trial,
        packets: dropped,
    };
    P::with_disk(alloc, store, &DropStaging { batch })
}

/// Goes over the messages once, and writes the copies into the staging files of their packets. It returns the packets
/// for all links. If it stops, the staging files are removed.
pub(crate) fn pass_waiting<'a, 'p, D: Disk, P: LendStation<'a, D>, T: MessageProgress>(
    alloc: Global,
    store: &mut ReportedStore<'_, P::Kept, T>,
    paths: &P::Paths,
    sending: Sending<'p>,
) -> Result<Vec<LinkPacket<'p>>, PublishError>
    requires ready { CanSend (P.Paths.is_own paths.now) sending (P.Kept.state store.old.store) }
    ensures passed { IfOk result (λ packets. HasPassed (P.Paths.is_own paths.now) sending.entry (P.Kept.state store.old.store) (P.Kept.state store.new.store) packets.items) }
    ensures stopped { IfErr result (StopsPassing (P.Paths.is_own paths.now) sending.entry (P.Kept.state store.old.store) (P.Kept.state store.new.store)) }
    ensures taken { Honestly (P.Kept.state store.new.store).disk (IsErrOf result (PublishError.Packets PlacingError.Taken) → (base : Base) → (P.Kept.state store.old.store).keeps base
        → IsTakenFor (P.Paths.is_own paths.now) sending.entry base (P.Kept.state store.old.store).disk.seen) }
    ensures undamaged { OnOk result ((P.Kept.state store.old.store).is_sound → (P.Kept.state store.new.store).is_sound) }
    ensures cause { HasPublishCause P.Kept.state (P.Kept.state store.old.store) (P.Kept.state store.new.store) (P.Kept.failures store.old.store) (P.Kept.failures store.new.store) result }
{
    let mut packets = empty_packets(alloc, sending)?;
    match pass_on::<D, P, T>(alloc, store, paths, sending, &mut packets) {
        Ok(()) => Ok(packets),
        Err(stop) => {
            match drop_made::<D, P>(alloc, &mut store.store, paths, sending, &packets) {
                Ok(()) => Err(stopped(stop)),
                Err(left) => Err(PublishError::Staging(left)),
            }
        }
    }
}

// Why packets were not written, with no staging file left.
fn stopped(stop: PassStop) -> PublishError
    ensures { result ≡ publish_stop stop }
{
    match stop {
        PassStop::Placing(cause) => PublishError::Packets(cause),
        PassStop::Reading(cause) => PublishError::Reading(cause),
    }
}
