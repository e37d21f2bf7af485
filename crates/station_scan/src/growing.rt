//! The staging files of packets grow by the copies of a group of messages.
ghost use Rattle.std.specs.Prelude.{◌<◌, ◌++◌, ℕ, List, length, All, IsErrOf, OnOk};
ghost use Rattle.disk_io.specs.{Disk.{Honestly, IsIn}, Runs.HasCause};
ghost use Rattle.disk_atomic.specs.{Changes.ChangesOnly, Outgoing.{ArePlaced, IsAtStaging, IsFree, IsStagingOne}, Publishing.HasPlacingCause};
ghost use Rattle.{echo_steps.specs.Exports.OutgoingMessage as Sent, station_scan.specs.{Passing.{AreGrowing, IsAppending, header_for}, Publishing.IsWritten}};
ghost use Rattle.station_scan.specs.Writing.{IsBegun, IsOpen};

use crate::pieces::{Copies, Headers};
use crate::sending::Sending;
use crate::writing::{Batch, append_open};
use disk_atomic::{Outgoing, PlacingError, make_packets};
use disk_io::{Disk, DiskError};
use echo_steps::Group;
use std::alloc::Global;

// Writes the headers of packets into their new staging files.
fn write_headers<D: Disk>(
    alloc: Global,
    disk: &mut D,
    sending: Sending<'_>,
    batch: Batch<'_>,
) -> Result<(), DiskError>
    requires placed { ArePlaced batch.outbound.now batch.packets.now }
    requires begun { IsBegun batch (D.state disk.old) }
    ensures opened { OnOk result (IsOpen batch.entry (D.state disk.new)) }
    ensures headed { Honestly (D.state disk.new) (OnOk result (All (IsWritten (λ p. header_for sending.entry p.to) (D.state disk.new).seen) batch.entry.packets.now)) }
    ensures changes { ChangesOnly (IsStagingOne batch.entry.packets.now) (D.state disk.old) (D.state disk.new) }
    ensures cause { HasCause (D.failures disk.old) (D.failures disk.new) result }
{
    let source = sending.source;
    let headers = Headers { source };
    append_open(alloc, disk, batch, &headers)
}

// Makes the staging files of packets, and writes their headers. Without packets nothing is done.
fn begin_first<D: Disk>(
    alloc: Global,
    disk: &mut D,
    sending: Sending<'_>,
    batch: Batch<'_>,
) -> Result<(), PlacingError>
    requires { ArePlaced batch.outbound.now batch.packets.now }
    ensures named { OnOk result ((m : List ℕ) → IsIn batch.entry.outbound.now m → (D.state disk.old).is_named m → (D.state disk.new).is_named m) }
    ensures opened { OnOk result (0 < length batch.entry.packets.now → IsOpen batch.entry (D.state disk.new)) }
    ensures headed { Honestly (D.state disk.new) (OnOk result (All (IsWritten (λ p. header_for sending.entry p.to) (D.state disk.new).seen) batch.entry.packets.now)) }
    ensures taken { Honestly (D.state disk.new) (IsErrOf result PlacingError.Taken → All (IsFree (D.state disk.old)) batch.entry.packets.now → ⊥) }
    ensures changes { ChangesOnly (IsStagingOne batch.entry.packets.now) (D.state disk.old) (D.state disk.new) }
    ensures cause { HasPlacingCause (D.failures disk.old) (D.failures disk.new) result }
{
    if batch.packets.is_empty() {
        return Ok(());
    }
    if !make_packets(disk, batch.outbound, batch.packets)? {
        return Err(PlacingError::Taken);
    }
    write_headers(alloc, disk, sending, batch)?;
    Ok(())
}

/// Begins the packets that have their first copies in the group, and writes the copies of the group.
pub(crate) fn append_group<D: Disk>(
    alloc: Global,
    disk: &mut D,
    sending: Sending<'_>,
    copied: &[Outgoing<'_>],
    begun: &[Outgoing<'_>],
    group: &Group,
) -> Result<(), PlacingError>
    requires some { 0 < length copied.now }
    requires copied { ArePlaced sending.outbound.now copied.now }
    requires begun { ArePlaced sending.outbound.now begun.now }
    requires appending { (sent : List Sent) × IsAppending sending sent group.now.sent (D.state disk.old) copied.now begun.now }
    ensures grows { (sent : List Sent) → IsAppending sending.entry sent group.now.sent (D.state disk.old) copied.now begun.now
        → OnOk result (AreGrowing sending.entry (sent ++ group.now.sent) (D.state disk.new)) }
    ensures taken { Honestly (D.state disk.new) (IsErrOf result PlacingError.Taken → All (IsFree (D.state disk.old)) begun.now → ⊥) }
    ensures changes { ChangesOnly (IsAtStaging copied.now sending.entry.trial.now) (D.state disk.old) (D.state disk.new) }
    ensures cause { HasPlacingCause (D.failures disk.old) (D.failures disk.new) result }
{
    let Sending {
        outbound,
        trial,
        ..
    } = sending;
    let first = Batch {
        outbound,
        trial,
        packets: begun,
    };
    let all = Batch {
        outbound,
        trial,
        packets: copied,
    };
    begin_first(alloc, disk, sending, first)?;
    let copies = Copies { group };
    append_open(alloc, disk, all, &copies)?;
    Ok(())
}
