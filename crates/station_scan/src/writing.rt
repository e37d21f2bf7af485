//! The staging files of packets grow by pieces.
ghost use Rattle.std.specs.Prelude.{All, OnOk};
ghost use Rattle.{disk_io.specs.{Disk.Honestly, Runs.HasCause}, disk_atomic.specs.Changes.ChangesOnly};
ghost use Rattle.{disk_atomic.specs.Outgoing.{ArePlaced, IsLonger, IsStagingOne}, station_scan.specs.Writing.IsOpen};

use disk_atomic::{Outgoing, Pieces, append_each};
use disk_io::{Disk, DiskError};
use std::alloc::Global;

/// Packets that go into a folder, and the path that is tried there.
#[derive(Clone, Copy)]
pub struct Batch<'p> {
    pub outbound: &'p [u8],
    pub trial: &'p [u8],
    pub packets: &'p [Outgoing<'p>],
}

/// Writes the next piece of each packet. The staging files can grow further.
pub(crate) fn append_open<D: Disk, Q: Pieces>(
    alloc: Global,
    disk: &mut D,
    batch: Batch<'_>,
    pieces: &Q,
) -> Result<(), DiskError>
    requires placed { ArePlaced batch.outbound.now batch.packets.now }
    requires opened { IsOpen batch (D.state disk.old) }
    ensures opened { OnOk result (IsOpen batch.entry (D.state disk.new)) }
    ensures longer { Honestly (D.state disk.new) (OnOk result (All (IsLonger (Q.bytes pieces.now) (D.state disk.old) (D.state disk.new)) batch.entry.packets.now)) }
    ensures changes { ChangesOnly (IsStagingOne batch.entry.packets.now) (D.state disk.old) (D.state disk.new) }
    ensures cause { HasCause (D.failures disk.old) (D.failures disk.new) result }
{
    append_each(alloc, disk, batch.packets, pieces)
}
