//! Laws about files on disks: stations that share one, and packet files. Each law is the contract of a function that
//! does nothing.
ghost use Rattle.std.specs.Prelude.{ℕ, List};
ghost use Rattle.law_stations.specs.{Commands.IsPacketAt, Nets.Paired, ShownPackets.IsShownAt, Neighbours.OthersStay, Scans.with_packets_in};

use cmd_status::{PacketName, StreamPackets};
use cmd_store::PacketFiles;
use disk_io::Disk;
use station::{OpenStation, PacketsOnDisk};

/// A command on a station leaves the rest of the disk as it was. So another station of the net keeps its place: its
/// link file and base are elsewhere and synced, and a crash at any time leaves them there. The same holds for a scan,
/// if they have no path of a packet.
pub fn others_stay<'a, D: Disk, P: OpenStation<'a, D>, O: OpenStation<'a, D>>(
    _old: &D,
    _new: &D,
    _station: &P,
    _other: &O,
)
    ensures command { OthersStay (P.place _station.now) (O.place _other.now) (D.state _old.now) (D.state _new.now) }
    ensures scan { (outbound : List ℕ) → OthersStay (with_packets_in outbound (P.place _station.now)) (O.place _other.now) (D.state _old.now) (D.state _new.now) }
{}

/// Packet files on a disk are packets of a net if the disk shows exactly their bytes, at most a MiB each. Some may be
/// missing. This is the premise of `toss_as_may`.
pub fn shown_packets_are_known<'a, D: Disk + Drop, N: PacketName, S: StreamPackets<'a>>(
    _files: &PacketsOnDisk<'a, D, N, S>,
)
    ensures { (packets : List (List ℕ)) (indexes : List ℕ) → Paired (λ k name. IsShownAt packets (D.state _files.now.disk).seen k (N.is_usable name) (N.path name)) indexes _files.now.names.now
        → Paired (IsPacketAt packets) indexes (⟦<PacketsOnDisk<'a, D, N, S> as PacketFiles<'a>>⟧.coming _files.now) }
{}
