//! The packet files of `toss` on a disk: each is opened when its turn comes.
ghost use Rattle.std.specs.Prelude.{◌≡◌, ◌≤◌, Some, IfOk};
ghost use Rattle.{disk_io.specs.{Device.Failed, Disk.Honestly, Runs.{ChangesNothing, HasCause}}, cmd_store.specs.Coming.OpensNext};
ghost use Rattle.station.specs.{PacketReader.{OpensFirst, OpensHere, held_remaining}, PacketsFound.{IsFound, IsFoundOrFailed}, Faults.HasSize};
ghost use Rattle.station.specs.PacketsOnDisk.{coming_at, coming_in, most_held};

use crate::held_bytes::HeldBytes;
use crate::packet_reader::PacketSource;
use crate::reading::size_of;
use cmd_status::{Fault, PacketName, StreamPackets};
use cmd_store::PacketFiles;
use disk_io::{Disk, DiskError, read_part};
use std::alloc::{AllocError, Global};

/// The most bytes of a packet file that is held in memory.
const MOST_HELD: usize = 1_048_576;

/// Packet files with these names. Those of at most a MiB are read whole, the others as they are tossed.
#[derive(Drop)]
pub struct PacketsOnDisk<'a, D, N, S> {
    pub disk: D,
    /// Of those that are not yet opened.
    pub names: &'a [N],
    alloc: Global,
    opened: usize,
    streams: S,
}

/// The packet files that this disk has under these names.
pub fn packets_on_disk<'a, D: Disk, N: PacketName, S: StreamPackets<'a>>(
    alloc: Global,
    disk: D,
    names: &'a [N],
    streams: S,
) -> PacketsOnDisk<'a, D, N, S>
    ensures disk { result.disk ≡ disk }
    ensures names { result.names.now ≡ names.now }
{
    PacketsOnDisk {
        disk,
        names,
        alloc,
        opened: 0,
        streams,
    }
}

impl<'a, D: Disk + Drop, N: PacketName, S: StreamPackets<'a>> PacketFiles<'a>
    for PacketsOnDisk<'a, D, N, S> {
    type Reader = PacketSource<S::Reader>;

    ghost coming = { λ packets. coming_in N.is_usable N.path (D.state packets.disk).seen packets.names.now };

    ghost is_honest = { λ packets. (D.state packets.disk).is_honest × (D.failures packets.disk ≡ 0) };

    // Only a failure in this very call leaves a file unheld: what an earlier call met changes nothing.
    fn open_next(&mut self) -> Option<Result<PacketSource<S::Reader>, Fault<'a>>>
        ensures next { OpensNext ((D.state self.new.disk).is_honest × (D.failures self.new.disk ≡ 0)) (held_remaining S.Reader.remaining)
            (coming_in N.is_usable N.path (D.state self.old.disk).seen self.old.names.now) (coming_in N.is_usable N.path (D.state self.new.disk).seen self.new.names.now) result }
        ensures honest { (D.state self.new.disk).is_honest × (D.failures self.new.disk ≡ 0) → (D.state self.old.disk).is_honest × (D.failures self.old.disk ≡ 0) }
        ensures first { OpensFirst (D.state self.new.disk).is_honest (Failed (D.failures self.old.disk) (D.failures self.new.disk)) S.Reader.remaining
            (coming_in N.is_usable N.path (D.state self.old.disk).seen self.old.names.now) (coming_in N.is_usable N.path (D.state self.new.disk).seen self.new.names.now) result }
    {
        let names: &'a [N] = self.names;
        if names.is_empty() {
            return None;
        }
        self.names = &names[1..];
        self.opened = self.opened.saturating_add(1);
        let number = self.opened;
        Some(open_packet(self.alloc, &mut self.disk, &self.streams, number, &names[0]))
    }
}

// Opens the packet file with this name.
fn open_packet<'a, D: Disk, N: PacketName, S: StreamPackets<'a>>(
    alloc: Global,
    disk: &mut D,
    streams: &S,
    number: usize,
    name: &'a N,
) -> Result<PacketSource<S::Reader>, Fault<'a>>
    ensures opens { Honestly (D.state disk.new) (OpensHere (Failed (D.failures disk.old) (D.failures disk.new)) S.Reader.remaining
        (coming_at (D.state disk.old).seen (N.is_usable name.now) (N.path name.now)) result) }
    ensures quiet { ChangesNothing (D.state disk.old) (D.state disk.new) }
    ensures later { D.failures disk.old ≤ D.failures disk.new }
{
    let path = name.path()?;
    match hold_packet(alloc, disk, path)? {
        Found::Whole(bytes) => {
            streams.tell(number);
            Ok(PacketSource::Held(HeldBytes::new(bytes)))
        }
        Found::Unheld => Ok(PacketSource::Streamed(streams.open(number, path)?)),
        Found::Missing => Err(Fault::CannotUse(path)),
    }
}

// A packet file on the disk.
#[derive(Drop)]
enum Found {
    Missing,
    // It is too large to be held in memory, or the disk failed.
    Unheld,
    // Its bytes.
    Whole(Vec<u8>),
}

// The packet file with this path. If the disk fails, the program reads the file as a large one, and reports its fault.
fn hold_packet<D: Disk>(alloc: Global, disk: &mut D, path: &str) -> Result<Found, AllocError>
    ensures found { Honestly (D.state disk.new) (IfOk result (IsFoundOrFailed (Failed (D.failures disk.old) (D.failures disk.new)) ((D.state disk.old).seen path.now))) }
    ensures quiet { ChangesNothing (D.state disk.old) (D.state disk.new) }
    ensures later { D.failures disk.old ≤ D.failures disk.new }
{
    match find_packet(alloc, disk, path.as_bytes()) {
        Ok(found) => Ok(found),
        Err(DiskError::Memory) => Err(AllocError),
        Err(DiskError::Device) => Ok(Found::Unheld),
    }
}

fn find_packet<D: Disk>(alloc: Global, disk: &mut D, path: &[u8]) -> Result<Found, DiskError>
    ensures found { Honestly (D.state disk.new) (IfOk result (IsFound ((D.state disk.old).seen path.now))) }
    ensures quiet { ChangesNothing (D.state disk.old) (D.state disk.new) }
    ensures cause { HasCause (D.failures disk.old) (D.failures disk.new) result }
{
    match size_of(disk, path)? {
        Some(size) => {
            if size > MOST_HELD {
                return Ok(Found::Unheld);
            }
            hold_bytes(alloc, disk, path, size)
        }
        None => Ok(Found::Missing),
    }
}

// A file of this size. If another program changes its size during the read, its bytes are not held.
fn hold_bytes<D: Disk>(
    alloc: Global,
    disk: &mut D,
    path: &[u8],
    size: usize,
) -> Result<Found, DiskError>
    requires there { Honestly (D.state disk.old) (HasSize ((D.state disk.old).seen path.now) (Some size)) }
    requires held { size ≤ most_held }
    ensures found { Honestly (D.state disk.new) (IfOk result (IsFound ((D.state disk.old).seen path.now))) }
    ensures quiet { ChangesNothing (D.state disk.old) (D.state disk.new) }
    ensures cause { HasCause (D.failures disk.old) (D.failures disk.new) result }
{
    let bytes = read_part(alloc, disk, path, 0, size)?;
    if disk.len(path)? != size {
        return Ok(Found::Unheld);
    }
    Ok(Found::Whole(bytes))
}
