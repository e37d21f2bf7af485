//! Files that grow at their end, piece by piece, while their length is asked of the disk.
ghost use Rattle.std.specs.Prelude.{◌≡◌, ◌++◌, List, ℕ, All, AllPairs, IfOk, OnOk};
ghost use Rattle.echo_addr.specs.declared.address.Address.{Address};
ghost use Rattle.disk_io.specs.{Fixed.AreBytes, Disk.Honestly, Disk.bytes_in, Runs.ChangesNothing, Runs.HasCause, Runs.KeepsNamed};
ghost use Rattle.disk_atomic.specs.Outgoing.{AreApart, CanGrowStaging, HasStaging, IsLonger, IsStagingFlushed, IsStagingOne, SendsBytes};
ghost use Rattle.disk_atomic.specs.Changes.{CanGrow, ChangesOnly};

use crate::outgoing::Outgoing;
use disk_io::{Disk, DiskError, are_bytes};
use echo_addr::Address;
use std::alloc::{AllocError, Global};

/// The next piece of each of some packets.
pub trait Pieces {
    ghost bytes: { Self → Address → List ℕ };

    /// The bytes that come next in the packet for this address.
    fn piece(&self, alloc: Global, to: Address) -> Result<Vec<u8>, AllocError>
        ensures { IfOk result (λ piece. piece.items ≡ bytes self.now to) };
}

/// Writes the bytes behind those that the file has.
pub fn append_piece<D: Disk>(disk: &mut D, path: &[u8], bytes: &[u8]) -> Result<(), DiskError>
    requires { CanGrow (D.state disk.old) path.now }
    ensures bytes { AreBytes bytes.now }
    ensures grows { OnOk result (CanGrow (D.state disk.new) path.now) }
    ensures more { Honestly (D.state disk.new) (OnOk result (bytes_in ((D.state disk.new).seen path.now) ≡ bytes_in ((D.state disk.old).seen path.now) ++ bytes.now)) }
    ensures named { KeepsNamed (λ m. ⊥) (D.state disk.old) (D.state disk.new) }
    ensures changes { ChangesOnly (λ m. m ≡ path.now) (D.state disk.old) (D.state disk.new) }
    ensures cause { HasCause (D.failures disk.old) (D.failures disk.new) result }
{
    are_bytes(bytes);
    let end = disk.len(path)?;
    disk.write_at(path, end, bytes)
}

/// Writes to each staging file the piece that comes next there.
pub fn append_each<D: Disk, P: Pieces>(
    alloc: Global,
    disk: &mut D,
    packets: &[Outgoing<'_>],
    pieces: &P,
) -> Result<(), DiskError>
    requires apart { AllPairs AreApart packets.now }
    requires grow { All (CanGrowStaging (D.state disk.old)) packets.now }
    ensures grow { OnOk result (All (CanGrowStaging (D.state disk.new)) packets.now) }
    ensures longer { Honestly (D.state disk.new) (OnOk result (All (IsLonger (P.bytes pieces.now) (D.state disk.old) (D.state disk.new)) packets.now)) }
    ensures bytes { OnOk result (All (SendsBytes (λ p. P.bytes pieces.now p.to)) packets.now) }
    ensures named { KeepsNamed (λ m. ⊥) (D.state disk.old) (D.state disk.new) }
    ensures changes { ChangesOnly (IsStagingOne packets.now) (D.state disk.old) (D.state disk.new) }
    ensures cause { HasCause (D.failures disk.old) (D.failures disk.new) result }
{
    'packets: for packet in packets {
        let piece = pieces.piece(alloc, packet.to)?;
        append_piece(disk, packet.staging, &piece)?;
    }
    Ok(())
}

/// Syncs the staging file of each packet.
pub fn sync_packets<D: Disk>(disk: &mut D, packets: &[Outgoing<'_>]) -> Result<(), DiskError>
    requires { Honestly (D.state disk.old) (All (HasStaging (D.state disk.old)) packets.now) }
    ensures flushed { OnOk result (All (IsStagingFlushed (D.state disk.new)) packets.now) }
    ensures quiet { ChangesNothing (D.state disk.old) (D.state disk.new) }
    ensures cause { HasCause (D.failures disk.old) (D.failures disk.new) result }
{
    'packets: for packet in packets {
        disk.sync(packet.staging)?;
    }
    Ok(())
}
