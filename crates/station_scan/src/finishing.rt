//! The packets that earlier scans left are named or removed.
ghost use Rattle.std.specs.Prelude.{◌≢◌, List, All, IfOk, IsErrOf};
ghost use Rattle.{disk_io.specs.Disk.Honestly, disk_atomic.specs.{Changes.ChangesOnly, Finishing.AreLeftIn}};
ghost use Rattle.disk_atomic.specs.{ListStaged.AreListed, Publishing.HasPlacingCause, declared.finishing.Left.Left};
ghost use Rattle.station_scan.specs.Left.{AreFreeLeft, AreSameLeft, EndsLeft, EndsThese, IsStagingThere, IsFreeFound, IsOfNameOff, IsOfPaths};

use crate::finding::{LeftPaths, find_left};
use disk_atomic::{Left, PlacingError, StagedPacket, finish_stopped};
use disk_io::{Disk, sync_parent_folder};
use station::OwnPaths;
use std::alloc::{AllocError, Global};

// The packets with these paths.
fn left_packets<'a>(alloc: Global, paths: &'a [LeftPaths]) -> Result<Vec<Left<'a>>, AllocError>
    ensures { IfOk result (λ found. AreSameLeft paths.now found.items) }
{
    let mut found = Vec::with_capacity(alloc, paths.len())?;
    'paths: for i in 0..paths.len() {
        let one = &paths[i];
        found.push(Left {
            path: one.two.path.as_slice(),
            staging: one.two.staging.as_slice(),
            before: one.before,
        })?;
    }
    Ok(found)
}

// Names or removes the packets with these paths.
fn end_these<D: Disk>(
    alloc: Global,
    disk: &mut D,
    folder: &[u8],
    paths: &[LeftPaths],
    cursor: u32,
) -> Result<(), PlacingError>
    requires placed { (found : List Left) → AreSameLeft paths.now found → AreLeftIn folder.now found }
    requires there { Honestly (D.state disk.old) (All (IsStagingThere (D.state disk.old).seen) paths.now) }
    ensures ends { Honestly (D.state disk.new) (EndsThese cursor paths.now (D.state disk.old) (D.state disk.new) result) }
    ensures taken { Honestly (D.state disk.new) (IsErrOf result PlacingError.Taken → All (IsFreeFound (D.state disk.old).seen) paths.now → ⊥) }
    ensures changes { ChangesOnly (IsOfPaths paths.now) (D.state disk.old) (D.state disk.new) }
    ensures cause { HasPlacingCause (D.failures disk.old) (D.failures disk.new) result }
{
    let found = left_packets(alloc, paths)?;
    if !finish_stopped(alloc, disk, folder, &found, cursor)? {
        return Err(PlacingError::Taken);
    }
    // The removals are synced.
    sync_parent_folder(disk, folder)?;
    Ok(())
}

/// Names or removes the listed packets, which earlier scans left in staging files, by the cursor of the base, which is
/// synced. The station's own files are no packets.
pub(crate) fn finish_left<D: Disk, O: OwnPaths>(
    alloc: Global,
    disk: &mut D,
    paths: &O,
    folder: &[u8],
    own: &[u8],
    listed: &[StagedPacket],
    cursor: u32,
) -> Result<(), PlacingError>
    requires { All (λ b. b ≢ 47) own.now }
    ensures ends { Honestly (D.state disk.new) (EndsLeft (AreListed folder.now own.now (D.state disk.old).seen listed.now) (O.is_own paths.now) folder.now own.now cursor (D.state disk.old) (D.state disk.new) result) }
    ensures taken { Honestly (D.state disk.new) (IsErrOf result PlacingError.Taken → AreFreeLeft (O.is_own paths.now) folder.now own.now (D.state disk.old).seen → ⊥) }
    ensures changes { ChangesOnly (IsOfNameOff (O.is_own paths.now) folder.now own.now) (D.state disk.old) (D.state disk.new) }
    ensures cause { HasPlacingCause (D.failures disk.old) (D.failures disk.new) result }
{
    let found = find_left(alloc, disk, paths, folder, own, listed)?;
    if found.is_empty() {
        return Ok(());
    }
    end_these(alloc, disk, folder, &found, cursor)
}
