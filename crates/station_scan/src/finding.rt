//! Which packets earlier scans left.
ghost use Rattle.std.specs.Prelude.{◌≡◌, true, false, All, Contains, IfOk, IfSome, OnOk, None};
ghost use Rattle.disk_io.specs.{Disk.Honestly, Runs.{ChangesNothing, HasCause}};
ghost use Rattle.station_scan.specs.{Left.{Adds, AreFound, HaveOtherLeft, IsStagingThere, IsFoundAs, IsFoundWhere, IsToFind}, declared.finding.LeftPaths.LeftPaths};

use crate::fitting::{differ, is_name, is_off_own};
use crate::sending::{TwoPaths, two_paths};
use disk_atomic::StagedPacket;
use disk_io::{Disk, DiskError};
use station::OwnPaths;
use std::alloc::Global;

/// A packet in a staging file: its two paths, and how many messages were scanned before.
#[derive(Drop)]
pub(crate) struct LeftPaths {
    pub two: TwoPaths,
    pub before: u32,
}

// Whether each of these has another path.
fn is_another(one: &LeftPaths, others: &[LeftPaths]) -> bool
    ensures other { result ≡ true → All (HaveOtherLeft one.now) others.now }
    ensures same { result ≡ false → (l : LeftPaths) × Contains others.now l × (l.two.path ≡ one.now.two.path) }
{
    'others: for other in others {
        if !differ(one.two.path.as_slice(), other.two.path.as_slice()) {
            return false;
        }
    }
    true
}

// The listed packet, if its staging file exists and neither of its paths belongs to the station.
fn found_of<D: Disk, O: OwnPaths>(
    alloc: Global,
    disk: &mut D,
    paths: &O,
    folder: &[u8],
    own: &[u8],
    left: &StagedPacket,
) -> Result<Option<LeftPaths>, DiskError>
    ensures found { IfOk result (λ found. IfSome found (IsFoundAs (O.is_own paths.now) folder.now own.now left.now)) }
    ensures there { Honestly (D.state disk.new) (IfOk result (λ found. IfSome found (IsStagingThere (D.state disk.old).seen))) }
    ensures none { Honestly (D.state disk.new) (IfOk result (λ found. found ≡ None → IsToFind (O.is_own paths.now) folder.now own.now (D.state disk.old).seen left.now.name → ⊥)) }
    ensures quiet { ChangesNothing (D.state disk.old) (D.state disk.new) }
    ensures cause { HasCause (D.failures disk.old) (D.failures disk.new) result }
{
    let name = left.name.as_slice();
    if !is_name(name) {
        return Ok(None);
    }
    let two = two_paths(alloc, folder, own, name)?;
    if !is_off_own(paths, &two) || !disk.exists(two.staging.as_slice())? {
        return Ok(None);
    }
    Ok(Some(LeftPaths {
        two,
        before: left.before,
    }))
}

// Adds that packet, if none so far has its path.
fn add_found<D: Disk, O: OwnPaths>(
    alloc: Global,
    disk: &mut D,
    paths: &O,
    folder: &[u8],
    own: &[u8],
    left: &StagedPacket,
    found: &mut Vec<LeftPaths>,
) -> Result<(), DiskError>
    ensures adds { OnOk result (Adds (O.is_own paths.now) folder.now own.now left.now found.old.items found.new.items) }
    ensures there { Honestly (D.state disk.new) (OnOk result (All (IsStagingThere (D.state disk.old).seen) found.old.items → All (IsStagingThere (D.state disk.old).seen) found.new.items)) }
    ensures all { Honestly (D.state disk.new) (OnOk result (IsFoundWhere (O.is_own paths.now) folder.now own.now (D.state disk.old).seen found.new.items left.now)) }
    ensures quiet { ChangesNothing (D.state disk.old) (D.state disk.new) }
    ensures cause { HasCause (D.failures disk.old) (D.failures disk.new) result }
{
    let Some(one) = found_of(alloc, disk, paths, folder, own, left)? else {
        return Ok(());
    };
    if !is_another(&one, found) {
        return Ok(());
    }
    found.push(one)?;
    Ok(())
}

/// The listed packets that have a staging file, once each.
pub(crate) fn find_left<D: Disk, O: OwnPaths>(
    alloc: Global,
    disk: &mut D,
    paths: &O,
    folder: &[u8],
    own: &[u8],
    named: &[StagedPacket],
) -> Result<Vec<LeftPaths>, DiskError>
    ensures found { IfOk result (λ found. AreFound (O.is_own paths.now) folder.now own.now named.now found.items) }
    ensures there { Honestly (D.state disk.new) (IfOk result (λ found. All (IsStagingThere (D.state disk.old).seen) found.items)) }
    ensures all { Honestly (D.state disk.new) (IfOk result (λ found. All (IsFoundWhere (O.is_own paths.now) folder.now own.now (D.state disk.old).seen found.items) named.now)) }
    ensures quiet { ChangesNothing (D.state disk.old) (D.state disk.new) }
    ensures cause { HasCause (D.failures disk.old) (D.failures disk.new) result }
{
    let mut found = Vec::new(alloc);
    'named: for left in named {
        add_found(alloc, disk, paths, folder, own, left, &mut found)?;
    }
    Ok(found)
}
