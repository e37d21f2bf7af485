//! Packets and the commit of a store, together.
ghost use Rattle.std.specs.Prelude.{◌⊎◌, All, IfErr, OnOk, IsErrOf};
ghost use Rattle.{disk_io.specs.Disk.Honestly, disk_atomic.specs.Outgoing.{ArePlaced, IsFree, IsOfOne}};
ghost use Rattle.{disk_atomic.specs.Publishing.IsApartFrom, station.specs.Beneath.HoldsAsBefore, station_scan.specs.Writing.CanStage};
ghost use Rattle.station_scan.specs.Publishing.{ArePublished, AreStaged, HasCommitCause, HasPublishCause, IsGoingAt, IsNamedAs, IsPublishedAt, IsTriedWith, KeepsStoreBut, MayCommitWith, MayPublish, StopsCommitting, StopsPublishing, ended_before, staged_before};

use crate::jobs::{NamePackets, StagePackets};
use crate::publish_error::PublishError;
use crate::writing::Batch;
use base_store::Store;
use disk_atomic::{Outgoing, PlacingError};
use disk_io::{Disk, DiskError};
use station::LendStation;
use std::alloc::Global;

/// Ends packets in their staging files, and commits a store. Then each packet gets its path. Nothing is committed if a
/// packet cannot be ended, or the trial path cannot become a second path of a file. Then the staging files are removed.
/// If a path becomes used in between, the packet keeps its staging file. No path of a packet may belong to the store.
pub(crate) fn publish<'a, D: Disk, P: LendStation<'a, D>>(
    alloc: Global,
    store: &mut P::Kept,
    batch: Batch<'_>,
) -> Result<(), PublishError>
    requires { CanStage (P.Kept.state store.old) batch }
    ensures published { OnOk result (ArePublished (ended_before (P.Kept.state store.old)) batch.entry.packets.now (P.Kept.state store.old) (P.Kept.state store.new)) }
    ensures left { Honestly (P.Kept.state store.new).disk (IfErr result (StopsPublishing (ended_before (P.Kept.state store.old)) batch.entry.packets.now batch.entry.trial.now (P.Kept.state store.old) (P.Kept.state store.new))) }
    ensures taken { Honestly (P.Kept.state store.new).disk (IsErrOf result (PublishError.Packets PlacingError.Taken) → All (IsFree (P.Kept.state store.old).disk) batch.entry.packets.now → ⊥) }

    // If files of the folder can get no second path, nothing is committed.
    ensures tried { HoldsAsBefore (P.Kept.state store.old) (P.Kept.state store.new) ⊎ IsTriedWith D.state batch.entry.packets.now batch.entry.trial.now (P.Kept.state store.old).disk }

    // A crash at any time leaves no commit and no packet at its path, or the commit and each packet whole.
    ensures any_moment { MayPublish (ended_before (P.Kept.state store.old)) batch.entry.packets.now batch.entry.trial.now (P.Kept.state store.old) (P.Kept.state store.new) }
    ensures keeps { KeepsStoreBut (IsPublishedAt (P.Kept.state store.old) (IsGoingAt batch.entry.packets.now batch.entry.trial.now)) (P.Kept.state store.old) (P.Kept.state store.new) }
    ensures undamaged { OnOk result ((P.Kept.state store.old).is_sound → (P.Kept.state store.new).is_sound) }
    ensures cause { HasPublishCause P.Kept.state (P.Kept.state store.old) (P.Kept.state store.new) (P.Kept.failures store.old) (P.Kept.failures store.new) result }
{
    if !P::with_disk(alloc, store, &StagePackets { batch })? {
        return Err(PublishError::Packets(PlacingError::Taken));
    }
    commit_staged::<D, P>(alloc, store, batch.outbound, batch.packets)
}

// Commits the store, and gives each packet in a staging file its path.
fn commit_staged<'a, D: Disk, P: LendStation<'a, D>>(
    alloc: Global,
    store: &mut P::Kept,
    outbound: &[u8],
    packets: &[Outgoing<'_>],
) -> Result<(), PublishError>
    requires ready { (P.Kept.state store.old).is_ready }
    requires placed { ArePlaced outbound.now packets.now }
    requires apart { All (IsApartFrom (P.Kept.state store.old).is_own) packets.now }
    requires staged { AreStaged packets.now (P.Kept.state store.old).disk }
    ensures published { OnOk result (ArePublished (staged_before (P.Kept.state store.old)) packets.now (P.Kept.state store.old) (P.Kept.state store.new)) }
    ensures left { IfErr result (StopsCommitting packets.now (P.Kept.state store.old) (P.Kept.state store.new)) }
    ensures any_moment { MayCommitWith packets.now (P.Kept.state store.old) (P.Kept.state store.new) }
    ensures keeps { KeepsStoreBut (IsPublishedAt (P.Kept.state store.old) (IsOfOne packets.now)) (P.Kept.state store.old) (P.Kept.state store.new) }
    ensures undamaged { OnOk result ((P.Kept.state store.old).is_sound → (P.Kept.state store.new).is_sound) }
    ensures cause { HasCommitCause P.Kept.state packets.now (P.Kept.state store.old) (P.Kept.state store.new) (P.Kept.failures store.old) (P.Kept.failures store.new) result }
{
    store.commit()?;
    let named = P::with_disk(alloc, store, &NamePackets { outbound, packets });
    named_done(named)
}

// The answer for whether packets got their paths.
fn named_done(named: Result<bool, DiskError>) -> Result<(), PublishError>
    ensures { IsNamedAs named result }
{
    match named {
        Ok(true) => Ok(()),
        Ok(false) => Err(PublishError::Packets(PlacingError::Taken)),
        Err(cause) => Err(PublishError::Packets(PlacingError::from(cause))),
    }
}
