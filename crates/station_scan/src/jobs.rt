//! What a scan does on the disk of its store.
use crate::ending::stage_packets;
use crate::finishing::finish_left;
use crate::growing::append_group;
use crate::naming::name_settled;
use crate::publish_error::PublishError;
use crate::sending::Sending;
use crate::writing::Batch;
use disk_atomic::{Outgoing, PlacingError, StagedPacket, drop_staging};
use disk_io::{Disk, DiskError};
use echo_steps::Group;
use station::{DiskJob, OwnPaths};
use std::alloc::Global;

/// Names or removes the listed packets that earlier scans left, by the cursor of the committed base.
#[derive(Drop)]
pub(crate) struct FinishLeft<'p, O> {
    pub paths: &'p O,
    pub outbound: &'p [u8],
    pub own: &'p [u8],
    pub listed: &'p [StagedPacket],
    pub cursor: u32,
}

impl<D: Disk, O: OwnPaths> DiskJob<D> for FinishLeft<'_, O> {
    ghost use Rattle.std.specs.Prelude.{◌≢◌, All};
    ghost use Rattle.station_scan.specs.{Jobs.HasFinished, Left.IsOfNameOff};

    type Answer = Result<(), PlacingError>;

    ghost can_run = { λ job d. All (λ b. b ≢ 47) job.own.now };

    ghost changes_at = { λ job m. IsOfNameOff (O.is_own job.paths.now) job.outbound.now job.own.now m };

    ghost has_run = { λ job d e f g r. HasFinished (O.is_own job.paths.now) job.outbound.now job.own.now job.listed.now job.cursor d e f g r };

    fn run(&self, alloc: Global, disk: &mut D) -> Result<(), PlacingError> {
        finish_left(
            alloc,
            disk,
            self.paths,
            self.outbound,
            self.own,
            self.listed,
            self.cursor,
        )
    }
}

/// Begins the packets that have their first copies in a group, and writes the copies of the group.
#[derive(Clone, Copy)]
pub(crate) struct AppendGroup<'p> {
    pub sending: Sending<'p>,
    pub copied: &'p [Outgoing<'p>],
    pub begun: &'p [Outgoing<'p>],
    pub group: &'p Group,
}

impl<D: Disk> DiskJob<D> for AppendGroup<'_> {
    ghost use Rattle.disk_atomic.specs.Outgoing.{IsAtStaging};
    ghost use Rattle.station_scan.specs.Jobs.{CanAppend, HasAppended};

    type Answer = Result<(), PlacingError>;

    ghost can_run = { λ job d. CanAppend job.sending job.copied.now job.begun.now job.group.now.sent d };

    ghost changes_at = { λ job m. IsAtStaging job.copied.now job.sending.trial.now m };

    ghost has_run = { λ job d e f g r. HasAppended job.sending job.copied.now job.begun.now job.group.now.sent d e f g r };

    fn run(&self, alloc: Global, disk: &mut D) -> Result<(), PlacingError> {
        append_group(
            alloc,
            disk,
            self.sending,
            self.copied,
            self.begun,
            self.group,
        )
    }
}

/// Ends packets in their staging files. If this fails, the staging files are removed.
#[derive(Clone, Copy)]
pub(crate) struct StagePackets<'p> {
    pub batch: Batch<'p>,
}

impl<D: Disk> DiskJob<D> for StagePackets<'_> {
    ghost use Rattle.disk_atomic.specs.Outgoing.{IsAtStaging};
    ghost use Rattle.station_scan.specs.{Jobs.HasEnded, Writing.CanEnd};

    type Answer = Result<bool, PublishError>;

    ghost can_run = { λ job d. CanEnd job.batch d };

    ghost changes_at = { λ job m. IsAtStaging job.batch.packets.now job.batch.trial.now m };

    ghost has_run = { λ job d e f g r. HasEnded D.state job.batch d e f g r };

    fn run(&self, alloc: Global, disk: &mut D) -> Result<bool, PublishError> {
        stage_packets(alloc, disk, self.batch)
    }
}

/// Removes the staging files, and the file at the path that was tried.
#[derive(Clone, Copy)]
pub(crate) struct DropStaging<'p> {
    pub batch: Batch<'p>,
}

impl<D: Disk> DiskJob<D> for DropStaging<'_> {
    ghost use Rattle.disk_atomic.specs.Outgoing.{IsAtStaging};
    ghost use Rattle.station_scan.specs.{Jobs.HasDropped, Writing.IsBatchPlaced};

    type Answer = Result<(), DiskError>;

    ghost can_run = { λ job d. IsBatchPlaced job.batch };

    ghost changes_at = { λ job m. IsAtStaging job.batch.packets.now job.batch.trial.now m };

    ghost has_run = { λ job d e f g r. HasDropped job.batch e f g r };

    fn run(&self, _alloc: Global, disk: &mut D) -> Result<(), DiskError> {
        drop_staging(
            disk,
            self.batch.outbound,
            self.batch.trial,
            self.batch.packets,
        )
    }
}

/// Gives each packet its path, and returns whether all have theirs.
#[derive(Clone, Copy)]
pub(crate) struct NamePackets<'p> {
    pub outbound: &'p [u8],
    pub packets: &'p [Outgoing<'p>],
}

impl<D: Disk> DiskJob<D> for NamePackets<'_> {
    ghost use Rattle.disk_atomic.specs.Outgoing.{IsOfOne};
    ghost use Rattle.station_scan.specs.Jobs.{CanName, HasNamed};

    type Answer = Result<bool, DiskError>;

    ghost can_run = { λ job d. CanName job.outbound.now job.packets.now d };

    ghost changes_at = { λ job m. IsOfOne job.packets.now m };

    ghost has_run = { λ job d e f g r. HasNamed job.packets.now d e f g r };

    fn run(&self, alloc: Global, disk: &mut D) -> Result<bool, DiskError> {
        name_settled(alloc, disk, self.outbound, self.packets)
    }
}
