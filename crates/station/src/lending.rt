//! A store lends its disk to a job, for files that do not belong to the store.
ghost use Rattle.std.specs.Prelude.{◌↔◌, ℕ, List, IsTrue};
ghost use Rattle.{disk_io.specs.Disk.DiskState, disk_atomic.specs.Changes.ChangesOnly};
ghost use Rattle.station.specs.Beneath.{AreSettledByOwn, IsUsedAt};

use crate::opening::OpenStation;
use disk_io::Disk;
use std::alloc::Global;

/// Knows the paths of a station's own files.
pub trait OwnPaths {
    // The paths of the station's files.
    ghost is_own: { Self → List ℕ → Type 0 };

    /// Whether one of the station's files has this path.
    fn owns(&self, path: &[u8]) -> bool
        ensures { IsTrue result ↔ is_own self.now path.now };
}

/// Work on a disk.
pub trait DiskJob<D: Disk> {
    type Answer;

    // The disk allows it.
    ghost can_run: { Self → DiskState → Type 0 };

    // The files at these paths may change.
    ghost changes_at: { Self → List ℕ → Type 0 };

    // What it did: the disk and the count of its failures, each before and after, and the answer.
    ghost has_run: { Self → DiskState → DiskState → ℕ → ℕ → Self.Answer → Type 0 };

    /// Does the work.
    fn run(&self, alloc: Global, disk: &mut D) -> Self::Answer
        requires { can_run self.now (D.state disk.old) }
        ensures changes { ChangesOnly (changes_at self.now) (D.state disk.old) (D.state disk.new) }
        ensures done { has_run self.now (D.state disk.old) (D.state disk.new) (D.failures disk.old) (D.failures disk.new) result };
}

/// A station whose store lends its disk.
pub trait LendStation<'a, D: Disk>: OpenStation<'a, D> {
    type Paths: OwnPaths + Drop;

    /// The paths of the station's files.
    fn paths(&self) -> Self::Paths
        ensures own { (m : List ℕ) → Self.Paths.is_own result m ↔ (Self.place self.now).is_own m }

        // Only files at these paths say which base a store of this kind has.
        ensures settled { (kept : Self.Kept) → AreSettledByOwn (Self.Kept.state kept) };

    /// Lends the disk of the store to a job that leaves the files of the store alone.
    fn with_disk<J: DiskJob<D>>(alloc: Global, kept: &mut Self::Kept, job: &J) -> J::Answer
        requires ready { (Self.Kept.state kept.old).is_ready }
        requires off { (m : List ℕ) → (Self.Kept.state kept.old).is_own m → J.changes_at job.now m → ⊥ }
        requires can { J.can_run job.now (Self.Kept.state kept.old).disk }
        ensures used { IsUsedAt (J.changes_at job.now) (Self.Kept.state kept.old) (Self.Kept.state kept.new) }
        ensures undamaged { (Self.Kept.state kept.old).is_sound → (Self.Kept.state kept.new).is_sound }
        ensures done { J.has_run job.now (Self.Kept.state kept.old).disk (Self.Kept.state kept.new).disk (Self.Kept.failures kept.old) (Self.Kept.failures kept.new) result };
}
