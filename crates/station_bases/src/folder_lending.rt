//! The disk of a station with a base folder is used for other files.
ghost use Rattle.std.specs.Prelude.{◌≡◌, ◌≢◌, ◌↔◌, ℕ, List, true, false, All, IsTrue};
ghost use Rattle.{disk_io.specs.Disk.IsIn, station.specs.Beneath.IsUsedAt};

use crate::folder_station::FolderStation;
use base_folder_store::FolderStore;
use base_store::{Digest, Store};
use disk_io::Disk;
use station::{DiskJob, LendStation, OwnPaths};
use std::alloc::Global;

/// The paths of the files in a folder: this front, and then a name.
#[derive(Clone, Copy, Debug, Drop)]
pub struct FolderPaths<'a> {
    pub path: &'a [u8],
}

impl OwnPaths for FolderPaths<'_> {
    ghost is_own = { λ paths m. IsIn paths.path.now m };

    fn owns(&self, path: &[u8]) -> bool {
        is_in(self.path, path)
    }
}

// Whether the path belongs to the folder.
fn is_in(folder: &[u8], path: &[u8]) -> bool
    ensures { IsTrue result ↔ IsIn folder.now path.now }
{
    match path.strip_prefix(folder) {
        Some(name) => is_plain(name),
        None => false,
    }
}

// Whether no byte of a name is a slash.
fn is_plain(name: &[u8]) -> bool
    ensures yes { result ≡ true → All (λ b. b ≢ 47) name.now }
    ensures no { result ≡ false → All (λ b. b ≢ 47) name.now → ⊥ }
{
    'bytes: for byte in name {
        if *byte == b'/' {
            return false;
        }
    }
    true
}

impl<'a, D: Disk + Drop, H: Digest> LendStation<'a, D> for FolderStation<'a, H> {
    type Paths = FolderPaths<'a>;

    fn paths(&self) -> FolderPaths<'a> {
        FolderPaths { path: self.at.path }
    }

    fn with_disk<J: DiskJob<D>>(alloc: Global, kept: &mut FolderStore<D, H>, job: &J) -> J::Answer
        requires ready { (⟦<FolderStore<D, H> as Store>⟧.state kept.old).is_ready }
        requires off { (m : List ℕ) → (⟦<FolderStore<D, H> as Store>⟧.state kept.old).is_own m → J.changes_at job.now m → ⊥ }
        requires can { J.can_run job.now (⟦<FolderStore<D, H> as Store>⟧.state kept.old).disk }
        ensures used { IsUsedAt (J.changes_at job.now) (⟦<FolderStore<D, H> as Store>⟧.state kept.old) (⟦<FolderStore<D, H> as Store>⟧.state kept.new) }
        ensures undamaged { (⟦<FolderStore<D, H> as Store>⟧.state kept.old).is_sound → (⟦<FolderStore<D, H> as Store>⟧.state kept.new).is_sound }
        ensures done { J.has_run job.now (⟦<FolderStore<D, H> as Store>⟧.state kept.old).disk (⟦<FolderStore<D, H> as Store>⟧.state kept.new).disk
            (⟦<FolderStore<D, H> as Store>⟧.failures kept.old) (⟦<FolderStore<D, H> as Store>⟧.failures kept.new) result }
    {
        job.run(alloc, &mut kept.disk)
    }
}
