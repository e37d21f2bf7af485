//! The disk of a station with a base file is used for other files.
ghost use Rattle.std.specs.Prelude.{◌≡◌, ◌↔◌, ◌++◌, ℕ, List, IsTrue, codes};
ghost use Rattle.{disk_atomic.specs.StagingPaths.staging_path, station_bases.specs.InFile.IsOfFile};

use crate::file_station::FileStation;
use crate::file_store::FileStore;
use cmd_status::MessageProgress;
use disk_io::Disk;
use station::{DiskJob, LendStation, OwnPaths};
use std::alloc::Global;
use std::hash::BuildHasher;

/// The bytes before and after the name of a system in a staging path.
const BEFORE: &[u8] = b".~";

const BEHIND: &[u8] = b"~.new";

/// The path of a base file, and its staging paths for any system.
#[derive(Clone, Copy, Debug, Drop)]
pub struct FilePaths<'a> {
    pub path: &'a str,
}

impl OwnPaths for FilePaths<'_> {
    ghost is_own = { λ paths m. (own : List ℕ) × IsOfFile paths.path.now own m };

    fn owns(&self, path: &[u8]) -> bool {
        is_of_file(self.path.as_bytes(), path)
    }
}

// Whether the path is that of the base file, or a staging path of it.
fn is_of_file(base: &[u8], path: &[u8]) -> bool
    ensures { IsTrue result ↔ ((own : List ℕ) × IsOfFile base.now own path.now) }
{
    if is_staging(base, path) {
        return true;
    }
    is_same(path, base)
}

fn is_same(one: &[u8], other: &[u8]) -> bool
    ensures { IsTrue result ↔ (one.now ≡ other.now) }
{
    one == other
}

// Whether the path is a staging path of the other.
fn is_staging(base: &[u8], path: &[u8]) -> bool
    ensures { IsTrue result ↔ ((own : List ℕ) × (path.now ≡ staging_path base.now own)) }
{
    match path.strip_prefix(base) {
        Some(rest) => is_ending(rest),
        None => false,
    }
}

// Whether a staging path ends so.
fn is_ending(rest: &[u8]) -> bool
    ensures { IsTrue result ↔ ((own : List ℕ) × (rest.now ≡ codes ".~" ++ (own ++ codes "~.new"))) }
{
    match rest.strip_prefix(BEFORE) {
        Some(name) => is_new(name),
        None => false,
    }
}

// Whether it is the name of a system, and then this.
fn is_new(name: &[u8]) -> bool
    ensures { IsTrue result ↔ ((own : List ℕ) × (name.now ≡ own ++ codes "~.new")) }
{
    match name.strip_suffix(BEHIND) {
        Some(_own) => true,
        None => false,
    }
}

impl<'a, D: Disk + Drop, S: BuildHasher + Copy + Drop, T: MessageProgress + Drop> LendStation<'a, D>
    for FileStation<'a, S, T> {
    type Paths = FilePaths<'a>;

    fn paths(&self) -> FilePaths<'a> {
        FilePaths { path: self.base }
    }

    fn with_disk<J: DiskJob<D>>(
        alloc: Global,
        kept: &mut FileStore<'a, D, S>,
        job: &J,
    ) -> J::Answer {
        job.run(alloc, &mut kept.disk)
    }
}
