//! The assumption about the files before the first call.
ghost use Rattle.std.specs.Prelude.{List, None};
ghost use Rattle.disk_io.specs.Disk.{DiskState, Files};
ghost use Rattle.disk_system.specs.{Replay.Note, Unknown.no_files, Unknown.nothing_known};

/// The first files, and the files at paths after a call that failed there, which no code can know. A function
/// over `S: Start` is proved for all of them.
pub trait Start: Drop {
    ghost first: { DiskState };

    ghost unknown: { List Note → Files };
}

/// The start that `main` names. It assumes nothing about the files, not even honest answers. The promise about
/// them is the contract of the function over `S: Start` that `main` calls.
#[derive(Drop)]
pub struct Unknown;

impl Start for Unknown {
    ghost first = { nothing_known };

    ghost unknown = { λ notes m. None };
}

/// It supposes that there is no file yet.
#[derive(Drop)]
pub struct NoFiles;

impl Start for NoFiles {
    ghost first = { no_files };

    ghost unknown = { λ notes m. None };
}
