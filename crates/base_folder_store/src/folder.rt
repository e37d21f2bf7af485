//! An open base folder: its log, its extents and what is in memory of them.

ghost use Rattle.std.specs.Prelude.{◌≡◌, ◌/◌, IfOk};
ghost use Rattle.disk_io.specs.{Disk.Honestly, Runs.HasCause, Runs.LeavesOnly};
ghost use Rattle.base_log.specs.{Moments.KeepsOutside, Opening.AreAlone, Opening.RepresentsOrWasLeft, Standing.base_at};
ghost use Rattle.base_folder_store.specs.Opened.{IsFresh, IsLogOfBase, IsOpen, held_by};

use crate::waiting::Waiting;
use base_log::{CommitRecord, End, Log, Names, open};
use disk_io::{Disk, DiskError};
use std::alloc::Global;

/// How many bytes of the keys belong to one message.
pub(crate) const ENTRY: usize = 16;

/// What is known of the files: the log's end, the record of a next commit, the size of the keys, the waiting messages.
#[derive(Drop)]
pub struct Folder {
    pub(crate) names: Names,
    pub(crate) end: End,
    pub(crate) recorded: CommitRecord,
    // How many bytes the keys have, with those that wait.
    pub(crate) keys: usize,
    pub(crate) waiting: Waiting,
}

impl Folder {
    /// Opens a base folder that holds a base, with its log as it was read. Missing files are made. A path ends in a
    /// slash, or is empty. A faulty message is reported when it is read.
    pub fn open<D: Disk>(
        alloc: Global,
        disk: &mut D,
        path: &[u8],
        log: &Log,
    ) -> Result<Folder, DiskError>
        requires alone { Honestly (D.state disk.old) (AreAlone path.now (D.state disk.old)) }
        requires log { IsLogOfBase (D.state disk.old) path.now log.now }
        ensures opened { Honestly (D.state disk.new) (IfOk result (IsOpen (D.state disk.new))) }
        ensures fresh { IfOk result (IsFresh path.now) }
        ensures end { IfOk result (λ folder. folder.end ≡ log.now.end) }
        ensures found { Honestly (D.state disk.new) (IfOk result (λ folder. held_by (D.state disk.new) folder ≡ base_at (D.state disk.old) path.now log.now.end.recorded)) }

        ensures any_moment { Honestly (D.state disk.new) (LeavesOnly (D.state disk.old) (D.state disk.new)
            (RepresentsOrWasLeft path.now (D.state disk.old) (base_at (D.state disk.old) path.now log.now.end.recorded))) }
        ensures outside { KeepsOutside path.now (D.state disk.old) (D.state disk.new) }
        ensures cause { HasCause (D.failures disk.old) (D.failures disk.new) result }
    {
        let names = Names::new(alloc, path, log.end.recorded.number)?;
        open(alloc, disk, &names, log)?;
        let waiting = Waiting::new(alloc);
        Ok(Folder {
            names,
            end: log.end,
            recorded: log.end.recorded,
            keys: log.end.recorded.keys,
            waiting,
        })
    }

    /// How many messages it has.
    pub fn count(&self) -> usize
        ensures { result ≡ self.now.keys / 16 }
    {
        self.keys / ENTRY
    }

    /// How many of them, from the front, were scanned.
    pub fn cursor(&self) -> usize
        ensures { result ≡ self.now.recorded.cursor }
    {
        self.recorded.cursor as usize
    }
}
