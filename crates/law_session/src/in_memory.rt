//! What a session needs beside its disk.
ghost use Rattle.{disk_memory.specs.Memory.file_of, law_session.specs.Session.{ListsNone, ListsOne}};

use crate::session::{FIRST_OUT, SECOND_OUT, STAGED};
use cmd_status::{FileLock, MessageProgress};
use disk_atomic::{ListStaged, StagedPacket};
use disk_io::DiskError;
use echo_addr::Items;
use std::alloc::Global;

/// A lock of which no other run knows.
#[derive(Drop)]
pub struct MemoryLock {
    alloc: Global,
    held: Option<Vec<u8>>,
}

impl MemoryLock {
    ghost use Rattle.std.specs.Prelude.{◌≡◌, None};
    ghost use Rattle.law_session.specs.Session.{held_by};

    pub fn new(alloc: Global) -> MemoryLock
        ensures { held_by result ≡ None }
    {
        MemoryLock { alloc, held: None }
    }
}

impl FileLock for MemoryLock {
    ghost held = { λ lock. file_of lock.held };

    ghost failures = { λ _. 0 };

    fn lock(&mut self, path: &[u8]) -> Result<(), DiskError> {
        self.held = Some(path.to_vec(self.alloc)?);
        Ok(())
    }
}

/// The list of what a stopped scan left in the folder of the first station: one packet. It fails for another folder.
#[derive(Clone, Copy, Debug, Drop)]
pub struct OneStaged;

impl ListStaged for OneStaged {
    ghost is_true = { λ _ files. ListsOne files };

    ghost failures = { λ _. 0 };

    fn left_staged(
        &mut self,
        alloc: Global,
        folder: &[u8],
        _own: &[u8],
    ) -> Result<Vec<StagedPacket>, DiskError> {
        if folder != FIRST_OUT {
            return Err(DiskError::Memory);
        }
        let mut found = Vec::new(alloc);
        found.push(StagedPacket {
            name: Items::new(STAGED.to_vec(alloc)?),
            before: 0,
        })?;
        Ok(found)
    }
}

/// The list of earlier packets in the folder of the second station: there are none. It fails for another folder.
#[derive(Clone, Copy, Debug, Drop)]
pub struct NoneStaged;

impl ListStaged for NoneStaged {
    ghost is_true = { λ _ files. ListsNone files };

    ghost failures = { λ _. 0 };

    fn left_staged(
        &mut self,
        alloc: Global,
        folder: &[u8],
        _own: &[u8],
    ) -> Result<Vec<StagedPacket>, DiskError> {
        if folder != SECOND_OUT {
            return Err(DiskError::Memory);
        }
        Ok(Vec::new(alloc))
    }
}

/// Reports no progress.
#[derive(Clone, Copy, Debug, Drop)]
pub struct Quiet;

impl MessageProgress for Quiet {
    fn tell(&self, _place: usize, _messages: usize) {}
}
