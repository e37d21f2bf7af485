//! The trait that lists a station's staging files.

ghost use Rattle.std.specs.Prelude.{ℕ, IfOk};
ghost use Rattle.disk_io.specs.{Disk.Files, Runs.HasCause};
ghost use Rattle.disk_atomic.specs.ListStaged.{AreListed};

use disk_io::DiskError;
use echo_addr::Items;
use std::alloc::Global;

/// A packet that an earlier scan left in a staging file: its name, and how many messages were scanned before.
#[derive(Debug, Drop)]
pub struct StagedPacket {
    pub name: Items<u8>,
    pub before: u32,
}

/// Lists the staging files of packets.
pub trait ListStaged {
    // What it reported was true of these files.
    ghost is_true: { Self → Files → Type 0 };

    // How often the device failed: a count that stays at 2^64 - 1.
    ghost failures: { Self → ℕ };

    /// The packets that the system of this own name left in staging files of the folder. A missing folder has none.
    fn left_staged(
        &mut self,
        alloc: Global,
        folder: &[u8],
        own: &[u8],
    ) -> Result<Vec<StagedPacket>, DiskError>
        ensures listed { (files : Files) → is_true self.new files → IfOk result (λ found. AreListed folder.now own.now files found.items) }
        ensures cause { HasCause (failures self.old) (failures self.new) result };
}
