//! The traits of packet files: their names, and how large ones are read.

ghost use Rattle.std.specs.Prelude.{◌≡◌, ℕ, Bool, true, false, List, IfErr, IfOk};
ghost use Rattle.cmd_status.specs.Ended.{IsCannotUse};

use crate::fault::Fault;
use disk_io::Source;

/// The name of a packet file.
pub trait PacketName {
    // The path, as it is printed.
    ghost path: { Self → List ℕ };

    // Whether a file can have the path.
    ghost is_usable: { Self → Bool };

    /// The path to open.
    fn path(&self) -> Result<&str, Fault<'_>>
        ensures path { IfOk result (λ found. (is_usable self.now ≡ true) × (found.now ≡ path self.now)) }
        ensures none { IfErr result (λ fault. (is_usable self.now ≡ false) × IsCannotUse (path self.now) fault) };
}

/// Reads packet files that are too large to be held in memory, and reports progress. Packet files have numbers from 1 on.
pub trait StreamPackets<'a> {
    type Reader: Source + Drop;

    /// Opens the packet file of this number and path, to be read piece by piece.
    fn open(&self, number: usize, path: &'a str) -> Result<Self::Reader, Fault<'a>>;

    /// The packet file of this number was read whole.
    fn tell(&self, number: usize);
}
