//! The trait of a file's lock.

ghost use Rattle.std.specs.Prelude.{◌≡◌, ℕ, List, Option, Some, None, OnErr, OnOk};
ghost use Rattle.disk_io.specs.Runs.{HasCause};

use disk_io::DiskError;

/// The lock of one file. Other runs that need it wait until the value is dropped: no call releases it earlier. A run
/// that makes a missing base file holds the lock of its folder, which counts as the lock of that base file.
pub trait FileLock {
    // The path of the locked file, if there is one.
    ghost held: { Self → Option (List ℕ) };

    // How often the device failed: a count that stays at 2^64 - 1.
    ghost failures: { Self → ℕ };

    /// Takes the lock of the file with this path, once no other run holds it. Other runs may change files before
    /// that. So nothing may be read until it is taken.
    fn lock(&mut self, path: &[u8]) -> Result<(), DiskError>
        requires { held self.old ≡ None }
        ensures taken { OnOk result (held self.new ≡ Some path.now) }
        ensures refused { OnErr result (held self.new ≡ None) }
        ensures cause { HasCause (failures self.old) (failures self.new) result };
}
