//! The trait of a disk that a crash may cut short.

ghost use Rattle.std.specs.Prelude.{◌≡◌, ◌≢◌, ◌≤◌, ◌<◌, ◌↔◌, ℕ, List, [], length, take, drop, true, false, IsTrue, IfOk, OnOk, IsSome, Some, None};
ghost use Rattle.disk_io.specs.{Disk.DiskState, Disk.Honestly, Disk.bytes_in, Disk.IsFolder, Disk.IsIn, Runs.NoPath, Runs.ThisPath, Runs.EitherPath, Runs.ChangesAt, Runs.ChangesNothing, Runs.HasCause, Steps.IsWrittenAt, Steps.TornWrite, Steps.TornMaking, Steps.TornRemoval, Steps.TornNaming, Steps.ChangesFile, Steps.RenamesFile};

use crate::disk_error::DiskError;

/// Files by their paths, which a crash may cut short. A path begins with its folder's path, which ends in a slash or
/// is empty. A fault of the device is answered only where `failures` rose. After a failed call only what a crash may
/// leave is known, and that a failed link keeps a file that had the path.
///
/// Answers and preconditions about files hold only if the disk was honest until then: files that others change may
/// answer anything.
pub trait Disk {
    // The files that the disk shows, and those that a crash may leave.
    ghost state: { Self → DiskState };

    // How often the device failed: a count that stays at 2^64 - 1.
    ghost failures: { Self → ℕ };

    fn exists(&mut self, path: &[u8]) -> Result<bool, DiskError>
        ensures found { Honestly (state self.new) (IfOk result (λ found. IsTrue found ↔ IsSome ((state self.old).seen path.now))) }
        ensures quiet { ChangesNothing (state self.old) (state self.new) }
        ensures cause { HasCause (failures self.old) (failures self.new) result };

    fn len(&mut self, path: &[u8]) -> Result<usize, DiskError>
        requires { Honestly (state self.old) (IsSome ((state self.old).seen path.now)) }
        ensures len { Honestly (state self.new) (IfOk result (λ len. len ≡ length (bytes_in ((state self.old).seen path.now)))) }
        ensures quiet { ChangesNothing (state self.old) (state self.new) }
        ensures cause { HasCause (failures self.old) (failures self.new) result };

    /// Reads some bytes of the file from `at` on: none only at its end, or where `buf` is empty.
    fn read_at(&mut self, path: &[u8], at: usize, buf: &mut [u8]) -> Result<usize, DiskError>
        requires { Honestly (state self.old) (IsSome ((state self.old).seen path.now)) }
        ensures bound { IfOk result (λ count. count ≤ length buf.new) }
        ensures bytes { Honestly (state self.new) (IfOk result (λ count. take count buf.new ≡ take count (drop at (bytes_in ((state self.old).seen path.now))))) }
        ensures within { Honestly (state self.new) (IfOk result (λ count. count ≤ length (drop at (bytes_in ((state self.old).seen path.now))))) }
        ensures some { Honestly (state self.new) (0 < length buf.new → IfOk result (λ count. count ≡ 0 → drop at (bytes_in ((state self.old).seen path.now)) ≡ [])) }
        ensures quiet { ChangesNothing (state self.old) (state self.new) }
        ensures cause { HasCause (failures self.old) (failures self.new) result };

    /// Writes over old bytes, and past the end. Until the file is synced, a crash may leave any
    /// bytes in the written range.
    fn write_at(&mut self, path: &[u8], at: usize, bytes: &[u8]) -> Result<(), DiskError>
        requires there { Honestly (state self.old) (IsSome ((state self.old).seen path.now)) }
        requires within { Honestly (state self.old) (at ≤ length (bytes_in ((state self.old).seen path.now))) }
        requires alone { Honestly (state self.old) ((state self.old).is_alone path.now) }
        ensures there { IsSome ((state self.new).seen path.now) }
        ensures written { OnOk result (IsWrittenAt (bytes_in ((state self.old).seen path.now)) at bytes.now (bytes_in ((state self.new).seen path.now))) }
        ensures changes { ChangesAt (ThisPath path.now) NoPath NoPath (ChangesFile (state self.old) path.now (TornWrite at (length bytes.now))) (state self.old) (state self.new) }
        ensures cause { HasCause (failures self.old) (failures self.new) result };

    /// Makes an empty new file instead of the present one. Other paths keep their files.
    fn create(&mut self, path: &[u8]) -> Result<(), DiskError>
        ensures made { OnOk result ((state self.new).seen path.now ≡ Some []) }
        ensures own { OnOk result ((state self.new).is_alone path.now) }
        ensures changes { ChangesAt (ThisPath path.now) (ThisPath path.now) (ThisPath path.now) (ChangesFile (state self.old) path.now TornMaking) (state self.old) (state self.new) }
        ensures cause { HasCause (failures self.old) (failures self.new) result };

    /// Gives a file another path, and replaces the file that had it. The file's bytes have to be on the disk.
    fn rename(&mut self, from: &[u8], to: &[u8]) -> Result<(), DiskError>
        requires there { Honestly (state self.old) (IsSome ((state self.old).seen from.now)) }
        requires durable { Honestly (state self.old) ((state self.old).is_flushed from.now) }
        requires other { from.now ≢ to.now }
        ensures moved { OnOk result ((state self.new).seen to.now ≡ (state self.old).seen from.now) }
        ensures gone { OnOk result ((state self.new).seen from.now ≡ None) }
        ensures kept { OnOk result ((state self.new).is_flushed to.now) }
        ensures changes { ChangesAt (EitherPath from.now to.now) (EitherPath from.now to.now) (EitherPath from.now to.now) (RenamesFile (state self.old) from.now to.now) (state self.old) (state self.new) }
        ensures cause { HasCause (failures self.old) (failures self.new) result };

    /// Gives a file a second path, or answers `false` where that path has a file already. The
    /// file's bytes have to be on the disk. Neither path may be written to while both exist.
    fn link(&mut self, from: &[u8], to: &[u8]) -> Result<bool, DiskError>
        requires there { Honestly (state self.old) (IsSome ((state self.old).seen from.now)) }
        requires durable { Honestly (state self.old) ((state self.old).is_flushed from.now) }
        ensures linked { IfOk result (λ linked. linked ≡ true → (state self.new).seen to.now ≡ (state self.old).seen from.now) }
        ensures free { Honestly (state self.new) (IfOk result (λ linked. IsTrue linked ↔ ((state self.old).seen to.now ≡ None))) }
        ensures taken { IfOk result (λ linked. linked ≡ false → (state self.new).seen to.now ≡ (state self.old).seen to.now) }
        ensures over { Honestly (state self.new) (IsSome ((state self.old).seen to.now) → (state self.new).seen to.now ≡ (state self.old).seen to.now) }
        ensures kept { IfOk result (λ linked. linked ≡ true → (state self.new).is_flushed to.now) }
        ensures changes { ChangesAt (ThisPath to.now) (ThisPath to.now) (EitherPath from.now to.now) (ChangesFile (state self.old) to.now (TornNaming ((state self.old).seen from.now))) (state self.old) (state self.new) }
        ensures cause { HasCause (failures self.old) (failures self.new) result };

    fn remove(&mut self, path: &[u8]) -> Result<(), DiskError>
        requires { Honestly (state self.old) (IsSome ((state self.old).seen path.now)) }
        ensures gone { OnOk result ((state self.new).seen path.now ≡ None) }
        ensures changes { ChangesAt (ThisPath path.now) (ThisPath path.now) (ThisPath path.now) (ChangesFile (state self.old) path.now TornRemoval) (state self.old) (state self.new) }
        ensures cause { HasCause (failures self.old) (failures self.new) result };

    /// After it the bytes of the file are on the disk; its name may not be.
    fn sync(&mut self, path: &[u8]) -> Result<(), DiskError>
        requires { Honestly (state self.old) (IsSome ((state self.old).seen path.now)) }
        ensures durable { OnOk result ((state self.new).is_flushed path.now) }
        ensures quiet { ChangesNothing (state self.old) (state self.new) }
        ensures cause { HasCause (failures self.old) (failures self.new) result };

    /// Syncs the folder. Each path in it then leads on the disk to its present file, or to none.
    fn sync_folder(&mut self, folder: &[u8]) -> Result<(), DiskError>
        requires { IsFolder folder.now }
        ensures durable { OnOk result ((m : List ℕ) → IsIn folder.now m → (state self.new).is_named m) }
        ensures gone { OnOk result ((m : List ℕ) → IsIn folder.now m → (state self.new).seen m ≡ None → (state self.new).is_flushed m) }
        ensures quiet { ChangesNothing (state self.old) (state self.new) }
        ensures cause { HasCause (failures self.old) (failures self.new) result };
}
