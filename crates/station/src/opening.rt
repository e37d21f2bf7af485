//! The trait of a kind of station.
ghost use Rattle.std.specs.Prelude.{◌≡◌, ◌⊎◌, ℕ, List, Option, IfErr, IfOk, OnOk};
ghost use Rattle.disk_io.specs.{Disk.{DiskState, Files, Honestly}, Runs.ChangesNothing};
ghost use Rattle.{echo_links.specs.Links.LinkFile as TheLinks, cmd_status.specs.declared.fault.Fault.Fault as TheFault};
ghost use Rattle.station.specs.{Opening.{AreFree, HaveFailed, IsNotOpened, IsOpened}, Place.Place};

use crate::locks::Locks;
use base_store::PurgedStore;
use cmd_status::{Fault, FileLock};
use disk_io::Disk;
use echo_links::LinkFile;
use std::alloc::Global;

/// The link file of a station, and its base as a store.
#[derive(Drop)]
pub struct Opened<T> {
    pub links: LinkFile,
    pub kept: T,
}

/// The disk, and why the station is not open on it.
#[derive(Drop)]
pub struct Stopped<'a, D> {
    pub disk: D,
    pub fault: Fault<'a>,
}

/// A kind of station: how it is opened as a store.
pub trait OpenStation<'a, D: Disk>: Drop {
    type Kept: PurgedStore;

    // Which files hold which base, and which paths belong to it.
    ghost place: { Self → Place };

    // These files hold a base of this kind, or none is there yet.
    ghost holds_base: { Self → Files → Type 0 };

    // The premise of an honest disk.
    ghost can_open: { Self → DiskState → Type 0 };

    // The locked files are those that it needs.
    ghost is_locked: { Self → Option (List ℕ) → Option (List ℕ) → Type 0 };

    // The link file that the disk showed.
    ghost reads: { Self → DiskState → TheLinks → Type 0 };

    // Why it is not opened: whether a device failed, and the disk before and now.
    ghost is_shut: { Self → Type 0 → DiskState → DiskState → TheFault → Type 0 };

    /// Takes the locks, that of the link file first. Each call of a disk needs it alone, so none is made before that.
    fn lock<L: FileLock, K: FileLock>(
        &self,
        disk: &D,
        locks: &mut Locks<L, K>,
    ) -> Result<(), Fault<'a>>
        requires { AreFree (L.held locks.old.links) (K.held locks.old.base) }
        ensures both { OnOk result (is_locked self.now (L.held locks.new.links) (K.held locks.new.base)) }
        ensures shut { IfErr result (is_shut self.now
            (HaveFailed (D.failures disk.now) (D.failures disk.now) (L.failures locks.old.links) (L.failures locks.new.links) (K.failures locks.old.base) (K.failures locks.new.base))
            (D.state disk.now) (D.state disk.now)) };

    /// Under the locks, reads the link file and opens the base as a store.
    fn open<L: FileLock, K: FileLock>(
        self,
        alloc: Global,
        disk: D,
        locks: &Locks<L, K>,
    ) -> Result<Opened<Self::Kept>, Stopped<'a, D>>
        requires locked { is_locked self (L.held locks.now.links) (K.held locks.now.base) }
        requires can { Honestly (D.state disk) (can_open self (D.state disk)) }
        ensures opened { IfOk result (λ opened. IsOpened (place self) (reads self (D.state disk)) (D.state disk) (D.failures disk) (Self.Kept.failures opened.kept)
            (Self.Kept.state opened.kept) opened.links) }

        // Whatever the counts of the locks were before and after they were taken.
        ensures stopped { (links links_now base base_now : ℕ) → IfErr result (λ stopped. IsNotOpened (place self) (is_shut self
            (HaveFailed (D.failures disk) (D.failures stopped.disk) links links_now base base_now)
            (D.state disk) (D.state stopped.disk)) (D.state disk) (D.state stopped.disk) stopped.fault) }
        ensures whole { IfOk result (λ opened. Honestly (Self.Kept.state opened.kept).disk (holds_base self (D.state disk).seen)) }
        ensures untouched { IfErr result (λ stopped. Honestly (D.state stopped.disk) ((holds_base self (D.state disk).seen → ⊥) → ChangesNothing (D.state disk) (D.state stopped.disk))) };

    /// The disk, taken out of the store.
    fn into_disk(kept: Self::Kept) -> D
        ensures quiet { ChangesNothing (Self.Kept.state kept).disk (D.state result) }
        ensures failures { D.failures result ≡ Self.Kept.failures kept };
}

/// Takes the locks of a station, and then opens it.
pub fn lock_and_open<'a, D: Disk, P: OpenStation<'a, D>, L: FileLock, K: FileLock>(
    alloc: Global,
    disk: D,
    locks: &mut Locks<L, K>,
    station: P,
) -> Result<Opened<P::Kept>, Stopped<'a, D>>
    requires free { AreFree (L.held locks.old.links) (K.held locks.old.base) }
    requires can { Honestly (D.state disk) (P.can_open station (D.state disk)) }
    ensures both { OnOk result (P.is_locked station (L.held locks.new.links) (K.held locks.new.base)) }
    ensures locked { IfErr result (λ stopped. P.is_locked station (L.held locks.new.links) (K.held locks.new.base) ⊎ ChangesNothing (D.state disk) (D.state stopped.disk)) }
    ensures opened { IfOk result (λ opened. IsOpened (P.place station) (P.reads station (D.state disk)) (D.state disk) (D.failures disk) (P.Kept.failures opened.kept)
        (P.Kept.state opened.kept) opened.links) }
    ensures stopped { IfErr result (λ stopped. IsNotOpened (P.place station) (P.is_shut station
        (HaveFailed (D.failures disk) (D.failures stopped.disk) (L.failures locks.old.links) (L.failures locks.new.links) (K.failures locks.old.base) (K.failures locks.new.base))
        (D.state disk) (D.state stopped.disk)) (D.state disk) (D.state stopped.disk) stopped.fault) }
    ensures whole { IfOk result (λ opened. Honestly (P.Kept.state opened.kept).disk (P.holds_base station (D.state disk).seen)) }
    ensures untouched { IfErr result (λ stopped. Honestly (D.state stopped.disk) ((P.holds_base station (D.state disk).seen → ⊥) → ChangesNothing (D.state disk) (D.state stopped.disk))) }
{
    match station.lock(&disk, locks) {
        Ok(()) => station.open(alloc, disk, locks),
        Err(fault) => Err(Stopped { disk, fault }),
    }
}
