//! A command is run on a station.
ghost use Rattle.std.specs.Prelude.{◌⊎◌, IsErrOf, OnOk};
ghost use Rattle.{disk_io.specs.{Disk.Honestly, Runs.ChangesNothing}, cmd_status.specs.Devices.output_of};
ghost use Rattle.station.specs.{Opening.{AreFree, HaveFailed}, Place.KeepsElsewhere, Running.{EndsSound, IsNotRun, IsRefusedFull, NeedsBase, RunsIn}};
ghost use Rattle.{base_store.specs.declared.store_error.StoreError.TheVariants.TooMany, cmd_store.specs.declared.command_error.CommandError.TheVariants.Store};

use crate::before::BeforeCommand;
use crate::locks::Locks;
use crate::opening::{OpenStation, Opened, lock_and_open};
use cmd_status::FileLock;
use cmd_store::{CommandError, StoreCommand};
use disk_io::{Disk, Sink};
use std::alloc::Global;

/// The disk after a command, and how the command ended.
#[derive(Drop)]
pub struct Ended<'a, D, A> {
    pub disk: D,
    pub done: Result<A, CommandError<'a>>,
}

/// Opens a station as a store, gives it to the program, and runs a command on it.
pub fn run_command<
    'a,
    D: Disk,
    P: OpenStation<'a, D>,
    Q: BeforeCommand<'a, P::Kept>,
    C: StoreCommand<'a>,
    L: FileLock,
    K: FileLock,
    W: Sink,
>(
    alloc: Global,
    disk: D,
    locks: &mut Locks<L, K>,
    station: P,
    before: &mut Q,
    command: &mut C,
    out: &mut W,
) -> Ended<'a, D, C::Answer>
    requires free { AreFree (L.held locks.old.links) (K.held locks.old.base) }
    requires can { Honestly (D.state disk) (P.can_open station (D.state disk)) }
    ensures locked { P.is_locked station (L.held locks.new.links) (K.held locks.new.base) ⊎ ChangesNothing (D.state disk) (D.state result.disk) }
    ensures runs { let failed = HaveFailed (D.failures disk) (D.failures result.disk) (L.failures locks.old.links) (L.failures locks.new.links) (K.failures locks.old.base) (K.failures locks.new.base) in
        Honestly (D.state result.disk) (RunsIn
        (λ file base. C.answers command.old command.new file base (output_of W.contents W.failures W.holds out.old) (output_of W.contents W.failures W.holds out.new) result.done)
        (λ file base. C.makes command.old command.new file base (output_of W.contents W.failures W.holds out.old) (output_of W.contents W.failures W.holds out.new) result.done)
        (C.may command.old command.new)
        (P.place station)
        (P.reads station (D.state disk))
        (P.is_shut station failed (D.state disk) (D.state result.disk))
        (Q.stops before.old before.new)
        failed (D.state disk) (D.state result.disk)
        (output_of W.contents W.failures W.holds out.old) (output_of W.contents W.failures W.holds out.new) result.done) }
    ensures many { Honestly (D.state result.disk) (IsErrOf result.done (Store TooMany)
        → IsRefusedFull P.Kept.state (C.commits_held command.old) (C.adds command.old) (C.may command.old command.new) (P.place station) (P.reads station (D.state disk)) (D.state disk) (D.state result.disk)) }
    ensures needs { Honestly (D.state result.disk) (NeedsBase (P.holds_base station (D.state disk).seen)
        (IsNotRun (P.place station) (P.is_shut station (HaveFailed (D.failures disk) (D.failures result.disk) (L.failures locks.old.links) (L.failures locks.new.links) (K.failures locks.old.base) (K.failures locks.new.base))
        (D.state disk) (D.state result.disk)) (D.state disk) (D.state result.disk) (output_of W.contents W.failures W.holds out.old) (output_of W.contents W.failures W.holds out.new) result.done)
        (D.state disk) (D.state result.disk) result.done) }
    ensures elsewhere { KeepsElsewhere (P.place station) (D.state disk) (D.state result.disk) }
    ensures passed { OnOk result.done (Q.lets before.old) }
    ensures undamaged { OnOk result.done (EndsSound P.Kept.state (D.state result.disk)) }
{
    match lock_and_open(alloc, disk, locks, station) {
        Ok(opened) => {
            let Opened { links, kept } = opened;
            let mut kept = kept;
            match before.prepare(&mut kept) {
                Ok(()) => {
                    let done = command.run(alloc, &links, &mut kept, out);
                    let disk = P::into_disk(kept);
                    Ended { disk, done }
                }
                Err(fault) => {
                    let disk = P::into_disk(kept);
                    Ended {
                        disk,
                        done: Err(CommandError::Met(fault)),
                    }
                }
            }
        }
        Err(stopped) => Ended {
            disk: stopped.disk,
            done: Err(CommandError::Met(stopped.fault)),
        },
    }
}
