//! Theorem 6 on a disk in memory, for any kind of base: what the files hold after a command that ends well.
ghost use Rattle.std.specs.Prelude.{OnOk};
ghost use Rattle.{cmd_status.specs.Devices.output_of, disk_memory.specs.Memory.{changes_of, disk_after}, station.specs.Place.KeepsElsewhere};
ghost use Rattle.law_session.specs.Kept.{HoldsMade, PutsOut};

use crate::in_memory::{OneStaged, Quiet};
use crate::session::{FIRST_OUT, free_locks};
use cmd_store::StoreCommand;
use disk_io::Sink;
use disk_memory::MemoryDisk;
use model_steps::Stamp;
use station::{Ended, LendStation, Nothing, OpenStation, run_command};
use station_scan::{Scan, Scanned, run_scan};
use std::alloc::Global;

/// Runs a command. If it ends well, the station's files held a base, and now they hold one that the command makes of it, as
/// they are seen and after any crash.
pub fn run_on<'a, P: OpenStation<'a, MemoryDisk>, C: StoreCommand<'a>, W: Sink>(
    alloc: Global,
    disk: MemoryDisk,
    station: P,
    command: &mut C,
    out: &mut W,
) -> Ended<'a, MemoryDisk, C::Answer>
    requires { P.can_open station (disk_after (changes_of disk)) }
    ensures held { OnOk result.done (P.holds_base station (disk_after (changes_of disk)).seen) }
    ensures kept { OnOk result.done (HoldsMade (P.place station) (P.reads station (disk_after (changes_of disk)))
        (λ file base. C.makes command.old command.new file base (output_of W.contents W.failures W.holds out.old) (output_of W.contents W.failures W.holds out.new) result.done)
        (disk_after (changes_of disk)) (disk_after (changes_of result.disk))) }
    ensures elsewhere { KeepsElsewhere (P.place station) (disk_after (changes_of disk)) (disk_after (changes_of result.disk)) }
{
    run_command(
        alloc,
        disk,
        &mut free_locks(alloc),
        station,
        &mut Nothing,
        command,
        out,
    )
}

/// Runs a scan. If it ends well, its packets are out, and the files hold the base with its cursor at the end, as they are
/// seen and after any crash.
pub fn put_out<'a, P: LendStation<'a, MemoryDisk>, W: Sink>(
    alloc: Global,
    disk: MemoryDisk,
    station: P,
    stamp: Stamp,
    out: &mut W,
) -> Scanned<'a, MemoryDisk>
    requires { P.can_open station (disk_after (changes_of disk)) }
    ensures held { OnOk result.done (P.holds_base station (disk_after (changes_of disk)).seen) }
    ensures sent { OnOk result.done (PutsOut (P.place station) stamp (P.reads station (disk_after (changes_of disk))) (disk_after (changes_of disk)) (disk_after (changes_of result.disk))) }
{
    let mut scan = Scan {
        stamp,
        outbound: FIRST_OUT,
        listing: OneStaged,
        watch: &Quiet,
    };
    run_scan(
        alloc,
        disk,
        &mut free_locks(alloc),
        station,
        &mut Nothing,
        &mut scan,
        out,
    )
}
