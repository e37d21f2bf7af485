//! A pass over the messages of a store: packets are counted, and their copies are written while they are read.
ghost use Rattle.std.specs.Prelude.{◌≡◌, ◌⊎◌, ◌++◌, [], List, All, IfErr, IfOk, IsErrOf, OnOk, map};
ghost use Rattle.{base_file.specs.Base.Base, disk_io.specs.Disk.Honestly};
ghost use Rattle.{disk_atomic.specs.Publishing.HasPlacingCause, echo_steps.specs.Exports.OutgoingMessage as Sent};
ghost use Rattle.station_scan.specs.Passing.{AreTakenTo, CanSend, HasPassed, HasStaged, IsBetween, IsMaking, IsPartOf, IsTakenFor, begun_in, copied_in, with_group};
ghost use Rattle.station_scan.specs.{Fitting.IsOff, Writing.HasStopCause};
ghost use Rattle.disk_atomic.specs.declared.placing_error.PlacingError.TheVariants as placing;

use crate::counting::{LinkPacket, begun_of, copied_of, packets_with};
use crate::fitting::are_off_own;
use crate::jobs::AppendGroup;
use crate::reported::ReportedStore;
use crate::sending::Sending;
use base_store::{Store, StoreError};
use cmd_status::MessageProgress;
use disk_atomic::{Outgoing, PlacingError};
use disk_io::Disk;
use echo_steps::{Group, gather_group};
use station::{LendStation, OwnPaths};
use std::alloc::Global;

/// Why a pass stopped: a message was not read, or a packet was not written.
#[derive(Clone, Copy, Debug)]
pub(crate) enum PassStop {
    Reading(StoreError),
    Placing(PlacingError),
}

// The packets with the copies of a group: those that begin with it, and those that get copies of it.
#[derive(Drop)]
struct Going<'p> {
    pub counted: Vec<LinkPacket<'p>>,
    pub begun: Vec<Outgoing<'p>>,
    pub copied: Vec<Outgoing<'p>>,
}

impl From<StoreError> for PassStop {
    ghost use Rattle.std.specs.Prelude.{◌≡◌};
    ghost use Rattle.station_scan.specs.declared.passing.PassStop.TheVariants.{Reading};

    ghost from_gives = { λ cause e. e ≡ Reading cause };

    fn from(cause: StoreError) -> PassStop {
        PassStop::Reading(cause)
    }
}

impl From<PlacingError> for PassStop {
    ghost use Rattle.std.specs.Prelude.{◌≡◌};
    ghost use Rattle.station_scan.specs.declared.passing.PassStop.TheVariants.{Placing};

    ghost from_gives = { λ cause e. e ≡ Placing cause };

    fn from(cause: PlacingError) -> PassStop {
        PassStop::Placing(cause)
    }
}

// Counts the group, and judges the paths of the packets that begin with it.
fn going_of<'p, O: OwnPaths>(
    alloc: Global,
    own: &O,
    trial: &[u8],
    packets: &[LinkPacket<'p>],
    group: &Group,
) -> Result<Going<'p>, PlacingError>
    ensures counted { IfOk result (λ going. going.counted.items ≡ map (with_group group.now.sent) packets.now) }
    ensures begun { IfOk result (λ going. going.begun.items ≡ begun_in going.counted.items) }
    ensures copied { IfOk result (λ going. going.copied.items ≡ copied_in going.counted.items) }
    ensures off { IfOk result (λ going. All (IsOff (O.is_own own.now) trial.now) going.begun.items) }
    ensures err { IfErr result (λ why. (why ≡ placing.Memory) ⊎ ((why ≡ placing.Taken) × (All (IsOff (O.is_own own.now) trial.now) (begun_in (map (with_group group.now.sent) packets.now)) → ⊥))) }
{
    let counted = packets_with(alloc, packets, group)?;
    let begun = begun_of(alloc, &counted)?;
    if !are_off_own(own, trial, &begun) {
        return Err(PlacingError::Taken);
    }
    let copied = copied_of(alloc, &counted)?;
    Ok(Going {
        counted,
        begun,
        copied,
    })
}

// Counts the group, and writes its copies.
fn add_group<'a, 'p, D: Disk, P: LendStation<'a, D>>(
    alloc: Global,
    store: &mut P::Kept,
    paths: &P::Paths,
    sending: Sending<'p>,
    packets: &mut Vec<LinkPacket<'p>>,
    group: &Group,
) -> Result<(), PlacingError>
    requires ready { CanSend (P.Paths.is_own paths.now) sending (P.Kept.state store.old) }
    requires making { (sent : List Sent) × IsMaking (P.Paths.is_own paths.now) sending sent (P.Kept.state store.old).disk packets.old.items }
    ensures stages { (sent : List Sent) → IsMaking (P.Paths.is_own paths.now) sending.entry sent (P.Kept.state store.old).disk packets.old.items
        → HasStaged (P.Paths.is_own paths.now) sending.entry (IsBetween sent (sent ++ group.now.sent)) (P.Kept.state store.old) (P.Kept.state store.new) packets.new.items }
    ensures making { (sent : List Sent) → IsMaking (P.Paths.is_own paths.now) sending.entry sent (P.Kept.state store.old).disk packets.old.items
        → OnOk result (IsMaking (P.Paths.is_own paths.now) sending.entry (sent ++ group.now.sent) (P.Kept.state store.new).disk packets.new.items) }
    ensures taken { Honestly (P.Kept.state store.new).disk (IsErrOf result PlacingError.Taken → (sent : List Sent) → IsMaking (P.Paths.is_own paths.now) sending.entry sent (P.Kept.state store.old).disk packets.old.items
        → AreTakenTo (P.Paths.is_own paths.now) sending.entry (sent ++ group.now.sent) (P.Kept.state store.old).disk.seen) }
    ensures undamaged { OnOk result ((P.Kept.state store.old).is_sound → (P.Kept.state store.new).is_sound) }
    ensures cause { HasPlacingCause (P.Kept.failures store.old) (P.Kept.failures store.new) result }
{
    let going = going_of(alloc, paths, sending.trial, packets, group)?;
    *packets = going.counted;
    let copied = going.copied.as_slice();
    if copied.is_empty() {
        return Ok(());
    }
    let begun = going.begun.as_slice();
    let job = AppendGroup {
        sending,
        copied,
        begun,
        group,
    };
    P::with_disk(alloc, store, &job)
}

/// Goes over the messages, and writes their copies. It updates the counts of the packets.
pub(crate) fn pass_on<'a, 'p, D: Disk, P: LendStation<'a, D>, T: MessageProgress>(
    alloc: Global,
    store: &mut ReportedStore<'_, P::Kept, T>,
    paths: &P::Paths,
    sending: Sending<'p>,
    packets: &mut Vec<LinkPacket<'p>>,
) -> Result<(), PassStop>
    requires ready { CanSend (P.Paths.is_own paths.now) sending (P.Kept.state store.old.store) }
    requires begins { IsMaking (P.Paths.is_own paths.now) sending [] (P.Kept.state store.old.store).disk packets.old.items }
    ensures staged { HasStaged (P.Paths.is_own paths.now) sending.entry (IsPartOf sending.entry (P.Kept.state store.old.store) (P.Kept.state store.new.store)) (P.Kept.state store.old.store) (P.Kept.state store.new.store) packets.new.items }
    ensures passed { OnOk result (HasPassed (P.Paths.is_own paths.now) sending.entry (P.Kept.state store.old.store) (P.Kept.state store.new.store) packets.new.items) }
    ensures taken { Honestly (P.Kept.state store.new.store).disk (IsErrOf result (PassStop.Placing PlacingError.Taken) → (base : Base) → (P.Kept.state store.old.store).keeps base
        → IsTakenFor (P.Paths.is_own paths.now) sending.entry base (P.Kept.state store.old.store).disk.seen) }
    ensures undamaged { OnOk result ((P.Kept.state store.old.store).is_sound → (P.Kept.state store.new.store).is_sound) }
    ensures cause { HasStopCause P.Kept.state (P.Kept.state store.old.store) (P.Kept.state store.new.store) (P.Kept.failures store.old.store) (P.Kept.failures store.new.store) result }
{
    let links = sending.source.links;
    let mut at = sending.source.from;
    let mut end = store.len();
    'groups: while at < end {
        let group = gather_group(alloc, links, store, at, end)?;
        add_group::<D, P>(alloc, &mut store.store, paths, sending, packets, &group)?;
        at = group.next();
        end = store.len();
    }
    Ok(())
}
