//! One event of a replay.

ghost use Rattle.std.specs.{Prelude.{◌≡◌, ◌≢◌, ◌++◌, ◌∷◌, [], ◌<◌, length, map, Bool, true, false, None, Some, IfOk, OnOk}, List.All};
ghost use Rattle.model_steps.specs.declared.fault.PostFault.TheVariants as post_fault;
ghost use Rattle.model_run.specs.{Run.Run, Run.after_event, Run.change, Run.destination, Run.nth, Event.run_event};
ghost use Rattle.model_steps.specs.{declared.packet.Packet.Packet, SystemState.SystemState};
ghost use Rattle.echo_net.specs.Worlds.{Fits, IsWorldOf, LeadsToFirst, ScanFits, own_addresses, after_posting, after_purge, after_scan, after_toss, arrived, encoded, made, made_by, scanned_world, with_change, world_after};
ghost use Rattle.echo_net.specs.Taken.{AreTaken};
ghost use Rattle.echo_net.specs.Worlds as model;

use crate::receivers::Receivers;
use crate::world::{Exported, World};
use echo_packet::Limits;
use echo_toss::{ReplyRule, Tosser};
use model_run::Event;
use model_steps::{Draft, Packet, PostFault, ScanFault, Stamp};
use std::alloc::{AllocError, Global};
use std::hash::BuildHasher;

/// The event happens. Fails only when out of memory, and the world is then of no run.
pub(crate) fn happen<S: BuildHasher>(
    alloc: Global,
    receivers: &Receivers<S>,
    world: &mut World<S>,
    event: &Event,
) -> Result<(), AllocError>
    requires { LeadsToFirst receivers.now.first.entries (own_addresses world.old.systems) }
    ensures addresses { own_addresses world.new.systems ≡ own_addresses world.old.systems }
    ensures run { OnOk result ((run : Run) → IsWorldOf world.old run → AreTaken run → IsWorldOf world.new (after_event run (run_event event.now))) }
{
    match event {
        Event::Post {
            system,
            tag,
            draft,
            serial,
            stamp,
        } => post(world, *system, tag.as_slice(), draft, *serial, *stamp),
        Event::Scan { system, stamp } => scan(alloc, world, *system, *stamp),
        Event::Deliver { packet } => deliver(receivers, world, *packet),
        Event::Purge { system } => purge(world, *system),
    }
}

fn post<S: BuildHasher>(
    world: &mut World<S>,
    system: usize,
    tag: &[u8],
    draft: &Draft,
    serial: u32,
    stamp: Stamp,
) -> Result<(), AllocError>
    ensures addresses { own_addresses world.new.systems ≡ own_addresses world.old.systems }
    ensures posted { OnOk result (world.new ≡ with_change world.old system (after_posting tag.now draft.now serial stamp)) }
{
    if system >= world.systems.len() {
        return Ok(());
    }
    let tosser = &mut world.systems[system];
    post_at(tosser, tag, draft, serial, stamp)
}

// An event of the model may reply to each id that a REPLY line may name.
fn post_at<S: BuildHasher>(
    tosser: &mut Tosser<S>,
    tag: &[u8],
    draft: &Draft,
    serial: u32,
    stamp: Stamp,
) -> Result<(), AllocError>
    ensures file { tosser.new.file ≡ tosser.old.file }
    ensures posted { OnOk result (tosser.new ≡ after_posting tag.now draft.now serial stamp tosser.old) }
{
    match tosser.post_by(ReplyRule::AnyForm, tag, draft, serial, stamp) {
        Ok(()) => Ok(()),
        Err(fault) => unless_memory(fault),
    }
}

fn unless_memory(fault: PostFault) -> Result<(), AllocError>
    ensures { OnOk result (fault ≢ post_fault.Memory) }
{
    match fault {
        PostFault::Memory => Err(AllocError),
        PostFault::NoArea
        | PostFault::ByteZero
        | PostFault::FieldTooLong
        | PostFault::BadStamp
        | PostFault::BadReply
        | PostFault::KnownSerial => Ok(()),
    }
}

fn purge<S: BuildHasher>(world: &mut World<S>, system: usize) -> Result<(), AllocError>
    ensures addresses { own_addresses world.new.systems ≡ own_addresses world.old.systems }
    ensures purged { OnOk result (world.new ≡ with_change world.old system after_purge) }
{
    if system >= world.systems.len() {
        return Ok(());
    }
    let tosser = &mut world.systems[system];
    purge_at(tosser)
}

fn purge_at<S: BuildHasher>(tosser: &mut Tosser<S>) -> Result<(), AllocError>
    ensures file { tosser.new.file ≡ tosser.old.file }
    ensures purged { OnOk result (tosser.new ≡ after_purge tosser.old) }
{
    tosser.purge()?;
    Ok(())
}

fn scan<S: BuildHasher>(
    alloc: Global,
    world: &mut World<S>,
    system: usize,
    stamp: Stamp,
) -> Result<(), AllocError>
    ensures addresses { own_addresses world.new.systems ≡ own_addresses world.old.systems }
    ensures scanned { OnOk result (world.new ≡ scanned_world world.old system stamp (nth system world.old.systems)) }
    ensures fit { OnOk result (ScanFits stamp (nth system world.old.systems)) }
{
    if system >= world.systems.len() {
        return Ok(());
    }
    let tosser = &mut world.systems[system];
    let packets = scan_at(alloc, tosser, stamp)?;
    export(alloc, &mut world.packets, packets)
}

fn scan_at<S: BuildHasher>(
    alloc: Global,
    tosser: &mut Tosser<S>,
    stamp: Stamp,
) -> Result<Vec<Packet>, AllocError>
    ensures file { tosser.new.file ≡ tosser.old.file }
    ensures packets { IfOk result (λ packets. packets.items ≡ made_by stamp tosser.old) }
    ensures scanned { OnOk result (tosser.new ≡ after_scan stamp tosser.old) }
{
    match tosser.scan(stamp) {
        Ok(packets) => Ok(packets),
        Err(ScanFault::Memory) => Err(AllocError),
        Err(ScanFault::BadStamp) => Ok(Vec::new(alloc)),
    }
}

fn export(
    alloc: Global,
    exported: &mut Vec<Exported>,
    packets: Vec<Packet>,
) -> Result<(), AllocError>
    ensures bytes { OnOk result (exported.new.items ≡ exported.old.items ++ map made packets.items) }
    ensures fit { OnOk result (All Fits packets.items) }
{
    'packets: for packet in packets {
        export_one(alloc, exported, packet)?;
    }
    Ok(())
}

fn export_one(alloc: Global, exported: &mut Vec<Exported>, packet: Packet) -> Result<(), AllocError>
    ensures bytes { OnOk result (exported.new.items ≡ exported.old.items ++ made packet ∷ []) }
    ensures fit { OnOk result (Fits packet) }
{
    let bytes = packet.encode(alloc)?;
    exported.push(Exported::new(&packet, bytes))?;
    Ok(())
}

// A packet that arrived before is refused there or known, and changes nothing.
fn deliver<S: BuildHasher>(
    receivers: &Receivers<S>,
    world: &mut World<S>,
    packet: usize,
) -> Result<(), AllocError>
    requires { LeadsToFirst receivers.now.first.entries (own_addresses world.old.systems) }
    ensures addresses { own_addresses world.new.systems ≡ own_addresses world.old.systems }
    ensures none { OnOk result (nth packet world.old.packets ≡ None → world.new ≡ world.old) }
    ensures again { OnOk result ((e : model.Exported) → nth packet world.old.packets ≡ Some e → e.came ≡ true → world.new ≡ world.old) }
    ensures first { OnOk result ((p : Packet) → Fits p → nth packet world.old.packets ≡ Some (record { bytes = encoded p; to = destination p; came = false }) →
        world.new ≡ world_after world.old packet p) }
{
    if packet >= world.packets.len() {
        return Ok(());
    }
    let to = world.packets[packet].to();
    if world.packets[packet].came {
        return Ok(());
    }
    match receivers.of(to) {
        Some(system) => arrive(world, packet, system),
        None => Ok(()),
    }
}

fn arrive<S: BuildHasher>(
    world: &mut World<S>,
    packet: usize,
    system: usize,
) -> Result<(), AllocError>
    requires packet { packet < length world.old.packets }
    requires system { system < length world.old.systems }
    ensures addresses { own_addresses world.new.systems ≡ own_addresses world.old.systems }
    ensures came { OnOk result ((p : Packet) → Fits p → (came : Bool) → nth packet world.old.packets ≡ Some (record { bytes = encoded p; to = destination p; came = came }) →
        (s : SystemState) → nth system world.old.systems ≡ Some s → destination p ≡ s.file.system →
        world.new ≡ record { systems = change system (after_toss p) world.old.systems; packets = change packet arrived world.old.packets }) }
{
    let bytes = world.packets[packet].bytes();
    let tosser = &mut world.systems[system];
    toss_at(tosser, bytes)?;
    mark(&mut world.packets[packet]);
    Ok(())
}

fn toss_at<S: BuildHasher>(tosser: &mut Tosser<S>, bytes: &[u8]) -> Result<(), AllocError>
    ensures file { tosser.new.file ≡ tosser.old.file }
    ensures tossed { OnOk result ((p : Packet) → Fits p → bytes.now ≡ encoded p → destination p ≡ tosser.old.file.system → tosser.new ≡ after_toss p tosser.old) }
{
    let mut rest = bytes;
    match tosser.toss(&mut rest, Limits::NONE) {
        Ok(_) => Ok(()),
        Err(_) => Err(AllocError),
    }
}

fn mark(packet: &mut Exported)
    ensures { packet.new ≡ arrived packet.old }
{
    packet.came = true;
}
