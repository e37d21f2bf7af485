//! The packets by which the message of a harm reaches the system of the harm, and when these were made.

ghost use Rattle.std.specs.Prelude.{◌≡◌, ◌++◌, IfOk, OnOk, Some, None, if◌then◌else◌, nat_lt, option_copied};
ghost use Rattle.echo_filed.specs.declared.key.Key.TheVariants.{ById};
ghost use Rattle.{echo_net.specs.Worlds.{Fits, IsWorldOf, encoded}, model_run.specs.{Orderly.{copies, count, origin}, Run.{Run, nth}}};
ghost use Rattle.model_steps.specs.declared.packet.Packet.{Packet};
ghost use Rattle.cmd_why.specs.{Carrying.{crossing_at, crossings_from, found_crossings, shown_crossings, step_of, system_named}, Sources.files_of};

use crate::copies::{count_copies, is_for, parts_of};
use crate::events::events_of;
use crate::shown::{Harm, Shown};
use crate::sources::read_files;
use echo_addr::{Address, Items};
use echo_net::{World, replay_counted};
use echo_packet::Header;
use echo_verdict::Crossing;
use std::alloc::{AllocError, Global};
use std::hash::RandomState;

/// The packets that bring the message of a found run to the system that its harm names, in order. Each has the number
/// of the event that made it; the posting is the first event. None if no run was found, or its harm names no system.
/// Look-ups go by the hasher. Fails if some bytes are no link file, and when out of memory.
pub fn crossings(
    alloc: Global,
    sources: &[Items<u8>],
    tag: &[u8],
    found: Option<&Shown>,
    hasher: RandomState,
) -> Result<Vec<Crossing>, AllocError>
    ensures { IfOk result (λ all. all.items ≡ found_crossings (files_of sources.now) tag.now (option_copied found.entry)) }
{
    match found {
        Some(shown) => shown_crossings(alloc, sources, tag, shown, hasher),
        None => Ok(Vec::new(alloc)),
    }
}

fn shown_crossings(
    alloc: Global,
    sources: &[Items<u8>],
    tag: &[u8],
    shown: &Shown,
    hasher: RandomState,
) -> Result<Vec<Crossing>, AllocError>
    ensures { IfOk result (λ all. all.items ≡ shown_crossings (files_of sources.now) tag.now shown.now) }
{
    let Some(to) = system_named(shown.harm) else {
        return Ok(Vec::new(alloc));
    };
    let events = events_of(alloc, shown.poster, tag, shown.moves.as_slice())?;
    let files = read_files(alloc, sources)?;
    let (world, counts) = replay_counted(alloc, files, &events, hasher)?;
    let id = shown.id.as_slice();
    crossings_to(alloc, &world, &counts, HarmedMessage { to, tag, id })
}

fn system_named(harm: Harm) -> Option<Address>
    ensures { result ≡ system_named harm }
{
    match harm {
        Harm::SentAgain(address, _) | Harm::SentOwn(address) | Harm::NeverGets(address) => {
            Some(address)
        }
        Harm::NeverSettles => None,
    }
}

#[derive(Clone, Copy)]
struct HarmedMessage<'a> {
    to: Address,
    tag: &'a [u8],
    id: &'a [u8],
}

fn crossings_to(
    alloc: Global,
    world: &World<RandomState>,
    counts: &[usize],
    harmed: HarmedMessage<'_>,
) -> Result<Vec<Crossing>, AllocError>
    ensures { IfOk result (λ all. (run : Run) → IsWorldOf world.now run → all.items ≡ crossings_from counts.now harmed.entry.to (ById harmed.entry.tag.now harmed.entry.id.now) 0 run.packets) }
{
    let mut all = Vec::new(alloc);
    'packets: for k in 0..world.packets() {
        add_crossing(alloc, &mut all, world, counts, k, harmed)?;
    }
    Ok(all)
}

fn add_crossing(
    alloc: Global,
    all: &mut Vec<Crossing>,
    world: &World<RandomState>,
    counts: &[usize],
    k: usize,
    harmed: HarmedMessage<'_>,
) -> Result<(), AllocError>
    ensures { OnOk result ((run : Run) → IsWorldOf world.now run → (p : Packet) → nth k run.packets ≡ Some p →
        all.new.items ≡ all.old.items ++ crossing_at counts.now harmed.entry.to (ById harmed.entry.tag.now harmed.entry.id.now) k p) }
{
    let to = harmed.to;
    if !is_for(world, k, to) {
        return Ok(());
    }
    let found = sender_at(alloc, world, k, harmed.tag, harmed.id)?;
    if let Some(from) = found {
        let step = step_of(counts, k);
        all.push(Crossing { step, from, to })?;
    }
    Ok(())
}

fn sender_at(
    alloc: Global,
    world: &World<RandomState>,
    k: usize,
    tag: &[u8],
    id: &[u8],
) -> Result<Option<Address>, AllocError>
    ensures { IfOk result (λ found. (run : Run) → IsWorldOf world.now run → (p : Packet) → nth k run.packets ≡ Some p →
        found ≡ (if nat_lt 0 (count (ById tag.now id.now) (copies p)) then Some (origin p) else None)) }
{
    match world.packet(k) {
        Some(bytes) => sender_in(alloc, bytes, tag, id),
        None => Ok(None),
    }
}

fn sender_in(
    alloc: Global,
    bytes: &[u8],
    tag: &[u8],
    id: &[u8],
) -> Result<Option<Address>, AllocError>
    ensures { IfOk result (λ found. (p : Packet) → Fits p → bytes.now ≡ encoded p →
        found ≡ (if nat_lt 0 (count (ById tag.now id.now) (copies p)) then Some (origin p) else None)) }
{
    let (header, messages) = parts_of(alloc, bytes)?;
    let times = count_copies(alloc, &messages, tag, id)?;
    if times == 0 {
        return Ok(None);
    }
    Ok(Some(origin(&header)))
}

fn origin(header: &Header) -> Address
    ensures { (p : Packet) → header.now ≡ p.header → result ≡ origin p }
{
    Address {
        zone: header.orig_zone,
        net: header.orig_net,
        node: header.orig_node,
    }
}

fn step_of(counts: &[usize], k: usize) -> usize
    ensures { result ≡ step_of counts.now k }
{
    counts.iter().filter(|count| **count <= k).count() + 1
}
