//! The faults of an area's graph: systems apart, and cycles that are not fully linked.

ghost use Rattle.std.specs.{Prelude.{◌≡◌, ◌<◌, ◌++◌, ◌↔◌, Bool, IsTrue, IfOk, MatchOption, OnOk, Contains, drop, length, map}, List.{All, Sorted.IsStrictlySortedBy}};
ghost use Rattle.echo_addr.specs.declared.address.Address.{Address};
ghost use Rattle.model_graph.specs.{declared.polygons.Loop.Loop, Rows.linked};
ghost use Rattle.model_run.specs.Tidy.{Carries, Tidy, carries, lists};
ghost use Rattle.echo_verdict.specs.{declared.link.Link.Link, AllFaults.{Adds, AreApart, AreLoops, apart_from, loop_at}, Faults.AreInOrder, Faults.AreSoundLinks, Faults.IsFirstFault, Faults.numbered, Joining.AreSimple, Rows.system_at};

use crate::joining::{full_links, ties};
use crate::link::Link;
use crate::rows::rows;
use crate::verdict::NetFault;
use echo_addr::{Address, Items};
use echo_links::LinkFile;
use model_graph::{Graph, Loop, find_loop, find_loops, first_members, unreached};
use std::alloc::{AllocError, Global};

/// The graph of links that join different carriers both ways. Its members are the indexes of the carriers.
pub fn area_graph(alloc: Global, carriers: &[Address], links: &[Link]) -> Result<Graph, AllocError>
    requires carriers { IsStrictlySortedBy ⟦<Address as Ord>⟧.cmp carriers.now }
    requires links { IsStrictlySortedBy ⟦<Link as Ord>⟧.cmp links.now }
    requires simple { AreSimple carriers.now links.now }
    ensures members { IfOk result (λ graph. length graph ≡ length carriers.now) }
    ensures links { (joins : Address → Address → Bool) → ((l : Link) → Contains links.now l ↔ IsTrue (joins l.from l.to)) →
        IfOk result (λ graph. linked graph ≡ numbered carriers.now joins) }
{
    let rows = rows(alloc, carriers, links)?;
    Ok(Graph::new(rows))
}

/// The first fault of the graph, where there is one. The members of the graph are the places of the
/// carriers.
pub fn graph_fault(
    alloc: Global,
    files: &[LinkFile],
    tag: &[u8],
    carriers: &[Address],
    graph: &Graph,
) -> Result<Option<NetFault>, AllocError>
    requires sound { AreSoundLinks files.now tag.now }
    requires in_order { AreInOrder (Carries files.now tag.now) carriers.now }
    requires members { length graph.now ≡ length carriers.now }
    requires links { linked graph.now ≡ numbered carriers.now (lists files.now tag.now) }
    ensures { IfOk result (λ found. MatchOption found (Tidy files.now tag.now) (IsFirstFault files.now tag.now)) }
{
    let apart = unreached(alloc, graph)?;
    if let Some(place) = apart {
        return Ok(Some(NetFault::Apart(carriers[0], carriers[place])));
    }
    let round = find_loop(alloc, graph)?;
    match round {
        Some(named) => {
            let systems = systems_at(alloc, carriers, &named.round)?;
            Ok(Some(NetFault::Loop(Items::new(systems))))
        }
        None => Ok(None),
    }
}

/// The carriers at these places.
fn systems_at(
    alloc: Global,
    carriers: &[Address],
    places: &[usize],
) -> Result<Vec<Address>, AllocError>
    requires { All (λ place. place < length carriers.now) places.now }
    ensures { IfOk result (λ systems. systems.items ≡ map (system_at carriers.now) places.now) }
{
    places.iter().map(|place| carriers[*place]).collect(alloc)
}

/// Adds for each part of the area, by its ties, but the one of the smallest carrier that it is apart from this one.
pub fn push_apart(
    alloc: Global,
    all: &mut Vec<NetFault>,
    files: &[LinkFile],
    tag: &[u8],
    carriers: &[Address],
    links: &[Link],
) -> Result<(), AllocError>
    requires carriers { IsStrictlySortedBy ⟦<Address as Ord>⟧.cmp carriers.now }
    requires links { IsStrictlySortedBy ⟦<Link as Ord>⟧.cmp links.now }
    requires members { (a : Address) → Contains carriers.now a ↔ IsTrue (carries files.now tag.now a) }
    requires listed { (l : Link) → Contains links.now l ↔ IsTrue (lists files.now tag.now l.from l.to) }
    ensures { OnOk result (Adds (AreApart files.now tag.now) all.old.items all.new.items) }
{
    let ties = ties(alloc, carriers, links)?;
    let graph = area_graph(alloc, carriers, &ties)?;
    let firsts = first_members(alloc, &graph)?;
    let parts = systems_at(alloc, carriers, &firsts)?;
    push_others(all, &parts)
}

/// Adds for each of these systems but the first that it is apart from the first.
fn push_others(all: &mut Vec<NetFault>, parts: &[Address]) -> Result<(), AllocError>
    ensures { OnOk result (all.new.items ≡ all.old.items ++ map (apart_from (system_at parts.now 0)) (drop 1 parts.now)) }
{
    if parts.is_empty() {
        return Ok(());
    }
    let first = parts[0];
    let (_, others) = parts.split_at(1);
    push_each_apart(all, first, others)
}

fn push_each_apart(
    all: &mut Vec<NetFault>,
    first: Address,
    others: &[Address],
) -> Result<(), AllocError>
    ensures { OnOk result (all.new.items ≡ all.old.items ++ map (apart_from first) others.now) }
{
    'others: for system in others {
        all.push(NetFault::Apart(first, *system))?;
    }
    Ok(())
}

/// Adds the loop of each block of the area, by its full links, that has one.
pub fn push_loops(
    alloc: Global,
    all: &mut Vec<NetFault>,
    files: &[LinkFile],
    tag: &[u8],
    carriers: &[Address],
    links: &[Link],
) -> Result<(), AllocError>
    requires carriers { IsStrictlySortedBy ⟦<Address as Ord>⟧.cmp carriers.now }
    requires links { IsStrictlySortedBy ⟦<Link as Ord>⟧.cmp links.now }
    requires members { (a : Address) → Contains carriers.now a ↔ IsTrue (carries files.now tag.now a) }
    requires listed { (l : Link) → Contains links.now l ↔ IsTrue (lists files.now tag.now l.from l.to) }
    ensures { OnOk result (Adds (AreLoops files.now tag.now) all.old.items all.new.items) }
{
    let full = full_links(alloc, links)?;
    let graph = area_graph(alloc, carriers, &full)?;
    let loops = find_loops(alloc, &graph)?;
    push_rounds(alloc, all, carriers, &loops)
}

/// Adds these loops, whose members are places of carriers.
fn push_rounds(
    alloc: Global,
    all: &mut Vec<NetFault>,
    carriers: &[Address],
    loops: &[Loop],
) -> Result<(), AllocError>
    requires { All (λ (found : Loop). All (λ place. place < length carriers.now) found.round.items) loops.now }
    ensures { OnOk result (all.new.items ≡ all.old.items ++ map (loop_at carriers.now) loops.now) }
{
    'loops: for found in loops {
        let systems = systems_at(alloc, carriers, &found.round)?;
        all.push(NetFault::Loop(Items::new(systems)))?;
    }
    Ok(())
}
