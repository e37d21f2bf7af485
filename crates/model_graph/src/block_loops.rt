//! A loop for each block of a graph. Which blocks there are is not proved: each loop is tested, and if no block has one, the
//! graph is searched as a whole.

ghost use Rattle.std.specs.{Prelude.{◌≡◌, ◌<◌, IfOk, IsTrue, List, MatchOption, [], length}, List.All};
ghost use Rattle.model_graph.specs.{declared.polygons.Loop.Loop, Cycle.Polygons, Loops.{AreRingLinks, HasUnlinked, IsIncompleteCycle}, Rows.linked, Walk.Different};

use crate::blocks::{BlockLists, Blocks, block_lists, value_or};
use crate::division::find_blocks;
use crate::graph::{Graph, Links};
use crate::polygons::{Loop, find_loop};
use crate::sound::{is_ascending, is_graph};
use std::alloc::{AllocError, Global};

/// Cycles with two members that are not linked, one of each block that has any: that of `find_loop` for the graph of the
/// block alone. They ascend by their pinches. Takes about the time of a few searches. Fails only when out of memory.
pub fn find_loops(alloc: Global, graph: &Graph) -> Result<Vec<Loop>, AllocError>
    ensures sound { IfOk result (λ loops. All (λ (found : Loop). IsIncompleteCycle (linked graph.now) found.round.items) loops.items) }
    ensures whole { IfOk result (λ loops. loops.items ≡ [] → Polygons (linked graph.now)) }
{
    let loops = loops_of_blocks(alloc, graph)?;
    if loops.is_empty() {
        return whole_loop(alloc, graph);
    }
    Ok(loops)
}

/// The loop of the whole graph, if it has one.
fn whole_loop(alloc: Global, graph: &Graph) -> Result<Vec<Loop>, AllocError>
    ensures sound { IfOk result (λ loops. All (λ (found : Loop). IsIncompleteCycle (linked graph.now) found.round.items) loops.items) }
    ensures whole { IfOk result (λ loops. loops.items ≡ [] → Polygons (linked graph.now)) }
{
    let mut loops = Vec::new(alloc);
    if let Some(found) = find_loop(alloc, graph)? {
        loops.push(found)?;
    }
    Ok(loops)
}

fn loops_of_blocks(alloc: Global, graph: &Graph) -> Result<Vec<Loop>, AllocError>
    ensures { IfOk result (λ loops. All (λ (found : Loop). IsIncompleteCycle (linked graph.now) found.round.items) loops.items) }
{
    let blocks = find_blocks(alloc, graph)?;
    let lists = block_lists(alloc, graph.len(), &blocks)?;
    let mut loops = Vec::new(alloc);
    'numbers: for block in 0..graph.len() {
        if let Some(found) = loop_of_block(alloc, graph, &blocks, &lists, block)? {
            loops.push(found)?;
        }
    }
    loops.sort_unstable_by_key(|found| found.pinch);
    Ok(loops)
}

/// The loop of the block of this number, if it has one.
fn loop_of_block(
    alloc: Global,
    graph: &Graph,
    blocks: &Blocks,
    lists: &BlockLists,
    block: usize,
) -> Result<Option<Loop>, AllocError>
    ensures { IfOk result (λ found. MatchOption found (Unit {0}) (λ (one : Loop). IsIncompleteCycle (linked graph.now) one.round.items)) }
{
    if blocks.is_full(block) {
        return Ok(None);
    }
    let names = members_of(alloc, blocks, lists, block)?;
    // In a cycle of three members all are linked.
    if names.len() < 4 {
        return Ok(None);
    }
    match loop_among(alloc, graph, &names)? {
        Some(found) => tested(alloc, graph, found),
        None => Ok(None),
    }
}

/// The loop, if it is a cycle with two members that are not linked.
fn tested(alloc: Global, graph: &Graph, found: Loop) -> Result<Option<Loop>, AllocError>
    ensures { IfOk result (λ kept. MatchOption kept (Unit {0}) (λ (one : Loop). IsIncompleteCycle (linked graph.now) one.round.items)) }
{
    if !is_incomplete_cycle(
        alloc,
        graph,
        &found.round,
        found.pinch.one,
        found.pinch.other,
    )? {
        return Ok(None);
    }
    Ok(Some(found))
}

/// Is this a cycle with these two members, which are not linked?
fn is_incomplete_cycle(
    alloc: Global,
    graph: &Graph,
    round: &[usize],
    one: usize,
    other: usize,
) -> Result<bool, AllocError>
    ensures { IfOk result (λ is. IsTrue is → IsIncompleteCycle (linked graph.now) round.now) }
{
    if round.len() < 3 || !is_ring(graph, round) {
        return Ok(false);
    }
    let different = are_different(alloc, round)?;
    if !different {
        return Ok(false);
    }
    Ok(has_unlinked(graph, round, one, other))
}

/// Is each linked with the next, and the last with the first?
fn is_ring(graph: &Graph, round: &[usize]) -> bool
    requires { 0 < length round.now }
    ensures { IsTrue result → AreRingLinks (linked graph.now) round.now }
{
    let mut before = round[round.len() - 1];
    'round: for member in round {
        if !is_link(graph, before, *member) {
            return false;
        }
        before = *member;
    }
    true
}

/// Are these two different members of the ring that are not linked?
fn has_unlinked(graph: &Graph, round: &[usize], one: usize, other: usize) -> bool
    ensures { IsTrue result → HasUnlinked (linked graph.now) round.now }
{
    if one == other || is_link(graph, one, other) {
        return false;
    }
    round.contains(&one) && round.contains(&other)
}

fn is_link(graph: &Graph, one: usize, other: usize) -> bool
    ensures { result ≡ linked graph.now one other }
{
    one < graph.len() && graph.is_linked(one, other)
}

fn are_different(alloc: Global, round: &[usize]) -> Result<bool, AllocError>
    ensures { IfOk result (λ are. IsTrue are → Different round.now) }
{
    let mut sorted = Vec::from_slice(alloc, round)?;
    sorted.sort_unstable();
    Ok(is_ascending(&sorted))
}

/// The members of the block and its top, ascending.
fn members_of(
    alloc: Global,
    blocks: &Blocks,
    lists: &BlockLists,
    block: usize,
) -> Result<Vec<usize>, AllocError> {
    let mut members = Vec::new(alloc);
    let mut next = at(&lists.last, block);
    for _ in 0..lists.previous.len() {
        let Some(member) = next else {
            break;
        };
        members.push(member)?;
        next = at(&lists.previous, member);
    }
    if let Some(last) = members.last() {
        let top = blocks.top(*last);
        members.push(top)?;
    }
    members.sort_unstable();
    members.dedup();
    Ok(members)
}

fn at(members: &[Option<usize>], index: usize) -> Option<usize> {
    match members.get(index) {
        Some(member) => *member,
        None => None,
    }
}

/// The loop of the graph of these members, if it has one.
fn loop_among(alloc: Global, graph: &Graph, names: &[usize]) -> Result<Option<Loop>, AllocError> {
    let mut rows = Vec::new(alloc);
    for name in names {
        rows.push(Links::new(places_of(alloc, graph, names, *name)?))?;
    }
    if !is_graph(&rows) {
        return Ok(None);
    }
    let Some(mut found) = find_loop(alloc, &Graph::new(rows))? else {
        return Ok(None);
    };
    found.pinch.at = value_or(names, found.pinch.at, 0);
    found.pinch.one = value_or(names, found.pinch.one, 0);
    found.pinch.other = value_or(names, found.pinch.other, 0);
    for place in 0..found.round.len() {
        found.round[place] = value_or(names, found.round[place], 0);
    }
    Ok(Some(found))
}

/// The places in the list of those that the member is linked with, ascending.
fn places_of(
    alloc: Global,
    graph: &Graph,
    names: &[usize],
    name: usize,
) -> Result<Vec<usize>, AllocError> {
    let mut places = Vec::new(alloc);
    if name >= graph.len() {
        return Ok(places);
    }
    let links = graph.links(name);
    if links.len() < names.len() {
        for link in links {
            if let Ok(place) = names.binary_search(link) {
                places.push(place)?;
            }
        }
    } else {
        for (place, other) in names.iter().enumerate() {
            if graph.is_linked(name, *other) {
                places.push(place)?;
            }
        }
    }
    Ok(places)
}
