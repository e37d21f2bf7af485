//! Systems of one net and node.

ghost use Rattle.std.specs.{Prelude.{◌≡◌, ◌<◌, ◌+◌, ◌↔◌, ◌⊎◌, ℕ, IsTrue, IfOk, MatchOption, OnOk, Contains, length, map}, List.Sorted.IsStrictlySortedBy};
ghost use Rattle.echo_addr.specs.declared.address.Address.{Address};
ghost use Rattle.echo_verdict.specs.{declared.link.Link.Link, Firsts.HasTwin, Firsts.IsSmallestPair, Pairs.IsTwin, Pairs.neighbour_of};

use crate::link::Link;
use echo_addr::{Address, NetNode, put_in_order};
use std::alloc::{AllocError, Global};

/// A system, ordered by net and node.
#[derive(Clone, Copy, PartialEq, Eq, PartialOrd, Ord)]
struct Neighbour {
    net_node: NetNode,
    system: Address,
}

/// The smallest two of these systems that have the same net and node, the smaller first.
pub fn same_net_node(alloc: Global, systems: &[Address]) -> Result<Option<Link>, AllocError>
    ensures { IfOk result (λ found. MatchOption found
        ((a b : Address) → ¬ HasTwin (Contains systems.now) a b)
        (λ pair. IsSmallestPair (HasTwin (Contains systems.now)) pair.from pair.to)) }
{
    let mut neighbours = neighbours(alloc, systems)?;
    put_in_order(&mut neighbours);
    let mut twins = twins(alloc, &neighbours)?;
    put_in_order(&mut twins);
    Ok(twins.first().copied())
}

/// Each two of these systems that have the same net and node, the smaller first, ascending.
pub fn all_same_net_node(alloc: Global, systems: &[Address]) -> Result<Vec<Link>, AllocError>
    ensures ascending { IfOk result (λ all. IsStrictlySortedBy ⟦<Link as Ord>⟧.cmp all.items) }
    ensures members { IfOk result (λ all. (l : Link) → Contains all.items l ↔ HasTwin (Contains systems.now) l.from l.to) }
{
    let mut neighbours = neighbours(alloc, systems)?;
    put_in_order(&mut neighbours);
    let mut all = all_twins(alloc, &neighbours)?;
    put_in_order(&mut all);
    Ok(all)
}

fn neighbours(alloc: Global, systems: &[Address]) -> Result<Vec<Neighbour>, AllocError>
    ensures { IfOk result (λ all. all.items ≡ map neighbour_of systems.now) }
{
    systems
        .iter()
        .map(|system| neighbour_at(*system))
        .collect(alloc)
}

fn neighbour_at(system: Address) -> Neighbour
    ensures { result ≡ neighbour_of system }
{
    Neighbour {
        net_node: system.net_node(),
        system,
    }
}

/// Each of these and the next, where they have the same net and node.
fn twins(alloc: Global, neighbours: &[Neighbour]) -> Result<Vec<Link>, AllocError>
    ensures { IfOk result (λ twins. (l : Link) → Contains twins.items l ↔
        ((k : ℕ) × IsTwin neighbours.now k (k + 1) l)) }
{
    let mut twins = Vec::new(alloc);
    for place in 1..neighbours.len() {
        let one = neighbours[place - 1];
        let next = neighbours[place];
        if one.net_node == next.net_node {
            twins.push(Link {
                from: one.system,
                to: next.system,
            })?;
        }
    }
    Ok(twins)
}

/// Have both the same net and node?
fn are_alike(one: Neighbour, other: Neighbour) -> bool
    ensures { IsTrue result ↔ (one.net_node ≡ other.net_node) }
{
    one.net_node == other.net_node
}

/// Each of these and each later one that has the same net and node.
fn all_twins(alloc: Global, neighbours: &[Neighbour]) -> Result<Vec<Link>, AllocError>
    requires { IsStrictlySortedBy ⟦<Neighbour as Ord>⟧.cmp neighbours.now }
    ensures { IfOk result (λ all. (l : Link) → Contains all.items l ↔ ((i : ℕ) × (j : ℕ) × IsTwin neighbours.now i j l)) }
{
    let mut all = Vec::new(alloc);
    'places: for place in 0..neighbours.len() {
        push_twins_of(&mut all, neighbours, place)?;
    }
    Ok(all)
}

/// Appends this one with each later one that has the same net and node. These follow it.
fn push_twins_of(
    all: &mut Vec<Link>,
    neighbours: &[Neighbour],
    place: usize,
) -> Result<(), AllocError>
    requires ascending { IsStrictlySortedBy ⟦<Neighbour as Ord>⟧.cmp neighbours.now }
    requires inside { place < length neighbours.now }
    ensures { OnOk result ((l : Link) → Contains all.new.items l ↔ (Contains all.old.items l ⊎ ((j : ℕ) × IsTwin neighbours.now place j l))) }
{
    let one = neighbours[place];
    'later: for next in place + 1..neighbours.len() {
        let other = neighbours[next];
        if !are_alike(one, other) {
            return Ok(());
        }
        all.push(Link {
            from: one.system,
            to: other.system,
        })?;
    }
    Ok(())
}
