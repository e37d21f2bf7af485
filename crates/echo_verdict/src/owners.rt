//! Addresses that come twice.

ghost use Rattle.std.specs.{Prelude.{◌≡◌, ◌+◌, ◌↔◌, ℕ, IfOk, MatchOption, Contains}, List.Sorted.IsStrictlySortedBy};
ghost use Rattle.model_graph.specs.Walk.{Different, IsAt};
ghost use Rattle.echo_verdict.specs.{declared.link.Link.Link, declared.owners.Owner.Owner, Firsts.IsSmallest, Firsts.OccursTwice, Pairs.IsShared};

use crate::link::Link;
use echo_addr::{Address, put_in_order};
use std::alloc::{AllocError, Global};

/// An address, and its place among the systems.
#[derive(Clone, Copy, PartialEq, Eq, PartialOrd, Ord)]
struct Owner {
    system: Address,
    file: usize,
}

/// The smallest address that two systems have.
pub fn shared_address(alloc: Global, systems: &[Address]) -> Result<Option<Address>, AllocError>
    ensures { IfOk result (λ found. MatchOption found (Different systems.now) (IsSmallest (OccursTwice systems.now))) }
{
    let shared = all_shared(alloc, systems)?;
    match shared.first().copied() {
        Some(link) => Ok(Some(link.from)),
        None => Ok(None),
    }
}

/// Each address that two systems have, as a link to itself, ascending, each once.
pub fn all_shared(alloc: Global, systems: &[Address]) -> Result<Vec<Link>, AllocError>
    ensures ascending { IfOk result (λ all. IsStrictlySortedBy ⟦<Link as Ord>⟧.cmp all.items) }
    ensures members { IfOk result (λ all. (l : Link) → Contains all.items l ↔ ((l.from ≡ l.to) × OccursTwice systems.now l.from)) }
{
    let mut owners = owners(alloc, systems)?;
    put_in_order(&mut owners);
    let mut shared = shared(alloc, &owners)?;
    put_in_order(&mut shared);
    Ok(shared)
}

fn owners(alloc: Global, systems: &[Address]) -> Result<Vec<Owner>, AllocError>
    ensures { IfOk result (λ all. (o : Owner) → Contains all.items o ↔ IsAt systems.now o.file o.system) }
{
    let mut all = Vec::new(alloc);
    for (file, system) in systems.iter().enumerate() {
        all.push(Owner {
            system: *system,
            file,
        })?;
    }
    Ok(all)
}

/// The system of each of these with that of the next, where they are the same.
fn shared(alloc: Global, owners: &[Owner]) -> Result<Vec<Link>, AllocError>
    ensures { IfOk result (λ all. (l : Link) → Contains all.items l ↔ ((k : ℕ) × IsShared owners.now k (k + 1) l)) }
{
    let mut shared = Vec::new(alloc);
    for place in 1..owners.len() {
        let one = owners[place - 1];
        let next = owners[place];
        if one.system == next.system {
            shared.push(Link {
                from: one.system,
                to: next.system,
            })?;
        }
    }
    Ok(shared)
}
