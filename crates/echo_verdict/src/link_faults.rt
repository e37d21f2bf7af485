//! The faults of the files and the links of an area: the clauses before those on the graph.

ghost use Rattle.std.specs.{Prelude.{◌↔◌, IsTrue, IfOk, MatchOption, Contains}, List.Sorted.IsStrictlySortedBy};
ghost use Rattle.echo_addr.specs.declared.address.Address.{Address};
ghost use Rattle.model_run.specs.Tidy.{carries, lists};
ghost use Rattle.echo_verdict.specs.{declared.link.Link.Link, Faults.AreSoundLinks, Faults.IsFirstFault, Faults.IsSharedSystem};

use crate::first_links::{one_sided_link, self_link, unknown_link};
use crate::link::Link;
use crate::same_net_node::same_net_node;
use crate::verdict::NetFault;
use echo_addr::Address;
use echo_links::LinkFile;
use std::alloc::{AllocError, Global};

/// The first fault of the files and the links, where there is one; two of the files have the address `shared`.
pub fn link_fault(
    alloc: Global,
    files: &[LinkFile],
    shared: Option<Address>,
    tag: &[u8],
    carriers: &[Address],
    links: &[Link],
) -> Result<Option<NetFault>, AllocError>
    requires shared { IsSharedSystem files.now shared }
    requires carriers { IsStrictlySortedBy ⟦<Address as Ord>⟧.cmp carriers.now }
    requires links { IsStrictlySortedBy ⟦<Link as Ord>⟧.cmp links.now }
    requires members { (a : Address) → Contains carriers.now a ↔ IsTrue (carries files.now tag.now a) }
    requires listed { (l : Link) → Contains links.now l ↔ IsTrue (lists files.now tag.now l.from l.to) }
    ensures { IfOk result (λ found. MatchOption found (AreSoundLinks files.now tag.now) (IsFirstFault files.now tag.now)) }
{
    if carriers.is_empty() {
        return Ok(Some(NetFault::NoSuchArea));
    }
    if let Some(system) = shared {
        return Ok(Some(NetFault::TwoFiles(system)));
    }
    if let Some(link) = self_link(links) {
        return Ok(Some(NetFault::SelfLink(link.from)));
    }
    if let Some(link) = unknown_link(links, carriers) {
        return Ok(Some(NetFault::Unknown(link.from, link.to)));
    }
    let one_sided = one_sided_link(alloc, links, carriers)?;
    if let Some(link) = one_sided {
        return Ok(Some(NetFault::OneSided(link.from, link.to)));
    }
    let twins = same_net_node(alloc, carriers)?;
    match twins {
        Some(pair) => Ok(Some(NetFault::SameNetNode(pair.from, pair.to))),
        None => Ok(None),
    }
}
