//! Every fault of an area: of its files, their links, and its graph.

ghost use Rattle.std.specs.Prelude.{◌≡◌, ◌++◌, ◌==◌, ◌↔◌, ℕ, List, Contains, IfOk, IsTrue, OnOk, drop, filter, length, map, not};
ghost use Rattle.std.specs.List.Sorted.{IsStrictlySortedBy};
ghost use Rattle.echo_addr.specs.declared.address.Address.{Address};
ghost use Rattle.echo_links.specs.Links.{LinkFile};
ghost use Rattle.model_run.specs.Tidy.{carries, lists};
ghost use Rattle.echo_verdict.specs.declared.each_fault.Kind.TheVariants as kinds;
ghost use Rattle.echo_verdict.specs.AllFaults.{AddsLinkFaults, AddsTwoFiles, AreAllFaults, AreFurther, AreLinkFaults, fault_of, fault_where, is_one_sided, is_self_link, is_unknown};
ghost use Rattle.echo_verdict.specs.{declared.link.Link.Link, declared.verdict.NetFault.NetFault, Faults.IfNo, Faults.IsFirstFault};

use crate::area::{AreaGraph, collect_area};
use crate::area_lists::systems;
use crate::drawing::{back, has_address, has_link};
use crate::graph_faults::{push_apart, push_loops};
use crate::link::Link;
use crate::owners::all_shared;
use crate::same_net_node::all_same_net_node;
use crate::verdict::{NetFault, Verdict};
use echo_addr::Address;
use echo_links::LinkFile;
use std::alloc::{AllocError, Global};

/// The kinds of faults that two systems have.
#[derive(Clone, Copy)]
pub enum Kind {
    TwoFiles,
    SelfLink,
    Unknown,
    OneSided,
    SameNetNode,
}

/// Every fault of the area, each once, in the order of `NetFault` and then by ascending addresses. A tie joins two carriers
/// of which one lists the other, a full link two that list each other. Each part of the ties without the smallest carrier has
/// one `Apart`, each block of full links with a cycle that is not fully linked one `Loop`, whatever else is wrong. Fails only
/// when out of memory.
pub fn all_faults(
    alloc: Global,
    files: &[LinkFile],
    tag: &[u8],
) -> Result<Vec<NetFault>, AllocError>
    ensures { IfOk result (λ all. AreAllFaults files.now tag.now all.items) }
{
    let area = collect_area(alloc, files, tag)?;
    let mut all = link_faults(alloc, files, tag, &area.carriers, &area.links)?;
    push_apart(alloc, &mut all, files, tag, &area.carriers, &area.links)?;
    push_loops(alloc, &mut all, files, tag, &area.carriers, &area.links)?;
    Ok(all)
}

/// Every fault of the files and of these links of their carriers.
fn link_faults(
    alloc: Global,
    files: &[LinkFile],
    tag: &[u8],
    carriers: &[Address],
    links: &[Link],
) -> Result<Vec<NetFault>, AllocError>
    requires carriers { IsStrictlySortedBy ⟦<Address as Ord>⟧.cmp carriers.now }
    requires links { IsStrictlySortedBy ⟦<Link as Ord>⟧.cmp links.now }
    requires members { (a : Address) → Contains carriers.now a ↔ IsTrue (carries files.now tag.now a) }
    requires listed { (l : Link) → Contains links.now l ↔ IsTrue (lists files.now tag.now l.from l.to) }
    ensures { IfOk result (λ all. AreLinkFaults files.now tag.now all.items) }
{
    let systems = systems(alloc, files)?;
    let mut all = Vec::new(alloc);
    push_no_such_area(&mut all, carriers)?;
    push_two_files(alloc, &mut all, &systems)?;
    push_link_faults(alloc, &mut all, carriers, links)?;
    Ok(all)
}

/// Those of all these faults that the verdict does not name.
pub fn further<'a>(all: &'a [NetFault], verdict: &Verdict) -> &'a [NetFault]
    ensures { (files : List LinkFile) → (tag : List ℕ) → AreAllFaults files tag all.now → IfNo verdict.now (IsFirstFault files tag) →
        AreFurther files tag verdict.now result.now }
{
    match verdict {
        Verdict::Yes { .. } => &[],
        Verdict::No(_) => behind_first(all),
    }
}

/// All but the first of these.
fn behind_first(all: &[NetFault]) -> &[NetFault]
    ensures { result.now ≡ drop 1 all.now }
{
    if all.is_empty() {
        return all;
    }
    let (_, rest) = all.split_at(1);
    rest
}

/// Adds that there are no carriers.
fn push_no_such_area(all: &mut Vec<NetFault>, carriers: &[Address]) -> Result<(), AllocError>
    ensures { OnOk result (all.new.items ≡ all.old.items ++ fault_where (not (length carriers.now == 0))) }
{
    if !carriers.is_empty() {
        return Ok(());
    }
    all.push(NetFault::NoSuchArea)?;
    Ok(())
}

/// Adds the addresses that two of these systems have.
fn push_two_files(
    alloc: Global,
    all: &mut Vec<NetFault>,
    systems: &[Address],
) -> Result<(), AllocError>
    ensures { OnOk result (AddsTwoFiles systems.now all.old.items all.new.items) }
{
    let found = all_shared(alloc, systems)?;
    push_faults(all, Kind::TwoFiles, &found)
}

/// Adds the faults of the links of these carriers.
fn push_link_faults(
    alloc: Global,
    all: &mut Vec<NetFault>,
    carriers: &[Address],
    links: &[Link],
) -> Result<(), AllocError>
    requires carriers { IsStrictlySortedBy ⟦<Address as Ord>⟧.cmp carriers.now }
    requires links { IsStrictlySortedBy ⟦<Link as Ord>⟧.cmp links.now }
    ensures { OnOk result (AddsLinkFaults carriers.now links.now all.old.items all.new.items) }
{
    push_self_links(alloc, all, links)?;
    push_unknown(alloc, all, carriers, links)?;
    push_one_sided(alloc, all, carriers, links)?;
    let found = all_same_net_node(alloc, carriers)?;
    push_faults(all, Kind::SameNetNode, &found)
}

/// Adds the links of systems to themselves.
fn push_self_links(alloc: Global, all: &mut Vec<NetFault>, links: &[Link]) -> Result<(), AllocError>
    ensures { OnOk result (all.new.items ≡ all.old.items ++ map (fault_of kinds.SelfLink) (filter is_self_link links.now)) }
{
    let found = self_links(alloc, links)?;
    push_faults(all, Kind::SelfLink, &found)
}

fn self_links(alloc: Global, links: &[Link]) -> Result<Vec<Link>, AllocError>
    ensures { IfOk result (λ found. found.items ≡ filter is_self_link links.now) }
{
    links
        .iter()
        .filter(|link| link.from == link.to)
        .copied()
        .collect(alloc)
}

/// Adds the links to systems that are no carriers.
fn push_unknown(
    alloc: Global,
    all: &mut Vec<NetFault>,
    carriers: &[Address],
    links: &[Link],
) -> Result<(), AllocError>
    requires { IsStrictlySortedBy ⟦<Address as Ord>⟧.cmp carriers.now }
    ensures { OnOk result (all.new.items ≡ all.old.items ++ map (fault_of kinds.Unknown) (filter (is_unknown carriers.now) links.now)) }
{
    let found = unknown_links(alloc, carriers, links)?;
    push_faults(all, Kind::Unknown, &found)
}

fn unknown_links(
    alloc: Global,
    carriers: &[Address],
    links: &[Link],
) -> Result<Vec<Link>, AllocError>
    requires { IsStrictlySortedBy ⟦<Address as Ord>⟧.cmp carriers.now }
    ensures { IfOk result (λ found. found.items ≡ filter (is_unknown carriers.now) links.now) }
{
    let mut found = Vec::new(alloc);
    'links: for link in links {
        if !has_address(carriers, link.to) {
            found.push(*link)?;
        }
    }
    Ok(found)
}

/// Adds the links to carriers that do not list them back.
fn push_one_sided(
    alloc: Global,
    all: &mut Vec<NetFault>,
    carriers: &[Address],
    links: &[Link],
) -> Result<(), AllocError>
    requires carriers { IsStrictlySortedBy ⟦<Address as Ord>⟧.cmp carriers.now }
    requires links { IsStrictlySortedBy ⟦<Link as Ord>⟧.cmp links.now }
    ensures { OnOk result (all.new.items ≡ all.old.items ++ map (fault_of kinds.OneSided) (filter (is_one_sided carriers.now links.now) links.now)) }
{
    let found = one_sided_links(alloc, carriers, links)?;
    push_faults(all, Kind::OneSided, &found)
}

fn one_sided_links(
    alloc: Global,
    carriers: &[Address],
    links: &[Link],
) -> Result<Vec<Link>, AllocError>
    requires carriers { IsStrictlySortedBy ⟦<Address as Ord>⟧.cmp carriers.now }
    requires links { IsStrictlySortedBy ⟦<Link as Ord>⟧.cmp links.now }
    ensures { IfOk result (λ found. found.items ≡ filter (is_one_sided carriers.now links.now) links.now) }
{
    let mut found = Vec::new(alloc);
    'links: for link in links {
        if is_one_sided(carriers, links, *link) {
            found.push(*link)?;
        }
    }
    Ok(found)
}

/// Does the link lead to a carrier that does not list it back?
fn is_one_sided(carriers: &[Address], links: &[Link], link: Link) -> bool
    requires carriers { IsStrictlySortedBy ⟦<Address as Ord>⟧.cmp carriers.now }
    requires links { IsStrictlySortedBy ⟦<Link as Ord>⟧.cmp links.now }
    ensures { result ≡ is_one_sided carriers.now links.now link }
{
    has_address(carriers, link.to) && !has_link(links, back(link))
}

/// Adds the fault of this kind for each of these links.
fn push_faults(all: &mut Vec<NetFault>, kind: Kind, links: &[Link]) -> Result<(), AllocError>
    ensures { OnOk result (all.new.items ≡ all.old.items ++ map (fault_of kind) links.now) }
{
    'links: for link in links {
        all.push(fault_of(kind, *link))?;
    }
    Ok(())
}

/// The fault of this kind between the two ends of the link.
fn fault_of(kind: Kind, link: Link) -> NetFault
    ensures { result ≡ fault_of kind link }
{
    match kind {
        Kind::TwoFiles => NetFault::TwoFiles(link.from),
        Kind::SelfLink => NetFault::SelfLink(link.from),
        Kind::Unknown => NetFault::Unknown(link.from, link.to),
        Kind::OneSided => NetFault::OneSided(link.from, link.to),
        Kind::SameNetNode => NetFault::SameNetNode(link.from, link.to),
    }
}
