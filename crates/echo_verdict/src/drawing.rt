//! The drawing of an area: its systems and links, and their faults.

ghost use Rattle.std.specs.{Prelude.{◌≡◌, ◌++◌, ◌↔◌, IfOk, Contains, map}, List.Sorted.IsStrictlySortedBy};
ghost use Rattle.echo_addr.specs.declared.address.Address.{Address};
ghost use Rattle.echo_verdict.specs.Drawn.{IsDrawing, back, link_from, loop_links, loop_named, mark_of, sides_of, system_from, systems_named, upward};
ghost use Rattle.echo_verdict.specs.declared.link.Link.{Link};
ghost use Rattle.echo_verdict.specs.Drawn as drawn;

use crate::area_lists::{carriers, is_before, links};
use crate::link::Link;
use crate::searching::holds;
use crate::verdict::{NetFault, Verdict};
use echo_addr::{Address, Items, put_in_order};
use echo_links::LinkFile;
use std::alloc::{AllocError, Global};

/// How a system is marked.
#[derive(Clone, Copy)]
pub enum Mark {
    /// Nothing is wrong with it.
    Plain,
    /// The verdict names it as faulty.
    Named,
    /// It is on the loop that the verdict names.
    OnLoop,
}

/// Which ends of a link list it.
#[derive(Clone, Copy)]
pub enum Sides {
    Both,
    First,
    Second,
}

/// A drawn system.
#[derive(Clone, Copy)]
pub struct DrawnSystem {
    pub system: Address,
    /// Whether it carries the area; if not, a carrier lists it.
    pub carries: bool,
    pub mark: Mark,
}

/// A drawn link, its smaller end first.
#[derive(Clone, Copy)]
pub struct DrawnLink {
    pub one: Address,
    pub other: Address,
    pub sides: Sides,
    /// Whether it is on the loop that the verdict names.
    pub on_loop: bool,
}

/// The systems and links of an area, ascending, each once.
#[derive(Drop)]
pub struct Drawing {
    pub systems: Items<DrawnSystem>,
    pub links: Items<DrawnLink>,
}

/// A message that crosses a link: its step, the sender and the receiver.
#[derive(Clone, Copy)]
pub struct Crossing {
    pub step: usize,
    pub from: Address,
    pub to: Address,
}

/// The drawing of the area, with the faults of this verdict marked. It draws any link files, tidy or not. Fails
/// only when out of memory.
pub fn draw(
    alloc: Global,
    files: &[LinkFile],
    tag: &[u8],
    verdict: &Verdict,
) -> Result<Drawing, AllocError>
    ensures { IfOk result (IsDrawing files.now tag.now verdict.now) }
{
    let carriers = carriers(alloc, files, tag)?;
    let listed = links(alloc, files, tag)?;
    let addresses = addresses(alloc, &carriers, &listed)?;
    let pairs = pairs(alloc, &listed)?;
    let round = in_order(alloc, loop_of(verdict))?;
    let steps = steps(alloc, loop_of(verdict))?;
    let named = named_by(alloc, verdict)?;
    let systems = draw_systems(alloc, &addresses, &carriers, &round, &named)?;
    let links = draw_links(alloc, &pairs, &listed, &steps)?;
    Ok(Drawing {
        systems: Items::new(systems),
        links: Items::new(links),
    })
}

/// The carriers and their links, ascending, each once.
fn addresses(
    alloc: Global,
    carriers: &[Address],
    links: &[Link],
) -> Result<Vec<Address>, AllocError>
    ensures ascending { IfOk result (λ all. IsStrictlySortedBy ⟦<Address as Ord>⟧.cmp all.items) }
    ensures members { IfOk result (λ all. (a : Address) → Contains all.items a ↔ Contains (carriers.now ++ map (λ l. l.to) links.now) a) }
{
    let mut all = carriers_and_listed(alloc, carriers, links)?;
    put_in_order(&mut all);
    Ok(all)
}

/// The carriers, and then the end of each link.
fn carriers_and_listed(
    alloc: Global,
    carriers: &[Address],
    links: &[Link],
) -> Result<Vec<Address>, AllocError>
    ensures { IfOk result (λ all. all.items ≡ carriers.now ++ map (λ l. l.to) links.now) }
{
    let mut all = Vec::from_slice(alloc, carriers)?;
    'links: for link in links {
        all.push(link.to)?;
    }
    Ok(all)
}

/// The links with their smaller ends first, ascending, each once.
fn pairs(alloc: Global, links: &[Link]) -> Result<Vec<Link>, AllocError>
    ensures ascending { IfOk result (λ all. IsStrictlySortedBy ⟦<Link as Ord>⟧.cmp all.items) }
    ensures members { IfOk result (λ all. (l : Link) → Contains all.items l ↔ Contains (map upward links.now) l) }
{
    let mut all = upward_links(alloc, links)?;
    put_in_order(&mut all);
    Ok(all)
}

/// Each link with its smaller end first.
fn upward_links(alloc: Global, links: &[Link]) -> Result<Vec<Link>, AllocError>
    ensures { IfOk result (λ all. all.items ≡ map upward links.now) }
{
    let mut all = Vec::new(alloc);
    'links: for link in links {
        all.push(upward(*link))?;
    }
    Ok(all)
}

/// The link with its smaller end first.
fn upward(link: Link) -> Link
    ensures { result ≡ upward link }
{
    if is_before(link.to, link.from) {
        back(link)
    } else {
        link
    }
}

/// The link the other way.
pub fn back(link: Link) -> Link
    ensures { result ≡ back link }
{
    Link {
        from: link.to,
        to: link.from,
    }
}

/// The loop that the verdict names.
fn loop_of(verdict: &Verdict) -> &[Address]
    ensures { result.now ≡ loop_named verdict.now }
{
    match verdict {
        Verdict::No(NetFault::Loop(round)) => round.as_slice(),
        _ => &[],
    }
}

/// The other systems that the verdict names as faulty.
fn named_by(alloc: Global, verdict: &Verdict) -> Result<Vec<Address>, AllocError>
    ensures { IfOk result (λ all. all.items ≡ systems_named verdict.now) }
{
    match verdict {
        Verdict::No(NetFault::TwoFiles(one) | NetFault::SelfLink(one)) => {
            Vec::from_slice(alloc, &[*one])
        }
        Verdict::No(NetFault::SameNetNode(one, other) | NetFault::Apart(one, other)) => {
            Vec::from_slice(alloc, &[*one, *other])
        }
        _ => Ok(Vec::new(alloc)),
    }
}

/// These addresses, ascending, each once.
fn in_order(alloc: Global, all: &[Address]) -> Result<Vec<Address>, AllocError>
    ensures ascending { IfOk result (λ sorted. IsStrictlySortedBy ⟦<Address as Ord>⟧.cmp sorted.items) }
    ensures members { IfOk result (λ sorted. (a : Address) → Contains sorted.items a ↔ Contains all.now a) }
{
    let mut sorted = Vec::from_slice(alloc, all)?;
    put_in_order(&mut sorted);
    Ok(sorted)
}

/// The links around the loop, ascending, each once.
fn steps(alloc: Global, round: &[Address]) -> Result<Vec<Link>, AllocError>
    ensures ascending { IfOk result (λ all. IsStrictlySortedBy ⟦<Link as Ord>⟧.cmp all.items) }
    ensures members { IfOk result (λ all. (l : Link) → Contains all.items l ↔ Contains (loop_links round.now) l) }
{
    let mut all = steps_around(alloc, round)?;
    put_in_order(&mut all);
    Ok(all)
}

/// The links around the loop, from its last member on.
fn steps_around(alloc: Global, round: &[Address]) -> Result<Vec<Link>, AllocError>
    ensures { IfOk result (λ all. all.items ≡ loop_links round.now) }
{
    let mut all = Vec::new(alloc);
    if round.is_empty() {
        return Ok(all);
    }
    let mut from = round[round.len() - 1];
    'round: for to in round {
        all.push(upward(Link { from, to: *to }))?;
        from = *to;
    }
    Ok(all)
}

/// Is the address one of these, which ascend?
pub fn has_address(all: &[Address], address: Address) -> bool
    requires { IsStrictlySortedBy ⟦<Address as Ord>⟧.cmp all.now }
    ensures { result ≡ drawn.has_address all.now address }
{
    holds(all, &address)
}

/// Is the link one of these, which ascend?
pub fn has_link(all: &[Link], link: Link) -> bool
    requires { IsStrictlySortedBy ⟦<Link as Ord>⟧.cmp all.now }
    ensures { result ≡ drawn.has_link all.now link }
{
    holds(all, &link)
}

/// Is the address one of these few?
fn is_named(named: &[Address], address: Address) -> bool
    ensures { result ≡ drawn.has_address named.now address }
{
    named.contains(&address)
}

/// How a system is marked that may be on this loop, which ascends, or one of those that are named.
fn mark_for(round: &[Address], named: &[Address], system: Address) -> Mark
    requires { IsStrictlySortedBy ⟦<Address as Ord>⟧.cmp round.now }
    ensures { result ≡ mark_of round.now named.now system }
{
    if has_address(round, system) {
        return Mark::OnLoop;
    }
    if is_named(named, system) {
        return Mark::Named;
    }
    Mark::Plain
}

/// Which ends list the link, of these links.
fn sides_listing(links: &[Link], link: Link) -> Sides
    requires { IsStrictlySortedBy ⟦<Link as Ord>⟧.cmp links.now }
    ensures { result ≡ sides_of (drawn.has_link links.now link) (drawn.has_link links.now (back link)) }
{
    if !has_link(links, link) {
        return Sides::Second;
    }
    if has_link(links, back(link)) {
        return Sides::Both;
    }
    Sides::First
}

/// These addresses, drawn.
fn draw_systems(
    alloc: Global,
    addresses: &[Address],
    carriers: &[Address],
    round: &[Address],
    named: &[Address],
) -> Result<Vec<DrawnSystem>, AllocError>
    requires carriers { IsStrictlySortedBy ⟦<Address as Ord>⟧.cmp carriers.now }
    requires round { IsStrictlySortedBy ⟦<Address as Ord>⟧.cmp round.now }
    ensures { IfOk result (λ all. all.items ≡ map (system_from carriers.now round.now named.now) addresses.now) }
{
    let mut all = Vec::new(alloc);
    'addresses: for address in addresses {
        all.push(DrawnSystem {
            system: *address,
            carries: has_address(carriers, *address),
            mark: mark_for(round, named, *address),
        })?;
    }
    Ok(all)
}

/// These pairs, drawn.
fn draw_links(
    alloc: Global,
    pairs: &[Link],
    links: &[Link],
    steps: &[Link],
) -> Result<Vec<DrawnLink>, AllocError>
    requires links { IsStrictlySortedBy ⟦<Link as Ord>⟧.cmp links.now }
    requires steps { IsStrictlySortedBy ⟦<Link as Ord>⟧.cmp steps.now }
    ensures { IfOk result (λ all. all.items ≡ map (link_from links.now steps.now) pairs.now) }
{
    let mut all = Vec::new(alloc);
    'pairs: for pair in pairs {
        all.push(DrawnLink {
            one: pair.from,
            other: pair.to,
            sides: sides_listing(links, *pair),
            on_loop: has_link(steps, *pair),
        })?;
    }
    Ok(all)
}
