//! The links of an area that join two different carriers: from either end (ties), or from both (full links).

ghost use Rattle.std.specs.{Prelude.{◌≡◌, ◌++◌, ◌⊎◌, ◌↔◌, Contains, IfOk, OnOk, filter, map}, List.Sorted.IsStrictlySortedBy};
ghost use Rattle.echo_addr.specs.declared.address.Address.{Address};
ghost use Rattle.echo_verdict.specs.{declared.link.Link.Link, Drawn.back, Joining.is_full, Joining.is_joining};

use crate::drawing::{back, has_address, has_link};
use crate::link::Link;
use echo_addr::{Address, put_in_order};
use std::alloc::{AllocError, Global};

/// Those of these links that both ends list.
pub fn full_links(alloc: Global, links: &[Link]) -> Result<Vec<Link>, AllocError>
    requires { IsStrictlySortedBy ⟦<Link as Ord>⟧.cmp links.now }
    ensures { IfOk result (λ full. full.items ≡ filter (is_full links.now) links.now) }
{
    let mut full = Vec::new(alloc);
    'links: for link in links {
        if is_full(links, *link) {
            full.push(*link)?;
        }
    }
    Ok(full)
}

fn is_full(links: &[Link], link: Link) -> bool
    requires { IsStrictlySortedBy ⟦<Link as Ord>⟧.cmp links.now }
    ensures { result ≡ is_full links.now link }
{
    link.from != link.to && has_link(links, back(link))
}

/// The links between carriers, each in both directions, ascending, each once.
pub fn ties(alloc: Global, carriers: &[Address], links: &[Link]) -> Result<Vec<Link>, AllocError>
    requires { IsStrictlySortedBy ⟦<Address as Ord>⟧.cmp carriers.now }
    ensures ascending { IfOk result (λ ties. IsStrictlySortedBy ⟦<Link as Ord>⟧.cmp ties.items) }
    ensures members { IfOk result (λ ties. let joining = filter (is_joining carriers.now) links.now in
        (l : Link) → Contains ties.items l ↔ Contains (joining ++ map back joining) l) }
{
    let joining = joining_links(alloc, carriers, links)?;
    let mut ties = Vec::from_slice(alloc, &joining)?;
    push_back(&mut ties, &joining)?;
    put_in_order(&mut ties);
    Ok(ties)
}

/// Those of these links that lead to another carrier.
fn joining_links(
    alloc: Global,
    carriers: &[Address],
    links: &[Link],
) -> Result<Vec<Link>, AllocError>
    requires { IsStrictlySortedBy ⟦<Address as Ord>⟧.cmp carriers.now }
    ensures { IfOk result (λ joining. joining.items ≡ filter (is_joining carriers.now) links.now) }
{
    let mut joining = Vec::new(alloc);
    'links: for link in links {
        if is_joining(carriers, *link) {
            joining.push(*link)?;
        }
    }
    Ok(joining)
}

fn is_joining(carriers: &[Address], link: Link) -> bool
    requires { IsStrictlySortedBy ⟦<Address as Ord>⟧.cmp carriers.now }
    ensures { result ≡ is_joining carriers.now link }
{
    link.from != link.to && has_address(carriers, link.to)
}

/// Adds these links the other way.
fn push_back(all: &mut Vec<Link>, links: &[Link]) -> Result<(), AllocError>
    ensures { OnOk result (all.new.items ≡ all.old.items ++ map back links.now) }
{
    'links: for link in links {
        all.push(back(*link))?;
    }
    Ok(())
}
