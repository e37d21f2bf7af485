//! The systems that an area lists, and those that list them.

ghost use Rattle.std.specs.{Prelude.{◌≡◌, ◌++◌, ◌↔◌, ℕ, List, IfOk, OnOk, Contains, map}, List.{flat_map, Sorted.IsStrictlySortedBy}};
ghost use Rattle.{echo_addr.specs.declared.address.Address.Address, echo_links.specs.Links.LinkFile, model_run.specs.Tidy.lists};
ghost use Rattle.{echo_verdict.specs.{declared.link.Link.Link, Drawn.back}, cmd_suppose.specs.Listings.{IsListedIn, IsListing, is_listed, unknown_from}};
ghost use Rattle.echo_verdict.specs.Nets as net;

use echo_addr::{Address, put_in_order};
use echo_links::LinkFile;
use echo_verdict::{Link, back, has_address, links, outgoing_links, systems};
use std::alloc::{AllocError, Global};
use std::marker::Model;

/// The links of an area the other way: from the listed system to the one that lists it, ascending.
#[derive(Drop)]
pub struct Listing {
    backs: Vec<Link>,
}

impl Model for Listing {
    ghost use Rattle.std.specs.{Prelude.List, List.Sorted.IsStrictlySortedBy};
    ghost use Rattle.echo_verdict.specs.declared.link.Link.{Link};
    ghost use Rattle.cmd_suppose.specs.Listings.{back_order};

    ghost Value = { List Link };

    ghost view = { λ listing. listing.backs.items };

    ghost invariant = { λ listing. IsStrictlySortedBy back_order listing.backs.items };
}

impl Listing {
    /// The links of the area. Fails only when out of memory.
    pub fn of(alloc: Global, files: &[LinkFile], tag: &[u8]) -> Result<Listing, AllocError>
        ensures { IfOk result (IsListing files.now tag.now) }
    {
        Ok(Listing::from_pairs(backs(alloc, files, tag)?))
    }

    /// These pairs in order.
    pub(crate) fn from_pairs(mut pairs: Vec<Link>) -> Listing
        ensures { (l : Link) → Contains result l ↔ Contains pairs.items l }
    {
        put_in_order(&mut pairs);
        Listing { backs: pairs }
    }

    /// Whether some file lists the system.
    pub fn has(&self, system: Address) -> bool
        ensures { (files : List LinkFile) (tag : List ℕ) → IsListing files tag self.now → result ≡ is_listed files tag system }
    {
        !outgoing_links(&self.backs, system).is_empty()
    }

    /// The systems that list this one, ascending, each once. Fails only when out of memory.
    pub fn listers(&self, alloc: Global, system: Address) -> Result<Vec<Address>, AllocError>
        ensures ascending { IfOk result (λ all. IsStrictlySortedBy ⟦<Address as Ord>⟧.cmp all.items) }
        ensures members { IfOk result (λ all. (b : Address) → Contains all.items b ↔ Contains self.now (net.link system b)) }
    {
        let mut all = ends(alloc, outgoing_links(&self.backs, system))?;
        put_in_order(&mut all);
        Ok(all)
    }
}

/// The links of the area the other way.
fn backs(alloc: Global, files: &[LinkFile], tag: &[u8]) -> Result<Vec<Link>, AllocError>
    ensures { IfOk result (λ all. IsListing files.now tag.now all.items) }
{
    let links = links(alloc, files, tag)?;
    let backs = turned(alloc, &links)?;
    Ok(backs)
}

/// These links the other way.
fn turned(alloc: Global, links: &[Link]) -> Result<Vec<Link>, AllocError>
    ensures { IfOk result (λ all. all.items ≡ map back links.now) }
{
    let mut all = Vec::new(alloc);
    'links: for link in links {
        all.push(back(*link))?;
    }
    Ok(all)
}

/// The second end of each of these links.
fn ends(alloc: Global, links: &[Link]) -> Result<Vec<Address>, AllocError>
    ensures { IfOk result (λ all. all.items ≡ map (λ l. l.to) links.now) }
{
    let mut all = Vec::new(alloc);
    'links: for link in links {
        all.push(link.to)?;
    }
    Ok(all)
}

/// The systems that one of the areas lists, that have no file, and that are not among the named ones, ascending, each
/// once. Fails only when out of memory.
pub fn missing(
    alloc: Global,
    files: &[LinkFile],
    listings: &[Listing],
    named: &[Address],
) -> Result<Vec<Address>, AllocError>
    ensures ascending { IfOk result (λ all. IsStrictlySortedBy ⟦<Address as Ord>⟧.cmp all.items) }
    ensures members { IfOk result (λ all. (a : Address) → Contains all.items a ↔
        (IsListedIn listings.now a × (¬ Contains (net.systems files.now) a) × (¬ Contains named.now a))) }
{
    let known = known(alloc, files, named)?;
    let mut all = unknown(alloc, listings, &known)?;
    put_in_order(&mut all);
    Ok(all)
}

/// The systems of the files, and the named ones, ascending, each once.
fn known(alloc: Global, files: &[LinkFile], named: &[Address]) -> Result<Vec<Address>, AllocError>
    ensures ascending { IfOk result (λ all. IsStrictlySortedBy ⟦<Address as Ord>⟧.cmp all.items) }
    ensures members { IfOk result (λ all. (a : Address) → Contains all.items a ↔ Contains (net.systems files.now ++ named.now) a) }
{
    let mut all = systems(alloc, files)?;
    all.extend_from_slice(named)?;
    put_in_order(&mut all);
    Ok(all)
}

/// The systems that the areas list and that are not among these, in order of the areas.
fn unknown(
    alloc: Global,
    listings: &[Listing],
    known: &[Address],
) -> Result<Vec<Address>, AllocError>
    requires { IsStrictlySortedBy ⟦<Address as Ord>⟧.cmp known.now }
    ensures { IfOk result (λ all. all.items ≡ flat_map (unknown_from known.now) listings.now) }
{
    let mut all = Vec::new(alloc);
    'listings: for listing in listings {
        push_unknown(&mut all, listing, known)?;
    }
    Ok(all)
}

/// The same of one area.
fn push_unknown(
    all: &mut Vec<Address>,
    listing: &Listing,
    known: &[Address],
) -> Result<(), AllocError>
    requires { IsStrictlySortedBy ⟦<Address as Ord>⟧.cmp known.now }
    ensures { OnOk result (all.new.items ≡ all.old.items ++ unknown_from known.now listing.now) }
{
    'backs: for link in &listing.backs {
        if !has_address(known, link.from) {
            all.push(link.from)?;
        }
    }
    Ok(())
}
