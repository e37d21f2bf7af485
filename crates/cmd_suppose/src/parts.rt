//! The parts of an area: systems that are joined by links that both ends list.

ghost use Rattle.std.specs.{Prelude.{◌≡◌, ◌<◌, ◌↔◌, ℕ, Bool, IfOk, Contains, filter, length, slice_index, vec_len}, List.Sorted.IsStrictlySortedBy};
ghost use Rattle.{echo_addr.specs.declared.address.Address.Address, echo_verdict.specs.{declared.link.Link.Link, Drawn.{back, has_link}}};
ghost use Rattle.cmd_suppose.specs.Parts.{AreBothWays, AreCutOff, AreGrouped, AreLabels, AreOthers, ArePaired, AreParts, AreRelabeled, AreSettled, IsLargestAt, JoinsEnds};

use crate::listing::Listing;
use echo_addr::{Address, Items};
use echo_links::LinkFile;
use echo_verdict::{Link, back, carriers, has_link, links, place};
use std::alloc::{AllocError, Global};

/// The parts of the area that are cut off: each part but the largest, by the smallest systems. Of two largest parts the
/// first is not cut off. Fails only when out of memory.
pub fn cut_parts(
    alloc: Global,
    files: &[LinkFile],
    tag: &[u8],
) -> Result<Vec<Items<Address>>, AllocError>
    ensures { IfOk result (λ cut. AreCutOff files.now tag.now cut.items) }
{
    let mut parts = all_parts(alloc, files, tag)?;
    take_largest(&mut parts);
    Ok(parts)
}

/// Takes the first of the largest parts away.
fn take_largest(parts: &mut Vec<Items<Address>>)
    ensures { AreOthers parts.old.items parts.new.items }
{
    let place = largest(parts.as_slice());
    if place < parts.len() {
        parts.remove(place);
    }
}

/// The place of the first of the largest parts, or 0 if there are none.
fn largest(parts: &[Items<Address>]) -> usize
    ensures { 0 < length parts.now → IsLargestAt parts.now result }
{
    let mut largest = 0;
    'parts: for place in 0..parts.len() {
        if parts[largest].len() < parts[place].len() {
            largest = place;
        }
    }
    largest
}

/// The parts of the area, by their smallest systems.
fn all_parts(
    alloc: Global,
    files: &[LinkFile],
    tag: &[u8],
) -> Result<Vec<Items<Address>>, AllocError>
    ensures { IfOk result (λ parts. AreParts files.now tag.now parts.items) }
{
    let carriers = carriers(alloc, files, tag)?;
    let links = links(alloc, files, tag)?;
    let both = both_ways(alloc, &links)?;
    let labels = labels(alloc, &carriers, &both)?;
    let parts = grouped(alloc, &carriers, &labels)?;
    Ok(parts)
}

/// Those of these links that both ends list.
fn both_ways(alloc: Global, links: &[Link]) -> Result<Vec<Link>, AllocError>
    requires { IsStrictlySortedBy ⟦<Link as Ord>⟧.cmp links.now }
    ensures { IfOk result (λ both. both.items ≡ filter (λ l. has_link links.now (back l)) links.now) }
{
    let mut both = Vec::new(alloc);
    'links: for link in links {
        if has_link(links, back(*link)) {
            both.push(*link)?;
        }
    }
    Ok(both)
}

/// A label for each carrier. Carriers that these links join, one after another, have one label: the place of one of them,
/// not after any of them.
fn labels(alloc: Global, carriers: &[Address], both: &[Link]) -> Result<Vec<usize>, AllocError>
    requires { IsStrictlySortedBy ⟦<Address as Ord>⟧.cmp carriers.now }
    ensures { (linked : Address → Address → Bool) → AreBothWays linked both.now →
        IfOk result (λ labels. AreLabels linked carriers.now labels.items × AreSettled carriers.now both.now labels.items) }
{
    let mut labels = own_places(alloc, carriers.len())?;
    'links: for link in both {
        join(carriers, *link, &mut labels);
    }
    Ok(labels)
}

/// The place of each carrier.
fn own_places(alloc: Global, count: usize) -> Result<Vec<usize>, AllocError>
    ensures { IfOk result (λ places. (vec_len places ≡ count) × ((i : ℕ) → i < count → slice_index places.items i ≡ i)) }
{
    let mut places = Vec::new(alloc);
    'places: for place in 0..count {
        places.push(place)?;
    }
    Ok(places)
}

/// Gives both ends of the link, and all that have one of their labels, the smaller of these.
fn join(carriers: &[Address], link: Link, labels: &mut Vec<usize>)
    requires carriers { IsStrictlySortedBy ⟦<Address as Ord>⟧.cmp carriers.now }
    requires same_length { length labels.old.items ≡ length carriers.now }
    ensures joins { JoinsEnds carriers.now link labels.old.items labels.new.items }
    ensures same_length { length labels.new.items ≡ length labels.old.items }
{
    let Some(one) = place(carriers, &link.from) else {
        return;
    };
    let Some(other) = place(carriers, &link.to) else {
        return;
    };
    let near = labels[one];
    let far = labels[other];
    if near < far {
        relabel(labels, far, near);
    } else {
        relabel(labels, near, far);
    }
}

/// Puts a label in the place of another.
fn relabel(labels: &mut Vec<usize>, old: usize, new: usize)
    ensures relabeled { AreRelabeled old new labels.old.items labels.new.items }
    ensures same_length { length labels.new.items ≡ length labels.old.items }
{
    'places: for place in 0..labels.len() {
        if labels[place] == old {
            labels[place] = new;
        }
    }
}

/// The carriers with one label, by the labels.
fn grouped(
    alloc: Global,
    carriers: &[Address],
    labels: &[usize],
) -> Result<Vec<Items<Address>>, AllocError>
    requires carriers { IsStrictlySortedBy ⟦<Address as Ord>⟧.cmp carriers.now }
    requires same_length { length labels.now ≡ length carriers.now }
    requires within { (i : ℕ) → i < length carriers.now → slice_index labels.now i < length carriers.now }
    ensures { IfOk result (λ parts. AreGrouped carriers.now labels.now (length carriers.now) parts.items) }
{
    let members = Listing::from_pairs(pairs(alloc, carriers, labels)?);
    let mut parts = Vec::new(alloc);
    'places: for place in 0..carriers.len() {
        if labels[place] == place {
            let part = members.listers(alloc, carriers[place])?;
            parts.push(Items::new(part))?;
        }
    }
    Ok(parts)
}

/// Each carrier after that of its label.
fn pairs(alloc: Global, carriers: &[Address], labels: &[usize]) -> Result<Vec<Link>, AllocError>
    requires same_length { length labels.now ≡ length carriers.now }
    requires within { (i : ℕ) → i < length carriers.now → slice_index labels.now i < length carriers.now }
    ensures { IfOk result (λ pairs. (l : Link) → Contains pairs.items l ↔ ArePaired carriers.now labels.now (length carriers.now) l) }
{
    let mut pairs = Vec::new(alloc);
    'places: for place in 0..carriers.len() {
        pairs.push(Link {
            from: carriers[labels[place]],
            to: carriers[place],
        })?;
    }
    Ok(pairs)
}
