//! A net as a graph: a row of links for each carrier.

ghost use Rattle.std.specs.{Prelude.{◌≡◌, ◌<◌, ◌↔◌, ℕ, IfOk, Contains}, List.Sorted.IsStrictlySortedBy};
ghost use Rattle.model_graph.specs.{Rows.IsAscending, Walk.IsAt};
ghost use Rattle.echo_verdict.specs.{declared.link.Link.Link, Rows.AreRows};

use crate::area_lists::is_before;
use crate::link::Link;
use crate::searching::place_near;
use echo_addr::{Address, put_in_order};
use model_graph::Links;
use std::alloc::{AllocError, Global};

/// A row for each carrier, with the places of the systems that it lists.
pub fn rows(alloc: Global, carriers: &[Address], links: &[Link]) -> Result<Vec<Links>, AllocError>
    requires carriers { IsStrictlySortedBy ⟦<Address as Ord>⟧.cmp carriers.now }
    requires links { IsStrictlySortedBy ⟦<Link as Ord>⟧.cmp links.now }
    requires known { (l : Link) → Contains links.now l → Contains carriers.now l.to }
    ensures { IfOk result (λ rows. AreRows carriers.now links.now rows.items) }
{
    let mut rows = Vec::new(alloc);
    'carriers: for system in carriers {
        let run = outgoing_links(links, *system);
        let row = row(alloc, carriers, run)?;
        rows.push(Links::new(row))?;
    }
    Ok(rows)
}

/// The links from this system.
pub fn outgoing_links(links: &[Link], system: Address) -> &[Link]
    requires { IsStrictlySortedBy ⟦<Link as Ord>⟧.cmp links.now }
    ensures { (l : Link) → Contains result.now l ↔ (Contains links.now l × (l.from ≡ system)) }
{
    let start = links.partition_point(|link| is_before(link.from, system));
    let (_, rest) = links.split_at(start);
    let count = rest.partition_point(|link| !is_before(system, link.from));
    let (run, _) = rest.split_at(count);
    run
}

/// The places of the systems to which these links lead, ascending.
fn row(alloc: Global, carriers: &[Address], links: &[Link]) -> Result<Vec<usize>, AllocError>
    requires carriers { IsStrictlySortedBy ⟦<Address as Ord>⟧.cmp carriers.now }
    requires known { (l : Link) → Contains links.now l → Contains carriers.now l.to }
    ensures ascending { IfOk result (λ row. IsAscending row.items) }
    ensures members { IfOk result (λ row. (j : ℕ) → Contains row.items j ↔
        ((l : Link) × Contains links.now l × IsAt carriers.now j l.to)) }
{
    let mut row = Vec::with_capacity(alloc, links.len())?;
    // The links ascend, so the next one may lead to the next carrier.
    let mut next = 0usize;
    'links: for link in links {
        let place = place_near(carriers, next, &link.to).unwrap();
        row.push(place)?;
        next = place + 1;
    }
    put_in_order(&mut row);
    Ok(row)
}
