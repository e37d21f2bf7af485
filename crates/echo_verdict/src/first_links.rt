//! The first faulty link.

ghost use Rattle.std.specs.{Prelude.◌≡◌, Prelude.IfOk, Prelude.MatchOption, Prelude.Contains, List.Sorted.IsStrictlySortedBy};
ghost use Rattle.echo_verdict.specs.{declared.link.Link.Link, Firsts.IsFirstLink, Nets.link};

use crate::link::Link;
use crate::searching::place_near;
use echo_addr::Address;
use std::alloc::{AllocError, Global};

/// The first link of a system to itself.
pub fn self_link(links: &[Link]) -> Option<Link>
    requires { IsStrictlySortedBy ⟦<Link as Ord>⟧.cmp links.now }
    ensures { MatchOption result
        ((l : Link) → Contains links.now l → ¬ (l.from ≡ l.to))
        (IsFirstLink links.now (λ l. l.from ≡ l.to)) }
{
    'links: for link in links {
        if link.from == link.to {
            return Some(*link);
        }
    }
    None
}

/// The first link to a system that is no carrier.
pub fn unknown_link(links: &[Link], carriers: &[Address]) -> Option<Link>
    requires links { IsStrictlySortedBy ⟦<Link as Ord>⟧.cmp links.now }
    requires carriers { IsStrictlySortedBy ⟦<Address as Ord>⟧.cmp carriers.now }
    ensures { MatchOption result
        ((l : Link) → Contains links.now l → Contains carriers.now l.to)
        (IsFirstLink links.now (λ l. ¬ Contains carriers.now l.to)) }
{
    // The links of a system ascend, so the next one may lead to the next carrier.
    let mut next = 0usize;
    'links: for link in links {
        let Some(place) = place_near(carriers, next, &link.to) else {
            return Some(*link);
        };
        next = place + 1;
    }
    None
}

/// The first link that only one of its ends lists. The systems are looked up among the carriers.
pub fn one_sided_link(
    alloc: Global,
    links: &[Link],
    carriers: &[Address],
) -> Result<Option<Link>, AllocError>
    requires links { IsStrictlySortedBy ⟦<Link as Ord>⟧.cmp links.now }
    requires carriers { IsStrictlySortedBy ⟦<Address as Ord>⟧.cmp carriers.now }
    ensures { IfOk result (λ found. MatchOption found
        ((l : Link) → Contains links.now l → Contains links.now (link l.to l.from))
        (IsFirstLink links.now (λ l. ¬ Contains links.now (link l.to l.from)))) }
{
    // The links back from one carrier follow each other, so the next search starts after the last hit.
    let mut behind = vec![in alloc; 0usize; carriers.len()]?;
    let mut carrier = 0usize;
    'links: for link in links {
        carrier = place_near(carriers, carrier.saturating_add(1), &link.to).unwrap_or(0);
        let guess = behind.get(carrier).copied().unwrap_or(0);
        let back = Link {
            from: link.to,
            to: link.from,
        };
        let Some(place) = place_near(links, guess, &back) else {
            return Ok(Some(*link));
        };
        if carrier < behind.len() {
            behind[carrier] = place + 1;
        }
    }
    Ok(None)
}
