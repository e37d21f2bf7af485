//! The addresses of a line of a link file.

ghost use Rattle.std.specs.Prelude.{◌≡◌, ◌⊎◌, [], Some, None, true, false, map, MatchResult};
ghost use Rattle.echo_addr.specs.{Address.address_in, Entries.tokens};
ghost use Rattle.echo_links.specs.declared.fault.LinkFault.TheVariants as link;
ghost use Rattle.echo_links.specs.{LinkLines.first_of, LinkLines.is_one_address, LinkLines.links_fault, LinkReading.IsWordOf};

use super::links::Links;
use crate::fault::LinkFault;
use echo_addr::{Address, next_token};
use std::alloc::Global;
use std::collections::BTreeSet;

fn address(word: &[u8]) -> Option<Address>
    ensures { IsWordOf word.now result }
{
    Address::parse(word).ok()
}

pub(super) fn system_in(number: u64, rest: &[u8]) -> Result<Address, LinkFault>
    ensures { MatchResult result
        (λ a. (is_one_address (tokens rest.now) ≡ true) × (a ≡ address_in (first_of (tokens rest.now))))
        (λ fault. (is_one_address (tokens rest.now) ≡ false) × (fault ≡ link.BadAddress number)) }
{
    let bad = LinkFault::BadAddress { line: number };
    let Some((word, after)) = next_token(rest) else {
        return Err(bad);
    };
    let Some(address) = address(word) else {
        return Err(bad);
    };
    if next_token(after).is_some() {
        return Err(bad);
    }
    Ok(address)
}

pub(super) fn links_in(alloc: Global, number: u64, rest: &[u8]) -> Result<Links, LinkFault>
    ensures { MatchResult result
        (λ links. (links_fault number [] (tokens rest.now) ≡ None) × (links ≡ map address_in (tokens rest.now)))
        (λ fault. (fault ≡ link.Memory) ⊎ (links_fault number [] (tokens rest.now) ≡ Some fault)) }
{
    let mut all = Vec::new(alloc);
    let mut sorted = BTreeSet::new(alloc);
    let mut left = rest;
    'links: while let Some((word, after)) = next_token(left) {
        let Some(address) = address(word) else {
            return Err(LinkFault::BadAddress { line: number });
        };
        if !sorted.insert(address)? {
            return Err(LinkFault::RepeatedLink { line: number });
        }
        all.push(address)?;
        left = after;
    }
    Ok(Links { all, sorted })
}
