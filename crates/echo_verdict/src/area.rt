//! An area in the link files, each looked up once.

ghost use Rattle.std.specs.{Prelude.{◌≡◌, ◌++◌, ◌∷◌, [], ◌↔◌, IsTrue, IfOk, OnOk, Contains}, List.{All, count_by, Sorted.IsStrictlySortedBy}};
ghost use Rattle.echo_addr.specs.declared.address.Address.{Address};
ghost use Rattle.echo_filed.specs.Sets.{address_before};
ghost use Rattle.echo_links.specs.Links.{IsFile};
ghost use Rattle.model_run.specs.Tidy.{carries, lists};
ghost use Rattle.echo_verdict.specs.declared.link.Link.{Link};
ghost use Rattle.echo_verdict.specs.Nets as net;

use crate::area_lists::{is_before, push_each};
use crate::link::Link;
use echo_addr::{Address, put_in_order};
use echo_links::LinkFile;
use std::alloc::{AllocError, Global};

/// The carriers of an area and its links, ascending, each once, and the numbers of carriers and of pairs of
/// linked systems.
#[derive(Drop)]
pub struct AreaGraph {
    pub carriers: Vec<Address>,
    pub links: Vec<Link>,
    pub systems: usize,
    pub pairs: usize,
}

/// The area of the files.
pub fn collect_area(alloc: Global, files: &[LinkFile], tag: &[u8]) -> Result<AreaGraph, AllocError>
    ensures carriers { IfOk result (λ area. IsStrictlySortedBy ⟦<Address as Ord>⟧.cmp area.carriers.items) }
    ensures links { IfOk result (λ area. IsStrictlySortedBy ⟦<Link as Ord>⟧.cmp area.links.items) }
    ensures members { IfOk result (λ area. (a : Address) → Contains area.carriers.items a ↔ IsTrue (carries files.now tag.now a)) }
    ensures listed { IfOk result (λ area. (l : Link) → Contains area.links.items l ↔ IsTrue (lists files.now tag.now l.from l.to)) }
    ensures systems { IfOk result (λ area. area.systems ≡ net.carrier_count files.now tag.now) }
    ensures pairs { IfOk result (λ area. area.pairs ≡ net.linked_pairs files.now tag.now) }
    ensures fit { OnOk result (All IsFile files.now) }
{
    let (mut carriers, mut links) = gather(alloc, files, tag)?;
    let systems = carriers.len();
    let pairs = count_upward(&links);
    put_in_order(&mut carriers);
    put_in_order(&mut links);
    Ok(AreaGraph {
        carriers,
        links,
        systems,
        pairs,
    })
}

/// The address of each file that has the area, and its links, in order of the files.
fn gather(
    alloc: Global,
    files: &[LinkFile],
    tag: &[u8],
) -> Result<(Vec<Address>, Vec<Link>), AllocError>
    ensures carriers { IfOk result (λ all. all.0.items ≡ net.systems (net.carrying files.now tag.now)) }
    ensures links { IfOk result (λ all. all.1.items ≡ net.listed_links files.now tag.now) }
    ensures fit { OnOk result (All IsFile files.now) }
{
    let mut carriers = Vec::new(alloc);
    let mut links = Vec::new(alloc);
    'files: for file in files {
        take_file(&mut carriers, &mut links, file, tag)?;
    }
    Ok((carriers, links))
}

/// Appends the address of the file, where it has the area, and its links.
fn take_file(
    carriers: &mut Vec<Address>,
    links: &mut Vec<Link>,
    file: &LinkFile,
    tag: &[u8],
) -> Result<(), AllocError>
    ensures carriers { OnOk result (carriers.new.items ≡ carriers.old.items ++ net.systems (net.carrying (file.now ∷ []) tag.now)) }
    ensures links { OnOk result (links.new.items ≡ links.old.items ++ net.links_from_file tag.now file.now) }
    ensures fits { IsFile file.now }
{
    let from = file.system();
    match file.links(tag) {
        Some(listed) => {
            carriers.push(from)?;
            push_each(links, from, listed)
        }
        None => Ok(()),
    }
}

/// How many of the links lead to a greater address.
fn count_upward(links: &[Link]) -> usize
    ensures { result ≡ count_by (λ l. address_before l.from l.to) links.now }
{
    links
        .iter()
        .filter(|link| is_before(link.from, link.to))
        .count()
}
