//! The systems that carry an area, and their links.

ghost use Rattle.std.specs.{Prelude.{◌≡◌, ◌++◌, ◌↔◌, IsTrue, IfOk, OnOk, Contains, map}, List.{All, Sorted.IsStrictlySortedBy}};
ghost use Rattle.echo_addr.specs.declared.address.Address.{Address};
ghost use Rattle.echo_links.specs.Links.{IsFile};
ghost use Rattle.echo_filed.specs.Sets.{address_before};
ghost use Rattle.model_run.specs.Tidy.{carries, lists};
ghost use Rattle.echo_verdict.specs.declared.link.Link.{Link};
ghost use Rattle.echo_verdict.specs.Nets as net;

use crate::link::Link;
use echo_addr::{Address, put_in_order};
use echo_links::LinkFile;
use std::alloc::{AllocError, Global};

/// The own addresses of the files.
pub fn systems(alloc: Global, files: &[LinkFile]) -> Result<Vec<Address>, AllocError>
    ensures { IfOk result (λ all. all.items ≡ net.systems files.now) }
{
    let mut all = Vec::new(alloc);
    'files: for file in files {
        all.push(file.system())?;
    }
    Ok(all)
}

/// The addresses of the systems that carry the area, ascending, each once.
pub fn carriers(alloc: Global, files: &[LinkFile], tag: &[u8]) -> Result<Vec<Address>, AllocError>
    ensures ascending { IfOk result (λ all. IsStrictlySortedBy ⟦<Address as Ord>⟧.cmp all.items) }
    ensures members { IfOk result (λ all. (a : Address) → Contains all.items a ↔ IsTrue (carries files.now tag.now a)) }
{
    let mut all = carrying(alloc, files, tag)?;
    put_in_order(&mut all);
    Ok(all)
}

/// The address of each file that has the area, in order of the files.
fn carrying(alloc: Global, files: &[LinkFile], tag: &[u8]) -> Result<Vec<Address>, AllocError>
    ensures { IfOk result (λ all. all.items ≡ net.systems (net.carrying files.now tag.now)) }
{
    files
        .iter()
        .filter(|file| file.links(tag).is_some())
        .map(|file| file.system())
        .collect(alloc)
}

/// The links of the area, ascending, each once.
pub fn links(alloc: Global, files: &[LinkFile], tag: &[u8]) -> Result<Vec<Link>, AllocError>
    ensures ascending { IfOk result (λ all. IsStrictlySortedBy ⟦<Link as Ord>⟧.cmp all.items) }
    ensures fit { OnOk result (All IsFile files.now) }
    ensures members { IfOk result (λ all. (l : Link) → Contains all.items l ↔ IsTrue (lists files.now tag.now l.from l.to)) }
{
    let mut all = listed_links(alloc, files, tag)?;
    put_in_order(&mut all);
    Ok(all)
}

/// The links of each file, in order of the files.
fn listed_links(alloc: Global, files: &[LinkFile], tag: &[u8]) -> Result<Vec<Link>, AllocError>
    ensures links { IfOk result (λ all. all.items ≡ net.listed_links files.now tag.now) }
    ensures fit { OnOk result (All IsFile files.now) }
{
    let mut all = Vec::new(alloc);
    'files: for file in files {
        push_links(&mut all, file, tag)?;
    }
    Ok(all)
}

fn push_links(all: &mut Vec<Link>, file: &LinkFile, tag: &[u8]) -> Result<(), AllocError>
    ensures links { OnOk result (all.new.items ≡ all.old.items ++ net.links_from_file tag.now file.now) }
    ensures fits { IsFile file.now }
{
    let from = file.system();
    match file.links(tag) {
        Some(listed) => push_each(all, from, listed),
        None => Ok(()),
    }
}

/// Appends the links from this system to these.
pub fn push_each(all: &mut Vec<Link>, from: Address, listed: &[Address]) -> Result<(), AllocError>
    ensures { OnOk result (all.new.items ≡ all.old.items ++ map (net.link from) listed.now) }
{
    'listed: for to in listed {
        all.push(Link { from, to: *to })?;
    }
    Ok(())
}

/// Does the first address come before the second?
pub fn is_before(one: Address, other: Address) -> bool
    ensures { result ≡ address_before one other }
{
    one < other
}
