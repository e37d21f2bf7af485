//! The link file of a system: its address, its name, and the links of each area.

ghost use Rattle.std.specs.Prelude.{◌≡◌, ◌⊎◌, length, slice_get, option_copied, option_map, unwrap_or, codes, Result, Err, IfOk};
ghost use Rattle.echo_links.specs.{declared.fault.LinkFault.LinkFault, LinkLines.LinksOf, Links.IsFile, Links.area_of, Links.has_area, Links.is_link};
ghost use Rattle.echo_links.specs.declared.fault.LinkFault.TheVariants as link;
ghost use Rattle.echo_links.specs.Links as model;

mod addresses;
mod areas;
mod lines;
mod links;
mod reading;

use crate::fault::LinkFault;
use areas::Areas;
use echo_addr::{Address, Items};
pub use lines::{has_control_byte, is_skipped, split_line};
use reading::read_lines;
use std::alloc::{AllocError, Global};
use std::marker::Model;

/// A link file: the own address, the name, and the areas with their links, in order. A name has at
/// most 40 bytes of one line, a tag 1 to 60 bytes from `!` to `~` without small letters. Each area
/// comes once, and each link once in it.
#[derive(Debug, Drop)]
pub struct LinkFile {
    system: Address,
    name: Items<u8>,
    areas: Areas,
}

impl Model for LinkFile {
    ghost use Rattle.echo_links.specs.Links as model;
    ghost use Rattle.echo_links.specs.Links.{IsFile};

    ghost Value = { model.LinkFile };

    ghost view = { λ f. record { system = f.system; name = f.name; areas = f.areas } };

    ghost invariant = { λ f. IsFile (record { system = f.system; name = f.name; areas = f.areas }) };
}

/// The name where no line gives one.
const DEFAULT_NAME: &[u8] = b"echonet";

fn judged(alloc: Global, bytes: &[u8]) -> Result<LinkFile, LinkFault>
    ensures { (result ≡ Err link.Memory) ⊎ LinksOf bytes.now result }
{
    let reading = read_lines(alloc, bytes)?;
    let Some(system) = reading.system else {
        return Err(LinkFault::NoSystem { line: 0 });
    };
    let name = name_or_default(alloc, reading.name)?;
    Ok(LinkFile {
        system,
        name,
        areas: reading.areas,
    })
}

fn name_or_default(alloc: Global, given: Option<Items<u8>>) -> Result<Items<u8>, AllocError>
    ensures { IfOk result (λ name. name ≡ unwrap_or given (codes "echonet")) }
{
    match given {
        Some(name) => Ok(name),
        None => Ok(Items::new(Vec::from_slice(alloc, DEFAULT_NAME)?)),
    }
}

impl LinkFile {
    /// Reads a link file. A fault is that of the first faulty line. `Memory` is the only other answer.
    pub fn read(alloc: Global, bytes: &[u8]) -> Result<LinkFile, LinkFault>
        ensures judged { (result ≡ Err link.Memory) ⊎ LinksOf bytes.now result }
        ensures only { (other : Result model.LinkFile LinkFault) → LinksOf bytes.now other → (result ≡ Err link.Memory) ⊎ (result ≡ other) }
    {
        judged(alloc, bytes)
    }

    /// The own address.
    pub fn system(&self) -> Address
        ensures own { result ≡ self.now.system }
        ensures file { IsFile self.now }
    {
        self.system
    }

    /// The name that origin lines show.
    pub fn name(&self) -> &[u8]
        ensures { result.now ≡ self.now.name }
    {
        self.name.as_slice()
    }

    /// How many areas there are.
    pub fn areas(&self) -> usize
        ensures { result ≡ length self.now.areas }
    {
        self.areas.len()
    }

    /// The tag of the area of this number, counted from 0 in order of the file.
    pub fn area(&self, i: usize) -> Option<&[u8]>
        ensures { option_copied result ≡ option_map (λ area. area.tag) (slice_get self.now.areas i) }
    {
        self.areas.tag(i)
    }

    /// The links of the area with this tag, in order. Tags are compared byte for byte.
    pub fn links(&self, tag: &[u8]) -> Option<&[Address]>
        ensures { option_copied result ≡ option_map (λ area. area.links) (area_of self.now tag.now) }
    {
        Some(self.areas.links(tag)?.as_slice())
    }

    /// Whether there is an area with this tag.
    pub fn has_area(&self, tag: &[u8]) -> bool
        ensures { result ≡ has_area self.now tag.now }
    {
        self.areas.has(tag)
    }

    /// Whether the address is a link of the area with this tag.
    #[tactic(auto, unfolding(crate::specs::Links::links_of))]
    pub fn is_link(&self, tag: &[u8], address: Address) -> bool
        ensures { result ≡ is_link self.now tag.now address }
    {
        match self.areas.links(tag) {
            Some(links) => links.contains(address),
            None => false,
        }
    }
}
