//! The link files of systems that sent none, for several areas at once.
ghost use Rattle.std.specs.{Prelude.{◌≡◌, ◌++◌, ◌∷◌, [], ◌⊎◌, ℕ, List, IfErr, IfOk, OnOk, filter}, List.AllZip};
ghost use Rattle.echo_links.specs.Links.{LinkFile, upper};
ghost use Rattle.{cmd_suppose.specs.Listings.{IsListing, is_listed}, cmd_status.specs.{Ended.IsOutOfMemory, Inputs.IsLinkFault}, cmd_print.specs.Pushed.Pushes};
ghost use Rattle.cmd_suppose.specs.SupposedFiles.{AddsSupposed, AreMissing, AreSupposed, AreSupposedLines, AreUnseen, IsSupposedFile, ReadsMore, ReadsSupposed, Supposes, SupposesIn, supposed_here, unseen_line};
ghost use Rattle.cmd_suppose.specs.SupposedFiles as supposed;

use crate::assuming::{is_carried, push_links};
use crate::leaving::{push_area, push_system, staying};
use crate::listing::{Listing, missing};
use cmd_status::{Fault, link_files};
use echo_addr::{Address, Items, put_in_order};
use echo_links::LinkFile;
use std::alloc::{AllocError, Global};

/// Which systems are judged without a file, and which are left out.
#[derive(Clone, Copy)]
pub struct Supposed<'s> {
    /// These have no file. They list exactly those who list them.
    pub named: &'s [Address],
    /// So does each system that a file lists and that has no file.
    pub missing: bool,
    /// No file is of these systems, and none lists them.
    pub without: &'s [Address],
}

/// The assumed systems of an area, and those of them behind which nothing was seen.
#[derive(Drop)]
pub struct SupposedHere {
    pub systems: Vec<Address>,
    pub unseen: Vec<Address>,
}

/// Adds to link files those of the assumed systems in the area of the tag, its letters made upper case. The files of left
/// out systems are added too. The first fault of the given files is returned.
pub fn suppose<'a>(
    alloc: Global,
    tag: &[u8],
    files: &mut Vec<Items<u8>>,
    supposed: Supposed<'_>,
) -> Result<SupposedHere, Fault<'a>>
    ensures ok { IfOk result (λ here. Supposes (upper tag.now) supposed.entry.named.now supposed.entry.missing supposed.entry.without.now files.old.items files.new.items here.systems.items here.unseen.items) }
    ensures err { IfErr result (λ fault. IsOutOfMemory fault ⊎ IsLinkFault files.old.items fault) }
{
    let links = link_files(alloc, files.as_slice())?;
    let tag = tag.to_ascii_uppercase(alloc)?;
    let here = suppose_read(alloc, &tag, files, &links, supposed)?;
    Ok(here)
}

// The same of link files that are read, and of the tag in upper case.
fn suppose_read(
    alloc: Global,
    tag: &[u8],
    texts: &mut Vec<Items<u8>>,
    files: &[LinkFile],
    supposed: Supposed<'_>,
) -> Result<SupposedHere, AllocError>
    ensures { IfOk result (λ here. SupposesIn files.now tag.now supposed.entry.named.now supposed.entry.missing supposed.entry.without.now texts.old.items texts.new.items here.systems.items here.unseen.items) }
{
    let tags = one_tag(alloc, tag)?;
    let listings = listings(alloc, files, &tags)?;
    let systems = supposed_systems(alloc, files, &listings, supposed.named, supposed.missing)?;
    let areas = SupposedAreas {
        tags: &tags,
        listings: &listings,
    };
    push_files(alloc, texts, files, areas, false, &systems)?;
    let unseen = unseen(alloc, files, tag, supposed.without, &systems)?;
    Ok(SupposedHere { systems, unseen })
}

/// This tag alone.
pub fn one_tag(alloc: Global, tag: &[u8]) -> Result<Vec<Items<u8>>, AllocError>
    ensures { IfOk result (λ tags. tags.items ≡ tag.now ∷ []) }
{
    let mut tags = Vec::new(alloc);
    tags.push(Items::new(Vec::from_slice(alloc, tag)?))?;
    Ok(tags)
}

/// Who lists whom in each of the areas.
pub fn listings(
    alloc: Global,
    files: &[LinkFile],
    tags: &[Items<u8>],
) -> Result<Vec<Listing>, AllocError>
    ensures { IfOk result (λ all. AllZip (IsListing files.now) tags.now all.items) }
{
    let mut all = Vec::new(alloc);
    'tags: for tag in tags {
        all.push(Listing::of(alloc, files, tag.as_slice())?)?;
    }
    Ok(all)
}

/// The assumed systems of the areas: the named ones, and the missing ones if they are asked for.
pub fn supposed_systems(
    alloc: Global,
    files: &[LinkFile],
    listings: &[Listing],
    named: &[Address],
    asked: bool,
) -> Result<Vec<Address>, AllocError>
    ensures { (tags : List (List ℕ)) → AllZip (IsListing files.now) tags listings.now → IfOk result (λ all. AreSupposed files.now tags named.now asked all.items) }
{
    let others = missing_in(alloc, files, listings, named, asked)?;
    let mut all = Vec::from_slice(alloc, named)?;
    all.extend_from_slice(&others)?;
    Ok(all)
}

// The missing systems, if they are asked for.
fn missing_in(
    alloc: Global,
    files: &[LinkFile],
    listings: &[Listing],
    named: &[Address],
    asked: bool,
) -> Result<Vec<Address>, AllocError>
    ensures { (tags : List (List ℕ)) → AllZip (IsListing files.now) tags listings.now → IfOk result (λ all. AreMissing asked files.now tags named.now all.items) }
{
    if asked {
        let all = missing(alloc, files, listings, named)?;
        Ok(all)
    } else {
        Ok(Vec::new(alloc))
    }
}

/// Areas, and who lists whom in each.
#[derive(Clone, Copy)]
pub struct SupposedAreas<'s> {
    pub tags: &'s [Items<u8>],
    pub listings: &'s [Listing],
}

/// Appends the link files of the assumed systems to those that were read. With `listed` an assumed system has only areas
/// that list it.
pub fn read_supposed<'a>(
    alloc: Global,
    links: &mut Vec<LinkFile>,
    areas: SupposedAreas<'_>,
    listed: bool,
    assumed: &[Address],
) -> Result<(), Fault<'a>>
    requires { AllZip (IsListing links.old.items) areas.tags.now areas.listings.now }
    ensures ok { OnOk result (ReadsSupposed listed links.old.items areas.entry.tags.now assumed.now links.new.items) }
    ensures err { IfErr result (λ fault. IsOutOfMemory fault ⊎ ((texts : List (List ℕ)) × AllZip (IsSupposedFile listed links.old.items areas.entry.tags.now) assumed.now texts × IsLinkFault texts fault)) }
{
    let mut texts = Vec::new(alloc);
    push_files(alloc, &mut texts, links.as_slice(), areas, listed, assumed)?;
    read_more(alloc, links, &texts)?;
    Ok(())
}

// Reads further link files, and appends them to those that were read.
fn read_more<'a>(
    alloc: Global,
    links: &mut Vec<LinkFile>,
    texts: &[Items<u8>],
) -> Result<(), Fault<'a>>
    ensures ok { OnOk result (ReadsMore texts.now links.old.items links.new.items) }
    ensures err { IfErr result (λ fault. IsOutOfMemory fault ⊎ IsLinkFault texts.now fault) }
{
    'texts: for text in texts {
        let file = LinkFile::read(alloc, text.as_slice())?;
        links.push(file)?;
    }
    Ok(())
}

// Adds the link file of each assumed system.
fn push_files(
    alloc: Global,
    texts: &mut Vec<Items<u8>>,
    files: &[LinkFile],
    areas: SupposedAreas<'_>,
    listed: bool,
    assumed: &[Address],
) -> Result<(), AllocError>
    requires { AllZip (IsListing files.now) areas.tags.now areas.listings.now }
    ensures { OnOk result (AddsSupposed listed files.now areas.entry.tags.now assumed.now texts.old.items texts.new.items) }
{
    'assumed: for address in assumed {
        texts.push(file_text(alloc, files, areas, listed, *address)?)?;
    }
    Ok(())
}

// The link file of an assumed system.
fn file_text(
    alloc: Global,
    files: &[LinkFile],
    areas: SupposedAreas<'_>,
    listed: bool,
    address: Address,
) -> Result<Items<u8>, AllocError>
    requires { AllZip (IsListing files.now) areas.tags.now areas.listings.now }
    ensures { IfOk result (λ text. IsSupposedFile listed files.now areas.entry.tags.now address text) }
{
    let mut text = Vec::new(alloc);
    push_system(&mut text, address)?;
    push_supposed_areas(alloc, &mut text, files, areas, listed, address)?;
    Ok(Items::new(text))
}

// Adds the line of each area that the system has.
fn push_supposed_areas(
    alloc: Global,
    text: &mut Vec<u8>,
    files: &[LinkFile],
    areas: SupposedAreas<'_>,
    listed: bool,
    address: Address,
) -> Result<(), AllocError>
    requires { AllZip (IsListing files.now) areas.tags.now areas.listings.now }
    ensures { OnOk result (Pushes (AreSupposedLines listed files.now areas.entry.tags.now address) text.old.items text.new.items) }
{
    let SupposedAreas { tags, listings } = areas;
    'areas: for place in 0..tags.len() {
        let tag = tags[place].as_slice();
        push_supposed_area(alloc, text, files, tag, &listings[place], listed, address)?;
    }
    Ok(())
}

// Adds the line of an area, if the system has it.
fn push_supposed_area(
    alloc: Global,
    text: &mut Vec<u8>,
    files: &[LinkFile],
    tag: &[u8],
    listing: &Listing,
    listed: bool,
    address: Address,
) -> Result<(), AllocError>
    requires { IsListing files.now tag.now listing.now }
    ensures { OnOk result (Pushes (AreSupposedLines listed files.now (tag.now ∷ []) address) text.old.items text.new.items) }
{
    if has_supposed(files, tag, listing, listed, address) {
        let links = listing.listers(alloc, address)?;
        push_area(text, tag, &links)?;
        Ok(())
    } else {
        Ok(())
    }
}

// Whether the system has the area.
fn has_supposed(
    files: &[LinkFile],
    tag: &[u8],
    listing: &Listing,
    listed: bool,
    address: Address,
) -> bool
    requires { IsListing files.now tag.now listing.now }
    ensures { result ≡ supposed.has_supposed listed files.now address tag.now }
{
    if listed {
        listing.has(address)
    } else {
        is_carried(files, tag)
    }
}

/// The assumed systems of one area. With `listed` these are those that the area lists.
pub fn supposed_here(
    alloc: Global,
    listing: &Listing,
    listed: bool,
    assumed: &[Address],
) -> Result<Vec<Address>, AllocError>
    ensures { (files : List LinkFile) (tag : List ℕ) → IsListing files tag listing.now → IfOk result (λ here. here.items ≡ supposed_here listed files tag assumed.now) }
{
    if listed {
        listed_here(alloc, listing, assumed)
    } else {
        Vec::from_slice(alloc, assumed)
    }
}

// Those of these systems that the area lists.
fn listed_here(
    alloc: Global,
    listing: &Listing,
    assumed: &[Address],
) -> Result<Vec<Address>, AllocError>
    ensures { (files : List LinkFile) (tag : List ℕ) → IsListing files tag listing.now → IfOk result (λ here. here.items ≡ filter (is_listed files tag) assumed.now) }
{
    let mut here = Vec::new(alloc);
    'assumed: for address in assumed {
        push_listed(&mut here, listing, *address)?;
    }
    Ok(here)
}

// Adds the system, if the area lists it.
fn push_listed(
    here: &mut Vec<Address>,
    listing: &Listing,
    address: Address,
) -> Result<(), AllocError>
    ensures { (files : List LinkFile) (tag : List ℕ) → IsListing files tag listing.now → OnOk result (here.new.items ≡ here.old.items ++ filter (is_listed files tag) (address ∷ [])) }
{
    if listing.has(address) {
        here.push(address)?;
        Ok(())
    } else {
        Ok(())
    }
}

/// The assumed systems behind which nothing was seen: if some file has the area, all but those left out, ascending, each
/// once.
pub fn unseen(
    alloc: Global,
    files: &[LinkFile],
    tag: &[u8],
    out: &[Address],
    assumed: &[Address],
) -> Result<Vec<Address>, AllocError>
    ensures { IfOk result (λ unseen. AreUnseen files.now tag.now out.now assumed.now unseen.items) }
{
    if is_carried(files, tag) {
        let mut unseen = staying(alloc, out, assumed)?;
        put_in_order(&mut unseen);
        Ok(unseen)
    } else {
        Ok(Vec::new(alloc))
    }
}

/// Adds a line for the systems behind which nothing was seen. One alone has no line.
pub fn push_unseen_line(lines: &mut Vec<u8>, unseen: &[Address]) -> Result<(), AllocError>
    ensures { OnOk result (lines.new.items ≡ lines.old.items ++ unseen_line unseen.now) }
{
    if unseen.len() < 2 {
        return Ok(());
    }
    lines.extend_from_slice(b"unseen")?;
    push_links(lines, unseen)?;
    lines.push(b'\n')?;
    Ok(())
}
