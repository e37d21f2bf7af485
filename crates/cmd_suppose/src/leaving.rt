//! Link files as if some systems had none and no file listed them.
ghost use Rattle.std.specs.{Prelude.{◌≡◌, ◌++◌, ◌⊎◌, IfErr, IfOk, OnOk, Some, filter, slice_get}, List.{flat_map, list_any}};
ghost use Rattle.{echo_links.specs.Links.{Area, is_link, links_of}, echo_verdict.specs.Drawn.has_address, cmd_status.specs.Ended.IsOutOfMemory};
ghost use Rattle.{cmd_status.specs.Inputs.{AreLinkFiles, IsLinkFault}, cmd_suppose.specs.SupposedFiles.{area_line, system_line}};
ghost use Rattle.cmd_suppose.specs.Leaving.{IsFirstUnknownIn, area_left, stays, text_left, texts_left};
ghost use Rattle.cmd_suppose.specs.Leaving as leaving;

use crate::assuming::push_links;
use cmd_status::{Fault, link_files};
use echo_addr::{Address, Items};
use echo_charset::written;
use echo_links::LinkFile;
use std::alloc::{AllocError, Global};
use std::io::Write;

/// The files that are left of these. Their texts are as an operator writes them.
pub fn files_left<'a>(
    alloc: Global,
    files: &[LinkFile],
    out: &[Address],
) -> Result<Vec<LinkFile>, Fault<'a>>
    ensures ok { IfOk result (λ left. AreLinkFiles (texts_left out.now files.now) left.items) }
    ensures err { IfErr result (λ fault. IsOutOfMemory fault ⊎ IsLinkFault (texts_left out.now files.now) fault) }
{
    let texts = texts_left(alloc, files, out)?;
    link_files(alloc, &texts)
}

// The texts of the files that are left of these, in order.
fn texts_left(
    alloc: Global,
    files: &[LinkFile],
    out: &[Address],
) -> Result<Vec<Items<u8>>, AllocError>
    ensures { IfOk result (λ texts. texts.items ≡ texts_left out.now files.now) }
{
    let mut texts = Vec::new(alloc);
    'files: for file in files {
        push_left(alloc, &mut texts, file, out)?;
    }
    Ok(texts)
}

// Adds the text of the file, if it is not that of a left out system.
fn push_left(
    alloc: Global,
    texts: &mut Vec<Items<u8>>,
    file: &LinkFile,
    out: &[Address],
) -> Result<(), AllocError>
    ensures { OnOk result (texts.new.items ≡ texts.old.items ++ text_left out.now file.now) }
{
    if is_out(out, file.system()) {
        return Ok(());
    }
    let text = file_left(alloc, file, out)?;
    texts.push(text)?;
    Ok(())
}

// The text of a file that lists none of the left out systems.
fn file_left(alloc: Global, file: &LinkFile, out: &[Address]) -> Result<Items<u8>, AllocError>
    ensures { IfOk result (λ text. text ≡ system_line file.now.system ++ flat_map (area_left out.now file.now) file.now.areas) }
{
    let mut text = Vec::new(alloc);
    push_system(&mut text, file.system())?;
    push_areas(alloc, &mut text, file, out)?;
    Ok(Items::new(text))
}

// Adds the line of each area.
fn push_areas(
    alloc: Global,
    text: &mut Vec<u8>,
    file: &LinkFile,
    out: &[Address],
) -> Result<(), AllocError>
    ensures { OnOk result (text.new.items ≡ text.old.items ++ flat_map (area_left out.now file.now) file.now.areas) }
{
    'areas: for k in 0..file.areas() {
        push_area_left(alloc, text, file, k, out)?;
    }
    Ok(())
}

// Adds the line of the area of this number.
fn push_area_left(
    alloc: Global,
    text: &mut Vec<u8>,
    file: &LinkFile,
    k: usize,
    out: &[Address],
) -> Result<(), AllocError>
    ensures { OnOk result ((area : Area) → slice_get file.now.areas k ≡ Some area →
        text.new.items ≡ text.old.items ++ area_left out.now file.now area) }
{
    let Some(tag) = file.area(k) else {
        return Ok(());
    };
    let left = staying(alloc, out, links_in(file, tag))?;
    push_area(text, tag, &left)
}

// The links of the area with this tag.
fn links_in<'f>(file: &'f LinkFile, tag: &[u8]) -> &'f [Address]
    ensures { result.now ≡ links_of file.now tag.now }
{
    match file.links(tag) {
        Some(links) => links,
        None => &[],
    }
}

/// The first of these addresses that no file is of or lists. The first fault of the files is returned.
pub fn first_unknown_address<'a>(
    alloc: Global,
    inputs: &[Items<u8>],
    out: &[Address],
) -> Result<Option<Address>, Fault<'a>>
    ensures ok { IfOk result (IsFirstUnknownIn inputs.now out.now) }
    ensures err { IfErr result (λ fault. IsOutOfMemory fault ⊎ IsLinkFault inputs.now fault) }
{
    let files = link_files(alloc, inputs)?;
    Ok(first_unknown(&files, out))
}

/// The same of files that are read.
pub fn first_unknown(files: &[LinkFile], out: &[Address]) -> Option<Address>
    ensures { result ≡ leaving.first_unknown files.now out.now }
{
    out.iter()
        .copied()
        .find(|address| !is_known(files, *address))
}

fn is_known(files: &[LinkFile], address: Address) -> bool
    ensures { result ≡ leaving.is_known files.now address }
{
    files.iter().any(|file| is_named(file, address))
}

// Whether the file is of this address or lists it.
fn is_named(file: &LinkFile, address: Address) -> bool
    ensures { result ≡ leaving.names address file.now }
{
    file.system() == address || is_listed(file, address)
}

// Whether the file lists this address in some area.
fn is_listed(file: &LinkFile, address: Address) -> bool
    ensures { result ≡ list_any (λ area. is_link file.now area.tag address) file.now.areas }
{
    'areas: for k in 0..file.areas() {
        if lists_at(file, k, address) {
            return true;
        }
    }
    false
}

// Whether the file lists this address in the area of this number.
fn lists_at(file: &LinkFile, k: usize, address: Address) -> bool
    ensures { (area : Area) → slice_get file.now.areas k ≡ Some area → result ≡ is_link file.now area.tag address }
{
    match file.area(k) {
        Some(tag) => file.is_link(tag, address),
        None => false,
    }
}

/// Whether the area is judged: each one, or with left out systems one that a file of theirs has, or in which a file lists
/// one of them.
pub fn is_judged(files: &[LinkFile], out: &[Address], tag: &[u8]) -> bool
    ensures { result ≡ leaving.is_judged files.now out.now tag.now }
{
    out.is_empty() || is_concerned(files, out, tag)
}

fn is_concerned(files: &[LinkFile], out: &[Address], tag: &[u8]) -> bool
    ensures { result ≡ list_any (leaving.concerns out.now tag.now) files.now }
{
    files.iter().any(|file| concerns(file, out, tag))
}

fn concerns(file: &LinkFile, out: &[Address], tag: &[u8]) -> bool
    ensures { result ≡ leaving.concerns out.now tag.now file.now }
{
    (file.has_area(tag) && is_out(out, file.system())) || lists_one(file, out, tag)
}

// Whether the file lists one of these addresses in the area.
fn lists_one(file: &LinkFile, out: &[Address], tag: &[u8]) -> bool
    ensures { result ≡ list_any (is_link file.now tag.now) out.now }
{
    out.iter().any(|address| file.is_link(tag, *address))
}

/// Those of these addresses that are not left out.
pub(crate) fn staying(
    alloc: Global,
    out: &[Address],
    all: &[Address],
) -> Result<Vec<Address>, AllocError>
    ensures { IfOk result (λ left. left.items ≡ filter (stays out.now) all.now) }
{
    let mut left = Vec::new(alloc);
    'all: for address in all {
        if !is_out(out, *address) {
            left.push(*address)?;
        }
    }
    Ok(left)
}

// Whether the address is one of these.
fn is_out(out: &[Address], address: Address) -> bool
    ensures { result ≡ has_address out.now address }
{
    out.contains(&address)
}

/// Adds the line of a system.
pub(crate) fn push_system(text: &mut Vec<u8>, address: Address) -> Result<(), AllocError>
    ensures { OnOk result (text.new.items ≡ text.old.items ++ system_line address) }
{
    written(writeln!(text, "SYSTEM {address}"))
}

/// Adds the line of an area with these links.
pub(crate) fn push_area(text: &mut Vec<u8>, tag: &[u8], links: &[Address]) -> Result<(), AllocError>
    ensures { OnOk result (text.new.items ≡ text.old.items ++ area_line tag.now links.now) }
{
    text.extend_from_slice(b"AREA ")?;
    text.extend_from_slice(tag)?;
    push_links(text, links)?;
    text.push(b'\n')?;
    Ok(())
}
