//! The tags of the areas that link files have.
ghost use Rattle.std.specs.{Prelude.{◌≡◌, ◌||◌, ℕ, List, IfOk, OnOk, bytes_eq, map}, List.Sorted.IsStrictlySortedBy};
ghost use Rattle.echo_links.specs.Links.{has_area};
ghost use Rattle.cmd_check.specs.AreaTags.{AreAllTags, has_tag, tag_order};

use echo_links::LinkFile;
use std::alloc::{AllocError, Global};
use std::collections::BTreeSet;

/// The tags of all areas that the files have, ascending, each once.
pub(crate) fn area_tags(alloc: Global, files: &[LinkFile]) -> Result<Vec<Vec<u8>>, AllocError>
    ensures { IfOk result (λ tags. AreAllTags files.now (map (λ tag. tag.items) tags.items)) }
{
    let mut tags = BTreeSet::new(alloc);
    'files: for file in files {
        note_areas(alloc, &mut tags, file)?;
    }
    in_order(alloc, tags)
}

// Puts the tags of the file among the tags.
fn note_areas(
    alloc: Global,
    tags: &mut BTreeSet<Vec<u8>>,
    file: &LinkFile,
) -> Result<(), AllocError>
    ensures { OnOk result ((tag : List ℕ) → has_tag (λ key. key.items) tags.new.keys tag ≡ (has_tag (λ key. key.items) tags.old.keys tag || has_area file.now tag)) }
{
    'areas: for k in 0..file.areas() {
        if let Some(tag) = file.area(k) {
            note_tag(alloc, tags, tag)?;
        }
    }
    Ok(())
}

// Puts the tag among the tags, if it is not there.
fn note_tag(alloc: Global, tags: &mut BTreeSet<Vec<u8>>, tag: &[u8]) -> Result<(), AllocError>
    ensures { OnOk result ((other : List ℕ) → has_tag (λ key. key.items) tags.new.keys other ≡ (has_tag (λ key. key.items) tags.old.keys other || bytes_eq other tag.now)) }
{
    if tags.contains(tag) {
        return Ok(());
    }
    tags.insert(Vec::from_slice(alloc, tag)?)?;
    Ok(())
}

// The tags one after another.
fn in_order(alloc: Global, tags: BTreeSet<Vec<u8>>) -> Result<Vec<Vec<u8>>, AllocError>
    ensures ascending { IfOk result (λ all. IsStrictlySortedBy (λ one later. tag_order one.items later.items) all.items) }
    ensures same { IfOk result (λ all. all.items ≡ tags.keys) }
{
    tags.into_iter().collect(alloc)
}
