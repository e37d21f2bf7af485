//! The notes on the answer of `check`. It judges its areas again, on the texts that it read.

use crate::checking::Asked;
use crate::note_words::NotSeen;
use crate::noting::{Found, Notes, Shown};
use crate::placing::{Given, NotedNet, by_address};
use cmd_status::link_files;
use cmd_suppose::{
    Listing, SupposedAreas, files_left, is_carried, is_judged, listings, one_tag, read_supposed,
    supposed_here, supposed_systems, unseen,
};
use disk_io::Sink;
use echo_addr::{Address, Items};
use echo_links::LinkFile;
use std::alloc::{AllocError, Global};
use std::collections::BTreeSet;

/// Prints the notes on the faults of each area, and what was not seen behind assumed systems.
pub(crate) fn tell_checked<E: Sink>(
    alloc: Global,
    asked: Asked<'_>,
    given: Given<'_>,
    errors: &mut E,
) {
    let mut notes = Notes::new(alloc);
    if let Ok(files) = link_files(alloc, given.texts) {
        let mut files = files;
        if add_read(&mut notes, asked, given, &mut files).is_ok() {
            notes.print(errors);
        }
    }
}

fn add_read(
    notes: &mut Notes,
    asked: Asked<'_>,
    given: Given<'_>,
    files: &mut Vec<LinkFile>,
) -> Result<(), AllocError> {
    let alloc = notes.alloc;
    let tags = judged_tags(alloc, asked, files.as_slice())?;
    let listings = listings(alloc, files.as_slice(), &tags)?;
    let assumed = supposed_systems(
        alloc,
        files.as_slice(),
        &listings,
        asked.supposed.named,
        asked.supposed.missing,
    )?;
    let areas = SupposedAreas {
        tags: &tags,
        listings: &listings,
    };
    match read_supposed(alloc, files, areas, asked.tag.is_none(), &assumed) {
        Ok(()) => add_whole(notes, asked, given, files.as_slice(), areas, &assumed),
        Err(_) => Ok(()),
    }
}

// The area that is asked for, or all areas that are judged.
fn judged_tags(
    alloc: Global,
    asked: Asked<'_>,
    files: &[LinkFile],
) -> Result<Vec<Items<u8>>, AllocError> {
    match asked.tag {
        Some(tag) => one_upper(alloc, tag),
        None => area_tags(alloc, files, asked.supposed.without),
    }
}

fn one_upper(alloc: Global, tag: &[u8]) -> Result<Vec<Items<u8>>, AllocError> {
    let tag = tag.to_ascii_uppercase(alloc)?;
    one_tag(alloc, &tag)
}

fn area_tags(
    alloc: Global,
    files: &[LinkFile],
    out: &[Address],
) -> Result<Vec<Items<u8>>, AllocError> {
    let mut found = BTreeSet::new(alloc);
    for file in files {
        note_areas(alloc, &mut found, file)?;
    }
    let mut tags = Vec::new(alloc);
    for tag in &found {
        if is_judged(files, out, tag) {
            tags.push(Items::new(Vec::from_slice(alloc, tag)?))?;
        }
    }
    Ok(tags)
}

fn note_areas(
    alloc: Global,
    found: &mut BTreeSet<Vec<u8>>,
    file: &LinkFile,
) -> Result<(), AllocError> {
    for k in 0..file.areas() {
        if let Some(tag) = file.area(k) {
            if !found.contains(tag) {
                found.insert(Vec::from_slice(alloc, tag)?)?;
            }
        }
    }
    Ok(())
}

fn add_whole(
    notes: &mut Notes,
    asked: Asked<'_>,
    given: Given<'_>,
    files: &[LinkFile],
    areas: SupposedAreas<'_>,
    assumed: &[Address],
) -> Result<(), AllocError> {
    let numbers = by_address(notes.alloc, files)?;
    let net = NotedNet {
        given,
        files,
        numbers: &numbers,
    };
    if asked.supposed.without.is_empty() {
        return add_left(notes, asked, &net, files, areas, assumed);
    }
    match files_left(notes.alloc, files, asked.supposed.without) {
        Ok(left) => add_left(notes, asked, &net, &left, areas, assumed),
        Err(_) => Ok(()),
    }
}

// Adds the notes on each area that is judged on these files, and on what was not seen.
fn add_left(
    notes: &mut Notes,
    asked: Asked<'_>,
    net: &NotedNet<'_>,
    left: &[LinkFile],
    areas: SupposedAreas<'_>,
    assumed: &[Address],
) -> Result<(), AllocError> {
    let mut not_seen = UnseenSoFar::nothing();
    for (place, tag) in areas.tags.iter().enumerate() {
        let tag = tag.as_slice();
        let found = add_area(notes, asked, net, left, tag)?;
        if let Some(listing) = areas.listings.get(place) {
            let seen = seen_in(notes.alloc, asked, net.files, tag, listing, assumed)?;
            not_seen = not_seen.with(found, seen);
        }
    }
    not_seen.add_notes(notes)
}

fn add_area(
    notes: &mut Notes,
    asked: Asked<'_>,
    net: &NotedNet<'_>,
    left: &[LinkFile],
    tag: &[u8],
) -> Result<Found, AllocError> {
    if is_carried(net.files, tag) && !is_carried(left, tag) {
        return Ok(Found::Other);
    }
    let shown = if asked.besides.more {
        Shown::Each
    } else {
        Shown::One(0)
    };
    notes.add_area(net, left, tag, shown)
}

// Behind how many assumed systems of an area nothing was seen.
#[derive(Clone, Copy)]
enum Seen {
    All,
    ButOne,
    ButMore,
}

fn seen_in(
    alloc: Global,
    asked: Asked<'_>,
    files: &[LinkFile],
    tag: &[u8],
    listing: &Listing,
    assumed: &[Address],
) -> Result<Seen, AllocError> {
    let here = supposed_here(alloc, listing, asked.tag.is_none(), assumed)?;
    if here.is_empty() {
        return Ok(Seen::All);
    }
    let behind = unseen(alloc, files, tag, asked.supposed.without, &here)?;
    if behind.len() < 2 {
        Ok(Seen::ButOne)
    } else {
        Ok(Seen::ButMore)
    }
}

// What was not seen in the areas so far.
#[derive(Clone, Copy)]
struct UnseenSoFar {
    after_yes: bool,
    after_apart: bool,
    behind_one: bool,
}

impl UnseenSoFar {
    fn nothing() -> UnseenSoFar {
        UnseenSoFar {
            after_yes: false,
            after_apart: false,
            behind_one: false,
        }
    }

    fn with(self, found: Found, seen: Seen) -> UnseenSoFar {
        let mut next = self;
        match (seen, found) {
            (Seen::ButOne, _) => next.behind_one = true,
            (Seen::ButMore, Found::Yes) => next.after_yes = true,
            (Seen::ButMore, Found::Apart) => next.after_apart = true,
            _ => {}
        }
        next
    }

    fn add_notes(self, notes: &mut Notes) -> Result<(), AllocError> {
        if self.after_yes {
            notes.add_not_seen(NotSeen::AfterYes)?;
        }
        if self.after_apart {
            notes.add_not_seen(NotSeen::AfterApart)?;
        }
        if self.behind_one {
            notes.add_not_seen(NotSeen::BehindOne)?;
        }
        Ok(())
    }
}
