//! A plan by which the fault of an area would do harm.

use crate::area::PlanArea;
use crate::circle::short_loop;
use crate::needed::moves_for;
use crate::plan::{Guess, Plan};
use crate::sketch::Sketch;
use echo_addr::Address;
use echo_links::LinkFile;
use echo_net::Receivers;
use echo_verdict::NetFault;
use std::alloc::{AllocError, Global};
use std::hash::RandomState;

/// How many systems post in turn if it is not known which posting goes wrong.
const MOST_TRIED: usize = 4;

/// How many do so if no system of a fault shows it.
const MOST_OF_ALL: usize = 256;

/// A plan by which the fault would show in the area of the tag, if one is found: of those that were looked at the one with the
/// fewest moves. Look-ups go by the hasher. Fails only when out of memory.
pub fn find_plan(
    alloc: Global,
    files: &[LinkFile],
    tag: &[u8],
    fault: &NetFault,
    hasher: RandomState,
) -> Result<Option<Plan>, AllocError> {
    let receivers = Receivers::new(alloc, files, hasher)?;
    plan(
        PlanArea {
            alloc,
            files,
            tag,
            receivers: &receivers,
        },
        fault,
    )
}

/// A plan by which some posting in the area of the tag would go wrong, if one is found: of the first systems with the area,
/// each posts. Look-ups go by the hasher. Fails only when out of memory.
pub fn find_any_plan(
    alloc: Global,
    files: &[LinkFile],
    tag: &[u8],
    hasher: RandomState,
) -> Result<Option<Plan>, AllocError> {
    let receivers = Receivers::new(alloc, files, hasher)?;
    let area = PlanArea {
        alloc,
        files,
        tag,
        receivers: &receivers,
    };
    shortest(area, &carriers(area, MOST_OF_ALL)?, None)
}

fn plan(area: PlanArea<'_>, fault: &NetFault) -> Result<Option<Plan>, AllocError> {
    match fault {
        NetFault::NoSuchArea => Ok(None),
        NetFault::TwoFiles(_) => shortest(area, &carriers(area, MOST_TRIED)?, None),
        NetFault::SelfLink(system) => shortest(area, &area.found(&[*system])?, None),
        NetFault::Unknown(system, link) => unknown(area, *system, *link),
        NetFault::OneSided(one, other) | NetFault::Apart(one, other) => {
            shortest(area, &area.found(&[*one, *other])?, None)
        }
        NetFault::SameNetNode(one, other) => twins(area, *one, *other),
        NetFault::Loop(round) => round_about(area, round.as_slice()),
    }
}

// A link to an address that does not carry the area. Where no file has the address, the first scan shows it.
fn unknown(area: PlanArea<'_>, system: Address, link: Address) -> Result<Option<Plan>, AllocError> {
    let posters = area.found(&[system])?;
    match area.receivers.of(link) {
        Some(_) => shortest(area, &posters, None),
        None => shortest(area, &posters, Some(&[])),
    }
}

// Two systems of one net and node: these post, and those that list one of them alone.
fn twins(area: PlanArea<'_>, one: Address, other: Address) -> Result<Option<Plan>, AllocError> {
    let mut posters = area.found(&[one, other])?;
    for (i, file) in area.files.iter().enumerate() {
        if posters.len() < MOST_TRIED
            && file.is_link(area.tag, one) != file.is_link(area.tag, other)
        {
            posters.push(i)?;
        }
    }
    shortest(area, &posters, None)
}

// Systems of a loop: packets come to these alone, and, where nothing shows so, to all.
fn round_about(area: PlanArea<'_>, round: &[Address]) -> Result<Option<Plan>, AllocError> {
    let members = short_loop(area, round)?;
    let marked = marks(area, &members)?;
    let posters = first_few(area.alloc, &members)?;
    match shortest(area, &posters, Some(&marked))? {
        Some(plan) => Ok(Some(plan)),
        None => shortest(area, &posters, None),
    }
}

fn marks(area: PlanArea<'_>, members: &[usize]) -> Result<Vec<bool>, AllocError> {
    let mut marks = Vec::new(area.alloc);
    for _ in 0..area.files.len() {
        marks.push(false)?;
    }
    for system in members {
        if *system < marks.len() {
            marks[*system] = true;
        }
    }
    Ok(marks)
}

fn first_few(alloc: Global, members: &[usize]) -> Result<Vec<usize>, AllocError> {
    let mut few = Vec::new(alloc);
    for system in members {
        if few.len() < MOST_TRIED {
            few.push(*system)?;
        }
    }
    Ok(few)
}

// The first systems that have the area, at most so many.
fn carriers(area: PlanArea<'_>, most: usize) -> Result<Vec<usize>, AllocError> {
    let mut all = Vec::new(area.alloc);
    for (i, file) in area.files.iter().enumerate() {
        if all.len() < most && file.has_area(area.tag) {
            all.push(i)?;
        }
    }
    Ok(all)
}

fn shortest(
    area: PlanArea<'_>,
    posters: &[usize],
    marked: Option<&[bool]>,
) -> Result<Option<Plan>, AllocError> {
    let mut best: Option<Plan> = None;
    for poster in posters {
        let one = plan_of(area, *poster, marked)?;
        best = shorter(best, one);
    }
    Ok(best)
}

fn shorter(one: Option<Plan>, other: Option<Plan>) -> Option<Plan> {
    match (one, other) {
        (None, found) => found,
        (found, None) => found,
        (Some(one), Some(other)) => {
            if other.moves.len() < one.moves.len() {
                Some(other)
            } else {
                Some(one)
            }
        }
    }
}

fn plan_of(
    area: PlanArea<'_>,
    poster: usize,
    marked: Option<&[bool]>,
) -> Result<Option<Plan>, AllocError> {
    let mut sketch = Sketch::new(area, poster)?;
    let Some(guess) = sketch.follow(marked)? else {
        return Ok(None);
    };
    let moves = match guess {
        Guess::Lacking(_) => Vec::from_slice(area.alloc, &sketch.moves)?,
        Guess::Again(_) | Guess::Own | Guess::Nobody(_) => {
            moves_for(area.alloc, &sketch, &sketch.showing)?
        }
    };
    Ok(Some(Plan {
        poster,
        moves,
        guess,
    }))
}
