//! A short loop among the systems of a loop that is not fully linked.

use crate::area::PlanArea;
use echo_addr::Address;
use std::alloc::{AllocError, Global};

/// A loop of systems: its members by their indexes, and at which place of the loop each system of the net is, none where it is
/// no member.
#[derive(Clone, Copy)]
struct Ring<'a> {
    area: PlanArea<'a>,
    members: &'a [usize],
    places: &'a [Option<usize>],
}

/// The systems of the loop, by their indexes, that make a loop without a link across; or four of them of
/// which two are not linked.
pub(crate) fn short_loop(area: PlanArea<'_>, round: &[Address]) -> Result<Vec<usize>, AllocError> {
    let members = area.found(round)?;
    match shorter_loop(area, &members)? {
        Some(shorter) => Ok(shorter),
        None => Ok(members),
    }
}

// Members by their indexes. None where no link leads across: then it is all of them.
fn shorter_loop(area: PlanArea<'_>, members: &[usize]) -> Result<Option<Vec<usize>>, AllocError> {
    let places = places(area.alloc, area.files.len(), members)?;
    shorter_in(Ring {
        area,
        members,
        places: &places,
    })
}

fn shorter_in(ring: Ring<'_>) -> Result<Option<Vec<usize>>, AllocError> {
    let Some(hub) = ring.hub() else {
        return Ok(None);
    };
    let steps = ring.steps_to_links(hub)?;
    let (from, to) = narrowest(&steps);
    Ok(Some(arc(ring.area.alloc, ring.members, hub, from, to)?))
}

fn places(
    alloc: Global,
    systems: usize,
    members: &[usize],
) -> Result<Vec<Option<usize>>, AllocError> {
    let mut places: Vec<Option<usize>> = Vec::new(alloc);
    for _ in 0..systems {
        places.push(None)?;
    }
    for (place, system) in members.iter().enumerate() {
        if *system < places.len() {
            places[*system] = Some(place);
        }
    }
    Ok(places)
}

impl<'a> Ring<'a> {
    fn links_at(self, place: usize) -> &'a [Address] {
        match self.members.get(place) {
            Some(system) => self.area.links_of(*system),
            None => &[],
        }
    }

    fn place_of(self, link: Address) -> Option<usize> {
        let system = self.area.receivers.of(link)?;
        *self.places.get(system)?
    }

    // The place of the first member with the most links across, if one has any.
    fn hub(self) -> Option<usize> {
        let mut found = None;
        let mut most = 0;
        for place in 0..self.members.len() {
            let across = self.links_across(place);
            if across > most {
                most = across;
                found = Some(place);
            }
        }
        found
    }

    // How many members that are not its neighbours the member at this place lists.
    fn links_across(self, place: usize) -> usize {
        let mut count: usize = 0;
        for link in self.links_at(place) {
            if is_across(self.members.len(), place, self.place_of(*link)) {
                count = count.saturating_add(1);
            }
        }
        count
    }

    // How many steps lead from the hub to each of its links on the loop, ascending.
    fn steps_to_links(self, hub: usize) -> Result<Vec<usize>, AllocError> {
        let mut steps = Vec::new(self.area.alloc);
        for link in self.links_at(hub) {
            if let Some(place) = self.place_of(*link) {
                steps.push(steps_between(self.members.len(), hub, place))?;
            }
        }
        steps.sort_unstable();
        Ok(steps)
    }
}

fn steps_between(size: usize, from: usize, to: usize) -> usize {
    if to >= from {
        to - from
    } else {
        size.saturating_sub(from - to)
    }
}

fn is_across(size: usize, place: usize, other: Option<usize>) -> bool {
    match other {
        Some(other) => {
            let steps = steps_between(size, place, other);
            steps > 1 && steps < size.saturating_sub(1)
        }
        None => false,
    }
}

// The two links of the hub that follow each other with the fewest members between them, but some; where none
// has any, the first and the third.
fn narrowest(steps: &[usize]) -> (usize, usize) {
    let mut found = None;
    let mut before = 1;
    for step in steps {
        let wide = step.saturating_sub(before);
        if wide > 1 && is_narrower(found, wide) {
            found = Some((before, *step));
        }
        before = *step;
    }
    match found {
        Some(pair) => pair,
        None => (1, 3),
    }
}

fn is_narrower(found: Option<(usize, usize)>, wide: usize) -> bool {
    match found {
        Some((from, to)) => wide < to.saturating_sub(from),
        None => true,
    }
}

// The hub, and the members from so many steps behind it to so many.
fn arc(
    alloc: Global,
    members: &[usize],
    hub: usize,
    from: usize,
    to: usize,
) -> Result<Vec<usize>, AllocError> {
    let mut arc = Vec::new(alloc);
    for (place, system) in members.iter().enumerate() {
        let steps = steps_between(members.len(), hub, place);
        if steps == 0 || (from <= steps && steps <= to) {
            arc.push(*system)?;
        }
    }
    Ok(arc)
}
