//! How a message would spread, by addresses alone: no packet is made here. The sketch only decides which events are
//! tried on real packets.

use crate::area::PlanArea;
use crate::plan::{Guess, Move};
use crate::sets::{NOTHING, Sets};
use echo_addr::Address;
use std::alloc::AllocError;

/// A packet: which of the moves is its scan, which system makes it, and whom it is for.
#[derive(Clone, Copy)]
pub(crate) struct Sent {
    pub(crate) scan: usize,
    pub(crate) from: usize,
    pub(crate) to: Address,
}

/// What becomes of the message at a system.
#[derive(Drop)]
pub(crate) struct MessageFate {
    filed: bool,
    /// The packet in which it came, and which of the moves is that delivery.
    pub(crate) came: Option<(usize, usize)>,
    first: Option<usize>,
    /// The SEEN-BY of what it sends.
    seen: usize,
}

#[derive(Drop)]
pub(crate) struct Sketch<'a> {
    area: PlanArea<'a>,
    poster: usize,
    pub(crate) moves: Vec<Move>,
    pub(crate) packets: Vec<Sent>,
    pub(crate) places: Vec<MessageFate>,
    sets: Sets,
    /// The packets by which a guess shows.
    pub(crate) showing: Vec<usize>,
    lost: Option<(usize, Address)>,
}

impl<'a> Sketch<'a> {
    pub(crate) fn new(area: PlanArea<'a>, poster: usize) -> Result<Sketch<'a>, AllocError> {
        let mut places = Vec::new(area.alloc);
        for i in 0..area.files.len() {
            places.push(MessageFate {
                filed: i == poster,
                came: None,
                first: None,
                seen: NOTHING,
            })?;
        }
        Ok(Sketch {
            area,
            poster,
            moves: Vec::new(area.alloc),
            packets: Vec::new(area.alloc),
            places,
            sets: Sets::new(area.alloc)?,
            showing: Vec::new(area.alloc),
            lost: None,
        })
    }

    /// Follows the message until something shows that goes wrong: in each round those systems scan that have
    /// just filed it, and then the packets come to those systems that are marked, or to all.
    pub(crate) fn follow(&mut self, marked: Option<&[bool]>) -> Result<Option<Guess>, AllocError> {
        let mut front = Vec::new(self.area.alloc);
        front.push(self.poster)?;
        'rounds: for _ in 0..self.area.files.len() {
            let first = self.packets.len();
            if let Some(guess) = self.scan_all(&front)? {
                return Ok(Some(guess));
            }
            front = self.deliver_all(first, marked)?;
            if front.is_empty() {
                break;
            }
        }
        self.guess_at_rest(marked.is_none())
    }

    fn scan_all(&mut self, front: &[usize]) -> Result<Option<Guess>, AllocError> {
        for system in front {
            if let Some(guess) = self.scan(*system)? {
                return Ok(Some(guess));
            }
        }
        Ok(None)
    }

    fn scan(&mut self, system: usize) -> Result<Option<Guess>, AllocError> {
        let targets = self.targets(system)?;
        if !targets.is_empty() {
            let seen = self.seen_after(system)?;
            self.put_seen(system, seen);
        }
        let scan = self.moves.len();
        self.moves.push(Move::Scan(system))?;
        let mut found = None;
        for to in &targets {
            let guess = self.send(scan, system, *to)?;
            if found.is_none() {
                found = guess;
            }
        }
        Ok(found)
    }

    fn send(&mut self, scan: usize, from: usize, to: Address) -> Result<Option<Guess>, AllocError> {
        let k = self.packets.len();
        self.packets.push(Sent { scan, from, to })?;
        match self.area.receivers.of(to) {
            Some(system) => self.note(system, k),
            None => {
                self.lost = Some((k, to));
                Ok(None)
            }
        }
    }

    fn note(&mut self, system: usize, k: usize) -> Result<Option<Guess>, AllocError> {
        if system >= self.places.len() {
            return Ok(None);
        }
        let first = self.places[system].first;
        let place = &mut self.places[system];
        place.first = Some(k);
        if system == self.poster {
            self.showing.push(k)?;
            return Ok(Some(Guess::Own));
        }
        match first {
            Some(before) if self.area.carries(system) => {
                self.showing.push(before)?;
                self.showing.push(k)?;
                Ok(Some(Guess::Again(system)))
            }
            _ => Ok(None),
        }
    }

    // Packets come, from this index on. Answers which systems file the message.
    fn deliver_all(
        &mut self,
        first: usize,
        marked: Option<&[bool]>,
    ) -> Result<Vec<usize>, AllocError> {
        let mut front = Vec::new(self.area.alloc);
        for k in first..self.packets.len() {
            if let Some(system) = self.deliver(k, marked)? {
                front.push(system)?;
            }
        }
        Ok(front)
    }

    fn deliver(&mut self, k: usize, marked: Option<&[bool]>) -> Result<Option<usize>, AllocError> {
        let Some(sent) = self.packets.get(k).copied() else {
            return Ok(None);
        };
        let Some(system) = self.area.receivers.of(sent.to) else {
            return Ok(None);
        };
        if !is_marked(marked, system) {
            return Ok(None);
        }
        let delivery = self.moves.len();
        self.moves.push(Move::Deliver(k))?;
        if !self.is_filed(system, sent.from) || system >= self.places.len() {
            return Ok(None);
        }
        let place = &mut self.places[system];
        place.filed = true;
        place.came = Some((k, delivery));
        Ok(Some(system))
    }

    fn is_filed(&self, system: usize, from: usize) -> bool {
        match (
            self.places.get(system),
            self.area.files.get(system),
            self.area.files.get(from),
        ) {
            (Some(place), Some(file), Some(sender)) => {
                !place.filed && file.is_link(self.area.tag, sender.system())
            }
            _ => false,
        }
    }

    fn giver(&self, system: usize) -> Option<usize> {
        let place = self.places.get(system)?;
        let (k, _) = place.came?;
        let sent = self.packets.get(k)?;
        Some(sent.from)
    }

    fn seen_before(&self, system: usize) -> usize {
        match self.giver(system) {
            Some(giver) => match self.places.get(giver) {
                Some(place) => place.seen,
                None => NOTHING,
            },
            None => NOTHING,
        }
    }

    fn targets(&self, system: usize) -> Result<Vec<Address>, AllocError> {
        let seen = self.seen_before(system);
        let sender = match self.giver(system) {
            Some(giver) => self.area.address(giver),
            None => None,
        };
        let mut targets = Vec::new(self.area.alloc);
        for link in self.area.links_of(system) {
            if Some(*link) != sender && !self.sets.has(seen, link.net_node()) {
                targets.push(*link)?;
            }
        }
        targets.sort_unstable();
        Ok(targets)
    }

    fn seen_after(&mut self, system: usize) -> Result<usize, AllocError> {
        let mut seen = self.seen_before(system);
        if let Some(own) = self.area.address(system) {
            seen = self.sets.with(seen, own.net_node())?;
        }
        for link in self.area.links_of(system) {
            seen = self.sets.with(seen, link.net_node())?;
        }
        Ok(seen)
    }

    fn put_seen(&mut self, system: usize, seen: usize) {
        if system < self.places.len() {
            let place = &mut self.places[system];
            place.seen = seen;
        }
    }

    // The fault if nothing more happens: a packet that never arrives. If all arrived, it is the first carrier by
    // address that has nothing.
    fn guess_at_rest(&mut self, all_came: bool) -> Result<Option<Guess>, AllocError> {
        if let Some((k, to)) = self.lost {
            self.showing.push(k)?;
            return Ok(Some(Guess::Nobody(to)));
        }
        if !all_came {
            return Ok(None);
        }
        match self.first_lacking() {
            Some(system) => Ok(Some(Guess::Lacking(system))),
            None => Ok(None),
        }
    }

    fn first_lacking(&self) -> Option<usize> {
        let mut found: Option<(Address, usize)> = None;
        for (i, place) in self.places.iter().enumerate() {
            if !place.filed && self.area.carries(i) {
                found = earlier(found, self.area.address(i)?, i);
            }
        }
        let (_, system) = found?;
        Some(system)
    }
}

fn earlier(
    found: Option<(Address, usize)>,
    address: Address,
    system: usize,
) -> Option<(Address, usize)> {
    match found {
        Some((before, _)) if before <= address => found,
        _ => Some((address, system)),
    }
}

fn is_marked(marked: Option<&[bool]>, system: usize) -> bool {
    match marked {
        Some(marks) => match marks.get(system) {
            Some(mark) => *mark,
            None => false,
        },
        None => true,
    }
}
