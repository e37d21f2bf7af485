//! The moves of a plan that its end needs.

use crate::plan::Move;
use crate::sketch::{Sent, Sketch};
use std::alloc::{AllocError, Global};

/// The moves without which these packets of the sketch would not be made, with new numbers of packets.
pub(crate) fn moves_for(
    alloc: Global,
    sketch: &Sketch<'_>,
    packets: &[usize],
) -> Result<Vec<Move>, AllocError> {
    let mut keep = Vec::new(alloc);
    for _ in 0..sketch.moves.len() {
        keep.push(false)?;
    }
    for k in packets {
        mark_way(sketch, &mut keep, *k);
    }
    let numbers = numbers(alloc, &sketch.packets, &keep)?;
    kept_moves(alloc, &sketch.moves, &keep, &numbers)
}

// Marks the scan that makes the packet, the delivery that its system has the message by, and so on back to
// the posting.
fn mark_way(sketch: &Sketch<'_>, keep: &mut [bool], k: usize) {
    let mut at = k;
    for _ in 0..sketch.moves.len() {
        let Some(sent) = sketch.packets.get(at) else {
            return;
        };
        mark(keep, sent.scan);
        let Some(place) = sketch.places.get(sent.from) else {
            return;
        };
        let Some((before, delivery)) = place.came else {
            return;
        };
        mark(keep, delivery);
        at = before;
    }
}

fn mark(keep: &mut [bool], place: usize) {
    if place < keep.len() {
        keep[place] = true;
    }
}

fn is_kept(keep: &[bool], place: usize) -> bool {
    match keep.get(place) {
        Some(kept) => *kept,
        None => false,
    }
}

// The number that each packet has where only these moves happen.
fn numbers(alloc: Global, packets: &[Sent], keep: &[bool]) -> Result<Vec<usize>, AllocError> {
    let mut numbers = Vec::new(alloc);
    let mut next: usize = 0;
    for sent in packets {
        numbers.push(next)?;
        if is_kept(keep, sent.scan) {
            next = next.saturating_add(1);
        }
    }
    Ok(numbers)
}

fn kept_moves(
    alloc: Global,
    moves: &[Move],
    keep: &[bool],
    numbers: &[usize],
) -> Result<Vec<Move>, AllocError> {
    let mut kept = Vec::new(alloc);
    for (place, one) in moves.iter().enumerate() {
        if is_kept(keep, place) {
            kept.push(numbered(*one, numbers))?;
        }
    }
    Ok(kept)
}

fn numbered(one: Move, numbers: &[usize]) -> Move {
    match one {
        Move::Scan(system) => Move::Scan(system),
        Move::Deliver(packet) => match numbers.get(packet) {
            Some(number) => Move::Deliver(*number),
            None => one,
        },
    }
}
