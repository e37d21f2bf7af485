//! How a cycle is written: from its smallest member, first to the smaller of its two neighbours.

ghost use Rattle.std.specs.Prelude.{◌≡◌, ◌≤◌, ◌<◌, ℕ, IfOk, length, slice_index};
ghost use Rattle.model_graph.specs.{Walk.Different, Loops.turned, Loops.IsWritten};

use std::alloc::{AllocError, Global};

/// The ring, written from its smallest member.
pub fn written(alloc: Global, ring: &[usize]) -> Result<Vec<usize>, AllocError>
    requires long { 3 ≤ length ring.now }
    requires different { Different ring.now }
    ensures { IfOk result (λ round. IsWritten ring.now round.items) }
{
    let start = smallest_place(ring);
    let forth = turn(alloc, ring, start)?;
    if forth[1] < forth[ring.len() - 1] {
        return Ok(forth);
    }
    let mut back = turn(alloc, ring, start + 1)?;
    back.reverse();
    Ok(back)
}

fn turn(alloc: Global, ring: &[usize], start: usize) -> Result<Vec<usize>, AllocError>
    requires { start ≤ length ring.now }
    ensures { IfOk result (λ round. round.items ≡ turned start ring.now) }
{
    let mut round = Vec::new(alloc);
    round.extend_from_slice(&ring[start..])?;
    round.extend_from_slice(&ring[..start])?;
    Ok(round)
}

fn smallest_place(ring: &[usize]) -> usize
    requires { 0 < length ring.now }
    ensures within { result < length ring.now }
    ensures smallest { (k : ℕ) → k < length ring.now → slice_index ring.now result ≤ slice_index ring.now k }
{
    let mut smallest = 0;
    'places: for place in 0..ring.len() {
        if ring[place] < ring[smallest] {
            smallest = place;
        }
    }
    smallest
}
