//! The first member at which a cycle has two links that are not linked with each other.

ghost use Rattle.std.specs.Prelude.{◌≡◌, ◌≢◌, ◌<◌, ◌↔◌, ℕ, IsTrue, IfOk, MatchOption, None, length};
ghost use Rattle.model_graph.specs.Blocks.{block_of, top_of, rank_of, full_of, AreBlocks, AreFull, HasUnlinkedAfter, IsCovered};
ghost use Rattle.model_graph.specs.{Rows.linked, Rows.IsGraph, Levels.level_of, Levels.AreLevels, Pinches.IsPinch, Pinches.FirstPinch, Pinches.FirstOther, Pinches.FirstHere};

use crate::blocks::Blocks;
use crate::division::find_blocks;
use crate::graph::Graph;
use crate::levels::levels_around;
use std::alloc::{AllocError, Global};

/// Two links of a member that are not linked, though a walk joins them that does not pass it.
#[derive(Clone, Copy, PartialEq, Eq, PartialOrd, Ord, Debug)]
pub struct Pinch {
    pub at: usize,
    /// The smaller of its two links.
    pub one: usize,
    /// The greater of its two links.
    pub other: usize,
}

/// The first pinch: of the smallest member, with the smallest links. `None` exactly where there is none. Fails only
/// when out of memory. A search is made only where a later link of the member, in its block there, is not linked with
/// it. With the blocks of a search in depth it then finds a pinch, so it is the only one.
pub fn first_pinch(alloc: Global, graph: &Graph) -> Result<Option<Pinch>, AllocError>
    ensures sound { IsGraph graph.now }
    ensures first { IfOk result (λ found. MatchOption found
        ((b a c : ℕ) → ¬ IsPinch (linked graph.now) b a c)
        (λ pinch. FirstPinch (linked graph.now) pinch.at pinch.one pinch.other)) }
{
    let members = graph.len();
    let blocks = find_blocks(alloc, graph)?;
    'members: for at in 0..members {
        if let Some(pinch) = first_pinch_at(alloc, graph, &blocks, at)? {
            return Ok(Some(pinch));
        }
    }
    Ok(None)
}

/// The first pinch at this member. It skips a link that is covered in one block by an earlier link:
/// a pinch there would be one of the earlier link too.
fn first_pinch_at(
    alloc: Global,
    graph: &Graph,
    blocks: &Blocks,
    at: usize,
) -> Result<Option<Pinch>, AllocError>
    requires inside { at < length graph.now }
    requires earlier { (b a c : ℕ) → b < at → ¬ IsPinch (linked graph.now) b a c }
    requires blocks { AreBlocks (linked graph.now) (length graph.now) (block_of blocks.now) (top_of blocks.now) (rank_of blocks.now) }
    requires full { AreFull (linked graph.now) (length graph.now) (block_of blocks.now) (top_of blocks.now) (full_of blocks.now) }
    ensures { IfOk result (λ found. MatchOption found
        ((a c : ℕ) → ¬ IsPinch (linked graph.now) at a c)
        (λ pinch. (pinch.at ≡ at) × FirstHere (linked graph.now) at pinch.one pinch.other)) }
{
    let chosen = chosen_link(graph, blocks, at);
    let covered = chosen < at && is_covered(graph, blocks, at, chosen);
    'links: for one in graph.links(at) {
        if covered && blocks.on_one_side(at, chosen, *one) {
            continue;
        }
        if let Some(other) = first_around(alloc, graph, blocks, at, *one)? {
            return Ok(Some(Pinch {
                at,
                one: *one,
                other,
            }));
        }
    }
    Ok(None)
}

fn chosen_link(graph: &Graph, blocks: &Blocks, at: usize) -> usize
    requires { at < length graph.now }
{
    'links: for one in graph.links(at) {
        if !blocks.is_in_full(at, *one) {
            return *one;
        }
    }
    at
}

fn is_covered(graph: &Graph, blocks: &Blocks, at: usize, chosen: usize) -> bool
    requires inside { at < length graph.now }
    requires within { chosen < length graph.now }
    ensures { IsTrue result → IsCovered (linked graph.now) (block_of blocks.now) (top_of blocks.now) at chosen }
{
    'links: for other in graph.links(at) {
        if *other != chosen
            && blocks.on_one_side(at, chosen, *other)
            && !graph.is_linked(chosen, *other)
        {
            return false;
        }
    }
    true
}

/// A search is made only where some link after `one`, in its block at `at`, is not linked with it.
fn first_around(
    alloc: Global,
    graph: &Graph,
    blocks: &Blocks,
    at: usize,
    one: usize,
) -> Result<Option<usize>, AllocError>
    requires sound { IsGraph graph.now }
    requires blocks { AreBlocks (linked graph.now) (length graph.now) (block_of blocks.now) (top_of blocks.now) (rank_of blocks.now) }
    requires full { AreFull (linked graph.now) (length graph.now) (block_of blocks.now) (top_of blocks.now) (full_of blocks.now) }
    requires inside { at < length graph.now }
    requires within { one < length graph.now }
    requires apart { one ≢ at }
    requires link { IsTrue (linked graph.now at one) }
    ensures { IfOk result (λ found. MatchOption found
        ((c : ℕ) → ¬ IsPinch (linked graph.now) at one c)
        (FirstOther (linked graph.now) at one)) }
{
    if blocks.is_in_full(at, one) || !has_unlinked(graph, blocks, at, one) {
        return Ok(None);
    }
    let levels = levels_around(alloc, graph, at, one)?;
    Ok(first_other(graph, at, one, &levels))
}

fn has_unlinked(graph: &Graph, blocks: &Blocks, at: usize, one: usize) -> bool
    requires inside { at < length graph.now }
    requires within { one < length graph.now }
    ensures { IsTrue result ↔ HasUnlinkedAfter (linked graph.now) (block_of blocks.now) (top_of blocks.now) at one }
{
    'others: for other in graph.links(at) {
        if one < *other && blocks.on_one_side(at, one, *other) && !graph.is_linked(one, *other) {
            return true;
        }
    }
    false
}

fn first_other(graph: &Graph, at: usize, one: usize, levels: &[Option<usize>]) -> Option<usize>
    requires inside { at < length graph.now }
    requires link { IsTrue (linked graph.now at one) }
    requires lengths { length levels.now ≡ length graph.now }
    requires levels { AreLevels (linked graph.now) at one levels.now }
    ensures { MatchOption result ((c : ℕ) → ¬ IsPinch (linked graph.now) at one c) (FirstOther (linked graph.now) at one) }
{
    'others: for other in graph.links(at) {
        if is_other(graph, one, *other, levels) {
            return Some(*other);
        }
    }
    None
}

fn is_other(graph: &Graph, one: usize, other: usize, levels: &[Option<usize>]) -> bool
    requires inside { one < length graph.now }
    requires within { other < length levels.now }
    ensures { IsTrue result ↔ ((one < other) × (level_of levels.now other ≢ None) × ¬ IsTrue (linked graph.now one other)) }
{
    one < other && levels[other].is_some() && !graph.is_linked(one, other)
}
