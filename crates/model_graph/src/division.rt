//! The blocks of a graph, found by a search in depth and tested.

ghost use Rattle.std.specs.Prelude.{◌≡◌, ◌<◌, ◌↔◌, ℕ, false, IfOk, IsTrue, length};
ghost use Rattle.model_graph.specs.Blocks.{block_of, top_of, rank_of, full_of, InOneBlock, RanksBefore, IsInBlock, AreBlocks, AreFull};
ghost use Rattle.model_graph.specs.Rows.{linked, IsGraph};

use crate::blocks::Blocks;
use crate::depth::blocks_in_depth;
use crate::fullness::full_blocks;
use crate::graph::Graph;
use std::alloc::{AllocError, Global};

/// The blocks that the search in depth found or, if they fail the test, one block of all members.
pub fn find_blocks(alloc: Global, graph: &Graph) -> Result<Blocks, AllocError>
    ensures blocks { IfOk result (λ blocks. AreBlocks (linked graph.now) (length graph.now) (block_of blocks) (top_of blocks) (rank_of blocks)) }
    ensures full { IfOk result (λ blocks. AreFull (linked graph.now) (length graph.now) (block_of blocks) (top_of blocks) (full_of blocks)) }
{
    let found = blocks_in_depth(alloc, graph)?;
    if !are_blocks(graph, &found) {
        return Ok(one_block(alloc));
    }
    let full = full_blocks(alloc, graph, &found)?;
    Ok(Blocks { full, ..found })
}

fn one_block(alloc: Global) -> Blocks
    ensures block { (x : ℕ) → block_of result x ≡ 0 }
    ensures top { (x : ℕ) → top_of result x ≡ 0 }
    ensures rank { (x : ℕ) → rank_of result x ≡ x }
    ensures full { (x : ℕ) → full_of result x ≡ false }
{
    Blocks {
        numbers: Vec::new(alloc),
        tops: Vec::new(alloc),
        ranks: Vec::new(alloc),
        full: Vec::new(alloc),
    }
}

fn are_blocks(graph: &Graph, blocks: &Blocks) -> bool
    ensures sound { IsGraph graph.now }
    ensures blocks { IsTrue result ↔ AreBlocks (linked graph.now) (length graph.now) (block_of blocks.now) (top_of blocks.now) (rank_of blocks.now) }
{
    'members: for member in 0..graph.len() {
        if !is_in_block(graph, blocks, member) {
            return false;
        }
    }
    true
}

fn is_in_block(graph: &Graph, blocks: &Blocks, member: usize) -> bool
    requires { member < length graph.now }
    ensures { IsTrue result ↔ IsInBlock (linked graph.now) (length graph.now) (block_of blocks.now) (top_of blocks.now) (rank_of blocks.now) member }
{
    links_stay(graph, blocks, member) && top_ranks_before(graph, blocks, member)
}

fn links_stay(graph: &Graph, blocks: &Blocks, member: usize) -> bool
    requires { member < length graph.now }
    ensures { IsTrue result ↔ ((y : ℕ) → IsTrue (linked graph.now member y) → InOneBlock (block_of blocks.now) (top_of blocks.now) member y) }
{
    'links: for other in graph.links(member) {
        if !blocks.in_one_block(member, *other) {
            return false;
        }
    }
    true
}

fn top_ranks_before(graph: &Graph, blocks: &Blocks, member: usize) -> bool
    ensures { IsTrue result ↔ RanksBefore (length graph.now) (top_of blocks.now) (rank_of blocks.now) member }
{
    let top = blocks.top(member);
    top < graph.len() && (top == member || blocks.rank(top) < blocks.rank(member))
}
