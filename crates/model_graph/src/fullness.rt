//! The full blocks of a graph: all members are linked with each other and with the top.

ghost use Rattle.std.specs.Prelude.{◌≡◌, ◌<◌, ℕ, false, IfOk, IsTrue, None, length, slice_index_or};
ghost use Rattle.model_graph.specs.{Blocks.{block_of, top_of, AreFull, IsLastBefore, IsFullyLinked}, Rows.linked};

use crate::blocks::{Blocks, block_lists};
use crate::graph::Graph;
use std::alloc::{AllocError, Global};

/// Which blocks, by number, are full. Takes for each full block the square of its members, and for
/// each other one at most the time of its links.
pub fn full_blocks(alloc: Global, graph: &Graph, blocks: &Blocks) -> Result<Vec<bool>, AllocError>
    ensures { IfOk result (λ full. AreFull (linked graph.now) (length graph.now) (block_of blocks.now) (top_of blocks.now) (λ block. slice_index_or full.items block false)) }
{
    let members = graph.len();
    let lists = block_lists(alloc, members, blocks)?;
    let mut full = vec![in alloc; true; members]?;
    'members: for member in 0..members {
        let block = blocks.block(member);
        if block < members
            && full[block]
            && !is_fully_linked(graph, blocks, &lists.previous, member)
        {
            full[block] = false;
        }
    }
    Ok(full)
}

fn is_fully_linked(
    graph: &Graph,
    blocks: &Blocks,
    previous: &[Option<usize>],
    member: usize,
) -> bool
    requires inside { member < length graph.now }
    requires block { block_of blocks.now member < length graph.now }
    requires lengths { length previous.now ≡ length graph.now }
    requires previous { (x : ℕ) → x < length graph.now → block_of blocks.now x < length graph.now →
        IsLastBefore (block_of blocks.now) (block_of blocks.now x) x (slice_index_or previous.now x None) }
    ensures { IsTrue result → IsFullyLinked (linked graph.now) (block_of blocks.now) (top_of blocks.now) member }
{
    if !graph.is_linked(member, blocks.top(member)) {
        return false;
    }
    let mut from = member;
    'walking: while let Some(earlier) = previous[from] {
        if !graph.is_linked(member, earlier) {
            return false;
        }
        from = earlier;
    }
    true
}
