//! The blocks of a graph: parts in which any two members lie on a cycle.

ghost use Rattle.std.specs.Prelude.{◌≡◌, ◌↔◌, None, IfOk, IsTrue, slice_index_or};
ghost use Rattle.model_graph.specs.Blocks.{block_of, top_of, rank_of, full_of, InOneBlock, IsBlockOfLink, IsInFull, LastMembers, OnOneSide};

use std::alloc::{AllocError, Global};

/// A block and its top for each member. A link joins two members of one block, or the top of a block
/// with a member of it.
#[derive(Drop)]
pub struct Blocks {
    /// The number of each member's block; past the end 0.
    pub numbers: Vec<usize>,
    /// The member at the top of each member's block; past the end 0. A root is its own.
    pub tops: Vec<usize>,
    /// The rank of each member, greater than that of its top; past the end its index.
    pub ranks: Vec<usize>,
    /// By block number: whether all its members are known to be linked with each other and with the
    /// top. Past the end no block is.
    pub full: Vec<bool>,
}

impl Blocks {
    /// The number of the member's block.
    pub fn block(&self, member: usize) -> usize
        ensures { result ≡ block_of self.now member }
    {
        value_or(&self.numbers, member, 0)
    }

    /// The member at the top of the member's block.
    pub fn top(&self, member: usize) -> usize
        ensures { result ≡ top_of self.now member }
    {
        value_or(&self.tops, member, 0)
    }

    /// The rank of the member.
    pub fn rank(&self, member: usize) -> usize
        ensures { result ≡ rank_of self.now member }
    {
        value_or(&self.ranks, member, member)
    }

    /// Is the block of this number known to be full?
    pub fn is_full(&self, block: usize) -> bool
        ensures { result ≡ full_of self.now block }
    {
        match self.full.get(block) {
            Some(full) => *full,
            None => false,
        }
    }

    /// Are both in one block, or is one at the top of the other's?
    pub fn in_one_block(&self, one: usize, other: usize) -> bool
        ensures { IsTrue result ↔ InOneBlock (block_of self.now) (top_of self.now) one other }
    {
        self.block(one) == self.block(other) && self.top(one) == self.top(other)
            || self.top(one) == other
            || self.top(other) == one
    }

    /// Are these two links of `at` in one block there?
    pub fn on_one_side(&self, at: usize, one: usize, other: usize) -> bool
        ensures { IsTrue result ↔ OnOneSide (block_of self.now) (top_of self.now) at one other }
    {
        if self.top(one) == at {
            self.top(other) == at && self.block(one) == self.block(other)
        } else {
            self.top(other) != at
        }
    }

    /// Is the block at `at` of its link `one` known to be full?
    pub fn is_in_full(&self, at: usize, one: usize) -> bool
        ensures { IsTrue result ↔ IsInFull (block_of self.now) (top_of self.now) (full_of self.now) at one }
    {
        self.is_full(self.block_of_link(at, one))
    }

    /// The number of the block of the link from `at` to `one`.
    pub fn block_of_link(&self, at: usize, one: usize) -> usize
        ensures { IsBlockOfLink (block_of self.now) (top_of self.now) at one result }
    {
        let below = if self.top(one) == at { one } else { at };
        self.block(below)
    }
}

/// The members of blocks, as lists from the last one back. It skips blocks with a number that is no member's.
#[derive(Drop)]
pub struct BlockLists {
    /// The last member before each one in its block.
    pub previous: Vec<Option<usize>>,
    /// By block number, its last member.
    pub last: Vec<Option<usize>>,
}

/// The members of each block.
pub fn block_lists(alloc: Global, members: usize, blocks: &Blocks) -> Result<BlockLists, AllocError>
    ensures { IfOk result (λ lists. LastMembers (block_of blocks.now) members members lists.previous.items lists.last.items) }
{
    let mut previous = Vec::new(alloc);
    let mut last = vec![in alloc; None; members]?;
    'members: for member in 0..members {
        let block = blocks.block(member);
        if block < members {
            previous.push(last[block])?;
            last[block] = Some(member);
        } else {
            previous.push(None)?;
        }
    }
    Ok(BlockLists { previous, last })
}

/// The value at this index, or the other one past the end.
pub fn value_or(values: &[usize], index: usize, past: usize) -> usize
    ensures { result ≡ slice_index_or values.now index past }
{
    match values.get(index) {
        Some(value) => *value,
        None => past,
    }
}
