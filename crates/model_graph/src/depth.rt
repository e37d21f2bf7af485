//! A search in depth, and the blocks that it finds. The search itself is not proved: `division` tests its results
//! before use.

use crate::blocks::{Blocks, value_or};
use crate::graph::Graph;
use std::alloc::{AllocError, Global};

#[derive(Drop)]
struct Search {
    /// The blocks found. Ranks count visits from 1, and are 0 for members not visited.
    found: Blocks,
    /// From where each member was reached; a root from itself.
    parents: Vec<usize>,
    /// The lowest rank that a link leads to, from each member or from those reached through it.
    lowest: Vec<usize>,
    followed: Vec<usize>,
    /// The members that have no block yet, in the order of visits.
    open: Vec<usize>,
    visited: usize,
}

/// The blocks of the graph, not one marked as full.
pub fn blocks_in_depth(alloc: Global, graph: &Graph) -> Result<Blocks, AllocError> {
    let members = graph.len();
    let mut search = Search {
        found: Blocks {
            numbers: vec![in alloc; 0; members]?,
            tops: vec![in alloc; 0; members]?,
            ranks: vec![in alloc; 0; members]?,
            full: Vec::new(alloc),
        },
        parents: vec![in alloc; 0; members]?,
        lowest: vec![in alloc; 0; members]?,
        followed: vec![in alloc; 0; members]?,
        open: Vec::new(alloc),
        visited: 0,
    };
    for root in 0..members {
        if search.found.rank(root) == 0 {
            search.visit(root, root)?;
            search.search_from(graph, root)?;
        }
    }
    Ok(search.found)
}

impl Search {
    fn search_from(&mut self, graph: &Graph, root: usize) -> Result<(), AllocError> {
        let mut member = root;
        for _ in 0..usize::MAX {
            match self.step(graph, member)? {
                Some(next) => member = next,
                None => return Ok(()),
            }
        }
        Ok(())
    }

    /// Follows the next link of the member, or goes back. Answers where the search now is.
    fn step(&mut self, graph: &Graph, member: usize) -> Result<Option<usize>, AllocError> {
        let Some(other) = self.follow(graph, member) else {
            return Ok(self.leave(member));
        };
        let rank = self.found.rank(other);
        if rank == 0 {
            self.visit(other, member)?;
            return Ok(Some(other));
        }
        self.lower(member, rank);
        Ok(Some(member))
    }

    fn visit(&mut self, member: usize, parent: usize) -> Result<(), AllocError> {
        self.visited = self.visited.saturating_add(1);
        put(&mut self.found.ranks, member, self.visited);
        put(&mut self.lowest, member, self.visited);
        put(&mut self.parents, member, parent);
        put(&mut self.found.numbers, member, member);
        put(&mut self.found.tops, member, parent);
        self.open.push(member)?;
        Ok(())
    }

    fn follow(&mut self, graph: &Graph, member: usize) -> Option<usize> {
        if member >= graph.len() {
            return None;
        }
        let place = value_or(&self.followed, member, 0);
        put(&mut self.followed, member, place.saturating_add(1));
        graph.links(member).get(place).copied()
    }

    /// Goes back, and closes the block below, where no link leads further up.
    fn leave(&mut self, member: usize) -> Option<usize> {
        let parent = value_or(&self.parents, member, member);
        if parent == member {
            return None;
        }
        let lowest = value_or(&self.lowest, member, 0);
        self.lower(parent, lowest);
        if lowest >= self.found.rank(parent) {
            self.close(member, parent);
        }
        Some(parent)
    }

    fn close(&mut self, first: usize, top: usize) {
        for _ in 0..self.open.len() {
            let Some(member) = self.open.pop() else {
                return;
            };
            put(&mut self.found.numbers, member, first);
            put(&mut self.found.tops, member, top);
            if member == first {
                return;
            }
        }
    }

    fn lower(&mut self, member: usize, rank: usize) {
        if rank < value_or(&self.lowest, member, 0) {
            put(&mut self.lowest, member, rank);
        }
    }
}

fn put(values: &mut [usize], index: usize, value: usize) {
    if index < values.len() {
        values[index] = value;
    }
}
