//! Sets of net and node that share what they have in common.

use echo_addr::NetNode;
use std::alloc::{AllocError, Global};

/// The set of nothing.
pub(crate) const NOTHING: usize = 0;

/// Where the way of an entry ends.
const END: usize = 1;

const BITS: usize = 32;

const HIGH: u32 = 0x8000_0000;

// Where the way goes on: for entries with next bit 0, and for the others.
#[derive(Clone, Copy)]
struct Branch {
    low: usize,
    high: usize,
}

const BARE: Branch = Branch {
    low: NOTHING,
    high: NOTHING,
};

/// Sets, each of which goes by the branch that it begins at. One that grew from another takes the branches of one way
/// more.
#[derive(Drop)]
pub(crate) struct Sets {
    branches: Vec<Branch>,
}

impl Sets {
    pub(crate) fn new(alloc: Global) -> Result<Sets, AllocError> {
        let mut branches = Vec::new(alloc);
        branches.push(BARE)?;
        branches.push(BARE)?;
        Ok(Sets { branches })
    }

    pub(crate) fn has(&self, set: usize, entry: NetNode) -> bool {
        let mut at = set;
        let mut left = number(entry);
        for _ in 0..BITS {
            if at == NOTHING {
                return false;
            }
            at = next(self.branch(at), left);
            left = left.wrapping_mul(2);
        }
        at != NOTHING
    }

    pub(crate) fn with(&mut self, set: usize, entry: NetNode) -> Result<usize, AllocError> {
        if self.has(set, entry) {
            return Ok(set);
        }
        let grown = self.branches.len();
        let mut at = set;
        let mut left = number(entry);
        for bit in 1..BITS + 1 {
            let before = self.branch(at);
            let to = if bit < BITS {
                self.branches.len().saturating_add(1)
            } else {
                END
            };
            self.branches.push(turned(before, left, to))?;
            at = next(before, left);
            left = left.wrapping_mul(2);
        }
        Ok(grown)
    }

    fn branch(&self, at: usize) -> Branch {
        match self.branches.get(at) {
            Some(branch) => *branch,
            None => BARE,
        }
    }
}

fn number(entry: NetNode) -> u32 {
    u32::from(entry.net) * 65536 + u32::from(entry.node)
}

// Where an entry with these next bits goes on.
fn next(branch: Branch, left: u32) -> usize {
    if left >= HIGH {
        branch.high
    } else {
        branch.low
    }
}

fn turned(branch: Branch, left: u32, to: usize) -> Branch {
    if left >= HIGH {
        Branch {
            low: branch.low,
            high: to,
        }
    } else {
        Branch {
            low: to,
            high: branch.high,
        }
    }
}
