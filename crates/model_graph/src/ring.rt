//! The walk around a cycle.

ghost use Rattle.std.specs.Prelude.{◌≡◌, ◌<◌, ◌↔◌, ℕ, IsTrue, IfOk, Some, ◌∷◌, List, length};
ghost use Rattle.model_graph.specs.{Rows.linked, Rows.IsGraph, Levels.level_of, Pinches.IsPinch, Descents.SmallestAt, Loops.FirstWalk};

use crate::graph::Graph;
use crate::levels::levels_around;
use crate::pinching::Pinch;
use std::alloc::{AllocError, Global};

/// The member of the pinch, and then the walk around it from the smaller link to the greater: of
/// those with the fewest members the least.
pub fn find_ring(alloc: Global, graph: &Graph, pinch: Pinch) -> Result<Vec<usize>, AllocError>
    requires sound { IsGraph graph.now }
    requires pinch { IsPinch (linked graph.now) pinch.at pinch.one pinch.other }
    ensures { IfOk result (λ ring. (rest : List ℕ) × (ring.items ≡ pinch.at ∷ pinch.one ∷ rest) ×
        FirstWalk (linked graph.now) pinch.at pinch.one pinch.other rest) }
{
    let levels = levels_around(alloc, graph, pinch.at, pinch.other)?;
    let mut ring = Vec::new(alloc);
    ring.push(pinch.at)?;
    ring.push(pinch.one)?;
    let mut member = pinch.one;
    let mut level = levels[member].unwrap();
    'descending: while level > 0 {
        level -= 1;
        member = smallest_at(graph, &levels, member, level);
        ring.push(member)?;
    }
    Ok(ring)
}

fn smallest_at(graph: &Graph, levels: &[Option<usize>], member: usize, level: usize) -> usize
    requires inside { member < length graph.now }
    requires lengths { length levels.now ≡ length graph.now }
    requires there { (d : ℕ) × IsTrue (linked graph.now member d) × (level_of levels.now d ≡ Some level) }
    ensures { SmallestAt (linked graph.now) levels.now member level result }
{
    'links: for other in graph.links(member) {
        if has_level(levels, *other, level) {
            return *other;
        }
    }
    unreachable!()
}

fn has_level(levels: &[Option<usize>], member: usize, level: usize) -> bool
    requires { member < length levels.now }
    ensures { IsTrue result ↔ (level_of levels.now member ≡ Some level) }
{
    match levels[member] {
        Some(found) => found == level,
        None => false,
    }
}
