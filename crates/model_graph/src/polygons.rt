//! A cycle with two members that are not linked.

ghost use Rattle.std.specs.Prelude.{IfOk, MatchOption};
ghost use Rattle.model_graph.specs.{Cycle.Polygons, Rows.linked, Loops.NamedLoop};

use crate::graph::Graph;
use crate::pinching::{Pinch, first_pinch};
use crate::ring::find_ring;
use crate::writing::written;
use std::alloc::{AllocError, Global};

/// A cycle with two members that are not linked, and the pinch that it goes round.
#[derive(Drop)]
pub struct Loop {
    pub pinch: Pinch,
    /// The members of the cycle, as it is written.
    pub round: Vec<usize>,
}

/// `None` exactly where any two members of a cycle are linked; else a cycle with two that are not. `None` takes about
/// the time of one search, a cycle that of a few, or the square of a member's links in many blocks.
///
/// It takes the smallest b with links a < c that are not linked, but joined around b; then the smallest a, c and the
/// shortest, least walk. It is written from its smallest member, first to the smaller neighbour. Fails only when out
/// of memory.
pub fn find_loop(alloc: Global, graph: &Graph) -> Result<Option<Loop>, AllocError>
    ensures { IfOk result (λ found. MatchOption found
        (Polygons (linked graph.now))
        (λ named. NamedLoop (linked graph.now) named.round.items)) }
{
    let Some(pinch) = first_pinch(alloc, graph)? else {
        return Ok(None);
    };
    let ring = find_ring(alloc, graph, pinch)?;
    let round = written(alloc, &ring)?;
    Ok(Some(Loop { pinch, round }))
}
