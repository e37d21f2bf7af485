//! The first member that no walk reaches.

ghost use Rattle.std.specs.Prelude.{◌≡◌, ◌≢◌, ◌<◌, ℕ, IfOk, MatchOption, None, length};
ghost use Rattle.model_graph.specs.{Walk.Connected, Rows.linked, Levels.level_of, Reach.FirstUnreached};

use crate::graph::Graph;
use crate::levels::levels_around;
use std::alloc::{AllocError, Global};

/// The first member that no walk from member 0 reaches, `None` exactly where there is a walk between
/// any two members. Fails only when out of memory.
pub fn unreached(alloc: Global, graph: &Graph) -> Result<Option<usize>, AllocError>
    ensures { IfOk result (λ found. MatchOption found
        (Connected (λ member. member < length graph.now) (linked graph.now))
        (FirstUnreached (linked graph.now) (length graph.now))) }
{
    if graph.len() == 0 {
        return Ok(None);
    }
    let levels = levels_around(alloc, graph, graph.len(), 0)?;
    Ok(first_without_level(&levels))
}

fn first_without_level(levels: &[Option<usize>]) -> Option<usize>
    ensures { MatchOption result
        ((k : ℕ) → k < length levels.now → level_of levels.now k ≢ None)
        (λ u. (u < length levels.now) × (level_of levels.now u ≡ None) × ((k : ℕ) → k < u → level_of levels.now k ≢ None)) }
{
    for (member, level) in levels.iter().enumerate() {
        if level.is_none() {
            return Some(member);
        }
    }
    None
}
