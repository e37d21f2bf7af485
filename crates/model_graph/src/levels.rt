//! How far each member is from another.

ghost use Rattle.std.specs.Prelude.{◌≡◌, ◌<◌, ◌≢◌, IfOk, None, OnOk, length, vec_len};
ghost use Rattle.model_graph.specs.{Rows.links_at, Rows.linked, Rows.IsGraph, Levels.level_of, Levels.AreLevels, Visits.Visited, Floods.Flooded, Floods.Searched, Floods.IsSettledFlood};

use crate::graph::Graph;
use std::alloc::{AllocError, Global};

/// The level of each member: the fewest links of a walk from `root` that does not pass `without`. `None` for members
/// that no such walk reaches. A `without` past the last member leaves out none.
pub fn levels_around(
    alloc: Global,
    graph: &Graph,
    without: usize,
    root: usize,
) -> Result<Vec<Option<usize>>, AllocError>
    requires inside { root < length graph.now }
    requires apart { root ≢ without }
    ensures lengths { IfOk result (λ levels. vec_len levels ≡ length graph.now) }
    ensures searched { IfOk result (λ levels. Searched (linked graph.now) without root levels.items) }
    ensures levels { IfOk result (λ levels. AreLevels (linked graph.now) without root levels.items) }
{
    let mut levels = vec![in alloc; None; graph.len()]?;
    flood(alloc, graph, without, root, &mut levels)?;
    Ok(levels)
}

/// Gives each member a level that a walk from `root` reaches, among those that have none yet.
pub fn flood(
    alloc: Global,
    graph: &Graph,
    without: usize,
    root: usize,
    levels: &mut Vec<Option<usize>>,
) -> Result<(), AllocError>
    requires same_length { vec_len levels.old ≡ length graph.now }
    requires inside { root < length graph.now }
    requires apart { root ≢ without }
    requires none { level_of levels.old.items root ≡ None }
    requires settled { IsSettledFlood (linked graph.now) without levels.old.items }
    ensures { OnOk result (Flooded (linked graph.now) without root levels.old.items levels.new.items) }
{
    let mut queue = Vec::new(alloc);
    levels[root] = Some(0);
    queue.push(root)?;
    let mut head = 0;
    'flooding: while head < queue.len() {
        let member = queue[head];
        let level = levels[member].unwrap();
        visit(graph, without, member, level + 1, levels, &mut queue)?;
        head += 1;
    }
    Ok(())
}

pub fn visit(
    graph: &Graph,
    without: usize,
    member: usize,
    level: usize,
    levels: &mut Vec<Option<usize>>,
    queue: &mut Vec<usize>,
) -> Result<(), AllocError>
    requires inside { member < length graph.now }
    requires same_length { vec_len levels.old ≡ length graph.now }
    ensures sound { IsGraph graph.now }
    ensures visited { let links = links_at graph.now member in
        OnOk result (Visited links (length links) without level levels.old.items levels.new.items queue.old.items queue.new.items) }
{
    'visiting: for other in graph.links(member) {
        if *other != without && levels[*other].is_none() {
            levels[*other] = Some(level);
            queue.push(*other)?;
        }
    }
    Ok(())
}
