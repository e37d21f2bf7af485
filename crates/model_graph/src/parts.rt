//! The parts of a graph: members that walks join with each other.

ghost use Rattle.std.specs.Prelude.{◌≡◌, ◌<◌, ◌↔◌, ℕ, IfOk, IsTrue, None, OnOk, Some, length, vec_len};
ghost use Rattle.model_graph.specs.{Levels.level_of, Parts.AreFirstMembers, Parts.AreLabelled, Parts.AreLabels, Parts.IsFirstMember, Rows.linked};

use crate::graph::Graph;
use crate::levels::visit;
use std::alloc::{AllocError, Global};

/// The first member of each part, ascending. Takes about the time of one search. Fails only when out of memory.
pub fn first_members(alloc: Global, graph: &Graph) -> Result<Vec<usize>, AllocError>
    ensures { IfOk result (λ firsts. AreFirstMembers (linked graph.now) (length graph.now) firsts.items) }
{
    let labels = part_labels(alloc, graph)?;
    let mut firsts = Vec::new(alloc);
    'members: for member in 0..labels.len() {
        if is_first(&labels, member) {
            firsts.push(member)?;
        }
    }
    Ok(firsts)
}

/// The first member of the part of each member. Takes about the time of one search. Fails only when out of memory.
pub fn part_labels(alloc: Global, graph: &Graph) -> Result<Vec<Option<usize>>, AllocError>
    ensures { IfOk result (λ labels. AreLabels (linked graph.now) (length graph.now) labels.items) }
{
    let mut labels = vec![in alloc; None; graph.len()]?;
    'members: for member in 0..graph.len() {
        if labels[member].is_none() {
            spread(alloc, graph, member, &mut labels)?;
        }
    }
    Ok(labels)
}

/// Labels all members with `root` that walks join with it. All members before it have a label.
fn spread(
    alloc: Global,
    graph: &Graph,
    root: usize,
    labels: &mut Vec<Option<usize>>,
) -> Result<(), AllocError>
    requires same_length { vec_len labels.old ≡ length graph.now }
    requires inside { root < length graph.now }
    requires none { level_of labels.old.items root ≡ None }
    requires earlier { (k : ℕ) → k < root → level_of labels.old.items k ≡ None → ⊥ }
    requires labelled { AreLabelled (linked graph.now) labels.old.items }
    ensures same_length { OnOk result (vec_len labels.new ≡ vec_len labels.old) }
    ensures rooted { OnOk result (level_of labels.new.items root ≡ Some root) }
    ensures kept { OnOk result ((i m : ℕ) → level_of labels.old.items i ≡ Some m → level_of labels.new.items i ≡ Some m) }
    ensures labelled { OnOk result (AreLabelled (linked graph.now) labels.new.items) }
{
    let members = graph.len();
    let mut queue = Vec::new(alloc);
    labels[root] = Some(root);
    queue.push(root)?;
    let mut head = 0;
    'spreading: while head < queue.len() {
        let member = queue[head];
        visit(graph, members, member, root, labels, &mut queue)?;
        head += 1;
    }
    Ok(())
}

fn is_first(labels: &[Option<usize>], member: usize) -> bool
    requires { member < length labels.now }
    ensures { IsTrue result ↔ IsFirstMember labels.now member }
{
    match labels[member] {
        Some(first) => first == member,
        None => false,
    }
}
