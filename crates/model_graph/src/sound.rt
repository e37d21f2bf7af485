//! Whether rows of links are a graph.

ghost use Rattle.std.specs.Prelude.{◌≡◌, ◌<◌, ◌↔◌, ℕ, IsTrue, length};
ghost use Rattle.model_graph.specs.Rows.{links_at, IsAscending, IsGraph, Answered, EachAnswered};

use crate::graph::{Links, has_link};

/// Does each row ascend, and does each link lead to another member whose row has it too?
pub fn is_graph(rows: &[Links]) -> bool
    ensures { IsTrue result ↔ IsGraph rows.now }
{
    rows_ascend(rows) && links_are_answered(rows)
}

fn rows_ascend(rows: &[Links]) -> bool
    ensures { IsTrue result ↔ ((a : ℕ) → a < length rows.now → IsAscending (links_at rows.now a)) }
{
    'members: for member in 0..rows.len() {
        if !is_ascending(row_of(rows, member)) {
            return false;
        }
    }
    true
}

pub fn is_ascending(links: &[usize]) -> bool
    ensures { IsTrue result ↔ IsAscending links.now }
{
    'links: for place in 1..links.len() {
        if links[place - 1] >= links[place] {
            return false;
        }
    }
    true
}

fn links_are_answered(rows: &[Links]) -> bool
    requires { (a : ℕ) → a < length rows.now → IsAscending (links_at rows.now a) }
    ensures { IsTrue result ↔ ((a : ℕ) → a < length rows.now → EachAnswered rows.now a) }
{
    'members: for member in 0..rows.len() {
        if !row_is_answered(rows, member) {
            return false;
        }
    }
    true
}

fn row_is_answered(rows: &[Links], member: usize) -> bool
    requires inside { member < length rows.now }
    requires ascending { (a : ℕ) → a < length rows.now → IsAscending (links_at rows.now a) }
    ensures { IsTrue result ↔ EachAnswered rows.now member }
{
    'links: for other in row_of(rows, member) {
        if !is_answered(rows, member, *other) {
            return false;
        }
    }
    true
}

fn is_answered(rows: &[Links], member: usize, other: usize) -> bool
    requires { (a : ℕ) → a < length rows.now → IsAscending (links_at rows.now a) }
    ensures { IsTrue result ↔ Answered rows.now member other }
{
    if other >= rows.len() || other == member {
        return false;
    }
    has_link(row_of(rows, other), member)
}

fn row_of(rows: &[Links], member: usize) -> &[usize]
    requires { member < length rows.now }
    ensures { result.now ≡ links_at rows.now member }
{
    rows[member].as_slice()
}
