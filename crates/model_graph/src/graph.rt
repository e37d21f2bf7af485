//! A graph of members with their links.

ghost use Rattle.std.specs.{Prelude.{◌≡◌, ◌<◌, ℕ, List, ◌==◌, length}, List.list_any};
ghost use Rattle.model_graph.specs.Rows.{links_at, linked, IsGraph, IsAscending};

use std::marker::Model;

/// The indexes of the members that one member is linked with, ascending.
#[derive(Drop)]
pub struct Links {
    members: Vec<usize>,
}

impl Model for Links {
    ghost Value = { List ℕ };

    ghost view = { λ links. links.members.items };
}

impl Links {
    /// The links to these members, in their order.
    pub fn new(members: Vec<usize>) -> Links
        ensures { result ≡ members.items }
    {
        Links { members }
    }

    /// The indexes of the linked members.
    pub fn as_slice(&self) -> &[usize]
        ensures { result.now ≡ self.now }
    {
        self.members.as_slice()
    }
}

/// A graph of members 0, 1, 2 and so on, each with its links. A link is in the rows of both its
/// ends, and no member is linked with itself.
#[derive(Drop)]
pub struct Graph {
    rows: Vec<Links>,
}

impl Model for Graph {
    ghost Value = { List (List ℕ) };

    ghost view = { λ graph. graph.rows.items };

    ghost invariant = { λ graph. IsGraph graph.rows.items };
}

impl Graph {
    /// The graph with a row of links for each member. `is_graph` tests the rows.
    pub fn new(rows: Vec<Links>) -> Graph
        requires { IsGraph rows.items }
        ensures { result ≡ rows.items }
    {
        Graph { rows }
    }

    /// How many members there are.
    pub fn len(&self) -> usize
        ensures value { result ≡ length self.now }
        ensures sound { IsGraph self.now }
    {
        self.rows.len()
    }

    /// The links of a member, ascending.
    pub fn links(&self, member: usize) -> &[usize]
        requires { member < length self.now }
        ensures value { result.now ≡ links_at self.now member }
        ensures ascending { IsAscending result.now }
        ensures sound { IsGraph self.now }
    {
        self.rows[member].as_slice()
    }

    /// Is `one` linked with `other`?
    pub fn is_linked(&self, one: usize, other: usize) -> bool
        requires { one < length self.now }
        ensures { result ≡ linked self.now one other }
    {
        has_link(self.links(one), other)
    }
}

/// Is `member` among these links, which ascend?
pub fn has_link(links: &[usize], member: usize) -> bool
    requires { IsAscending links.now }
    ensures { result ≡ list_any (λ link. link == member) links.now }
{
    links.binary_search(&member).is_ok()
}
