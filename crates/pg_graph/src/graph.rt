//! Graphs as lists of edges.
ghost use Rattle.std.specs.Prelude.{◌≡◌, ◌<◌, ◌≤◌, length};
ghost use Rattle.pg_graph.specs.Graph.{IsGraph, edge_count, first_end_of, second_end_of};

use pg_base::MAX_EDGES;
use std::marker::Model;

/// A multigraph with two terminals. Loops and parallel edges are allowed.
///
/// The edges are numbered from 0 in the order of `ends`. In every set of edges the number after the
/// last one stands for `e`, a further edge between the terminals.
#[derive(Debug, Drop)]
pub struct Graph {
    /// How many vertices there are. They are the numbers below it.
    pub vertices: u16,
    /// One terminal.
    pub s: u16,
    /// The other terminal.
    pub t: u16,
    /// The two ends of each edge.
    pub ends: Ends,
}

impl Graph {
    /// How many edges there are, which is the number that stands for `e`.
    pub fn edge_count(&self) -> u16
        requires { length self.now.ends ≤ MAX_EDGES }
        ensures { result ≡ edge_count self.now }
    {
        self.ends.as_slice().len() as u16
    }

    /// The two ends of an edge, or of `e`.
    pub fn ends_of(&self, k: u16) -> (u16, u16)
        requires graph { IsGraph self.now }
        requires edge { k ≤ edge_count self.now }
        ensures ends { result ≡ (first_end_of self.now k, second_end_of self.now k) }
        ensures first { result.0 < self.now.vertices }
        ensures second { result.1 < self.now.vertices }
    {
        if k < self.edge_count() {
            self.ends.as_slice()[k as usize]
        } else {
            (self.s, self.t)
        }
    }
}

/// A list of pairs of vertices.
#[derive(Debug, Drop)]
pub struct Ends {
    members: Vec<(u16, u16)>,
}

/// The pairs in order.
impl Model for Ends {
    ghost use Rattle.std.specs.Prelude.{ℕ, List};

    ghost Value = { List (ℕ × ℕ) };

    ghost view = { λ a. a.members.items };
}

impl Ends {
    /// The list of these pairs.
    pub fn from_vec(members: Vec<(u16, u16)>) -> Ends
        ensures { result ≡ members.items }
    {
        Ends { members }
    }

    /// The pairs in order.
    pub fn as_slice(&self) -> &[(u16, u16)]
        ensures { result.now ≡ self.now }
    {
        self.members.as_slice()
    }
}
