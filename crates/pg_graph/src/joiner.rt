//! Which vertices edges join, and which edges cross, part and bridge.
ghost use Rattle.std.specs.Prelude.{◌≡◌, ℕ, ◌<◌, ◌↔◌, true, IsTrue, IfOk, IfSome, IfNone, suc};
ghost use Rattle.std.specs.FinSet.{contains};
ghost use Rattle.pg_graph.specs.Graph.{IsGraph, IsJoinedIn, JoinsEndsOf, IsBridge, edge_count};
ghost use Rattle.pg_graph.specs.Joiner.{IsMadeFor, AreEdges, AreBothEdges, AreVertices, Crosses};
ghost use Rattle.pg_graph.specs.Joiner.{Parts, IsLowest, extended};

use crate::graph::Graph;
use crate::joins;
use pg_base::{Memory, PointSet};
use std::alloc::Global;
use std::marker::Model;

/// Room to work in for graphs with a certain number of vertices and of edges.
///
/// Only `new` takes memory. The calls write their labels over the earlier ones and leave the two
/// numbers as they are.
#[derive(Debug, Drop)]
pub struct Joiner {
    parents: Vec<u16>,
    edges: u16,
}

/// The two numbers.
impl Model for Joiner {
    ghost use Rattle.std.specs.Prelude.{length};
    ghost use Rattle.pg_graph.specs.Joiner.{Room};

    ghost Value = { Room };

    ghost view = { λ a. record { vertices = length a.parents.items; edges = a.edges } };
}

impl Joiner {
    /// A joiner for graphs with as many vertices and edges as this one. `Memory` says that there is
    /// no room for it.
    pub fn new(alloc: Global, g: &Graph) -> Result<Joiner, Memory>
        requires graph { IsGraph g.now }
        ensures { IfOk result (λ joiner. IsMadeFor joiner g.now) }
    {
        let parents = vec![in alloc; 0; g.vertices as usize]?;
        Ok(Joiner {
            parents,
            edges: g.edge_count(),
        })
    }

    /// Whether a walk of edges of the set leads from u to v.
    pub fn joined(&mut self, g: &Graph, set: &PointSet, u: u16, v: u16) -> bool
        requires graph { IsGraph g.now }
        requires made { IsMadeFor self.old g.now }
        requires set { AreEdges g.now (contains set.now) }
        requires u { u < g.now.vertices }
        requires v { v < g.now.vertices }
        ensures joined { IsTrue result ↔ IsJoinedIn g.now (contains set.now) u v }
        ensures kept { self.new ≡ self.old }
    {
        joins::joined(&mut self.parents, g, set, u, v)
    }

    /// The lowest candidate with exactly one end joined to u in the set, and None exactly where
    /// there is none.
    pub fn crossing(
        &mut self,
        g: &Graph,
        set: &PointSet,
        u: u16,
        candidates: &PointSet,
    ) -> Option<u16>
        requires graph { IsGraph g.now }
        requires made { IsMadeFor self.old g.now }
        requires sets { AreBothEdges g.now (contains set.now) (contains candidates.now) }
        requires u { u < g.now.vertices }
        ensures lowest { IfSome result
            (λ k. IsLowest (contains candidates.now) (Crosses g.now (contains set.now) u) k) }
        ensures none { IfNone result
            ((k : ℕ) → contains candidates.now k ≡ true → Crosses g.now (contains set.now) u k
            → ⊥) }
        ensures kept { self.new ≡ self.old }
    {
        joins::crossing(&mut self.parents, g, set, u, candidates)
    }

    /// The lowest candidate in the set without which u and v aren't joined, where they are joined
    /// in the set.
    ///
    /// None comes exactly where they aren't joined or no candidate parts them. Each candidate of
    /// the set is tried by labels of its own.
    pub fn parting(
        &mut self,
        g: &Graph,
        set: &PointSet,
        u: u16,
        v: u16,
        candidates: &PointSet,
    ) -> Option<u16>
        requires graph { IsGraph g.now }
        requires made { IsMadeFor self.old g.now }
        requires sets { AreBothEdges g.now (contains set.now) (contains candidates.now) }
        requires vertices { AreVertices g.now u v }
        ensures lowest { IfSome result
            (λ k. IsLowest (contains candidates.now) (Parts g.now (contains set.now) u v) k) }
        ensures none { IfNone result
            ((k : ℕ) → contains candidates.now k ≡ true → Parts g.now (contains set.now) u v k
            → ⊥) }
        ensures kept { self.new ≡ self.old }
    {
        joins::parting(&mut self.parents, g, set, u, v, candidates)
    }

    /// Whether edges of the set join the two ends of each member.
    ///
    /// The set is labelled once, and then the labels of the two ends of each member are compared: a
    /// walk over the set and one over the members, in nearly linear time.
    pub fn joins_all(&mut self, g: &Graph, set: &PointSet, members: &PointSet) -> bool
        requires graph { IsGraph g.now }
        requires made { IsMadeFor self.old g.now }
        requires set { AreEdges g.now (contains set.now) }
        requires members { AreEdges g.now (contains members.now) }
        ensures joins { IsTrue result
            ↔ ((f : ℕ) → contains members.now f ≡ true → JoinsEndsOf g.now (contains set.now) f) }
        ensures kept { self.new ≡ self.old }
    {
        joins::joins_all(&mut self.parents, g, set, members)
    }

    /// Whether each member is a bridge of the set: its ends aren't joined in the set without it. A
    /// member needn't be in the set.
    ///
    /// Edges of a set are all bridges of it just where they are independent when the rest is
    /// contracted (Oxley, Matroid Theory, section 3.1): they form a forest on the classes that the
    /// rest joins. So the rest is labelled once, and each member must unite two classes that no
    /// earlier one did: a walk over the rest and one over the members, in nearly linear time.
    pub fn bridges_all(&mut self, g: &Graph, set: &PointSet, members: &PointSet) -> bool
        requires graph { IsGraph g.now }
        requires made { IsMadeFor self.old g.now }
        requires set { AreEdges g.now (contains set.now) }
        requires members { AreEdges g.now (contains members.now) }
        ensures bridges { IsTrue result
            ↔ ((f : ℕ) → contains members.now f ≡ true → IsBridge g.now (contains set.now) f) }
        ensures kept { self.new ≡ self.old }
    {
        joins::bridges_all(&mut self.parents, g, set, members)
    }

    /// The base with each candidate, in ascending order, whose ends the edges of the set and of
    /// what is there by then don't join (`extended`). Candidates that are no edges stay out.
    ///
    /// The set and the base are labelled once, and each candidate that comes in unites two labels:
    /// a walk over them and one over the candidates, in nearly linear time.
    pub fn extended(
        &mut self,
        g: &Graph,
        set: &PointSet,
        base: &PointSet,
        candidates: &PointSet,
    ) -> PointSet
        requires graph { IsGraph g.now }
        requires made { IsMadeFor self.old g.now }
        requires sets { AreBothEdges g.now (contains set.now) (contains base.now) }
        ensures extended { contains result ≡ extended g.now (contains set.now)
            (contains candidates.now) (contains base.now) (suc (edge_count g.now)) }
        ensures kept { self.new ≡ self.old }
    {
        joins::extended(&mut self.parents, g, set, base, candidates)
    }
}
