//! Two spanning forests of a graph.
ghost use Rattle.std.specs.Prelude.{◌≡◌, ◌<◌, ◌≤◌, IfOk};
ghost use Rattle.pg_exchange.specs.Prelude.{contains, AreBelow, ShareNone, IsGraph, edge_count};
ghost use Rattle.pg_exchange.specs.Forest.{graph_matroid, elements_of, IsApart};

use crate::exchange::Exchange;
use crate::graph_ground::GraphGround;
use crate::ground::Ground;
use crate::search::members;
use pg_base::{MAX_MEMBERS, Memory, PointSet};
use pg_graph::Graph;
use std::alloc::Global;

/// Two spanning forests of one graph.
pub type Trees = Exchange<GraphGround>;

impl Exchange<GraphGround> {
    /// Two spanning forests of the graph with the edges of x contracted, those of y deleted and,
    /// where it is wanted, `e` added. The second has an edge of the first only where the edges
    /// outside the first don't span as much.
    pub fn new(
        alloc: Global,
        g: &Graph,
        x: &PointSet,
        y: &PointSet,
        with_e: bool,
    ) -> Result<Trees, Memory>
        requires graph { IsGraph g.now }
        requires few { g.now.vertices ≤ MAX_MEMBERS }
        requires x { AreBelow x.now (edge_count g.now) }
        requires y { AreBelow y.now (edge_count g.now) }
        requires apart { ShareNone x.now y.now }
        ensures matroid { IfOk result
            (λ trees. ⟦<GraphGround as Ground>⟧.matroid trees.first ≡ graph_matroid g.now
            (contains x.now) (elements_of g.now (contains x.now) (contains y.now) with_e)) }
        ensures apart { IfOk result
            (λ trees. IsApart (⟦<GraphGround as Ground>⟧.matroid trees.first)
            (⟦<GraphGround as Ground>⟧.base trees.second)
            (⟦<GraphGround as Ground>⟧.base trees.first)) }
    {
        let first = GraphGround::new(alloc, g, x, y, with_e)?;
        let second = GraphGround::apart_from(alloc, g, x, y, with_e, &members(&first))?;
        Ok(Exchange::open(first, second))
    }
}
