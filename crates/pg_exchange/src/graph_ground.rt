//! Spanning forests of a graph as bases.
ghost use Rattle.std.specs.Prelude.{◌≡◌, ◌<◌, ◌≤◌, suc, IfOk, vec_len};
ghost use Rattle.pg_exchange.specs.Prelude.{contains, AreBelow, ShareNone, either, below};
ghost use Rattle.pg_exchange.specs.Prelude.{MAX_MEMBERS, IsGraph, edge_count, spans_in, IsMadeFor};
ghost use Rattle.pg_exchange.specs.Prelude.{AreEdges, AreLabels, IsBase};
ghost use Rattle.pg_exchange.specs.Forest.{graph_matroid, elements_of, IsApart, IsFree, IsGrown};
ghost use Rattle.pg_exchange.specs.Stars.{AreStars};

use crate::ground::Ground;
use crate::path::{Step, path};
use crate::search::shared;
use crate::stars::stars_of;
use pg_base::{MAX_MEMBERS, Memory, PointSet};
use pg_graph::{Ends, Graph, Joiner, labels};
use std::alloc::Global;

/// A spanning forest of the edges that two sets leave, over the edges of the first: the base. The
/// graph with the edges of the first set contracted and those of the second deleted is what it
/// spans.
#[derive(Drop)]
pub struct GraphGround {
    graph: Graph,
    names: Vec<u16>,
    stars: Vec<PointSet>,
    steps: Vec<Step>,
    x: PointSet,
    elements: PointSet,
    base: PointSet,
    ghost fits: { IsGraph graph },
    ghost few: { graph.vertices ≤ MAX_MEMBERS },
    ghost labelled: { AreLabels graph (contains x) names.items },
    ghost starred: { AreStars graph names.items (suc (edge_count graph)) stars.items },
    ghost steps_size: { vec_len steps ≡ graph.vertices },
    ghost x_edges: { AreEdges graph (contains x) },
    ghost element_edges: { AreEdges graph (contains elements) },
    ghost is_forest: { IsBase (graph_matroid graph (contains x) (contains elements)).spans
        (contains elements) (contains base) },
}

impl GraphGround {
    /// A spanning forest of the edges that are in neither set, and of `e` where it is wanted.
    pub fn new(
        alloc: Global,
        g: &Graph,
        x: &PointSet,
        y: &PointSet,
        with_e: bool,
    ) -> Result<GraphGround, Memory>
        requires graph { IsGraph g.now }
        requires few { g.now.vertices ≤ MAX_MEMBERS }
        requires x { AreBelow x.now (edge_count g.now) }
        requires y { AreBelow y.now (edge_count g.now) }
        requires apart { ShareNone x.now y.now }
        ensures { IfOk result
            (λ forest. ⟦<GraphGround as Ground>⟧.matroid forest ≡ graph_matroid g.now
            (contains x.now) (elements_of g.now (contains x.now) (contains y.now) with_e)) }
    {
        GraphGround::apart_from(alloc, g, x, y, with_e, &PointSet::empty())
    }

    /// As `new`, a spanning forest with no more of the avoided elements than it needs: its other
    /// members span all that isn't avoided, so none of that could come in for an avoided member.
    ///
    /// The elements that aren't avoided are tried first (Kruskal 1956).
    pub fn apart_from(
        alloc: Global,
        g: &Graph,
        x: &PointSet,
        y: &PointSet,
        with_e: bool,
        avoided: &PointSet,
    ) -> Result<GraphGround, Memory>
        requires graph { IsGraph g.now }
        requires few { g.now.vertices ≤ MAX_MEMBERS }
        requires x { AreBelow x.now (edge_count g.now) }
        requires y { AreBelow y.now (edge_count g.now) }
        requires apart { ShareNone x.now y.now }
        ensures matroid { IfOk result
            (λ forest. ⟦<GraphGround as Ground>⟧.matroid forest ≡ graph_matroid g.now
            (contains x.now) (elements_of g.now (contains x.now) (contains y.now) with_e)) }
        ensures apart { IfOk result (λ forest. IsApart (⟦<GraphGround as Ground>⟧.matroid forest)
            (⟦<GraphGround as Ground>⟧.base forest) (contains avoided.now)) }
    {
        let elements = elements_of(g, x, y, with_e);
        let mut joiner = Joiner::new(alloc, g)?;
        let none = PointSet::empty();
        let others = grown(&mut joiner, g, x, &elements.without(avoided), &none);
        let base = grown(&mut joiner, g, x, &shared(&elements, avoided), &others);
        let ends = g.ends.as_slice().to_vec(alloc)?;
        let names = labels(alloc, g, x)?;
        let stars = stars_of(alloc, g, &names)?;
        let nowhere = Step {
            above: 0,
            via: 0,
            depth: 0,
        };
        let steps = vec![in alloc; nowhere; g.vertices as usize]?;
        let graph = Graph {
            vertices: g.vertices,
            s: g.s,
            t: g.t,
            ends: Ends::from_vec(ends),
        };
        Ok(GraphGround {
            graph,
            names,
            stars,
            steps,
            x: *x,
            elements,
            base,
        })
    }
}

/// The edges in neither set, and `e` where it is wanted.
fn elements_of(g: &Graph, x: &PointSet, y: &PointSet, with_e: bool) -> PointSet
    requires { IsGraph g.now }
    ensures { contains result ≡ elements_of g.now (contains x.now) (contains y.now) with_e }
{
    let marked = x.union(y);
    let mut elements = PointSet::empty();
    for k in 0..g.edge_count() {
        if !marked.has(k) {
            elements.put(k);
        }
    }
    if with_e {
        elements.put(g.edge_count());
    }
    elements
}

/// The base with each candidate, in ascending order, whose ends the edges of x and what is there
/// don't join.
fn grown(
    joiner: &mut Joiner,
    g: &Graph,
    x: &PointSet,
    candidates: &PointSet,
    base: &PointSet,
) -> PointSet
    requires graph { IsGraph g.now }
    requires made { IsMadeFor joiner.old g.now }
    requires x { AreEdges g.now (contains x.now) }
    requires base { AreEdges g.now (contains base.now) }
    requires free { IsFree (λ a k. spans_in g.now (either (contains x.now) a) k)
        (contains base.now) }
    ensures grown { IsGrown (λ a k. spans_in g.now (either (contains x.now) a) k)
        (contains base.now) (below (contains candidates.now) (suc (edge_count g.now)))
        (contains result) }
    ensures kept { joiner.new ≡ joiner.old }
{
    joiner.extended(g, x, base, candidates)
}

impl Ground for GraphGround {
    ghost matroid = { λ s. graph_matroid s.graph (contains s.x) (contains s.elements) };

    ghost base = { λ s. contains s.base };

    ghost use Rattle.pg_exchange.specs.ForestLaws.{IsSpan-graph_matroid, small_edges};

    ghost spanning = { λ s. IsSpan-graph_matroid s.graph (contains s.x) (contains s.elements) };

    ghost is_base = { λ s. s.is_forest };

    ghost small = { λ s. small_edges s.graph (contains s.elements) s.fits s.element_edges };

    fn elements(&self) -> PointSet {
        self.elements
    }

    fn member(&self, f: u16) -> bool {
        f < MAX_MEMBERS && self.base.has(f)
    }

    fn circuit(&mut self, f: u16) -> PointSet {
        let (u, v) = self.graph.ends_of(f);
        let (from, to) = (self.names[u as usize], self.names[v as usize]);
        path(
            &mut self.steps,
            &self.names,
            &self.stars,
            &self.graph,
            &self.base,
            from,
            to,
        )
    }

    fn swap(&mut self, out: u16, into: u16) {
        let mut base = self.base;
        base.take(out);
        base.put(into);
        self.base = base;
    }
}
