//! A player's own moves by trees and by parts.
ghost use Rattle.std.specs.Prelude.{◌≡◌, Option, Some, None};
ghost use Rattle.pg_span.specs.Prelude.{AreBelow, IsGraph, edge_count, IsMadeFor};
ghost use Rattle.pg_span.specs.Answers.{span_move};
ghost use Rattle.pg_span.specs.Plan.{plan_of, AreTreesOf, IsMovable};

use crate::answers::parts_edge;
use crate::cert::SpanBody;
use pg_base::PointSet;
use pg_game::Position;
use pg_graph::{Graph, Joiner};
use pg_switch::{answered_edge, short_edge, without_both};

/// What is left of a claim's trees.
#[derive(Clone, Copy, Debug)]
pub(crate) struct TreePlan {
    /// The edge that is claimed first, where one is.
    pub(crate) first: Option<u16>,
    /// One set.
    pub(crate) a1: PointSet,
    /// The other.
    pub(crate) a2: PointSet,
}

/// An own move, and what is left of the trees after it.
#[derive(Clone, Copy, Debug)]
pub(crate) struct Made {
    /// The edge.
    pub(crate) edge: u16,
    /// What is left of the trees.
    pub(crate) trees: TreePlan,
}

/// The trees of the body, and two empty sets where it has none.
pub(crate) fn trees_of(body: &SpanBody) -> TreePlan
    ensures { plan_of body.now result ≡ body.now }
{
    match body {
        SpanBody::Trees { first, a1, a2 } => TreePlan {
            first: *first,
            a1: *a1,
            a2: *a2,
        },
        SpanBody::Parts(_) => TreePlan {
            first: None,
            a1: PointSet::empty(),
            a2: PointSet::empty(),
        },
    }
}

/// The own move by trees.
fn trees_move(
    graph: &Graph,
    joiner: &mut Joiner,
    p: &Position,
    trees: TreePlan,
    last: Option<u16>,
) -> Made
    requires graph { IsGraph graph.now }
    requires made { IsMadeFor joiner.old graph.now }
    requires x_range { AreBelow p.now.x (edge_count graph.now) }
    requires trees { AreTreesOf graph.now trees last }
    ensures own { span_move graph.now p.now (SpanBody.Trees trees.first trees.a1 trees.a2) last
        ≡ record {
          edge = result.edge;
          plan = SpanBody.Trees result.trees.first result.trees.a1 result.trees.a2;
        } }
    ensures kept { joiner.new ≡ joiner.old }
{
    let TreePlan { first, a1, a2 } = trees;
    if let Some(edge) = first {
        return Made {
            edge,
            trees: TreePlan {
                first: None,
                a1,
                a2,
            },
        };
    }
    let x = answered_edge(graph, last);
    let edge = short_edge(graph, joiner, p, &a1, &a2, x);
    Made {
        edge,
        trees: TreePlan {
            first: None,
            a1: without_both(&a1, x, edge),
            a2: without_both(&a2, x, edge),
        },
    }
}

/// The own move after the last reply by the plan, which is the body's parts or what is left of its
/// trees. It takes no memory, and leaves the joiner as it was.
pub(crate) fn own_move(
    graph: &Graph,
    joiner: &mut Joiner,
    p: &Position,
    body: &SpanBody,
    trees: TreePlan,
    last: Option<u16>,
) -> Made
    requires graph { IsGraph graph.now }
    requires made { IsMadeFor joiner.old graph.now }
    requires x_range { AreBelow p.now.x (edge_count graph.now) }
    requires movable { IsMovable graph.now (plan_of body.now trees) last }
    ensures own { span_move graph.now p.now (plan_of body.now trees) last
        ≡ record { edge = result.edge; plan = plan_of body.now result.trees } }
    ensures kept { joiner.new ≡ joiner.old }
{
    match body {
        SpanBody::Trees { .. } => trees_move(graph, joiner, p, trees, last),
        SpanBody::Parts(numbers) => Made {
            edge: parts_edge(graph, p, numbers.as_slice()),
            trees,
        },
    }
}
