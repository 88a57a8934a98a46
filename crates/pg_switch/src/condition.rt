//! Whether trees and cuts hold.
ghost use Rattle.std.specs.Prelude.{◌≡◌, ℕ, ◌↔◌, ◌⊎◌, not, suc, true, IsTrue};
ghost use Rattle.pg_switch.specs.Prelude.{contains, insert, below, Switching, IsGraph, edge_count};
ghost use Rattle.pg_switch.specs.Prelude.{IsMadeFor, AreEdges, AreBothEdges, point_count};
ghost use Rattle.pg_switch.specs.Prelude.{IsPosition, IsMadeForGame, IsFreeEdge, AreTrees, AreCuts};
ghost use Rattle.pg_switch.specs.Prelude.{TreesHold, CutsHold};
ghost use Rattle.pg_base.specs.Points.{AreBelow};
ghost use Rattle.pg_switch.specs.Parts.{AreFreePair, JoinsOther, BridgesOther};

use pg_base::{PointSet, Side};
use pg_game::{Field, Game, Position};
use pg_graph::{Graph, Joiner};

/// Whether each member is a free edge, or e where that is allowed.
fn are_free(graph: &Graph, p: &Position, allows_e: bool, members: &PointSet) -> bool
    requires graph { IsGraph graph.now }
    requires x_range { AreBelow p.now.x (edge_count graph.now) }
    requires y_range { AreBelow p.now.y (edge_count graph.now) }
    requires members { AreEdges graph.now (contains members.now) }
    ensures { IsTrue result
        ↔ ((f : ℕ) → contains members.now f ≡ true
        → IsFreeEdge graph.now p.now f ⊎ ((f ≡ edge_count graph.now) × IsTrue allows_e)) }
{
    members.shares_none(&p.x)
        && members.shares_none(&p.y)
        && (allows_e || !members.has(graph.edge_count()))
}

/// The set with e.
fn with_e(graph: &Graph, set: &PointSet) -> PointSet
    requires { IsGraph graph.now }
    ensures { result ≡ insert set.now (edge_count graph.now) }
{
    let mut members = *set;
    members.put(graph.edge_count());
    members
}

/// The edges that aren't in the set, with e.
pub(crate) fn edges_left(graph: &Graph, set: &PointSet) -> PointSet
    requires { IsGraph graph.now }
    ensures { contains result ≡ below (λ f. not (contains set.now f)) (suc (edge_count graph.now)) }
{
    let mut left = PointSet::empty();
    for k in 0..graph.edge_count() + 1 {
        if !set.has(k) {
            left.put(k);
        }
    }
    left
}

/// Whether the two sets are disjoint sets of free edges, the first perhaps with e where the side is
/// to move.
fn are_free_pair(
    graph: &Graph,
    p: &Position,
    side: Side,
    first: &PointSet,
    second: &PointSet,
) -> bool
    requires graph { IsGraph graph.now }
    requires x_range { AreBelow p.now.x (edge_count graph.now) }
    requires y_range { AreBelow p.now.y (edge_count graph.now) }
    requires sets { AreBothEdges graph.now (contains first.now) (contains second.now) }
    ensures { IsTrue result ↔ AreFreePair graph.now p.now side first.now second.now }
{
    are_free(graph, p, p.turn == side, first)
        && are_free(graph, p, false, second)
        && first.shares_none(second)
}

/// Whether X's edges with the one set join the terminals, and the ends of each member of the other
/// set.
fn joins_other(
    graph: &Graph,
    j: &mut Joiner,
    p: &Position,
    one: &PointSet,
    other: &PointSet,
) -> bool
    requires graph { IsGraph graph.now }
    requires made { IsMadeFor j.old graph.now }
    requires x_range { AreBelow p.now.x (edge_count graph.now) }
    requires one { AreEdges graph.now (contains one.now) }
    requires other { AreEdges graph.now (contains other.now) }
    ensures joins { IsTrue result ↔ JoinsOther graph.now p.now one.now other.now }
    ensures kept { j.new ≡ j.old }
{
    j.joins_all(graph, &p.x.union(one), &with_e(graph, other))
}

/// Whether each member of the other set is a bridge of what is left without the one set, and e
/// unless it is in that.
fn bridges_other(
    graph: &Graph,
    j: &mut Joiner,
    p: &Position,
    one: &PointSet,
    other: &PointSet,
) -> bool
    requires graph { IsGraph graph.now }
    requires made { IsMadeFor j.old graph.now }
    requires one { AreEdges graph.now (contains one.now) }
    requires other { AreEdges graph.now (contains other.now) }
    ensures bridges { IsTrue result ↔ BridgesOther graph.now p.now one.now other.now }
    ensures kept { j.new ≡ j.old }
{
    let left = edges_left(graph, &p.y).without(one);
    if one.has(graph.edge_count()) {
        j.bridges_all(graph, &left, other)
    } else {
        j.bridges_all(graph, &left, &with_e(graph, other))
    }
}

/// Whether the two sets are trees for X.
fn are_trees(graph: &Graph, j: &mut Joiner, p: &Position, a1: &PointSet, a2: &PointSet) -> bool
    requires graph { IsGraph graph.now }
    requires made { IsMadeFor j.old graph.now }
    requires x_range { AreBelow p.now.x (edge_count graph.now) }
    requires y_range { AreBelow p.now.y (edge_count graph.now) }
    requires sets { AreBothEdges graph.now (contains a1.now) (contains a2.now) }
    ensures trees { IsTrue result ↔ AreTrees graph.now p.now a1.now a2.now }
    ensures kept { j.new ≡ j.old }
{
    are_free_pair(graph, p, Side::X, a1, a2)
        && joins_other(graph, j, p, a1, a2)
        && joins_other(graph, j, p, a2, a1)
}

/// Whether the two sets are cuts for Y.
fn are_cuts(graph: &Graph, j: &mut Joiner, p: &Position, d1: &PointSet, d2: &PointSet) -> bool
    requires graph { IsGraph graph.now }
    requires made { IsMadeFor j.old graph.now }
    requires x_range { AreBelow p.now.x (edge_count graph.now) }
    requires y_range { AreBelow p.now.y (edge_count graph.now) }
    requires sets { AreBothEdges graph.now (contains d1.now) (contains d2.now) }
    ensures cuts { IsTrue result ↔ AreCuts graph.now p.now d1.now d2.now }
    ensures kept { j.new ≡ j.old }
{
    are_free_pair(graph, p, Side::Y, d1, d2)
        && bridges_other(graph, j, p, d1, d2)
        && bridges_other(graph, j, p, d2, d1)
}

/// Whether the two sets are trees for X at the position: disjoint sets of free edges, the first
/// perhaps with `e` where X is to move, each of which together with X's edges joins the terminals
/// and the ends of every member of the other.
///
/// Where it answers true, X wins. The number of edges stands for `e`. It takes no memory and, by a
/// few walks over the edges, nearly linear time, and leaves the joiner as it was. The condition is
/// Lehman's (A solution of the Shannon switching game, 1964).
pub fn trees_hold(g: &Game, j: &mut Joiner, p: &Position, a1: &PointSet, a2: &PointSet) -> bool
    requires switching { g.now.kind ≡ Switching }
    requires made { IsMadeForGame j.old g.now }
    requires position { IsPosition g.now p.now }
    requires first { AreBelow a1.now (suc (point_count g.now)) }
    requires second { AreBelow a2.now (suc (point_count g.now)) }
    ensures exact { IsTrue result ↔ TreesHold g.now p.now a1.now a2.now }
    ensures kept { j.new ≡ j.old }
{
    match &g.field {
        Field::Lines(_) => false,
        Field::Graph(graph) => are_trees(graph, j, p, a1, a2),
    }
}

/// Whether the two sets are cuts for Y at the position: disjoint sets of free edges, the first
/// perhaps with `e` where Y is to move. What is left when Y's edges and one of the sets go has
/// every member of the other as a bridge, and `e` unless it went with the set. A bridge of a set is
/// an edge whose ends the rest of the set doesn't join.
///
/// Where it answers true, Y wins. The number of edges stands for `e`. It takes no memory and, by a
/// few walks over the edges, nearly linear time, and leaves the joiner as it was. The condition is
/// the dual of Lehman's.
pub fn cuts_hold(g: &Game, j: &mut Joiner, p: &Position, d1: &PointSet, d2: &PointSet) -> bool
    requires switching { g.now.kind ≡ Switching }
    requires made { IsMadeForGame j.old g.now }
    requires position { IsPosition g.now p.now }
    requires first { AreBelow d1.now (suc (point_count g.now)) }
    requires second { AreBelow d2.now (suc (point_count g.now)) }
    ensures exact { IsTrue result ↔ CutsHold g.now p.now d1.now d2.now }
    ensures kept { j.new ≡ j.old }
{
    match &g.field {
        Field::Lines(_) => false,
        Field::Graph(graph) => are_cuts(graph, j, p, d1, d2),
    }
}
