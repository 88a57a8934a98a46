//! Whether trees and parts hold.
ghost use Rattle.std.specs.Prelude.{◌≡◌, ◌&&◌, ℕ, ◌<◌, ◌≤◌, ◌↔◌, IfSome, IsTrue, Some, length};
ghost use Rattle.std.specs.Prelude.{slice_index, true};
ghost use Rattle.pg_span.specs.Prelude.{contains, X, edge_count, first_end_of, second_end_of};
ghost use Rattle.pg_span.specs.Prelude.{is_free, MAX_VERTICES, IsFirst, crosses, crossing, image};
ghost use Rattle.pg_span.specs.Prelude.{with_first, AreBelow, count, either};
ghost use Rattle.pg_base.specs.declared.limits.TheConstants.{MAX_EDGES};
ghost use Rattle.pg_span.specs.Game.{marks_at};
ghost use Rattle.pg_span.specs.Conditions.{AreFew, AreFree, AreFreePair};
ghost use Rattle.pg_span.specs.Judge.{IsJudgeOf, connects};
ghost use Rattle.pg_span.specs.Valid.{AreTreesOfGame, ArePartsOfGame};
ghost use Rattle.pg_span.specs.declared.cert.TheConstants.{PART_NUMBERS};

use crate::game::SpanGame;
use crate::judge::SpanJudge;
use pg_base::{PointSet, Side};

/// Whether the members are free edges of the game.
fn are_free(g: &SpanGame, set: &PointSet) -> bool
    ensures { IsTrue result ↔ AreFree g.now set.now }
{
    set.is_below(g.graph.edge_count()) && set.shares_none(&g.x) && set.shares_none(&g.y)
}

/// Whether the edge may be claimed before the two sets, where there is one: it is free, in neither
/// of them, and X is to move.
fn may_claim_first(
    g: &SpanGame,
    turn: Side,
    first: Option<u16>,
    a1: &PointSet,
    a2: &PointSet,
) -> bool
    ensures { IsTrue result
        ↔ IsFirst (edge_count g.now.graph) (marks_at g.now turn) a1.now a2.now first }
{
    let Some(v) = first else {
        return true;
    };
    v < g.graph.edge_count()
        && !g.x.has(v)
        && !g.y.has(v)
        && !a1.has(v)
        && !a2.has(v)
        && turn == Side::X
}

/// X's edges, and the edge that is claimed first.
fn with_first(g: &SpanGame, first: Option<u16>) -> PointSet
    requires { IfSome first (λ v. v < edge_count g.now.graph) }
    ensures edges { contains result ≡ with_first (marks_at g.now X) first }
    ensures range { AreBelow result (edge_count g.now.graph) }
{
    let mut edges = g.x;
    if let Some(v) = first {
        edges.put(v);
    }
    edges
}

/// Whether the two sets are disjoint sets of free edges.
fn are_free_pair(g: &SpanGame, a1: &PointSet, a2: &PointSet) -> bool
    ensures { IsTrue result ↔ AreFreePair g.now a1.now a2.now }
{
    are_free(g, a1) && are_free(g, a2) && a1.shares_none(a2)
}

/// Whether the claimed edges with each of the two sets join every two vertices.
fn join_both(
    judge: &mut SpanJudge,
    g: &SpanGame,
    claimed: &PointSet,
    a1: &PointSet,
    a2: &PointSet,
) -> bool
    requires made { IsJudgeOf judge.old g.now }
    requires claimed { AreBelow claimed.now (edge_count g.now.graph) }
    requires one { AreBelow a1.now (edge_count g.now.graph) }
    requires two { AreBelow a2.now (edge_count g.now.graph) }
    ensures join { IsTrue result
        ↔ ((connects g.now.graph (either (contains claimed.now) (contains a1.now)) ≡ true)
        × (connects g.now.graph (either (contains claimed.now) (contains a2.now)) ≡ true)) }
    ensures kept { judge.new ≡ judge.old }
{
    judge.connects(g, &claimed.union(a1)) && judge.connects(g, &claimed.union(a2))
}

/// Whether the sets are trees at the game's marks with the turn.
pub(crate) fn trees_hold(
    judge: &mut SpanJudge,
    g: &SpanGame,
    turn: Side,
    first: Option<u16>,
    a1: &PointSet,
    a2: &PointSet,
) -> bool
    requires made { IsJudgeOf judge.old g.now }
    ensures holds { IsTrue result ↔ AreTreesOfGame g.now (marks_at g.now turn) first a1.now a2.now }
    ensures kept { judge.new ≡ judge.old }
{
    if !may_claim_first(g, turn, first, a1, a2) || !are_free_pair(g, a1, a2) {
        return false;
    }
    join_both(judge, g, &with_first(g, first), a1, a2)
}

/// Whether the number at a place stands at an earlier one too.
fn stands_before(numbers: &[u16], place: usize) -> bool
    requires { place < length numbers.now }
    ensures { result ≡ image (slice_index numbers.now) place (slice_index numbers.now place) }
{
    for k in 0..place {
        if numbers[k] == numbers[place] {
            return true;
        }
    }
    false
}

/// How many different numbers there are.
fn different(numbers: &[u16]) -> usize
    ensures count { result
        ≡ count (image (slice_index numbers.now) (length numbers.now)) PART_NUMBERS }
    ensures few { result ≤ length numbers.now }
{
    let mut different = 0;
    for k in 0..numbers.len() {
        if !stands_before(numbers, k) {
            different += 1;
        }
    }
    different
}

/// Whether the edge is one of the set, and its ends have different numbers.
fn crosses(g: &SpanGame, numbers: &[u16], set: &PointSet, k: u16) -> bool
    requires numbers { length numbers.now ≡ g.now.graph.vertices }
    requires edge { k < edge_count g.now.graph }
    ensures { result ≡ (contains set.now k
        && crosses (first_end_of g.now.graph) (second_end_of g.now.graph)
        (slice_index numbers.now) k) }
{
    let (u, v) = g.graph.ends_of(k);
    set.has(k) && numbers[u as usize] != numbers[v as usize]
}

/// How many edges of the set have ends with different numbers.
fn crossing(g: &SpanGame, numbers: &[u16], set: &PointSet) -> usize
    requires { length numbers.now ≡ g.now.graph.vertices }
    ensures count { result ≡ crossing (first_end_of g.now.graph) (second_end_of g.now.graph)
        (edge_count g.now.graph) (slice_index numbers.now) (contains set.now) }
    ensures few { result ≤ edge_count g.now.graph }
{
    let mut crossing = 0;
    for k in 0..g.graph.edge_count() {
        if crosses(g, numbers, set, k) {
            crossing += 1;
        }
    }
    crossing
}

/// The free edges.
fn free_edges(g: &SpanGame) -> PointSet
    ensures { (f : ℕ) → f < edge_count g.now.graph
        → contains result f ≡ is_free (marks_at g.now X) f }
{
    let all = PointSet::all_below(g.graph.edge_count());
    all.without(&g.x).without(&g.y)
}

/// Whether so few edges between so many parts are X's, and so few free, that X can't join the
/// parts.
fn are_few(taken: usize, free: usize, parts: usize, turn: Side) -> bool
    requires taken { taken ≤ MAX_EDGES }
    requires free { free ≤ MAX_EDGES }
    requires parts { parts ≤ MAX_VERTICES }
    ensures { IsTrue result ↔ AreFew taken free parts turn }
{
    let spare = match turn {
        Side::X => 0,
        Side::Y => 1,
    };
    taken + 2 <= parts && free + 2 * taken + 4 <= 2 * parts + spare
}

/// Whether the numbers part the game at its marks with the turn (Nash-Williams and Tutte 1961, for
/// two trees).
pub(crate) fn parts_hold(g: &SpanGame, turn: Side, numbers: &[u16]) -> bool
    ensures { IsTrue result ↔ ArePartsOfGame g.now (marks_at g.now turn) numbers.now }
{
    if numbers.len() != g.graph.vertices as usize {
        return false;
    }
    let taken = crossing(g, numbers, &g.x);
    let free = crossing(g, numbers, &free_edges(g));
    are_few(taken, free, different(numbers), turn)
}
