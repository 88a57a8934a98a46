//! The edge that answers a reply.
ghost use Rattle.std.specs.Prelude.{◌≡◌, ◌<◌, ◌≤◌, find, unwrap_or};
ghost use Rattle.pg_switch.specs.Prelude.{contains, remove, IsGraph, edge_count, IsMadeFor};
ghost use Rattle.pg_switch.specs.Prelude.{AreEdges, AreBothEdges, short_edge, cut_edge};
ghost use Rattle.pg_switch.specs.Prelude.{lowest_free_edge, is_free, range_with_len};
ghost use Rattle.pg_base.specs.Points.{AreBelow};
ghost use Rattle.pg_switch.specs.Replies.{short_reply, cut_reply};

use crate::condition::edges_left;
use pg_base::{MAX_MEMBERS, PointSet};
use pg_game::Position;
use pg_graph::{Graph, Joiner};

/// The lowest free edge, and 0 where none is free.
pub fn lowest_free(graph: &Graph, p: &Position) -> u16
    requires { IsGraph graph.now }
    ensures { result ≡ lowest_free_edge graph.now p.now }
{
    or_lowest(graph.edge_count(), p, None)
}

/// What was found, and the lowest free one of n points where nothing was.
pub fn or_lowest(n: u16, p: &Position, found: Option<u16>) -> u16
    requires { n ≤ MAX_MEMBERS }
    ensures { result
        ≡ unwrap_or found (unwrap_or (find (is_free p.now) (range_with_len 0 n)) 0) }
{
    match found {
        Some(v) => v,
        None => p.lowest_free_below(n).unwrap_or(0),
    }
}

/// The set without x.
fn without(set: &PointSet, x: u16) -> PointSet
    requires { x < MAX_MEMBERS }
    ensures { result ≡ remove set.now x }
{
    let mut others = *set;
    others.take(x);
    others
}

/// The lowest edge of the other set that crosses what X's edges and the rest of the one set join to
/// the first end of x, else the lowest free edge.
fn short_reply(
    graph: &Graph,
    j: &mut Joiner,
    p: &Position,
    one: &PointSet,
    other: &PointSet,
    x: u16,
) -> u16
    requires graph { IsGraph graph.now }
    requires made { IsMadeFor j.old graph.now }
    requires x_range { AreBelow p.now.x (edge_count graph.now) }
    requires sets { AreBothEdges graph.now (contains one.now) (contains other.now) }
    requires edge { x ≤ edge_count graph.now }
    ensures reply { result ≡ short_reply graph.now p.now one.now other.now x }
    ensures kept { j.new ≡ j.old }
{
    let joined = p.x.union(&without(one, x));
    let candidates = without(other, graph.edge_count());
    let (u, _) = graph.ends_of(x);
    let found = j.crossing(graph, &joined, u, &candidates);
    or_lowest(graph.edge_count(), p, found)
}

/// The lowest edge of the other set that parts the ends of x in what is left without the one set,
/// else the lowest free edge.
fn cut_reply(
    graph: &Graph,
    j: &mut Joiner,
    p: &Position,
    one: &PointSet,
    other: &PointSet,
    x: u16,
) -> u16
    requires graph { IsGraph graph.now }
    requires made { IsMadeFor j.old graph.now }
    requires other { AreEdges graph.now (contains other.now) }
    requires edge { x ≤ edge_count graph.now }
    ensures reply { result ≡ cut_reply graph.now p.now one.now other.now x }
    ensures kept { j.new ≡ j.old }
{
    let left = edges_left(graph, &p.y).without(one);
    let candidates = without(other, graph.edge_count());
    let (u, v) = graph.ends_of(x);
    let found = j.parting(graph, &left, u, v, &candidates);
    or_lowest(graph.edge_count(), p, found)
}

/// Short's edge by two sets where the edge x is lost: the lowest one of the other set with exactly
/// one end joined to the first end of x by X's edges and the rest of the set that x was in, and the
/// lowest free edge where x is in neither set, or no edge of the other crosses. It takes no memory,
/// and leaves the joiner as it was (Lehman 1964).
pub fn short_edge(
    graph: &Graph,
    j: &mut Joiner,
    p: &Position,
    a1: &PointSet,
    a2: &PointSet,
    x: u16,
) -> u16
    requires graph { IsGraph graph.now }
    requires made { IsMadeFor j.old graph.now }
    requires x_range { AreBelow p.now.x (edge_count graph.now) }
    requires sets { AreBothEdges graph.now (contains a1.now) (contains a2.now) }
    requires edge { x ≤ edge_count graph.now }
    ensures edge { result ≡ short_edge graph.now p.now a1.now a2.now x }
    ensures kept { j.new ≡ j.old }
{
    if a1.has(x) {
        short_reply(graph, j, p, a1, a2, x)
    } else if a2.has(x) {
        short_reply(graph, j, p, a2, a1, x)
    } else {
        lowest_free(graph, p)
    }
}

/// Cut's edge where x is lost.
pub(crate) fn cut_edge(
    graph: &Graph,
    j: &mut Joiner,
    p: &Position,
    d1: &PointSet,
    d2: &PointSet,
    x: u16,
) -> u16
    requires graph { IsGraph graph.now }
    requires made { IsMadeFor j.old graph.now }
    requires sets { AreBothEdges graph.now (contains d1.now) (contains d2.now) }
    requires edge { x ≤ edge_count graph.now }
    ensures edge { result ≡ cut_edge graph.now p.now d1.now d2.now x }
    ensures kept { j.new ≡ j.old }
{
    if d1.has(x) {
        cut_reply(graph, j, p, d1, d2, x)
    } else if d2.has(x) {
        cut_reply(graph, j, p, d2, d1, x)
    } else {
        lowest_free(graph, p)
    }
}
