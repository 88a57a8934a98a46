//! What edges join and part, by labels in an array that the caller lends.
ghost use Rattle.std.specs.Prelude.{◌≡◌, ℕ, ◌<◌, ◌≤◌, ◌↔◌, true, IsTrue, IfSome, IfNone, length};
ghost use Rattle.std.specs.Prelude.{suc};
ghost use Rattle.pg_graph.specs.Prelude.{contains, minus};
ghost use Rattle.pg_graph.specs.Graph.{IsGraph, IsJoinedIn, JoinsEndsOf, IsBridge, edge_count};
ghost use Rattle.pg_graph.specs.Graph.{first_end_of, second_end_of};
ghost use Rattle.pg_graph.specs.Joiner.{AreEdges, AreBothEdges, AreVertices, Crosses, Parts};
ghost use Rattle.pg_graph.specs.Joiner.{IsLowest, extended};
ghost use Rattle.pg_graph.specs.Labels.{HaveOneRoot, IsSplit};
ghost use Rattle.pg_graph.specs.Roots.{root_of, IsUpward, SameRoots};

use crate::components::{find, label, union};
use crate::graph::Graph;
use pg_base::PointSet;

/// Whether a walk of edges of the set leads from u to v.
pub(crate) fn joined(parents: &mut [u16], g: &Graph, set: &PointSet, u: u16, v: u16) -> bool
    requires graph { IsGraph g.now }
    requires size { length parents.old ≡ g.now.vertices }
    requires set { AreEdges g.now (contains set.now) }
    requires u { u < g.now.vertices }
    requires v { v < g.now.vertices }
    ensures { IsTrue result ↔ IsJoinedIn g.now (contains set.now) u v }
{
    label(parents, g, set);
    find(parents, u) == find(parents, v)
}

/// Whether a walk of edges of the set other than k leads from u to v.
fn joined_without(parents: &mut [u16], g: &Graph, set: &PointSet, k: u16, u: u16, v: u16) -> bool
    requires graph { IsGraph g.now }
    requires size { length parents.old ≡ g.now.vertices }
    requires set { AreEdges g.now (contains set.now) }
    requires edge { k ≤ edge_count g.now }
    requires u { u < g.now.vertices }
    requires v { v < g.now.vertices }
    ensures { IsTrue result ↔ IsJoinedIn g.now (minus (contains set.now) k) u v }
{
    let mut others = *set;
    others.take(k);
    joined(parents, g, &others, u, v)
}

/// The lowest candidate with exactly one end joined to u by edges of the set.
pub(crate) fn crossing(
    parents: &mut [u16],
    g: &Graph,
    set: &PointSet,
    u: u16,
    candidates: &PointSet,
) -> Option<u16>
    requires graph { IsGraph g.now }
    requires size { length parents.old ≡ g.now.vertices }
    requires sets { AreBothEdges g.now (contains set.now) (contains candidates.now) }
    requires u { u < g.now.vertices }
    ensures lowest { IfSome result
        (λ k. IsLowest (contains candidates.now) (Crosses g.now (contains set.now) u) k) }
    ensures none { IfNone result
        ((k : ℕ) → contains candidates.now k ≡ true → Crosses g.now (contains set.now) u k → ⊥) }
{
    label(parents, g, set);
    let inside = find(parents, u);
    for k in 0..g.edge_count() + 1 {
        if candidates.has(k) {
            if is_split(parents, g, inside, k) {
                return Some(k);
            }
        }
    }
    None
}

/// Whether exactly one end of edge k has this root.
fn is_split(parents: &mut [u16], g: &Graph, inside: u16, k: u16) -> bool
    requires graph { IsGraph g.now }
    requires size { length parents.old ≡ g.now.vertices }
    requires upward { IsUpward parents.old }
    requires edge { k ≤ edge_count g.now }
    ensures split { IsTrue result
        ↔ IsSplit (root_of parents.old (first_end_of g.now k))
        (root_of parents.old (second_end_of g.now k)) inside }
    ensures upward { IsUpward parents.new }
    ensures same { SameRoots parents.old parents.new }
{
    let (a, b) = g.ends_of(k);
    let first = find(parents, a) == inside;
    let second = find(parents, b) == inside;
    first != second
}

/// The lowest candidate in the set without which u and v aren't joined, where the set joins them.
pub(crate) fn parting(
    parents: &mut [u16],
    g: &Graph,
    set: &PointSet,
    u: u16,
    v: u16,
    candidates: &PointSet,
) -> Option<u16>
    requires graph { IsGraph g.now }
    requires size { length parents.old ≡ g.now.vertices }
    requires sets { AreBothEdges g.now (contains set.now) (contains candidates.now) }
    requires vertices { AreVertices g.now u v }
    ensures lowest { IfSome result
        (λ k. IsLowest (contains candidates.now) (Parts g.now (contains set.now) u v) k) }
    ensures none { IfNone result
        ((k : ℕ) → contains candidates.now k ≡ true → Parts g.now (contains set.now) u v k → ⊥) }
{
    if !joined(parents, g, set, u, v) {
        return None;
    }
    for k in 0..g.edge_count() + 1 {
        if candidates.has(k) && set.has(k) {
            if !joined_without(parents, g, set, k, u, v) {
                return Some(k);
            }
        }
    }
    None
}

/// Whether edges of the set join the two ends of each member.
pub(crate) fn joins_all(parents: &mut [u16], g: &Graph, set: &PointSet, members: &PointSet) -> bool
    requires graph { IsGraph g.now }
    requires size { length parents.old ≡ g.now.vertices }
    requires set { AreEdges g.now (contains set.now) }
    requires members { AreEdges g.now (contains members.now) }
    ensures { IsTrue result
        ↔ ((f : ℕ) → contains members.now f ≡ true → JoinsEndsOf g.now (contains set.now) f) }
{
    label(parents, g, set);
    for k in 0..g.edge_count() + 1 {
        if members.has(k) {
            if !has_one_root(parents, g, k) {
                return false;
            }
        }
    }
    true
}

/// Whether the two ends of edge k have one root.
fn has_one_root(parents: &mut [u16], g: &Graph, k: u16) -> bool
    requires graph { IsGraph g.now }
    requires size { length parents.old ≡ g.now.vertices }
    requires upward { IsUpward parents.old }
    requires edge { k ≤ edge_count g.now }
    ensures one { IsTrue result ↔ HaveOneRoot g.now parents.old k }
    ensures upward { IsUpward parents.new }
    ensures same { SameRoots parents.old parents.new }
{
    let (a, b) = g.ends_of(k);
    find(parents, a) == find(parents, b)
}

/// Whether no member has one root above both its ends.
fn are_apart(parents: &mut [u16], g: &Graph, members: &PointSet) -> bool
    requires graph { IsGraph g.now }
    requires size { length parents.old ≡ g.now.vertices }
    requires upward { IsUpward parents.old }
    requires members { AreEdges g.now (contains members.now) }
    ensures { IsTrue result
        ↔ ((f : ℕ) → contains members.now f ≡ true → HaveOneRoot g.now parents.old f → ⊥) }
{
    for k in 0..g.edge_count() + 1 {
        if members.has(k) {
            if has_one_root(parents, g, k) {
                return false;
            }
        }
    }
    true
}

/// Whether the ends of each member f aren't joined in the set without f.
///
/// The members in the set are united, one after the other, with what the rest of the set joins;
/// each must join two classes. The others must then join two classes of the whole set.
pub(crate) fn bridges_all(
    parents: &mut [u16],
    g: &Graph,
    set: &PointSet,
    members: &PointSet,
) -> bool
    requires graph { IsGraph g.now }
    requires size { length parents.old ≡ g.now.vertices }
    requires set { AreEdges g.now (contains set.now) }
    requires members { AreEdges g.now (contains members.now) }
    ensures { IsTrue result
        ↔ ((f : ℕ) → contains members.now f ≡ true → IsBridge g.now (contains set.now) f) }
{
    label(parents, g, &set.without(members));
    for k in 0..g.edge_count() + 1 {
        if set.has(k) && members.has(k) {
            let (a, b) = g.ends_of(k);
            if !union(parents, a, b) {
                return false;
            }
        }
    }
    are_apart(parents, g, &members.without(set))
}

/// The base with each candidate, in ascending order, whose ends the edges of the set and of what is
/// there by then don't join.
///
/// The set and the base are labelled, and each candidate that comes in unites two labels.
pub(crate) fn extended(
    parents: &mut [u16],
    g: &Graph,
    set: &PointSet,
    base: &PointSet,
    candidates: &PointSet,
) -> PointSet
    requires graph { IsGraph g.now }
    requires size { length parents.old ≡ g.now.vertices }
    requires sets { AreBothEdges g.now (contains set.now) (contains base.now) }
    ensures { contains result ≡ extended g.now (contains set.now) (contains candidates.now)
        (contains base.now) (suc (edge_count g.now)) }
{
    let begun = set.union(base);
    label(parents, g, &begun);
    let mut there = *base;
    for k in 0..g.edge_count() + 1 {
        if candidates.has(k) {
            let (a, b) = g.ends_of(k);
            if union(parents, a, b) {
                there.put(k);
            }
        }
    }
    there
}
