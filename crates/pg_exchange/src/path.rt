//! Paths along the members of a base, between labels of vertices.
//!
//! Each label keeps the step that a search took to it. A later call follows these steps upwards as
//! long as they fit the base at hand.
ghost use Rattle.std.specs.Prelude.{◌≡◌, ◌⊎◌, ◌<◌, ◌≤◌, ℕ, Bool, true, false, IfSome, length};
ghost use Rattle.pg_exchange.specs.Prelude.{contains, IsBelow, AreEdges, IsJoined};
ghost use Rattle.pg_exchange.specs.Path.{first_label, second_label, HasEnds, IsLabelled};
ghost use Rattle.pg_exchange.specs.Path.{IsReachedBoth, above_of, via_of, depth_of, IsStep};
ghost use Rattle.pg_exchange.specs.Path.{SpreadsOn, IsSwept, IsFound, IsPath, any};
ghost use Rattle.pg_exchange.specs.Stars.{AreStarred};

use crate::search::shared;
use crate::stars::gather;
use pg_base::{MAX_MEMBERS, PointSet};
use pg_graph::Graph;

/// The step that leads up from a label, to the beginning of a search: to the label above it, by
/// this member; and how deep the label lies.
#[derive(Clone, Copy)]
pub(crate) struct Step {
    pub(crate) above: u16,
    pub(crate) via: u16,
    pub(crate) depth: u16,
}

/// The members of the base that lead from one label to another. Each edge joins the labels of its
/// ends.
///
/// The steps of an earlier search serve where they fit; else a new search replaces them.
pub(crate) fn path(
    steps: &mut [Step],
    names: &[u16],
    stars: &[PointSet],
    g: &Graph,
    base: &PointSet,
    from: u16,
    to: u16,
) -> PointSet
    requires starred { AreStarred g.now names.now stars.now }
    requires steps { length steps.old ≡ g.now.vertices }
    requires base { AreEdges g.now (contains base.now) }
    requires from { from < g.now.vertices }
    requires to { to < g.now.vertices }
    requires joined { IsJoined (first_label g.now names.now) (second_label g.now names.now)
        (contains base.now) from to }
    ensures { IsPath (first_label g.now names.now) (second_label g.now names.now)
        (contains base.now) from to (contains result) }
{
    if let Some(known) = climb(steps, names, g, base, from, to) {
        return known;
    }
    find(steps, names, stars, g, base, from);
    let mut found = PointSet::empty();
    let mut here = to;
    while here != from {
        let step = steps[here as usize];
        found.put(step.via);
        here = step.above;
    }
    found
}

/// The members on the steps from two labels up to where they meet; none where a step on the way
/// doesn't fit the base.
fn climb(
    steps: &[Step],
    names: &[u16],
    g: &Graph,
    base: &PointSet,
    from: u16,
    to: u16,
) -> Option<PointSet>
    requires labelled { IsLabelled g.now names.now }
    requires steps { length steps.now ≡ g.now.vertices }
    requires base { AreEdges g.now (contains base.now) }
    requires from { from < g.now.vertices }
    requires to { to < g.now.vertices }
    ensures { IfSome result (λ found. IsPath (first_label g.now names.now)
        (second_label g.now names.now) (contains base.now) from to (contains found)) }
{
    let mut found = PointSet::empty();
    let (mut p, mut q) = (from, to);
    while p != q {
        let (deep, high) = deeper_first(steps, p, q);
        if !fits(steps, names, g, base, deep) {
            return None;
        }
        let step = steps[deep as usize];
        found.put(step.via);
        p = step.above;
        q = high;
    }
    Some(found)
}

/// Two labels, the one that lies deeper first.
fn deeper_first(steps: &[Step], p: u16, q: u16) -> (u16, u16)
    requires p { p < length steps.now }
    requires q { q < length steps.now }
    ensures same { ((result.0 ≡ p) × (result.1 ≡ q)) ⊎ ((result.0 ≡ q) × (result.1 ≡ p)) }
    ensures deeper { depth_of steps.now result.1 ≤ depth_of steps.now result.0 }
{
    if steps[p as usize].depth < steps[q as usize].depth {
        (q, p)
    } else {
        (p, q)
    }
}

/// Whether the step up from a label goes along a member of the base, to a label that lies less
/// deep.
fn fits(steps: &[Step], names: &[u16], g: &Graph, base: &PointSet, here: u16) -> bool
    requires labelled { IsLabelled g.now names.now }
    requires steps { length steps.now ≡ g.now.vertices }
    requires base { AreEdges g.now (contains base.now) }
    requires here { here < g.now.vertices }
    ensures step { result ≡ true
        → IsStep (first_label g.now names.now) (second_label g.now names.now)
        (contains base.now) any (above_of steps.now) (via_of steps.now) (depth_of steps.now) here }
    ensures range { result ≡ true
        → (above_of steps.now here < g.now.vertices) × (via_of steps.now here < MAX_MEMBERS) }
{
    let step = steps[here as usize];
    if step.via >= MAX_MEMBERS || !base.has(step.via) {
        return false;
    }
    let (u, v) = g.ends_of(step.via);
    let (a, b) = (names[u as usize], names[v as usize]);
    are_ends(a, b, here, step.above) && steps[step.above as usize].depth < step.depth
}

/// Whether a and b are p and q, in this order or the other.
fn are_ends(a: u16, b: u16, p: u16, q: u16) -> bool
    ensures { result ≡ true → ((a ≡ p) × (b ≡ q)) ⊎ ((a ≡ q) × (b ≡ p)) }
{
    if a == p { b == q } else { a == q && b == p }
}

/// Goes from label to label along members, from `from` until nothing more is reached, and writes at
/// each label from where and by which member it was reached.
///
/// Each round tries the members in the stars of the labels that the last one reached.
fn find(
    steps: &mut [Step],
    names: &[u16],
    stars: &[PointSet],
    g: &Graph,
    base: &PointSet,
    from: u16,
)
    requires starred { AreStarred g.now names.now stars.now }
    requires steps { length steps.old ≡ g.now.vertices }
    requires base { AreEdges g.now (contains base.now) }
    requires from { from < g.now.vertices }
    ensures { (to : ℕ)
        → IsJoined (first_label g.now names.now) (second_label g.now names.now) (contains base.now)
        from to
        → IsFound (first_label g.now names.now) (second_label g.now names.now) (contains base.now)
        from to g.now.vertices (above_of steps.new) (via_of steps.new) }
{
    let mut left = *base;
    let mut reached = PointSet::empty();
    reached.put(from);
    let mut fresh = reached;
    while let Some(_label) = fresh.first_from(0) {
        let before = reached;
        let mut near = shared(&gather(stars, &fresh), &left);
        left = left.without(&near);
        sweep(steps, names, g, &mut near, &mut reached);
        fresh = reached.without(&before);
    }
}

/// Goes once through the members that are left, reaches the other end of each of which one end is
/// reached, and leaves those out.
fn sweep(steps: &mut [Step], names: &[u16], g: &Graph, left: &mut PointSet, reached: &mut PointSet)
    requires labelled { IsLabelled g.now names.now }
    requires steps { length steps.old ≡ g.now.vertices }
    requires left { AreEdges g.now (contains left.old) }
    requires reached { IsBelow (contains reached.old) g.now.vertices }
    ensures onward { SpreadsOn (first_label g.now names.now) (second_label g.now names.now)
        (contains left.old) g.now.vertices (contains reached.old) steps.old
        (contains reached.new) steps.new }
    ensures swept { IsSwept (first_label g.now names.now) (second_label g.now names.now)
        (contains left.old) (contains left.new) (contains reached.old) (contains reached.new) }
{
    let mut next = 0;
    while let Some(k) = left.first_from(next) {
        let (u, v) = g.ends_of(k);
        if cross(steps, reached, k, names[u as usize], names[v as usize]) {
            left.take(k);
        }
        next = k + 1;
    }
}

/// Where one end of a member is reached, reaches the other. Whether both are reached now.
fn cross(steps: &mut [Step], reached: &mut PointSet, k: u16, p: u16, q: u16) -> bool
    requires few { length steps.old ≤ MAX_MEMBERS }
    requires p { p < length steps.old }
    requires q { q < length steps.old }
    requires reached { IsBelow (contains reached.old) (length steps.old) }
    ensures onward { (a b : ℕ → ℕ) → (members : ℕ → Bool) → members k ≡ true
        → HasEnds a b k p q
        → SpreadsOn a b members (length steps.old) (contains reached.old) steps.old
        (contains reached.new) steps.new }
    ensures both { result ≡ true → IsReachedBoth (contains reached.new) p q }
    ensures neither { result ≡ false
        → (contains reached.old p ≡ false) × (contains reached.old q ≡ false) }
{
    if reached.has(p) {
        if !reached.has(q) {
            attach(steps, reached, k, p, q);
        }
        true
    } else if reached.has(q) {
        attach(steps, reached, k, q, p);
        true
    } else {
        false
    }
}

/// Reaches q from p by a member, so that both are reached.
fn attach(steps: &mut [Step], reached: &mut PointSet, k: u16, p: u16, q: u16)
    requires few { length steps.old ≤ MAX_MEMBERS }
    requires q { q < length steps.old }
    requires reached { IsBelow (contains reached.old) (length steps.old) }
    requires begun { contains reached.old p ≡ true }
    requires fresh { contains reached.old q ≡ false }
    ensures onward { (a b : ℕ → ℕ) → (members : ℕ → Bool) → members k ≡ true
        → HasEnds a b k p q
        → SpreadsOn a b members (length steps.old) (contains reached.old) steps.old
        (contains reached.new) steps.new }
    ensures both { IsReachedBoth (contains reached.new) p q }
{
    let depth = steps[p as usize].depth.saturating_add(1);
    steps[q as usize] = Step {
        above: p,
        via: k,
        depth,
    };
    reached.put(q);
}
