//! The tests of a claim of one node.
ghost use Rattle.std.specs.Prelude.{◌≡◌, ◌↔◌, length, IfOk, IsTrue};
ghost use Rattle.pg_gf2.specs.Prelude.{Win, One};
ghost use Rattle.pg_gf2.specs.Classes.{with_target};
ghost use Rattle.pg_gf2.specs.Check.{names_sets, with_e_named, AreVectorSets, IsAtMarks, IsOfSide};
ghost use Rattle.pg_gf2.specs.Check.{HasTrees, HasCuts, IsNodeVerdict, IsClaimVerdict};

use crate::condition::{are_cuts, are_trees, number_of_e};
use crate::flaw::VecFlaw;
use crate::game::VecGame;
use pg_base::{Goal, Memory, PointSet, Side};
use pg_cert::{Body, Claim, Node, Version};
use std::alloc::Global;

/// Whether the body is trees or cuts.
fn names_sets(body: &Body) -> bool
    ensures { result ≡ names_sets body.now }
{
    matches!(body, Body::Trees { .. } | Body::Cuts { .. })
}

/// Whether the sets have the same points.
fn are_same(a: &PointSet, b: &PointSet) -> bool
    ensures { IsTrue result ↔ a.now ≡ b.now }
{
    a == b
}

/// Whether the node has the game's marks and the claim's turn.
fn is_at_marks(g: &VecGame, turn: Side, node: &Node) -> bool
    ensures { IsTrue result ↔ IsAtMarks g.now turn node.now }
{
    are_same(&node.x, &g.x) && are_same(&node.y, &g.y) && node.turn == turn && node.left == 1
}

/// Whether the body is one of the side's: trees are X's and cuts are Y's.
fn is_of_side(side: Side, body: &Body) -> bool
    ensures { IsTrue result ↔ IsOfSide side body.now }
{
    match body {
        Body::Trees { .. } => side == Side::X,
        Body::Cuts { .. } => side == Side::Y,
        _ => true,
    }
}

/// Whether a win is claimed, and the body is one of its side's.
fn is_claimed(claim: &Claim, body: &Body) -> bool
    ensures { IsTrue result ↔ (IsOfSide claim.now.side body.now × claim.now.goal ≡ Win) }
{
    is_of_side(claim.side, body) && claim.goal == Goal::Win
}

/// The first set that a body names, with e where it says so.
pub fn with_e_named(g: &VecGame, with_e: bool, first: &PointSet) -> PointSet
    ensures { result ≡ with_e_named g.now with_e first.now }
{
    let mut members = *first;
    if with_e {
        members.put(number_of_e(g));
    }
    members
}

/// Whether the sets that a body names hold numbers of vectors only.
fn are_vector_sets(g: &VecGame, first: &PointSet, second: &PointSet) -> bool
    ensures { IsTrue result ↔ AreVectorSets g.now first.now second.now }
{
    first.is_below(number_of_e(g)) && second.is_below(number_of_e(g))
}

/// Whether the body's sets are trees, if it says so.
fn has_trees(
    alloc: Global,
    g: &VecGame,
    vectors: &[u128],
    turn: Side,
    body: &Body,
) -> Result<bool, Memory>
    requires { vectors.now ≡ with_target g.now }
    ensures { IfOk result (λ b. IsTrue b ↔ HasTrees g.now turn body.now) }
{
    let Body::Trees {
        with_e,
        first,
        second,
    } = body
    else {
        return Ok(true);
    };
    let (first, second) = (first.as_set(), second.as_set());
    if !are_vector_sets(g, first, second) {
        return Ok(false);
    }
    are_trees(
        alloc,
        g,
        vectors,
        turn,
        &with_e_named(g, *with_e, first),
        second,
    )
}

/// Whether the body's sets are cuts, if it says so.
fn has_cuts(
    alloc: Global,
    g: &VecGame,
    vectors: &[u128],
    turn: Side,
    body: &Body,
) -> Result<bool, Memory>
    requires { vectors.now ≡ with_target g.now }
    ensures { IfOk result (λ b. IsTrue b ↔ HasCuts g.now turn body.now) }
{
    let Body::Cuts {
        with_e,
        first,
        second,
    } = body
    else {
        return Ok(true);
    };
    let (first, second) = (first.as_set(), second.as_set());
    if !are_vector_sets(g, first, second) {
        return Ok(false);
    }
    are_cuts(
        alloc,
        g,
        vectors,
        turn,
        &with_e_named(g, *with_e, first),
        second,
    )
}

/// The least flaw of the claim's only node, where it has one.
fn node_flaw(
    alloc: Global,
    g: &VecGame,
    vectors: &[u128],
    claim: &Claim,
    node: &Node,
) -> Result<Option<VecFlaw>, Memory>
    requires { vectors.now ≡ with_target g.now }
    ensures { IfOk result (IsNodeVerdict g.now claim.now node.now) }
{
    if !names_sets(&node.body) {
        return Ok(Some(VecFlaw::Form));
    }
    if !is_at_marks(g, claim.turn, node) {
        return Ok(Some(VecFlaw::Position));
    }
    if !is_claimed(claim, &node.body) {
        return Ok(Some(VecFlaw::Claimer));
    }
    if !has_trees(alloc, g, vectors, claim.turn, &node.body)? {
        return Ok(Some(VecFlaw::Trees));
    }
    if !has_cuts(alloc, g, vectors, claim.turn, &node.body)? {
        return Ok(Some(VecFlaw::Cuts));
    }
    Ok(None)
}

/// Whether the version is 1 and there is just one node.
fn is_short(version: Version, nodes: &[Node]) -> bool
    ensures { IsTrue result ↔ (version ≡ One × length nodes.now ≡ 1) }
{
    matches!(version, Version::One) && nodes.len() == 1
}

/// The least flaw of the claim, where it has one.
pub(crate) fn claim_flaw(
    alloc: Global,
    g: &VecGame,
    vectors: &[u128],
    version: Version,
    claim: &Claim,
) -> Result<Option<VecFlaw>, Memory>
    requires { vectors.now ≡ with_target g.now }
    ensures { IfOk result (IsClaimVerdict g.now version claim.now) }
{
    let nodes = claim.nodes.as_slice();
    if !is_short(version, nodes) {
        return Ok(Some(VecFlaw::Form));
    }
    node_flaw(alloc, g, vectors, claim, &nodes[0])
}
