//! One node against the table of faults.
ghost use Rattle.std.specs.Prelude.{◌≡◌, ◌<◌, ◌≤◌, ◌+◌, ◌↔◌, IsTrue, IfSome, IfNone, Some, true};
ghost use Rattle.pg_check.specs.Prelude.{IsPosition, is_over, outcome, with_turn};
ghost use Rattle.pg_check.specs.Prelude.{reaches, IsInGame, IsOwed, EndsRight, is_allowed};
ghost use Rattle.pg_check.specs.Prelude.{AreMarksOf};
ghost use Rattle.pg_check.specs.Tester.{ArePointsOf, IsReadyFor};
ghost use Rattle.pg_check.specs.Present.{HasPosition, PassesSoFar, IsSoundSoFar, IsLeastSoFar};
ghost use Rattle.pg_check.specs.Present.{known, AreMoves, MeetsCriterion};

use crate::allowed::{is_allowed, is_in_game};
use crate::leaves::{has_cuts, has_pairs, has_potential, has_threat, has_trees};
use crate::moves::{follow_moves, has_turn, has_weaker, names_earlier, takes_free};
use crate::present::Present;
use crate::tester::Tester;
use pg_base::{Goal, PointSet, Side};
use pg_cert::{Body, Node, NodeFault};
use pg_game::{Game, Position, reaches};

/// Whether more than its marks, its children and its place is asked of the node.
fn is_owed(points: &PointSet, g: &Game, claim: &Present, node: &Node) -> bool
    requires { ArePointsOf points.now g.now }
    ensures { IsTrue result ↔ IsOwed g.now (known claim.now) node.now }
{
    is_allowed(g.kind, g.bias, claim.side, claim.goal, &node.body) && is_in_game(points, g, node)
}

/// Whether the node's marks are points of the game, and its side claims no more than in a whole
/// turn. A node of which more is asked needs no second look.
fn is_seen_in_game(points: &PointSet, g: &Game, claim: &Present, node: &Node, owed: bool) -> bool
    requires points { ArePointsOf points.now g.now }
    requires owed { IsTrue owed ↔ IsOwed g.now (known claim.now) node.now }
    ensures { IsTrue result ↔ IsInGame g.now node.now }
{
    if owed {
        return true;
    }
    is_in_game(points, g, node)
}

/// Whether the game is over with the goal reached.
fn is_won(tester: &mut Tester, g: &Game, side: Side, goal: Goal, p: &Position) -> bool
    requires made { IsReadyFor tester.old g.now }
    requires position { IsPosition g.now p.now }
    ensures won { IsTrue result
        ↔ ((is_over g.now p.now ≡ true) × (reaches side goal (outcome g.now p.now) ≡ true)) }
    ensures kept { tester.new ≡ tester.old }
{
    match tester.over(g, p) {
        Some(score) => reaches(side, goal, score),
        None => false,
    }
}

/// Whether the game is over where the body says so, with the goal reached, and isn't where the body
/// moves on.
fn ends_right(
    tester: &mut Tester,
    g: &Game,
    side: Side,
    goal: Goal,
    p: &Position,
    body: &Body,
) -> bool
    requires made { IsReadyFor tester.old g.now }
    requires position { IsPosition g.now p.now }
    ensures ends { IsTrue result ↔ EndsRight g.now side goal p.now body.now }
    ensures kept { tester.new ≡ tester.old }
{
    match body {
        Body::Over => is_won(tester, g, side, goal, p),
        Body::Move { .. } | Body::All(_) => tester.over(g, p).is_none(),
        _ => true,
    }
}

/// Whether the claim's last node is the game's marks with the claim's turn, where this is the last
/// node.
fn is_root(g: &Game, claim: &Present, k: usize, p: &Position) -> bool
    requires { k < claim.now.count }
    ensures { IsTrue result ↔ (k + 1 ≡ claim.now.count → p.now ≡ with_turn g.now claim.now.turn) }
{
    let count = claim.count as usize;
    if k + 1 != count {
        return true;
    }
    *p == g.with_turn(claim.turn)
}

/// A node with its position, and whether more is owed of it than its marks, its children and its
/// place.
#[derive(Clone, Copy)]
struct Seen<'a> {
    node: &'a Node,
    position: &'a Position,
    owed: bool,
}

/// Whether the node owes nothing under the fault's name.
fn passes(
    tester: &mut Tester,
    g: &Game,
    claim: &Present,
    k: usize,
    seen: &Seen<'_>,
    fault: NodeFault,
) -> bool
    requires made { IsReadyFor tester.old g.now }
    requires kept { AreMarksOf g.now claim.now.marks }
    requires place { k < claim.now.count }
    requires position { HasPosition seen.now.node.now seen.now.position.now }
    requires owed { IsTrue seen.now.owed ↔ IsOwed g.now (known claim.now) seen.now.node.now }
    ensures passes { IsTrue result ↔ PassesSoFar g.now claim.now k seen.now.node.now fault }
    ensures kept { tester.new ≡ tester.old }
{
    let Seen {
        node,
        position: p,
        owed,
    } = *seen;
    match fault {
        NodeFault::Child => {
            !is_allowed(g.kind, g.bias, claim.side, claim.goal, &node.body)
                || names_earlier(k, &node.body)
        }
        NodeFault::Marks => {
            is_seen_in_game(&tester.points, g, claim, node, owed)
                && follow_moves(g, &claim.marks, p, &node.body)
        }
        NodeFault::Turn => !owed || has_turn(claim.side, p, &node.body),
        NodeFault::Moves => !owed || takes_free(g, p, &node.body),
        NodeFault::End => { !owed || ends_right(tester, g, claim.side, claim.goal, p, &node.body) }
        NodeFault::Pairs => !owed || has_pairs(g, claim.side, p, &node.body),
        NodeFault::Potential => !owed || has_potential(&tester.masks, g, claim.side, p, &node.body),
        NodeFault::Trees => !owed || has_trees(&mut tester.joiner, g, p, &node.body),
        NodeFault::Cuts => !owed || has_cuts(&mut tester.joiner, g, p, &node.body),
        NodeFault::Threat => !owed || has_threat(&mut tester.judge, g, claim.side, p, &node.body),
        NodeFault::Root => is_root(g, claim, k, p),
        NodeFault::Body => is_allowed(g.kind, g.bias, claim.side, claim.goal, &node.body),
        NodeFault::Weaker => {
            !owed
                || !names_earlier(k, &node.body)
                || has_weaker(&claim.marks, claim.side, p, &node.body)
        }
    }
}

/// Whether the body moves on as it should, and ends the game where it says so.
fn moves_right(tester: &mut Tester, g: &Game, claim: &Present, p: &Position, body: &Body) -> bool
    requires made { IsReadyFor tester.old g.now }
    requires kept { AreMarksOf g.now claim.now.marks }
    requires position { IsPosition g.now p.now }
    ensures moves { IsTrue result → AreMoves g.now claim.now p.now body.now }
    ensures kept { tester.new ≡ tester.old }
{
    if !has_turn(claim.side, p, body) || !takes_free(g, p, body) {
        return false;
    }
    if !follow_moves(g, &claim.marks, p, body) {
        return false;
    }
    ends_right(tester, g, claim.side, claim.goal, p, body)
}

/// Whether the body meets its criterion, if it stands on one.
fn stands_right(tester: &mut Tester, g: &Game, claim: &Present, p: &Position, body: &Body) -> bool
    requires made { IsReadyFor tester.old g.now }
    requires kept { AreMarksOf g.now claim.now.marks }
    requires position { IsPosition g.now p.now }
    requires allowed { is_allowed g.now.kind g.now.bias claim.now.side claim.now.goal body.now
        ≡ true }
    ensures stands { IsTrue result → MeetsCriterion g.now claim.now p.now body.now }
    ensures kept { tester.new ≡ tester.old }
{
    if !has_pairs(g, claim.side, p, body) || !has_potential(&tester.masks, g, claim.side, p, body) {
        return false;
    }
    if !has_trees(&mut tester.joiner, g, p, body) {
        return false;
    }
    if !has_cuts(&mut tester.joiner, g, p, body) {
        return false;
    }
    if !has_threat(&mut tester.judge, g, claim.side, p, body) {
        return false;
    }
    has_weaker(&claim.marks, claim.side, p, body)
}

/// Whether the node is found to owe nothing, each test being made once. Where it isn't, the faults
/// are gone through by their numbers.
fn is_sound(tester: &mut Tester, g: &Game, claim: &Present, k: usize, seen: &Seen<'_>) -> bool
    requires made { IsReadyFor tester.old g.now }
    requires kept { AreMarksOf g.now claim.now.marks }
    requires place { k < claim.now.count }
    requires position { HasPosition seen.now.node.now seen.now.position.now }
    requires owed { IsTrue seen.now.owed ↔ IsOwed g.now (known claim.now) seen.now.node.now }
    ensures sound { IsTrue result → IsSoundSoFar g.now claim.now k seen.now.node.now }
    ensures kept { tester.new ≡ tester.old }
{
    let Seen {
        node,
        position: p,
        owed,
    } = *seen;
    if !owed || !names_earlier(k, &node.body) {
        return false;
    }
    if !moves_right(tester, g, claim, p, &node.body) {
        return false;
    }
    if !stands_right(tester, g, claim, p, &node.body) {
        return false;
    }
    is_root(g, claim, k, p)
}

/// The least fault of the node, which has the position, or none where it owes nothing.
pub(crate) fn first_fault(
    tester: &mut Tester,
    g: &Game,
    claim: &Present,
    k: usize,
    node: &Node,
    p: &Position,
) -> Option<NodeFault>
    requires made { IsReadyFor tester.old g.now }
    requires kept { AreMarksOf g.now claim.now.marks }
    requires place { k < claim.now.count }
    requires position { HasPosition node.now p.now }
    ensures sound { IfNone result (IsSoundSoFar g.now claim.now k node.now) }
    ensures least { IfSome result (λ fault. IsLeastSoFar g.now claim.now k node.now fault) }
    ensures kept { tester.new ≡ tester.old }
{
    let seen = Seen {
        node,
        position: p,
        owed: is_owed(&tester.points, g, claim, node),
    };
    if is_sound(tester, g, claim, k, &seen) {
        return None;
    }
    for fault in [
        NodeFault::Child,
        NodeFault::Marks,
        NodeFault::Turn,
        NodeFault::Moves,
        NodeFault::End,
        NodeFault::Pairs,
        NodeFault::Potential,
        NodeFault::Trees,
        NodeFault::Cuts,
        NodeFault::Threat,
        NodeFault::Root,
        NodeFault::Body,
        NodeFault::Weaker,
    ] {
        if !passes(tester, g, claim, k, &seen, fault) {
            return Some(fault);
        }
    }
    None
}
