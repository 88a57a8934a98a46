//! Nodes that move on to other nodes.
ghost use Rattle.std.specs.Prelude.{◌≡◌, ◌*◌, ◌<◌, map, true, ◌↔◌, IsTrue};
ghost use Rattle.pg_check.specs.Prelude.{All, NamesEarlier, IsNodeOf, FollowsMove, FollowMoves};
ghost use Rattle.pg_check.specs.Prelude.{HasTurn, TakesFree, HasWeaker, AreBelow, point_count};
ghost use Rattle.pg_check.specs.Prelude.{free_points, IsPosition, is_free, after};
ghost use Rattle.pg_check.specs.Prelude.{x_after, y_after, kept, AreFlat, AreMarksOf};
ghost use Rattle.pg_check.specs.Present.{bare};

use pg_base::{MAX_MEMBERS, Side};
use pg_cert::{Body, Reply};
use pg_game::{Game, Position};
use pg_potential::Marks;

/// Whether every child has a number below `k`.
fn are_earlier(k: usize, replies: &[Reply]) -> bool
    ensures { IsTrue result ↔ All (λ r. r.child < k) replies.now }
{
    replies.iter().all(|reply| (reply.child as usize) < k)
}

/// Whether every child that the body names has a number below `k`.
pub(crate) fn names_earlier(k: usize, body: &Body) -> bool
    ensures { IsTrue result ↔ NamesEarlier k body.now }
{
    match body {
        Body::Move { child, .. } => (*child as usize) < k,
        Body::All(replies) => are_earlier(k, replies.as_slice()),
        Body::Weaker { child } => (*child as usize) < k,
        _ => true,
    }
}

/// Whether the position is no worse for the side than that of the child that `weaker` names, which
/// has been checked.
pub(crate) fn has_weaker(marks: &Marks, side: Side, p: &Position, body: &Body) -> bool
    requires flat { AreFlat marks.now }
    requires x { AreBelow p.now.x (64 * marks.now.width) }
    requires y { AreBelow p.now.y (64 * marks.now.width) }
    ensures { IsTrue result ↔ HasWeaker (map bare (kept marks.now)) side p.now body.now }
{
    let Body::Weaker { child } = body else {
        return true;
    };
    marks.is_no_worse(side, *child, p)
}

/// Whether a node of that number has been checked and has the position after the side to move takes
/// the point.
fn is_node_after(g: &Game, marks: &Marks, p: &Position, point: u16, child: u32) -> bool
    requires flat { AreFlat marks.now }
    requires small { point < MAX_MEMBERS }
    requires x { AreBelow (x_after p.now.turn p.now.x point) (64 * marks.now.width) }
    requires y { AreBelow (y_after p.now.turn p.now.y point) (64 * marks.now.width) }
    ensures { IsTrue result
        ↔ IsNodeOf (map bare (kept marks.now)) child (after g.now p.now point) }
{
    marks.is_after(child, g, p, point)
}

/// Whether the child has the position after the move, where the point is free.
fn follows_move(g: &Game, marks: &Marks, p: &Position, point: u16, child: u32) -> bool
    requires made { AreMarksOf g.now marks.now }
    requires position { IsPosition g.now p.now }
    ensures { IsTrue result ↔ FollowsMove g.now (map bare (kept marks.now)) p.now point child }
{
    if point >= g.points() {
        return true;
    }
    if !p.is_free(point) {
        return true;
    }
    is_node_after(g, marks, p, point, child)
}

/// Whether the children of all free points have the positions after them.
fn all_follow(g: &Game, marks: &Marks, p: &Position, replies: &[Reply]) -> bool
    requires made { AreMarksOf g.now marks.now }
    requires position { IsPosition g.now p.now }
    ensures { IsTrue result
        ↔ All (λ r. FollowsMove g.now (map bare (kept marks.now)) p.now r.point r.child)
        replies.now }
{
    for reply in replies {
        if !follows_move(g, marks, p, reply.point, reply.child) {
            return false;
        }
    }
    true
}

/// Whether the children of the free points that the body names have the positions after them.
pub(crate) fn follow_moves(g: &Game, marks: &Marks, p: &Position, body: &Body) -> bool
    requires made { AreMarksOf g.now marks.now }
    requires position { IsPosition g.now p.now }
    ensures { IsTrue result ↔ FollowMoves g.now (map bare (kept marks.now)) p.now body.now }
{
    match body {
        Body::Move { point, child } => follows_move(g, marks, p, *point, *child),
        Body::All(replies) => all_follow(g, marks, p, replies.as_slice()),
        _ => true,
    }
}

/// Whether the side is to move that the body asks for.
pub(crate) fn has_turn(side: Side, p: &Position, body: &Body) -> bool
    ensures { IsTrue result ↔ HasTurn side p.now body.now }
{
    match body {
        Body::Move { .. } | Body::Threat(_) => p.turn == side,
        Body::All(_) => p.turn == side.other(),
        _ => true,
    }
}

/// Whether the point is free.
fn is_free_point(g: &Game, p: &Position, v: u16) -> bool
    ensures { IsTrue result ↔ ((v < point_count g.now) × (is_free p.now v ≡ true)) }
{
    v < g.points() && p.is_free(v)
}

/// Whether the replies are exactly the free points.
fn are_free_points(g: &Game, p: &Position, replies: &[Reply]) -> bool
    ensures { IsTrue result ↔ (map (λ r. r.point) replies.now ≡ free_points g.now p.now) }
{
    let mut next = 0;
    for v in 0..g.points() {
        if p.is_free(v) {
            if next >= replies.len() {
                return false;
            }
            if replies[next].point != v {
                return false;
            }
            next += 1;
        }
    }
    next == replies.len()
}

/// Whether the body takes free points only, and all of them where it names all replies.
pub(crate) fn takes_free(g: &Game, p: &Position, body: &Body) -> bool
    ensures { IsTrue result ↔ TakesFree g.now p.now body.now }
{
    match body {
        Body::Move { point, .. } => is_free_point(g, p, *point),
        Body::All(replies) => are_free_points(g, p, replies.as_slice()),
        _ => true,
    }
}
