//! Whether pairs hold.
ghost use Rattle.std.specs.Prelude.{◌≡◌, ◌==◌, ℕ, ◌<◌, ◌≤◌, ◌↔◌, ◌&&◌, ◌||◌, not, IsTrue, IsSome};
ghost use Rattle.std.specs.Prelude.{IfSome, nat_lt, if◌then◌else◌, length};
ghost use Rattle.std.specs.List.{filter};
ghost use Rattle.std.specs.FinSet as set;
ghost use Rattle.pg_pairing.specs.Prelude.{Win, Draw, AvoiderEnforcer, is_free, free_points};
ghost use Rattle.pg_pairing.specs.Prelude.{IsPosition, PairsHold, PairsLeaveNone, AreOpenPairs};
ghost use Rattle.pg_pairing.specs.Prelude.{HoldLines, has_point, is_paired, unpaired_due, Forces};
ghost use Rattle.pg_pairing.specs.Taking.{CanTake};

use crate::partners::{is_safe, partners_of};
use pg_base::{Kind, MAX_MEMBERS, Pair, PointSet, Side};
use pg_game::{Game, Position, breaker_of};

/// Puts a point of the game that isn't taken to those that are, and tells whether it could.
fn take(points: u16, taken: &mut PointSet, v: u16) -> bool
    requires { points ≤ MAX_MEMBERS }
    ensures free { result ≡ (nat_lt v points && not (set.contains taken.old v)) }
    ensures taken { taken.new ≡ (if result then set.insert taken.old v else taken.old) }
{
    if v < points && !taken.has(v) {
        taken.put(v);
        true
    } else {
        false
    }
}

/// Puts both points of the pair to those that are taken, and tells whether it could.
fn take_pair(points: u16, taken: &mut PointSet, s: Pair) -> bool
    requires { points ≤ MAX_MEMBERS }
    ensures fits { IsTrue result ↔ CanTake points taken.old s }
    ensures taken { IsTrue result
        → (q : ℕ) → set.contains taken.new q ≡ (has_point q s || set.contains taken.old q) }
{
    take(points, taken, s.a) && take(points, taken, s.b)
}

/// The points of the pairs, where these are of free points of the game, all different. The marks of
/// both sides count as taken from the beginning, so that each point is looked up once.
pub(crate) fn paired_points(g: &Game, p: &Position, pairs: &[Pair]) -> Option<PointSet>
    ensures open { IsSome result ↔ AreOpenPairs g.now p.now pairs.now }
    ensures points { IfSome result
        (λ paired. (q : ℕ) → set.contains paired q ≡ is_paired pairs.now q) }
{
    let points = g.points();
    let marked = p.x.union(&p.y);
    let mut taken = marked;
    for s in pairs {
        if !take_pair(points, &mut taken, *s) {
            return None;
        }
    }
    Some(taken.without(&marked))
}

/// Whether the point is free and not in the set.
pub(crate) fn is_outside(p: &Position, points: &PointSet, v: u16) -> bool
    requires { v < MAX_MEMBERS }
    ensures { result ≡ (is_free p.now v && not (set.contains points.now v)) }
{
    p.is_free(v) && !points.has(v)
}

/// How many free points are not in the set.
fn count_outside(g: &Game, p: &Position, points: &PointSet) -> u16
    ensures { result
        ≡ length (filter (λ v. not (set.contains points.now v)) (free_points g.now p.now)) }
{
    let mut outside = 0;
    for v in 0..g.points() {
        if is_outside(p, points, v) {
            outside += 1;
        }
    }
    outside
}

/// How many free points may be in no pair.
fn unpaired_due(turn: Side) -> u16
    ensures { result ≡ unpaired_due turn }
{
    match turn {
        Side::X => 1,
        Side::Y => 0,
    }
}

/// Whether, in Avoider-Enforcer, Enforcer claims one point a turn and no free point is left out of
/// the pairs, but one where Avoider is to move. The set is that of the points in pairs.
fn leave_none(g: &Game, p: &Position, pairs: &[Pair], paired: &PointSet) -> bool
    requires { (q : ℕ) → set.contains paired.now q ≡ is_paired pairs.now q }
    ensures { IsTrue result
        ↔ (g.now.kind ≡ AvoiderEnforcer → PairsLeaveNone g.now p.now pairs.now) }
{
    if g.kind != Kind::AvoiderEnforcer {
        return true;
    }
    if g.bias != 1 {
        return false;
    }
    count_outside(g, p, paired) == unpaired_due(p.turn)
}

/// Whether every line meant holds both points of some pair.
fn hold_lines(g: &Game, p: &Position, side: Side, pairs: &[Pair]) -> bool
    requires { AreOpenPairs g.now p.now pairs.now }
    ensures { IsTrue result ↔ HoldLines g.now p.now side pairs.now }
{
    let own = p.points_of(breaker_of(g.kind, side));
    let partners = partners_of(pairs);
    for line in g.lines() {
        if !is_safe(own, line, &partners) {
            return false;
        }
    }
    true
}

/// Whether the pairs are of free points, all different, and every line without a point of the side
/// that makes lines harmless holds both points of some pair. That side is the claimer, but Y in
/// Avoider-Enforcer, where moreover Y claims one point a turn and no free point is left out of the
/// pairs, but one where X is to move.
///
/// Where it answers true, Y wins in Maker-Breaker, whatever the bias; the claimer gets at least a
/// draw in Maker-Maker; and X wins in Avoider-Enforcer. Who is to move makes no difference. A graph
/// has no lines, so there any pairs of free points hold, and force nothing. It takes no memory.
///
/// The pairing is Hales and Jewett's (Regularity and positional games, 1963).
pub fn holds(g: &Game, p: &Position, side: Side, pairs: &[Pair]) -> bool
    requires { IsPosition g.now p.now }
    ensures exact { IsTrue result ↔ PairsHold g.now p.now side pairs.now }
    ensures breaker { IsTrue result
        → g.now.kind ≡ Kind.MakerBreaker
        → side ≡ Side.Y
        → Forces g.now p.now side Win }
    ensures draw { IsTrue result → g.now.kind ≡ Kind.MakerMaker → Forces g.now p.now side Draw }
    ensures avoider { IsTrue result
        → g.now.kind ≡ Kind.AvoiderEnforcer
        → side ≡ Side.X
        → Forces g.now p.now side Win }
{
    match paired_points(g, p, pairs) {
        Some(paired) => leave_none(g, p, pairs, &paired) && hold_lines(g, p, side, pairs),
        None => false,
    }
}
