//! Whether the potential holds.
ghost use Rattle.std.specs.Prelude.{◌≡◌, ◌≢◌, ◌+◌, ◌&&◌, nat_lt, ◌↔◌, ◌<◌, ◌≤◌, ◌^◌, ℕ, IsTrue};
ghost use Rattle.std.specs.Prelude.{length, get_or, map, true, if◌then◌else◌};
ghost use Rattle.pg_potential.specs.Prelude.{Win, Draw, Switching, is_free, point_count};
ghost use Rattle.pg_potential.specs.Prelude.{free_points, IsPosition, total, weight, limit};
ghost use Rattle.pg_potential.specs.Prelude.{greatest, greatest_weight, times_counted};
ghost use Rattle.pg_potential.specs.Prelude.{PotentialHolds, Forces};

use pg_base::{Kind, Side};
use pg_game::{Game, MAX_BIAS, MAX_POINTS, Position, Weights, full_weight, total_weight, weigh};

/// The weights for a claimer.
pub(crate) fn weights_for(g: &Game, p: &Position, side: Side) -> Weights
    ensures total { result.total ≡ total g.now p.now side }
    ensures few { result.total ≤ 2 ^ 115 }
    ensures count { length result.points ≡ MAX_POINTS }
    ensures points { (v : ℕ) → v < MAX_POINTS
        → get_or result.points v 0 ≡ weight g.now p.now side v }
{
    weigh(g, 1 + u128::from(g.bias), p.points_of(side), p)
}

/// The sum of the weights of the lines without a point of the side.
fn total_for(g: &Game, p: &Position, side: Side) -> u128
    ensures total { result ≡ total g.now p.now side }
    ensures few { result ≤ 2 ^ 115 }
{
    total_weight(g, 1 + u128::from(g.bias), p.points_of(side), p)
}

/// The sum of the weights of the lines without a point of the side.
///
/// A line weighs `1 + q` to the power of the greatest length of a line less its free points, where
/// Y claims q points a turn.
pub fn total(g: &Game, p: &Position, side: Side) -> u128
    requires { IsPosition g.now p.now }
    ensures { result ≡ total g.now p.now side }
{
    total_for(g, p, side)
}

/// The sum of the weights of those lines through a free point.
pub fn weight(g: &Game, p: &Position, side: Side, v: u16) -> u128
    requires lines { g.now.kind ≢ Switching }
    requires position { IsPosition g.now p.now }
    requires within { v < point_count g.now }
    requires free { is_free p.now v ≡ true }
    ensures { result ≡ weight g.now p.now side v }
{
    weights_for(g, p, side).points[usize::from(v)]
}

/// What the total must stay below: `1 + q` to the power of the greatest length of a line.
pub fn limit(g: &Game) -> u128
    ensures { result ≡ limit g.now }
{
    full_weight(g, 1 + u128::from(g.bias))
}

/// What a point weighs where it is free and weighs more than `least`, and 0 otherwise.
fn free_weight(p: &Position, points: &[u128; MAX_POINTS], v: u16, least: u128) -> u128
    requires count { length points.now ≡ MAX_POINTS }
    requires small { v < MAX_POINTS }
    ensures { result ≡ (if nat_lt least (get_or points.now v 0) && is_free p.now v
        then get_or points.now v 0
        else 0) }
{
    let weight = points[usize::from(v)];
    if weight > least && p.is_free(v) {
        weight
    } else {
        0
    }
}

/// The greatest weight of a free point, and 0 where none is free.
pub(crate) fn greatest_free(g: &Game, p: &Position, points: &[u128; MAX_POINTS]) -> u128
    requires lines { g.now.kind ≢ Switching }
    requires count { length points.now ≡ MAX_POINTS }
    ensures { result ≡ greatest (map (λ v. get_or points.now v 0) (free_points g.now p.now)) }
{
    let mut greatest = 0;
    for v in 0..g.points() {
        let weight = free_weight(p, points, v, greatest);
        if weight > greatest {
            greatest = weight;
        }
    }
    greatest
}

/// How often the greatest weight counts: as often as the other side may still claim a point before
/// the side's next whole turn, or as often as the side has claimed one in its turn.
fn times_counted(g: &Game, p: &Position, side: Side) -> u8
    requires { IsPosition g.now p.now }
    ensures times { result ≡ times_counted g.now p.now side }
    ensures few { result ≤ MAX_BIAS }
{
    if side.is_same(p.turn) {
        g.bias - p.left
    } else {
        g.bias
    }
}

/// The greatest weight of a free point, by the weights of all points.
fn greatest_weight(g: &Game, p: &Position, side: Side) -> u128
    requires { g.now.kind ≢ Switching }
    ensures { result ≡ greatest_weight g.now p.now side }
{
    greatest_free(g, p, &weights_for(g, p, side).points)
}

/// Whether the total, with the greatest weight of a free point as often as it counts, is below the
/// limit; both are given. No point weighs more than all lines, so the weights of points are often
/// not needed.
pub(crate) fn is_low(g: &Game, p: &Position, side: Side, sum: u128, most: u128) -> bool
    requires lines { g.now.kind ≢ Switching }
    requires position { IsPosition g.now p.now }
    requires sum { sum ≡ total g.now p.now side }
    requires few { sum ≤ 2 ^ 115 }
    requires most { most ≡ limit g.now }
    ensures { IsTrue result ↔ PotentialHolds g.now p.now side }
{
    if sum >= most {
        return false;
    }
    let times = u128::from(times_counted(g, p, side));
    if sum + times * sum < most {
        return true;
    }
    sum + times * greatest_weight(g, p, side) < most
}

/// Whether the potential is low enough for the side: the total, with the greatest weight of a free
/// point as often as it counts, is below the limit.
///
/// The greatest weight counts q times where the other side is to move, and where the side is to
/// move, as often as it has claimed a point in its turn. Where it holds Y wins in Maker-Breaker,
/// and the side gets at least a draw in Maker-Maker. The time is linear in the points of all lines;
/// it takes no memory.
///
/// Erdős and Selfridge, On a combinatorial game (1973); for q above 1 the weights are those of
/// Beck's biased form (1982).
pub fn holds(g: &Game, p: &Position, side: Side) -> bool
    requires lines { g.now.kind ≢ Switching }
    requires position { IsPosition g.now p.now }
    ensures exact { IsTrue result ↔ PotentialHolds g.now p.now side }
    ensures breaker { IsTrue result
        → g.now.kind ≡ Kind.MakerBreaker
        → side ≡ Side.Y
        → Forces g.now p.now side Win }
    ensures draw { IsTrue result → g.now.kind ≡ Kind.MakerMaker → Forces g.now p.now side Draw }
{
    is_low(g, p, side, total_for(g, p, side), limit(g))
}
