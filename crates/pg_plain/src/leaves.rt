//! The conditions by which a claim is read off a position: the potentials of Breaker and of
//! Avoider.
ghost use Rattle.std.specs.Prelude.{◌≡◌, ◌≢◌, ◌+◌, ◌<◌, ◌≤◌, if◌then◌else◌};
ghost use Rattle.pg_plain.specs.Prelude.{Switching, avoider_ends, avoider_risk, avoider_holds};
ghost use Rattle.pg_plain.specs.Prelude.{is_free, is_on, total, weight, limit, greatest_weight};
ghost use Rattle.pg_plain.specs.Prelude.{times_counted, potential_holds, IsBaseOf};

use pg_base::{Line, Side};
use pg_game::{
    Game, MAX_BIAS, MAX_POINTS, Position, full_weight, total_weight, weigh, x_takes_last,
};

/// Whether the line holds the point.
pub(crate) fn is_on(v: u16, line: &Line) -> bool
    ensures { result ≡ is_on v line.now }
{
    line.as_slice().iter().any(|q| *q == v)
}

/// Breaker's base: one more than the points that Y claims in a turn.
fn breaker_base(g: &Game) -> u128
    ensures same { result ≡ 1 + g.now.bias }
    ensures fits { IsBaseOf result g.now }
{
    1 + u128::from(g.bias)
}

/// The sum of the weights of the lines without a point of the side.
fn total(g: &Game, p: &Position, side: Side) -> u128
    ensures { result ≡ total g.now p.now side }
{
    total_weight(g, breaker_base(g), p.points_of(side), p)
}

/// The sum of the weights of those lines through a point.
fn weight(g: &Game, p: &Position, side: Side, v: u16) -> u128
    requires { v < MAX_POINTS }
    ensures { result ≡ weight g.now p.now side v }
{
    weigh(g, breaker_base(g), p.points_of(side), p).points[usize::from(v)]
}

/// What the total must stay below.
fn limit(g: &Game) -> u128
    ensures { result ≡ limit g.now }
{
    full_weight(g, breaker_base(g))
}

/// What a point weighs where it is free, and 0 where it isn't.
fn free_weight(g: &Game, p: &Position, side: Side, v: u16) -> u128
    requires { v < MAX_POINTS }
    ensures { result ≡ (if is_free p.now v then weight g.now p.now side v else 0) }
{
    if p.is_free(v) {
        weight(g, p, side, v)
    } else {
        0
    }
}

/// The greatest weight of a free point, and 0 where none is free.
fn greatest_weight(g: &Game, p: &Position, side: Side) -> u128
    requires { g.now.kind ≢ Switching }
    ensures { result ≡ greatest_weight g.now p.now side }
{
    let mut greatest = 0;
    for v in 0..g.points() {
        let weight = free_weight(g, p, side, v);
        if weight > greatest {
            greatest = weight;
        }
    }
    greatest
}

/// How often the greatest weight counts.
fn times_counted(g: &Game, p: &Position, side: Side) -> u8
    ensures times { result ≡ times_counted g.now p.now side }
    ensures few { result ≤ MAX_BIAS }
{
    if side.is_same(p.turn) {
        g.bias.saturating_sub(p.left)
    } else {
        g.bias
    }
}

/// Whether the total, with the greatest weight of a free point as often as it counts, is below the
/// limit.
///
/// Erdős and Selfridge, On a combinatorial game (1973).
pub(crate) fn potential_holds(g: &Game, p: &Position, side: Side) -> bool
    requires { g.now.kind ≢ Switching }
    ensures { result ≡ potential_holds g.now p.now side }
{
    let times = u128::from(times_counted(g, p, side));
    total(g, p, side) + times * greatest_weight(g, p, side) < limit(g)
}

/// Whether Avoider takes the last free point.
fn avoider_ends(g: &Game, p: &Position) -> bool
    ensures { result ≡ avoider_ends g.now p.now }
{
    x_takes_last(
        u16::from(g.bias),
        p.turn,
        u16::from(p.left),
        g.free_points(p).len() as u16,
    )
}

/// Avoider's total, twice where Avoider takes the last point.
fn avoider_risk(g: &Game, p: &Position) -> u128
    ensures { result ≡ avoider_risk g.now p.now }
{
    let total = total_weight(g, 2, &p.y, p);
    if avoider_ends(g, p) { 2 * total } else { total }
}

/// Whether the sum of the weights of the lines without a point of Enforcer, twice where Avoider
/// takes the last free point, is below the limit.
pub(crate) fn avoider_holds(g: &Game, p: &Position) -> bool
    ensures { result ≡ avoider_holds g.now p.now }
{
    avoider_risk(g, p) < full_weight(g, 2)
}
