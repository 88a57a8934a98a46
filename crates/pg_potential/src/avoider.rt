//! Avoider's potential: whether it holds, and the answer by it.
ghost use Rattle.std.specs.Prelude.{◌≡◌, ◌≢◌, ◌<◌, ◌^◌, ◌-◌, ◌↔◌, IsTrue, ℕ, length, get_or, map};
ghost use Rattle.std.specs.Prelude.{false, true, if◌then◌else◌};
ghost use Rattle.pg_potential.specs.Prelude.{AvoiderEnforcer, Switching, XWins, X, Contains};
ghost use Rattle.pg_potential.specs.Prelude.{is_free, point_count, free_points, is_full, is_over};
ghost use Rattle.pg_potential.specs.Prelude.{outcome, after, IsPosition, least, avoider_answer};
ghost use Rattle.pg_potential.specs.Prelude.{avoider_ends, AvoiderHolds};

use pg_game::{
    Game, MAX_POINTS, Position, full_weight, lowest_with, total_weight, weigh, x_takes_last,
};

/// Whether Avoider takes the last free point.
fn avoider_ends(g: &Game, p: &Position) -> bool
    ensures { result ≡ avoider_ends g.now p.now }
{
    x_takes_last(
        u16::from(g.bias),
        p.turn,
        u16::from(p.left),
        g.free_points(p).len() as u16,
    )
}

/// Whether Avoider's potential is low enough: the sum of the weights of the lines without a point
/// of Enforcer, twice where Avoider takes the last free point, is below the limit.
///
/// A line weighs 2 to the power of the greatest length of a line less its free points, and the
/// limit is 2 to the power of that length. Where it holds Avoider wins in Avoider-Enforcer, however
/// many points Enforcer claims a turn. The time is linear in the points of all lines; it takes no
/// memory.
///
/// The condition is this project's own. It turns the potential of Erdős and Selfridge (On a
/// combinatorial game, 1973) round: Avoider claims a point of least weight, and Enforcer's first
/// point after it weighs at least as much.
pub fn holds(g: &Game, p: &Position) -> bool
    requires { IsPosition g.now p.now }
    ensures exact { IsTrue result ↔ AvoiderHolds g.now p.now }
{
    let total = total_weight(g, 2, &p.y, p);
    let risk = if avoider_ends(g, p) { 2 * total } else { total };
    risk < full_weight(g, 2)
}

/// What a point weighs where it is free, and the greatest number where it isn't.
fn weight_if_free(p: &Position, points: &[u128; MAX_POINTS], v: u16) -> u128
    requires count { length points.now ≡ MAX_POINTS }
    requires small { v < MAX_POINTS }
    ensures { result ≡ (if is_free p.now v then get_or points.now v 0 else 2 ^ 128 - 1) }
{
    if p.is_free(v) {
        points[usize::from(v)]
    } else {
        u128::MAX
    }
}

/// The least weight of a free point.
fn least_free(g: &Game, p: &Position, points: &[u128; MAX_POINTS]) -> u128
    requires lines { g.now.kind ≢ Switching }
    requires count { length points.now ≡ MAX_POINTS }
    requires fit { (v : ℕ) → get_or points.now v 0 < 2 ^ 128 }
    requires some_free { is_full g.now p.now ≡ false }
    ensures { result ≡ least (map (λ v. get_or points.now v 0) (free_points g.now p.now)) }
{
    let mut least = u128::MAX;
    for v in 0..g.points() {
        let weight = weight_if_free(p, points, v);
        if weight < least {
            least = weight;
        }
    }
    least
}

/// The answer by Avoider's potential: the lowest free point of least weight.
///
/// Where the potential holds with Avoider to move, the game is won for Avoider if it is over after
/// the answer, and else the potential holds again after Enforcer's next point, whichever it is.
/// Between the two it may fail. The game is one on lines, and some point is free. The time is
/// linear in the points of all lines; it takes no memory.
pub fn answer(g: &Game, p: &Position) -> u16
    requires lines { g.now.kind ≢ Switching }
    requires position { IsPosition g.now p.now }
    requires some_free { is_full g.now p.now ≡ false }
    ensures rule { result ≡ avoider_answer g.now p.now }
    ensures free { Contains (free_points g.now p.now) result }
    ensures wins { g.now.kind ≡ AvoiderEnforcer
        → p.now.turn ≡ X
        → AvoiderHolds g.now p.now
        → is_over g.now (after g.now p.now result) ≡ true
        → outcome g.now (after g.now p.now result) ≡ XWins }
    ensures keeps { p.now.turn ≡ X
        → AvoiderHolds g.now p.now
        → (u : ℕ) → u < point_count g.now
        → is_free (after g.now p.now result) u ≡ true
        → AvoiderHolds g.now (after g.now (after g.now p.now result) u) }
{
    let weights = weigh(g, 2, &p.y, p);
    let least = least_free(g, p, &weights.points);
    lowest_with(g, p, &weights.points, least)
}
