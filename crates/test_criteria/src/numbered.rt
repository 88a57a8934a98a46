//! Pairs of sets and positions, by number.
ghost use Rattle.std.specs.Prelude.{◌≡◌, ◌<◌, ◌≤◌, ◌*◌, ◌^◌, IfSome};
ghost use Rattle.pg_base.specs.Points.{AreBelow};
ghost use Rattle.pg_game.specs.Game.{point_count, IsPosition};

use pg_base::{PointSet, Side};
use pg_game::{Game, Position};

/// How many pairs of sets of points below the count there are.
pub(crate) fn number_count(count: u16) -> u32
    requires { count ≤ 12 }
    ensures { result ≡ 2 ^ (2 * count) }
{
    1 << (2 * count)
}

/// The two sets of points below the count that a number names: of the two binary digits that belong
/// to a point, counted from the lowest, the first says whether it is in the one set, and the second
/// whether it is in the other.
pub(crate) fn sets_of(count: u16, number: u32) -> (PointSet, PointSet)
    requires { count ≤ 12 }
    ensures first { AreBelow result.0 count }
    ensures second { AreBelow result.1 count }
{
    let mut first = PointSet::empty();
    let mut second = PointSet::empty();
    for v in 0..count {
        if number >> (2 * v) & 1 == 1 {
            first.put(v);
        }
        if number >> (2 * v) & 2 == 2 {
            second.put(v);
        }
    }
    (first, second)
}

/// The position with X's and Y's points by number, where no point is both sides' and the side to
/// move may still claim so many points in its turn.
pub(crate) fn position_of(g: &Game, number: u32, turn: Side, left: u8) -> Option<Position>
    requires { point_count g.now ≤ 12 }
    ensures { IfSome result (IsPosition g.now) }
{
    let (x, y) = sets_of(g.points(), number);
    if left < 1 || left > g.bias_of(turn) || !x.shares_none(&y) {
        return None;
    }
    Some(Position { x, y, turn, left })
}
