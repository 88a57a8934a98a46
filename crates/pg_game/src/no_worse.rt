//! Whether a position is no worse for a side than another.
ghost use Rattle.std.specs.Prelude.{◌↔◌, IsTrue};
ghost use Rattle.pg_game.specs.Weaker.{IsNoWorse};

use crate::position::Position;
use pg_base::Side;

/// Whether p is no worse for the side than `weaker`: the side has all its points of `weaker`, the
/// other side no others than there, and the same side is to move and claims as many points.
pub fn is_no_worse(side: Side, weaker: &Position, p: &Position) -> bool
    ensures { IsTrue result ↔ IsNoWorse side weaker.now p.now }
{
    let other = side.other();
    weaker.points_of(side).is_subset(p.points_of(side))
        && p.points_of(other).is_subset(weaker.points_of(other))
        && p.turn == weaker.turn
        && p.left == weaker.left
}
