//! The point that stands for another.
ghost use Rattle.std.specs.Prelude.{◌≡◌, ◌<◌};
ghost use Rattle.pg_base.specs.declared.limits.TheConstants.{MAX_MEMBERS};
ghost use Rattle.pg_game.specs.Weaker.{free_or_lowest};

use crate::game::Game;
use crate::position::Position;

/// The point v, below 1,024, where it is free, else the lowest free point, and 0 where none is
/// free.
pub fn free_or_lowest(g: &Game, p: &Position, v: u16) -> u16
    requires { v < MAX_MEMBERS }
    ensures { result ≡ free_or_lowest g.now p.now v }
{
    if p.is_free(v) {
        return v;
    }
    g.lowest_free(p).unwrap_or(0)
}
