//! The answer by the potential.
ghost use Rattle.std.specs.Prelude.{◌≡◌, ◌≢◌, false};
ghost use Rattle.pg_potential.specs.Prelude.{MakerBreaker, MakerMaker, Switching, Y, Contains};
ghost use Rattle.pg_potential.specs.Prelude.{free_points, is_full, after, IsPosition};
ghost use Rattle.pg_potential.specs.Prelude.{PotentialHolds, potential_answer};

use crate::condition::{greatest_free, weights_for};
use pg_base::Side;
use pg_game::{Game, Position, lowest_with};

/// The answer by the potential: the lowest free point of greatest weight.
///
/// Where the potential holds with the side to move, it holds after the answer, which may still be
/// within the side's turn. The game is one on lines, and some point is free. The time is linear in
/// the points of all lines; it takes no memory.
pub fn answer(g: &Game, p: &Position, side: Side) -> u16
    requires lines { g.now.kind ≢ Switching }
    requires position { IsPosition g.now p.now }
    requires some_free { is_full g.now p.now ≡ false }
    ensures rule { result ≡ potential_answer g.now p.now side }
    ensures free { Contains (free_points g.now p.now) result }
    ensures keeps_breaker { g.now.kind ≡ MakerBreaker
        → side ≡ Y
        → p.now.turn ≡ side
        → PotentialHolds g.now p.now side
        → PotentialHolds g.now (after g.now p.now result) side }
    ensures keeps_draw { g.now.kind ≡ MakerMaker
        → p.now.turn ≡ side
        → PotentialHolds g.now p.now side
        → PotentialHolds g.now (after g.now p.now result) side }
{
    let weights = weights_for(g, p, side);
    let greatest = greatest_free(g, p, &weights.points);
    lowest_with(g, p, &weights.points, greatest)
}
