//! Which moves lost value.
ghost use Rattle.std.specs.Prelude.{◌≡◌};
ghost use Rattle.pg_sessions.specs.Losses.{is_worse};

use pg_base::{Score, Side};
use pg_game::at_least;

/// Whether a score is worse for the side than one before: less for X, greater for Y.
pub fn is_worse(side: Side, before: Score, now: Score) -> bool
    ensures { result ≡ is_worse side before now }
{
    match side {
        Side::X => !at_least(before, now),
        Side::Y => !at_least(now, before),
    }
}
