//! A move played in a game whose value is known.
ghost use Rattle.std.specs.Prelude.{◌≡◌, ◌<◌, ◌≤◌, Ok, true, false};
ghost use Rattle.pg_sessions.specs.Prelude.{is_switching, after, point_count, start, IsPosition};
ghost use Rattle.pg_sessions.specs.Prelude.{is_free, MAX_POSITIONS, budget, IsLeftOpen};
ghost use Rattle.pg_sessions.specs.Prelude.{LeavesSearch, MIN_POSITIONS};
ghost use Rattle.pg_sessions.specs.Known.{HaveNodes, IsKnown, IsKnownThere};
ghost use Rattle.pg_sessions.specs.Review.{IsGameAt};

use crate::deciding::decide;
use crate::known::Known;
use pg_base::Memory;
use pg_game::{Game, Position};
use pg_pns::Work;
use std::alloc::Global;

/// Sets the marks and the turn of the game to those of the position. What is left of a turn isn't
/// kept: the game begins with a whole turn.
pub fn stand_at(game: &mut Game, position: &Position)
    requires { IsPosition game.old position.now }
    ensures { IsGameAt game.old position.now game.new }
{
    game.x = position.x;
    game.y = position.y;
    game.turn = position.turn;
}

/// Plays a point in a game in which each side claims one a turn, and decides the position after it,
/// where what is known doesn't tell its value. False where that position stays open.
///
/// # Errors
///
/// `Memory` where no memory is found. The point is played then too.
pub(crate) fn play(
    alloc: Global,
    game: &mut Game,
    known: &mut Known,
    point: u16,
    positions: u32,
    work: &mut Work,
) -> Result<bool, Memory>
    requires some { MIN_POSITIONS ≤ positions }
    requires most { positions ≤ MAX_POSITIONS }
    requires single { game.old.bias ≡ 1 }
    requires within { point < point_count game.old }
    requires free { is_free (start game.old) point ≡ true }
    requires known { IsKnown game.old (start game.old) known.old }
    ensures played { IsGameAt game.old (after game.old (start game.old) point) game.new }
    ensures known { result ≡ Ok true → IsKnown game.new (start game.new) known.new }
    ensures found { result ≡ Ok true → IsKnownThere game.new positions
        (after game.old (start game.old) point) known.old known.new }
    ensures untold { result ≡ Ok false →
        HaveNodes (after game.old (start game.old) point) known.old.certificate → ⊥ }
    ensures lines { result ≡ Ok false → is_switching game.new.kind ≡ false }
    ensures unknown { result ≡ Ok false → IsLeftOpen game.new (budget game.new positions) work.new }
    ensures work { LeavesSearch (λ here. here ≡ game.new) positions work.old work.new }
{
    let next = game.after(&game.start(), point);
    stand_at(game, &next);
    if known.holds_at(&next) {
        return Ok(true);
    }
    let Some(found) = decide(alloc, game, positions, work)? else {
        return Ok(false);
    };
    *known = found;
    Ok(true)
}
