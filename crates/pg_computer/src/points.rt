//! The points that stand in a session from which none was taken back.
ghost use Rattle.std.specs.Prelude.{◌≡◌, ◌≤◌, IfOk, length, take};
ghost use Rattle.pg_computer.specs.Points.{ArePoints, IsLast};
ghost use Rattle.pg_computer.specs.Prelude.{is_same_side};

use pg_base::{Memory, Side};
use pg_game::Game;
use pg_record::Session;
use std::alloc::Global;

/// Returns whether a side is this one.
pub(crate) fn is_side(side: Side, other: Side) -> bool
    ensures { result ≡ is_same_side side other }
{
    side == other
}

/// Returns the number of the last point that the person has claimed, where the program plays the
/// side.
pub(crate) fn last_reply(game: &Game, side: Side, session: &Session<'_>) -> Option<u32>
    requires game { game.now ≡ session.now.game }
    requires points { ArePoints session.now.game session.now.events }
    ensures { IsLast side session.now.game session.now.events result }
{
    let mut last = None;
    let mut position = game.start();
    for i in 0..session.standing() {
        if !is_side(position.turn, side) {
            last = Some(i);
        }
        position = game.after(&position, session.move_at(i));
    }
    last
}

/// Returns a session of the first `count` points of another.
pub(crate) fn first_points<'a>(
    alloc: Global,
    game: &'a Game,
    session: &Session<'_>,
    count: u32,
) -> Result<Session<'a>, Memory>
    requires game { game.now ≡ session.now.game }
    requires points { ArePoints session.now.game session.now.events }
    requires count { count ≤ length session.now.events }
    ensures { IfOk result (λ first. first
        ≡ record { game = game.now; events = take count session.now.events }) }
{
    let mut first = Session::open(alloc, game)?;
    for i in 0..count {
        let Ok(()) = first.play(session.move_at(i)) else {
            unreachable!()
        };
    }
    Ok(first)
}
