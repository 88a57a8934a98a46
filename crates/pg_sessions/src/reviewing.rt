//! Reviewing moves of a game, one after the other.
ghost use Rattle.std.specs.Prelude.{◌≡◌, ◌≤◌, IfErr, IfOk, length};
ghost use Rattle.pg_sessions.specs.Prelude.{start, IsLegalPlay, MAX_POSITIONS, Causes, MAX_EVENTS};
ghost use Rattle.pg_sessions.specs.Prelude.{MIN_POSITIONS, Performs, HaltCauses, IsWriteHalt};
ghost use Rattle.pg_sessions.specs.Prelude.{LeavesSearch};
ghost use Rattle.pg_sessions.specs.Along.{IsAlong, IsReached};
ghost use Rattle.pg_sessions.specs.Review.{IsReviewEnd, ReviewsMoves};
ghost use Rattle.pg_sessions.specs.Saying.{SaysAtOnce, move_texts};

use crate::deciding::decide;
use crate::losses::is_worse;
use crate::playing::play;
use pg_base::{Kind, Score, Side};
use pg_game::Game;
use pg_io::{Console, Stop};
use pg_messages::{DONE, Message, UNKNOWN};
use pg_pns::{Work, budget_of};
use pg_talk::{Halt, say};
use std::alloc::Global;

/// Says that the move of this number lost value, where it did, by the values before and after it.
fn say_loss<C: Console>(
    console: &mut C,
    kind: Kind,
    mover: Side,
    number: u32,
    point: u16,
    before: Score,
    after: Score,
) -> Result<(), Stop>
    ensures said { SaysAtOnce (move_texts kind mover number point before after)
        (C.told console.old).log (C.told console.new).log result }
    ensures causes { Causes ⊥ (C.told console.old).faults (C.told console.new).faults result }
    ensures left { (C.told console.new).left ≡ (C.told console.old).left }
    ensures write { IfErr result (λ stop. stop ≡ Stop.Write) }
{
    if !is_worse(mover, before, after) {
        return Ok(());
    }
    let lost = Message::Lost {
        number,
        point,
        kind,
        before,
        after,
    };
    say(console, lost)
}

/// Decides the game's position and those after each of the moves, and says which moves lost value,
/// each as soon as the position after it is decided; then how many moves there are. The first
/// position that stays open ends that.
pub(crate) fn review_moves<C: Console>(
    alloc: Global,
    game: &mut Game,
    moves: &[u16],
    positions: u32,
    console: &mut C,
    work: &mut Work,
) -> Result<u8, Halt>
    requires some { MIN_POSITIONS ≤ positions }
    requires most { positions ≤ MAX_POSITIONS }
    requires single { game.old.bias ≡ 1 }
    requires legal { IsLegalPlay game.old (start game.old) moves.now }
    requires few { length moves.now ≤ MAX_EVENTS }
    ensures reviewed { Performs (λ _. ⊥) (ReviewsMoves game.old moves.now positions work.new)
        (C.told console.old) (C.told console.new) result }
    ensures causes { HaltCauses ⊥ (C.told console.old).faults (C.told console.new).faults result }
    ensures work { LeavesSearch (IsAlong game.old moves.now) positions work.old work.new }
    ensures prompt { LeavesSearch
        (IsReached (C.told console.old) (C.told console.new) game.old moves.now)
        positions work.old work.new }
    ensures done { IfOk result IsReviewEnd }
    ensures halts { IfErr result IsWriteHalt }
{
    let Some(mut known) = decide(alloc, game, positions, work)? else {
        let positions = budget_of(game, positions);
        say(
            console,
            Message::UnknownAt {
                moves: 0,
                positions,
            },
        )?;
        return Ok(UNKNOWN);
    };
    let mut number = 0;
    for point in moves {
        let (mover, before) = (game.turn, known.score);
        let decided = play(alloc, game, &mut known, *point, positions, work)?;
        if !decided {
            let moves = number + 1;
            let positions = budget_of(game, positions);
            say(console, Message::UnknownAt { moves, positions })?;
            return Ok(UNKNOWN);
        }
        say_loss(
            console,
            game.kind,
            mover,
            number,
            *point,
            before,
            known.score,
        )?;
        number += 1;
    }
    say(console, Message::Reviewed(number))?;
    Ok(DONE)
}
