//! Trying and printing the moves of a game that was read.
ghost use Rattle.std.specs.Prelude.{◌≡◌, IfErr, IfOk, string_bytes};
ghost use Rattle.pg_moves.specs.Prelude.{HaltCauses, IsBudget, IsSettleEnd, IsWriteHalt};
ghost use Rattle.pg_moves.specs.Prelude.{MuteAtMemory, Performs, json_name};
ghost use Rattle.pg_moves.specs.Best.{list_of};
ghost use Rattle.pg_moves.specs.Lines.{moves_text};
ghost use Rattle.pg_moves.specs.MoveRuns.{TellsMoves};

use crate::best::best_moves;
use crate::json_line::moves_line;
use crate::lines::moves_lines;
use crate::order::MovesOrder;
use crate::trial::Trial;
use crate::trying::try_moves;
use pg_base::{Kind, Memory, Side};
use pg_game::Game;
use pg_io::Console;
use pg_messages::{DONE, UNKNOWN};
use pg_settle::Finder;
use pg_talk::{Halt, say_text};
use std::alloc::Global;

/// Returns what is printed of the moves.
fn moves_text(
    alloc: Global,
    order: MovesOrder<'_>,
    kind: Kind,
    turn: Side,
    trials: &[Trial],
    best: &Option<Vec<u16>>,
) -> Result<String, Memory>
    ensures { IfOk result (λ text. string_bytes text
        ≡ moves_text (json_name order.entry.json order.entry.game.now)
        kind turn trials.now (list_of best.now)) }
{
    if order.json {
        return moves_line(alloc, order.game, kind, turn, trials, best);
    }
    moves_lines(alloc, kind, trials, best)
}

/// Tries the moves of a game, and prints them.
pub(crate) fn tell_moves<C: Console, S: Finder>(
    alloc: Global,
    game: &mut Game,
    order: MovesOrder<'_>,
    finder: &mut S,
    console: &mut C,
) -> Result<u8, Halt>
    requires { IsBudget order.budget }
    ensures told { Performs (λ _. ⊥) (TellsMoves (S.brings finder.old) order.entry.budget
        (json_name order.entry.json order.entry.game.now) game.old)
        (C.told console.old) (C.told console.new) result }
    ensures causes { HaltCauses ⊥ (C.told console.old).faults (C.told console.new).faults result }
    ensures quiet { MuteAtMemory (C.told console.old) (C.told console.new) result }
    ensures done { IfOk result IsSettleEnd }
    ensures halts { IfErr result IsWriteHalt }
{
    let (kind, turn) = (game.kind, game.turn);
    let trials = try_moves(alloc, game, order.budget, finder)?;
    let best = best_moves(alloc, turn, &trials)?;
    let text = moves_text(alloc, order, kind, turn, &trials, &best)?;
    say_text(console, text.as_str())?;
    match best {
        Some(_) => Ok(DONE),
        None => Ok(UNKNOWN),
    }
}
