//! Trying each move of a game.
ghost use Rattle.std.specs.Prelude.{◌≡◌, IfOk, false};
ghost use Rattle.pg_moves.specs.Prelude.{Budget, Game, IsBudget, IsPosition, Outcome, is_over};
ghost use Rattle.pg_moves.specs.Prelude.{start};
ghost use Rattle.pg_moves.specs.Trials.{AreTrials, HasRulesOf, IsTriedAt, is_between_turns};

use crate::trial::{Trial, Worth};
use crate::worth::worth_of;
use pg_base::Memory;
use pg_game::{Game, Judge, Position};
use pg_sessions::stand_at;
use pg_settle::{Budget, Finder};
use std::alloc::Global;

/// Returns whether the game is over at a position of it.
fn is_over(alloc: Global, game: &Game, position: &Position) -> Result<bool, Memory>
    requires { IsPosition game.now position.now }
    ensures { IfOk result (λ over. over ≡ is_over game.now position.now) }
{
    let mut judge = Judge::new(alloc, game)?;
    Ok(judge.over(game, position).is_some())
}

/// Returns whether a turn begins at a position of the game, or the game is over there. Only then
/// the game that has the marks of the position has its value.
fn is_between_turns(alloc: Global, game: &Game, position: &Position) -> Result<bool, Memory>
    requires { IsPosition game.now position.now }
    ensures { IfOk result (λ between. between ≡ is_between_turns game.now position.now) }
{
    if position.left == game.bias_of(position.turn) {
        return Ok(true);
    }
    is_over(alloc, game, position)
}

/// Returns what is known of a position of the game. The game then has its marks, unless it is
/// within a turn of several points: nothing is known of such a position, since no game file says
/// it.
fn try_position<S: Finder>(
    alloc: Global,
    game: &mut Game,
    position: &Position,
    budget: Budget,
    finder: &mut S,
) -> Result<Worth, Memory>
    requires budget { IsBudget budget }
    requires position { IsPosition game.old position.now }
    ensures tried { IfOk result
        (IsTriedAt (S.brings finder.old) budget game.old position.now) }
    ensures rules { HasRulesOf game.old game.new }
    ensures same { (other : Game) → (allowed : Budget) → (later : Outcome)
        → S.brings finder.new other allowed later
        → S.brings finder.old other allowed later }
{
    let between = is_between_turns(alloc, game, position)?;
    if !between {
        return Ok(Worth::Unknown { expanded: 0 });
    }
    stand_at(game, position);
    worth_of(alloc, game, budget, finder)
}

/// Tries each point that is free at the position where the game stands. The game then has the marks
/// of the last position that was tried.
fn try_points<S: Finder>(
    alloc: Global,
    game: &mut Game,
    budget: Budget,
    finder: &mut S,
) -> Result<Vec<Trial>, Memory>
    requires budget { IsBudget budget }
    requires going { is_over game.old (start game.old) ≡ false }
    ensures trials { IfOk result
        (λ trials. AreTrials (S.brings finder.old) budget game.old trials.items) }
    ensures same { (other : Game) → (allowed : Budget) → (later : Outcome)
        → S.brings finder.new other allowed later
        → S.brings finder.old other allowed later }
{
    let from = game.start();
    let mut trials = Vec::new(alloc);
    for v in 0..game.points() {
        if from.is_free(v) {
            let next = game.after(&from, v);
            let worth = try_position(alloc, game, &next, budget, finder)?;
            trials.push(Trial { point: v, worth })?;
        }
    }
    Ok(trials)
}

/// Tries each legal move from the game's own position, in ascending order of the points: none if
/// the game is over. The game then has other marks.
///
/// # Errors
///
/// `Memory` if an allocation failed.
pub fn try_moves<S: Finder>(
    alloc: Global,
    game: &mut Game,
    budget: Budget,
    finder: &mut S,
) -> Result<Vec<Trial>, Memory>
    requires { IsBudget budget }
    ensures trials { IfOk result
        (λ trials. AreTrials (S.brings finder.old) budget game.old trials.items) }
    ensures same { (other : Game) → (allowed : Budget) → (later : Outcome)
        → S.brings finder.new other allowed later
        → S.brings finder.old other allowed later }
{
    let over = is_over(alloc, game, &game.start())?;
    if over {
        return Ok(Vec::new(alloc));
    }
    try_points(alloc, game, budget, finder)
}
