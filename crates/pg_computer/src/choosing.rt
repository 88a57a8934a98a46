//! Choosing a point at a position.
ghost use Rattle.std.specs.Prelude.{◌≡◌, IfOk, Some, false};
ghost use Rattle.pg_computer.specs.Prelude.{Budget, Game, IsBudget, IsPosition, Outcome, bias_of};
ghost use Rattle.pg_computer.specs.Prelude.{is_over, lowest_free};
ghost use Rattle.pg_computer.specs.Choices.{Chooses};

use crate::choice::{Choice, choice_by};
use crate::copying::copy_of;
use pg_base::Memory;
use pg_game::{Game, Position};
use pg_moves::try_moves;
use pg_sessions::stand_at;
use pg_settle::{Budget, Finder};
use std::alloc::Global;

/// Returns what the side to move claims at the beginning of its turn: each legal move is tried.
fn choose_by_trials<S: Finder>(
    alloc: Global,
    game: &Game,
    position: &Position,
    lowest: u16,
    budget: Budget,
    finder: &mut S,
) -> Result<Choice, Memory>
    requires budget { IsBudget budget }
    requires position { IsPosition game.now position.now }
    requires going { is_over game.now position.now ≡ false }
    requires begins { position.now.left ≡ bias_of game.now position.now.turn }
    requires lowest { lowest_free game.now position.now ≡ Some lowest }
    ensures chosen { IfOk result (Chooses (S.brings finder.old) budget game.now position.now) }
    ensures same { (other : Game) → (allowed : Budget) → (later : Outcome)
        → S.brings finder.new other allowed later
        → S.brings finder.old other allowed later }
{
    let mut here = copy_of(alloc, game)?;
    stand_at(&mut here, position);
    let trials = try_moves(alloc, &mut here, budget, finder)?;
    Ok(choice_by(position.turn, &trials, lowest))
}

/// Returns what the side to move claims at a position of the game. In the middle of a turn of
/// several points it is the lowest free point, since no game file says such a position.
///
/// # Errors
///
/// `Memory` if an allocation failed.
pub(crate) fn choose<S: Finder>(
    alloc: Global,
    game: &Game,
    position: &Position,
    budget: Budget,
    finder: &mut S,
) -> Result<Choice, Memory>
    requires budget { IsBudget budget }
    requires position { IsPosition game.now position.now }
    requires going { is_over game.now position.now ≡ false }
    ensures chosen { IfOk result (Chooses (S.brings finder.old) budget game.now position.now) }
    ensures same { (other : Game) → (allowed : Budget) → (later : Outcome)
        → S.brings finder.new other allowed later
        → S.brings finder.old other allowed later }
{
    let Some(lowest) = game.lowest_free(position) else {
        unreachable!()
    };
    if position.left == game.bias_of(position.turn) {
        return choose_by_trials(alloc, game, position, lowest, budget, finder);
    }
    Ok(Choice {
        point: lowest,
        proved: false,
    })
}
