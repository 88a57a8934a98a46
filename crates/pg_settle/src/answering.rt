//! What is found of a game on lines, once it is judged.
ghost use Rattle.std.specs.Prelude.{IfOk};
ghost use Rattle.pg_settle.specs.Budgets.{IsBudget};
ghost use Rattle.pg_settle.specs.Findings.{IsAnswer};
ghost use Rattle.pg_settle.specs.Prelude.{Game};
ghost use Rattle.pg_settle.specs.declared.budget.Budget.{Budget};
ghost use Rattle.pg_settle.specs.declared.finding.Outcome.{Outcome};

use crate::budget::Budget;
use crate::finder::Finder;
use crate::finding::Outcome;
use crate::judging::judged;
use pg_base::Memory;
use pg_game::Game;
use std::alloc::Global;

/// Asks the finder, and returns what it brings of the game, without its certificate if that doesn't
/// show its score.
///
/// # Errors
///
/// `Memory` if an allocation failed.
pub fn answer<S: Finder>(
    alloc: Global,
    game: &Game,
    budget: Budget,
    finder: &mut S,
) -> Result<Outcome, Memory>
    requires { IsBudget budget }
    ensures answered { IfOk result (IsAnswer (S.brings finder.old) game.now budget) }
    ensures same { (other : Game) → (allowed : Budget) → (later : Outcome)
        → S.brings finder.new other allowed later
        → S.brings finder.old other allowed later }
{
    let brought = finder.find(alloc, game, budget)?;
    let expanded = brought.expanded;
    let finding = judged(alloc, game, brought.finding)?;
    Ok(Outcome { finding, expanded })
}
