//! What finds certificates.
ghost use Rattle.std.specs.Prelude.{◌≤◌, IfOk, ⊤};
ghost use Rattle.pg_settle.specs.Prelude.{Game};
ghost use Rattle.pg_settle.specs.Budgets.{IsBudget};
ghost use Rattle.pg_settle.specs.Findings.{IsWritable};
ghost use Rattle.pg_settle.specs.declared.budget.Budget.{Budget};
ghost use Rattle.pg_settle.specs.declared.finding.Outcome.{Outcome};

use crate::budget::Budget;
use crate::finding::Outcome;
use pg_base::Memory;
use pg_game::Game;
use std::alloc::Global;

/// What finds a certificate for the value of a game on lines. It isn't trusted: a certificate that
/// it brings may be faulty, or show something else.
pub trait Finder {
    /// What it may bring of a game with a budget; anything, unless an implementation says more.
    ghost brings: { Self → Game → Budget → Outcome → Type 0 } = { λ _ _ _ _. ⊤ };

    /// Looks for a certificate of a game on lines. One that comes is within the limits of the
    /// format, so that it can be stored, and no more positions are expanded than may be. Whatever
    /// it may bring later, it might have brought now.
    ///
    /// # Errors
    ///
    /// `Memory` where no memory is found.
    fn find(&mut self, alloc: Global, game: &Game, budget: Budget) -> Result<Outcome, Memory>
        requires { IsBudget budget }
        ensures brought { IfOk result (brings self.old game.now budget) }
        ensures writable { IfOk result (λ outcome. IsWritable outcome.finding) }
        ensures few { IfOk result (λ outcome. outcome.expanded ≤ budget.positions) }
        ensures same { (other : Game) → (allowed : Budget) → (later : Outcome)
            → brings self.new other allowed later
            → brings self.old other allowed later };
}
