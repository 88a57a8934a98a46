//! Solving a game.
ghost use Rattle.std.specs.Prelude.{◌≡◌, ◌≢◌, ◌≤◌, map, IfOk, IfSome, Ok};
ghost use Rattle.pg_solve.specs.Prelude.{Switching, IsWithinLimits, IsValid, One, is_switching};
ghost use Rattle.pg_solve.specs.Due.{heading};
ghost use Rattle.pg_solve.specs.Left.{budget, IsLeft, IsLeftOpen, IsAskedLast};
ghost use Rattle.pg_solve.specs.Solved.{certificate_of, due, is_class, IsTrueOf, IsShown};

use crate::classes::classified;
use crate::questions::ask_first;
use crate::solution::Solution;
use pg_base::{Kind, Memory};
use pg_game::{Game, MAX_POSITIONS};
use pg_pns::{Work, budget_of};
use std::alloc::Global;

/// The least number of positions that may be asked for.
pub const MIN_POSITIONS: u32 = 1;

/// Decides the game, with the certificate that shows it, which is of version 1.
///
/// Of a switching game it is the class, by two spanning forests; `positions` and `work` play no
/// part. Of a game on lines it is the value, by one question, or in Maker-Maker by two: whether X
/// wins, and where X doesn't, whether X at least draws. Each is answered by a best-first search
/// that may expand `positions` positions, and fewer where so many points are free that a claim
/// could grow beyond the format's limits. `work` holds the question asked last and the positions
/// expanded for it, at every answer.
///
/// # Errors
///
/// `Memory` where no memory is found.
pub fn solve(
    alloc: Global,
    game: &Game,
    positions: u32,
    work: &mut Work,
) -> Result<Solution, Memory>
    requires some { MIN_POSITIONS ≤ positions }
    requires most { positions ≤ MAX_POSITIONS }
    ensures kind { IfOk result (λ solution. is_class solution ≡ is_switching game.now.kind) }
    ensures answer { IfOk result (IsTrueOf game.now) }
    ensures claims { IfOk result (λ solution. IfSome (certificate_of solution)
        (λ c. map heading c.claims ≡ due game.now.turn solution)) }
    ensures valid { IfOk result (λ solution. IfSome (certificate_of solution) (IsValid game.now)) }
    ensures limits { IfOk result (λ solution. IfSome (certificate_of solution) IsWithinLimits) }
    ensures version { IfOk result
        (λ solution. IfSome (certificate_of solution) (λ c. c.version ≡ One)) }
    ensures shown { IfOk result (IsShown game.now (budget game.now positions) work.new.positions) }
    ensures last { IfOk result (IsAskedLast game.now.kind work.new.question) }
    ensures unknown { result ≡ Ok Solution.Unknown
        → IsLeftOpen game.now (budget game.now positions) work.new }
    ensures work { game.now.kind ≢ Switching
        → IsLeft game.now (budget game.now positions) work.new }
    ensures untouched { game.now.kind ≡ Switching → work.new ≡ work.old }
{
    match game.kind {
        Kind::Switching => classified(alloc, game),
        _ => ask_first(alloc, game, budget_of(game, positions), work),
    }
}
