//! Deciding a game at its position.
ghost use Rattle.std.specs.Prelude.{◌≡◌, ◌≢◌, ◌≤◌, IfOk, IfSome, None, Ok, false};
ghost use Rattle.pg_sessions.specs.Prelude.{Switching, IsWithinLimits, IsValid, is_switching};
ghost use Rattle.pg_sessions.specs.Prelude.{start, MAX_POSITIONS, budget, IsLeft, IsLeftOpen};
ghost use Rattle.pg_sessions.specs.Prelude.{MIN_POSITIONS};
ghost use Rattle.pg_sessions.specs.Known.{IsKnown, IsSolvedBy};

use crate::known::{Known, known_by};
use pg_base::Memory;
use pg_cert::Cert;
use pg_check::{CheckFault, check};
use pg_game::{Game, MAX_POSITIONS};
use pg_pns::Work;
use pg_solve::{MIN_POSITIONS, solve};
use std::alloc::Global;

/// Checks a certificate that solving has found: it is accepted.
fn confirm(alloc: Global, game: &Game, certificate: &Cert) -> Result<(), Memory>
    requires limits { IsWithinLimits certificate.now }
    requires valid { IsValid game.now certificate.now }
{
    match check(alloc, game, certificate) {
        Ok(_) => Ok(()),
        Err(CheckFault::Reject { .. }) => unreachable!(),
        Err(CheckFault::Memory) => Err(Memory),
    }
}

/// The value of the game's position, as `solve` finds it, with the claims that show it, which are
/// checked. None only where the question that was asked last of a game on lines stays open after as
/// many positions as are allowed.
///
/// # Errors
///
/// `Memory` where no memory is found.
pub fn decide(
    alloc: Global,
    game: &Game,
    positions: u32,
    work: &mut Work,
) -> Result<Option<Known>, Memory>
    requires some { MIN_POSITIONS ≤ positions }
    requires most { positions ≤ MAX_POSITIONS }
    ensures known { IfOk result (λ found. IfSome found (IsKnown game.now (start game.now))) }
    ensures solved { IfOk result (λ found. IfSome found (λ known.
        IsSolvedBy game.now positions known.certificate)) }
    ensures lines { result ≡ Ok None → is_switching game.now.kind ≡ false }
    ensures unknown { result ≡ Ok None → IsLeftOpen game.now (budget game.now positions) work.new }
    ensures work { game.now.kind ≢ Switching
        → IsLeft game.now (budget game.now positions) work.new }
    ensures untouched { game.now.kind ≡ Switching → work.new ≡ work.old }
{
    let solution = solve(alloc, game, positions, work)?;
    let Some(known) = known_by(solution, game.turn) else {
        return Ok(None);
    };
    confirm(alloc, game, &known.certificate)?;
    Ok(Some(known))
}
