//! What the certificates of positions say.
ghost use Rattle.std.specs.Prelude.{◌≡◌, IfOk, IfSome, true};
ghost use Rattle.pg_backing.specs.Spans.{IsWithin};
ghost use Rattle.pg_base.specs.declared.score.Score.{Score};
ghost use Rattle.pg_cert.specs.Limits.{IsWithinLimits};
ghost use Rattle.pg_game.specs.Game.{start};
ghost use Rattle.pg_game.specs.Value.{reaches, value};
ghost use Rattle.pg_join.specs.Pieces.{AreReached};

use pg_backing::Span;
use pg_base::{Memory, Side};
use pg_cert::{Cert, Claim};
use pg_check::{CheckFault, check, valid_claims_are_forced};
use pg_game::Game;
use std::alloc::Global;

/// Returns what is known of a value with what a claim says of it, if the claim has this turn.
fn with_claim(span: Span, claim: &Claim, turn: Side) -> Span
    ensures { (v : Score) → IsWithin v span
        → (claim.now.turn ≡ turn → reaches claim.now.side claim.now.goal v ≡ true)
        → IsWithin v result }
{
    if claim.turn == turn {
        span.meet(Span::reached(claim.side, claim.goal))
    } else {
        span
    }
}

/// Returns what the claims with this turn say of the value.
fn said_by(claims: &[Claim], turn: Side) -> Span
    ensures { (v : Score) → AreReached claims.now turn v → IsWithin v result }
{
    let mut span = Span::open();
    for claim in claims {
        span = with_claim(span, claim, turn);
    }
    span
}

/// Returns what a certificate says of the value of the game's position, if it is valid for the
/// game.
///
/// # Errors
///
/// `Memory` if memory runs out.
pub(crate) fn said_of(
    alloc: Global,
    game: &Game,
    certificate: &Cert,
) -> Result<Option<Span>, Memory>
    requires { IsWithinLimits certificate.now }
    ensures { IfOk result
        (λ found. IfSome found (IsWithin (value game.now (start game.now)))) }
{
    valid_claims_are_forced();
    match check(alloc, game, certificate) {
        Ok(_) => Ok(Some(said_by(certificate.claims.as_slice(), game.turn))),
        Err(CheckFault::Reject { .. }) => Ok(None),
        Err(CheckFault::Memory) => Err(Memory),
    }
}
