//! The judge of what a finder brings.
ghost use Rattle.std.specs.Prelude.{◌≡◌, ◌↔◌, [], ◌∷◌, map, IfOk, IsTrue};
ghost use Rattle.pg_settle.specs.Prelude.{IsWithinLimits, X, Y, draws, due_for_value, heading};
ghost use Rattle.pg_settle.specs.Prelude.{wins};
ghost use Rattle.pg_settle.specs.Findings.{HasHeading, IsJudged, IsShowing, IsWritable};
ghost use Rattle.pg_settle.specs.Findings.{ShowsScore};

use crate::finding::Finding;
use pg_base::{Goal, Memory, Score, Side};
use pg_cert::{Cert, Claim};
use pg_check::{CheckFault, check, faults_are_told};
use pg_game::Game;
use std::alloc::Global;

/// Whether the claim says that with this turn the side reaches the goal.
fn has_heading(claim: &Claim, turn: Side, side: Side, goal: Goal) -> bool
    ensures { IsTrue result ↔ HasHeading turn side goal claim.now }
{
    claim.turn == turn && claim.side == side && claim.goal == goal
}

/// Whether there is one claim, that with this turn the side wins.
fn is_win(claims: &[Claim], turn: Side, side: Side) -> bool
    ensures { IsTrue result ↔ (map heading claims.now ≡ wins turn side ∷ []) }
{
    if claims.len() != 1 {
        return false;
    }
    has_heading(&claims[0], turn, side, Goal::Win)
}

/// Whether there are two claims, that with this turn Y, and then that X, gets at least a draw.
fn is_draw(claims: &[Claim], turn: Side) -> bool
    ensures { IsTrue result ↔ (map heading claims.now ≡ draws turn Y ∷ draws turn X ∷ []) }
{
    if claims.len() != 2 {
        return false;
    }
    has_heading(&claims[0], turn, Side::Y, Goal::Draw)
        && has_heading(&claims[1], turn, Side::X, Goal::Draw)
}

/// Whether the claims are those that are due for the score, by turn, side and goal.
fn are_due(claims: &[Claim], turn: Side, score: Score) -> bool
    ensures { IsTrue result ↔ (map heading claims.now ≡ due_for_value turn score) }
{
    match score {
        Score::XWins => is_win(claims, turn, Side::X),
        Score::YWins => is_win(claims, turn, Side::Y),
        Score::Draw => is_draw(claims, turn),
    }
}

/// Whether the certificate shows the score: it is valid for the game, and its claims are those that
/// are due for the score. Then the score is the value of the game's position.
///
/// # Errors
///
/// `Memory` where no memory is found.
pub fn shows(alloc: Global, game: &Game, score: Score, certificate: &Cert) -> Result<bool, Memory>
    requires { IsWithinLimits certificate.now }
    ensures { IfOk result
        (λ shown. IsTrue shown ↔ ShowsScore game.now score certificate.now) }
{
    faults_are_told();
    if !are_due(certificate.claims.as_slice(), game.turn, score) {
        return Ok(false);
    }
    match check(alloc, game, certificate) {
        Ok(_) => Ok(true),
        Err(CheckFault::Reject { .. }) => Ok(false),
        Err(CheckFault::Memory) => Err(Memory),
    }
}

/// Whether a certificate was found that shows its score.
fn is_showing(alloc: Global, game: &Game, finding: &Finding) -> Result<bool, Memory>
    requires { IsWritable finding.now }
    ensures { IfOk result (λ shown. IsTrue shown ↔ IsShowing game.now finding.now) }
{
    match finding {
        Finding::Certificate { score, certificate } => shows(alloc, game, *score, certificate),
        Finding::Open => Ok(false),
    }
}

/// What was found, where it is a certificate that shows its score, and else nothing.
pub(crate) fn judged(alloc: Global, game: &Game, finding: Finding) -> Result<Finding, Memory>
    requires { IsWritable finding }
    ensures { IfOk result (IsJudged game.now finding) }
{
    let shown = is_showing(alloc, game, &finding)?;
    if shown {
        Ok(finding)
    } else {
        Ok(Finding::Open)
    }
}
