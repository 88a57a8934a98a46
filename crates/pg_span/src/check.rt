//! Checking certificates of connectivity games.
ghost use Rattle.std.specs.Prelude.{◌≡◌, ◌<◌, ◌≤◌, ◌^◌, ℕ, IfNone, IfOk, IfSome, length, Err};
ghost use Rattle.pg_span.specs.declared.flaw.SpanFlaw.{SpanFlaw};
ghost use Rattle.pg_span.specs.Game.{marks_at};
ghost use Rattle.pg_span.specs.Judge.{IsJudgeOf};
ghost use Rattle.pg_span.specs.Valid.{HasFlaw, IsFirstFlaw, IsSpanClaimValid, IsSpanValid};

use crate::cert::{SpanBody, SpanCert, SpanClaim};
use crate::condition::{parts_hold, trees_hold};
use crate::flaw::SpanFlaw;
use crate::game::SpanGame;
use crate::judge::SpanJudge;
use pg_base::Side;
use std::alloc::Global;

/// A connectivity game and a certificate that is valid for it. It can be had from `span_check`
/// alone.
#[derive(Clone, Copy, Debug)]
pub struct SpanChecked<'a> {
    /// The game.
    pub game: &'a SpanGame,
    /// The certificate.
    pub cert: &'a SpanCert,
    sealed: (),
    ghost valid: { ∥ IsSpanValid game.now cert.now ∥₁ },
}

/// Why a certificate isn't accepted.
#[derive(Clone, Copy, Debug, PartialEq, Eq)]
pub enum SpanFault {
    /// A claim isn't valid.
    Reject {
        /// The first such claim, counted from 0.
        claim: u32,
        /// Why it isn't.
        why: SpanFlaw,
    },
    /// No memory is left.
    Memory,
}

/// Why the claim isn't valid, and None where it is.
fn flaw_of(judge: &mut SpanJudge, g: &SpanGame, claim: &SpanClaim) -> Option<SpanFlaw>
    requires { IsJudgeOf judge.old g.now }
    ensures flaw { IfSome result
        (HasFlaw g.now (marks_at g.now claim.now.turn) claim.now.side claim.now.body) }
    ensures valid { IfNone result (IsSpanClaimValid g.now claim.now) }
    ensures kept { judge.new ≡ judge.old }
{
    match (&claim.body, claim.side) {
        (SpanBody::Trees { .. }, Side::Y) | (SpanBody::Parts(_), Side::X) => Some(SpanFlaw::Side),
        (SpanBody::Trees { first, a1, a2 }, Side::X) => {
            if trees_hold(judge, g, claim.turn, *first, a1, a2) {
                return None;
            }
            Some(SpanFlaw::Trees)
        }
        (SpanBody::Parts(numbers), Side::Y) => {
            if parts_hold(g, claim.turn, numbers.as_slice()) {
                return None;
            }
            Some(SpanFlaw::Parts)
        }
    }
}

/// Accepts a certificate in which every claim is valid for the game.
///
/// # Errors
///
/// `Reject` exactly where some claim isn't valid, with the first such claim and its flaw: its body
/// is the other side's, or else its condition doesn't hold. `Memory` says that there is no room to
/// check them.
pub fn span_check<'a>(
    alloc: Global,
    g: &'a SpanGame,
    c: &'a SpanCert,
) -> Result<SpanChecked<'a>, SpanFault>
    requires { length c.now.claims ≤ 2 ^ 32 }
    ensures game { IfOk result (λ checked. checked.game.now ≡ g.now) }
    ensures cert { IfOk result (λ checked. checked.cert.now ≡ c.now) }
    ensures valid { IfOk result (λ _. IsSpanValid g.now c.now) }
    ensures reject { (claim : ℕ) → (why : SpanFlaw) → result ≡ Err (SpanFault.Reject claim why)
        → IsFirstFlaw g.now c.now claim why }
{
    let Ok(mut judge) = SpanJudge::new(alloc, g) else {
        return Err(SpanFault::Memory);
    };
    let claims = c.claims.as_slice();
    for k in 0..claims.len() {
        if let Some(why) = flaw_of(&mut judge, g, &claims[k]) {
            let claim = k as u32;
            return Err(SpanFault::Reject { claim, why });
        }
    }
    Ok(SpanChecked {
        game: g,
        cert: c,
        sealed: (),
    })
}
