//! Checking a certificate.
ghost use Rattle.std.specs.Prelude.{◌≡◌, ℕ, IfOk, slice_get, Some};
ghost use Rattle.pg_check.specs.Prelude.{with_turn, Forces, Game, IsValid, IsFirstFault};
ghost use Rattle.pg_check.specs.Prelude.{IsWithinLimits, Cert, Claim};
ghost use Rattle.pg_check.specs.Checking.{IsVerdict};

use crate::checking::{Checking, Rejected};
use crate::feeding::feed_claims;
use pg_base::Memory;
use pg_cert::Cert;
use pg_game::Game;
use std::alloc::Global;

/// A game and a certificate that is valid for it. It can be had from `check` alone.
#[derive(Clone, Copy, Debug)]
pub struct Checked<'a> {
    /// The game.
    pub game: &'a Game,
    /// The certificate.
    pub cert: &'a Cert,
    sealed: (),
    ghost limits: { ∥ IsWithinLimits cert.now ∥₁ },
    ghost valid: { ∥ IsValid game.now cert.now ∥₁ },
}

/// Why a certificate isn't accepted.
#[derive(Clone, Copy, Debug, PartialEq, Eq)]
pub enum CheckFault {
    /// A node is faulty.
    Reject {
        /// The first faulty claim, counted from 0.
        claim: u32,
        /// The first faulty node of that claim, counted from 0.
        node: u32,
        /// The least number of the node's faults: 1 to 13.
        why: u8,
    },
    /// No memory is left.
    Memory,
}

/// The verdict on a certificate, by a checking that is fed its parts.
fn verdict(alloc: Global, g: &Game, c: &Cert) -> Result<Result<(), Rejected>, Memory>
    requires { IsWithinLimits c.now }
    ensures { IfOk result (λ found. IsVerdict found g.now c.now) }
{
    let mut checking = Checking::begin(alloc, g)?;
    feed_claims(&mut checking, alloc, c.claims.as_slice())?;
    Ok(checking.finish())
}

/// Checks a certificate against a game, node by node: each is tried by all tests of the table, and
/// the first that fails is named. A certificate is accepted exactly where it is valid; then each
/// claim is forced by its side.
pub fn check<'a>(alloc: Global, g: &'a Game, c: &'a Cert) -> Result<Checked<'a>, CheckFault>
    requires { IsWithinLimits c.now }
    ensures game { IfOk result (λ checked. checked.game.now ≡ g.now) }
    ensures cert { IfOk result (λ checked. checked.cert.now ≡ c.now) }
    ensures valid { IfOk result (λ _. IsValid g.now c.now) }
    ensures reject { (claim : ℕ) → (node : ℕ) → (why : ℕ)
        → result ≡ Err (CheckFault.Reject claim node why)
        → IsFirstFault g.now c.now claim node why }
{
    let Ok(found) = verdict(alloc, g, c) else {
        return Err(CheckFault::Memory);
    };
    match found {
        Ok(()) => Ok(Checked {
            game: g,
            cert: c,
            sealed: (),
        }),
        Err(rejected) => Err(CheckFault::Reject {
            claim: rejected.claim,
            node: rejected.node,
            why: rejected.why,
        }),
    }
}

/// A valid certificate has no first fault, and any other has one at most: so nothing but want of
/// memory is left open in what `check` answers.
pub fn faults_are_told()
    ensures none { (g : Game) → (c : Cert) → IsValid g c
        → (claim : ℕ) → (node : ℕ) → (why : ℕ) → IsFirstFault g c claim node why
        → ⊥ }
    ensures one { (g : Game) → (c : Cert) → (i : ℕ) → (k : ℕ) → (w : ℕ) → (claim : ℕ) → (node : ℕ)
        → (why : ℕ) → IsFirstFault g c i k w
        → IsFirstFault g c claim node why
        → (i ≡ claim) × (k ≡ node) × (w ≡ why) }
{}

/// Every claim of a valid certificate is forced: its side forces its goal from the game's marks
/// with the claim's turn.
pub fn valid_claims_are_forced()
    ensures { (g : Game) → (c : Cert) → IsWithinLimits c
        → IsValid g c
        → (i : ℕ) → (claim : Claim) → slice_get c.claims i ≡ Some claim
        → Forces g (with_turn g claim.turn) claim.side claim.goal }
{}
