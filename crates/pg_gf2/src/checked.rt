//! Checking a certificate.
ghost use Rattle.std.specs.Prelude.{◌≡◌, ℕ, IfOk, Err};
ghost use Rattle.pg_cert.specs.Limits.{IsWithinLimits};
ghost use Rattle.pg_gf2.specs.Check.{IsVecValid, IsFirstVecFault, IsVerdict};
ghost use Rattle.pg_gf2.specs.declared.flaw.VecFlaw.{VecFlaw};

use crate::flaw::{VecFault, VecFlaw};
use crate::game::VecGame;
use crate::ground::with_target;
use crate::node::claim_flaw;
use pg_base::Memory;
use pg_cert::Cert;
use std::alloc::Global;

/// A game on vectors and a certificate that is valid for it. It can be had from `vec_check` alone.
#[derive(Clone, Copy, Debug)]
pub struct VecChecked<'a> {
    /// The game.
    pub game: &'a VecGame,
    /// The certificate.
    pub cert: &'a Cert,
    sealed: (),
    ghost limits: { ∥ IsWithinLimits cert.now ∥₁ },
    ghost valid: { ∥ IsVecValid game.now cert.now ∥₁ },
}

/// A faulty claim.
#[derive(Clone, Copy)]
pub(crate) struct Faulty {
    /// Its number.
    pub(crate) claim: u32,
    /// The least of its flaws.
    pub(crate) why: VecFlaw,
}

/// The first faulty claim, where there is one.
fn first_faulty(alloc: Global, g: &VecGame, c: &Cert) -> Result<Option<Faulty>, Memory>
    requires { IsWithinLimits c.now }
    ensures { IfOk result (IsVerdict g.now c.now) }
{
    let vectors = with_target(alloc, g)?;
    let claims = c.claims.as_slice();
    for k in 0..claims.len() {
        if let Some(why) = claim_flaw(alloc, g, &vectors, c.version, &claims[k])? {
            return Ok(Some(Faulty {
                claim: k as u32,
                why,
            }));
        }
    }
    Ok(None)
}

/// Checks a certificate against a game on vectors, claim by claim. It is accepted exactly where
/// each claim is valid; then each is forced by its side.
///
/// Trees and cuts are tried by eliminations, two for each node. `Memory` says that there is no room
/// for their rows.
pub fn vec_check<'a>(alloc: Global, g: &'a VecGame, c: &'a Cert) -> Result<VecChecked<'a>, VecFault>
    requires { IsWithinLimits c.now }
    ensures game { IfOk result (λ checked. checked.game.now ≡ g.now) }
    ensures cert { IfOk result (λ checked. checked.cert.now ≡ c.now) }
    ensures valid { IfOk result (λ _. IsVecValid g.now c.now) }
    ensures reject { (claim : ℕ) → (node : ℕ) → (why : VecFlaw)
        → result ≡ Err (VecFault.Reject claim node why)
        → IsFirstVecFault g.now c.now claim node why }
{
    let Ok(found) = first_faulty(alloc, g, c) else {
        return Err(VecFault::Memory);
    };
    match found {
        None => Ok(VecChecked {
            game: g,
            cert: c,
            sealed: (),
        }),
        Some(faulty) => Err(VecFault::Reject {
            claim: faulty.claim,
            node: 0,
            why: faulty.why,
        }),
    }
}
