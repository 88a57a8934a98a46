//! Laying out the claims of a certificate, before any node of its unfolding is made.
ghost use Rattle.std.specs.Prelude.{◌≡◌, ◌≤◌, ℕ, IfOk, length};
ghost use Rattle.pg_unfold.specs.Prelude.{All, MAX_CLAIMS, IsImageClaim, IsImageWithinLimits};
ghost use Rattle.pg_unfold.specs.Flaws.{IsFaultless, IsFirstFault};
ghost use Rattle.pg_unfold.specs.Layouts.{AreLaidOut, LaysNext, TellsLaid};
ghost use Rattle.pg_unfold.specs.Marks.{AreAllEarlier, AreEarlier};

use crate::layout::{Layout, lay_out_claim};
use crate::soundness::try_nodes;
use crate::unfolded::ImageFault;
use crate::unfolding::{TOO_LARGE, last_of};
use pg_base::Memory;
use pg_cert::MAX_NODES;
use pg_game::Game;
use pg_image::{ImageCert, ImageClaim};
use std::alloc::Global;

/// The claims that have been laid out so far.
#[derive(Debug, Drop)]
struct Laid {
    /// The layouts.
    layouts: Vec<Layout>,
    /// How many nodes further claims may have.
    room: u32,
}

/// Lays out the next claim; gives the number of its last node exactly where there is no room for
/// its nodes.
fn lay_out_next(alloc: Global, claim: &ImageClaim, laid: &mut Laid) -> Result<Option<u32>, Memory>
    requires limits { IsImageClaim claim.now }
    requires earlier { AreEarlier claim.now.nodes }
    ensures { IfOk result (LaysNext claim.now laid.old laid.new) }
{
    let found = lay_out_claim(alloc, claim, laid.room)?;
    let Some(layout) = found else {
        return Ok(Some(last_of(claim)));
    };
    laid.room -= layout.size();
    laid.layouts.push(layout)?;
    Ok(None)
}

/// The claims laid out, or the first with which there are too many nodes.
fn lay_out_claims(alloc: Global, claims: &[ImageClaim]) -> Result<Laid, ImageFault>
    requires few { length claims.now ≤ MAX_CLAIMS }
    requires claims { All IsImageClaim claims.now }
    requires earlier { AreAllEarlier claims.now }
    ensures { TellsLaid claims.now result }
{
    let mut laid = Laid {
        layouts: Vec::new(alloc),
        room: MAX_NODES,
    };
    for i in 0..claims.len() {
        let Ok(full) = lay_out_next(alloc, &claims[i], &mut laid) else {
            return Err(ImageFault::Memory);
        };
        if let Some(last) = full {
            return Err(ImageFault::Bad {
                claim: i as u32,
                node: last,
                why: TOO_LARGE,
            });
        }
    }
    Ok(laid)
}

/// The layouts of a certificate's claims: which nodes its unfolding has. None of them is made; each
/// can then be had from the layout of its claim.
///
/// # Errors
///
/// Those of `unfold`.
pub fn lay_out(alloc: Global, g: &Game, c: &ImageCert) -> Result<Vec<Layout>, ImageFault>
    requires { IsImageWithinLimits c.now }
    ensures laid { IfOk result (λ layouts. AreLaidOut c.now layouts.items) }
    ensures faultless { IfOk result (λ _. IsFaultless g.now c.now) }
    ensures fault { (claim : ℕ) → (node : ℕ) → (why : ℕ)
        → result ≡ Err (ImageFault.Bad claim node why)
        → IsFirstFault g.now c.now claim node why }
{
    let claims = c.claims.as_slice();
    if let Err(fault) = try_nodes(alloc, g, claims) {
        return Err(fault);
    }
    match lay_out_claims(alloc, claims) {
        Ok(laid) => Ok(laid.layouts),
        Err(fault) => Err(fault),
    }
}
