//! Unfolding a certificate.
ghost use Rattle.std.specs.Prelude.{◌≡◌, ◌+◌, ◌≤◌, ℕ, IfOk, length};
ghost use Rattle.pg_unfold.specs.Prelude.{All, IsWithinLimits, MAX_CLAIMS, IsImageClaim};
ghost use Rattle.pg_unfold.specs.Prelude.{IsImageWithinLimits};
ghost use Rattle.pg_unfold.specs.Flaws.{AreSound, IsFaultless, IsFirstFault, IsSoundClaim};
ghost use Rattle.pg_unfold.specs.Gathered.{TakesNext, TellsUnfolded, UnfoldsWithin};
ghost use Rattle.pg_unfold.specs.Unfolded.{IsUnfoldedCert};

use crate::copying::copied_nodes;
use crate::layout::lay_out_claim;
use crate::soundness::try_nodes;
use crate::unfolded::{ImageFault, Origins, Sources, Unfolded};
use pg_base::Memory;
use pg_cert::{Cert, Claim, Claims, MAX_NODES, Nodes, Version};
use pg_game::Game;
use pg_image::{ImageCert, ImageClaim};
use std::alloc::Global;

/// The number of the fault of a claim that is too large, I4.
pub(crate) const TOO_LARGE: u8 = 4;

/// A claim unfolded, and from which node each of its nodes came.
#[derive(Debug, Drop)]
struct UnfoldedClaim {
    claim: Claim,
    origins: Origins,
}

/// The claims that have been unfolded so far.
#[derive(Debug, Drop)]
struct Gathered {
    /// The claims.
    claims: Vec<Claim>,
    /// From which node each of their nodes came.
    sources: Vec<Origins>,
    /// How many nodes further claims may have.
    room: u32,
}

/// The claim unfolded, or None exactly where there is no room for its nodes.
fn unfold_claim(
    alloc: Global,
    g: &Game,
    claim: &ImageClaim,
    room: u32,
) -> Result<Option<UnfoldedClaim>, Memory>
    requires limits { IsImageClaim claim.now }
    requires sound { IsSoundClaim g.now claim.now }
    ensures { IfOk result (UnfoldsWithin g.now claim.now room) }
{
    let Some(layout) = lay_out_claim(alloc, claim, room)? else {
        return Ok(None);
    };
    let copied = copied_nodes(alloc, g, claim, &layout)?;
    let origins = layout.origins(alloc, claim)?;
    Ok(Some(UnfoldedClaim {
        claim: Claim {
            turn: claim.turn,
            side: claim.side,
            goal: claim.goal,
            nodes: Nodes::from_vec(copied),
        },
        origins,
    }))
}

/// The number of the claim's last node.
pub(crate) fn last_of(claim: &ImageClaim) -> u32
    requires { IsImageClaim claim.now }
    ensures { result + 1 ≡ length claim.now.nodes }
{
    claim.nodes.as_slice().len() as u32 - 1
}

/// Unfolds the next claim; gives the number of its last node exactly where there is no room for its
/// nodes.
fn unfold_next(
    alloc: Global,
    g: &Game,
    claim: &ImageClaim,
    gathered: &mut Gathered,
) -> Result<Option<u32>, Memory>
    requires limits { IsImageClaim claim.now }
    requires sound { IsSoundClaim g.now claim.now }
    ensures { IfOk result (TakesNext g.now claim.now gathered.old gathered.new) }
{
    let found = unfold_claim(alloc, g, claim, gathered.room)?;
    let Some(unfolded) = found else {
        return Ok(Some(last_of(claim)));
    };
    let size = unfolded.claim.nodes.as_slice().len();
    gathered.room -= size as u32;
    gathered.claims.push(unfolded.claim)?;
    gathered.sources.push(unfolded.origins)?;
    Ok(None)
}

/// The sound claims unfolded, or the first with which there are too many nodes.
fn unfold_claims(alloc: Global, g: &Game, claims: &[ImageClaim]) -> Result<Gathered, ImageFault>
    requires few { length claims.now ≤ MAX_CLAIMS }
    requires claims { All IsImageClaim claims.now }
    requires sound { AreSound g.now claims.now }
    ensures { TellsUnfolded g.now claims.now result }
{
    let mut gathered = Gathered {
        claims: Vec::new(alloc),
        sources: Vec::new(alloc),
        room: MAX_NODES,
    };
    for i in 0..claims.len() {
        let Ok(full) = unfold_next(alloc, g, &claims[i], &mut gathered) else {
            return Err(ImageFault::Memory);
        };
        if let Some(last) = full {
            return Err(ImageFault::Bad {
                claim: i as u32,
                node: last,
                why: TOO_LARGE,
            });
        }
    }
    Ok(gathered)
}

/// The certificate of plain nodes for which a certificate with images stands: of each claim one
/// node for each copy of a plain node that is met from the root, by the nodes' numbers and then by
/// those of the maps.
///
/// # Errors
///
/// `Bad` exactly where a node is faulty or a claim too large (I1 to I4), with the first fault: the
/// first faulty claim, in it the first faulty node, and the least number of its faults. Every node
/// is tried by I1 to I3, met or not. Only where none of them is faulty comes I4, at the last node
/// of the first claim with which there are too many nodes. `Memory` where no memory is found.
pub fn unfold(alloc: Global, g: &Game, c: &ImageCert) -> Result<Unfolded, ImageFault>
    requires { IsImageWithinLimits c.now }
    ensures unfolded { IfOk result (λ u. IsUnfoldedCert g.now c.now u) }
    ensures limits { IfOk result (λ u. IsWithinLimits u.cert) }
    ensures faultless { IfOk result (λ _. IsFaultless g.now c.now) }
    ensures fault { (claim : ℕ) → (node : ℕ) → (why : ℕ)
        → result ≡ Err (ImageFault.Bad claim node why)
        → IsFirstFault g.now c.now claim node why }
{
    let claims = c.claims.as_slice();
    if let Err(fault) = try_nodes(alloc, g, claims) {
        return Err(fault);
    }
    match unfold_claims(alloc, g, claims) {
        Ok(gathered) => Ok(Unfolded {
            cert: Cert {
                version: Version::Two,
                claims: Claims::from_vec(gathered.claims),
            },
            sources: Sources::from_vec(gathered.sources),
        }),
        Err(fault) => Err(fault),
    }
}
