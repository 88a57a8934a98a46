//! Claims of one node, which stays.
ghost use Rattle.std.specs.Prelude.{◌≡◌, IfOk, IsTrue, ◌↔◌, length};
ghost use Rattle.std.specs.List.{All, AllZip};
ghost use Rattle.pg_fold.specs.Places.{Stays};

use crate::copying::copy_node;
use pg_base::Memory;
use pg_cert::Claim;
use pg_image::{ImageClaim, ImageNode, ImageNodes};
use std::alloc::Global;

/// Whether each of the claims has one node alone, which then is no other's image.
pub(crate) fn have_one_node(claims: &[Claim]) -> bool
    ensures { IsTrue result ↔ All (λ claim. length claim.nodes ≡ 1) claims.now }
{
    claims.iter().all(|claim| claim.nodes.as_slice().len() == 1)
}

/// The claim with its one node as it is.
fn stay_claim(alloc: Global, claim: &Claim) -> Result<ImageClaim, Memory>
    requires { length claim.now.nodes ≡ 1 }
    ensures { IfOk result (Stays claim.now) }
{
    let node = copy_node(alloc, &claim.nodes.as_slice()[0])?;
    let mut nodes = Vec::with_capacity(alloc, 1)?;
    nodes.push(ImageNode::Plain(node))?;
    Ok(ImageClaim {
        turn: claim.turn,
        side: claim.side,
        goal: claim.goal,
        nodes: ImageNodes::from_vec(nodes),
    })
}

/// The claims, each with its one node as it is.
pub(crate) fn stay_claims(alloc: Global, claims: &[Claim]) -> Result<Vec<ImageClaim>, Memory>
    requires { All (λ claim. length claim.nodes ≡ 1) claims.now }
    ensures { IfOk result (λ same. AllZip Stays claims.now same.items) }
{
    let mut same = Vec::with_capacity(alloc, claims.len())?;
    for claim in claims {
        let next = stay_claim(alloc, claim)?;
        same.push(next)?;
    }
    Ok(same)
}
