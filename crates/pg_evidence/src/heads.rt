//! What the claims of a certificate with images say before their nodes.
ghost use Rattle.std.specs.Prelude.{◌≡◌, map, IfOk};
ghost use Rattle.pg_image.specs.Limits.{IsImageWithinLimits};
ghost use Rattle.pg_evidence.specs.Verdicts.{image_head};

use pg_base::Memory;
use pg_image::ImageCert;
use pg_judge::ClaimHead;
use std::alloc::Global;

/// What the claims say before their nodes, and how many these are as the file has them.
pub(crate) fn image_heads(alloc: Global, certificate: &ImageCert) -> Result<Vec<ClaimHead>, Memory>
    requires { IsImageWithinLimits certificate.now }
    ensures { IfOk result (λ heads. heads.items ≡ map image_head certificate.now.claims) }
{
    let mut heads = Vec::new(alloc);
    for claim in certificate.claims.as_slice() {
        heads.push(ClaimHead {
            turn: claim.turn,
            side: claim.side,
            goal: claim.goal,
            nodes: claim.nodes.as_slice().len() as u32,
        })?;
    }
    Ok(heads)
}
