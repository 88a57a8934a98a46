//! Whether claims have few enough nodes unfolded.
ghost use Rattle.std.specs.Prelude.{◌≡◌, ◌≤◌, ◌*◌, ◌↔◌, IfOk, IsTrue, length};
ghost use Rattle.pg_unfold.specs.Prelude.{MAX_CLAIM_NODES, IsImageClaim, IsImageWithinLimits};
ghost use Rattle.pg_unfold.specs.Flaws.{HasSize, HaveRoom};
ghost use Rattle.pg_unfold.specs.Marks.{AreAllEarlier, AreEarlier, copies_of};

use crate::copying::kept_node;
use crate::met::met_copies;
use pg_base::Memory;
use pg_cert::{MAX_CLAIM_NODES, MAX_NODES};
use pg_image::{ImageCert, ImageClaim, ImageNode};
use std::alloc::Global;

/// Whether there is room for so many nodes, in a claim and with those before it.
pub(crate) fn is_few(count: u32, room: u32) -> bool
    ensures { IsTrue result ↔ ((count ≤ MAX_CLAIM_NODES) × (count ≤ room)) }
{
    count <= MAX_CLAIM_NODES && count <= room
}

/// How many copies of plain nodes are met.
fn count_kept(nodes: &[ImageNode], marks: &[bool]) -> u32
    requires few { length nodes.now ≤ MAX_CLAIM_NODES }
    requires whole { length marks.now ≡ 8 * length nodes.now }
    ensures { result ≡ length (copies_of nodes.now marks.now) }
{
    let mut count = 0;
    for key in 0..marks.len() {
        if kept_node(nodes, marks, key).is_some() {
            count += 1;
        }
    }
    count
}

/// How many nodes the claim has unfolded.
fn size_of(alloc: Global, claim: &ImageClaim) -> Result<u32, Memory>
    requires limits { IsImageClaim claim.now }
    requires earlier { AreEarlier claim.now.nodes }
    ensures { IfOk result (HasSize claim.now) }
{
    let nodes = claim.nodes.as_slice();
    let marks = met_copies(alloc, nodes)?;
    Ok(count_kept(nodes, marks.as_slice()))
}

/// Whether the claims have few enough nodes unfolded, each for a claim and all together for a
/// certificate. They are counted, and none is made.
///
/// # Errors
///
/// `Memory` where no memory is found.
pub fn has_room(alloc: Global, c: &ImageCert) -> Result<bool, Memory>
    requires limits { IsImageWithinLimits c.now }
    requires earlier { AreAllEarlier c.now.claims }
    ensures { IfOk result (λ room. IsTrue room ↔ HaveRoom c.now.claims) }
{
    let claims = c.claims.as_slice();
    let mut room = MAX_NODES;
    for claim in claims {
        let size = size_of(alloc, claim)?;
        if !is_few(size, room) {
            return Ok(false);
        }
        room -= size;
    }
    Ok(true)
}
