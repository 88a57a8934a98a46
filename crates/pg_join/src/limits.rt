//! Whether a certificate with images is within the limits of the format.
ghost use Rattle.std.specs.Prelude.{◌≡◌, ◌<◌, map, true};
ghost use Rattle.std.specs.List.{All};
ghost use Rattle.pg_base.specs.declared.limits.TheConstants.{MAX_MEMBERS};
ghost use Rattle.pg_cert.specs.Limits.{ArePoints, IsBody, IsPair, IsReply, IsTurn};
ghost use Rattle.pg_image.specs.Limits.{IsImageClaim, IsImageNode, IsImageWithinLimits, IsMarked};
ghost use Rattle.pg_text.specs.Text.{ascend_from};

use pg_base::{MAX_MEMBERS, Pair, PointSet, Side};
use pg_cert::{Body, MAX_CLAIM_NODES, Reply};
use pg_game::MAX_BIAS;
use pg_image::{ImageCert, ImageClaim, ImageNode};

/// Returns whether the numbers are those of points.
#[tactic(auto, using(crate::proofs::Within::points_within))]
fn are_points(points: &[u16]) -> bool
    ensures { result ≡ true → All (λ v. v < MAX_MEMBERS) points.now }
{
    points.iter().all(|point| *point < MAX_MEMBERS)
}

/// Returns whether the numbers of the pairs are those of points.
#[tactic(auto, using(crate::proofs::Within::pairs_within))]
fn are_pairs(pairs: &[Pair]) -> bool
    ensures { result ≡ true → All IsPair pairs.now }
{
    pairs
        .iter()
        .all(|pair| pair.a < MAX_MEMBERS && pair.b < MAX_MEMBERS)
}

/// Returns whether the numbers of the replies are those of points and nodes.
#[tactic(auto, using(crate::proofs::Within::replies_within))]
fn are_replies(replies: &[Reply]) -> bool
    ensures { result ≡ true → All IsReply replies.now }
{
    replies.iter().all(|reply| reply.point < MAX_MEMBERS && reply.child < MAX_CLAIM_NODES)
}

/// Returns whether the points of the replies ascend.
fn replies_ascend(replies: &[Reply]) -> bool
    ensures { result ≡ ascend_from 0 (map (λ r. r.point) replies.now) }
{
    replies.is_sorted_by(|a, b| a.point < b.point)
}

/// Returns whether the members of a set are points.
fn is_set(set: &PointSet) -> bool
    ensures { result ≡ true → ArePoints set.now }
{
    set.is_below(MAX_MEMBERS)
}

/// Returns whether the numbers of a body are in their ranges and orders.
fn is_body(body: &Body) -> bool
    ensures { result ≡ true → IsBody body.now }
{
    match body {
        Body::Over | Body::Potential => true,
        Body::Move { point, child } => *point < MAX_MEMBERS && *child < MAX_CLAIM_NODES,
        Body::All(replies) => are_replies(replies.as_slice()) && replies_ascend(replies.as_slice()),
        Body::Pairs(pairs) => are_pairs(pairs.as_slice()),
        Body::Trees { first, second, .. } => is_set(first.as_set()) && is_set(second.as_set()),
        Body::Cuts { first, second, .. } => is_set(first.as_set()) && is_set(second.as_set()),
        Body::Threat(points) => {
            points.as_slice().len() % 2 == 1 && are_points(points.as_slice())
        }
        Body::Weaker { child } => *child < MAX_CLAIM_NODES,
    }
}

/// Returns whether a file can say the turn.
fn is_turn(turn: Side, left: u8) -> bool
    ensures { result ≡ true → IsTurn turn left }
{
    match turn {
        Side::X => left == 1,
        Side::Y => 0 < left && left <= MAX_BIAS,
    }
}

/// Returns whether a file can say the marks and the turn.
fn is_marked(x: &PointSet, y: &PointSet, turn: Side, left: u8) -> bool
    ensures { result ≡ true → IsMarked x.now y.now turn left }
{
    if !is_set(x) || !is_set(y) {
        return false;
    }
    x.shares_none(y) && is_turn(turn, left)
}

/// Returns whether a file can say the node.
fn is_node(node: &ImageNode) -> bool
    ensures { result ≡ true → IsImageNode node.now }
{
    match node {
        ImageNode::Plain(node) => {
            is_marked(&node.x, &node.y, node.turn, node.left) && is_body(&node.body)
        }
        ImageNode::Image {
            x,
            y,
            turn,
            left,
            child,
            ..
        } => is_marked(x, y, *turn, *left) && *child < MAX_CLAIM_NODES,
    }
}

/// Returns whether a file can say each of the nodes.
fn are_nodes(nodes: &[ImageNode]) -> bool
    ensures { result ≡ true → All IsImageNode nodes.now }
{
    for node in nodes {
        if !is_node(node) {
            return false;
        }
    }
    true
}

/// Returns whether a file can say the claim.
fn is_claim(claim: &ImageClaim) -> bool
    ensures { result ≡ true → IsImageClaim claim.now }
{
    let nodes = claim.nodes.as_slice();
    0 < nodes.len() && nodes.len() <= MAX_CLAIM_NODES as usize && are_nodes(nodes)
}

/// Returns whether a file can say each of the claims.
fn are_claims(claims: &[ImageClaim]) -> bool
    ensures { result ≡ true → All IsImageClaim claims.now }
{
    for claim in claims {
        if !is_claim(claim) {
            return false;
        }
    }
    true
}

/// Returns whether a certificate of one claim or two is within the limits of the format.
#[tactic(auto, using(crate::proofs::Within::few_together))]
pub(crate) fn is_within_limits(certificate: &ImageCert) -> bool
    ensures { result ≡ true → IsImageWithinLimits certificate.now }
{
    let claims = certificate.claims.as_slice();
    0 < claims.len() && claims.len() <= 2 && are_claims(claims)
}
