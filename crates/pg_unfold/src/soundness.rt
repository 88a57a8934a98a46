//! The first node that is faulty.
ghost use Rattle.std.specs.Prelude.{◌<◌, ◌≤◌, ◌↔◌, IsTrue, IfOk, IfSome, IfNone, MatchResult};
ghost use Rattle.std.specs.Prelude.{length};
ghost use Rattle.pg_unfold.specs.Prelude.{All, NamesEarlier, IsImageClaim, MAX_CLAIM_NODES};
ghost use Rattle.pg_unfold.specs.Prelude.{MAX_CLAIMS};
ghost use Rattle.pg_unfold.specs.Flaws.{HasEarlier, AreUsable, HasUsable, HasPoints, HasMarks};
ghost use Rattle.pg_unfold.specs.Flaws.{IsSound, IsLeastFlaw, IsSoundClaim, IsFirstIn, AreSound};
ghost use Rattle.pg_unfold.specs.Flaws.{TellsFlaw};

use crate::board_map::board_of;
use crate::flaw::Flaw;
use crate::unfolded::ImageFault;
use pg_base::Memory;
use pg_cert::{Body, Reply};
use pg_game::{Game, Position};
use pg_image::{ImageClaim, ImageNode};
use pg_maps::{GridMap, fitting_maps};
use std::alloc::Global;

/// The first faulty node of a claim, and the least of its flaws.
#[derive(Clone, Copy, Debug, PartialEq, Eq)]
struct FlawAt {
    /// The number of the node.
    node: u32,
    /// The flaw.
    flaw: Flaw,
}

/// The maps under which a node may be an image: none without a board.
fn usable_maps(alloc: Global, g: &Game) -> Result<Vec<GridMap>, Memory>
    ensures { IfOk result (λ maps. AreUsable g.now maps.items) }
{
    if board_of(g).is_none() {
        return Ok(Vec::new(alloc));
    }
    fitting_maps(alloc, g)
}

/// Whether every reply's child has a number below `k`.
fn are_earlier(k: usize, replies: &[Reply]) -> bool
    ensures { IsTrue result ↔ All (λ r. r.child < k) replies.now }
{
    replies.iter().all(|reply| (reply.child as usize) < k)
}

/// Whether every child that the body names has a number below `k`.
fn names_earlier(k: usize, body: &Body) -> bool
    ensures { IsTrue result ↔ NamesEarlier k body.now }
{
    match body {
        Body::Move { child, .. } => (*child as usize) < k,
        Body::All(replies) => are_earlier(k, replies.as_slice()),
        Body::Weaker { child } => (*child as usize) < k,
        _ => true,
    }
}

/// Whether every child that the node names has a number below `k`.
fn has_earlier(k: usize, node: &ImageNode) -> bool
    ensures { IsTrue result ↔ HasEarlier k node.now }
{
    match node {
        ImageNode::Plain(node) => names_earlier(k, &node.body),
        ImageNode::Image { child, .. } => (*child as usize) < k,
    }
}

/// Whether the node, if it is an image, is one under a usable map.
fn has_usable(g: &Game, maps: &[GridMap], node: &ImageNode) -> bool
    requires { AreUsable g.now maps.now }
    ensures { IsTrue result ↔ HasUsable g.now node.now }
{
    match node {
        ImageNode::Plain(_) => true,
        ImageNode::Image { map, .. } => maps.contains(map),
    }
}

/// Whether all marks are points of the game.
fn has_points(g: &Game, p: &Position) -> bool
    ensures { IsTrue result ↔ HasPoints g.now p.now }
{
    p.x.is_below(g.points()) && p.y.is_below(g.points())
}

/// Whether the position of node number `k` is the image of its child's, if it is an image, and else
/// all its marks are points of the game.
fn has_marks(g: &Game, nodes: &[ImageNode], k: usize, node: &ImageNode) -> bool
    requires place { k ≤ length nodes.now }
    requires earlier { HasEarlier k node.now }
    requires usable { HasUsable g.now node.now }
    ensures { IsTrue result ↔ HasMarks g.now nodes.now node.now }
{
    match node {
        ImageNode::Plain(plain) => has_points(g, &plain.position()),
        ImageNode::Image { map, child, .. } => {
            let Some(grid) = board_of(g) else {
                unreachable!();
            };
            let child_position = nodes[*child as usize].position();
            node.position() == map.image_position(grid, &child_position)
        }
    }
}

/// The least flaw of node number `k`, or none where it owes nothing.
fn node_flaw(
    g: &Game,
    maps: &[GridMap],
    nodes: &[ImageNode],
    k: usize,
    node: &ImageNode,
) -> Option<Flaw>
    requires maps { AreUsable g.now maps.now }
    requires place { k ≤ length nodes.now }
    ensures sound { IfNone result (IsSound g.now nodes.now k node.now) }
    ensures least { IfSome result (λ flaw. IsLeastFlaw g.now nodes.now k node.now flaw) }
{
    if !has_earlier(k, node) {
        return Some(Flaw::Child);
    }
    if !has_usable(g, maps, node) {
        return Some(Flaw::Map);
    }
    if !has_marks(g, nodes, k, node) {
        return Some(Flaw::Marks);
    }
    None
}

/// The first flaw of a claim, or none where all its nodes are sound.
fn claim_flaw(g: &Game, maps: &[GridMap], claim: &ImageClaim) -> Option<FlawAt>
    requires maps { AreUsable g.now maps.now }
    requires few { length claim.now.nodes ≤ MAX_CLAIM_NODES }
    ensures sound { IfNone result (IsSoundClaim g.now claim.now) }
    ensures first { IfSome result (λ at. IsFirstIn g.now claim.now at.node at.flaw) }
{
    let nodes = claim.nodes.as_slice();
    for k in 0..nodes.len() {
        if let Some(flaw) = node_flaw(g, maps, nodes, k, &nodes[k]) {
            return Some(FlawAt {
                node: k as u32,
                flaw,
            });
        }
    }
    None
}

/// The first fault of a node, where one is faulty.
pub(crate) fn try_nodes(alloc: Global, g: &Game, claims: &[ImageClaim]) -> Result<(), ImageFault>
    requires few { length claims.now ≤ MAX_CLAIMS }
    requires claims { All IsImageClaim claims.now }
    ensures { MatchResult result (λ _. AreSound g.now claims.now) (TellsFlaw g.now claims.now) }
{
    let Ok(maps) = usable_maps(alloc, g) else {
        return Err(ImageFault::Memory);
    };
    for i in 0..claims.len() {
        if let Some(at) = claim_flaw(g, &maps, &claims[i]) {
            return Err(ImageFault::Bad {
                claim: i as u32,
                node: at.node,
                why: at.flaw.number(),
            });
        }
    }
    Ok(())
}
