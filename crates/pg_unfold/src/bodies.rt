//! Images of nodes, with the places to which the numbers of their children lead.
ghost use Rattle.std.specs.Prelude.{◌≡◌, ◌<◌, ◌≤◌, ◌*◌, ◌+◌, IfOk, length};
ghost use Rattle.pg_unfold.specs.Prelude.{All, IsBody, IsNode, position_of, NamesEarlier};
ghost use Rattle.pg_unfold.specs.Prelude.{number_of, image_on, image_position};
ghost use Rattle.pg_unfold.specs.Marks.{IsBoardMap, IsPlaceOf};
ghost use Rattle.pg_unfold.specs.Unfolded.{AreReplyImages, IsBodyImage};

use crate::board_map::{image_edges, image_pairs, image_point, image_points, image_set};
use crate::met::COPIES;
use pg_base::{Grid, Memory, Pairs, Points};
use pg_cert::{Body, Node, Replies, Reply};
use pg_maps::GridMap;
use std::alloc::Global;

/// The place at which the child settles under the map.
fn place_of(places: &[u32], m: GridMap, child: u32) -> u32
    requires { 8 * child + 8 ≤ length places.now }
    ensures { IsPlaceOf places.now (number_of m) child result }
{
    places[COPIES * child as usize + m.number() as usize]
}

/// The images of replies, in ascending order of their points.
fn image_replies(
    alloc: Global,
    board: Option<Grid>,
    m: GridMap,
    places: &[u32],
    replies: &[Reply],
) -> Result<Vec<Reply>, Memory>
    requires map { IsBoardMap board m }
    requires room { All (λ r. 8 * r.child + 8 ≤ length places.now) replies.now }
    requires replies { IsBody (Body.All replies.now) }
    ensures { IfOk result (λ images. AreReplyImages (image_on board m)
        (IsPlaceOf places.now (number_of m)) replies.now images.items) }
{
    let mut images = Vec::with_capacity(alloc, replies.len())?;
    for reply in replies {
        let point = image_point(board, m, reply.point);
        let child = place_of(places, m, reply.child);
        images.push(Reply { point, child })?;
    }
    images.sort_unstable_by_key(|r| r.point);
    Ok(images)
}

/// The image of the body of node number `k`.
fn image_body(
    alloc: Global,
    board: Option<Grid>,
    m: GridMap,
    k: usize,
    places: &[u32],
    body: &Body,
) -> Result<Body, Memory>
    requires map { IsBoardMap board m }
    requires room { 8 * k ≤ length places.now }
    requires earlier { NamesEarlier k body.now }
    requires body { IsBody body.now }
    ensures { IfOk result (λ image. IsBodyImage (image_on board m)
        (IsPlaceOf places.now (number_of m)) body.now image) }
{
    match body {
        Body::Over => Ok(Body::Over),
        Body::Move { point, child } => Ok(Body::Move {
            point: image_point(board, m, *point),
            child: place_of(places, m, *child),
        }),
        Body::All(replies) => {
            let images = image_replies(alloc, board, m, places, replies.as_slice())?;
            Ok(Body::All(Replies::from_vec(images)))
        }
        Body::Pairs(pairs) => {
            let images = image_pairs(alloc, board, m, pairs.as_slice())?;
            Ok(Body::Pairs(Pairs::from_vec(images)))
        }
        Body::Potential => Ok(Body::Potential),
        Body::Trees {
            with_e,
            first,
            second,
        } => Ok(Body::Trees {
            with_e: *with_e,
            first: image_edges(alloc, board, m, first)?,
            second: image_edges(alloc, board, m, second)?,
        }),
        Body::Cuts {
            with_e,
            first,
            second,
        } => Ok(Body::Cuts {
            with_e: *with_e,
            first: image_edges(alloc, board, m, first)?,
            second: image_edges(alloc, board, m, second)?,
        }),
        Body::Threat(points) => {
            let images = image_points(alloc, board, m, points.as_slice())?;
            Ok(Body::Threat(Points::from_vec(images)))
        }
        Body::Weaker { child } => Ok(Body::Weaker {
            child: place_of(places, m, *child),
        }),
    }
}

/// The image of node number `k`.
pub(crate) fn image_node(
    alloc: Global,
    board: Option<Grid>,
    m: GridMap,
    k: usize,
    places: &[u32],
    node: &Node,
) -> Result<Node, Memory>
    requires map { IsBoardMap board m }
    requires room { 8 * k ≤ length places.now }
    requires earlier { NamesEarlier k node.now.body }
    requires node { IsNode node.now }
    ensures position { IfOk result
        (λ image. position_of image ≡ image_position (image_on board m) (position_of node.now)) }
    ensures body { IfOk result (λ image. IsBodyImage (image_on board m)
        (IsPlaceOf places.now (number_of m)) node.now.body image.body) }
{
    Ok(Node {
        x: image_set(board, m, &node.x),
        y: image_set(board, m, &node.y),
        turn: node.turn,
        left: node.left,
        body: image_body(alloc, board, m, k, places, &node.body)?,
    })
}
