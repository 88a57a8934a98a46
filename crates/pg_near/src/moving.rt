//! Copies of nodes whose children have moved.
ghost use Rattle.std.specs.Prelude.{◌≡◌, IfOk, map};
ghost use Rattle.pg_near.specs.Near.{moved, moved_body, moved_reply, place_at};

use pg_base::{Memory, Pairs, Points};
use pg_cert::{Body, EdgeSet, Node, Replies, Reply};
use std::alloc::Global;

/// The new number of a node; a number that is no node's stays.
fn place_at(places: &[u32], node: u32) -> u32
    ensures { result ≡ place_at places.now node }
{
    places.get(node as usize).copied().unwrap_or(node)
}

/// Copies of replies with the new numbers of their children.
fn move_replies(alloc: Global, replies: &[Reply], places: &[u32]) -> Result<Vec<Reply>, Memory>
    ensures { IfOk result (λ copies. copies.items ≡ map (moved_reply places.now) replies.now) }
{
    let mut copies = Vec::new(alloc);
    for reply in replies {
        let child = place_at(places, reply.child);
        let point = reply.point;
        copies.push(Reply { point, child })?;
    }
    Ok(copies)
}

/// A copy of a body with the new numbers of its children.
fn move_body(alloc: Global, body: &Body, places: &[u32]) -> Result<Body, Memory>
    ensures { IfOk result (λ copy. copy ≡ moved_body places.now body.now) }
{
    Ok(match body {
        Body::Over => Body::Over,
        Body::Move { point, child } => Body::Move {
            point: *point,
            child: place_at(places, *child),
        },
        Body::All(replies) => Body::All(Replies::from_vec(move_replies(
            alloc,
            replies.as_slice(),
            places,
        )?)),
        Body::Pairs(pairs) => Body::Pairs(Pairs::from_vec(pairs.as_slice().to_vec(alloc)?)),
        Body::Potential => Body::Potential,
        Body::Trees {
            with_e,
            first,
            second,
        } => Body::Trees {
            with_e: *with_e,
            first: EdgeSet::new(alloc, *first.as_set())?,
            second: EdgeSet::new(alloc, *second.as_set())?,
        },
        Body::Cuts {
            with_e,
            first,
            second,
        } => Body::Cuts {
            with_e: *with_e,
            first: EdgeSet::new(alloc, *first.as_set())?,
            second: EdgeSet::new(alloc, *second.as_set())?,
        },
        Body::Threat(points) => Body::Threat(Points::from_vec(points.as_slice().to_vec(alloc)?)),
        Body::Weaker { child } => Body::Weaker {
            child: place_at(places, *child),
        },
    })
}

/// Returns a copy of a node with the new numbers of its children. An error means that memory ran
/// out.
pub(crate) fn move_node(alloc: Global, node: &Node, places: &[u32]) -> Result<Node, Memory>
    ensures { IfOk result (λ copy. copy ≡ moved places.now node.now) }
{
    let body = move_body(alloc, &node.body, places)?;
    Ok(Node {
        x: node.x,
        y: node.y,
        turn: node.turn,
        left: node.left,
        body,
    })
}
