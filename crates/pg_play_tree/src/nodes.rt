//! The nodes of a tree of play.
ghost use Rattle.std.specs.Prelude.{◌≡◌, ◌<◌, ◌≤◌, IfOk, length, map, true};
ghost use Rattle.std.specs.List.{All};
ghost use Rattle.pg_play_tree.specs.Prelude.{Cert, IsBody, IsNode, IsReply};
ghost use Rattle.pg_play_tree.specs.Prelude.{MAX_CLAIM_NODES, MAX_MEMBERS, Side, ascend_from};
ghost use Rattle.pg_play_tree.specs.Prelude.{position_of};
ghost use Rattle.pg_play_tree.specs.Tree.{IsPlayedNode};
ghost use Rattle.pg_play_tree.specs.Places.{HasPoint, HasStep, IsInGame, IsMirror, IsPlace};

use crate::exploring::index_at;
use crate::place::{Place, Step};
use pg_base::Memory;
use pg_cert::{Body, Node, Replies, Reply};
use pg_game::{Game, Position};
use std::alloc::Global;

/// Returns the number of the node after a point. The numbers descend along the places, so that the
/// first place is the last node. It is 0 if no place follows the point: then the checker refuses
/// the tree.
fn child_after(game: &Game, places: &[Place], position: &Position, v: u16) -> u32
    requires point { v < MAX_MEMBERS }
    requires few { length places.now ≤ MAX_CLAIM_NODES }
    ensures { result < MAX_CLAIM_NODES }
{
    match index_at(places, &game.after(position, v)) {
        Some(k) => (places.len() - 1 - k) as u32,
        None => 0,
    }
}

/// Returns a reply to each free point.
fn replies_at(
    alloc: Global,
    game: &Game,
    places: &[Place],
    position: &Position,
) -> Result<Vec<Reply>, Memory>
    requires { length places.now ≤ MAX_CLAIM_NODES }
    ensures each { IfOk result (λ replies. All IsReply replies.items) }
    ensures ascend { IfOk result
        (λ replies. ascend_from 0 (map (λ r. r.point) replies.items) ≡ true) }
{
    let mut replies = Vec::new(alloc);
    for point in 0..game.points() {
        if position.is_free(point) {
            let child = child_after(game, places, position, point);
            replies.push(Reply { point, child })?;
        }
    }
    Ok(replies)
}

/// Returns the body of the node at a place.
fn body_at(alloc: Global, game: &Game, places: &[Place], place: &Place) -> Result<Body, Memory>
    requires few { length places.now ≤ MAX_CLAIM_NODES }
    requires point { HasPoint game.now place.now.step }
    ensures limits { IfOk result IsBody }
    ensures step { IfOk result (HasStep place.now.step) }
{
    match place.step {
        Step::Over => Ok(Body::Over),
        Step::Own(point) => {
            let child = child_after(game, places, &place.position, point);
            Ok(Body::Move { point, child })
        }
        Step::Replies => {
            let replies = replies_at(alloc, game, places, &place.position)?;
            Ok(Body::All(Replies::from_vec(replies)))
        }
    }
}

/// Returns the node at a place.
fn node_at(alloc: Global, game: &Game, places: &[Place], place: &Place) -> Result<Node, Memory>
    requires few { length places.now ≤ MAX_CLAIM_NODES }
    requires place { IsInGame game.now place.now }
    ensures limits { IfOk result IsNode }
    ensures step { IfOk result (λ node. HasStep place.now.step node.body) }
    ensures position { IfOk result (λ node. position_of node ≡ place.now.position) }
{
    let position = place.position;
    let body = body_at(alloc, game, places, place)?;
    Ok(Node {
        x: position.x,
        y: position.y,
        turn: position.turn,
        left: position.left,
        body,
    })
}

/// Returns a node for each place, the last first.
pub(crate) fn nodes_of(alloc: Global, game: &Game, places: &[Place]) -> Result<Vec<Node>, Memory>
    requires few { length places.now ≤ MAX_CLAIM_NODES }
    requires places { All (IsInGame game.now) places.now }
    ensures limits { IfOk result (λ nodes. All IsNode nodes.items) }
    ensures played { IfOk result (λ nodes. (cert : Cert) → (side : Side)
        → All (IsPlace game.now cert side) places.now
        → All (IsPlayedNode game.now cert side) nodes.items) }
    ensures count { IfOk result (λ nodes. length nodes.items ≡ length places.now) }
    ensures mirror { IfOk result (λ nodes. IsMirror places.now nodes.items) }
{
    let mut nodes = Vec::new(alloc);
    for k in 0..places.len() {
        let node = node_at(alloc, game, places, &places[places.len() - 1 - k])?;
        nodes.push(node)?;
    }
    Ok(nodes)
}
