//! Copies of nodes.
ghost use Rattle.std.specs.Prelude.{◌≡◌, IfOk};

use pg_base::{Memory, Pairs, Points};
use pg_cert::{Body, EdgeSet, Node, Replies};
use std::alloc::Global;

/// The same node once more.
pub(crate) fn copy_node(alloc: Global, node: &Node) -> Result<Node, Memory>
    ensures { IfOk result (λ copy. copy ≡ node.now) }
{
    let body = copy_body(alloc, &node.body)?;
    Ok(Node {
        x: node.x,
        y: node.y,
        turn: node.turn,
        left: node.left,
        body,
    })
}

/// The same body once more.
fn copy_body(alloc: Global, body: &Body) -> Result<Body, Memory>
    ensures { IfOk result (λ copy. copy ≡ body.now) }
{
    Ok(match body {
        Body::Over => Body::Over,
        Body::Move { point, child } => Body::Move {
            point: *point,
            child: *child,
        },
        Body::All(replies) => Body::All(Replies::from_vec(replies.as_slice().to_vec(alloc)?)),
        Body::Pairs(pairs) => Body::Pairs(Pairs::from_vec(pairs.as_slice().to_vec(alloc)?)),
        Body::Potential => Body::Potential,
        Body::Trees {
            with_e,
            first,
            second,
        } => Body::Trees {
            with_e: *with_e,
            first: EdgeSet::new(alloc, *first.as_set())?,
            second: EdgeSet::new(alloc, *second.as_set())?,
        },
        Body::Cuts {
            with_e,
            first,
            second,
        } => Body::Cuts {
            with_e: *with_e,
            first: EdgeSet::new(alloc, *first.as_set())?,
            second: EdgeSet::new(alloc, *second.as_set())?,
        },
        Body::Threat(points) => Body::Threat(Points::from_vec(points.as_slice().to_vec(alloc)?)),
        Body::Weaker { child } => Body::Weaker { child: *child },
    })
}
