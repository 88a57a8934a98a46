//! Bodies of nodes with new numbers.

use pg_base::{Memory, Pairs, Points};
use pg_cert::{Body, Replies, Reply};
use std::alloc::Global;

/// Returns the new number of a node.
fn number_at(numbers: &[u32], child: u32) -> Option<u32> {
    let i = child as usize;
    if i < numbers.len() {
        Some(numbers[i])
    } else {
        None
    }
}

/// Returns the replies with new numbers, if each node that they name has one.
fn renumber_replies(
    alloc: Global,
    replies: &[Reply],
    numbers: &[u32],
) -> Result<Option<Vec<Reply>>, Memory> {
    let mut new = Vec::with_capacity(alloc, replies.len())?;
    for reply in replies {
        let Some(child) = number_at(numbers, reply.child) else {
            return Ok(None);
        };
        new.push(Reply {
            point: reply.point,
            child,
        })?;
    }
    Ok(Some(new))
}

/// Returns a copy of the body of a node in a game on lines with new numbers, if each node that it
/// names has one.
pub(crate) fn renumbered(
    alloc: Global,
    body: &Body,
    numbers: &[u32],
) -> Result<Option<Body>, Memory> {
    match body {
        Body::Over => Ok(Some(Body::Over)),
        Body::Move { point, child } => match number_at(numbers, *child) {
            Some(new) => Ok(Some(Body::Move {
                point: *point,
                child: new,
            })),
            None => Ok(None),
        },
        Body::All(replies) => match renumber_replies(alloc, replies.as_slice(), numbers)? {
            Some(new) => Ok(Some(Body::All(Replies::from_vec(new)))),
            None => Ok(None),
        },
        Body::Pairs(pairs) => {
            let copy = pairs.as_slice().to_vec(alloc)?;
            Ok(Some(Body::Pairs(Pairs::from_vec(copy))))
        }
        Body::Potential => Ok(Some(Body::Potential)),
        Body::Threat(points) => {
            let copy = points.as_slice().to_vec(alloc)?;
            Ok(Some(Body::Threat(Points::from_vec(copy))))
        }
        Body::Weaker { child } => match number_at(numbers, *child) {
            Some(new) => Ok(Some(Body::Weaker { child: new })),
            None => Ok(None),
        },
        Body::Trees { .. } | Body::Cuts { .. } => Ok(None),
    }
}
