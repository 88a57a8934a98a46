//! Which copies of nodes are met from a claim's root.
ghost use Rattle.std.specs.Prelude.{◌≡◌, ◌<◌, ◌≤◌, ◌*◌, ◌+◌, ◌/◌, ◌%◌, IfOk, length};
ghost use Rattle.pg_unfold.specs.Prelude.{All, NamesEarlier, MAX_CLAIM_NODES, numbered};
ghost use Rattle.pg_unfold.specs.Marks.{AreAdded, AreEarlier, AreMet, Hands, HasPassed, IsChildOf};

use pg_base::Memory;
use pg_cert::{Body, Reply};
use pg_image::ImageNode;
use pg_maps::GridMap;
use std::alloc::Global;

/// How many maps there are, and so copies of a node.
pub(crate) const COPIES: usize = 8;

/// The map of the copy with that place in a table of all copies.
pub(crate) fn map_at(key: usize) -> GridMap
    ensures { result ≡ numbered (key % 8) }
{
    let Some(map) = GridMap::from_number((key % COPIES) as u8) else {
        unreachable!();
    };
    map
}

/// Marks the copies of the children of replies under the map of that number.
fn mark_replies(marks: &mut [bool], replies: &[Reply], m: usize)
    requires map { m < 8 }
    requires room { All (λ r. 8 * r.child + 8 ≤ length marks.old) replies.now }
    ensures { AreAdded (IsChildOf (Body.All replies.now) m) marks.old marks.new }
{
    for reply in replies {
        marks[COPIES * reply.child as usize + m] = true;
    }
}

/// Marks the copies of the children that the body of node number `k` names, under the map of that
/// number.
fn mark_children(marks: &mut [bool], k: usize, body: &Body, m: usize)
    requires map { m < 8 }
    requires earlier { NamesEarlier k body.now }
    requires room { 8 * k ≤ length marks.old }
    ensures { AreAdded (IsChildOf body.now m) marks.old marks.new }
{
    match body {
        Body::Move { child, .. } | Body::Weaker { child } => {
            marks[COPIES * *child as usize + m] = true;
        }
        Body::All(replies) => mark_replies(marks, replies.as_slice(), m),
        _ => {}
    }
}

/// Marks the copies to which the one with that place leads.
fn hand_on(marks: &mut [bool], nodes: &[ImageNode], key: usize)
    requires earlier { AreEarlier nodes.now }
    requires whole { length marks.old ≡ 8 * length nodes.now }
    requires place { key < length marks.old }
    ensures { AreAdded (Hands nodes.now key) marks.old marks.new }
{
    match &nodes[key / COPIES] {
        ImageNode::Plain(node) => {
            mark_children(marks, key / COPIES, &node.body, key % COPIES);
        }
        ImageNode::Image { map, child, .. } => {
            let both = map.followed_by(map_at(key));
            marks[COPIES * *child as usize + both.number() as usize] = true;
        }
    }
}

/// Marks exactly the copies that are met from the root, which is marked, by one pass from the root
/// down.
fn pass_down(marks: &mut [bool], nodes: &[ImageNode])
    requires earlier { AreEarlier nodes.now }
    requires root { HasPassed nodes.now (8 * length nodes.now) marks.old }
    ensures { AreMet nodes.now marks.new }
{
    let mut key = marks.len();
    while key > 0 {
        key -= 1;
        if marks[key] {
            hand_on(marks, nodes, key);
        }
    }
}

/// The marks of exactly the copies that are met from the root.
pub(crate) fn met_copies(alloc: Global, nodes: &[ImageNode]) -> Result<Vec<bool>, Memory>
    requires some { 0 < length nodes.now }
    requires few { length nodes.now ≤ MAX_CLAIM_NODES }
    requires earlier { AreEarlier nodes.now }
    ensures { IfOk result (λ marks. AreMet nodes.now marks.items) }
{
    let mut marks = vec![in alloc; false; COPIES * nodes.len()]?;
    marks[COPIES * (nodes.len() - 1)] = true;
    pass_down(&mut marks, nodes);
    Ok(marks)
}
