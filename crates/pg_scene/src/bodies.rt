//! What the bodies of nodes name.
ghost use Rattle.std.specs.Prelude.{◌≡◌, ◌++◌, ◌&&◌, OnOk};
ghost use Rattle.pg_scene.specs.Prelude.{flat_map, is_graph};
ghost use Rattle.pg_scene.specs.Items.{body_items, fault_items, reply_item, seen_if, set_items};

use crate::item::{Item, Set};
use crate::numbers::{put_pairs, put_steps};
use crate::points::put_members;
use crate::weights::put_weights;
use pg_base::{Memory, PointSet, Side};
use pg_cert::{Body, Reply};
use pg_game::{Field, Game, Position};
use std::alloc::Global;

/// Puts the item, where the test holds.
pub(crate) fn put_if(items: &mut Vec<Item>, seen: bool, item: Item) -> Result<(), Memory>
    ensures { OnOk result (items.new.items ≡ items.old.items ++ seen_if seen item) }
{
    if seen {
        items.push(item)?;
    }
    Ok(())
}

/// Puts a reply, where its point is below n.
fn put_reply(items: &mut Vec<Item>, n: u16, reply: Reply) -> Result<(), Memory>
    ensures { OnOk result (items.new.items ≡ items.old.items ++ reply_item n reply) }
{
    let point = reply.point;
    let child = reply.child;
    put_if(items, point < n, Item::Reply { point, child })
}

/// Puts the replies whose points are below n.
fn put_replies(items: &mut Vec<Item>, n: u16, replies: &[Reply]) -> Result<(), Memory>
    ensures { OnOk result
        (items.new.items ≡ items.old.items ++ flat_map (reply_item n) replies.now) }
{
    for reply in replies {
        put_reply(items, n, *reply)?;
    }
    Ok(())
}

/// Whether the game is played on a graph.
fn is_on_graph(g: &Game) -> bool
    ensures { result ≡ is_graph g.now.field }
{
    match &g.field {
        Field::Lines(_) => false,
        Field::Graph(_) => true,
    }
}

/// Puts the edges of two sets, the further one before them.
fn put_sets(
    items: &mut Vec<Item>,
    g: &Game,
    with_e: bool,
    first: &PointSet,
    second: &PointSet,
) -> Result<(), Memory>
    ensures { OnOk result
        (items.new.items ≡ items.old.items ++ set_items g.now with_e first.now second.now) }
{
    let seen = with_e && is_on_graph(g);
    put_if(items, seen, Item::Extra { set: Set::First })?;
    put_members(items, g.points(), Set::First, first)?;
    put_members(items, g.points(), Set::Second, second)
}

/// Puts what a body names.
pub(crate) fn put_body(
    alloc: Global,
    items: &mut Vec<Item>,
    g: &Game,
    p: &Position,
    side: Side,
    body: &Body,
) -> Result<(), Memory>
    ensures { OnOk result
        (items.new.items ≡ items.old.items ++ body_items g.now p.now side body.now) }
{
    let n = g.points();
    match body {
        Body::Over | Body::Weaker { .. } => Ok(()),
        Body::Move { point, child } => put_if(
            items,
            *point < n,
            Item::Move {
                point: *point,
                child: *child,
            },
        ),
        Body::All(replies) => put_replies(items, n, replies.as_slice()),
        Body::Pairs(pairs) => put_pairs(items, n, pairs.as_slice()),
        Body::Potential => put_weights(alloc, items, g, p, side),
        Body::Trees {
            with_e,
            first,
            second,
        }
        | Body::Cuts {
            with_e,
            first,
            second,
        } => put_sets(items, g, *with_e, first.as_set(), second.as_set()),
        Body::Threat(points) => put_steps(items, n, points.as_slice()),
    }
}

/// Puts that a node is faulty, where it is. An error is want of memory.
pub fn put_fault(items: &mut Vec<Item>, fault: Option<u8>) -> Result<(), Memory>
    ensures { OnOk result (items.new.items ≡ items.old.items ++ fault_items fault) }
{
    put_if(items, fault.is_some(), Item::Fault)
}
