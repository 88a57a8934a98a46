//! What the bodies of a connectivity game's claims name.
ghost use Rattle.std.specs.Prelude.{◌≡◌, ◌≤◌, ◌++◌, OnOk};
ghost use Rattle.pg_graph.specs.Graph.{edge_count};
ghost use Rattle.pg_scene.specs.Items.{numbered};
ghost use Rattle.pg_scene.specs.SpanScenes.{first_items, part_item, span_items};

use crate::item::{Item, Set};
use crate::points::put_members;
use pg_base::{MAX_EDGES, Memory};
use pg_span::{SpanBody, SpanGame};

/// Puts the edge that X claims first, where there is one below n.
fn put_first(items: &mut Vec<Item>, n: u16, first: Option<u16>) -> Result<(), Memory>
    ensures { OnOk result (items.new.items ≡ items.old.items ++ first_items n first) }
{
    let Some(point) = first else {
        return Ok(());
    };
    if point < n {
        items.push(Item::Step { point, number: 1 })?;
    }
    Ok(())
}

/// Puts a vertex with the number of its part, where it is below n.
fn put_part(items: &mut Vec<Item>, n: u16, vertex: usize, part: u16) -> Result<(), Memory>
    ensures { OnOk result (items.new.items ≡ items.old.items ++ part_item n vertex part) }
{
    if vertex < usize::from(n) {
        items.push(Item::Part {
            vertex: vertex as u16,
            part,
        })?;
    }
    Ok(())
}

/// Puts the vertices below n with the numbers of their parts.
fn put_parts(items: &mut Vec<Item>, n: u16, parts: &[u16]) -> Result<(), Memory>
    ensures { OnOk result
        (items.new.items ≡ items.old.items ++ numbered (part_item n) 0 parts.now) }
{
    for i in 0..parts.len() {
        put_part(items, n, i, parts[i])?;
    }
    Ok(())
}

/// Puts what a body names.
pub(crate) fn put_span_body(
    items: &mut Vec<Item>,
    g: &SpanGame,
    n: u16,
    body: &SpanBody,
) -> Result<(), Memory>
    requires count { n ≡ edge_count g.now.graph }
    requires few { n ≤ MAX_EDGES }
    ensures { OnOk result (items.new.items ≡ items.old.items ++ span_items g.now body.now) }
{
    match body {
        SpanBody::Trees { first, a1, a2 } => {
            put_first(items, n, *first)?;
            put_members(items, n, Set::First, a1)?;
            put_members(items, n, Set::Second, a2)
        }
        SpanBody::Parts(parts) => put_parts(items, g.graph.vertices, parts.as_slice()),
    }
}
