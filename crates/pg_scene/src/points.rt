//! Points with their marks.
ghost use Rattle.std.specs.Prelude.{◌≡◌, ◌<◌, ◌≤◌, ◌++◌, OnOk};
ghost use Rattle.pg_scene.specs.Items.{mark_of, member_items, point_items};

use crate::item::{Item, Set};
use pg_base::{MAX_EDGES, MAX_MEMBERS, Memory, PointSet, Side};
use pg_game::Position;

/// The side that has the point.
fn mark_of(p: &Position, v: u16) -> Option<Side>
    requires { v < MAX_MEMBERS }
    ensures { result ≡ mark_of p.now v }
{
    if p.x.has(v) {
        Some(Side::X)
    } else if p.y.has(v) {
        Some(Side::Y)
    } else {
        None
    }
}

/// Puts each of so many points with its mark. An error is want of memory; what was put before
/// stays.
pub fn put_points(items: &mut Vec<Item>, n: u16, p: &Position) -> Result<(), Memory>
    requires { n ≤ MAX_EDGES }
    ensures { OnOk result (items.new.items ≡ items.old.items ++ point_items n p.now) }
{
    for v in 0..n {
        items.push(Item::Point {
            point: v,
            mark: mark_of(p, v),
        })?;
    }
    Ok(())
}

/// Puts the edges of a set that are below n. An error is want of memory; what was put before stays.
pub fn put_members(items: &mut Vec<Item>, n: u16, set: Set, edges: &PointSet) -> Result<(), Memory>
    requires { n ≤ MAX_EDGES }
    ensures { OnOk result (items.new.items ≡ items.old.items ++ member_items n set edges.now) }
{
    for v in 0..n {
        if edges.has(v) {
            items.push(Item::Member { point: v, set })?;
        }
    }
    Ok(())
}
